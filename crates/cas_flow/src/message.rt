//! What a frame bears.
ghost use Rattle.std.specs.Prelude.{◌≡◌};
ghost use Rattle.cas_flow.specs.Message.{leg_of_phase};

use cas_fate::Leg;
use cas_slot::{Phase, Reply, Request};

/// What a frame bears.
#[derive(Debug, PartialEq, Eq, Drop)]
pub enum Message {
    /// A proposer's question to one acceptor.
    Request(Request),
    /// An acceptor's answer.
    Reply(Reply),
}

/// The leg of a request of this kind.
pub(crate) fn leg_of_phase(phase: Phase) -> Leg
    ensures { result ≡ leg_of_phase phase }
{
    match phase {
        Phase::Prepare => Leg::Prepare,
        Phase::Accept => Leg::Accept,
        Phase::Ages => Leg::Ages,
        Phase::Remove => Leg::Remove,
        Phase::List => Leg::List,
        Phase::Probe => Leg::Probe,
    }
}
