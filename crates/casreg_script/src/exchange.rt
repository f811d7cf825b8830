//! One exchange, in which proposer 0 asks all members: from its question to what they told.

ghost use Rattle.std.specs.Prelude.{◌≡◌, ◌<◌, ℕ, IfOk, IfErr, OnOk, OnErr, List, false};
ghost use Rattle.cas_model.specs.Council.{Question};
ghost use Rattle.cas_model.specs.View.{meaning};
ghost use Rattle.cas_record.specs.declared.answer.Answer.TheVariants as answer;
ghost use Rattle.cas_record.specs.declared.operator.OpAnswer.TheVariants as op;
ghost use Rattle.cas_world.specs.Exchanges.Exchange.{IsStopped, MayAskThis, WasToldOrder, asking_of};
ghost use Rattle.casreg_script.specs.Frames.Conditions.{NetworkView};
ghost use Rattle.casreg_script.specs.Exchanges.Exchanges.{AllAskTurned, BreaksOffAsking, AsksMembers, CameOf, IsAsking, KeepsCalls, KeepsOrder, answers_of, listing_left};
ghost use Rattle.casreg_script.specs.Frames.Network.{IsNetwork, Through};

use crate::network::{Network, is_to_repeat};
use crate::strays::let_in;
use cas_disk::Disk;
use cas_record::{Answer, OpAnswer};
use cas_slot::Shelf;
use cas_world::{Exchange, Gathered, World};
use std::alloc::AllocError;

/// Asks the members, and gathers what they told. What becomes of each frame the network says. An `Err` is what the operator's call was
/// told, and so is what a probe found.
pub(crate) fn exchange<S: Shelf, V: Disk>(
    world: &mut World<S, V>,
    network: &mut Network,
    what: Exchange,
) -> Result<Gathered, OpAnswer>
    requires may { MayAskThis world.old what }
    requires network { (by : NetworkView) × IsNetwork network.old by }
    ensures asks { Through network.old network.new (λ by next. AsksMembers (meaning S.Shelf V.Disk)
        by (asking_of world.old what) (answers_of what) world.old next world.new) }
    ensures gathered { IfOk result (λ gathered. CameOf what world.old gathered world.new) }
    ensures less { result ≡ Ok Gathered.More → listing_left world.new < listing_left world.old }
    ensures told { IfErr result (WasToldOrder world.new) }
    ensures stopped { (key : List ℕ) → what ≡ Exchange.Read key → IfErr result IsStopped }
    ensures network { (by : NetworkView)
        → IsNetwork network.old by → (next : NetworkView) × IsNetwork network.new next }
    ensures calls { KeepsCalls world.old world.new }
{
    world.ask_all(what)?;
    if ask_turns(world, network).is_err() {
        return Err(OpAnswer::Stopped(Answer::NoMemory { proposed: false }));
    }
    world.gather()
}

/// Makes turns until no frame of the exchange waits. What becomes of each frame the network says.
fn ask_turns<S: Shelf, V: Disk>(
    world: &mut World<S, V>,
    network: &mut Network,
) -> Result<(), AllocError>
    requires asks { (question : Question) × IsAsking world.old question }
    requires network { (by : NetworkView) × IsNetwork network.old by }
    ensures through { OnOk result (Through network.old network.new
        (λ by next. AllAskTurned (meaning S.Shelf V.Disk) by world.old next world.new)) }
    ensures fails { OnErr result (Through network.old network.new
        (λ by next. BreaksOffAsking (meaning S.Shelf V.Disk) by world.old next world.new)) }
    ensures asks { (question : Question)
        → IsAsking world.old question → OnOk result (IsAsking world.new question) }
    ensures order { OnOk result (KeepsOrder world.old world.new) }
    ensures told { OnErr result (WasToldOrder world.new (op.Stopped (answer.NoMemory false))) }
    ensures network { (by : NetworkView)
        → IsNetwork network.old by → (next : NetworkView) × IsNetwork network.new next }
    ensures calls { KeepsCalls world.old world.new }
{
    let mut again = false;
    while let Some(front) = world.front(0) {
        let_in(world, network);
        let verdict = network.verdict(again, front.0, front.1);
        world.turn(0, verdict)?;
        again = is_to_repeat(again, verdict);
    }
    Ok(())
}
