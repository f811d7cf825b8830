//! What is decided on a request by what a register tells.

ghost use Rattle.std.specs.Prelude.{◌≡◌, ◌≤◌};
ghost use Rattle.cas_session.specs.Request.{decided, decided_new, ProposesFitting};

use crate::request::{SessionAct, SessionAnswer};
use cas_session_text::Session;

/// What is decided on a request.
#[derive(Debug, PartialEq, Eq, Drop)]
pub enum Decision {
    /// It is answered so, and nothing is changed.
    Answered(SessionAnswer),
    /// It is next, and leaves this value.
    Proposes(i64),
}

/// What is decided on this request of a caller by what the register tells.
pub fn decide(session: &Session, caller: u8, number: u64, act: SessionAct) -> Decision
    requires { 1 ≤ number }
    ensures decided { result
        ≡ decided (record { caller = caller; number = number; act = act }) session.now }
    ensures fits { ProposesFitting result }
{
    match session.last_reply(caller) {
        Some(last) if number == last.number => Decision::Answered(SessionAnswer::Done {
            reply: last.reply,
            fresh: false,
        }),
        Some(last) if number < last.number => {
            Decision::Answered(SessionAnswer::Stale { last: last.number })
        }
        Some(last) => decide_new(session.value(), last.number, caller, number, act),
        None => decide_new(session.value(), 0, caller, number, act),
    }
}

/// What is decided on a request that has not come, by the value and the number of the caller's last request.
fn decide_new(value: i64, last: u64, caller: u8, number: u64, act: SessionAct) -> Decision
    requires { 1 ≤ number }
    ensures decided { result
        ≡ decided_new (record { caller = caller; number = number; act = act }) value last }
    ensures fits { ProposesFitting result }
{
    if number - 1 != last {
        return Decision::Answered(SessionAnswer::Gap { last });
    }
    match act.value_after(value) {
        Some(left) => Decision::Proposes(left),
        None => Decision::Answered(SessionAnswer::Unfit { value }),
    }
}
