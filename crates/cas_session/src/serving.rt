//! A request served, in as many attempts as it takes or are allowed.

ghost use Rattle.std.specs.Prelude.{◌≡◌, ◌≤◌};
ghost use Rattle.cas_record.specs.Legal.{IsLegal};
ghost use Rattle.cas_session.specs.Request.{request_of};
ghost use Rattle.cas_session.specs.Serving.{WasServed};

use crate::attempts::{Ending, attempt};
use crate::changer::Changer;
use crate::request::{SessionAct, SessionAnswer};
use cas_change::Key;
use std::alloc::Global;

/// Serves the caller's request of that number on the key, in at most `tries` attempts.
///
/// A request that has acted is answered as it was, so it may be sent again after any answer, by the same number and act. After
/// [`SessionAnswer::Tired`], and after a [`SessionAnswer::Stopped`] that is pending, it is to be sent again so.
/// [`SessionAnswer::Stopped`] comes with [`Answer::NoMemory`](cas_record::Answer::NoMemory) where the serving itself finds no memory.
pub fn submit<C: Changer>(
    alloc: Global,
    changer: &mut C,
    key: &Key,
    number: u64,
    act: SessionAct,
    tries: u32,
) -> SessionAnswer
    requires numbered { 1 ≤ number }
    requires some { 1 ≤ tries }
    ensures caller { C.caller_of changer.new ≡ C.caller_of changer.old }
    ensures served { WasServed (request_of (C.caller_of changer.old) number act) key.now tries
        (C.seen changer.old) (C.seen changer.new) result }
    ensures legal { C.tells → IsLegal (C.seen changer.old) → IsLegal (C.seen changer.new) }
{
    let mut left = tries;
    let mut unsettled = false;
    loop {
        left -= 1;
        match attempt(alloc, changer, key, number, act, unsettled) {
            Ending::Ends(answer) => return answer,
            Ending::Again { last, .. } if left == 0 => return SessionAnswer::Tired { last },
            Ending::Again { pending, .. } => unsettled = pending,
        }
    }
}
