//! What a caller asks for by a numbered request, and what it is answered.

ghost use Rattle.std.specs.Prelude.{◌≡◌, IfSome, FitsSigned};
ghost use Rattle.std.specs.Int.{w64};
ghost use Rattle.cas_session.specs.Request.{value_after};

use cas_record::Answer;

/// What a request does to the value of a register.
#[derive(Clone, Copy, Debug, PartialEq, Eq)]
pub enum SessionAct {
    /// Adds this number to the value.
    Add(i64),
    /// Puts this number in place of the value.
    Put(i64),
}

impl SessionAct {
    /// The value that the act leaves. `None` where a sum is outside `i64`.
    pub fn value_after(self, value: i64) -> Option<i64>
        ensures value { result ≡ value_after self value }
        ensures fits { IfSome result (FitsSigned w64) }
    {
        match self {
            SessionAct::Add(addend) => value.checked_add(addend),
            SessionAct::Put(number) => Some(number),
        }
    }
}

/// What a numbered request is answered.
///
/// After [`SessionAnswer::Tired`], and after [`SessionAnswer::Stopped`] where `pending` is true, an attempt of the request may yet
/// act, once. The caller then asks again with the same number, never with a new one.
#[derive(Debug, PartialEq, Eq, Drop)]
pub enum SessionAnswer {
    /// The request acted, and left this value. `fresh` is true where this call made it act, and false where the register tells that it
    /// had acted before.
    Done { reply: i64, fresh: bool },
    /// A later request of the caller has acted: `last` is the number of its last one.
    Stale { last: u64 },
    /// The number is more than one above that of the caller's last request, `last`, or above 0 where it has none.
    Gap { last: u64 },
    /// The sum of this value and the request's number is outside `i64`. Nothing was changed.
    Unfit { value: i64 },
    /// The register holds a number, or a text that no session has. Nothing was changed.
    NotSession,
    /// As many attempts as were allowed came to nothing: `last` is the answer that ended the last one.
    Tired { last: Answer },
    /// A change was refused by this answer, or there was no memory. Where `pending` is true an attempt of this call may yet act.
    Stopped { answer: Answer, pending: bool },
}
