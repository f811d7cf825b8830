//! What can make changes for a caller: a store with its record, as the caller sees it.

ghost use Rattle.std.specs.Prelude.{◌≡◌, List, ℕ};
ghost use Rattle.cas_record.specs.declared.mark.Mark.{Mark};
ghost use Rattle.cas_record.specs.Legal.{IsLegal};
ghost use Rattle.cas_session_text.specs.Contents.{IsCaller};
ghost use Rattle.cas_session.specs.Calls.{Changes};

use cas_change::{Key, Program};
use cas_record::Answer;

/// Makes changes for one caller, one try each.
///
/// It has as meaning what the caller has seen of the record of marks, newest first. That only grows.
pub trait Changer {
    /// The premise under which what is seen is a legal record: that the disks keep what they promise, say.
    ghost tells: { Type 0 };

    /// What is seen of the record, newest mark first.
    ghost seen: { Self → List Mark };

    /// The number of the caller.
    ghost caller_of: { Self → ℕ };

    /// The caller, 1 to 16.
    fn caller(&self) -> u8
        ensures caller { result ≡ caller_of self.now }
        ensures known { IsCaller result };

    /// Makes one try to apply the program to the key.
    ///
    /// The call is marked as begun after all that was seen, and as ended with its answer. Where it is refused with
    /// [`Answer::RecordFull`], or with [`Answer::NoMemory`] before anything was proposed, it may not have been begun.
    fn change(&mut self, key: &Key, program: &Program) -> Answer
        ensures caller { caller_of self.new ≡ caller_of self.old }
        ensures answer { Changes (caller_of self.old) key.now program.now (seen self.old)
            (seen self.new) result }
        ensures legal { tells → IsLegal (seen self.new) };
}
