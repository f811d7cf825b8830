//! What runs changes.

ghost use Rattle.std.specs.Prelude.{ℕ, List};
ghost use Rattle.cas_change.specs.declared.program.Clause.{Clause};
ghost use Rattle.cas_record.specs.declared.answer.Answer.{Answer as AnAnswer};

use cas_change::{Key, Program};
use cas_record::Answer;

/// What runs a change of a register.
pub trait Changer {
    // what a call may give: the changer before it, the key and the program, the answer, and the changer after it. Only a call shows that
    // it holds
    ghost change_gives: { Self → List ℕ → List Clause → AnAnswer → Self → Type 0 };

    /// Runs the program on the register with this key, and gives the answer.
    fn change(&mut self, key: &Key, program: &Program) -> Answer
        ensures { change_gives self.old key.now program.now result self.new };
}
