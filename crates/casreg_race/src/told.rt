//! What the lines of a race were answered, and how that is written.

ghost use Rattle.std.specs.Prelude.{◌≡◌, IfOk};
ghost use Rattle.std.specs.List.{flat_map};
ghost use Rattle.casreg_race.specs.Texts.{told_line};

use cas_lines::answer::{print_answer, print_op, print_read};
use cas_read::ReadAnswer;
use cas_record::{Answer, OpAnswer};
use std::alloc::{AllocError, Global};

/// What a line of a race was answered.
#[derive(Debug, Drop)]
pub enum Told {
    /// What a change was answered.
    Change(Answer),
    /// What a call of the operator was answered.
    Operator(OpAnswer),
    /// What a read of the operator was answered.
    Read(ReadAnswer),
}

impl Told {
    /// The line that tells it, of this caller.
    fn print(&self, alloc: Global, caller: u8) -> Result<Vec<u8>, AllocError>
        ensures { IfOk result (λ line. line.items ≡ told_line caller self.now) }
    {
        match self {
            Told::Change(answer) => print_answer(alloc, caller, answer),
            Told::Operator(answer) => print_op(alloc, answer),
            Told::Read(answer) => print_read(alloc, answer),
        }
    }
}

/// The lines that tell what the caller was answered.
pub(crate) fn print_told(alloc: Global, caller: u8, told: &[Told]) -> Result<Vec<u8>, AllocError>
    ensures { IfOk result (λ text. text.items ≡ flat_map (told_line caller) told.now) }
{
    let mut text = Vec::new(alloc);
    for one in told {
        let line = one.print(alloc, caller)?;
        text.extend_from_slice(&line)?;
    }
    Ok(text)
}
