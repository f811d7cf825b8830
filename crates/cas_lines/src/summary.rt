//! The summary of a load: how many of its lines were answered, and how.

ghost use Rattle.std.specs.Prelude.{◌≡◌, ◌<◌, ◌++◌, ◌∷◌, [], List, IfOk};
ghost use Rattle.cas_record.specs.declared.answer.Answer.{Answer as AnAnswer};
ghost use Rattle.cas_lines.specs.Summary.{is_done, is_conflict, is_unsettled, is_other, summary_of, summary_line};

use cas_record::Answer;
use std::alloc::{AllocError, Global};

/// How many lines of a load were answered, and how.
#[derive(Clone, Copy, Debug, PartialEq, Eq)]
pub struct Summary {
    /// All of them.
    pub lines: u32,
    /// Those whose change was done.
    pub done: u32,
    /// Those whose last round met a greater ballot.
    pub conflict: u32,
    /// Those whose change was proposed, and is not known to stand.
    pub unsettled: u32,
    /// Those that were answered otherwise.
    pub other: u32,
}

impl Summary {
    /// No line was answered yet.
    pub fn new() -> Summary
        ensures { result ≡ summary_of [] }
    {
        Summary {
            lines: 0,
            done: 0,
            conflict: 0,
            unsettled: 0,
            other: 0,
        }
    }

    /// Counts one answer more, where fewer than the greatest `u32` were counted.
    pub fn count(&mut self, answer: &Answer)
        requires room { self.old.lines < 4294967295 }
        requires counts { (answers : List AnAnswer) × (self.old ≡ summary_of answers) }
        ensures { (answers : List AnAnswer)
            → self.old ≡ summary_of answers → self.new ≡ summary_of (answers ++ answer.now ∷ []) }
    {
        self.lines += 1;
        match answer {
            Answer::Done { .. } => self.done += 1,
            Answer::Conflict { .. } => self.conflict += 1,
            Answer::Unsettled { .. } => self.unsettled += 1,
            _ => self.other += 1,
        }
    }
}

/// The line that tells the summary, with its newline.
pub fn print_summary(alloc: Global, summary: &Summary) -> Result<Vec<u8>, AllocError>
    ensures { IfOk result (λ line. line.items ≡ summary_line summary.now) }
{
    let Summary {
        lines,
        done,
        conflict,
        unsettled,
        other,
    } = *summary;
    let mut line = format!(in alloc; "load lines {lines} done {done} conflict {conflict}")?;
    write!(&mut line, " unsettled {unsettled} other {other}")?;
    line.push('\n')?;
    Ok(line.into_bytes())
}
