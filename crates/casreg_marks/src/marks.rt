//! The marks of a record as text. Each line is written as it is made, so that no more than a line stands in memory.

ghost use Rattle.std.specs.Prelude.{◌≡◌, ◌<◌, ◌≤◌, ◌^◌, true, length, IfOk, OnOk, OnErr, IsErrOf};
ghost use Rattle.std.specs.Io.KnownBytes.{Appends};
ghost use Rattle.cas_base.specs.Faults.{Rose};
ghost use Rattle.cas_change_text.specs.Words.{words_of};
ghost use Rattle.cas_lines.specs.Lines.{lines_of};
ghost use Rattle.cas_audit.specs.Spelling.Lines.{IsMarkLine};
ghost use Rattle.cas_audit.specs.Spelling.Printing.{has_text, mark_text};
ghost use Rattle.cas_audit.specs.Spelling.Texts.{Spells};
ghost use Rattle.casreg_tasks.specs.Texts.{WroteFrontOf};
ghost use Rattle.casreg_marks.specs.Marks.{count_line, mark_line, with_text, record_text};

use cas_audit::{has_text, print_mark};
use cas_lines::sink::{Sink, put_all};
use cas_lines::source::Failed;
use cas_record::Mark;
use std::alloc::{AllocError, Global};

/// Why the text of a record was not written whole. The sink has a front of it.
#[derive(Clone, Copy, Debug, PartialEq, Eq)]
pub enum MarksFault {
    /// The sink failed, and its count of faults rose.
    WriteFault,
    /// There was no memory for a line.
    NoMemory,
}

impl From<Failed> for MarksFault {
    ghost use Rattle.std.specs.Prelude.{◌≡◌};
    ghost use Rattle.casreg_marks.specs.declared.marks.MarksFault.TheVariants.{WriteFault};

    ghost from_gives = { λ _ fault. fault ≡ WriteFault };

    fn from(_failed: Failed) -> MarksFault {
        MarksFault::WriteFault
    }
}

impl From<AllocError> for MarksFault {
    ghost use Rattle.std.specs.Prelude.{◌≡◌};
    ghost use Rattle.casreg_marks.specs.declared.marks.MarksFault.TheVariants.{NoMemory};

    ghost from_gives = { λ _ fault. fault ≡ NoMemory };

    fn from(_error: AllocError) -> MarksFault {
        MarksFault::NoMemory
    }
}

/// Writes the marks of a record, the oldest first: a line `record` with how many there are, and then a line for each, as
/// [`print_mark`] spells it. A mark that no line can spell ([`has_text`]) is left out, and not counted.
///
/// Each line is written before the next one is made. After an `Err` the sink has a front of all this.
pub fn write_marks<K: Sink>(alloc: Global, marks: &[Mark], sink: &mut K) -> Result<(), MarksFault>
    ensures all { OnOk result (Appends (K.contents sink.old) (K.contents sink.new)
        (record_text (with_text marks.now))) }
    // An audit that reads these lines reads these marks.
    ensures spells { OnOk result (length marks.now < 2 ^ 32
        → Spells (lines_of (record_text (with_text marks.now))) (with_text marks.now)) }
    ensures front { OnErr result (WroteFrontOf (λ text. text ≡ record_text (with_text marks.now))
        (K.contents sink.old) (K.contents sink.new)) }
    ensures never_falls { K.faults_of sink.old ≤ K.faults_of sink.new }
    ensures write_fault { IsErrOf result MarksFault.WriteFault
        → Rose (K.faults_of sink.old) (K.faults_of sink.new) }
{
    let head = print_count(alloc, marks)?;
    put_all(sink, &head)?;
    for mark in marks {
        let line = print_line(alloc, mark)?;
        put_all(sink, &line)?;
    }
    Ok(())
}

/// The line that says how many of the marks the text has.
fn print_count(alloc: Global, marks: &[Mark]) -> Result<Vec<u8>, AllocError>
    ensures { IfOk result (λ line. line.items ≡ count_line (length (with_text marks.now))) }
{
    let count = count_with_text(marks);
    Ok(format!(in alloc; "record {count}\n")?.into_bytes())
}

/// How many of the marks a line can spell.
fn count_with_text(marks: &[Mark]) -> usize
    ensures { result ≡ length (with_text marks.now) }
{
    let mut count = 0;
    for mark in marks {
        if has_text(mark) {
            count += 1;
        }
    }
    count
}

/// The line of a mark. It is empty where no line can spell the mark.
fn print_line(alloc: Global, mark: &Mark) -> Result<Vec<u8>, AllocError>
    ensures line { IfOk result (λ line. line.items ≡ mark_line mark.now) }
    ensures says { IfOk result (λ _. has_text mark.now ≡ true
        → IsMarkLine (words_of (mark_text mark.now)) mark.now) }
{
    if !has_text(mark) {
        return Ok(Vec::new(alloc));
    }
    let mut line = print_mark(alloc, mark)?;
    line.push(b'\n')?;
    Ok(line)
}
