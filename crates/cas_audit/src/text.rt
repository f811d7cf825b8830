//! The audit of a record's text, from the bytes in to the line out.

ghost use Rattle.std.specs.Prelude.{◌≡◌, ◌≢◌, ℕ, ◌+◌, ◌<◌, ◌≤◌, ◌++◌, ◌∷◌, List, [], length, Ok, Err, IfOk, IfErr, IfSome, OnOk, IsErrOf};
ghost use Rattle.std.specs.Io.KnownBytes.{Appends, IsAtEnd};
ghost use Rattle.cas_base.specs.Faults.{Rose};
ghost use Rattle.cas_lines.specs.Lines.{Whole, TooMany, TooLong, ending_of};
ghost use Rattle.cas_audit.specs.Spelling.Progress.{IsProgress, IsFoundInInput, WroteFront};
ghost use Rattle.cas_audit.specs.Spelling.Texts.{RecordsAreRead, IsFound, line_count, finding_line};
ghost use Rattle.cas_lines.specs.declared.lines.TheConstants.{MOST_LINES};
ghost use Rattle.cas_audit.specs.declared.text.AuditFault.TheVariants.{WriteFault, NoMemory};

use crate::auditor::Auditor;
use crate::finding::{Finding, print_finding};
use crate::reading::read_mark;
use crate::words::{read_u32, take_name};
use cas_change_text::{TextRefusal, Why, Words, read_end};
use cas_lines::lines::{Line, LineFault, Lines, MOST_LINES};
use cas_lines::sink::{Sink, put_all};
use cas_lines::source::{Failed, Source};
use std::alloc::{AllocError, Global};
use thiserror::Error;

/// Why nothing was told of a text.
#[derive(Clone, Copy, Debug, PartialEq, Eq, Error)]
pub enum AuditFault {
    /// The source failed. Nothing was written.
    #[error("the text could not be read")]
    ReadFault,
    /// The sink failed. It has a front of the line that says what was found.
    #[error("what was found could not be written")]
    WriteFault,
    /// The text has more than 1,000,000 lines. Nothing was written.
    #[error("the text has too many lines")]
    TooManyLines,
    /// There was no memory. Nothing was written.
    #[error("there is no memory")]
    NoMemory,
    /// The line of this number has more than 65,536 bytes. Nothing was written.
    #[error("line {line} is too long")]
    Endless { line: u32 },
}

impl From<LineFault> for AuditFault {
    ghost use Rattle.std.specs.Prelude.{◌≡◌};
    ghost use Rattle.cas_audit.specs.Spelling.Progress.{fault_of_line};

    ghost from_gives = { λ fault audit_fault. audit_fault ≡ fault_of_line fault };

    fn from(fault: LineFault) -> AuditFault {
        match fault {
            LineFault::ReadFault => AuditFault::ReadFault,
            LineFault::TooManyLines => AuditFault::TooManyLines,
            LineFault::Endless { line } => AuditFault::Endless { line },
            LineFault::NoMemory => AuditFault::NoMemory,
        }
    }
}

/// The failure of a sink.
impl From<Failed> for AuditFault {
    ghost from_gives = { λ _ fault. fault ≡ WriteFault };

    fn from(_failed: Failed) -> AuditFault {
        AuditFault::WriteFault
    }
}

impl From<AllocError> for AuditFault {
    ghost from_gives = { λ _ fault. fault ≡ NoMemory };

    fn from(_error: AllocError) -> AuditFault {
        AuditFault::NoMemory
    }
}

/// What is known of a text after some of its lines.
#[derive(Clone, Copy)]
enum Progress {
    /// There was no line.
    Empty,
    /// All of them fit, and so many marks are still to come.
    Marks { left: u32 },
    /// The line of this number is the first that is not what must stand there.
    Bad { line: u32, why: Why },
}

/// How many marks a record has, as the first line of its text says.
#[tactic(auto, unfolding(crate::specs::Spelling::Texts::count_at))]
fn read_count(line: &[u8]) -> Result<u32, TextRefusal>
    ensures { result ≡ line_count line.now }
{
    let mut words = Words::of(line);
    take_name(&mut words, "record")?;
    let count = read_u32(&mut words)?;
    read_end(&mut words)?;
    Ok(count)
}

/// What is known of a text after its first line.
fn first_progress(line: &[u8]) -> Progress
    ensures { IsProgress (line.now ∷ []) [] result }
{
    match read_count(line) {
        Ok(left) => Progress::Marks { left },
        Err(refusal) => Progress::Bad {
            line: 1,
            why: refusal.why,
        },
    }
}

/// What is known of a text after a line more, where marks are still to come. Only memory can fail.
fn next_progress(
    alloc: Global,
    auditor: &mut Auditor,
    left: u32,
    line: &Line,
) -> Result<Progress, AllocError>
    requires { 0 < left }
    ensures { (lines : List (List ℕ))
        → length lines + 1 ≡ line.now.number → IsProgress lines auditor.old (Progress.Marks left)
        → IfOk result (λ progress. IsProgress (lines ++ line.now.bytes ∷ []) auditor.new progress) }
{
    match read_mark(alloc, line.bytes()) {
        Ok(mark) => {
            auditor.mark(mark)?;
            Ok(Progress::Marks { left: left - 1 })
        }
        Err(refusal) if refusal.why == Why::NoMemory => Err(AllocError),
        Err(refusal) => Ok(Progress::Bad {
            line: line.number(),
            why: refusal.why,
        }),
    }
}

/// The audit of a text that comes line by line.
#[derive(Drop)]
struct TextAudit {
    alloc: Global,
    auditor: Auditor,
    /// How many lines came.
    lines: u32,
    progress: Progress,
    ghost few: { lines ≤ MOST_LINES },
}

impl TextAudit {
    /// The audit of no lines.
    fn new(alloc: Global) -> TextAudit
        ensures lines { result.lines ≡ 0 }
        ensures progress { IsProgress [] result.auditor result.progress }
    {
        TextAudit {
            alloc,
            auditor: Auditor::new(alloc),
            lines: 0,
            progress: Progress::Empty,
        }
    }

    /// Takes the next line of the text. Only memory can fail.
    fn take(&mut self, line: &Line) -> Result<(), AllocError>
        requires next { line.now.number ≡ self.old.lines + 1 }
        requires fits { line.now.number ≤ MOST_LINES }
        ensures lines { OnOk result (self.new.lines ≡ line.now.number) }
        ensures progress { (lines : List (List ℕ)) → length lines ≡ self.old.lines
            → IsProgress lines self.old.auditor self.old.progress → OnOk result
            (IsProgress (lines ++ line.now.bytes ∷ []) self.new.auditor self.new.progress) }
    {
        self.progress = match self.progress {
            Progress::Empty => first_progress(line.bytes()),
            Progress::Marks { left: 0 } => Progress::Bad {
                line: line.number(),
                why: Why::UnknownWord,
            },
            Progress::Marks { left } => {
                next_progress(self.alloc, &mut self.auditor, left, line)?
            }
            Progress::Bad { line, why } => Progress::Bad { line, why },
        };
        self.lines = line.number();
        Ok(())
    }

    /// What is found, where no line follows.
    fn finding(&self) -> Finding
        ensures { (lines : List (List ℕ)) → length lines ≡ self.now.lines
            → IsProgress lines self.now.auditor self.now.progress → IsFound lines result }
    {
        match self.progress {
            Progress::Empty => Finding::Bad {
                line: 1,
                why: Why::NoWord,
            },
            Progress::Marks { left: 0 } => match self.auditor.verdict() {
                None => Finding::Legal,
                Some(broken) => Finding::Broken(broken),
            },
            Progress::Marks { .. } => Finding::Bad {
                line: self.lines + 1,
                why: Why::NoWord,
            },
            Progress::Bad { line, why } => Finding::Bad { line, why },
        }
    }
}

/// What is found in the whole text.
fn find<S: Source>(alloc: Global, source: &mut S) -> Result<Finding, AuditFault>
    ensures found { IfOk result (λ finding. IsFoundInInput S.take_gives source.old source.new
        (S.remaining source.old) finding) }
    ensures read { OnOk result (IsAtEnd (S.remaining source.new)) }
    ensures whole { OnOk result
        (IfSome (S.remaining source.old) (λ input. ending_of input ≡ Whole)) }
    ensures too_many { IsErrOf result AuditFault.TooManyLines
        → IfSome (S.remaining source.old) (λ input. ending_of input ≡ TooMany) }
    ensures endless { (line : ℕ) → IsErrOf result (AuditFault.Endless line)
        → IfSome (S.remaining source.old) (λ input. ending_of input ≡ TooLong line) }
    ensures read_fault { IsErrOf result AuditFault.ReadFault
        → Rose (S.faults_of source.old) (S.faults_of source.new) }
    ensures no_write { result ≢ Err AuditFault.WriteFault }
{
    let mut lines = Lines::new(alloc);
    let mut audit = TextAudit::new(alloc);
    while let Some(line) = lines.next(source)? {
        audit.take(&line)?;
    }
    Ok(audit.finding())
}

/// Audits the record that a text spells: reads the text to its end, writes one line that says what was found, and answers that.
///
/// The first line says how many marks there are, as `record 7`, and each line behind it is the text of one mark. The line that is written
/// is `legal`, `broken L<rule> at <mark>` with the first rule that is broken and how many marks the shortest front has that is not
/// legal, or `bad <line> <reason>` with the first line that does not fit. A line that is missing there is `no word`, and one too many is
/// `unknown word`. A text that spells no record is not audited, whatever its marks break.
///
/// After an `Err` other than [`AuditFault::WriteFault`] nothing was written. [`AuditFault::ReadFault`] comes only where the source's count
/// of faults rose, [`AuditFault::WriteFault`] only where the sink's did.
pub fn audit_text<S: Source, K: Sink>(
    alloc: Global,
    source: &mut S,
    sink: &mut K,
) -> Result<Finding, AuditFault>
    ensures found { IfOk result (λ finding. IsFoundInInput S.take_gives source.old source.new
        (S.remaining source.old) finding) }
    ensures written { IfOk result
        (λ finding. Appends (K.contents sink.old) (K.contents sink.new) (finding_line finding)) }
    ensures read { OnOk result (IsAtEnd (S.remaining source.new)) }

    // Where the sink failed it has a front of that line and not all of it. Else nothing was written.
    ensures front { IsErrOf result AuditFault.WriteFault → WroteFront S.take_gives
        source.old source.new (S.remaining source.old) (K.contents sink.old) (K.contents sink.new) }
    ensures unwritten { IfErr result (λ fault. fault ≢ AuditFault.WriteFault
        → sink.new ≡ sink.old) }

    // Each error but want of memory comes by its cause alone.
    ensures whole { OnOk result
        (IfSome (S.remaining source.old) (λ input. ending_of input ≡ Whole)) }
    ensures too_many { IsErrOf result AuditFault.TooManyLines
        → IfSome (S.remaining source.old) (λ input. ending_of input ≡ TooMany) }
    ensures endless { (line : ℕ) → IsErrOf result (AuditFault.Endless line)
        → IfSome (S.remaining source.old) (λ input. ending_of input ≡ TooLong line) }
    ensures read_fault { IsErrOf result AuditFault.ReadFault
        → Rose (S.faults_of source.old) (S.faults_of source.new) }
    ensures write_fault { IsErrOf result AuditFault.WriteFault
        → Rose (K.faults_of sink.old) (K.faults_of sink.new) }
{
    let finding = find(alloc, source)?;
    let line = print_finding(alloc, finding)?;
    put_all(sink, &line)?;
    Ok(finding)
}

/// What is read of a text is exactly the record that its lines spell.
pub fn records_are_read()
    ensures { RecordsAreRead }
{}
