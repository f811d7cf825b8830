//! The texts of answers: of changes, of operators, of bad lines, of events, and of what an acceptor shows.
//!
//! Each `print_` gives a whole line with its newline, and each `push_` writes a text behind a line. Only memory can
//! fail, and a `push_` may then have written a part of its text.

ghost use Rattle.std.specs.Prelude.{◌≡◌, ◌++◌, string_bytes, OnOk, IfOk};
ghost use Rattle.cas_ballot.specs.Ballot.{ballot_text};
ghost use Rattle.cas_lines.specs.Answers.{took_text, cause_text, answer_text, change_line, bad_line, event_text, event_line, accepted_text, shown_text, shown_line};

pub use crate::op_answer::{print_op, print_read, push_key, push_op, push_read};
use cas_ballot::{AcceptorId, Ballot};
use cas_change::{Key, Took};
use cas_change_text::{Why, push_decimal, push_state};
use cas_record::{Answer, Cause};
use cas_slot::{Accepted, Slot};
use std::alloc::{AllocError, Global};

/// For how many bytes an answer has room at first. Only a longer one grows.
const USUAL_ANSWER: usize = 64;

/// What an event is answered.
#[derive(Clone, Copy, Debug, PartialEq, Eq)]
pub enum EventAnswer {
    /// It was done, or there was nothing to do.
    Ok,
    /// There is no such late frame, or the acceptor was never a member.
    Absent,
    /// The disk failed, and its count of faults rose.
    Fault,
    /// What is on the disk is not of this store's format, from this byte on.
    Foreign { at: u64 },
    /// The record has no room for the marks of the event.
    RecordFull,
    /// There was no memory.
    NoMemory,
}

/// What an acceptor is shown to keep for a key.
#[derive(Debug, PartialEq, Eq, Drop)]
pub enum Shown {
    /// It has no slot for the key, or was never a member.
    Nothing,
    /// It is down.
    Down,
    /// It has this slot.
    Kept(Slot),
}

/// The line that answers a change of this caller, with its newline.
pub fn print_answer(alloc: Global, caller: u8, answer: &Answer) -> Result<Vec<u8>, AllocError>
    ensures { IfOk result (λ line. line.items ≡ change_line caller answer.now) }
{
    let mut line = String::with_capacity(alloc, USUAL_ANSWER)?;
    push_decimal(&mut line, u64::from(caller))?;
    line.push_str(": ")?;
    push_answer(&mut line, answer)?;
    line.push('\n')?;
    Ok(line.into_bytes())
}

/// The line that says why the input's line of this number is bad, with its newline.
pub fn print_bad(alloc: Global, number: u32, why: Why) -> Result<Vec<u8>, AllocError>
    ensures { IfOk result (λ line. line.items ≡ bad_line number why) }
{
    let mut line = String::with_capacity(alloc, USUAL_ANSWER)?;
    write!(line, "bad {number} ")?;
    line.push_str(why.reason())?;
    line.push('\n')?;
    Ok(line.into_bytes())
}

/// The line that answers an event, with its newline.
pub fn print_event(alloc: Global, answer: &EventAnswer) -> Result<Vec<u8>, AllocError>
    ensures { IfOk result (λ line. line.items ≡ event_line answer.now) }
{
    let mut line = String::new(alloc);
    push_event(&mut line, answer)?;
    line.push('\n')?;
    Ok(line.into_bytes())
}

/// The line that tells what an acceptor keeps for a key, with its newline.
pub fn print_shown(
    alloc: Global,
    id: AcceptorId,
    key: &Key,
    shown: &Shown,
) -> Result<Vec<u8>, AllocError>
    ensures { IfOk result (λ line. line.items ≡ shown_line id key.now shown.now) }
{
    let number = id.number();
    let mut line = format!(in alloc; "{number} ")?.into_bytes();
    line.extend_from_slice(key.bytes())?;
    let mut text = String::from_str(alloc, ": ")?;
    push_shown(&mut text, shown)?;
    text.push('\n')?;
    line.extend_from_slice(text.as_bytes())?;
    Ok(line)
}

/// Writes behind `line` what a call that asks for a change is answered.
pub fn push_answer(line: &mut String, answer: &Answer) -> Result<(), AllocError>
    ensures { OnOk result
        (string_bytes line.new ≡ string_bytes line.old ++ answer_text answer.now) }
{
    match answer {
        Answer::Done {
            state,
            took,
            ballot,
        } => {
            line.push_str("done ")?;
            push_state(line, state)?;
            line.push_str(" at ")?;
            push_ballot(line, *ballot)?;
            line.push_str(took_note(*took))
        }
        Answer::Conflict { met } => write!(line, "conflict {met}"),
        Answer::Aged { least } => write!(line, "aged {least}"),
        Answer::Full { acceptor } => {
            let acceptor = acceptor.number();
            write!(line, "full {acceptor}")
        }
        Answer::Short { got, need } => write!(line, "short {got} {need}"),
        Answer::Moved { era } => write!(line, "moved {era}"),
        Answer::Crashed => line.push_str("crashed"),
        Answer::Unsettled { why } => {
            line.push_str("unsettled ")?;
            push_cause(line, why)
        }
        Answer::Down => line.push_str("down"),
        Answer::VaultFault => line.push_str("vault fault"),
        Answer::Spent => line.push_str("spent"),
        Answer::RecordFull => line.push_str("record full"),
        Answer::NoMemory { proposed: false } => line.push_str("no memory"),
        Answer::NoMemory { proposed: true } => line.push_str("no memory proposed"),
    }
}

/// Writes the ballot behind `line`.
fn push_ballot(line: &mut String, ballot: Ballot) -> Result<(), AllocError>
    ensures { OnOk result (string_bytes line.new ≡ string_bytes line.old ++ ballot_text ballot) }
{
    push_decimal(line, ballot.counter)?;
    line.push('.')?;
    push_decimal(line, u64::from(ballot.proposer))
}

/// Writes behind `line` why a proposed change is not known to stand.
pub fn push_cause(line: &mut String, why: &Cause) -> Result<(), AllocError>
    ensures { OnOk result (string_bytes line.new ≡ string_bytes line.old ++ cause_text why.now) }
{
    match why {
        Cause::Met(ballot) => write!(line, "met {ballot}"),
        Cause::Aged(least) => write!(line, "aged {least}"),
        Cause::Full(acceptor) => {
            let acceptor = acceptor.number();
            write!(line, "full {acceptor}")
        }
        Cause::Short { got, need } => write!(line, "short {got} {need}"),
        Cause::Moved(era) => write!(line, "moved {era}"),
        Cause::Crashed => line.push_str("crashed"),
    }
}

/// What is said behind the ballot of a change that was done: nothing where a clause acted.
pub fn took_note(took: Took) -> &'static str
    ensures { result.now ≡ took_text took }
{
    match took {
        Took::Clause(_) => "",
        Took::Nothing => " no clause",
        Took::Unfit(_) => " unfit",
    }
}

/// What an event is answered.
fn push_event(line: &mut String, answer: &EventAnswer) -> Result<(), AllocError>
    ensures { OnOk result (string_bytes line.new ≡ string_bytes line.old ++ event_text answer.now) }
{
    match answer {
        EventAnswer::Ok => line.push_str("ok"),
        EventAnswer::Absent => line.push_str("none"),
        EventAnswer::Fault => line.push_str("fault"),
        EventAnswer::Foreign { at } => write!(line, "foreign {at}"),
        EventAnswer::RecordFull => line.push_str("record full"),
        EventAnswer::NoMemory => line.push_str("no memory"),
    }
}

/// What an acceptor is shown to keep.
fn push_shown(line: &mut String, shown: &Shown) -> Result<(), AllocError>
    ensures { OnOk result (string_bytes line.new ≡ string_bytes line.old ++ shown_text shown.now) }
{
    match shown {
        Shown::Nothing => line.push_str("none"),
        Shown::Down => line.push_str("down"),
        Shown::Kept(slot) => {
            let promise = slot.promise;
            write!(line, "promise {promise}")?;
            push_accepted(line, &slot.accepted)
        }
    }
}

/// What was accepted, where something was.
fn push_accepted(line: &mut String, accepted: &Option<Accepted>) -> Result<(), AllocError>
    ensures { OnOk result
        (string_bytes line.new ≡ string_bytes line.old ++ accepted_text accepted.now) }
{
    match accepted {
        Some(accepted) => {
            let ballot = accepted.ballot;
            let era = accepted.era;
            write!(line, " accepted {ballot} era {era} ")?;
            push_state(line, &accepted.state)
        }
        None => Ok(()),
    }
}
