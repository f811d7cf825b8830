//! The settled histories of a record, in words. How a register came to its state is the record's matter.

ghost use Rattle.std.specs.Prelude.{◌≡◌, ◌≤◌, reverse, IfOk, OnOk, OnErr, IsErrOf};
ghost use Rattle.cas_base.specs.Faults.{Rose};
ghost use Rattle.casreg_tasks.specs.Histories.{AreHistories, entry_line, head_line, history_text};
ghost use Rattle.casreg_tasks.specs.Texts.{WroteFrontOf, WroteText};

use cas_change::{Key, State, apply};
use cas_change_text::{print_program, push_state};
use cas_lines::sink::{Sink, put_all};
use cas_lines::source::Failed;
use cas_record::{Entry, Record};
use std::alloc::{AllocError, Global};

/// Why the histories were not written whole. The sink has a front of them.
#[derive(Clone, Copy, Debug, PartialEq, Eq)]
pub enum HistoryFault {
    /// The sink failed, and its count of faults rose.
    WriteFault,
    /// There was no memory.
    NoMemory,
}

impl From<Failed> for HistoryFault {
    ghost use Rattle.std.specs.Prelude.{◌≡◌};
    ghost use Rattle.casreg_tasks.specs.declared.histories.HistoryFault.TheVariants.{WriteFault};

    ghost from_gives = { λ _ fault. fault ≡ WriteFault };

    fn from(_failed: Failed) -> HistoryFault {
        HistoryFault::WriteFault
    }
}

impl From<AllocError> for HistoryFault {
    ghost use Rattle.std.specs.Prelude.{◌≡◌};
    ghost use Rattle.casreg_tasks.specs.declared.histories.HistoryFault.TheVariants.{NoMemory};

    ghost from_gives = { λ _ fault. fault ≡ NoMemory };

    fn from(_error: AllocError) -> HistoryFault {
        HistoryFault::NoMemory
    }
}

/// Writes the settled history of each key that has one, the keys in the order of their bytes: a line `history`, the key and how many entries
/// there are, and then a line for each entry, the oldest first. After an `Err` the sink has a front of all this.
pub fn write_histories<K: Sink>(
    alloc: Global,
    book: &Record,
    sink: &mut K,
) -> Result<(), HistoryFault>
    ensures all { OnOk result (WroteText (AreHistories (reverse book.now.marks))
        (K.contents sink.old) (K.contents sink.new)) }
    ensures front { OnErr result (WroteFrontOf (AreHistories (reverse book.now.marks))
        (K.contents sink.old) (K.contents sink.new)) }
    ensures never_falls { K.faults_of sink.old ≤ K.faults_of sink.new }
    ensures write_fault { IsErrOf result HistoryFault.WriteFault
        → Rose (K.faults_of sink.old) (K.faults_of sink.new) }
{
    let mut after = None;
    while let Some(key) = book.next_key(after) {
        let text = print_history(alloc, book, key)?;
        put_all(sink, &text)?;
        after = Some(key);
    }
    Ok(())
}

/// The settled history of the key: a line that tells how many entries it has, and one for each of them, the oldest first. It is empty where
/// there is no entry. An `Err` comes where there is no memory.
pub fn print_history(alloc: Global, book: &Record, key: &Key) -> Result<Vec<u8>, AllocError>
    ensures { IfOk result (λ text. text.items ≡ history_text (reverse book.now.marks) key.now) }
{
    let entries = book.settled(key)?;
    if entries.is_empty() {
        return Ok(Vec::new(alloc));
    }
    let mut text = print_head(alloc, key, entries.len())?;
    let mut state = book.start(key)?;
    for entry in &entries {
        state = apply(&entry.program, &state)?.state;
        let line = print_entry(alloc, entry, &state)?;
        text.extend_from_slice(&line)?;
    }
    Ok(text)
}

/// The line that tells of which key a history is, and how many entries it has.
fn print_head(alloc: Global, key: &Key, count: usize) -> Result<Vec<u8>, AllocError>
    ensures { IfOk result (λ line. line.items ≡ head_line key.now count) }
{
    let mut line = String::from_str(alloc, "history ")?.into_bytes();
    line.extend_from_slice(key.bytes())?;
    let count = format!(in alloc; " {count}\n")?;
    line.extend_from_slice(count.as_bytes())?;
    Ok(line)
}

/// The line of an entry: whose call it is, its program, and the state that this left.
fn print_entry(alloc: Global, entry: &Entry, state: &State) -> Result<Vec<u8>, AllocError>
    ensures { IfOk result (λ line. line.items ≡ entry_line entry.now state.now) }
{
    let caller = entry.caller;
    let call = entry.call;
    let mut line = format!(in alloc; "{caller}.{call} ")?.into_bytes();
    let program = print_program(alloc, &entry.program)?;
    line.extend_from_slice(&program)?;
    let mut end = String::from_str(alloc, " -> ")?;
    push_state(&mut end, state)?;
    end.push('\n')?;
    line.extend_from_slice(end.as_bytes())?;
    Ok(line)
}
