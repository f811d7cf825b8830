//! Reading the lines of an operator, behind their first word.

ghost use Rattle.std.specs.Prelude.{◌≡◌, Ok, Err};
ghost use Rattle.cas_change_text.specs.Reading.{Reads, GivesInMemory};
ghost use Rattle.cas_lines.specs.Reading.{ended, key_at, op_name, op_name_at, op_of_name, op_at, size_at, size_of};

use crate::command::Command;
use crate::events::last_acceptor;
use crate::parts::{read_key, within};
use cas_change::Key;
use cas_change_text::decimal::read_u64;
use cas_change_text::{TextRefusal, Why, Words, next_word, read_end, says};
use std::alloc::Global;

/// What an operator's line asks for, by its second word.
#[derive(Clone, Copy, Debug, PartialEq, Eq)]
pub enum OpName {
    /// That an acceptor becomes a member.
    Join,
    /// That a member is one no longer.
    Leave,
    /// That quorums get other sizes.
    Resize,
    /// That what is kept for a key is removed.
    Collect,
    /// What each member keeps for a key.
    Probe,
    /// What members agree on of a key.
    Read,
}

/// What an operator's line asks for where a word names it.
fn op_name(word: &[u8]) -> Option<OpName>
    ensures { result ≡ op_name word.now }
{
    if says(word, "join") {
        Some(OpName::Join)
    } else if says(word, "leave") {
        Some(OpName::Leave)
    } else if says(word, "resize") {
        Some(OpName::Resize)
    } else if says(word, "collect") {
        Some(OpName::Collect)
    } else if says(word, "probe") {
        Some(OpName::Probe)
    } else if says(word, "read") {
        Some(OpName::Read)
    } else {
        None
    }
}

/// What the next word names.
#[tactic(auto, unfolding(crate::specs::Reading::op_name_at))]
fn read_op_name(words: &mut Words<'_>) -> Result<OpName, TextRefusal>
    ensures { Reads result words.new (op_name_at words.old) }
{
    let at = words.taken();
    let word = next_word(words)?;
    op_name(word).ok_or(TextRefusal {
        why: Why::UnknownWord,
        word: at,
    })
}

/// The size of a quorum that a word says, from 1 to 9.
fn size_of(word: &[u8]) -> Option<u32>
    ensures { result ≡ size_of word.now }
{
    within(1, 9, read_u64(word)).map(u32::from)
}

/// The size that the next word says.
#[tactic(auto, unfolding(crate::specs::Reading::size_at))]
fn read_size(words: &mut Words<'_>) -> Result<u32, TextRefusal>
    ensures { Reads result words.new (size_at words.old) }
{
    let at = words.taken();
    let word = next_word(words)?;
    size_of(word).ok_or(TextRefusal {
        why: Why::BadNumber,
        word: at,
    })
}

/// The size that the last word says.
fn last_size(words: &mut Words<'_>) -> Result<u32, TextRefusal>
    ensures { result ≡ ended (size_at words.old) }
{
    let size = read_size(words)?;
    read_end(words)?;
    Ok(size)
}

/// The key that the last word is.
fn last_key(alloc: Global, words: &mut Words<'_>) -> Result<Key, TextRefusal>
    ensures { GivesInMemory result (ended (key_at words.old)) }
{
    let key = read_key(alloc, words)?;
    read_end(words)?;
    Ok(key)
}

/// The operator's line of this name, by what follows it.
#[tactic(auto, unfolding(crate::specs::Reading::op_of_name))]
fn op_of_name(alloc: Global, name: OpName, words: &mut Words<'_>) -> Result<Command, TextRefusal>
    ensures { GivesInMemory result (op_of_name name words.old) }
{
    match name {
        OpName::Join => {
            let id = last_acceptor(words)?;
            Ok(Command::Join { id })
        }
        OpName::Leave => {
            let id = last_acceptor(words)?;
            Ok(Command::Leave { id })
        }
        OpName::Resize => {
            let need_prep = read_size(words)?;
            let need_acc = last_size(words)?;
            Ok(Command::Resize {
                need_prep,
                need_acc,
            })
        }
        OpName::Collect => {
            let key = last_key(alloc, words)?;
            Ok(Command::Collect { key })
        }
        OpName::Probe => {
            let key = last_key(alloc, words)?;
            Ok(Command::Probe { key })
        }
        OpName::Read => {
            let key = last_key(alloc, words)?;
            Ok(Command::Read { key })
        }
    }
}

/// What an operator's line asks for, by all words behind the first.
#[tactic(auto, unfolding(crate::specs::Reading::op_at))]
pub fn op_in(alloc: Global, words: &mut Words<'_>) -> Result<Command, TextRefusal>
    ensures { GivesInMemory result (op_at words.old) }
{
    let name = read_op_name(words)?;
    op_of_name(alloc, name, words)
}
