//! Reading the lines that ask for changes, behind the caller.

ghost use Rattle.std.specs.Prelude.{◌≡◌, Ok, Err};
ghost use Rattle.cas_change_text.specs.Reading.{Reads, GivesInMemory, text_at, number_at, version_at};
ghost use Rattle.cas_lines.specs.Reading.{change_name, name_at, ended, change_of_name, change_at};

use crate::command::Command;
use crate::parts::read_key;
use cas_change::{Key, Text};
use cas_change_text::{
    TextRefusal, Why, Words, next_word, program_in, read_end, read_number, read_text, read_version,
    says,
};
use std::alloc::Global;

/// The name of a form of change.
#[derive(Clone, Copy, Debug, PartialEq, Eq)]
pub enum ChangeName {
    Get,
    Set,
    Num,
    Init,
    Add,
    Cas,
    CasNum,
    Del,
    DelVersion,
    Do,
}

/// The form of change that a word names.
fn change_name(word: &[u8]) -> Option<ChangeName>
    ensures { result ≡ change_name word.now }
{
    if says(word, "get") {
        Some(ChangeName::Get)
    } else if says(word, "set") {
        Some(ChangeName::Set)
    } else if says(word, "num") {
        Some(ChangeName::Num)
    } else if says(word, "init") {
        Some(ChangeName::Init)
    } else if says(word, "add") {
        Some(ChangeName::Add)
    } else if says(word, "cas") {
        Some(ChangeName::Cas)
    } else if says(word, "casnum") {
        Some(ChangeName::CasNum)
    } else if says(word, "del") {
        Some(ChangeName::Del)
    } else if says(word, "delv") {
        Some(ChangeName::DelVersion)
    } else if says(word, "do") {
        Some(ChangeName::Do)
    } else {
        None
    }
}

/// The form of change that the next word names.
#[tactic(auto, unfolding(crate::specs::Reading::name_at))]
fn read_name(words: &mut Words<'_>) -> Result<ChangeName, TextRefusal>
    ensures { Reads result words.new (name_at words.old) }
{
    let at = words.taken();
    let word = next_word(words)?;
    match change_name(word) {
        Some(name) => Ok(name),
        None => Err(TextRefusal {
            why: Why::UnknownWord,
            word: at,
        }),
    }
}

/// The text that the last word spells.
fn last_text(alloc: Global, words: &mut Words<'_>) -> Result<Text, TextRefusal>
    ensures { GivesInMemory result (ended (text_at words.old)) }
{
    let text = read_text(alloc, words)?;
    read_end(words)?;
    Ok(text)
}

/// The signed number that the last word says.
fn last_number(words: &mut Words<'_>) -> Result<i64, TextRefusal>
    ensures { result ≡ ended (number_at words.old) }
{
    let number = read_number(words)?;
    read_end(words)?;
    Ok(number)
}

/// The version that the last word says.
fn last_version(words: &mut Words<'_>) -> Result<u64, TextRefusal>
    ensures { result ≡ ended (version_at words.old) }
{
    let version = read_version(words)?;
    read_end(words)?;
    Ok(version)
}

/// The change of this form, by what follows its key.
#[tactic(auto, unfolding(crate::specs::Reading::change_of_name))]
fn change_of_name(
    alloc: Global,
    name: ChangeName,
    caller: u8,
    key: Key,
    words: &mut Words<'_>,
) -> Result<Command, TextRefusal>
    ensures { GivesInMemory result (change_of_name name caller key words.old) }
{
    match name {
        ChangeName::Get => {
            read_end(words)?;
            Ok(Command::Get { caller, key })
        }
        ChangeName::Set => {
            let text = last_text(alloc, words)?;
            Ok(Command::Set { caller, key, text })
        }
        ChangeName::Num => {
            let number = last_number(words)?;
            Ok(Command::Num {
                caller,
                key,
                number,
            })
        }
        ChangeName::Init => {
            let number = last_number(words)?;
            Ok(Command::Init {
                caller,
                key,
                number,
            })
        }
        ChangeName::Add => {
            let number = last_number(words)?;
            Ok(Command::Add {
                caller,
                key,
                number,
            })
        }
        ChangeName::Cas => {
            let version = read_version(words)?;
            let text = last_text(alloc, words)?;
            Ok(Command::Cas {
                caller,
                key,
                version,
                text,
            })
        }
        ChangeName::CasNum => {
            let version = read_version(words)?;
            let number = last_number(words)?;
            Ok(Command::CasNum {
                caller,
                key,
                version,
                number,
            })
        }
        ChangeName::Del => {
            read_end(words)?;
            Ok(Command::Del { caller, key })
        }
        ChangeName::DelVersion => {
            let version = last_version(words)?;
            Ok(Command::DelVersion {
                caller,
                key,
                version,
            })
        }
        ChangeName::Do => {
            let program = program_in(alloc, words)?;
            Ok(Command::Do {
                caller,
                key,
                program,
            })
        }
    }
}

/// The change of this caller that all words that are left say.
#[tactic(auto, unfolding(crate::specs::Reading::change_at))]
pub fn change_in(alloc: Global, caller: u8, words: &mut Words<'_>) -> Result<Command, TextRefusal>
    ensures { GivesInMemory result (change_at caller words.old) }
{
    let name = read_name(words)?;
    let key = read_key(alloc, words)?;
    change_of_name(alloc, name, caller, key, words)
}
