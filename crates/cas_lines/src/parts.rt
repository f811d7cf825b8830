//! The words that lines of several forms have: keys, and numbers within a range.

ghost use Rattle.std.specs.Prelude.{◌≡◌, Ok, Err};
ghost use Rattle.cas_change_text.specs.Reading.{ReadsInMemory, GivesInMemory};
ghost use Rattle.cas_lines.specs.Reading.{within, why_no_key, key_in, key_at};

use cas_change::{Key, KeyFault};
use cas_change_text::{TextRefusal, Why, Words, next_word};
use std::alloc::Global;

/// The number, where it is within these bounds.
pub fn within(least: u8, greatest: u8, number: Option<u64>) -> Option<u8>
    ensures { result ≡ within least greatest number }
{
    match number {
        Some(number) if u64::from(least) <= number && number <= u64::from(greatest) => {
            Some(number as u8)
        }
        _ => None,
    }
}

/// Why bytes that are no key are refused.
fn why_no_key(fault: KeyFault) -> Why
    ensures { result ≡ why_no_key fault }
{
    match fault {
        KeyFault::TooLong => Why::TooLong,
        KeyFault::Empty => Why::UnknownWord,
        KeyFault::BadByte { .. } => Why::UnknownWord,
        KeyFault::NoMemory => Why::NoMemory,
    }
}

/// The key that a word is, which stands at this place.
fn key_in(alloc: Global, at: usize, word: &[u8]) -> Result<Key, TextRefusal>
    ensures { GivesInMemory result (key_in at word.now) }
{
    match Key::read(alloc, word) {
        Ok(key) => Ok(key),
        Err(fault) => Err(TextRefusal {
            why: why_no_key(fault),
            word: at,
        }),
    }
}

/// The key that the next word is.
#[tactic(auto, unfolding(crate::specs::Reading::key_at))]
pub fn read_key(alloc: Global, words: &mut Words<'_>) -> Result<Key, TextRefusal>
    ensures { ReadsInMemory result words.new (key_at words.old) }
{
    let at = words.taken();
    let word = next_word(words)?;
    key_in(alloc, at, word)
}
