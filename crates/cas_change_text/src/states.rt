//! States, read word by word.

ghost use Rattle.std.specs.Prelude.{◌≡◌, ◌≢◌, [], Some, None, Ok, Err, IfSome, IfNone, IfOk, IfErr, MatchResult};
ghost use Rattle.cas_change_text.specs.Grammar.{IsState};
ghost use Rattle.cas_change_text.specs.Misfit.{AreState, IsFirstMisfit};
ghost use Rattle.cas_change_text.specs.Words.{words_of, all_of};
ghost use Rattle.cas_change.specs.declared.state.State.{State};
ghost use Rattle.cas_change_text.specs.Reading.{ReadsInMemory, GivesInMemory, body_at, body_of, held_at, after_v, state_at, whole_state};

use crate::decimal::read_u64;
use crate::names::says;
use crate::reading::{next_word, read_end, read_number, read_text};
use crate::refusal::{TextRefusal, Why};
use crate::words::Words;
use cas_change::{Body, State};
use std::alloc::Global;

/// The body that the next words say.
#[tactic(auto, unfolding(crate::specs::Reading::body_at))]
fn read_body(alloc: Global, words: &mut Words<'_>) -> Result<Body, TextRefusal>
    ensures { ReadsInMemory result words.new (body_at words.old) }
{
    let at = words.taken();
    let word = next_word(words)?;
    read_body_of(alloc, word, words, at)
}

/// The body that this word begins, which stands at this place.
#[tactic(auto, unfolding(crate::specs::Reading::body_of))]
fn read_body_of(
    alloc: Global,
    word: &[u8],
    words: &mut Words<'_>,
    at: usize,
) -> Result<Body, TextRefusal>
    ensures { ReadsInMemory result words.new (body_of word.now words.old at) }
{
    if says(word, "num") {
        Ok(Body::Number(read_number(words)?))
    } else if says(word, "text") {
        Ok(Body::Text(read_text(alloc, words)?))
    } else {
        Err(TextRefusal {
            why: Why::UnknownWord,
            word: at,
        })
    }
}

/// The word without a `v` in front, where one stands there.
fn after_v(word: &[u8]) -> Option<&[u8]>
    ensures some { IfSome result (λ digits. after_v word.now ≡ Some digits.now) }
    ensures none { IfNone result (after_v word.now ≡ None) }
{
    match word {
        [b'v', digits @ ..] => Some(digits),
        _ => None,
    }
}

/// The held state whose first word is this one, which stands at this place.
#[tactic(auto, unfolding(crate::specs::Reading::held_at))]
fn read_held(
    alloc: Global,
    word: &[u8],
    words: &mut Words<'_>,
    at: usize,
) -> Result<State, TextRefusal>
    ensures { ReadsInMemory result words.new (held_at word.now words.old at) }
{
    let Some(digits) = after_v(word) else {
        return Err(TextRefusal {
            why: Why::UnknownWord,
            word: at,
        });
    };
    let Some(version) = read_u64(digits) else {
        return Err(TextRefusal {
            why: Why::BadNumber,
            word: at,
        });
    };
    let body = read_body(alloc, words)?;
    Ok(State::Held { version, body })
}

/// The state that the next words say.
#[tactic(auto, unfolding(crate::specs::Reading::state_at))]
pub fn state_in(alloc: Global, words: &mut Words<'_>) -> Result<State, TextRefusal>
    ensures { ReadsInMemory result words.new (state_at words.old) }
{
    let at = words.taken();
    let word = next_word(words)?;
    if says(word, "empty") {
        Ok(State::Empty)
    } else {
        read_held(alloc, word, words, at)
    }
}

/// The state that all words that are left say.
#[tactic(auto, unfolding(crate::specs::Reading::whole_state))]
fn whole_state(alloc: Global, words: &mut Words<'_>) -> Result<State, TextRefusal>
    ensures { GivesInMemory result (whole_state words.old) }
{
    let state = state_in(alloc, words)?;
    read_end(words)?;
    Ok(state)
}

/// The state that a text says, word by word.
///
/// A text of the grammar is refused for want of memory alone. Any other is refused at the first word that does not fit.
pub fn read_state(alloc: Global, text: &[u8]) -> Result<State, TextRefusal>
    // What is read is what the words say.
    ensures found { IfOk result (λ state. IsState (words_of text.now) state) }
    // What the words say is read, unless memory runs out.
    ensures only { (state : State) → IsState (words_of text.now) state
        → MatchResult result (λ read. read ≡ state) (λ refusal. refusal.why ≡ Why.NoMemory) }
    // A refusal names the first word that does not fit.
    ensures first { IfErr result (λ refusal. refusal.why ≢ Why.NoMemory
        → IsFirstMisfit AreState AreState (words_of text.now) refusal.word) }
    // Which refusal it is, word by word.
    ensures exact { GivesInMemory result (whole_state (all_of (words_of text.now))) }
{
    whole_state(alloc, &mut Words::of(text))
}
