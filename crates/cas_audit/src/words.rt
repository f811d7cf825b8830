//! What single words of a mark say: numbers, calls, ballots and sets of acceptors.

ghost use Rattle.std.specs.Prelude.{◌≡◌, ◌∷◌, [], ◌<◌, ◌≤◌, ◌==◌, length, Ok, Err, MatchResult, IfSome};
ghost use Rattle.std.specs.List.{position_or_len, before_first, after_first, slice_split};
ghost use Rattle.std.specs.Option.{option_map_or};
ghost use Rattle.cas_change_text.specs.Decimal.{u64_of};
ghost use Rattle.cas_change_text.specs.Reading.{Reads};
ghost use Rattle.cas_lines.specs.Reading.{within};
ghost use Rattle.cas_audit.specs.Spelling.Reading.{is_point, is_comma, u8_of, u32_of, call_of, ballot_of, members_from, members_of, said_at, behind_name, numbered_at, marked_version_at};

use cas_ballot::{AcceptorId, Ballot, Members};
use cas_change_text::decimal::read_u64;
use cas_change_text::{TextRefusal, Why, Words, next_word, says};
use cas_lines::within;

/// The number from 0 to 255 that a word says.
fn u8_of(word: &[u8]) -> Option<u8>
    ensures { result ≡ u8_of word.now }
{
    within(0, 255, read_u64(word))
}

/// The number below 2^32 that a word says.
fn u32_of(word: &[u8]) -> Option<u32>
    ensures { result ≡ u32_of word.now }
{
    match read_u64(word) {
        Some(number) if number <= 4_294_967_295 => Some(number as u32),
        _ => None,
    }
}

/// How many bytes stand before the first such byte.
fn count_before(bytes: &[u8], byte: u8) -> usize
    ensures { result ≡ position_or_len (λ each. each == byte) bytes.now }
{
    bytes.iter().take_while(|each| **each != byte).count()
}

/// What stands before the first such byte, and what behind it: nothing, where there is no such byte.
fn around(bytes: &[u8], byte: u8) -> (&[u8], &[u8])
    ensures before { result.0.now ≡ before_first (λ each. each == byte) bytes.now }
    ensures behind { result.1.now ≡ after_first (λ each. each == byte) bytes.now }
{
    let (before, from) = bytes.split_at(count_before(bytes, byte));
    match from {
        [_, behind @ ..] => (before, behind),
        [] => (before, from),
    }
}

/// The caller and the number of its call that a word says, with a point between them.
fn call_of(word: &[u8]) -> Option<(u8, u32)>
    ensures { result ≡ call_of word.now }
{
    let (caller, call) = around(word, b'.');
    let caller = u8_of(caller)?;
    let call = u32_of(call)?;
    Some((caller, call))
}

/// The ballot that a word says: its counter and the number of its proposer, with a point between them.
fn ballot_of(word: &[u8]) -> Option<Ballot>
    ensures { result ≡ ballot_of word.now }
{
    let (counter, proposer) = around(word, b'.');
    let counter = read_u64(counter)?;
    let proposer = u8_of(proposer)?;
    Some(Ballot { counter, proposer })
}

/// What stands before the first comma, and what behind it, where there is one.
fn first_part(list: &[u8]) -> (&[u8], Option<&[u8]>)
    ensures split { slice_split is_comma list.now
        ≡ result.0.now ∷ option_map_or (λ rest. slice_split is_comma rest.now) result.1 [] }
    ensures shorter { IfSome result.1 (λ rest. length rest.now < length list.now) }
{
    let (part, from) = list.split_at(count_before(list, b','));
    match from {
        [_, rest @ ..] => (part, Some(rest)),
        [] => (part, None),
    }
}

/// The acceptor whose number a word says, where it is not below this one.
fn next_member(word: &[u8], least: u8) -> Option<AcceptorId>
    ensures member { result ≡ within least 63 (u64_of word.now) }
    ensures rises { IfSome result (λ id. least ≤ id) }
{
    match within(least, 63, read_u64(word)) {
        Some(number) => AcceptorId::new(number),
        None => None,
    }
}

/// The acceptors whose numbers a word says, in rising order and with commas between them.
fn rising_members(word: &[u8]) -> Option<Members>
    ensures { result ≡ members_from 0 (slice_split is_comma word.now) }
{
    let mut members = Members::new();
    let mut least = 0;
    let mut rest = Some(word);
    while let Some(list) = rest {
        let (part, behind) = first_part(list);
        let id = next_member(part, least)?;
        members.insert(id);
        least = id.number() + 1;
        rest = behind;
    }
    Some(members)
}

/// The acceptors whose numbers a word says, in rising order and with commas between them, or a dash where there is none.
fn members_of(word: &[u8]) -> Option<Members>
    ensures { result ≡ members_of word.now }
{
    if says(word, "-") {
        Some(Members::new())
    } else {
        rising_members(word)
    }
}

/// The refusal of the word at this place, which is not the number that is needed.
fn bad_number(at: usize) -> TextRefusal
    ensures { result ≡ record { why = Why.BadNumber; word = at } }
{
    TextRefusal {
        why: Why::BadNumber,
        word: at,
    }
}

/// The number from 0 to 255 that the next word says.
#[tactic(auto, unfolding(crate::specs::Spelling::Reading::said_at))]
pub fn read_u8(words: &mut Words<'_>) -> Result<u8, TextRefusal>
    ensures { Reads result words.new (said_at u8_of words.old) }
{
    let at = words.taken();
    let word = next_word(words)?;
    u8_of(word).ok_or(bad_number(at))
}

/// The number below 2^32 that the next word says.
#[tactic(auto, unfolding(crate::specs::Spelling::Reading::said_at))]
pub fn read_u32(words: &mut Words<'_>) -> Result<u32, TextRefusal>
    ensures { Reads result words.new (said_at u32_of words.old) }
{
    let at = words.taken();
    let word = next_word(words)?;
    u32_of(word).ok_or(bad_number(at))
}

/// The caller and the number of its call that the next word says.
#[tactic(auto, unfolding(crate::specs::Spelling::Reading::said_at))]
pub fn read_call(words: &mut Words<'_>) -> Result<(u8, u32), TextRefusal>
    ensures { Reads result words.new (said_at call_of words.old) }
{
    let at = words.taken();
    let word = next_word(words)?;
    call_of(word).ok_or(bad_number(at))
}

/// The ballot that the next word says.
#[tactic(auto, unfolding(crate::specs::Spelling::Reading::said_at))]
pub fn read_ballot(words: &mut Words<'_>) -> Result<Ballot, TextRefusal>
    ensures { Reads result words.new (said_at ballot_of words.old) }
{
    let at = words.taken();
    let word = next_word(words)?;
    ballot_of(word).ok_or(bad_number(at))
}

/// The acceptors whose numbers the next word says.
#[tactic(auto, unfolding(crate::specs::Spelling::Reading::said_at))]
pub fn read_members(words: &mut Words<'_>) -> Result<Members, TextRefusal>
    ensures { Reads result words.new (said_at members_of words.old) }
{
    let at = words.taken();
    let word = next_word(words)?;
    members_of(word).ok_or(bad_number(at))
}

/// Takes the next word, which must be this one.
#[tactic(auto, unfolding(crate::specs::Spelling::Reading::behind_name))]
pub fn take_name(words: &mut Words<'_>, name: &str) -> Result<(), TextRefusal>
    ensures { MatchResult result (λ _. behind_name name.now words.old ≡ Ok words.new)
        (λ refusal. behind_name name.now words.old ≡ Err refusal) }
{
    let at = words.taken();
    if says(next_word(words)?, name) {
        Ok(())
    } else {
        Err(TextRefusal {
            why: Why::UnknownWord,
            word: at,
        })
    }
}

/// The number below 2^32 that stands behind this name.
#[tactic(auto, unfolding(crate::specs::Spelling::Reading::numbered_at))]
pub fn read_numbered(words: &mut Words<'_>, name: &str) -> Result<u32, TextRefusal>
    ensures { Reads result words.new (numbered_at name.now words.old) }
{
    take_name(words, name)?;
    read_u32(words)
}

/// The version that the next word says, behind a `v`.
#[tactic(auto, unfolding(crate::specs::Spelling::Reading::marked_version_at))]
pub fn read_marked_version(words: &mut Words<'_>) -> Result<u64, TextRefusal>
    ensures { Reads result words.new (marked_version_at words.old) }
{
    let at = words.taken();
    match next_word(words)? {
        [b'v', digits @ ..] => read_u64(digits).ok_or(bad_number(at)),
        _ => Err(TextRefusal {
            why: Why::UnknownWord,
            word: at,
        }),
    }
}
