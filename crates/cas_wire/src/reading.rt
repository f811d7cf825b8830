//! Readers of parts: each gives what it reads from the front, and the bytes behind it.

ghost use Rattle.std.specs.Prelude.{◌≡◌, ◌<◌, ◌≤◌, length, take, IfSome, IfOk, IfErr, Err, IsErrOf};
ghost use Rattle.std.specs.Int.{w16, w32, w64};
ghost use Rattle.cas_change.specs.Key.{first_bad_byte, is_key_byte};
ghost use Rattle.cas_wire.specs.Part.{Gives};
ghost use Rattle.cas_wire.specs.Reading.{number_at, byte_where, rise_at, is_key_length, is_proposer, key_bytes_at, key_at, counter_at, ballot_at, text_at, state_at, accepted_at, optional_at};

use cas_ballot::Ballot;
use cas_change::{Body, Key, State, Text};
use cas_slot::Accepted;
use std::alloc::{AllocError, AllocFailed, Global};

/// Why a part was not read.
#[derive(Clone, Copy, Debug, PartialEq, Eq)]
pub(crate) enum ReadError {
    NoMemory,
    /// So many bytes are left from the first one on that cannot stand there.
    Wrong { left: usize },
}

impl<T: Drop> From<AllocFailed<T>> for ReadError {
    ghost use Rattle.std.specs.Prelude.{◌≡◌};
    ghost use Rattle.cas_wire.specs.declared.reading.ReadError.TheVariants.{NoMemory};

    ghost from_gives = { λ _ e. e ≡ NoMemory };

    fn from(_: AllocFailed<T>) -> Self {
        ReadError::NoMemory
    }
}

impl From<AllocError> for ReadError {
    ghost use Rattle.std.specs.Prelude.{◌≡◌};
    ghost use Rattle.cas_wire.specs.declared.reading.ReadError.TheVariants.{NoMemory};

    ghost from_gives = { λ _ e. e ≡ NoMemory };

    fn from(_: AllocError) -> Self {
        ReadError::NoMemory
    }
}

pub(crate) const fn wrong<T>(left: usize) -> Result<T, ReadError>
    ensures { result ≡ Err (ReadError.Wrong left) }
{
    Err(ReadError::Wrong { left })
}

/// A proposer's number.
pub(crate) fn proposer_at(bytes: &[u8]) -> Result<(u8, &[u8]), ReadError>
    ensures reading { Gives (λ x. (x.0, x.1.now)) result (byte_where is_proposer bytes.now) }
    ensures memory { IsErrOf result ReadError.NoMemory → ⊥ }
{
    match bytes {
        [] => wrong(0),
        [number, rest @ ..] if *number <= 16 => Ok((*number, rest)),
        [_, ..] => wrong(bytes.len()),
    }
}

fn key_length_at(bytes: &[u8]) -> Result<(u8, &[u8]), ReadError>
    ensures { Gives (λ x. (x.0, x.1.now)) result (byte_where is_key_length bytes.now) }
{
    match bytes {
        [] => wrong(0),
        [len, rest @ ..] if (1..=64).contains(len) => Ok((*len, rest)),
        [_, ..] => wrong(bytes.len()),
    }
}

pub(crate) fn u16_at(bytes: &[u8]) -> Result<(u16, &[u8]), ReadError>
    ensures { Gives (λ x. (x.0, x.1.now)) result (number_at w16 bytes.now) }
{
    if bytes.len() < 2 {
        return wrong(0);
    }
    let (front, rest) = bytes.split_at(2);
    Ok((u16::from_be_bytes([front[0], front[1]]), rest))
}

pub(crate) fn u32_at(bytes: &[u8]) -> Result<(u32, &[u8]), ReadError>
    ensures { Gives (λ x. (x.0, x.1.now)) result (number_at w32 bytes.now) }
{
    if bytes.len() < 4 {
        return wrong(0);
    }
    let (front, rest) = bytes.split_at(4);
    let number = u32::from_be_bytes([front[0], front[1], front[2], front[3]]);
    Ok((number, rest))
}

pub(crate) fn u64_at(bytes: &[u8]) -> Result<(u64, &[u8]), ReadError>
    ensures reading { Gives (λ x. (x.0, x.1.now)) result (number_at w64 bytes.now) }
    ensures memory { IsErrOf result ReadError.NoMemory → ⊥ }
{
    if bytes.len() < 8 {
        return wrong(0);
    }
    let (front, rest) = bytes.split_at(8);
    let number = u64::from_be_bytes([
        front[0], front[1], front[2], front[3], front[4], front[5], front[6], front[7],
    ]);
    Ok((number, rest))
}

/// The place of the byte by which a big-endian number rises above this limit, where it does.
pub fn rise_at(limit: &[u8], bytes: &[u8]) -> Option<usize>
    ensures place { result ≡ rise_at limit.now bytes.now }
    ensures within { IfSome result (λ i. i < length bytes.now) }
{
    let (most, limit) = limit.split_first()?;
    let (byte, rest) = bytes.split_first()?;
    if byte < most {
        return None;
    }
    if most < byte {
        return Some(0);
    }
    match rise_at(limit, rest) {
        Some(i) => Some(i + 1),
        None => None,
    }
}

#[tactic(auto, unfolding(crate::specs::Reading::counter_at))]
fn counter_at(bytes: &[u8]) -> Result<(u64, &[u8]), ReadError>
    ensures reading { Gives (λ x. (x.0, x.1.now)) result (counter_at bytes.now) }
    ensures memory { IsErrOf result ReadError.NoMemory → ⊥ }
{
    match rise_at(&[0, 1, 0, 0, 0, 0, 0, 0], bytes) {
        Some(i) => wrong(bytes.len() - i),
        None => u64_at(bytes),
    }
}

#[tactic(auto, unfolding(crate::specs::Reading::ballot_at))]
pub(crate) fn ballot_at(bytes: &[u8]) -> Result<(Ballot, &[u8]), ReadError>
    ensures reading { Gives (λ x. (x.0, x.1.now)) result (ballot_at bytes.now) }
    ensures memory { IsErrOf result ReadError.NoMemory → ⊥ }
{
    let (counter, rest) = counter_at(bytes)?;
    let (proposer, rest) = proposer_at(rest)?;
    Ok((Ballot { counter, proposer }, rest))
}

#[tactic(auto, unfolding(crate::specs::Reading::key_at))]
pub(crate) fn key_at<'a>(
    alloc: Global,
    bytes: &'a [u8],
    known: Option<&Key>,
) -> Result<(Key, &'a [u8]), ReadError>
    ensures { Gives (λ x. (x.0, x.1.now)) result (key_at bytes.now) }
{
    let (len, rest) = key_length_at(bytes)?;
    key_bytes_at(alloc, usize::from(len), rest, known)
}

/// The bytes of a key, of which there are so many.
fn key_bytes_at<'a>(
    alloc: Global,
    len: usize,
    bytes: &'a [u8],
    known: Option<&Key>,
) -> Result<(Key, &'a [u8]), ReadError>
    ensures { Gives (λ x. (x.0, x.1.now)) result (key_bytes_at len bytes.now) }
{
    if let Some(i) = first_bad_byte(front(bytes, len)) {
        return wrong(bytes.len() - i);
    }
    if bytes.len() < len {
        return wrong(0);
    }
    let (key, rest) = bytes.split_at(len);
    Ok((key_of(alloc, key, known)?, rest))
}

/// The key of these bytes, of which nothing but memory can be missing. Where the known key is the same, it is a copy of that, which takes
/// no memory of its own.
fn key_of(alloc: Global, bytes: &[u8], known: Option<&Key>) -> Result<Key, ReadError>
    ensures key { IfOk result (λ key. key ≡ bytes.now) }
    ensures memory { IfErr result (λ error. error ≡ ReadError.NoMemory) }
{
    match known {
        Some(known) if known.bytes() == bytes => Ok(known.copy()?),
        _ => match Key::read(alloc, bytes) {
            Ok(key) => Ok(key),
            Err(_) => Err(ReadError::NoMemory),
        },
    }
}

/// So many bytes of the front, or all where there are fewer.
fn front(bytes: &[u8], len: usize) -> &[u8]
    ensures front { result.now ≡ take len bytes.now }
    ensures few { length result.now ≤ length bytes.now }
{
    if bytes.len() < len {
        bytes
    } else {
        &bytes[..len]
    }
}

fn is_key_byte(byte: u8) -> bool
    ensures { result ≡ is_key_byte byte }
{
    (0x21..=0x7E).contains(&byte)
}

/// The place of the first byte that may not stand in a key.
fn first_bad_byte(bytes: &[u8]) -> Option<usize>
    ensures place { result ≡ first_bad_byte bytes.now }
    ensures within { IfSome result (λ i. i < length bytes.now) }
{
    bytes.iter().position(|&byte| !is_key_byte(byte))
}

#[tactic(auto, unfolding(crate::specs::Reading::text_at))]
fn text_at(alloc: Global, bytes: &[u8]) -> Result<(Text, &[u8]), ReadError>
    ensures { Gives (λ x. (x.0, x.1.now)) result (text_at bytes.now) }
{
    if let Some(i) = rise_at(&[15, 160], bytes) {
        return wrong(bytes.len() - i);
    }
    let (len, rest) = u16_at(bytes)?;
    let len = usize::from(len);
    if rest.len() < len {
        return wrong(0);
    }
    let (front, rest) = rest.split_at(len);
    // Nothing but memory can be missing.
    match Text::read(alloc, front) {
        Ok(text) => Ok((text, rest)),
        Err(_) => Err(ReadError::NoMemory),
    }
}

#[tactic(auto, unfolding(crate::specs::Reading::state_at))]
pub(crate) fn state_at(alloc: Global, bytes: &[u8]) -> Result<(State, &[u8]), ReadError>
    ensures { Gives (λ x. (x.0, x.1.now)) result (state_at bytes.now) }
{
    match bytes {
        [] => wrong(0),
        [0, rest @ ..] => Ok((State::Empty, rest)),
        [1, rest @ ..] => {
            let (version, rest) = u64_at(rest)?;
            let (number, rest) = u64_at(rest)?;
            let body = Body::Number(number.cast_signed());
            Ok((State::Held { version, body }, rest))
        }
        [2, rest @ ..] => {
            let (version, rest) = u64_at(rest)?;
            let (text, rest) = text_at(alloc, rest)?;
            let body = Body::Text(text);
            Ok((State::Held { version, body }, rest))
        }
        [_, ..] => wrong(bytes.len()),
    }
}

#[tactic(auto, unfolding(crate::specs::Reading::accepted_at))]
fn accepted_at(alloc: Global, bytes: &[u8]) -> Result<(Accepted, &[u8]), ReadError>
    ensures { Gives (λ x. (x.0, x.1.now)) result (accepted_at bytes.now) }
{
    let (ballot, rest) = ballot_at(bytes)?;
    let (era, rest) = u32_at(rest)?;
    let (state, rest) = state_at(alloc, rest)?;
    let accepted = Accepted { ballot, era, state };
    Ok((accepted, rest))
}

/// What was accepted, if anything was.
pub(crate) fn accepted_or_none_at(
    alloc: Global,
    bytes: &[u8],
) -> Result<(Option<Accepted>, &[u8]), ReadError>
    ensures { Gives (λ x. (x.0, x.1.now)) result (optional_at accepted_at bytes.now) }
{
    match bytes {
        [] => wrong(0),
        [0, rest @ ..] => Ok((None, rest)),
        [1, rest @ ..] => {
            let (accepted, rest) = accepted_at(alloc, rest)?;
            Ok((Some(accepted), rest))
        }
        [_, ..] => wrong(bytes.len()),
    }
}

/// A ballot, if there is one.
pub(crate) fn ballot_or_none_at(bytes: &[u8]) -> Result<(Option<Ballot>, &[u8]), ReadError>
    ensures { Gives (λ x. (x.0, x.1.now)) result (optional_at ballot_at bytes.now) }
{
    match bytes {
        [] => wrong(0),
        [0, rest @ ..] => Ok((None, rest)),
        [1, rest @ ..] => {
            let (ballot, rest) = ballot_at(rest)?;
            Ok((Some(ballot), rest))
        }
        [_, ..] => wrong(bytes.len()),
    }
}

/// A key, if there is one.
pub(crate) fn key_or_none_at(alloc: Global, bytes: &[u8]) -> Result<(Option<Key>, &[u8]), ReadError>
    ensures { Gives (λ x. (x.0, x.1.now)) result (optional_at key_at bytes.now) }
{
    match bytes {
        [] => wrong(0),
        [0, rest @ ..] => Ok((None, rest)),
        [1, rest @ ..] => {
            let (key, rest) = key_at(alloc, rest, None)?;
            Ok((Some(key), rest))
        }
        [_, ..] => wrong(bytes.len()),
    }
}
