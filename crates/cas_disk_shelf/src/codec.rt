//! How the payloads of a shelf's cells are written and read: the head in cell 0, and behind it cells that are free or hold the
//! slot of a key.
ghost use Rattle.std.specs.Prelude.{◌≡◌, ◌≤◌, ◌<◌, ◌+◌, ◌*◌, ◌^◌, ◌++◌, [], ◌∷◌, ℕ, length, drop, IfOk, IfErr, OnOk, IfSome, Some, None, slice_index};
ghost use Rattle.std.specs.Int.{w32, w64, to_be_bytes, from_be_bytes};
ghost use Rattle.cas_ballot.specs.Ballot.{FitsBallot};
ghost use Rattle.cas_wire.specs.Reading.{rise_at};
ghost use Rattle.cas_change.specs.Key.{IsKey};
ghost use Rattle.cas_slot.specs.Limits.{SlotBallotsFit};
ghost use Rattle.cas_disk_shelf.specs.Head.{head_spelling, head_of, new_head_of, old_head_of, is_old, count_at, ages_end, IsSpelledHead, unlike_at, numbers_spelling, number_from, ages_in};
ghost use Rattle.cas_disk_shelf.specs.Cell.{cell_spelling, FitsSlot, IsSpelledByPayload, FoundBallotsFit, IsReadSoFar};

use byteorder::{BigEndian, ByteOrder};
use cas_ballot::Ballot;
use cas_change::Key;
use cas_slot::{Ages, PROPOSERS, Slot};
use cas_wire::parts::{
    Part, push_accepted, push_ballot, push_key, rise_at, take_accepted, take_ballot, take_key,
};
use std::alloc::{AllocError, Global};

/// How each head begins: its kind and the name of the format.
const FRONT: [u8; 9] = *b"\x04CASREG02";

/// How each head of the old form begins.
const OLD_FRONT: [u8; 9] = *b"\x02CASREG01";

/// How many bytes the ages have.
const AGES_LENGTH: usize = 8 * PROPOSERS;

/// How much room the payload of a slot has at first beyond the bytes of its key. Only one with a text takes more.
const ROOM_BESIDE_KEY: usize = 66;

/// The payload of a cell that holds no slot.
pub const FREE: [u8; 1] = [0];

/// What a head tells.
#[derive(Clone, Copy, Debug, PartialEq, Eq)]
pub struct Head {
    /// How many narrow cells stand behind it. At most 4,096.
    pub narrow: u32,
    /// How many wide cells stand behind those. At most 4,096.
    pub count: u32,
    /// The least ages.
    pub ages: Ages,
}

/// What a payload behind the head is.
#[derive(Debug, PartialEq, Eq, Drop)]
pub enum Found {
    /// The cell holds no slot.
    Free,
    /// The cell holds the slot of a key.
    Kept { key: Key, slot: Slot },
    /// No payload has the byte at this place there; or the payload ends too early, and it is its length.
    Wrong { at: usize },
}

/// The payload of a head.
pub fn spell_head(alloc: Global, head: &Head) -> Result<Vec<u8>, AllocError>
    ensures spelled { IfOk result (λ bytes. bytes.items ≡ head_spelling head.now) }
    ensures long { OnOk result (length head.now.ages.0 ≡ 17) }
    ensures small { OnOk result ((i : ℕ) → slice_index head.now.ages.0 i < 2 ^ 64) }
{
    let mut bytes = FRONT.to_vec(alloc)?;
    push_count(&mut bytes, head.narrow)?;
    push_count(&mut bytes, head.count)?;
    push_numbers(&mut bytes, &head.ages.0)?;
    Ok(bytes)
}

/// Appends a number of cells, in four bytes.
fn push_count(out: &mut Vec<u8>, count: u32) -> Result<(), AllocError>
    ensures { OnOk result (out.new.items ≡ out.old.items ++ to_be_bytes w32 count) }
{
    let mut bytes = [0; 4];
    BigEndian::write_u32(&mut bytes, count);
    out.extend_from_slice(&bytes)?;
    Ok(())
}

/// Appends numbers, eight bytes each.
fn push_numbers(out: &mut Vec<u8>, numbers: &[u64]) -> Result<(), AllocError>
    ensures spelled { OnOk result (out.new.items ≡ out.old.items ++ numbers_spelling numbers.now) }
    ensures small { (i : ℕ) → slice_index numbers.now i < 2 ^ 64 }
{
    let Some((number, rest)) = numbers.split_first() else {
        return Ok(());
    };
    let mut bytes = [0; 8];
    BigEndian::write_u64(&mut bytes, *number);
    out.extend_from_slice(&bytes)?;
    push_numbers(out, rest)
}

/// The head that these bytes spell, of either form; one of the old form tells no wide cells. `Err` tells the place of the first
/// byte that no head has there, or the length of bytes that end too early.
pub fn read_head(bytes: &[u8]) -> Result<Head, usize>
    ensures read { result ≡ head_of bytes.now }
    ensures within { IfErr result (λ at. at ≤ length bytes.now) }
    ensures spelled { IfOk result (IsSpelledHead bytes.now) }
{
    if is_old(bytes) {
        read_old_head(bytes)
    } else {
        read_new_head(bytes)
    }
}

/// Whether bytes begin as a head of the old form does.
pub fn is_old(bytes: &[u8]) -> bool
    ensures { result ≡ is_old bytes.now }
{
    match bytes.first() {
        Some(kind) => *kind == 2,
        None => false,
    }
}

/// The head of the new form that these bytes spell, as `read_head` tells it.
fn read_new_head(bytes: &[u8]) -> Result<Head, usize>
    ensures read { result ≡ new_head_of bytes.now }
    ensures within { IfErr result (λ at. at ≤ length bytes.now) }
{
    if let Some(at) = unlike_at(&FRONT, bytes) {
        return Err(at);
    }
    let narrow = count_at(bytes, 9)?;
    if bytes.len() < 13 {
        return Err(bytes.len());
    }
    let count = count_at(bytes, 13)?;
    read_end(bytes, 17, narrow, count)
}

/// The head of the old form that these bytes spell, as `read_head` tells it.
fn read_old_head(bytes: &[u8]) -> Result<Head, usize>
    ensures read { result ≡ old_head_of bytes.now }
    ensures within { IfErr result (λ at. at ≤ length bytes.now) }
{
    if let Some(at) = unlike_at(&OLD_FRONT, bytes) {
        return Err(at);
    }
    let narrow = count_at(bytes, 9)?;
    read_end(bytes, 13, narrow, 0)
}

/// The number of cells in four bytes from there on; of fewer bytes it is 0. `Err` tells the place of the first byte that raises it
/// above 4,096.
fn count_at(bytes: &[u8], at: usize) -> Result<u32, usize>
    requires { at ≤ length bytes.now }
    ensures read { result ≡ count_at at bytes.now }
    ensures within { IfErr result (λ risen. risen ≤ length bytes.now) }
{
    let bytes = &bytes[at..];
    if let Some(risen) = rise_at(&[0, 0, 16, 0], bytes) {
        return Err(at + risen);
    }
    if bytes.len() < 4 {
        return Ok(0);
    }
    Ok(u32::from_be_bytes([bytes[0], bytes[1], bytes[2], bytes[3]]))
}

/// The head of so many cells whose ages are the bytes from there to the end.
fn read_end(bytes: &[u8], at: usize, narrow: u32, count: u32) -> Result<Head, usize>
    requires { at ≤ 17 }
    ensures read { result ≡ ages_end at narrow count bytes.now }
    ensures within { IfErr result (λ end. end ≤ length bytes.now) }
{
    let end = at + AGES_LENGTH;
    if bytes.len() != end {
        return Err(bytes.len().min(end));
    }
    Ok(Head {
        narrow,
        count,
        ages: ages_in(&bytes[at..]),
    })
}

/// The place of the first byte that differs from this text, or that is missing.
fn unlike_at(text: &[u8], bytes: &[u8]) -> Option<usize>
    ensures place { result ≡ unlike_at text.now bytes.now }
    ensures within { IfSome result (λ i. i ≤ length bytes.now) }
    ensures all { (result ≡ None) → length text.now ≤ length bytes.now }
{
    let (want, text) = text.split_first()?;
    let Some((byte, rest)) = bytes.split_first() else {
        return Some(0);
    };
    if byte != want {
        return Some(0);
    }
    match unlike_at(text, rest) {
        Some(i) => Some(i + 1),
        None => None,
    }
}

/// The ages in the first 136 bytes.
fn ages_in(bytes: &[u8]) -> Ages
    requires { length bytes.now ≡ 136 }
    ensures { result ≡ ages_in bytes.now }
{
    let mut ages = Ages::ZERO;
    for i in 0..PROPOSERS {
        ages.0[i] = u64_at(bytes, 8 * i);
    }
    ages
}

/// The number in eight bytes from there on.
fn u64_at(bytes: &[u8], at: usize) -> u64
    requires { at + 8 ≤ length bytes.now }
    ensures { result ≡ number_from at bytes.now }
{
    let bytes = &bytes[at..];
    u64::from_be_bytes([
        bytes[0], bytes[1], bytes[2], bytes[3], bytes[4], bytes[5], bytes[6], bytes[7],
    ])
}

/// The payload of a cell that holds the slot of a key.
pub fn spell_slot(alloc: Global, key: &Key, slot: &Slot) -> Result<Vec<u8>, AllocError>
    requires { SlotBallotsFit slot.now }
    ensures spelled { IfOk result
        (λ bytes. bytes.items ≡ cell_spelling (Some (key.now, slot.now))) }
    ensures fits { OnOk result (FitsSlot slot.now) }
    ensures key { IsKey key.now }
{
    let mut bytes = Vec::with_capacity(alloc, key.bytes().len() + ROOM_BESIDE_KEY)?;
    bytes.push(1)?;
    push_key(&mut bytes, key)?;
    push_ballot(&mut bytes, slot.promise)?;
    push_accepted(&mut bytes, slot.accepted.as_ref())?;
    Ok(bytes)
}

/// What a payload behind the head is.
pub fn read_cell(alloc: Global, bytes: &[u8]) -> Result<Found, AllocError>
    ensures found { IfOk result (IsSpelledByPayload bytes.now) }
    ensures fits { IfOk result FoundBallotsFit }
{
    let Some((kind, rest)) = bytes.split_first() else {
        return Ok(Found::Wrong { at: 0 });
    };
    if *kind == 1 {
        return read_entry(alloc, rest);
    }
    if *kind > 1 {
        return Ok(Found::Wrong { at: 0 });
    }
    if rest.is_empty() {
        Ok(Found::Free)
    } else {
        Ok(Found::Wrong { at: 1 })
    }
}

/// What a payload is that has these bytes behind its kind.
fn read_entry(alloc: Global, bytes: &[u8]) -> Result<Found, AllocError>
    ensures found { IfOk result (IsSpelledByPayload (1 ∷ bytes.now)) }
    ensures fits { IfOk result FoundBallotsFit }
{
    match take_key(alloc, bytes)? {
        Part::Wrong { at } => Ok(Found::Wrong { at: 1 + at }),
        Part::Read { value: key, used } => match take_ballot(&bytes[used..]) {
            Part::Wrong { at } => Ok(Found::Wrong { at: 1 + used + at }),
            Part::Read {
                value: promise,
                used: more,
            } => read_accepted(alloc, bytes, used + more, key, promise),
        },
    }
}

/// The same, where a key and a promise were read up to this place.
fn read_accepted(
    alloc: Global,
    bytes: &[u8],
    from: usize,
    key: Key,
    promise: Ballot,
) -> Result<Found, AllocError>
    requires so_far { IsReadSoFar bytes.now from key promise }
    requires fits { FitsBallot promise }
    ensures found { IfOk result (IsSpelledByPayload (1 ∷ bytes.now)) }
    ensures fits { IfOk result FoundBallotsFit }
{
    match take_accepted(alloc, &bytes[from..])? {
        Part::Wrong { at } => Ok(Found::Wrong { at: 1 + from + at }),
        Part::Read {
            value: accepted,
            used,
        } => {
            if from + used < bytes.len() {
                return Ok(Found::Wrong {
                    at: 1 + from + used,
                });
            }
            let slot = Slot { promise, accepted };
            Ok(Found::Kept { key, slot })
        }
    }
}
