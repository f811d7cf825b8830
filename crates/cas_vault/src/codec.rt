//! How a vault's record is written and read.
ghost use Rattle.std.specs.Prelude.{◌≡◌, ◌≤◌, ◌<◌, ◌+◌, length, take, IfOk, IfErr, MatchOption, Ok, true, ℕ};
ghost use Rattle.std.specs.Int.{w32, w64, from_be_bytes};
ghost use Rattle.cas_vault.specs.Codec.{spelling, SpellsRecord, IsFirstWrongByte};
ghost use Rattle.cas_vault.specs.Places.{in_number, may_stand, AllStand};
ghost use Rattle.cas_vault.specs.declared.kept.Kept.{Kept};

use crate::kept::Kept;
use byteorder::{BigEndian, ByteOrder};

/// How many bytes a record has.
pub const LENGTH: usize = 29;

/// How each record begins: its kind, and the name of the format.
const HEAD: [u8; 9] = *b"\x03CASVLT01";

/// The bytes of a record.
pub fn spell(kept: &Kept) -> [u8; 29]
    ensures { result ≡ spelling kept.now }
{
    let mut bytes = [0; LENGTH];
    bytes[..9].copy_from_slice(&HEAD);
    BigEndian::write_u64(&mut bytes[9..], kept.bound);
    BigEndian::write_u64(&mut bytes[17..], kept.age);
    BigEndian::write_u32(&mut bytes[25..], kept.era);
    bytes
}

/// The record that these bytes spell. `Err` tells the place of the first byte that no record has there, or the length of bytes
/// that end too early.
pub fn read(bytes: &[u8]) -> Result<Kept, usize>
    ensures found { IfOk result (λ kept. SpellsRecord bytes.now kept) }
    ensures only { (kept : Kept) → SpellsRecord bytes.now kept → result ≡ Ok kept }
    ensures wrong { IfErr result (IsFirstWrongByte bytes.now) }
{
    match first_wrong(bytes) {
        Some(place) => Err(place),
        None => Ok(Kept {
            bound: u64_at(&bytes[9..]),
            age: u64_at(&bytes[17..]),
            era: u32_at(&bytes[25..]),
        }),
    }
}

/// The place of the first byte that no record has there.
fn first_wrong(bytes: &[u8]) -> Option<usize>
    ensures { MatchOption result (AllStand bytes.now) (IsFirstWrongByte bytes.now) }
{
    for place in 0..bytes.len() {
        if !may_stand(bytes, place) {
            return Some(place);
        }
    }
    if bytes.len() < LENGTH {
        Some(bytes.len())
    } else {
        None
    }
}

/// Whether the byte at this place may stand there, where those before it may.
fn may_stand(bytes: &[u8], place: usize) -> bool
    requires { place < length bytes.now }
    ensures { result ≡ may_stand bytes.now place }
{
    if place < 9 {
        bytes[place] == HEAD[place]
    } else if place < 17 {
        in_number(bytes, 9, place)
    } else if place < 25 {
        in_number(bytes, 17, place)
    } else {
        place < LENGTH
    }
}

/// The same for a byte of a number of at most 2^48 that starts there.
fn in_number(bytes: &[u8], start: usize, place: usize) -> bool
    requires from { start ≤ place }
    requires within { place < length bytes.now }
    ensures { result ≡ in_number bytes.now start place }
{
    let byte = bytes[place];
    if place == start {
        byte == 0
    } else if place == start + 1 {
        byte <= 1
    } else {
        bytes[start + 1] == 0 || byte == 0
    }
}

/// The number in the first eight bytes.
fn u64_at(bytes: &[u8]) -> u64
    requires { 8 ≤ length bytes.now }
    ensures { result ≡ from_be_bytes w64 (take 8 bytes.now) }
{
    u64::from_be_bytes([
        bytes[0], bytes[1], bytes[2], bytes[3], bytes[4], bytes[5], bytes[6], bytes[7],
    ])
}

/// The number in the first four bytes.
fn u32_at(bytes: &[u8]) -> u32
    requires { 4 ≤ length bytes.now }
    ensures { result ≡ from_be_bytes w32 (take 4 bytes.now) }
{
    u32::from_be_bytes([bytes[0], bytes[1], bytes[2], bytes[3]])
}
