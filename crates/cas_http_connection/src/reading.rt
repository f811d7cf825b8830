//! The requests of an input, one by one, as soon as each is there.

ghost use Rattle.std.specs.Prelude.{◌≡◌, ◌≢◌, ℕ, ◌+◌, ◌<◌, ◌≤◌, length, drop, vec_len, true, false, Ok, Err, OnErr, IsErrOf};
ghost use Rattle.std.specs.Io.{StartsWith};
ghost use Rattle.std.specs.Io.KnownBytes.{Consumes, IsAtEnd};
ghost use Rattle.cas_base.specs.Faults.{Rose};
ghost use Rattle.cas_lines.specs.Source.{Bytes, End, Fault};
ghost use Rattle.cas_http_connection.specs.Input.{HearsRequest};

use crate::fault::ConnectionFault;
use cas_http::{Spelled, read_request};
use cas_lines::source::Source;
use std::alloc::Global;

/// How many bytes are asked of a source at once.
const PIECE: usize = 4_096;

/// Drops the first bytes.
fn drop_front(bytes: &mut Vec<u8>, count: usize)
    requires { count ≤ vec_len bytes.old }
    ensures items { bytes.new.items ≡ drop count bytes.old.items }
{
    bytes.rotate_left(count);
    let left = bytes.len() - count;
    bytes.truncate(left);
}

/// Takes one piece of the source behind the bytes that are held. `Ok(false)` is the end of the input. After an `Err` no byte was taken.
fn take_piece<S: Source>(source: &mut S, held: &mut Vec<u8>) -> Result<bool, ConnectionFault>
    ensures front { StartsWith held.new.items held.old.items }
    ensures taken { Consumes (S.remaining source.old) (S.remaining source.new)
        (drop (length held.old.items) held.new.items) }
    ensures bytes { result ≡ Ok true → (vec_len held.old < vec_len held.new)
        × S.take_gives source.old (Bytes (drop (length held.old.items) held.new.items)) source.new }
    ensures ended { result ≡ Ok false → S.take_gives source.old End source.new
        × (held.new.items ≡ held.old.items) × IsAtEnd (S.remaining source.new) }
    ensures err { OnErr result (held.new.items ≡ held.old.items) }
    ensures failed { IsErrOf result ConnectionFault.ReadFault
        → S.take_gives source.old Fault source.new }
    ensures not_asked { IsErrOf result ConnectionFault.NoMemory → source.new ≡ source.old }
    ensures no_other { (at : ℕ) → (result ≢ Err ConnectionFault.WriteFault)
        × (result ≢ Err (ConnectionFault.Cut at)) }
    ensures read_fault { IsErrOf result ConnectionFault.ReadFault
        → Rose (S.faults_of source.old) (S.faults_of source.new) }
    ensures never_falls { S.faults_of source.old ≤ S.faults_of source.new }
{
    let mut piece = [0; PIECE];
    held.reserve(PIECE)?;
    match source.take(&mut piece) {
        Ok(count) => {
            held.extend_from_slice(&piece[..count]).unwrap();
            Ok(count > 0)
        }
        Err(_) => Err(ConnectionFault::ReadFault),
    }
}

/// The next request, whose bytes are dropped from what is held. `Ok(None)` comes where the input ended before one was whole.
///
/// The source is asked only while what is held begins with no whole request. After an `Err` no byte that was taken is lost.
pub(crate) fn next_request<S: Source>(
    alloc: Global,
    source: &mut S,
    held: &mut Vec<u8>,
) -> Result<Option<Spelled>, ConnectionFault>
    ensures hears { HearsRequest S.take_gives result source.old source.new (S.remaining source.old)
        (S.remaining source.new) held.old.items held.new.items }
    ensures read_fault { IsErrOf result ConnectionFault.ReadFault
        → Rose (S.faults_of source.old) (S.faults_of source.new) }
    ensures never_falls { S.faults_of source.old ≤ S.faults_of source.new }
{
    loop {
        if let Some(asked) = read_request(alloc, held)? {
            drop_front(held, asked.length);
            return Ok(Some(asked));
        }
        if !take_piece(source, held)? {
            return Ok(None);
        }
    }
}
