//! The head of a request: where it ends, what it asks for, and how many bytes of body follow it.

ghost use Rattle.std.specs.Prelude.{◌≡◌, ◌≤◌, ℕ, List, length, take, map, IfOk, Some};
ghost use Rattle.httparse.specs.Borrowed.{header_parts};
ghost use Rattle.httparse.specs.Grammar.{RequestHead, ReadsRequest};
ghost use Rattle.cas_http.specs.Heads.{if_key, key_in, asked_of, asked_with, body_read, is_last, unfinished, head_with, head_of, IsFront};

use crate::code::Code;
use crate::fields::{BodyLength, asks_to_close, body_length, host_fits, is_coded};
use crate::method::{Method, method_named};
use cas_change::{Key, KeyFault};
use httparse::{EMPTY_HEADER, Header, Request, Status};
use std::alloc::{AllocError, Global};

/// How many bytes a head has at most.
pub const MOST_HEAD: usize = 16_384;

/// How many fields a head has at most.
pub const MOST_FIELDS: usize = 64;

/// How many bytes a body has at most.
pub const MOST_BODY: u64 = 65_536;

/// What a head asks for.
#[derive(Debug, PartialEq, Eq, Drop)]
pub enum Asks {
    /// Nothing that can be done: its answer has this code, which is 400, 404, 405, 411, 413 or 501.
    Refused(Code),
    /// A change of the register with this key.
    Change(Method, Key),
}

/// A whole head.
#[derive(Debug, PartialEq, Eq, Drop)]
pub struct Head {
    /// How many bytes it has.
    pub length: usize,
    /// How many bytes of body follow it that are read before the answer: at most [`MOST_BODY`], and none behind a 400, a 413 or a 501.
    pub body: u64,
    /// Whether the connection closes behind the answer, whatever that is: the version is 1.0, or a Connection field says `close`.
    pub last: bool,
    /// What it asks for.
    pub asks: Asks,
}

/// What an input begins with.
#[derive(Debug, PartialEq, Eq, Drop)]
pub enum Front {
    /// A head that is not whole yet, in fewer than [`MOST_HEAD`] bytes. More bytes can make it whole.
    Open,
    /// No head: the answer has this code. It is 400 where no bytes can follow that make a head of at most [`MOST_FIELDS`] fields, and 431
    /// where [`MOST_HEAD`] bytes hold no whole head.
    Refused(Code),
    /// A whole head.
    Whole(Head),
}

/// What the bytes begin with, by the first [`MOST_HEAD`] of them.
///
/// Only memory can fail. It is asked for the key that a target names, and for nothing else.
pub fn read_front(alloc: Global, bytes: &[u8]) -> Result<Front, AllocError>
    ensures front { IfOk result (IsFront bytes.now) }
    // A head that stands there is found, whatever follows it.
    ensures found { (h : RequestHead) (rest : List ℕ)
        → ReadsRequest (take MOST_HEAD bytes.now) h rest → length h.fields ≤ MOST_FIELDS
        → IfOk result (λ front. front ≡ Front.Whole (head_of h)) }
{
    let mut room = [EMPTY_HEADER; MOST_FIELDS];
    let mut request = Request::new(&mut room);
    match request.parse(front_of(bytes)) {
        Ok(Status::Complete(length)) => {
            // No clause of the parser says that the fields of a head are no more than there was room for.
            if request.headers.len() > MOST_FIELDS {
                return Ok(Front::Refused(Code::BadRequest));
            }
            let head = read_head(
                alloc,
                length,
                request.method.unwrap(),
                request.path.unwrap(),
                request.version.unwrap(),
                request.headers,
            )?;
            Ok(Front::Whole(head))
        }
        Ok(Status::Partial) => Ok(unfinished(bytes.len())),
        Err(_) => Ok(Front::Refused(Code::BadRequest)),
    }
}

/// The bytes that a head is looked for in.
fn front_of(bytes: &[u8]) -> &[u8]
    ensures { result.now ≡ take MOST_HEAD bytes.now }
{
    &bytes[..bytes.len().min(MOST_HEAD)]
}

/// What so many bytes are that hold no whole head, and to which one may come.
fn unfinished(length: usize) -> Front
    ensures { result ≡ unfinished length }
{
    if length < MOST_HEAD {
        Front::Open
    } else {
        Front::Refused(Code::HeadTooLarge)
    }
}

/// What is told of a head with this length and these parts.
fn read_head(
    alloc: Global,
    length: usize,
    name: &str,
    target: &str,
    minor: u8,
    fields: &[Header],
) -> Result<Head, AllocError>
    ensures { IfOk result (λ head. head
        ≡ head_with length name.now target.now minor (map header_parts fields.now)) }
{
    let bytes = body_length(fields);
    let asks = asked_with(alloc, bytes, name, target, minor, fields)?;
    Ok(Head {
        length,
        body: body_read(&asks, bytes),
        last: is_last(minor, fields),
        asks,
    })
}

/// Whether the connection closes behind the answer to this head.
fn is_last(minor: u8, fields: &[Header]) -> bool
    ensures { result ≡ is_last minor (map header_parts fields.now) }
{
    minor == 0 || asks_to_close(fields)
}

/// What a head with these parts asks for, whose Content-Length says `bytes`.
fn asked_with(
    alloc: Global,
    bytes: BodyLength,
    name: &str,
    target: &str,
    minor: u8,
    fields: &[Header],
) -> Result<Asks, AllocError>
    ensures { IfOk result (λ asks. asks
        ≡ asked_with bytes name.now target.now minor (map header_parts fields.now)) }
{
    if bytes == BodyLength::Broken || !host_fits(minor, fields) {
        return Ok(Asks::Refused(Code::BadRequest));
    }
    if is_coded(fields) {
        return Ok(Asks::Refused(Code::NotImplemented));
    }
    if bytes.bytes() > MOST_BODY {
        return Ok(Asks::Refused(Code::ContentTooLarge));
    }
    let Some(method) = method_named(name) else {
        return Ok(Asks::Refused(Code::MethodNotAllowed));
    };
    let Some(key) = key_in(alloc, target)? else {
        return Ok(Asks::Refused(Code::NotFound));
    };
    Ok(asked_of(method, key, bytes))
}

/// What is asked for by a method and a key that are known.
fn asked_of(method: Method, key: Key, bytes: BodyLength) -> Asks
    ensures { result ≡ asked_of (Some method) (Some key) bytes }
{
    if method == Method::Post && bytes == BodyLength::Absent {
        Asks::Refused(Code::LengthRequired)
    } else {
        Asks::Change(method, key)
    }
}

/// The key of a target: what follows `/r/`, as it stands.
fn key_in(alloc: Global, target: &str) -> Result<Option<Key>, AllocError>
    ensures { IfOk result (λ key. key ≡ key_in target.now) }
{
    match target.as_bytes().strip_prefix(b"/r/") {
        Some(bytes) => if_key(alloc, bytes),
        None => Ok(None),
    }
}

/// The key of these bytes, where they are one.
fn if_key(alloc: Global, bytes: &[u8]) -> Result<Option<Key>, AllocError>
    ensures { IfOk result (λ key. key ≡ if_key bytes.now) }
{
    match Key::read(alloc, bytes) {
        Ok(key) => Ok(Some(key)),
        Err(fault) => if fault == KeyFault::NoMemory {
            Err(AllocError)
        } else {
            Ok(None)
        },
    }
}

/// How many bytes of body are read before the answer.
fn body_read(asks: &Asks, bytes: BodyLength) -> u64
    ensures { result ≡ body_read asks.now bytes }
{
    match asks {
        Asks::Refused(Code::BadRequest | Code::NotImplemented | Code::ContentTooLarge) => 0,
        _ => bytes.bytes(),
    }
}
