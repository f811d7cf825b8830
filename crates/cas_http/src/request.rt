//! Whole requests: what each asks for, how many bytes it has, and whether the connection closes behind its answer.

ghost use Rattle.std.specs.Prelude.{◌≡◌, IfOk};
ghost use Rattle.cas_http.specs.Requests.{request_of, refusal_closes, end_within, spelled_with, change_with, BeginsWith};

use crate::code::Code;
use crate::head::{Asks, Front, Head, read_front};
use cas_change::{Key, Program};
use std::alloc::{AllocError, Global};

/// What a request asks for.
#[derive(Debug, PartialEq, Eq, Drop)]
pub enum Request {
    /// Nothing that can be done: its answer has this code, which is 400, 404, 405, 411, 413, 422, 431 or 501.
    Refused(Code),
    /// That this program is run on the register with this key.
    Change(Key, Program),
}

/// A request that an input begins with.
#[derive(Debug, PartialEq, Eq, Drop)]
pub struct Spelled {
    /// What it asks for.
    pub request: Request,
    /// How many bytes it has: those of its head and of its body, as far as that is read. Bytes without a head have none.
    pub length: usize,
    /// Whether the connection closes behind its answer.
    pub last: bool,
}

/// The request that the bytes begin with. `Ok(None)` comes where more bytes have to come, of its head or of its body.
///
/// Only memory can fail.
pub fn read_request(alloc: Global, bytes: &[u8]) -> Result<Option<Spelled>, AllocError>
    ensures { IfOk result (BeginsWith bytes.now) }
{
    match read_front(alloc, bytes)? {
        Front::Open => Ok(None),
        Front::Refused(code) => Ok(Some(Spelled {
            request: Request::Refused(code),
            length: 0,
            last: true,
        })),
        Front::Whole(head) => match end_within(&head, bytes.len()) {
            Some(end) => {
                let body = &bytes[head.length..end];
                Ok(Some(spell(alloc, head, body, end)?))
            }
            None => Ok(None),
        },
    }
}

/// Where the body behind a head ends, if it is whole in so many bytes.
fn end_within(head: &Head, size: usize) -> Option<usize>
    ensures { result ≡ end_within head.now size }
{
    let end = head.length.checked_add(head.body as usize)?;
    if end <= size { Some(end) } else { None }
}

/// The request that has this head, this body and this length.
fn spell(alloc: Global, head: Head, body: &[u8], length: usize) -> Result<Spelled, AllocError>
    ensures { IfOk result (λ told. told ≡ spelled_with head body.now length) }
{
    let Head { last, asks, .. } = head;
    let request = request_of(alloc, asks, body)?;
    Ok(Spelled {
        last: last || refusal_closes(&request),
        request,
        length,
    })
}

/// What is asked for with this body.
fn request_of(alloc: Global, asks: Asks, body: &[u8]) -> Result<Request, AllocError>
    ensures { IfOk result (λ request. request ≡ request_of asks body.now) }
{
    match asks {
        Asks::Refused(code) => Ok(Request::Refused(code)),
        Asks::Change(method, key) => Ok(change_with(key, method.program(alloc, body)?)),
    }
}

/// A change of the register, where there is a program.
fn change_with(key: Key, program: Option<Program>) -> Request
    ensures { result ≡ change_with key program }
{
    match program {
        Some(program) => Request::Change(key, program),
        None => Request::Refused(Code::Unprocessable),
    }
}

/// Whether a refusal closes the connection by itself.
fn refusal_closes(request: &Request) -> bool
    ensures { result ≡ refusal_closes request.now }
{
    match request {
        Request::Refused(code) => code.closes(),
        Request::Change(..) => false,
    }
}
