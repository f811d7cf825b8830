//! A connection, from the bytes in to the bytes out.

ghost use Rattle.std.specs.Prelude.{◌≡◌, ◌≢◌, ℕ, ◌+◌, ◌<◌, ◌≤◌, ◌^◌, List, [], length, true, vec_items, Ok, Err, IfOk, IsErrOf};
ghost use Rattle.cas_base.specs.Faults.{Rose};
ghost use Rattle.cas_http.specs.Requests.{refusal_closes};
ghost use Rattle.cas_http_connection.specs.Input.{is_last};
ghost use Rattle.cas_http_connection.specs.Connection.{AnswersRequest, Puts, Serves};

use crate::changer::Changer;
use crate::fault::ConnectionFault;
use crate::reading::next_request;
use cas_http::{Request, Spelled, print_answer, print_reply};
use cas_lines::sink::{Sink, put_all};
use cas_lines::source::Source;
use std::alloc::{AllocError, Global};

/// How many requests a connection answers at most.
pub const MOST_REQUESTS: u32 = 100_000;

/// Serves one connection: answers the requests of the source one after another, each before more is asked of the source.
///
/// A change is asked of the changer once its request is whole. `Ok` comes where the input ended between requests, or behind an answer that
/// closes the connection: the request or its refusal says so, or it is the [`MOST_REQUESTS`]th. What the source gave behind that is dropped.
///
/// After an `Err` the answers to the requests before are written.
///
/// - [`ConnectionFault::ReadFault`] comes only where the source's count of faults rose. No whole request was left then.
/// - [`ConnectionFault::Cut`] comes where the input ended behind a byte that begins no whole request, after `at` bytes in all.
/// - [`ConnectionFault::WriteFault`] comes only where the sink's count of faults rose. The answer to one more request was made, and a front of
///   it may be written.
/// - [`ConnectionFault::NoMemory`]: one more change may have been run, of whose answer nothing is written.
pub fn serve<S: Source, K: Sink, C: Changer>(
    alloc: Global,
    source: &mut S,
    sink: &mut K,
    changer: &mut C,
) -> Result<(), ConnectionFault>
    // What was written are the answers to the requests that the source's bytes spell, in their order, whatever the pieces.
    ensures serves { Serves S.take_gives C.change_gives result
        (record {
          source = source.old;
          left = S.remaining source.old;
          changer = changer.old;
          written = K.contents sink.old;
        })
        (record {
          source = source.new;
          left = S.remaining source.new;
          changer = changer.new;
          written = K.contents sink.new;
        }) }
    ensures read_fault { IsErrOf result ConnectionFault.ReadFault
        → Rose (S.faults_of source.old) (S.faults_of source.new) }
    ensures write_fault { IsErrOf result ConnectionFault.WriteFault
        → Rose (K.faults_of sink.old) (K.faults_of sink.new) }
{
    let mut held = Vec::new(alloc);
    let mut passed = 0;
    let mut answered = 0;
    while let Some(asked) = next_request(alloc, source, &mut held)? {
        let last = is_last(answered, &asked);
        answer_request(alloc, sink, changer, asked.request, last)?;
        if last {
            return Ok(());
        }
        passed += asked.length as u64;
        answered += 1;
    }
    expect_nothing(passed, &held)
}

/// Whether the connection closes behind this request, before which so many were answered.
fn is_last(answered: u32, asked: &Spelled) -> bool
    requires { answered < MOST_REQUESTS }
    ensures { result ≡ is_last answered asked.now }
{
    asked.last || answered + 1 == MOST_REQUESTS
}

/// Nothing, where no byte is held, and else the fault that the input was cut, behind so many bytes that were passed.
fn expect_nothing(passed: u64, held: &[u8]) -> Result<(), ConnectionFault>
    requires { passed ≤ 2 ^ 62 }
    ensures nothing { held.now ≡ [] → result ≡ Ok tt }
    ensures cut { held.now ≢ []
        → result ≡ Err (ConnectionFault.Cut (passed + length held.now)) }
{
    if held.is_empty() {
        Ok(())
    } else {
        Err(ConnectionFault::Cut {
            at: passed + held.len() as u64,
        })
    }
}

/// Answers a request, and writes the answer. After an `Err` a change was run, and its answer is not written whole.
fn answer_request<K: Sink, C: Changer>(
    alloc: Global,
    sink: &mut K,
    changer: &mut C,
    request: Request,
    last: bool,
) -> Result<(), ConnectionFault>
    requires { refusal_closes request ≡ true → last ≡ true }
    ensures answers { (reply : List ℕ)
        × AnswersRequest C.change_gives last request changer.old reply changer.new
        × Puts result (K.contents sink.old) (K.contents sink.new) reply }
    ensures write_fault { IsErrOf result ConnectionFault.WriteFault
        → Rose (K.faults_of sink.old) (K.faults_of sink.new) }
    ensures never_falls { K.faults_of sink.old ≤ K.faults_of sink.new }
{
    let text = answer(alloc, changer, &request, last)?;
    match put_all(sink, &text) {
        Ok(()) => Ok(()),
        Err(_) => Err(ConnectionFault::WriteFault),
    }
}

/// The bytes of the answer to a request, whose change is run first. Only memory can fail, and the change was run then.
fn answer<C: Changer>(
    alloc: Global,
    changer: &mut C,
    request: &Request,
    last: bool,
) -> Result<Vec<u8>, AllocError>
    requires { refusal_closes request.now ≡ true → last ≡ true }
    ensures { (reply : List ℕ)
        × AnswersRequest C.change_gives last request.now changer.old reply changer.new
        × IfOk result (λ text. vec_items text ≡ reply) }
{
    match request {
        Request::Refused(code) => print_answer(alloc, *code, "", last),
        Request::Change(key, program) => {
            let told = changer.change(key, program);
            print_reply(alloc, &told, last)
        }
    }
}
