//! The bodies of answers to changes, as JSON.

ghost use Rattle.std.specs.Prelude.{◌≡◌, if◌then◌else◌, string_bytes, Some, None, IfOk, option_map};
ghost use Rattle.std.specs.Str.{is_utf8};
ghost use Rattle.serde_json.specs.Read.{read};
ghost use Rattle.serde_json.specs.View.{view};
ghost use Rattle.serde_json.specs.Written.{compact_text};
ghost use Rattle.cas_http.specs.Outcomes.{text_data, body_data, state_data, took_data, done_data, told_data, code_of, answer_data, reply_text};

use crate::answer::print_answer;
use crate::code::Code;
use cas_ballot::Ballot;
use cas_change::{Body, State, Took};
use cas_lines::answer::push_answer;
use cas_record::Answer;
use serde_json::{Value, json};
use std::alloc::{AllocError, Global};
use std::str;

/// The code of what a change is answered.
pub fn code_of(answer: &Answer) -> Code
    ensures { result ≡ code_of answer.now }
{
    match answer {
        Answer::Done { .. } => Code::Done,
        Answer::Conflict { .. } => Code::Conflict,
        _ => Code::Unavailable,
    }
}

/// The whole answer to a change. The connection closes behind it exactly where `last` is true. Only memory can fail.
pub fn print_reply(alloc: Global, answer: &Answer, last: bool) -> Result<Vec<u8>, AllocError>
    ensures { IfOk result (λ bytes. bytes.items ≡ reply_text answer.now last) }
{
    let body = print_body(alloc, answer)?;
    print_answer(alloc, code_of(answer), &body, last)
}

/// The body of what a change is answered, as JSON in one line without blanks.
///
/// Where the change stands, it has the keys `at`, `state` and `took`: the ballot, what is held, and which clause acted. A text that is not
/// UTF-8 is written in hexadecimal digits, under the name `hex`. Any other answer is its text under the key `answer`. Only memory can fail.
pub fn print_body(alloc: Global, answer: &Answer) -> Result<String, AllocError>
    ensures text { IfOk result (λ text. string_bytes text ≡ compact_text (answer_data answer.now)) }
    // A reader of JSON finds all of it again.
    ensures reads_back { IfOk result (λ text. read (string_bytes text)
        ≡ Some (answer_data answer.now)) }
{
    answer_value(alloc, answer)?.to_string(alloc)
}

/// What a change is answered, as JSON.
fn answer_value(alloc: Global, answer: &Answer) -> Result<Value, AllocError>
    ensures { IfOk result (λ value. view value ≡ answer_data answer.now) }
{
    match answer {
        Answer::Done {
            state,
            took,
            ballot,
        } => done_value(alloc, state, *took, *ballot),
        other => {
            let mut text = String::new(alloc);
            push_answer(&mut text, other)?;
            told_value(alloc, &text)
        }
    }
}

/// What a change that stands left, as JSON.
fn done_value(alloc: Global, state: &State, took: Took, ballot: Ballot) -> Result<Value, AllocError>
    ensures { IfOk result (λ value. view value ≡ done_data state.now took ballot) }
{
    let at = format!(in alloc; "{ballot}")?;
    let state = state_value(alloc, state)?;
    let took = took_value(alloc, took)?;
    json!(in alloc; {"at": at, "state": state, "took": took})
}

/// Any other answer, by its text, as JSON.
fn told_value(alloc: Global, answer: &String) -> Result<Value, AllocError>
    ensures { IfOk result (λ value. view value ≡ told_data (string_bytes answer.now)) }
{
    json!(in alloc; {"answer": answer})
}

/// What is held, as JSON.
fn state_value(alloc: Global, state: &State) -> Result<Value, AllocError>
    ensures { IfOk result (λ value. view value ≡ state_data state.now) }
{
    match state {
        State::Empty => Ok(Value::Null),
        State::Held { version, body } => body_value(alloc, body, *version),
    }
}

/// A body with its version, as JSON.
fn body_value(alloc: Global, body: &Body, version: u64) -> Result<Value, AllocError>
    ensures { IfOk result (λ value. view value ≡ body_data body.now version) }
{
    match body {
        Body::Number(number) => json!(in alloc; {"num": *number, "version": version}),
        Body::Text(text) => text_value(alloc, text.bytes(), version),
    }
}

/// A text with its version, as JSON.
fn text_value(alloc: Global, bytes: &[u8], version: u64) -> Result<Value, AllocError>
    ensures { IfOk result (λ value. view value ≡ text_data bytes.now version) }
{
    match as_utf8(bytes) {
        Some(text) => json!(in alloc; {"text": text, "version": version}),
        None => {
            let digits = hex::encode(alloc, bytes)?;
            json!(in alloc; {"hex": digits, "version": version})
        }
    }
}

/// The bytes as a string, where they are UTF-8.
fn as_utf8(bytes: &[u8]) -> Option<&str>
    ensures { option_map (λ text. text.now) result
        ≡ (if is_utf8 bytes.now then Some bytes.now else None) }
{
    match str::from_utf8(bytes) {
        Ok(text) => Some(text),
        Err(_) => None,
    }
}

/// Which clause acted, or why none did.
fn took_value(alloc: Global, took: Took) -> Result<Value, AllocError>
    ensures { IfOk result (λ value. view value ≡ took_data took) }
{
    match took {
        Took::Clause(number) => Ok(Value::from(number)),
        Took::Nothing => Value::try_from_str(alloc, "none"),
        Took::Unfit(_) => Value::try_from_str(alloc, "unfit"),
    }
}
