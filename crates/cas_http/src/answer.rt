//! The bytes of answers.

ghost use Rattle.std.specs.Prelude.{◌≡◌, ◌++◌, ◌||◌, string_bytes, length, decimal, IfOk, OnOk};
ghost use Rattle.httparse.specs.Grammar.{ReadsResponse};
ghost use Rattle.cas_http.specs.Codes.{closes};
ghost use Rattle.cas_http.specs.Responses.{response_of};
ghost use Rattle.cas_http.specs.Answers.{line_text, allow_text, close_text, answer_text_of};

use crate::code::Code;
use itoa::Buffer;
use std::alloc::{AllocError, Global};

/// The answer of this code with this body, which is JSON or empty.
///
/// It says that the connection closes if `last` is true or the code closes. The length that it tells is that of the body in bytes. Only
/// memory can fail.
pub fn print_answer(
    alloc: Global,
    code: Code,
    body: &str,
    last: bool,
) -> Result<Vec<u8>, AllocError>
    ensures text { IfOk result (λ answer. answer.items
        ≡ answer_text_of code body.now (last || closes code)) }
    // A reader of HTTP finds this head, which has the code and the length, and behind it the body.
    ensures response { IfOk result (λ answer. ReadsResponse answer.items
        (response_of code (length body.now) (last || closes code)) body.now) }
{
    let mut digits = Buffer::new();
    let mut answer = String::new(alloc);
    answer.push_str("HTTP/1.1 ")?;
    push_line(&mut answer, code.status())?;
    push_line(&mut answer, "Content-Type: application/json")?;
    answer.push_str("Content-Length: ")?;
    push_line(&mut answer, digits.format(body.len()))?;
    push_allow(&mut answer, code)?;
    push_close(&mut answer, last || code.closes())?;
    push_line(&mut answer, "")?;
    answer.push_str(body)?;
    Ok(answer.into_bytes())
}

/// Writes a line behind the text, with its end.
fn push_line(text: &mut String, line: &str) -> Result<(), AllocError>
    ensures { OnOk result (string_bytes text.new ≡ string_bytes text.old ++ line_text line.now) }
{
    text.push_str(line)?;
    text.push_str("\r\n")
}

/// Writes which methods are allowed, where the code is 405.
fn push_allow(text: &mut String, code: Code) -> Result<(), AllocError>
    ensures { OnOk result (string_bytes text.new ≡ string_bytes text.old ++ allow_text code) }
{
    match code {
        Code::MethodNotAllowed => push_line(text, "Allow: GET, POST, DELETE"),
        _ => Ok(()),
    }
}

/// Writes that the connection closes, where it does.
fn push_close(text: &mut String, closes: bool) -> Result<(), AllocError>
    ensures { OnOk result (string_bytes text.new ≡ string_bytes text.old ++ close_text closes) }
{
    if closes {
        push_line(text, "Connection: close")
    } else {
        Ok(())
    }
}
