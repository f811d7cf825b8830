//! The fields of a head that decide on an answer: Host, Transfer-Encoding, Content-Length and Connection.
//!
//! Names are compared without regard to the case of ASCII letters.

ghost use Rattle.std.specs.Prelude.{◌≡◌, ◌≤◌, map, Some, IsTrue, option_map, length};
ghost use Rattle.std.specs.Str.{str_eq_ignore_ascii_case, all_ascii_digits};
ghost use Rattle.std.specs.Str.Parse.{digits_value};
ghost use Rattle.httparse.specs.Borrowed.{header_parts};
ghost use Rattle.cas_http.specs.Fields.{has_name, count_named, value_named, host_fits, is_coded, is_length, length_in, length_by, body_length, bytes_of, is_separator, says_close, is_closing, asks_to_close};

use httparse::Header;
use std::str;

/// How many digits a Content-Length has at most.
pub(crate) const MOST_DIGITS: usize = 10;

/// What a head says of the length of its body.
#[derive(Clone, Copy, Debug, PartialEq, Eq)]
pub(crate) enum BodyLength {
    /// It has no Content-Length.
    Absent,
    /// So many bytes.
    Bytes(u64),
    /// It has more than one Content-Length, or one that is not 1 to 10 digits.
    Broken,
}

impl BodyLength {
    /// How many bytes that is. None where the head does not tell.
    pub(crate) fn bytes(self) -> u64
        ensures { result ≡ bytes_of self }
    {
        match self {
            BodyLength::Bytes(bytes) => bytes,
            BodyLength::Absent | BodyLength::Broken => 0,
        }
    }
}

/// Whether the two words are one, whatever the case of their letters.
fn is_same(word: &[u8], other: &str) -> bool
    ensures { result ≡ str_eq_ignore_ascii_case word.now other.now }
{
    word.eq_ignore_ascii_case(other.as_bytes())
}

/// Whether the field has this name.
fn has_name(field: &Header, name: &str) -> bool
    ensures { result ≡ has_name name.now (header_parts field.now) }
{
    is_same(field.name.as_bytes(), name)
}

/// How many fields have this name.
fn count_named(fields: &[Header], name: &str) -> usize
    ensures { result ≡ count_named name.now (map header_parts fields.now) }
{
    fields.iter().filter(|field| has_name(field, name)).count()
}

/// The value of the first field of this name.
fn value_named<'b>(fields: &[Header<'b>], name: &str) -> Option<&'b [u8]>
    ensures { option_map (λ value. value.now) result
        ≡ value_named name.now (map header_parts fields.now) }
{
    match fields {
        [] => None,
        [first, others @ ..] => {
            if has_name(first, name) {
                Some(first.value)
            } else {
                value_named(others, name)
            }
        }
    }
}

/// Whether a head of this minor version has the Host that it needs: one, or none in version 1.0.
pub(crate) fn host_fits(minor: u8, fields: &[Header]) -> bool
    ensures { result ≡ host_fits minor (map header_parts fields.now) }
{
    let hosts = count_named(fields, "host");
    hosts == 1 || (hosts == 0 && minor == 0)
}

/// Whether the head has a Transfer-Encoding.
pub(crate) fn is_coded(fields: &[Header]) -> bool
    ensures { result ≡ is_coded (map header_parts fields.now) }
{
    count_named(fields, "transfer-encoding") > 0
}

/// What the head says of the length of its body.
pub(crate) fn body_length(fields: &[Header]) -> BodyLength
    ensures { result ≡ body_length (map header_parts fields.now) }
{
    if count_named(fields, "content-length") > 1 {
        return BodyLength::Broken;
    }
    match value_named(fields, "content-length") {
        Some(digits) => length_by(length_in(digits)),
        None => BodyLength::Absent,
    }
}

/// The length that was read of one Content-Length.
fn length_by(length: Option<u64>) -> BodyLength
    ensures { result ≡ length_by length }
{
    match length {
        Some(bytes) => BodyLength::Bytes(bytes),
        None => BodyLength::Broken,
    }
}

/// The number that 1 to 10 digits say.
fn length_in(digits: &[u8]) -> Option<u64>
    ensures { result ≡ length_in digits.now }
{
    if is_length(digits) {
        digits_value(digits)
    } else {
        None
    }
}

/// Whether these are 1 to 10 digits.
fn is_length(digits: &[u8]) -> bool
    ensures { result ≡ is_length digits.now }
{
    1 <= digits.len() && digits.len() <= MOST_DIGITS && are_digits(digits)
}

/// Whether each of these bytes is a digit.
fn are_digits(bytes: &[u8]) -> bool
    ensures { result ≡ all_ascii_digits bytes.now }
{
    match bytes {
        [] => true,
        [first, others @ ..] => first.is_ascii_digit() && are_digits(others),
    }
}

/// The number that these digits say.
fn digits_value(digits: &[u8]) -> Option<u64>
    requires { IsTrue (is_length digits.now) }
    ensures { result ≡ Some (digits_value 10 digits.now) }
{
    match str::from_utf8(digits) {
        Ok(text) => text.parse().ok(),
        Err(_) => None,
    }
}

/// Whether some Connection field asks that the connection closes.
pub(crate) fn asks_to_close(fields: &[Header]) -> bool
    ensures { result ≡ asks_to_close (map header_parts fields.now) }
{
    match fields {
        [] => false,
        [first, others @ ..] => is_closing(first) || asks_to_close(others),
    }
}

/// Whether this is a Connection field that asks to close.
fn is_closing(field: &Header) -> bool
    ensures { result ≡ is_closing (header_parts field.now) }
{
    has_name(field, "connection") && says_close(field.value)
}

/// Whether one of the words of the value is `close`. Words stand between commas and blanks.
fn says_close(value: &[u8]) -> bool
    ensures { result ≡ says_close value.now }
{
    value
        .split(|byte| is_separator(*byte))
        .any(|word| is_same(word, "close"))
}

/// Whether the byte stands between words: a comma, a space or a tab.
fn is_separator(byte: u8) -> bool
    ensures { result ≡ is_separator byte }
{
    byte == b',' || byte == b' ' || byte == b'\t'
}
