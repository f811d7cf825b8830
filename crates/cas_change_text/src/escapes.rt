//! Texts in words, with escapes.

ghost use Rattle.std.specs.Prelude.{◌≡◌, ◌+◌, ◌*◌, ◌-◌, ◌<◌, ◌++◌, [], Some, None, length, string_bytes, vec_len, All, IfOk, IfSome, IfNone, OnOk};
ghost use Rattle.std.specs.Option.{option_map};
ghost use Rattle.cas_change_text.specs.Escapes.{is_plain, hex_value, byte_from, hex_digit, escaped_byte, escaped, onto, unescaped, text_of};
ghost use Rattle.cas_change_text.specs.Reading.{GivesInMemory, text_in};

use crate::names::says;
use crate::refusal::{TextRefusal, Why};
use cas_change::{Text, TextFault};
use std::alloc::{AllocError, Global};

/// Whether the byte stands for itself: printable, no blank, and no percent sign.
fn is_plain(byte: u8) -> bool
    ensures { result ≡ is_plain byte }
{
    0x21 <= byte && byte <= 0x7E && byte != b'%'
}

/// The value of a hexadecimal digit of either case.
fn hex_value(digit: u8) -> Option<u8>
    ensures { result ≡ hex_value digit }
{
    match digit {
        b'0'..=b'9' => Some(digit - 48),
        b'A'..=b'F' => Some(digit - 55),
        b'a'..=b'f' => Some(digit - 87),
        _ => None,
    }
}

/// The byte of two hexadecimal digits.
fn byte_from(high: u8, low: u8) -> Option<u8>
    ensures { result ≡ byte_from (hex_value high) (hex_value low) }
{
    let high = hex_value(high)?;
    let low = hex_value(low)?;
    Some(high * 16 + low)
}

/// The first byte that the word stands for, and what stands behind it.
fn first_byte(word: &[u8]) -> Option<(u8, &[u8])>
    ensures some { IfSome result
        (λ found. unescaped word.now ≡ onto (Some found.0) (unescaped found.1.now)) }
    ensures less { IfSome result (λ found. length found.1.now < length word.now) }
    ensures none { IfNone result (0 < length word.now → unescaped word.now ≡ None) }
{
    match word {
        [sign, rest @ ..] if is_plain(*sign) => Some((*sign, rest)),
        [b'%', high, low, rest @ ..] => Some((byte_from(*high, *low)?, rest)),
        _ => None,
    }
}

/// The bytes that the word stands for. `Ok(None)` where a byte may not stand in a word, or an escape is broken.
fn unescaped(alloc: Global, word: &[u8]) -> Result<Option<Vec<u8>>, AllocError>
    ensures { IfOk result (λ read. option_map (λ bytes. bytes.items) read ≡ unescaped word.now) }
{
    let mut bytes = Vec::new(alloc);
    let mut rest = word;
    while let Some((byte, behind)) = first_byte(rest) {
        bytes.push(byte)?;
        rest = behind;
    }
    if rest.is_empty() {
        Ok(Some(bytes))
    } else {
        Ok(None)
    }
}

/// The text that the word spells, of any length. `Ok(None)` where it spells none.
fn text_of(alloc: Global, word: &[u8]) -> Result<Option<Vec<u8>>, AllocError>
    ensures { IfOk result (λ read. option_map (λ bytes. bytes.items) read ≡ text_of word.now) }
{
    if says(word, "%-") {
        Ok(Some(Vec::new(alloc)))
    } else if word.is_empty() {
        Ok(None)
    } else {
        unescaped(alloc, word)
    }
}

/// The text that the word spells, which stands at this place.
#[tactic(auto, unfolding(crate::specs::Reading::text_in))]
pub fn text_in(alloc: Global, at: usize, word: &[u8]) -> Result<Text, TextRefusal>
    ensures { GivesInMemory result (text_in at word.now) }
{
    let why = match text_of(alloc, word) {
        Ok(Some(bytes)) => match Text::read(alloc, &bytes) {
            Ok(text) => return Ok(text),
            Err(TextFault::TooLong) => Why::TooLong,
            Err(TextFault::NoMemory) => Why::NoMemory,
        },
        Ok(None) => Why::UnknownWord,
        Err(AllocError) => Why::NoMemory,
    };
    Err(TextRefusal { why, word: at })
}

/// Writes a text behind `line`, as a word that spells it.
pub fn push_escaped(line: &mut String, bytes: &[u8]) -> Result<(), AllocError>
    ensures ok { OnOk result (string_bytes line.new ≡ string_bytes line.old ++ escaped bytes.now) }
    ensures bytes { All (λ byte. byte < 256) bytes.now }
{
    if bytes.is_empty() {
        return line.push_str("%-");
    }
    for byte in bytes {
        push_escaped_byte(line, *byte)?;
    }
    Ok(())
}

fn push_escaped_byte(line: &mut String, byte: u8) -> Result<(), AllocError>
    ensures { OnOk result (string_bytes line.new ≡ string_bytes line.old ++ escaped_byte byte) }
{
    if is_plain(byte) {
        line.push(char::from(byte))
    } else {
        line.push('%')?;
        line.push(hex_digit(byte / 16))?;
        line.push(hex_digit(byte % 16))
    }
}

/// The upper-case hexadecimal digit.
fn hex_digit(n: u8) -> char
    requires { n < 16 }
    ensures { result ≡ hex_digit n }
{
    if n < 10 {
        char::from(b'0' + n)
    } else {
        char::from(b'A' + (n - 10))
    }
}
