//! Decimal numbers in words.

ghost use Rattle.std.specs.Prelude.{◌≡◌, ◌^◌, ◌<◌};
ghost use Rattle.std.specs.List.{list_all};
ghost use Rattle.std.specs.Option.{SomeIff};
ghost use Rattle.std.specs.Char.{is_ascii_digit};
ghost use Rattle.cas_change_text.specs.Decimal.{is_numeral, number_after, signed_of, i64_of, u64_of};

/// The most digits that a number may have.
const MOST_DIGITS: usize = 20;

/// The number that a word says, where it says one: 1 to 20 digits, leading zeros allowed, with a value below 2^64.
pub fn read_u64(word: &[u8]) -> Option<u64>
    ensures { result ≡ u64_of word.now }
{
    if is_numeral(word) {
        number_of(word)
    } else {
        None
    }
}

/// The number that a word says, where it says one: 1 to 20 digits after a minus or none, leading zeros allowed, with a
/// value in the range of `i64`.
pub fn read_i64(word: &[u8]) -> Option<i64>
    ensures { result ≡ i64_of word.now }
{
    let (negative, digits) = match word {
        [b'-', digits @ ..] => (true, digits),
        digits => (false, digits),
    };
    if is_numeral(digits) {
        with_sign(negative, number_of(digits)?)
    } else {
        None
    }
}

/// Whether these are 1 to 20 decimal digits.
fn is_numeral(digits: &[u8]) -> bool
    ensures { result ≡ is_numeral digits.now }
{
    1 <= digits.len() && digits.len() <= MOST_DIGITS && are_digits(digits)
}

/// Whether each of these bytes is a decimal digit.
fn are_digits(bytes: &[u8]) -> bool
    ensures { result ≡ list_all is_ascii_digit bytes.now }
{
    bytes.iter().all(|byte| byte.is_ascii_digit())
}

/// The number that these digits write, where it is below 2^64.
fn number_of(digits: &[u8]) -> Option<u64>
    ensures { SomeIff result (number_after 0 digits.now < 2 ^ 64) (number_after 0 digits.now) }
{
    let mut number: u64 = 0;
    for byte in digits {
        let digit = u64::from(byte.saturating_sub(b'0'));
        number = number.checked_mul(10)?.checked_add(digit)?;
    }
    Some(number)
}

/// The number of this size and sign, where an `i64` can be it.
fn with_sign(negative: bool, size: u64) -> Option<i64>
    ensures { result ≡ signed_of negative size }
{
    if negative {
        0i64.checked_sub_unsigned(size)
    } else {
        0i64.checked_add_unsigned(size)
    }
}
