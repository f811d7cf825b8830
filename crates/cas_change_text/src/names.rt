//! The names that guards and acts begin with.

ghost use Rattle.std.specs.Prelude.{◌≡◌};
ghost use Rattle.std.specs.Str.{bytes_eq};
ghost use Rattle.cas_change_text.specs.Reading.{guard_name, act_name};

/// Whether the word is this text.
pub fn says(word: &[u8], text: &str) -> bool
    ensures { result ≡ bytes_eq word.now text.now }
{
    word == text.as_bytes()
}

/// The first word of a guard.
#[derive(Clone, Copy, Debug, PartialEq, Eq)]
pub enum GuardName {
    Always,
    Empty,
    Version,
    Below,
    Is,
}

/// The guard that a word begins.
pub fn guard_name(word: &[u8]) -> Option<GuardName>
    ensures { result ≡ guard_name word.now }
{
    if says(word, "always") {
        Some(GuardName::Always)
    } else if says(word, "empty") {
        Some(GuardName::Empty)
    } else if says(word, "version") {
        Some(GuardName::Version)
    } else if says(word, "below") {
        Some(GuardName::Below)
    } else if says(word, "is") {
        Some(GuardName::Is)
    } else {
        None
    }
}

/// The first word of an act.
#[derive(Clone, Copy, Debug, PartialEq, Eq)]
pub enum ActName {
    Keep,
    Text,
    Num,
    Add,
    Clear,
}

/// The act that a word begins.
pub fn act_name(word: &[u8]) -> Option<ActName>
    ensures { result ≡ act_name word.now }
{
    if says(word, "keep") {
        Some(ActName::Keep)
    } else if says(word, "text") {
        Some(ActName::Text)
    } else if says(word, "num") {
        Some(ActName::Num)
    } else if says(word, "add") {
        Some(ActName::Add)
    } else if says(word, "clear") {
        Some(ActName::Clear)
    } else {
        None
    }
}
