//! Why a text is refused, and at which word.

ghost use Rattle.std.specs.Prelude.{◌≡◌};
ghost use Rattle.cas_change_text.specs.Refusal.{reason_text};

use thiserror::Error;

/// Why a word does not fit where it stands.
#[derive(Clone, Copy, Debug, PartialEq, Eq, Error)]
pub enum Why {
    /// The words end where one more is needed.
    #[error("no word")]
    NoWord,
    /// The word is none of those that may stand there, is one too many, or is a text with a broken escape.
    #[error("unknown word")]
    UnknownWord,
    /// A number is needed, and the word is none in range.
    #[error("bad number")]
    BadNumber,
    /// The word stands for more bytes than it may.
    #[error("too long")]
    TooLong,
    /// One clause more than a program may have begins with the word.
    #[error("too many clauses")]
    TooManyClauses,
    /// There was no memory.
    #[error("no memory")]
    NoMemory,
}

impl Why {
    /// The reason in words, as it is written in an answer.
    pub fn reason(self) -> &'static str
        ensures { result.now ≡ reason_text self }
    {
        match self {
            Why::NoWord => "no word",
            Why::UnknownWord => "unknown word",
            Why::BadNumber => "bad number",
            Why::TooLong => "too long",
            Why::TooManyClauses => "too many clauses",
            Why::NoMemory => "no memory",
        }
    }
}

/// A refusal of a text.
#[derive(Clone, Copy, Debug, PartialEq, Eq)]
pub struct TextRefusal {
    /// Why the word does not fit.
    pub why: Why,
    /// The place of the first word that does not fit, counted from 0. Where a word is missing it is the number of words.
    pub word: usize,
}
