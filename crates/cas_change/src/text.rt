//! Texts, one of the two kinds of body that a register can hold.

ghost use Rattle.std.specs.Prelude.{◌≡◌, ◌<◌, ◌≤◌, ◌↔◌, length, nat_eq, IsTrue, IfOk, IfErr, IsErrOf};
ghost use Rattle.std.specs.Cmp.{partial_equiv_from_equiv};
ghost use Rattle.std.specs.Cmp.Lexicographic.{nat_list_eq_equiv, pointwise};
ghost use Rattle.cas_change.specs.Text.{IsText};

use std::alloc::{AllocError, Global};
use std::marker::Model;

/// How many bytes a text has at most.
pub const LONGEST_TEXT: usize = 4_000;

/// Why bytes are no text, or became none.
#[derive(Clone, Copy, Debug, PartialEq, Eq)]
pub enum TextFault {
    /// There are more than [`LONGEST_TEXT`] bytes.
    TooLong,
    /// The bytes are a text, and there was no memory for them.
    NoMemory,
}

impl From<AllocError> for TextFault {
    ghost use Rattle.std.specs.Prelude.{◌≡◌};
    ghost use Rattle.cas_change.specs.declared.text.TextFault.TheVariants.{NoMemory};

    ghost from_gives = { λ _ fault. fault ≡ NoMemory };

    fn from(_error: AllocError) -> TextFault {
        TextFault::NoMemory
    }
}

/// A text: at most 4,000 bytes, whichever they are. It need not be UTF-8, and it may be empty.
///
/// Contracts see a text as its bytes.
#[derive(Debug, Drop)]
pub struct Text {
    bytes: Vec<u8>,
}

impl Model for Text {
    ghost use Rattle.std.specs.Prelude.{ℕ, List};
    ghost use Rattle.cas_change.specs.Text.{IsText};

    ghost Value = { List ℕ };

    ghost view = { λ text. text.bytes.items };

    ghost invariant = { λ text. IsText text.bytes.items };
}

impl Text {
    /// The text with these bytes.
    ///
    /// [`TextFault::TooLong`] comes exactly for more than 4,000 bytes, and [`TextFault::NoMemory`] may come for fewer.
    pub fn read(alloc: Global, bytes: &[u8]) -> Result<Text, TextFault>
        ensures text { IfOk result (λ text. (text ≡ bytes.now) × IsText bytes.now) }
        ensures too_long { IsErrOf result TextFault.TooLong ↔ (LONGEST_TEXT < length bytes.now) }
        // Bytes that are a text are refused for want of memory alone.
        ensures no_memory { IfErr result
            (λ fault. (fault ≡ TextFault.NoMemory) ↔ IsText bytes.now) }
    {
        if bytes.len() > LONGEST_TEXT {
            return Err(TextFault::TooLong);
        }
        Ok(Text {
            bytes: Vec::from_slice(alloc, bytes)?,
        })
    }

    /// The bytes of the text.
    pub fn bytes(&self) -> &[u8]
        ensures bytes { result.now ≡ self.now }
        ensures text { IsText self.now }
    {
        &self.bytes
    }

    /// An equal text, in memory from the same allocator.
    pub fn copy(&self) -> Result<Text, AllocError>
        ensures { IfOk result (λ copy. copy ≡ self.now) }
    {
        Ok(Text {
            bytes: self.bytes.clone()?,
        })
    }
}

impl PartialEq for Text {
    ghost eq = { pointwise nat_eq };

    ghost laws = { partial_equiv_from_equiv nat_list_eq_equiv };

    fn eq(&self, other: &Text) -> bool
        ensures gives { result ≡ pointwise nat_eq self.now other.now }
        ensures same { IsTrue result ↔ (self.now ≡ other.now) }
    {
        self.bytes() == other.bytes()
    }
}

impl Eq for Text {
    ghost laws = { nat_list_eq_equiv };
}
