//! Keys, the names of registers.

ghost use Rattle.std.specs.Prelude.{◌≡◌, ℕ, ◌<◌, ◌≤◌, ◌↔◌, Some, [], length, nat_eq, IsTrue, IfOk, IfErr, IsErrOf, refl};
ghost use Rattle.std.specs.Cmp.{partial_equiv_from_equiv};
ghost use Rattle.std.specs.Cmp.Rules.{hashing};
ghost use Rattle.std.specs.Cmp.Lexicographic.{nat_list_cmp_total, nat_list_eq_equiv, pointwise, slice_cmp, texts_po, texts_ties};
ghost use Rattle.std.specs.Hash as fed;
ghost use Rattle.std.specs.Ordering.{nat_cmp};
ghost use Rattle.std.proofs.Common.{rules};
ghost use Rattle.cas_change.specs.Key.{first_bad_byte, is_key_byte, IsKey};
ghost use Rattle.cas_change.specs.KeyPrefix.{prefix_number};

use std::alloc::{AllocError, Global};
use std::cmp::Ordering;
use std::hash::{Hash, Hasher};
use std::marker::Model;
use std::sync::ArcSlice;

/// How many bytes a key has at most.
pub const LONGEST_KEY: usize = 64;

/// What the first byte of a key counts in its prefix number, so that eight bytes of it count.
const FIRST_WEIGHT: u64 = 1 << 56;

/// Why bytes are no key, or became none.
#[derive(Clone, Copy, Debug, PartialEq, Eq)]
pub enum KeyFault {
    /// There is no byte.
    Empty,
    /// There are more than [`LONGEST_KEY`] bytes.
    TooLong,
    /// The length fits, and the first byte outside `0x21` to `0x7E` stands at `at`, counted from 0.
    BadByte { at: usize },
    /// The bytes are a key, and there was no memory for them.
    NoMemory,
}

impl From<AllocError> for KeyFault {
    ghost use Rattle.std.specs.Prelude.{◌≡◌};
    ghost use Rattle.cas_change.specs.declared.key.KeyFault.TheVariants.{NoMemory};

    ghost from_gives = { λ _ fault. fault ≡ NoMemory };

    fn from(_error: AllocError) -> KeyFault {
        KeyFault::NoMemory
    }
}

/// The name of a register: 1 to 64 bytes, each a printable ASCII character other than the space.
///
/// Contracts see a key as its bytes. Keys are ordered by their bytes, and a key that begins another comes first.
#[derive(Debug, Drop)]
pub struct Key {
    bytes: ArcSlice<u8>,
    /// The first eight bytes as a number. Most comparisons of two keys look at it alone, and at no memory but the keys' own.
    prefix: u64,
}

impl Model for Key {
    ghost use Rattle.std.specs.Prelude.{ℕ, List};
    ghost use Rattle.std.specs.Arc.{arc_slice_items};
    ghost use Rattle.cas_change.specs.KeyPrefix.{IsKeyWith};

    ghost Value = { List ℕ };

    ghost view = { λ key. arc_slice_items key.bytes };

    ghost invariant = { λ key. IsKeyWith (arc_slice_items key.bytes) key.prefix };
}

fn is_key_byte(byte: u8) -> bool
    ensures { result ≡ is_key_byte byte }
{
    (0x21..=0x7E).contains(&byte)
}

/// The bytes as a number: the first counts `weight`, and each a 256th of the one before it, until that is nothing.
fn prefix_number(bytes: &[u8], weight: u64) -> u64
    requires { weight ≤ FIRST_WEIGHT }
    ensures { result ≡ prefix_number bytes.now weight }
{
    match bytes {
        [first, rest @ ..] if weight > 0 => {
            u64::from(*first) * weight + prefix_number(rest, weight / 256)
        }
        _ => 0,
    }
}

fn first_bad_byte(bytes: &[u8]) -> Option<usize>
    ensures { result ≡ first_bad_byte bytes.now }
{
    bytes.iter().position(|&byte| !is_key_byte(byte))
}

impl Key {
    /// The key with these bytes.
    ///
    /// Each fault comes exactly where its own comment says, except that [`KeyFault::NoMemory`] may come for any key.
    pub fn read(alloc: Global, bytes: &[u8]) -> Result<Key, KeyFault>
        ensures key { IfOk result (λ key. (key ≡ bytes.now) × IsKey bytes.now) }
        ensures empty { IsErrOf result KeyFault.Empty ↔ (bytes.now ≡ []) }
        ensures too_long { IsErrOf result KeyFault.TooLong ↔ (LONGEST_KEY < length bytes.now) }
        ensures bad_byte { (at : ℕ) → IsErrOf result (KeyFault.BadByte at) ↔
            ((length bytes.now ≤ LONGEST_KEY) × (first_bad_byte bytes.now ≡ Some at)) }
        // Bytes that are a key are refused for want of memory alone.
        ensures no_memory { IfErr result (λ fault. (fault ≡ KeyFault.NoMemory) ↔ IsKey bytes.now) }
    {
        if bytes.is_empty() {
            return Err(KeyFault::Empty);
        }
        if bytes.len() > LONGEST_KEY {
            return Err(KeyFault::TooLong);
        }
        if let Some(at) = first_bad_byte(bytes) {
            return Err(KeyFault::BadByte { at });
        }
        Ok(Key {
            bytes: ArcSlice::from_slice(alloc, bytes)?,
            prefix: prefix_number(bytes, FIRST_WEIGHT),
        })
    }

    /// The bytes of the key.
    pub fn bytes(&self) -> &[u8]
        ensures bytes { result.now ≡ self.now }
        ensures key { IsKey self.now }
    {
        &self.bytes
    }

    /// An equal key, in memory from the same allocator.
    pub fn copy(&self) -> Result<Key, AllocError>
        ensures { IfOk result (λ copy. copy ≡ self.now) }
    {
        Ok(Key {
            bytes: self.bytes.clone()?,
            prefix: self.prefix,
        })
    }
}

impl PartialEq for Key {
    ghost eq = { pointwise nat_eq };

    ghost laws = { partial_equiv_from_equiv nat_list_eq_equiv };

    fn eq(&self, other: &Key) -> bool
        ensures gives { result ≡ pointwise nat_eq self.now other.now }
        ensures same { IsTrue result ↔ (self.now ≡ other.now) }
    {
        self.bytes() == other.bytes()
    }
}

impl Eq for Key {
    ghost laws = { nat_list_eq_equiv };
}

impl PartialOrd for Key {
    ghost partial_cmp = { λ a b. Some (slice_cmp nat_cmp a b) };

    ghost laws = { texts_po };

    fn partial_cmp(&self, other: &Key) -> Option<Ordering> {
        Some(self.cmp(other))
    }
}

impl Ord for Key {
    ghost cmp = { slice_cmp nat_cmp };

    ghost total = { nat_list_cmp_total };

    ghost matches_partial_cmp = { λ a b. refl };

    ghost matches_eq = { texts_ties };

    fn cmp(&self, other: &Key) -> Ordering {
        match self.prefix.cmp(&other.prefix) {
            Ordering::Equal => self.bytes().cmp(other.bytes()),
            unequal => unequal,
        }
    }
}

impl Hash for Key {
    ghost hash_input = { fed.slice fed.u8 };

    ghost respects_eq = { Prim.search (hashing, rules) };

    fn hash<H: Hasher>(&self, state: &mut H) {
        self.bytes().hash(state);
    }
}
