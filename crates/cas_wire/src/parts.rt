//! The parts that frames and cells share: keys, ballots, and what was accepted.

ghost use Rattle.std.specs.Prelude.{◌≡◌, ◌++◌, IfOk, IfSome, OnOk, OnErr};
ghost use Rattle.std.specs.Option.{option_copied};
ghost use Rattle.cas_ballot.specs.Ballot.{FitsBallot};
ghost use Rattle.cas_change.specs.Key.{IsKey};
ghost use Rattle.cas_wire.specs.Part.{IsPart, IsSpelledPart, StopsAtFirst};
ghost use Rattle.cas_wire.specs.Reading.{key_at, ballot_at, optional_at, accepted_at};
ghost use Rattle.cas_wire.specs.Spelling.{key_spelling, ballot_spelling, accepted_spelling, optional_spelling, FitsAccepted};

pub use crate::reading::rise_at;
use crate::reading::{self, ReadError};
use crate::writing;
use cas_ballot::Ballot;
use cas_change::Key;
use cas_slot::Accepted;
use std::alloc::{AllocError, Global};

/// A part at the front of bytes.
#[derive(Debug, PartialEq, Eq, Drop)]
pub enum Part<T> {
    /// The value, which the first `used` bytes spell.
    Read { value: T, used: usize },
    /// No front of the bytes spells a value. No spelling has the byte at this place there; or the bytes end too early, and it is
    /// their number.
    Wrong { at: usize },
}

/// Appends the spelling of a key. After an `Err` the bytes are as before.
pub fn push_key(out: &mut Vec<u8>, key: &Key) -> Result<(), AllocError>
    ensures ok { OnOk result (out.new.items ≡ out.old.items ++ key_spelling key.now) }
    ensures err { OnErr result (out.new.items ≡ out.old.items) }
{
    out.reserve(65)?;
    writing::put_key(out, key);
    Ok(())
}

/// Appends the spelling of a ballot. After an `Err` the bytes are as before.
pub fn push_ballot(out: &mut Vec<u8>, ballot: Ballot) -> Result<(), AllocError>
    requires { FitsBallot ballot }
    ensures ok { OnOk result (out.new.items ≡ out.old.items ++ ballot_spelling ballot) }
    ensures err { OnErr result (out.new.items ≡ out.old.items) }
{
    out.reserve(9)?;
    writing::put_ballot(out, ballot);
    Ok(())
}

/// Appends the spelling of what was accepted, if anything was. After an `Err` the bytes are as before.
pub fn push_accepted(out: &mut Vec<u8>, accepted: Option<&Accepted>) -> Result<(), AllocError>
    requires { IfSome (option_copied accepted) (λ a. FitsBallot a.ballot) }
    ensures ok { OnOk result (out.new.items ≡ out.old.items ++ optional_spelling accepted_spelling
        (option_copied accepted.entry)) }
    ensures fits { OnOk result (IfSome (option_copied accepted.entry) FitsAccepted) }
    ensures err { OnErr result (out.new.items ≡ out.old.items) }
{
    out.reserve(31 + writing::accepted_room(accepted))?;
    writing::put_accepted_or_none(out, accepted);
    Ok(())
}

/// The key at the front.
pub fn take_key(alloc: Global, bytes: &[u8]) -> Result<Part<Key>, AllocError>
    ensures spelled { IfOk result (IsSpelledPart key_spelling IsKey bytes.now) }
    ensures place { IfOk result (IsPart (key_at bytes.now) bytes.now) }
    ensures first { IfOk result (StopsAtFirst key_spelling IsKey bytes.now) }
{
    match reading::key_at(alloc, bytes, None) {
        Ok((value, rest)) => Ok(Part::Read {
            value,
            used: bytes.len() - rest.len(),
        }),
        Err(ReadError::Wrong { left }) => Ok(Part::Wrong {
            at: bytes.len() - left,
        }),
        Err(ReadError::NoMemory) => Err(AllocError),
    }
}

/// The ballot at the front.
pub fn take_ballot(bytes: &[u8]) -> Part<Ballot>
    ensures spelled { IsSpelledPart ballot_spelling FitsBallot bytes.now result }
    ensures place { IsPart (ballot_at bytes.now) bytes.now result }
    ensures first { StopsAtFirst ballot_spelling FitsBallot bytes.now result }
{
    match reading::ballot_at(bytes) {
        Ok((value, rest)) => Part::Read {
            value,
            used: bytes.len() - rest.len(),
        },
        Err(ReadError::Wrong { left }) => Part::Wrong {
            at: bytes.len() - left,
        },
        Err(ReadError::NoMemory) => unreachable!(),
    }
}

/// What was accepted, if anything was, at the front.
pub fn take_accepted(alloc: Global, bytes: &[u8]) -> Result<Part<Option<Accepted>>, AllocError>
    ensures spelled { IfOk result (IsSpelledPart (optional_spelling accepted_spelling)
        (λ accepted. IfSome accepted FitsAccepted) bytes.now) }
    ensures place { IfOk result (IsPart (optional_at accepted_at bytes.now) bytes.now) }
    ensures first { IfOk result (StopsAtFirst (optional_spelling accepted_spelling)
        (λ accepted. IfSome accepted FitsAccepted) bytes.now) }
{
    match reading::accepted_or_none_at(alloc, bytes) {
        Ok((value, rest)) => Ok(Part::Read {
            value,
            used: bytes.len() - rest.len(),
        }),
        Err(ReadError::Wrong { left }) => Ok(Part::Wrong {
            at: bytes.len() - left,
        }),
        Err(ReadError::NoMemory) => Err(AllocError),
    }
}
