//! What one acceptor keeps for one key.

ghost use Rattle.std.specs.Prelude.{◌≡◌, Some, IfOk};
ghost use Rattle.cas_slot.specs.Slot.{seen_of};

use cas_ballot::Ballot;
use cas_change::State;
use std::alloc::AllocError;

/// A state that was accepted, with the ballot and the era of its proposal.
#[derive(Debug, PartialEq, Eq, Drop)]
pub struct Accepted {
    pub ballot: Ballot,
    pub era: u32,
    pub state: State,
}

impl Accepted {
    /// An equal value, whose state is in memory of its own.
    pub fn copy(&self) -> Result<Accepted, AllocError>
        ensures { IfOk result (λ copy. copy ≡ self.now) }
    {
        Ok(Accepted {
            ballot: self.ballot,
            era: self.era,
            state: self.state.copy()?,
        })
    }
}

/// An equal one, if there is any, whose state is in memory of its own.
pub(crate) fn copy_accepted(accepted: &Option<Accepted>) -> Result<Option<Accepted>, AllocError>
    ensures { IfOk result (λ copy. copy ≡ accepted.now) }
{
    match accepted {
        Some(accepted) => Ok(Some(accepted.copy()?)),
        None => Ok(None),
    }
}

/// The promise of one acceptor for a key, and what it accepted there.
#[derive(Debug, PartialEq, Eq, Drop)]
pub struct Slot {
    /// No ballot below this one is taken. Zero where none was promised since the last state was accepted.
    pub promise: Ballot,
    /// The state of the greatest ballot that was accepted.
    pub accepted: Option<Accepted>,
}

impl Slot {
    /// An equal slot, whose state is in memory of its own.
    pub fn copy(&self) -> Result<Slot, AllocError>
        ensures { IfOk result (λ copy. copy ≡ self.now) }
    {
        Ok(Slot {
            promise: self.promise,
            accepted: copy_accepted(&self.accepted)?,
        })
    }

    /// The greater of the promise and the ballot of what was accepted.
    pub fn seen(&self) -> Ballot
        ensures { result ≡ seen_of (Some self.now) }
    {
        match &self.accepted {
            Some(accepted) => self.promise.max(accepted.ballot),
            None => self.promise.max(Ballot::ZERO),
        }
    }
}
