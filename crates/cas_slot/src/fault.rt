//! Why a shelf did not do what it was asked.

ghost use Rattle.std.specs.Prelude.{◌≡◌};
ghost use Rattle.cas_slot.specs.declared.fault.ShelfFault.TheVariants.{NoMemory};

use std::alloc::{AllocError, AllocFailed};

/// Why a shelf did not do what it was asked.
#[derive(Clone, Copy, Debug, PartialEq, Eq)]
pub enum ShelfFault {
    /// The shelf's disk failed, and its count of faults rose. The shelf is reopened before it is used.
    DiskFault,
    /// There are [`crate::MOST_SLOTS`] slots, and none of them has the key. Nothing changed.
    Full,
    /// What is there is no shelf of this format. The byte at this place is the first that is not as the format demands.
    Foreign { at: u64 },
    /// No memory was found. Nothing changed.
    NoMemory,
}

impl From<AllocError> for ShelfFault {
    ghost from_gives = { λ _ e. e ≡ NoMemory };

    fn from(_: AllocError) -> Self {
        ShelfFault::NoMemory
    }
}

impl<T: Drop> From<AllocFailed<T>> for ShelfFault {
    ghost from_gives = { λ _ e. e ≡ NoMemory };

    fn from(_: AllocFailed<T>) -> Self {
        ShelfFault::NoMemory
    }
}
