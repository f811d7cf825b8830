//! Why a call on cells did not do what it was asked.
ghost use Rattle.std.specs.Prelude.{◌≡◌};
ghost use Rattle.cas_cells.specs.FaultOf.{fault_of};
ghost use Rattle.cas_cells.specs.declared.fault.CellFault.TheVariants.{NoMemory};

use cas_disk as disk;
use std::alloc::{AllocError, AllocFailed};

/// Why a call on cells did not do what it was asked.
#[derive(Clone, Copy, Debug, PartialEq, Eq)]
pub enum CellFault {
    /// The disk failed, and its count of faults rose. The cells are recovered before they are used.
    DiskFault,
    /// The disk has no cells of this format. The byte at this place is the first that is not as the format demands.
    Foreign { at: u64 },
    /// No memory was found.
    NoMemory,
}

impl From<disk::DiskFault> for CellFault {
    ghost from_gives = { λ fault e. e ≡ fault_of fault };

    fn from(fault: disk::DiskFault) -> Self {
        match fault {
            disk::DiskFault::Failed => CellFault::DiskFault,
            disk::DiskFault::NoMemory => CellFault::NoMemory,
        }
    }
}

impl From<AllocError> for CellFault {
    ghost from_gives = { λ _ e. e ≡ NoMemory };

    fn from(_: AllocError) -> Self {
        CellFault::NoMemory
    }
}

impl<T: Drop> From<AllocFailed<T>> for CellFault {
    ghost from_gives = { λ _ e. e ≡ NoMemory };

    fn from(_: AllocFailed<T>) -> Self {
        CellFault::NoMemory
    }
}
