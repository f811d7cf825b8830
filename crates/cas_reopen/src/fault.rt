//! Why a store was not reopened.

ghost use Rattle.std.specs.Prelude.{◌≡◌};
ghost use Rattle.cas_reopen.specs.Faults.{fault_of_member, fault_of_asking, fault_of_opening};

use crate::lengths::FilledFault;
use cas_disk::DiskFault;
use cas_restore::RestoreFault;
use cas_slot::ShelfFault;
use cas_world::OpenFault;
use std::alloc::AllocError;
use thiserror::Error;

/// Why a store was not reopened. Disks of acceptors are numbered from 0 to 63, and those of the vaults of the proposers from 64 to 80.
#[derive(Clone, Copy, Debug, PartialEq, Eq, Error)]
pub enum ReopenFault {
    /// What is on this disk is no shelf of a member, or no vault: the byte at this place is the first that is not as the format demands.
    #[error("disk {disk} is foreign at byte {at}")]
    Foreign { disk: u8, at: u64 },
    /// The members have accepted a state above ballot zero of this many keys, which are more than 4,096. A number above the greatest `u32`
    /// is told as that.
    #[error("{keys} keys are too many")]
    TooManyKeys { keys: u32 },
    /// The disk is empty though others are not, and the store needs it: it is that of a named member or the vault of proposer 0.
    #[error("disk {disk} is lost")]
    LostDisk { disk: u8 },
    /// The age of the vault on this disk is at its end, which is 2^48.
    #[error("the age on disk {disk} is at its end")]
    Spent { disk: u8 },
    /// The disk failed.
    #[error("disk {disk} failed")]
    DiskFault { disk: u8 },
    /// There was no memory.
    #[error("there is no memory")]
    NoMemory,
}

impl From<AllocError> for ReopenFault {
    ghost use Rattle.std.specs.Prelude.{◌≡◌};
    ghost use Rattle.cas_reopen.specs.declared.fault.ReopenFault.TheVariants.{NoMemory};

    ghost from_gives = { λ _ fault. fault ≡ NoMemory };

    fn from(_error: AllocError) -> ReopenFault {
        ReopenFault::NoMemory
    }
}

/// What a fault of a member's shelf is to a store.
pub(crate) fn fault_of(fault: RestoreFault) -> ReopenFault
    ensures { result ≡ fault_of_member fault }
{
    let disk = fault.member;
    match fault.fault {
        ShelfFault::Foreign { at } => ReopenFault::Foreign { disk, at },
        ShelfFault::DiskFault => ReopenFault::DiskFault { disk },
        _ => ReopenFault::NoMemory,
    }
}

/// What it is to a store that a disk gave no length.
pub(crate) fn fault_of_asking(fault: FilledFault) -> ReopenFault
    ensures { result ≡ fault_of_asking fault }
{
    let disk = fault.disk;
    match fault.fault {
        DiskFault::Failed => ReopenFault::DiskFault { disk },
        DiskFault::NoMemory => ReopenFault::NoMemory,
    }
}

/// What it is to a store that a world was not opened.
pub(crate) fn fault_of_opening(fault: OpenFault) -> ReopenFault
    ensures { result ≡ fault_of_opening fault }
{
    match fault {
        OpenFault::DiskFault { disk } => ReopenFault::DiskFault { disk },
        OpenFault::Foreign { disk, at } => ReopenFault::Foreign { disk, at },
        OpenFault::Spent { disk } => ReopenFault::Spent { disk },
        OpenFault::NoMemory => ReopenFault::NoMemory,
    }
}
