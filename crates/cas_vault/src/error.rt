//! Why a vault did not do what it was asked.
ghost use Rattle.std.specs.Prelude.{◌≡◌};
ghost use Rattle.cas_vault.specs.ErrorOf.{error_of};

use cas_cells::CellFault;

/// Why a vault did not do what it was asked.
#[derive(Clone, Copy, Debug, PartialEq, Eq)]
pub enum VaultError {
    /// The disk failed, and its count of faults rose. The vault is reopened before it is used.
    VaultFault,
    /// The counter, or the age, is at its end, which is 2^48. Nothing changed.
    Spent,
    /// The disk is no vault of this format. The byte at this place is the first that is not as the format demands.
    Foreign { at: u64 },
    /// No memory was found.
    NoMemory,
}

impl From<CellFault> for VaultError {
    ghost from_gives = { λ fault e. e ≡ error_of fault };

    fn from(fault: CellFault) -> Self {
        match fault {
            CellFault::DiskFault => VaultError::VaultFault,
            CellFault::Foreign { at } => VaultError::Foreign { at },
            CellFault::NoMemory => VaultError::NoMemory,
        }
    }
}
