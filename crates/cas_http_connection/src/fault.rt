//! Why a connection was broken off.

ghost use Rattle.std.specs.Prelude.{◌≡◌};
ghost use Rattle.cas_http_connection.specs.declared.fault.ConnectionFault.TheVariants.{ReadFault, WriteFault, NoMemory};

use std::alloc::{AllocError, AllocFailed};
use thiserror::Error;

/// Why a connection was broken off.
#[derive(Clone, Copy, Debug, PartialEq, Eq, Error)]
pub enum ConnectionFault {
    /// The source failed.
    #[error("the input could not be read")]
    ReadFault,
    /// The sink failed.
    #[error("the output could not be written")]
    WriteFault,
    /// There was no memory.
    #[error("there is no memory")]
    NoMemory,
    /// The input ended within a request, after so many bytes in all.
    #[error("the input ends within a request, after {at} bytes")]
    Cut { at: u64 },
}

impl From<AllocError> for ConnectionFault {
    ghost from_gives = { λ _ fault. fault ≡ NoMemory };

    fn from(_error: AllocError) -> ConnectionFault {
        ConnectionFault::NoMemory
    }
}

impl<T: Drop> From<AllocFailed<T>> for ConnectionFault {
    ghost from_gives = { λ _ fault. fault ≡ NoMemory };

    fn from(_failed: AllocFailed<T>) -> ConnectionFault {
        ConnectionFault::NoMemory
    }
}
