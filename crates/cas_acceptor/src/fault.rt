//! Why an acceptor did not answer.

ghost use Rattle.std.specs.Prelude.{◌≡◌};
ghost use Rattle.cas_acceptor.specs.declared.fault.HandleFault.TheVariants.{NoMemory};

use std::alloc::AllocError;

/// Why an acceptor did not answer.
#[derive(Clone, Copy, Debug, PartialEq, Eq)]
pub enum HandleFault {
    /// The acceptor is down: it was before, or its shelf failed in this call.
    Down,
    /// No memory was found. Nothing changed.
    NoMemory,
}

impl From<AllocError> for HandleFault {
    ghost from_gives = { λ _ e. e ≡ NoMemory };

    fn from(_: AllocError) -> Self {
        HandleFault::NoMemory
    }
}
