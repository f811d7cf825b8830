//! Why a world was not opened, and why a late frame was not let in.

use thiserror::Error;

/// Why a world was not opened.
#[derive(Clone, Copy, Debug, PartialEq, Eq, Error)]
pub enum OpenFault {
    /// This disk failed: 0 to 63 for those of the acceptors, 64 to 80 for those of the proposers.
    #[error("disk {disk} failed")]
    DiskFault { disk: u8 },
    /// The disk of a proposer, likewise numbered, is not empty and no vault of this format: the byte at this place is the first that is
    /// not as the format demands.
    #[error("disk {disk} is foreign at byte {at}")]
    Foreign { disk: u8, at: u64 },
    /// The age of the vault on this disk is at its end, which is 2^48.
    #[error("the age on disk {disk} is at its end")]
    Spent { disk: u8 },
    /// There was no memory.
    #[error("there is no memory")]
    NoMemory,
}

/// Why a late frame was not let in. It waits as before.
#[derive(Clone, Copy, Debug, PartialEq, Eq, Error)]
pub enum StrayFault {
    /// The marks that are made and those that are reserved are as many as a record holds.
    #[error("the record is full")]
    RecordFull,
    /// There was no memory.
    #[error("there is no memory")]
    NoMemory,
}
