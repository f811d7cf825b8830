//! Disks: what a disk is to the rest of the store, a disk in memory that can fail and crash on purpose, and a real file.
//!
//! A disk is a row of bytes. Between two syncs a crash may leave any bytes in each range that was written and past the old
//! end; what lies elsewhere stays. Nothing here knows what the bytes mean.
#![tactic(auto)]

mod disk;
mod file;
mod medium;
mod memory;

pub use disk::{Disk, DiskFault};
pub use file::FileDisk;
pub use memory::{Image, MemoryDisk, Trouble};
