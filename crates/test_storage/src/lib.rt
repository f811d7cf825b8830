//! Tests of the public calls of the parts that keep bytes: disks, rows of cells, vaults and shelves on a disk. They stand in a crate
//! of their own, so that each part is proved once.
//!
//! Nothing here runs in the program, and no shelf in memory is tested here.
#![tactic(auto)]

#[cfg(test)]
mod bytes;
#[cfg(test)]
mod cells;
#[cfg(test)]
mod disk;
#[cfg(test)]
mod disk_shelf;
#[cfg(test)]
mod old_shelf;
#[cfg(test)]
mod vault;
