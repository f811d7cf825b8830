//! A row of cells on a disk, each of which is blank or holds a payload that is changed as one: a crash at any moment leaves the
//! old payload or the new.
//!
//! What a payload means is decided in `cas_disk_shelf` and `cas_vault`; only the count of cells is read from cell 0.
#![tactic(auto)]

mod cell;
mod cells;
mod change;
mod fault;
mod frame;
mod reading;
mod settled;
mod steps;

pub use cells::Cells;
pub use fault::CellFault;
