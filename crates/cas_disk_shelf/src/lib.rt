//! A shelf on a disk: an acceptor's slots and least ages, each slot in a cell of its own, so that a change of one writes one cell
//! and a crash at any moment leaves what was there before the change or what is there after it.
//!
//! What a slot is for is decided in `cas_slot` and `cas_acceptor`, and how a cell outlives a crash in `cas_cells`.
#![tactic(auto)]

mod codec;
mod held;
mod memory;
mod moving;
mod shelf;
mod steps;

pub use shelf::DiskShelf;
