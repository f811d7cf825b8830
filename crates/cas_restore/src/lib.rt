//! Shelves that are brought to given slots, as a store that is reopened gives each member the same.
//!
//! Which slots these are is found out elsewhere, and no acceptor lives here.
#![tactic(auto)]

mod members;
mod shelf;
mod taking_up;

pub use members::{RestoreFault, restore_members};
pub use shelf::restore;
pub use taking_up::take_up_members;
