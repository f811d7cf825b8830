//! The disks of a cluster, and the world that is opened over them.
//!
//! What a disk is is said in `cas_disk`, what stands on it in `cas_disk_shelf` and `cas_vault`, and what a world does in `cas_world`.
#![tactic(auto)]

mod rack;
mod store;

pub use rack::{ACCEPTORS, Rack, RackFault, VAULTS};
pub use store::{Room, Store, put_on_shelves, take_off_shelves};
