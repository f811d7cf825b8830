//! A store that goes on from what stood on its disks when it stopped.
//!
//! What members still hold is found by `cas_survey`, and `cas_restore` gives it to each of them. The model of what stands after a full
//! stop is `cas_model_stops`.
#![tactic(auto)]

mod fault;
mod floors;
mod laws;
mod lengths;
mod rack;
mod ready;
mod shelves;

pub use fault::ReopenFault;
pub use laws::{
    closed_stores_go_on, reopened_stores_go_on, settled_is_held_between, settled_stands_at_floors,
};
pub use lengths::{FilledFault, filled};
pub use rack::{first_members, open_rack};
pub use shelves::{Restored, restore_shelves};
