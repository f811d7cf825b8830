//! What one hold of the turn does to a world: one call on it, with the end of a caller's call where that call told its answer.
//!
//! A hold decides by what it finds in the world, and by the number, the key and the program of the call that goes on. The world is that of
//! `cas_world`, the turn itself is in `cas_turn`, and passes and threads are in `cas_board`.
#![tactic(auto)]

mod changes;
mod collections;
mod membership;
mod orders;

pub use changes::{Begun, Stage, Waiting, begin, first_frame, go_on, let_in, stage_of};
pub use collections::{Course, KeyCollection, go_on_collecting, order_collection};
pub use membership::{
    Listing, MembersStep, Rescan, Rescanning, advance, list_on, order_members, rescan_on, take_up,
};
pub use orders::{Heard, Inquiry, ProbeOrder, Probing, ask_probe, go_on_probing, order_probe};
