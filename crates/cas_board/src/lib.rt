//! Callers in threads of their own over one store.
//!
//! A [`Board`] has the store under a turn, and gives each caller a pass. A call takes the turn once for each call on the store that it
//! makes. What becomes of a frame the caller's fate is asked while nobody of the call holds the turn, so the calls of all callers
//! interleave frame by frame. A pass knows the front of the record that its caller has seen.
//!
//! What a store does is in `cas_world`, what a hold makes of it in `cas_board_steps`, and the turn in `cas_turn`. No clause says that a caller gets
//! its turn, nor in which order callers do.
#![tactic(auto)]

mod board;
mod change;
mod collecting;
mod fates;
mod membership;
mod phases;
mod probing;
mod shared;

pub use board::{Board, Closed, Pass};
pub use probing::Look;
pub use shared::Shared;
