//! A race: the lines of an input, of which each caller runs its own in a thread of its own over one board.
//!
//! What a call does is in `cas_board`, and what the lines ask for and how histories are written in `casreg_tasks`. Here stand the threads, and what
//! is written once all have ended. No clause says that two threads run at once, nor in which order callers get their turns.
#![tactic(auto)]

mod race;
mod racers;
mod told;

pub use race::{RaceFault, race_on};
pub use told::Told;
