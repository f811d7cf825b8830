//! The two phases of a round, as its proposer sees them: what the replies that arrived come to.
//!
//! A phase is pure: it is told each reply, and says at any time how it would end. Who sends the requests lives in `cas_world_calls`,
//! and what becomes of the state that was read in `cas_world`.
#![tactic(auto)]

pub mod laws;
mod phase;
mod tally;
mod verdict;

pub use phase::{AcceptRound, PrepareRound};
pub use verdict::RoundVerdict;
