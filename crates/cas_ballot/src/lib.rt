//! The names of the protocol's parties and rounds: ballots and their one order, acceptors, proposers, and sets of acceptors.
//!
//! Nothing here allocates, and nothing is refused but a number that is too large for an identity. What quorums are
//! lives in `cas_quorum`.
#![tactic(auto)]

mod ballot;
mod identity;
mod members;

pub use ballot::{Ballot, LAST_COUNTER};
pub use identity::{AcceptorId, ProposerId};
pub use members::Members;
