//! A promise that rode on an accept.

use cas_ballot::{Ballot, Members};
use cas_change::State;

/// A promise that rode on an accept: the prepare of a proposer's next round for the key was piggybacked on the accept of this
/// one, so that round takes one round trip in place of two (Rystsov 2018, section 2.2.1). A round at this ballot begins in the
/// accept phase, with this state.
#[derive(Debug, PartialEq, Eq, Drop)]
pub struct Ready {
    /// The ballot that was promised.
    pub ballot: Ballot,
    /// The state that was accepted with the promise.
    pub state: State,
    /// The ballot at which it was accepted.
    pub read: Ballot,
    /// The acceptors that confirmed it.
    pub by: Members,
}
