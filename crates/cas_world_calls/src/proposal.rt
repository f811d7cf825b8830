//! What a round proposes, and what it takes with it until it is counted.

ghost use Rattle.std.specs.Prelude.{◌≡◌, IfOk};
ghost use Rattle.cas_world_calls.specs.Proposing.{copies_of};

use cas_change::{Key, Outcome, State};
use cas_record::Mark;
use std::alloc::AllocError;

/// What the end of an accept phase needs, so that counting takes no memory.
#[derive(Drop)]
pub struct Copies {
    /// For the mark of the acknowledgment.
    pub key: Key,
    /// For what the caller is told.
    pub told: State,
    /// For the answer.
    pub answer: State,
    /// For the promise that rides along.
    pub kept: State,
}

impl Copies {
    /// The copies of this key and of this state.
    pub fn of(key: &Key, state: &State) -> Result<Copies, AllocError>
        ensures { IfOk result (λ copies. copies ≡ copies_of key.now state.now) }
    {
        Ok(Copies {
            key: key.copy()?,
            told: state.copy()?,
            answer: state.copy()?,
            kept: state.copy()?,
        })
    }
}

/// A proposal whose frames are sent, and that is not marked yet.
#[derive(Drop)]
pub struct Proposing {
    /// What the change makes of the state that was read.
    pub outcome: Outcome,
    /// What the end of the accept phase needs.
    pub copies: Copies,
    /// The mark of the proposal.
    pub mark: Mark,
}

/// Who proposes: the caller with the number of its call.
#[derive(Clone, Copy)]
pub struct Author {
    /// The caller, from 0 to 16.
    pub caller: u8,
    /// The number of its call.
    pub call: u32,
}
