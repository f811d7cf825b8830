//! What the marks tell of a call, of a key, and of a key's ballot.

use cas_ballot::{Ballot, Members};
use cas_change::{Outcome, State};

/// What the marks tell of a call.
#[derive(Clone, Copy)]
pub struct Call {
    /// The place of the mark with which it began: how many marks stand before that.
    pub begun: Option<usize>,
    /// How many changes of its key were settled when it began.
    pub seen: usize,
    /// The ballot at which it was proposed.
    pub proposed: Option<Ballot>,
    /// Whether it was answered.
    pub ended: bool,
    /// How many of its frames were harmed.
    pub harms: usize,
}

/// What the marks tell of a key.
#[derive(Clone, Copy)]
pub struct Row {
    /// The greatest ballot that was acknowledged or made a floor, or zero.
    pub top: Ballot,
    /// How many changes are settled.
    pub settled: usize,
    /// The greatest floor.
    pub floor: Option<Ballot>,
}

/// The floor with which a key's history opens.
#[derive(Drop)]
pub struct Opening {
    /// Its ballot.
    pub ballot: Ballot,
    /// The state that it left.
    pub state: State,
}

/// What the marks tell of a key's proposal at a ballot.
#[derive(Drop)]
pub struct Node {
    /// The era in which it was proposed.
    pub era: u32,
    /// The ballot from whose history it goes on, where that history has an entry.
    pub from: Option<Ballot>,
    /// How many entries the history up to it has.
    pub length: usize,
    /// What its call's program makes of the state that it goes on from.
    pub outcome: Outcome,
}

/// What the marks tell of the votes for a key's ballot.
#[derive(Clone, Copy)]
pub struct Spot {
    /// The acceptors that voted.
    pub voters: Members,
    /// Whether it was acknowledged.
    pub acked: bool,
}
