//! The marks, each of which tells one thing that happened.

use crate::answer::Answer;
use crate::operator::{Asked, OpAnswer};
use cas_ballot::{AcceptorId, Ballot, Members};
use cas_change::{Key, Program, State};

/// One thing that happened in the store.
#[derive(Debug, PartialEq, Eq, Drop)]
pub enum Mark {
    /// A caller began a call. The calls of a caller are numbered from 1.
    Begun {
        caller: u8,
        call: u32,
        key: Key,
        program: Program,
    },
    /// A proposer proposed a state.
    Proposed(Proposal),
    /// An acceptor answered that it accepted the key's proposal at this ballot, be it for the first time or again.
    Voted {
        acceptor: AcceptorId,
        key: Key,
        ballot: Ballot,
    },
    /// A proposer counted an accept quorum.
    Acked(Acknowledgment),
    /// The proposals of the key up to this ballot were collected, and left this state: the slots that held them may be
    /// removed. One that is made before any call begins tells where the key's history starts.
    Floor {
        key: Key,
        ballot: Ballot,
        state: State,
    },
    /// A proposer entered the era of that number.
    EraEntered {
        proposer: u8,
        number: u32,
    },
    /// A call was answered after that many rounds.
    Ended {
        caller: u8,
        call: u32,
        rounds: u32,
        answer: Answer,
    },
    /// A frame of the call was lost or made late or, where `down` is true, found its acceptor down or brought it down.
    Harmed {
        caller: u8,
        call: u32,
        down: bool,
    },
    /// An operator was answered. Answers to probes have no mark.
    Told {
        asked: Asked,
        answer: OpAnswer,
    },
}

/// What is told of a proposal.
#[derive(Debug, PartialEq, Eq, Drop)]
pub struct Proposal {
    pub caller: u8,
    pub call: u32,
    pub key: Key,
    /// The ballot of the proposal.
    pub ballot: Ballot,
    /// The ballot at which the state was accepted that the proposal changes; zero where none was.
    pub read: Ballot,
    /// The era in which it was proposed.
    pub era: u32,
    /// The acceptors that promised the ballot.
    pub prepared_by: Members,
}

/// What is told of an accept quorum.
#[derive(Debug, PartialEq, Eq, Drop)]
pub struct Acknowledgment {
    pub key: Key,
    pub ballot: Ballot,
    pub era: u32,
    /// The acceptors that confirmed the proposal.
    pub by: Members,
}
