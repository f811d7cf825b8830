//! The answers to calls of clients.

ghost use Rattle.std.specs.Prelude.{◌≡◌};
ghost use Rattle.cas_record.specs.Answers.{is_conflict, is_refusal};
ghost use Rattle.cas_record.specs.Legal.{tells_unsettled};

use cas_ballot::{AcceptorId, Ballot};
use cas_change::{State, Took};

/// What a call that asks for a change is answered.
///
/// The change of a call that was answered anything but [`Answer::Done`], [`Answer::Unsettled`] or
/// [`Answer::NoMemory`] was never proposed, and never stands.
#[derive(Debug, PartialEq, Eq, Drop)]
pub enum Answer {
    /// The change stands: an accept quorum took its proposal at this ballot. The state is the one that it left, and
    /// `took` tells which clause acted.
    Done {
        state: State,
        took: Took,
        ballot: Ballot,
    },
    /// No quorum promised the ballot, and an acceptor had seen a greater one: `met` is the greatest that was told.
    Conflict {
        met: Ballot,
    },
    /// No quorum promised the ballot, and an acceptor found the proposer's age too low: `least` is the greatest age
    /// that was told. It also comes where the proposer was given a new age, `least`, before it proposed.
    Aged {
        least: u64,
    },
    /// No quorum promised the ballot, and this acceptor, the least such, had no room for another slot.
    Full {
        acceptor: AcceptorId,
    },
    /// So few acceptors confirmed, fewer than were needed, and none of the others told why not.
    Short {
        got: u32,
        need: u32,
    },
    /// The proposer entered this era before it proposed.
    Moved {
        era: u32,
    },
    /// The proposer crashed before it proposed.
    Crashed,
    /// The change was proposed and no quorum is known to have taken it, by this cause. It may yet stand, once.
    Unsettled {
        why: Cause,
    },
    /// The proposer had crashed, or its vault had failed, before the call, and it was not restarted since.
    Down,
    /// The proposer's vault failed in this call.
    VaultFault,
    /// The proposer has drawn its greatest ballot.
    Spent,
    /// The record has no room for the marks of another round. Nothing was begun.
    RecordFull,
    /// No memory was found. Where `proposed` is false the change was never proposed. Where it is true it was, and may
    /// yet stand, once.
    NoMemory {
        proposed: bool,
    },
}

impl Answer {
    /// Whether the last round met a greater ballot.
    pub fn is_conflict(&self) -> bool
        ensures { result ≡ is_conflict self.now }
    {
        matches!(self, Answer::Conflict { .. })
    }

    /// Whether a new call that is answered so was not begun.
    pub fn is_refusal(&self) -> bool
        ensures { result ≡ is_refusal self.now }
    {
        matches!(self, Answer::RecordFull | Answer::NoMemory { .. })
    }

    /// Whether the change of a call that is answered so was proposed, and may yet stand.
    pub fn tells_unsettled(&self) -> bool
        ensures { result ≡ tells_unsettled self.now }
    {
        match self {
            Answer::Unsettled { .. } => true,
            Answer::NoMemory { proposed } => *proposed,
            _ => false,
        }
    }
}

/// Why a change that was proposed is not known to stand.
#[derive(Debug, PartialEq, Eq, Drop)]
pub enum Cause {
    /// An acceptor had seen a greater ballot: the greatest that was told.
    Met(Ballot),
    /// An acceptor found the proposer's age too low, or the proposer was given a new age: the greatest that was told.
    Aged(u64),
    /// This acceptor, the least such, had no room for another slot.
    Full(AcceptorId),
    /// So few acceptors confirmed, fewer than were needed, and none of the others told why not.
    Short { got: u32, need: u32 },
    /// The proposer entered this era.
    Moved(u32),
    /// The proposer crashed.
    Crashed,
}
