//! The messages between a proposer and an acceptor, as values.

ghost use Rattle.std.specs.Prelude.{◌≡◌, IfOk};
ghost use Rattle.cas_slot.specs.Message.{phase_of, tag_of};

use crate::ages::Ages;
use crate::page::Page;
use crate::slot::{Accepted, copy_accepted};
use cas_ballot::{AcceptorId, Ballot};
use cas_change::{Key, State};
use std::alloc::AllocError;

/// What a proposer asks of one acceptor.
#[derive(Debug, PartialEq, Eq, Drop)]
pub struct Request {
    /// The acceptor that is asked.
    pub to: AcceptorId,
    /// The number of the proposer that asks.
    pub from: u8,
    /// The proposer's age. An acceptor refuses one below the least that it still answers.
    pub age: u64,
    pub ask: Ask,
}

/// The question of a request.
#[derive(Debug, PartialEq, Eq, Drop)]
pub enum Ask {
    /// To promise the ballot for the key, and to tell what was accepted there.
    Prepare {
        key: Key,
        ballot: Ballot,
    },
    /// To accept the state for the key at the ballot, in that era, and to promise `ride` by the same act.
    Accept {
        key: Key,
        ballot: Ballot,
        era: u32,
        ride: Option<Ballot>,
        state: State,
    },
    /// To raise the least ages to these, where they are greater.
    Ages {
        tag: Ballot,
        least: Ages,
    },
    /// To remove the key's slot, where it holds the tombstone of that ballot and has promised nothing greater.
    Remove {
        key: Key,
        tomb: Ballot,
    },
    /// To tell the next keys above this one, or the first ones.
    List {
        tag: Ballot,
        after: Option<Key>,
    },
    /// To tell what is kept for the key.
    Probe {
        tag: Ballot,
        key: Key,
    },
}

impl Ask {
    /// The kind of the question.
    pub fn phase(&self) -> Phase
        ensures { result ≡ phase_of self.now }
    {
        match self {
            Ask::Prepare { .. } => Phase::Prepare,
            Ask::Accept { .. } => Phase::Accept,
            Ask::Ages { .. } => Phase::Ages,
            Ask::Remove { .. } => Phase::Remove,
            Ask::List { .. } => Phase::List,
            Ask::Probe { .. } => Phase::Probe,
        }
    }

    /// The ballot of the question, which tags its reply: that of its round, of its tombstone, or the tag that it was given.
    pub fn tag(&self) -> Ballot
        ensures { result ≡ tag_of self.now }
    {
        match self {
            Ask::Prepare { ballot, .. } | Ask::Accept { ballot, .. } => *ballot,
            Ask::Ages { tag, .. } | Ask::List { tag, .. } | Ask::Probe { tag, .. } => *tag,
            Ask::Remove { tomb, .. } => *tomb,
        }
    }
}

/// The kind of a request, which a reply bears.
#[derive(Clone, Copy, Debug, PartialEq, Eq)]
pub enum Phase {
    Prepare,
    Accept,
    Ages,
    Remove,
    List,
    Probe,
}

/// What an acceptor answers.
#[derive(Debug, PartialEq, Eq, Drop)]
pub struct Reply {
    /// The acceptor that answers.
    pub from: AcceptorId,
    /// The number of the proposer that asked.
    pub to: u8,
    /// The kind of the request.
    pub phase: Phase,
    /// The ballot of the request.
    pub tag: Ballot,
    pub tell: Tell,
}

/// The answer in a reply.
#[derive(Debug, PartialEq, Eq, Drop)]
pub enum Tell {
    /// The ballot is promised, and this was accepted before.
    Promised {
        accepted: Option<Accepted>,
    },
    /// The state is accepted.
    Accepted,
    /// This greater ballot was seen, and nothing was done.
    Met(Ballot),
    /// The age is below this one, the least that is still answered, and nothing was done.
    Aged(u64),
    /// There is no room for a slot of one more key, and nothing was done.
    Full,
    /// The least ages are no lower than those that were asked for.
    AgesSet,
    /// The key has no slot.
    Removed,
    /// The key's slot holds something else than the tombstone, or has promised a greater ballot, and stays.
    Kept,
    /// The next keys above `after`, in the order of their bytes, and whether more follow.
    Listed {
        after: Option<Key>,
        keys: Page,
        more: bool,
    },
    /// What is kept for the key; zero and nothing where it has no slot.
    Probed {
        promise: Ballot,
        accepted: Option<Accepted>,
    },
}

impl Tell {
    /// An equal one, in memory of its own.
    pub fn copy(&self) -> Result<Tell, AllocError>
        ensures { IfOk result (λ copy. copy ≡ self.now) }
    {
        match self {
            Tell::Promised { accepted } => Ok(Tell::Promised {
                accepted: copy_accepted(accepted)?,
            }),
            Tell::Accepted => Ok(Tell::Accepted),
            Tell::Met(ballot) => Ok(Tell::Met(*ballot)),
            Tell::Aged(least) => Ok(Tell::Aged(*least)),
            Tell::Full => Ok(Tell::Full),
            Tell::AgesSet => Ok(Tell::AgesSet),
            Tell::Removed => Ok(Tell::Removed),
            Tell::Kept => Ok(Tell::Kept),
            Tell::Listed { after, keys, more } => Ok(Tell::Listed {
                after: copy_key(after)?,
                keys: keys.copy()?,
                more: *more,
            }),
            Tell::Probed { promise, accepted } => Ok(Tell::Probed {
                promise: *promise,
                accepted: copy_accepted(accepted)?,
            }),
        }
    }
}

/// An equal key, if there is any, in memory of its own.
fn copy_key(key: &Option<Key>) -> Result<Option<Key>, AllocError>
    ensures { IfOk result (λ copy. copy ≡ key.now) }
{
    match key {
        Some(key) => Ok(Some(key.copy()?)),
        None => Ok(None),
    }
}
