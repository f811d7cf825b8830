//! What an operator asks for, and what is answered.

ghost use Rattle.std.specs.Prelude.{◌≡◌, IfOk};

use crate::answer::Answer;
use cas_ballot::{AcceptorId, Ballot};
use cas_change::Key;
use cas_quorum::PlanFault;
use cas_slot::Tell;
use std::alloc::AllocError;

/// What an operator asks for.
#[derive(Debug, PartialEq, Eq, Drop)]
pub enum Asked {
    /// That the acceptor joins.
    Join(AcceptorId),
    /// That the acceptor leaves.
    Leave(AcceptorId),
    /// That what is left of the deleted key is collected.
    Collect(Key),
    /// What each acceptor keeps for the key.
    Probe(Key),
    /// That quorums have these sizes from now on.
    Resize { need_prep: u32, need_acc: u32 },
    /// What the members agree on of the key, without a write.
    Read(Key),
}

impl Asked {
    /// The same, in memory of its own.
    pub fn copy(&self) -> Result<Asked, AllocError>
        ensures { IfOk result (λ copy. copy ≡ self.now) }
    {
        match self {
            Asked::Join(id) => Ok(Asked::Join(*id)),
            Asked::Leave(id) => Ok(Asked::Leave(*id)),
            Asked::Collect(key) => Ok(Asked::Collect(key.copy()?)),
            Asked::Probe(key) => Ok(Asked::Probe(key.copy()?)),
            Asked::Resize {
                need_prep,
                need_acc,
            } => Ok(Asked::Resize {
                need_prep: *need_prep,
                need_acc: *need_acc,
            }),
            Asked::Read(key) => Ok(Asked::Read(key.copy()?)),
        }
    }
}

/// What an operator is answered.
#[derive(Debug, PartialEq, Eq, Drop)]
pub enum OpAnswer {
    /// The acceptor joined, and its plan is finished in this era. So many keys were proposed anew for it.
    Joined {
        id: AcceptorId,
        era: u32,
        rescanned: u32,
    },
    /// The acceptor left, and its plan is finished in this era. So many keys were proposed anew for it.
    Left {
        id: AcceptorId,
        era: u32,
        rescanned: u32,
    },
    /// Quorums have these sizes, and their plan is finished in this era. So many keys were proposed anew for it.
    Resized {
        need_prep: u32,
        need_acc: u32,
        era: u32,
        rescanned: u32,
    },
    /// The membership does not admit the plan.
    Refused(PlanFault),
    /// Another plan is open, and proposer 0 is in this era.
    Busy {
        era: u32,
    },
    /// The key was collected at the ballot of its tombstone: so many acceptors removed its slot, and so many kept it for a
    /// later change.
    Collected {
        key: Key,
        ballot: Ballot,
        removed: u32,
        kept: u32,
    },
    /// The key holds a state, of this version, and is not deleted.
    NotEmpty {
        version: u64,
    },
    /// This acceptor, the least such, did not confirm a step that all have to confirm.
    Absent {
        acceptor: AcceptorId,
    },
    /// This proposer is down, and a step of its own is due.
    ProposerDown {
        proposer: u8,
    },
    /// What each member told of the key.
    Probed {
        key: Key,
        found: Probes,
    },
    /// A round, a draw or a listing of proposer 0 was stopped by this.
    Stopped(Answer),
}

/// What one member told when it was probed; nothing where no reply of it arrived.
#[derive(Debug, PartialEq, Eq, Drop)]
pub struct Probe {
    pub acceptor: AcceptorId,
    pub told: Option<Tell>,
}

impl Probe {
    /// The same, in memory of its own.
    pub fn copy(&self) -> Result<Probe, AllocError>
        ensures { IfOk result (λ copy. copy ≡ self.now) }
    {
        let told = match &self.told {
            Some(told) => Some(told.copy()?),
            None => None,
        };
        Ok(Probe {
            acceptor: self.acceptor,
            told,
        })
    }
}

/// What the members told, one probe each, in a list of its own.
#[derive(Debug, PartialEq, Eq, Drop)]
pub struct Probes {
    probes: Vec<Probe>,
}

impl Probes {
    /// These probes, in their order.
    pub fn new(probes: Vec<Probe>) -> Probes
        ensures { result.probes.items ≡ probes.items }
    {
        Probes { probes }
    }

    /// The probes, in order.
    pub fn probes(&self) -> &[Probe]
        ensures { result.now ≡ self.now.probes.items }
    {
        &self.probes
    }

    /// The list of the probes, for its caller to keep.
    pub fn into_list(self) -> Vec<Probe>
        ensures { result.items ≡ self.probes.items }
    {
        self.probes
    }
}
