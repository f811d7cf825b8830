//! The commands that lines ask for: changes of registers, what an operator asks for, and events of a script.
//!
//! What a change does is said by its program. How lines are read as commands stands in [`crate::reading`].

ghost use Rattle.std.specs.Prelude.{◌≡◌, ◌↔◌, Some, None, IsSome, IfOk, IfSome, IfNone};
ghost use Rattle.cas_lines.specs.Command.{change_of, one};

pub use crate::reading::{LONGEST_LINE, read_command};
use cas_ballot::AcceptorId;
use cas_change::{Act, Clause, Guard, Key, Program, Text};
use cas_fate::{Leg, Verdict};
use std::alloc::{AllocError, Global};

/// What a line asks for: a change of the key's register for this caller, what an operator asks for, or an event.
///
/// Callers are numbered from 1. Proposers are numbered from 0, which is the operator's own.
#[derive(Debug, Drop)]
pub enum Command {
    /// `get`: leaves the register as it is.
    Get {
        caller: u8,
        key: Key,
    },
    /// `set`: puts a text.
    Set {
        caller: u8,
        key: Key,
        text: Text,
    },
    /// `num`: puts a number.
    Num {
        caller: u8,
        key: Key,
        number: i64,
    },
    /// `init`: puts a number where the register is empty.
    Init {
        caller: u8,
        key: Key,
        number: i64,
    },
    /// `add`: adds to the number, and puts it where the register is empty.
    Add {
        caller: u8,
        key: Key,
        number: i64,
    },
    /// `cas`: puts a text where the register has this version.
    Cas {
        caller: u8,
        key: Key,
        version: u64,
        text: Text,
    },
    /// `casnum`: puts a number where the register has this version.
    CasNum {
        caller: u8,
        key: Key,
        version: u64,
        number: i64,
    },
    /// `del`: clears the register.
    Del {
        caller: u8,
        key: Key,
    },
    /// `delv`: clears the register where it has this version.
    DelVersion {
        caller: u8,
        key: Key,
        version: u64,
    },
    /// `do`: runs the program.
    Do {
        caller: u8,
        key: Key,
        program: Program,
    },
    /// `op join`: the acceptor becomes a member.
    Join {
        id: AcceptorId,
    },
    /// `op leave`: the acceptor is a member no longer.
    Leave {
        id: AcceptorId,
    },
    /// `op resize`: quorums get these sizes, each from 1 to 9.
    Resize {
        need_prep: u32,
        need_acc: u32,
    },
    /// `op collect`: removes what is kept for a key whose register is empty.
    Collect {
        key: Key,
    },
    /// `op probe`: tells what each member keeps for a key.
    Probe {
        key: Key,
    },
    /// `op read`: tells what members agree on of a key, without a write.
    Read {
        key: Key,
    },
    /// `net`: from now on this becomes of the frames of a leg at whose other end an acceptor is. `None` stands for all
    /// legs, and for all acceptors. The verdict is never [`Verdict::Hold`].
    Net {
        leg: Option<Leg>,
        who: Option<AcceptorId>,
        verdict: Verdict,
    },
    /// `crash acceptor`: the acceptor goes down.
    CrashAcceptor {
        id: AcceptorId,
    },
    /// `restart acceptor`: the acceptor comes up again.
    RestartAcceptor {
        id: AcceptorId,
    },
    /// `crash proposer`: the proposer goes down.
    CrashProposer {
        proposer: u8,
    },
    /// `restart proposer`: the proposer comes up again.
    RestartProposer {
        proposer: u8,
    },
    /// `halt` with `after-prepare`: the proposer's next round crashes it once a quorum has promised, before it proposes.
    HaltPrepared {
        proposer: u8,
    },
    /// `halt` with `after-propose`: the proposer's next round crashes it right after it has proposed.
    HaltProposed {
        proposer: u8,
    },
    /// `stray`: lets in the late frame of this place, where the oldest has place 0.
    Stray {
        index: u64,
    },
    /// `show`: tells what an acceptor keeps for a key.
    Show {
        id: AcceptorId,
        key: Key,
    },
}

/// A change that a line asks for.
#[derive(Debug, Drop)]
pub struct Change<'a> {
    /// Whose change it is, from 1 to the number of proposers.
    pub caller: u8,
    /// The key of the register.
    pub key: &'a Key,
    /// What becomes of the register.
    pub program: Program,
}

impl Command {
    /// The change that the line asks for. `None` exactly where it is an event or an operator's. Only memory can fail.
    pub fn change(&self, alloc: Global) -> Result<Option<Change<'_>>, AllocError>
        ensures asked { IfOk result (λ change. IfSome change (λ change. change_of self.now ≡ Some
            (record { caller = change.caller; key = change.key.now; program = change.program }))) }
        ensures event { IfOk result (λ change. IfNone change (change_of self.now ≡ None)) }
    {
        let Some((caller, key)) = self.asker() else {
            return Ok(None);
        };
        let program = self.program(alloc)?;
        Ok(Some(Change {
            caller,
            key,
            program,
        }))
    }

    /// Who asks for a change, and of which register. `None` exactly where the line is an event or an operator's.
    fn asker(&self) -> Option<(u8, &Key)>
        ensures asked { IfSome result (λ asker. IfSome (change_of self.now)
            (λ asked. (asked.caller ≡ asker.0) × (asked.key ≡ asker.1.now))) }
        ensures change { IsSome result ↔ IsSome (change_of self.now) }
    {
        match self {
            Command::Get { caller, key }
            | Command::Set { caller, key, .. }
            | Command::Num { caller, key, .. }
            | Command::Init { caller, key, .. }
            | Command::Add { caller, key, .. }
            | Command::Cas { caller, key, .. }
            | Command::CasNum { caller, key, .. }
            | Command::Del { caller, key }
            | Command::DelVersion { caller, key, .. }
            | Command::Do { caller, key, .. } => Some((*caller, key)),
            _ => None,
        }
    }

    /// The program of the change that the line asks for.
    fn program(&self, alloc: Global) -> Result<Program, AllocError>
        requires { IsSome (change_of self.now) }
        ensures { IfOk result
            (λ program. IfSome (change_of self.now) (λ asked. asked.program ≡ program)) }
    {
        let (guard, act) = match self {
            Command::Get { .. } => (Guard::Always, Act::Keep),
            Command::Set { text, .. } => (Guard::Always, Act::PutText(text.copy()?)),
            Command::Num { number, .. } => (Guard::Always, Act::PutNumber(*number)),
            Command::Init { number, .. } => (Guard::IsEmpty, Act::PutNumber(*number)),
            Command::Add { number, .. } => (Guard::Always, Act::Add(*number)),
            Command::Cas { version, text, .. } => {
                (Guard::VersionIs(*version), Act::PutText(text.copy()?))
            }
            Command::CasNum {
                version,
                number,
                ..
            } => (Guard::VersionIs(*version), Act::PutNumber(*number)),
            Command::Del { .. } => (Guard::Always, Act::Clear),
            Command::DelVersion { version, .. } => (Guard::VersionIs(*version), Act::Clear),
            Command::Do { program, .. } => return program.copy(),
            _ => unreachable!(),
        };
        one_clause(alloc, guard, act)
    }
}

/// A program of one clause.
fn one_clause(alloc: Global, guard: Guard, act: Act) -> Result<Program, AllocError>
    ensures { IfOk result (λ program. program ≡ one guard act) }
{
    let mut clauses = Vec::with_capacity(alloc, 1)?;
    clauses.push(Clause { guard, act })?;
    match Program::new(clauses) {
        Ok(program) => Ok(program),
        Err(_) => unreachable!(),
    }
}
