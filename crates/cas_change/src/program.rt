//! Programs of change, as a client sends them: clauses of a guard and an act.

ghost use Rattle.std.specs.Prelude.{◌≡◌, ◌↔◌, length, vec_len, IfOk, IfErr, IsOk, IsTrue};
ghost use Rattle.std.specs.Cmp.{partial_equiv_from_equiv};
ghost use Rattle.std.specs.Cmp.Lexicographic.{pointwise};
ghost use Rattle.cas_change.specs.Outcome.{holds, acted};
ghost use Rattle.cas_change.specs.Program.{IsProgramLength};
ghost use Rattle.cas_change.specs.ProgramCode.{clauses_in};

use crate::state::{Body, State};
use crate::text::Text;
use std::alloc::{AllocError, Global};
use std::marker::Model;

/// How many clauses a program has at most.
pub const MOST_CLAUSES: usize = 8;

/// What a clause asks of a state before it acts.
#[derive(Debug, PartialEq, Eq, Drop)]
pub enum Guard {
    /// Holds of every state.
    Always,
    /// Holds of the empty state.
    IsEmpty,
    /// Holds of a held state of this version.
    VersionIs(u64),
    /// Holds of a held number below this one.
    NumberBelow(i64),
    /// Holds of this text, held.
    TextIs(Text),
}

impl Guard {
    /// Whether the guard holds of the state.
    pub fn holds(&self, state: &State) -> bool
        ensures { result ≡ holds self.now state.now }
    {
        match (self, state) {
            (Guard::Always, _) => true,
            (Guard::IsEmpty, State::Empty) => true,
            (Guard::VersionIs(wanted), State::Held { version, .. }) => version == wanted,
            (
                Guard::NumberBelow(limit),
                State::Held {
                    body: Body::Number(number),
                    ..
                },
            ) => number < limit,
            (
                Guard::TextIs(wanted),
                State::Held {
                    body: Body::Text(text),
                    ..
                },
            ) => text == wanted,
            _ => false,
        }
    }

    /// An equal guard, in memory from the same allocator.
    pub fn copy(&self) -> Result<Guard, AllocError>
        ensures { IfOk result (λ copy. copy ≡ self.now) }
    {
        match self {
            Guard::Always => Ok(Guard::Always),
            Guard::IsEmpty => Ok(Guard::IsEmpty),
            Guard::VersionIs(version) => Ok(Guard::VersionIs(*version)),
            Guard::NumberBelow(limit) => Ok(Guard::NumberBelow(*limit)),
            Guard::TextIs(text) => Ok(Guard::TextIs(text.copy()?)),
        }
    }
}

/// What a clause does to a state whose guard holds.
#[derive(Debug, PartialEq, Eq, Drop)]
pub enum Act {
    /// Leaves the state as it is.
    Keep,
    /// Puts a text: at version 0 on an empty state, and else at the next version.
    PutText(Text),
    /// Puts a number in the same way.
    PutNumber(i64),
    /// Adds to the number held, and puts the number on an empty state.
    Add(i64),
    /// Leaves the empty state.
    Clear,
}

impl Act {
    /// The state that the act leaves. `Ok(None)` where it is unfit: a put or an addition at the greatest version, an
    /// addition to a text, and one whose sum is outside `i64`.
    pub fn act(&self, state: &State) -> Result<Option<State>, AllocError>
        ensures { IfOk result (λ after. after ≡ acted self.now state.now) }
    {
        match self {
            Act::Keep => Ok(Some(state.copy()?)),
            Act::PutText(text) => Ok(state.put(Body::Text(text.copy()?))),
            Act::PutNumber(number) => Ok(state.put(Body::Number(*number))),
            Act::Add(addend) => Ok(state.add(*addend)),
            Act::Clear => Ok(Some(State::Empty)),
        }
    }

    /// An equal act, in memory from the same allocator.
    pub fn copy(&self) -> Result<Act, AllocError>
        ensures { IfOk result (λ copy. copy ≡ self.now) }
    {
        match self {
            Act::Keep => Ok(Act::Keep),
            Act::PutText(text) => Ok(Act::PutText(text.copy()?)),
            Act::PutNumber(number) => Ok(Act::PutNumber(*number)),
            Act::Add(addend) => Ok(Act::Add(*addend)),
            Act::Clear => Ok(Act::Clear),
        }
    }
}

/// One line of a program: the act is done where the guard holds and no clause before it acts.
#[derive(Debug, PartialEq, Eq, Drop)]
pub struct Clause {
    /// When the clause acts.
    pub guard: Guard,
    /// What it does then.
    pub act: Act,
}

impl Clause {
    /// An equal clause, in memory from the same allocator.
    pub fn copy(&self) -> Result<Clause, AllocError>
        ensures { IfOk result (λ copy. copy ≡ self.now) }
    {
        Ok(Clause {
            guard: self.guard.copy()?,
            act: self.act.copy()?,
        })
    }
}

fn copy_clauses(alloc: Global, clauses: &[Clause]) -> Result<Vec<Clause>, AllocError>
    ensures { IfOk result (λ copies. copies.items ≡ clauses.now) }
{
    let mut copies = Vec::with_capacity(alloc, clauses.len())?;
    for clause in clauses {
        copies.push(clause.copy()?)?;
    }
    Ok(copies)
}

/// The clauses of a program. A copy of one that stands alone takes no memory, since most programs have one.
#[derive(Debug, Drop)]
enum Clauses {
    One([Clause; 1]),
    Listed(Vec<Clause>),
}

fn copy_listed(clauses: &Vec<Clause>) -> Result<Clauses, AllocError>
    ensures { IfOk result (λ copy. clauses_in copy ≡ clauses.now.items) }
{
    Ok(match clauses.as_slice() {
        [clause] => Clauses::One([clause.copy()?]),
        all => Clauses::Listed(copy_clauses(*clauses.allocator(), all)?),
    })
}

/// A program of change: 1 to 8 clauses, of which the first whose guard holds acts.
///
/// Contracts see a program as the list of its clauses.
#[derive(Debug, Drop)]
pub struct Program {
    clauses: Clauses,
}

impl Model for Program {
    ghost use Rattle.std.specs.Prelude.{List, length};
    ghost use Rattle.cas_change.specs.declared.program.Clause.{Clause};

    ghost Value = { List Clause };

    ghost use Rattle.cas_change.specs.Program.{IsProgramLength};
    ghost use Rattle.cas_change.specs.ProgramCode.{clauses_in};

    ghost view = { λ program. clauses_in program.clauses };

    ghost invariant = { λ program. IsProgramLength (length (clauses_in program.clauses)) };
}

impl Program {
    /// The program of these clauses. The list comes back, unchanged, exactly where it has none or more than 8.
    pub fn new(clauses: Vec<Clause>) -> Result<Program, Vec<Clause>>
        ensures program { IfOk result (λ program. program ≡ clauses.items) }
        ensures fits { IsOk result ↔ IsProgramLength (vec_len clauses) }
        ensures unchanged { IfErr result (λ back. back ≡ clauses) }
    {
        if clauses.is_empty() || clauses.len() > MOST_CLAUSES {
            Err(clauses)
        } else {
            Ok(Program {
                clauses: Clauses::Listed(clauses),
            })
        }
    }

    /// The clauses, in order.
    pub fn clauses(&self) -> &[Clause]
        ensures clauses { result.now ≡ self.now }
        ensures fits { IsProgramLength (length self.now) }
    {
        match &self.clauses {
            Clauses::One(one) => one,
            Clauses::Listed(clauses) => clauses,
        }
    }

    /// An equal program, in memory from the same allocator. Where it has one clause, that takes none of its own.
    pub fn copy(&self) -> Result<Program, AllocError>
        ensures { IfOk result (λ copy. copy ≡ self.now) }
    {
        let clauses = match &self.clauses {
            Clauses::One([clause]) => Clauses::One([clause.copy()?]),
            Clauses::Listed(clauses) => copy_listed(clauses)?,
        };
        Ok(Program { clauses })
    }
}

impl PartialEq for Program {
    ghost use Rattle.cas_change.specs.Same.{program_equiv};

    ghost eq = { pointwise ⟦<Clause as PartialEq>⟧.eq };

    ghost laws = { partial_equiv_from_equiv program_equiv };

    #[tactic(auto, using(crate::specs::Same::program_decides))]
    fn eq(&self, other: &Program) -> bool
        ensures gives { result ≡ pointwise ⟦<Clause as PartialEq>⟧.eq self.now other.now }
        ensures same { IsTrue result ↔ (self.now ≡ other.now) }
    {
        self.clauses() == other.clauses()
    }
}

impl Eq for Program {
    ghost use Rattle.cas_change.specs.Same.{program_equiv};

    ghost laws = { program_equiv };
}
