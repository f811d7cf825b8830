//! What is read of a history at the places that are kept of it.

ghost use Rattle.std.specs.Prelude.{◌≡◌, List, ◌∷◌, reverse, if◌then◌else◌, IfOk};
ghost use Rattle.cas_ballot.specs.Ballot.{greater_of};
ghost use Rattle.cas_record.specs.declared.mark.Mark.{Mark};
ghost use Rattle.cas_record.specs.declared.mark.Mark.TheVariants.{Proposed};
ghost use Rattle.cas_record.specs.declared.mark.Proposal.{Proposal};
ghost use Rattle.cas_record.specs.Places.{At};
ghost use Rattle.cas_record.specs.Histories.Chain.{is_ballot, floor_below, keep_always, entry_of};
ghost use Rattle.cas_record.specs.Kept.Index.{link_by, program_at, state_at};
ghost use Rattle.cas_record.specs.Histories.Replay.{replay_from};
ghost use Rattle.cas_record.specs.Kept.Tables.{IsLinkIn};

use crate::entry::Entry;
use crate::mark::Mark;
use crate::row::Link;
use cas_ballot::Ballot;
use cas_change::{Act, Clause, Guard, Key, Program, State, apply};
use std::alloc::{AllocError, Global};

/// Whether two ballots are one.
pub(crate) fn is_ballot(a: Ballot, b: Ballot) -> bool
    ensures { result ≡ is_ballot a b }
{
    a.cmp(&b).is_eq()
}

fn later_if(taken: bool, ballot: Ballot, so_far: Ballot) -> Ballot
    ensures { result ≡ (if taken then greater_of ballot so_far else so_far) }
{
    if taken && !ballot.cmp(&so_far).is_lt() {
        ballot
    } else {
        so_far
    }
}

fn floor_after(floor: Ballot, key: &Key, ballot: Ballot, mark: &Mark) -> Ballot
    ensures { (older : List Mark) → floor ≡ floor_below key.now ballot older
        → result ≡ floor_below key.now ballot (mark.now ∷ older) }
{
    match mark {
        Mark::Floor {
            key: other,
            ballot: made,
            ..
        } => later_if(other == key && made.cmp(&ballot).is_lt(), *made, floor),
        _ => floor,
    }
}

/// The greatest floor of the key below the ballot, or zero.
pub(crate) fn floor_below(marks: &[Mark], key: &Key, ballot: Ballot) -> Ballot
    ensures { result ≡ floor_below key.now ballot (reverse marks.now) }
{
    let mut floor = Ballot::ZERO;
    for mark in marks {
        floor = floor_after(floor, key, ballot, mark);
    }
    floor
}

/// The program that leaves each state as it is.
pub fn keep_always(alloc: Global) -> Result<Program, AllocError>
    ensures { IfOk result (λ program. program ≡ keep_always) }
{
    let mut clauses = Vec::new(alloc);
    clauses.push(Clause {
        guard: Guard::Always,
        act: Act::Keep,
    })?;
    Program::new(clauses).map_err(|_clauses| AllocError)
}

fn program_at(alloc: Global, marks: &[Mark], begun: Option<usize>) -> Result<Program, AllocError>
    ensures { IfOk result (λ program. program ≡ program_at marks.now begun) }
{
    let Some(place) = begun else {
        return keep_always(alloc);
    };
    match marks.get(place) {
        Some(Mark::Begun { program, .. }) => program.copy(),
        _ => keep_always(alloc),
    }
}

/// The entry of the proposal to which the link belongs.
pub(crate) fn entry_at(alloc: Global, marks: &[Mark], link: Link) -> Result<Entry, AllocError>
    requires { IsLinkIn marks.now link }
    ensures { IfOk result (λ entry. (p : Proposal) (older : List Mark) → At (Proposed p) older
        (reverse marks.now) → link ≡ link_by p older → entry ≡ entry_of older p) }
{
    match &marks[link.place] {
        Mark::Proposed(proposal) => Ok(Entry {
            caller: proposal.caller,
            call: proposal.call,
            program: program_at(alloc, marks, link.begun)?,
        }),
        _ => unreachable!(),
    }
}

/// The state of the floor at the place, or the empty state.
pub(crate) fn state_at(marks: &[Mark], opening: Option<usize>) -> Result<State, AllocError>
    ensures { IfOk result (λ state. state ≡ state_at marks.now opening) }
{
    let Some(place) = opening else {
        return Ok(State::Empty);
    };
    match marks.get(place) {
        Some(Mark::Floor { state, .. }) => state.copy(),
        _ => Ok(State::Empty),
    }
}

/// The state after the programs of the entries have acted in turn on this one.
pub(crate) fn replay(start: &State, entries: &[Entry]) -> Result<State, AllocError>
    ensures { IfOk result (λ state. state ≡ replay_from start.now entries.now) }
{
    let mut state = start.copy()?;
    for entry in entries {
        state = apply(&entry.program, &state)?.state;
    }
    Ok(state)
}
