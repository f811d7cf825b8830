//! What a program of change does to a state.

ghost use Rattle.std.specs.Prelude.{◌≡◌, ◌≤◌, length, IfOk};
ghost use Rattle.cas_change.specs.Outcome.{first_to_hold, outcome_of, IsOutcome};

use crate::program::{Clause, MOST_CLAUSES, Program};
use crate::state::State;
use std::alloc::AllocError;

/// Which clause of a program acted. Clauses are numbered from 0.
#[derive(Clone, Copy, Debug, PartialEq, Eq)]
pub enum Took {
    /// This clause acted.
    Clause(u8),
    /// No guard held, and the state stayed.
    Nothing,
    /// This clause was to act, and could not; the state stayed.
    Unfit(u8),
}

/// The state that a program leaves, and which clause acted.
#[derive(Debug, PartialEq, Eq, Drop)]
pub struct Outcome {
    /// The state after the program.
    pub state: State,
    /// Which clause acted.
    pub took: Took,
}

impl Outcome {
    /// An equal outcome, in memory from the same allocator.
    pub fn copy(&self) -> Result<Outcome, AllocError>
        ensures { IfOk result (λ copy. copy ≡ self.now) }
    {
        Ok(Outcome {
            state: self.state.copy()?,
            took: self.took,
        })
    }
}

fn first_to_hold(clauses: &[Clause], state: &State) -> Option<usize>
    ensures { result ≡ first_to_hold clauses.now state.now }
{
    clauses.iter().position(|clause| clause.guard.holds(state))
}

fn outcome_of(clauses: &[Clause], state: &State) -> Result<Outcome, AllocError>
    requires { length clauses.now ≤ MOST_CLAUSES }
    ensures { IfOk result (λ outcome. outcome ≡ outcome_of clauses.now state.now) }
{
    let Some(number) = first_to_hold(clauses, state) else {
        return Ok(Outcome {
            state: state.copy()?,
            took: Took::Nothing,
        });
    };
    match clauses[number].act.act(state)? {
        Some(after) => Ok(Outcome {
            state: after,
            took: Took::Clause(number as u8),
        }),
        None => Ok(Outcome {
            state: state.copy()?,
            took: Took::Unfit(number as u8),
        }),
    }
}

/// What the program leaves of the state: the first clause whose guard holds acts.
///
/// The texts of the outcome are in memory from the allocators of those that they copy. Only memory can fail.
pub fn apply(program: &Program, state: &State) -> Result<Outcome, AllocError>
    ensures outcome { IfOk result (λ outcome. outcome ≡ outcome_of program.now state.now) }
    // The same in other words, by who took it.
    ensures by_cases { IfOk result
        (λ outcome. IsOutcome program.now state.now outcome.state outcome.took) }
{
    outcome_of(program.clauses(), state)
}
