//! Programs, and what they leave of a state.

use crate::value::{Does, Holds, When, program_of};
use cas_change::{Act, Clause, Guard, MOST_CLAUSES, Outcome, Program, State, Took, apply};
use std::alloc::{AllocError, Global};
use std::process::Abort;
use std::test::Fail;

// A guard, a state, and whether the guard holds of it.
const GUARDS: [(When, Holds, bool); 17] = [
    (When::Always, Holds::Nothing, true),
    (When::Always, Holds::Number(0, 1), true),
    (When::IsEmpty, Holds::Nothing, true),
    (When::IsEmpty, Holds::Number(0, 0), false),
    (When::VersionIs(0), Holds::Nothing, false),
    (When::VersionIs(3), Holds::Number(3, 1), true),
    (When::VersionIs(3), Holds::Number(4, 3), false),
    (When::VersionIs(3), Holds::Text(3, b"x"), true),
    (When::NumberBelow(12), Holds::Nothing, false),
    (When::NumberBelow(12), Holds::Number(20, 11), true),
    (When::NumberBelow(12), Holds::Number(0, 12), false),
    (When::NumberBelow(12), Holds::Number(0, -13), true),
    (When::NumberBelow(12), Holds::Text(0, b"11"), false),
    (When::TextIs(b"x"), Holds::Nothing, false),
    (When::TextIs(b"x"), Holds::Text(7, b"x"), true),
    (When::TextIs(b"x"), Holds::Text(7, b"xy"), false),
    (When::TextIs(b"7"), Holds::Number(7, 7), false),
];

#[test]
fn guards_hold_as_their_table_says(rt: HostRuntime) -> Result<(), Fail> {
    for (when, before, holds) in GUARDS {
        let guard = when.guard(rt.alloc())?;
        let state = before.state(rt.alloc())?;
        let found = guard.holds(&state);
        assert_eq!(rt; found, holds, "{when:?} on {before:?}");
    }
    Ok(())
}

/// Whether the program leaves this of the state, by that clause, and its outcome can be copied.
fn leaves(program: &Program, before: &State, after: State, took: Took) -> Result<bool, AllocError> {
    let want = Outcome { state: after, took };
    let found = apply(program, before)?;
    Ok(found == want && found.copy()? == want)
}

/// An act, a state, and what a program of this one clause leaves of it.
type Row = (Does, Holds, Holds);

fn check(rt: &impl Abort, alloc: Global, rows: &[Row], took: Took) -> Result<(), Fail> {
    for (does, before, after) in rows {
        let program = program_of(alloc, &[(When::Always, *does)])?;
        let state = before.state(alloc)?;
        let left = leaves(&program, &state, after.state(alloc)?, took)?;
        assert!(rt; left, "{does:?} on {before:?}");
    }
    Ok(())
}

const ACTS: [Row; 12] = [
    (Does::Keeps, Holds::Nothing, Holds::Nothing),
    (Does::Keeps, Holds::Number(3, 7), Holds::Number(3, 7)),
    (Does::PutsText(b"x"), Holds::Nothing, Holds::Text(0, b"x")),
    (
        Does::PutsText(b"x"),
        Holds::Number(3, 7),
        Holds::Text(4, b"x"),
    ),
    (Does::PutsNumber(5), Holds::Nothing, Holds::Number(0, 5)),
    (
        Does::PutsNumber(5),
        Holds::Text(3, b"y"),
        Holds::Number(4, 5),
    ),
    (
        Does::PutsNumber(5),
        Holds::Number(u64::MAX - 1, 5),
        Holds::Number(u64::MAX, 5),
    ),
    (Does::Adds(-2), Holds::Nothing, Holds::Number(0, -2)),
    (Does::Adds(-2), Holds::Number(3, 7), Holds::Number(4, 5)),
    (
        Does::Adds(i64::MIN),
        Holds::Number(0, i64::MAX),
        Holds::Number(1, -1),
    ),
    (Does::Clears, Holds::Nothing, Holds::Nothing),
    (Does::Clears, Holds::Number(u64::MAX, 7), Holds::Nothing),
];

#[test]
fn acts_do_as_their_table_says(rt: HostRuntime) -> Result<(), Fail> {
    check(&rt, rt.alloc(), &ACTS, Took::Clause(0))
}

const UNFIT: [Row; 6] = [
    (
        Does::PutsText(b"x"),
        Holds::Number(u64::MAX, 1),
        Holds::Number(u64::MAX, 1),
    ),
    (
        Does::PutsNumber(1),
        Holds::Number(u64::MAX, 1),
        Holds::Number(u64::MAX, 1),
    ),
    (
        Does::Adds(1),
        Holds::Number(u64::MAX, 1),
        Holds::Number(u64::MAX, 1),
    ),
    (Does::Adds(1), Holds::Text(0, b"1"), Holds::Text(0, b"1")),
    (
        Does::Adds(1),
        Holds::Number(0, 9223372036854775807),
        Holds::Number(0, 9223372036854775807),
    ),
    (
        Does::Adds(-1),
        Holds::Number(0, -9223372036854775808),
        Holds::Number(0, -9223372036854775808),
    ),
];

#[test]
fn unfit_acts_change_nothing(rt: HostRuntime) -> Result<(), Fail> {
    check(&rt, rt.alloc(), &UNFIT, Took::Unfit(0))
}

// Start at 10 and count below 12.
const COUNTING: [(When, Does); 2] = [
    (When::IsEmpty, Does::PutsNumber(10)),
    (When::NumberBelow(12), Does::Adds(1)),
];

// What the program leaves of what, and by which clause.
const COUNTED: [(Holds, Holds, Took); 4] = [
    (Holds::Nothing, Holds::Number(0, 10), Took::Clause(0)),
    (Holds::Number(0, 10), Holds::Number(1, 11), Took::Clause(1)),
    (Holds::Number(1, 11), Holds::Number(2, 12), Took::Clause(1)),
    (Holds::Number(2, 12), Holds::Number(2, 12), Took::Nothing),
];

#[test]
fn the_first_clause_that_holds_acts(rt: HostRuntime) -> Result<(), Fail> {
    let alloc = rt.alloc();
    let program = program_of(alloc, &COUNTING)?;
    for (before, after, took) in COUNTED {
        let state = before.state(alloc)?;
        let left = leaves(&program, &state, after.state(alloc)?, took)?;
        assert!(rt; left, "{before:?}");
    }
    let copy = program.copy()?;
    assert!(rt; copy == program);
    Ok(())
}

#[test]
fn programs_have_one_to_eight_clauses(rt: HostRuntime) -> Result<(), Fail> {
    for count in 0..MOST_CLAUSES + 2 {
        let mut clauses = Vec::new(rt.alloc());
        for version in 0..count {
            clauses.push(Clause {
                guard: Guard::VersionIs(version as u64),
                act: Act::Keep,
            })?;
        }
        let found = match Program::new(clauses) {
            Ok(program) => (true, program.clauses().len()),
            Err(back) => (false, back.len()),
        };
        assert_eq!(rt; found, (1 <= count && count <= 8, count));
    }
    Ok(())
}
