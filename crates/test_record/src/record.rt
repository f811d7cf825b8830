//! Records as the store's answers imply them, and the histories that stand by them.
//!
//! A test is a table of steps, and what a record of their marks tells then. One function owns the record, since each early return beside
//! a record lets all its tables go.

use crate::step::{At, By, Call, Does, Holds, Step, make};
use cas_change::Key;
use cas_record::Record;
use std::alloc::Global;
use std::process::Abort;
use std::test::Fail;

/// What a record tells: of the key `a` the calls that stand, in their order, the state with which its history starts, and the one that
/// they leave; of some keys the greatest ballot; and the key that comes after some key, or the least.
#[derive(Clone, Copy)]
struct Told<'a> {
    calls: &'a [Call],
    start: Holds,
    state: Holds,
    tops: &'a [(u8, Option<At>)],
    keys: &'a [(Option<u8>, Option<u8>)],
}

fn stands(rt: &impl Abort, alloc: Global, record: &Record, told: Told) -> Result<(), Fail> {
    let key = Key::read(alloc, b"a")?;
    let settled = record.settled(&key)?;
    assert_eq!(rt; settled.len(), told.calls.len());
    for (entry, call) in settled.iter().zip(told.calls.iter()) {
        assert_eq!(rt; (entry.caller, entry.call), *call);
    }
    let start = record.start(&key)?;
    assert!(rt; start == told.start.state(alloc)?);
    assert!(rt; Record::replay(&start, &settled)? == told.state.state(alloc)?);
    assert!(rt; record.settled(&Key::read(alloc, b"z")?)?.is_empty());
    Ok(())
}

fn has_tops(rt: &impl Abort, alloc: Global, record: &Record, told: Told) -> Result<(), Fail> {
    for (key, top) in told.tops {
        let top = top.map(At::ballot);
        assert_eq!(rt; record.top(&Key::read(alloc, &[*key])?), top);
    }
    Ok(())
}

fn key_of(alloc: Global, letter: Option<u8>) -> Result<Option<Key>, Fail> {
    match letter {
        Some(letter) => Ok(Some(Key::read(alloc, &[letter])?)),
        None => Ok(None),
    }
}

fn lists_keys(rt: &impl Abort, alloc: Global, record: &Record, told: Told) -> Result<(), Fail> {
    for (after, next) in told.keys {
        let (after, next) = (key_of(alloc, *after)?, key_of(alloc, *next)?);
        assert!(rt; record.next_key(after.as_ref()) == next.as_ref());
    }
    Ok(())
}

fn makes(alloc: Global, record: &mut Record, steps: &[Step]) -> Result<(), Fail> {
    for step in steps {
        make(alloc, record, *step)?;
    }
    Ok(())
}

fn makes_and_tells(
    rt: &impl Abort,
    alloc: Global,
    record: &mut Record,
    tables: &[&[Step]],
    told: Told,
) -> Result<(), Fail> {
    for steps in tables {
        makes(alloc, record, steps)?;
    }
    stands(rt, alloc, record, told)?;
    has_tops(rt, alloc, record, told)?;
    lists_keys(rt, alloc, record, told)
}

/// A record of the steps of all these tables, one after another, tells this.
fn check(rt: &impl Abort, alloc: Global, tables: &[&[Step]], told: Told) -> Result<(), Fail> {
    let mut record = Record::new(alloc);
    makes_and_tells(rt, alloc, &mut record, tables, told)
}

/// `1 add a 5`, done at 1.1, and `1 add a 2`, done at 2.1 on the promise that rode along.
const TWO_ADDS: [Step; 6] = [
    Step::Begins((1, 1), Does::Adds(5)),
    Step::Proposes(b'a', (1, 1), At(1, 1), At(0, 0), By::All),
    Step::Settles((1, 1), At(1, 1), Holds::Number(0, 5), By::All),
    Step::Begins((1, 2), Does::Adds(2)),
    Step::Proposes(b'a', (1, 2), At(2, 1), At(1, 1), By::All),
    Step::Settles((1, 2), At(2, 1), Holds::Number(1, 7), By::All),
];

#[test]
fn two_changes_stand_in_their_order(rt: HostRuntime) -> Result<(), Fail> {
    let nothing = Told {
        calls: &[],
        start: Holds::Nothing,
        state: Holds::Nothing,
        tops: &[(b'a', None)],
        keys: &[(None, None)],
    };
    check(&rt, rt.alloc(), &[], nothing)?;
    let told = Told {
        calls: &[(1, 1), (1, 2)],
        start: Holds::Nothing,
        state: Holds::Number(1, 7),
        tops: &[(b'a', Some(At(2, 1)))],
        keys: &[(None, Some(b'a')), (Some(b'a'), None)],
    };
    check(&rt, rt.alloc(), &[&TWO_ADDS], told)
}

/// `2 get a` meets 3.1, and is done at 4.2; `1 add a 1` on 3.1 is unsettled, and `1 get a` is done at 6.1.
const OVERTAKEN: [Step; 11] = [
    Step::Begins((2, 1), Does::Keeps),
    Step::Conflicts((2, 1), At(3, 1)),
    Step::Begins((2, 2), Does::Keeps),
    Step::Proposes(b'a', (2, 2), At(4, 2), At(2, 1), By::All),
    Step::Settles((2, 2), At(4, 2), Holds::Number(1, 7), By::All),
    Step::Begins((1, 3), Does::Adds(1)),
    Step::Proposes(b'a', (1, 3), At(3, 1), At(2, 1), By::All),
    Step::MeetsAtLast((1, 3), At(5, 2)),
    Step::Begins((1, 4), Does::Keeps),
    Step::Proposes(b'a', (1, 4), At(6, 1), At(4, 2), By::All),
    Step::Settles((1, 4), At(6, 1), Holds::Number(1, 7), By::All),
];

#[test]
fn a_change_on_an_overtaken_promise_does_not_stand(rt: HostRuntime) -> Result<(), Fail> {
    let told = Told {
        calls: &[(1, 1), (1, 2), (2, 2), (1, 4)],
        start: Holds::Nothing,
        state: Holds::Number(1, 7),
        tops: &[(b'a', Some(At(6, 1)))],
        keys: &[(None, Some(b'a'))],
    };
    check(&rt, rt.alloc(), &[&TWO_ADDS, &OVERTAKEN], told)
}

/// `1 add a 1` at 1.1, whose accepts to acceptors 2 and 3 are lost.
const SHORT_ADD: [Step; 6] = [
    Step::Begins((1, 1), Does::Adds(1)),
    Step::Proposes(b'a', (1, 1), At(1, 1), At(0, 0), By::All),
    Step::Harms((1, 1)),
    Step::Harms((1, 1)),
    Step::Votes(At(1, 1), By::First),
    Step::FallsShort((1, 1)),
];

/// `2 get a` is done at 1.2 by acceptors 2 and 3, and `1 get a` at 3.1.
const NOT_READ: [Step; 6] = [
    Step::Begins((2, 1), Does::Keeps),
    Step::Proposes(b'a', (2, 1), At(1, 2), At(0, 0), By::LastTwo),
    Step::Settles((2, 1), At(1, 2), Holds::Nothing, By::LastTwo),
    Step::Begins((1, 2), Does::Keeps),
    Step::Proposes(b'a', (1, 2), At(3, 1), At(1, 2), By::All),
    Step::Settles((1, 2), At(3, 1), Holds::Nothing, By::All),
];

#[test]
fn an_unsettled_change_that_nobody_read_does_not_stand(rt: HostRuntime) -> Result<(), Fail> {
    let told = Told {
        calls: &[(2, 1), (1, 2)],
        start: Holds::Nothing,
        state: Holds::Nothing,
        tops: &[(b'a', Some(At(3, 1)))],
        keys: &[(None, Some(b'a'))],
    };
    check(&rt, rt.alloc(), &[&SHORT_ADD, &NOT_READ], told)
}

/// `2 get a` meets 2.1, and is done at 3.2 by acceptors 1 and 2, which read 1.1.
const READ: [Step; 7] = [
    Step::Begins((2, 1), Does::Keeps),
    Step::Harms((2, 1)),
    Step::Conflicts((2, 1), At(2, 1)),
    Step::Begins((2, 2), Does::Keeps),
    Step::Harms((2, 2)),
    Step::Proposes(b'a', (2, 2), At(3, 2), At(1, 1), By::FirstTwo),
    Step::Settles((2, 2), At(3, 2), Holds::Number(0, 1), By::All),
];

#[test]
fn an_unsettled_change_that_was_read_stands_once(rt: HostRuntime) -> Result<(), Fail> {
    let told = Told {
        calls: &[(1, 1), (2, 2)],
        start: Holds::Nothing,
        state: Holds::Number(0, 1),
        tops: &[(b'a', Some(At(3, 2)))],
        keys: &[(None, Some(b'a'))],
    };
    check(&rt, rt.alloc(), &[&SHORT_ADD, &READ], told)
}

/// `1 set a x`, `1 del a`, and a collection at 4.0.
const COLLECTED: [Step; 10] = [
    Step::Begins((1, 1), Does::PutsX),
    Step::Proposes(b'a', (1, 1), At(1, 1), At(0, 0), By::All),
    Step::Settles((1, 1), At(1, 1), Holds::X, By::All),
    Step::Begins((1, 2), Does::Clears),
    Step::Proposes(b'a', (1, 2), At(2, 1), At(1, 1), By::All),
    Step::Settles((1, 2), At(2, 1), Holds::Nothing, By::All),
    Step::Begins((0, 1), Does::Keeps),
    Step::Proposes(b'a', (0, 1), At(4, 0), At(2, 1), By::All),
    Step::Settles((0, 1), At(4, 0), Holds::Nothing, By::All),
    Step::Floor(b'a', At(4, 0), Holds::Nothing),
];

/// `1 add a 9`, which reads nothing and is done at 5.1.
const BEHIND: [Step; 3] = [
    Step::Begins((1, 3), Does::Adds(9)),
    Step::Proposes(b'a', (1, 3), At(5, 1), At(0, 0), By::All),
    Step::Settles((1, 3), At(5, 1), Holds::Number(0, 9), By::All),
];

#[test]
fn a_history_goes_on_behind_a_floor(rt: HostRuntime) -> Result<(), Fail> {
    let told = Told {
        calls: &[(1, 1), (1, 2), (0, 1), (1, 3)],
        start: Holds::Nothing,
        state: Holds::Number(0, 9),
        tops: &[(b'a', Some(At(5, 1)))],
        keys: &[(None, Some(b'a'))],
    };
    check(&rt, rt.alloc(), &[&COLLECTED, &BEHIND], told)
}

/// A floor of the key `a` at 7.1 with version 3 and number 9.
const OPENING: [Step; 1] = [Step::Floor(b'a', At(7, 1), Holds::Number(3, 9))];

/// `1 add a 1`, which goes on from it at 8.1.
const GOES_ON: [Step; 3] = [
    Step::Begins((1, 1), Does::Adds(1)),
    Step::Proposes(b'a', (1, 1), At(8, 1), At(7, 1), By::All),
    Step::Settles((1, 1), At(8, 1), Holds::Number(4, 10), By::All),
];

#[test]
fn a_history_starts_at_its_opening_floor(rt: HostRuntime) -> Result<(), Fail> {
    let opened = Told {
        calls: &[],
        start: Holds::Number(3, 9),
        state: Holds::Number(3, 9),
        tops: &[(b'a', Some(At(7, 1)))],
        keys: &[(None, Some(b'a'))],
    };
    check(&rt, rt.alloc(), &[&OPENING], opened)?;
    let told = Told {
        calls: &[(1, 1)],
        start: Holds::Number(3, 9),
        state: Holds::Number(4, 10),
        tops: &[(b'a', Some(At(8, 1)))],
        keys: &[(None, Some(b'a'))],
    };
    check(&rt, rt.alloc(), &[&OPENING, &GOES_ON], told)
}

/// A floor of `c` alone.
const FLOOR_OF_C: [Step; 1] = [Step::Floor(b'c', At(2, 0), Holds::Nothing)];

/// A proposal of `b` that nobody acknowledged.
const UNHEARD: [Step; 1] = [Step::Proposes(b'b', (2, 1), At(3, 2), At(0, 0), By::All)];

#[test]
fn keys_with_a_history_come_in_their_order(rt: HostRuntime) -> Result<(), Fail> {
    let told = Told {
        calls: &[(1, 1), (1, 2)],
        start: Holds::Nothing,
        state: Holds::Number(1, 7),
        tops: &[(b'b', None)],
        keys: &[
            (None, Some(b'a')),
            (Some(b'a'), Some(b'c')),
            (Some(b'b'), Some(b'c')),
            (Some(b'c'), None),
        ],
    };
    check(&rt, rt.alloc(), &[&FLOOR_OF_C, &TWO_ADDS, &UNHEARD], told)
}
