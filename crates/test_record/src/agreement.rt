//! What members agree on of a key, over rows of what they told.

use Agreement::{NotAgreed, OldEra, Short, Value};
use Says::{Keeps, Nothing, Other, Silent};
use cas_ballot::{AcceptorId, Ballot, Members};
use cas_change::State;
use cas_quorum::{Era, meet};
use cas_record::{Agreement, Probe, agree};
use cas_slot::{Accepted, Tell};
use std::alloc::Global;
use std::process::Abort;
use std::test::Fail;

/// The era in which the members are asked.
const NOW: u32 = 3;

/// What a member told.
#[derive(Clone, Copy)]
enum Says {
    /// No reply of it arrived.
    Silent,
    /// Its reply tells nothing of the key.
    Other,
    /// It accepted nothing.
    Nothing,
    /// It accepted a state at proposer 1's ballot of this counter, in this era.
    Keeps(u64, u32),
}

/// Proposer 1's ballot of this counter.
fn ballot(counter: u64) -> Ballot {
    Ballot {
        counter,
        proposer: 1,
    }
}

fn told(says: Says) -> Option<Tell> {
    let promise = ballot(9);
    match says {
        Silent => None,
        Other => Some(Tell::Full),
        Nothing => Some(Tell::Probed {
            promise,
            accepted: None,
        }),
        Keeps(counter, era) => Some(Tell::Probed {
            promise,
            accepted: Some(Accepted {
                ballot: ballot(counter),
                era,
                state: State::Empty,
            }),
        }),
    }
}

/// The members of these numbers.
fn members(rt: &impl Abort, numbers: &[u8]) -> Members {
    let mut members = Members::new();
    for number in numbers {
        members.insert(AcceptorId::new(*number).expect(rt, "a number is at most 63"));
    }
    members
}

/// That members which told so, in the order of their numbers, agree on that.
fn agrees(
    rt: &impl Abort,
    alloc: Global,
    era: &Era,
    says: &[Says],
    want: Agreement,
) -> Result<(), Fail> {
    let mut found = Vec::new(alloc);
    let mut number = 0_u8;
    for one in says {
        number = number.saturating_add(1);
        found.push(Probe {
            acceptor: AcceptorId::new(number).expect(rt, "a number is at most 63"),
            told: told(*one),
        })?;
    }
    assert!(rt; meet(era, era));
    assert_eq!(rt; agree(era, &found), want);
    Ok(())
}

#[test]
fn three_members_agree_by_majorities(rt: HostRuntime) -> Result<(), Fail> {
    let era = Era::majority(NOW, members(&rt, &[1, 2, 3]));
    let one = ballot(1);
    let two = ballot(2);
    for (says, want) in [
        (
            [Keeps(1, NOW), Keeps(1, NOW), Keeps(1, NOW)],
            Value {
                ballot: one,
                at: Some(0),
            },
        ),
        (
            [Silent, Keeps(1, NOW), Keeps(1, NOW)],
            Value {
                ballot: one,
                at: Some(1),
            },
        ),
        (
            [Keeps(1, NOW), Keeps(2, NOW), Keeps(2, NOW)],
            Value {
                ballot: two,
                at: Some(1),
            },
        ),
        (
            [Nothing, Keeps(1, NOW), Nothing],
            Value {
                ballot: Ballot::ZERO,
                at: None,
            },
        ),
        ([Silent, Keeps(1, NOW), Silent], Short { got: 1, need: 2 }),
        ([Other, Other, Silent], Short { got: 0, need: 2 }),
        (
            [Keeps(2, NOW), Keeps(1, NOW), Other],
            NotAgreed {
                low: one,
                high: two,
            },
        ),
        (
            [Silent, Nothing, Keeps(2, NOW)],
            NotAgreed {
                low: Ballot::ZERO,
                high: two,
            },
        ),
        (
            [Keeps(1, 2), Keeps(2, NOW), Keeps(1, 2)],
            NotAgreed {
                low: one,
                high: two,
            },
        ),
        (
            [Keeps(1, 2), Keeps(1, 2), Silent],
            OldEra {
                ballot: one,
                era: 2,
            },
        ),
    ] {
        agrees(&rt, rt.alloc(), &era, &says, want)?;
    }
    Ok(())
}

#[test]
fn sizes_that_differ_are_both_held(rt: HostRuntime) -> Result<(), Fail> {
    let five = members(&rt, &[1, 2, 3, 4, 5]);
    let one = Keeps(1, NOW);
    for (need_prep, need_acc, says, want) in [
        (
            4,
            2,
            [Silent, one, one, one, one],
            Value {
                ballot: ballot(1),
                at: Some(1),
            },
        ),
        (
            4,
            2,
            [one, one, one, Silent, Silent],
            Short { got: 3, need: 4 },
        ),
        (
            2,
            4,
            [one, one, one, Silent, Silent],
            Short { got: 3, need: 4 },
        ),
        (
            4,
            2,
            [one, one, one, Keeps(2, NOW), Keeps(2, NOW)],
            NotAgreed {
                low: ballot(1),
                high: ballot(2),
            },
        ),
    ] {
        let era = Era {
            number: NOW,
            prep: five,
            need_prep,
            acc: five,
            need_acc,
        };
        agrees(&rt, rt.alloc(), &era, &says, want)?;
    }
    Ok(())
}
