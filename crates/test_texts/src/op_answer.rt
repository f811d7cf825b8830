//! The lines that answer an operator.

ghost use Rattle.std.specs.Prelude.{◌≤◌};

use cas_ballot::{AcceptorId, Ballot};
use cas_change::{Key, State};
use cas_lines::answer::print_op;
use cas_quorum::PlanFault;
use cas_record::{Answer, OpAnswer, Probe, Probes};
use cas_slot::{Accepted, Tell};
use std::alloc::Global;
use std::process::Abort;
use std::test::Fail;

/// That this is the line which answers an operator.
fn answers(rt: &impl Abort, alloc: Global, answer: OpAnswer, want: &[u8]) -> Result<(), Fail> {
    let line = print_op(alloc, &answer)?;
    assert_eq!(rt; line.as_slice(), want);
    Ok(())
}

/// The acceptor of this number.
fn acceptor(number: u8) -> AcceptorId
    requires { number ≤ 63 }
{
    AcceptorId::new(number).unwrap()
}

/// What the acceptor of this number told.
fn probe(number: u8, told: Option<Tell>) -> Probe
    requires { number ≤ 63 }
{
    Probe {
        acceptor: acceptor(number),
        told,
    }
}

/// The reply that tells what is kept for a key.
fn keeps(promise: Ballot, accepted: Option<Accepted>) -> Option<Tell> {
    Some(Tell::Probed { promise, accepted })
}

/// The ballot of this counter and proposer.
fn ballot(counter: u64, proposer: u8) -> Ballot {
    Ballot { counter, proposer }
}

#[test]
fn writes_a_line_for_a_plan(rt: HostRuntime) -> Result<(), Fail> {
    let joined = OpAnswer::Joined {
        id: acceptor(4),
        era: 2,
        rescanned: 1,
    };
    answers(&rt, rt.alloc(), joined, b"op: joined 4 era 2 rescanned 1\n")?;
    let left = OpAnswer::Left {
        id: acceptor(3),
        era: 1,
        rescanned: 0,
    };
    answers(&rt, rt.alloc(), left, b"op: left 3 era 1 rescanned 0\n")?;
    let resized = OpAnswer::Resized {
        need_prep: 4,
        need_acc: 2,
        era: 3,
        rescanned: 5,
    };
    let want = b"op: resized 4 2 era 3 rescanned 5\n";
    answers(&rt, rt.alloc(), resized, want)?;
    for (fault, want) in [
        (PlanFault::AlreadyIn, b"op: already in\n".as_slice()),
        (PlanFault::NotIn, b"op: not in\n"),
        (PlanFault::IdUsed, b"op: id used\n"),
        (PlanFault::TooMany, b"op: too many\n"),
        (PlanFault::Last, b"op: last\n"),
        (PlanFault::BadSize, b"op: bad size\n"),
        (PlanFault::NotMajority, b"op: not majority\n"),
    ] {
        answers(&rt, rt.alloc(), OpAnswer::Refused(fault), want)?;
    }
    answers(&rt, rt.alloc(), OpAnswer::Busy { era: 1 }, b"op: busy 1\n")
}

#[test]
fn writes_a_line_for_a_collection(rt: HostRuntime) -> Result<(), Fail> {
    let collected = OpAnswer::Collected {
        key: Key::read(rt.alloc(), b"k:~")?,
        ballot: ballot(4, 0),
        removed: 3,
        kept: 0,
    };
    answers(
        &rt,
        rt.alloc(),
        collected,
        b"op: collected k:~ at 4.0 removed 3 kept 0\n",
    )?;
    let held = OpAnswer::NotEmpty { version: 0 };
    answers(&rt, rt.alloc(), held, b"op: not empty v0\n")?;
    let absent = OpAnswer::Absent {
        acceptor: acceptor(3),
    };
    answers(&rt, rt.alloc(), absent, b"op: absent 3\n")
}

#[test]
fn writes_a_line_for_what_stopped_a_call(rt: HostRuntime) -> Result<(), Fail> {
    let down = OpAnswer::ProposerDown { proposer: 2 };
    answers(&rt, rt.alloc(), down, b"op: proposer down 2\n")?;
    let short = OpAnswer::Stopped(Answer::Short { got: 0, need: 2 });
    answers(&rt, rt.alloc(), short, b"op: short 0 2\n")?;
    let spent = OpAnswer::Stopped(Answer::Spent);
    answers(&rt, rt.alloc(), spent, b"op: spent\n")
}

#[test]
fn writes_a_line_for_what_was_probed(rt: HostRuntime) -> Result<(), Fail> {
    let accepted = Accepted {
        ballot: ballot(1, 1),
        era: 0,
        state: State::Empty,
    };
    let probes = [
        probe(1, keeps(ballot(2, 2), Some(accepted))),
        probe(2, keeps(ballot(3, 1), None)),
        probe(3, None),
        probe(63, Some(Tell::Kept)),
    ];
    let probed = OpAnswer::Probed {
        key: Key::read(rt.alloc(), b"a")?,
        found: Probes::new(Vec::from_array(rt.alloc(), probes)?),
    };
    answers(
        &rt,
        rt.alloc(),
        probed,
        b"op: probe a 1=1.1/0 2=none 3=? 63=?\n",
    )?;
    let nobody = OpAnswer::Probed {
        key: Key::read(rt.alloc(), b"b")?,
        found: Probes::new(Vec::new(rt.alloc())),
    };
    answers(&rt, rt.alloc(), nobody, b"op: probe b\n")
}
