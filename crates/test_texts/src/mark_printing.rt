//! Marks with their lines.

use cas_audit::{has_text, print_mark};
use cas_ballot::{AcceptorId, Ballot, Members};
use cas_change::{Body, Key, State, Text, Took};
use cas_change_text::read_program;
use cas_quorum::PlanFault;
use cas_record::{Acknowledgment, Answer, Asked, Cause, Mark, OpAnswer, Probes, Proposal};
use std::alloc::Global;
use std::process::Abort;
use std::test::Fail;

/// The ballot of this counter that proposer 1 draws.
fn ballot(counter: u64) -> Ballot {
    Ballot {
        counter,
        proposer: 1,
    }
}

fn acceptor(rt: &impl Abort, number: u8) -> AcceptorId {
    AcceptorId::new(number).expect(rt, "an acceptor's number is at most 63")
}

fn members(rt: &impl Abort, numbers: &[u8]) -> Members {
    let mut members = Members::new();
    for number in numbers {
        members.insert(acceptor(rt, *number));
    }
    members
}

/// That this is the line of the mark.
fn prints(rt: &impl Abort, alloc: Global, mark: Mark, want: &[u8]) -> Result<(), Fail> {
    assert!(rt; has_text(&mark));
    let line = print_mark(alloc, &mark)?;
    assert_eq!(rt; line.as_slice(), want);
    Ok(())
}

/// That this is the line of the answer to a call.
fn ends(rt: &impl Abort, alloc: Global, answer: Answer, want: &[u8]) -> Result<(), Fail> {
    let mark = Mark::Ended {
        caller: 1,
        call: 4,
        rounds: 2,
        answer,
    };
    prints(rt, alloc, mark, want)
}

/// That this is the line of an operator's answer, who asked that acceptor 4 joins.
fn tells(rt: &impl Abort, alloc: Global, answer: OpAnswer, want: &[u8]) -> Result<(), Fail> {
    let asked = Asked::Join(acceptor(rt, 4));
    prints(rt, alloc, Mark::Told { asked, answer }, want)
}

/// The marks of a call that adds 5 to the register `a`.
#[test]
fn writes_a_line_for_each_mark_of_a_call(rt: HostRuntime) -> Result<(), Fail> {
    let alloc = rt.alloc();
    let key = Key::read(alloc, b"a")?;
    let program = read_program(alloc, b"always add 5")?;
    let begun = Mark::Begun {
        caller: 1,
        call: 1,
        key,
        program,
    };
    prints(&rt, alloc, begun, b"begun 1.1 a always add 5")?;
    let proposed = Mark::Proposed(Proposal {
        caller: 1,
        call: 1,
        key: Key::read(alloc, b"a")?,
        ballot: ballot(1),
        read: Ballot::ZERO,
        era: 0,
        prepared_by: members(&rt, &[1, 2, 3]),
    });
    prints(
        &rt,
        alloc,
        proposed,
        b"proposed 1.1 a 1.1 read 0.0 era 0 by 1,2,3",
    )?;
    let voted = Mark::Voted {
        acceptor: acceptor(&rt, 2),
        key: Key::read(alloc, b"a")?,
        ballot: ballot(1),
    };
    prints(&rt, alloc, voted, b"voted 2 a 1.1")?;
    let acked = Mark::Acked(Acknowledgment {
        key: Key::read(alloc, b"a")?,
        ballot: ballot(1),
        era: 0,
        by: members(&rt, &[0, 63]),
    });
    prints(&rt, alloc, acked, b"acked a 1.1 era 0 by 0,63")
}

#[test]
fn writes_a_line_for_each_other_mark(rt: HostRuntime) -> Result<(), Fail> {
    let alloc = rt.alloc();
    let floor = Mark::Floor {
        key: Key::read(alloc, b"a")?,
        ballot: ballot(7),
        state: State::Empty,
    };
    prints(&rt, alloc, floor, b"floor a 7.1 empty")?;
    let acked = Mark::Acked(Acknowledgment {
        key: Key::read(alloc, b"a")?,
        ballot: ballot(1),
        era: 2,
        by: Members::new(),
    });
    prints(&rt, alloc, acked, b"acked a 1.1 era 2 by -")?;
    let entered = Mark::EraEntered {
        proposer: 16,
        number: 3,
    };
    prints(&rt, alloc, entered, b"entered 16 3")?;
    for (down, want) in [
        (false, b"harmed 2.9 fate".as_slice()),
        (true, b"harmed 2.9 down"),
    ] {
        let harmed = Mark::Harmed {
            caller: 2,
            call: 9,
            down,
        };
        prints(&rt, alloc, harmed, want)?;
    }
    Ok(())
}

#[test]
fn writes_the_number_of_the_clause(rt: HostRuntime) -> Result<(), Fail> {
    let alloc = rt.alloc();
    for (took, want) in [
        (
            Took::Clause(0),
            b"ended 1.4 2 done v0 text 50%25 at 1.1 clause 0".as_slice(),
        ),
        (
            Took::Nothing,
            b"ended 1.4 2 done v0 text 50%25 at 1.1 no clause",
        ),
        (
            Took::Unfit(3),
            b"ended 1.4 2 done v0 text 50%25 at 1.1 unfit 3",
        ),
    ] {
        let state = State::Held {
            version: 0,
            body: Body::Text(Text::read(alloc, b"50%")?),
        };
        let answer = Answer::Done {
            state,
            took,
            ballot: ballot(1),
        };
        ends(&rt, alloc, answer, want)?;
    }
    let why = Cause::Short { got: 1, need: 2 };
    ends(
        &rt,
        alloc,
        Answer::Unsettled { why },
        b"ended 1.4 2 unsettled short 1 2",
    )?;
    ends(
        &rt,
        alloc,
        Answer::NoMemory { proposed: true },
        b"ended 1.4 2 no memory proposed",
    )
}

#[test]
fn writes_what_an_operator_is_told(rt: HostRuntime) -> Result<(), Fail> {
    let alloc = rt.alloc();
    let joined = OpAnswer::Joined {
        id: acceptor(&rt, 4),
        era: 2,
        rescanned: 7,
    };
    tells(
        &rt,
        alloc,
        joined,
        b"told join 4 -> joined 4 era 2 rescanned 7",
    )?;
    let refused = OpAnswer::Refused(PlanFault::AlreadyIn);
    tells(&rt, alloc, refused, b"told join 4 -> already in")?;
    let stopped = OpAnswer::Stopped(Answer::Short { got: 1, need: 2 });
    tells(&rt, alloc, stopped, b"told join 4 -> short 1 2")?;
    let down = OpAnswer::ProposerDown { proposer: 2 };
    tells(&rt, alloc, down, b"told join 4 -> proposer down 2")?;
    let collected = OpAnswer::Collected {
        key: Key::read(alloc, b"a")?,
        ballot: ballot(7),
        removed: 3,
        kept: 1,
    };
    let told = Mark::Told {
        asked: Asked::Collect(Key::read(alloc, b"a")?),
        answer: collected,
    };
    prints(
        &rt,
        alloc,
        told,
        b"told collect a -> collected a at 7.1 removed 3 kept 1",
    )
}

#[test]
fn writes_what_is_told_of_sizes(rt: HostRuntime) -> Result<(), Fail> {
    let alloc = rt.alloc();
    let resized = OpAnswer::Resized {
        need_prep: 4,
        need_acc: 2,
        era: 3,
        rescanned: 5,
    };
    let told = Mark::Told {
        asked: Asked::Resize {
            need_prep: 4,
            need_acc: 2,
        },
        answer: resized,
    };
    let want = b"told resize 4 2 -> resized 4 2 era 3 rescanned 5";
    prints(&rt, alloc, told, want)?;
    let bad = Mark::Told {
        asked: Asked::Resize {
            need_prep: 0,
            need_acc: 4_294_967_295,
        },
        answer: OpAnswer::Refused(PlanFault::BadSize),
    };
    prints(&rt, alloc, bad, b"told resize 0 4294967295 -> bad size")?;
    let refused = OpAnswer::Refused(PlanFault::NotMajority);
    tells(&rt, alloc, refused, b"told join 4 -> not majority")?;
    let read = Mark::Told {
        asked: Asked::Read(Key::read(alloc, b"a")?),
        answer: OpAnswer::Stopped(Answer::Short { got: 1, need: 2 }),
    };
    prints(&rt, alloc, read, b"told read a -> short 1 2")
}

#[test]
fn writes_no_answer_to_a_probe(rt: HostRuntime) -> Result<(), Fail> {
    let alloc = rt.alloc();
    let probed = Mark::Told {
        asked: Asked::Probe(Key::read(alloc, b"a")?),
        answer: OpAnswer::Probed {
            key: Key::read(alloc, b"a")?,
            found: Probes::new(Vec::new(alloc)),
        },
    };
    assert!(rt; !has_text(&probed));
    let done = Answer::Done {
        state: State::Empty,
        took: Took::Nothing,
        ballot: ballot(1),
    };
    let stopped = Mark::Told {
        asked: Asked::Join(acceptor(&rt, 4)),
        answer: OpAnswer::Stopped(done),
    };
    assert!(rt; !has_text(&stopped));
    Ok(())
}
