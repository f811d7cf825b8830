//! The lines that answer changes, bad lines and events, and that show what is kept.

use cas_ballot::{AcceptorId, Ballot};
use cas_change::{Body, Key, State, Text, Took};
use cas_change_text::Why;
use cas_lines::answer::{EventAnswer, Shown, print_answer, print_bad, print_event, print_shown};
use cas_record::{Answer, Cause};
use cas_slot::{Accepted, Slot};
use std::alloc::Global;
use std::process::Abort;
use std::test::Fail;

/// The ballot of this counter that proposer 2 draws.
fn ballot(counter: u64) -> Ballot {
    Ballot {
        counter,
        proposer: 2,
    }
}

/// That this is the line which answers caller 2.
fn answers(rt: &impl Abort, alloc: Global, answer: Answer, want: &[u8]) -> Result<(), Fail> {
    let line = print_answer(alloc, 2, &answer)?;
    assert_eq!(rt; line.as_slice(), want);
    Ok(())
}

/// A change that left this state at ballot 7.2.
fn done(state: State, took: Took) -> Answer {
    Answer::Done {
        state,
        took,
        ballot: ballot(7),
    }
}

#[test]
fn writes_a_line_for_what_is_done(rt: HostRuntime) -> Result<(), Fail> {
    let state = State::Held {
        version: 3,
        body: Body::Text(Text::read(rt.alloc(), b"50%")?),
    };
    answers(
        &rt,
        rt.alloc(),
        done(state, Took::Nothing),
        b"2: done v3 text 50%25 at 7.2 no clause\n",
    )?;
    answers(
        &rt,
        rt.alloc(),
        done(State::Empty, Took::Unfit(1)),
        b"2: done empty at 7.2 unfit\n",
    )?;
    answers(
        &rt,
        rt.alloc(),
        done(State::Empty, Took::Clause(1)),
        b"2: done empty at 7.2\n",
    )
}

#[test]
fn writes_a_line_for_what_is_not_done(rt: HostRuntime) -> Result<(), Fail> {
    let acceptor = AcceptorId::new(5).unwrap();
    answers(
        &rt,
        rt.alloc(),
        Answer::Conflict { met: ballot(9) },
        b"2: conflict 9.2\n",
    )?;
    answers(&rt, rt.alloc(), Answer::Aged { least: 4 }, b"2: aged 4\n")?;
    answers(&rt, rt.alloc(), Answer::Full { acceptor }, b"2: full 5\n")?;
    answers(
        &rt,
        rt.alloc(),
        Answer::Short { got: 1, need: 2 },
        b"2: short 1 2\n",
    )?;
    answers(&rt, rt.alloc(), Answer::Moved { era: 6 }, b"2: moved 6\n")?;
    let why = Cause::Short { got: 0, need: 2 };
    answers(
        &rt,
        rt.alloc(),
        Answer::Unsettled { why },
        b"2: unsettled short 0 2\n",
    )?;
    let why = Cause::Met(ballot(9));
    answers(
        &rt,
        rt.alloc(),
        Answer::Unsettled { why },
        b"2: unsettled met 9.2\n",
    )?;
    answers(&rt, rt.alloc(), Answer::VaultFault, b"2: vault fault\n")?;
    answers(
        &rt,
        rt.alloc(),
        Answer::NoMemory { proposed: false },
        b"2: no memory\n",
    )?;
    answers(
        &rt,
        rt.alloc(),
        Answer::NoMemory { proposed: true },
        b"2: no memory proposed\n",
    )
}

#[test]
fn writes_a_line_for_a_bad_one(rt: HostRuntime) -> Result<(), Fail> {
    let line = print_bad(rt.alloc(), 12, Why::TooManyClauses)?;
    assert_eq!(rt; line.as_slice(), b"bad 12 too many clauses\n".as_slice());
    Ok(())
}

#[test]
fn writes_a_line_for_each_event(rt: HostRuntime) -> Result<(), Fail> {
    for (answer, want) in [
        (EventAnswer::Ok, b"ok\n".as_slice()),
        (EventAnswer::Absent, b"none\n"),
        (EventAnswer::Fault, b"fault\n"),
        (EventAnswer::Foreign { at: 1024 }, b"foreign 1024\n"),
        (EventAnswer::RecordFull, b"record full\n"),
        (EventAnswer::NoMemory, b"no memory\n"),
    ] {
        let line = print_event(rt.alloc(), &answer)?;
        assert_eq!(rt; line.as_slice(), want);
    }
    Ok(())
}

/// That this is the line which tells what acceptor 63 keeps for a key.
fn shows(rt: &impl Abort, alloc: Global, shown: Shown, want: &[u8]) -> Result<(), Fail> {
    let id = AcceptorId::new(63).unwrap();
    let key = Key::read(alloc, b"k:~")?;
    let line = print_shown(alloc, id, &key, &shown)?;
    assert_eq!(rt; line.as_slice(), want);
    Ok(())
}

#[test]
fn writes_what_an_acceptor_shows(rt: HostRuntime) -> Result<(), Fail> {
    shows(&rt, rt.alloc(), Shown::Nothing, b"63 k:~: none\n")?;
    shows(&rt, rt.alloc(), Shown::Down, b"63 k:~: down\n")?;
    let promised = Slot {
        promise: ballot(4),
        accepted: None,
    };
    shows(
        &rt,
        rt.alloc(),
        Shown::Kept(promised),
        b"63 k:~: promise 4.2\n",
    )?;
    let accepted = Accepted {
        ballot: ballot(3),
        era: 1,
        state: State::Held {
            version: 0,
            body: Body::Number(-5),
        },
    };
    let kept = Slot {
        promise: Ballot::ZERO,
        accepted: Some(accepted),
    };
    shows(
        &rt,
        rt.alloc(),
        Shown::Kept(kept),
        b"63 k:~: promise 0.0 accepted 3.2 era 1 v0 num -5\n",
    )
}
