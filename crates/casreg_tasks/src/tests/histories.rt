//! Records made mark by mark, and their histories as text.

use crate::histories::{HistoryFault, write_histories};
use cas_ballot::{Ballot, Members};
use cas_change::{Key, Program, State};
use cas_change_text::{read_program, read_state};
use cas_lines::sink::MemorySink;
use cas_record::{Acknowledgment, Mark, Proposal, Record};
use std::alloc::Global;
use std::process::Abort;
use std::test::Fail;

/// What happens to the register of a key.
#[derive(Clone, Copy)]
enum Step<'a> {
    /// The key's history opens with that state, at that ballot.
    Opens(&'a str, (u64, u8), &'a str),
    /// The call of that caller and number begins, with that program.
    Begins(&'a str, (u8, u32), &'a str),
    /// The call proposes at the first ballot, over what was accepted at the second.
    Proposes(&'a str, (u8, u32), (u64, u8), (u64, u8)),
    /// What was proposed at the ballot is acknowledged.
    Acks(&'a str, (u64, u8)),
}

use Step::{Acks, Begins, Opens, Proposes};

fn ballot_of((counter, proposer): (u64, u8)) -> Ballot {
    Ballot { counter, proposer }
}

fn key_of(alloc: Global, key: &str) -> Result<Key, Fail> {
    Ok(Key::read(alloc, key.as_bytes())?)
}

fn opened(key: Key, ballot: (u64, u8), state: State) -> Mark {
    Mark::Floor {
        key,
        ballot: ballot_of(ballot),
        state,
    }
}

fn begun(key: Key, (caller, call): (u8, u32), program: Program) -> Mark {
    Mark::Begun {
        caller,
        call,
        key,
        program,
    }
}

fn proposed(key: Key, (caller, call): (u8, u32), ballot: (u64, u8), read: (u64, u8)) -> Mark {
    Mark::Proposed(Proposal {
        caller,
        call,
        key,
        ballot: ballot_of(ballot),
        read: ballot_of(read),
        era: 0,
        prepared_by: Members::EMPTY,
    })
}

fn acked(key: Key, ballot: (u64, u8)) -> Mark {
    Mark::Acked(Acknowledgment {
        key,
        ballot: ballot_of(ballot),
        era: 0,
        by: Members::EMPTY,
    })
}

fn mark_of(alloc: Global, step: Step) -> Result<Mark, Fail> {
    match step {
        Opens(key, ballot, text) => {
            let state = read_state(alloc, text.as_bytes())?;
            Ok(opened(key_of(alloc, key)?, ballot, state))
        }
        Begins(key, call, text) => {
            let program = read_program(alloc, text.as_bytes())?;
            Ok(begun(key_of(alloc, key)?, call, program))
        }
        Proposes(key, call, ballot, read) => {
            Ok(proposed(key_of(alloc, key)?, call, ballot, read))
        }
        Acks(key, ballot) => Ok(acked(key_of(alloc, key)?, ballot)),
    }
}

fn make(alloc: Global, record: &mut Record, steps: &[Step]) -> Result<(), Fail> {
    for step in steps {
        let mark = mark_of(alloc, *step)?;
        record.reserve(1)?;
        record.push(mark);
    }
    Ok(())
}

/// The histories of a record of these steps are written to the sink, with that end, and it has that text then.
fn writes(
    rt: &impl Abort,
    alloc: Global,
    steps: &[Step],
    sink: &mut MemorySink,
    end: Result<(), HistoryFault>,
    text: &[u8],
) -> Result<(), Fail> {
    let mut record = Record::new(alloc);
    make(alloc, &mut record, steps)?;
    assert_eq!(rt; write_histories(alloc, &record, sink), end);
    assert_eq!(rt; sink.bytes(), text);
    Ok(())
}

/// The proposal of caller 1 is overtaken by that of caller 2.
const OVERTAKEN: &[Step] = &[
    Begins("a", (1, 1), "always add 5"),
    Begins("a", (2, 1), "always add 1"),
    Proposes("a", (1, 1), (1, 1), (0, 0)),
    Proposes("a", (2, 1), (1, 2), (0, 0)),
    Acks("a", (1, 2)),
];

/// One change after another, of which the last is not acknowledged.
const CHANGED: &[Step] = &[
    Begins("c", (1, 6), "empty num 3"),
    Proposes("c", (1, 6), (1, 1), (0, 0)),
    Begins("c", (1, 7), "version 0 num 4"),
    Proposes("c", (1, 7), (2, 1), (1, 1)),
    Begins("c", (16, 8), "below 9 add 1 ; always clear"),
    Proposes("c", (16, 8), (3, 16), (2, 1)),
    Begins("c", (2, 1), "version 9 text y\\_z"),
    Proposes("c", (2, 1), (4, 2), (3, 16)),
    Begins("c", (2, 2), "always text y\\_z"),
    Proposes("c", (2, 2), (5, 2), (4, 2)),
    Begins("c", (2, 3), "always clear"),
    Proposes("c", (2, 3), (6, 2), (5, 2)),
    Acks("c", (6, 2)),
    Begins("c", (2, 4), "always add -1"),
    Proposes("c", (2, 4), (7, 2), (6, 2)),
];

const CHANGES: &[u8] =
    b"history c 6\n1.6 empty num 3 -> v0 num 3\n1.7 version 0 num 4 -> v1 num 4\n16.8 below 9 add 1 ; always clear -> v2 num 5\n2.1 version 9 text y\\_z -> v2 num 5\n2.2 always text y\\_z -> v3 text y\\_z\n2.3 always clear -> empty\n";

/// Keys in another order than that of their bytes. Of `g` there is a floor alone, and of `e` no acknowledgment.
const KEYS: &[Step] = &[
    Opens("f", (3, 1), "v4 num 7"),
    Opens("g", (3, 1), "v4 num 7"),
    Begins("b", (1, 1), "always keep"),
    Proposes("b", (1, 1), (1, 1), (0, 0)),
    Acks("b", (1, 1)),
    Begins("aa", (1, 2), "always num 1"),
    Proposes("aa", (1, 2), (2, 1), (0, 0)),
    Acks("aa", (2, 1)),
    Begins("a", (1, 3), "always num 2"),
    Proposes("a", (1, 3), (3, 1), (0, 0)),
    Acks("a", (3, 1)),
    Begins("B", (1, 4), "always num 3"),
    Proposes("B", (1, 4), (4, 1), (0, 0)),
    Acks("B", (4, 1)),
    Begins("e", (1, 5), "always num 4"),
    Proposes("e", (1, 5), (5, 1), (0, 0)),
    Begins("f", (1, 6), "always add 1"),
    Proposes("f", (1, 6), (6, 1), (3, 1)),
    Acks("f", (6, 1)),
];

const IN_ORDER: &[u8] =
    b"history B 1\n1.4 always num 3 -> v0 num 3\nhistory a 1\n1.3 always num 2 -> v0 num 2\nhistory aa 1\n1.2 always num 1 -> v0 num 1\nhistory b 1\n1.1 always keep -> empty\nhistory f 1\n1.6 always add 1 -> v5 num 8\n";

#[test]
fn writes_each_history(rt: HostRuntime) -> Result<(), Fail> {
    let alloc = rt.alloc();
    for (steps, text) in [
        (&[] as &[Step], b"".as_slice()),
        (OVERTAKEN, b"history a 1\n2.1 always add 1 -> v0 num 1\n"),
        (CHANGED, CHANGES),
        (KEYS, IN_ORDER),
    ] {
        let mut sink = MemorySink::new(alloc, 7, Vec::new(alloc));
        writes(&rt, alloc, steps, &mut sink, Ok(()), text)?;
    }
    Ok(())
}

#[test]
fn a_sink_that_fails_has_a_front(rt: HostRuntime) -> Result<(), Fail> {
    let alloc = rt.alloc();
    for (call, front) in [
        (1, b"".as_slice()),
        (4, b"history B 1\n1.4 alway"),
        (
            9,
            b"history B 1\n1.4 always num 3 -> v0 num 3\nhistory a 1\n1.",
        ),
    ] {
        let mut sink = MemorySink::new(alloc, 7, vec![in alloc; call]?);
        writes(
            &rt,
            alloc,
            KEYS,
            &mut sink,
            Err(HistoryFault::WriteFault),
            front,
        )?;
    }
    Ok(())
}
