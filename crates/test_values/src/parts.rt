//! The parts of frames and records, and their bytes.

ghost use Rattle.cas_ballot.specs.Ballot.{FitsBallot};

use crate::value::Holds;
use cas_ballot::Ballot;
use cas_change::{Key, State};
use cas_slot::Accepted;
use cas_wire::parts::{
    Part, push_accepted, push_ballot, push_key, take_accepted, take_ballot, take_key,
};
use std::alloc::{AllocError, Global};
use std::test::Fail;

const BALLOT: Ballot = Ballot {
    counter: 0x0001_0000_0000_0000,
    proposer: 16,
};

fn accepted(state: State) -> Accepted
    ensures { FitsBallot result.ballot }
{
    Accepted {
        ballot: Ballot {
            counter: 1,
            proposer: 1,
        },
        era: 0x0102_0304,
        state,
    }
}

// Whether the key is spelled so, and read from that.
fn is_key(alloc: Global, key: Key, want: &[u8]) -> Result<bool, AllocError> {
    let mut out = Vec::new(alloc);
    push_key(&mut out, &key)?;
    let used = want.len();
    let found = take_key(alloc, &out)?;
    Ok(out.as_slice() == want && found == Part::Read { value: key, used })
}

// Whether the greatest ballot is spelled so, and read from that.
fn is_ballot(alloc: Global, want: &[u8]) -> Result<bool, AllocError> {
    let mut out = Vec::new(alloc);
    push_ballot(&mut out, BALLOT)?;
    let used = want.len();
    let value = BALLOT;
    Ok(out.as_slice() == want && take_ballot(&out) == Part::Read { value, used })
}

#[test]
fn a_key_and_a_ballot_have_their_spellings(rt: HostRuntime) -> Result<(), Fail> {
    let alloc = rt.alloc();
    let key = is_key(alloc, Key::read(alloc, b"a")?, &[1, 0x61])?;
    let ballot = is_ballot(alloc, &[0, 1, 0, 0, 0, 0, 0, 0, 16])?;
    assert_eq!(rt; (key, ballot), (true, true));
    Ok(())
}

// The front of what was accepted in the rows below.
const FRONT: [u8; 14] = [1, 0, 0, 0, 0, 0, 0, 0, 1, 1, 1, 2, 3, 4];

// Whether what was accepted is spelled so behind the front, and read from that. Bytes behind it do not count.
fn is_accepted(alloc: Global, state: State, want: &[u8]) -> Result<bool, AllocError> {
    let mut out = Vec::new(alloc);
    let value = accepted(state);
    push_accepted(&mut out, Some(&value))?;
    let used = out.len();
    let spelled = out.starts_with(&FRONT) && out.get(14..) == Some(want);
    out.push(7)?;
    let value = Some(value);
    Ok(spelled && take_accepted(alloc, &out)? == Part::Read { value, used })
}

const ACCEPTED: [(Holds, &[u8]); 3] = [
    (Holds::Nothing, &[0]),
    (
        Holds::Number(258, -1),
        &[
            1, 0, 0, 0, 0, 0, 0, 1, 2, 255, 255, 255, 255, 255, 255, 255, 255,
        ],
    ),
    (
        Holds::Text(0, b"hi"),
        &[2, 0, 0, 0, 0, 0, 0, 0, 0, 0, 2, 104, 105],
    ),
];

#[test]
fn what_was_accepted_has_its_spelling(rt: HostRuntime) -> Result<(), Fail> {
    let mut out = Vec::new(rt.alloc());
    push_accepted(&mut out, None)?;
    assert_eq!(rt; out.as_slice(), [0].as_slice());
    for (held, want) in ACCEPTED {
        let state = held.state(rt.alloc())?;
        assert!(rt; is_accepted(rt.alloc(), state, want)?, "{held:?}");
    }
    Ok(())
}

// Bytes, and the place of the first that is wrong in a key, and in a ballot.
const KEYS: [(&[u8], usize); 8] = [
    (&[], 0),
    (&[0, 97], 0),
    (&[65, 97], 0),
    (&[1], 1),
    (&[2, 97], 2),
    (&[2, 97, 32], 2),
    (&[3, 127, 97, 32], 1),
    (&[3, 97, 200], 2),
];

const BALLOTS: [(&[u8], usize); 8] = [
    (&[], 0),
    (&[1, 0, 0, 0, 0, 0, 0, 0, 1], 0),
    (&[0, 2, 0, 0, 0, 0, 0, 0, 1], 1),
    (&[0, 1, 0, 0, 0, 0, 0, 1, 1], 7),
    (&[0, 1, 0, 9], 3),
    (&[0, 0, 255, 255, 255, 255, 255, 255, 17], 8),
    (&[0, 0, 255, 255, 255, 255, 255, 255], 8),
    (&[0, 0, 255], 3),
];

#[test]
fn the_first_wrong_byte_of_a_key_or_a_ballot_is_told(rt: HostRuntime) -> Result<(), Fail> {
    for (bytes, at) in KEYS {
        let found = take_key(rt.alloc(), bytes)? == Part::Wrong { at };
        assert!(rt; found, "{bytes:?}");
    }
    for (bytes, at) in BALLOTS {
        assert!(rt; take_ballot(bytes) == Part::Wrong { at }, "{bytes:?}");
    }
    Ok(())
}

// Whether this is the place of the first byte that is wrong in these bytes and those behind them.
fn wrong_at(alloc: Global, front: &[u8], behind: &[u8], at: usize) -> Result<bool, AllocError> {
    let mut bytes = front.to_vec(alloc)?;
    bytes.extend_from_slice(behind)?;
    Ok(take_accepted(alloc, &bytes)? == Part::Wrong { at })
}

const WRONG: [(&[u8], &[u8], usize); 10] = [
    (&FRONT, &[], 14),
    (&FRONT, &[3], 14),
    (&FRONT, &[1, 0, 0], 17),
    (&FRONT, &[2, 0, 0, 0, 0, 0, 0, 0, 0, 16, 0], 23),
    (&FRONT, &[2, 0, 0, 0, 0, 0, 0, 0, 0, 15, 161], 24),
    (&FRONT, &[2, 0, 0, 0, 0, 0, 0, 0, 0, 0, 2, 104], 26),
    (&FRONT, &[2, 0, 0, 0, 0, 0, 0, 0, 0, 0], 24),
    (&[], &[2], 0),
    (&[], &[1], 1),
    (&[], &[1, 0, 3], 2),
];

#[test]
fn the_first_wrong_byte_of_what_was_accepted_is_told(rt: HostRuntime) -> Result<(), Fail> {
    for (front, behind, at) in WRONG {
        assert!(rt; wrong_at(rt.alloc(), front, behind, at)?, "{behind:?}");
    }
    Ok(())
}
