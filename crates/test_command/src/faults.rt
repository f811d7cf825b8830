//! Everything that can go wrong outside, once each: a source and a sink that fail at each of their calls, lines that are cut or of each
//! length at which something changes, and a disk that fails at each call of its opening.

use crate::rows::{
    CALLS_AT_OPENING, FINE, Finished, NONE_ODD, Odd, Outside, SCRIPT, VAULT_CALLS_AT_OPENING, run,
};
use cas_disk::Trouble;
use casreg_command::Status;
use std::alloc::{AllocError, Global};
use std::process::Abort;
use std::test::Fail;

const WORDS: &str = "script --acceptors 5 --proposers 2 --tries 8";

/// A session as a user has it: each line, and its answer.
const SESSION: [(&str, &str); 12] = [
    ("1 init visits 0\n", "1: done v0 num 0 at 1.1\n"),
    ("1 add visits 1\n", "1: done v1 num 1 at 2.1\n"),
    (
        "2 set motd hello%20all\n",
        "2: done v0 text hello%20all at 1.2\n",
    ),
    ("crash acceptor 5\n", "ok\n"),
    ("1 add visits 1\n", "1: done v2 num 2 at 3.1\n"),
    ("2 cas motd 0 closed\n", "2: done v1 text closed at 2.2\n"),
    ("restart acceptor 5\n", "ok\n"),
    ("1 set tmp x\n", "1: done v0 text x at 5.1\n"),
    ("1 del tmp\n", "1: done empty at 6.1\n"),
    (
        "op collect tmp\n",
        "op: collected tmp at 8.0 removed 5 kept 0\n",
    ),
    ("1 add visits 1\n", "1: done v3 num 3 at 4.1\n"),
    ("2 get motd\n", "2: done v1 text closed at 3.2\n"),
];

/// All lines of the session.
fn input(alloc: Global) -> Result<Vec<u8>, AllocError> {
    let mut bytes = Vec::new(alloc);
    for (line, _answer) in SESSION {
        bytes.extend_from_slice(line.as_bytes())?;
    }
    Ok(bytes)
}

/// The answers to the lines of the session that end within so many bytes of it.
fn answers_within(alloc: Global, bytes: usize) -> Result<Vec<u8>, AllocError> {
    let mut answers = Vec::new(alloc);
    let mut left = bytes;
    for (line, answer) in SESSION {
        if left < line.len() {
            break;
        }
        left -= line.len();
        answers.extend_from_slice(answer.as_bytes())?;
    }
    Ok(answers)
}

/// What so many calls of the sink take of the answers to the session, in pieces of that size. Each answer begins a piece.
fn taken_by(alloc: Global, piece: usize, calls: usize) -> Result<Vec<u8>, AllocError> {
    let mut taken = Vec::new(alloc);
    let mut left = calls;
    for (_line, answer) in SESSION {
        let bytes = answer.as_bytes();
        let pieces = bytes.len().div_ceil(piece.max(1));
        if left < pieces {
            let front = bytes.get(..left.saturating_mul(piece));
            taken.extend_from_slice(front.unwrap_or(bytes))?;
            break;
        }
        left -= pieces;
        taken.extend_from_slice(bytes)?;
    }
    Ok(taken)
}

/// That the run ended so, and wrote this.
fn has_ended(
    rt: &impl Abort,
    run: &Finished,
    status: Status,
    written: &[u8],
    call: u64,
) -> Result<(), Fail> {
    assert_eq!(rt; run.status, status, "at call {call}");
    assert_eq!(rt; run.written.as_slice(), written, "at call {call}");
    Ok(())
}

/// The answers to the lines that had ended by then are written. The last call of each row gives the end of the input, and one behind it is
/// never made.
#[test]
fn a_source_fails_at_each_of_its_calls(rt: HostRuntime) -> Result<(), Fail> {
    let alloc = rt.alloc();
    let input = input(alloc)?;
    for (piece, calls) in [(5usize, 39u64), (16, 13), (4096, 2)] {
        for given in 0..=calls {
            let source_fails = given.saturating_add(1);
            let outside = Outside {
                piece,
                source_fails,
                ..FINE
            };
            let run = run(&rt, WORDS, &input, outside)?;
            let told = (given as usize).saturating_mul(piece);
            let want = answers_within(alloc, told)?;
            if given < calls {
                has_ended(&rt, &run, Status::ReadFault, &want, source_fails)?;
            } else {
                has_ended(&rt, &run, Status::Ok, &want, source_fails)?;
            }
        }
    }
    Ok(())
}

/// What the sink took before is a front of the answers.
#[test]
fn a_sink_fails_at_each_of_its_calls(rt: HostRuntime) -> Result<(), Fail> {
    let alloc = rt.alloc();
    let input = input(alloc)?;
    for (piece, calls) in [(5usize, 60u64), (16, 24), (4096, 12)] {
        for taken in 0..=calls {
            let sink_fails = taken.saturating_add(1);
            let outside = Outside {
                piece,
                sink_fails,
                ..FINE
            };
            let run = run(&rt, WORDS, &input, outside)?;
            let want = taken_by(alloc, piece, taken as usize)?;
            if taken < calls {
                has_ended(&rt, &run, Status::WriteFault, &want, sink_fails)?;
            } else {
                has_ended(&rt, &run, Status::Ok, &want, sink_fails)?;
            }
        }
    }
    Ok(())
}

/// A whole input and one that comes byte by byte are answered alike.
#[test]
fn pieces_of_one_byte_are_answered_as_a_whole(rt: HostRuntime) -> Result<(), Fail> {
    let alloc = rt.alloc();
    let input = input(alloc)?;
    let want = answers_within(alloc, input.len())?;
    for piece in [1, 4096] {
        let run = run(&rt, WORDS, &input, Outside { piece, ..FINE })?;
        has_ended(&rt, &run, Status::Ok, &want, 0)?;
    }
    Ok(())
}

/// A text that ends with the input before its escape does is no text.
#[test]
fn a_line_that_is_cut_within_an_escape_is_bad(rt: HostRuntime) -> Result<(), Fail> {
    for line in [
        "1 set a %",
        "1 set a %4",
        "1 set a x%20%",
        "1 cas a 0 %e",
        "1 do a is %",
        "1 do a is %2",
        "1 do a always text %6",
        "1 do a empty keep ; always text %",
    ] {
        for piece in [1, 4096] {
            let run = run(&rt, SCRIPT, line.as_bytes(), Outside { piece, ..FINE })?;
            assert_eq!(rt; run.status, Status::Ok, "{line}");
            assert_eq!(rt;
                run.written.as_slice(),
                b"bad 1 unknown word\n".as_slice(),
                "{line}"
            );
        }
    }
    Ok(())
}

/// The line, with as many blanks behind it as make it that long, and then its end.
fn padded(alloc: Global, line: &str, length: usize, end: &str) -> Result<Vec<u8>, AllocError> {
    let mut bytes = line.as_bytes().to_vec(alloc)?;
    bytes.resize(length, b' ')?;
    bytes.extend_from_slice(end.as_bytes())?;
    Ok(bytes)
}

/// A line that a newline ends and one that the input ends, in pieces that end within it.
#[test]
fn lines_of_each_length_have_their_answers(rt: HostRuntime) -> Result<(), Fail> {
    let done = "1: done v0 num 5 at 1.1\n";
    let bad = "bad 1 too long\n";
    for (length, status, written) in [
        (4_095, Status::Ok, done),
        (4_096, Status::Ok, done),
        (4_097, Status::Ok, done),
        (16_384, Status::Ok, done),
        (16_385, Status::Ok, bad),
        (65_536, Status::Ok, bad),
        (65_537, Status::Endless { line: 1 }, ""),
    ] {
        for end in ["", "\n"] {
            for piece in [7, 4096, 65_536] {
                let input = padded(rt.alloc(), "1 add a 5", length, end)?;
                let run = run(&rt, SCRIPT, &input, Outside { piece, ..FINE })?;
                assert_eq!(rt; run.status, status, "{length} by {piece}");
                assert_eq!(rt;
                    run.written.as_slice(),
                    written.as_bytes(),
                    "{length} by {piece}"
                );
            }
        }
    }
    Ok(())
}

/// A disk that fails or stops at that call.
fn odd(number: u8, call: u64, trouble: Trouble) -> Odd<'static> {
    Odd {
        number,
        call,
        trouble,
        ..NONE_ODD
    }
}

/// The disk of acceptor 2 has number 2, and that of the vault of proposer 1 number 65. Nothing is read or written.
#[test]
fn a_disk_that_fails_as_it_is_opened_is_told(rt: HostRuntime) -> Result<(), Fail> {
    let input = input(rt.alloc())?;
    for trouble in [Trouble::Fail, Trouble::Stop] {
        for call in 1..=CALLS_AT_OPENING {
            let outside = Outside {
                odd: odd(2, call, trouble),
                ..FINE
            };
            let run = run(&rt, WORDS, &input, outside)?;
            has_ended(&rt, &run, Status::DiskFault { disk: 2 }, b"", call)?;
        }
        for call in 1..=VAULT_CALLS_AT_OPENING {
            let outside = Outside {
                odd_vault: odd(1, call, trouble),
                ..FINE
            };
            let run = run(&rt, WORDS, &input, outside)?;
            has_ended(&rt, &run, Status::DiskFault { disk: 65 }, b"", call)?;
        }
    }
    Ok(())
}
