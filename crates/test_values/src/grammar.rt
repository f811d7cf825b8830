//! Programs and states as text.

use crate::value::{Does, Holds, When, program_of};
use cas_change::{Program, State};
use cas_change_text::{Why, print_program, print_state, read_program, read_state};
use std::alloc::{AllocError, Global};
use std::test::Fail;

/// What a refusal of a text is, and `None` where it is read.
fn refusal_of(alloc: Global, text: &[u8]) -> Option<(Why, usize)> {
    match read_program(alloc, text) {
        Ok(_) => None,
        Err(refusal) => Some((refusal.why, refusal.word)),
    }
}

/// A text, and why it is refused at which word, or nothing where it is read.
const TEXTS: [(&[u8], Option<(Why, usize)>); 25] = [
    (b"always keep", None),
    (b" \talways  \t keep ", None),
    (b"empty num 10 ; below 12 add 1", None),
    (b"", Some((Why::NoWord, 0))),
    (b"  ", Some((Why::NoWord, 0))),
    (b"always", Some((Why::NoWord, 1))),
    (b"below", Some((Why::NoWord, 1))),
    (b"always add", Some((Why::NoWord, 2))),
    (b"always keep ;", Some((Why::NoWord, 3))),
    (b"never keep", Some((Why::UnknownWord, 0))),
    (b"Always keep", Some((Why::UnknownWord, 0))),
    (b"always stay", Some((Why::UnknownWord, 1))),
    (b"always keep always", Some((Why::UnknownWord, 2))),
    (b"always keep ;;", Some((Why::UnknownWord, 2))),
    (b"always keep\r", Some((Why::UnknownWord, 1))),
    (b"version -1 keep", Some((Why::BadNumber, 1))),
    (b"version 18446744073709551615 keep", None),
    (
        b"version 18446744073709551616 keep",
        Some((Why::BadNumber, 1)),
    ),
    (b"below 9223372036854775808 keep", Some((Why::BadNumber, 1))),
    (b"always num x bad", Some((Why::BadNumber, 2))),
    (b"is %4 keep", Some((Why::UnknownWord, 1))),
    (b"is %zz keep", Some((Why::UnknownWord, 1))),
    (b"is caf\xC3\xA9 keep", Some((Why::UnknownWord, 1))),
    (b"is %-% keep", Some((Why::UnknownWord, 1))),
    (b"always text %- ; is %41 text %c3%A9", None),
];

#[test]
fn refuses_at_the_first_word(rt: HostRuntime) {
    for (text, want) in TEXTS {
        assert_eq!(rt; refusal_of(rt.alloc(), text), want, "at {text:?}");
    }
}

/// A text of so many clauses.
fn clauses(alloc: Global, count: u32) -> Result<Vec<u8>, AllocError> {
    let mut text = Vec::new(alloc);
    for number in 0..count {
        if number > 0 {
            text.extend_from_slice(b" ; ")?;
        }
        text.extend_from_slice(b"empty keep")?;
    }
    Ok(text)
}

#[test]
fn counts_clauses(rt: HostRuntime) -> Result<(), Fail> {
    for (count, want) in [
        (8, None),
        (9, Some((Why::TooManyClauses, 24))),
        (10, Some((Why::TooManyClauses, 24))),
    ] {
        let text = clauses(rt.alloc(), count)?;
        assert_eq!(rt; refusal_of(rt.alloc(), &text), want, "{count} clauses");
    }
    let eight =
        b"empty keep ; empty keep ; empty keep ; empty keep ; empty keep ; empty keep ; empty keep ; empty keep ;";
    assert_eq!(rt; refusal_of(rt.alloc(), eight), Some((Why::NoWord, 24)));
    Ok(())
}

/// A program that asks for a text of so many escapes and letters.
fn asks_for(alloc: Global, escapes: u32, letters: u32) -> Result<Vec<u8>, AllocError> {
    let mut text = b"is ".to_vec(alloc)?;
    for _escape in 0..escapes {
        text.extend_from_slice(b"%7f")?;
    }
    for _letter in 0..letters {
        text.push(b't')?;
    }
    text.extend_from_slice(b" keep")?;
    Ok(text)
}

#[test]
fn limits_texts(rt: HostRuntime) -> Result<(), Fail> {
    for (escapes, letters, want) in [
        (0, 4_000, None),
        (4_000, 0, None),
        (0, 4_001, Some((Why::TooLong, 1))),
        (2_001, 2_000, Some((Why::TooLong, 1))),
    ] {
        let text = asks_for(rt.alloc(), escapes, letters)?;
        let found = refusal_of(rt.alloc(), &text);
        assert_eq!(rt; found, want, "{escapes} and {letters}");
    }
    Ok(())
}

/// Whether the program has this text, and is read from it.
fn is_program(alloc: Global, program: &Program, want: &[u8]) -> Result<bool, AllocError> {
    let printed = print_program(alloc, program)?;
    let again = match read_program(alloc, &printed) {
        Ok(again) => again == *program,
        Err(_) => false,
    };
    Ok(again && printed.as_slice() == want)
}

/// Clauses, and their text.
const PROGRAMS: [(&[(When, Does)], &[u8]); 6] = [
    (&[(When::Always, Does::Keeps)], b"always keep"),
    (&[(When::IsEmpty, Does::PutsNumber(-5))], b"empty num -5"),
    (
        &[(When::VersionIs(u64::MAX), Does::Clears)],
        b"version 18446744073709551615 clear",
    ),
    (
        &[(When::NumberBelow(i64::MIN), Does::Adds(7))],
        b"below -9223372036854775808 add 7",
    ),
    (
        &[(When::TextIs(b""), Does::PutsText(b"a b%\xE2\x7F"))],
        b"is %- text a%20b%25%E2%7F",
    ),
    (
        &[
            (When::IsEmpty, Does::PutsNumber(10)),
            (When::NumberBelow(12), Does::Adds(0)),
        ],
        b"empty num 10 ; below 12 add 0",
    ),
];

#[test]
fn prints_programs(rt: HostRuntime) -> Result<(), Fail> {
    for (clauses, want) in PROGRAMS {
        let program = program_of(rt.alloc(), clauses)?;
        assert!(rt; is_program(rt.alloc(), &program, want)?, "{want:?}");
    }
    Ok(())
}

/// Whether the text is read as a program that is printed so.
fn is_printed(alloc: Global, text: &[u8], want: &[u8]) -> Result<bool, AllocError> {
    match read_program(alloc, text) {
        Ok(program) => is_program(alloc, &program, want),
        Err(_) => Ok(false),
    }
}

#[test]
fn joins_clauses(rt: HostRuntime) -> Result<(), Fail> {
    let alloc = rt.alloc();
    // A semicolon is a word of its own.
    let joined = refusal_of(alloc, b"empty  num 010;");
    assert_eq!(rt; joined, Some((Why::BadNumber, 2)));
    let text = b"empty  num 010 ;\tbelow 12 add -0";
    let want = b"empty num 10 ; below 12 add 0";
    assert!(rt; is_printed(alloc, text, want)?);
    Ok(())
}

/// Whether the state has this text, and is read from it.
fn is_state(alloc: Global, state: &State, want: &[u8]) -> Result<bool, AllocError> {
    let printed = print_state(alloc, state)?;
    let again = match read_state(alloc, &printed) {
        Ok(again) => again == *state,
        Err(_) => false,
    };
    Ok(again && printed.as_slice() == want)
}

/// States, and their text.
const STATES: [(Holds, &[u8]); 3] = [
    (Holds::Nothing, b"empty"),
    (Holds::Number(0, -1), b"v0 num -1"),
    (Holds::Text(12, b"hello all"), b"v12 text hello%20all"),
];

/// Texts of no state, and why each is refused at which word.
const NO_STATES: [(&[u8], Why, usize); 11] = [
    (b"", Why::NoWord, 0),
    (b"empty v0", Why::UnknownWord, 1),
    (b"held", Why::UnknownWord, 0),
    (b"0 num 1", Why::UnknownWord, 0),
    (b"v num 1", Why::BadNumber, 0),
    (b"v-1 num 1", Why::BadNumber, 0),
    (b"v0", Why::NoWord, 1),
    (b"v0 number 1", Why::UnknownWord, 1),
    (b"v0 num", Why::NoWord, 2),
    (b"v0 num one", Why::BadNumber, 2),
    (b"v0 num 1 2", Why::UnknownWord, 3),
];

/// What a refusal of a state's text is, and `None` where it is read.
fn refusal_of_state(alloc: Global, text: &[u8]) -> Option<(Why, usize)> {
    match read_state(alloc, text) {
        Ok(_) => None,
        Err(refusal) => Some((refusal.why, refusal.word)),
    }
}

#[test]
fn reads_and_prints_states(rt: HostRuntime) -> Result<(), Fail> {
    for (held, want) in STATES {
        let state = held.state(rt.alloc())?;
        assert!(rt; is_state(rt.alloc(), &state, want)?, "{held:?}");
    }
    for (text, why, word) in NO_STATES {
        let found = refusal_of_state(rt.alloc(), text);
        assert_eq!(rt; found, Some((why, word)), "at {text:?}");
    }
    Ok(())
}
