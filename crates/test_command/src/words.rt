//! The words of the command line.

use cas_ballot::{AcceptorId, Members};
use casreg_command::{LoadOptions, Options, Request, read_words};
use casreg_script::Load;
use std::test::Fail;

/// A script with these options is asked for.
fn runs(acceptors: u8, proposers: u8, tries: u8) -> Option<Request> {
    Some(Request::Script(Options {
        acceptors,
        proposers,
        tries,
        marks: false,
    }))
}

/// A race with these options is asked for.
fn races(acceptors: u8, proposers: u8, tries: u8, marks: bool) -> Option<Request> {
    Some(Request::Race(Options {
        acceptors,
        proposers,
        tries,
        marks,
    }))
}

/// A load with these options is asked for.
fn loads(acceptors: u8, proposers: u8, tries: u8, seed: u64, lines: u32) -> Option<Request> {
    loads_with_marks(acceptors, proposers, tries, seed, lines, false)
}

/// A load with these options is asked for, and its record or not.
fn loads_with_marks(
    acceptors: u8,
    proposers: u8,
    tries: u8,
    seed: u64,
    lines: u32,
    marks: bool,
) -> Option<Request> {
    let mut members = Members::new();
    for number in 1..=acceptors {
        if let Some(id) = AcceptorId::new(number) {
            members.insert(id);
        }
    }
    let load = Load {
        members,
        proposers,
        tries,
        seed,
        lines,
    };
    Some(Request::Load(LoadOptions { load, marks }))
}

#[test]
fn knows_the_words(rt: HostRuntime) -> Result<(), Fail> {
    for (line, want) in [
        ("script", runs(3, 1, 1)),
        ("script --acceptors 3 --proposers 1", runs(3, 1, 1)),
        ("script --tries 64 --acceptors=9", runs(9, 1, 64)),
        ("script --proposers=16 --acceptors=1", runs(1, 16, 1)),
        ("script --acceptors 03 --", runs(3, 1, 1)),
        ("script --acceptors +4", runs(4, 1, 1)),
        ("script --acceptors 10", None),
        ("script --acceptors 0", None),
        ("script --proposers 17", None),
        ("script --tries 65", None),
        ("script --tries -1", None),
        ("script --acceptors 3 --acceptors 3", None),
        ("script --acceptors", None),
        ("script --seed 1", None),
        ("script 3", None),
        ("script --help", None),
        ("--acceptors 3 script", None),
        ("load", loads(3, 1, 1, 1, 1000)),
        ("load --lines 0 --seed=0", loads(3, 1, 1, 0, 0)),
        (
            "load --seed 18446744073709551615 --lines=100000",
            loads(3, 1, 1, u64::MAX, 100_000),
        ),
        (
            "load --tries 8 --acceptors 5 --proposers 4",
            loads(5, 4, 8, 1, 1000),
        ),
        ("load --lines 100001", None),
        ("load --seed 18446744073709551616", None),
        ("load --seed -1", None),
        ("load --seed 1 --seed 1", None),
        ("load 3", None),
        ("load script", None),
        ("race", races(3, 1, 1, false)),
        (
            "race --tries 64 --acceptors=9 --proposers 16",
            races(9, 16, 64, false),
        ),
        ("race --marks yes", races(3, 1, 1, true)),
        ("race --marks=no --tries 2", races(3, 1, 2, false)),
        ("script --marks no", runs(3, 1, 1)),
        ("script --marks Yes", None),
        ("script --marks", None),
        ("script --marks yes --marks yes", None),
        ("load --marks yes", loads_with_marks(3, 1, 1, 1, 1000, true)),
        (
            "load --marks=yes --seed 2 --tries 3 --lines 4 --proposers 5",
            loads_with_marks(3, 5, 3, 2, 4, true),
        ),
        ("load --lines 2 --marks no", loads(3, 1, 1, 1, 2)),
        ("load --marks maybe", None),
        ("load --marks", None),
        ("load --marks no --marks yes", None),
        ("audit --marks yes", None),
        ("audit", Some(Request::Audit)),
        ("audit --", Some(Request::Audit)),
        ("audit --tries 1", None),
        ("audit x", None),
        ("race --proposers 17", None),
        ("race --tries 8 --tries 8", None),
        ("race --seed 1", None),
        ("race script", None),
        ("races", None),
        ("help", None),
        ("", None),
    ] {
        let mut words = Vec::new(rt.alloc());
        for word in line.split_whitespace() {
            words.push(String::from_str(rt.alloc(), word)?)?;
        }
        let read = read_words(rt.alloc(), &words)?;
        assert_eq!(rt; read, want, "at {line}");
    }
    Ok(())
}
