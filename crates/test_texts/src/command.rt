//! Lines with the commands that they are read as, and with their refusals.

use cas_change_text::{TextRefusal, Why, print_program};
use cas_lines::command::{Command, read_command};
use std::alloc::{AllocError, Global};
use std::test::Fail;

/// Each line with the refusal that it gets where there are two proposers, and `None` where it is read.
#[test]
fn refuses_at_the_first_word(rt: HostRuntime) {
    for (line, want) in [
        (b"".as_slice(), None),
        (b" \t", None),
        (b"#", None),
        (b"  # 1 set a %4", None),
        (b"#1 get a", None),
        (b"1 get a", None),
        (b"\t01  get\ta ", None),
        (b"2 do a empty num 10 ; below 12 add 1", None),
        (b"get a", Some((Why::UnknownWord, 0))),
        (b"-1 get a", Some((Why::UnknownWord, 0))),
        (b"0 get a", Some((Why::BadNumber, 0))),
        (b"3 get a", Some((Why::BadNumber, 0))),
        (b"1x get a", Some((Why::BadNumber, 0))),
        (b"000000000000000000001 get a", Some((Why::BadNumber, 0))),
        (b"1", Some((Why::NoWord, 1))),
        (b"1 ad a 1", Some((Why::UnknownWord, 1))),
        (b"1 GET a", Some((Why::UnknownWord, 1))),
        (b"1 get", Some((Why::NoWord, 2))),
        (b"1 get caf\xC3\xA9", Some((Why::UnknownWord, 2))),
        (b"1 get a b", Some((Why::UnknownWord, 3))),
        (b"1 get a #", Some((Why::UnknownWord, 3))),
        (b"1 add a", Some((Why::NoWord, 3))),
        (b"1 add a x", Some((Why::BadNumber, 3))),
        (b"1 add a 9223372036854775808", Some((Why::BadNumber, 3))),
        (b"1 add a 1 1", Some((Why::UnknownWord, 4))),
        (b"1 set a %4", Some((Why::UnknownWord, 3))),
        (b"1 set a %zz", Some((Why::UnknownWord, 3))),
        (b"1 cas a 0", Some((Why::NoWord, 4))),
        (b"1 cas a -1 x", Some((Why::BadNumber, 3))),
        (b"1 casnum a 0 x", Some((Why::BadNumber, 4))),
        (b"1 delv a", Some((Why::NoWord, 3))),
        (b"1 del a 0", Some((Why::UnknownWord, 3))),
        (b"1 do a", Some((Why::NoWord, 3))),
        (b"1 do a always", Some((Why::NoWord, 4))),
        (b"1 do a always keep ;", Some((Why::NoWord, 6))),
        (b"1 do a always keep keep", Some((Why::UnknownWord, 5))),
    ] {
        match read_command(rt.alloc(), line, 2) {
            Ok(_) => assert_eq!(rt; None, want, "at {line:?}"),
            Err(refusal) => assert_eq!(rt; Some((refusal.why, refusal.word)), want, "at {line:?}"),
        }
    }
}

#[test]
fn gives_each_form_its_program(rt: HostRuntime) -> Result<(), Fail> {
    for (line, want) in [
        (b"1 get k".as_slice(), b"always keep".as_slice()),
        (b"1 set k %-", b"always text %-"),
        (b"1 num k -7", b"always num -7"),
        (b"1 init k 0", b"empty num 0"),
        (b"1 add k 007", b"always add 7"),
        (b"1 cas k 3 %e2%82%ac", b"version 3 text %E2%82%AC"),
        (b"1 casnum k 0 1", b"version 0 num 1"),
        (b"1 del k", b"always clear"),
        (
            b"1 delv k 18446744073709551615",
            b"version 18446744073709551615 clear",
        ),
        (
            b"1 do k is a text b ; always clear",
            b"is a text b ; always clear",
        ),
    ] {
        match read_command(rt.alloc(), line, 1) {
            Ok(Some(command)) => {
                let Some(change) = command.change(rt.alloc())? else {
                    panic!(rt; "an event: {line:?}");
                };
                assert_eq!(rt; change.caller, 1, "at {line:?}");
                assert_eq!(rt; change.key.bytes(), b"k".as_slice(), "at {line:?}");
                let printed = print_program(rt.alloc(), &change.program)?;
                assert_eq!(rt; printed.as_slice(), want, "at {line:?}");
            }
            Ok(None) => panic!(rt; "a remark: {line:?}"),
            Err(refusal) => panic!(rt; "{refusal:?} at {line:?}"),
        }
    }
    Ok(())
}

/// A command as text, with the bytes of its key.
fn said(alloc: Global, command: &Command) -> Result<String, AllocError> {
    match command {
        Command::Show { id, key } => format!(in alloc; "Show {id:?} {:?}", key.bytes()),
        Command::Probe { key } => format!(in alloc; "Probe {:?}", key.bytes()),
        Command::Collect { key } => format!(in alloc; "Collect {:?}", key.bytes()),
        other => format!(in alloc; "{other:?}"),
    }
}

/// What a line says where there are two proposers, or its reason and word.
fn told(alloc: Global, line: &[u8]) -> Result<String, AllocError> {
    match read_command(alloc, line, 2) {
        Ok(Some(command)) => said(alloc, &command),
        Ok(None) => String::from_str(alloc, "a remark"),
        Err(refusal) => {
            let TextRefusal { why, word } = refusal;
            format!(in alloc; "{why:?} {word}")
        }
    }
}

#[test]
fn reads_events(rt: HostRuntime) -> Result<(), Fail> {
    for (line, want) in [
        (
            b"net all * lose".as_slice(),
            "Net { leg: None, who: None, verdict: Lose }",
        ),
        (
            b" net\tprepare 063 deliver ",
            "Net { leg: Some(Prepare), who: Some(AcceptorId { number: 63 }), verdict: Deliver }",
        ),
        (
            b"net reply 0 late",
            "Net { leg: Some(Reply), who: Some(AcceptorId { number: 0 }), verdict: Late }",
        ),
        (
            b"crash acceptor 63",
            "CrashAcceptor { id: AcceptorId { number: 63 } }",
        ),
        (
            b"restart acceptor 1",
            "RestartAcceptor { id: AcceptorId { number: 1 } }",
        ),
        (b"crash proposer 2", "CrashProposer { proposer: 2 }"),
        (b"restart proposer 0", "RestartProposer { proposer: 0 }"),
        (b"halt 0 after-prepare", "HaltPrepared { proposer: 0 }"),
        (b"halt 2 after-propose", "HaltProposed { proposer: 2 }"),
        (
            b"stray 18446744073709551615",
            "Stray { index: 18446744073709551615 }",
        ),
        (b"show 3 a", "Show AcceptorId { number: 3 } [97]"),
        (b"net", "NoWord 1"),
        (b"net foo * lose", "UnknownWord 1"),
        (b"net accept x lose", "BadNumber 2"),
        (b"net accept 64 lose", "BadNumber 2"),
        (b"net accept 1 hold", "UnknownWord 3"),
        (b"net accept 1 lose late", "UnknownWord 4"),
        (b"crash 1", "UnknownWord 1"),
        (b"crash acceptor 64", "BadNumber 2"),
        (b"restart proposer 3", "BadNumber 2"),
        (b"restart acceptor", "NoWord 2"),
        (b"halt 3 after-prepare", "BadNumber 1"),
        (b"halt 1 after-lunch", "UnknownWord 2"),
        (b"stray", "NoWord 1"),
        (b"stray -1", "BadNumber 1"),
        (b"stray 18446744073709551616", "BadNumber 1"),
        (b"show a 3", "BadNumber 1"),
        (b"show 3 a b", "UnknownWord 3"),
    ] {
        let said = told(rt.alloc(), line)?;
        assert_eq!(rt; said.as_str(), want, "at {line:?}");
    }
    Ok(())
}

#[test]
fn reads_operator_lines(rt: HostRuntime) -> Result<(), Fail> {
    for (line, want) in [
        (b"op probe a".as_slice(), "Probe [97]"),
        (b" op\tprobe  op ", "Probe [111, 112]"),
        (b"op", "NoWord 1"),
        (b"op xyz", "UnknownWord 1"),
        (b"op join 063", "Join { id: AcceptorId { number: 63 } }"),
        (b"op leave 0", "Leave { id: AcceptorId { number: 0 } }"),
        (b"op joins 4", "UnknownWord 1"),
        (b"op join", "NoWord 2"),
        (b"op join 64", "BadNumber 2"),
        (b"op join a 4", "BadNumber 2"),
        (b"op leave -1", "BadNumber 2"),
        (b"op leave 4 4", "UnknownWord 3"),
        (b"op collect a", "Collect [97]"),
        (b"op collect", "NoWord 2"),
        (b"op collect caf\xC3\xA9", "UnknownWord 2"),
        (b"op collect a b", "UnknownWord 3"),
        (b"op Collect a", "UnknownWord 1"),
        (b"op collects a", "UnknownWord 1"),
        (b"op Probe a", "UnknownWord 1"),
        (b"op probe", "NoWord 2"),
        (b"op probe caf\xC3\xA9", "UnknownWord 2"),
        (b"op probe a b", "UnknownWord 3"),
        (b"probe a", "UnknownWord 0"),
        (b"1 op probe a", "UnknownWord 1"),
    ] {
        let said = told(rt.alloc(), line)?;
        assert_eq!(rt; said.as_str(), want, "at {line:?}");
    }
    Ok(())
}

/// A line with one word or blank many times.
fn line_of(
    alloc: Global,
    front: &[u8],
    byte: u8,
    count: usize,
    back: &[u8],
) -> Result<Vec<u8>, AllocError> {
    let mut line = front.to_vec(alloc)?;
    for _byte in 0..count {
        line.push(byte)?;
    }
    line.extend_from_slice(back)?;
    Ok(line)
}

#[test]
fn keeps_to_the_limits(rt: HostRuntime) -> Result<(), Fail> {
    for (front, byte, count, back, want) in [
        (b"1 get ".as_slice(), b'k', 64, b"".as_slice(), None),
        (b"1 get ", b'k', 65, b"", Some((Why::TooLong, 2))),
        (b"1 get ", 0xE2, 65, b"", Some((Why::TooLong, 2))),
        (b"op probe ", b'k', 64, b"", None),
        (b"op probe ", b'k', 65, b"", Some((Why::TooLong, 2))),
        (b"op collect ", b'k', 64, b"", None),
        (b"op collect ", b'k', 65, b"", Some((Why::TooLong, 2))),
        (b"1 set a ", b't', 4_000, b"", None),
        (b"1 set a ", b't', 4_001, b"", Some((Why::TooLong, 3))),
        (b"1 get a", b' ', 16_377, b"", None),
        (b"1 get a", b' ', 16_378, b"", Some((Why::TooLong, 0))),
        (b"1 got ", b' ', 16_378, b"a", Some((Why::TooLong, 0))),
        (b"#", b' ', 16_384, b"", Some((Why::TooLong, 0))),
    ] {
        let line = line_of(rt.alloc(), front, byte, count, back)?;
        match read_command(rt.alloc(), &line, 1) {
            Ok(_) => assert_eq!(rt; None, want, "{front:?} and {count}"),
            Err(refusal) => assert_eq!(rt;
                Some((refusal.why, refusal.word)),
                want,
                "{front:?} and {count}"
            ),
        }
    }
    Ok(())
}
