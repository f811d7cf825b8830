//! Records behind all other output, and audits of them.

use crate::rows::{FINE, NONE_ODD, Odd, Outside, SCRIPT, run, with_letters};
use casreg_command::Status;
use std::test::Fail;

/// The answer to `1 add a 5`, and the record of that.
const MARKED: &str = "1: done v0 num 5 at 1.1
record 7
begun 1.1 a always add 5
proposed 1.1 a 1.1 read 0.0 era 0 by 1,2,3
voted 1 a 1.1
voted 2 a 1.1
voted 3 a 1.1
acked a 1.1 era 0 by 1,2,3
ended 1.1 1 done v0 num 5 at 1.1 clause 0
";

/// How long the answer is.
const ANSWER: usize = 24;

/// A load of two lines, of two callers, whose record is written.
const LOAD: &str = "load --lines 2 --seed 7 --proposers 2 --marks yes";

/// The summary of that, and its record, in which two frames are lost or late.
const LOADED: &str = "load lines 2 done 2 conflict 0 unsettled 0 other 0
record 15
begun 2.1 k30 always keep
proposed 2.1 k30 1.2 read 0.0 era 0 by 1,2,3
voted 1 k30 1.2
voted 2 k30 1.2
voted 3 k30 1.2
harmed 2.1 fate
acked k30 1.2 era 0 by 1,2
ended 2.1 1 done empty at 1.2 clause 0
begun 1.1 k28 always add 1
proposed 1.1 k28 1.1 read 0.0 era 0 by 1,2,3
harmed 1.1 fate
voted 2 k28 1.1
voted 3 k28 1.1
acked k28 1.1 era 0 by 2,3
ended 1.1 1 done v0 num 1 at 1.1 clause 0
";

/// How long the summary is.
const SUMMARY: usize = 51;

#[test]
fn the_record_stands_behind_all_else(rt: HostRuntime) -> Result<(), Fail> {
    for (words, input, written) in [
        ("script --marks yes", "1 add a 5\n", MARKED),
        (
            "script --marks no",
            "1 add a 5\n",
            "1: done v0 num 5 at 1.1\n",
        ),
        ("script --marks yes", "", "record 0\n"),
        ("race --marks yes", "", "record 0\n"),
        (
            "race --marks yes",
            "show 1 a\n",
            "bad 1 unknown word\nrecord 0\n",
        ),
        (LOAD, "1 add a 5\n", LOADED),
        (
            "load --lines 2 --seed 7 --proposers 2 --marks no",
            "",
            &LOADED[..SUMMARY],
        ),
        (
            "load --lines 0 --marks yes",
            "",
            "load lines 0 done 0 conflict 0 unsettled 0 other 0\nrecord 0\n",
        ),
    ] {
        let run = run(&rt, words, input.as_bytes(), FINE)?;
        assert_eq!(rt; run.status, Status::Ok, "{words}");
        assert_eq!(rt; run.written.as_slice(), written.as_bytes(), "{words}");
    }
    Ok(())
}

#[test]
fn the_record_is_written_also_where_the_input_fails(rt: HostRuntime) -> Result<(), Fail> {
    let fails = Outside {
        source_fails: 2,
        ..FINE
    };
    let cut = run(&rt, "script --marks yes", b"1 add a 5\n", fails)?;
    assert_eq!(rt; cut.status, Status::ReadFault);
    assert_eq!(rt; cut.written.as_slice(), MARKED.as_bytes());
    let long = with_letters(rt.alloc(), b"1 add a 5\n#", 65_536)?;
    let endless = run(&rt, "script --marks yes", &long, FINE)?;
    assert_eq!(rt; endless.status, Status::Endless { line: 2 });
    assert_eq!(rt; endless.written.as_slice(), MARKED.as_bytes());
    Ok(())
}

/// The sink fails at its second call, which is the first of the record, and at its first.
#[test]
fn the_record_is_cut_off_where_the_sink_fails(rt: HostRuntime) -> Result<(), Fail> {
    for (words, sink_fails, written) in [
        ("script --marks yes", 2, &MARKED[..ANSWER]),
        ("script --marks yes", 1, ""),
        (LOAD, 2, &LOADED[..SUMMARY]),
        (LOAD, 1, ""),
    ] {
        let outside = Outside { sink_fails, ..FINE };
        let run = run(&rt, words, b"1 add a 5\n", outside)?;
        assert_eq!(rt; run.status, Status::WriteFault, "{words} at {sink_fails}");
        assert_eq!(rt;
            run.written.as_slice(),
            written.as_bytes(),
            "{words} at {sink_fails}"
        );
    }
    Ok(())
}

#[test]
fn a_record_is_audited(rt: HostRuntime) -> Result<(), Fail> {
    for (input, written) in [
        (&MARKED[ANSWER..], "legal\n"),
        (&LOADED[SUMMARY..], "legal\n"),
        (MARKED, "bad 1 unknown word\n"),
        ("record 0\n", "legal\n"),
        ("", "bad 1 no word\n"),
        ("record 1\nended 1.1 1 crashed\n", "broken L1 at 1\n"),
    ] {
        let run = run(&rt, "audit", input.as_bytes(), FINE)?;
        assert_eq!(rt; run.status, Status::Ok, "{input}");
        assert_eq!(rt; run.written.as_slice(), written.as_bytes(), "{input}");
        assert!(rt; run.lengths.iter().all(|length| *length == 0));
    }
    Ok(())
}

/// A script whose disks are not empty does not start, and an audit does not look at them.
#[test]
fn an_audit_looks_at_no_disk(rt: HostRuntime) -> Result<(), Fail> {
    let outside = Outside {
        odd: Odd {
            number: 3,
            bytes: b"x",
            ..NONE_ODD
        },
        ..FINE
    };
    let refused = run(&rt, SCRIPT, b"1 add a 5\n", outside)?;
    assert_eq!(rt; refused.status, Status::LostDisk { disk: 1 });
    let audited = run(&rt, "audit", b"record 0\n", outside)?;
    assert_eq!(rt; audited.status, Status::Ok);
    assert_eq!(rt; audited.written.as_slice(), b"legal\n".as_slice());
    Ok(())
}
