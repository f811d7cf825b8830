//! Records, line by line, and the first rule that each breaks.

use cas_audit::{Auditor, Broken, read_mark};
use std::alloc::Global;
use std::process::Abort;
use std::test::Fail;

/// What is told at the last of these lines.
fn verdict(rt: &impl Abort, alloc: Global, lines: &[&[u8]]) -> Result<Option<Broken>, Fail> {
    let mut auditor = Auditor::new(alloc);
    let mut verdict = None;
    for line in lines {
        match read_mark(alloc, line) {
            Ok(mark) => verdict = auditor.mark(mark)?,
            Err(refusal) => assert!(rt; false, "{line:?} {refusal:?}"),
        }
    }
    Ok(verdict)
}

/// That the lines are a record that breaks the rule first, at the mark.
fn breaks(rt: &impl Abort, alloc: Global, lines: &[&[u8]], rule: u8, at: u32) -> Result<(), Fail> {
    assert_eq!(rt; verdict(rt, alloc, lines)?, Some(Broken { rule, at }));
    Ok(())
}

/// A call that adds 5 to the register `a`, and is answered.
#[test]
fn takes_a_legal_record(rt: HostRuntime) -> Result<(), Fail> {
    let lines = [
        b"begun 1.1 a always add 5".as_slice(),
        b"proposed 1.1 a 1.1 read 0.0 era 0 by 1,2,3",
        b"voted 1 a 1.1",
        b"voted 2 a 1.1",
        b"voted 3 a 1.1",
        b"acked a 1.1 era 0 by 1,2,3",
        b"ended 1.1 1 done v0 num 5 at 1.1 clause 0",
    ];
    assert_eq!(&rt; verdict(&rt, rt.alloc(), &lines)?, None);
    Ok(())
}

const BEGUN: &[u8] = b"begun 1.1 a always add 5";

const PROPOSED: &[u8] = b"proposed 1.1 a 1.1 read 0.0 era 0 by -";

const ACKED: &[u8] = b"acked a 1.1 era 0 by -";

/// One damaged record for each rule that can be the first that is broken.
#[test]
fn names_the_first_rule_that_is_broken(rt: HostRuntime) -> Result<(), Fail> {
    for (lines, rule, at) in [
        (&[b"begun 1.2 a always add 5".as_slice()][..], 1, 1),
        (
            &[
                BEGUN,
                PROPOSED,
                ACKED,
                b"ended 1.1 1 done v0 num 6 at 1.1 clause 0",
            ],
            2,
            4,
        ),
        (&[BEGUN, PROPOSED, b"ended 1.1 1 crashed"], 3, 3),
        (
            &[
                BEGUN,
                PROPOSED,
                ACKED,
                b"begun 2.1 a always add 1",
                b"proposed 2.1 a 2.2 read 0.0 era 0 by -",
                b"acked a 2.2 era 0 by -",
            ],
            5,
            6,
        ),
        (
            &[
                BEGUN,
                PROPOSED,
                b"voted 1 a 1.1",
                b"acked a 1.1 era 0 by 1,2",
            ],
            7,
            4,
        ),
        (&[BEGUN, b"floor a 1.1 empty"], 8, 2),
        (&[BEGUN, b"ended 1.1 1 short 0 2"], 9, 2),
    ] {
        breaks(&rt, rt.alloc(), lines, rule, at)?;
    }
    Ok(())
}

/// What follows a broken rule changes nothing.
#[test]
fn stays_with_the_first_rule(rt: HostRuntime) -> Result<(), Fail> {
    let lines = [
        b"begun 1.1 a always add 5".as_slice(),
        b"ended 1.1 1 crashed",
        b"ended 1.1 1 crashed",
        b"begun 1.1 a always add 5",
    ];
    breaks(&rt, rt.alloc(), &lines, 1, 3)
}
