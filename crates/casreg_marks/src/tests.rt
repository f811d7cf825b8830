//! A record as text, over a worked row.

use crate::{MarksFault, write_marks};
use cas_audit::{has_text, read_mark};
use cas_change::Key;
use cas_lines::sink::MemorySink;
use cas_record::{Asked, Mark, OpAnswer, Probes};
use std::alloc::Global;
use std::process::Abort;
use std::test::Fail;

/// A call that adds 5 to the register `a`, and is answered.
const TEXT: &str = "record 7
begun 1.1 a always add 5
proposed 1.1 a 1.1 read 0.0 era 0 by 1,2,3
voted 1 a 1.1
voted 2 a 1.1
voted 3 a 1.1
acked a 1.1 era 0 by 1,2,3
ended 1.1 1 done v0 num 5 at 1.1 clause 0
";

/// The marks of that text.
fn marks_of_text(rt: &impl Abort, alloc: Global) -> Result<Vec<Mark>, Fail> {
    let mut marks = Vec::new(alloc);
    for line in TEXT.lines().skip(1) {
        match read_mark(alloc, line.as_bytes()) {
            Ok(mark) => marks.push(mark)?,
            Err(refusal) => assert!(rt; false, "{refusal:?} of {line}"),
        }
    }
    Ok(marks)
}

#[test]
fn writes_each_mark_on_a_line(rt: HostRuntime) -> Result<(), Fail> {
    let alloc = rt.alloc();
    let mut sink = MemorySink::new(alloc, 5, Vec::new(alloc));
    let marks = marks_of_text(&rt, alloc)?;
    assert_eq!(rt; write_marks(alloc, &marks, &mut sink), Ok(()));
    assert_eq!(rt; sink.bytes(), TEXT.as_bytes());
    Ok(())
}

#[test]
fn writes_a_record_without_a_mark(rt: HostRuntime) -> Result<(), Fail> {
    let alloc = rt.alloc();
    let mut sink = MemorySink::new(alloc, 5, Vec::new(alloc));
    assert_eq!(rt; write_marks(alloc, &[], &mut sink), Ok(()));
    assert_eq!(rt; sink.bytes(), b"record 0\n".as_slice());
    Ok(())
}

#[test]
fn leaves_out_what_no_line_spells(rt: HostRuntime) -> Result<(), Fail> {
    let alloc = rt.alloc();
    let probed = Mark::Told {
        asked: Asked::Probe(Key::read(alloc, b"a")?),
        answer: OpAnswer::Probed {
            key: Key::read(alloc, b"a")?,
            found: Probes::new(Vec::new(alloc)),
        },
    };
    assert!(rt; !has_text(&probed));
    let mut marks = marks_of_text(&rt, alloc)?;
    marks.push(probed)?;
    let mut sink = MemorySink::new(alloc, 5, Vec::new(alloc));
    assert_eq!(rt; write_marks(alloc, &marks, &mut sink), Ok(()));
    assert_eq!(rt; sink.bytes(), TEXT.as_bytes());
    Ok(())
}

/// The sink takes a hundred bytes a call, and fails at its fourth: that of the third mark.
#[test]
fn stops_where_the_sink_fails(rt: HostRuntime) -> Result<(), Fail> {
    let alloc = rt.alloc();
    let mut sink = MemorySink::new(alloc, 100, [4].to_vec(alloc)?);
    let marks = marks_of_text(&rt, alloc)?;
    assert_eq!(rt;
        write_marks(alloc, &marks, &mut sink),
        Err(MarksFault::WriteFault)
    );
    assert!(rt; TEXT.as_bytes().starts_with(sink.bytes()));
    assert!(rt; sink.bytes().ends_with(b"by 1,2,3\n"));
    Ok(())
}
