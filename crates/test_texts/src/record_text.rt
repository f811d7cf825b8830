//! Texts of records with what an audit finds in them.

use cas_audit::{AuditFault, audit_text};
use cas_lines::sink::MemorySink;
use cas_lines::source::MemorySource;
use std::alloc::{AllocError, Global};
use std::process::Abort;
use std::test::Fail;

/// A source of these lines, each with its newline, that fails at these calls.
fn source(alloc: Global, lines: &[&[u8]], failing: &[u64]) -> Result<MemorySource, AllocError> {
    let mut text = Vec::new(alloc);
    for line in lines {
        text.extend_from_slice(line)?;
        text.push(b'\n')?;
    }
    Ok(MemorySource::new(text, 64, failing.to_vec(alloc)?))
}

/// That this is written of a text of these lines.
fn finds(rt: &impl Abort, alloc: Global, lines: &[&[u8]], written: &[u8]) -> Result<(), Fail> {
    let mut source = source(alloc, lines, &[])?;
    let mut sink = MemorySink::new(alloc, 5, Vec::new(alloc));
    let found = audit_text(alloc, &mut source, &mut sink);
    assert!(rt; found.is_ok(), "{lines:?}");
    assert_eq!(rt; sink.bytes(), written, "{lines:?}");
    Ok(())
}

/// A call that adds 5 to the register `a`, and is answered, and what is found where a line of it is another or is left out.
#[test]
fn audits_the_text_of_a_record(rt: HostRuntime) -> Result<(), Fail> {
    let alloc = rt.alloc();
    let begun = b"begun 1.1 a always add 5".as_slice();
    let proposed = b"proposed 1.1 a 1.1 read 0.0 era 0 by 1,2,3".as_slice();
    let votes = [
        b"voted 1 a 1.1".as_slice(),
        b"voted 2 a 1.1",
        b"voted 3 a 1.1",
    ];
    let acked = b"acked a 1.1 era 0 by 1,2,3".as_slice();
    let ended = b"ended 1.1 1 done v0 num 5 at 1.1 clause 0".as_slice();
    let [one, two, three] = votes;
    let whole = [
        b"record 7".as_slice(),
        begun,
        proposed,
        one,
        two,
        three,
        acked,
        ended,
    ];
    finds(&rt, alloc, &whole, b"legal\n")?;
    let mut other = whole;
    other[7] = b"ended 1.1 1 done v0 num 6 at 1.1 clause 0";
    finds(&rt, alloc, &other, b"broken L2 at 7\n")?;
    let unvoted = [
        b"record 6".as_slice(),
        begun,
        proposed,
        one,
        three,
        acked,
        ended,
    ];
    finds(&rt, alloc, &unvoted, b"broken L7 at 5\n")?;
    // A line that does not fit stands before a rule that is broken.
    other[0] = b"record 6";
    finds(&rt, alloc, &other, b"bad 8 unknown word\n")?;
    other[0] = b"record 8";
    finds(&rt, alloc, &other, b"bad 9 no word\n")?;
    other[4] = b"voted 2 a 1";
    finds(&rt, alloc, &other, b"bad 5 bad number\n")
}

/// Texts without a mark.
#[test]
fn reads_how_many_marks_there_are(rt: HostRuntime) -> Result<(), Fail> {
    for (lines, written) in [
        (&[][..], b"bad 1 no word\n".as_slice()),
        (&[b"record 0".as_slice()][..], b"legal\n"),
        (&[b" record\t0 \r"], b"legal\n"),
        (&[b"record 0", b""], b"bad 2 unknown word\n"),
        (&[b"record 1"], b"bad 2 no word\n"),
        (&[b"record 1", b""], b"bad 2 no word\n"),
        (&[b""], b"bad 1 no word\n"),
        (&[b"records 0"], b"bad 1 unknown word\n"),
        (&[b"record"], b"bad 1 no word\n"),
        (&[b"record x"], b"bad 1 bad number\n"),
        (&[b"record 0 0"], b"bad 1 unknown word\n"),
    ] {
        finds(&rt, rt.alloc(), lines, written)?;
    }
    Ok(())
}

/// A source that fails, and a sink that does.
#[test]
fn tells_what_failed(rt: HostRuntime) -> Result<(), Fail> {
    let alloc = rt.alloc();
    let lines = [b"record 0".as_slice()];
    let mut failing = source(alloc, &lines, &[2])?;
    let mut sink = MemorySink::new(alloc, 5, Vec::new(alloc));
    assert_eq!(rt;
        audit_text(alloc, &mut failing, &mut sink),
        Err(AuditFault::ReadFault)
    );
    assert_eq!(rt; sink.bytes(), b"".as_slice());
    let mut whole = source(alloc, &lines, &[])?;
    let mut sink = MemorySink::new(alloc, 5, [2].to_vec(alloc)?);
    assert_eq!(rt;
        audit_text(alloc, &mut whole, &mut sink),
        Err(AuditFault::WriteFault)
    );
    assert_eq!(rt; sink.bytes(), b"legal".as_slice());
    Ok(())
}

/// A line of as many bytes as a line may have, and one of a byte more.
#[test]
fn takes_long_lines(rt: HostRuntime) -> Result<(), Fail> {
    let alloc = rt.alloc();
    let mut line = b"record 0".to_vec(alloc)?;
    line.resize(65_536, b' ')?;
    finds(&rt, alloc, &[&line], b"legal\n")?;
    line.push(b' ')?;
    let mut source = source(alloc, &[&line], &[])?;
    let mut sink = MemorySink::new(alloc, 5, Vec::new(alloc));
    assert_eq!(rt;
        audit_text(alloc, &mut source, &mut sink),
        Err(AuditFault::Endless { line: 1 })
    );
    assert_eq!(rt; sink.bytes(), b"".as_slice());
    Ok(())
}
