//! The lines of inputs in memory.

ghost use Rattle.std.specs.Prelude.{◌≤◌};

use cas_lines::lines::{LineFault, Lines};
use cas_lines::source::{MemorySource, Source};
use std::alloc::{AllocError, Global};
use std::process::Abort;
use std::test::Fail;

/// A source of these bytes in such pieces, that fails at these calls.
fn source_of(
    alloc: Global,
    bytes: &[u8],
    piece: usize,
    failing: &[u64],
) -> Result<MemorySource, AllocError>
    requires { 1 ≤ piece }
{
    Ok(MemorySource::new(bytes.to_vec(alloc)?, piece, failing.to_vec(alloc)?))
}

/// Asserts that the input falls into these lines.
fn assert_lines(
    rt: &impl Abort,
    alloc: Global,
    input: &[u8],
    piece: usize,
    want: &[&[u8]],
) -> Result<(), Fail>
    requires { 1 ≤ piece }
{
    let mut source = source_of(alloc, input, piece, &[])?;
    let mut lines = Lines::new(alloc);
    for (at, text) in want.iter().enumerate() {
        let line = lines.next(&mut source)?.ok_or("no line")?;
        assert_eq!(rt; line.number() as usize, at + 1, "of {input:?}");
        assert_eq!(rt; &line.bytes(), text, "of {input:?} in pieces of {piece}");
    }
    assert!(rt; lines.next(&mut source)?.is_none(), "of {input:?}");
    Ok(())
}

#[test]
fn splits_lines_in_any_pieces(rt: HostRuntime) -> Result<(), Fail> {
    for piece in [1, 2, 3, 100] {
        assert_lines(
            &rt,
            rt.alloc(),
            b"a\nb\r\n\nc",
            piece,
            &[b"a", b"b", b"", b"c"],
        )?;
        assert_lines(&rt, rt.alloc(), b"", piece, &[])?;
        assert_lines(
            &rt,
            rt.alloc(),
            b"\r\n\r\r\nc\r",
            piece,
            &[b"", b"\r", b"c\r"],
        )?;
        assert_lines(&rt, rt.alloc(), b"a\rb\n", piece, &[b"a\rb"])?;
    }
    Ok(())
}

#[test]
fn takes_no_more_than_a_line_needs(rt: HostRuntime) -> Result<(), Fail> {
    let mut source = source_of(rt.alloc(), b"a\nb", 2, &[2])?;
    let mut lines = Lines::new(rt.alloc());
    let first = lines.next(&mut source)?.ok_or("no line")?;
    assert_eq!(rt; first.bytes(), b"a".as_slice());
    assert_eq!(rt; lines.next(&mut source).err(), Some(LineFault::ReadFault));
    assert_eq!(rt; source.faults(), 1);
    let second = lines.next(&mut source)?.ok_or("no line")?;
    assert_eq!(rt; second.bytes(), b"b".as_slice());
    assert_eq!(rt; second.number(), 2);
    assert!(rt; lines.next(&mut source)?.is_none());
    Ok(())
}

#[test]
fn limits_each_line(rt: HostRuntime) -> Result<(), Fail> {
    for (letters, back, want) in [
        (65_536, b"".as_slice(), Ok(65_536)),
        (65_536, b"\na", Ok(65_536)),
        (65_535, b"\r\n", Ok(65_535)),
        (65_536, b"\r\n", Err(LineFault::Endless { line: 2 })),
        (65_537, b"\n", Err(LineFault::Endless { line: 2 })),
        (200_000, b"", Err(LineFault::Endless { line: 2 })),
    ] {
        for piece in [7, 65_536, 100_000] {
            let mut input = b"first\n".to_vec(rt.alloc())?;
            input.extend_from_slice(vec![in rt.alloc(); b'x'; letters]?.as_slice())?;
            input.extend_from_slice(back)?;
            let mut source = MemorySource::new(input, piece, Vec::new(rt.alloc()));
            let mut lines = Lines::new(rt.alloc());
            let first = lines.next(&mut source)?.ok_or("no line")?;
            assert_eq!(rt; first.bytes(), b"first".as_slice());
            match lines.next(&mut source) {
                Ok(Some(line)) => {
                    assert_eq!(rt; Ok(line.bytes().len()), want, "{letters} and {back:?}");
                    assert_eq!(rt; line.number(), 2);
                }
                Ok(None) => panic!(rt; "no line of {letters} and {back:?}"),
                Err(fault) => assert_eq!(rt; Err(fault), want, "{letters} and {back:?}"),
            }
        }
    }
    Ok(())
}

#[test]
fn stops_at_the_byte_that_is_too_much(rt: HostRuntime) -> Result<(), Fail> {
    let input = vec![in rt.alloc(); b'x'; 65_537]?;
    let failing = [2].to_vec(rt.alloc())?;
    let mut source = MemorySource::new(input, 4_096, failing);
    let mut lines = Lines::new(rt.alloc());
    assert_eq!(rt; lines.next(&mut source).err(), Some(LineFault::ReadFault));
    for _time in 0..2 {
        let fault = lines.next(&mut source).err();
        assert_eq!(rt; fault, Some(LineFault::Endless { line: 1 }));
    }
    assert_eq!(rt; source.faults(), 1);
    Ok(())
}

/// The reader of an input whose last line that may be comes from this source. All lines before it are empty, and come from a
/// source of their own, so that one front serves whatever the pieces are.
fn behind_the_last(
    rt: &impl Abort,
    alloc: Global,
    source: &mut MemorySource,
) -> Result<Lines, Fail> {
    let mut front = MemorySource::new(vec![in alloc; b'\n'; 999_999]?, 16, Vec::new(alloc));
    let mut lines = Lines::new(alloc);
    for _line in 0..999_999 {
        let line = lines.next(&mut front)?.ok_or("no line")?;
        assert!(rt; line.bytes().is_empty());
    }
    let last = lines.next(source)?.ok_or("no line")?;
    assert_eq!(rt; last.number(), 1_000_000);
    assert_eq!(rt; last.bytes(), b"last".as_slice());
    Ok(lines)
}

/// Asserts that no line follows, each time for this reason, or since the input ends.
fn assert_no_line(
    rt: &impl Abort,
    lines: &mut Lines,
    source: &mut MemorySource,
    want: Option<LineFault>,
) {
    for _time in 0..2 {
        match lines.next(source) {
            Ok(line) => {
                assert!(rt; line.is_none());
                assert_eq!(rt; None, want);
            }
            Err(fault) => assert_eq!(rt; Some(fault), want),
        }
    }
}

// Each of these tests reads a million lines, so that each has one reader.

#[test]
fn stops_at_a_byte_behind_the_last_line(rt: HostRuntime) -> Result<(), Fail> {
    let mut source = source_of(rt.alloc(), b"last\n", 1, &[])?;
    let mut lines = behind_the_last(&rt, rt.alloc(), &mut source)?;
    assert_no_line(&rt, &mut lines, &mut source, None);
    let mut more = source_of(rt.alloc(), b"x", 1, &[])?;
    assert_no_line(&rt, &mut lines, &mut more, Some(LineFault::TooManyLines));
    Ok(())
}

#[test]
fn stops_at_a_newline_behind_the_last_line(rt: HostRuntime) -> Result<(), Fail> {
    let mut source = source_of(rt.alloc(), b"last\n", 100, &[])?;
    let mut lines = behind_the_last(&rt, rt.alloc(), &mut source)?;
    assert_no_line(&rt, &mut lines, &mut source, None);
    let mut more = source_of(rt.alloc(), b"\n", 1, &[])?;
    assert_no_line(&rt, &mut lines, &mut more, Some(LineFault::TooManyLines));
    Ok(())
}

#[test]
fn stops_at_a_byte_that_came_with_the_last_line(rt: HostRuntime) -> Result<(), Fail> {
    let mut source = source_of(rt.alloc(), b"last\nx", 100, &[])?;
    let mut lines = behind_the_last(&rt, rt.alloc(), &mut source)?;
    assert_no_line(&rt, &mut lines, &mut source, Some(LineFault::TooManyLines));
    Ok(())
}

#[test]
fn stops_at_a_newline_that_came_with_the_last_line(rt: HostRuntime) -> Result<(), Fail> {
    let mut source = source_of(rt.alloc(), b"last\n\n", 100, &[])?;
    let mut lines = behind_the_last(&rt, rt.alloc(), &mut source)?;
    assert_no_line(&rt, &mut lines, &mut source, Some(LineFault::TooManyLines));
    Ok(())
}
