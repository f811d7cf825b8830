//! Inputs, and the sheets that they fill.

use crate::tasks::{Task, read_sheet};
use cas_ballot::AcceptorId;
use cas_change::{Key, Program};
use cas_change_text::print_program;
use cas_lines::lines::LineFault;
use cas_lines::source::MemorySource;
use std::alloc::{AllocError, Global};
use std::process::Abort;
use std::test::Fail;

/// A member comes or goes, as a line of text.
fn member_line(alloc: Global, name: &str, id: AcceptorId) -> Result<String, AllocError> {
    let id = id.number();
    format!(in alloc; "{name} {id}\n")
}

/// What is asked for of a key, as a line of text.
fn key_line(alloc: Global, key: &Key, rest: &[u8]) -> Result<Vec<u8>, AllocError> {
    let mut line = Vec::from_slice(alloc, key.bytes())?;
    line.extend_from_slice(rest)?;
    line.push(b'\n')?;
    Ok(line)
}

fn sizes_line(alloc: Global, need_prep: u32, need_acc: u32) -> Result<Vec<u8>, AllocError> {
    let line = format!(in alloc; "resize {need_prep} {need_acc}\n")?;
    Ok(line.into_bytes())
}

fn change_line(alloc: Global, key: &Key, program: &Program) -> Result<Vec<u8>, AllocError> {
    let mut rest = b" ".to_vec(alloc)?;
    rest.extend_from_slice(&print_program(alloc, program)?)?;
    key_line(alloc, key, &rest)
}

fn task_line(alloc: Global, task: &Task) -> Result<Vec<u8>, AllocError> {
    match task {
        Task::Change { key, program } => change_line(alloc, key, program),
        Task::Join { id } => Ok(member_line(alloc, "join", *id)?.into_bytes()),
        Task::Leave { id } => Ok(member_line(alloc, "leave", *id)?.into_bytes()),
        Task::Resize {
            need_prep,
            need_acc,
        } => sizes_line(alloc, *need_prep, *need_acc),
        Task::Collect { key } => key_line(alloc, key, b" is collected"),
        Task::Probe { key } => key_line(alloc, key, b" is probed"),
        Task::Read { key } => key_line(alloc, key, b" is read"),
    }
}

fn task_lines(alloc: Global, tasks: &[Task]) -> Result<Vec<u8>, AllocError> {
    let mut lines = Vec::new(alloc);
    for task in tasks {
        lines.extend_from_slice(&task_line(alloc, task)?)?;
    }
    Ok(lines)
}

fn source_of(
    alloc: Global,
    input: &[u8],
    piece: usize,
    failing: &[u64],
) -> Result<MemorySource, AllocError> {
    Ok(MemorySource::new(input.to_vec(alloc)?, piece.max(1), failing.to_vec(alloc)?))
}

/// The lines of two callers, and what comes of them.
#[derive(Clone, Copy)]
struct Row<'a> {
    input: &'a [u8],
    bad: &'a [u8],
    /// What the operator, caller 1 and caller 2 are asked for.
    tasks: [&'a [u8]; 3],
}

const ROWS: &[Row] = &[
    Row {
        input: b"",
        bad: b"",
        tasks: [b"", b"", b""],
    },
    Row {
        input: b"# nothing\n\n \t\n",
        bad: b"",
        tasks: [b"", b"", b""],
    },
    Row {
        input: b"1 add b 2\n2 get a\n1 ad a 1\nnet all * lose\n1 add a 1\n\nshow 1 a\n1 add a\n2 do c below 9 add 1 ; always clear",
        bad: b"bad 3 unknown word\nbad 4 unknown word\nbad 7 unknown word\nbad 8 no word\n",
        tasks: [
            b"",
            b"b always add 2\na always add 1\n",
            b"a always keep\nc below 9 add 1 ; always clear\n",
        ],
    },
    Row {
        input: b"crash acceptor x\nrestart\n\thalt 1\nstray 0\nshowing\nnet\nnet all * hold\n3 get a\n0 get a",
        bad: b"bad 1 unknown word\nbad 2 unknown word\nbad 3 unknown word\nbad 4 unknown word\nbad 5 unknown word\nbad 6 unknown word\nbad 7 unknown word\nbad 8 bad number\nbad 9 bad number\n",
        tasks: [b"", b"", b""],
    },
    Row {
        input: b"op leave 9\n2 del a\nop join 4\nop resize 4 2\nop probe a\nop read c\nop collect b\n1 get c\nop join\n",
        bad: b"bad 9 no word\n",
        tasks: [
            b"leave 9\njoin 4\nresize 4 2\na is probed\nc is read\nb is collected\n",
            b"c always keep\n",
            b"a always clear\n",
        ],
    },
];

/// The row's input is read in pieces of so many bytes, and parted as it says.
fn parts(rt: &impl Abort, alloc: Global, row: &Row, piece: usize) -> Result<(), Fail> {
    let mut source = source_of(alloc, row.input, piece, &[])?;
    let sheet = read_sheet(alloc, &mut source, 2)?;
    assert_eq!(rt; sheet.bad.as_slice(), row.bad);
    assert_eq!(rt; sheet.tasks.len(), row.tasks.len());
    for (tasks, want) in sheet.tasks.iter().zip(&row.tasks) {
        assert_eq!(rt; task_lines(alloc, tasks)?.as_slice(), *want);
    }
    Ok(())
}

/// An event's line of so many bytes has that answer alone.
fn is_bad(rt: &impl Abort, alloc: Global, len: usize, bad: &[u8]) -> Result<(), Fail> {
    let mut line = b"net ".to_vec(alloc)?;
    line.resize(len, b'x')?;
    let mut source = source_of(alloc, &line, 4096, &[])?;
    let sheet = read_sheet(alloc, &mut source, 2)?;
    assert_eq!(rt; sheet.bad.as_slice(), bad);
    Ok(())
}

#[test]
fn parts_the_lines(rt: HostRuntime) -> Result<(), Fail> {
    for row in ROWS {
        parts(&rt, rt.alloc(), row, 1)?;
        parts(&rt, rt.alloc(), row, 4096)?;
    }
    Ok(())
}

#[test]
fn a_long_line_is_too_long_before_all_else(rt: HostRuntime) -> Result<(), Fail> {
    is_bad(&rt, rt.alloc(), 16_384, b"bad 1 unknown word\n")?;
    is_bad(&rt, rt.alloc(), 16_385, b"bad 1 too long\n")
}

#[test]
fn an_input_that_cannot_be_read_whole_has_no_sheet(rt: HostRuntime) -> Result<(), Fail> {
    let alloc = rt.alloc();
    let mut long = b"1 get a\n#".to_vec(alloc)?;
    long.resize(9 + 65_537, b'x')?;
    for (input, failing, fault) in [
        (
            long.as_slice(),
            [].as_slice(),
            LineFault::Endless { line: 2 },
        ),
        (b"bad\n1 get a\n", &[3], LineFault::ReadFault),
    ] {
        let mut source = source_of(alloc, input, 4, failing)?;
        assert_eq!(rt; read_sheet(alloc, &mut source, 2).err(), Some(fault));
    }
    Ok(())
}
