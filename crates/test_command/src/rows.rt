//! The worked rows of the program, over disks in memory.

ghost use Rattle.std.specs.Prelude.{◌≡◌, length, vec_len, IfOk};

use cas_disk::{Disk, Image, MemoryDisk, Trouble};
use cas_fate::{Fate, Links};
use cas_lines::sink::MemorySink;
use cas_lines::source::MemorySource;
use cas_store::{ACCEPTORS, Rack, VAULTS};
use casreg_command::Status;
use casreg_command::cluster::cluster;
use std::alloc::{AllocError, Global};
use std::sync::Wait;
use std::test::Fail;
use std::thread::Threads;

pub const SCRIPT: &str = "script --acceptors 3 --proposers 1";

/// A disk that is not like the others of its kind: these bytes are on it, it has trouble at that call, from 1, or none where it is 0,
/// and a crash leaves that image.
#[derive(Clone, Copy)]
pub struct Odd<'a> {
    pub number: u8,
    pub bytes: &'a [u8],
    pub call: u64,
    pub trouble: Trouble,
    pub image: Image,
}

/// No disk is odd.
pub const NONE_ODD: Odd<'static> = Odd {
    number: 255,
    bytes: b"",
    call: 0,
    trouble: Trouble::Fail,
    image: Image::New,
};

fn disk(alloc: Global, number: u8, odd: &Odd<'_>) -> Result<MemoryDisk, AllocError> {
    if number != odd.number {
        return Ok(MemoryDisk::new(alloc, Vec::new(alloc), Vec::new(alloc), Image::New));
    }
    let bytes = odd.bytes.to_vec(alloc)?;
    let troubles = [(odd.call, odd.trouble)].to_vec(alloc)?;
    Ok(MemoryDisk::new(alloc, bytes, troubles, odd.image))
}

fn make_disks(alloc: Global, count: u8, odd: &Odd<'_>) -> Result<Vec<MemoryDisk>, AllocError>
    ensures { IfOk result (λ disks. vec_len disks ≡ count) }
{
    let mut disks = Vec::new(alloc);
    for number in 0..count {
        disks.push(disk(alloc, number, odd)?)?;
    }
    Ok(disks)
}

/// Disks with what these hold. The odd one has its trouble, and leaves its image.
fn copies(alloc: Global, disks: &[MemoryDisk], odd: &Odd<'_>) -> Result<Vec<MemoryDisk>, AllocError>
    ensures { IfOk result (λ copies. vec_len copies ≡ length disks.now) }
{
    let mut copies = Vec::with_capacity(alloc, disks.len())?;
    for (number, disk) in disks.iter().enumerate() {
        let bytes = disk.bytes().to_vec(alloc)?;
        let call = if number == usize::from(odd.number) {
            odd.call
        } else {
            0
        };
        let troubles = [(call, odd.trouble)].to_vec(alloc)?;
        copies.push_reserved(MemoryDisk::new(alloc, bytes, troubles, odd.image));
    }
    Ok(copies)
}

/// The disks that runs leave to one another.
#[derive(Drop)]
pub struct Disks {
    rack: Rack<MemoryDisk>,
    ghost acceptors: { vec_len rack.acceptors ≡ 64 },
    ghost vaults: { vec_len rack.vaults ≡ 17 },
}

impl Disks {
    /// Empty ones, but for the odd ones.
    pub fn new(alloc: Global, odd: &Odd<'_>, odd_vault: &Odd<'_>) -> Result<Disks, AllocError> {
        let acceptors = make_disks(alloc, ACCEPTORS, odd)?;
        let vaults = make_disks(alloc, VAULTS, odd_vault)?;
        Ok(Disks {
            rack: Rack { acceptors, vaults },
        })
    }

    /// Others with what these hold, of which one of an acceptor and one of a vault may have trouble.
    pub fn copied(
        &self,
        alloc: Global,
        odd: &Odd<'_>,
        odd_vault: &Odd<'_>,
    ) -> Result<Disks, AllocError> {
        let acceptors = copies(alloc, &self.rack.acceptors, odd)?;
        let vaults = copies(alloc, &self.rack.vaults, odd_vault)?;
        Ok(Disks {
            rack: Rack { acceptors, vaults },
        })
    }

    /// Others with what a crash of all of these left. They have no trouble.
    pub fn crashed(self, alloc: Global) -> Result<Disks, AllocError> {
        let Disks { rack } = self;
        let Rack {
            mut acceptors,
            mut vaults,
        } = rack;
        crash_all(&mut acceptors);
        crash_all(&mut vaults);
        let acceptors = copies(alloc, &acceptors, &NONE_ODD)?;
        let vaults = copies(alloc, &vaults, &NONE_ODD)?;
        Ok(Disks {
            rack: Rack { acceptors, vaults },
        })
    }
}

fn crash_all(disks: &mut Vec<MemoryDisk>)
    ensures { vec_len disks.new ≡ vec_len disks.old }
{
    for disk in disks.iter_mut() {
        disk.crash();
    }
}

/// A run over memory that has finished: how it ended, what was written, and the length of each acceptor's disk.
#[derive(Drop)]
pub struct Finished {
    pub status: Status,
    pub written: Vec<u8>,
    pub lengths: Vec<usize>,
}

/// What a run gets from outside: in pieces of that size, with a call of the source and of the sink that fail, from 1, with a disk of an
/// acceptor that is odd, and one of a vault.
#[derive(Clone, Copy)]
pub struct Outside<'a> {
    pub piece: usize,
    pub source_fails: u64,
    pub sink_fails: u64,
    pub odd: Odd<'a>,
    pub odd_vault: Odd<'a>,
}

/// Nothing fails.
pub const FINE: Outside<'static> = Outside {
    piece: 4096,
    source_fails: 0,
    sink_fails: 0,
    odd: NONE_ODD,
    odd_vault: NONE_ODD,
};

/// Runs the words over the input. Every frame is delivered.
pub fn run<R: AllocGlobal + Threads + Wait + Sync>(
    rt: &R,
    words: &str,
    input: &[u8],
    outside: Outside<'_>,
) -> Result<Finished, AllocError> {
    let mut fates = Vec::new(rt.alloc());
    for _caller in 0..VAULTS {
        fates.push(Links::new())?;
    }
    run_with(rt, words, input, outside, &mut fates)
}

/// Runs the words over the input, with these fates, which are 17.
pub fn run_with<R: AllocGlobal + Threads + Wait + Sync, F: Fate + Send>(
    rt: &R,
    words: &str,
    input: &[u8],
    outside: Outside<'_>,
    fates: &mut Vec<F>,
) -> Result<Finished, AllocError>
    requires { vec_len fates.old ≡ 17 }
{
    let disks = Disks::new(rt.alloc(), &outside.odd, &outside.odd_vault)?;
    Ok(run_over(rt, words, input, outside, fates, disks)?.0)
}

/// Runs the words over the input and these disks, with these fates, which are 17. The disks come back.
pub fn run_over<R: AllocGlobal + Threads + Wait + Sync, F: Fate + Send>(
    rt: &R,
    words: &str,
    input: &[u8],
    outside: Outside<'_>,
    fates: &mut Vec<F>,
    disks: Disks,
) -> Result<(Finished, Disks), AllocError>
    requires { vec_len fates.old ≡ 17 }
{
    let alloc = rt.alloc();
    let mut list = Vec::new(alloc);
    for word in words.split_whitespace() {
        list.push(String::from_str(alloc, word)?)?;
    }
    let bytes = input.to_vec(alloc)?;
    let piece = outside.piece.max(1);
    let mut source = MemorySource::new(bytes, piece, [outside.source_fails].to_vec(alloc)?);
    let mut sink = MemorySink::new(alloc, piece, [outside.sink_fails].to_vec(alloc)?);
    let Disks { rack } = disks;
    let (status, rack) = cluster(rt, alloc, &list, &mut source, &mut sink, rack, fates);
    let mut lengths = Vec::new(alloc);
    for disk in &rack.acceptors {
        lengths.push(disk.bytes().len())?;
    }
    let finished = Finished {
        status,
        written: sink.bytes().to_vec(alloc)?,
        lengths,
    };
    Ok((finished, Disks { rack }))
}

#[test]
fn answers_each_line(rt: HostRuntime) -> Result<(), Fail> {
    let rows = [
        ("1 add a 5\n", "1: done v0 num 5 at 1.1\n"),
        (
            "1 add a 5\n1 add a 2\n",
            "1: done v0 num 5 at 1.1\n1: done v1 num 7 at 2.1\n",
        ),
        (
            "1 do c empty num 10 ; below 12 add 1\n1 do c empty num 10 ; below 12 add 1\n1 do c empty num 10 ; below 12 add 1\n1 do c empty num 10 ; below 12 add 1\n",
            "1: done v0 num 10 at 1.1\n1: done v1 num 11 at 2.1\n1: done v2 num 12 at 3.1\n1: done v2 num 12 at 4.1 no clause\n",
        ),
        (
            "1 num a 9223372036854775807\n1 add a 1\n",
            "1: done v0 num 9223372036854775807 at 1.1\n1: done v0 num 9223372036854775807 at 2.1 unfit\n",
        ),
        ("", ""),
        ("1 add a 5", "1: done v0 num 5 at 1.1\n"),
        (
            "# a remark\n\r\n \t\n1\tadd  a -5 \r\n",
            "1: done v0 num -5 at 1.1\n",
        ),
        (
            "1 set a %e2b%20\n1 cas a 0 %-\n1 delv a 1\n1 init a 3\n1 casnum a 1 4\n1 get a\n1 del a\n",
            "1: done v0 text %E2b%20 at 1.1\n1: done v1 text %- at 2.1\n1: done empty at 3.1\n1: done v0 num 3 at 4.1\n1: done v0 num 3 at 5.1 no clause\n1: done v0 num 3 at 6.1\n1: done empty at 7.1\n",
        ),
        (
            "1 add a\n1 ad a 1\n#\n1 add a x\n3 get a\n1 set a %4",
            "bad 1 no word\nbad 2 unknown word\nbad 4 bad number\nbad 5 bad number\nbad 6 unknown word\n",
        ),
    ];
    for (input, output) in rows {
        for piece in [1, 7, 4096] {
            let run = run(&rt, SCRIPT, input.as_bytes(), Outside { piece, ..FINE })?;
            assert_eq!(rt; run.status, Status::Ok, "{input}");
            assert_eq!(rt;
                run.written.as_slice(),
                output.as_bytes(),
                "{input} by {piece}"
            );
        }
    }
    Ok(())
}

/// A text, and as many letters behind it.
pub fn with_letters(alloc: Global, text: &[u8], letters: usize) -> Result<Vec<u8>, AllocError> {
    let mut bytes = text.to_vec(alloc)?;
    for _letter in 0..letters {
        bytes.push(b'x')?;
    }
    Ok(bytes)
}

#[test]
fn limits_words_and_lines(rt: HostRuntime) -> Result<(), Fail> {
    for (front, letters, status, written) in [
        ("1 get ", 64, Status::Ok, "1: done empty at 1.1\n"),
        ("1 get ", 65, Status::Ok, "bad 1 too long\n"),
        ("1 set a ", 4_001, Status::Ok, "bad 1 too long\n"),
        ("#", 16_383, Status::Ok, ""),
        ("#", 16_384, Status::Ok, "bad 1 too long\n"),
        ("#", 65_535, Status::Ok, "bad 1 too long\n"),
        (
            "1 get a\n#",
            65_536,
            Status::Endless { line: 2 },
            "1: done empty at 1.1\n",
        ),
    ] {
        let input = with_letters(rt.alloc(), front.as_bytes(), letters)?;
        let run = run(&rt, SCRIPT, &input, FINE)?;
        assert_eq!(rt; run.status, status, "{front} and {letters}");
        assert_eq!(rt;
            run.written.as_slice(),
            written.as_bytes(),
            "{front} and {letters}"
        );
    }
    let input = with_letters(rt.alloc(), b"1 set a ", 4_000)?;
    let run = run(&rt, SCRIPT, &input, FINE)?;
    let mut want = with_letters(rt.alloc(), b"1: done v0 text ", 4_000)?;
    want.extend_from_slice(b" at 1.1\n")?;
    assert_eq!(rt; run.written.as_slice(), want.as_slice());
    Ok(())
}

/// The same line that many times.
fn repeated(alloc: Global, line: &[u8], times: u32) -> Result<Vec<u8>, AllocError> {
    let mut bytes = Vec::new(alloc);
    for _time in 0..times {
        bytes.extend_from_slice(line)?;
    }
    Ok(bytes)
}

/// What so many lines `1 add a 1` are answered, from the first on.
fn counted(alloc: Global, times: u32) -> Result<Vec<u8>, AllocError> {
    let mut bytes = Vec::new(alloc);
    for version in 0..times {
        let number = u64::from(version) + 1;
        let line = format!(in alloc; "1: done v{version} num {number} at {number}.1\n")?;
        bytes.extend_from_slice(line.as_bytes())?;
    }
    Ok(bytes)
}

/// In pieces of 65,536 bytes.
pub const BIG: Outside<'static> = Outside {
    piece: 65_536,
    ..FINE
};

#[test]
fn answers_where_the_record_is_full(rt: HostRuntime) -> Result<(), Fail> {
    let input = repeated(rt.alloc(), b"1 add a 1\n", 142_856)?;
    let run = run(&rt, SCRIPT, &input, BIG)?;
    assert_eq!(rt; run.status, Status::Ok);
    let mut written = counted(rt.alloc(), 142_855)?;
    written.extend_from_slice(b"1: record full\n")?;
    assert_eq!(rt; run.written, written);
    Ok(())
}

#[test]
fn ends_behind_the_last_line_that_may_be(rt: HostRuntime) -> Result<(), Fail> {
    let mut input = repeated(rt.alloc(), b"\n", 999_999)?;
    input.extend_from_slice(b"1 get a\n")?;
    let whole = run(&rt, SCRIPT, &input, BIG)?;
    assert_eq!(rt; whole.status, Status::Ok);
    assert_eq!(rt;
        whole.written.as_slice(),
        b"1: done empty at 1.1\n".as_slice()
    );
    input.push(b'#')?;
    let long = run(&rt, SCRIPT, &input, BIG)?;
    assert_eq!(rt; long.status, Status::TooManyLines);
    assert_eq!(rt;
        long.written.as_slice(),
        b"1: done empty at 1.1\n".as_slice()
    );
    Ok(())
}

#[test]
fn stops_where_the_outside_fails(rt: HostRuntime) -> Result<(), Fail> {
    let source_fails = Outside {
        source_fails: 2,
        ..FINE
    };
    let sink_fails = Outside {
        sink_fails: 1,
        ..FINE
    };
    for (words, input, outside, status, written) in [
        (
            SCRIPT,
            "1 add a 5\n",
            source_fails,
            Status::ReadFault,
            "1: done v0 num 5 at 1.1\n",
        ),
        (
            SCRIPT,
            "1 add a 5\n1 add a 2\n1 get a",
            source_fails,
            Status::ReadFault,
            "1: done v0 num 5 at 1.1\n1: done v1 num 7 at 2.1\n",
        ),
        (SCRIPT, "1 add a 5\n", sink_fails, Status::WriteFault, ""),
        (
            "script --acceptors 10",
            "1 add a 5\n",
            FINE,
            Status::Usage,
            "",
        ),
    ] {
        let run = run(&rt, words, input.as_bytes(), outside)?;
        assert_eq!(rt; run.status, status, "{words} and {input}");
        assert_eq!(rt;
            run.written.as_slice(),
            written.as_bytes(),
            "{words} and {input}"
        );
    }
    Ok(())
}

/// One disk is not empty, and the least member's is.
#[test]
fn tells_the_least_disk_that_is_lost(rt: HostRuntime) -> Result<(), Fail> {
    let odd = Odd {
        number: 2,
        bytes: b"x",
        ..NONE_ODD
    };
    let run = run(&rt, SCRIPT, b"1 add a 5\n", Outside { odd, ..FINE })?;
    assert_eq!(rt; run.status, Status::LostDisk { disk: 1 });
    assert_eq!(rt; run.written.as_slice(), b"".as_slice());
    assert_eq!(rt; run.lengths.get(2).copied(), Some(1));
    Ok(())
}

/// The number of calls of a member's disk at opening.
pub const CALLS_AT_OPENING: u64 = 7;

#[test]
fn goes_on_where_a_disk_stops(rt: HostRuntime) -> Result<(), Fail> {
    let input = b"1 add a 5\nrestart acceptor 2\n1 add a 2\n";
    let answers = b"1: done v0 num 5 at 1.1\nok\n1: done v1 num 7 at 2.1\n";
    for image in [Image::Old, Image::New, Image::Noise(7)] {
        for call in 1..40 {
            let odd = Odd {
                number: 2,
                bytes: b"",
                call,
                trouble: Trouble::Stop,
                image,
            };
            let run = run(&rt, SCRIPT, input, Outside { odd, ..FINE })?;
            if call <= CALLS_AT_OPENING {
                assert_eq!(rt; run.status, Status::DiskFault { disk: 2 }, "at call {call}");
                assert_eq!(rt; run.written.as_slice(), b"".as_slice(), "at call {call}");
            } else {
                assert_eq!(rt; run.status, Status::Ok, "at call {call}");
                assert_eq!(rt;
                    run.written.as_slice(),
                    answers.as_slice(),
                    "at call {call}"
                );
            }
        }
    }
    Ok(())
}

/// The number of calls of a vault's disk at opening. The next ones are those of its proposer's first draw.
pub const VAULT_CALLS_AT_OPENING: u64 = 7;

#[test]
fn tells_a_vault_fault_before_what_a_round_meets(rt: HostRuntime) -> Result<(), Fail> {
    let odd_vault = Odd {
        number: 1,
        call: VAULT_CALLS_AT_OPENING + 1,
        ..NONE_ODD
    };
    for (lines, answers) in [
        ("1 add a 1\n", "1: vault fault\n"),
        (
            "2 add a 1\n1 add a 1\n",
            "2: done v0 num 1 at 1.2\n1: vault fault\n",
        ),
        ("net prepare * lose\n1 add a 1\n", "ok\n1: vault fault\n"),
        ("halt 1 after-prepare\n1 add a 1\n", "ok\n1: vault fault\n"),
        ("crash proposer 1\n1 add a 1\n", "ok\n1: down\n"),
        (
            "1 add a 1\n1 add a 1\nrestart proposer 1\n1 add a 1\n",
            "1: vault fault\n1: down\nok\n1: done v0 num 1 at 1.1\n",
        ),
    ] {
        let outside = Outside { odd_vault, ..FINE };
        let run = run(&rt, "script --proposers 2", lines.as_bytes(), outside)?;
        assert_eq!(rt; run.status, Status::Ok, "{lines}");
        assert_eq!(rt; run.written.as_slice(), answers.as_bytes(), "{lines}");
    }
    Ok(())
}
