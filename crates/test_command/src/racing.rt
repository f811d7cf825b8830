//! Races: callers in threads of their own.

ghost use Rattle.std.specs.Prelude.{◌≡◌, vec_len, IfOk};

use crate::rows::{BIG, FINE, NONE_ODD, Odd, Outside, run, run_with, with_letters};
use cas_ballot::AcceptorId;
use cas_base::raised;
use cas_fate::{Fate, Leg, Verdict};
use cas_store::VAULTS;
use casreg_command::{Status, seeded_fates};
use std::alloc::{AllocError, Global};
use std::process::Abort;
use std::str;
use std::sync::Wait;
use std::sync::atomic::{AtomicBool, Ordering};
use std::test::Fail;
use std::thread::Threads;

/// Which frames a fate holds back.
#[derive(Clone, Copy, Debug, PartialEq, Eq)]
enum Part {
    /// None.
    Free,
    /// Its accepts, until the quick one has voted.
    Slow,
    /// All, until the slow one has proposed.
    Quick,
}

/// A fate that holds frames back until another fate was asked about a certain frame, but so often at most.
#[derive(Drop)]
struct Waiting<'a> {
    part: Part,
    most: u64,
    /// Set once the slow caller's fate was asked about an accept.
    proposed: &'a AtomicBool,
    /// Set once the quick caller's fate was asked about a reply behind its accepts.
    voted: &'a AtomicBool,
    accepts: u64,
    harms: u64,
}

impl Fate for Waiting<'_> {
    ghost harm_count = { λ fate. fate.harms };

    fn verdict(&mut self, leg: Leg, _peer: AcceptorId) -> Verdict {
        let held = match self.part {
            Part::Free => false,
            Part::Slow => self.holds_slow(leg),
            Part::Quick => self.holds_quick(leg),
        };
        if held && self.harms < self.most {
            self.harms = raised(self.harms);
            Verdict::Hold
        } else {
            Verdict::Deliver
        }
    }

    fn harms(&self) -> u64 {
        self.harms
    }

    fn stray(&mut self, _late: usize) -> Option<usize> {
        None
    }
}

impl Waiting<'_> {
    fn holds_slow(&self, leg: Leg) -> bool {
        if leg == Leg::Accept {
            self.proposed.store(true, Ordering::SeqCst);
            return !self.voted.load(Ordering::SeqCst);
        }
        false
    }

    fn holds_quick(&mut self, leg: Leg) -> bool
        ensures { self.new.harms ≡ self.old.harms }
    {
        match leg {
            Leg::Accept => self.accepts = raised(self.accepts),
            Leg::Reply => {
                if self.accepts == 3 {
                    self.voted.store(true, Ordering::SeqCst);
                }
            }
            _ => (),
        }
        !self.proposed.load(Ordering::SeqCst)
    }
}

/// A fate for each caller, which holds frames back so often at most: that of caller 1 is slow, that of caller 2 quick.
fn waiting_fates<'a>(
    alloc: Global,
    proposed: &'a AtomicBool,
    voted: &'a AtomicBool,
    most: u64,
) -> Result<Vec<Waiting<'a>>, AllocError>
    ensures { IfOk result (λ fates. vec_len fates ≡ 17) }
{
    let mut fates = Vec::with_capacity(alloc, usize::from(VAULTS))?;
    for caller in 0..VAULTS {
        let part = match caller {
            1 => Part::Slow,
            2 => Part::Quick,
            _ => Part::Free,
        };
        fates.push(Waiting {
            part,
            most,
            proposed,
            voted,
            accepts: 0,
            harms: 0,
        })?;
    }
    Ok(fates)
}

/// A line of each of two callers.
const TWO_ADDS: &[u8] = b"1 add a 5\n2 add a 1\n";

/// Caller 2 overtakes what caller 1 has proposed.
const OVERTAKEN: &str =
    "1: unsettled met 2.2\n2: done v0 num 1 at 1.2\nhistory a 1\n2.1 always add 1 -> v0 num 1\n";

#[test]
fn a_proposal_is_overtaken(rt: HostRuntime) -> Result<(), Fail> {
    let (proposed, voted) = (AtomicBool::new(false), AtomicBool::new(false));
    let mut fates = waiting_fates(rt.alloc(), &proposed, &voted, u64::MAX)?;
    let run = run_with(&rt, "race --proposers 2", TWO_ADDS, FINE, &mut fates)?;
    assert_eq!(rt; run.status, Status::Ok);
    assert_eq!(rt; run.written.as_slice(), OVERTAKEN.as_bytes());
    // The fates come back in their places: the slow one surely had to wait.
    let slow = fates
        .iter()
        .position(|fate| fate.part == Part::Slow && fate.harms() > 0);
    assert_eq!(rt; slow, Some(1));
    Ok(())
}

/// The record of that race has both proposals, and an audit finds it legal.
#[test]
fn the_record_of_an_overtaken_proposal_is_legal(rt: HostRuntime) -> Result<(), Fail> {
    let (proposed, voted) = (AtomicBool::new(false), AtomicBool::new(false));
    let mut fates = waiting_fates(rt.alloc(), &proposed, &voted, u64::MAX)?;
    let words = "race --proposers 2 --marks yes";
    let raced = run_with(&rt, words, TWO_ADDS, FINE, &mut fates)?;
    assert_eq!(rt; raced.status, Status::Ok);
    let text = str::from_utf8(&raced.written).expect(&rt, "it is a text");
    let record = text
        .strip_prefix(OVERTAKEN)
        .expect(&rt, "the answers stand first");
    assert_eq!(rt; lines_with(record, "proposed 1.1 a 1.1 "), 1);
    assert_eq!(rt; lines_with(record, "proposed 2.1 a 1.2 "), 1);
    let audited = run(&rt, "audit", record.as_bytes(), FINE)?;
    assert_eq!(rt; audited.status, Status::Ok);
    assert_eq!(rt; audited.written.as_slice(), b"legal\n".as_slice());
    Ok(())
}

#[test]
fn callers_who_wait_a_thousand_times_at_most_end(rt: HostRuntime) -> Result<(), Fail> {
    let (proposed, voted) = (AtomicBool::new(false), AtomicBool::new(false));
    let mut fates = waiting_fates(rt.alloc(), &proposed, &voted, 1_000)?;
    let run = run_with(&rt, "race --proposers 2", TWO_ADDS, FINE, &mut fates)?;
    // The sink is in memory, too: it fails where that is refused it.
    if matches!(run.status, Status::NoMemory | Status::WriteFault) {
        return Err(AllocError)?;
    }
    assert_eq!(rt; run.status, Status::Ok);
    let text = str::from_utf8(&run.written).expect(&rt, "it is a text");
    assert_eq!(rt; lines_with(text, ": "), 2);
    let (done, standing) = (lines_with(text, ": done "), lines_with(text, " -> "));
    assert!(rt; done <= standing, "{done} are done, and {standing} stand");
    let longest = fates.iter().map(|fate| fate.harms()).max();
    assert!(rt; longest <= Some(1_000), "one waited more than 1,000 times");
    Ok(())
}

/// That a race over the input, in which every frame is delivered, ends so and writes this.
fn races<R: AllocGlobal + Abort + Threads + Wait + Sync>(
    rt: &R,
    input: &[u8],
    outside: Outside<'_>,
    status: Status,
    written: &[u8],
) -> Result<(), Fail> {
    let run = run(rt, "race", input, outside)?;
    assert_eq!(rt; run.status, status);
    assert_eq!(rt; run.written.as_slice(), written);
    Ok(())
}

/// Inputs, and what a race over each writes.
const ROWS: [(&str, &str); 10] = [
    ("", ""),
    ("# nothing\n\n", ""),
    (
        "1 get a\n",
        "1: done empty at 1.1\nhistory a 1\n1.1 always keep -> empty\n",
    ),
    (
        "1 add b 2\n1 ad a 1\nnet all * lose\n1 add a 1\n\nshow 1 a\n1 add a",
        "bad 2 unknown word\nbad 3 unknown word\nbad 6 unknown word\nbad 7 no word\n1: done v0 num 2 at 1.1\n1: done v0 num 1 at 3.1\nhistory a 1\n1.2 always add 1 -> v0 num 1\nhistory b 1\n1.1 always add 2 -> v0 num 2\n",
    ),
    (
        "crash acceptor x\nrestart\n\thalt 1\nstray 0\nshowing\nnet",
        "bad 1 unknown word\nbad 2 unknown word\nbad 3 unknown word\nbad 4 unknown word\nbad 5 unknown word\nbad 6 unknown word\n",
    ),
    (
        "op leave 9\nop join 4\nop probe a\nop join 4\n",
        "op: not in\nop: joined 4 era 2 rescanned 0\nop: probe a 1=none 2=none 3=none 4=none\nop: already in\n",
    ),
    (
        "op join 3\nop leave 9\nop leave 3\nop join 3\nop join 4\n",
        "op: already in\nop: not in\nop: left 3 era 1 rescanned 0\nop: id used\nop: joined 4 era 2 rescanned 0\n",
    ),
    (
        "op collect a\nop probe a\n",
        "op: collected a at 1.0 removed 3 kept 0\nop: probe a 1=none 2=none 3=none\nhistory a 1\n0.1 always keep -> empty\n",
    ),
    (
        "op read a\nop resize 3 2\nop read a\nop join 4\nop resize 2 1\nop rea a\n",
        "bad 6 unknown word\nop: read a empty at 0.0\nop: resized 3 2 era 1 rescanned 0\nop: read a empty at 0.0\nop: not majority\nop: bad size\n",
    ),
    (
        "op collect a\nop read a\n",
        "op: collected a at 1.0 removed 3 kept 0\nop: read a empty at 0.0\nhistory a 1\n0.1 always keep -> empty\n",
    ),
];

/// Numbers of acceptors, lines of the operator, and what a race over them writes.
const SIZED_ROWS: [(&str, &str, &str); 3] = [
    (
        "race --acceptors 1",
        "op probe a\nop join 2\nop probe a\n",
        "op: probe a 1=none\nop: joined 2 era 2 rescanned 0\nop: probe a 1=none 2=none\n",
    ),
    (
        "race --acceptors 5",
        "op probe a\nop join 6\nop probe a\n",
        "op: probe a 1=none 2=none 3=none 4=none 5=none\nop: joined 6 era 2 rescanned 0\nop: probe a 1=none 2=none 3=none 4=none 5=none 6=none\n",
    ),
    (
        "race --acceptors 9",
        "op probe a\nop join 10\n",
        "op: probe a 1=none 2=none 3=none 4=none 5=none 6=none 7=none 8=none 9=none\nop: too many\n",
    ),
];

#[test]
fn the_operator_asks_and_adds_members_of_any_number(rt: HostRuntime) -> Result<(), Fail> {
    for (words, input, output) in SIZED_ROWS {
        let run = run(&rt, words, input.as_bytes(), FINE)?;
        assert_eq!(rt; run.status, Status::Ok, "{words}");
        assert_eq!(rt; run.written.as_slice(), output.as_bytes(), "{words}");
    }
    Ok(())
}

#[test]
fn tells_all_in_its_order(rt: HostRuntime) -> Result<(), Fail> {
    for (input, output) in ROWS {
        for piece in [1, 4096] {
            let outside = Outside { piece, ..FINE };
            races(
                &rt,
                input.as_bytes(),
                outside,
                Status::Ok,
                output.as_bytes(),
            )?;
        }
    }
    let long = with_letters(rt.alloc(), b"net ", 16_381)?;
    races(&rt, &long, FINE, Status::Ok, b"bad 1 too long\n")
}

/// Lines of one caller alone, and the histories that they leave.
const ALONE: &str =
    "# a remark\n1 add a 5\n1 add a 2\n1 set b x\n1 del b\n1 cas a 9 y\n1 init c 3\n1 casnum c 0 4\n1 do c below 9 add 1 ; always clear\n1 num a 9223372036854775807\n1 add a 1\n1 get d\n";

const LEFT_ALONE: &str =
    "history a 5\n1.1 always add 5 -> v0 num 5\n1.2 always add 2 -> v1 num 7\n1.5 version 9 text y -> v1 num 7\n1.9 always num 9223372036854775807 -> v2 num 9223372036854775807\n1.10 always add 1 -> v2 num 9223372036854775807\nhistory b 2\n1.3 always text x -> v0 text x\n1.4 always clear -> empty\nhistory c 3\n1.6 empty num 3 -> v0 num 3\n1.7 version 0 num 4 -> v1 num 4\n1.8 below 9 add 1 ; always clear -> v2 num 5\nhistory d 1\n1.11 always keep -> empty\n";

#[test]
fn one_caller_is_answered_as_by_a_script(rt: HostRuntime) -> Result<(), Fail> {
    let script = run(&rt, "script", ALONE.as_bytes(), FINE)?;
    let mut text = script.written.as_slice().to_vec(rt.alloc())?;
    text.extend_from_slice(LEFT_ALONE.as_bytes())?;
    races(&rt, ALONE.as_bytes(), FINE, Status::Ok, &text)
}

/// Two lines, and what may fail as they are raced.
const LINES: &[u8] = b"bad\n1 add a 5\n";

const SOURCE_FAILS: Outside<'static> = Outside {
    source_fails: 2,
    ..FINE
};

const SINK_FAILS: Outside<'static> = Outside {
    sink_fails: 1,
    ..FINE
};

const DISK_IS_ODD: Outside<'static> = Outside {
    odd: Odd {
        number: 2,
        bytes: b"x",
        ..NONE_ODD
    },
    ..FINE
};

#[test]
fn what_ends_a_race_early_writes_nothing(rt: HostRuntime) -> Result<(), Fail> {
    races(&rt, LINES, SOURCE_FAILS, Status::ReadFault, b"")?;
    races(&rt, LINES, SINK_FAILS, Status::WriteFault, b"")?;
    races(&rt, LINES, DISK_IS_ODD, Status::NotEmpty { disk: 2 }, b"")?;
    let long = with_letters(rt.alloc(), b"1 get a\n#", 65_536)?;
    races(&rt, &long, FINE, Status::Endless { line: 2 }, b"")
}

#[test]
fn too_many_lines_are_not_raced(rt: HostRuntime) -> Result<(), Fail> {
    let mut input = b"bad\n".to_vec(rt.alloc())?;
    input.resize(4 + 1_000_000, b'\n')?;
    races(&rt, &input, BIG, Status::TooManyLines, b"")
}

/// How many callers add in the race of many, and how often each.
const CALLERS: usize = 16;

const CALLS: usize = 25;

/// The lines of the race of many: each caller adds to eight keys in turn.
fn adding_lines(alloc: Global) -> Result<String, AllocError> {
    let mut lines = String::new(alloc);
    for call in 1..=CALLS {
        for caller in 1..=CALLERS {
            let key = caller.wrapping_add(call) % 8;
            write!(lines, "{caller} add k{key} 1\n")?;
        }
    }
    Ok(lines)
}

/// How many lines of the text have this in them.
fn lines_with(text: &str, part: &str) -> usize {
    text.lines().filter(|line| line.contains(part)).count()
}

#[test]
fn sixteen_callers_come_to_an_end(rt: HostRuntime) -> Result<(), Fail> {
    let mut fates = seeded_fates(rt.alloc())?;
    let lines = adding_lines(rt.alloc())?;
    let words = "race --proposers 16 --tries 8";
    let run = run_with(&rt, words, lines.as_bytes(), FINE, &mut fates)?;
    assert_eq!(rt; run.status, Status::Ok);
    let text = str::from_utf8(&run.written).expect(&rt, "it is a text");
    let done = lines_with(text, ": done ");
    let standing = lines_with(text, " -> ");
    assert_eq!(rt; lines_with(text, ": "), CALLERS * CALLS);
    assert!(rt; done >= CALLS, "{done} are done");
    assert!(rt; done <= standing, "{done} are done, and {standing} stand");
    Ok(())
}
