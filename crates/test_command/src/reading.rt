//! Reads of the operator beside a change that is under way.

ghost use Rattle.std.specs.Prelude.{◌≡◌, vec_len, IfOk};

use crate::rows::{FINE, run, run_with};
use cas_ballot::AcceptorId;
use cas_base::raised;
use cas_fate::{Fate, Leg, Verdict};
use cas_store::VAULTS;
use casreg_command::Status;
use std::alloc::{AllocError, Global};
use std::str;
use std::sync::atomic::{AtomicBool, Ordering};
use std::test::Fail;

/// How many acceptors there are.
const ACCEPTORS: u64 = 4;

/// Whose frames a fate decides on.
#[derive(Clone, Copy, Debug, PartialEq, Eq)]
enum Party {
    /// The operator's: they wait until the change was voted on.
    Reader,
    /// Those of the caller who changes. So many of its accepts arrive. The replies to them wait until the operator was told all, and are
    /// lost then.
    Changer { votes: u64 },
    /// Those of another, which all arrive.
    Other,
}

/// A fate that lets the operator read between the votes on a change and their count.
#[derive(Drop)]
struct Watching<'a> {
    party: Party,
    /// Set once the accepts of the change arrived or were lost.
    voted: &'a AtomicBool,
    /// Set once the operator's last reply arrives.
    read: &'a AtomicBool,
    /// How many accepts of the change, or replies to the operator, were asked about.
    asked: u64,
    harms: u64,
}

impl Fate for Watching<'_> {
    ghost harm_count = { λ fate. fate.harms };

    fn verdict(&mut self, leg: Leg, _peer: AcceptorId) -> Verdict {
        let verdict = match self.party {
            Party::Reader => self.reads(leg),
            Party::Changer { votes } => self.changes(leg, votes),
            Party::Other => Verdict::Deliver,
        };
        if verdict.is_harm() {
            self.harms = raised(self.harms);
        }
        verdict
    }

    fn harms(&self) -> u64 {
        self.harms
    }

    fn stray(&mut self, _late: usize) -> Option<usize> {
        None
    }
}

impl Watching<'_> {
    fn reads(&mut self, leg: Leg) -> Verdict
        ensures { self.new.harms ≡ self.old.harms }
    {
        if !self.voted.load(Ordering::SeqCst) {
            return Verdict::Hold;
        }
        if leg == Leg::Reply {
            self.asked = raised(self.asked);
        }
        if self.asked == ACCEPTORS {
            self.read.store(true, Ordering::SeqCst);
        }
        Verdict::Deliver
    }

    fn changes(&mut self, leg: Leg, votes: u64) -> Verdict
        ensures { self.new.harms ≡ self.old.harms }
    {
        if leg == Leg::Accept {
            self.asked = raised(self.asked);
            return if self.asked > votes {
                Verdict::Lose
            } else {
                Verdict::Deliver
            };
        }
        if self.asked < ACCEPTORS {
            return Verdict::Deliver;
        }
        self.voted.store(true, Ordering::SeqCst);
        if self.read.load(Ordering::SeqCst) {
            Verdict::Lose
        } else {
            Verdict::Hold
        }
    }
}

/// A fate for each caller: caller 0 reads, and caller 1 changes with so many votes.
fn watching_fates<'a>(
    alloc: Global,
    voted: &'a AtomicBool,
    read: &'a AtomicBool,
    votes: u64,
) -> Result<Vec<Watching<'a>>, AllocError>
    ensures { IfOk result (λ fates. vec_len fates ≡ 17) }
{
    let mut fates = Vec::with_capacity(alloc, usize::from(VAULTS))?;
    for caller in 0..VAULTS {
        let party = match caller {
            0 => Party::Reader,
            1 => Party::Changer { votes },
            _ => Party::Other,
        };
        fates.push(Watching {
            party,
            voted,
            read,
            asked: 0,
            harms: 0,
        })?;
    }
    Ok(fates)
}

/// How many votes a change has that nobody counts, and what a race writes then. Two of four are no quorum, and neither are the two that did
/// not vote. A read that finds a quorum of votes marks them, and an acknowledgment: the change stands.
const ROWS: [(u64, &str); 2] = [
    (2, "op: not agreed 0.0 1.1\n1: unsettled short 0 3\n"),
    (
        4,
        "op: read a v0 num 5 at 1.1\n1: unsettled short 0 3\nhistory a 1\n1.1 always add 5 -> v0 num 5\n",
    ),
];

#[test]
fn a_read_finds_votes_that_nobody_has_counted(rt: HostRuntime) -> Result<(), Fail> {
    for (votes, written) in ROWS {
        let (voted, read) = (AtomicBool::new(false), AtomicBool::new(false));
        let mut fates = watching_fates(rt.alloc(), &voted, &read, votes)?;
        let words = "race --acceptors 4 --marks yes";
        let raced = run_with(&rt, words, b"1 add a 5\nop read a\n", FINE, &mut fates)?;
        assert_eq!(rt; raced.status, Status::Ok);
        let text = str::from_utf8(&raced.written).expect(&rt, "it is a text");
        let record = text
            .strip_prefix(written)
            .expect(&rt, "the answers stand first");
        assert_eq!(rt; record.contains("acked a 1.1 "), votes == ACCEPTORS);
        let audited = run(&rt, "audit", record.as_bytes(), FINE)?;
        assert_eq!(rt; audited.written.as_slice(), b"legal\n".as_slice());
    }
    Ok(())
}
