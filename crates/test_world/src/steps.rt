//! Steps of a play, one call after another, and the texts of what came of them.

use crate::player::Player;
use cas_ballot::AcceptorId;
use cas_change::{Act, Clause, Guard, Key, Program};
use cas_disk::Disk;
use cas_fate::{Fate, Leg, Links, Verdict};
use cas_lines::answer::{EventAnswer, print_answer, print_event, print_op};
use cas_record::{Answer, OpAnswer};
use cas_slot::Shelf;
use cas_vault::VaultError;
use cas_world::{PlanKind, StrayFault};
use std::alloc::{AllocError, Global};
use std::test::Fail;

/// How many turns are made at most until no frame of a proposer waits.
const MOST_TURNS: u32 = 1_000;

/// What is done next. Callers and proposers go by their numbers, and keys by their texts.
#[derive(Clone, Copy, Debug)]
pub enum Step {
    /// A whole change, without another try, adds to a number.
    Add(u8, &'static str, i64),
    /// A whole change leaves its register as it is.
    Get(u8, &'static str),
    /// The same, so many times. What came of it last is written.
    Gets(u32, u8, &'static str),
    /// Whole changes, one for each of so many keys, leave their registers as they are. What came of the last is written.
    Fill(u8, u32),
    /// A whole change, without another try, leaves its register empty.
    Clear(u8, &'static str),
    /// A change begins that adds to a number.
    BeginAdd(u8, &'static str, i64),
    /// A change begins that leaves its register as it is.
    BeginGet(u8, &'static str),
    /// The proposer's first frame has its turn.
    Turn(u8),
    /// All frames of the proposer have their turns, until none waits.
    Turns(u8),
    /// The prepare phase of the proposer's round ends.
    Propose(u8),
    /// The accept phase of the proposer's round ends, and its call.
    Count(u8),
    /// The proposer's call ends, whose round was closed by another.
    Closed(u8),
    /// The operator's call opens a change of membership by which the acceptor joins, or takes it up again.
    Join(u8),
    /// The next proposer enters the era that the change leads to.
    Enter,
    /// The operator's call opens a collection, whose tombstone is proposed and acknowledged.
    SetTombstone(&'static str),
    /// The next proposer is renewed for the collection.
    Renew,
    /// The other steps of the collection are made, and the operator's call ends.
    Remove,
    /// From now on this becomes of the frames of that leg to or from an acceptor, or all.
    Net(Leg, Option<u8>, Verdict),
    /// The late frame of that place strays in.
    Stray(usize),
    /// The proposer crashes.
    Crash(u8),
    /// The proposer is up again, or stays down.
    Restart(u8),
}

/// A play in progress: its player, and what becomes of the frames.
#[derive(Drop)]
pub struct Play<S: Shelf, V: Disk> {
    alloc: Global,
    player: Player<S, V>,
    links: Links,
    written: Vec<u8>,
}

impl<S: Shelf, V: Disk> Play<S, V> {
    /// A play in which each frame is delivered.
    pub fn new(alloc: Global, player: Player<S, V>) -> Play<S, V> {
        Play {
            alloc,
            player,
            links: Links::new(),
            written: Vec::new(alloc),
        }
    }

    /// The player, and what the steps wrote.
    pub fn into_parts(self) -> (Player<S, V>, Vec<u8>) {
        let Play {
            alloc: _,
            player,
            links: _,
            written,
        } = self;
        (player, written)
    }

    /// Takes the step, and writes a line of what came of it.
    pub fn take(&mut self, step: Step) -> Result<(), Fail> {
        match step {
            Step::Add(caller, key, number) => self.change(1, caller, key, Act::Add(number)),
            Step::Get(caller, key) => self.change(1, caller, key, Act::Keep),
            Step::Gets(times, caller, key) => self.change(times, caller, key, Act::Keep),
            Step::Fill(caller, keys) => self.fill(caller, keys),
            Step::Clear(caller, key) => self.change(1, caller, key, Act::Clear),
            Step::BeginAdd(caller, key, number) => self.begin(caller, key, Act::Add(number)),
            Step::BeginGet(caller, key) => self.begin(caller, key, Act::Keep),
            Step::Join(id) => self.join(id),
            Step::SetTombstone(key) => self.set_tombstone(key),
            other => Ok(self.call(other)?),
        }
    }

    /// Takes a step that names no key and no acceptor.
    fn call(&mut self, step: Step) -> Result<(), AllocError> {
        match step {
            Step::Turn(proposer) => self.turns(proposer, 1),
            Step::Turns(proposer) => self.turns(proposer, MOST_TURNS),
            Step::Propose(proposer) => self.propose(proposer),
            Step::Count(proposer) => {
                let told = self.player.count(proposer);
                self.write_answer(proposer, told)
            }
            Step::Closed(proposer) => {
                let told = self.player.closed(proposer);
                self.write_answer(proposer, told)
            }
            Step::Enter => self.enter(),
            Step::Renew => self.renew(),
            Step::Remove => match self.player.remove_slots(&mut self.links) {
                Some(told) => self.write_told(&told),
                None => self.write("not now"),
            },
            other => {
                let answer = self.event(other);
                self.write_event(answer)
            }
        }
    }

    /// A whole change, so many times, without another try.
    fn change(&mut self, times: u32, caller: u8, key: &'static str, act: Act) -> Result<(), Fail> {
        let key = Key::read(self.alloc, key.as_bytes())?;
        let program = program_of(self.alloc, act)?;
        let mut told = None;
        for _time in 0..times {
            told = self.round(caller, &key, &program)?;
        }
        Ok(self.write_answer(caller, told)?)
    }

    /// Whole changes, one for each of so many keys, without another try.
    fn fill(&mut self, caller: u8, keys: u32) -> Result<(), Fail> {
        let program = program_of(self.alloc, Act::Keep)?;
        let mut told = None;
        for number in 0..keys {
            let text = format!(in self.alloc; "k{number}")?;
            let key = Key::read(self.alloc, text.as_bytes())?;
            told = self.round(caller, &key, &program)?;
        }
        Ok(self.write_answer(caller, told)?)
    }

    /// A change begins.
    fn begin(&mut self, caller: u8, key: &'static str, act: Act) -> Result<(), Fail> {
        let key = Key::read(self.alloc, key.as_bytes())?;
        let program = program_of(self.alloc, act)?;
        match self.player.begin(caller, &key, &program) {
            Some(Ok(())) => self.write("ok")?,
            Some(Err(told)) => self.write_answer(caller, Some(told))?,
            None => self.write("not now")?,
        }
        Ok(())
    }

    /// One round of a change, from its beginning to its end.
    fn round(
        &mut self,
        caller: u8,
        key: &Key,
        program: &Program,
    ) -> Result<Option<Answer>, AllocError> {
        match self.player.begin(caller, key, program) {
            Some(Ok(())) => self.go_on(caller),
            Some(Err(told)) => Ok(Some(told)),
            None => Ok(None),
        }
    }

    /// A round that has begun goes on to its end.
    fn go_on(&mut self, proposer: u8) -> Result<Option<Answer>, AllocError> {
        self.all_turns(proposer)?;
        if let Some(Err(told)) = self.player.propose(proposer) {
            return Ok(Some(told));
        }
        self.all_turns(proposer)?;
        Ok(self.player.count(proposer))
    }

    /// Makes turns until none of the proposer's frames waits.
    fn all_turns(&mut self, proposer: u8) -> Result<(), AllocError> {
        for _turn in 0..MOST_TURNS {
            if self.turn(proposer)?.is_none() {
                break;
            }
        }
        Ok(())
    }

    /// The proposer's first frame has its turn, if one waits. Gives its leg, and the number of the acceptor at its other end.
    fn turn(&mut self, proposer: u8) -> Result<Option<(Leg, u8)>, AllocError> {
        let Some((leg, peer)) = self.player.front(proposer) else {
            return Ok(None);
        };
        let verdict = self.links.verdict(leg, peer);
        match self.player.turn(proposer, verdict) {
            Some(Ok(())) => Ok(Some((leg, peer.number()))),
            Some(Err(error)) => Err(error),
            None => Ok(None),
        }
    }

    /// So many turns at most, and the frames that had them.
    fn turns(&mut self, proposer: u8, most: u32) -> Result<(), AllocError> {
        let mut text = format!(in self.alloc; "{proposer}:")?;
        for _turn in 0..most {
            let Some((leg, peer)) = self.turn(proposer)? else {
                break;
            };
            let leg = word_of(leg);
            write!(text, " {leg} {peer}")?;
        }
        self.write(text.as_str())
    }

    fn propose(&mut self, proposer: u8) -> Result<(), AllocError> {
        match self.player.propose(proposer) {
            Some(Ok(())) => self.write("ok"),
            Some(Err(told)) => self.write_answer(proposer, Some(told)),
            None => self.write("not now"),
        }
    }

    fn join(&mut self, id: u8) -> Result<(), Fail> {
        let id = AcceptorId::new(id).ok_or("an acceptor")?;
        match self.player.order(PlanKind::Join, id) {
            Some(Ok(())) => self.write("ok")?,
            Some(Err(told)) => self.write_told(&told)?,
            None => self.write("not now")?,
        }
        Ok(())
    }

    fn enter(&mut self) -> Result<(), AllocError> {
        match self.player.enter() {
            Some(Ok(proposer)) => {
                let text = format!(in self.alloc; "entered {proposer}")?;
                self.write(text.as_str())
            }
            Some(Err(told)) => self.write_told(&told),
            None => self.write("not now"),
        }
    }

    fn set_tombstone(&mut self, key: &'static str) -> Result<(), Fail> {
        let key = Key::read(self.alloc, key.as_bytes())?;
        match self.player.set_tombstone(self.alloc, &mut self.links, key) {
            Some(Ok(())) => self.write("ok")?,
            Some(Err(told)) => self.write_told(&told)?,
            None => self.write("not now")?,
        }
        Ok(())
    }

    fn renew(&mut self) -> Result<(), AllocError> {
        match self.player.renew() {
            Some(Ok((proposer, age))) => {
                let text = format!(in self.alloc; "renewed {proposer} to {age}")?;
                self.write(text.as_str())
            }
            Some(Err(told)) => self.write_told(&told),
            None => self.write("not now"),
        }
    }

    /// An event happens. `None` comes where it may not happen now, and where the step is no event.
    fn event(&mut self, step: Step) -> Option<EventAnswer> {
        match step {
            Step::Net(leg, who, verdict) => self.set(leg, who, verdict),
            Step::Stray(index) => Some(self.stray(index)),
            Step::Crash(proposer) => match self.player.crash_proposer(proposer) {
                Some(()) => Some(EventAnswer::Ok),
                None => None,
            },
            Step::Restart(proposer) => match self.player.restart_proposer(proposer) {
                Some(restarted) => Some(vault_answer(restarted)),
                None => None,
            },
            _ => None,
        }
    }

    fn set(&mut self, leg: Leg, who: Option<u8>, verdict: Verdict) -> Option<EventAnswer> {
        if verdict == Verdict::Hold {
            return None;
        }
        let (first, last) = match who {
            Some(number) => (number, number),
            None => (0, 63),
        };
        for number in first..=last {
            let peer = AcceptorId::new(number)?;
            self.links.set(leg, peer, verdict);
        }
        Some(EventAnswer::Ok)
    }

    fn stray(&mut self, index: usize) -> EventAnswer {
        match self.player.stray(index) {
            Some(Ok(_)) => EventAnswer::Ok,
            Some(Err(StrayFault::RecordFull)) => EventAnswer::RecordFull,
            Some(Err(StrayFault::NoMemory)) => EventAnswer::NoMemory,
            None => EventAnswer::Absent,
        }
    }

    fn write(&mut self, text: &str) -> Result<(), AllocError> {
        self.written.extend_from_slice(text.as_bytes())?;
        self.written.extend_from_slice(b"\n")
    }

    fn write_answer(&mut self, caller: u8, told: Option<Answer>) -> Result<(), AllocError> {
        match told {
            Some(answer) => {
                let text = print_answer(self.alloc, caller, &answer)?;
                self.written.extend_from_slice(&text)
            }
            None => self.write("not now"),
        }
    }

    fn write_told(&mut self, told: &OpAnswer) -> Result<(), AllocError> {
        let text = print_op(self.alloc, told)?;
        self.written.extend_from_slice(&text)
    }

    fn write_event(&mut self, answer: Option<EventAnswer>) -> Result<(), AllocError> {
        match answer {
            Some(answer) => {
                let text = print_event(self.alloc, &answer)?;
                self.written.extend_from_slice(&text)
            }
            None => self.write("not now"),
        }
    }
}

/// A program that always acts so.
pub fn program_of(alloc: Global, act: Act) -> Result<Program, Fail> {
    let mut clauses = Vec::new(alloc);
    clauses.push(Clause {
        guard: Guard::Always,
        act,
    })?;
    match Program::new(clauses) {
        Ok(program) => Ok(program),
        Err(_) => Err(Fail::from("a program")),
    }
}

/// What is answered to a restart of a proposer.
fn vault_answer(restarted: Result<(), VaultError>) -> EventAnswer {
    match restarted {
        Ok(()) => EventAnswer::Ok,
        Err(VaultError::VaultFault) => EventAnswer::Fault,
        Err(VaultError::Foreign { at }) => EventAnswer::Foreign { at },
        Err(VaultError::Spent | VaultError::NoMemory) => EventAnswer::NoMemory,
    }
}

/// The word of a leg.
fn word_of(leg: Leg) -> &'static str {
    match leg {
        Leg::Prepare => "prepare",
        Leg::Accept => "accept",
        Leg::Ages => "ages",
        Leg::Remove => "remove",
        Leg::List => "list",
        Leg::Probe => "probe",
        Leg::Reply => "reply",
    }
}
