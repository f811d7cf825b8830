//! The call of a collection: its rounds, by which proposer 0 has the tombstone of the key acknowledged.

ghost use Rattle.std.specs.Prelude.{◌≡◌, ◌↔◌, ◌<◌, ◌≤◌, length, None, Some, false, true, IsTrue, IsOk, IsErrOf, IfSome, IfErr, OnOk, OnErr, Ok, ℕ};
ghost use Rattle.cas_model.specs.Collection.State.{tomb_of};
ghost use Rattle.cas_model.specs.Step.{Step, BeginCollect, EndCollect, ReadHeld, Propose};
ghost use Rattle.cas_model.specs.Calls.Step.{IsFull};
ghost use Rattle.cas_model.specs.Collection.Step.{keep_always};
ghost use Rattle.cas_model.specs.View.{CallerView, IsAt, meaning};
ghost use Rattle.cas_proposer.specs.Desk.{DeskView};
ghost use Rattle.cas_world.specs.Calls.Beginning.{MayBegin};
ghost use Rattle.cas_world.specs.Collection.Collect.{MayCollectKey, RefusesCollection, HasCollected, CollectsNot, IsCollectingCall, FindsHeld, CountsTombstone, renewal_in};
ghost use Rattle.cas_world.specs.Calls.Reading.{HasProposed};
ghost use Rattle.cas_world.specs.World.{IsInPhase, WasTold};

use crate::begin::round_marks;
use crate::propose::acknowledge;
use crate::world::World;
use cas_ballot::Ballot;
use cas_change::{Key, Program, State};
use cas_collect::CollectStep;
use cas_disk::Disk;
use cas_proposer::Desk;
use cas_record::{Answer, MOST_MARKS, OpAnswer};
use cas_round::RoundVerdict;
use cas_slot::Shelf;
use cas_world_calls::answers::cause_by;
use cas_world_calls::call::reserved_by;
use cas_world_calls::council::no_memory;

/// What the prepare phase of a collection's round came to.
#[derive(Clone, Copy, Debug, PartialEq, Eq)]
pub enum Reading {
    /// The register was read as empty, and that is proposed as its tombstone.
    Empty,
    /// A held state of this version was read. Nothing is proposed: the round is over, and so is its call, which is not answered.
    Held { version: u64 },
}

impl<S: Shelf, V: Disk> World<S, V> {
    /// The proposer whose renewal is the step of the collection that is due. `None` comes where another step is, or none is under way.
    pub fn renew_next(&self) -> Option<u8>
        ensures next { result ≡ renewal_in self.now.council.collection }
        ensures known { IfSome result (λ proposer. proposer ≤ self.now.last_proposer) }
    {
        match &self.council.collection {
            Some(collection) => match collection.next() {
                CollectStep::Renew(proposer) => Some(proposer),
                _ => None,
            },
            None => None,
        }
    }

    /// The ballot of the tombstone of the collection that is under way; zero where none is acknowledged yet.
    pub fn tombstone(&self) -> Ballot
        ensures { IfSome self.now.council.collection (λ c. result ≡ tomb_of c.tombstone) }
    {
        match &self.council.collection {
            Some(collection) => collection.tomb(),
            None => Ballot::ZERO,
        }
    }

    /// How many members removed their slot for the collection that is under way, or had none, and how many kept it for a later change.
    pub fn removals(&self) -> (u32, u32)
        ensures { IfSome self.now.council.collection (λ c. (result.0 ≡ c.removed)
            × (result.1 ≡ c.kept)) }
    {
        match &self.council.collection {
            Some(collection) => collection.removals(),
            None => (0, 0),
        }
    }

    /// Begins the call of a collection of the key, for which the operator's call was opened, as a call of caller 0 with the program that
    /// leaves each state as it is; or another round of it, as [`World::begin`] does. A collection is under way then.
    ///
    /// The refusals of a new call come in this order, and the operator's call is told so: [`Answer::Down`] exactly where proposer 0 is down;
    /// [`OpAnswer::Busy`] exactly where a change of membership is under way, with the number of the era in which proposer 0 works; those of
    /// [`World::begin`] but for [`Answer::Down`], of which [`Answer::RecordFull`] and [`Answer::NoMemory`] leave no call begun. After the others,
    /// and after each refusal of another round, the call is to be ended.
    pub fn begin_collect(&mut self, call: u32, key: &Key, program: &Program) -> Result<(), OpAnswer>
        requires asked { MayCollectKey self.old key.now }
        requires may { MayBegin self.old 0 call key.now program.now }
        requires keeps { program.now ≡ keep_always }
        ensures step { Step (meaning S.Shelf V.Disk) self.old (BeginCollect key.now) self.new }
        ensures ok { OnOk result (HasCollected self.new call key.now) }
        ensures err { IfErr result (CollectsNot self.old self.new call key.now) }
        ensures long { IsErrOf result (OpAnswer.Stopped Answer.RecordFull)
            → 999000 < length self.old.marks }
    {
        if self.callers[0].call.is_some() {
            let begun = self.begin(0, call, key, program);
            self.council.hush();
            return or_stopped(begun);
        }
        if let Some(refusal) = self.refusal_to_collect() {
            return Err(self.refuse(refusal));
        }
        let (Ok(own), Ok(for_floor)) = (key.copy(), key.copy()) else {
            return Err(self.refuse(no_memory()));
        };
        let begun = self.begin(0, call, key, program);
        if self.callers[0].call.is_none() {
            return Err(self.refuse(no_memory()));
        }
        let last_proposer = self.setup.proposers;
        self.council.begin_collection(own, for_floor, last_proposer);
        or_stopped(begun)
    }

    /// Why no collection may begin, if it may not.
    fn refusal_to_collect(&self) -> Option<OpAnswer>
        ensures { (desk : DeskView V)
            → IsAt self.now.desks 0 desk → RefusesCollection self.now desk result }
    {
        if self.desks[0].is_down() {
            return Some(OpAnswer::Stopped(Answer::Down));
        }
        if self.council.plan.is_some() {
            let era = self.era().number;
            return Some(OpAnswer::Busy { era });
        }
        if self.is_full(0) {
            return Some(OpAnswer::Stopped(Answer::RecordFull));
        }
        None
    }

    /// Whether the marks of a round of this caller do not fit beside those that are made and those that are reserved for others.
    fn is_full(&self, caller: u8) -> bool
        requires { caller ≤ self.now.last_proposer }
        ensures { IsTrue result ↔ IsFull self.now caller }
    {
        let place = usize::from(caller);
        let marks = round_marks(self.council.eras.of(caller));
        let others = reserved_by(&self.callers[..place]) + reserved_by(&self.callers[place + 1..]);
        self.record.marks().len() + others + self.council.reserved() + marks > MOST_MARKS
    }

    /// Ends the prepare phase of the collection's round, none of whose frames waits, as [`World::propose`] does. With a quorum that read the
    /// register as empty the tombstone is proposed; where it read a held state the round and its call are over, and nothing is proposed.
    pub fn propose_tombstone(&mut self) -> Result<Reading, Answer>
        requires preparing { IsInPhase self.old 0 true }
        requires calling { IsCollectingCall self.old }
        ensures empty { result ≡ Ok Reading.Empty
            → Step (meaning S.Shelf V.Disk) self.old (Propose 0) self.new × HasProposed self.new 0 }
        ensures held { (version : ℕ) → result ≡ Ok (Reading.Held version)
            → Step (meaning S.Shelf V.Disk) self.old ReadHeld self.new }
        ensures err { OnErr result (Step (meaning S.Shelf V.Disk) self.old (Propose 0) self.new) }
        ensures reads { (version : ℕ) (desk : DeskView V) → IsAt self.old.desks 0 desk
            → ((result ≡ Ok (Reading.Held version)) ↔ FindsHeld desk version) }
        ensures told { (caller : CallerView)
            → IsAt self.old.callers 0 caller → IfErr result (WasTold self.new 0 caller.number) }
    {
        if let Some(version) = held_version(&self.desks[0]) {
            self.read_held(version);
            return Ok(Reading::Held { version });
        }
        match self.propose(0) {
            Ok(()) => Ok(Reading::Empty),
            Err(refusal) => Err(refusal),
        }
    }

    /// The round read a held state of this version: it is over, and so is its call.
    fn read_held(&mut self, version: u64)
        requires preparing { IsInPhase self.old 0 true }
        requires calling { IsCollectingCall self.old }
        requires finds { (desk : DeskView V) → IsAt self.old.desks 0 desk → FindsHeld desk version }
        ensures { Step (meaning S.Shelf V.Disk) self.old ReadHeld self.new }
    {
        self.desks[0].end(None);
        self.callers[0].leave();
        self.council.read_held(version);
    }

    /// Ends the accept phase of the collection's round, none of whose frames waits, as [`World::count`] does. Where it is done the tombstone
    /// is acknowledged, and a mark is reserved for the floor.
    pub fn count_tombstone(&mut self) -> Answer
        requires counting { IsInPhase self.old 0 false }
        requires calling { IsCollectingCall self.old }
        ensures step { CountsTombstone (meaning S.Shelf V.Disk) self.old result self.new }
        ensures told { (caller : CallerView)
            → IsAt self.old.callers 0 caller → WasTold self.new 0 caller.number result }
    {
        if cause_by(self.desks[0].verdict()).is_some() {
            return self.count(0);
        }
        let desk = &mut self.desks[0];
        let caller = &mut self.callers[0];
        let by = desk.confirmers();
        let answer = acknowledge(desk, caller, &mut self.record);
        self.council.count_round(&answer, by);
        answer
    }

    /// Ends the collection's call with the answer that it was told last, as [`World::end`] does. Where that is not done the operator's call is
    /// told that it stopped, and why.
    pub fn end_collect(&mut self, call: u32, answer: Answer) -> Answer
        requires told { WasTold self.old 0 call answer }
        requires calling { IsCollectingCall self.old }
        ensures same { result ≡ answer }
        ensures step { Step (meaning S.Shelf V.Disk) self.old (EndCollect answer) self.new }
    {
        if self.council.collection.is_none() {
            unreachable!();
        }
        let answer = self.end(0, call, answer);
        self.council.end_round(&answer);
        answer
    }
}

/// What the operator is told where its collection's call was refused so: that it stopped.
fn or_stopped(begun: Result<(), Answer>) -> Result<(), OpAnswer>
    ensures ok { OnOk begun (IsOk result) }
    ensures err { IfErr begun (λ told. IsErrOf result (OpAnswer.Stopped told)) }
{
    match begun {
        Ok(()) => Ok(()),
        Err(told) => Err(OpAnswer::Stopped(told)),
    }
}

/// The version of the held state that the prepare phase of the desk's round would read, where it has a quorum and one would be.
fn held_version<V: Disk>(desk: &Desk<V>) -> Option<u64>
    ensures { (version : ℕ) → (result ≡ Some version) ↔ FindsHeld desk.now version }
{
    let round = desk.round()?;
    let RoundVerdict::Quorum = round.verdict() else {
        return None;
    };
    match &round.latest()?.state {
        State::Held { version, .. } => Some(*version),
        State::Empty => None,
    }
}
