//! A call, or another round of it, begins.

ghost use Rattle.std.specs.Prelude.{◌≡◌, ◌⊎◌, ◌↔◌, ◌+◌, ◌^◌, ◌<◌, ◌≤◌, ◌++◌, length, sum_by, slice_get, slice_set, false, Some, None, IsSome, IsOk, IsErrOf, IfOk, IfErr, IfSome, OnOk, OnErr};
ghost use Rattle.cas_ballot.specs.Ballot.{FitsBallot};
ghost use Rattle.cas_cache.specs.Entries.{promise_at};
ghost use Rattle.cas_model.specs.Calls.Step.{Sends, prepares_to, round_marks, IsFull};
ghost use Rattle.cas_model_causes.specs.Calls.Told.{BeginsBy};
ghost use Rattle.cas_model.specs.View.{meaning, disk_meaning};
ghost use Rattle.cas_protocol.specs.Protocol.{is_done};
ghost use Rattle.cas_world.specs.Calls.Beginning.{opening_of, refused, entered, entry_marks, settled, settled_marks, OpensRound, FailsToOpen, reserved_beside, MayBegin, BeginsOrNot, Heeds, HeedsLoss};
ghost use Rattle.cas_world_calls.specs.Council.{council_view};
ghost use Rattle.cas_world_calls.specs.Call.{reserved_of};
ghost use Rattle.cas_world_calls.specs.declared.call.Caller.{Caller as ACaller};

use crate::proposing::propose_on;
use crate::world::World;
use cas_ballot::Ballot;
use cas_change::{Key, Program};
use cas_disk::Disk;
use cas_flow::Flow;
use cas_proposer::{Began, Desk};
use cas_quorum::Era;
use cas_record::{Answer, MOST_MARKS, Mark, Record};
use cas_slot::{Ask, Shelf};
use cas_vault::VaultError;
use cas_world_calls::call::{Caller, OpenCall, reserved_by};
use cas_world_calls::council::Council;
use cas_world_calls::proposal::{Author, Proposing};
use cas_world_calls::send::send_to;
use std::alloc::{AllocError, Global};

/// What a new call keeps, and the mark of its beginning.
#[derive(Drop)]
struct Opening {
    key: Key,
    program: Program,
    mark: Mark,
}

impl<S: Shelf, V: Disk> World<S, V> {
    /// Begins a call, or another round of the open one, which ended with a conflict and proposed nothing. Where the proposer holds a
    /// promise of the key, the change is proposed at once; otherwise a ballot is drawn, and each member is asked to promise it.
    ///
    /// All marks of the round are reserved first. The refusals come in this order: [`Answer::RecordFull`] exactly where the marks that
    /// are made, those that other calls reserved and the 4n + 8 of this round would be more than a record holds, n being the number of
    /// members, and then more than 999,000 marks are made; [`Answer::NoMemory`], which may come at any place; [`Answer::Down`]; [`Answer::Spent`]; [`Answer::VaultFault`]. A call
    /// that is refused by one of the first two at its first round is not begun, and all is as before, but that after
    /// [`Answer::NoMemory`] a ballot may be drawn and the promise of the key may be gone. One that is refused otherwise is begun, and
    /// to be ended. Where a call of caller 0 is not begun for the key that [`World::settle_key`] names, the operator's call is told so.
    pub fn begin(
        &mut self,
        caller: u8,
        call: u32,
        key: &Key,
        program: &Program,
    ) -> Result<(), Answer>
        requires known { caller ≤ self.old.last_proposer }
        requires unasked { caller ≡ 0 → self.old.council.exchange ≡ None }
        requires may { MayBegin self.old caller call key.now program.now }
        ensures full { IsErrOf result Answer.RecordFull ↔ IsFull self.old caller }
        ensures long { IsErrOf result Answer.RecordFull → 999000 < length self.old.marks }
        ensures cause { IfErr result
            (λ told. BeginsBy (meaning S.Shelf V.Disk) self.old caller key.now told self.new) }
        ensures step { BeginsOrNot (meaning S.Shelf V.Disk)
            self.old caller call key.now program.now result self.new }
    {
        let alloc = *self.acceptors.allocator();
        let place = usize::from(caller);
        let author = Author { caller, call };
        let era = *self.council.eras.of(caller);
        let marks = round_marks(&era);
        let opening = match make_room(
            &mut self.record,
            &self.callers,
            self.council.reserved(),
            marks,
            author,
            key,
            program,
        ) {
            Ok(opening) => opening,
            Err(refusal) => {
                let asking = &self.callers[place];
                heed(asking, &mut self.council, caller, key, &refusal);
                return Err(refuse(&mut self.callers[place], refusal));
            }
        };
        let desk = &mut self.desks[place];
        let begun = open_round(alloc, desk, &mut self.flow, &era, author, key, program);
        let asking = &self.callers[place];
        heed_loss(asking, &mut self.council, caller, key, &begun);
        let caller = &mut self.callers[place];
        settle(caller, &mut self.record, opening, marks, begun)
    }
}

/// A round was refused before it began. Where that was to be a new call which proposes anew the key that is due, the operator's call is
/// told so.
fn heed(asking: &Caller, council: &mut Council, caller: u8, key: &Key, refusal: &Answer)
    ensures heeds { Heeds asking.now.call
        (council_view council.old) caller key.now refusal.now (council_view council.new) }
    ensures eras { council.new.eras ≡ council.old.eras }
{
    if asking.call.is_none() {
        council.end(caller, key, refusal);
    }
}

/// The same, where it was refused for want of memory as it was opened.
fn heed_loss(
    asking: &Caller,
    council: &mut Council,
    caller: u8,
    key: &Key,
    begun: &Result<Option<Proposing>, Answer>,
)
    ensures heeds { HeedsLoss asking.now.call
        (council_view council.old) caller key.now begun.now (council_view council.new) }
    ensures eras { council.new.eras ≡ council.old.eras }
{
    match begun {
        Err(Answer::NoMemory { proposed }) => {
            let refusal = Answer::NoMemory {
                proposed: *proposed,
            };
            heed(asking, council, caller, key, &refusal);
        }
        _ => (),
    }
}

/// What becomes of the call once its round began, or was refused.
fn settle(
    caller: &mut Caller,
    record: &mut Record,
    opening: Option<Opening>,
    marks: usize,
    begun: Result<Option<Proposing>, Answer>,
) -> Result<(), Answer>
    requires open { opening ≡ None → IsSome caller.old.call }
    requires number { caller.old.number + 1 < 2 ^ 32 }
    requires marks { 2 ≤ marks }
    requires room { 2 ≤ «record».old.room }
    requires copied { IfErr begun (λ told. is_done told ≡ false) }
    ensures begun_ { OnOk begun (IsOk result) }
    ensures refused { IfErr begun (λ told. IsErrOf result told) }
    ensures caller { caller.new ≡ settled caller.old opening marks begun }
    ensures marks { «record».new.marks ≡ «record».old.marks ++ settled_marks opening begun }
    ensures left { «record».new.room + length (settled_marks opening begun) ≡ «record».old.room }
{
    match begun {
        Ok(None) => {
            enter(caller, record, opening, marks);
            Ok(())
        }
        Ok(Some(proposing)) => {
            enter(caller, record, opening, marks);
            caller.propose(record, proposing);
            Ok(())
        }
        Err(Answer::NoMemory { proposed }) => Err(refuse(caller, Answer::NoMemory { proposed })),
        Err(refusal) => {
            enter(caller, record, opening, marks);
            caller.end_round(&refusal);
            Err(refusal)
        }
    }
}

/// How many marks a round reserves.
pub(crate) fn round_marks(era: &Era) -> usize
    ensures value { result ≡ round_marks era.now }
    ensures few { result ≤ 264 }
{
    4 * era.everyone().count() as usize + 8
}

/// Makes room for the marks of the round beside those that are reserved, and for what a new call keeps. `None` comes where the caller has an open call. `RecordFull`
/// comes exactly where a record would hold too many marks, and `NoMemory` alone beside it; no mark is made.
fn make_room(
    record: &mut Record,
    callers: &[Caller],
    beside: usize,
    marks: usize,
    author: Author,
    key: &Key,
    program: &Program,
) -> Result<Option<Opening>, Answer>
    requires place { author.caller < length callers.now }
    requires marks { marks ≤ 1000 }
    requires few { length «record».old.marks + sum_by reserved_of callers.now + beside ≤ 1000000 }
    ensures full { IsErrOf result Answer.RecordFull ↔ (1000000 < length
        «record».old.marks + reserved_beside callers.now author.caller + beside + marks) }
    ensures refused { IfErr result (λ refusal. (refusal ≡ Answer.RecordFull)
        ⊎ (refusal ≡ Answer.NoMemory false)) }
    ensures first { (caller : ACaller)
        → slice_get callers.now author.caller ≡ Some caller → caller.call ≡ None
        → IfOk result (λ opening. opening ≡ Some (opening_of author key.now program.now)) }
    ensures again { (caller : ACaller) → slice_get callers.now author.caller ≡ Some caller
        → IsSome caller.call → IfOk result (λ opening. opening ≡ None) }
    ensures room { OnOk result
        (reserved_beside callers.now author.caller + beside + marks ≤ «record».new.room) }
    ensures made { «record».new.marks ≡ «record».old.marks }
    ensures grows { «record».old.room ≤ «record».new.room }
{
    let place = usize::from(author.caller);
    let others = reserved_by(&callers[..place]) + reserved_by(&callers[place + 1..]) + beside;
    if record.marks().len() + others + marks > MOST_MARKS {
        return Err(Answer::RecordFull);
    }
    let made = if callers[place].call.is_none() {
        new_opening(record, others + marks, author, key, program)
    } else {
        reserve(record, others + marks)
    };
    match made {
        Ok(opening) => Ok(opening),
        Err(_) => Err(Answer::NoMemory { proposed: false }),
    }
}

/// Makes room for so many marks, and nothing else. After an `Err` all is as before.
fn reserve(record: &mut Record, marks: usize) -> Result<Option<Opening>, AllocError>
    ensures none { IfOk result (λ opening. opening ≡ None) }
    ensures room { OnOk result (marks ≤ «record».new.room) }
    ensures marks { «record».new.marks ≡ «record».old.marks }
    ensures grows { «record».old.room ≤ «record».new.room }
    ensures err { OnErr result («record».new ≡ «record».old) }
{
    record.reserve(marks)?;
    Ok(None)
}

/// Makes room for so many marks, and for what a new call keeps. After an `Err` no mark is made.
fn new_opening(
    record: &mut Record,
    marks: usize,
    author: Author,
    key: &Key,
    program: &Program,
) -> Result<Option<Opening>, AllocError>
    ensures opening { IfOk result
        (λ opening. opening ≡ Some (opening_of author key.now program.now)) }
    ensures room { OnOk result (marks ≤ «record».new.room) }
    ensures marks { «record».new.marks ≡ «record».old.marks }
    ensures grows { «record».old.room ≤ «record».new.room }
{
    record.reserve(marks)?;
    let mark = Mark::Begun {
        caller: author.caller,
        call: author.call,
        key: key.copy()?,
        program: program.copy()?,
    };
    Ok(Some(Opening {
        key: key.copy()?,
        program: program.copy()?,
        mark,
    }))
}

/// A round was refused before it began. A call that is open has tried once more, and is told; another is not opened.
fn refuse(caller: &mut Caller, refusal: Answer) -> Answer
    requires { is_done refusal ≡ false }
    ensures answer { result ≡ refusal }
    ensures caller { caller.new ≡ refused caller.old refusal }
{
    if caller.call.is_some() {
        caller.try_again(1);
        caller.end_round(&refusal);
    }
    refusal
}

/// A new call is opened and marked, or the open one tries once more.
fn enter(caller: &mut Caller, record: &mut Record, opening: Option<Opening>, marks: usize)
    requires open { opening ≡ None → IsSome caller.old.call }
    requires number { caller.old.number + 1 < 2 ^ 32 }
    requires marks { 0 < marks }
    requires room { 0 < «record».old.room }
    ensures caller { caller.new ≡ entered caller.old opening marks }
    ensures marks { «record».new.marks ≡ «record».old.marks ++ entry_marks opening }
    ensures left { «record».new.room + length (entry_marks opening) ≡ «record».old.room }
{
    match opening {
        Some(Opening { key, program, mark }) => {
            let mut call = OpenCall::new(key, program, marks);
            call.mark(record, mark);
            caller.open(call);
        }
        None => caller.try_again(marks),
    }
}

/// Opens a round of the key at the desk, and sends its frames. By a promise it begins in its accept phase, with what it proposes.
/// After an `Err` no round is open, and nothing is sent: after `Down` all is as before, after `Spent` what the vault shows, after
/// `VaultFault` the desk is down, and after `NoMemory` a ballot may be drawn, and the promise of the key may be gone.
fn open_round<V: Disk>(
    alloc: Global,
    desk: &mut Desk<V>,
    flow: &mut Flow,
    era: &Era,
    author: Author,
    key: &Key,
    program: &Program,
) -> Result<Option<Proposing>, Answer>
    requires idle { desk.old.round ≡ None }
    requires proposer { desk.old.id ≤ 16 }
    requires caller { author.caller ≤ 16 }
    requires queue { author.caller < length flow.old.own }
    requires promise { IfSome (promise_at key.now desk.old.cache)
        (λ ready. FitsBallot ready.ballot) }
    ensures opens { IfOk result (OpensRound (disk_meaning V.Disk)
        era.now key.now program.now author desk.old desk.new flow.old flow.new) }
    ensures refused { IfErr result (FailsToOpen (disk_meaning V.Disk) key.now desk.old desk.new) }
    ensures not_sent { OnErr result (flow.new ≡ flow.old) }
{
    if desk.is_down() {
        return Err(Answer::Down);
    }
    match desk.begin(era, key) {
        Ok(Began::Prepare(ballot)) => {
            let age = desk.age();
            match ask_to_prepare(alloc, flow, era, author.caller, age, key, ballot) {
                Ok(()) => Ok(None),
                Err(_) => {
                    desk.end(None);
                    Err(Answer::NoMemory { proposed: false })
                }
            }
        }
        Ok(Began::Accept(ready)) => {
            match propose_on(alloc, desk, flow, era, author, key, program, &ready) {
                Ok(proposing) => Ok(Some(proposing)),
                Err(refusal) => Err(refusal),
            }
        }
        Err(VaultError::VaultFault) => Err(Answer::VaultFault),
        Err(VaultError::Spent) => Err(Answer::Spent),
        Err(VaultError::NoMemory) => Err(Answer::NoMemory { proposed: false }),
        Err(VaultError::Foreign { .. }) => unreachable!(),
    }
}

/// Asks each member to promise the ballot. After an `Err` nothing is sent.
fn ask_to_prepare(
    alloc: Global,
    flow: &mut Flow,
    era: &Era,
    proposer: u8,
    age: u64,
    key: &Key,
    ballot: Ballot,
) -> Result<(), AllocError>
    requires proposer { proposer ≤ 16 }
    requires queue { proposer < length flow.old.own }
    requires ballot { FitsBallot ballot }
    ensures sent { OnOk result
        (Sends flow.old proposer (prepares_to proposer age key.now ballot era.now.prep) flow.new) }
    ensures not_sent { OnErr result (flow.new ≡ flow.old) }
{
    let ask = Ask::Prepare {
        key: key.copy()?,
        ballot,
    };
    send_to(alloc, flow, proposer, &era.prep, proposer, age, ask)
}
