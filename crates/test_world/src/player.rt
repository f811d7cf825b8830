//! A world whose calls are checked: each is made where it may be, and refused otherwise.

ghost use Rattle.std.specs.Prelude.{◌≡◌, ◌≤◌, ◌+◌, ◌^◌, vec_len, Some, None, true, false, slice_get, slice_set, IfErr, IfSome, OnOk, OnErr};
ghost use Rattle.cas_model.specs.Openings.{AreOpenings};
ghost use Rattle.cas_model.specs.Safe.{IsSafe};
ghost use Rattle.cas_model.specs.Step.{Step, OpenPlan as OpensPlan};
ghost use Rattle.cas_model.specs.Calls.Step.{most_marks};
ghost use Rattle.cas_model.specs.View.{CallerView, meaning};
ghost use Rattle.casreg_script.specs.Exchanges.Orders.{IsOrdered, KeepsIdle};
ghost use Rattle.cas_world.specs.Calls.Beginning.{is_refusal};
ghost use Rattle.cas_world.specs.Exchanges.Exchange.{WasToldOrder};
ghost use Rattle.cas_world.specs.Openings.OpeningOn.{openings_of, greatest_counter, MembersHold};
ghost use Rattle.cas_world.specs.Eras.Plans.{IsUnderWay, asked_to};
ghost use Rattle.cas_world.specs.World.{IsInPhase};
ghost use Rattle.test_world.specs.Tasks.{is_change, is_collection};

use crate::collection::{begin_collection, end_collection};
use crate::task::{Plan, Task};
use cas_ballot::{AcceptorId, Members};
use cas_change::{Key, Program};
use cas_disk::Disk;
use cas_fate::{Leg, Links, Verdict};
use cas_record::{Answer, Asked, Entry, OpAnswer, keep_always};
use cas_slot::Shelf;
use cas_vault::VaultError;
use cas_world::{Config, OpeningFloor, PlanKind, StrayFault, World};
use casreg_script::Script;
use std::alloc::{AllocError, Global};
use std::marker::Model;

/// How many proposers a world may have, the operator's among them.
const PROPOSERS: usize = 17;

/// No call is open.
const NONE_OPEN: [bool; PROPOSERS] = [false; PROPOSERS];

/// What is due of a proposer none of whose frames waits.
#[derive(Clone, Copy, Debug, PartialEq, Eq)]
enum Due {
    /// The prepare phase of its round ends.
    Propose,
    /// The accept phase of its round ends.
    Count,
}

/// A world, and which of its calls are open. Each method that may not be called now answers `None`, and all is as before.
#[derive(Drop)]
pub struct Player<S: Shelf, V: Disk> {
    world: World<S, V>,
    /// The greatest number of a proposer.
    proposers: u8,
    /// Whether the caller of that number has an open call.
    calls: [bool; PROPOSERS],
    /// What the operator's open call asks for.
    task: Option<Task>,
}

impl<S: Shelf, V: Disk> Model for Player<S, V> {
    ghost use Rattle.std.specs.Prelude.{ℕ};
    ghost use Rattle.test_world.specs.Play.{IsPlay};

    ghost Value = { ℕ };

    ghost view = { λ p. p.proposers };

    ghost invariant = { λ p. IsPlay p.world p.proposers p.calls p.task };
}

impl<S: Shelf + Drop, V: Disk + Drop> Player<S, V> {
    /// A player of a new world.
    pub fn open(
        alloc: Global,
        config: Config,
        shelves: Vec<S>,
        vaults: Vec<V>,
    ) -> Option<Player<S, V>> {
        if config.acceptors == 0 || config.acceptors > 9 || config.proposers > 16 {
            return None;
        }
        if shelves.len() != 64 || vaults.len() != 17 {
            return None;
        }
        match World::open(alloc, config, shelves, vaults) {
            Ok(world) => Some(Player {
                world,
                proposers: config.proposers,
                calls: NONE_OPEN,
                task: None,
            }),
            Err(_) => None,
        }
    }

    /// A player of a world that goes on from floors, which the shelf of each member holds. Where the numbers do not fit, or the world
    /// does not open, there is none.
    pub fn open_on(
        alloc: Global,
        config: Config,
        members: Members,
        floors: Vec<OpeningFloor>,
        shelves: Vec<S>,
        vaults: Vec<V>,
        past: u64,
    ) -> Option<Player<S, V>>
        requires floors { AreOpenings (openings_of floors.items) }
        requires counters { greatest_counter floors.items ≤ past }
        requires past { past ≤ 2 ^ 48 }
        requires marks { vec_len floors ≤ most_marks }
        requires held { MembersHold S.is_up S.contents members
            (openings_of floors.items) shelves.items }
    {
        if config.acceptors == 0 || config.acceptors > 9 || config.proposers > 16 {
            return None;
        }
        if shelves.len() != 64 || vaults.len() != 17 {
            return None;
        }
        if members.count() != u32::from(config.acceptors) {
            return None;
        }
        match World::open_on(
            alloc, config, members, members, floors, shelves, vaults, past,
        ) {
            Ok(world) => Some(Player {
                world,
                proposers: config.proposers,
                calls: NONE_OPEN,
                task: None,
            }),
            Err(_) => None,
        }
    }

    /// The settled history of the key, and the vaults of the world. The rest of it goes.
    pub fn into_history(self, key: &Key) -> Result<(Vec<Entry>, Vec<V>), AllocError> {
        let entries = self.world.record().settled(key)?;
        let (_, _, vaults) = self.world.parts();
        Ok((entries, vaults))
    }

    /// A script that goes on in the world, where no call is open.
    pub fn into_script(self, tries: u8) -> Option<Script<S, V>> {
        if self.task.is_some() {
            return None;
        }
        if tries == 0 || self.calls != NONE_OPEN {
            return None;
        }
        Some(Script::new(self.world, self.proposers, tries))
    }
}

impl<S: Shelf, V: Disk> Player<S, V> {
    /// Begins a call of a caller that has none. One that is refused is ended at once.
    pub fn begin(
        &mut self,
        caller: u8,
        key: &Key,
        program: &Program,
    ) -> Option<Result<(), Answer>> {
        let Some(false) = call_of(&self.calls, self.proposers, caller) else {
            return None;
        };
        if !is_free(&self.task, caller) {
            return None;
        }
        let call = self.world.next_call(caller);
        match self.world.begin(caller, call, key, program) {
            Ok(()) => {
                set(&mut self.calls, caller, true);
                Some(Ok(()))
            }
            Err(refusal) if refusal.is_refusal() => Some(Err(refusal)),
            Err(told) => Some(Err(self.world.end(caller, call, told))),
        }
    }

    /// The leg of the proposer's first frame, and the acceptor at its other end.
    pub fn front(&self, proposer: u8) -> Option<(Leg, AcceptorId)> {
        if proposer <= self.proposers {
            self.world.front(proposer)
        } else {
            None
        }
    }

    /// The proposer's first frame has its turn.
    pub fn turn(&mut self, proposer: u8, verdict: Verdict) -> Option<Result<(), AllocError>> {
        let Some(true) = call_of(&self.calls, self.proposers, proposer) else {
            return None;
        };
        let Some(_) = self.world.front(proposer) else {
            return None;
        };
        match self.world.turn(proposer, verdict) {
            Ok(()) => Some(Ok(())),
            Err(error) => Some(Err(error)),
        }
    }

    /// Ends the prepare phase of the proposer's round. Where it is refused its call is ended.
    pub fn propose(&mut self, proposer: u8) -> Option<Result<(), Answer>> {
        let Some(true) = call_of(&self.calls, self.proposers, proposer) else {
            return None;
        };
        if !is_free(&self.task, proposer) {
            return None;
        }
        let Some(Due::Propose) = what_is_due(&self.world, proposer) else {
            return None;
        };
        let call = last_call(&self.world, proposer);
        match self.world.propose(proposer) {
            Ok(()) => Some(Ok(())),
            Err(told) => {
                let told = self.world.end(proposer, call, told);
                set(&mut self.calls, proposer, false);
                Some(Err(told))
            }
        }
    }

    /// Ends the accept phase of the proposer's round, and its call.
    pub fn count(&mut self, proposer: u8) -> Option<Answer> {
        let Some(true) = call_of(&self.calls, self.proposers, proposer) else {
            return None;
        };
        if !is_free(&self.task, proposer) {
            return None;
        }
        let Some(Due::Count) = what_is_due(&self.world, proposer) else {
            return None;
        };
        let call = last_call(&self.world, proposer);
        let told = self.world.count(proposer);
        let told = self.world.end(proposer, call, told);
        set(&mut self.calls, proposer, false);
        Some(told)
    }

    /// Ends a call whose round was closed by another.
    pub fn closed(&mut self, proposer: u8) -> Option<Answer> {
        let Some(true) = call_of(&self.calls, self.proposers, proposer) else {
            return None;
        };
        if !is_free(&self.task, proposer) {
            return None;
        }
        let call = last_call(&self.world, proposer);
        let Some(told) = self.world.closed(proposer) else {
            return None;
        };
        let told = self.world.end(proposer, call, told);
        set(&mut self.calls, proposer, false);
        Some(told)
    }

    /// The late frame of that place strays in.
    pub fn stray(&mut self, index: usize) -> Option<Result<AcceptorId, StrayFault>> {
        if index >= self.world.late() {
            return None;
        }
        match self.world.stray(index) {
            Ok(peer) => Some(Ok(peer)),
            Err(fault) => Some(Err(fault)),
        }
    }

    /// The proposer crashes.
    pub fn crash_proposer(&mut self, proposer: u8) -> Option<()> {
        if proposer > self.proposers {
            return None;
        }
        self.world.crash_proposer(proposer);
        Some(())
    }

    /// The proposer is up again, or stays down.
    pub fn restart_proposer(&mut self, proposer: u8) -> Option<Result<(), VaultError>> {
        if proposer > self.proposers {
            return None;
        }
        Some(self.world.restart_proposer(proposer))
    }

    /// A call of the operator opens a change of membership, or takes it up where it stopped. One that is refused is ended.
    pub fn order(&mut self, kind: PlanKind, id: AcceptorId) -> Option<Result<(), OpAnswer>> {
        if self.task.is_some() {
            return None;
        }
        match begin_plan(&mut self.world, kind, id) {
            Ok(()) => {
                self.task = Some(Task::Change(Plan { kind, id }));
                Some(Ok(()))
            }
            Err(told) => Some(Err(told)),
        }
    }

    /// The next proposer enters the era that the change of membership leads to. Where it does not, the operator's call is ended.
    pub fn enter(&mut self) -> Option<Result<u8, OpAnswer>> {
        if !is_change(&self.task) {
            return None;
        }
        let Some(proposer) = self.world.enter_next() else {
            return None;
        };
        match self.world.enter_era(proposer) {
            Ok(()) => Some(Ok(proposer)),
            Err(told) => {
                let told = self.world.tell(told);
                self.task = None;
                Some(Err(told))
            }
        }
    }

    /// A call of the operator opens the collection of the key, whose tombstone is proposed and acknowledged in one round. What becomes of
    /// each frame the links say. One that stops is ended. `None` comes also where no memory was found.
    pub fn set_tombstone(
        &mut self,
        alloc: Global,
        links: &mut Links,
        key: Key,
    ) -> Option<Result<(), OpAnswer>> {
        if self.task.is_some() {
            return None;
        }
        let Some(false) = call_of(&self.calls, self.proposers, 0) else {
            return None;
        };
        let Ok(own) = key.copy() else {
            return None;
        };
        let Ok(program) = keep_always(alloc) else {
            return None;
        };
        let asked = Asked::Collect(own);
        match begin_collection(&mut self.world, links, &asked, &key, &program) {
            Ok(()) => {
                self.task = Some(Task::Collection(key));
                Some(Ok(()))
            }
            Err(told) => Some(Err(told)),
        }
    }

    /// The next proposer is renewed for the collection; gives it and its new age. Where it is not, the operator's call is ended.
    pub fn renew(&mut self) -> Option<Result<(u8, u64), OpAnswer>> {
        if !is_collection(&self.task) {
            return None;
        }
        let Some(proposer) = self.world.renew_next() else {
            return None;
        };
        match self.world.renew(proposer) {
            Ok(age) => Some(Ok((proposer, age))),
            Err(told) => {
                let told = self.world.tell(told);
                self.task = None;
                Some(Err(told))
            }
        }
    }

    /// Makes the steps of the collection that are left once all proposers are renewed, and ends the operator's call.
    pub fn remove_slots(&mut self, links: &mut Links) -> Option<OpAnswer> {
        if self.world.renew_next().is_some() {
            return None;
        }
        match self.task.take() {
            Some(Task::Collection(key)) => Some(end_collection(&mut self.world, links, key)),
            other => {
                self.task = other;
                None
            }
        }
    }
}

/// Whether the caller of that number has an open call. `None` comes where there is no such caller.
fn call_of(calls: &[bool; PROPOSERS], proposers: u8, caller: u8) -> Option<bool>
    requires { proposers ≤ 16 }
    ensures { IfSome result (λ is_open. (caller ≤ proposers)
        × (slice_get calls.now caller ≡ Some is_open)) }
{
    if caller > proposers {
        return None;
    }
    Some(calls[usize::from(caller)])
}

/// From now on the caller of that number has an open call, or has none.
fn set(calls: &mut [bool; PROPOSERS], caller: u8, is_open: bool)
    requires { caller ≤ 16 }
    ensures { calls.new ≡ slice_set calls.old caller is_open }
{
    calls[usize::from(caller)] = is_open;
}

/// Whether the calls of this caller go on now: those of caller 0 stand still while the operator's call is open, which they could be a part
/// of.
fn is_free(task: &Option<Task>, caller: u8) -> bool
    ensures { result ≡ true → caller ≡ 0 → task.now ≡ None }
{
    caller != 0 || task.is_none()
}

/// Whether the operator's open call asks for a change of membership.
fn is_change(task: &Option<Task>) -> bool
    ensures { result ≡ is_change task.now }
{
    matches!(task, Some(Task::Change(_)))
}

/// Whether the operator's open call asks for a collection.
fn is_collection(task: &Option<Task>) -> bool
    ensures { result ≡ is_collection task.now }
{
    matches!(task, Some(Task::Collection(_)))
}

/// The number of the caller's last call.
fn last_call<S: Shelf, V: Disk>(world: &World<S, V>, caller: u8) -> u32
    requires { caller ≤ world.now.last_proposer }
    ensures { (seen : CallerView)
        → slice_get world.now.callers caller ≡ Some seen → seen.number ≡ result }
{
    world.next_call(caller) - 1
}

/// What is due of the proposer's round, if one is open and none of its frames waits.
fn what_is_due<S: Shelf, V: Disk>(world: &World<S, V>, proposer: u8) -> Option<Due>
    requires known { proposer ≤ world.now.last_proposer }
    requires safe { IsSafe world.now }
    requires quiet { world.now.council.exchange ≡ None }
    ensures proposes { result ≡ Some Due.Propose → IsInPhase world.now proposer true }
    ensures counts { result ≡ Some Due.Count → IsInPhase world.now proposer false }
{
    let None = world.front(proposer) else {
        return None;
    };
    let Some(_) = world.verdict(proposer) else {
        return None;
    };
    if world.has_proposed(proposer) {
        Some(Due::Count)
    } else {
        Some(Due::Propose)
    }
}

/// The operator's call for the change is opened, and the change is, unless it is under way. After an `Err`, which is what the call was
/// told, none is open.
fn begin_plan<S: Shelf, V: Disk>(
    world: &mut World<S, V>,
    kind: PlanKind,
    id: AcceptorId,
) -> Result<(), OpAnswer>
    requires none { world.old.council.order ≡ None }
    requires quiet { world.old.council.exchange ≡ None }
    requires safe { IsSafe world.old }
    ensures under_way { OnOk result (IsUnderWay world.new (asked_to kind id)) }
    ensures over { OnErr result (world.new.council.order ≡ None) }
    ensures quiet { world.new.council.exchange ≡ None }
    ensures idle { KeepsIdle world.old world.new }
    ensures safe { IsSafe world.new }
{
    let asked = kind.asked(id);
    match world.order(&asked) {
        Ok(()) => match take_up(world, kind, id) {
            Ok(()) => Ok(()),
            Err(told) => Err(world.tell(told)),
        },
        Err(refusal) => Err(OpAnswer::Stopped(refusal)),
    }
}

/// Opens the change unless it is under way. An `Err` is what the operator's call was told.
fn take_up<S: Shelf, V: Disk>(
    world: &mut World<S, V>,
    kind: PlanKind,
    id: AcceptorId,
) -> Result<(), OpAnswer>
    requires ordered { IsOrdered world.old (asked_to kind id) }
    requires safe { IsSafe world.old }
    ensures under_way { OnOk result (IsUnderWay world.new (asked_to kind id)) }
    ensures told { IfErr result (WasToldOrder world.new) }
    ensures idle { KeepsIdle world.old world.new }
    ensures exchange { world.new.council.exchange ≡ world.old.council.exchange }
    ensures safe { IsSafe world.new }
{
    if world.plan_is(&kind.asked(id)) {
        return Ok(());
    }
    world.open_plan(kind, id)
}
