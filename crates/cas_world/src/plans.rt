//! Changes of membership: how one begins, and what it does next.

ghost use Rattle.std.specs.Prelude.{◌≡◌, ◌⊎◌, ◌↔◌, ◌+◌, ◌^◌, ◌<◌, ◌≤◌, true, false, Some, option_copied, IsTrue, is_some, IsSome, IsSomeAnd, IfSome, IsErrOf, IfErr, IfNone, IfOk, OnErr, OnOk};
ghost use Rattle.cas_flow.specs.Flow.{abandoned};
ghost use Rattle.cas_members.specs.Plan.{HasOneSet};
ghost use Rattle.cas_model.specs.Council.{OrderView};
ghost use Rattle.cas_model.specs.Eras.Course.{entering};
ghost use Rattle.cas_model.specs.Eras.Entering.{AreErasLawful};
ghost use Rattle.cas_model.specs.Step.{Step, RefuseKey, OpenPlan as OpensPlan, EnterEra as EntersNext};
ghost use Rattle.cas_model.specs.Calls.Desks.{EntersEra, FailsToEnter};
ghost use Rattle.cas_model.specs.Exchanges.Step.{finished, told_view};
ghost use Rattle.cas_model.specs.Eras.Step.{FailsByFaults, Welcomes, used_with};
ghost use Rattle.cas_model.specs.View.{era_at, meaning, disk_meaning};
ghost use Rattle.cas_world_calls.specs.Answers.{is_plain, crash_answer, moved_answer};
ghost use Rattle.cas_world_calls.specs.Call.{over};
ghost use Rattle.cas_world_calls.specs.Council.{council_view, due_in};
ghost use Rattle.cas_world.specs.Exchanges.Exchange.{WasToldOrder};
ghost use Rattle.cas_world.specs.Eras.Moving.{LeavesDesk, Stays, MarksMove, closed_with};
ghost use Rattle.cas_world.specs.Eras.Plans.{asked_of, asked_to, planned_of, HasFinished, IsFor, IsUnderWay, IsAtEnd, IsPartial, MayOpenPlan, MayEnterNext, step_of, rescanned_of, entrant_of};

use crate::world::World;
use cas_ballot::{AcceptorId, Members};
use cas_change::Key;
use cas_disk::Disk;
use cas_flow::Flow;
use cas_members::{Plan, PlanStep};
use cas_proposer::Desk;
use cas_quorum::{Era, PlanFault};
use cas_record::{Answer, Asked, MOST_MARKS, Mark, OpAnswer, Record};
use cas_slot::{Shelf, ShelfFault};
use cas_vault::VaultError;
use cas_world_calls::answers::{copy_of_op, crash_answer, moved_answer};
use cas_world_calls::call::Caller;
use cas_world_calls::council::{Council, EXCHANGE_PLACE, no_memory, reserved_in_all};
use cas_world_calls::plan::OpenPlan;
use std::alloc::AllocError;

/// How the membership changes.
#[derive(Clone, Copy, Debug, PartialEq, Eq)]
pub enum PlanKind {
    /// The acceptor joins.
    Join,
    /// The acceptor leaves.
    Leave,
}

impl PlanKind {
    /// What an operator asks for who wants the acceptor to join or to leave.
    pub fn asked(self, id: AcceptorId) -> Asked
        ensures { result ≡ asked_to self id }
    {
        match self {
            PlanKind::Join => Asked::Join(id),
            PlanKind::Leave => Asked::Leave(id),
        }
    }

    /// Where a plan is to lead by which the acceptor joins or leaves.
    pub fn target(self, id: AcceptorId) -> Target
        ensures { asked_of result ≡ asked_to self id }
    {
        match self {
            PlanKind::Join => Target::Join(id),
            PlanKind::Leave => Target::Leave(id),
        }
    }
}

/// Where a change of membership or of sizes is to lead.
#[derive(Clone, Copy, Debug, PartialEq, Eq)]
pub enum Target {
    /// The acceptor is a member.
    Join(AcceptorId),
    /// The acceptor is none.
    Leave(AcceptorId),
    /// Quorums have these sizes.
    Resize { need_prep: u32, need_acc: u32 },
}

impl Target {
    /// What an operator asks for who wants to get there.
    pub fn asked(&self) -> Asked
        ensures { result ≡ asked_of self.now }
    {
        match self {
            Target::Join(id) => Asked::Join(*id),
            Target::Leave(id) => Asked::Leave(*id),
            Target::Resize {
                need_prep,
                need_acc,
            } => Asked::Resize {
                need_prep: *need_prep,
                need_acc: *need_acc,
            },
        }
    }

    /// The plan that leads there from this era on, or why there is none.
    fn plan(&self, era: &Era, used: &Members) -> Result<Plan, PlanFault>
        requires one_set { HasOneSet era.now }
        requires number { era.now.number + 2 < 2 ^ 32 }
        ensures { result ≡ planned_of self.now era.now used.now }
    {
        match self {
            Target::Join(id) => Plan::join(era, used, *id),
            Target::Leave(id) => Plan::leave(era, *id),
            Target::Resize {
                need_prep,
                need_acc,
            } => Plan::resize(era, *need_prep, *need_acc),
        }
    }
}

impl<S: Shelf, V: Disk> World<S, V> {
    /// Whether a change of membership is under way that was opened for just that.
    pub fn plan_is(&self, asked: &Asked) -> bool
        ensures { IsTrue result ↔ IsFor self.now.council.plan asked.now }
    {
        match &self.council.plan {
            Some(plan) => plan.asked == *asked,
            None => false,
        }
    }

    /// What the change of membership that is under way does next.
    pub fn plan_step(&self) -> Option<PlanStep>
        ensures step { result ≡ step_of self.now.council.plan }
        ensures end { result ≡ Some PlanStep.Finished → IsAtEnd self.now }
    {
        match &self.council.plan {
            Some(plan) => Some(plan.plan.next()),
            None => None,
        }
    }

    /// How many keys the change of membership that is under way has proposed anew; 0 where none is.
    pub fn rescanned(&self) -> u32
        ensures { result ≡ rescanned_of self.now.council.plan }
    {
        match &self.council.plan {
            Some(plan) => plan.rescanned,
            None => 0,
        }
    }

    /// What the operator is told at the end of the change that is under way: the era that all work in, and how many keys were proposed anew.
    pub fn finished_answer(&self, target: &Target) -> OpAnswer
        requires under_way { IsUnderWay self.now (asked_of target.now) }
        requires end { IsAtEnd self.now }
        ensures finished { HasFinished self.now result }
        ensures names { finished (asked_of target.now) (era_at self.now 0).number
            (rescanned_of self.now.council.plan) result }
    {
        let era = self.era().number;
        let rescanned = self.rescanned();
        match target {
            Target::Join(id) => OpAnswer::Joined {
                id: *id,
                era,
                rescanned,
            },
            Target::Leave(id) => OpAnswer::Left {
                id: *id,
                era,
                rescanned,
            },
            Target::Resize {
                need_prep,
                need_acc,
            } => OpAnswer::Resized {
                need_prep: *need_prep,
                need_acc: *need_acc,
                era,
                rescanned,
            },
        }
    }

    /// The proposer that has to enter the next era: the least that is not marked as in it. `None` comes where no era is to be entered next.
    pub fn enter_next(&self) -> Option<u8>
        ensures next { result ≡ entrant_of self.now.council.plan }
        ensures known { IfSome result (λ proposer. proposer ≤ self.now.last_proposer) }
    {
        match &self.council.plan {
            Some(plan) => match plan.next() {
                Some(_) => Some(plan.entered),
                None => None,
            },
            None => None,
        }
    }

    /// The next key that is to be proposed anew, so that the era is settled. `None` comes where none is listed, or the listing of the era
    /// is not complete.
    pub fn settle_key(&self) -> Option<&Key>
        ensures key { option_copied result ≡ due_in self.now.council.plan }
        ensures none { IfNone result (IsPartial self.now.council.plan) }
    {
        match &self.council.plan {
            Some(plan) => plan.due(),
            None => None,
        }
    }

    /// A copy of the key that [`World::settle_key`] names. Where no memory is found for it the operator's call is told so.
    pub fn due_key(&mut self) -> Result<Option<Key>, OpAnswer>
        requires { IsSome self.old.council.order }
        ensures key { IfOk result (λ key. key ≡ due_in self.old.council.plan) }
        ensures unchanged { OnOk result (self.new ≡ self.old) }
        ensures step { OnErr result (Step (meaning S.Shelf V.Disk) self.old RefuseKey self.new) }
        ensures told { IfErr result (WasToldOrder self.new) }
    {
        let copied = match self.settle_key() {
            Some(key) => key.copy(),
            None => return Ok(None),
        };
        match copied {
            Ok(key) => Ok(Some(key)),
            Err(_) => Err(self.refuse(no_memory())),
        }
    }

    /// The change of membership begins for which the operator's call was opened. The shelf of an acceptor that joins is started; where it
    /// does not start by a fault, the acceptor is a member that is down.
    ///
    /// The refusals, each of which the call is told, come in this order: [`Answer::Down`] exactly where proposer 0 is down;
    /// [`OpAnswer::Busy`] exactly where another change is under way, with the number of the era in which proposer 0 works;
    /// [`OpAnswer::Refused`] exactly where the membership does not admit it; [`Answer::NoMemory`]. After each of them no change has begun.
    pub fn open_plan(&mut self, kind: PlanKind, id: AcceptorId) -> Result<(), OpAnswer>
        requires { MayOpenPlan self.old (asked_to kind id) }
        ensures step { Step (meaning S.Shelf V.Disk) self.old OpensPlan self.new }
        ensures ok { OnOk result (IsUnderWay self.new (asked_to kind id)) }
        ensures err { IfErr result (WasToldOrder self.new) }
    {
        self.open_change(&kind.target(id))
    }

    /// The change of sizes begins for which the operator's call was opened: quorums are to have these sizes. No acceptor joins or leaves.
    ///
    /// The refusals are those of [`World::open_plan`], in the same order. After each of them no change has begun.
    pub fn open_resize(&mut self, need_prep: u32, need_acc: u32) -> Result<(), OpAnswer>
        requires { MayOpenPlan self.old (Asked.Resize need_prep need_acc) }
        ensures step { Step (meaning S.Shelf V.Disk) self.old OpensPlan self.new }
        ensures ok { OnOk result (IsUnderWay self.new (Asked.Resize need_prep need_acc)) }
        ensures err { IfErr result (WasToldOrder self.new) }
    {
        self.open_change(&Target::Resize {
            need_prep,
            need_acc,
        })
    }

    /// The change begins that leads there, as [`World::open_plan`] and [`World::open_resize`] say.
    pub fn open_change(&mut self, target: &Target) -> Result<(), OpAnswer>
        requires { MayOpenPlan self.old (asked_of target.now) }
        ensures step { Step (meaning S.Shelf V.Disk) self.old OpensPlan self.new }
        ensures ok { OnOk result (IsUnderWay self.new (asked_of target.now)) }
        ensures err { IfErr result (WasToldOrder self.new) }
    {
        if self.desks[0].is_down() {
            return Err(self.refuse(OpAnswer::Stopped(Answer::Down)));
        }
        if self.council.plan.is_some() {
            let era = self.era().number;
            return Err(self.refuse(OpAnswer::Busy { era }));
        }
        let members = self.council.used;
        let plan = match target.plan(self.era(), &members) {
            Ok(plan) => plan,
            Err(fault) => return Err(self.refuse(OpAnswer::Refused(fault))),
        };
        let Ok(used) = self.welcome(target) else {
            return Err(self.refuse(no_memory()));
        };
        let opened = OpenPlan::new(target.asked(), plan);
        self.council.begin_plan(opened, used);
        Ok(())
    }

    /// The shelf of an acceptor that joins is started, or stays down by a fault; with any other change all go on as they are. Answers who is
    /// a member then, beside those that were.
    fn welcome(&mut self, target: &Target) -> Result<Members, AllocError>
        ensures welcomes { Welcomes (meaning S.Shelf V.Disk)
            self.old (asked_of target.now) self.new }
        ensures used { IfOk result
            (λ used. used ≡ used_with (asked_of target.now) self.old.council.used) }
        ensures faulted { OnOk result
            (FailsByFaults (meaning S.Shelf V.Disk) self.old (asked_of target.now) self.new) }
    {
        let mut used = self.council.used;
        match target {
            Target::Join(id) => {
                used.insert(*id);
                match self.restart_acceptor(*id) {
                    Ok(()) => Ok(used),
                    Err(fault) => match fault {
                        ShelfFault::NoMemory => Err(AllocError),
                        _ => Ok(used),
                    },
                }
            }
            Target::Leave(_) => Ok(used),
            Target::Resize { .. } => Ok(used),
        }
    }

    /// The next proposer enters the era that the change of membership leads to, for which the operator's call was opened: it is marked as
    /// in the era, keeps no promise, and its open round is closed, which its caller is told.
    ///
    /// The refusals, each of which the call is told, come in this order: [`Answer::RecordFull`] exactly where the marks that are made and
    /// all that are reserved are as many as a record holds; [`OpAnswer::ProposerDown`] exactly where the proposer is down, or goes down
    /// in this step, and then its open round is closed as by a crash; [`Answer::NoMemory`]. After each of them the step is still due.
    ///
    /// Where the shelves and the disks tell what they keep, whoever is marked as in an era was allowed to enter it: all were in the era
    /// before it, unless that is the first, and there each key of an earlier era was rescanned or is collected. The quorums of the eras that
    /// proposers work in meet.
    pub fn enter_era(&mut self, proposer: u8) -> Result<(), OpAnswer>
        requires { MayEnterNext self.old proposer }
        ensures step { Step (meaning S.Shelf V.Disk) self.old (EntersNext proposer) self.new }
        ensures ok { OnOk result ((order : OrderView)
            → self.old.council.order ≡ Some order → IsUnderWay self.new order.asked) }
        ensures err { IfErr result (WasToldOrder self.new) }
        ensures lawful { S.tells → V.tells → AreErasLawful self.new }
    {
        let reserved = reserved_in_all(&self.callers, &self.council);
        if self.record.marks().len() + reserved >= MOST_MARKS {
            return Err(self.refuse(OpAnswer::Stopped(Answer::RecordFull)));
        }
        let place = usize::from(proposer);
        if self.desks[place].is_down() {
            return Err(self.refuse(OpAnswer::ProposerDown { proposer }));
        }
        if self.record.reserve(reserved + 1).is_err() {
            return Err(self.refuse(no_memory()));
        }
        let Some(next) = self.council.next_era() else {
            unreachable!()
        };
        let desk = &mut self.desks[place];
        let caller = &mut self.callers[place];
        let moved = move_on(desk, caller, &mut self.flow, proposer, &next);
        let last_proposer = self.setup.proposers;
        let council = &mut self.council;
        mark_move(
            council,
            &mut self.record,
            &mut self.flow,
            last_proposer,
            proposer,
            next,
            moved,
        )
    }

    /// The operator's call is told that its step is refused, by an answer that holds no memory.
    pub(crate) fn refuse(&mut self, refusal: OpAnswer) -> OpAnswer
        requires { is_plain refusal ≡ true }
        ensures answer { result ≡ refusal }
        ensures told { self.new ≡ told_view self.old refusal }
    {
        self.council.tell(copy_of_op(&refusal));
        refusal
    }
}

/// The desk enters the era, or does not. Where it does, or goes down, its open round is closed, its caller is told so, and its frames join
/// the late ones; otherwise all stays.
fn move_on<V: Disk>(
    desk: &mut Desk<V>,
    caller: &mut Caller,
    flow: &mut Flow,
    proposer: u8,
    next: &Era,
) -> Result<(), VaultError>
    requires up { desk.old.down ≡ false }
    requires proposer { proposer ≤ 16 }
    requires open { IsSome desk.old.round → IsSome caller.old.call }
    ensures ok { OnOk result (LeavesDesk (EntersEra (disk_meaning V.Disk) next.now)
        (closed_with (λ proposed. moved_answer proposed next.now.number))
        proposer desk.old desk.new caller.old caller.new flow.old flow.new) }
    ensures fault { IsErrOf result VaultError.VaultFault
        → LeavesDesk (FailsToEnter (disk_meaning V.Disk) next.now) (closed_with crash_answer)
        proposer desk.old desk.new caller.old caller.new flow.old flow.new }
    ensures no_memory { IsErrOf result VaultError.NoMemory
        → Stays (disk_meaning V.Disk) desk.old desk.new caller.old caller.new flow.old flow.new }
    ensures cause { IfErr result (λ error. (error ≡ VaultError.VaultFault)
        ⊎ (error ≡ VaultError.NoMemory)) }
{
    let closes = has_round(desk);
    let proposed = caller.has_proposed();
    match desk.move_to(next) {
        Ok(()) => {
            leave(
                caller,
                flow,
                proposer,
                closes,
                moved_answer(proposed, next.number),
            );
            Ok(())
        }
        Err(VaultError::VaultFault) => {
            leave(caller, flow, proposer, closes, crash_answer(proposed));
            Err(VaultError::VaultFault)
        }
        Err(error) => Err(error),
    }
}

/// Whether the desk has an open round.
pub(crate) fn has_round<V: Disk>(desk: &Desk<V>) -> bool
    ensures { result ≡ is_some desk.now.round }
{
    desk.round().is_some()
}

/// The proposer's frames join the late ones, and where a round of it is closed, its caller is told so.
pub(crate) fn leave(caller: &mut Caller, flow: &mut Flow, proposer: u8, closes: bool, told: Answer)
    requires proposer { proposer ≤ 16 }
    requires open { closes ≡ true → IsSome caller.old.call }
    ensures flow { flow.new ≡ abandoned flow.old proposer }
    ensures closed { closes ≡ true → IfSome caller.old.call (λ call. caller.new
        ≡ record caller.old { call = Some (record (over call told) { is_closed = true }) }) }
    ensures stays { closes ≡ false → caller.new ≡ caller.old }
{
    flow.abandon(proposer);
    if closes {
        caller.close_round(told);
    }
}

/// The proposer that moved on is marked as in the era. Where it went down an exchange of proposer 0 is broken off, and the operator's call
/// is told; so it is where no memory was found.
fn mark_move(
    council: &mut Council,
    record: &mut Record,
    flow: &mut Flow,
    last_proposer: u8,
    proposer: u8,
    next: Era,
    moved: Result<(), VaultError>,
) -> Result<(), OpAnswer>
    requires plan { IsSomeAnd council.old.plan (λ plan. (entering plan.plan.left ≡ Some next)
        × (plan.entered ≡ proposer)) }
    requires proposer { proposer ≤ 16 }
    requires room { 0 < «record».old.room }
    requires cause { IfErr moved (λ error. (error ≡ VaultError.VaultFault)
        ⊎ (error ≡ VaultError.NoMemory)) }
    ensures moves { MarksMove last_proposer proposer next moved
        (council_view council.old) (council_view council.new)
        council.old.eras.0 council.new.eras.0 flow.old flow.new «record».old «record».new result }
{
    match moved {
        Ok(()) => {
            let number = next.number;
            council.enter(last_proposer, next);
            record.push(Mark::EraEntered { proposer, number });
            Ok(())
        }
        Err(VaultError::VaultFault) => {
            if proposer == 0 {
                flow.abandon(EXCHANGE_PLACE);
                council.break_off();
            }
            council.tell(OpAnswer::ProposerDown { proposer });
            Err(OpAnswer::ProposerDown { proposer })
        }
        Err(_) => {
            council.tell(no_memory());
            Err(no_memory())
        }
    }
}
