//! What one hold does for a change of membership: one call on the world, with the end of caller 0's call or of the operator's where that
//! told its answer.

ghost use Rattle.std.specs.Prelude.{◌≡◌, ◌↔◌, ◌≢◌, ℕ, false, [], length, Some, IsTrue, IfOk, IfErr, OnOk};
ghost use Rattle.cas_world_calls.specs.Council.{due_in};
ghost use Rattle.cas_model.specs.Council.{exchange_place};
ghost use Rattle.cas_model.specs.Collection.Step.{keep_always};
ghost use Rattle.cas_flow.specs.Flow.{queue_at};
ghost use Rattle.cas_members.specs.declared.plan.PlanStep.TheVariants as step;
ghost use Rattle.cas_world.specs.Eras.Plans.{HasFinished, IsAtEnd, IsFor, IsPartial, IsUnderWay, asked_of, rescanned_of, step_of};
ghost use Rattle.cas_board_steps.specs.Calls.Changes.{IsRefusalBehind, harm_by};
ghost use Rattle.cas_board_steps.specs.Kept.{IsKept, Makes};
ghost use Rattle.cas_board_steps.specs.Eras.Membership.{HasListing, HasPlan, HasRescan, RoundsAreKept, IsListedTo, IsMembersAnswer, IsPlanMark, IsRescanMark, IsRescannedTo, StandsAt};
ghost use Rattle.cas_board_steps.specs.Mine.{wanted_by, wants};
ghost use Rattle.cas_board_steps.specs.Calls.Open.{NothingIsOpen, rounds_after};
ghost use Rattle.cas_board_steps.specs.Exchanges.Orders.{HasOrder, IsToldIn, OperatesIn};
ghost use Rattle.cas_board_steps.specs.OwnParts.{own_part};

use crate::changes::{Begun, Stage, Waiting, begin, first_frame, go_on};
use crate::orders::open_order;
use cas_ballot::AcceptorId;
use cas_board_world::SteadyWorld;
use cas_change::{Key, Program};
use cas_disk::Disk;
use cas_fate::Verdict;
use cas_members::PlanStep;
use cas_record::{Answer, OpAnswer, keep_always};
use cas_slot::Shelf;
use cas_world::{Exchange, Target};
use cas_world_calls::answers::is_done;
use cas_world_calls::council::no_memory;
use std::alloc::Global;

/// A key that is proposed anew, by a call of caller 0 whose round has begun.
#[derive(Debug, PartialEq, Eq, Drop)]
pub struct Rescan {
    pub key: Key,
    pub begun: Begun,
}

/// What a change of membership does next.
#[derive(Debug, PartialEq, Eq, Drop)]
pub enum MembersStep {
    /// Its next step.
    Next,
    /// The members are asked for their next keys, of which this frame waits first.
    Lists(Option<Waiting>),
    /// A key is proposed anew.
    Rescans(Rescan),
}

/// Whether the change of membership is under way.
fn is_under_way<S: Shelf, V: Disk>(world: &SteadyWorld<S, V>, target: &Target) -> bool
    ensures { IsTrue result ↔ IsFor world.now.council.plan (asked_of target.now) }
{
    world.plan_is(&target.asked())
}

/// Begins a change of membership, as a call of the operator. Gives the program with which keys are proposed anew. After an `Err`, which is
/// [`Answer::RecordFull`] or [`Answer::NoMemory`], it was not begun.
pub fn order_members<S: Shelf, V: Disk>(
    alloc: Global,
    world: &mut SteadyWorld<S, V>,
    target: &Target,
) -> Result<Program, Answer>
    requires kept { IsKept world.old }
    requires free { NothingIsOpen (own_part world.old 0) }
    ensures kept { IsKept world.new }
    ensures last_proposer { world.new.last_proposer ≡ world.old.last_proposer }
    ensures makes { Makes 0 world.old world.new [] }
    ensures counted { rescanned_of world.new.council.plan ≡ rescanned_of world.old.council.plan }
    ensures program { IfOk result (λ program. program ≡ keep_always) }
    ensures ordered { OnOk result
        (HasOrder (asked_of target.now) (own_part world.new 0)) }
    ensures refused { IfErr result (λ why. IsRefusalBehind (length world.new.marks) why
        × NothingIsOpen (own_part world.new 0)) }
{
    match keep_always(alloc) {
        Ok(program) => match open_order(world, &target.asked()) {
            Ok(()) => Ok(program),
            Err(refusal) => Err(refusal),
        },
        Err(_) => Err(Answer::NoMemory { proposed: false }),
    }
}

/// The change of membership begins, unless it is under way. An `Err` is what the operator was told, and its call is over.
pub fn take_up<S: Shelf, V: Disk>(
    world: &mut SteadyWorld<S, V>,
    target: &Target,
) -> Result<(), OpAnswer>
    requires kept { IsKept world.old }
    requires ordered { HasOrder (asked_of target.now) (own_part world.old 0) }
    ensures kept { IsKept world.new }
    ensures last_proposer { world.new.last_proposer ≡ world.old.last_proposer }
    ensures makes { OnOk result (Makes 0 world.old world.new []) }
    ensures counted { OnOk result
        (rescanned_of world.new.council.plan ≡ rescanned_of world.old.council.plan) }
    ensures planned { OnOk result
        (HasPlan (asked_of target.now) (own_part world.new 0)) }
    ensures told { IfErr result
        (IsToldIn (asked_of target.now) IsPlanMark 0 world.old world.new) }
    ensures answer { IfErr result (IsMembersAnswer (asked_of target.now)) }
{
    if is_under_way(world, target) {
        return Ok(());
    }
    match world.open_change(target) {
        Ok(()) => Ok(()),
        Err(told) => Err(world.tell(told)),
    }
}

/// The next proposer enters the next era, if one is to be entered. An `Err` is what the operator was told, and its call is over.
fn enter<S: Shelf, V: Disk>(world: &mut SteadyWorld<S, V>, target: &Target) -> Result<(), OpAnswer>
    requires kept { IsKept world.old }
    requires planned { HasPlan (asked_of target.now) (own_part world.old 0) }
    ensures kept { IsKept world.new }
    ensures last_proposer { world.new.last_proposer ≡ world.old.last_proposer }
    ensures goes_on { OnOk result (OperatesIn IsPlanMark 0 world.old world.new) }
    ensures planned { OnOk result
        (HasPlan (asked_of target.now) (own_part world.new 0)) }
    ensures told { IfErr result
        (IsToldIn (asked_of target.now) IsPlanMark 0 world.old world.new) }
    ensures answer { IfErr result (IsMembersAnswer (asked_of target.now)) }
{
    let Some(proposer) = world.enter_next() else {
        return Ok(());
    };
    match world.enter_era(proposer) {
        Ok(()) => Ok(()),
        Err(told) => Err(world.tell(told)),
    }
}

/// Asks for the next keys of the era that is to be settled. An `Err` is what the operator was told, and its call is over.
fn list<S: Shelf, V: Disk>(
    world: &mut SteadyWorld<S, V>,
    target: &Target,
) -> Result<Option<Waiting>, OpAnswer>
    requires kept { IsKept world.old }
    requires planned { HasPlan (asked_of target.now) (own_part world.old 0) }
    requires settles { step_of world.old.council.plan ≡ Some step.Settle }
    requires partial { IsPartial world.old.council.plan }
    ensures kept { IsKept world.new }
    ensures last_proposer { world.new.last_proposer ≡ world.old.last_proposer }
    ensures makes { OnOk result (Makes 0 world.old world.new []) }
    ensures counted { OnOk result
        (rescanned_of world.new.council.plan ≡ rescanned_of world.old.council.plan) }
    ensures lists { OnOk result
        (HasListing (asked_of target.now) (own_part world.new 0)) }
    ensures told { IfErr result
        (IsToldIn (asked_of target.now) IsPlanMark 0 world.old world.new) }
    ensures answer { IfErr result (IsMembersAnswer (asked_of target.now)) }
{
    match world.ask_all(Exchange::List) {
        Ok(()) => Ok(first_frame(world, 0)),
        Err(told) => Err(world.tell(told)),
    }
}

/// Tells the operator that the change is at its end: the era that all work in, and how many keys were proposed anew.
fn finish<S: Shelf, V: Disk>(world: &mut SteadyWorld<S, V>, target: &Target) -> OpAnswer
    requires kept { IsKept world.old }
    requires planned { HasPlan (asked_of target.now) (own_part world.old 0) }
    requires end { IsAtEnd world.old }
    ensures kept { IsKept world.new }
    ensures last_proposer { world.new.last_proposer ≡ world.old.last_proposer }
    ensures told { IsToldIn (asked_of target.now)
        IsPlanMark 0 world.old world.new result }
    ensures answer { IsMembersAnswer (asked_of target.now) result }
{
    let answer = world.finished_answer(target);
    world.tell(answer)
}

/// Begins a call of caller 0 that proposes the key anew, which is due. An `Err` is what the operator was told, and its call is over.
fn begin_rescan<S: Shelf, V: Disk>(
    world: &mut SteadyWorld<S, V>,
    target: &Target,
    key: Key,
    program: &Program,
) -> Result<MembersStep, OpAnswer>
    requires kept { IsKept world.old }
    requires planned { HasPlan (asked_of target.now) (own_part world.old 0) }
    requires due { due_in world.old.council.plan ≡ Some key }
    requires program { program.now ≡ keep_always }
    ensures kept { IsKept world.new }
    ensures last_proposer { world.new.last_proposer ≡ world.old.last_proposer }
    ensures goes_on { OnOk result (OperatesIn IsPlanMark 0 world.old world.new) }
    ensures step { IfOk result (StandsAt (asked_of target.now)
        (own_part world.new 0) (wanted_by 0 world.new.marks)) }
    ensures told { IfErr result
        (IsToldIn (asked_of target.now) IsPlanMark 0 world.old world.new) }
    ensures answer { IfErr result (IsMembersAnswer (asked_of target.now)) }
{
    match begin(world, 0, &key, program) {
        Ok(begun) => Ok(MembersStep::Rescans(Rescan { key, begun })),
        Err(told) => {
            if is_done(&told) {
                return Ok(MembersStep::Next);
            }
            Err(world.tell(OpAnswer::Stopped(told)))
        }
    }
}

/// Begins a call that proposes this key anew, if one is due. An `Err` is what the operator was told, and its call is over.
fn begin_due<S: Shelf, V: Disk>(
    world: &mut SteadyWorld<S, V>,
    target: &Target,
    due: Option<Key>,
    program: &Program,
) -> Result<MembersStep, OpAnswer>
    requires kept { IsKept world.old }
    requires planned { HasPlan (asked_of target.now) (own_part world.old 0) }
    requires due { due ≡ due_in world.old.council.plan }
    requires program { program.now ≡ keep_always }
    ensures kept { IsKept world.new }
    ensures last_proposer { world.new.last_proposer ≡ world.old.last_proposer }
    ensures goes_on { OnOk result (OperatesIn IsPlanMark 0 world.old world.new) }
    ensures step { IfOk result (StandsAt (asked_of target.now)
        (own_part world.new 0) (wanted_by 0 world.new.marks)) }
    ensures told { IfErr result
        (IsToldIn (asked_of target.now) IsPlanMark 0 world.old world.new) }
    ensures answer { IfErr result (IsMembersAnswer (asked_of target.now)) }
{
    match due {
        Some(key) => begin_rescan(world, target, key, program),
        None => Ok(MembersStep::Next),
    }
}

/// Takes the key that is due, and begins a call that proposes it anew. An `Err` is what the operator was told, and its call is over.
fn take_key<S: Shelf, V: Disk>(
    world: &mut SteadyWorld<S, V>,
    target: &Target,
    program: &Program,
) -> Result<MembersStep, OpAnswer>
    requires kept { IsKept world.old }
    requires planned { HasPlan (asked_of target.now) (own_part world.old 0) }
    requires program { program.now ≡ keep_always }
    ensures kept { IsKept world.new }
    ensures last_proposer { world.new.last_proposer ≡ world.old.last_proposer }
    ensures goes_on { OnOk result (OperatesIn IsPlanMark 0 world.old world.new) }
    ensures step { IfOk result (StandsAt (asked_of target.now)
        (own_part world.new 0) (wanted_by 0 world.new.marks)) }
    ensures told { IfErr result
        (IsToldIn (asked_of target.now) IsPlanMark 0 world.old world.new) }
    ensures answer { IfErr result (IsMembersAnswer (asked_of target.now)) }
{
    match world.due_key() {
        Ok(due) => begin_due(world, target, due, program),
        Err(told) => Err(world.tell(told)),
    }
}

/// Asks for the next keys of the era that is to be settled or, once all are listed, proposes the next one anew. An `Err` is what the
/// operator was told, and its call is over.
fn settle<S: Shelf, V: Disk>(
    world: &mut SteadyWorld<S, V>,
    target: &Target,
    program: &Program,
) -> Result<MembersStep, OpAnswer>
    requires kept { IsKept world.old }
    requires planned { HasPlan (asked_of target.now) (own_part world.old 0) }
    requires settles { step_of world.old.council.plan ≡ Some step.Settle }
    requires program { program.now ≡ keep_always }
    ensures kept { IsKept world.new }
    ensures last_proposer { world.new.last_proposer ≡ world.old.last_proposer }
    ensures goes_on { OnOk result (OperatesIn IsPlanMark 0 world.old world.new) }
    ensures step { IfOk result (StandsAt (asked_of target.now)
        (own_part world.new 0) (wanted_by 0 world.new.marks)) }
    ensures told { IfErr result
        (IsToldIn (asked_of target.now) IsPlanMark 0 world.old world.new) }
    ensures answer { IfErr result (IsMembersAnswer (asked_of target.now)) }
{
    if world.settle_key().is_some() {
        return take_key(world, target, program);
    }
    match list(world, target) {
        Ok(waits) => Ok(MembersStep::Lists(waits)),
        Err(told) => Err(told),
    }
}

/// Begins the next step of the change of membership. An `Err` is what the operator was told, be it that the change is at its end, and its
/// call is over.
pub fn advance<S: Shelf, V: Disk>(
    world: &mut SteadyWorld<S, V>,
    target: &Target,
    program: &Program,
) -> Result<MembersStep, OpAnswer>
    requires kept { IsKept world.old }
    requires planned { HasPlan (asked_of target.now) (own_part world.old 0) }
    requires program { program.now ≡ keep_always }
    ensures kept { IsKept world.new }
    ensures last_proposer { world.new.last_proposer ≡ world.old.last_proposer }
    ensures goes_on { OnOk result (OperatesIn IsPlanMark 0 world.old world.new) }
    ensures step { IfOk result (StandsAt (asked_of target.now)
        (own_part world.new 0) (wanted_by 0 world.new.marks)) }
    ensures told { IfErr result
        (IsToldIn (asked_of target.now) IsPlanMark 0 world.old world.new) }
    ensures answer { IfErr result (IsMembersAnswer (asked_of target.now)) }
{
    match world.plan_step() {
        Some(PlanStep::Settle) => settle(world, target, program),
        Some(PlanStep::Finished) => Err(finish(world, target)),
        _ => match enter(world, target) {
            Ok(()) => Ok(MembersStep::Next),
            Err(told) => Err(told),
        },
    }
}

/// How far an exchange has come in which the members are asked for their next keys.
#[derive(Debug, PartialEq, Eq, Drop)]
pub enum Listing {
    /// This frame of it waits first.
    Waits(Option<Waiting>),
    /// It is over.
    Over,
}

/// Goes on with asking the members for their next keys: the first frame has its turn, of which this becomes; or, where none waits, what
/// they told is gathered. An `Err` is what the operator was told, and its call is over.
pub fn list_on<S: Shelf, V: Disk>(
    world: &mut SteadyWorld<S, V>,
    target: &Target,
    verdict: Verdict,
) -> Result<Listing, OpAnswer>
    requires kept { IsKept world.old }
    requires lists { HasListing (asked_of target.now) (own_part world.old 0) }
    ensures kept { IsKept world.new }
    ensures last_proposer { world.new.last_proposer ≡ world.old.last_proposer }
    ensures goes_on { OnOk result (OperatesIn IsPlanMark (harm_by verdict) world.old world.new) }
    ensures listed { IfOk result
        (IsListedTo (asked_of target.now) (own_part world.new 0)) }
    ensures told { IfErr result (IsToldIn (asked_of target.now) IsPlanMark
        (harm_by verdict) world.old world.new) }
    ensures answer { IfErr result (IsMembersAnswer (asked_of target.now)) }
{
    if world.front(0).is_none() {
        return match gather_list(world, target) {
            Ok(()) => Ok(Listing::Over),
            Err(told) => Err(told),
        };
    }
    match turn_list(world, target, verdict) {
        Ok(waits) => Ok(Listing::Waits(waits)),
        Err(told) => Err(told),
    }
}

/// What the members told of their next keys is gathered. An `Err` is what the operator was told, and its call is over.
fn gather_list<S: Shelf, V: Disk>(
    world: &mut SteadyWorld<S, V>,
    target: &Target,
) -> Result<(), OpAnswer>
    requires kept { IsKept world.old }
    requires lists { HasListing (asked_of target.now) (own_part world.old 0) }
    requires through { (queue_at world.old.flow exchange_place).messages ≡ [] }
    ensures kept { IsKept world.new }
    ensures last_proposer { world.new.last_proposer ≡ world.old.last_proposer }
    ensures goes_on { (most : ℕ) → OnOk result (OperatesIn IsPlanMark most world.old world.new) }
    ensures planned { OnOk result
        (HasPlan (asked_of target.now) (own_part world.new 0)) }
    ensures told { (most : ℕ) → IfErr result
        (IsToldIn (asked_of target.now) IsPlanMark most world.old world.new) }
    ensures answer { IfErr result (IsMembersAnswer (asked_of target.now)) }
{
    match world.gather() {
        Ok(_) => Ok(()),
        Err(told) => Err(world.tell(told)),
    }
}

/// The first frame in which members are asked for their next keys has its turn. Gives the next one that waits. An `Err` is what the
/// operator was told, and its call is over.
fn turn_list<S: Shelf, V: Disk>(
    world: &mut SteadyWorld<S, V>,
    target: &Target,
    verdict: Verdict,
) -> Result<Option<Waiting>, OpAnswer>
    requires kept { IsKept world.old }
    requires lists { HasListing (asked_of target.now) (own_part world.old 0) }
    requires waits { (queue_at world.old.flow exchange_place).messages ≢ [] }
    ensures kept { IsKept world.new }
    ensures last_proposer { world.new.last_proposer ≡ world.old.last_proposer }
    ensures goes_on { OnOk result (OperatesIn IsPlanMark (harm_by verdict) world.old world.new) }
    ensures lists { OnOk result
        (HasListing (asked_of target.now) (own_part world.new 0)) }
    ensures told { IfErr result (IsToldIn (asked_of target.now) IsPlanMark
        (harm_by verdict) world.old world.new) }
    ensures answer { IfErr result (IsMembersAnswer (asked_of target.now)) }
{
    match world.turn(0, verdict) {
        Ok(()) => Ok(first_frame(world, 0)),
        Err(_) => Err(world.tell(no_memory())),
    }
}

/// How far a call that proposes a key anew has come.
#[derive(Clone, Copy, Debug, PartialEq, Eq)]
pub enum Rescanning {
    Goes(Stage),
    /// It is done, and the key is counted.
    Counted,
}

/// Goes on with the call of that number, which proposes the key anew, as with any other. An `Err` is what the operator was told, and its
/// call is over. The call ends with a conflict only where no other round may follow it.
pub fn rescan_on<S: Shelf, V: Disk>(
    world: &mut SteadyWorld<S, V>,
    target: &Target,
    call: u32,
    key: &Key,
    program: &Program,
    verdict: Verdict,
    may_repeat: bool,
) -> Result<Rescanning, OpAnswer>
    requires kept { IsKept world.old }
    requires rescans { HasRescan (asked_of target.now) call key.now
        (own_part world.old 0) }
    requires wanted { wanted_by 0 world.old.marks ≡ Some (wants call key.now program.now) }
    ensures kept { IsKept world.new }
    ensures last_proposer { world.new.last_proposer ≡ world.old.last_proposer }
    ensures goes_on { OnOk result (OperatesIn IsPlanMark (harm_by verdict) world.old world.new) }
    ensures wanted { IfOk result (λ now. now ≢ Rescanning.Counted
        → wanted_by 0 world.new.marks ≡ wanted_by 0 world.old.marks) }
    ensures rescans { IfOk result
        (IsRescannedTo (asked_of target.now) call key.now (own_part world.new 0)) }
    ensures rounds { IfOk result
        (RoundsAreKept may_repeat (own_part world.old 0) (own_part world.new 0)) }
    ensures told { (tries : ℕ) → (may_repeat ≡ false → rounds_after (own_part world.old 0) ≡ tries)
        → IfErr result (IsToldIn (asked_of target.now)
        (IsRescanMark tries) (harm_by verdict) world.old world.new) }
    ensures answer { IfErr result (IsMembersAnswer (asked_of target.now)) }
{
    match go_on(world, 0, call, key, program, verdict, may_repeat) {
        Ok(stage) => Ok(Rescanning::Goes(stage)),
        Err(told) => {
            if is_done(&told) {
                return Ok(Rescanning::Counted);
            }
            Err(world.tell(OpAnswer::Stopped(told)))
        }
    }
}
