//! What one hold does for a collection of the operator: one call on the world that makes marks or asks, with the ends of the collection's
//! call and of the operator's where that told their answers.

ghost use Rattle.std.specs.Prelude.{◌≡◌, ◌≢◌, ◌↔◌, ◌⊎◌, ◌≤◌, ℕ, List, [], length, None, Some, Ok, Err, true, false, IsTrue, IsSome, IfSome, IfOk, IfErr, OnOk};
ghost use Rattle.cas_model.specs.Council.{exchange_place};
ghost use Rattle.cas_protocol.specs.Protocol.{is_done};
ghost use Rattle.cas_model.specs.Collection.Step.{keep_always};
ghost use Rattle.cas_model.specs.View.{CallerView, IsAt, meaning};
ghost use Rattle.cas_collect.specs.declared.collect.CollectStep.TheVariants as step;
ghost use Rattle.cas_flow.specs.Flow.{queue_at};
ghost use Rattle.cas_board_steps.specs.Collection.Collecting.{CollectsIn, HasTombstoneCall, HasCourse, HasQuestion, HasStep, IsTombstoneMark, IsCollectAnswer, IsCollectingMark, IsRefusedTombstone, HasRoundsWithin, Stops, TellsRefusal, most_rounds};
ghost use Rattle.cas_board_steps.specs.Calls.Changes.{IsRefusalBehind, harm_by};
ghost use Rattle.cas_board_steps.specs.Kept.{IsKept, Makes};
ghost use Rattle.cas_board_steps.specs.Calls.Open.{NothingIsOpen};
ghost use Rattle.cas_board_steps.specs.Exchanges.Orders.{HasOrder, IsToldIn, OperatesIn};
ghost use Rattle.cas_board_steps.specs.OwnParts.{own_part};
ghost use Rattle.cas_board_steps.specs.Calls.Stages.{front_of};
ghost use Rattle.cas_proposer.specs.Desk.{DeskView};
ghost use Rattle.cas_record.specs.declared.operator.Asked.TheVariants as asked;
ghost use Rattle.cas_world.specs.Collection.Collect.{IsCollectingCall, leaves_no_call};
ghost use Rattle.cas_world.specs.Eras.Plans.{rescanned_of};
ghost use Rattle.cas_world.specs.Readers.{closed_in};
ghost use Rattle.cas_world.specs.World.{IsInPhase, WasTold};

use crate::changes::{Waiting, first_frame};
use crate::orders::open_order;
use cas_board_world::SteadyWorld;
use cas_change::{Key, Program};
use cas_disk::Disk;
use cas_fate::Verdict;
use cas_record::{Answer, Asked, OpAnswer, keep_always};
use cas_slot::Shelf;
use cas_world::{Exchange, Reading};
use cas_world_calls::council::no_memory;
use std::alloc::{AllocError, Global};

/// How far a collection has come.
#[derive(Clone, Copy, Debug, PartialEq, Eq)]
pub enum Course {
    /// The operator's call is open, and nothing else.
    Ordered,
    /// The call that buries the key, by a tombstone, is open, and has had so many rounds.
    Buries { call: u32, rounds: u32 },
    /// That call is over.
    TombstoneSet,
    /// Proposers are renewed, until none is left.
    Renews,
    /// The members were told the new ages.
    HearsAges,
    /// The tombstone may become the key's floor.
    Floors,
    /// The members may be asked to remove their slots.
    Removes,
    /// They were asked.
    HearsRemovals,
}

/// A collection that the operator's call was opened for.
#[derive(Debug, PartialEq, Eq, Drop)]
pub struct KeyCollection {
    pub key: Key,
    /// The program of the call that buries the key.
    pub program: Program,
    /// How many rounds that call has at most, from 1.
    pub tries: u32,
    pub course: Course,
    /// The first frame of its round, or of its exchange, that waits.
    pub waits: Option<Waiting>,
}

/// Begins a collection of the key, as a call of the operator, whose call that buries the key has so many rounds at most. After an `Err`,
/// which is [`Answer::RecordFull`] or [`Answer::NoMemory`], it was not begun.
pub fn order_collection<S: Shelf, V: Disk>(
    alloc: Global,
    world: &mut SteadyWorld<S, V>,
    key: &Key,
    tries: u32,
) -> Result<KeyCollection, Answer>
    requires kept { IsKept world.old }
    requires free { NothingIsOpen (own_part world.old 0) }
    ensures kept { IsKept world.new }
    ensures last_proposer { world.new.last_proposer ≡ world.old.last_proposer }
    ensures makes { Makes 0 world.old world.new [] }
    ensures counted { rescanned_of world.new.council.plan ≡ rescanned_of world.old.council.plan }
    ensures key { IfOk result (λ collecting. collecting.key ≡ key.now) }
    ensures keeps { IfOk result (λ collecting. collecting.program ≡ keep_always) }
    ensures tries { IfOk result (λ collecting. collecting.tries ≡ tries) }
    ensures ordered { IfOk result (λ collecting. HasCourse key.now
        (most_rounds tries) collecting.course (own_part world.new 0) world.new.marks) }
    ensures refused { IfErr result (λ why. IsRefusalBehind (length world.new.marks) why
        × NothingIsOpen (own_part world.new 0)) }
{
    match prepare(alloc, key, tries) {
        Ok((asked, collecting)) => match open_order(world, &asked) {
            Ok(()) => Ok(collecting),
            Err(refusal) => Err(refusal),
        },
        Err(_) => Err(Answer::NoMemory { proposed: false }),
    }
}

/// What the operator asks for, and the collection of the key that it is.
fn prepare(alloc: Global, key: &Key, tries: u32) -> Result<(Asked, KeyCollection), AllocError>
    ensures asked { IfOk result (λ both. both.0 ≡ asked.Collect key.now) }
    ensures key { IfOk result (λ both. both.1.key ≡ key.now) }
    ensures keeps { IfOk result (λ both. both.1.program ≡ keep_always) }
    ensures tries { IfOk result (λ both. both.1.tries ≡ tries) }
    ensures course { IfOk result (λ both. both.1.course ≡ Course.Ordered) }
{
    let asked = Asked::Collect(key.copy()?);
    let key = key.copy()?;
    let program = keep_always(alloc)?;
    let collecting = KeyCollection {
        key,
        program,
        tries,
        course: Course::Ordered,
        waits: None,
    };
    Ok((asked, collecting))
}

/// Goes on with the collection: its call begins, or goes on; or its next step is taken. If a frame waits, the verdict says what becomes of
/// the first one. An `Err` is what the operator was told, and its call is over. The collection's call ends with a conflict only once it has
/// had all its rounds.
pub fn go_on_collecting<S: Shelf, V: Disk>(
    world: &mut SteadyWorld<S, V>,
    collecting: KeyCollection,
    verdict: Verdict,
) -> Result<KeyCollection, OpAnswer>
    requires kept { IsKept world.old }
    requires keeps { collecting.program ≡ keep_always }
    requires at { HasCourse collecting.key
        (most_rounds collecting.tries) collecting.course (own_part world.old 0) world.old.marks }
    ensures kept { IsKept world.new }
    ensures last_proposer { world.new.last_proposer ≡ world.old.last_proposer }
    ensures key { IfOk result (λ next. next.key ≡ collecting.key) }
    ensures keeps { IfOk result (λ next. next.program ≡ keep_always) }
    ensures tries { IfOk result (λ next. next.tries ≡ collecting.tries) }
    ensures goes_on { OnOk result
        (OperatesIn (IsTombstoneMark collecting.key) (harm_by verdict) world.old world.new) }
    ensures at { IfOk result (λ next. HasCourse collecting.key
        (most_rounds collecting.tries) next.course (own_part world.new 0) world.new.marks) }
    ensures told { IfErr result (IsToldIn (asked.Collect collecting.key) (IsCollectingMark
        collecting.key (most_rounds collecting.tries)) (harm_by verdict) world.old world.new) }
    ensures answer { IfErr result (IsCollectAnswer collecting.key) }
{
    let KeyCollection {
        key,
        program,
        tries,
        course,
        waits: _,
    } = collecting;
    if are_removals_heard(world, course) {
        return Err(gather_removals(world, key));
    }
    match take_step(world, &key, &program, tries, course, verdict) {
        Ok(course) => Ok(KeyCollection {
            key,
            program,
            tries,
            course,
            waits: first_frame(world, 0),
        }),
        Err(told) => Err(told),
    }
}

/// Whether the members were asked to remove their slots, and no frame of that waits.
fn are_removals_heard<S: Shelf, V: Disk>(world: &SteadyWorld<S, V>, course: Course) -> bool
    ensures { IsTrue result ↔ (course ≡ Course.HearsRemovals) × (front_of world.now 0 ≡ None) }
{
    match course {
        Course::HearsRemovals => world.front(0).is_none(),
        _ => false,
    }
}

/// Takes the next step of the collection of the key from there. An `Err` is what the operator was told.
fn take_step<S: Shelf, V: Disk>(
    world: &mut SteadyWorld<S, V>,
    key: &Key,
    program: &Program,
    tries: u32,
    course: Course,
    verdict: Verdict,
) -> Result<Course, OpAnswer>
    requires kept { IsKept world.old }
    requires keeps { program.now ≡ keep_always }
    requires at { HasCourse key.now
        (most_rounds tries) course (own_part world.old 0) world.old.marks }
    requires waits { course ≡ Course.HearsRemovals
        → (queue_at world.old.flow exchange_place).messages ≢ [] }
    ensures kept { IsKept world.new }
    ensures last_proposer { world.new.last_proposer ≡ world.old.last_proposer }
    ensures collects { CollectsIn key.now
        (most_rounds tries) (harm_by verdict) world.old world.new result }
{
    match course {
        Course::Ordered => begin_tombstone(world, key, program),
        Course::Buries { call, rounds } => {
            go_on_setting_tombstone(world, key, program, tries, call, rounds, verdict)
        }
        Course::TombstoneSet => gather_round(world, key),
        Course::Renews => renew(world, key),
        Course::HearsAges => hear_ages(world, key, verdict),
        Course::Floors => Ok(floor(world, key)),
        Course::Removes => ask_removals(world, key),
        Course::HearsRemovals => hear_removals(world, key, verdict),
    }
}

/// Begins the collection's call. An `Err` is what the operator was told.
fn begin_tombstone<S: Shelf, V: Disk>(
    world: &mut SteadyWorld<S, V>,
    key: &Key,
    program: &Program,
) -> Result<Course, OpAnswer>
    requires kept { IsKept world.old }
    requires keeps { program.now ≡ keep_always }
    requires at { HasOrder (asked.Collect key.now) (own_part world.old 0) }
    ensures kept { IsKept world.new }
    ensures last_proposer { world.new.last_proposer ≡ world.old.last_proposer }
    ensures collects { (tries most : ℕ)
        → 1 ≤ tries → CollectsIn key.now tries most world.old world.new result }
{
    let call = world.next_call(0);
    match world.begin_collect(call, key, program) {
        Ok(()) => Ok(Course::Buries { call, rounds: 1 }),
        Err(refusal) => Err(refuse_tombstone(world, call, refusal)),
    }
}

/// The collection's call was refused: it was not begun, or ends with what it was told. Gives what the operator was told.
fn refuse_tombstone<S: Shelf, V: Disk>(
    world: &mut SteadyWorld<S, V>,
    call: u32,
    refusal: OpAnswer,
) -> OpAnswer
    requires refused { IsRefusedTombstone world.old call refusal }
    ensures same { result ≡ refusal }
    ensures stops { TellsRefusal (meaning S.Shelf V.Disk) world.old refusal world.new }
{
    match refusal {
        OpAnswer::Stopped(told) => {
            if leaves_no_call(&told) {
                world.tell(OpAnswer::Stopped(told))
            } else {
                stop(world, call, told)
            }
        }
        other => world.tell(other),
    }
}

/// Goes on with the collection's call of that number, as with any other. An `Err` is what the operator was told.
fn go_on_setting_tombstone<S: Shelf, V: Disk>(
    world: &mut SteadyWorld<S, V>,
    key: &Key,
    program: &Program,
    tries: u32,
    call: u32,
    rounds: u32,
    verdict: Verdict,
) -> Result<Course, OpAnswer>
    requires kept { IsKept world.old }
    requires keeps { program.now ≡ keep_always }
    requires at { HasTombstoneCall key.now call (own_part world.old 0) world.old.marks }
    requires within { HasRoundsWithin (most_rounds tries) rounds (own_part world.old 0) }
    ensures kept { IsKept world.new }
    ensures last_proposer { world.new.last_proposer ≡ world.old.last_proposer }
    ensures collects { CollectsIn key.now
        (most_rounds tries) (harm_by verdict) world.old world.new result }
{
    if let Some(told) = world.closed(0) {
        return Err(stop(world, call, told));
    }
    if world.verdict(0).is_none() {
        return set_tombstone_again(world, key, program, call, rounds);
    }
    if world.front(0).is_some() {
        return take_tombstone_turn(world, key, call, rounds, verdict);
    }
    if world.has_proposed(0) {
        return count_tombstone(world, key, call);
    }
    propose_tombstone(world, key, tries, call, rounds)
}

/// Begins another round of the collection's call, whose last one ended with a conflict. An `Err` is what the operator was told.
fn set_tombstone_again<S: Shelf, V: Disk>(
    world: &mut SteadyWorld<S, V>,
    key: &Key,
    program: &Program,
    call: u32,
    rounds: u32,
) -> Result<Course, OpAnswer>
    requires kept { IsKept world.old }
    requires keeps { program.now ≡ keep_always }
    requires at { HasTombstoneCall key.now call (own_part world.old 0) world.old.marks }
    requires idle { (desk : DeskView V) → IsAt world.old.desks 0 desk → desk.round ≡ None }
    requires unclosed { (seen : CallerView)
        → IsAt world.old.callers 0 seen → closed_in seen.call ≡ None }
    ensures kept { IsKept world.new }
    ensures last_proposer { world.new.last_proposer ≡ world.old.last_proposer }
    ensures collects { (tries most : ℕ) → HasRoundsWithin tries rounds (own_part world.old 0)
        → CollectsIn key.now tries most world.old world.new result }
{
    match world.begin_collect(call, key, program) {
        Ok(()) => Ok(Course::Buries {
            call,
            rounds: rounds.saturating_add(1),
        }),
        Err(OpAnswer::Stopped(told)) => Err(stop(world, call, told)),
        Err(_) => unreachable!(),
    }
}

/// The first frame of the collection's round has its turn. An `Err` is what the operator was told, for want of memory.
fn take_tombstone_turn<S: Shelf, V: Disk>(
    world: &mut SteadyWorld<S, V>,
    key: &Key,
    call: u32,
    rounds: u32,
    verdict: Verdict,
) -> Result<Course, OpAnswer>
    requires kept { IsKept world.old }
    requires at { HasTombstoneCall key.now call (own_part world.old 0) world.old.marks }
    requires running { (desk : DeskView V) → IsAt world.old.desks 0 desk → IsSome desk.round }
    requires waits { (queue_at world.old.flow 0).messages ≢ [] }
    ensures kept { IsKept world.new }
    ensures last_proposer { world.new.last_proposer ≡ world.old.last_proposer }
    ensures collects { (tries : ℕ) → HasRoundsWithin tries rounds (own_part world.old 0)
        → CollectsIn key.now tries (harm_by verdict) world.old world.new result }
{
    match world.turn(0, verdict) {
        Ok(()) => Ok(Course::Buries { call, rounds }),
        Err(_) => {
            let proposed = world.has_proposed(0);
            Err(stop(world, call, Answer::NoMemory { proposed }))
        }
    }
}

/// Ends the prepare phase of the collection's round: the tombstone is proposed, or another round may follow a conflict; or it read a held
/// state, and its call is over. An `Err` is what the operator was told.
fn propose_tombstone<S: Shelf, V: Disk>(
    world: &mut SteadyWorld<S, V>,
    key: &Key,
    tries: u32,
    call: u32,
    rounds: u32,
) -> Result<Course, OpAnswer>
    requires kept { IsKept world.old }
    requires at { HasTombstoneCall key.now call (own_part world.old 0) world.old.marks }
    requires within { HasRoundsWithin (most_rounds tries) rounds (own_part world.old 0) }
    requires preparing { IsInPhase world.old 0 true }
    requires unproposed { (seen : CallerView) → IsAt world.old.callers 0 seen
        → IfSome seen.call (λ open_call. open_call.proposed ≡ None) }
    ensures kept { IsKept world.new }
    ensures last_proposer { world.new.last_proposer ≡ world.old.last_proposer }
    ensures collects { (most : ℕ)
        → CollectsIn key.now (most_rounds tries) most world.old world.new result }
{
    match world.propose_tombstone() {
        Ok(Reading::Empty) => Ok(Course::Buries { call, rounds }),
        Ok(Reading::Held { .. }) => Ok(Course::TombstoneSet),
        Err(told) => {
            if rounds < tries && told.is_conflict() {
                return Ok(Course::Buries { call, rounds });
            }
            Err(stop(world, call, told))
        }
    }
}

/// Ends the accept phase of the collection's round, and its call. An `Err` is what the operator was told.
fn count_tombstone<S: Shelf, V: Disk>(
    world: &mut SteadyWorld<S, V>,
    key: &Key,
    call: u32,
) -> Result<Course, OpAnswer>
    requires kept { IsKept world.old }
    requires at { HasTombstoneCall key.now call (own_part world.old 0) world.old.marks }
    requires counting { IsInPhase world.old 0 false }
    ensures kept { IsKept world.new }
    ensures last_proposer { world.new.last_proposer ≡ world.old.last_proposer }
    ensures collects { (tries most : ℕ) → CollectsIn key.now tries most world.old world.new result }
{
    let told = world.count_tombstone();
    if is_done(&told) {
        let _answer = world.end_collect(call, told);
        return Ok(Course::TombstoneSet);
    }
    Err(stop(world, call, told))
}

/// Ends the collection's call with what it was told last, and tells the operator that it stopped, and why.
fn stop<S: Shelf, V: Disk>(world: &mut SteadyWorld<S, V>, call: u32, told: Answer) -> OpAnswer
    requires told { WasTold world.old 0 call told }
    requires calling { IsCollectingCall world.old }
    requires undone { is_done told ≡ false }
    ensures same { result ≡ OpAnswer.Stopped told }
    ensures stops { Stops (meaning S.Shelf V.Disk) world.old told world.new }
{
    let answer = world.end_collect(call, told);
    world.tell(OpAnswer::Stopped(answer))
}

/// The round is over, and the renewals are due where all who accept acknowledged the tombstone. An `Err` is what the operator was told.
fn gather_round<S: Shelf, V: Disk>(
    world: &mut SteadyWorld<S, V>,
    key: &Key,
) -> Result<Course, OpAnswer>
    requires kept { IsKept world.old }
    requires at { HasStep key.now step.Round (own_part world.old 0) }
    ensures kept { IsKept world.new }
    ensures last_proposer { world.new.last_proposer ≡ world.old.last_proposer }
    ensures collects { (tries most : ℕ) → CollectsIn key.now tries most world.old world.new result }
{
    match world.gather() {
        Ok(_) => Ok(Course::Renews),
        Err(told) => Err(world.tell(told)),
    }
}

/// The next proposer is renewed; or, where none is left, all members are told the new ages. An `Err` is what the operator was told.
fn renew<S: Shelf, V: Disk>(world: &mut SteadyWorld<S, V>, key: &Key) -> Result<Course, OpAnswer>
    requires kept { IsKept world.old }
    requires at { HasStep key.now step.Ages (own_part world.old 0)
        ⊎ ((proposer : ℕ) × HasStep key.now (step.Renew proposer) (own_part world.old 0)) }
    ensures kept { IsKept world.new }
    ensures last_proposer { world.new.last_proposer ≡ world.old.last_proposer }
    ensures collects { (tries most : ℕ) → CollectsIn key.now tries most world.old world.new result }
{
    match world.renew_next() {
        Some(proposer) => renew_proposer(world, key, proposer),
        None => ask_ages(world, key),
    }
}

/// The proposer is renewed. An `Err` is what the operator was told.
fn renew_proposer<S: Shelf, V: Disk>(
    world: &mut SteadyWorld<S, V>,
    key: &Key,
    proposer: u8,
) -> Result<Course, OpAnswer>
    requires known { proposer ≤ world.old.last_proposer }
    requires kept { IsKept world.old }
    requires at { HasStep key.now (step.Renew proposer) (own_part world.old 0) }
    ensures kept { IsKept world.new }
    ensures last_proposer { world.new.last_proposer ≡ world.old.last_proposer }
    ensures collects { (tries most : ℕ) → CollectsIn key.now tries most world.old world.new result }
{
    match world.renew(proposer) {
        Ok(_) => Ok(Course::Renews),
        Err(told) => Err(world.tell(told)),
    }
}

/// All members are told the new ages. An `Err` is what the operator was told.
fn ask_ages<S: Shelf, V: Disk>(world: &mut SteadyWorld<S, V>, key: &Key) -> Result<Course, OpAnswer>
    requires kept { IsKept world.old }
    requires at { HasStep key.now step.Ages (own_part world.old 0) }
    ensures kept { IsKept world.new }
    ensures last_proposer { world.new.last_proposer ≡ world.old.last_proposer }
    ensures collects { (tries most : ℕ) → CollectsIn key.now tries most world.old world.new result }
{
    match world.ask_all(Exchange::Ages) {
        Ok(()) => Ok(Course::HearsAges),
        Err(told) => Err(world.tell(told)),
    }
}

/// All members are asked to remove their slots. An `Err` is what the operator was told.
fn ask_removals<S: Shelf, V: Disk>(
    world: &mut SteadyWorld<S, V>,
    key: &Key,
) -> Result<Course, OpAnswer>
    requires kept { IsKept world.old }
    requires at { HasStep key.now step.Remove (own_part world.old 0) }
    ensures kept { IsKept world.new }
    ensures last_proposer { world.new.last_proposer ≡ world.old.last_proposer }
    ensures collects { (tries most : ℕ) → CollectsIn key.now tries most world.old world.new result }
{
    match world.ask_all(Exchange::Remove) {
        Ok(()) => Ok(Course::HearsRemovals),
        Err(told) => Err(world.tell(told)),
    }
}

/// The first frame that waits has its turn; or, where none does, what the members told of the new ages is gathered. An `Err` is what the
/// operator was told.
fn hear_ages<S: Shelf, V: Disk>(
    world: &mut SteadyWorld<S, V>,
    key: &Key,
    verdict: Verdict,
) -> Result<Course, OpAnswer>
    requires kept { IsKept world.old }
    requires at { HasQuestion key.now step.Ages (own_part world.old 0) }
    ensures kept { IsKept world.new }
    ensures last_proposer { world.new.last_proposer ≡ world.old.last_proposer }
    ensures collects { (tries : ℕ)
        → CollectsIn key.now tries (harm_by verdict) world.old world.new result }
{
    if world.front(0).is_none() {
        return gather_ages(world, key);
    }
    match world.turn(0, verdict) {
        Ok(()) => Ok(Course::HearsAges),
        Err(_) => Err(world.tell(no_memory())),
    }
}

/// What the members told of the new ages is gathered, and the floor is due where all confirmed them. An `Err` is what the operator was told.
fn gather_ages<S: Shelf, V: Disk>(
    world: &mut SteadyWorld<S, V>,
    key: &Key,
) -> Result<Course, OpAnswer>
    requires kept { IsKept world.old }
    requires at { HasQuestion key.now step.Ages (own_part world.old 0) }
    requires through { (queue_at world.old.flow exchange_place).messages ≡ [] }
    ensures kept { IsKept world.new }
    ensures last_proposer { world.new.last_proposer ≡ world.old.last_proposer }
    ensures collects { (tries most : ℕ) → CollectsIn key.now tries most world.old world.new result }
{
    match world.gather() {
        Ok(_) => Ok(Course::Floors),
        Err(told) => Err(world.tell(told)),
    }
}

/// The tombstone becomes the floor of its key.
fn floor<S: Shelf, V: Disk>(world: &mut SteadyWorld<S, V>, key: &Key) -> Course
    requires kept { IsKept world.old }
    requires at { HasStep key.now step.Floor (own_part world.old 0) }
    ensures kept { IsKept world.new }
    ensures last_proposer { world.new.last_proposer ≡ world.old.last_proposer }
    ensures collects { (tries most : ℕ)
        → CollectsIn key.now tries most world.old world.new (Ok result) }
{
    world.floor();
    Course::Removes
}

/// The first frame of the removals has its turn. An `Err` is what the operator was told.
fn hear_removals<S: Shelf, V: Disk>(
    world: &mut SteadyWorld<S, V>,
    key: &Key,
    verdict: Verdict,
) -> Result<Course, OpAnswer>
    requires kept { IsKept world.old }
    requires at { HasQuestion key.now step.Remove (own_part world.old 0) }
    requires waits { (queue_at world.old.flow exchange_place).messages ≢ [] }
    ensures kept { IsKept world.new }
    ensures last_proposer { world.new.last_proposer ≡ world.old.last_proposer }
    ensures collects { (tries : ℕ)
        → CollectsIn key.now tries (harm_by verdict) world.old world.new result }
{
    match world.turn(0, verdict) {
        Ok(()) => Ok(Course::HearsRemovals),
        Err(_) => Err(world.tell(no_memory())),
    }
}

/// The removals are gathered, and the operator is told that the key is collected, or why it is not.
fn gather_removals<S: Shelf, V: Disk>(world: &mut SteadyWorld<S, V>, key: Key) -> OpAnswer
    requires kept { IsKept world.old }
    requires at { HasQuestion key step.Remove (own_part world.old 0) }
    requires through { (queue_at world.old.flow exchange_place).messages ≡ [] }
    ensures kept { IsKept world.new }
    ensures last_proposer { world.new.last_proposer ≡ world.old.last_proposer }
    ensures collects { (tries most : ℕ)
        → CollectsIn key tries most world.old world.new (Err result) }
{
    match world.gather() {
        Ok(_) => {
            let ballot = world.tombstone();
            let (removed, kept) = world.removals();
            world.tell(OpAnswer::Collected {
                key,
                ballot,
                removed,
                kept,
            })
        }
        Err(told) => world.tell(told),
    }
}

/// Whether it tells that the change is done.
fn is_done(answer: &Answer) -> bool
    ensures { result ≡ is_done answer.now }
{
    matches!(answer, Answer::Done { .. })
}

/// Whether a collection's new call that is refused so was not begun.
fn leaves_no_call(answer: &Answer) -> bool
    ensures { result ≡ leaves_no_call (OpAnswer.Stopped answer.now) }
{
    matches!(
        answer,
        Answer::Down | Answer::RecordFull | Answer::NoMemory { .. }
    )
}
