//! The collection of a key in a world, in parts: its tombstone first, then each renewal by itself, and then the rest.

ghost use Rattle.std.specs.Prelude.{◌≡◌, ◌≢◌, ℕ, Bool, List, [], None, Some, Ok, true, false, IfOk, IfErr, IfNone, IfSome, OnOk, OnErr, option_map, slice_get};
ghost use Rattle.cas_model.specs.Council.{IsAtRest, Question, exchange_place};
ghost use Rattle.cas_model.specs.Collection.Step.{keep_always};
ghost use Rattle.cas_collect.specs.declared.collect.CollectStep.TheVariants.{Renew as RenewStep, Ages as AgesStep, End as EndStep};
ghost use Rattle.cas_flow.specs.Flow.{queue_at};
ghost use Rattle.cas_record.specs.declared.answer.Answer.{Answer as AnAnswer};
ghost use Rattle.cas_record.specs.declared.answer.Answer.TheVariants as answer;
ghost use Rattle.cas_record.specs.declared.operator.Asked.TheVariants.{Collect as ToCollect};
ghost use Rattle.cas_record.specs.declared.operator.OpAnswer.TheVariants as op;
ghost use Rattle.cas_world.specs.Calls.Beginning.{HasNoCall};
ghost use Rattle.cas_world.specs.Collection.Collect.{leaves_no_call};
ghost use Rattle.cas_world.specs.Exchanges.Exchange.{MayAskThis, WasToldOrder};
ghost use Rattle.cas_world.specs.Eras.Plans.{HasCollectedAll};
ghost use Rattle.cas_world.specs.Readers.{next_number};
ghost use Rattle.casreg_script.specs.Collection.Collecting.{HasStopped, IsTombstoneSet, IsDue, IsInRound, IsRunning};
ghost use Rattle.casreg_script.specs.Exchanges.Exchanges.{CameOf, IsAsking, KeepsOrder};
ghost use Rattle.casreg_script.specs.Exchanges.Orders.{IsOrdered, IsFree};
ghost use Rattle.casreg_script.specs.Calls.Playing.{AskedCall as Wanted, IsOver, IsPlaying};
ghost use Rattle.test_world.specs.Tasks.{IsOfRemoval};
ghost use Rattle.test_world.specs.Play.{Goes, Leads};

use cas_ballot::AcceptorId;
use cas_change::{Key, Program};
use cas_disk::Disk;
use cas_fate::{Fate, Leg, Links, Verdict};
use cas_record::{Answer, Asked, OpAnswer};
use cas_slot::Shelf;
use cas_world::{Exchange, Gathered, Reading, World};
use std::alloc::AllocError;

/// The operator's call for the collection of the key is opened, and in one round the tombstone is proposed and acknowledged by all who
/// accept. What becomes of each frame the links say. After an `Err`, which is what the call was told, none is open.
pub fn begin_collection<S: Shelf, V: Disk>(
    world: &mut World<S, V>,
    links: &mut Links,
    asked: &Asked,
    key: &Key,
    program: &Program,
) -> Result<(), OpAnswer>
    requires asked { asked.now ≡ ToCollect key.now }
    requires program { program.now ≡ keep_always }
    requires rest { IsAtRest world.old.council }
    requires idle { HasNoCall world.old 0 }
    ensures due { OnOk result (IsDue world.new key.now (RenewStep 0)) }
    ensures rest { OnErr result (IsAtRest world.new.council) }
    ensures goes { Goes world.old world.new }
{
    match world.order(asked) {
        Ok(()) => match set_tombstone(world, links, key, program) {
            Ok(()) => Ok(()),
            Err(told) => Err(world.tell(told)),
        },
        Err(refusal) => Err(OpAnswer::Stopped(refusal)),
    }
}

/// Runs the call of the collection, and gathers what its round came to. An `Err` is what the operator's call was told.
fn set_tombstone<S: Shelf, V: Disk>(
    world: &mut World<S, V>,
    links: &mut Links,
    key: &Key,
    program: &Program,
) -> Result<(), OpAnswer>
    requires ordered { IsOrdered world.old (ToCollect key.now) }
    requires free { IsFree world.old }
    requires program { program.now ≡ keep_always }
    ensures due { OnOk result (IsDue world.new key.now (RenewStep 0)) }
    ensures told { IfErr result (WasToldOrder world.new) }
    ensures goes { Goes world.old world.new }
{
    run_call(world, links, key, program)?;
    world.gather()?;
    Ok(())
}

/// Runs the call of the collection, which has one round. Where a held state was read it is over without an end. An `Err` is what the
/// operator's call was told.
fn run_call<S: Shelf, V: Disk>(
    world: &mut World<S, V>,
    links: &mut Links,
    key: &Key,
    program: &Program,
) -> Result<(), OpAnswer>
    requires ordered { IsOrdered world.old (ToCollect key.now) }
    requires free { IsFree world.old }
    requires program { program.now ≡ keep_always }
    ensures tombstone_set { OnOk result (IsTombstoneSet world.new key.now) }
    ensures told { IfErr result (WasToldOrder world.new) }
    ensures goes { Goes world.old world.new }
{
    let call = world.next_call(0);
    match begin_call(world, links, call, key, program)? {
        Some(told) => match world.end_collect(call, told) {
            Answer::Done { .. } => Ok(()),
            stopped => Err(OpAnswer::Stopped(stopped)),
        },
        None => Ok(()),
    }
}

/// Begins the call of that number, and runs its round. Gives what the call is told; `None` comes where a held state was read, with which
/// it is over. An `Err` is what the operator's call was told, and the call was not begun.
fn begin_call<S: Shelf, V: Disk>(
    world: &mut World<S, V>,
    links: &mut Links,
    call: u32,
    key: &Key,
    program: &Program,
) -> Result<Option<Answer>, OpAnswer>
    requires ordered { IsOrdered world.old (ToCollect key.now) }
    requires free { IsFree world.old }
    requires next { option_map next_number (slice_get world.old.callers 0) ≡ Some call }
    requires program { program.now ≡ keep_always }
    ensures stopped { IfOk result (λ told. IfSome told
        (HasStopped world.new (record { number = call; key = key.now; program = keep_always }))) }
    ensures tombstone_set { IfOk result (λ told. IfNone told (IsTombstoneSet world.new key.now)) }
    ensures told { IfErr result (WasToldOrder world.new) }
    ensures none { OnErr result (HasNoCall world.new 0) }
    ensures leads { Leads world.old world.new }
{
    match world.begin_collect(call, key, program) {
        Ok(()) => Ok(round(world, links)),
        Err(refusal) => {
            if leaves_no_call(&refusal) {
                return Err(refusal);
            }
            Ok(Some(why_stopped(refusal)))
        }
    }
}

/// Whether a new call of a collection that is answered so was not begun.
fn leaves_no_call(answer: &OpAnswer) -> bool
    ensures { result ≡ leaves_no_call answer.now }
{
    match answer {
        OpAnswer::Stopped(told) => matches!(
            told,
            Answer::Down | Answer::RecordFull | Answer::NoMemory { .. }
        ),
        _ => true,
    }
}

/// Why the operator's call stopped, as its answer tells.
fn why_stopped(answer: OpAnswer) -> Answer
    requires { (why : AnAnswer) × (answer ≡ op.Stopped why) }
    ensures { answer ≡ op.Stopped result }
{
    match answer {
        OpAnswer::Stopped(why) => why,
        _ => unreachable!(),
    }
}

/// Runs the round of the call, which is open. Gives what the call is told; `None` comes where a held state was read.
fn round<S: Shelf, V: Disk>(world: &mut World<S, V>, links: &mut Links) -> Option<Answer>
    requires running { (asked : Wanted) × IsRunning world.old asked }
    ensures stopped { (asked : Wanted)
        → IsRunning world.old asked → IfSome result (HasStopped world.new asked) }
    ensures tombstone_set { (asked : Wanted)
        → IsRunning world.old asked → IfNone result (IsTombstoneSet world.new asked.key) }
    ensures leads { Leads world.old world.new }
{
    if world.has_proposed(0) {
        return Some(accept(world, links));
    }
    match prepare(world, links) {
        Ok(Reading::Empty) => Some(accept(world, links)),
        Ok(Reading::Held { .. }) => None,
        Err(told) => Some(told),
    }
}

/// Runs the prepare phase of the round up to what it read. An `Err` is what the call was told.
fn prepare<S: Shelf, V: Disk>(world: &mut World<S, V>, links: &mut Links) -> Result<Reading, Answer>
    requires open { (asked : Wanted) × IsInRound world.old asked false }
    ensures plays { (asked : Wanted) → IsInRound world.old asked false
        → result ≡ Ok Reading.Empty → IsInRound world.new asked true }
    ensures tombstone_set { (asked : Wanted) (version : ℕ) → IsInRound world.old asked false
        → result ≡ Ok (Reading.Held version) → IsTombstoneSet world.new asked.key }
    ensures stopped { (asked : Wanted)
        → IsInRound world.old asked false → IfErr result (HasStopped world.new asked) }
    ensures leads { Leads world.old world.new }
{
    if turns(world, links).is_err() {
        return Err(Answer::NoMemory { proposed: false });
    }
    world.propose_tombstone()
}

/// Runs the accept phase of the round, and gives what the call is told.
fn accept<S: Shelf, V: Disk>(world: &mut World<S, V>, links: &mut Links) -> Answer
    requires open { (asked : Wanted) × IsInRound world.old asked true }
    ensures stopped { (asked : Wanted)
        → IsInRound world.old asked true → HasStopped world.new asked result }
    ensures leads { Leads world.old world.new }
{
    if turns(world, links).is_err() {
        return Answer::NoMemory { proposed: true };
    }
    world.count_tombstone()
}

/// Makes turns until no frame of proposer 0 waits. What becomes of each frame the links say.
fn turns<S: Shelf, V: Disk>(world: &mut World<S, V>, links: &mut Links) -> Result<(), AllocError>
    requires quiet { world.old.council.exchange ≡ None }
    ensures plays { (asked : Wanted) (proposed : Bool) → IsPlaying world.old 0 asked proposed
        → OnOk result (IsPlaying world.new 0 asked proposed) }
    ensures through { OnOk result ((queue_at world.new.flow 0).messages ≡ []) }
    ensures over { (asked : Wanted) (proposed : Bool) → IsPlaying world.old 0 asked proposed
        → OnErr result (IsOver world.new 0 asked (answer.NoMemory proposed)) }
    ensures council { world.new.council ≡ world.old.council }
    ensures leads { Leads world.old world.new }
{
    while let Some(front) = world.front(0) {
        let verdict = verdict_of(links, front.0, front.1);
        world.turn(0, verdict)?;
    }
    Ok(())
}

/// What becomes of a frame of this leg, at whose other end this acceptor is. None is held back.
fn verdict_of(links: &mut Links, leg: Leg, peer: AcceptorId) -> Verdict
    ensures { result ≢ Verdict.Hold }
{
    match links.verdict(leg, peer) {
        Verdict::Hold => Verdict::Deliver,
        verdict => verdict,
    }
}

/// The steps of the collection that are left once all proposers are renewed. The operator's call ends with what comes of it.
pub fn end_collection<S: Shelf, V: Disk>(
    world: &mut World<S, V>,
    links: &mut Links,
    key: Key,
) -> OpAnswer
    requires due { IsDue world.old key AgesStep }
    ensures rest { IsAtRest world.new.council }
    ensures goes { Goes world.old world.new }
{
    match remove_slots(world, links) {
        Ok(()) => {
            let told = collected(world, key);
            world.tell(told)
        }
        Err(told) => world.tell(told),
    }
}

/// All members are told the new ages, the floor is marked, and the slots of the key are removed. An `Err` is what the operator's call was
/// told.
fn remove_slots<S: Shelf, V: Disk>(
    world: &mut World<S, V>,
    links: &mut Links,
) -> Result<(), OpAnswer>
    requires due { (key : List ℕ) × IsDue world.old key AgesStep }
    ensures end { (key : List ℕ)
        → IsDue world.old key AgesStep → OnOk result (IsDue world.new key EndStep) }
    ensures told { IfErr result (WasToldOrder world.new) }
    ensures goes { Goes world.old world.new }
{
    exchange(world, links, Exchange::Ages)?;
    world.floor();
    exchange(world, links, Exchange::Remove)?;
    Ok(())
}

/// What the operator is told at the end of the collection: at which ballot the tombstone stands, and how many members removed their slot and
/// kept it.
fn collected<S: Shelf, V: Disk>(world: &World<S, V>, key: Key) -> OpAnswer
    requires { IsDue world.now key EndStep }
    ensures { HasCollectedAll world.now result }
{
    let ballot = world.tombstone();
    let (removed, kept) = world.removals();
    OpAnswer::Collected {
        key,
        ballot,
        removed,
        kept,
    }
}

/// Asks all members for a step of a removal, and gathers what they told. An `Err` is what the operator's call was told.
fn exchange<S: Shelf, V: Disk>(
    world: &mut World<S, V>,
    links: &mut Links,
    what: Exchange,
) -> Result<Gathered, OpAnswer>
    requires may { MayAskThis world.old what }
    requires removal { IsOfRemoval what }
    ensures gathered { IfOk result (λ gathered. CameOf what world.old gathered world.new) }
    ensures told { IfErr result (WasToldOrder world.new) }
    ensures goes { Goes world.old world.new }
{
    world.ask_all(what)?;
    if ask_turns(world, links).is_err() {
        return Err(OpAnswer::Stopped(Answer::NoMemory { proposed: false }));
    }
    world.gather()
}

/// Makes turns until no frame of the exchange waits. What becomes of each frame the links say.
fn ask_turns<S: Shelf, V: Disk>(
    world: &mut World<S, V>,
    links: &mut Links,
) -> Result<(), AllocError>
    requires asks { (question : Question) × IsAsking world.old question }
    ensures asks { (question : Question)
        → IsAsking world.old question → OnOk result (IsAsking world.new question) }
    ensures through { OnOk result ((queue_at world.new.flow exchange_place).messages ≡ []) }
    ensures order { OnOk result (KeepsOrder world.old world.new) }
    ensures told { OnErr result (WasToldOrder world.new (op.Stopped (answer.NoMemory false))) }
    ensures goes { Goes world.old world.new }
{
    while let Some(front) = world.front(0) {
        let verdict = verdict_of(links, front.0, front.1);
        world.turn(0, verdict)?;
    }
    Ok(())
}
