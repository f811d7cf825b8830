//! One collection of a deleted key, from the operator's call to its answer.

ghost use Rattle.std.specs.Prelude.{◌≡◌, ◌≤◌, ℕ, List, Some, Ok, true, false, IfOk, IfErr, IfSome, IfNone, OnOk, OnErr, option_map, slice_get};
ghost use Rattle.cas_model.specs.Council.{IsAtRest};
ghost use Rattle.cas_model.specs.Collection.Step.{keep_always};
ghost use Rattle.cas_model.specs.View.{meaning};
ghost use Rattle.cas_collect.specs.declared.collect.CollectStep.TheVariants.{Renew as RenewStep, Ages as AgesStep, End as EndStep};
ghost use Rattle.cas_record.specs.declared.answer.Answer.{Answer as AnAnswer};
ghost use Rattle.cas_record.specs.declared.operator.Asked.TheVariants.{Collect as ToCollect};
ghost use Rattle.cas_record.specs.declared.operator.OpAnswer.TheVariants as op;
ghost use Rattle.cas_world.specs.Calls.Beginning.{HasNoCall};
ghost use Rattle.cas_world.specs.Collection.Collect.{leaves_no_call};
ghost use Rattle.cas_world.specs.Exchanges.Exchange.{WasToldOrder};
ghost use Rattle.cas_world.specs.Eras.Plans.{HasCollectedAll};
ghost use Rattle.cas_world.specs.Readers.{next_number};
ghost use Rattle.casreg_script.specs.Calls.Changes.{EndsPrepareBy, IsAcceptedBy, IsRoundBy};
ghost use Rattle.casreg_script.specs.Collection.Collecting.{HasStopped, IsTombstoneSet, IsDue, IsInRound, IsRunning};
ghost use Rattle.casreg_script.specs.Collection.Collections.{AreTombstoneRounds, EndsReading, EndsVoting, HasRounds, HasTaken, IsCalled, CollectsWhole, IsCollection};
ghost use Rattle.casreg_script.specs.Frames.Conditions.{NetworkView};
ghost use Rattle.casreg_script.specs.Frames.Network.{IsNetwork, Through};
ghost use Rattle.casreg_script.specs.Exchanges.Orders.{IsOrdered, IsFree, KeepsIdle};
ghost use Rattle.casreg_script.specs.Calls.Playing.{AskedCall as Wanted};

use crate::changes::{accept_turns, prepare_turns};
use crate::exchange::exchange;
use crate::halt::Halt;
use crate::network::Network;
use cas_change::{Key, Program};
use cas_disk::Disk;
use cas_record::{Answer, Asked, OpAnswer, keep_always};
use cas_slot::Shelf;
use cas_world::{Exchange, Reading, World};
use std::alloc::{AllocError, Global};

/// Collects the key, as a call of the operator; gives what the operator is told. The tombstone has so many rounds at most, from 1, as a
/// change has. What becomes of each frame the network says, and proposer 0 halts where it is to. An `Err` comes only before the call, and
/// all is as before.
pub fn collect<S: Shelf, V: Disk>(
    alloc: Global,
    world: &mut World<S, V>,
    network: &mut Network,
    halt: &mut Halt,
    tries: u8,
    key: &Key,
) -> Result<OpAnswer, AllocError>
    requires idle { HasNoCall world.old 0 }
    requires quiet { IsAtRest world.old.council }
    requires some { 1 ≤ tries }
    requires network { (by : NetworkView) × IsNetwork network.old by }
    ensures collects { IfOk result
        (λ answer. Through network.old network.new (λ by next. IsCollection (meaning S.Shelf V.Disk)
        tries by key.now halt.old world.old answer next halt.new world.new)) }
    ensures err { OnErr result ((world.new ≡ world.old)
        × (network.new ≡ network.old) × (halt.new ≡ halt.old)) }
    ensures network { (by : NetworkView)
        → IsNetwork network.old by → (next : NetworkView) × IsNetwork network.new next }
    ensures quiet { IsAtRest world.new.council }
    ensures idle { KeepsIdle world.old world.new }
{
    let program = keep_always(alloc)?;
    let asked = Asked::Collect(key.copy()?);
    let told = key.copy()?;
    match world.order(&asked) {
        Ok(()) => {
            let answer = match carry_out(world, network, halt, tries, key, &program) {
                Ok(()) => collected(world, told),
                Err(stopped) => stopped,
            };
            Ok(world.tell(answer))
        }
        Err(refusal) => Ok(OpAnswer::Stopped(refusal)),
    }
}

/// What the operator is told at the end of the collection: at which ballot the tombstone stands, and how many members removed their slot and
/// kept it.
fn collected<S: Shelf, V: Disk>(world: &World<S, V>, key: Key) -> OpAnswer
    requires { IsDue world.now key EndStep }
    ensures { HasCollectedAll world.now result }
{
    let ballot = world.tombstone();
    let (removed, kept) = world.removals();
    OpAnswer::Collected {
        key,
        ballot,
        removed,
        kept,
    }
}

/// Runs the call of the collection, and takes its steps up to its end. An `Err` is what the operator's call was told.
fn carry_out<S: Shelf, V: Disk>(
    world: &mut World<S, V>,
    network: &mut Network,
    halt: &mut Halt,
    tries: u8,
    key: &Key,
    program: &Program,
) -> Result<(), OpAnswer>
    requires ordered { IsOrdered world.old (ToCollect key.now) }
    requires free { IsFree world.old }
    requires program { program.now ≡ keep_always }
    requires some { 1 ≤ tries }
    requires network { (by : NetworkView) × IsNetwork network.old by }
    ensures carried { Through network.old network.new (λ by next. CollectsWhole (meaning S.Shelf
        V.Disk) tries by key.now halt.old world.old next halt.new world.new) }
    ensures end { OnOk result (IsDue world.new key.now EndStep) }
    ensures told { IfErr result (WasToldOrder world.new) }
    ensures network { (by : NetworkView)
        → IsNetwork network.old by → (next : NetworkView) × IsNetwork network.new next }
    ensures idle { KeepsIdle world.old world.new }
{
    set_tombstone(world, network, halt, tries, key, program)?;
    take_steps(world, network)
}

/// Takes the steps of the collection, whose call is over, up to its end. An `Err` is what the operator's call was told.
fn take_steps<S: Shelf, V: Disk>(
    world: &mut World<S, V>,
    network: &mut Network,
) -> Result<(), OpAnswer>
    requires tombstone_set { (key : List ℕ) × IsTombstoneSet world.old key }
    requires network { (by : NetworkView) × IsNetwork network.old by }
    ensures taken { Through network.old network.new
        (λ by next. HasTaken (meaning S.Shelf V.Disk) by world.old next world.new) }
    ensures end { (key : List ℕ)
        → IsTombstoneSet world.old key → OnOk result (IsDue world.new key EndStep) }
    ensures told { IfErr result (WasToldOrder world.new) }
    ensures network { (by : NetworkView)
        → IsNetwork network.old by → (next : NetworkView) × IsNetwork network.new next }
    ensures idle { KeepsIdle world.old world.new }
{
    world.gather()?;
    renew(world)?;
    exchange(world, network, Exchange::Ages)?;
    world.floor();
    exchange(world, network, Exchange::Remove)?;
    Ok(())
}

/// Runs the call of the collection, by which the tombstone is proposed. Where a held state was read it is over without an end. An `Err` is
/// what the operator's call was told.
fn set_tombstone<S: Shelf, V: Disk>(
    world: &mut World<S, V>,
    network: &mut Network,
    halt: &mut Halt,
    tries: u8,
    key: &Key,
    program: &Program,
) -> Result<(), OpAnswer>
    requires ordered { IsOrdered world.old (ToCollect key.now) }
    requires free { IsFree world.old }
    requires program { program.now ≡ keep_always }
    requires some { 1 ≤ tries }
    requires network { (by : NetworkView) × IsNetwork network.old by }
    ensures called { Through network.old network.new (λ by next. IsCalled (meaning S.Shelf V.Disk)
        tries by key.now halt.old world.old next halt.new world.new) }
    ensures tombstone_set { OnOk result (IsTombstoneSet world.new key.now) }
    ensures told { IfErr result (WasToldOrder world.new) }
    ensures network { (by : NetworkView)
        → IsNetwork network.old by → (next : NetworkView) × IsNetwork network.new next }
    ensures idle { KeepsIdle world.old world.new }
{
    let call = world.next_call(0);
    match call_for(world, network, halt, tries, call, key, program)? {
        Some(told) => match world.end_collect(call, told) {
            Answer::Done { .. } => Ok(()),
            stopped => Err(OpAnswer::Stopped(stopped)),
        },
        None => Ok(()),
    }
}

/// Begins the call of that number, and runs its rounds. Gives what the call is told; `None` comes where a held state was read, with which
/// it is over. An `Err` is what the operator's call was told, and the call was not begun.
fn call_for<S: Shelf, V: Disk>(
    world: &mut World<S, V>,
    network: &mut Network,
    halt: &mut Halt,
    tries: u8,
    call: u32,
    key: &Key,
    program: &Program,
) -> Result<Option<Answer>, OpAnswer>
    requires ordered { IsOrdered world.old (ToCollect key.now) }
    requires free { IsFree world.old }
    requires next { option_map next_number (slice_get world.old.callers 0) ≡ Some call }
    requires program { program.now ≡ keep_always }
    requires some { 1 ≤ tries }
    requires network { (by : NetworkView) × IsNetwork network.old by }
    ensures called { Through network.old network.new (λ by next. HasRounds (meaning S.Shelf V.Disk)
        tries by key.now halt.old world.old next halt.new world.new) }
    ensures stopped { IfOk result (λ told. IfSome told
        (HasStopped world.new (record { number = call; key = key.now; program = keep_always }))) }
    ensures tombstone_set { IfOk result (λ told. IfNone told (IsTombstoneSet world.new key.now)) }
    ensures told { IfErr result (WasToldOrder world.new) }
    ensures none { OnErr result (HasNoCall world.new 0) }
    ensures network { (by : NetworkView)
        → IsNetwork network.old by → (next : NetworkView) × IsNetwork network.new next }
{
    match world.begin_collect(call, key, program) {
        Ok(()) => Ok(rounds(world, network, halt, tries, call, key, program)),
        Err(refusal) => {
            if leaves_no_call(&refusal) {
                return Err(refusal);
            }
            Ok(Some(why_stopped(refusal)))
        }
    }
}

/// Whether a new call of a collection that is answered so was not begun.
fn leaves_no_call(answer: &OpAnswer) -> bool
    ensures { result ≡ leaves_no_call answer.now }
{
    match answer {
        OpAnswer::Stopped(told) => matches!(
            told,
            Answer::Down | Answer::RecordFull | Answer::NoMemory { .. }
        ),
        _ => true,
    }
}

/// Why the operator's call stopped, as its answer tells.
fn why_stopped(answer: OpAnswer) -> Answer
    requires { (why : AnAnswer) × (answer ≡ op.Stopped why) }
    ensures { answer ≡ op.Stopped result }
{
    match answer {
        OpAnswer::Stopped(why) => why,
        _ => unreachable!(),
    }
}

/// Runs the round of the call, which is open, and as many more as there are tries while each ends with a conflict. Gives what the call is
/// told; `None` comes where a held state was read, with which it is over.
fn rounds<S: Shelf, V: Disk>(
    world: &mut World<S, V>,
    network: &mut Network,
    halt: &mut Halt,
    tries: u8,
    call: u32,
    key: &Key,
    program: &Program,
) -> Option<Answer>
    requires running { IsRunning world.old (record {
      number = call;
      key = key.now;
      program = keep_always;
    }) }
    requires program { program.now ≡ keep_always }
    requires some { 1 ≤ tries }
    requires network { (by : NetworkView) × IsNetwork network.old by }
    ensures rounds { Through network.old network.new (λ by next. AreTombstoneRounds (meaning S.Shelf
        V.Disk) key.now tries by halt.old world.old next halt.new world.new) }
    ensures stopped { IfSome result (HasStopped world.new (record {
      number = call;
      key = key.now;
      program = keep_always;
    })) }
    ensures tombstone_set { IfNone result (IsTombstoneSet world.new key.now) }
    ensures network { (by : NetworkView)
        → IsNetwork network.old by → (next : NetworkView) × IsNetwork network.new next }
{
    let told = round(world, network, halt)?;
    if tries == 1 {
        return Some(told);
    }
    if !told.is_conflict() {
        return Some(told);
    }
    match world.begin_collect(call, key, program) {
        Ok(()) => rounds(world, network, halt, tries - 1, call, key, program),
        Err(refusal) => Some(why_stopped(refusal)),
    }
}

/// Runs the round of the call, which is open. Gives what the call is told; `None` comes where a held state was read.
fn round<S: Shelf, V: Disk>(
    world: &mut World<S, V>,
    network: &mut Network,
    halt: &mut Halt,
) -> Option<Answer>
    requires running { (asked : Wanted) × IsRunning world.old asked }
    requires network { (by : NetworkView) × IsNetwork network.old by }
    ensures round { Through network.old network.new (λ by next.
        IsRoundBy (EndsReading (meaning S.Shelf V.Disk)) (EndsVoting (meaning S.Shelf V.Disk))
        (meaning S.Shelf V.Disk) by 0 halt.old world.old next halt.new world.new) }
    ensures stopped { (asked : Wanted)
        → IsRunning world.old asked → IfSome result (HasStopped world.new asked) }
    ensures tombstone_set { (asked : Wanted)
        → IsRunning world.old asked → IfNone result (IsTombstoneSet world.new asked.key) }
    ensures network { (by : NetworkView)
        → IsNetwork network.old by → (next : NetworkView) × IsNetwork network.new next }
{
    if world.has_proposed(0) {
        return Some(accept(world, network, halt));
    }
    match prepare(world, network, halt) {
        Ok(Reading::Empty) => Some(accept(world, network, halt)),
        Ok(Reading::Held { .. }) => None,
        Err(told) => Some(told),
    }
}

/// Runs the prepare phase of the round up to what it read. An `Err` is what the call was told.
fn prepare<S: Shelf, V: Disk>(
    world: &mut World<S, V>,
    network: &mut Network,
    halt: &mut Halt,
) -> Result<Reading, Answer>
    requires open { (asked : Wanted) × IsInRound world.old asked false }
    requires network { (by : NetworkView) × IsNetwork network.old by }
    ensures ended { OnOk result (Through network.old network.new
        (λ by next. EndsPrepareBy (EndsReading (meaning S.Shelf V.Disk))
        (meaning S.Shelf V.Disk) by 0 halt.old world.old next world.new)) }
    ensures same_halt { OnOk result (halt.new ≡ halt.old) }
    ensures plays { (asked : Wanted) → IsInRound world.old asked false
        → result ≡ Ok Reading.Empty → IsInRound world.new asked true }
    ensures tombstone_set { (asked : Wanted) (version : ℕ) → IsInRound world.old asked false
        → result ≡ Ok (Reading.Held version) → IsTombstoneSet world.new asked.key }
    ensures refused { OnErr result (Through network.old network.new (λ by next.
        IsRoundBy (EndsReading (meaning S.Shelf V.Disk)) (EndsVoting (meaning S.Shelf V.Disk))
        (meaning S.Shelf V.Disk) by 0 halt.old world.old next halt.new world.new)) }
    ensures stopped { (asked : Wanted)
        → IsInRound world.old asked false → IfErr result (HasStopped world.new asked) }
    ensures network { (by : NetworkView)
        → IsNetwork network.old by → (next : NetworkView) × IsNetwork network.new next }
{
    prepare_turns(world, network, halt, 0)?;
    world.propose_tombstone()
}

/// Runs the accept phase of the round, and gives what the call is told.
fn accept<S: Shelf, V: Disk>(
    world: &mut World<S, V>,
    network: &mut Network,
    halt: &mut Halt,
) -> Answer
    requires open { (asked : Wanted) × IsInRound world.old asked true }
    requires network { (by : NetworkView) × IsNetwork network.old by }
    ensures accepted { Through network.old network.new
        (λ by next. IsAcceptedBy (EndsVoting (meaning S.Shelf V.Disk))
        (meaning S.Shelf V.Disk) by 0 halt.old world.old next halt.new world.new) }
    ensures stopped { (asked : Wanted)
        → IsInRound world.old asked true → HasStopped world.new asked result }
    ensures network { (by : NetworkView)
        → IsNetwork network.old by → (next : NetworkView) × IsNetwork network.new next }
{
    match accept_turns(world, network, halt, 0) {
        Ok(()) => world.count_tombstone(),
        Err(told) => told,
    }
}

/// Renews each proposer that is to be renewed, in turn. An `Err` is what the operator's call was told.
fn renew<S: Shelf, V: Disk>(world: &mut World<S, V>) -> Result<(), OpAnswer>
    requires due { (key : List ℕ) × IsDue world.old key (RenewStep 0) }
    ensures taken { (by : NetworkView)
        → HasTaken (meaning S.Shelf V.Disk) by world.old by world.new }
    ensures due { (key : List ℕ)
        → IsDue world.old key (RenewStep 0) → OnOk result (IsDue world.new key AgesStep) }
    ensures told { IfErr result (WasToldOrder world.new) }
    ensures idle { KeepsIdle world.old world.new }
{
    while let Some(proposer) = world.renew_next() {
        world.renew(proposer)?;
    }
    Ok(())
}
