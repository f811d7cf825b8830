//! One change, from its call to its answer.

ghost use Rattle.std.specs.Prelude.{◌≡◌, ◌≤◌, ◌↔◌, Bool, true, false, None, Some, List, IsTrue, IfErr, OnOk, OnErr};
ghost use Rattle.cas_protocol.specs.Protocol.{is_done};
ghost use Rattle.cas_model.specs.Step.{Step, CrashProposer};
ghost use Rattle.cas_model.specs.Calls.Step.{Rescans};
ghost use Rattle.cas_model.specs.View.{meaning};
ghost use Rattle.cas_record.specs.declared.answer.Answer.TheVariants as answer;
ghost use Rattle.cas_world.specs.Calls.Beginning.{is_refusal, HasNoCall};
ghost use Rattle.casreg_script.specs.Calls.Changes.{AllTurned, FailsToTurn, EndsPrepare, EndsAcceptPhase, IsCutOff, IsCutShort, IsRound, AreRounds, IsChange, HasQuorum, Strikes};
ghost use Rattle.casreg_script.specs.Frames.Conditions.{NetworkView};
ghost use Rattle.casreg_script.specs.Frames.Network.{IsNetwork, Through};
ghost use Rattle.casreg_script.specs.Calls.Playing.{AskedCall, HasBegun, IsPlaying, IsOver, is_conflict};

use crate::halt::Halt;
use crate::network::{Network, is_to_repeat};
use crate::strays::let_in;
use cas_change::{Key, Program};
use cas_disk::Disk;
use cas_record::Answer;
use cas_round::RoundVerdict;
use cas_slot::Shelf;
use cas_world::World;
use std::alloc::AllocError;

/// Runs a change as the caller's next call, and gives its answer. It has so many rounds at most, from 1: another is begun exactly where
/// the last one ended with a conflict. What becomes of each frame the network says, and the proposer halts where it is to.
pub fn change<S: Shelf, V: Disk>(
    world: &mut World<S, V>,
    network: &mut Network,
    halt: &mut Halt,
    tries: u8,
    caller: u8,
    key: &Key,
    program: &Program,
) -> Answer
    requires known { caller ≤ world.old.last_proposer }
    requires quiet { world.old.council.exchange ≡ None }
    requires idle { HasNoCall world.old caller }
    requires some { 1 ≤ tries }
    requires network { (by : NetworkView) × IsNetwork network.old by }
    ensures change { Through network.old network.new (λ by next. IsChange (meaning S.Shelf V.Disk)
        tries by caller key.now program.now halt.old world.old result next halt.new world.new) }
    ensures network { (by : NetworkView)
        → IsNetwork network.old by → (next : NetworkView) × IsNetwork network.new next }
    ensures rescans { Rescans world.old.council caller key.now result world.new.council }
    ensures idle { HasNoCall world.new caller }
    ensures last_proposer { world.new.last_proposer ≡ world.old.last_proposer }
{
    let call = world.next_call(caller);
    match world.begin(caller, call, key, program) {
        Ok(()) => {
            let answer = rounds(world, network, halt, tries, caller, call, key, program);
            world.end(caller, call, answer)
        }
        Err(refusal) if refusal.is_refusal() => refusal,
        Err(told) => world.end(caller, call, told),
    }
}

/// Runs the caller's round, which is open, and as many more as there are tries while each ends with a conflict. Gives what the caller
/// is told.
fn rounds<S: Shelf, V: Disk>(
    world: &mut World<S, V>,
    network: &mut Network,
    halt: &mut Halt,
    tries: u8,
    caller: u8,
    call: u32,
    key: &Key,
    program: &Program,
) -> Answer
    requires known { caller ≤ world.old.last_proposer }
    requires begun { HasBegun world.old caller (record {
      number = call;
      key = key.now;
      program = program.now;
    }) }
    requires some { 1 ≤ tries }
    requires network { (by : NetworkView) × IsNetwork network.old by }
    ensures rounds { Through network.old network.new (λ by next. AreRounds (meaning S.Shelf V.Disk)
        caller key.now program.now tries by halt.old world.old next halt.new world.new) }
    ensures network { (by : NetworkView)
        → IsNetwork network.old by → (next : NetworkView) × IsNetwork network.new next }
    ensures over { IsOver world.new caller (record {
      number = call;
      key = key.now;
      program = program.now;
    }) result }
    ensures last_proposer { world.new.last_proposer ≡ world.old.last_proposer }
{
    let told = round(world, network, halt, caller);
    if tries == 1 {
        return told;
    }
    if !told.is_conflict() {
        return told;
    }
    match world.begin(caller, call, key, program) {
        Ok(()) => rounds(world, network, halt, tries - 1, caller, call, key, program),
        Err(told) => told,
    }
}

/// Runs the proposer's round, which is open, and gives what its caller is told.
fn round<S: Shelf, V: Disk>(
    world: &mut World<S, V>,
    network: &mut Network,
    halt: &mut Halt,
    proposer: u8,
) -> Answer
    requires known { proposer ≤ world.old.last_proposer }
    requires begun { (asked : AskedCall) × HasBegun world.old proposer asked }
    requires network { (by : NetworkView) × IsNetwork network.old by }
    ensures round { Through network.old network.new (λ by next.
        IsRound (meaning S.Shelf V.Disk) by proposer halt.old world.old next halt.new world.new) }
    ensures network { (by : NetworkView)
        → IsNetwork network.old by → (next : NetworkView) × IsNetwork network.new next }
    ensures over { (asked : AskedCall)
        → HasBegun world.old proposer asked → IsOver world.new proposer asked result }
    ensures last_proposer { world.new.last_proposer ≡ world.old.last_proposer }
{
    if world.has_proposed(proposer) {
        return accept(world, network, halt, proposer);
    }
    match prepare(world, network, halt, proposer) {
        Ok(()) => accept(world, network, halt, proposer),
        Err(told) => told,
    }
}

/// Runs the prepare phase of the proposer's round up to its proposal. An `Err` is what its caller was told.
fn prepare<S: Shelf, V: Disk>(
    world: &mut World<S, V>,
    network: &mut Network,
    halt: &mut Halt,
    proposer: u8,
) -> Result<(), Answer>
    requires known { proposer ≤ world.old.last_proposer }
    requires open { (asked : AskedCall) × IsPlaying world.old proposer asked false }
    requires network { (by : NetworkView) × IsNetwork network.old by }
    ensures proposed { OnOk result (Through network.old network.new (λ by next.
        EndsPrepare (meaning S.Shelf V.Disk) by proposer halt.old world.old next world.new)) }
    ensures same_halt { OnOk result (halt.new ≡ halt.old) }
    ensures plays { (asked : AskedCall) → IsPlaying world.old proposer asked false
        → OnOk result (IsPlaying world.new proposer asked true) }
    ensures refused { OnErr result (Through network.old network.new (λ by next.
        IsRound (meaning S.Shelf V.Disk) by proposer halt.old world.old next halt.new world.new)) }
    ensures over { (asked : AskedCall) → IsPlaying world.old proposer asked false
        → IfErr result (IsOver world.new proposer asked) }
    ensures network { (by : NetworkView)
        → IsNetwork network.old by → (next : NetworkView) × IsNetwork network.new next }
    ensures last_proposer { world.new.last_proposer ≡ world.old.last_proposer }
{
    prepare_turns(world, network, halt, proposer)?;
    world.propose(proposer)
}

/// Makes all turns of the prepare phase of the proposer's round. An `Err` is what its caller was told: where no memory was found, or where
/// the proposer halted at the end of a phase that has a quorum.
pub(crate) fn prepare_turns<S: Shelf, V: Disk>(
    world: &mut World<S, V>,
    network: &mut Network,
    halt: &mut Halt,
    proposer: u8,
) -> Result<(), Answer>
    requires known { proposer ≤ world.old.last_proposer }
    requires open { (asked : AskedCall) × IsPlaying world.old proposer asked false }
    requires network { (by : NetworkView) × IsNetwork network.old by }
    ensures turned { OnOk result (Through network.old network.new
        (λ by next. AllTurned (meaning S.Shelf V.Disk) by proposer world.old next world.new)) }
    ensures goes_on { OnOk result (Strikes halt.old world.new proposer → ⊥) }
    ensures same_halt { OnOk result (halt.new ≡ halt.old) }
    ensures plays { (asked : AskedCall) → IsPlaying world.old proposer asked false
        → OnOk result (IsPlaying world.new proposer asked false) }
    ensures cut_off { OnErr result (Through network.old network.new (λ by next.
        IsCutOff (meaning S.Shelf V.Disk) by proposer halt.old world.old next halt.new world.new)) }
    ensures over { (asked : AskedCall) → IsPlaying world.old proposer asked false
        → IfErr result (IsOver world.new proposer asked) }
    ensures not_done { IfErr result (λ told. is_done told ≡ false) }
    ensures network { (by : NetworkView)
        → IsNetwork network.old by → (next : NetworkView) × IsNetwork network.new next }
    ensures council { world.new.council ≡ world.old.council }
    ensures last_proposer { world.new.last_proposer ≡ world.old.last_proposer }
{
    if all_turns(world, network, proposer).is_err() {
        return Err(Answer::NoMemory { proposed: false });
    }
    if halt.after_prepare && has_quorum(world, proposer) {
        halt.after_prepare = false;
        return Err(crash(world, proposer));
    }
    Ok(())
}

/// Runs the accept phase of the proposer's round, and gives what its caller is told.
fn accept<S: Shelf, V: Disk>(
    world: &mut World<S, V>,
    network: &mut Network,
    halt: &mut Halt,
    proposer: u8,
) -> Answer
    requires known { proposer ≤ world.old.last_proposer }
    requires open { (asked : AskedCall) × IsPlaying world.old proposer asked true }
    requires network { (by : NetworkView) × IsNetwork network.old by }
    ensures accepted { Through network.old network.new (λ by next. EndsAcceptPhase (meaning S.Shelf
        V.Disk) by proposer halt.old world.old next halt.new world.new) }
    ensures over { (asked : AskedCall)
        → IsPlaying world.old proposer asked true → IsOver world.new proposer asked result }
    ensures network { (by : NetworkView)
        → IsNetwork network.old by → (next : NetworkView) × IsNetwork network.new next }
    ensures last_proposer { world.new.last_proposer ≡ world.old.last_proposer }
{
    match accept_turns(world, network, halt, proposer) {
        Ok(()) => world.count(proposer),
        Err(told) => told,
    }
}

/// Makes all turns of the accept phase of the proposer's round. An `Err` is what its caller was told: where the proposer halted right after
/// its proposal, or where no memory was found.
pub(crate) fn accept_turns<S: Shelf, V: Disk>(
    world: &mut World<S, V>,
    network: &mut Network,
    halt: &mut Halt,
    proposer: u8,
) -> Result<(), Answer>
    requires known { proposer ≤ world.old.last_proposer }
    requires open { (asked : AskedCall) × IsPlaying world.old proposer asked true }
    requires network { (by : NetworkView) × IsNetwork network.old by }
    ensures turned { OnOk result (Through network.old network.new
        (λ by next. AllTurned (meaning S.Shelf V.Disk) by proposer world.old next world.new)) }
    ensures goes_on { OnOk result (halt.old.after_propose ≡ false) }
    ensures same_halt { OnOk result (halt.new ≡ halt.old) }
    ensures plays { (asked : AskedCall) → IsPlaying world.old proposer asked true
        → OnOk result (IsPlaying world.new proposer asked true) }
    ensures cut_short { OnErr result (Through network.old network.new (λ by next. IsCutShort
        (meaning S.Shelf V.Disk) by proposer halt.old world.old next halt.new world.new)) }
    ensures over { (asked : AskedCall)
        → IsPlaying world.old proposer asked true → IfErr result (IsOver world.new proposer asked) }
    ensures not_done { IfErr result (λ told. is_done told ≡ false) }
    ensures network { (by : NetworkView)
        → IsNetwork network.old by → (next : NetworkView) × IsNetwork network.new next }
    ensures council { world.new.council ≡ world.old.council }
    ensures last_proposer { world.new.last_proposer ≡ world.old.last_proposer }
{
    if halt.after_propose {
        halt.after_propose = false;
        return Err(crash(world, proposer));
    }
    if all_turns(world, network, proposer).is_err() {
        return Err(Answer::NoMemory { proposed: true });
    }
    Ok(())
}

/// Makes turns until no frame of the proposer waits. What becomes of each frame the network says.
fn all_turns<S: Shelf, V: Disk>(
    world: &mut World<S, V>,
    network: &mut Network,
    proposer: u8,
) -> Result<(), AllocError>
    requires known { proposer ≤ world.old.last_proposer }
    requires quiet { world.old.council.exchange ≡ None }
    requires network { (by : NetworkView) × IsNetwork network.old by }
    ensures through { OnOk result (Through network.old network.new
        (λ by next. AllTurned (meaning S.Shelf V.Disk) by proposer world.old next world.new)) }
    ensures fails { OnErr result (Through network.old network.new
        (λ by next. FailsToTurn (meaning S.Shelf V.Disk) by proposer world.old next world.new)) }
    ensures plays { (asked : AskedCall) (proposed : Bool)
        → IsPlaying world.old proposer asked proposed
        → OnOk result (IsPlaying world.new proposer asked proposed) }
    ensures told { (asked : AskedCall) (proposed : Bool)
        → IsPlaying world.old proposer asked proposed
        → OnErr result (IsOver world.new proposer asked (answer.NoMemory proposed)) }
    ensures network { (by : NetworkView)
        → IsNetwork network.old by → (next : NetworkView) × IsNetwork network.new next }
    ensures last_proposer { world.new.last_proposer ≡ world.old.last_proposer }
{
    let mut again = false;
    while let Some(front) = world.front(proposer) {
        let_in(world, network);
        let verdict = network.verdict(again, front.0, front.1);
        world.turn(proposer, verdict)?;
        again = is_to_repeat(again, verdict);
    }
    Ok(())
}

/// Whether a quorum confirmed in the open phase of the proposer's round.
fn has_quorum<S: Shelf, V: Disk>(world: &World<S, V>, proposer: u8) -> bool
    requires known { proposer ≤ world.now.last_proposer }
    requires open { (asked : AskedCall)
        × (proposed : Bool) × IsPlaying world.now proposer asked proposed }
    ensures { IsTrue result ↔ HasQuorum world.now proposer }
{
    is_quorum(world.verdict(proposer))
}

/// Whether it is a quorum.
fn is_quorum(verdict: Option<RoundVerdict>) -> bool
    ensures { IsTrue result ↔ (verdict ≡ Some RoundVerdict.Quorum) }
{
    matches!(verdict, Some(RoundVerdict::Quorum))
}

/// The proposer crashes within its round, which is open. Gives what its caller is told.
fn crash<S: Shelf, V: Disk>(world: &mut World<S, V>, proposer: u8) -> Answer
    requires known { proposer ≤ world.old.last_proposer }
    requires open { (asked : AskedCall)
        × (proposed : Bool) × IsPlaying world.old proposer asked proposed }
    ensures step { Step (meaning S.Shelf V.Disk) world.old (CrashProposer proposer) world.new }
    ensures over { (asked : AskedCall) (proposed : Bool)
        → IsPlaying world.old proposer asked proposed → IsOver world.new proposer asked result }
    ensures not_done { is_done result ≡ false }
    ensures last_proposer { world.new.last_proposer ≡ world.old.last_proposer }
{
    world.crash_proposer(proposer);
    match world.closed(proposer) {
        Some(told) => told,
        None => unreachable!(),
    }
}
