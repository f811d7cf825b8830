//! One change of membership, from the operator's call to its answer.

ghost use Rattle.std.specs.Prelude.{◌≡◌, ◌<◌, ◌≤◌, ℕ, List, Some, IsSome, IfOk, IfErr, OnOk, OnErr};
ghost use Rattle.cas_world_calls.specs.Council.{due_in};
ghost use Rattle.cas_model.specs.Council.{IsAtRest};
ghost use Rattle.cas_model.specs.View.{meaning};
ghost use Rattle.cas_lines.specs.Command.{one};
ghost use Rattle.cas_record.specs.declared.operator.Asked.{Asked};
ghost use Rattle.cas_world.specs.Calls.Beginning.{HasNoCall};
ghost use Rattle.cas_world.specs.Exchanges.Exchange.{WasToldOrder};
ghost use Rattle.cas_world.specs.Eras.Plans.{IsUnderWay, IsAtEnd, HasFinished, MayTell, asked_of, step_of, entrant_of};
ghost use Rattle.casreg_script.specs.Frames.Conditions.{NetworkView};
ghost use Rattle.casreg_script.specs.Eras.Membership.{HasAdvanced, IsCarriedOut, IsTakenUp, ChangesMembers, TakesStep, steps_left};
ghost use Rattle.casreg_script.specs.Frames.Network.{IsNetwork, Through};
ghost use Rattle.casreg_script.specs.Exchanges.Orders.{IsOrdered, IsFree, KeepsIdle};
ghost use Rattle.casreg_script.specs.declared.halt.Halt.{Halt as AHalt};

use crate::changes::change;
use crate::exchange::exchange;
use crate::halt::Halt;
use crate::network::Network;
use cas_change::{Act, Guard, Program};
use cas_disk::Disk;
use cas_members::PlanStep;
use cas_record::{Answer, OpAnswer, keep_always};
use cas_slot::Shelf;
use cas_world::{Exchange, Gathered, Target, World};
use std::alloc::{AllocError, Global};

/// An acceptor joins or leaves, or quorums get other sizes, as a call of the operator; gives what the operator is told. A change of membership that was opened for
/// just that goes on where it stopped. Each key that is proposed anew has so many rounds at most, from 1, as a change has. What becomes of
/// each frame the network says, and proposer 0 halts where it is to. An `Err` comes only before the call, and all is as before.
pub fn change_members<S: Shelf, V: Disk>(
    alloc: Global,
    world: &mut World<S, V>,
    network: &mut Network,
    halt: &mut Halt,
    tries: u8,
    target: &Target,
) -> Result<OpAnswer, AllocError>
    requires idle { HasNoCall world.old 0 }
    requires quiet { IsAtRest world.old.council }
    requires some { 1 ≤ tries }
    requires network { (by : NetworkView) × IsNetwork network.old by }
    ensures changes { IfOk result (λ answer. Through network.old network.new
        (λ by next. ChangesMembers (meaning S.Shelf V.Disk) tries by
        (asked_of target.now) halt.old world.old answer next halt.new world.new)) }
    ensures err { OnErr result ((world.new ≡ world.old)
        × (network.new ≡ network.old) × (halt.new ≡ halt.old)) }
    ensures network { (by : NetworkView)
        → IsNetwork network.old by → (next : NetworkView) × IsNetwork network.new next }
    ensures quiet { IsAtRest world.new.council }
    ensures idle { KeepsIdle world.old world.new }
{
    let program = keep_always(alloc)?;
    match world.order(&target.asked()) {
        Ok(()) => {
            let answer = carry_out(world, network, halt, tries, target, &program);
            Ok(world.tell(answer))
        }
        Err(refusal) => Ok(OpAnswer::Stopped(refusal)),
    }
}

/// Opens the change unless it is open, and takes its steps up to the end. Gives what the operator is told.
fn carry_out<S: Shelf, V: Disk>(
    world: &mut World<S, V>,
    network: &mut Network,
    halt: &mut Halt,
    tries: u8,
    target: &Target,
    program: &Program,
) -> OpAnswer
    requires ordered { IsOrdered world.old (asked_of target.now) }
    requires free { IsFree world.old }
    requires program { program.now ≡ one Guard.Always Act.Keep }
    requires some { 1 ≤ tries }
    requires network { (by : NetworkView) × IsNetwork network.old by }
    ensures carried { Through network.old network.new (λ by next. IsCarriedOut (meaning S.Shelf
        V.Disk) tries by (asked_of target.now) halt.old world.old next halt.new world.new) }
    ensures told { MayTell world.new result }
    ensures network { (by : NetworkView)
        → IsNetwork network.old by → (next : NetworkView) × IsNetwork network.new next }
    ensures idle { KeepsIdle world.old world.new }
{
    if let Err(told) = take_up(world, target) {
        return told;
    }
    match advance(world, network, halt, tries, program) {
        Ok(()) => world.finished_answer(target),
        Err(told) => told,
    }
}

/// Opens the change, unless it is open. An `Err` is what the operator's call was told.
fn take_up<S: Shelf, V: Disk>(world: &mut World<S, V>, target: &Target) -> Result<(), OpAnswer>
    requires ordered { IsOrdered world.old (asked_of target.now) }
    requires free { IsFree world.old }
    ensures taken_up { IsTakenUp (meaning S.Shelf V.Disk)
        (asked_of target.now) world.old world.new }
    ensures under_way { OnOk result (IsUnderWay world.new (asked_of target.now)) }
    ensures told { IfErr result (WasToldOrder world.new) }
    ensures free { OnOk result (IsFree world.new) }
    ensures idle { KeepsIdle world.old world.new }
{
    if world.plan_is(&target.asked()) {
        return Ok(());
    }
    world.open_change(target)
}

/// Takes the steps of the change up to its end. An `Err` is what the operator's call was told.
fn advance<S: Shelf, V: Disk>(
    world: &mut World<S, V>,
    network: &mut Network,
    halt: &mut Halt,
    tries: u8,
    program: &Program,
) -> Result<(), OpAnswer>
    requires under_way { (asked : Asked) × IsUnderWay world.old asked }
    requires free { IsFree world.old }
    requires program { program.now ≡ one Guard.Always Act.Keep }
    requires some { 1 ≤ tries }
    requires network { (by : NetworkView) × IsNetwork network.old by }
    ensures advances { Through network.old network.new (λ by next.
        HasAdvanced (meaning S.Shelf V.Disk) tries by halt.old world.old next halt.new world.new) }
    ensures under_way { (asked : Asked)
        → IsUnderWay world.old asked → OnOk result (IsUnderWay world.new asked) }
    ensures end { OnOk result (IsAtEnd world.new) }
    ensures told { IfErr result (WasToldOrder world.new) }
    ensures network { (by : NetworkView)
        → IsNetwork network.old by → (next : NetworkView) × IsNetwork network.new next }
    ensures idle { KeepsIdle world.old world.new }
{
    while let Some(step) = world.plan_step() {
        match step {
            PlanStep::Settle => settle(world, network, halt, tries, program)?,
            PlanStep::Enter(_) => enter(world)?,
            PlanStep::Finished => return Ok(()),
        }
    }
    unreachable!()
}

/// Each proposer that has not entered the next era enters it, in turn. An `Err` is what the operator's call was told.
fn enter<S: Shelf, V: Disk>(world: &mut World<S, V>) -> Result<(), OpAnswer>
    requires under_way { (asked : Asked) × IsUnderWay world.old asked }
    requires free { IsFree world.old }
    requires due { IsSome (entrant_of world.old.council.plan) }
    ensures advances { (tries : ℕ) (by : NetworkView) (halt : AHalt)
        → HasAdvanced (meaning S.Shelf V.Disk) tries by halt world.old by halt world.new }
    ensures under_way { (asked : Asked)
        → IsUnderWay world.old asked → OnOk result (IsUnderWay world.new asked) }
    ensures fewer { OnOk result (steps_left world.new < steps_left world.old) }
    ensures told { IfErr result (WasToldOrder world.new) }
    ensures free { OnOk result (IsFree world.new) }
    ensures idle { KeepsIdle world.old world.new }
{
    while let Some(proposer) = world.enter_next() {
        world.enter_era(proposer)?;
    }
    Ok(())
}

/// Settles the era that all entered last: lists its keys, and proposes each of them anew. An `Err` is what the operator's call was told.
fn settle<S: Shelf, V: Disk>(
    world: &mut World<S, V>,
    network: &mut Network,
    halt: &mut Halt,
    tries: u8,
    program: &Program,
) -> Result<(), OpAnswer>
    requires under_way { (asked : Asked) × IsUnderWay world.old asked }
    requires free { IsFree world.old }
    requires settles { step_of world.old.council.plan ≡ Some PlanStep.Settle }
    requires program { program.now ≡ one Guard.Always Act.Keep }
    requires some { 1 ≤ tries }
    requires network { (by : NetworkView) × IsNetwork network.old by }
    ensures advances { Through network.old network.new (λ by next.
        HasAdvanced (meaning S.Shelf V.Disk) tries by halt.old world.old next halt.new world.new) }
    ensures under_way { (asked : Asked)
        → IsUnderWay world.old asked → OnOk result (IsUnderWay world.new asked) }
    ensures fewer { OnOk result (steps_left world.new < steps_left world.old) }
    ensures told { IfErr result (WasToldOrder world.new) }
    ensures network { (by : NetworkView)
        → IsNetwork network.old by → (next : NetworkView) × IsNetwork network.new next }
    ensures free { OnOk result (IsFree world.new) }
    ensures idle { KeepsIdle world.old world.new }
{
    list(world, network)?;
    rescan(world, network, halt, tries, program)
}

/// Asks the members for their next keys, again and again, until their listing is complete, unless it is. An `Err` is what the operator's
/// call was told.
fn list<S: Shelf, V: Disk>(world: &mut World<S, V>, network: &mut Network) -> Result<(), OpAnswer>
    requires under_way { (asked : Asked) × IsUnderWay world.old asked }
    requires free { IsFree world.old }
    requires settles { step_of world.old.council.plan ≡ Some PlanStep.Settle }
    requires network { (by : NetworkView) × IsNetwork network.old by }
    ensures advances { (tries : ℕ) (halt : AHalt) → Through network.old network.new (λ by next.
        HasAdvanced (meaning S.Shelf V.Disk) tries by halt world.old next halt world.new) }
    ensures under_way { (asked : Asked)
        → IsUnderWay world.old asked → OnOk result (IsUnderWay world.new asked) }
    ensures no_more { OnOk result (steps_left world.new ≤ steps_left world.old) }
    ensures listed { OnOk result (TakesStep world.old world.new) }
    ensures free { OnOk result (IsFree world.new) }
    ensures told { IfErr result (WasToldOrder world.new) }
    ensures network { (by : NetworkView)
        → IsNetwork network.old by → (next : NetworkView) × IsNetwork network.new next }
    ensures idle { KeepsIdle world.old world.new }
{
    if world.settle_key().is_some() {
        return Ok(());
    }
    'pages: while let Gathered::More = exchange(world, network, Exchange::List)? {}
    Ok(())
}

/// Proposes each listed key anew, by the program that leaves its state as it is, as a call of caller 0. An `Err` is what the operator's
/// call was told.
fn rescan<S: Shelf, V: Disk>(
    world: &mut World<S, V>,
    network: &mut Network,
    halt: &mut Halt,
    tries: u8,
    program: &Program,
) -> Result<(), OpAnswer>
    requires under_way { (asked : Asked) × IsUnderWay world.old asked }
    requires free { IsFree world.old }
    requires program { program.now ≡ one Guard.Always Act.Keep }
    requires some { 1 ≤ tries }
    requires network { (by : NetworkView) × IsNetwork network.old by }
    ensures advances { Through network.old network.new (λ by next.
        HasAdvanced (meaning S.Shelf V.Disk) tries by halt.old world.old next halt.new world.new) }
    ensures under_way { (asked : Asked)
        → IsUnderWay world.old asked → OnOk result (IsUnderWay world.new asked) }
    ensures fewer { IsSome (due_in world.old.council.plan)
        → OnOk result (steps_left world.new < steps_left world.old) }
    ensures no_more { OnOk result (steps_left world.new ≤ steps_left world.old) }
    ensures told { IfErr result (WasToldOrder world.new) }
    ensures network { (by : NetworkView)
        → IsNetwork network.old by → (next : NetworkView) × IsNetwork network.new next }
    ensures free { OnOk result (IsFree world.new) }
    ensures idle { KeepsIdle world.old world.new }
{
    while let Some(key) = world.due_key()? {
        match change(world, network, halt, tries, 0, &key, program) {
            Answer::Done { .. } => (),
            stopped => return Err(OpAnswer::Stopped(stopped)),
        }
    }
    Ok(())
}
