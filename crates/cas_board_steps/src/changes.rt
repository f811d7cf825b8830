//! What one hold does for the call of a caller: one call on the world, with the end of the caller's call where that told its answer.

ghost use Rattle.std.specs.Prelude.{◌≡◌, ◌≢◌, ◌≤◌, ℕ, [], true, false, None, Some, IsSome, IfSome, IfOk, IfErr, OnOk};
ghost use Rattle.cas_model.specs.View.{CallerView, IsAt};
ghost use Rattle.cas_flow.specs.Flow.{queue_at};
ghost use Rattle.cas_proposer.specs.Desk.{DeskView};
ghost use Rattle.cas_world.specs.Calls.Beginning.{is_refusal};
ghost use Rattle.cas_world.specs.Readers.{closed_in};
ghost use Rattle.cas_world.specs.World.{IsInPhase};
ghost use Rattle.cas_board_steps.specs.Calls.Conflicts.{is_conflict};
ghost use Rattle.cas_board_steps.specs.Calls.Changes.{BeginsIn, BeginsNot, EndsMarked, GoesOnIn, StraysIn, harm_by};
ghost use Rattle.cas_board_steps.specs.Kept.{IsKept};
ghost use Rattle.cas_board_steps.specs.Mine.{wanted_by, wants};
ghost use Rattle.cas_board_steps.specs.OwnParts.{own_part};
ghost use Rattle.cas_board_steps.specs.Calls.Open.{HasOpen, IsIdle, is_met_in};
ghost use Rattle.cas_board_steps.specs.Calls.Stages.{IsFirst, IsStageOf, front_of, tells_met};

use cas_ballot::AcceptorId;
use cas_board_world::SteadyWorld;
use cas_change::{Key, Program};
use cas_disk::Disk;
use cas_fate::{Leg, Verdict};
use cas_record::Answer;
use cas_slot::Shelf;

/// A frame that waits for its turn.
#[derive(Clone, Copy, Debug, PartialEq, Eq)]
pub struct Waiting {
    pub leg: Leg,
    /// The acceptor at its other end.
    pub peer: AcceptorId,
    /// How many late frames there are.
    pub late: usize,
}

/// How far a call has come, as a hold leaves it.
#[derive(Clone, Copy, Debug, PartialEq, Eq)]
pub enum Stage {
    /// The first frame of its round waits.
    Waits(Waiting),
    /// No frame waits, and the phase of its round may be ended.
    Through,
    /// No frame waits, and no round of it is open: one ended with a conflict, and another may be begun, or another caller closed it.
    Met,
}

/// A call that has begun.
#[derive(Clone, Copy, Debug, PartialEq, Eq)]
pub struct Begun {
    /// Its number.
    pub call: u32,
    pub stage: Stage,
}

/// The first frame of the caller that waits: of its round or, where caller 0 asks all members, of its exchange.
pub fn first_frame<S: Shelf, V: Disk>(world: &SteadyWorld<S, V>, caller: u8) -> Option<Waiting>
    requires { caller ≤ world.now.last_proposer }
    ensures first { IfSome result (IsFirst world.now caller) }
    ensures none { result ≡ None → front_of world.now caller ≡ None }
{
    match world.front(caller) {
        Some((leg, peer)) => Some(Waiting {
            leg,
            peer,
            late: world.late(),
        }),
        None => None,
    }
}

/// How far the caller's open call has come.
pub fn stage_of<S: Shelf, V: Disk>(world: &SteadyWorld<S, V>, caller: u8) -> Stage
    requires { caller ≤ world.now.last_proposer }
    ensures { IsStageOf world.now caller result }
{
    match first_frame(world, caller) {
        Some(frame) => Stage::Waits(frame),
        None => {
            if world.verdict(caller).is_some() {
                Stage::Through
            } else {
                Stage::Met
            }
        }
    }
}

/// The late frame at that place strays in, if there is one. One that the world refuses is passed over.
pub fn let_in<S: Shelf, V: Disk>(world: &mut SteadyWorld<S, V>, index: usize)
    requires kept { IsKept world.old }
    ensures kept { IsKept world.new }
    ensures last_proposer { world.new.last_proposer ≡ world.old.last_proposer }
    ensures strays { StraysIn world.old world.new }
{
    if index < world.late() {
        let _refused = world.stray(index).is_err();
    }
}

/// Begins the caller's next call. An `Err` is its answer: it was not begun, or has ended.
pub fn begin<S: Shelf, V: Disk>(
    world: &mut SteadyWorld<S, V>,
    caller: u8,
    key: &Key,
    program: &Program,
) -> Result<Begun, Answer>
    requires known { caller ≤ world.old.last_proposer }
    requires kept { IsKept world.old }
    requires idle { IsIdle (own_part world.old caller) }
    ensures kept { IsKept world.new }
    ensures last_proposer { world.new.last_proposer ≡ world.old.last_proposer }
    ensures begun { IfOk result
        (λ begun. BeginsIn caller begun.call key.now program.now world.old world.new) }
    ensures stage { IfOk result (λ begun. IsStageOf world.new caller begun.stage) }
    ensures fresh { IfOk result (λ begun. tells_met begun.stage ≡ false) }
    ensures not_begun { IfErr result (BeginsNot caller key.now program.now world.old world.new) }
{
    let call = world.next_call(caller);
    match world.begin(caller, call, key, program) {
        Ok(()) => Ok(Begun {
            call,
            stage: stage_of(world, caller),
        }),
        Err(refusal) if refusal.is_refusal() => Err(refusal),
        Err(told) => Err(world.end(caller, call, told)),
    }
}

/// Goes on with the caller's open call of that number: another round of it begins; or its first frame has its turn, of which this
/// becomes; or its phase ends, and the call with it unless something is proposed, or another round may follow. Where another caller
/// closed the round the call ends. An `Err` is the answer with which it has ended. A conflict is that answer only where no other round may
/// follow it.
pub fn go_on<S: Shelf, V: Disk>(
    world: &mut SteadyWorld<S, V>,
    caller: u8,
    call: u32,
    key: &Key,
    program: &Program,
    verdict: Verdict,
    may_repeat: bool,
) -> Result<Stage, Answer>
    requires known { caller ≤ world.old.last_proposer }
    requires kept { IsKept world.old }
    requires called { HasOpen call (own_part world.old caller) }
    requires wanted { wanted_by caller world.old.marks ≡ Some (wants call key.now program.now) }
    ensures kept { IsKept world.new }
    ensures last_proposer { world.new.last_proposer ≡ world.old.last_proposer }
    ensures goes_on { OnOk result (GoesOnIn caller call (harm_by verdict) world.old world.new) }
    ensures stage { IfOk result (IsStageOf world.new caller) }
    ensures met { IfOk result (λ stage. is_met_in (own_part world.new caller) ≡ tells_met stage) }
    ensures repeats { OnOk result (is_met_in (own_part world.new caller) ≡ true
        → may_repeat ≡ true) }
    ensures last { IfErr result (λ told. is_conflict told ≡ true → may_repeat ≡ false) }
    ensures ends { IfErr result (EndsMarked caller call (harm_by verdict) world.old world.new) }
{
    if let Some(told) = world.closed(caller) {
        return Err(world.end(caller, call, told));
    }
    if world.verdict(caller).is_none() {
        return begin_again(world, caller, call, key, program);
    }
    if world.front(caller).is_some() {
        return take_turn(world, caller, call, verdict);
    }
    if world.has_proposed(caller) {
        let told = world.count(caller);
        return Err(world.end(caller, call, told));
    }
    propose(world, caller, call, may_repeat)
}

/// Begins another round of the call, whose last one ended with a conflict. An `Err` is the answer with which it has ended.
fn begin_again<S: Shelf, V: Disk>(
    world: &mut SteadyWorld<S, V>,
    caller: u8,
    call: u32,
    key: &Key,
    program: &Program,
) -> Result<Stage, Answer>
    requires known { caller ≤ world.old.last_proposer }
    requires kept { IsKept world.old }
    requires called { HasOpen call (own_part world.old caller) }
    requires wanted { wanted_by caller world.old.marks ≡ Some (wants call key.now program.now) }
    requires idle { (desk : DeskView V) → IsAt world.old.desks caller desk → desk.round ≡ None }
    requires unclosed { (seen : CallerView)
        → IsAt world.old.callers caller seen → closed_in seen.call ≡ None }
    ensures kept { IsKept world.new }
    ensures last_proposer { world.new.last_proposer ≡ world.old.last_proposer }
    ensures goes_on { (most : ℕ) → OnOk result (GoesOnIn caller call most world.old world.new) }
    ensures stage { IfOk result (IsStageOf world.new caller) }
    ensures met { IfOk result (λ stage. is_met_in (own_part world.new caller) ≡ tells_met stage) }
    ensures unmet { OnOk result (is_met_in (own_part world.new caller) ≡ false) }
    ensures no_conflict { IfErr result (λ told. is_conflict told ≡ false) }
    ensures ends { (most : ℕ) → IfErr result (EndsMarked caller call most world.old world.new) }
{
    match world.begin(caller, call, key, program) {
        Ok(()) => Ok(stage_of(world, caller)),
        Err(told) => Err(world.end(caller, call, told)),
    }
}

/// The first frame of the call's round has its turn. An `Err` is the answer with which the call has ended, for want of memory.
fn take_turn<S: Shelf, V: Disk>(
    world: &mut SteadyWorld<S, V>,
    caller: u8,
    call: u32,
    verdict: Verdict,
) -> Result<Stage, Answer>
    requires known { caller ≤ world.old.last_proposer }
    requires kept { IsKept world.old }
    requires called { HasOpen call (own_part world.old caller) }
    requires running { (desk : DeskView V) → IsAt world.old.desks caller desk → IsSome desk.round }
    requires waits { (queue_at world.old.flow caller).messages ≢ [] }
    ensures kept { IsKept world.new }
    ensures last_proposer { world.new.last_proposer ≡ world.old.last_proposer }
    ensures goes_on { OnOk result (GoesOnIn caller call (harm_by verdict) world.old world.new) }
    ensures stage { IfOk result (IsStageOf world.new caller) }
    ensures met { IfOk result (λ stage. is_met_in (own_part world.new caller) ≡ tells_met stage) }
    ensures unmet { OnOk result (is_met_in (own_part world.new caller) ≡ false) }
    ensures no_conflict { IfErr result (λ told. is_conflict told ≡ false) }
    ensures ends { IfErr result (EndsMarked caller call (harm_by verdict) world.old world.new) }
{
    match world.turn(caller, verdict) {
        Ok(()) => Ok(stage_of(world, caller)),
        Err(_) => {
            let proposed = world.has_proposed(caller);
            let told = Answer::NoMemory { proposed };
            Err(world.end(caller, call, told))
        }
    }
}

/// Ends the prepare phase of the call's round: something is proposed, or another round may follow a conflict. An `Err` is the answer with
/// which the call has ended otherwise.
fn propose<S: Shelf, V: Disk>(
    world: &mut SteadyWorld<S, V>,
    caller: u8,
    call: u32,
    may_repeat: bool,
) -> Result<Stage, Answer>
    requires known { caller ≤ world.old.last_proposer }
    requires kept { IsKept world.old }
    requires called { HasOpen call (own_part world.old caller) }
    requires preparing { IsInPhase world.old caller true }
    requires unproposed { (seen : CallerView) → IsAt world.old.callers caller seen
        → IfSome seen.call (λ open_call. open_call.proposed ≡ None) }
    ensures kept { IsKept world.new }
    ensures last_proposer { world.new.last_proposer ≡ world.old.last_proposer }
    ensures goes_on { (most : ℕ) → OnOk result (GoesOnIn caller call most world.old world.new) }
    ensures stage { IfOk result (IsStageOf world.new caller) }
    ensures met { IfOk result (λ stage. is_met_in (own_part world.new caller) ≡ tells_met stage) }
    ensures repeats { OnOk result (is_met_in (own_part world.new caller) ≡ true
        → may_repeat ≡ true) }
    ensures last { IfErr result (λ told. is_conflict told ≡ true → may_repeat ≡ false) }
    ensures ends { (most : ℕ) → IfErr result (EndsMarked caller call most world.old world.new) }
{
    match world.propose(caller) {
        Ok(()) => Ok(stage_of(world, caller)),
        Err(told) => {
            if may_repeat && told.is_conflict() {
                return Ok(stage_of(world, caller));
            }
            Err(world.end(caller, call, told))
        }
    }
}
