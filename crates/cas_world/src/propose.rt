//! The ends of the two phases of a round.

ghost use Rattle.std.specs.Prelude.{◌≡◌, ◌≤◌, true, false, None, Some, slice_get, is_some, not, reverse, IsTrue, IsSome, IsSomeAnd, IfSome, IfOk, IfErr, OnOk, OnErr};
ghost use Rattle.cas_ballot.specs.declared.ballot.Ballot.{Ballot as ABallot};
ghost use Rattle.cas_change.specs.declared.outcome.Outcome.{Outcome};
ghost use Rattle.cas_change.specs.declared.outcome.Took.{Took as ATook};
ghost use Rattle.cas_change.specs.declared.state.State.{State as AState};
ghost use Rattle.cas_model_causes.specs.Calls.Told.{PreparesBy, AcceptsBy, TellsAbove};
ghost use Rattle.cas_protocol.specs.Proposers.{state_read};
ghost use Rattle.cas_model.specs.Calls.Step.{offered_by};
ghost use Rattle.cas_model.specs.Step.{Step, Propose, Count};
ghost use Rattle.cas_model.specs.View.{CallerView, meaning, disk_meaning};
ghost use Rattle.cas_model.specs.Laws.{AcknowledgedIsKept, IsDoneAt};
ghost use Rattle.cas_world.specs.Calls.Count.{MayCount, Counts};
ghost use Rattle.cas_world_calls.specs.Proposing.{FailsToPropose};
ghost use Rattle.cas_world.specs.Calls.Reading.{MayEndPrepare, ReadsRound, Proposes, EndsShort, HasProposed};
ghost use Rattle.cas_world.specs.World.{IsInPhase, WasTold};
ghost use Rattle.cas_world_calls.specs.declared.call.OpenCall.{OpenCall};
ghost use Rattle.cas_proposer.specs.Desk.{may_read, may_ride};
ghost use Rattle.cas_proposer.specs.Desk.{DeskView};
ghost use Rattle.cas_proposer.specs.Round.{is_preparing, TurnsToAccept};
ghost use Rattle.cas_proposer.specs.declared.round.Round.{Round};
ghost use Rattle.cas_record.specs.declared.mark.Acknowledgment.{Acknowledgment as AnAcknowledgment};
ghost use Rattle.cas_record.specs.declared.mark.Mark.TheVariants.{Acked};
ghost use Rattle.cas_record.specs.Logs.Orderly.{IsAboveFloors};
ghost use Rattle.cas_record.specs.Places.{Stands};
ghost use Rattle.cas_slot.specs.Slot.{accepted_ballot};

use crate::proposing::propose_on;
use crate::world::World;
use cas_ballot::{Ballot, Members};
use cas_cache::Ready;
use cas_change::{State, Took};
use cas_disk::Disk;
use cas_flow::Flow;
use cas_proposer::Desk;
use cas_quorum::Era;
use cas_record::{Acknowledgment, Answer, Mark, Record};
use cas_slot::{Accepted, Shelf};
use cas_world_calls::answers::{cause_by, refusal_by};
use cas_world_calls::call::Caller;
use cas_world_calls::proposal::{Author, Copies, Proposing};
use std::alloc::Global;

impl<S: Shelf, V: Disk> World<S, V> {
    /// Ends the prepare phase of the proposer's round, none of whose frames waits. With a quorum it proposes what the call's program
    /// makes of the state that was read, and asks each member to accept it. Otherwise the round ends, and the caller is told why:
    /// [`Answer::Conflict`] with the greatest ballot that was met, if one was; else [`Answer::Aged`] with the greatest age that was told;
    /// else [`Answer::Full`] of the least acceptor that was full; else [`Answer::Short`]. With a quorum only [`Answer::VaultFault`]
    /// comes, where the count of faults of the vault's disk rose, and [`Answer::NoMemory`].
    ///
    /// Where the shelves and the disks tell what they keep, the ballot of a conflict is above the round's.
    pub fn propose(&mut self, proposer: u8) -> Result<(), Answer>
        requires known { proposer ≤ self.old.last_proposer }
        requires preparing { IsInPhase self.old proposer true }
        ensures step { Step (meaning S.Shelf V.Disk) self.old (Propose proposer) self.new }
        ensures proposed { OnOk result (HasProposed self.new proposer) }
        ensures told { (caller : CallerView) → slice_get self.old.callers proposer ≡ Some caller
            → IfErr result (WasTold self.new proposer caller.number) }
        ensures cause { IfErr result
            (λ told. PreparesBy (meaning S.Shelf V.Disk) self.old proposer told self.new) }
        ensures above { S.tells → V.tells → IfErr result (TellsAbove self.old proposer) }
    {
        let alloc = *self.acceptors.allocator();
        let place = usize::from(proposer);
        let desk = &mut self.desks[place];
        let caller = &mut self.callers[place];
        match end_prepare(alloc, desk, &mut self.flow, caller, proposer) {
            Ok(proposing) => {
                caller.propose(&mut self.record, proposing);
                Ok(())
            }
            Err(refusal) => {
                caller.end_round(&refusal);
                Err(refusal)
            }
        }
    }

    /// Ends the accept phase of the proposer's round, none of whose frames waits: the change is done where a quorum accepted, which is
    /// marked, and otherwise it is unsettled, by the first of the causes that [`World::propose`] names. It takes no memory.
    ///
    /// Where the shelves and the disks tell what they keep, what is acknowledged, this change among it, stands on the shelves of those
    /// that confirmed it, who are an accept quorum, whatever a crash now leaves of each, until a floor is made at or above it. A change that is
    /// told done is acknowledged at the ballot that is told, above each floor of its key.
    pub fn count(&mut self, proposer: u8) -> Answer
        requires known { proposer ≤ self.old.last_proposer }
        requires counting { IsInPhase self.old proposer false }
        ensures step { Step (meaning S.Shelf V.Disk) self.old (Count proposer) self.new }
        ensures told { (caller : CallerView) → slice_get self.old.callers proposer ≡ Some caller
            → WasTold self.new proposer caller.number result }
        ensures cause { AcceptsBy self.old proposer result }
        ensures above { S.tells → V.tells → TellsAbove self.old proposer result }
        ensures kept { S.tells → V.tells → (a : AnAcknowledgment) → Stands (Acked a)
            (reverse self.new.marks) → IsAboveFloors (reverse self.new.marks) a.key a.ballot
            → AcknowledgedIsKept (meaning S.Shelf V.Disk) self.new a }
        ensures done { S.tells → V.tells → (state : AState) (took : ATook) (ballot : ABallot)
            → result ≡ Answer.Done state took ballot
            → IsDoneAt (meaning S.Shelf V.Disk) self.old proposer ballot self.new }
    {
        let place = usize::from(proposer);
        let desk = &mut self.desks[place];
        let caller = &mut self.callers[place];
        match cause_by(desk.verdict()) {
            None => acknowledge(desk, caller, &mut self.record),
            Some(why) => {
                desk.end(None);
                let answer = Answer::Unsettled { why };
                caller.end_round(&answer);
                answer
            }
        }
    }
}

impl<S: Shelf, V: Disk> World<S, V> {
    /// Whether the caller's open call has proposed something. An open round of it is in its accept phase exactly then.
    pub fn has_proposed(&self, caller: u8) -> bool
        requires { caller ≤ self.now.last_proposer }
        ensures proposed { (seen : CallerView) → slice_get self.now.callers caller ≡ Some seen
            → IfSome seen.call (λ call. result ≡ is_some call.proposed) }
        ensures phase { (desk : DeskView V) → slice_get self.now.desks caller ≡ Some desk
            → IfSome desk.round (λ round. is_preparing round.phase ≡ not result) }
    {
        self.callers[usize::from(caller)].has_proposed()
    }
}

/// Ends the prepare phase: what was read is proposed on, or the round is ended.
fn end_prepare<V: Disk>(
    alloc: Global,
    desk: &mut Desk<V>,
    flow: &mut Flow,
    caller: &Caller,
    proposer: u8,
) -> Result<Proposing, Answer>
    requires { MayEndPrepare desk.old caller.now flow.old proposer }
    ensures proposes { (round : Round) → desk.old.round ≡ Some round → (call : OpenCall)
        → caller.now.call ≡ Some call → IfOk result (Proposes (disk_meaning V.Disk)
        proposer caller.now.number round call desk.old desk.new flow.old flow.new) }
    ensures ends { (round : Round) → desk.old.round ≡ Some round
        → IfErr result (EndsShort (disk_meaning V.Disk) round desk.old desk.new) }
    ensures not_sent { OnErr result (flow.new ≡ flow.old) }
{
    match refusal_by(desk.verdict()) {
        None => propose_read(alloc, desk, flow, caller, proposer),
        Some(refusal) => {
            desk.end(None);
            Err(refusal)
        }
    }
}

/// Proposes what the call's program makes of the state that was read. After an `Err` the round is ended.
fn propose_read<V: Disk>(
    alloc: Global,
    desk: &mut Desk<V>,
    flow: &mut Flow,
    caller: &Caller,
    proposer: u8,
) -> Result<Proposing, Answer>
    requires may { MayEndPrepare desk.old caller.now flow.old proposer }
    requires quorum { IsTrue (may_read desk.old.round) }
    ensures proposes { (round : Round) → desk.old.round ≡ Some round → (call : OpenCall)
        → caller.now.call ≡ Some call → IfOk result (Proposes (disk_meaning V.Disk)
        proposer caller.now.number round call desk.old desk.new flow.old flow.new) }
    ensures refused { (round : Round) → desk.old.round ≡ Some round
        → IfErr result (FailsToPropose (disk_meaning V.Disk) round.key desk.old desk.new) }
    ensures not_sent { OnErr result (flow.new ≡ flow.old) }
{
    let Some(call) = &caller.call else {
        unreachable!();
    };
    let author = Author {
        caller: proposer,
        call: caller.number,
    };
    let (era, ready) = read(desk);
    propose_on(
        alloc,
        desk,
        flow,
        &era,
        author,
        &call.key,
        &call.program,
        &ready,
    )
}

/// Ends the prepare phase. What stands ready then is the state of the greatest ballot that was told, or the empty state, at the
/// round's own ballot, in its era.
fn read<V: Disk>(desk: &mut Desk<V>) -> (Era, Ready)
    requires { IsTrue (may_read desk.old.round) }
    ensures desk { desk.new ≡ record desk.old { round = desk.new.round } }
    ensures turns { (round : Round)
        → desk.old.round ≡ Some round → IsSomeAnd desk.new.round (TurnsToAccept round) }
    ensures may_ride { IsTrue (may_ride desk.new.round) }
    ensures reads { (round : Round)
        → desk.old.round ≡ Some round → ReadsRound round result.0 result.1 }
{
    let by = desk.confirmers();
    let (era, ballot) = match desk.round() {
        Some(round) => (round.era, round.ballot),
        None => unreachable!(),
    };
    let (read, state) = accepted_or_empty(desk.read());
    let ready = Ready {
        ballot,
        state,
        read,
        by,
    };
    (era, ready)
}

/// What was read, by its ballot and its state: where nothing was accepted, the empty state at 0.0.
fn accepted_or_empty(read: Option<Accepted>) -> (Ballot, State)
    ensures ballot { result.0 ≡ accepted_ballot read }
    ensures state { result.1 ≡ state_read read }
{
    match read {
        Some(accepted) => (accepted.ballot, accepted.state),
        None => (Ballot::ZERO, State::Empty),
    }
}

/// Marks that a quorum accepted, and answers that the change is done. The promise that rode along may be kept.
pub(crate) fn acknowledge<V: Disk>(
    desk: &mut Desk<V>,
    caller: &mut Caller,
    record: &mut Record,
) -> Answer
    requires { MayCount desk.old caller.old «record».old.room }
    ensures { (round : Round)
        → desk.old.round ≡ Some round → (call : OpenCall) → caller.old.call ≡ Some call
        → (outcome : Outcome) → call.proposed ≡ Some outcome → Counts (disk_meaning V.Disk) desk.old
        desk.new round caller.old caller.new call outcome «record».old «record».new result }
{
    let by = desk.confirmers();
    let (ballot, era, ride) = match desk.round() {
        Some(round) => (round.ballot, round.era.number, round.ride),
        None => unreachable!(),
    };
    let Copied { copies, took } = take_copies(caller);
    let Copies {
        key,
        told,
        answer,
        kept,
    } = copies;
    desk.end(offered(ballot, ride, kept, by));
    let acknowledgment = Acknowledgment {
        key,
        ballot,
        era,
        by,
    };
    caller.mark(record, Mark::Acked(acknowledgment));
    caller.done(Answer::Done {
        state: told,
        took,
        ballot,
    });
    Answer::Done {
        state: answer,
        took,
        ballot,
    }
}

/// What an accept phase kept for its end, and which clause acted.
#[derive(Drop)]
struct Copied {
    copies: Copies,
    took: Took,
}

/// What the accept phase of the caller's call kept for its end.
fn take_copies(caller: &mut Caller) -> Copied
    requires { IsSomeAnd caller.old.call (λ call. IsSome call.copies × IsSome call.proposed) }
    ensures copies { IfSome caller.old.call
        (λ call. IfSome call.copies (λ copies. result.copies ≡ copies)) }
    ensures took { IfSome caller.old.call
        (λ call. IfSome call.proposed (λ outcome. result.took ≡ outcome.took)) }
    ensures caller { IfSome caller.old.call
        (λ call. caller.new ≡ record caller.old { call = Some (record call { copies = None }) }) }
{
    match &mut caller.call {
        Some(call) => match (call.copies.take(), &call.proposed) {
            (Some(copies), Some(outcome)) => Copied {
                copies,
                took: outcome.took,
            },
            _ => unreachable!(),
        },
        None => unreachable!(),
    }
}

/// The promise that a round offers once its change is done, where a ballot rode along.
fn offered(ballot: Ballot, ride: Option<Ballot>, state: State, by: Members) -> Option<Ready>
    ensures { (round : Round) → round.ballot ≡ ballot → result ≡ offered_by round ride state by }
{
    match ride {
        Some(ride) => Some(Ready {
            ballot: ride,
            state,
            read: ballot,
            by,
        }),
        None => None,
    }
}
