//! How a round proposes: what rides along, and the frames that ask each member to accept.

ghost use Rattle.std.specs.Prelude.{◌≡◌, ◌<◌, ◌≤◌, length, false, Some, IsTrue, IfOk, IfErr, IfSome, OnOk, OnErr};
ghost use Rattle.cas_ballot.specs.Ballot.{FitsBallot};
ghost use Rattle.cas_change.specs.Outcome.{outcome_of};
ghost use Rattle.cas_model.specs.Calls.Step.{Sends, accepts_to};
ghost use Rattle.cas_proposer.specs.Desk.{may_ride};
ghost use Rattle.cas_proposer.specs.declared.round.Round.{Round};
ghost use Rattle.cas_world_calls.specs.Proposing.{proposing_of, RidesOn, ProposesOn, FailsToPropose};
ghost use Rattle.cas_model.specs.View.{disk_meaning};

use cas_ballot::Ballot;
use cas_cache::Ready;
use cas_change::{Key, Outcome, Program, State, apply};
use cas_disk::Disk;
use cas_flow::Flow;
use cas_proposer::Desk;
use cas_quorum::Era;
use cas_record::{Answer, Mark, Proposal};
use cas_slot::Ask;
use cas_vault::VaultError;
use cas_world_calls::proposal::{Author, Copies, Proposing};
use cas_world_calls::send::send_to;
use std::alloc::{AllocError, Global};

/// Proposes what the program makes of the state that stands ready, in the accept phase of the desk's open round: draws the ballot
/// that rides along, and asks each member that accepts. After an `Err` the round is ended, and nothing is sent: after `VaultFault` the
/// desk is down, and after `NoMemory` a ballot may be drawn.
pub(crate) fn propose_on<V: Disk>(
    alloc: Global,
    desk: &mut Desk<V>,
    flow: &mut Flow,
    era: &Era,
    author: Author,
    key: &Key,
    program: &Program,
    ready: &Ready,
) -> Result<Proposing, Answer>
    requires up { desk.old.down ≡ false }
    requires accepting { IsTrue (may_ride desk.old.round) }
    requires proposer { desk.old.id ≤ 16 }
    requires caller { author.caller ≤ 16 }
    requires queue { author.caller < length flow.old.own }
    requires ballot { FitsBallot ready.now.ballot }
    ensures made { IfOk result (λ proposing.
        proposing ≡ proposing_of author key.now era.now.number program.now ready.now) }
    ensures sent { (round : Round) → desk.old.round ≡ Some round → OnOk result
        (ProposesOn (disk_meaning V.Disk) round desk.old desk.new author.caller key.now era.now
        (outcome_of program.now ready.now.state).state ready.now.ballot flow.old flow.new) }
    ensures refused { (round : Round) → desk.old.round ≡ Some round
        → IfErr result (FailsToPropose (disk_meaning V.Disk) round.key desk.old desk.new) }
    ensures not_sent { OnErr result (flow.new ≡ flow.old) }
{
    let ride = ride_on(desk)?;
    let age = desk.age();
    match proposal(alloc, flow, era, author, age, key, program, ready, ride) {
        Ok(proposing) => Ok(proposing),
        Err(_) => {
            desk.end(None);
            Err(Answer::NoMemory { proposed: false })
        }
    }
}

/// Draws the ballot that rides with the accepts of the desk's open round. After an `Err` the round is ended: after `VaultFault` the
/// desk is down, and after `NoMemory` it is as before otherwise.
fn ride_on<V: Disk>(desk: &mut Desk<V>) -> Result<Option<Ballot>, Answer>
    requires up { desk.old.down ≡ false }
    requires accepting { IsTrue (may_ride desk.old.round) }
    requires proposer { desk.old.id ≤ 16 }
    ensures rides { (round : Round) → desk.old.round ≡ Some round
        → IfOk result (RidesOn (disk_meaning V.Disk) round desk.old desk.new) }
    ensures refused { (round : Round) → desk.old.round ≡ Some round
        → IfErr result (FailsToPropose (disk_meaning V.Disk) round.key desk.old desk.new) }
{
    match desk.ride() {
        Ok(ride) => Ok(ride),
        Err(VaultError::VaultFault) => Err(Answer::VaultFault),
        Err(VaultError::NoMemory) => {
            desk.end(None);
            Err(Answer::NoMemory { proposed: false })
        }
        Err(VaultError::Spent | VaultError::Foreign { .. }) => unreachable!(),
    }
}

/// What the program makes of the state that stands ready, and the frames that ask each member to accept it. After an `Err`
/// nothing is sent.
fn proposal(
    alloc: Global,
    flow: &mut Flow,
    era: &Era,
    author: Author,
    age: u64,
    key: &Key,
    program: &Program,
    ready: &Ready,
    ride: Option<Ballot>,
) -> Result<Proposing, AllocError>
    requires caller { author.caller ≤ 16 }
    requires queue { author.caller < length flow.old.own }
    requires ballot { FitsBallot ready.now.ballot }
    requires ride { IfSome ride FitsBallot }
    ensures made { IfOk result (λ proposing.
        proposing ≡ proposing_of author key.now era.now.number program.now ready.now) }
    ensures sent { OnOk result (Sends flow.old author.caller
        (accepts_to author.caller age key.now ready.now.ballot era.now.number ride
        (outcome_of program.now ready.now.state).state era.now.acc) flow.new) }
    ensures not_sent { OnErr result (flow.new ≡ flow.old) }
{
    let outcome = apply(program, &ready.state)?;
    let copies = Copies::of(key, &outcome.state)?;
    let mark = Mark::Proposed(Proposal {
        caller: author.caller,
        call: author.call,
        key: key.copy()?,
        ballot: ready.ballot,
        read: ready.read,
        era: era.number,
        prepared_by: ready.by,
    });
    let ask = Ask::Accept {
        key: key.copy()?,
        ballot: ready.ballot,
        era: era.number,
        ride,
        state: outcome.state.copy()?,
    };
    send_to(
        alloc,
        flow,
        author.caller,
        &era.acc,
        author.caller,
        age,
        ask,
    )?;
    Ok(Proposing {
        outcome,
        copies,
        mark,
    })
}
