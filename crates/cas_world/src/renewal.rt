//! The renewal of the proposers for a collection, and the floor of its key.

ghost use Rattle.std.specs.Prelude.{◌≡◌, ◌⊎◌, ◌≤◌, ◌^◌, false, IsSome, IsErrOf, IfErr, IfOk, IfSome, OnOk, length};
ghost use Rattle.cas_ballot.specs.Ballot.{FitsBallot};
ghost use Rattle.cas_collect.specs.declared.collect.CollectStep.TheVariants.{Renew as RenewStep, Floor as FloorStep};
ghost use Rattle.cas_vault.specs.Vault.{kept_of};
ghost use Rattle.cas_model.specs.Step.{Step, Renew, MakeFloor};
ghost use Rattle.cas_model.specs.Calls.Desks.{Renews, FailsToRenew, FindsNoAge};
ghost use Rattle.cas_model.specs.View.{meaning, disk_meaning};
ghost use Rattle.cas_world_calls.specs.Answers.{aged_answer, crash_answer};
ghost use Rattle.cas_world_calls.specs.Council.{council_view};
ghost use Rattle.cas_world.specs.Collection.Collect.{IsDueStep, IsNextAge, GoesOnCollecting, MarksRenewal, AreFloorsPassed};
ghost use Rattle.cas_world.specs.Exchanges.Exchange.{WasToldOrder};
ghost use Rattle.cas_world.specs.Eras.Moving.{LeavesDesk, closed_with};

use crate::plans::{has_round, leave};
use crate::world::World;
use cas_ballot::Ballot;
use cas_change::{Key, State};
use cas_disk::Disk;
use cas_flow::Flow;
use cas_proposer::Desk;
use cas_record::{Answer, Mark, OpAnswer};
use cas_slot::Shelf;
use cas_vault::VaultError;
use cas_world_calls::answers::{aged_answer, crash_answer};
use cas_world_calls::call::Caller;
use cas_world_calls::council::{Council, EXCHANGE_PLACE, no_memory};

impl<S: Shelf, V: Disk> World<S, V> {
    /// The proposer, whose renewal is the step of the collection that is due, is renewed: what it holds for the key is gone, its open round
    /// is closed, which its caller is told, its vault is past the tombstone, and its age is one more. Answers the new age.
    ///
    /// The refusals, each of which the operator's call is told, come in this order: [`OpAnswer::ProposerDown`] exactly where the proposer is
    /// down, or goes down in this step, and then its open round is closed as by a crash; [`Answer::Spent`] exactly where its age is 2^48;
    /// [`Answer::NoMemory`], after which its counter is at least the tombstone's. After each of them the step is still due.
    pub fn renew(&mut self, proposer: u8) -> Result<u64, OpAnswer>
        requires known { proposer ≤ self.old.last_proposer }
        requires due { IsDueStep self.old (RenewStep proposer) }
        ensures step { Step (meaning S.Shelf V.Disk) self.old (Renew proposer) self.new }
        ensures ok { OnOk result (GoesOnCollecting self.old self.new) }
        ensures age { IfOk result (λ age. IsNextAge self.old proposer age) }
        ensures err { IfErr result (WasToldOrder self.new) }
    {
        let place = usize::from(proposer);
        if self.desks[place].is_down() {
            return Err(self.refuse(OpAnswer::ProposerDown { proposer }));
        }
        let desk = &mut self.desks[place];
        let caller = &mut self.callers[place];
        let renewed = match &self.council.collection {
            Some(collection) => {
                let tomb = collection.tomb();
                grow_older(
                    desk,
                    caller,
                    &mut self.flow,
                    proposer,
                    collection.key(),
                    tomb,
                )
            }
            None => unreachable!(),
        };
        mark_renewal(&mut self.council, &mut self.flow, proposer, renewed)
    }

    /// The tombstone becomes the floor of the key's history, where that is the step of the collection that is due. It takes no memory.
    ///
    /// Where the shelves and the disks tell what they keep, each floor is passed then: no proposer draws a ballot at or below it, whatever
    /// a crash leaves of its vault, and what it holds of the key is above it; no member that is up has a state of the key below it,
    /// whatever a crash leaves of its shelf; and what is under way to such a member for the key, at or below the floor, is too old for it.
    pub fn floor(&mut self)
        requires { IsDueStep self.old FloorStep }
        ensures step { Step (meaning S.Shelf V.Disk) self.old MakeFloor self.new }
        ensures goes_on { GoesOnCollecting self.old self.new }
        ensures passed { S.tells → V.tells → AreFloorsPassed (meaning S.Shelf V.Disk) self.new }
    {
        let ballot = match &self.council.collection {
            Some(collection) => collection.tomb(),
            None => unreachable!(),
        };
        let key = self.council.mark_floor();
        self.record.push(Mark::Floor {
            key,
            ballot,
            state: State::Empty,
        });
    }
}

/// The desk, which is up, is renewed for the collection of the key, or is not. Where it is, or goes down, its open round is closed, its
/// caller is told so, and its frames join the late ones; otherwise all stays.
fn grow_older<V: Disk>(
    desk: &mut Desk<V>,
    caller: &mut Caller,
    flow: &mut Flow,
    proposer: u8,
    key: &Key,
    tomb: Ballot,
) -> Result<u64, VaultError>
    requires up { desk.old.down ≡ false }
    requires proposer { proposer ≤ 16 }
    requires tomb { FitsBallot tomb }
    requires open { IsSome desk.old.round → IsSome caller.old.call }
    ensures ok { IfOk result (λ age. LeavesDesk (Renews (disk_meaning V.Disk) key.now tomb age)
        (closed_with (λ proposed. aged_answer proposed age))
        proposer desk.old desk.new caller.old caller.new flow.old flow.new) }
    ensures fault { IsErrOf result VaultError.VaultFault
        → LeavesDesk (FailsToRenew (disk_meaning V.Disk) tomb) (closed_with crash_answer)
        proposer desk.old desk.new caller.old caller.new flow.old flow.new }
    ensures spent { IsErrOf result VaultError.Spent
        → ((kept_of desk.old.vault).age ≡ 2 ^ 48) × (desk.new ≡ desk.old) }
    ensures no_memory { IsErrOf result VaultError.NoMemory
        → FindsNoAge (disk_meaning V.Disk) tomb desk.old desk.new }
    ensures stays { (IsErrOf result VaultError.VaultFault → ⊥)
        → IfErr result (λ error. (caller.new ≡ caller.old) × (flow.new ≡ flow.old)) }
    ensures cause { IfErr result (λ error. (error ≡ VaultError.VaultFault)
        ⊎ ((error ≡ VaultError.Spent) ⊎ (error ≡ VaultError.NoMemory))) }
{
    let closes = has_round(desk);
    let proposed = caller.has_proposed();
    match desk.renew(key, tomb) {
        Ok(age) => {
            leave(caller, flow, proposer, closes, aged_answer(proposed, age));
            Ok(age)
        }
        Err(VaultError::VaultFault) => {
            leave(caller, flow, proposer, closes, crash_answer(proposed));
            Err(VaultError::VaultFault)
        }
        Err(error) => Err(error),
    }
}

/// The renewal of the proposer is noted. Where it went down an exchange of proposer 0 is broken off; and where it was not renewed the
/// operator's call is told why.
fn mark_renewal(
    council: &mut Council,
    flow: &mut Flow,
    proposer: u8,
    renewed: Result<u64, VaultError>,
) -> Result<u64, OpAnswer>
    requires proposer { proposer ≤ 16 }
    requires ages { IfSome council.old.collection (λ c. length c.ages ≤ 16) }
    requires cause { IfErr renewed (λ error. (error ≡ VaultError.VaultFault)
        ⊎ ((error ≡ VaultError.Spent) ⊎ (error ≡ VaultError.NoMemory))) }
    ensures marks { MarksRenewal proposer renewed
        (council_view council.old) (council_view council.new) flow.old flow.new result }
    ensures eras { council.new.eras ≡ council.old.eras }
{
    match renewed {
        Ok(age) => {
            council.renew(age);
            Ok(age)
        }
        Err(VaultError::VaultFault) => {
            if proposer == 0 {
                flow.abandon(EXCHANGE_PLACE);
                council.break_off();
            }
            council.tell(OpAnswer::ProposerDown { proposer });
            Err(OpAnswer::ProposerDown { proposer })
        }
        Err(VaultError::Spent) => {
            council.tell(OpAnswer::Stopped(Answer::Spent));
            Err(OpAnswer::Stopped(Answer::Spent))
        }
        Err(_) => {
            council.tell(no_memory());
            Err(no_memory())
        }
    }
}
