//! What is read of the world.

ghost use Rattle.std.specs.Prelude.{◌≡◌, ◌<◌, ◌≤◌, slice_get, option_map, suc, reverse, Some, is_some, not, IfSome, length, ◌↔◌, option_copied, IsTrue, IfNone};
ghost use Rattle.cas_world_calls.specs.Council.{due_in};
ghost use Rattle.cas_model_causes.specs.Eras.Tellings.{AreTellingsSo};
ghost use Rattle.cas_model.specs.Collection.State.{tomb_of};
ghost use Rattle.cas_model.specs.Exchanges.Step.{finished};
ghost use Rattle.cas_model.specs.View.{CallerView, IsAt, era_at};
ghost use Rattle.cas_flow.specs.Flow.{queue_at};
ghost use Rattle.cas_flow.specs.Message.{head_of};
ghost use Rattle.cas_proposer.specs.Desk.{DeskView};
ghost use Rattle.cas_proposer.specs.Round.{is_preparing};
ghost use Rattle.cas_record.specs.Legal.{IsLegal};
ghost use Rattle.cas_world.specs.Collection.Collect.{renewal_in};
ghost use Rattle.cas_world.specs.Exchanges.Exchange.{place_of};
ghost use Rattle.cas_world.specs.Eras.Plans.{HasFinished, IsFor, IsAtEnd, IsPartial, IsUnderWay, asked_of, step_of, rescanned_of, entrant_of};
ghost use Rattle.cas_world.specs.Readers.{next_number, closed_in, IsVerdictIn};

use crate::world::SteadyWorld;
use cas_ballot::{AcceptorId, Ballot};
use cas_change::Key;
use cas_disk::Disk;
use cas_fate::Leg;
use cas_members::PlanStep;
use cas_quorum::Era;
use cas_record::{Answer, Asked, OpAnswer, Record};
use cas_round::RoundVerdict;
use cas_slot::Shelf;
use cas_world::Target;

impl<S: Shelf, V: Disk> SteadyWorld<S, V> {
    /// As [`World::record`]. What the operator was told of changes of membership and of collections is so in it.
    pub fn record(&self) -> &Record
        ensures marks { result.now.marks ≡ self.now.marks }
        ensures legal { S.tells → V.tells → IsLegal (reverse result.now.marks) }
        ensures tellings { S.tells
            → V.tells → AreTellingsSo (suc self.now.last_proposer) (reverse result.now.marks) }
    {
        self.world.record()
    }

    /// As [`World::era`].
    pub fn era(&self) -> &Era
        ensures { result.now ≡ era_at self.now 0 }
    {
        self.world.era()
    }

    /// As [`World::next_call`].
    pub fn next_call(&self, caller: u8) -> u32
        requires { caller ≤ self.now.last_proposer }
        ensures { option_map next_number (slice_get self.now.callers caller) ≡ Some result }
    {
        self.world.next_call(caller)
    }

    /// As [`World::front`].
    pub fn front(&self, proposer: u8) -> Option<(Leg, AcceptorId)>
        requires { proposer ≤ self.now.last_proposer }
        ensures { result ≡ option_map head_of
            (slice_get (queue_at self.now.flow (place_of self.now proposer)).messages 0) }
    {
        self.world.front(proposer)
    }

    /// As [`World::closed`].
    pub fn closed(&self, proposer: u8) -> Option<Answer>
        requires { proposer ≤ self.now.last_proposer }
        ensures { (caller : CallerView)
            → IsAt self.now.callers proposer caller → result ≡ closed_in caller.call }
    {
        self.world.closed(proposer)
    }

    /// As [`World::verdict`].
    pub fn verdict(&self, proposer: u8) -> Option<RoundVerdict>
        requires { proposer ≤ self.now.last_proposer }
        ensures { (desk : DeskView V)
            → IsAt self.now.desks proposer desk → IsVerdictIn desk.round result }
    {
        self.world.verdict(proposer)
    }

    /// As [`World::has_proposed`].
    pub fn has_proposed(&self, caller: u8) -> bool
        requires { caller ≤ self.now.last_proposer }
        ensures proposed { (seen : CallerView) → slice_get self.now.callers caller ≡ Some seen
            → IfSome seen.call (λ call. result ≡ is_some call.proposed) }
        ensures phase { (desk : DeskView V) → slice_get self.now.desks caller ≡ Some desk
            → IfSome desk.round (λ round. is_preparing round.phase ≡ not result) }
    {
        self.world.has_proposed(caller)
    }

    /// As [`World::late`].
    pub fn late(&self) -> usize
        ensures { result ≡ length self.now.flow.late }
    {
        self.world.late()
    }

    /// As [`World::plan_is`].
    pub fn plan_is(&self, asked: &Asked) -> bool
        ensures { IsTrue result ↔ IsFor self.now.council.plan asked.now }
    {
        self.world.plan_is(asked)
    }

    /// As [`World::plan_step`].
    pub fn plan_step(&self) -> Option<PlanStep>
        ensures step { result ≡ step_of self.now.council.plan }
        ensures end { result ≡ Some PlanStep.Finished → IsAtEnd self.now }
    {
        self.world.plan_step()
    }

    /// As [`World::rescanned`].
    pub fn rescanned(&self) -> u32
        ensures { result ≡ rescanned_of self.now.council.plan }
    {
        self.world.rescanned()
    }

    /// As [`World::finished_answer`].
    pub fn finished_answer(&self, target: &Target) -> OpAnswer
        requires under_way { IsUnderWay self.now (asked_of target.now) }
        requires end { IsAtEnd self.now }
        ensures finished { HasFinished self.now result }
        ensures names { finished (asked_of target.now) (era_at self.now 0).number
            (rescanned_of self.now.council.plan) result }
    {
        self.world.finished_answer(target)
    }

    /// As [`World::enter_next`].
    pub fn enter_next(&self) -> Option<u8>
        ensures next { result ≡ entrant_of self.now.council.plan }
        ensures known { IfSome result (λ proposer. proposer ≤ self.now.last_proposer) }
    {
        self.world.enter_next()
    }

    /// As [`World::settle_key`].
    pub fn settle_key(&self) -> Option<&Key>
        ensures key { option_copied result ≡ due_in self.now.council.plan }
        ensures none { IfNone result (IsPartial self.now.council.plan) }
    {
        self.world.settle_key()
    }

    /// As [`World::renew_next`].
    pub fn renew_next(&self) -> Option<u8>
        ensures next { result ≡ renewal_in self.now.council.collection }
        ensures known { IfSome result (λ proposer. proposer ≤ self.now.last_proposer) }
    {
        self.world.renew_next()
    }

    /// As [`World::tombstone`].
    pub fn tombstone(&self) -> Ballot
        ensures { IfSome self.now.council.collection (λ c. result ≡ tomb_of c.tombstone) }
    {
        self.world.tombstone()
    }

    /// As [`World::removals`].
    pub fn removals(&self) -> (u32, u32)
        ensures { IfSome self.now.council.collection (λ c. (result.0 ≡ c.removed)
            × (result.1 ≡ c.kept)) }
    {
        self.world.removals()
    }
}
