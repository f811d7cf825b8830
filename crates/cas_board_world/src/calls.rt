//! The calls of callers.

ghost use Rattle.std.specs.Prelude.{◌≡◌, ◌↔◌, ◌<◌, ◌≤◌, length, None, IsErrOf, IfErr, ◌≢◌, [], OnOk, OnErr, true, false, Some, slice_get, reverse, ◌+◌, IfOk, IfSome};
ghost use Rattle.cas_model_causes.specs.Calls.Told.{BeginsBy, PreparesBy, AcceptsBy, TellsAbove};
ghost use Rattle.cas_model.specs.Step.{Step, Propose, Count, End, Stray, RefuseStray};
ghost use Rattle.cas_model.specs.Calls.Step.{IsFull, most_marks};
ghost use Rattle.cas_model.specs.View.{meaning, CallerView, reserved_in_all as seen_in_all};
ghost use Rattle.cas_model.specs.Laws.{AcknowledgedIsKept};
ghost use Rattle.cas_flow.specs.Flow.{queue_at};
ghost use Rattle.cas_flow.specs.Message.{head_of};
ghost use Rattle.cas_record.specs.Logs.Orderly.{IsAboveFloors};
ghost use Rattle.cas_record.specs.Places.{Stands};
ghost use Rattle.cas_record.specs.declared.mark.Acknowledgment.{Acknowledgment as AnAcknowledgment};
ghost use Rattle.cas_record.specs.declared.mark.Mark.TheVariants.{Acked};
ghost use Rattle.cas_world.specs.Calls.Beginning.{MayBegin, BeginsOrNot};
ghost use Rattle.cas_world.specs.Exchanges.Exchange.{place_of, turn_of, refusal_of};
ghost use Rattle.cas_world.specs.Calls.Reading.{HasProposed};
ghost use Rattle.cas_world.specs.World.{IsInPhase, WasTold};

use crate::world::SteadyWorld;
use cas_ballot::AcceptorId;
use cas_change::{Key, Program};
use cas_disk::Disk;
use cas_fate::Verdict;
use cas_record::Answer;
use cas_slot::Shelf;
use cas_world::StrayFault;
use std::alloc::AllocError;

impl<S: Shelf, V: Disk> SteadyWorld<S, V> {
    /// As [`World::begin`].
    pub fn begin(
        &mut self,
        caller: u8,
        call: u32,
        key: &Key,
        program: &Program,
    ) -> Result<(), Answer>
        requires known { caller ≤ self.old.last_proposer }
        requires unasked { caller ≡ 0 → self.old.council.exchange ≡ None }
        requires may { MayBegin self.old caller call key.now program.now }
        ensures full { IsErrOf result Answer.RecordFull ↔ IsFull self.old caller }
        ensures long { IsErrOf result Answer.RecordFull → 999000 < length self.old.marks }
        ensures cause { IfErr result
            (λ told. BeginsBy (meaning S.Shelf V.Disk) self.old caller key.now told self.new) }
        ensures step { BeginsOrNot (meaning S.Shelf V.Disk)
            self.old caller call key.now program.now result self.new }
    {
        self.world.begin(caller, call, key, program)
    }

    /// As [`World::turn`].
    pub fn turn(&mut self, proposer: u8, verdict: Verdict) -> Result<(), AllocError>
        requires proposer { proposer ≤ self.old.last_proposer }
        requires waits { (queue_at self.old.flow (place_of self.old proposer)).messages ≢ [] }
        ensures ok { OnOk result
            (Step (meaning S.Shelf V.Disk) self.old (turn_of self.old proposer verdict) self.new) }
        ensures err { OnErr result
            (Step (meaning S.Shelf V.Disk) self.old (refusal_of self.old proposer) self.new) }
    {
        self.world.turn(proposer, verdict)
    }

    /// As [`World::propose`].
    pub fn propose(&mut self, proposer: u8) -> Result<(), Answer>
        requires known { proposer ≤ self.old.last_proposer }
        requires preparing { IsInPhase self.old proposer true }
        ensures step { Step (meaning S.Shelf V.Disk) self.old (Propose proposer) self.new }
        ensures proposed { OnOk result (HasProposed self.new proposer) }
        ensures told { (caller : CallerView) → slice_get self.old.callers proposer ≡ Some caller
            → IfErr result (WasTold self.new proposer caller.number) }
        ensures cause { IfErr result
            (λ told. PreparesBy (meaning S.Shelf V.Disk) self.old proposer told self.new) }
        ensures above { S.tells → V.tells → IfErr result (TellsAbove self.old proposer) }
    {
        self.world.propose(proposer)
    }

    /// As [`World::count`].
    pub fn count(&mut self, proposer: u8) -> Answer
        requires known { proposer ≤ self.old.last_proposer }
        requires counting { IsInPhase self.old proposer false }
        ensures step { Step (meaning S.Shelf V.Disk) self.old (Count proposer) self.new }
        ensures told { (caller : CallerView) → slice_get self.old.callers proposer ≡ Some caller
            → WasTold self.new proposer caller.number result }
        ensures cause { AcceptsBy self.old proposer result }
        ensures above { S.tells → V.tells → TellsAbove self.old proposer result }
        ensures kept { S.tells → V.tells → (a : AnAcknowledgment) → Stands (Acked a)
            (reverse self.new.marks) → IsAboveFloors (reverse self.new.marks) a.key a.ballot
            → AcknowledgedIsKept (meaning S.Shelf V.Disk) self.new a }
    {
        self.world.count(proposer)
    }

    /// As [`World::end`].
    pub fn end(&mut self, caller: u8, call: u32, answer: Answer) -> Answer
        requires known { caller ≤ self.old.last_proposer }
        requires told { WasTold self.old caller call answer }
        ensures same { result ≡ answer }
        ensures step { Step (meaning S.Shelf V.Disk) self.old (End caller answer) self.new }
    {
        self.world.end(caller, call, answer)
    }

    /// As [`World::stray`].
    pub fn stray(&mut self, index: usize) -> Result<AcceptorId, StrayFault>
        requires { index < length self.old.flow.late }
        ensures ok { OnOk result (Step (meaning S.Shelf V.Disk) self.old (Stray index) self.new) }
        ensures peer { IfOk result (λ peer. IfSome (slice_get self.old.flow.late index)
            (λ late. peer ≡ (head_of late).1)) }
        ensures full { IsErrOf result StrayFault.RecordFull ↔
            (length self.old.marks + seen_in_all self.old ≡ most_marks) }
        ensures unchanged { IsErrOf result StrayFault.RecordFull → self.new ≡ self.old }
        ensures err { OnErr result (Step (meaning S.Shelf V.Disk) self.old RefuseStray self.new) }
    {
        self.world.stray(index)
    }
}
