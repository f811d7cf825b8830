//! Collections.

ghost use Rattle.std.specs.Prelude.{◌≡◌, ◌↔◌, ◌<◌, length, false, true, IsErrOf, IfErr, OnOk, OnErr, Ok, ℕ, ◌≤◌, IfOk};
ghost use Rattle.cas_model.specs.Step.{Step, BeginCollect, EndCollect, ReadHeld, Propose, Renew, MakeFloor};
ghost use Rattle.cas_model.specs.Collection.Step.{keep_always};
ghost use Rattle.cas_model.specs.View.{CallerView, IsAt, meaning};
ghost use Rattle.cas_collect.specs.declared.collect.CollectStep.TheVariants.{Renew as RenewStep, Floor as FloorStep};
ghost use Rattle.cas_proposer.specs.Desk.{DeskView};
ghost use Rattle.cas_world.specs.Calls.Beginning.{MayBegin};
ghost use Rattle.cas_world.specs.Collection.Collect.{MayCollectKey, HasCollected, CollectsNot, IsCollectingCall, FindsHeld, CountsTombstone, IsDueStep, IsNextAge, GoesOnCollecting, AreFloorsPassed};
ghost use Rattle.cas_world.specs.Exchanges.Exchange.{WasToldOrder};
ghost use Rattle.cas_world.specs.Calls.Reading.{HasProposed};
ghost use Rattle.cas_world.specs.World.{IsInPhase, WasTold};

use crate::world::SteadyWorld;
use cas_change::{Key, Program};
use cas_disk::Disk;
use cas_record::{Answer, OpAnswer};
use cas_slot::Shelf;
use cas_world::Reading;

impl<S: Shelf, V: Disk> SteadyWorld<S, V> {
    /// As [`World::begin_collect`].
    pub fn begin_collect(&mut self, call: u32, key: &Key, program: &Program) -> Result<(), OpAnswer>
        requires asked { MayCollectKey self.old key.now }
        requires may { MayBegin self.old 0 call key.now program.now }
        requires keeps { program.now ≡ keep_always }
        ensures step { Step (meaning S.Shelf V.Disk) self.old (BeginCollect key.now) self.new }
        ensures ok { OnOk result (HasCollected self.new call key.now) }
        ensures err { IfErr result (CollectsNot self.old self.new call key.now) }
        ensures long { IsErrOf result (OpAnswer.Stopped Answer.RecordFull)
            → 999000 < length self.old.marks }
    {
        self.world.begin_collect(call, key, program)
    }

    /// As [`World::propose_tombstone`].
    pub fn propose_tombstone(&mut self) -> Result<Reading, Answer>
        requires preparing { IsInPhase self.old 0 true }
        requires calling { IsCollectingCall self.old }
        ensures empty { result ≡ Ok Reading.Empty
            → Step (meaning S.Shelf V.Disk) self.old (Propose 0) self.new × HasProposed self.new 0 }
        ensures held { (version : ℕ) → result ≡ Ok (Reading.Held version)
            → Step (meaning S.Shelf V.Disk) self.old ReadHeld self.new }
        ensures err { OnErr result (Step (meaning S.Shelf V.Disk) self.old (Propose 0) self.new) }
        ensures reads { (version : ℕ) (desk : DeskView V) → IsAt self.old.desks 0 desk
            → ((result ≡ Ok (Reading.Held version)) ↔ FindsHeld desk version) }
        ensures told { (caller : CallerView)
            → IsAt self.old.callers 0 caller → IfErr result (WasTold self.new 0 caller.number) }
    {
        self.world.propose_tombstone()
    }

    /// As [`World::count_tombstone`].
    pub fn count_tombstone(&mut self) -> Answer
        requires counting { IsInPhase self.old 0 false }
        requires calling { IsCollectingCall self.old }
        ensures step { CountsTombstone (meaning S.Shelf V.Disk) self.old result self.new }
        ensures told { (caller : CallerView)
            → IsAt self.old.callers 0 caller → WasTold self.new 0 caller.number result }
    {
        self.world.count_tombstone()
    }

    /// As [`World::end_collect`].
    pub fn end_collect(&mut self, call: u32, answer: Answer) -> Answer
        requires told { WasTold self.old 0 call answer }
        requires calling { IsCollectingCall self.old }
        ensures same { result ≡ answer }
        ensures step { Step (meaning S.Shelf V.Disk) self.old (EndCollect answer) self.new }
    {
        self.world.end_collect(call, answer)
    }

    /// As [`World::renew`].
    pub fn renew(&mut self, proposer: u8) -> Result<u64, OpAnswer>
        requires known { proposer ≤ self.old.last_proposer }
        requires due { IsDueStep self.old (RenewStep proposer) }
        ensures step { Step (meaning S.Shelf V.Disk) self.old (Renew proposer) self.new }
        ensures ok { OnOk result (GoesOnCollecting self.old self.new) }
        ensures age { IfOk result (λ age. IsNextAge self.old proposer age) }
        ensures err { IfErr result (WasToldOrder self.new) }
    {
        self.world.renew(proposer)
    }

    /// As [`World::floor`].
    pub fn floor(&mut self)
        requires { IsDueStep self.old FloorStep }
        ensures step { Step (meaning S.Shelf V.Disk) self.old MakeFloor self.new }
        ensures goes_on { GoesOnCollecting self.old self.new }
        ensures passed { S.tells → V.tells → AreFloorsPassed (meaning S.Shelf V.Disk) self.new }
    {
        self.world.floor();
    }
}
