//! The operator's calls, and changes of membership.

ghost use Rattle.std.specs.Prelude.{◌≡◌, ◌⊎◌, ◌↔◌, ◌+◌, ◌<◌, None, Ok, false, length, IsSome, IsErrOf, IfOk, IfErr, OnOk, OnErr, reverse, Some};
ghost use Rattle.cas_world_calls.specs.Council.{left_to_list, due_in};
ghost use Rattle.cas_model.specs.Collection.Laws.{HasItsFloor};
ghost use Rattle.cas_model.specs.Council.{OrderView};
ghost use Rattle.cas_model.specs.SafeLaws.{HaveEnteredIts};
ghost use Rattle.cas_model.specs.Step.{Step, Order as Orders, RefuseOrder, Tell, RefuseKey, OpenPlan as OpensPlan, EnterEra as EntersNext};
ghost use Rattle.cas_model.specs.View.{meaning, reserved_in_all};
ghost use Rattle.cas_board_world.specs.Steady.{IsSteady};
ghost use Rattle.cas_world.specs.Collection.Collect.{AreRemovalsDone};
ghost use Rattle.cas_world.specs.Exchanges.Exchange.{MayAskThis, MayGather, MayGatherMembers, HasGathered, IsStopped, asking_of, gathering_of, WasToldOrder};
ghost use Rattle.cas_world.specs.Eras.Plans.{HasCollectedAll, HasFinished, MayTell, asked_of, IsUnderWay, MayOpenPlan, MayEnterNext};

use crate::world::SteadyWorld;
use cas_ballot::AcceptorId;
use cas_change::Key;
use cas_disk::Disk;
use cas_record::{Answer, Asked, OpAnswer};
use cas_slot::Shelf;
use cas_world::{Exchange, Gathered, Target};

impl<S: Shelf, V: Disk> SteadyWorld<S, V> {
    /// As [`World::order`].
    pub fn order(&mut self, asked: &Asked) -> Result<(), Answer>
        requires { self.old.council.order ≡ None }
        ensures full { IsErrOf result Answer.RecordFull ↔
            (length self.old.marks + reserved_in_all self.old ≡ 1000000) }
        ensures long { IsErrOf result Answer.RecordFull → 999000 < length self.old.marks }
        ensures cause { IfErr result (λ told. (told ≡ Answer.RecordFull)
            ⊎ (told ≡ Answer.NoMemory false)) }
        ensures ok { OnOk result
            (Step (meaning S.Shelf V.Disk) self.old (Orders asked.now) self.new) }
        ensures err { OnErr result (Step (meaning S.Shelf V.Disk) self.old RefuseOrder self.new) }
    {
        self.world.order(asked)
    }

    /// As [`World::tell`].
    pub fn tell(&mut self, answer: OpAnswer) -> OpAnswer
        requires { MayTell self.old answer }
        ensures same { result ≡ answer }
        ensures step { Step (meaning S.Shelf V.Disk) self.old (Tell answer) self.new }
        ensures floor { S.tells → V.tells
            → HasCollectedAll self.old answer → HasItsFloor answer (reverse self.old.marks) }
        ensures entered { HasFinished self.old answer
            → HaveEnteredIts self.old.last_proposer answer (reverse self.old.marks) }
    {
        self.world.tell(answer)
    }

    /// As [`World::ask_all`].
    pub fn ask_all(&mut self, what: Exchange) -> Result<(), OpAnswer>
        requires { MayAskThis self.old what }
        ensures step { Step (meaning S.Shelf V.Disk) self.old (asking_of self.old what) self.new }
        ensures ok { OnOk result (IsSome self.new.council.exchange) }
        ensures none { OnErr result (self.new.council.exchange ≡ None) }
        ensures err { IfErr result (WasToldOrder self.new) }
        ensures long { IsErrOf result (OpAnswer.Stopped Answer.RecordFull)
            → 999000 < length self.old.marks }
    {
        self.world.ask_all(what)
    }

    /// As [`World::gather`], of a world that nobody stopped.
    pub fn gather(&mut self) -> Result<Gathered, OpAnswer>
        requires { MayGather self.old }
        ensures steady { IsSteady (meaning S.Shelf V.Disk) self.old }
        ensures step { Step (meaning S.Shelf V.Disk) self.old (gathering_of self.old) self.new }
        ensures removed { S.tells
            → V.tells → AreRemovalsDone (meaning S.Shelf V.Disk) self.old self.new }
        ensures ok { IfOk result (λ found. HasGathered self.old found self.new) }
        ensures less { result ≡ Ok Gathered.More
            → left_to_list self.new.council.plan < left_to_list self.old.council.plan }
        ensures err { IfErr result (WasToldOrder self.new) }
        ensures stopped { MayGatherMembers self.old → IfErr result IsStopped }
    {
        self.world.gather()
    }

    /// As [`World::due_key`].
    pub fn due_key(&mut self) -> Result<Option<Key>, OpAnswer>
        requires { IsSome self.old.council.order }
        ensures key { IfOk result (λ key. key ≡ due_in self.old.council.plan) }
        ensures unchanged { OnOk result (self.new ≡ self.old) }
        ensures step { OnErr result (Step (meaning S.Shelf V.Disk) self.old RefuseKey self.new) }
        ensures told { IfErr result (WasToldOrder self.new) }
    {
        self.world.due_key()
    }

    /// As [`World::open_change`].
    pub fn open_change(&mut self, target: &Target) -> Result<(), OpAnswer>
        requires { MayOpenPlan self.old (asked_of target.now) }
        ensures step { Step (meaning S.Shelf V.Disk) self.old OpensPlan self.new }
        ensures ok { OnOk result (IsUnderWay self.new (asked_of target.now)) }
        ensures err { IfErr result (WasToldOrder self.new) }
    {
        self.world.open_change(target)
    }

    /// As [`World::enter_era`].
    pub fn enter_era(&mut self, proposer: u8) -> Result<(), OpAnswer>
        requires { MayEnterNext self.old proposer }
        ensures step { Step (meaning S.Shelf V.Disk) self.old (EntersNext proposer) self.new }
        ensures ok { OnOk result ((order : OrderView)
            → self.old.council.order ≡ Some order → IsUnderWay self.new order.asked) }
        ensures err { IfErr result (WasToldOrder self.new) }
    {
        self.world.enter_era(proposer)
    }
}
