//! What a collection asks all members, and what came of it.

ghost use Rattle.std.specs.Prelude.{◌≡◌, ◌⊎◌, ◌<◌, length, None, IsSome, IsErrOf, IfOk, IfErr, OnOk, OnErr};
ghost use Rattle.cas_collect.specs.declared.collect.CollectStep.TheVariants.{Ages as AgesStep, Remove as RemoveStep};
ghost use Rattle.cas_model.specs.Step.{Step, AskCollect, GatherCollect, GatherRound};
ghost use Rattle.cas_world.specs.Collection.Collect.{AreRemovalsDone};
ghost use Rattle.cas_model.specs.View.{meaning};
ghost use Rattle.cas_world.specs.Exchanges.Exchange.{MayAskCollected, MayGatherCollected, MayGatherRound, HasGathered, WasToldOrder};

use crate::exchange::ask_each;
use crate::world::World;
use cas_disk::Disk;
use cas_record::{Answer, MOST_MARKS, OpAnswer};
use cas_slot::Shelf;
use cas_world_calls::council::{Gathered, no_memory, reserved_in_all};

impl<S: Shelf, V: Disk> World<S, V> {
    /// The step of the collection that is due asks all members, under the ballot of its tombstone.
    pub(crate) fn ask_collect(&mut self) -> Result<(), OpAnswer>
        requires { MayAskCollected self.old AgesStep ⊎ MayAskCollected self.old RemoveStep }
        ensures step { Step (meaning S.Shelf V.Disk) self.old AskCollect self.new }
        ensures ok { OnOk result (IsSome self.new.council.exchange) }
        ensures none { OnErr result (self.new.council.exchange ≡ None) }
        ensures err { IfErr result (WasToldOrder self.new) }
        ensures long { IsErrOf result (OpAnswer.Stopped Answer.RecordFull)
            → 999000 < length self.old.marks }
    {
        if self.desks[0].is_down() {
            return Err(self.refuse(OpAnswer::Stopped(Answer::Down)));
        }
        let members = self.era().everyone();
        let marks = reserved_in_all(&self.callers, &self.council) + members.count() as usize;
        let since = self.record.marks().len();
        if since + marks > MOST_MARKS {
            return Err(self.refuse(OpAnswer::Stopped(Answer::RecordFull)));
        }
        if self.record.reserve(marks).is_err() {
            return Err(self.refuse(no_memory()));
        }
        let alloc = *self.acceptors.allocator();
        let age = self.desks[0].age();
        let (tag, question) = match &self.council.collection {
            Some(collection) => (collection.tomb(), self.council.collect_question()),
            None => unreachable!(),
        };
        let Ok(question) = question else {
            return Err(self.refuse(no_memory()));
        };
        match ask_each(
            alloc,
            &mut self.flow,
            age,
            tag,
            since,
            members,
            None,
            question,
        ) {
            Ok(exchange) => {
                self.council.exchange = Some(exchange);
                Ok(())
            }
            Err(_) => Err(self.refuse(no_memory())),
        }
    }

    /// The round of the collection is over: it goes on where all who accept acknowledged its tombstone.
    pub(crate) fn gather_round(&mut self) -> Result<Gathered, OpAnswer>
        requires { MayGatherRound self.old }
        ensures step { Step (meaning S.Shelf V.Disk) self.old GatherRound self.new }
        ensures ok { IfOk result (λ found. HasGathered self.old found self.new) }
        ensures err { IfErr result (WasToldOrder self.new) }
    {
        self.council.gather_round()
    }

    /// The exchange that is open is one of the collection, and is over: it goes on where all members confirmed what they were asked.
    pub(crate) fn gather_collection(&mut self) -> Result<Gathered, OpAnswer>
        requires { MayGatherCollected self.old }
        ensures step { Step (meaning S.Shelf V.Disk) self.old GatherCollect self.new }
        ensures removed { S.tells
            → V.tells → AreRemovalsDone (meaning S.Shelf V.Disk) self.old self.new }
        ensures ok { IfOk result (λ found. HasGathered self.old found self.new) }
        ensures err { IfErr result (WasToldOrder self.new) }
    {
        self.council.gather_collection()
    }
}
