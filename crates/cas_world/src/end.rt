//! The end of a call.

ghost use Rattle.std.specs.Prelude.{◌≡◌, ◌≤◌, Some, None, IsSome};
ghost use Rattle.cas_model.specs.Step.{Step, End};
ghost use Rattle.cas_model.specs.Calls.Desks.{EndsRound};
ghost use Rattle.cas_model.specs.View.{meaning, disk_meaning};
ghost use Rattle.cas_world.specs.World.{WasTold};
ghost use Rattle.cas_proposer.specs.declared.round.Round.{Round};

use crate::world::World;
use cas_disk::Disk;
use cas_proposer::Desk;
use cas_record::{Answer, Mark};
use cas_slot::Shelf;

impl<S: Shelf, V: Disk> World<S, V> {
    /// Ends the caller's open call with the answer that it was told last: marks it, and hands it back. A round that is open is closed,
    /// and its frames join the late ones. It takes no memory.
    ///
    /// Where caller 0 is told that the key is done which [`World::settle_key`] names, and the operator's call asks for the change of
    /// membership that is under way, the key is counted, and with the last one the era is settled. Where caller 0 is told otherwise of that
    /// key, the operator's call is told that it stopped, and why.
    pub fn end(&mut self, caller: u8, call: u32, answer: Answer) -> Answer
        requires known { caller ≤ self.old.last_proposer }
        requires told { WasTold self.old caller call answer }
        ensures same { result ≡ answer }
        ensures step { Step (meaning S.Shelf V.Disk) self.old (End caller answer) self.new }
    {
        let place = usize::from(caller);
        close(&mut self.desks[place]);
        self.flow.abandon(caller);
        let ended = self.callers[place].end_call();
        self.council.end(caller, &ended.key, &ended.told);
        self.record.push(Mark::Ended {
            caller,
            call,
            rounds: ended.rounds,
            answer: ended.told,
        });
        answer
    }
}

/// Closes the round of the desk, if one is open.
fn close<V: Disk>(desk: &mut Desk<V>)
    ensures idle { desk.old.round ≡ None → desk.new ≡ desk.old }
    ensures ends { (round : Round) → desk.old.round ≡ Some round
        → EndsRound (disk_meaning V.Disk) desk.old desk.new round None }
{
    if desk.round().is_some() {
        desk.end(None);
    }
}
