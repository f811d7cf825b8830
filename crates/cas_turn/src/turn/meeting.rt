//! Two seats tell each other what they have seen.
ghost use Rattle.std.specs.Prelude.{◌≡◌};
ghost use Rattle.cas_turn.specs.Seen.{HasSeenOwn};

use super::Turn;
use crate::grows::Grows;
use crate::seat::Seat;
use crate::steps::tell;

impl<V: Grows> Turn<V> {
    /// Both seats have then seen one list.
    ///
    /// It begins with what each had seen, and has nothing of that seat's own number behind that. All else of the seats
    /// stays. It takes no memory, and waits for nobody.
    pub fn meet(&self, a: &mut Seat<V>, b: &mut Seat<V>)
        requires a_turn { a.old.turn ≡ self.now.id }
        requires b_turn { b.old.turn ≡ self.now.id }
        ensures a_seat { a.new ≡ record a.old { seen = a.new.seen } }
        ensures b_seat { b.new ≡ record b.old { seen = b.new.seen } }
        ensures one_list { a.new.seen ≡ b.new.seen }
        ensures a_seen { HasSeenOwn V.owner a.old.number a.old.seen a.new.seen }
        ensures b_seen { HasSeenOwn V.owner b.old.number b.old.seen b.new.seen }
    {
        let top = &self.board.shared;
        tell(top, &mut a.place, &mut b.place);
        tell(top, &mut b.place, &mut a.place);
    }
}
