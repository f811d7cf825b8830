//! A hold, from the wait for the turn to the return of the value.
ghost use Rattle.std.specs.Prelude.{◌≡◌, ◌≢◌, ℕ, Some, None, IsSome};
ghost use Rattle.std.specs.Option.{ForSome};
ghost use Rattle.cas_turn.specs.Seen.{Begins, HasSeenOwn, OnlyOwnedBy, added_to};

use super::Turn;
use crate::grows::Grows;
use crate::seat::Seat;
use crate::steps::{give_turn, take_turn};
use std::sync::Wait;

impl<V: Grows> Turn<V> {
    /// Waits until the turn is this seat's, and gives the value.
    ///
    /// The value's list begins with what the seat has seen, and has nothing of the seat's own number behind that. The
    /// number's own part is as the seat left it, and the value is for as many seats as the turn has. It takes no memory.
    pub fn hold<R: Wait>(&self, rt: &R, seat: &mut Seat<V>) -> V
        requires turn { seat.old.turn ≡ self.now.id }
        requires idle { seat.old.holds ≡ None }
        ensures seat { seat.new ≡ record seat.old { holds = Some result; seen = V.list result } }
        ensures seen { HasSeenOwn V.owner seat.old.number seat.old.seen (V.list result) }
        ensures own { V.part result seat.old.number ≡ seat.old.own }
        ensures seats { V.seats result ≡ seat.old.seats }
    {
        take_turn(rt, &self.board.shared, &mut seat.place)
    }

    /// Gives the value back, and lets the next seat have it.
    ///
    /// The list may only have grown, by items that one hold may add and that are this seat's or nobody's. The own parts
    /// of all other numbers are as the hold gave them, and it is for as many seats. It takes no memory, and waits for nobody.
    pub fn give_back<R>(&self, _rt: &R, seat: &mut Seat<V>, value: V)
        requires turn { seat.old.turn ≡ self.now.id }
        requires holds { IsSome seat.old.holds }
        requires grows { ForSome seat.old.holds (λ before. Begins (V.list before) (V.list value)) }
        requires lawful { ForSome seat.old.holds
            (λ before. V.may_add (added_to (V.list before) (V.list value))) }
        requires owned { ForSome seat.old.holds (λ before. OnlyOwnedBy V.owner seat.old.number
            (added_to (V.list before) (V.list value))) }
        requires seats { ForSome seat.old.holds (λ before. V.seats value ≡ V.seats before) }
        requires others { ForSome seat.old.holds (λ before. (n : ℕ)
            → n ≢ seat.old.number → V.part value n ≡ V.part before n) }
        ensures seat { seat.new ≡ record seat.old {
          holds = None;
          seen = V.list value;
          own = V.part value seat.old.number;
        } }
        ensures seats { V.seats value ≡ seat.old.seats }
    {
        give_turn(&self.board.shared, &mut seat.place, value);
    }
}
