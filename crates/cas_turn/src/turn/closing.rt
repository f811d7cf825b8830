//! A turn is taken apart: one seat takes in all others, and so knows that nobody holds the value.
ghost use Rattle.std.specs.Prelude.{◌≡◌, ℕ, ◌<◌, List, [], ◌∷◌, ◌++◌, length, map, All, Some, None, vec_len};
ghost use Rattle.cas_turn.specs.declared.view.View.TheVariants.{Gathers};
ghost use Rattle.cas_turn.specs.Seen.{HasSeenOwn};
ghost use Rattle.cas_turn.specs.Steps.{IsPlaceOf, IsSamePlace, known_by, them_of};

use super::Turn;
use crate::grows::Grows;
use crate::plays::Gather;
use crate::rule::{Board, Place, Top, VALUE};
use crate::seat::Seat;

/// The place that will take in all seats.
fn gatherer_of<V: Grows>(top: &Top<V>, seat: &mut Seat<V>) -> Place<V>
    requires turn { seat.old.turn ≡ top.now.table_id }
    requires words { 0 < top.now.table_id.words }
    ensures seat { seat.new ≡ seat.old }
    ensures table { result.table_id ≡ top.now.table_id }
    ensures nobody { result.me ≡ (Gathers [], []) }
{
    top.split_seat::<Gather>(&mut seat.place)
}

/// Takes in a seat.
fn gather<V: Grows>(top: &Top<V>, gatherer: &mut Place<V>, seat: Seat<V>)
    requires table { gatherer.old.table_id ≡ top.now.table_id }
    requires words { 0 < top.now.table_id.words }
    requires gathers { gatherer.old.me ≡ (Gathers (them_of gatherer.old.me.0), []) }
    requires turn { seat.turn ≡ top.now.table_id }
    requires idle { seat.holds ≡ None }
    ensures same { IsSamePlace gatherer.old gatherer.new }
    ensures gathers { gatherer.new.me ≡ (Gathers (known_by seat ∷ them_of gatherer.old.me.0), []) }
{
    let Seat { place, number: _ } = seat;
    top.join_seat::<Gather>(gatherer, place);
}

/// Takes in all seats, the last first.
fn gather_all<V: Grows>(top: &Top<V>, gatherer: &mut Place<V>, mut seats: Vec<Seat<V>>)
    requires table { gatherer.old.table_id ≡ top.now.table_id }
    requires words { 0 < top.now.table_id.words }
    requires gathers { gatherer.old.me ≡ (Gathers (them_of gatherer.old.me.0), []) }
    requires turn { All (λ s. s.turn ≡ top.now.table_id) seats.items }
    requires idle { All (λ s. s.holds ≡ None) seats.items }
    ensures same { IsSamePlace gatherer.old gatherer.new }
    ensures gathers { gatherer.new.me
        ≡ (Gathers (map known_by seats.items ++ them_of gatherer.old.me.0), []) }
{
    while let Some(seat) = seats.pop() {
        gather(top, gatherer, seat);
    }
}

/// Takes the value out of a table whose numbers are all with one place.
fn value_at_home<V: Grows>(board: Board<V>, gatherer: Place<V>) -> V
    requires table { IsPlaceOf board.shared.table_id gatherer }
    requires gathers { gatherer.me ≡ (Gathers (them_of gatherer.me.0), []) }
    requires all { length (them_of gatherer.me.0) ≡ board.shared.key.seats }
    ensures seats { V.seats result ≡ board.shared.key.seats }
    ensures them { All (λ k. HasSeenOwn V.owner k.number k.seen (V.list result)
        × (V.part result k.number ≡ k.own)) (them_of gatherer.me.0) }
{
    let mut closed = board.close_with(gatherer);
    let home = closed.take(VALUE);
    closed.free();
    let Some(value) = home else { unreachable!() };
    value
}

impl<V: Grows> Turn<V> {
    /// Takes the turn apart, and gives the value back.
    ///
    /// It takes all seats that the turn gave. Each is there once, since a seat cannot be copied, and none holds. The
    /// value's list begins with what each seat has seen, and has nothing of that seat's number behind that. The own part of
    /// each is as the seat left it, and the value is for as many seats as the turn has. It takes no memory, and waits for nobody.
    pub fn close(self, mut seats: Vec<Seat<V>>) -> V
        requires turn { All (λ s. s.turn ≡ self.id) seats.items }
        requires all { vec_len seats ≡ self.seats }
        requires idle { All (λ s. s.holds ≡ None) seats.items }
        ensures seen { All (λ s. HasSeenOwn V.owner s.number s.seen (V.list result)) seats.items }
        ensures own { All (λ s. V.part result s.number ≡ s.own) seats.items }
        ensures seats { V.seats result ≡ self.seats }
    {
        let Turn { board } = self;
        let Some(mut last) = seats.pop() else {
            unreachable!()
        };
        let mut gatherer = gatherer_of(&board.shared, &mut last);
        gather(&board.shared, &mut gatherer, last);
        gather_all(&board.shared, &mut gatherer, seats);
        value_at_home(board, gatherer)
    }
}
