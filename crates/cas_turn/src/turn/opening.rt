//! A turn is made, with its seats.
ghost use Rattle.std.specs.Prelude.{◌≡◌, ℕ, ◌+◌, ◌<◌, ◌≤◌, ◌^◌, List, [], ◌∷◌, Some, IfOk, IfErr, vec_len, vec_capacity};
ghost use Rattle.cas_turn.specs.declared.view.View.TheVariants.{Opens};
ghost use Rattle.cas_turn.specs.Sitting.{fresh_seat, fresh_seats};
ghost use Rattle.cas_turn.specs.Steps.{IsPlaceOf, IsSamePlace};

use super::Turn;
use crate::grows::Grows;
use crate::plays::Number;
use crate::rule::{Board, Place, Start, Top};
use crate::seat::Seat;
use atomic_table::{Refused, Table};
use std::alloc::{AllocError, Global};
use std::snapshot::Snapshot;

/// The value of a table that was not made.
fn value_of<V: Grows>(mut slots: Vec<Option<V>>) -> V
    requires { (v : V) × (slots.items ≡ Some v ∷ []) }
    ensures { slots.items ≡ Some result ∷ [] }
{
    let Some(Some(value)) = slots.pop() else {
        unreachable!()
    };
    slots.destroy_empty();
    value
}

/// The table round the value, and the place that has all numbers.
fn board_of<V: Grows>(
    alloc: Global,
    value: V,
    seats: u32,
) -> Result<(Board<V>, Place<V>), (AllocError, V)>
    requires no_parts { (n : ℕ) → V.part value n ≡ [] }
    requires seats { V.seats value ≡ seats }
    ensures board { IfOk result (λ b. IsPlaceOf b.0.shared.table_id b.1
        × (b.0.shared.key.seats ≡ seats) × (b.0.shared.key.opened.value ≡ value)) }
    ensures place { IfOk result (λ b. b.1.me ≡ (Opens 0 seats (V.list value), [])) }
    ensures err { IfErr result (λ e. e.1 ≡ value) }
{
    let words = [0, 0, value.items()];
    let opened = Snapshot::of(&value);
    let mut slots = match Vec::with_capacity(alloc, 1) {
        Ok(slots) => slots,
        Err(error) => return Err((error, value)),
    };
    slots.push_reserved(Some(value));
    match Table::new(alloc, &words, slots, &Start { seats, opened }) {
        Ok(made) => Ok(made),
        Err(Refused { slots }) => Err((AllocError, value_of(slots))),
    }
}

/// The seat of the next number.
fn next_seat<V: Grows>(top: &Top<V>, opener: &mut Place<V>, number: u32) -> Seat<V>
    requires table { IsPlaceOf top.now.table_id opener.old }
    requires opens { opener.old.me
        ≡ (Opens number top.now.key.seats (V.list top.now.key.opened.value), []) }
    requires room { number < top.now.key.seats }
    ensures same { IsSamePlace opener.old opener.new }
    ensures opens { opener.new.me
        ≡ (Opens (number + 1) top.now.key.seats (V.list top.now.key.opened.value), []) }
    ensures seat { result ≡ fresh_seat top.now.table_id
        top.now.key.seats (V.list top.now.key.opened.value) number }
{
    Seat {
        place: top.split_seat::<Number>(opener),
        number,
    }
}

/// Fills the room with the seats of all numbers.
fn seats_of<V: Grows>(
    top: &Top<V>,
    mut opener: Place<V>,
    mut room: Vec<Seat<V>>,
    count: u32,
) -> Vec<Seat<V>>
    requires table { IsPlaceOf top.now.table_id opener }
    requires opens { opener.me ≡ (Opens 0 count (V.list top.now.key.opened.value), []) }
    requires count { count ≡ top.now.key.seats }
    requires room { (room.items ≡ []) × (vec_len room ≡ 0) × (count ≤ vec_capacity room) }
    ensures seats { result.items
        ≡ fresh_seats top.now.table_id count (V.list top.now.key.opened.value) }
    ensures count { vec_len result ≡ count }
    ensures room { vec_capacity result ≡ vec_capacity room }
{
    for number in 0..count {
        let seat = next_seat(top, &mut opener, number);
        room.push_reserved(seat);
    }
    room
}

impl<V: Grows> Turn<V> {
    /// A turn round the value, and its seats, with the numbers from 0 in order. Each seat has seen the value's list.
    ///
    /// The list of seats has room for just them, so they can be taken out and handed back without memory. Without memory
    /// the value comes back as it was.
    pub fn new(
        alloc: Global,
        value: V,
        seats: u32,
    ) -> Result<(Turn<V>, Vec<Seat<V>>), (AllocError, V)>
        requires some { 1 ≤ seats }
        requires no_parts { (n : ℕ) → V.part value n ≡ [] }
        requires seats { V.seats value ≡ seats }
        ensures count { IfOk result (λ t. (t.0.seats ≡ seats) × (vec_len t.1 ≡ seats)) }
        ensures seats { IfOk result (λ t. t.1.items ≡ fresh_seats t.0.id seats (V.list value)) }
        ensures room { IfOk result (λ t. vec_capacity t.1 ≡ seats) }
        ensures err { IfErr result (λ e. e.1 ≡ value) }
    {
        let room = match Vec::with_capacity(alloc, seats as usize) {
            Ok(room) => room,
            Err(error) => return Err((error, value)),
        };
        let (board, opener) = board_of(alloc, value, seats)?;
        let given = seats_of(&board.shared, opener, room, seats);
        Ok((Turn { board }, given))
    }
}
