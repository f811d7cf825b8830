//! The steps of a seat at the table, one function each, and what a hold and a meeting make of them.
ghost use Rattle.std.specs.Prelude.{◌≡◌, ℕ, ◌+◌, ◌<◌, ◌≤◌, ◌^◌, List, [], ◌∷◌, length, Some, None};
ghost use Rattle.cas_turn.specs.declared.view.Stage.TheVariants.{Holding};
ghost use Rattle.cas_turn.specs.Seen.{HasSeenOwn};
ghost use Rattle.cas_turn.specs.Steps.{IsPlaceOf, IsSamePlace, IsWaiting, IsHolding, TookNoNote, Took, Grew, HeardNote, known_of, known_from, stage_of, ticket_in, idle, holding};

use crate::grows::Grows;
use crate::plays::{Draw, Leave, Look, Measure, Note, Publish, Settle};
use crate::rule::{FRONT, Place, SERVING, TICKET, Top, VALUE};
use std::sync::Wait;
use std::{hint, thread};

/// How often a waiting seat looks again before it yields its processor.
const SPINS: u32 = 64;

/// Draws a ticket, and tells it modulo 2^64.
fn draw<V: Grows>(top: &Top<V>, place: &mut Place<V>) -> u64
    requires table { IsPlaceOf top.now.table_id place.old }
    requires idle { place.old.me ≡ idle (known_of place.old.me.0) }
    ensures same { IsSamePlace place.old place.new }
    ensures waits { IsWaiting place.new.me (known_of place.old.me.0) result }
{
    top.fetch_add::<Draw>(place, TICKET, 1)
}

/// Waits until the ticket is served, and takes the value then.
fn wait<V: Grows, R: Wait>(rt: &R, top: &Top<V>, place: &mut Place<V>, ticket: u64)
    requires table { IsPlaceOf top.now.table_id place.old }
    requires few { top.now.key.seats < 2 ^ 32 }
    requires waits { IsWaiting place.old.me (known_of place.old.me.0) ticket }
    ensures same { IsSamePlace place.old place.new }
    ensures took { (v : V) × Took V.list V.owner V.part V.seats place.old.me place.new.me v }
{
    let mut spins = 0;
    for _ in rt.forever() {
        if top.load::<Look>(place, SERVING) == ticket {
            return;
        }
        if spins < SPINS {
            spins += 1;
            hint::spin_loop();
        } else {
            thread::yield_now();
        }
    }
    unreachable!()
}

/// Takes the value out of the slot.
fn lift<V: Grows>(top: &Top<V>, place: &mut Place<V>) -> V
    requires table { IsPlaceOf top.now.table_id place.old }
    requires full { (v : V) × (place.old.me.1 ≡ (0, Some v) ∷ []) }
    ensures same { IsSamePlace place.old place.new }
    ensures empty { place.new.me ≡ (place.old.me.0, (0, None) ∷ []) }
    ensures value { place.old.me.1 ≡ (0, Some result) ∷ [] }
{
    let Some(value) = top.exchange(place, VALUE, None) else {
        unreachable!()
    };
    value
}

/// Puts the value into the slot.
fn lay<V: Grows>(top: &Top<V>, place: &mut Place<V>, value: V)
    requires table { IsPlaceOf top.now.table_id place.old }
    requires empty { place.old.me.1 ≡ (0, None) ∷ [] }
    ensures same { IsSamePlace place.old place.new }
    ensures full { place.new.me ≡ (place.old.me.0, (0, Some value) ∷ []) }
{
    let before = top.exchange(place, VALUE, Some(value));
    let None = before else { unreachable!() };
}

/// How long the list was when the seat took the value.
fn measure<V: Grows>(top: &Top<V>, place: &mut Place<V>) -> u64
    requires table { IsPlaceOf top.now.table_id place.old }
    requires holds { (v : V) × IsHolding place.old.me v None }
    ensures same { IsSamePlace place.old place.new × (place.new.me ≡ place.old.me) }
    ensures length { (v : V) → IsHolding place.old.me v None → result ≡ length (V.list v) }
{
    top.load::<Measure>(place, FRONT)
}

/// Publishes the items that the value in the slot has more than the value that was taken.
fn publish<V: Grows>(top: &Top<V>, place: &mut Place<V>, added: u64)
    requires table { IsPlaceOf top.now.table_id place.old }
    requires grew { (v : V) × (w : V) × IsHolding place.old.me v (Some w)
        × Grew V.list V.owner V.part V.seats (known_of place.old.me.0).number v w
        × (added + length (V.list v) ≡ length (V.list w)) × (length (V.list w) < 2 ^ 64) }
    ensures same { IsSamePlace place.old place.new }
    ensures holds { (w : V) → place.old.me.1 ≡ (0, Some w) ∷ []
        → place.new.me ≡ holding (known_from V.list V.owner V.part V.seats
        (known_of place.old.me.0) w) (ticket_in place.old.me) w (Some w) }
    ensures seats { (w : V)
        → place.old.me.1 ≡ (0, Some w) ∷ [] → V.seats w ≡ (known_of place.old.me.0).seats }
    ensures home { (w : V) × IsHolding place.new.me w (Some w) }
{
    top.fetch_add::<Publish>(place, FRONT, added);
}

/// Serves the next ticket, and leaves the value at home.
fn leave<V: Grows>(top: &Top<V>, place: &mut Place<V>)
    requires table { IsPlaceOf top.now.table_id place.old }
    requires home { (v : V) × IsHolding place.old.me v (Some v) }
    ensures same { IsSamePlace place.old place.new }
    ensures idle { place.new.me ≡ idle (known_of place.old.me.0) }
{
    top.fetch_add::<Leave>(place, SERVING, 1);
}

/// Waits for the seat's turn, and takes the value out.
pub(crate) fn take_turn<V: Grows, R: Wait>(rt: &R, top: &Top<V>, place: &mut Place<V>) -> V
    requires table { IsPlaceOf top.now.table_id place.old }
    requires few { top.now.key.seats < 2 ^ 32 }
    requires idle { place.old.me ≡ idle (known_of place.old.me.0) }
    ensures same { IsSamePlace place.old place.new }
    ensures holds { place.new.me ≡ holding (known_from V.list V.owner V.part V.seats
        (known_of place.old.me.0) result) (ticket_in place.new.me) result None }
    ensures seen { HasSeenOwn V.owner
        (known_of place.old.me.0).number (known_of place.old.me.0).seen (V.list result) }
    ensures own { V.part result (known_of place.old.me.0).number ≡ (known_of place.old.me.0).own }
    ensures seats { V.seats result ≡ (known_of place.old.me.0).seats }
{
    let ticket = draw(top, place);
    wait(rt, top, place, ticket);
    lift(top, place)
}

/// Puts the value home, publishes what it has more, and serves the next.
pub(crate) fn give_turn<V: Grows>(top: &Top<V>, place: &mut Place<V>, value: V)
    requires table { IsPlaceOf top.now.table_id place.old }
    requires grew { (v : V) × IsHolding place.old.me v None
        × Grew V.list V.owner V.part V.seats (known_of place.old.me.0).number v value }
    ensures same { IsSamePlace place.old place.new }
    ensures idle { place.new.me
        ≡ idle (known_from V.list V.owner V.part V.seats (known_of place.old.me.0) value) }
    ensures seats { V.seats value ≡ (known_of place.old.me.0).seats }
{
    let added = value.items() - measure(top, place);
    lay(top, place, value);
    publish(top, place, added);
    leave(top, place);
}

/// Tells one seat what another has seen.
pub(crate) fn tell<V: Grows>(top: &Top<V>, from: &mut Place<V>, to: &mut Place<V>)
    requires table { IsPlaceOf top.now.table_id from.old × IsPlaceOf top.now.table_id to.old }
    requires seats { TookNoNote from.old.me × TookNoNote to.old.me }
    ensures same { IsSamePlace from.old from.new × IsSamePlace to.old to.new }
    ensures from { from.new.me ≡ from.old.me }
    ensures to { HeardNote V.list V.owner V.part V.seats
        (known_of from.old.me.0).seen to.old.me to.new.me }
{
    let note = top.split_seat::<Note>(from);
    top.join_seat::<Note>(to, note);
    top.load::<Settle>(to, FRONT);
}
