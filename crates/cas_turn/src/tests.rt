//! Threads that count under one turn, each with a seat of its own.
ghost use Rattle.std.specs.Prelude.{◌≡◌, ℕ, ◌<◌, ◌≤◌, ◌++◌, length, List, [], All, None, IfOk};
ghost use Rattle.cas_turn.specs.Seen.{HasSeenOwn};

use crate::{Grows, Seat, Turn};
use std::alloc::{AllocError, Global};
use std::marker::Model;
use std::sync::Wait;
use std::test::Fail;
use std::thread;
use std::thread::Threads;

/// Who held, in order, and how often each did.
#[derive(Drop)]
struct Tally {
    log: Vec<u32>,
    counts: [u32; 4],
    threads: u32,
}

impl Grows for Tally {
    type Item = u32;

    ghost use Rattle.std.specs.Prelude.{◌≤◌, length, [], Some};

    ghost list = { λ t. t.log.items };

    ghost owner = { λ n. Some n };

    ghost part = { λ _ _. [] };

    ghost seats = { λ t. t.threads };

    ghost may_add = { λ new. length new ≤ 1 };

    fn items(&self) -> u64 {
        self.log.len() as u64
    }
}

impl Tally {
    /// A tally of nobody for so many threads, with room for so many holds.
    fn empty(alloc: Global, threads: u32, room: usize) -> Result<Tally, AllocError>
        ensures { IfOk result (λ t. (t.log.items ≡ []) × (t.threads ≡ threads)) }
    {
        Ok(Tally {
            log: Vec::with_capacity(alloc, room)?,
            counts: [0; 4],
            threads,
        })
    }

    /// Counts a hold, unless there is no memory for it.
    fn add(&mut self, number: u32)
        ensures { (added : List ℕ)
            × (self.new.log.items ≡ self.old.log.items ++ added) × (length added ≤ 1)
            × All (λ n. n ≡ number) added × (self.new.threads ≡ self.old.threads) }
    {
        if self.log.push(number).is_ok() {
            let count = &mut self.counts[number as usize % 4];
            *count = count.saturating_add(1);
        }
    }
}

/// One hold of the seat, which is counted.
fn hold_once<R: Wait>(rt: &R, turn: &Turn<Tally>, seat: &mut Seat<Tally>)
    requires turn { seat.old.turn ≡ turn.now.id }
    requires idle { seat.old.holds ≡ None }
    ensures { (seat.new.turn ≡ seat.old.turn)
        × (seat.new.holds ≡ None) × (seat.new.number ≡ seat.old.number) }
{
    let mut tally = turn.hold(rt, seat);
    tally.add(seat.number());
    turn.give_back(rt, seat, tally);
}

/// So many holds of the seat.
fn hold_often<R: Wait>(rt: &R, turn: &Turn<Tally>, seat: &mut Seat<Tally>, holds: u32)
    requires turn { seat.old.turn ≡ turn.now.id }
    requires idle { seat.old.holds ≡ None }
    ensures { (seat.new.turn ≡ seat.old.turn)
        × (seat.new.holds ≡ None) × (seat.new.number ≡ seat.old.number) }
{
    for _ in 0..holds {
        hold_once(rt, turn, seat);
    }
}

/// So many holds of each seat, in a thread for each.
fn hold_in_threads<R: Threads + Wait + Sync>(
    rt: &R,
    turn: &Turn<Tally>,
    seats: &mut [Seat<Tally>],
    holds: u32,
)
    requires some { 0 < length seats.old }
    requires idle { All (λ s. (s.turn ≡ turn.now.id) × (s.holds ≡ None)) seats.old }
    ensures { All (λ s. (s.turn ≡ turn.now.id) × (s.holds ≡ None)) seats.new }
{
    let threads = seats.len();
    thread::for_each_mut(
        rt,
        seats,
        threads,
        &|_, seat| hold_often(rt, turn, seat, holds),
    );
}

/// Holds in that many threads at once, and closes the turn.
fn tally_of<R: Threads + Wait + Sync>(
    rt: &R,
    alloc: Global,
    threads: u32,
    holds: u32,
) -> Result<Tally, AllocError>
    requires { 1 ≤ threads }
{
    let empty = Tally::empty(alloc, threads, threads as usize * holds as usize)?;
    let (turn, mut seats) = match Turn::new(alloc, empty, threads) {
        Ok(made) => made,
        Err((error, _empty)) => return Err(error),
    };
    hold_in_threads(rt, &turn, seats.as_mut_slice(), holds);
    Ok(turn.close(seats))
}

/// Notes that nobody owns. Contracts see them as a list.
#[derive(Drop)]
struct Notes {
    items: Vec<u64>,
}

impl Model for Notes {
    ghost use Rattle.std.specs.Prelude.{List, ℕ};

    ghost Value = { List ℕ };

    ghost view = { λ n. n.items.items };
}

impl Grows for Notes {
    type Item = u64;

    ghost use Rattle.std.specs.Prelude.{None, [], List, ℕ};

    ghost list = { λ n. n };

    ghost owner = { λ _. None };

    ghost part = { λ _ _. [] };

    ghost seats = { λ _. 1 };

    ghost may_add = { λ _. Unit {0} };

    fn items(&self) -> u64 {
        self.items.len() as u64
    }
}

/// Looks at any value in one hold, and tells how long its list is.
fn length_of<V: Grows, R: Wait>(rt: &R, turn: &Turn<V>, seat: &mut Seat<V>) -> u64
    requires turn { seat.old.turn ≡ turn.now.id }
    requires idle { seat.old.holds ≡ None }
    requires lawful { V.may_add [] }
    ensures seat { (seat.new.turn ≡ seat.old.turn)
        × (seat.new.holds ≡ None) × (seat.new.number ≡ seat.old.number) }
    ensures seen { HasSeenOwn V.owner seat.old.number seat.old.seen seat.new.seen }
    ensures length { result ≡ length seat.new.seen }
{
    let value = turn.hold(rt, seat);
    let items = value.items();
    turn.give_back(rt, seat, value);
    items
}

/// Opens a turn round the notes, looks at them with its one seat, and closes it. Without memory they come back as they were.
fn looked_at<R: Wait>(rt: &R, alloc: Global, notes: Notes) -> (u64, Notes) {
    let (turn, mut seats) = match Turn::new(alloc, notes, 1) {
        Ok(made) => made,
        Err((_, notes)) => return (notes.items(), notes),
    };
    let seat = &mut seats[0];
    let items = length_of(rt, &turn, seat);
    (items, turn.close(seats))
}

/// Two seats hold in turns, and tell each other what they have seen. The last list of holds begins with all of it.
fn meet_between<R: Wait>(rt: &R, turn: &Turn<Tally>, a: &mut Seat<Tally>, b: &mut Seat<Tally>)
    requires a_seat { (a.old.turn ≡ turn.now.id) × (a.old.holds ≡ None) }
    requires b_seat { (b.old.turn ≡ turn.now.id) × (b.old.holds ≡ None) }
    ensures a_seat { (a.new.turn ≡ turn.now.id) × (a.new.holds ≡ None) }
    ensures b_seat { (b.new.turn ≡ turn.now.id) × (b.new.holds ≡ None) }
    ensures one_list { a.new.seen ≡ b.new.seen }
{
    hold_once(rt, turn, a);
    turn.meet(a, b);
    hold_once(rt, turn, b);
    hold_once(rt, turn, b);
    turn.meet(b, a);
    hold_once(rt, turn, a);
    turn.meet(a, b);
}

#[test]
fn a_bound_serves_a_value_with_a_model(rt: HostRuntime) -> Result<(), Fail> {
    let items = vec![in rt.alloc(); 7, 8, 9]?;
    let (count, notes) = looked_at(&rt, rt.alloc(), Notes { items });
    assert_eq!(rt; (count, notes.items.as_slice()), (3, &[7, 8, 9][..]));
    Ok(())
}

#[test]
fn seats_meet_between_holds(rt: HostRuntime) -> Result<(), Fail> {
    let empty = Tally::empty(rt.alloc(), 2, 4)?;
    let Ok((turn, mut seats)) = Turn::new(rt.alloc(), empty, 2) else {
        return Err(AllocError)?;
    };
    let mut b = seats.pop().expect(&rt, "two seats were made");
    let mut a = seats.pop().expect(&rt, "two seats were made");
    meet_between(&rt, &turn, &mut a, &mut b);
    seats.push_reserved(b);
    seats.push_reserved(a);
    assert_eq!(rt; turn.close(seats).log.as_slice(), &[0, 1, 1, 0][..]);
    Ok(())
}

#[test]
fn counts_each_hold_of_many_threads(rt: HostRuntime) -> Result<(), Fail> {
    for threads in [1, 2, 4] {
        let tally = tally_of(&rt, rt.alloc(), threads, 10_000)?;
        assert_eq!(rt;
            tally.log.len(),
            threads as usize * 10_000,
            "holds of {threads} threads"
        );
        for number in 0..threads {
            let logged = tally.log.iter().filter(|n| **n == number).count();
            assert_eq!(rt; logged, 10_000, "entries of seat {number}");
            assert_eq!(rt;
                tally.counts[number as usize % 4],
                10_000,
                "holds of seat {number}"
            );
        }
    }
    Ok(())
}
