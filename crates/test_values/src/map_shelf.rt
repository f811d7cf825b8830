//! The shelf in memory.

ghost use Rattle.std.specs.Prelude.{OnOk};
ghost use Rattle.cas_slot.specs.Limits.{SlotBallotsFit};

use Step::{Crashes, Drops, Gets, HasAge, Puts, RaisesAge};
use cas_ballot::Ballot;
use cas_change::{Body, Key, State};
use cas_slot::{Accepted, Ages, MOST_SLOTS, MapShelf, Shelf, ShelfFault, Slot};
use std::alloc::Global;
use std::test::Fail;

fn slot_at(counter: u32, number: i64) -> Slot
    ensures { SlotBallotsFit result }
{
    let counter = u64::from(counter);
    Slot {
        promise: Ballot::ZERO,
        accepted: Some(Accepted {
            ballot: Ballot {
                counter,
                proposer: 1,
            },
            era: 0,
            state: State::Held {
                version: counter,
                body: Body::Number(number),
            },
        }),
    }
}

fn key(alloc: Global, n: usize) -> Result<Key, Fail> {
    let text = format!(in alloc; "k{n}")?;
    Ok(Key::read(alloc, text.as_bytes())?)
}

/// A call of a shelf, of some key where one is asked for.
#[derive(Clone, Copy)]
enum Step {
    /// Puts the slot that accepted this number at the ballot of this counter.
    Puts(u32, i64),
    /// Has that slot, or none.
    Gets(Option<(u32, i64)>),
    Drops,
    /// Crashes, and is reopened.
    Crashes,
    /// Raises the least age of proposer 3.
    RaisesAge(u64),
    HasAge(u64),
}

fn has<S: Shelf>(shelf: &S, key: &Key, want: Option<(u32, i64)>) -> Result<bool, ShelfFault> {
    let want = match want {
        Some((counter, number)) => Some(slot_at(counter, number)),
        None => None,
    };
    let found = shelf.get(key)?;
    Ok(found == want)
}

// Takes the step, and answers whether it tells what it should.
fn take<S: Shelf>(shelf: &mut S, key: &Key, step: Step) -> Result<bool, ShelfFault>
    requires { S.is_up shelf.old }
    ensures { OnOk result (S.is_up shelf.new) }
{
    let mut least = Ages::ZERO;
    match step {
        Puts(counter, number) => shelf.put(key, slot_at(counter, number))?,
        Gets(want) => return has(shelf, key, want),
        Drops => shelf.drop_slot(key)?,
        Crashes => {
            shelf.crash();
            shelf.reopen()?;
        }
        RaisesAge(age) => {
            least.0[3] = age;
            shelf.raise_ages(&least)?;
        }
        HasAge(age) => return Ok(shelf.ages().least(3) == age),
    }
    Ok(true)
}

// Starts a shelf and takes the steps, each of them of the key beside it. Whether each tells what it should, and no fault is counted.
fn follow<S: Shelf>(
    alloc: Global,
    shelf: &mut S,
    steps: &[(&'static [u8], Step)],
) -> Result<bool, Fail>
    ensures { OnOk result (S.is_up shelf.new) }
{
    shelf.start()?;
    let mut told = true;
    for row in steps {
        let (name, step) = *row;
        told = take(shelf, &Key::read(alloc, name)?, step)? && told;
    }
    Ok(told && shelf.faults() == 0)
}

const KEPT: [(&[u8], Step); 11] = [
    (b"a", Puts(1, 5)),
    (b"a", Gets(Some((1, 5)))),
    (b"a", Puts(2, 7)),
    (b"a", Gets(Some((2, 7)))),
    (b"b", Gets(None)),
    (b"a", Crashes),
    (b"a", Gets(Some((2, 7)))),
    (b"a", Drops),
    (b"a", Gets(None)),
    (b"a", RaisesAge(9)),
    (b"a", HasAge(9)),
];

#[test]
fn keeps_the_last_slot_of_each_key(rt: HostRuntime) -> Result<(), Fail> {
    let mut shelf = MapShelf::new(rt.alloc());
    assert!(rt; follow(rt.alloc(), &mut shelf, &KEPT)?);
    Ok(())
}

// Whether these are the first `most` keys above that one.
fn lists<S: Shelf>(
    shelf: &S,
    after: Option<&Key>,
    most: usize,
    want: &[&[u8]],
) -> Result<bool, Fail> {
    let keys = shelf.keys_after(after, most)?;
    let mut same = keys.len() == want.len();
    for (key, name) in keys.iter().zip(want.iter()) {
        same = same && key.bytes() == *name;
    }
    Ok(same)
}

const FIVE: [(&[u8], Step); 5] = [
    (b"k3", Puts(1, 5)),
    (b"k1", Puts(1, 5)),
    (b"k5", Puts(1, 5)),
    (b"k2", Puts(1, 5)),
    (b"k4", Puts(1, 5)),
];

// The key after which keys are listed, how many at most, and those that are.
const LISTED: [(&[u8], usize, &[&[u8]]); 5] = [
    (b"k0", 5, &[b"k1", b"k2", b"k3", b"k4", b"k5"]),
    (b"k0", 4, &[b"k1", b"k2", b"k3", b"k4"]),
    (b"k1", 5, &[b"k2", b"k3", b"k4", b"k5"]),
    (b"k4", 5, &[b"k5"]),
    (b"k5", 5, &[]),
];

#[test]
fn lists_the_next_keys(rt: HostRuntime) -> Result<(), Fail> {
    let mut shelf = MapShelf::new(rt.alloc());
    let none = lists(&shelf, None, 5, &[])?;
    let put = follow(rt.alloc(), &mut shelf, &FIVE)?;
    assert!(rt; none && put);
    for (after, most, want) in LISTED {
        let after = Key::read(rt.alloc(), after)?;
        assert!(rt; lists(&shelf, Some(&after), most, want)?, "{after:?}");
    }
    Ok(())
}

#[test]
fn has_room_for_4096_keys(rt: HostRuntime) -> Result<(), Fail> {
    let alloc = rt.alloc();
    let mut shelf = MapShelf::new(alloc);
    for n in 0..MOST_SLOTS {
        shelf.put(&key(alloc, n)?, slot_at(1, 5))?;
    }
    let one_more = key(alloc, MOST_SLOTS)?;
    assert_eq!(rt; shelf.put(&one_more, slot_at(1, 5)), Err(ShelfFault::Full));
    shelf.put(&key(alloc, 7)?, slot_at(2, 7))?;
    shelf.drop_slot(&key(alloc, 7)?)?;
    shelf.put(&one_more, slot_at(1, 5))?;
    Ok(())
}
