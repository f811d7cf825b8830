//! Worlds that go on from what stood before: a floor on the shelves of the members, and vaults of an earlier life.

ghost use Rattle.std.specs.Prelude.{◌≡◌, ◌≤◌, ◌^◌, ℕ, [], ◌∷◌, vec_len, IfOk};
ghost use Rattle.cas_slot.specs.Limits.{AllBallotsFit};
ghost use Rattle.cas_slot.specs.Contents.{Contents};
ghost use Rattle.cas_model.specs.Openings.{HoldsFloors};
ghost use Rattle.cas_model.specs.View.{IsAt};
ghost use Rattle.cas_world.specs.Openings.OpeningOn.{opening_of};

use crate::player::Player;
use crate::rows::{among, vaults};
use crate::steps::Step::{Add, Get};
use crate::steps::{Play, Step};
use cas_ballot::{AcceptorId, Ballot, Members};
use cas_change::{Body, Key, State};
use cas_disk::MemoryDisk;
use cas_slot::{Accepted, MapShelf, Shelf, Slot};
use cas_world::OpeningFloor;
use std::alloc::Global;
use std::test::Fail;

/// The ballot of the floor.
const FLOOR: Ballot = Ballot {
    counter: 7,
    proposer: 1,
};

/// The key with this name.
fn key(alloc: Global, name: &str) -> Result<Key, Fail> {
    match Key::read(alloc, name.as_bytes()) {
        Ok(key) => Ok(key),
        Err(_) => Err(Fail::from("it is a key")),
    }
}

/// The number 9 at version 3.
fn nine() -> State {
    State::Held {
        version: 3,
        body: Body::Number(9),
    }
}

/// The floor with which the history of the key `a` opens.
fn floor(alloc: Global) -> Result<OpeningFloor, Fail>
    ensures { IfOk result (λ floor. floor.ballot ≡ record { counter = 7; proposer = 1 }) }
{
    Ok(OpeningFloor {
        key: key(alloc, "a")?,
        ballot: FLOOR,
        state: nine(),
    })
}

/// A shelf in memory that holds the floor and no other slot.
fn holding(alloc: Global, floor: &OpeningFloor) -> Result<MapShelf, Fail>
    requires { floor.now.ballot ≡ record { counter = 7; proposer = 1 } }
    ensures up { IfOk result AllBallotsFit }
    ensures holds { IfOk result (HoldsFloors (opening_of floor.now ∷ [])) }
{
    let mut shelf = MapShelf::new(alloc);
    let slot = Slot {
        promise: Ballot::ZERO,
        accepted: Some(Accepted {
            ballot: floor.ballot,
            era: 0,
            state: floor.state.copy()?,
        }),
    };
    match shelf.put(&floor.key, slot) {
        Ok(()) => Ok(shelf),
        Err(_) => Err(Fail::from("a shelf in memory takes a slot")),
    }
}

/// A shelf in memory for each acceptor, each of which holds the floor and no other slot.
fn shelves(alloc: Global, floor: &OpeningFloor) -> Result<Vec<MapShelf>, Fail>
    requires { floor.now.ballot ≡ record { counter = 7; proposer = 1 } }
    ensures { IfOk result (λ shelves. (id : ℕ) (shelf : Contents) → IsAt shelves.items id shelf
        → AllBallotsFit shelf × HoldsFloors (opening_of floor.now ∷ []) shelf) }
{
    let mut shelves = Vec::new(alloc);
    for _place in 0..64usize {
        shelves.push(holding(alloc, floor)?)?;
    }
    Ok(shelves)
}

/// A play in a world of acceptors 1 to 3 that goes on from the floor, over these vaults.
fn opened_on(alloc: Global, vaults: Vec<MemoryDisk>) -> Result<Play<MapShelf, MemoryDisk>, Fail> {
    let mut members = Members::new();
    for number in 1..=3u8 {
        members.insert(AcceptorId::new(number).unwrap());
    }
    let floor = floor(alloc)?;
    let shelves = shelves(alloc, &floor)?;
    let mut floors = Vec::with_capacity(alloc, 1)?;
    floors.push_reserved(floor);
    match Player::open_on(alloc, among(3), members, floors, shelves, vaults, 7) {
        Some(player) => Ok(Play::new(alloc, player)),
        None => Err(Fail::from("a world in memory opens")),
    }
}

/// What is written as the steps are taken, how many entries the history of `a` has then, and the vaults.
fn history(
    mut play: Play<MapShelf, MemoryDisk>,
    alloc: Global,
    steps: &[Step],
) -> Result<(String, usize, Vec<MemoryDisk>), Fail> {
    for step in steps {
        play.take(*step)?;
    }
    let (player, written) = play.into_parts();
    let (entries, vaults) = player.into_history(&key(alloc, "a")?)?;
    match String::from_utf8(written) {
        Ok(text) => Ok((text, entries.len(), vaults)),
        Err(_) => Err(Fail::from("the answers are text")),
    }
}

#[test]
fn a_history_opens_with_its_floor(rt: HostRuntime) -> Result<(), Fail> {
    let alloc = rt.alloc();
    let play = opened_on(alloc, vaults(alloc, None)?)?;
    let (written, entries, _) = history(play, alloc, &[Add(1, "a", 1)])?;
    assert_eq!(rt; written.as_str(), "1: done v4 num 10 at 8.1\n");
    assert_eq!(rt; entries, 1);
    Ok(())
}

#[test]
fn vaults_go_on_above_what_they_drew(rt: HostRuntime) -> Result<(), Fail> {
    let alloc = rt.alloc();
    let play = opened_on(alloc, vaults(alloc, None)?)?;
    let (_, _, used) = history(play, alloc, &[Add(1, "a", 1)])?;
    let play = opened_on(alloc, used)?;
    let (written, entries, _) = history(play, alloc, &[Add(1, "a", 1), Get(2, "a")])?;
    assert_eq!(rt;
        written.as_str(),
        "1: done v4 num 10 at 108.1\n2: conflict 109.1\n"
    );
    assert_eq!(rt; entries, 1);
    Ok(())
}
