//! A collection over a board.

ghost use Rattle.std.specs.Prelude.{◌≡◌, All};
ghost use Rattle.cas_board.specs.Passes.{IsPassOf};
ghost use Rattle.cas_board_steps.specs.Calls.Open.{NothingIsOpen};

use crate::callers::{always, ballot, done_with, rack};
use cas_board::{Board, Pass};
use cas_change::{Act, Body, Key, State, Text};
use cas_disk::MemoryDisk;
use cas_disk_shelf::DiskShelf;
use cas_fate::Links;
use cas_record::{Answer, OpAnswer};
use cas_slot::{Accepted, Shelf, Slot};
use cas_store::Rack;
use cas_world::Config;
use std::alloc::{AllocError, Global};
use std::sync::Wait;
use std::test::Fail;

/// How many rounds each call has at most.
const TRIES: u32 = 2;

/// What caller 1 and the operator are told.
#[derive(Debug, PartialEq, Drop)]
struct Told {
    set: Option<Answer>,
    deleted: Option<Answer>,
    collected: Option<OpAnswer>,
    added: Option<Answer>,
}

/// What caller 1 is told of the program that always acts so, over links that deliver.
fn change<R: Wait>(
    rt: &R,
    alloc: Global,
    board: &Board<MemoryDisk>,
    passes: &mut [Pass<MemoryDisk>],
    key: &Key,
    act: Act,
) -> Option<Answer>
    requires { All (λ p. IsPassOf board.now p × NothingIsOpen p.own) passes.old }
    ensures { All (λ p. IsPassOf board.now p × NothingIsOpen p.own) passes.new }
{
    let Ok(program) = always(alloc, act) else {
        return None;
    };
    if passes.len() < 2 {
        return None;
    }
    let mut fate = Links::new();
    Some(board.change(rt, &mut passes[1], &mut fate, key, &program, TRIES))
}

/// What the operator is told of a collection of the key over links that deliver, if the first of the passes is the operator's.
fn collect_first<R: Wait>(
    rt: &R,
    board: &Board<MemoryDisk>,
    passes: &mut [Pass<MemoryDisk>],
    key: &Key,
) -> Option<OpAnswer>
    requires { All (λ p. IsPassOf board.now p × NothingIsOpen p.own) passes.old }
    ensures { All (λ p. IsPassOf board.now p × NothingIsOpen p.own) passes.new }
{
    if passes.is_empty() || passes[0].number() != 0 {
        return None;
    }
    let mut fate = Links::new();
    Some(board.collect(rt, &mut passes[0], &mut fate, key, TRIES))
}

/// What is told as the key is given this text, deleted and collected, and 9 is added to it.
fn told_in_turn<R: Wait>(
    rt: &R,
    alloc: Global,
    board: &Board<MemoryDisk>,
    passes: &mut [Pass<MemoryDisk>],
    key: &Key,
    text: Text,
) -> Told
    requires { All (λ p. IsPassOf board.now p × NothingIsOpen p.own) passes.old }
    ensures { All (λ p. IsPassOf board.now p × NothingIsOpen p.own) passes.new }
{
    let set = change(rt, alloc, board, passes, key, Act::PutText(text));
    let deleted = change(rt, alloc, board, passes, key, Act::Clear);
    let collected = collect_first(rt, board, passes, key);
    let added = change(rt, alloc, board, passes, key, Act::Add(9));
    Told {
        set,
        deleted,
        collected,
        added,
    }
}

/// What the three members keep for the key, on shelves that are opened again over their disks.
fn kept_by_members(
    alloc: Global,
    rack: Rack<MemoryDisk>,
    key: &Key,
) -> Result<Vec<Option<Slot>>, AllocError> {
    let mut kept = Vec::new(alloc);
    for disk in rack.acceptors.into_iter().skip(1).take(3) {
        let mut shelf = DiskShelf::over(alloc, disk);
        if shelf.reopen().is_err() {
            return Err(AllocError);
        }
        kept.push(shelf.get(key)?)?;
    }
    Ok(kept)
}

/// The same on a board of three acceptors and two callers, and what the members keep for the key once it is closed.
fn told_on_a_board<R: Wait>(
    rt: &R,
    alloc: Global,
    key: &Key,
    text: &Text,
) -> Result<(Told, Vec<Option<Slot>>), AllocError> {
    let config = Config {
        acceptors: 3,
        proposers: 2,
    };
    let text = text.copy()?;
    let Ok((board, mut passes)) = Board::open(alloc, config, rack(alloc)?) else {
        return Err(AllocError);
    };
    let told = told_in_turn(rt, alloc, &board, passes.as_mut_slice(), key, text);
    let closed = board.close(passes);
    let kept = kept_by_members(alloc, closed.rack, key)?;
    Ok((told, kept))
}

/// A body that was put on an empty state.
fn held(body: Body) -> State {
    State::Held { version: 0, body }
}

/// What is to be told. The last change finds an empty state.
fn wanted(key: Key, text: Text) -> Told {
    Told {
        set: Some(done_with(held(Body::Text(text)), ballot(1, 1))),
        deleted: Some(done_with(State::Empty, ballot(2, 1))),
        collected: Some(OpAnswer::Collected {
            key,
            ballot: ballot(4, 0),
            removed: 3,
            kept: 0,
        }),
        added: Some(done_with(held(Body::Number(9)), ballot(5, 1))),
    }
}

/// What each member keeps then: the number that was added at 5.1, and the promise that rode along.
fn added_slot() -> Slot {
    Slot {
        promise: ballot(6, 1),
        accepted: Some(Accepted {
            ballot: ballot(5, 1),
            era: 0,
            state: held(Body::Number(9)),
        }),
    }
}

#[test]
fn a_deleted_key_is_collected_and_changed_again(rt: HostRuntime) -> Result<(), Fail> {
    let alloc = rt.alloc();
    let Ok(a) = Key::read(alloc, b"a") else {
        return Err(AllocError)?;
    };
    let Ok(x) = Text::read(alloc, b"x") else {
        return Err(AllocError)?;
    };
    let (told, kept) = told_on_a_board(&rt, alloc, &a, &x)?;
    assert_eq!(rt; told, wanted(a, x));
    assert_eq!(rt; kept.len(), 3);
    for slot in &kept {
        assert_eq!(rt; slot, &Some(added_slot()));
    }
    Ok(())
}
