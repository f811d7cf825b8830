//! Two callers of a board who tell each other what they have seen.

ghost use Rattle.std.specs.Prelude.{◌≡◌};
ghost use Rattle.cas_board.specs.Passes.{IsPassOf};
ghost use Rattle.test_board.specs.Meetings.{HasHeardOf};
ghost use Rattle.cas_board_steps.specs.Calls.Open.{NothingIsOpen};

use crate::callers::{adds, ballot, done, rack, tells};
use cas_board::{Board, Pass};
use cas_change::{Key, Program};
use cas_disk::MemoryDisk;
use cas_fate::Links;
use cas_record::Answer;
use cas_world::Config;
use std::alloc::AllocError;
use std::sync::Wait;
use std::test::Fail;

/// What both are told as one changes the key, they meet, and the other changes it. What the second has seen then begins with what the first
/// had seen as it was told.
fn change_and_meet<R: Wait>(
    rt: &R,
    board: &Board<MemoryDisk>,
    first: &mut Pass<MemoryDisk>,
    second: &mut Pass<MemoryDisk>,
    key: &Key,
    program: &Program,
) -> (Answer, Answer)
    requires first { IsPassOf board.now first.old × NothingIsOpen first.old.own }
    requires second { IsPassOf board.now second.old × NothingIsOpen second.old.own }
    ensures first { IsPassOf board.now first.new }
    ensures second { IsPassOf board.now second.new }
    ensures heard { HasHeardOf first.old.number result.0 second.new.seen }
{
    let mut fate = Links::new();
    let one = board.change(rt, first, &mut fate, key, program, 8);
    board.meet(first, second);
    let other = board.change(rt, second, &mut fate, key, program, 8);
    (one, other)
}

#[test]
fn callers_meet_between_changes(rt: HostRuntime) -> Result<(), Fail> {
    let Ok(key) = Key::read(rt.alloc(), b"a") else {
        return Err(AllocError)?;
    };
    let program = adds(rt.alloc(), 5)?;
    let config = Config {
        acceptors: 3,
        proposers: 2,
    };
    let Ok((board, mut passes)) = Board::open(rt.alloc(), config, rack(rt.alloc())?) else {
        return Err(AllocError)?;
    };
    let mut second = passes.pop().expect(&rt, "three passes were made");
    let mut first = passes.pop().expect(&rt, "three passes were made");
    let (one, other) = change_and_meet(&rt, &board, &mut first, &mut second, &key, &program);
    assert_eq!(rt;
        (&one, &other),
        (&done(0, 5, ballot(1, 1)), &done(1, 10, ballot(3, 2)))
    );
    passes.push_reserved(first);
    passes.push_reserved(second);
    assert_eq!(rt; tells(&board.close(passes).book, &[one, other]), true);
    Ok(())
}
