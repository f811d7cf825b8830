//! Calls of the operator over a board.

ghost use Rattle.std.specs.Prelude.{◌≡◌, All};
ghost use Rattle.cas_board.specs.Passes.{IsPassOf};
ghost use Rattle.cas_board_steps.specs.Calls.Open.{NothingIsOpen};

use crate::callers::{Asked as Wanted, adds, ballot, change_in_threads, rack};
use cas_ballot::{AcceptorId, Ballot};
use cas_board::{Board, Pass};
use cas_change::Key;
use cas_disk::MemoryDisk;
use cas_fate::Links;
use cas_record::{OpAnswer, Probe};
use cas_slot::Tell;
use cas_world::Config;
use std::alloc::{AllocError, Global};
use std::sync::Wait;
use std::test::Fail;
use std::thread::Threads;

/// What the operator is told of the key, by a probe over links that deliver, if the first of the passes is the operator's.
fn probe_first<R: Wait>(
    rt: &R,
    board: &Board<MemoryDisk>,
    passes: &mut [Pass<MemoryDisk>],
    key: &Key,
) -> Option<OpAnswer>
    requires { All (λ p. IsPassOf board.now p × NothingIsOpen p.own) passes.old }
    ensures { All (λ p. IsPassOf board.now p × NothingIsOpen p.own) passes.new }
{
    if passes.is_empty() || passes[0].number() != 0 {
        return None;
    }
    let mut fate = Links::new();
    Some(board.probe(rt, &mut passes[0], &mut fate, key))
}

/// The ballot at which the acceptor accepted what it told.
fn accepted_at(probe: &Probe) -> Option<Ballot> {
    match &probe.told {
        Some(
            Tell::Probed {
                accepted: Some(accepted),
                ..
            },
        ) => Some(accepted.ballot),
        _ => None,
    }
}

/// What the operator is told of a key to which a caller of a board of three acceptors added 5.
fn probed<R: Threads + Wait + Sync>(
    rt: &R,
    alloc: Global,
    key: &Key,
) -> Result<OpAnswer, AllocError> {
    let program = adds(alloc, 5)?;
    let config = Config {
        acceptors: 3,
        proposers: 1,
    };
    let Ok((board, mut passes)) = Board::open(alloc, config, rack(alloc)?) else {
        return Err(AllocError);
    };
    let wanted = Wanted {
        key,
        program: &program,
        changes: 1,
    };
    change_in_threads(rt, &board, passes.as_mut_slice(), 1, wanted);
    let told = probe_first(rt, &board, passes.as_mut_slice(), key);
    let _closed = board.close(passes);
    told.ok_or(AllocError)
}

#[test]
fn a_probe_asks_each_member(rt: HostRuntime) -> Result<(), Fail> {
    let alloc = rt.alloc();
    let Ok(a) = Key::read(alloc, b"a") else {
        return Err(AllocError)?;
    };
    let OpAnswer::Probed { key, found } = probed(&rt, alloc, &a)? else {
        return Err(AllocError)?;
    };
    assert_eq!(rt; key, a);
    assert_eq!(rt; found.probes().len(), 3);
    for (place, probe) in found.probes().iter().enumerate() {
        assert_eq!(rt; usize::from(probe.acceptor.number()), place + 1);
        assert_eq!(rt; accepted_at(probe), Some(ballot(1, 1)));
    }
    Ok(())
}

/// What the operator is told of a join of the acceptor and then of its leave, over links that deliver.
fn join_and_leave<R: Wait>(
    rt: &R,
    board: &Board<MemoryDisk>,
    pass: &mut Pass<MemoryDisk>,
    id: AcceptorId,
) -> [OpAnswer; 2]
    requires pass { IsPassOf board.now pass.old }
    requires operator { pass.old.number ≡ 0 }
    requires free { NothingIsOpen pass.old.own }
    ensures { IsPassOf board.now pass.new × NothingIsOpen pass.new.own }
{
    let mut fate = Links::new();
    let joined = board.join_member(rt, pass, &mut fate, id, 8);
    let left = board.leave_member(rt, pass, &mut fate, id, 8);
    [joined, left]
}

/// What the operator is told of a join and a leave, if the first of the passes is the operator's.
fn join_and_leave_first<R: Wait>(
    rt: &R,
    board: &Board<MemoryDisk>,
    passes: &mut [Pass<MemoryDisk>],
    id: AcceptorId,
) -> Option<[OpAnswer; 2]>
    requires { All (λ p. IsPassOf board.now p × NothingIsOpen p.own) passes.old }
    ensures { All (λ p. IsPassOf board.now p × NothingIsOpen p.own) passes.new }
{
    if passes.is_empty() || passes[0].number() != 0 {
        return None;
    }
    Some(join_and_leave(rt, board, &mut passes[0], id))
}

/// What the operator is told as the acceptor joins a board of three acceptors that keep the key, and leaves it.
fn joined_and_left<R: Threads + Wait + Sync>(
    rt: &R,
    alloc: Global,
    key: &Key,
    id: AcceptorId,
) -> Result<[OpAnswer; 2], AllocError> {
    let program = adds(alloc, 5)?;
    let config = Config {
        acceptors: 3,
        proposers: 1,
    };
    let Ok((board, mut passes)) = Board::open(alloc, config, rack(alloc)?) else {
        return Err(AllocError);
    };
    let wanted = Wanted {
        key,
        program: &program,
        changes: 1,
    };
    change_in_threads(rt, &board, passes.as_mut_slice(), 1, wanted);
    let told = join_and_leave_first(rt, &board, passes.as_mut_slice(), id);
    let _closed = board.close(passes);
    told.ok_or(AllocError)
}

#[test]
fn a_key_is_proposed_anew_as_members_change(rt: HostRuntime) -> Result<(), Fail> {
    let alloc = rt.alloc();
    let (Ok(a), Some(id)) = (Key::read(alloc, b"a"), AcceptorId::new(4)) else {
        return Err(AllocError)?;
    };
    let told = joined_and_left(&rt, alloc, &a, id)?;
    let wanted = [
        OpAnswer::Joined {
            id,
            era: 2,
            rescanned: 1,
        },
        OpAnswer::Left {
            id,
            era: 4,
            rescanned: 2,
        },
    ];
    assert_eq!(rt; told.as_slice(), wanted.as_slice());
    Ok(())
}
