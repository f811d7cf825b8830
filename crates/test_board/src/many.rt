//! Sixteen callers of a board, each of whom changes eight keys many times over links that lose frames and make them late.

ghost use Rattle.std.specs.Prelude.{All};
ghost use Rattle.cas_board.specs.Passes.{IsPassOf};
ghost use Rattle.cas_board_steps.specs.Calls.Open.{NothingIsOpen};

use crate::callers::{adds, rack};
use cas_board::{Board, Pass};
use cas_change::{Body, Key, Program, State};
use cas_disk::MemoryDisk;
use cas_fate::Seeded;
use cas_record::{Answer, Mark, Record};
use cas_world::Config;
use std::alloc::{AllocError, Global};
use std::sync::Wait;
use std::test::Fail;
use std::thread;
use std::thread::Threads;

/// How many changes each caller makes.
const CHANGES: u32 = 2_000;

/// How many rounds each change has at most.
const TRIES: u32 = 8;

/// The keys `k0` to `k7`.
fn eight_keys(alloc: Global) -> Result<Vec<Key>, AllocError> {
    let mut keys = Vec::new(alloc);
    for digit in b'0'..b'8' {
        let Ok(key) = Key::read(alloc, &[b'k', digit]) else {
            return Err(AllocError);
        };
        keys.push(key)?;
    }
    Ok(keys)
}

/// The changes of one caller, each of the next key, over links with a seed of its own.
fn change_in_turn<R: Wait>(
    rt: &R,
    board: &Board<MemoryDisk>,
    pass: &mut Pass<MemoryDisk>,
    keys: &[Key],
    program: &Program,
)
    requires pass { IsPassOf board.now pass.old }
    requires free { NothingIsOpen pass.old.own }
    ensures { IsPassOf board.now pass.new × NothingIsOpen pass.new.own }
{
    let mut fate = Seeded::new(u64::from(pass.number()));
    for change in 0..CHANGES {
        let place = change.wrapping_add(pass.number()) % 8;
        if let Some(key) = keys.get(place as usize) {
            let _answer = board.change(rt, pass, &mut fate, key, program, TRIES);
        }
    }
}

/// The changes of all callers but the operator's, one caller after another: threads that wait for one another a million times would take
/// minutes where all processors are busy.
fn change_all<R: Threads + Wait + Sync>(
    rt: &R,
    board: &Board<MemoryDisk>,
    passes: &mut [Pass<MemoryDisk>],
    keys: &[Key],
    program: &Program,
)
    requires idle { All (λ p. IsPassOf board.now p × NothingIsOpen p.own) passes.old }
    ensures { All (λ p. IsPassOf board.now p × NothingIsOpen p.own) passes.new }
{
    thread::for_each_mut(
        rt,
        passes,
        1,
        &|caller, pass| {
            if caller > 0 {
                change_in_turn(rt, board, pass, keys, program);
            }
        },
    );
}

/// Where the call of that caller is counted.
fn place_of(caller: u8, call: u32) -> usize {
    usize::from(caller)
        .wrapping_mul(CHANGES as usize + 1)
        .wrapping_add(call as usize)
}

/// Counts each call whose change stands in the history of the key, and answers how many entries that has.
fn count_standing(book: &Record, key: &Key, counts: &mut [u8]) -> Result<usize, AllocError> {
    let entries = book.settled(key)?;
    for entry in entries.iter() {
        if let Some(count) = counts.get_mut(place_of(entry.caller, entry.call)) {
            *count = count.saturating_add(1);
        }
    }
    Ok(entries.len())
}

/// Whether a change that adds 1 and stands so many times may be answered so.
fn fits(answer: &Answer, stands: u8) -> bool {
    match answer {
        Answer::Done {
            state: State::Held {
                version,
                body: Body::Number(number),
            },
            ..
        } => { stands == 1 && u64::try_from(*number).ok() == version.checked_add(1) }
        Answer::Unsettled { .. } | Answer::NoMemory { proposed: true } => stands <= 1,
        Answer::Done { .. } => false,
        _ => stands == 0,
    }
}

/// What callers were told.
#[derive(Clone, Copy)]
struct Told {
    ended: u32,
    done: u32,
    unfit: u32,
}

/// How many calls have ended, how many of them are done, and how many are answered otherwise than they stand.
fn told_in(book: &Record, counts: &[u8]) -> Told {
    let mut told = Told {
        ended: 0,
        done: 0,
        unfit: 0,
    };
    for mark in book.marks() {
        if let Mark::Ended {
            caller,
            call,
            answer,
            ..
        } = mark
        {
            let stands = counts.get(place_of(*caller, *call)).copied().unwrap_or(0);
            told.ended = told.ended.saturating_add(1);
            told.done = told
                .done
                .saturating_add(u32::from(matches!(answer, Answer::Done { .. })));
            told.unfit = told.unfit.saturating_add(u32::from(!fits(answer, stands)));
        }
    }
    told
}

#[test]
fn each_change_that_is_done_stands_once(rt: HostRuntime) -> Result<(), Fail> {
    let keys = eight_keys(rt.alloc())?;
    let program = adds(rt.alloc(), 1)?;
    let config = Config {
        acceptors: 3,
        proposers: 16,
    };
    let Ok((board, mut passes)) = Board::open(rt.alloc(), config, rack(rt.alloc())?) else {
        return Err(AllocError)?;
    };
    change_all(
        &rt,
        &board,
        passes.as_mut_slice(),
        keys.as_slice(),
        &program,
    );
    let book = board.close(passes).book;
    let mut counts = vec![in rt.alloc(); 0u8; 34_017]?;
    let mut standing = 0usize;
    for key in keys.iter() {
        standing = standing.saturating_add(count_standing(&book, key, counts.as_mut_slice())?);
    }
    let told = told_in(&book, counts.as_slice());
    let counted = counts.iter().filter(|count| **count > 0).count();
    assert_eq!(rt; (told.ended, told.unfit), (32_000, 0));
    assert_eq!(rt; standing, counted);
    assert!(rt; told.done > 16_000, "{} are done", told.done);
    Ok(())
}
