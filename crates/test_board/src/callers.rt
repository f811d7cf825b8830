//! Changes of callers over a board, whose disks are in memory.

ghost use Rattle.std.specs.Prelude.{◌≡◌, ◌<◌, length, vec_len, All, IfOk};
ghost use Rattle.cas_board.specs.Passes.{IsPassOf};
ghost use Rattle.cas_board_steps.specs.Calls.Open.{NothingIsOpen};

use cas_ballot::Ballot;
use cas_board::{Board, Pass};
use cas_change::{Act, Body, Clause, Guard, Key, Program, State, Took};
use cas_disk::{Image, MemoryDisk};
use cas_fate::Links;
use cas_record::{Answer, Mark, Record};
use cas_store::{ACCEPTORS, Rack, VAULTS};
use cas_world::Config;
use std::alloc::{AllocError, Global};
use std::sync::Wait;
use std::test::Fail;
use std::thread;
use std::thread::Threads;

/// So many empty disks.
fn disks(alloc: Global, count: u8) -> Result<Vec<MemoryDisk>, AllocError>
    ensures { IfOk result (λ disks. vec_len disks ≡ count) }
{
    let mut disks = Vec::new(alloc);
    for number in 0..count {
        disks.push(MemoryDisk::new(alloc, Vec::new(alloc), Vec::new(alloc), Image::New))?;
    }
    Ok(disks)
}

/// Empty disks for all acceptors and vaults.
pub fn rack(alloc: Global) -> Result<Rack<MemoryDisk>, AllocError>
    ensures acceptors { IfOk result (λ rack. vec_len rack.acceptors ≡ 64) }
    ensures vaults { IfOk result (λ rack. vec_len rack.vaults ≡ 17) }
{
    let acceptors = disks(alloc, ACCEPTORS)?;
    let vaults = disks(alloc, VAULTS)?;
    Ok(Rack { acceptors, vaults })
}

/// The program that always acts so.
pub fn always(alloc: Global, act: Act) -> Result<Program, AllocError> {
    let mut clauses = Vec::new(alloc);
    clauses.push(Clause {
        guard: Guard::Always,
        act,
    })?;
    match Program::new(clauses) {
        Ok(program) => Ok(program),
        Err(_) => Err(AllocError),
    }
}

/// The program that always adds this.
pub fn adds(alloc: Global, number: i64) -> Result<Program, AllocError> {
    always(alloc, Act::Add(number))
}

/// What each caller asks for, and how often.
#[derive(Clone, Copy)]
pub struct Asked<'a> {
    pub key: &'a Key,
    pub program: &'a Program,
    pub changes: u32,
}

/// So many changes of one caller, over links that deliver.
fn change_often<R: Wait>(
    rt: &R,
    board: &Board<MemoryDisk>,
    pass: &mut Pass<MemoryDisk>,
    asked: Asked<'_>,
)
    requires pass { IsPassOf board.now pass.old }
    requires free { NothingIsOpen pass.old.own }
    ensures { IsPassOf board.now pass.new × NothingIsOpen pass.new.own }
{
    let mut fate = Links::new();
    for _ in 0..asked.changes {
        let _answer = board.change(rt, pass, &mut fate, asked.key, asked.program, 8);
    }
}

/// The changes of all callers but the operator's, in so many threads.
pub fn change_in_threads<R: Threads + Wait + Sync>(
    rt: &R,
    board: &Board<MemoryDisk>,
    passes: &mut [Pass<MemoryDisk>],
    threads: usize,
    asked: Asked<'_>,
)
    requires some { 0 < threads }
    requires idle { All (λ p. IsPassOf board.now p × NothingIsOpen p.own) passes.old }
    ensures { All (λ p. IsPassOf board.now p × NothingIsOpen p.own) passes.new }
{
    thread::for_each_mut(
        rt,
        passes,
        threads,
        &|caller, pass| {
            if caller > 0 {
                change_often(rt, board, pass, asked);
            }
        },
    );
}

/// The record of a board of three acceptors and three callers, each of which adds 5 to the key so often.
fn record_of<R: Threads + Wait + Sync>(
    rt: &R,
    alloc: Global,
    threads: usize,
    changes: u32,
) -> Result<Record, AllocError>
    requires { 0 < threads }
{
    let Ok(key) = Key::read(alloc, b"a") else {
        return Err(AllocError);
    };
    let program = adds(alloc, 5)?;
    let config = Config {
        acceptors: 3,
        proposers: 3,
    };
    let Ok((board, mut passes)) = Board::open(alloc, config, rack(alloc)?) else {
        return Err(AllocError);
    };
    let asked = Asked {
        key: &key,
        program: &program,
        changes,
    };
    change_in_threads(rt, &board, passes.as_mut_slice(), threads, asked);
    Ok(board.close(passes).book)
}

/// Done by the first clause, with this state then.
pub fn done_with(state: State, ballot: Ballot) -> Answer {
    Answer::Done {
        state,
        took: Took::Clause(0),
        ballot,
    }
}

/// Done by the first clause, with this number held then.
pub fn done(version: u64, number: i64, ballot: Ballot) -> Answer {
    let body = Body::Number(number);
    done_with(State::Held { version, body }, ballot)
}

/// Whether these are the answers that the record tells, in order.
pub fn tells(book: &Record, wanted: &[Answer]) -> bool {
    let mut told = 0usize;
    for mark in book.marks() {
        if let Mark::Ended { answer, .. } = mark {
            if wanted.get(told) != Some(answer) {
                return false;
            }
            told = told.saturating_add(1);
        }
    }
    told == wanted.len()
}

pub fn ballot(counter: u64, proposer: u8) -> Ballot {
    Ballot { counter, proposer }
}

#[test]
fn callers_change_one_after_another(rt: HostRuntime) -> Result<(), Fail> {
    let book = record_of(&rt, rt.alloc(), 1, 2)?;
    let wanted = [
        done(0, 5, ballot(1, 1)),
        done(1, 10, ballot(2, 1)),
        done(2, 15, ballot(4, 2)),
        done(3, 20, ballot(5, 2)),
        done(4, 25, ballot(7, 3)),
        done(5, 30, ballot(8, 3)),
    ];
    assert_eq!(rt; tells(&book, &wanted), true);
    Ok(())
}

#[test]
fn callers_change_in_threads(rt: HostRuntime) -> Result<(), Fail> {
    let book = record_of(&rt, rt.alloc(), 3, 20)?;
    let mut begun = 0u32;
    let mut acked = 0u32;
    let mut ended = 0u32;
    let mut done = 0u32;
    for mark in book.marks() {
        match mark {
            Mark::Begun { .. } => begun = begun.saturating_add(1),
            Mark::Acked(_) => acked = acked.saturating_add(1),
            Mark::Ended { answer, .. } => {
                ended = ended.saturating_add(1);
                if matches!(answer, Answer::Done { .. }) {
                    done = done.saturating_add(1);
                }
            }
            _ => {}
        }
    }
    assert_eq!(rt; (begun, ended), (60, 60));
    assert_eq!(rt; acked, done);
    Ok(())
}
