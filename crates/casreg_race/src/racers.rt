//! The callers of a race in their threads.

ghost use Rattle.std.specs.Prelude.{◌≡◌, ◌≤◌, ◌<◌, ◌+◌, ◌++◌, [], ℕ, map, reverse, vec_len, vec_capacity, slice_index_or, All};
ghost use Rattle.cas_board.specs.Passes.{IsPassOf};
ghost use Rattle.cas_board_steps.specs.Calls.Open.{NothingIsOpen};
ghost use Rattle.casreg_race.specs.Runs.{IsMeantFor, IsReady, HasRunTask, HasRaced};

use crate::told::Told;
use cas_board::{Board, Pass};
use cas_disk::Disk;
use cas_fate::Fate;
use cas_read::read;
use casreg_tasks::tasks::Task;
use std::sync::Wait;
use std::thread;
use std::thread::Threads;

/// A caller of a race, with what it needs in its thread.
pub(crate) struct Racer<D: Disk, F> {
    pub pass: Pass<D>,
    pub fate: F,
    /// What its lines ask for, in their order.
    pub tasks: Vec<Task>,
    /// What these were answered so far. There is room for all answers.
    pub told: Vec<Told>,
}

/// Makes a racer for each pass, in their order, with the fate, the tasks and the room for answers at the same place. The fates that no pass takes
/// stay, the last one first.
pub(crate) fn line_up<D: Disk, F>(
    passes: &mut Vec<Pass<D>>,
    fates: &mut Vec<F>,
    tasks: &mut Vec<Vec<Task>>,
    told: &mut Vec<Vec<Told>>,
    racers: &mut Vec<Racer<D, F>>,
)
    requires none { racers.old.items ≡ [] }
    requires room { vec_len passes.old ≤ vec_capacity racers.old }
    requires fates { vec_len passes.old ≤ vec_len fates.old }
    requires lists { (vec_len tasks.old ≡ vec_len passes.old)
        × (vec_len told.old ≡ vec_len passes.old) }
    ensures passes { map (λ racer. racer.pass) racers.new.items ≡ passes.old.items }
    ensures fates { map (λ racer. racer.fate) racers.new.items ++ reverse fates.new.items
        ≡ fates.old.items }
    ensures tasks { map (λ racer. racer.tasks) racers.new.items ≡ tasks.old.items }
    ensures told { map (λ racer. racer.told) racers.new.items ≡ told.old.items }
    ensures taken { (vec_len passes.new ≡ 0) × (vec_len told.new ≡ 0) }
    ensures capacities { (vec_capacity passes.new ≡ vec_capacity passes.old)
        × (vec_capacity fates.new ≡ vec_capacity fates.old)
        × (vec_capacity told.new ≡ vec_capacity told.old) }
{
    passes.reverse();
    fates.reverse();
    tasks.reverse();
    told.reverse();
    while let Some(pass) = passes.pop() {
        let Some(fate) = fates.pop() else {
            unreachable!()
        };
        let (Some(tasks), Some(told)) = (tasks.pop(), told.pop()) else {
            unreachable!()
        };
        racers.push_reserved(Racer {
            pass,
            fate,
            tasks,
            told,
        });
    }
}

/// Takes from the racers what they were given, each part back to its place.
pub(crate) fn take_back<D: Disk, F>(
    mut racers: Vec<Racer<D, F>>,
    passes: &mut Vec<Pass<D>>,
    fates: &mut Vec<F>,
    told: &mut Vec<Vec<Told>>,
)
    requires taken { (vec_len passes.old ≡ 0) × (vec_len told.old ≡ 0) }
    requires room { (vec_len racers ≤ vec_capacity passes.old)
        × (vec_len racers ≤ vec_capacity told.old) }
    requires fates { vec_len racers + vec_len fates.old ≤ vec_capacity fates.old }
    ensures passes { passes.new.items ≡ map (λ racer. racer.pass) racers.items }
    ensures fates { fates.new.items
        ≡ map (λ racer. racer.fate) racers.items ++ reverse fates.old.items }
    ensures told { told.new.items ≡ map (λ racer. racer.told) racers.items }
{
    while let Some(
        Racer {
            pass,
            fate,
            tasks: _,
            told: of_caller,
        },
    ) = racers.pop()
    {
        passes.push_reserved(pass);
        fates.push_reserved(fate);
        told.push_reserved(of_caller);
    }
    passes.reverse();
    fates.reverse();
    told.reverse();
    racers.destroy_empty();
}

/// Lets all racers run, each in a thread of its own where one can be made. Those for which none can be made run one after another.
pub(crate) fn run_all<R: Threads + Wait + Sync, D: Disk + Send, F: Fate + Send>(
    rt: &R,
    board: &Board<D>,
    racers: &mut Vec<Racer<D, F>>,
    tries: u32,
)
    requires some { 0 < vec_len racers.old }
    requires tries { 1 ≤ tries }
    requires ready { All (λ racer. IsReady board.now racer.pass racer.tasks.items racer.told.items
        (vec_capacity racer.told)) racers.old.items }
    ensures count { vec_len racers.new ≡ vec_len racers.old }
    ensures raced { (i : ℕ) (d : _) → i < vec_len racers.old
        → HasRaced D.tells tries (F.harm_count (slice_index_or racers.old.items i d).fate)
        (F.harm_count (slice_index_or racers.new.items i d).fate) (slice_index_or racers.old.items
        i d).tasks.items (slice_index_or racers.new.items i d).told.items
        (slice_index_or racers.old.items i d).pass (slice_index_or racers.new.items i d).pass }
{
    let threads = racers.len();
    thread::for_each_mut(
        rt,
        racers.as_mut_slice(),
        threads,
        &|_, racer| racer.run(rt, board, tries),
    );
}

impl<D: Disk, F: Fate> Racer<D, F> {
    /// Runs all tasks in their order.
    fn run<R: Wait>(&mut self, rt: &R, board: &Board<D>, tries: u32)
        requires tries { 1 ≤ tries }
        requires ready { IsReady board.now self.old.pass self.old.tasks.items self.old.told.items
            (vec_capacity self.old.told) }
        ensures raced { HasRaced D.tells tries (F.harm_count self.old.fate) (F.harm_count
            self.new.fate) self.old.tasks.items self.new.told.items self.old.pass self.new.pass }
    {
        let Racer {
            pass,
            fate,
            tasks,
            told,
        } = self;
        run_tasks(rt, board, pass, fate, tasks.as_slice(), told, tries);
    }
}

/// Runs the tasks of the pass's caller in their order, and notes what each was answered.
fn run_tasks<R: Wait, D: Disk, F: Fate>(
    rt: &R,
    board: &Board<D>,
    pass: &mut Pass<D>,
    fate: &mut F,
    tasks: &[Task],
    told: &mut Vec<Told>,
    tries: u32,
)
    requires tries { 1 ≤ tries }
    requires ready { IsReady board.now pass.old tasks.now told.old.items (vec_capacity told.old) }
    ensures raced { HasRaced D.tells tries
        (F.harm_count fate.old) (F.harm_count fate.new) tasks.now told.new.items pass.old pass.new }
{
    for task in tasks {
        let answer = run_task(rt, board, pass, fate, task, tries);
        told.push_reserved(answer);
    }
}

/// Runs a task of the pass's caller, and gives what it was answered.
fn run_task<R: Wait, D: Disk, F: Fate>(
    rt: &R,
    board: &Board<D>,
    pass: &mut Pass<D>,
    fate: &mut F,
    task: &Task,
    tries: u32,
) -> Told
    requires pass { IsPassOf board.now pass.old }
    requires free { NothingIsOpen pass.old.own }
    requires meant { IsMeantFor pass.old.number task.now }
    requires tries { 1 ≤ tries }
    ensures pass { pass.new ≡ record pass.old { seen = pass.new.seen; own = pass.new.own } }
    ensures free { NothingIsOpen pass.new.own }
    ensures ran { HasRunTask D.tells tries
        (F.harm_count fate.old) (F.harm_count fate.new) task.now result pass.old pass.new }
{
    match task {
        Task::Change { key, program } => {
            Told::Change(board.change(rt, pass, fate, key, program, tries))
        }
        Task::Join { id } => Told::Operator(board.join_member(rt, pass, fate, *id, tries)),
        Task::Leave { id } => Told::Operator(board.leave_member(rt, pass, fate, *id, tries)),
        Task::Resize {
            need_prep,
            need_acc,
        } => Told::Operator(board.resize(rt, pass, fate, *need_prep, *need_acc, tries)),
        Task::Collect { key } => Told::Operator(board.collect(rt, pass, fate, key, tries)),
        Task::Probe { key } => Told::Operator(board.probe(rt, pass, fate, key)),
        Task::Read { key } => Told::Read(read(board, rt, pass, fate, key)),
    }
}
