//! A race, from its lines to the text that is written.

ghost use Rattle.std.specs.Prelude.{◌≡◌, ◌≤◌, ◌<◌, ◌+◌, ◌++◌, ℕ, List, [], map, reverse, length, vec_items, vec_len, vec_capacity, slice_index_or, All, IfOk, IfSome, OnOk, OnErr, IsErrOf};
ghost use Rattle.std.specs.Io.KnownBytes.{Appends, IsAtEnd};
ghost use Rattle.cas_base.specs.Faults.{Rose};
ghost use Rattle.cas_model.specs.Exchanges.Tellings.{AreWritable};
ghost use Rattle.cas_model_causes.specs.Eras.Tellings.{AreTellingsSo};
ghost use Rattle.cas_lines.specs.Lines.{TooLong, TooMany, Whole, ending_of};
ghost use Rattle.cas_store.specs.Kept.{AreKept};
ghost use Rattle.cas_record.specs.Legal.{IsLegal};
ghost use Rattle.cas_record.specs.declared.mark.Mark.{Mark};
ghost use Rattle.cas_board_world.specs.Blame.{AreDeserved};
ghost use Rattle.cas_turn.specs.Sitting.{fresh_seats};
ghost use Rattle.cas_board_steps.specs.Calls.Open.{NothingIsOpen};
ghost use Rattle.cas_board.specs.Passes.{IsPassOf};
ghost use Rattle.casreg_tasks.specs.Tasks.{AreAllLines, bad_lines};
ghost use Rattle.casreg_tasks.specs.Texts.{WroteFrontOf, WroteText};
ghost use Rattle.casreg_race.specs.Runs.{AreRaced, ArePassesOf, HasRoomForAnswers};
ghost use Rattle.casreg_race.specs.Race.{WroteRace};
ghost use Rattle.casreg_race.specs.Texts.{IsRaceText, told_lines};

use crate::racers::{line_up, run_all, take_back};
use crate::told::{Told, print_told};
use cas_board::{Board, Closed, Pass};
use cas_disk::Disk;
use cas_fate::Fate;
use cas_lines::lines::LineFault;
use cas_lines::sink::{Sink, put_all};
use cas_lines::source::Source;
use cas_record::Record;
use casreg_tasks::histories::{HistoryFault, write_histories};
use casreg_tasks::tasks::{Sheet, Task, read_sheet};
use std::alloc::{AllocError, Global};
use std::sync::Wait;
use std::thread::Threads;

/// Why a race did not end well.
#[derive(Clone, Copy, Debug, PartialEq, Eq)]
pub enum RaceFault {
    /// The lines could not all be read, or there was no memory to begin with. No line was run, and nothing was written.
    NotRun(LineFault),
    /// All lines were run, and not all of their answers and histories were written.
    CutOff(HistoryFault),
}

/// What the callers of a race were answered, and the bad lines before.
#[derive(Debug, Drop)]
struct Results {
    /// The answers to the bad lines, in the order of the lines.
    bad: Vec<u8>,
    /// What each caller's lines were answered, in their order, at the place of its number.
    told: Vec<Vec<Told>>,
}

/// Runs a race of so many callers, beside the operator, on a board that was just opened, and takes the board apart then. All lines are
/// read before any is run, and all have been run before anything is written: the answers to the bad lines in line order, then each caller's
/// answers, callers in rising order, and then the settled history of each key that has one, the keys in byte order. Each caller runs its lines
/// with the pass and the fate at the place of its number, in a thread of its own where one can be made. The fates come back in their places.
/// What the record tells of the operator's changes of membership and collections is so in it, where disks tell what they keep; and so is what
/// a probe found, in a front of it.
///
/// After [`RaceFault::NotRun`], which is as for [`read_sheet`], no line was run and nothing was written. After [`RaceFault::CutOff`] the sink has
/// a front of the text.
pub fn race_on<R: Threads + Wait + Sync, S: Source, K: Sink, D: Disk + Send + Drop, F: Fate + Send>(
    rt: &R,
    alloc: Global,
    proposers: u8,
    tries: u8,
    source: &mut S,
    sink: &mut K,
    board: Board<D>,
    mut passes: Vec<Pass<D>>,
    fates: &mut Vec<F>,
) -> (Result<(), RaceFault>, Closed<D>)
    requires proposers { proposers ≤ 16 }
    requires tries { 1 ≤ tries }
    requires seats { board.seats ≡ proposers + 1 }
    requires passes { (first : List Mark)
        × (passes.items ≡ fresh_seats board.id (proposers + 1) first) }
    requires idle { All (λ pass. IsPassOf board pass × NothingIsOpen pass.own) passes.items }
    requires room { vec_capacity passes ≡ proposers + 1 }
    requires fates { vec_len fates.old ≡ 17 }
    ensures legal { D.tells → IsLegal (reverse result.1.book.marks) }
    ensures writable { AreWritable result.1.book.marks }
    ensures tellings { D.tells → AreTellingsSo (proposers + 1) (reverse result.1.book.marks) }
    ensures kept { D.tells
        → AreKept D.may_leave (reverse result.1.book.marks) result.1.rack.acceptors.items }
    ensures deserved { AreDeserved D.fault_count result.1.rack.acceptors.items
        result.1.rack.vaults.items result.1.book.marks }
    // The marks that the passes had seen are the first ones of the record.
    ensures raced { (first : List Mark)
        → passes.items ≡ fresh_seats board.id (proposers + 1) first
        → WroteRace D.tells tries proposers first (S.remaining source.old)
        (K.contents sink.old) (K.contents sink.new) (map F.harm_count fates.old.items)
        (map F.harm_count fates.new.items) result.1.book.marks result.0 }
    ensures read { OnOk result.0 (IsAtEnd (S.remaining source.new)) }
    ensures whole { OnOk result.0
        (IfSome (S.remaining source.old) (λ input. ending_of input ≡ Whole)) }
    ensures read_fault { IsErrOf result.0 (RaceFault.NotRun LineFault.ReadFault)
        → Rose (S.faults_of source.old) (S.faults_of source.new) }
    ensures too_many { IsErrOf result.0 (RaceFault.NotRun LineFault.TooManyLines)
        → IfSome (S.remaining source.old) (λ input. ending_of input ≡ TooMany) }
    ensures endless { (line : ℕ) → IsErrOf result.0 (RaceFault.NotRun (LineFault.Endless line))
        → IfSome (S.remaining source.old) (λ input. ending_of input ≡ TooLong line) }
    ensures never_falls { K.faults_of sink.old ≤ K.faults_of sink.new }
    ensures write_fault { IsErrOf result.0 (RaceFault.CutOff HistoryFault.WriteFault)
        → Rose (K.faults_of sink.old) (K.faults_of sink.new) }
    ensures fates { vec_len fates.new ≡ 17 }
    ensures all_acceptors { vec_len result.1.rack.acceptors ≡ 64 }
    ensures all_vaults { vec_len result.1.rack.vaults ≡ 17 }
{
    let raced = run_lines(
        rt,
        alloc,
        proposers,
        tries,
        source,
        &board,
        &mut passes,
        fates,
    );
    let closed = board.close(passes);
    match raced {
        Ok(results) => match write_race(alloc, &results, &closed.book, sink) {
            Ok(()) => (Ok(()), closed),
            Err(fault) => (Err(RaceFault::CutOff(fault)), closed),
        },
        Err(fault) => (Err(RaceFault::NotRun(fault)), closed),
    }
}

/// Reads all lines, and runs them in threads, one for each pass. After an `Err`, which is as for [`read_sheet`], no line was run. The passes and
/// the fates come back in their places.
fn run_lines<R: Threads + Wait + Sync, S: Source, D: Disk + Send, F: Fate + Send>(
    rt: &R,
    alloc: Global,
    proposers: u8,
    tries: u8,
    source: &mut S,
    board: &Board<D>,
    passes: &mut Vec<Pass<D>>,
    fates: &mut Vec<F>,
) -> Result<Results, LineFault>
    requires proposers { proposers ≤ 16 }
    requires tries { 1 ≤ tries }
    requires passes { (first : List Mark)
        × (passes.old.items ≡ fresh_seats board.now.id (proposers + 1) first) }
    requires idle { All (λ pass. IsPassOf board.now pass
        × NothingIsOpen pass.own) passes.old.items }
    requires room { vec_capacity passes.old ≡ proposers + 1 }
    requires fates { vec_len fates.old ≡ 17 }
    ensures raced { IfOk result (λ results. (lines : List (List ℕ))
        × AreAllLines (S.remaining source.old) lines
        × (results.bad.items ≡ bad_lines proposers 1 lines)
        × ((first : List Mark)
        → passes.old.items ≡ fresh_seats board.now.id (proposers + 1) first
        → AreRaced D.tells tries proposers first lines (map F.harm_count fates.old.items)
        (map F.harm_count fates.new.items) (map vec_items results.told.items) passes.new.items)) }
    ensures not_run { OnErr result ((passes.new ≡ passes.old) × (fates.new ≡ fates.old)) }
    ensures passes { ArePassesOf board.now proposers passes.new.items }
    ensures fates { vec_len fates.new ≡ 17 }
    ensures read { OnOk result (IsAtEnd (S.remaining source.new)) }
    ensures whole { OnOk result
        (IfSome (S.remaining source.old) (λ input. ending_of input ≡ Whole)) }
    ensures read_fault { IsErrOf result LineFault.ReadFault
        → Rose (S.faults_of source.old) (S.faults_of source.new) }
    ensures too_many { IsErrOf result LineFault.TooManyLines
        → IfSome (S.remaining source.old) (λ input. ending_of input ≡ TooMany) }
    ensures endless { (line : ℕ) → IsErrOf result (LineFault.Endless line)
        → IfSome (S.remaining source.old) (λ input. ending_of input ≡ TooLong line) }
{
    let Sheet { bad, mut tasks } = read_sheet(alloc, source, proposers)?;
    let mut told = rooms_for(alloc, &tasks)?;
    let mut racers = Vec::with_capacity(alloc, passes.len())?;
    line_up(passes, fates, &mut tasks, &mut told, &mut racers);
    run_all(rt, board, &mut racers, u32::from(tries));
    take_back(racers, passes, fates, &mut told);
    Ok(Results { bad, told })
}

/// An empty list for each caller, with room for the answers to its tasks.
fn rooms_for(alloc: Global, tasks: &[Vec<Task>]) -> Result<Vec<Vec<Told>>, AllocError>
    ensures count { IfOk result (λ told. (vec_len told ≡ length tasks.now)
        × (vec_capacity told ≡ length tasks.now)) }
    ensures rooms { IfOk result (λ told. (n : ℕ) (of_caller : _) (room : _) → n < length tasks.now
        → HasRoomForAnswers (slice_index_or tasks.now n of_caller).items (slice_index_or told.items
        n room).items (vec_capacity (slice_index_or told.items n room))) }
{
    let mut told = Vec::with_capacity(alloc, tasks.len())?;
    for of_caller in tasks {
        told.push_reserved(Vec::with_capacity(alloc, of_caller.len())?);
    }
    Ok(told)
}

/// Writes the answers to the bad lines, then those of each caller, and then the settled history of each key. After an `Err` the sink has a front
/// of all this.
fn write_race<K: Sink>(
    alloc: Global,
    results: &Results,
    book: &Record,
    sink: &mut K,
) -> Result<(), HistoryFault>
    requires { vec_len results.now.told ≤ 17 }
    ensures all { OnOk result
        (WroteText (IsRaceText results.now.bad.items (map vec_items results.now.told.items)
        (reverse book.now.marks)) (K.contents sink.old) (K.contents sink.new)) }
    ensures front { OnErr result
        (WroteFrontOf (IsRaceText results.now.bad.items (map vec_items results.now.told.items)
        (reverse book.now.marks)) (K.contents sink.old) (K.contents sink.new)) }
    ensures never_falls { K.faults_of sink.old ≤ K.faults_of sink.new }
    ensures write_fault { IsErrOf result HistoryFault.WriteFault
        → Rose (K.faults_of sink.old) (K.faults_of sink.new) }
{
    write_answers(alloc, results, sink)?;
    write_histories(alloc, book, sink)
}

/// Writes the answers to the bad lines, and then those of each caller. After an `Err` the sink has a front of them.
fn write_answers<K: Sink>(
    alloc: Global,
    results: &Results,
    sink: &mut K,
) -> Result<(), HistoryFault>
    requires { vec_len results.now.told ≤ 17 }
    ensures all { OnOk result (Appends (K.contents sink.old) (K.contents sink.new)
        (results.now.bad.items ++ told_lines 0 (map vec_items results.now.told.items))) }
    ensures front { OnErr result (WroteFrontOf (λ text. text ≡ results.now.bad.items ++ told_lines 0
        (map vec_items results.now.told.items)) (K.contents sink.old) (K.contents sink.new)) }
    ensures never_falls { K.faults_of sink.old ≤ K.faults_of sink.new }
    ensures write_fault { IsErrOf result HistoryFault.WriteFault
        → Rose (K.faults_of sink.old) (K.faults_of sink.new) }
{
    put_all(sink, &results.bad)?;
    for (caller, told) in results.told.iter().enumerate() {
        let text = print_told(alloc, caller as u8, told)?;
        put_all(sink, &text)?;
    }
    Ok(())
}
