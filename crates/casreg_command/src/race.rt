//! A race over the store: how it ends.

ghost use Rattle.std.specs.Prelude.{◌≡◌, ◌≢◌, ◌≤◌, ◌+◌, [], map, vec_len, vec_capacity, All, IfSome};
ghost use Rattle.std.specs.Io.KnownBytes.{IsAtEnd};
ghost use Rattle.cas_model.specs.Exchanges.Tellings.{AreWritable};
ghost use Rattle.cas_base.specs.Faults.{Rose};
ghost use Rattle.cas_lines.specs.Lines.{Ending, ending_of};
ghost use Rattle.cas_turn.specs.Sitting.{fresh_seats};
ghost use Rattle.cas_board_steps.specs.Calls.Open.{NothingIsOpen};
ghost use Rattle.cas_board.specs.Passes.{IsPassOf};
ghost use Rattle.cas_store.specs.Rack.{rack_meaning};
ghost use Rattle.casreg_command.specs.Causes.{RacedOver, RacedTo, status_of};
ghost use Rattle.casreg_command.specs.Words.{AreOptionsInRange};

use crate::marks::end_with_marks;
use crate::status::Status;
use crate::words::Options;
use cas_board::{Board, Closed, Pass};
use cas_disk::Disk;
use cas_fate::Fate;
use cas_lines::sink::Sink;
use cas_lines::source::Source;
use cas_store::Rack;
use casreg_race::race_on;
use std::alloc::Global;
use std::sync::Wait;
use std::thread::Threads;

/// Runs a race on a board on which nothing has happened, whose passes these are, and takes the board apart then. The record is
/// written behind all else where that is asked for. The fates come back in their places.
pub(crate) fn race_board<
    R: Threads + Wait + Sync,
    S: Source,
    K: Sink,
    D: Disk + Send + Drop,
    F: Fate + Send,
>(
    rt: &R,
    alloc: Global,
    options: Options,
    source: &mut S,
    sink: &mut K,
    board: Board<D>,
    passes: Vec<Pass<D>>,
    fates: &mut Vec<F>,
) -> (Status, Rack<D>)
    requires range { AreOptionsInRange options }
    requires seats { board.seats ≡ options.proposers + 1 }
    requires passes { passes.items ≡ fresh_seats board.id (options.proposers + 1) [] }
    requires idle { All (λ pass. IsPassOf board pass × NothingIsOpen pass.own) passes.items }
    requires room { vec_capacity passes ≡ options.proposers + 1 }
    requires fates { vec_len fates.old ≡ 17 }
    ensures raced { RacedOver (rack_meaning D.Disk) options
        (S.remaining source.old) (K.contents sink.old) (K.contents sink.new)
        (map F.harm_count fates.old.items) (map F.harm_count fates.new.items) result.0 result.1 }
    ensures usage { result.0 ≢ Status.Usage }
    ensures read_fault { result.0 ≡ Status.ReadFault
        → Rose (S.faults_of source.old) (S.faults_of source.new) }
    ensures write_fault { result.0 ≡ Status.WriteFault
        → Rose (K.faults_of sink.old) (K.faults_of sink.new) }
    ensures ends { (ending : Ending) → result.0 ≡ status_of ending
        → IfSome (S.remaining source.old) (λ input. ending_of input ≡ ending) }
    ensures read { result.0 ≡ Status.Ok → IsAtEnd (S.remaining source.new) }
    ensures all_acceptors { vec_len result.1.acceptors ≡ 64 }
    ensures all_vaults { vec_len result.1.vaults ≡ 17 }
    ensures all_fates { vec_len fates.new ≡ 17 }
{
    let (ended, closed) = race_lines(rt, alloc, options, source, sink, board, passes, fates);
    let Closed { book, rack } = closed;
    (
        end_with_marks(alloc, options.marks, ended, &book, sink),
        rack,
    )
}

/// Runs a race on a board on which nothing has happened, whose passes these are, and takes the board apart then. The fates come back in their
/// places.
fn race_lines<R: Threads + Wait + Sync, S: Source, K: Sink, D: Disk + Send + Drop, F: Fate + Send>(
    rt: &R,
    alloc: Global,
    options: Options,
    source: &mut S,
    sink: &mut K,
    board: Board<D>,
    passes: Vec<Pass<D>>,
    fates: &mut Vec<F>,
) -> (Status, Closed<D>)
    requires range { AreOptionsInRange options }
    requires seats { board.seats ≡ options.proposers + 1 }
    requires passes { passes.items ≡ fresh_seats board.id (options.proposers + 1) [] }
    requires idle { All (λ pass. IsPassOf board pass × NothingIsOpen pass.own) passes.items }
    requires room { vec_capacity passes ≡ options.proposers + 1 }
    requires fates { vec_len fates.old ≡ 17 }
    ensures writable { AreWritable result.1.book.marks }
    ensures raced { RacedTo (rack_meaning D.Disk) options
        (S.remaining source.old) (K.contents sink.old) (K.contents sink.new)
        (map F.harm_count fates.old.items) (map F.harm_count fates.new.items)
        result.1.book.marks result.0 result.1.rack }
    ensures usage { result.0 ≢ Status.Usage }
    ensures read_fault { result.0 ≡ Status.ReadFault
        → Rose (S.faults_of source.old) (S.faults_of source.new) }
    ensures never_falls { K.faults_of sink.old ≤ K.faults_of sink.new }
    ensures write_fault { result.0 ≡ Status.WriteFault
        → Rose (K.faults_of sink.old) (K.faults_of sink.new) }
    ensures ends { (ending : Ending) → result.0 ≡ status_of ending
        → IfSome (S.remaining source.old) (λ input. ending_of input ≡ ending) }
    ensures read { result.0 ≡ Status.Ok → IsAtEnd (S.remaining source.new) }
    ensures all_acceptors { vec_len result.1.rack.acceptors ≡ 64 }
    ensures all_vaults { vec_len result.1.rack.vaults ≡ 17 }
    ensures all_fates { vec_len fates.new ≡ 17 }
{
    let Options {
        proposers,
        tries,
        ..
    } = options;
    let (raced, closed) = race_on(
        rt, alloc, proposers, tries, source, sink, board, passes, fates,
    );
    match raced {
        Ok(()) => (Status::Ok, closed),
        Err(fault) => (Status::from(fault), closed),
    }
}
