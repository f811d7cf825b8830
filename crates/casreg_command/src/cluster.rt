//! The top call: a command over the store, from the bytes in to the bytes out.

ghost use Rattle.std.specs.Prelude.{◌≡◌, ◌≢◌, ◌≤◌, ⊤, List, ℕ, map, string_bytes, Option, vec_len, OnOk, IfErr, IfSome, IsErrOf};
ghost use Rattle.std.specs.Io.KnownBytes.{IsAtEnd};
ghost use Rattle.cas_base.specs.Faults.{Rose};
ghost use Rattle.cas_lines.specs.Lines.{Ending, Whole, ending_of, FailsBehind};
ghost use Rattle.cas_model.specs.Exchanges.Tellings.{AreWritable};
ghost use Rattle.cas_model.specs.Council.{IsAtRest};
ghost use Rattle.cas_model.specs.View.{meaning};
ghost use Rattle.cas_store.specs.Rack.{rack_meaning};
ghost use Rattle.casreg_script.specs.Script.{State, IsInState};
ghost use Rattle.casreg_script.specs.Stage.{AllIdle};
ghost use Rattle.casreg_command.specs.Causes.{EndsIn, LoadEnds, RanCommand, RanLeaving, RanOver, ReadsLines, Wrote, status_of};
ghost use Rattle.casreg_command.specs.Words.{AreWords, AreOptionsInRange, IsInRange, IsLoadInRange};
ghost use Rattle.casreg_command.specs.declared.words.LoadOptions.{LoadOptions as ALoadOptions};
ghost use Rattle.casreg_command.specs.declared.words.Options.{Options as ScriptOptions};
ghost use Rattle.casreg_command.specs.declared.words.Request.{Request as ARequest};

use crate::audit::audit_input;
use crate::load::load_store;
use crate::marks::end_with_marks;
use crate::race::race_board;
use crate::status::Status;
use crate::words::{LoadOptions, Options, Request, read_words};
use cas_board::Board;
use cas_disk::Disk;
use cas_disk_shelf::DiskShelf;
use cas_fate::Fate;
use cas_lines::lines::Lines;
use cas_lines::sink::{Sink, put_all};
use cas_lines::source::Source;
use cas_record::Record;
use cas_reopen::{first_members, open_rack};
use cas_slot::Shelf;
use cas_store::{Rack, Store};
use cas_world::Config;
use casreg_script::{Load, Script};
use std::alloc::{AllocError, Global};
use std::sync::Wait;
use std::thread::Threads;

/// Runs the command that the words name.
///
/// - A script runs over the source's lines. It writes the answer to each line before it reads on.
/// - A race reads all lines before it runs any. It runs each caller's lines in a thread of its own, with the fate at the place of its
///   number. It writes once all have ended: the answers to bad lines in line order; then each caller's answers, callers in rising order;
///   then the settled history of each key that has one, keys in byte order.
/// - A load reads nothing. It runs lines that it draws, and writes the summary of their answers.
/// - An audit reads a record, and writes one line that says whether it is legal. It leaves all disks alone.
///
/// With `--marks yes` a script, a race or a load writes its record behind all else, a line a mark, unless a write or memory failed before.
/// The rack has 64 disks of acceptors and 17 of vaults. It comes back with the same disks in their places, and so do the 17 fates.
///
/// The words are read by clap: `audit`, or `script`, `race` or `load` with these options.
///
/// - `--acceptors`: 1 to 9, or 3 if it is not given; `--proposers`: 1 to 16, or 1; `--tries`: 1 to 64, or 1.
/// - `--marks`: `yes` or `no`, or `no`.
/// - `--seed` of `load`: any `u64`, or 1; `--lines` of it: up to 100,000, or 1,000.
///
/// Then all disks are asked for their lengths in the order of their numbers. If all are empty, the members' and the proposers' disks are
/// started in that order. Otherwise a script and a load go on from what stands on the members' disks, as [`open_rack`] says, and a race ends.
/// A line of a script asks for a change or for an event, or is a remark, which has no answer. Any other line is answered as bad, with the
/// reason. In a race an event's line is bad. The statuses say how the run ended:
///
/// - [`Status::LostDisk`], [`Status::Foreign`], [`Status::TooManyKeys`] and [`Status::Spent`] tell why a script's or a load's store was not
///   opened.
/// - [`Status::NotEmpty`] comes only of a race with a disk that was not empty, if disks tell what they keep.
/// - [`Status::DiskFault`] comes only of a disk whose count of faults rose.
pub fn cluster<R: Threads + Wait + Sync, S: Source, K: Sink, D: Disk + Send + Drop, F: Fate + Send>(
    rt: &R,
    alloc: Global,
    words: &[String],
    source: &mut S,
    sink: &mut K,
    rack: Rack<D>,
    fates: &mut Vec<F>,
) -> (Status, Rack<D>)
    requires acceptors { vec_len rack.acceptors ≡ 64 }
    requires vaults { vec_len rack.vaults ≡ 17 }
    requires fates { vec_len fates.old ≡ 17 }
    // What was written, command by command. A script and a load ran in a store that was opened over the rack: a new one if all disks were
    // empty, and else one that goes on from what stood on the members' disks. What is said of records and of disks that come back holds if
    // disks tell what they keep.
    // - Script: the transcript of a script run over the lines of the input. The record of that run is legal. Along it each change line that
    //   nothing stood against was answered done, or that there was no memory, if the members and its proposer were up after it. What each
    //   read was answered is so. The rack that comes back holds the disks of its last world. If the source failed, the lines are all that
    //   had ended by then, and no others.
    // - Load: the summary of the answers of the load run over the lines that its seed draws. The record of that run is legal. The rack that
    //   comes back holds the disks of its last world.
    // - Race: the text of a legal record. In it each caller's own marks are those of what its lines ask for, in their order, with the
    //   answers that are written. They tell of no more losses than its fate counted harms. No clause names its world.
    // - Audit: the line that says what is found in the lines of the input. No disk was touched.
    // With `--marks yes` the text of the record stands behind that of a script or a race whose answers were all written, and of a load
    // whose summary was.
    ensures ran { RanCommand (meaning ⟦<DiskShelf<D> as Shelf>⟧ D.Disk) (rack_meaning D.Disk)
        (map string_bytes words.now) (record {
          input = S.remaining source.old;
          written = K.contents
              sink.old;
          source_faults = S.faults_of source.old;
          sink_faults = K.faults_of sink.old;
          harms = map F.harm_count fates.old.items;
          rack = rack;
        }) (record {
          status = result.0;
          HadEnded = FailsBehind S.take_gives source.old source.new;
          written = K.contents sink.new;
          source_faults = S.faults_of source.new;
          sink_faults = K.faults_of sink.new;
          harms = map F.harm_count fates.new.items;
          rack = result.1;
        }) }
    ensures read { (asked : ARequest)
        → ReadsLines asked → AreWords (map string_bytes words.now) asked
        → result.0 ≡ Status.Ok → IsAtEnd (S.remaining source.new) }
    ensures unread { (options : ALoadOptions)
        → AreWords (map string_bytes words.now) (Request.Load options) → source.new ≡ source.old }
    ensures unraced { ((options : ScriptOptions) → AreWords (map string_bytes words.now)
        (Request.Race options) → ⊥) → fates.new ≡ fates.old }
    ensures untouched { result.0 ≡ Status.Usage
        → (source.new ≡ source.old) × (sink.new ≡ sink.old) × (result.1 ≡ rack) }
    ensures all_disks { (vec_len result.1.acceptors ≡ 64) × (vec_len result.1.vaults ≡ 17) }
    ensures all_fates { vec_len fates.new ≡ 17 }
{
    match read_words(alloc, words) {
        Ok(Some(request)) => run(rt, alloc, request, source, sink, rack, fates),
        Ok(None) => (Status::Usage, rack),
        Err(AllocError) => (Status::NoMemory, rack),
    }
}

/// Runs what was asked for over the rack.
fn run<R: Threads + Wait + Sync, S: Source, K: Sink, D: Disk + Send + Drop, F: Fate + Send>(
    rt: &R,
    alloc: Global,
    request: Request,
    source: &mut S,
    sink: &mut K,
    rack: Rack<D>,
    fates: &mut Vec<F>,
) -> (Status, Rack<D>)
    requires acceptors { vec_len rack.acceptors ≡ 64 }
    requires vaults { vec_len rack.vaults ≡ 17 }
    requires fates { vec_len fates.old ≡ 17 }
    requires range { IsInRange request }
    ensures wrote { Wrote
        (meaning ⟦<DiskShelf<D> as Shelf>⟧ D.Disk) (rack_meaning D.Disk) request
        (record {
          input = S.remaining source.old;
          written = K.contents sink.old;
          source_faults = S.faults_of source.old;
          sink_faults = K.faults_of sink.old;
          harms = map F.harm_count fates.old.items;
          rack = rack;
        })
        (record {
          status = result.0;
          HadEnded = FailsBehind S.take_gives source.old source.new;
          written = K.contents sink.new;
          source_faults = S.faults_of source.new;
          sink_faults = K.faults_of sink.new;
          harms = map F.harm_count fates.new.items;
          rack = result.1;
        }) }
    ensures usage { result.0 ≢ Status.Usage }
    ensures read_fault { result.0 ≡ Status.ReadFault
        → Rose (S.faults_of source.old) (S.faults_of source.new) }
    ensures write_fault { result.0 ≡ Status.WriteFault
        → Rose (K.faults_of sink.old) (K.faults_of sink.new) }
    ensures ends { ReadsLines request → (ending : Ending) → result.0 ≡ status_of ending
        → IfSome (S.remaining source.old) (λ input. ending_of input ≡ ending) }
    ensures read { ReadsLines request → result.0 ≡ Status.Ok → IsAtEnd (S.remaining source.new) }
    ensures unraced { ((options : ScriptOptions) → request ≡ Request.Race options → ⊥)
        → fates.new ≡ fates.old }
    ensures loads { (options : ALoadOptions)
        → request ≡ Request.Load options → (source.new ≡ source.old) × LoadEnds result.0 }
    ensures all_acceptors { vec_len result.1.acceptors ≡ 64 }
    ensures all_vaults { vec_len result.1.vaults ≡ 17 }
    ensures all_fates { vec_len fates.new ≡ 17 }
{
    match request {
        Request::Script(options) => start_script(alloc, options, source, sink, rack),
        Request::Race(options) => start_race(rt, alloc, options, source, sink, rack, fates),
        Request::Load(options) => start_load(alloc, options, sink, rack),
        Request::Audit => (audit_input(alloc, source, sink), rack),
    }
}

/// How large a cluster is asked for.
fn config_of(options: Options) -> Config
    ensures acceptors { result.acceptors ≡ options.acceptors }
    ensures proposers { result.proposers ≡ options.proposers }
{
    Config {
        acceptors: options.acceptors,
        proposers: options.proposers,
    }
}

/// Opens a store over the rack, and runs the script in it.
fn start_script<S: Source, K: Sink, D: Disk + Drop>(
    alloc: Global,
    options: Options,
    source: &mut S,
    sink: &mut K,
    rack: Rack<D>,
) -> (Status, Rack<D>)
    requires acceptors { vec_len rack.acceptors ≡ 64 }
    requires vaults { vec_len rack.vaults ≡ 17 }
    requires range { AreOptionsInRange options }
    ensures wrote { (harms harms_then : List ℕ) → Wrote
        (meaning ⟦<DiskShelf<D> as Shelf>⟧ D.Disk) (rack_meaning D.Disk) (Request.Script options)
        (record {
          input = S.remaining source.old;
          written = K.contents sink.old;
          source_faults = S.faults_of source.old;
          sink_faults = K.faults_of sink.old;
          harms = harms;
          rack = rack;
        })
        (record {
          status = result.0;
          HadEnded = FailsBehind S.take_gives source.old source.new;
          written = K.contents sink.new;
          source_faults = S.faults_of source.new;
          sink_faults = K.faults_of sink.new;
          harms = harms_then;
          rack = result.1;
        }) }
    ensures usage { result.0 ≢ Status.Usage }
    ensures read_fault { result.0 ≡ Status.ReadFault
        → Rose (S.faults_of source.old) (S.faults_of source.new) }
    ensures write_fault { result.0 ≡ Status.WriteFault
        → Rose (K.faults_of sink.old) (K.faults_of sink.new) }
    ensures ends { (ending : Ending) → result.0 ≡ status_of ending
        → IfSome (S.remaining source.old) (λ input. ending_of input ≡ ending) }
    ensures read { result.0 ≡ Status.Ok → IsAtEnd (S.remaining source.new) }
    ensures all_acceptors { vec_len result.1.acceptors ≡ 64 }
    ensures all_vaults { vec_len result.1.vaults ≡ 17 }
{
    let members = first_members(options.acceptors);
    match open_rack(alloc, config_of(options), members, rack) {
        Ok(store) => run_script(alloc, options, source, sink, store),
        Err((fault, rack)) => (Status::from(fault), rack),
    }
}

/// Opens a store over the rack, and runs the load in it.
fn start_load<K: Sink, D: Disk + Drop>(
    alloc: Global,
    options: LoadOptions,
    sink: &mut K,
    rack: Rack<D>,
) -> (Status, Rack<D>)
    requires acceptors { vec_len rack.acceptors ≡ 64 }
    requires vaults { vec_len rack.vaults ≡ 17 }
    requires range { IsLoadInRange options.load }
    // It reads nothing, so no lines had ended.
    ensures wrote { (input : Option (List ℕ)) (faults : ℕ) (harms harms_then : List ℕ)
        → Wrote (meaning ⟦<DiskShelf<D> as Shelf>⟧ D.Disk) (rack_meaning D.Disk)
        (Request.Load options)
        (record {
          input = input;
          written = K.contents sink.old;
          source_faults = faults;
          sink_faults = K.faults_of sink.old;
          harms = harms;
          rack = rack;
        })
        (record {
          status = result.0;
          HadEnded = λ lines. ⊤;
          written = K.contents sink.new;
          source_faults = faults;
          sink_faults = K.faults_of sink.new;
          harms = harms_then;
          rack = result.1;
        }) }
    ensures usage { result.0 ≢ Status.Usage }
    ensures read_fault { result.0 ≢ Status.ReadFault }
    ensures write_fault { result.0 ≡ Status.WriteFault
        → Rose (K.faults_of sink.old) (K.faults_of sink.new) }
    ensures ends { LoadEnds result.0 }
    ensures all_acceptors { vec_len result.1.acceptors ≡ 64 }
    ensures all_vaults { vec_len result.1.vaults ≡ 17 }
{
    let LoadOptions { load, marks: _ } = options;
    let Load {
        members,
        proposers,
        ..
    } = load;
    let config = Config {
        acceptors: members.count() as u8,
        proposers,
    };
    match open_rack(alloc, config, members, rack) {
        Ok(store) => load_store(alloc, options, sink, store),
        Err((fault, rack)) => (Status::from(fault), rack),
    }
}

/// Runs the race over the rack, whose disks have to be empty.
fn start_race<R: Threads + Wait + Sync, S: Source, K: Sink, D: Disk + Send + Drop, F: Fate + Send>(
    rt: &R,
    alloc: Global,
    options: Options,
    source: &mut S,
    sink: &mut K,
    mut rack: Rack<D>,
    fates: &mut Vec<F>,
) -> (Status, Rack<D>)
    requires acceptors { vec_len rack.acceptors ≡ 64 }
    requires vaults { vec_len rack.vaults ≡ 17 }
    requires fates { vec_len fates.old ≡ 17 }
    requires range { AreOptionsInRange options }
    ensures wrote { Wrote (meaning ⟦<DiskShelf<D> as Shelf>⟧ D.Disk) (rack_meaning D.Disk)
        (Request.Race options)
        (record {
          input = S.remaining source.old;
          written = K.contents sink.old;
          source_faults = S.faults_of source.old;
          sink_faults = K.faults_of sink.old;
          harms = map F.harm_count fates.old.items;
          rack = rack;
        })
        (record {
          status = result.0;
          HadEnded = FailsBehind S.take_gives source.old source.new;
          written = K.contents sink.new;
          source_faults = S.faults_of source.new;
          sink_faults = K.faults_of sink.new;
          harms = map F.harm_count fates.new.items;
          rack = result.1;
        }) }
    ensures usage { result.0 ≢ Status.Usage }
    ensures read_fault { result.0 ≡ Status.ReadFault
        → Rose (S.faults_of source.old) (S.faults_of source.new) }
    ensures write_fault { result.0 ≡ Status.WriteFault
        → Rose (K.faults_of sink.old) (K.faults_of sink.new) }
    ensures ends { (ending : Ending) → result.0 ≡ status_of ending
        → IfSome (S.remaining source.old) (λ input. ending_of input ≡ ending) }
    ensures read { result.0 ≡ Status.Ok → IsAtEnd (S.remaining source.new) }
    ensures all_acceptors { vec_len result.1.acceptors ≡ 64 }
    ensures all_vaults { vec_len result.1.vaults ≡ 17 }
    ensures all_fates { vec_len fates.new ≡ 17 }
{
    if let Err(fault) = rack.expect_empty() {
        return (Status::from(fault), rack);
    }
    match Board::open(alloc, config_of(options), rack) {
        Ok((board, passes)) => {
            race_board(rt, alloc, options, source, sink, board, passes, fates)
        }
        Err((fault, rack)) => (Status::from(fault), rack),
    }
}

/// Runs the script in a store in which no call is open, and takes the store apart then. The record is
/// written behind the answers where that is asked for.
fn run_script<S: Source, K: Sink, D: Disk + Drop>(
    alloc: Global,
    options: Options,
    source: &mut S,
    sink: &mut K,
    store: Store<D>,
) -> (Status, Rack<D>)
    requires range { AreOptionsInRange options }
    requires known { store.world.last_proposer ≡ options.proposers }
    requires idle { AllIdle store.world }
    requires quiet { IsAtRest store.world.council }
    ensures ran { RanOver (meaning ⟦<DiskShelf<D> as Shelf>⟧ D.Disk) D.tells options
        (FailsBehind S.take_gives source.old source.new) (S.remaining source.old)
        (K.contents sink.old) (K.contents sink.new) store.world result.0 result.1 }
    ensures usage { result.0 ≢ Status.Usage }
    ensures read_fault { result.0 ≡ Status.ReadFault
        → Rose (S.faults_of source.old) (S.faults_of source.new) }
    ensures write_fault { result.0 ≡ Status.WriteFault
        → Rose (K.faults_of sink.old) (K.faults_of sink.new) }
    ensures ends { (ending : Ending) → result.0 ≡ status_of ending
        → IfSome (S.remaining source.old) (λ input. ending_of input ≡ ending) }
    ensures read { result.0 ≡ Status.Ok → IsAtEnd (S.remaining source.new) }
    ensures all_acceptors { vec_len result.1.acceptors ≡ 64 }
    ensures all_vaults { vec_len result.1.vaults ≡ 17 }
{
    let (ended, record, rack) = answer_script(alloc, options, source, sink, store);
    (
        end_with_marks(alloc, options.marks, ended, &record, sink),
        rack,
    )
}

/// Runs the script in a store in which no call is open, and takes the store apart then, into its record and its disks.
fn answer_script<S: Source, K: Sink, D: Disk + Drop>(
    alloc: Global,
    options: Options,
    source: &mut S,
    sink: &mut K,
    store: Store<D>,
) -> (Status, Record, Rack<D>)
    requires range { AreOptionsInRange options }
    requires known { store.world.last_proposer ≡ options.proposers }
    requires idle { AllIdle store.world }
    requires quiet { IsAtRest store.world.council }
    ensures writable { AreWritable result.1.marks }
    ensures ran { RanLeaving (meaning ⟦<DiskShelf<D> as Shelf>⟧ D.Disk) D.tells options.tries
        (FailsBehind S.take_gives source.old source.new) (S.remaining source.old)
        (K.contents sink.old) (K.contents sink.new) store.world result.1.marks result.0 result.2 }
    ensures usage { result.0 ≢ Status.Usage }
    ensures read_fault { result.0 ≡ Status.ReadFault
        → Rose (S.faults_of source.old) (S.faults_of source.new) }
    ensures never_falls { K.faults_of sink.old ≤ K.faults_of sink.new }
    ensures write_fault { result.0 ≡ Status.WriteFault
        → Rose (K.faults_of sink.old) (K.faults_of sink.new) }
    ensures ends { (ending : Ending) → result.0 ≡ status_of ending
        → IfSome (S.remaining source.old) (λ input. ending_of input ≡ ending) }
    ensures read { result.0 ≡ Status.Ok → IsAtEnd (S.remaining source.new) }
    ensures all_acceptors { vec_len result.2.acceptors ≡ 64 }
    ensures all_vaults { vec_len result.2.vaults ≡ 17 }
{
    let Store { world, room } = store;
    let mut script = Script::new(world, options.proposers, options.tries);
    let answered = answer_lines(alloc, &mut script, source, sink);
    let store = Store {
        world: script.into_world(),
        room,
    };
    let (record, rack) = store.close();
    match answered {
        Ok(()) => (Status::Ok, record, rack),
        Err(status) => (status, record, rack),
    }
}

/// Answers each line of the source before it reads the next one. An `Err` has the status of the run.
fn answer_lines<S: Source, K: Sink, H: Shelf, D: Disk>(
    alloc: Global,
    script: &mut Script<H, D>,
    source: &mut S,
    sink: &mut K,
) -> Result<(), Status>
    requires state { (first : State _ _) × IsInState script.old first }
    ensures all { (first : State _ _)
        → IsInState script.old first → OnOk result (EndsIn (meaning H.Shelf D.Disk) script.old.tries
        (FailsBehind S.take_gives source.old source.new) (S.remaining source.old)
        (K.contents sink.old) (K.contents sink.new) first script.new Status.Ok) }
    ensures wrote { (first : State _ _) → IsInState script.old first
        → IfErr result (λ status. EndsIn (meaning H.Shelf D.Disk) script.old.tries
        (FailsBehind S.take_gives source.old source.new) (S.remaining source.old)
        (K.contents sink.old) (K.contents sink.new) first script.new status) }
    ensures read { OnOk result (IsAtEnd (S.remaining source.new)) }
    ensures whole { OnOk result
        (IfSome (S.remaining source.old) (λ input. ending_of input ≡ Whole)) }
    ensures fails { IfErr result (λ status. (status ≢ Status.Ok) × (status ≢ Status.Usage)) }
    ensures read_fault { IsErrOf result Status.ReadFault
        → Rose (S.faults_of source.old) (S.faults_of source.new) }
    ensures never_falls { K.faults_of sink.old ≤ K.faults_of sink.new }
    ensures write_fault { IsErrOf result Status.WriteFault
        → Rose (K.faults_of sink.old) (K.faults_of sink.new) }
    ensures ends { (ending : Ending) → IsErrOf result (status_of ending)
        → IfSome (S.remaining source.old) (λ input. ending_of input ≡ ending) }
{
    let mut lines = Lines::new(alloc);
    while let Some(line) = lines.next(source)? {
        let text = script.answer(alloc, &line)?;
        put_all(sink, &text)?;
    }
    Ok(())
}
