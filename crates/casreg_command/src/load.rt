//! A load over the store: from its options to the line that sums it up, and the record behind that.

ghost use Rattle.std.specs.Prelude.{◌≡◌, ◌≢◌, ◌≤◌, vec_len, OnOk, IfErr, IsErrOf};
ghost use Rattle.cas_base.specs.Faults.{Rose};
ghost use Rattle.cas_model.specs.Council.{IsAtRest};
ghost use Rattle.cas_model.specs.Exchanges.Tellings.{AreWritable};
ghost use Rattle.cas_model.specs.View.{meaning};
ghost use Rattle.casreg_script.specs.Load.{IsLoad};
ghost use Rattle.casreg_script.specs.Stage.{AllIdle};
ghost use Rattle.casreg_command.specs.Causes.{LoadedLeaving, LoadedOver, WroteSummary};

use crate::marks::end_with_marks;
use crate::status::Status;
use crate::words::LoadOptions;
use cas_disk::Disk;
use cas_disk_shelf::DiskShelf;
use cas_lines::sink::{Sink, put_all};
use cas_lines::summary::print_summary;
use cas_record::Record;
use cas_slot::Shelf;
use cas_store::{Rack, Store};
use cas_world::World;
use casreg_script::{Load, run_load};
use std::alloc::Global;

/// Runs the load in a store in which nothing has happened, and takes the store apart then. The record is written behind the
/// summary if that is asked for.
pub(crate) fn load_store<K: Sink, D: Disk + Drop>(
    alloc: Global,
    options: LoadOptions,
    sink: &mut K,
    store: Store<D>,
) -> (Status, Rack<D>)
    requires load { IsLoad options.load }
    requires known { store.world.last_proposer ≡ options.load.proposers }
    requires idle { AllIdle store.world }
    requires quiet { IsAtRest store.world.council }
    ensures loaded { LoadedOver (meaning ⟦<DiskShelf<D> as Shelf>⟧ D.Disk) D.tells options
        (K.contents sink.old) (K.contents sink.new) store.world result.0 result.1 }
    ensures usage { result.0 ≢ Status.Usage }
    ensures read_fault { result.0 ≢ Status.ReadFault }
    ensures write_fault { result.0 ≡ Status.WriteFault
        → Rose (K.faults_of sink.old) (K.faults_of sink.new) }
    ensures all_acceptors { vec_len result.1.acceptors ≡ 64 }
    ensures all_vaults { vec_len result.1.vaults ≡ 17 }
{
    let (ended, record, rack) = sum_up_load(alloc, options.load, sink, store);
    (
        end_with_marks(alloc, options.marks, ended, &record, sink),
        rack,
    )
}

/// Runs the load in a store in which nothing has happened, and takes the store apart then, into its record and its disks.
fn sum_up_load<K: Sink, D: Disk + Drop>(
    alloc: Global,
    load: Load,
    sink: &mut K,
    store: Store<D>,
) -> (Status, Record, Rack<D>)
    requires load { IsLoad load }
    requires known { store.world.last_proposer ≡ load.proposers }
    requires idle { AllIdle store.world }
    requires quiet { IsAtRest store.world.council }
    ensures writable { AreWritable result.1.marks }
    ensures loaded { LoadedLeaving (meaning ⟦<DiskShelf<D> as Shelf>⟧ D.Disk) D.tells load
        (K.contents sink.old) (K.contents sink.new) store.world result.1.marks
        result.0 result.2 }
    ensures never_falls { K.faults_of sink.old ≤ K.faults_of sink.new }
    ensures write_fault { result.0 ≡ Status.WriteFault
        → Rose (K.faults_of sink.old) (K.faults_of sink.new) }
    ensures all_acceptors { vec_len result.2.acceptors ≡ 64 }
    ensures all_vaults { vec_len result.2.vaults ≡ 17 }
{
    let Store { mut world, room } = store;
    let written = write_summary(alloc, &mut world, load, sink);
    let store = Store { world, room };
    let (record, rack) = store.close();
    match written {
        Ok(()) => (Status::Ok, record, rack),
        Err(status) => (status, record, rack),
    }
}

/// Runs the load, and writes the summary of its answers. An `Err` has the status of the run.
fn write_summary<K: Sink, H: Shelf, D: Disk>(
    alloc: Global,
    world: &mut World<H, D>,
    load: Load,
    sink: &mut K,
) -> Result<(), Status>
    requires load { IsLoad load }
    requires known { world.old.last_proposer ≡ load.proposers }
    requires idle { AllIdle world.old }
    requires quiet { IsAtRest world.old.council }
    ensures all { OnOk result (WroteSummary (meaning H.Shelf D.Disk) load
        (K.contents sink.old) (K.contents sink.new) world.old world.new Status.Ok) }
    ensures wrote { IfErr result (WroteSummary (meaning H.Shelf D.Disk) load
        (K.contents sink.old) (K.contents sink.new) world.old world.new) }
    ensures never_falls { K.faults_of sink.old ≤ K.faults_of sink.new }
    ensures write_fault { IsErrOf result Status.WriteFault
        → Rose (K.faults_of sink.old) (K.faults_of sink.new) }
{
    let summary = run_load(alloc, world, load)?;
    let text = print_summary(alloc, &summary)?;
    put_all(sink, &text)?;
    Ok(())
}
