//! The record behind all other output.

ghost use Rattle.std.specs.Prelude.{◌≡◌, ◌≤◌, ◌↔◌, IsTrue};
ghost use Rattle.cas_base.specs.Faults.{Rose};
ghost use Rattle.cas_model.specs.Exchanges.Tellings.{AreWritable};
ghost use Rattle.casreg_command.specs.Records.{EndsBehindMarks, IsComplete};

use crate::status::Status;
use cas_lines::sink::Sink;
use cas_record::Record;
use casreg_marks::write_marks;
use std::alloc::Global;

/// Writes the record of a run that had ended so, where it is asked for and all that stands before it was written, and gives the status with
/// which the run ends then. The record is one of a store: a text can have all of its marks.
pub(crate) fn end_with_marks<K: Sink>(
    alloc: Global,
    asked: bool,
    ended: Status,
    record: &Record,
    sink: &mut K,
) -> Status
    requires writable { AreWritable «record».now.marks }
    ensures ends { EndsBehindMarks asked «record».now.marks ended
        (K.contents sink.old) (K.contents sink.new) result }
    ensures never_falls { K.faults_of sink.old ≤ K.faults_of sink.new }
    ensures write_fault { result ≡ Status.WriteFault → (ended ≡ Status.WriteFault → ⊥)
        → Rose (K.faults_of sink.old) (K.faults_of sink.new) }
{
    if !asked || !is_complete(ended) {
        return ended;
    }
    match write_marks(alloc, record.marks(), sink) {
        Ok(()) => ended,
        Err(fault) => Status::from(fault),
    }
}

/// Whether a run that ended so wrote all that stands before its record.
fn is_complete(ended: Status) -> bool
    ensures { IsTrue result ↔ IsComplete ended }
{
    !matches!(ended, Status::WriteFault | Status::NoMemory)
}
