//! An audit of the record that the input spells: how it ends.

ghost use Rattle.std.specs.Prelude.{◌≡◌, IfSome};
ghost use Rattle.std.specs.Io.KnownBytes.{IsAtEnd};
ghost use Rattle.cas_base.specs.Faults.{Rose};
ghost use Rattle.cas_lines.specs.Lines.{Ending, ending_of};
ghost use Rattle.casreg_command.specs.Causes.{status_of};
ghost use Rattle.casreg_command.specs.Records.{WroteFinding};

use crate::status::Status;
use cas_audit::audit_text;
use cas_lines::sink::Sink;
use cas_lines::source::Source;
use std::alloc::Global;

/// Audits the record that the source's lines spell, and writes one line that says what was found.
pub(crate) fn audit_input<S: Source, K: Sink>(alloc: Global, source: &mut S, sink: &mut K) -> Status
    ensures wrote { WroteFinding (S.remaining source.old)
        (K.contents sink.old) (K.contents sink.new) result }
    ensures read_fault { result ≡ Status.ReadFault
        → Rose (S.faults_of source.old) (S.faults_of source.new) }
    ensures write_fault { result ≡ Status.WriteFault
        → Rose (K.faults_of sink.old) (K.faults_of sink.new) }
    ensures ends { (ending : Ending) → result ≡ status_of ending
        → IfSome (S.remaining source.old) (λ input. ending_of input ≡ ending) }
    ensures read { result ≡ Status.Ok → IsAtEnd (S.remaining source.new) }
{
    match audit_text(alloc, source, sink) {
        Ok(_finding) => Status::Ok,
        Err(fault) => Status::from(fault),
    }
}
