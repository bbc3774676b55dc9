// Dumping a base.
ghost use Rattle.std.specs.Prelude.{◌≡◌, false};
ghost use Rattle.sea_faults.specs.Counts.{IsCaused};
ghost use Rattle.sea_core.specs.Stands.{StandsFor};
ghost use Rattle.sea_core.specs.State.{known};
ghost use Rattle.sea_operation.specs.declared.base.Plain.{Plain};
ghost use Rattle.sea_drive.specs.Dumps.{Dumps, dump_status as dump_status_of};
ghost use Rattle.sea_drive.specs.Play.{CountsDisk, is_source_fault, is_sink_fault};

use crate::player::start_status;
use crate::status::Status;
use sea_core::{Core, Limits};
use sea_disk::Disk;
use sea_dump::{DumpFault, write_base};
use sea_edge::Sink;
use std::alloc::Global;

/// Writes the base that a disk's files stand for: a line for each table, then one for each of its rows. It leaves the
/// files standing for what they stood for, and the disk comes back beside the status.
pub fn dump<K: Sink, D: Disk>(alloc: Global, limits: Limits, sink: &mut K, disk: D) -> (Status, D)
    ensures ends { Dumps result.0 (known D.told D.shows D.faults D.failed) limits disk result.1 (K.taken sink.old) (K.taken sink.new) }
    ensures source { is_source_fault result.0 ≡ false }
    ensures sink { IsCaused (is_sink_fault result.0) (K.faults sink.old) (K.faults sink.new) }
    ensures disk { CountsDisk result.0 (D.faults disk) (D.faults result.1) }
    // Only files that stand for no base are no base.
    ensures no_base { D.told → result.0 ≡ Status.NotABase → (base : Plain) → ¬ StandsFor base (D.shows disk).seen }
{
    match Core::start(alloc, disk, limits) {
        Ok(core) => {
            let written = write_base(alloc, sink, core.content());
            (dump_status(written), core.finish())
        }
        Err((fault, disk)) => (start_status(fault), disk),
    }
}

// The status of a dump.
fn dump_status(written: Result<(), DumpFault>) -> Status
    ensures { result ≡ dump_status_of written }
{
    match written {
        Ok(()) => Status::Done,
        Err(DumpFault::Memory) => Status::Memory,
        Err(DumpFault::Sink) => Status::SinkFault,
    }
}
