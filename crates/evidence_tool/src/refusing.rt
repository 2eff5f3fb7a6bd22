// A journal that is not opened: the status says why, and for a bad entry a line says which and what is wrong there.
ghost use Rattle.std.specs.Prelude.{◌≤◌};
ghost use Rattle.archive_store.specs.Opening.{IsOpenFault};
ghost use Rattle.evidence_tool.specs.Inside.{Spoils, IsReported, IsSaid};

use crate::journal_line::journal_line;
use crate::output::write_all;
use crate::status::Status;
use archive_store::StoreFault;
use ev_world::Sink;
use std::alloc::Global;

/// The status of a run whose journal was not opened, with the line of a bad entry written.
pub fn refuse<K: Sink>(alloc: Global, fault: &StoreFault, output: &mut K) -> Status
    requires { IsOpenFault fault.now }
    ensures refused { IsReported K.taken K.faults fault.now output.old output.new result }
    ensures later { K.faults output.old ≤ K.faults output.new }
{
    match fault {
        StoreFault::DiskFault => Status::DiskFault,
        StoreFault::NotFormatted => Status::NoJournal,
        StoreFault::Memory => Status::NoMemory,
        spoilt => say(alloc, spoilt, output),
    }
}

// Writes the line of a fault.
fn say<K: Sink>(alloc: Global, fault: &StoreFault, output: &mut K) -> Status
    requires { Spoils fault.now }
    ensures said { IsSaid K.taken K.faults fault.now output.old output.new result }
    ensures later { K.faults output.old ≤ K.faults output.new }
{
    let Ok(line) = journal_line(alloc, fault) else {
        return Status::NoMemory;
    };
    match write_all(output, &line) {
        Ok(()) => Status::Damaged,
        Err(_) => Status::WriteFault,
    }
}
