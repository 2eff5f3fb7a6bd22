// The command `create`.
ghost use Rattle.evidence_tool.specs.Status.{code_of};
ghost use Rattle.evidence_tool.specs.Top.{IsCreated};

use crate::status::Status;
use archive_store::StoreFault;
use ev_world::Disk;

/// Makes an empty journal on a disk: the status, and the disk.
pub fn create<J: Disk>(journal: J) -> (Status, J)
    ensures { IsCreated J.tells J.reads J.images J.clock J.since J.faults journal (code_of result.0) result.1 }
{
    let (journal, answer) = archive_store::create(journal);
    let status = match answer {
        Ok(()) => Status::Done,
        Err(StoreFault::Occupied) => Status::NoJournal,
        Err(_) => Status::DiskFault,
    };
    (status, journal)
}
