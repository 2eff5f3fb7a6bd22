// Opening: the journal first, then the entries that its frames hold.
ghost use Rattle.std.specs.Prelude.{◌≡◌, IsTrue, IfOk, IfErr};
ghost use Rattle.ev_world.specs.Causes.{Rose};
ghost use Rattle.ev_world.specs.Disk.{OnlyReads};
ghost use Rattle.gate_journal.specs.Damage.{IsOpenFault as IsJournalFault};
ghost use Rattle.archive_store.specs.Opening.{IsOpened, IsUnopened, IsOpenFault};
ghost use Rattle.archive_store.specs.InsideFaults.{journal_fault};

use crate::laws::{
    bytes_are_refused_for_one_fault, bytes_read_one_history, what_is_read_is_not_refused,
};
use crate::replay::{Replayed, replay};
use crate::{Store, StoreFault};
use ev_world::Disk;
use gate_journal::{Journal, JournalFault};
use std::alloc::Global;
use std::snapshot::Snapshot;

impl<D: Disk> Store<D> {
    /// Opens a store: it tells the entries that are on the disk, and no mark. Else the disk comes back with NotFormatted, BadLength or
    /// Damaged, where the bytes are no journal, BadEntry or Illegal, at the first payload that is no entry or breaks a rule after those
    /// before it, DiskFault or Memory. It writes nothing.
    pub fn open(alloc: Global, disk: D) -> Result<Store<D>, (D, StoreFault)>
        ensures opened { IfOk result (λ store. IsOpened D.tells D.reads D.faults disk store) }
        ensures only_reads { IfOk result (λ store. OnlyReads D.tells D.reads D.images D.clock D.since D.faults disk store.disk) }

        ensures answers { IfErr result (λ e. IsOpenFault e.1) }
        // Each refusal has its own cause in the bytes, and those of a store are never refused.
        ensures unopened { IfErr result (λ e. IsTrue D.tells → IsUnopened (D.reads disk) e.1) }
        ensures failed { IfErr result (λ e. e.1 ≡ StoreFault.DiskFault → Rose (D.faults disk) (D.faults e.0)) }
        ensures err_only_reads { IfErr result (λ e. OnlyReads D.tells D.reads D.images D.clock D.since D.faults disk e.0) }
    {
        bytes_read_one_history();
        what_is_read_is_not_refused();
        bytes_are_refused_for_one_fault();
        let mut journal = match Journal::open(alloc, disk) {
            Ok(journal) => journal,
            Err((disk, fault)) => return Err((disk, of_journal(fault))),
        };
        match replay(alloc, &mut journal) {
            Ok(Replayed { archive, catalogue }) => {
                journal.every_crash_leaves_its_frames();
                // There are fewer than 2^32.
                let _ = journal.frames();
                let opened = Snapshot::of(&journal);
                Ok(Store {
                    alloc,
                    journal,
                    archive,
                    catalogue,
                    here: 0,
                    failed: None,
                    opened,
                })
            }
            Err(fault) => Err((journal.close(), fault)),
        }
    }
}

// Why a journal can't be opened, as an answer of the store.
fn of_journal(fault: JournalFault) -> StoreFault
    requires { IsJournalFault fault }
    ensures { result ≡ journal_fault fault }
{
    match fault {
        JournalFault::NotFormatted => StoreFault::NotFormatted,
        JournalFault::BadLength { entry, length } => StoreFault::BadLength { entry, length },
        JournalFault::Damaged { entry, kept, found } => StoreFault::Damaged { entry, kept, found },
        JournalFault::DiskFault => StoreFault::DiskFault,
        JournalFault::Memory => StoreFault::Memory,
        JournalFault::Occupied | JournalFault::Full(_) | JournalFault::Broken(_) => unreachable!(),
    }
}
