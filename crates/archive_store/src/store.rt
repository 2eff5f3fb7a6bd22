// A store that was opened, and its states:
//
//     open       after `open`; a `step` that answers Ok, Refused or Memory leaves it so
//     closed     after a `step` that answered DiskFault; each later one that breaks no rule answers Closed
//
// A closed store has the entries of before, and documents can be fetched. Whether the failed step is on the disk shows when it is opened
// again. A fetch that the disk fails leaves the store as it is, but for its mark.
ghost use Rattle.std.specs.Prelude.{◌≡◌, ℕ, List, IsTrue};
ghost use Rattle.archive_store.specs.Told.{entries_of, is_closed};
ghost use Rattle.archive_store.specs.Images.{Leaves};
ghost use Rattle.archive_store.specs.Store.{IsStore};

use crate::catalogue::Catalogue;
use archive_chain::Archive;
use ev_world::Disk;
use gate_journal::Journal;
use std::alloc::Global;
use std::marker::Model;
use std::snapshot::Snapshot;

/// An archive on a disk that nobody else writes. Contracts see the disk, the archive in memory and what the store tells: its entries, and
/// a mark for each call that the disk failed.
#[derive(Drop)]
pub struct Store<D: Disk> {
    pub(crate) alloc: Global,
    pub(crate) journal: Journal<D>,
    pub(crate) archive: Archive,
    pub(crate) catalogue: Catalogue,
    // reads that failed since the last entry, and before a step that failed
    pub(crate) here: u32,
    // whether a step failed, and how many reads since
    pub(crate) failed: Option<u32>,
    // the journal as it was at the end of the opening, for clauses alone
    pub(crate) opened: Snapshot<Journal<D>>,
}

impl<D: Disk> Model for Store<D> {
    ghost use Rattle.archive_store.specs.Store.{Telling};

    ghost Value = { Telling D };

    ghost use Rattle.archive_store.specs.Rows.{told_of};
    ghost use Rattle.archive_store.specs.InsideStore.{IsInside};

    ghost view = { λ s. record {
      disk = s.journal.disk;
      base = D.faults s.opened.value.disk;
      told = told_of D.tells s.catalogue.rows s.journal.payloads s.here s.failed;
      archive = s.archive;
    } };

    ghost invariant = { λ s. IsInside D.tells (D.images s.journal.disk) (D.faults s.journal.disk) (D.faults s.opened.value.disk) s.archive
        s.journal.lengths s.journal.payloads s.journal.broken s.catalogue.rows s.here s.failed };
}

impl<D: Disk> Store<D> {
    /// The archive in memory, and with it what every store keeps.
    pub fn archive(&self) -> &Archive
        ensures archive { result.now ≡ self.now.archive }
        ensures facts { IsStore D.tells (D.images self.now.disk) (D.faults self.now.disk) self.now.base self.now.told self.now.archive }
    {
        &self.archive
    }

    /// Hands the disk back. A crash leaves the entries that the store told or, where a step has failed, these or one more.
    pub fn close(self) -> D
        ensures disk { result ≡ self.disk }
        ensures reads { IsTrue D.tells → Leaves (is_closed self.told) (entries_of self.told) (D.reads result) }
        ensures left { IsTrue D.tells → (c : List ℕ) → D.images result c → Leaves (is_closed self.told) (entries_of self.told) c }
    {
        self.journal.close()
    }
}
