// An entry that may be added, and what it adds.
ghost use Rattle.std.specs.Prelude.{◌≡◌, List, [], ◌∷◌, ◌++◌};
ghost use Rattle.entry_codec.specs.declared.entry.Entry.{Entry};
ghost use Rattle.archive_chain.specs.History.{leaves_of, state_of};
ghost use Rattle.archive_chain.specs.Held.{Takes, Agrees, StandsFor};

use crate::archive::Archive;
use crate::row::{Longer, Row};
use crate::time_stamp::TimeStamp;
use algorithm_policy::Policy;
use entry_codec::Entry;
use std::marker::Model;
use std::snapshot::Snapshot;

/// How many groups, documents, and bytes of documents a deposit has.
#[derive(Clone, Copy, Debug)]
pub struct Counts {
    pub groups: u32,
    pub documents: u64,
    pub bytes: u64,
}

/// What an entry adds: a Deposit its numbers; a Seal its time-stamp, its row and the number of its groups; a RenewTrees
/// its time-stamp, its row, the rows of the cohorts that it joins, and the names and rows of all cohorts after it; a
/// RenewStamps its time-stamp and the longer chains; a SetPolicy its policy.
#[derive(Drop)]
pub enum Piece {
    Counted(Counts),
    Sealed(Box<TimeStamp>, Row, u32),
    Renewed(Box<TimeStamp>, Row, Vec<u32>, Vec<u32>, Vec<u32>),
    Stamped(Box<TimeStamp>, Vec<Longer>),
    Governed(Policy),
}

/// An entry that may be added, and the archive has room for it. Contracts see the entry, its leaves, and that archive.
#[derive(Drop)]
pub struct Ready {
    pub(crate) piece: Piece,
    pub(crate) entry: Snapshot<Entry>,
    pub(crate) archive: Snapshot<Archive>,
}

impl Model for Ready {
    ghost use Rattle.archive_chain.specs.Held.{Readied};
    ghost use Rattle.archive_chain.specs.Pieces.{leaves_in_piece};
    ghost use Rattle.archive_chain.specs.InsideReady.{Fits};

    ghost Value = { Readied };

    ghost view = { λ r. record { entry = r.entry.value; leaves = leaves_in_piece r.piece; archive = r.archive.value } };

    ghost invariant = { λ r. Fits r.archive.value r.entry.value r.piece };
}

impl Archive {
    /// Adds the entry, and gives its number. It takes no memory.
    pub fn commit(&mut self, ready: Ready) -> u64
        requires same { ready.archive ≡ self.old }
        ensures number { result ≡ self.old.kept.entries }
        ensures takes { Takes self.old ready.entry ready.leaves self.new }
        ensures agrees { (history : List Entry) → Agrees self.old history → Agrees self.new (history ++ ready.entry ∷ []) }
        ensures stands { (history : List Entry) → StandsFor self.old history
            → ready.leaves ≡ leaves_of self.old.kept self.old.trees (state_of history).documents ready.entry
            → StandsFor self.new (history ++ ready.entry ∷ []) }
    {
        let number = self.len();
        let Ready {
            piece,
            entry: _,
            archive: _,
        } = ready;
        match piece {
            Piece::Counted(counts) => self.add_deposit(counts),
            Piece::Sealed(stamp, row, count) => self.add_seal(stamp, row, count),
            Piece::Renewed(stamp, row, places, names, live) => {
                self.add_trees(stamp, row, places, names, live)
            }
            Piece::Stamped(stamp, longer) => self.add_stamps(stamp, longer),
            Piece::Governed(policy) => self.add_policy(policy),
        }
        number
    }
}
