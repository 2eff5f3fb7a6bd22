// What an archive keeps of a cohort: the row of its chain, and the chain's last time-stamp.
ghost use Rattle.std.specs.Prelude.{◌≡◌, false, is_some, IfSome, MatchOption, slice_get, Some};
ghost use Rattle.std.specs.Option.{option_map};
ghost use Rattle.archive_chain.specs.Kept.{has_name, cohorts_in, cohort_last};
ghost use Rattle.archive_chain.specs.Rules.{is_live, chain_has};
ghost use Rattle.archive_chain.specs.InsidePieces.{IsRowOf};
ghost use Rattle.archive_chain.specs.InsideTable.{Rises};
ghost use Rattle.archive_chain.specs.InsideSaid.{IsSaid};
ghost use Rattle.archive_chain.specs.InsideLast.{last_entry, last_seen};

use crate::archive::Archive;
use crate::row::Row;
use crate::sequence::stamp_in;
use crate::time_stamp::TimeStamp;
use hash_kit::HashAlg;

// The place of a number in a list that ascends, if it is there.
pub(crate) fn find(numbers: &[u32], number: u32) -> Option<usize>
    requires rising { Rises numbers.now }
    ensures { MatchOption result (has_name numbers.now number ≡ false)
        (λ place. slice_get numbers.now place ≡ Some number) }
{
    numbers.binary_search(&number).ok()
}

// The entry of the last time-stamp of the chain in a row.
fn last_entry(row: &Row) -> u32
    ensures { result ≡ last_entry row.now.stamp row.now.later.items }
{
    match row.later.as_slice().last() {
        Some(later) => later.stamp,
        None => row.stamp,
    }
}

impl Archive {
    // The place of a cohort's row, if it has a group.
    pub(crate) fn row_of(&self, cohort: u32) -> Option<u32>
        ensures { MatchOption result (has_name (cohorts_in self.now.kept.sealed) cohort ≡ false)
            (IsRowOf self.now cohort) }
    {
        match find(self.names.as_slice(), cohort) {
            Some(at) => Some(self.live[at]),
            None => None,
        }
    }

    // The last time-stamp of a cohort, if it has a group.
    pub(crate) fn last_stamp(&self, cohort: u32) -> Option<&TimeStamp>
        ensures last { option_map (λ stamp. last_seen stamp.now) result ≡ cohort_last self.now.kept.sealed cohort }
        ensures live { is_some result ≡ is_live self.now.kept cohort }
        ensures said { IfSome result (λ stamp. IsSaid self.now.policy stamp.now) }
    {
        match self.row_of(cohort) {
            Some(place) => {
                let last = last_entry(&self.rows[place as usize]);
                Some(stamp_in(self.stamps.as_slice(), last))
            }
            None => None,
        }
    }

    // Whether a cohort has a group.
    pub(crate) fn is_live(&self, cohort: u32) -> bool
        ensures { result ≡ is_live self.now.kept cohort }
    {
        self.row_of(cohort).is_some()
    }

    // Whether the hash of a cohort's chain is this one.
    pub(crate) fn has_hash(&self, alg: HashAlg, cohort: u32) -> bool
        ensures { result ≡ chain_has alg (cohort_last self.now.kept.sealed cohort) }
    {
        match self.last_stamp(cohort) {
            Some(stamp) => stamp.alg == alg,
            None => false,
        }
    }
}
