// The chain that a RenewTrees begins, and the cohorts after it.
ghost use Rattle.std.specs.Prelude.{◌≡◌, ◌<◌, ◌^◌, ◌++◌, ◌∷◌, [], length, map, true, None, IfOk};
ghost use Rattle.std.specs.List.{AllByRecursion, list_any};
ghost use Rattle.entry_codec.specs.Spelling.{AreCohorts};
ghost use Rattle.archive_chain.specs.Kept.{cohort_of, has_name, ids_in};
ghost use Rattle.archive_chain.specs.Rules.{is_live, live_rule};
ghost use Rattle.archive_chain.specs.InsideRows.{joined};
ghost use Rattle.archive_chain.specs.InsideTable.{Rises, ids_seen};
ghost use Rattle.archive_chain.specs.InsidePieces.{staying};
ghost use Rattle.archive_chain.specs.InsideMade.{IsNextRow, IsRegister, IsJoined};

use crate::archive::Archive;
use crate::cohort::find;
use crate::peak::Peak;
use crate::row::{Members, Row};
use der_values::Items;
use std::alloc::{AllocError, Global};

/// The names of all cohorts, and their rows.
#[derive(Drop)]
pub struct Register {
    pub names: Vec<u32>,
    pub live: Vec<u32>,
}

/// The row of a new chain, the rows that it takes over from, and the cohorts after it.
#[derive(Drop)]
pub struct Joined {
    pub row: Row,
    pub places: Vec<u32>,
    pub register: Register,
}

// Of these items, one for each name, those whose names are none of the cohorts, and behind them one more.
fn staying(
    alloc: Global,
    names: &[u32],
    items: &[u32],
    cohorts: &[u32],
    new: u32,
) -> Result<Vec<u32>, AllocError>
    requires alike { length items.now ≡ length names.now }
    requires rising { Rises cohorts.now }
    ensures { IfOk result (λ all. all.items ≡ staying cohorts.now names.now items.now ++ new ∷ []) }
{
    let mut all = Vec::with_capacity(alloc, names.len() + 1)?;
    for (at, name) in names.iter().enumerate() {
        if find(cohorts, *name).is_none() {
            all.push(items[at])?;
        }
    }
    all.push(new)?;
    Ok(all)
}

impl Archive {
    /// The groups of these cohorts together, ascending. An error is want of memory.
    pub fn members_together(&self, alloc: Global, cohorts: &[u32]) -> Result<Items<u32>, AllocError>
        requires spelled { AreCohorts cohorts.now }
        requires live { live_rule self.now.kept cohorts.now ≡ None }
        ensures { IfOk result (λ ids. ids ≡ ids_in cohorts.now 0 self.now.kept.sealed) }
    {
        Ok(Items::from_vec(self.members_in(alloc, cohorts)?))
    }

    // What a new chain of these cohorts is.
    pub(crate) fn joined(&self, alloc: Global, cohorts: &[u32]) -> Result<Joined, AllocError>
        requires few { self.now.kept.entries < 2 ^ 32 }
        requires spelled { AreCohorts cohorts.now }
        requires live { AllByRecursion (λ c. is_live self.now.kept c ≡ true) cohorts.now }
        ensures { IfOk result (IsJoined self.now cohorts.now) }
    {
        let ids = self.members_in(alloc, cohorts)?;
        let members = Members::Listed(Items::from_vec(ids));
        let peak = self.peak_in(cohorts).one_more();
        let row = self.next_row(alloc, members, peak);
        let places = self.rows_at(alloc, cohorts)?;
        let register = self.register_without(alloc, cohorts)?;
        Ok(Joined {
            row,
            places,
            register,
        })
    }

    // The row of a chain of these groups that the next entry begins.
    pub(crate) fn next_row(&self, alloc: Global, members: Members, peak: Peak) -> Row
        requires { self.now.kept.entries < 2 ^ 32 }
        ensures { IsNextRow self.now members peak result }
    {
        Row {
            stamp: self.len() as u32,
            members,
            later: Vec::new(alloc),
            next: None,
            most: peak.most,
            least: peak.least,
        }
    }

    // The groups of these cohorts, in order.
    fn members_in(&self, alloc: Global, cohorts: &[u32]) -> Result<Vec<u32>, AllocError>
        requires rising { Rises cohorts.now }
        requires live { AllByRecursion (λ c. is_live self.now.kept c ≡ true) cohorts.now }
        ensures { IfOk result (λ ids. ids.items ≡ ids_in cohorts.now 0 self.now.kept.sealed) }
    {
        let mut ids = self.all_members(alloc, cohorts)?;
        ids.sort_unstable();
        Ok(ids)
    }

    // The groups of these cohorts, cohort by cohort.
    fn all_members(&self, alloc: Global, cohorts: &[u32]) -> Result<Vec<u32>, AllocError>
        requires { AllByRecursion (λ c. is_live self.now.kept c ≡ true) cohorts.now }
        ensures { IfOk result (λ ids. ids.items ≡ joined cohorts.now self.now.kept.sealed) }
    {
        let mut ids = Vec::new(alloc);
        for cohort in cohorts {
            let members = self.members_of(*cohort).copied(alloc)?;
            ids.extend_from_slice(members.as_slice())?;
        }
        Ok(ids)
    }

    // The cohorts after the next entry, which makes these cohorts one.
    fn register_without(&self, alloc: Global, cohorts: &[u32]) -> Result<Register, AllocError>
        requires few { self.now.kept.entries < 2 ^ 32 }
        requires rising { Rises cohorts.now }
        requires some { list_any (has_name cohorts.now) (map cohort_of self.now.kept.sealed) ≡ true }
        ensures { IfOk result (IsRegister self.now cohorts.now) }
    {
        let names = self.names.as_slice();
        let number = self.len() as u32;
        let row = self.rows.len() as u32;
        let mut names_after = staying(alloc, names, names, cohorts, number)?;
        let mut live_after = staying(alloc, names, self.live.as_slice(), cohorts, row)?;
        names_after.reserve(self.spare_stamps)?;
        live_after.reserve(self.spare_stamps)?;
        Ok(Register {
            names: names_after,
            live: live_after,
        })
    }
}
