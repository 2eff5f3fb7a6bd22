// The chains of the cohorts that a RenewStamps names, with one time-stamp more.
ghost use Rattle.std.specs.Prelude.{◌≡◌, ◌<◌, ◌^◌, length, true, IfOk};
ghost use Rattle.std.specs.List.{AllByRecursion};
ghost use Rattle.archive_chain.specs.Rules.{is_live};
ghost use Rattle.archive_chain.specs.InsidePieces.{IsRowOf, AreAt, IsAdded, AreAdded};

use crate::archive::Archive;
use crate::row::{Later, Longer};
use std::alloc::{AllocError, Global};

impl Archive {
    // The place of the row of a cohort that has a group.
    fn row_at(&self, cohort: u32) -> u32
        requires { is_live self.now.kept cohort ≡ true }
        ensures { IsRowOf self.now cohort result }
    {
        match self.row_of(cohort) {
            Some(place) => place,
            None => unreachable!(),
        }
    }

    // The places of the rows of these cohorts.
    pub(crate) fn rows_at(&self, alloc: Global, cohorts: &[u32]) -> Result<Vec<u32>, AllocError>
        requires { AllByRecursion (λ c. is_live self.now.kept c ≡ true) cohorts.now }
        ensures { IfOk result (λ places. AreAt self.now.room.table places.items cohorts.now) }
    {
        let mut places = Vec::with_capacity(alloc, cohorts.len())?;
        for cohort in cohorts {
            places.push(self.row_at(*cohort))?;
        }
        Ok(places)
    }

    // The further time-stamps of these cohorts' chains, each with that of the next entry, whose leaves are in their order.
    pub(crate) fn longer(&self, alloc: Global, cohorts: &[u32]) -> Result<Vec<Longer>, AllocError>
        requires few { self.now.kept.entries < 2 ^ 32 }
        requires small { length cohorts.now < 2 ^ 32 }
        requires live { AllByRecursion (λ c. is_live self.now.kept c ≡ true) cohorts.now }
        ensures { IfOk result (λ all. AreAdded self.now.room.table self.now.kept.entries 0 all.items cohorts.now) }
    {
        let mut all = Vec::with_capacity(alloc, cohorts.len())?;
        for (place, cohort) in cohorts.iter().enumerate() {
            let longer = self.longer_one(alloc, *cohort, place as u32)?;
            all.push(longer)?;
        }
        Ok(all)
    }

    // The same of one cohort, whose leaf has this place.
    fn longer_one(&self, alloc: Global, cohort: u32, place: u32) -> Result<Longer, AllocError>
        requires few { self.now.kept.entries < 2 ^ 32 }
        requires live { is_live self.now.kept cohort ≡ true }
        ensures { IfOk result (λ longer. IsAdded self.now.room.table self.now.kept.entries place longer cohort) }
    {
        let at = self.row_at(cohort);
        let row = &self.rows[at as usize];
        let mut later = Vec::with_capacity(alloc, row.later.len() + 1)?;
        later.extend_from_slice(row.later.as_slice())?;
        later.push(Later {
            stamp: self.len() as u32,
            place,
        })?;
        Ok(Longer {
            row: at,
            later,
            most: row.most + 1,
        })
    }
}
