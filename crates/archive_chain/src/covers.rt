// What covers a group.
ghost use Rattle.std.specs.Prelude.{◌≡◌, ◌+◌, ◌≤◌, length, slice_get, IfOk};
ghost use Rattle.archive_chain.specs.Kept.{covers_of, first_from};
ghost use Rattle.archive_chain.specs.Rules.{most_stamps};
ghost use Rattle.archive_chain.specs.Coverings.{AreCoverings};

use crate::archive::Archive;
use crate::coverings::{Covering, with_chain};
use der_values::Items;
use std::alloc::{AllocError, Global};

// The row of a group's Seal, where it has one.
fn first_of(firsts: &[u32], id: u32) -> Option<u32>
    ensures { result ≡ slice_get firsts.now id }
{
    if (id as usize) < firsts.len() {
        Some(firsts[id as usize])
    } else {
        None
    }
}

impl Archive {
    /// How many time-stamps a group has.
    pub fn stamps(&self, id: u32) -> u32
        ensures { result ≡ length (covers_of self.now.kept id) }
    {
        let mut count = 0;
        let mut at = first_of(self.firsts.as_slice(), id);
        while let Some(place) = at {
            let row = &self.rows[place as usize];
            count += row.later.len() as u32 + 1;
            at = row.next;
        }
        count
    }

    /// The first entry with this number or a greater one that covers a group.
    pub fn cover_from(&self, id: u32, front: u64) -> Option<u64>
        ensures { result ≡ first_from front (covers_of self.now.kept id) }
    {
        let mut at = first_of(self.firsts.as_slice(), id);
        while let Some(place) = at {
            let row = &self.rows[place as usize];
            if let Some(entry) = row.entry_from(front) {
                return Some(entry);
            }
            at = row.next;
        }
        None
    }

    /// What the time-stamps of a group say, from the first to the last, at most 200; none of a group that is pending. No
    /// token is read again. An error is want of memory.
    pub fn coverings<'a>(
        &'a self,
        alloc: Global,
        id: u32,
    ) -> Result<Items<Covering<'a>>, AllocError>
        ensures said { IfOk result (AreCoverings self.now.policy (covers_of self.now.kept id)) }
        ensures few { IfOk result (λ coverings. length coverings ≤ most_stamps) }
    {
        let mut coverings = Vec::new(alloc);
        let mut at = first_of(self.firsts.as_slice(), id);
        while let Some(place) = at {
            let row = &self.rows[place as usize];
            coverings = with_chain(coverings, self.stamps.as_slice(), row)?;
            at = row.next;
        }
        Ok(Items::from_vec(coverings))
    }
}
