// The table of cohorts: one row a chain.
ghost use Rattle.std.specs.Prelude.{◌≡◌, ◌<◌, nat_le, find, IfOk};
ghost use Rattle.std.specs.List.{AllByRecursion, range_with_len};
ghost use Rattle.std.specs.Option.{option_map};
ghost use Rattle.archive_chain.specs.InsideTable.{ids_seen};
ghost use Rattle.archive_chain.specs.InsideCovers.{entry_from};

use der_values::Items;
use std::alloc::{AllocError, Global};

/// A further time-stamp of a chain: its entry, and the place of the cohort's leaf in its tree.
#[derive(Clone, Copy, Debug)]
pub struct Later {
    pub stamp: u32,
    pub place: u32,
}

/// Groups in ascending order.
#[derive(Debug, Drop)]
pub enum Members {
    Run { first: u32, count: u32 },
    Listed(Items<u32>),
}

impl Members {
    // A copy of them.
    pub(crate) fn copied(&self, alloc: Global) -> Result<Items<u32>, AllocError>
        requires { AllByRecursion (λ id. id < 65536) (ids_seen self.now) }
        ensures { IfOk result (λ ids. ids ≡ ids_seen self.now) }
    {
        match self {
            Members::Run { first, count } => run(alloc, *first, *count),
            Members::Listed(ids) => Ok(Items::from_vec(Vec::from_slice(alloc, ids.as_slice())?)),
        }
    }
}

// So many numbers from this one on.
fn run(alloc: Global, first: u32, count: u32) -> Result<Items<u32>, AllocError>
    requires { AllByRecursion (λ id. id < 65536) (range_with_len first count) }
    ensures { IfOk result (λ ids. ids ≡ range_with_len first count) }
{
    let mut ids = Vec::with_capacity(alloc, count as usize)?;
    for index in 0..count {
        let id = first + index;
        ids.push(id)?;
    }
    Ok(Items::from_vec(ids))
}

/// A chain of the groups that it was begun for: the entry that began it, the further time-stamps, the row of the chain
/// that took over, the most time-stamps of one of its groups, and the first group that has as many.
#[derive(Debug, Drop)]
pub struct Row {
    pub stamp: u32,
    pub members: Members,
    pub later: Vec<Later>,
    pub next: Option<u32>,
    pub most: u32,
    pub least: u32,
}

/// The further time-stamps of the chain in a row, with a new one, and the most of one of its groups.
#[derive(Debug, Drop)]
pub struct Longer {
    pub row: u32,
    pub later: Vec<Later>,
    pub most: u32,
}

impl Row {
    // The first entry of the chain with this number or a greater one.
    pub(crate) fn entry_from(&self, front: u64) -> Option<u64>
        ensures { result ≡ entry_from front self.now.stamp self.now.later.items }
    {
        let begun = u64::from(self.stamp);
        if front <= begun {
            return Some(begun);
        }
        match self.later_from(front) {
            Some(later) => Some(u64::from(later.stamp)),
            None => None,
        }
    }

    // The first further time-stamp of such an entry.
    fn later_from(&self, front: u64) -> Option<&Later>
        ensures { option_map (λ later. later.now) result ≡ find (λ later. nat_le front later.stamp) self.now.later.items }
    {
        self.later
            .iter()
            .find(|later| front <= u64::from(later.stamp))
    }
}
