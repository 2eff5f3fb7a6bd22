// How an archive is filled.
ghost use Rattle.std.specs.Prelude.{◌≡◌, IfSome};
ghost use Rattle.archive_chain.specs.Kept.{Kept};
ghost use Rattle.archive_chain.specs.Held.{leaf_count};

use archive_chain::Archive;
use entry_codec::{Entry, read_entry};
use hash_kit::HashValue;
use std::alloc::Global;
use verdict_rows::Unmade;

// The most entries that an archive of rows has.
const MOST_ENTRIES: u64 = 1000;

/// Adds the entry that the payload spells, where its tree has these leaves.
pub fn add(
    alloc: Global,
    archive: &mut Archive,
    payload: &[u8],
    leaves: &[HashValue],
) -> Result<u64, Unmade> {
    let Ok(entry) = read_entry(alloc, payload) else {
        return Err(Unmade::Row);
    };
    let Some(count) = leaf_count(&entry) else {
        return Err(Unmade::Row);
    };
    if archive.len() >= MOST_ENTRIES || count != leaves.len() {
        return Err(Unmade::Row);
    }
    match archive.reserve(alloc, &entry, leaves) {
        Ok(ready) => Ok(archive.commit(ready)),
        Err(_) => Err(Unmade::Row),
    }
}

// How many leaves the tree of an entry has. Of new trees the entry alone doesn't say it.
fn leaf_count(entry: &Entry) -> Option<usize>
    ensures { IfSome result (λ count. (kept : Kept) → count ≡ leaf_count kept entry.now) }
{
    match entry {
        Entry::Deposit { groups: _ } => Some(0),
        Entry::Seal {
            hash: _,
            count,
            token: _,
        } => Some(*count as usize),
        Entry::RenewStamps {
            hash: _,
            cohorts,
            token: _,
        } => Some(cohorts.as_slice().len()),
        Entry::RenewTrees {
            hash: _,
            cohorts: _,
            token: _,
        } => None,
        Entry::SetPolicy { text: _ } => Some(0),
    }
}

/// An entry's payload that ends in counted bytes: a token, or the text of a policy.
pub fn payload(alloc: Global, front: &[u8], last: &[u8]) -> Result<Vec<u8>, Unmade> {
    let Ok(count) = u32::try_from(last.len()) else {
        return Err(Unmade::TooLong);
    };
    let mut payload = Vec::from_slice(alloc, front)?;
    payload.extend_from_slice(&count.to_be_bytes())?;
    payload.extend_from_slice(last)?;
    Ok(payload)
}
