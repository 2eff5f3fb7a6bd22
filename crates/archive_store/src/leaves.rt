// The leaves of an entry's tree, over documents that are read back one group after another.
ghost use Rattle.std.specs.Prelude.{◌≡◌, ◌<◌, ◌≤◌, ◌+◌, [], length, map, take, drop, None, IsTrue, IfOk, IsErrOf};
ghost use Rattle.ev_world.specs.Causes.{Rose};
ghost use Rattle.gate_journal.specs.View.{IsKept};
ghost use Rattle.hash_kit.specs.Digest.{digest_of};
ghost use Rattle.tree_renewal.specs.Leaf.{leaf_of};
ghost use Rattle.entry_codec.specs.Spelling.{IsEntry, AreCohorts};
ghost use Rattle.archive_chain.specs.Kept.{groups_of, covers_of, token_of, cohort_last, count_in};
ghost use Rattle.archive_chain.specs.Sequence.{sequence_of};
ghost use Rattle.archive_chain.specs.Rules.{shape_rule, live_rule};
ghost use Rattle.archive_chain.specs.History.{leaves_in, leaves_of};
ghost use Rattle.archive_chain.specs.Held.{leaf_count};
ghost use Rattle.archive_store.specs.declared.fault.Outside.TheVariants.{DiskFault};
ghost use Rattle.archive_store.specs.InsideRows.{homes_from, AreReadable};
ghost use Rattle.archive_store.specs.InsideReplay.{documents_in};

use crate::catalogue::Catalogue;
use crate::fault::Outside;
use crate::reading::read_group;
use archive_chain::Archive;
use entry_codec::Entry;
use ev_world::Disk;
use gate_journal::Journal;
use hash_kit::{HashAlg, HashValue, digest, node};
use object_groups::Group;
use std::alloc::{AllocError, Global};
use tree_renewal::{renewed_values, seal_leaf};

/// The leaves of an entry whose count and cohorts are right.
pub(crate) fn leaves_of<D: Disk>(
    alloc: Global,
    journal: &mut Journal<D>,
    archive: &Archive,
    catalogue: &Catalogue,
    entry: &Entry,
) -> Result<Vec<HashValue>, Outside>
    requires spelled { IsEntry entry.now }
    requires shape { shape_rule archive.now.kept entry.now ≡ None }
    requires groups { length (homes_from 0 catalogue.now.rows) ≡ groups_of archive.now.kept }
    requires readable { AreReadable journal.old.lengths catalogue.now.rows }
    requires many { IsTrue D.tells → length journal.old.payloads ≡ length journal.old.lengths }
    ensures count { IfOk result (λ leaves. length leaves.items ≡ leaf_count archive.now.kept entry.now) }
    ensures leaves { IfOk result (λ leaves. IsTrue D.tells → leaves.items
        ≡ leaves_of archive.now.kept archive.now.trees (documents_in D.tells catalogue.now.rows journal.old.payloads) entry.now) }
    ensures kept { IsKept D.tells D.reads D.images D.clock D.since D.faults journal.old journal.new }
    ensures failed { IsErrOf result DiskFault → Rose (D.faults journal.old.disk) (D.faults journal.new.disk) }
{
    match entry {
        Entry::Seal {
            hash,
            count,
            token: _,
        } => seal_leaves(alloc, journal, archive, catalogue, *hash, *count),
        Entry::RenewStamps {
            hash,
            cohorts,
            token: _,
        } => Ok(stamp_leaves(alloc, archive, *hash, cohorts.as_slice())?),
        Entry::RenewTrees {
            hash,
            cohorts,
            token: _,
        } => tree_leaves(
            alloc,
            journal,
            archive,
            catalogue,
            *hash,
            cohorts.as_slice(),
        ),
        Entry::Deposit { groups: _ } | Entry::SetPolicy { text: _ } => Ok(Vec::new(alloc)),
    }
}

// One for each of so many pending groups.
fn seal_leaves<D: Disk>(
    alloc: Global,
    journal: &mut Journal<D>,
    archive: &Archive,
    catalogue: &Catalogue,
    alg: HashAlg,
    count: u32,
) -> Result<Vec<HashValue>, Outside>
    requires count { count ≤ archive.now.kept.pending }
    requires groups { length (homes_from 0 catalogue.now.rows) ≡ groups_of archive.now.kept }
    requires readable { AreReadable journal.old.lengths catalogue.now.rows }
    requires many { IsTrue D.tells → length journal.old.payloads ≡ length journal.old.lengths }
    ensures count { IfOk result (λ leaves. length leaves.items ≡ count) }
    ensures leaves { IfOk result (λ leaves. IsTrue D.tells → leaves.items ≡ map (leaf_of alg [])
        (take count (drop (length archive.now.kept.sealed) (documents_in D.tells catalogue.now.rows journal.old.payloads)))) }
    ensures kept { IsKept D.tells D.reads D.images D.clock D.since D.faults journal.old journal.new }
    ensures failed { IsErrOf result DiskFault → Rose (D.faults journal.old.disk) (D.faults journal.new.disk) }
{
    let first = archive.groups() - archive.pending();
    let mut leaves = Vec::new(alloc);
    for number in 0..count {
        match read_group(alloc, journal, catalogue, first + number) {
            Ok(group) => {
                let leaf = seal_leaf(alloc, alg, &group)?;
                leaves.push(leaf)?;
            }
            Err(outside) => return Err(outside),
        }
    }
    Ok(leaves)
}

// One for each cohort: the digest of its last token.
fn stamp_leaves(
    alloc: Global,
    archive: &Archive,
    alg: HashAlg,
    cohorts: &[u32],
) -> Result<Vec<HashValue>, AllocError>
    ensures { IfOk result (λ leaves. leaves.items ≡ map (λ c. digest_of alg (token_of (cohort_last archive.now.kept.sealed c))) cohorts.now) }
{
    let mut leaves = Vec::new(alloc);
    for cohort in cohorts {
        let token = archive.last_token(*cohort);
        leaves.push(digest(alg, token))?;
    }
    Ok(leaves)
}

// One for each group of the cohorts, in the order of the groups.
fn tree_leaves<D: Disk>(
    alloc: Global,
    journal: &mut Journal<D>,
    archive: &Archive,
    catalogue: &Catalogue,
    alg: HashAlg,
    cohorts: &[u32],
) -> Result<Vec<HashValue>, Outside>
    requires cohorts { AreCohorts cohorts.now }
    requires live { live_rule archive.now.kept cohorts.now ≡ None }
    requires groups { length (homes_from 0 catalogue.now.rows) ≡ groups_of archive.now.kept }
    requires readable { AreReadable journal.old.lengths catalogue.now.rows }
    requires many { IsTrue D.tells → length journal.old.payloads ≡ length journal.old.lengths }
    ensures count { IfOk result (λ leaves. length leaves.items ≡ count_in cohorts.now archive.now.kept.sealed) }
    ensures leaves { IfOk result (λ leaves. IsTrue D.tells → leaves.items ≡ leaves_in archive.now.trees alg cohorts.now archive.now.kept.sealed
        (documents_in D.tells catalogue.now.rows journal.old.payloads)) }
    ensures kept { IsKept D.tells D.reads D.images D.clock D.since D.faults journal.old journal.new }
    ensures failed { IsErrOf result DiskFault → Rose (D.faults journal.old.disk) (D.faults journal.new.disk) }
{
    let ids = archive.members_together(alloc, cohorts)?;
    let mut leaves = Vec::new(alloc);
    for id in ids.as_slice() {
        match read_group(alloc, journal, catalogue, *id) {
            Ok(group) => {
                let leaf = tree_leaf(alloc, archive, alg, *id, &group)?;
                leaves.push(leaf)?;
            }
            Err(outside) => return Err(outside),
        }
    }
    Ok(leaves)
}

// The leaf of a group in a new tree.
fn tree_leaf(
    alloc: Global,
    archive: &Archive,
    alg: HashAlg,
    id: u32,
    group: &Group,
) -> Result<HashValue, AllocError>
    requires { id < length archive.now.kept.sealed }
    ensures { IfOk result (λ leaf. leaf ≡ leaf_of alg (sequence_of archive.now.trees group.now (covers_of archive.now.kept id)) group.now) }
{
    let chains = archive.sequence(alloc, id, group)?;
    let values = renewed_values(alloc, alg, group, chains.as_slice())?;
    node(alloc, alg, values.as_slice())
}
