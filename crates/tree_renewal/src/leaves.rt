// A group's leaf in the tree of a chain, and the values that it joins.
ghost use Rattle.std.specs.Prelude.{◌≡◌, ◌<◌, ◌^◌, [], length, IfOk};
ghost use Rattle.std.specs.List.{flat_map};
ghost use Rattle.evidence_syntax.specs.Stamps.{chains_seen};
ghost use Rattle.evidence_syntax.specs.Text.{chain_text};
ghost use Rattle.evidence_syntax.specs.DocumentValue.{values_after};
ghost use Rattle.tree_renewal.specs.Leaf.{leaf_of};

use der_values::Items;
use evidence_syntax::{Chain, document_values};
use hash_kit::{HashAlg, HashValue};
use object_groups::{Group, group_node};
use std::alloc::{AllocError, Global};

/// The leaf of a group in the tree of a seal (RFC 4998, 4.2): the node of its documents' digests. An error is want of memory.
pub fn seal_leaf(alloc: Global, alg: HashAlg, group: &Group) -> Result<HashValue, AllocError>
    ensures { IfOk result (λ leaf. leaf ≡ leaf_of alg [] group.now) }
{
    group_node(alloc, alg, group)
}

/// The value of each document of a group in the chain after these older ones (RFC 4998, 5.2), in the order of the documents;
/// the leaf in the tree of a renewal is their node. An error is want of memory.
pub fn renewed_values(
    alloc: Global,
    alg: HashAlg,
    group: &Group,
    older: &[Chain<'_>],
) -> Result<Items<HashValue>, AllocError>
    requires { length (flat_map chain_text (chains_seen older.now)) < 2 ^ 32 }
    ensures values { IfOk result (λ values. values ≡ values_after alg (chains_seen older.now) group.now) }
    ensures some { IfOk result (λ values. 0 < length values) }
{
    let values = document_values(alloc, alg, older, group.documents())?;
    Ok(Items::from_vec(values))
}
