ghost use Rattle.std.specs.Prelude.{◌≡◌, ◌<◌, length, IfOk};
ghost use Rattle.object_groups.specs.Groups.{values_of, group_node_of};

use crate::Group;
use der_values::Items;
use hash_kit::{HashAlg, HashValue, digest, node};
use std::alloc::{AllocError, Global};

/// The hash value of each document, in order.
pub fn hash_values(
    alloc: Global,
    alg: HashAlg,
    group: &Group,
) -> Result<Items<HashValue>, AllocError>
    ensures values { IfOk result (λ values. values ≡ values_of alg group.now) }
    ensures some { IfOk result (λ values. 0 < length values) }
{
    let mut values = Vec::new(alloc);
    for document in group.documents() {
        values.push(digest(alg, document.as_slice()))?;
    }
    Ok(Items::from_vec(values))
}

/// The node of the documents' hash values (RFC 4998, section 4.2).
pub fn group_node(alloc: Global, alg: HashAlg, group: &Group) -> Result<HashValue, AllocError>
    ensures { IfOk result (λ value. value ≡ group_node_of alg group.now) }
{
    let values = hash_values(alloc, alg, group)?;
    node(alloc, alg, values.as_slice())
}
