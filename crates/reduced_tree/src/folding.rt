ghost use Rattle.std.specs.Prelude.{◌≡◌, ◌<◌, length, IfOk};
ghost use Rattle.reduced_tree.specs.Reduced.{AreFull, joined, rises, plain_root, other_root, other_from};

use crate::results::Roots;
use der_values::Items;
use hash_kit::{HashAlg, HashValue, digest, node};
use std::alloc::{AllocError, Global};

/// The roots of a reduced hash tree (RFC 4998, section 4.3). A single value of the first list may be a document's or the node of
/// a group's, so it leads to two.
pub fn roots(
    alloc: Global,
    alg: HashAlg,
    lists: &Items<Items<HashValue>>,
) -> Result<Roots, AllocError>
    requires some { 0 < length lists.now }
    requires full { AreFull lists.now }
    ensures plain { IfOk result (λ roots. roots.plain ≡ plain_root alg lists.now) }
    ensures other { IfOk result (λ roots. roots.other ≡ other_root alg lists.now) }
{
    let lists = lists.as_slice();
    let first = lists[0].as_slice();
    let later = &lists[1..];
    let plain = risen(alloc, alg, node(alloc, alg, first)?, later)?;
    let other = other_risen(alloc, alg, first, later)?;
    Ok(Roots { plain, other })
}

fn other_risen(
    alloc: Global,
    alg: HashAlg,
    first: &[HashValue],
    later: &[Items<HashValue>],
) -> Result<Option<HashValue>, AllocError>
    requires { AreFull later.now }
    ensures { IfOk result (λ other. other ≡ other_from alg first.now later.now) }
{
    if first.len() != 1 {
        return Ok(None);
    }
    let root = risen(alloc, alg, digest(alg, first[0].bytes()), later)?;
    Ok(Some(root))
}

// What a value comes to with these lists, one after another.
fn risen(
    alloc: Global,
    alg: HashAlg,
    value: HashValue,
    lists: &[Items<HashValue>],
) -> Result<HashValue, AllocError>
    requires { AreFull lists.now }
    ensures { IfOk result (λ root. root ≡ rises alg value lists.now) }
{
    let mut root = value;
    for list in lists {
        root = joined(alloc, alg, root, list.as_slice())?;
    }
    Ok(root)
}

// The digest of a value and a list, all in ascending order.
fn joined(
    alloc: Global,
    alg: HashAlg,
    value: HashValue,
    list: &[HashValue],
) -> Result<HashValue, AllocError>
    requires { 0 < length list.now }
    ensures { IfOk result (λ root. root ≡ joined alg value list.now) }
{
    let mut values = Vec::new(alloc);
    values.push(value)?;
    values.extend_from_slice(list)?;
    node(alloc, alg, values.as_slice())
}
