// The lists of a reduced hash tree.
ghost use Rattle.std.specs.Prelude.{◌≡◌, ◌<◌, ◌++◌, [], ◌∷◌, length, map, IfOk};
ghost use Rattle.hash_kit.specs.Node.{ascending};
ghost use Rattle.tree_renewal.specs.Lists.{only, lists_of};

use der_values::Items;
use hash_kit::HashValue;
use std::alloc::{AllocError, Global};

/// The lists of the reduced hash tree of a group with these values, whose leaf has this path (RFC 4998, 4.2), each ascending;
/// None where a single value is the root. An error is want of memory.
pub fn lists_of(
    alloc: Global,
    values: Items<HashValue>,
    path: Items<HashValue>,
) -> Result<Option<Items<Items<HashValue>>>, AllocError>
    requires { 0 < length values }
    ensures { IfOk result (λ lists. lists ≡ lists_of values path) }
{
    let rest = path.as_slice();
    if values.as_slice().len() > 1 {
        return Ok(Some(with_path(alloc, values, rest)?));
    }
    let Some((other, rest)) = rest.split_first() else {
        return Ok(None);
    };
    let first = with_value(alloc, values, other)?;
    Ok(Some(with_path(alloc, first, rest)?))
}

// This list and one more value.
fn with_value(
    alloc: Global,
    values: Items<HashValue>,
    other: &HashValue,
) -> Result<Items<HashValue>, AllocError>
    ensures { IfOk result (λ all. all ≡ values ++ other.now ∷ []) }
{
    let mut all = values.into_vec();
    all.push(*other)?;
    Ok(Items::from_vec(all))
}

// The ascending list of the values, and a list for each of the path.
fn with_path(
    alloc: Global,
    first: Items<HashValue>,
    path: &[HashValue],
) -> Result<Items<Items<HashValue>>, AllocError>
    ensures { IfOk result (λ lists. lists ≡ ascending first ∷ map only path.now) }
{
    let mut lists = Vec::new(alloc);
    lists.push(sorted(first))?;
    for value in path {
        lists.push(one(alloc, value)?)?;
    }
    Ok(Items::from_vec(lists))
}

fn one(alloc: Global, value: &HashValue) -> Result<Items<HashValue>, AllocError>
    ensures { IfOk result (λ list. list ≡ only value.now) }
{
    let mut list = Vec::new(alloc);
    list.push(*value)?;
    Ok(Items::from_vec(list))
}

fn sorted(values: Items<HashValue>) -> Items<HashValue>
    ensures { result ≡ ascending values }
{
    let mut all = values.into_vec();
    all.sort_unstable();
    Items::from_vec(all)
}
