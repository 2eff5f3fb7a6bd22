ghost use Rattle.std.specs.Prelude.{◌≡◌, ◌-◌, ◌<◌, ◌≤◌, length, map, IfOk};
ghost use Rattle.std.specs.List.{range_with_len};
ghost use Rattle.hash_tree.specs.Tree.{tree_path};
ghost use Rattle.bench_works.specs.Leaves.{leaf_of};

use der_values::Items;
use hash_kit::HashValue;
use hash_tree::LevelTree;
use std::alloc::{AllocError, Global};

// The leaf of this number: its four bytes, the least significant first, and 28 zeros.
fn leaf(number: u32) -> HashValue
    ensures { result ≡ leaf_of number }
{
    let mut bytes = [0; 32];
    bytes[..4].copy_from_slice(&number.to_le_bytes());
    HashValue::of(&bytes)
}

/// The first leaves.
pub fn leaves(alloc: Global, count: u32) -> Result<Items<HashValue>, AllocError>
    ensures leaves { IfOk result (λ leaves. leaves ≡ map leaf_of (range_with_len 0 count)) }
    ensures length { IfOk result (λ leaves. length leaves ≡ count) }
{
    let mut leaves = Vec::with_capacity(alloc, count as usize)?;
    for number in 0..count {
        leaves.push(leaf(number))?;
    }
    Ok(Items::from_vec(leaves))
}

/// The paths of the first leaves, of which the last is given.
pub fn last_path(
    alloc: Global,
    tree: &LevelTree,
    count: u32,
) -> Result<Items<HashValue>, AllocError>
    requires some { 0 < count }
    requires most { count ≤ length tree.now.leaves }
    ensures { IfOk result (λ path. path ≡ tree_path tree.now.alg tree.now.leaves (count - 1)) }
{
    for place in 0..count - 1 {
        tree.path(alloc, place)?;
    }
    tree.path(alloc, count - 1)
}
