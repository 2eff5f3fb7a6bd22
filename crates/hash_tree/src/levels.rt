// One level of a tree after another.
ghost use Rattle.std.specs.Prelude.{◌≡◌, ◌+◌, ◌/◌, ◌<◌, ◌++◌, ◌∷◌, IfOk, []};
ghost use Rattle.hash_kit.specs.Node.{node_of};
ghost use Rattle.hash_tree.specs.Inside.{pairs, beside};

use der_values::Items;
use hash_kit::{HashAlg, HashValue, Hasher};
use std::alloc::{AllocError, Global};

// The node of two values, without a list of them.
fn node_of_two(alg: HashAlg, value: &HashValue, other: &HashValue) -> HashValue
    ensures { result ≡ node_of alg (value.now ∷ other.now ∷ []) }
{
    let mut hasher = Hasher::new(alg);
    if value.cmp(other).is_le() {
        hasher.update(value.bytes());
        hasher.update(other.bytes());
    } else {
        hasher.update(other.bytes());
        hasher.update(value.bytes());
    }
    hasher.finish()
}

// The level above: the nodes of neighbours, and a last value without one as it is.
pub(crate) fn level_above(
    alloc: Global,
    alg: HashAlg,
    level: &[HashValue],
) -> Result<Items<HashValue>, AllocError>
    ensures { IfOk result (λ above. above ≡ pairs alg level.now) }
{
    let mut above = Vec::with_capacity(alloc, level.len() / 2 + 1)?;
    let mut place = 0;
    while level.len() - place > 1 {
        above.push(node_of_two(alg, &level[place], &level[place + 1]))?;
        place += 2;
    }
    if place < level.len() {
        above.push(level[place])?;
    }
    Ok(Items::from_vec(above))
}

// Adds the neighbour of the value at this place, where it has one.
pub(crate) fn push_neighbour(
    path: &mut Vec<HashValue>,
    level: &[HashValue],
    place: usize,
) -> Result<(), AllocError>
    ensures { IfOk result (λ u. path.new.items ≡ path.old.items ++ beside level.now place) }
{
    let other = if place % 2 == 0 { place + 1 } else { place - 1 };
    if other < level.len() {
        // (one copy of the value, where a push makes two)
        path.extend_from_slice(&level[other..other + 1])?;
    }
    Ok(())
}
