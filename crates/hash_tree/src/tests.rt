// Roots of small trees, computed by another program, and every path of every tree of up to 64 leaves.
ghost use Rattle.std.specs.Prelude.{◌≡◌, length, IfOk};

use crate::LevelTree;
use der_values::Items;
use hash_kit::{HashAlg, HashValue, digest, node};
use hex::encode;
use std::alloc::{AllocError, Global};
use std::test::Fail;

// The leaves: SHA-256 of the single bytes 0, 1, 2 and so on.
fn leaves(alloc: Global, count: u8) -> Result<Items<HashValue>, AllocError>
    ensures { IfOk result (λ leaves. length leaves ≡ count) }
{
    let mut leaves = Vec::new(alloc);
    for byte in 0..count {
        leaves.push(digest(HashAlg::Sha256, &[byte]))?;
    }
    Ok(Items::from_vec(leaves))
}

#[test]
fn a_tree_has_the_root_of_its_halves(rt: HostRuntime) -> Result<(), Fail> {
    let alloc = rt.alloc();
    let rows: [(u8, &str); 7] = [
        (
            1,
            "6e340b9cffb37a989ca544e6bb780a2c78901d3fb33738768511a30617afa01d",
        ),
        (
            2,
            "86c00a08265c84d8dec95f226f7acbbc0dd44910b86b6b5d27c6bab7cfff243b",
        ),
        (
            3,
            "95b94ff540913e58bf343de80d5a0df7cdf937d54f1454d0e51df6da648539f0",
        ),
        (
            5,
            "7af4cf109a1d2ac853684988c706e4a70d9c4fe97042fb7000cadb3fa06fbf97",
        ),
        (
            8,
            "6990a3352282e015e0931fa3d6d7d71e5a0ba7f1f16d3f653d10e6f62fb2e9a8",
        ),
        (
            13,
            "b54721c920f6071607c7215d2cd9e5602aa2e63ed2267528cb8f1c30068e808f",
        ),
        (
            63,
            "a7be5e027930ef0aad654780f884afcd05787988ad3628a724f769225ac434d8",
        ),
    ];
    for &(count, hex) in &rows {
        if count > 0 {
            let tree = LevelTree::build(alloc, HashAlg::Sha256, leaves(alloc, count)?)?;
            assert_eq!(&rt; encode(alloc, tree.root().bytes())?.as_str(), hex);
        }
    }
    Ok(())
}

// What the leaf comes to with the values of its path.
fn folded(alloc: Global, leaf: HashValue, path: &[HashValue]) -> Result<HashValue, AllocError> {
    let mut value = leaf;
    for other in path {
        value = node(alloc, HashAlg::Sha256, &[value, *other])?;
    }
    Ok(value)
}

// The value with one bit turned, by a place that may lie beyond it.
fn turned(value: &HashValue, place: usize) -> HashValue {
    let size = value.bytes().len();
    let mut bytes = [0; 64];
    bytes[..size].copy_from_slice(value.bytes());
    bytes[place % size] ^= 1 << (place % 8);
    HashValue::of(&bytes[..size])
}

#[test]
fn each_path_folds_to_the_root_and_with_a_bit_turned_does_not(rt: HostRuntime) -> Result<(), Fail> {
    let alloc = rt.alloc();
    for count in 1..65 {
        let tree = LevelTree::build(alloc, HashAlg::Sha256, leaves(alloc, count)?)?;
        for place in 0..count {
            let leaf = digest(HashAlg::Sha256, &[place]);
            let mut path = tree.path(alloc, u32::from(place))?.into_vec();
            assert_eq!(&rt; folded(alloc, leaf, path.as_slice())?, tree.root());
            let other = turned(&leaf, usize::from(place));
            assert!(&rt; folded(alloc, other, path.as_slice())? != tree.root());
            for step in 0..path.len() {
                let value = path[step];
                path[step] = turned(&value, usize::from(place));
                assert!(&rt; folded(alloc, leaf, path.as_slice())? != tree.root());
                path[step] = value;
            }
        }
    }
    Ok(())
}
