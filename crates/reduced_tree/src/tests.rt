// The roots of small lists, computed by another program, and what a first list has.
ghost use Rattle.std.specs.Prelude.{◌<◌, length, IfOk};
ghost use Rattle.reduced_tree.specs.Reduced.{AreFull};

use crate::{contains_first, is_whole, roots};
use der_values::Items;
use hash_kit::{HashAlg, HashValue, digest};
use hex::encode;
use std::alloc::{AllocError, Global};
use std::test::Fail;

// A list of one or two values, and then one of one value where there is one.
fn lists(
    alloc: Global,
    value: HashValue,
    other: Option<HashValue>,
    later: Option<HashValue>,
) -> Result<Items<Items<HashValue>>, AllocError>
    ensures some { IfOk result (λ lists. 0 < length lists) }
    ensures full { IfOk result AreFull }
{
    let mut first = Vec::new(alloc);
    first.push(value)?;
    if let Some(other) = other {
        first.push(other)?;
    }
    let mut lists = Vec::new(alloc);
    lists.push(Items::from_vec(first))?;
    if let Some(later) = later {
        let mut second = Vec::new(alloc);
        second.push(later)?;
        lists.push(Items::from_vec(second))?;
    }
    Ok(Items::from_vec(lists))
}

// SHA-256 of the empty text is `v`, that of `abc` is `w`.
#[test]
fn a_first_list_of_one_value_leads_to_two_roots(rt: HostRuntime) -> Result<(), Fail> {
    let alloc = rt.alloc();
    let v = digest(HashAlg::Sha256, b"");
    let w = digest(HashAlg::Sha256, b"abc");
    let rows: [(Option<HashValue>, Option<HashValue>, &str, Option<&str>); 4] = [
        (
            None,
            None,
            "e3b0c44298fc1c149afbf4c8996fb92427ae41e4649b934ca495991b7852b855",
            Some("5df6e0e2761359d30a8275058e299fcc0381534545f55cf43e41983f5d4c9456"),
        ),
        (
            None,
            Some(w),
            "6f1290896ee81a0349174d19f4473d267a10289c40480861d5c42affffbd79f9",
            Some("1a91510852cd70fcac44ab4ab68b6fa5af0499236de73722bc2e459192671116"),
        ),
        (
            Some(w),
            None,
            "6f1290896ee81a0349174d19f4473d267a10289c40480861d5c42affffbd79f9",
            None,
        ),
        (
            Some(w),
            Some(v),
            "8980a99b17c2e3402f1f0ae6c01c539272d761b8227470684ac724da0b3508a3",
            None,
        ),
    ];
    for &(other, later, plain, hashed) in &rows {
        let found = roots(alloc, HashAlg::Sha256, &lists(alloc, v, other, later)?)?;
        assert_eq!(&rt; encode(alloc, found.plain.bytes())?.as_str(), plain);
        assert_eq!(&rt; found.other.is_some(), hashed.is_some());
        if let (Some(found), Some(hashed)) = (found.other, hashed) {
            assert_eq!(&rt; encode(alloc, found.bytes())?.as_str(), hashed);
        }
    }
    Ok(())
}

#[test]
fn a_value_is_asked_of_the_first_list_alone(rt: HostRuntime) -> Result<(), Fail> {
    let alloc = rt.alloc();
    let v = digest(HashAlg::Sha256, b"");
    let w = digest(HashAlg::Sha256, b"abc");
    let one = lists(alloc, v, None, Some(w))?;
    let two = lists(alloc, v, Some(w), None)?;
    assert!(&rt; contains_first(&one, &v));
    assert!(&rt; !contains_first(&one, &w));
    assert!(&rt; contains_first(&two, &w));
    assert!(&rt; is_whole(&one, &[w, v]));
    assert!(&rt; !is_whole(&one, &[w]));
    assert!(&rt; is_whole(&two, &[w, v]));
    assert!(&rt; !is_whole(&two, &[v]));
    assert!(&rt; !is_whole(&two, &[]));
    Ok(())
}
