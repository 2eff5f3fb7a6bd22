// One hash in each chain.
ghost use Rattle.std.specs.Prelude.{◌≡◌, map};
ghost use Rattle.std.specs.Option.{option_map};
ghost use Rattle.der_values.specs.Algorithm.{name_seen};
ghost use Rattle.evidence_verify.specs.Hashes.{is_hash, is_named, chain_hash, has_one_hash, mixed_after, mixed_fault};
ghost use Rattle.evidence_verify.specs.Inside.{checked_seen};

use crate::stamps::Checked;
use crate::verdict::Verdict;
use der_values::AlgName;
use hash_kit::HashAlg;
use token_check::known_hash;

/// The first time-stamp of another hash than its chain, or than the one that is named.
pub(crate) fn mixed_fault(stamps: &[Checked<'_, '_>]) -> Option<Verdict>
    ensures { result ≡ mixed_fault (map checked_seen stamps.now) }
{
    match stamps.first() {
        Some(first) => mixed_after(first.says.alg, stamps),
        None => None,
    }
}

fn mixed_after(first: HashAlg, stamps: &[Checked<'_, '_>]) -> Option<Verdict>
    ensures { result ≡ mixed_after first (map checked_seen stamps.now) }
{
    let mut hash = first;
    for stamp in stamps {
        if !has_one_hash(hash, stamp) {
            return Some(Verdict::MixedHash {
                chain: stamp.place.chain,
                stamp: stamp.place.stamp,
            });
        }
        hash = chain_hash(hash, stamp);
    }
    None
}

// The hash of the chain: that of its first time-stamp.
fn chain_hash(so_far: HashAlg, stamp: &Checked<'_, '_>) -> HashAlg
    ensures { result ≡ chain_hash so_far (checked_seen stamp.now) }
{
    if stamp.place.stamp == 0 {
        stamp.says.alg
    } else {
        so_far
    }
}

fn has_one_hash(so_far: HashAlg, stamp: &Checked<'_, '_>) -> bool
    ensures { result ≡ has_one_hash so_far (checked_seen stamp.now) }
{
    is_named(stamp.says.alg, &stamp.place.ats.algorithm)
        && stamp.says.alg == chain_hash(so_far, stamp)
}

// Whether the archive time-stamp names no other hash.
fn is_named(alg: HashAlg, name: &Option<AlgName<'_>>) -> bool
    ensures { result ≡ is_named alg (option_map name_seen name.now) }
{
    match name {
        Some(name) => is_hash(alg, known_hash(name)),
        None => true,
    }
}

fn is_hash(alg: HashAlg, other: Option<HashAlg>) -> bool
    ensures { result ≡ is_hash alg other }
{
    match other {
        Some(other) => alg == other,
        None => false,
    }
}
