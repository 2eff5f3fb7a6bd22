// The hashes of a group's time-stamps.
ghost use Rattle.std.specs.Prelude.{◌≡◌, [], map, IfOk};
ghost use Rattle.std.specs.List.{list_any};
ghost use Rattle.der_values.specs.Algorithm.{name_seen};
ghost use Rattle.archive_chain.specs.Kept.{is_same};
ghost use Rattle.archive_chain.specs.Sequence.{name_of};
ghost use Rattle.archive_issue.specs.Record.{with_hash, each_once};

use archive_chain::Covering;
use der_values::{AlgName, Items};
use hash_kit::HashAlg;
use std::alloc::{AllocError, Global};

/// The name of each hash, once, in order of first use.
pub(crate) fn hash_names(
    alloc: Global,
    coverings: &[Covering<'_>],
) -> Result<Items<AlgName<'static>>, AllocError>
    ensures { IfOk result (λ names. map name_seen names ≡ map name_of (each_once [] (map (λ c. c.alg) coverings.now))) }
{
    let hashes = hashes(alloc, coverings)?;
    names(alloc, hashes.as_slice())
}

fn hashes(alloc: Global, coverings: &[Covering<'_>]) -> Result<Vec<HashAlg>, AllocError>
    ensures { IfOk result (λ hashes. hashes.items ≡ each_once [] (map (λ c. c.alg) coverings.now)) }
{
    let mut found = Vec::new(alloc);
    for covering in coverings {
        found = with_hash(found, covering.alg)?;
    }
    Ok(found)
}

fn with_hash(found: Vec<HashAlg>, alg: HashAlg) -> Result<Vec<HashAlg>, AllocError>
    ensures { IfOk result (λ hashes. hashes.items ≡ with_hash found.items alg) }
{
    let mut hashes = found;
    if !has(hashes.as_slice(), alg) {
        hashes.push(alg)?;
    }
    Ok(hashes)
}

fn has(hashes: &[HashAlg], alg: HashAlg) -> bool
    ensures { result ≡ list_any (is_same alg) hashes.now }
{
    hashes.iter().any(|other| is_same(alg, *other))
}

fn is_same(alg: HashAlg, other: HashAlg) -> bool
    ensures { result ≡ is_same alg other }
{
    alg == other
}

fn names(alloc: Global, hashes: &[HashAlg]) -> Result<Items<AlgName<'static>>, AllocError>
    ensures { IfOk result (λ names. map name_seen names ≡ map name_of hashes.now) }
{
    let mut names = Vec::new(alloc);
    for alg in hashes {
        names.push(AlgName {
            oid: alg.oid(),
            params: None,
        })?;
    }
    Ok(Items::from_vec(names))
}
