// The values that the time-stamps have to cover.
ghost use Rattle.std.specs.Prelude.{◌≡◌, ◌≤◌, [], ◌∷◌, ◌++◌, length, map, IfOk, OnOk};
ghost use Rattle.std.specs.List.{flat_map};
ghost use Rattle.evidence_syntax.specs.Stamps.{chains_seen};
ghost use Rattle.evidence_syntax.specs.Text.{chain_text};
ghost use Rattle.evidence_verify.specs.Values.{owed_values, owed_by};
ghost use Rattle.evidence_verify.specs.InsideChains.{AreShort, BeginsWith};
ghost use Rattle.evidence_verify.specs.Inside.{checked_seen, owed_seen, places_seen, GoOn};

use crate::owed::Owed;
use crate::stamps::Checked;
use der_values::Bytes;
use evidence_syntax::{Chain, OlderChains};
use hash_kit::{HashValue, digest};
use std::alloc::{AllocError, Global};

/// Each time-stamp with the values that it has to cover. Each chain is written once, when its successor comes.
pub(crate) fn owed_by<'r, 'a>(
    alloc: Global,
    documents: &[Bytes],
    stamps: &[Checked<'r, 'a>],
) -> Result<Vec<Owed<'r, 'a>>, AllocError>
    requires few { length documents.now ≤ 64 }
    requires go_on { GoOn [] (places_seen stamps.now) }
    ensures { IfOk result (λ all_owed. map owed_seen all_owed.items ≡ owed_by documents.now (map checked_seen stamps.now)) }
{
    let mut all_owed = Vec::new(alloc);
    let mut older = OlderChains::new(alloc);
    let mut passed: &[Chain<'a>] = no_chains();
    let mut before: &[u8] = &[];
    for stamp in stamps {
        add_further(&mut older, passed, stamp.place.older)?;
        passed = stamp.place.older;
        let values = owed_values(alloc, documents, &older, before, stamp)?;
        all_owed.push(Owed {
            stamp: *stamp,
            values,
        })?;
        before = stamp.place.ats.token;
    }
    Ok(all_owed)
}

fn no_chains<'r, 'a>() -> &'r [Chain<'a>]
    ensures { result.now ≡ [] }
{
    &[]
}

// Adds those of these chains that come after the passed ones.
fn add_further(
    older: &mut OlderChains,
    passed: &[Chain<'_>],
    chains: &[Chain<'_>],
) -> Result<(), AllocError>
    requires short { AreShort (chains_seen chains.now) }
    requires begins { BeginsWith (chains_seen passed.now) (chains_seen chains.now) }
    requires written { older.old ≡ flat_map chain_text (chains_seen passed.now) }
    ensures { OnOk result (older.new ≡ flat_map chain_text (chains_seen chains.now)) }
{
    add_all(older, &chains[passed.len()..])
}

fn add_all(older: &mut OlderChains, chains: &[Chain<'_>]) -> Result<(), AllocError>
    requires { AreShort (chains_seen chains.now) }
    ensures { OnOk result (older.new ≡ older.old ++ flat_map chain_text (chains_seen chains.now)) }
{
    for chain in chains {
        older.add(chain)?;
    }
    Ok(())
}

// The values of the documents for the first time-stamp of a chain, and the digest of the token before it for a later one.
#[tactic(auto, unfolding(crate::specs::Values::owed_values))]
fn owed_values(
    alloc: Global,
    documents: &[Bytes],
    older: &OlderChains,
    before: &[u8],
    stamp: &Checked<'_, '_>,
) -> Result<Vec<HashValue>, AllocError>
    requires few { length documents.now ≤ 64 }
    requires written { older.now ≡ flat_map chain_text (chains_seen stamp.now.place.older.now) }
    ensures values { IfOk result (λ values. values.items ≡ owed_values documents.now before.now (checked_seen stamp.now)) }
    ensures few { IfOk result (λ values. length values.items ≤ 64) }
{
    if stamp.place.stamp == 0 {
        older.values(stamp.says.alg, documents)
    } else {
        only(alloc, digest(stamp.says.alg, before))
    }
}

fn only(alloc: Global, value: HashValue) -> Result<Vec<HashValue>, AllocError>
    ensures { IfOk result (λ values. values.items ≡ value ∷ []) }
{
    let mut values = Vec::new(alloc);
    values.push(value)?;
    Ok(values)
}
