// The archive time-stamps of a record in order, each in its place.
ghost use Rattle.std.specs.Prelude.{◌≡◌, ◌<◌, ◌^◌, ◌++◌, length, map, IfOk, OnOk};
ghost use Rattle.std.specs.List.{AllByRecursion};
ghost use Rattle.evidence_syntax.specs.Stamps.{stamp_seen, chains_seen};
ghost use Rattle.evidence_verify.specs.Stamps.{places_in, places_of};
ghost use Rattle.evidence_verify.specs.InsideChains.{AreShort, HasTree, WereRead};
ghost use Rattle.evidence_verify.specs.Inside.{place_seen};

use crate::place::Place;
use evidence_syntax::{Ats, Chain};
use std::alloc::{AllocError, Global};

/// Each archive time-stamp in its place.
pub(crate) fn places<'r, 'a>(
    alloc: Global,
    chains: &'r [Chain<'a>],
) -> Result<Vec<Place<'r, 'a>>, AllocError>
    requires { WereRead (chains_seen chains.now) }
    ensures { IfOk result (λ places. map place_seen places.items ≡ places_of (chains_seen chains.now)) }
{
    let mut places = Vec::new(alloc);
    let mut number = 0;
    for chain in chains {
        add_places(&mut places, &chains[..number], chain.stamps.as_slice())?;
        number += 1;
    }
    Ok(places)
}

// Adds the places of a chain's time-stamps.
fn add_places<'r, 'a>(
    places: &mut Vec<Place<'r, 'a>>,
    older: &'r [Chain<'a>],
    stamps: &'r [Ats<'a>],
) -> Result<(), AllocError>
    requires short { AreShort (chains_seen older.now) }
    requires few_chains { length older.now < 2 ^ 32 }
    requires few_stamps { length stamps.now < 2 ^ 32 }
    requires trees { AllByRecursion HasTree (map stamp_seen stamps.now) }
    ensures { OnOk result (map place_seen places.new.items
        ≡ map place_seen places.old.items ++ places_in (chains_seen older.now) 0 (map stamp_seen stamps.now)) }
{
    let chain = older.len() as u32;
    let mut stamp = 0;
    for ats in stamps {
        places.push(Place {
            older,
            chain,
            stamp,
            ats,
        })?;
        stamp += 1;
    }
    Ok(())
}
