// What the tokens of a record say.
ghost use Rattle.std.specs.Prelude.{◌≡◌, map, IfOk, IfErr};
ghost use Rattle.evidence_verify.specs.Stamps.{AreSound};
ghost use Rattle.evidence_verify.specs.Verdict.{IsBadStamp};
ghost use Rattle.evidence_verify.specs.Inside.{place_seen, checked_seen, stamp_fault, Blames};
ghost use Rattle.evidence_verify.specs.declared.stamps.StampFault.TheVariants.{Memory};

use crate::place::Place;
use crate::verdict::Verdict;
use algorithm_policy::Policy;
use std::alloc::{AllocFailed, Global};
use token_check::{CheckedStamp, TokenFault, check_token};

/// An archive time-stamp whose token is sound, and what the token says.
#[derive(Clone, Copy)]
pub(crate) struct Checked<'r, 'a> {
    pub place: Place<'r, 'a>,
    pub says: CheckedStamp<'a>,
}

/// Why tokens were not accepted.
#[derive(Clone, Copy)]
pub(crate) enum StampFault {
    /// One is not sound. This is the verdict.
    Bad(Verdict),
    /// Memory ran out. Nothing is said of the tokens.
    Memory,
}

impl<T: Drop> From<AllocFailed<T>> for StampFault {
    ghost from_gives = { λ _ f. f ≡ Memory };

    fn from(_e: AllocFailed<T>) -> StampFault {
        StampFault::Memory
    }
}

/// What each token says, or the verdict on the first that is not sound.
pub(crate) fn sound_stamps<'r, 'a>(
    alloc: Global,
    places: &[Place<'r, 'a>],
    policy: &Policy,
) -> Result<Vec<Checked<'r, 'a>>, StampFault>
    ensures sound { IfOk result (λ stamps. AreSound policy.now (map place_seen places.now) (map checked_seen stamps.items)) }
    ensures fault { IfErr result (Blames (IsBadStamp policy.now (map place_seen places.now))) }
{
    let mut stamps = Vec::new(alloc);
    for place in places {
        match check_token(alloc, place.ats.token, policy) {
            Ok(says) => stamps.push(Checked {
                place: *place,
                says,
            })?,
            Err(fault) => return Err(stamp_fault(place, fault)),
        }
    }
    Ok(stamps)
}

fn stamp_fault(place: &Place<'_, '_>, fault: TokenFault) -> StampFault
    ensures { result ≡ stamp_fault (place_seen place.now) fault }
{
    match fault {
        TokenFault::Check(check) => StampFault::Bad(Verdict::BadStamp {
            chain: place.chain,
            stamp: place.stamp,
            check,
        }),
        TokenFault::Memory => StampFault::Memory,
    }
}
