// The key of a trial authority.
ghost use Rattle.std.specs.Prelude.{◌≡◌, IfOk};
ghost use Rattle.trial_authority.specs.Key.{trial_key, public_of};

use hash_kit::HssPublic;
use lms_sign::{HssKey, from_seed};
use std::alloc::{AllocError, Global};

/// The seed of the program's authority: the bytes 00 to 1f. It is public, so what it signs proves nothing to others.
pub const TRIAL_SEED: [u8; 32] = [
    0, 1, 2, 3, 4, 5, 6, 7, 8, 9, 10, 11, 12, 13, 14, 15, 16, 17, 18, 19, 20, 21, 22, 23, 24, 25,
    26, 27, 28, 29, 30, 31,
];

/// The number of levels of the key, and the types of its trees: height 5, digits of 4 bits. So it has 1,024 indexes.
const LEVELS: u32 = 2;

const LMS_TYPE: u32 = 5;

const OTS_TYPE: u32 = 3;

/// The HSS public key of the authority of this seed.
pub fn trial_public(alloc: Global, seed: &[u8; 32]) -> Result<HssPublic, AllocError>
    ensures { IfOk result (λ key. key ≡ public_of seed.now) }
{
    Ok(key_of(alloc, seed)?.public())
}

/// The key that comes from a seed.
pub(crate) fn key_of(alloc: Global, seed: &[u8; 32]) -> Result<HssKey, AllocError>
    ensures { IfOk result (λ key. key ≡ trial_key seed.now) }
{
    from_seed(alloc, seed, LEVELS, LMS_TYPE, OTS_TYPE)
}
