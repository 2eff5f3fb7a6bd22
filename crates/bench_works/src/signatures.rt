ghost use Rattle.std.specs.Prelude.{◌≡◌, ◌↔◌, ◌⊎◌, ◌-◌, ◌<◌, IfOk, IsTrue};
ghost use Rattle.lms_verify.specs.Hss.{Verifies};
ghost use Rattle.lms_sign.specs.Hss.{hss_signature};

use hash_kit::HssPublic;
use lms_sign::{HssKey, SignFault};
use lms_verify::hss_verify;
use std::alloc::Global;

/// Whether the signature verifies each time, in so many checks.
pub fn all_verify(key: &HssPublic, message: &[u8], signature: &[u8], count: u32) -> bool
    ensures { IsTrue result ↔ ((count ≡ 0) ⊎ Verifies key.now message.now signature.now) }
{
    let mut all = true;
    for done in 0..count {
        all = hss_verify(key, message, signature) && all;
    }
    all
}

/// The signatures of a message by the first indexes, of which the last is given.
pub fn last_signature(
    alloc: Global,
    key: &HssKey,
    message: &[u8],
    count: u32,
) -> Result<Vec<u8>, SignFault>
    requires some { 0 < count }
    ensures { IfOk result (λ s. s.items ≡ hss_signature key.now (count - 1) message.now) }
{
    for index in 0..count - 1 {
        key.sign(alloc, index, message)?;
    }
    key.sign(alloc, count - 1, message)
}
