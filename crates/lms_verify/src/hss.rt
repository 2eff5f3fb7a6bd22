ghost use Rattle.std.specs.Prelude.{◌≡◌, ◌↔◌, true, false, IsTrue, IfSome, MatchOption};
ghost use Rattle.lms_verify.specs.Lms.{lms_verifies};
ghost use Rattle.lms_verify.specs.Hss.{Verifies, levels_verify, next_is_signed, next_key, behind_next};

use crate::key::{LmsKey, SIZE};
use crate::lms::{lms_verify, signature_size};
use hash_kit::{HssPublic, u32_at};

/// Whether the signature of the message verifies under the key (RFC 8554, section 6.3). A signature of another shape
/// doesn't.
#[tactic(auto, unfolding(crate::specs::Hss::hss_verifies))]
pub fn hss_verify(key: &HssPublic, message: &[u8], signature: &[u8]) -> bool
    ensures { IsTrue result ↔ Verifies key.now message.now signature.now }
{
    if signature.len() < 4 {
        return false;
    }
    let signed_keys = u32_at(signature, 0);
    signed_keys == key.levels() - 1
        && levels_verify(signed_keys, key.top_key(), message, &signature[4..])
}

// Whether the message verifies under the key, with so many signed public keys between.
fn levels_verify(count: u32, top_key: &[u8], message: &[u8], signature: &[u8]) -> bool
    ensures { result ≡ levels_verify count top_key.now message.now signature.now }
{
    let mut key = top_key;
    let mut left = signature;
    for level in 0..count {
        let Some((next, behind)) = next_key(key, left) else {
            return false;
        };
        key = next;
        left = behind;
    }
    is_signed(key, message, left)
}

// The next signed public key and what stands behind it, if it is signed under the key.
#[tactic(auto, unfolding(crate::specs::Hss::next_is_signed, crate::specs::Lms::lms_verifies))]
fn next_key<'a>(key: &[u8], signature: &'a [u8]) -> Option<(&'a [u8], &'a [u8])>
    ensures signed { MatchOption result (next_is_signed key.now signature.now ≡ false)
        (λ parts. next_is_signed key.now signature.now ≡ true) }
    ensures key { IfSome result (λ parts. parts.0.now ≡ next_key key.now signature.now) }
    ensures behind { IfSome result (λ parts. parts.1.now ≡ behind_next key.now signature.now) }
{
    let Some(key) = LmsKey::read(key) else {
        return None;
    };
    let size = signature_size(&key);
    if signature.len() < size + SIZE {
        return None;
    }
    let next = &signature[size..size + SIZE];
    if lms_verify(&key, next, &signature[..size]) {
        Some((next, &signature[size + SIZE..]))
    } else {
        None
    }
}

// Whether the message is signed under the LMS public key in these bytes.
#[tactic(auto, unfolding(crate::specs::Lms::lms_verifies))]
fn is_signed(key: &[u8], message: &[u8], signature: &[u8]) -> bool
    ensures { result ≡ lms_verifies key.now message.now signature.now }
{
    match LmsKey::read(key) {
        Some(key) => lms_verify(&key, message, signature),
        None => false,
    }
}
