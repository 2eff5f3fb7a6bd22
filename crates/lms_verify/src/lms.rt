ghost use Rattle.std.specs.Prelude.{◌≡◌, ◌+◌, ◌*◌, ◌^◌, ◌<◌, ◌≤◌, length, IsTrue};
ghost use Rattle.hash_kit.specs.HssKey.{lms_type_of};
ghost use Rattle.lms_verify.specs.Lms.{height_of, size_of, leaf_in, randomizer_in, values_in, path_in, parent_of, root_candidate, root_by, has_form, lms_verifies};

use crate::hashing::{INNER, LEAF, MESSAGE, hash};
use crate::key::LmsKey;
use crate::ots::{OtsSet, ots_candidate};
use hash_kit::{HashValue, u32_at};

// The node above node r and its sibling, which is the left one where r is odd.
#[tactic(auto, unfolding(crate::specs::Lms::parent_of))]
fn parent_of(identifier: &[u8], r: u32, node: &[u8], sibling: &[u8]) -> HashValue
    ensures value { result ≡ parent_of identifier.now r node.now sibling.now }
    ensures size { length result ≡ 32 }
{
    if r % 2 == 1 {
        hash(identifier, r / 2, INNER, sibling, node)
    } else {
        hash(identifier, r / 2, INNER, node, sibling)
    }
}

// The root that a one-time public key leads to from its leaf, Tc (RFC 8554, section 5.4.2, algorithm 6a).
fn root_candidate(
    identifier: &[u8],
    height: u32,
    leaf: u32,
    ots_key: &[u8],
    path: &[u8],
) -> HashValue
    requires height { height ≤ 25 }
    requires leaf { leaf < 2 ^ height }
    requires path { length path.now ≡ 32 * height }
    ensures { result ≡ root_candidate identifier.now height leaf ots_key.now path.now }
{
    let mut r = (1 << height) + leaf;
    let mut node = hash(identifier, r, LEAF, &[], ots_key);
    let mut rest = path;
    for level in 0..height {
        let (sibling, above) = rest.split_at(32);
        node = parent_of(identifier, r, node.bytes(), sibling);
        rest = above;
        r /= 2;
    }
    node
}

// The parts of a signature: the randomizer C, the values y and the path.
fn parts<'a>(set: &OtsSet, signature: &'a [u8]) -> (&'a [u8], &'a [u8], &'a [u8])
    requires digits { set.now.digits ≤ 265 }
    requires size { 44 + 32 * set.now.digits ≤ length signature.now }
    ensures randomizer { result.0.now ≡ randomizer_in signature.now }
    ensures values { result.1.now ≡ values_in set.now signature.now }
    ensures values_size { length result.1.now ≡ 32 * set.now.digits }
    ensures path { result.2.now ≡ path_in set.now signature.now }
    ensures path_size { length result.2.now + (44 + 32 * set.now.digits) ≡ length signature.now }
{
    let (_, path) = signature.split_at(44 + 32 * set.digits);
    let (values, _) = signature[40..].split_at(32 * set.digits);
    (&signature[8..40], values, path)
}

// The root that a message and its signature lead to.
fn root_by(key: &LmsKey<'_>, message: &[u8], signature: &[u8]) -> HashValue
    requires size { length signature.now ≡ size_of key.now }
    requires leaf { leaf_in signature.now < 2 ^ height_of (lms_type_of key.now) }
    ensures { result ≡ root_by key.now message.now signature.now }
{
    let set = key.set();
    let leaf = u32_at(signature, 0);
    let (randomizer, values, path) = parts(&set, signature);
    let message_hash = hash(key.identifier(), leaf, MESSAGE, randomizer, message);
    let ots_key = ots_candidate(&set, key.identifier(), leaf, message_hash.bytes(), values);
    root_candidate(key.identifier(), key.height(), leaf, ots_key.bytes(), path)
}

// The bytes of a signature under a key.
pub(crate) fn signature_size(key: &LmsKey<'_>) -> usize
    ensures value { result ≡ size_of key.now }
    ensures most { result ≤ 10_000 }
{
    4 + (4 + 32 + 32 * key.set().digits) + 4 + 32 * key.height() as usize
}

// Whether a signature has the size of the key's types and names them, and its leaf is one of the tree's.
#[tactic(auto, unfolding(crate::specs::Lms::has_form))]
fn has_form(key: &LmsKey<'_>, signature: &[u8]) -> bool
    ensures value { result ≡ has_form key.now signature.now }
    ensures size { IsTrue result → length signature.now ≡ size_of key.now }
    ensures leaf { IsTrue result → leaf_in signature.now < 2 ^ height_of (lms_type_of key.now) }
{
    signature.len() == signature_size(key)
        && u32_at(signature, 4) == key.ots_type()
        && u32_at(signature, 40 + 32 * key.set().digits) == key.lms_type()
        && u32_at(signature, 0) < 1 << key.height()
}

// Whether the message is signed under the key (RFC 8554, section 5.4.2, algorithm 6).
#[tactic(auto, unfolding(crate::specs::Lms::lms_verifies))]
pub(crate) fn lms_verify(key: &LmsKey<'_>, message: &[u8], signature: &[u8]) -> bool
    ensures { result ≡ lms_verifies key.now message.now signature.now }
{
    let root = key.root();
    has_form(key, signature) && root_by(key, message, signature).bytes() == root
}
