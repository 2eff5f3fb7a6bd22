ghost use Rattle.std.specs.Prelude.{◌≡◌, ◌+◌, ◌-◌, ◌*◌, ◌/◌, ◌^◌, ◌<◌, ◌≤◌, ◌∷◌, ◌++◌, length, take, drop};
ghost use Rattle.std.specs.Int.{w16, w32, to_be_bytes};
ghost use Rattle.hash_kit.specs.Digest.{digest_of};
ghost use Rattle.lms_verify.specs.Ots.{IsSet, set_of, coef, checksum, with_checksum, after_steps, end_of, message_hash, ots_candidate};

use crate::hashing::{ONE_TIME_KEY, marked};
use hash_kit::{HashAlg, HashValue, digest};

/// A parameter set of LM-OTS (RFC 8554, section 4.1): the bits of a digit, the number of digits, and the shift of the
/// checksum.
#[derive(Clone, Copy, Debug, Drop)]
pub struct OtsSet {
    pub width: usize,
    pub digits: usize,
    pub shift: u32,
}

/// The parameter set of a type from 1 to 4.
pub fn set_of(ots_type: u32) -> OtsSet
    ensures value { result ≡ set_of ots_type }
    ensures known { IsSet result }
    ensures few { result.digits ≤ 265 }
{
    match ots_type {
        1 => set(1, 265, 7),
        2 => set(2, 133, 6),
        3 => set(4, 67, 4),
        _ => set(8, 34, 0),
    }
}

fn set(width: usize, digits: usize, shift: u32) -> OtsSet
    ensures { result ≡ record { width = width; digits = digits; shift = shift } }
{
    OtsSet {
        width,
        digits,
        shift,
    }
}

/// The greatest digit, 2^w - 1.
pub fn greatest(set: &OtsSet) -> u8
    requires { IsSet set.now }
    ensures { result ≡ 2 ^ set.now.width - 1 }
{
    u8::MAX >> (8 - set.width)
}

/// Digit i of these bytes (RFC 8554, section 3.1.3).
#[tactic(auto, unfolding(crate::specs::Ots::coef))]
pub fn coef(bytes: &[u8], i: usize, set: &OtsSet) -> u8
    requires set { IsSet set.now }
    requires digit { i ≤ 265 }
    requires within { i * set.now.width / 8 < length bytes.now }
    ensures value { result ≡ coef bytes.now i set.now.width }
    ensures most { result ≤ 2 ^ set.now.width - 1 }
{
    let byte = bytes[i * set.width / 8];
    let behind = 8 - (set.width * (i % (8 / set.width)) + set.width);
    greatest(set) & (byte >> behind)
}

// The sum of what the digits of a hash lack to the greatest digit, shifted to the left.
fn checksum(bytes: &[u8], set: &OtsSet) -> u16
    requires set { IsSet set.now }
    requires size { length bytes.now ≡ 32 }
    ensures { result ≡ checksum set.now bytes.now }
{
    let mut lacking: u16 = 0;
    for i in 0..256 / set.width {
        lacking += (greatest(set) - coef(bytes, i, set)) as u16;
    }
    lacking << set.shift
}

/// The hash of a message and its checksum (RFC 8554, section 4.4), of which the digits are taken.
pub fn with_checksum(bytes: &[u8], set: &OtsSet) -> [u8; 34]
    requires set { IsSet set.now }
    requires size { length bytes.now ≡ 32 }
    ensures { result ≡ with_checksum set.now bytes.now }
{
    let mut digits = [0; 34];
    digits[..32].copy_from_slice(bytes);
    digits[32..].copy_from_slice(&checksum(bytes, set).to_be_bytes());
    digits
}

// Writes a part over the bytes from this place on.
fn write_at(bytes: &mut [u8], place: usize, part: &[u8])
    requires { place + length part.now ≤ length bytes.old }
    ensures written { take (place + length part.now) bytes.new ≡ take place bytes.old ++ part.now }
{
    bytes[place..place + part.len()].copy_from_slice(part);
}

// What a step hashes, I || u32str(q) || u16str(i) || u8str(j) || value, but for j.
fn step_message(identifier: &[u8], leaf: u32, i: u16, value: &[u8]) -> [u8; 55]
    requires identifier { length identifier.now ≡ 16 }
    requires value { length value.now ≡ 32 }
    ensures head { take 22 result ≡ identifier.now ++ to_be_bytes w32 leaf ++ to_be_bytes w16 i }
    ensures value { drop 23 result ≡ value.now }
{
    let mut message = [0; 55];
    write_at(&mut message, 0, identifier);
    write_at(&mut message, 16, &leaf.to_be_bytes());
    write_at(&mut message, 20, &i.to_be_bytes());
    write_at(&mut message, 23, value);
    message
}

// Step j: in the message the value gives way to the hash of the message.
fn chain_step(message: &mut [u8], j: u8)
    requires { length message.old ≡ 55 }
    ensures head { take 22 message.new ≡ take 22 message.old }
    ensures value { drop 23 message.new
        ≡ digest_of HashAlg.Sha256 (take 22 message.old ++ j ∷ drop 23 message.old) }
{
    message[22] = j;
    let value = digest(HashAlg::Sha256, message);
    write_at(message, 23, value.bytes());
}

/// The value of digit i after the steps `first` to `end` - 1 (RFC 8554, section 4.3). A step is one block of SHA-256.
pub fn after_steps(
    identifier: &[u8],
    leaf: u32,
    i: u16,
    first: u8,
    end: u8,
    start: &[u8],
) -> HashValue
    requires identifier { length identifier.now ≡ 16 }
    requires steps { first ≤ end }
    requires size { length start.now ≡ 32 }
    ensures value { result ≡ after_steps (end - first) identifier.now leaf i first start.now }
    ensures size { length result ≡ 32 }
{
    let mut message = step_message(identifier, leaf, i, start);
    for step in first..end {
        chain_step(&mut message, step);
    }
    HashValue::of(&message[23..])
}

// The end of the chain of digit i, z[i].
#[tactic(auto, unfolding(crate::specs::Ots::end_of))]
fn end_of(
    set: &OtsSet,
    identifier: &[u8],
    leaf: u32,
    digits: &[u8],
    values: &[u8],
    i: usize,
) -> HashValue
    requires set { IsSet set.now }
    requires identifier { length identifier.now ≡ 16 }
    requires digits { length digits.now ≡ 34 }
    requires values { length values.now ≡ 32 * set.now.digits }
    requires digit { i < set.now.digits }
    ensures { result ≡ end_of set.now identifier.now leaf digits.now values.now i }
{
    let first = coef(digits, i, set);
    let start = &values[32 * i..32 * i + 32];
    after_steps(identifier, leaf, i as u16, first, greatest(set), start)
}

// The one-time public key that the hash of a message and its signature lead to, Kc (RFC 8554, section 4.6, algorithm
// 4b). One hasher runs over the ends of the chains.
pub(crate) fn ots_candidate(
    set: &OtsSet,
    identifier: &[u8],
    leaf: u32,
    message_hash: &[u8],
    values: &[u8],
) -> HashValue
    requires set { IsSet set.now }
    requires identifier { length identifier.now ≡ 16 }
    requires hash { length message_hash.now ≡ 32 }
    requires values { length values.now ≡ 32 * set.now.digits }
    ensures value { result ≡ ots_candidate set.now identifier.now leaf message_hash.now values.now }
{
    let digits = with_checksum(message_hash, set);
    let mut hasher = marked(identifier, leaf, ONE_TIME_KEY);
    for i in 0..set.digits {
        let end = end_of(set, identifier, leaf, &digits, values, i);
        hasher.update(end.bytes());
    }
    hasher.finish()
}
