ghost use Rattle.std.specs.Prelude.{◌≡◌, ◌↔◌, ◌+◌, ◌^◌, ◌<◌, ◌≤◌, ◌++◌, length, slice_get, Some, IsOk, IfOk};
ghost use Rattle.der_values.specs.Value.{extra, number, BeginsWithValue};
ghost use Rattle.der_values.specs.Steps.{Gives};
ghost use Rattle.der_values.specs.Next.{long_length_at, length_at, value_at, seen, IsValue};

use crate::fault::{DerFault, DerKind};
use crate::tlv::Tlv;

fn number_of(octets: &[u8]) -> u32
    requires { length octets.now ≤ 4 }
    ensures { result ≡ number octets.now }
{
    match octets {
        [] => 0,
        [a] => *a as u32,
        [a, b] => *a as u32 * 256 + *b as u32,
        [a, b, c] => *a as u32 * 65536 + (*b as u32 * 256 + *c as u32),
        [a, b, c, d] => *a as u32 * 16777216 + (*b as u32 * 65536 + (*c as u32 * 256 + *d as u32)),
        _ => unreachable!(),
    }
}

/// How many octets of a length follow its first one.
#[tactic(auto, unfolding(crate::specs::Value::extra))]
pub(crate) fn extra_of(len: u32) -> usize
    ensures extra { result ≡ extra len }
    ensures few { result ≤ 4 }
    ensures short { (result ≡ 0) ↔ (len < 128) }
{
    match len {
        0..0x80 => 0,
        0x80..0x100 => 1,
        0x100..0x1_0000 => 2,
        0x1_0000..0x100_0000 => 3,
        _ => 4,
    }
}

#[tactic(auto, unfolding(crate::specs::Next::long_length_at))]
fn long_length(bytes: &[u8], count: usize, place: u64) -> Result<(u32, &[u8]), DerFault>
    requires count { count ≤ 4 }
    requires room { place + length bytes.now < 2 ^ 63 }
    ensures read { Gives (λ x. (x.0, x.1.now)) result (long_length_at (place + 1 + length bytes.now) place count bytes.now) }
    ensures shorter { IfOk result (λ x. length x.1.now ≤ length bytes.now) }
{
    if bytes.len() < count {
        return Err(DerFault::at(place + 1 + bytes.len() as u64, DerKind::Truncated));
    }
    let (octets, rest) = bytes.split_at(count);
    let len = number_of(octets);
    if extra_of(len) != count {
        return Err(DerFault::at(place, DerKind::NotMinimal));
    }
    Ok((len, rest))
}

#[tactic(auto, unfolding(crate::specs::Next::length_at))]
fn length_of(bytes: &[u8], place: u64) -> Result<(u32, &[u8]), DerFault>
    requires { place + length bytes.now < 2 ^ 63 }
    ensures read { Gives (λ x. (x.0, x.1.now)) result (length_at (place + length bytes.now) place bytes.now) }
    ensures shorter { IfOk result (λ x. length x.1.now ≤ length bytes.now) }
{
    match bytes {
        [] => Err(DerFault::at(place, DerKind::Truncated)),
        [first @ 0..0x80, rest @ ..] => Ok((*first as u32, rest)),
        [0x80, ..] => Err(DerFault::at(place, DerKind::Indefinite)),
        [first @ 0x81..=0x84, rest @ ..] => long_length(rest, (*first - 0x80) as usize, place),
        _ => Err(DerFault::at(place, DerKind::LongForm)),
    }
}

// The tag, the contents and what follows them.
#[tactic(auto, unfolding(crate::specs::Next::value_at))]
fn parts_of(bytes: &[u8], place: u64) -> Result<(u8, &[u8], &[u8]), DerFault>
    requires { place + length bytes.now < 2 ^ 63 }
    ensures read { Gives (λ x. (record { place = place; tag = x.0; content = x.1.now }, x.2.now)) result (value_at place bytes.now) }
    ensures shorter { IfOk result (λ x. length x.2.now < length bytes.now) }
    ensures first { IfOk result (λ x. slice_get bytes.now 0 ≡ Some x.0) }
{
    let [tag, after @ ..] = bytes else {
        return Err(DerFault::at(place, DerKind::Truncated));
    };
    if *tag % 32 == 31 {
        return Err(DerFault::at(place, DerKind::HighTag));
    }
    let (len, rest) = length_of(after, place + 1)?;
    if rest.len() < len as usize {
        return Err(DerFault::at(place + bytes.len() as u64, DerKind::Truncated));
    }
    let (content, rest) = rest.split_at(len as usize);
    Ok((*tag, content, rest))
}

/// The value at the front of the bytes, which begin at the place, and the bytes after it.
pub(crate) fn split_value(bytes: &[u8], place: u64) -> Result<(Tlv<'_>, &[u8]), DerFault>
    requires { place + length bytes.now < 2 ^ 63 }
    ensures read { Gives (λ x. (seen x.0, x.1.now)) result (value_at place bytes.now) }
    ensures exactly { IsOk result ↔ BeginsWithValue bytes.now }
    ensures value { IfOk result (λ x. IsValue x.0) }
    ensures front { IfOk result (λ x. bytes.now ≡ x.0.whole.now ++ x.1.now) }
    ensures shorter { IfOk result (λ x. length x.1.now < length bytes.now) }
    ensures first { IfOk result (λ x. slice_get bytes.now 0 ≡ Some x.0.tag) }
{
    let (tag, content, rest) = parts_of(bytes, place)?;
    let whole = &bytes[..bytes.len() - rest.len()];
    let value = Tlv {
        tag,
        place,
        content,
        whole,
    };
    Ok((value, rest))
}
