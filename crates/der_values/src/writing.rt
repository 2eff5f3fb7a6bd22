ghost use Rattle.std.specs.Prelude.{◌≡◌, ◌≢◌, ◌+◌, ◌%◌, ◌^◌, ◌<◌, ◌≤◌, ◌++◌, length, vec_len, vec_capacity, IfOk, OnOk, OnErr};
ghost use Rattle.std.specs.Option.{option_map};
ghost use Rattle.der_values.specs.Value.{extra, length_octets, value, bytes_or_none};
ghost use Rattle.der_values.specs.Algorithm.{name_seen, name_contents};

use crate::algorithm::AlgName;
use crate::header::extra_of;
use std::alloc::{AllocError, Global};

// The octets of a length. There is no fault where there is room for them.
#[tactic(auto, using(crate::proofs::Values::short_is))]
fn push_length(out: &mut Vec<u8>, len: u32) -> Result<(), AllocError>
    ensures ok { OnOk result (out.new.items ≡ out.old.items ++ length_octets len) }
    ensures len { OnOk result (vec_len out.new ≡ vec_len out.old + 1 + extra len) }
    ensures capacity { vec_capacity out.old ≤ vec_capacity out.new }
    ensures full { OnErr result (vec_capacity out.old < vec_len out.old + 1 + extra len) }
{
    let extra = extra_of(len);
    if extra == 0 {
        out.push(len as u8)?;
        return Ok(());
    }
    out.push(0x80 + extra as u8)?;
    out.extend_from_slice(&len.to_be_bytes()[4 - extra..])
}

/// Writes a value at the end of `out`. Where there is no memory, `out` is as it was.
#[tactic(auto, using(std::proofs::Common::append_assoc), unfolding(crate::specs::Value::value))]
pub fn write_tlv(out: &mut Vec<u8>, tag: u8, content: &[u8]) -> Result<(), AllocError>
    requires low_tag { tag % 32 ≢ 31 }
    requires short { length content.now < 2 ^ 32 }
    ensures ok { OnOk result (out.new.items ≡ out.old.items ++ value tag content.now) }
    ensures len { OnOk result (vec_len out.new ≤ vec_len out.old + length content.now + 6) }
    ensures err { OnErr result (out.new.items ≡ out.old.items) }
{
    let len = content.len() as u32;
    out.reserve(2 + extra_of(len) + content.len())?;
    out.push(tag)?;
    push_length(out, len)?;
    out.extend_from_slice(content)
}

/// One value, in a `Vec` of its own.
pub fn tlv_bytes(alloc: Global, tag: u8, content: &[u8]) -> Result<Vec<u8>, AllocError>
    requires low_tag { tag % 32 ≢ 31 }
    requires short { length content.now < 2 ^ 32 }
    ensures ok { IfOk result (λ bytes. bytes.items ≡ value tag content.now) }
    ensures len { IfOk result (λ bytes. vec_len bytes ≤ length content.now + 6) }
{
    let mut bytes = Vec::new(alloc);
    write_tlv(&mut bytes, tag, content)?;
    Ok(bytes)
}

/// Writes the bytes of an optional part at the end of `out`, and nothing where it is absent.
pub fn write_if_there(out: &mut Vec<u8>, bytes: Option<&[u8]>) -> Result<(), AllocError>
    ensures ok { OnOk result (out.new.items ≡ out.old.items ++ bytes_or_none (option_map (λ b. b.now) bytes.entry)) }
    ensures err { OnErr result (out.new.items ≡ out.old.items) }
{
    match bytes {
        Some(bytes) => out.extend_from_slice(bytes),
        None => Ok(()),
    }
}

fn name_bytes(alloc: Global, name: &AlgName<'_>) -> Result<Vec<u8>, AllocError>
    requires { length (name_contents (name_seen name.now)) < 2 ^ 32 }
    ensures { IfOk result (λ bytes. bytes.items ≡ name_contents (name_seen name.now)) }
{
    let mut bytes = tlv_bytes(alloc, 0x06, name.oid)?;
    write_if_there(&mut bytes, name.params)?;
    Ok(bytes)
}

/// Writes an AlgorithmIdentifier (RFC 5280, 4.1.1.2) at the end of `out`, under the tag of a SEQUENCE, 0x30, or
/// under the one that stands in its place. Where there is no memory, `out` is as it was.
pub fn write_algorithm(out: &mut Vec<u8>, tag: u8, name: &AlgName<'_>) -> Result<(), AllocError>
    requires low_tag { tag % 32 ≢ 31 }
    requires short { length (name_contents (name_seen name.now)) < 2 ^ 32 }
    ensures ok { OnOk result (out.new.items ≡ out.old.items ++ value tag (name_contents (name_seen name.now))) }
    ensures len { OnOk result (vec_len out.new ≤ vec_len out.old + length (name_contents (name_seen name.now)) + 6) }
    ensures err { OnErr result (out.new.items ≡ out.old.items) }
{
    let contents = name_bytes(*out.allocator(), name)?;
    write_tlv(out, tag, contents.as_slice())
}
