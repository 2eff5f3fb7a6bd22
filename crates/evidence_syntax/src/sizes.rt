// How many bytes the parts of an evidence record take: what the conditions of the writers ask.
ghost use Rattle.std.specs.Prelude.{◌≡◌, ◌↔◌, ◌+◌, ◌^◌, ◌<◌, ◌≤◌, length, map};
ghost use Rattle.std.specs.Option.{option_map, SomeIff};
ghost use Rattle.std.specs.List.{flat_map};
ghost use Rattle.der_values.specs.Value.{extra, value, bytes_or_none};
ghost use Rattle.der_values.specs.Algorithm.{name_seen, name_contents};
ghost use Rattle.evidence_syntax.specs.Stamps.{stamp_seen, chains_seen};
ghost use Rattle.evidence_syntax.specs.Record.{record_seen};
ghost use Rattle.evidence_syntax.specs.Text.{algorithm_text, identifier_text, list_text, tree_text, stamp_contents, stamp_text, chain_text, record_contents};
ghost use Rattle.evidence_syntax.specs.Inside.{value_size, IsSizeOf};

use crate::record_bytes::EvRecord;
use crate::stamps::{Ats, Chain};
use der_values::{AlgName, Items};
use hash_kit::HashValue;

fn size_of(bytes: &[u8]) -> Option<u32>
    ensures { IsSizeOf (length bytes.now) result }
{
    u32::try_from(bytes.len()).ok()
}

fn size_or_none(bytes: Option<&[u8]>) -> Option<u32>
    ensures { IsSizeOf (length (bytes_or_none (option_map (λ b. b.now) bytes.entry))) result }
{
    match bytes {
        Some(bytes) => size_of(bytes),
        None => Some(0),
    }
}

/// How many octets of a length follow its first one.
#[tactic(auto, unfolding(der_values::specs::Value::extra))]
pub(crate) fn extra_of(len: u32) -> usize
    ensures extra { result ≡ extra len }
    ensures few { result ≤ 4 }
    ensures short { (result ≡ 0) ↔ (len < 128) }
{
    match len {
        0..0x80 => 0,
        0x80..0x100 => 1,
        0x100..0x1_0000 => 2,
        0x1_0000..0x100_0000 => 3,
        _ => 4,
    }
}

// With a value of so many bytes of contents.
#[tactic(auto, unfolding(crate::specs::Inside::value_size))]
fn with_value(so_far: u32, contents: u32) -> Option<u32>
    ensures { IsSizeOf (so_far + value_size contents) result }
{
    so_far
        .checked_add(contents)?
        .checked_add(2 + extra_of(contents) as u32)
}

fn name_size(name: &AlgName<'_>) -> Option<u32>
    ensures { IsSizeOf (length (name_contents (name_seen name.now))) result }
{
    with_value(size_or_none(name.params)?, size_of(name.oid)?)
}

fn names_size(names: &[AlgName<'_>]) -> Option<u32>
    ensures { IsSizeOf (length (flat_map identifier_text (map name_seen names.now))) result }
{
    let mut size = 0;
    for name in names {
        size = with_value(size, name_size(name)?)?;
    }
    Some(size)
}

fn values_size(values: &[HashValue]) -> Option<u32>
    ensures { IsSizeOf (length (flat_map (λ v. value 4 v) values.now)) result }
{
    let mut size = 0;
    for value in values {
        size = with_value(size, size_of(value.bytes())?)?;
    }
    Some(size)
}

fn lists_size(lists: &[Items<HashValue>]) -> Option<u32>
    ensures { IsSizeOf (length (flat_map list_text lists.now)) result }
{
    let mut size = 0;
    for list in lists {
        size = with_value(size, values_size(list.as_slice())?)?;
    }
    Some(size)
}

fn algorithm_size(name: &Option<AlgName<'_>>) -> Option<u32>
    ensures { IsSizeOf (length (algorithm_text (option_map name_seen name.now))) result }
{
    match name {
        Some(name) => with_value(0, name_size(name)?),
        None => Some(0),
    }
}

fn tree_size(lists: &Option<Items<Items<HashValue>>>) -> Option<u32>
    ensures { IsSizeOf (length (tree_text lists.now)) result }
{
    match lists {
        Some(lists) => with_value(0, lists_size(lists.as_slice())?),
        None => Some(0),
    }
}

fn stamp_size(stamp: &Ats<'_>) -> Option<u32>
    ensures { IsSizeOf (length (stamp_contents (stamp_seen stamp.now))) result }
{
    algorithm_size(&stamp.algorithm)?
        .checked_add(size_or_none(stamp.attributes)?)?
        .checked_add(tree_size(&stamp.lists)?)?
        .checked_add(size_of(stamp.token)?)
}

fn stamps_size(stamps: &[Ats<'_>]) -> Option<u32>
    ensures { IsSizeOf (length (flat_map stamp_text (map stamp_seen stamps.now))) result }
{
    let mut size = 0;
    for stamp in stamps {
        size = with_value(size, stamp_size(stamp)?)?;
    }
    Some(size)
}

/// How many bytes the contents of a sequence of these chains have, or None where they are 2^32 or more. With Some,
/// `write_sequence` can be called.
pub fn sequence_size(chains: &[Chain<'_>]) -> Option<u32>
    ensures { SomeIff result (length (flat_map chain_text (chains_seen chains.now)) < 2 ^ 32) (length (flat_map chain_text (chains_seen chains.now))) }
{
    let mut size = 0;
    for chain in chains {
        size = with_value(size, stamps_size(chain.stamps.as_slice())?)?;
    }
    Some(size)
}

/// How many bytes the contents of a record of these parts have, or None where they are 2^32 or more. With Some,
/// `write_record` can be called.
pub fn record_size(parts: &EvRecord<'_>) -> Option<u32>
    ensures { SomeIff result (length (record_contents (record_seen parts.now)) < 2 ^ 32) (length (record_contents (record_seen parts.now))) }
{
    let infos = size_or_none(parts.crypto)?.checked_add(size_or_none(parts.encryption)?)?;
    let version = with_value(infos, 1)?;
    let names = with_value(version, names_size(parts.algorithms.as_slice())?)?;
    with_value(names, sequence_size(parts.chains.as_slice())?)
}
