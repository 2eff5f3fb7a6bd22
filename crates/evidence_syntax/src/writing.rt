ghost use Rattle.std.specs.Prelude.{◌≡◌, ◌<◌, ◌^◌, ◌++◌, ℕ, List, length, map, IfOk, OnOk, OnErr};
ghost use Rattle.std.specs.Option.{option_map};
ghost use Rattle.std.specs.List.{flat_map};
ghost use Rattle.der_values.specs.Value.{value};
ghost use Rattle.der_values.specs.Algorithm.{name_seen};
ghost use Rattle.evidence_syntax.specs.Stamps.{stamp_seen, chain_seen, chains_seen, SpellsSequence};
ghost use Rattle.evidence_syntax.specs.Record.{record_seen, Spells};
ghost use Rattle.evidence_syntax.specs.Valid.{IsSequence, IsRecord};
ghost use Rattle.evidence_syntax.specs.Text.{identifier_text, algorithm_text, list_text, tree_text, stamp_contents, stamp_text, chain_text, sequence_spelling, record_contents, record_spelling};

use crate::record_bytes::EvRecord;
use crate::stamps::{Ats, Chain};
use der_values::{AlgName, Items, tlv_bytes, write_algorithm, write_if_there, write_tlv};
use hash_kit::HashValue;
use std::alloc::{AllocError, Global};

fn names_bytes(alloc: Global, names: &[AlgName<'_>]) -> Result<Vec<u8>, AllocError>
    requires { length (flat_map identifier_text (map name_seen names.now)) < 2 ^ 32 }
    ensures { IfOk result (λ contents. contents.items ≡ flat_map identifier_text (map name_seen names.now)) }
{
    let mut contents = Vec::new(alloc);
    for name in names {
        write_algorithm(&mut contents, 0x30, name)?;
    }
    Ok(contents)
}

fn values_bytes(alloc: Global, values: &[HashValue]) -> Result<Vec<u8>, AllocError>
    ensures { IfOk result (λ contents. contents.items ≡ flat_map (λ v. value 4 v) values.now) }
{
    let mut contents = Vec::new(alloc);
    for value in values {
        write_tlv(&mut contents, 0x04, value.bytes())?;
    }
    Ok(contents)
}

fn lists_bytes(alloc: Global, lists: &[Items<HashValue>]) -> Result<Vec<u8>, AllocError>
    requires { length (flat_map list_text lists.now) < 2 ^ 32 }
    ensures { IfOk result (λ contents. contents.items ≡ flat_map list_text lists.now) }
{
    let mut contents = Vec::new(alloc);
    for list in lists {
        let values = values_bytes(alloc, list.as_slice())?;
        write_tlv(&mut contents, 0x30, values.as_slice())?;
    }
    Ok(contents)
}

// Adds the name of the hash of an archive time-stamp, where it is named.
fn write_hash_name(out: &mut Vec<u8>, name: &Option<AlgName<'_>>) -> Result<(), AllocError>
    requires { length (algorithm_text (option_map name_seen name.now)) < 2 ^ 32 }
    ensures { OnOk result (out.new.items ≡ out.old.items ++ algorithm_text (option_map name_seen name.now)) }
{
    match name {
        Some(name) => write_algorithm(out, 0xa0, name),
        None => Ok(()),
    }
}

// Adds a reduced hash tree, where there is one.
fn write_tree(out: &mut Vec<u8>, lists: &Option<Items<Items<HashValue>>>) -> Result<(), AllocError>
    requires { length (tree_text lists.now) < 2 ^ 32 }
    ensures { OnOk result (out.new.items ≡ out.old.items ++ tree_text lists.now) }
{
    match lists {
        Some(lists) => {
            let contents = lists_bytes(*out.allocator(), lists.as_slice())?;
            write_tlv(out, 0xa2, contents.as_slice())
        }
        None => Ok(()),
    }
}

// The contents of an archive time-stamp.
#[tactic(auto, using(std::proofs::Common::append_assoc))]
fn stamp_bytes(alloc: Global, stamp: &Ats<'_>) -> Result<Vec<u8>, AllocError>
    requires { length (stamp_contents (stamp_seen stamp.now)) < 2 ^ 32 }
    ensures { IfOk result (λ contents. contents.items ≡ stamp_contents (stamp_seen stamp.now)) }
{
    let mut contents = Vec::new(alloc);
    write_hash_name(&mut contents, &stamp.algorithm)?;
    write_if_there(&mut contents, stamp.attributes)?;
    write_tree(&mut contents, &stamp.lists)?;
    contents.extend_from_slice(stamp.token)?;
    Ok(contents)
}

fn stamps_bytes(alloc: Global, stamps: &[Ats<'_>]) -> Result<Vec<u8>, AllocError>
    requires { length (flat_map stamp_text (map stamp_seen stamps.now)) < 2 ^ 32 }
    ensures { IfOk result (λ contents. contents.items ≡ flat_map stamp_text (map stamp_seen stamps.now)) }
{
    let mut contents = Vec::new(alloc);
    for stamp in stamps {
        let inner = stamp_bytes(alloc, stamp)?;
        write_tlv(&mut contents, 0x30, inner.as_slice())?;
    }
    Ok(contents)
}

/// Writes a chain at the end of `out`. Where there is no memory, `out` is as it was.
pub(crate) fn write_chain(out: &mut Vec<u8>, chain: &Chain<'_>) -> Result<(), AllocError>
    requires { length (chain_text (chain_seen chain.now)) < 2 ^ 32 }
    ensures ok { OnOk result (out.new.items ≡ out.old.items ++ chain_text (chain_seen chain.now)) }
    ensures err { OnErr result (out.new.items ≡ out.old.items) }
{
    let stamps = stamps_bytes(*out.allocator(), chain.stamps.as_slice())?;
    write_tlv(out, 0x30, stamps.as_slice())
}

fn chains_bytes(alloc: Global, chains: &[Chain<'_>]) -> Result<Vec<u8>, AllocError>
    requires { length (flat_map chain_text (chains_seen chains.now)) < 2 ^ 32 }
    ensures { IfOk result (λ contents. contents.items ≡ flat_map chain_text (chains_seen chains.now)) }
{
    let mut contents = Vec::new(alloc);
    for chain in chains {
        write_chain(&mut contents, chain)?;
    }
    Ok(contents)
}

// The contents of a record.
#[tactic(auto, using(std::proofs::Common::append_assoc))]
fn contents_bytes(alloc: Global, parts: &EvRecord<'_>) -> Result<Vec<u8>, AllocError>
    requires { length (record_contents (record_seen parts.now)) < 2 ^ 32 }
    ensures { IfOk result (λ contents. contents.items ≡ record_contents (record_seen parts.now)) }
{
    let names = names_bytes(alloc, parts.algorithms.as_slice())?;
    let chains = chains_bytes(alloc, parts.chains.as_slice())?;
    let mut contents = Vec::new(alloc);
    write_tlv(&mut contents, 0x02, &[1])?;
    write_tlv(&mut contents, 0x30, names.as_slice())?;
    write_if_there(&mut contents, parts.crypto)?;
    write_if_there(&mut contents, parts.encryption)?;
    write_tlv(&mut contents, 0x30, chains.as_slice())?;
    Ok(contents)
}

/// The one spelling of an ArchiveTimeStampSequence of these chains (RFC 4998, 5.1).
pub fn write_sequence(alloc: Global, chains: &[Chain<'_>]) -> Result<Vec<u8>, AllocError>
    requires { length (flat_map chain_text (chains_seen chains.now)) < 2 ^ 32 }
    ensures spelled { IfOk result (λ bytes. bytes.items ≡ sequence_spelling (chains_seen chains.now)) }

    // Chains that a sequence may have are read again.
    ensures read { IfOk result (λ bytes. IsSequence (chains_seen chains.now)
        → SpellsSequence bytes.items (chains_seen chains.now)) }
{
    let chains = chains_bytes(alloc, chains)?;
    tlv_bytes(alloc, 0x30, chains.as_slice())
}

/// The one spelling of an evidence record of these parts.
pub fn write_record(alloc: Global, parts: &EvRecord<'_>) -> Result<Vec<u8>, AllocError>
    requires { length (record_contents (record_seen parts.now)) < 2 ^ 32 }
    ensures spelled { IfOk result (λ bytes. bytes.items ≡ record_spelling (record_seen parts.now)) }

    // Parts that a record may have are read again.
    ensures read { IfOk result (λ bytes. IsRecord (record_seen parts.now)
        → Spells bytes.items (record_seen parts.now)) }
{
    let contents = contents_bytes(alloc, parts)?;
    tlv_bytes(alloc, 0x30, contents.as_slice())
}
