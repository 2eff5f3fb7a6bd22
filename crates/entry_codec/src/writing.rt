// Entries, written part by part.
ghost use Rattle.std.specs.Prelude.{◌≡◌, ◌++◌, ◌^◌, ◌<◌, ◌≤◌, length, IfOk, OnOk};
ghost use Rattle.std.specs.List.{flat_map, AllByRecursion};
ghost use Rattle.object_groups.specs.Groups.{longest_document};
ghost use Rattle.entry_codec.specs.Spelling.{number, counted, hash_byte, group_spelling, entry_spelling, IsEntry};

use crate::entry::Entry;
use der_values::Bytes;
use hash_kit::HashAlg;
use object_groups::Group;
use std::alloc::{AllocError, Global};

/// The payload of an entry. An error is want of memory.
pub fn write_entry(alloc: Global, entry: &Entry) -> Result<Vec<u8>, AllocError>
    requires { IsEntry entry.now }
    ensures { IfOk result (λ out. out.items ≡ entry_spelling entry.now) }
{
    let mut out = Vec::with_capacity(alloc, room_for(entry))?;
    match entry {
        Entry::Deposit { groups } => {
            out.push(1)?;
            put_groups(&mut out, groups.as_slice())?;
        }
        Entry::Seal { hash, count, token } => {
            out.extend_from_slice(&[2, hash_byte(*hash)])?;
            put_number(&mut out, *count)?;
            put_counted(&mut out, token.as_slice())?;
        }
        Entry::RenewStamps {
            hash,
            cohorts,
            token,
        } => {
            out.extend_from_slice(&[3, hash_byte(*hash)])?;
            put_cohorts(&mut out, cohorts.as_slice())?;
            put_counted(&mut out, token.as_slice())?;
        }
        Entry::RenewTrees {
            hash,
            cohorts,
            token,
        } => {
            out.extend_from_slice(&[4, hash_byte(*hash)])?;
            put_cohorts(&mut out, cohorts.as_slice())?;
            put_counted(&mut out, token.as_slice())?;
        }
        Entry::SetPolicy { text } => {
            out.push(5)?;
            put_counted(&mut out, text.as_slice())?;
        }
    }
    Ok(out)
}

// How many bytes the payload has, or a number above where that is no `usize`. Only the time depends on it.
fn room_for(entry: &Entry) -> usize {
    match entry {
        Entry::Deposit { groups } => room_for_groups(groups.as_slice()),
        Entry::Seal { token, .. } => token.as_slice().len().saturating_add(10),
        Entry::RenewStamps { cohorts, token, .. } | Entry::RenewTrees { cohorts, token, .. } => {
            let numbers = cohorts.as_slice().len().saturating_mul(4);
            token
                .as_slice()
                .len()
                .saturating_add(numbers)
                .saturating_add(10)
        }
        Entry::SetPolicy { text } => text.as_slice().len().saturating_add(5),
    }
}

fn room_for_groups(groups: &[Group]) -> usize {
    let mut size: usize = 5;
    for group in groups {
        size = size.saturating_add(4);
        for document in group.documents() {
            size = size
                .saturating_add(4)
                .saturating_add(document.as_slice().len());
        }
    }
    size
}

fn hash_byte(hash: HashAlg) -> u8
    ensures { result ≡ hash_byte hash }
{
    match hash {
        HashAlg::Sha256 => 1,
        HashAlg::Sha384 => 2,
        HashAlg::Sha512 => 3,
    }
}

fn put_number(out: &mut Vec<u8>, n: u32) -> Result<(), AllocError>
    ensures { OnOk result (out.new.items ≡ out.old.items ++ number n) }
{
    out.extend_from_slice(&n.to_be_bytes())
}

fn put_counted(out: &mut Vec<u8>, bytes: &[u8]) -> Result<(), AllocError>
    requires { length bytes.now < 2 ^ 32 }
    ensures { OnOk result (out.new.items ≡ out.old.items ++ counted bytes.now) }
{
    put_number(out, bytes.len() as u32)?;
    out.extend_from_slice(bytes)
}

fn put_group(out: &mut Vec<u8>, group: &Group) -> Result<(), AllocError>
    ensures { OnOk result (out.new.items ≡ out.old.items ++ group_spelling group.now) }
{
    let documents = group.documents();
    put_number(out, documents.len() as u32)?;
    put_documents(out, documents)
}

fn put_documents(out: &mut Vec<u8>, documents: &[Bytes]) -> Result<(), AllocError>
    requires { AllByRecursion (λ d. length d ≤ longest_document) documents.now }
    ensures { OnOk result (out.new.items ≡ out.old.items ++ flat_map counted documents.now) }
{
    for document in documents {
        put_counted(out, document.as_slice())?;
    }
    Ok(())
}

fn put_groups(out: &mut Vec<u8>, groups: &[Group]) -> Result<(), AllocError>
    requires { length groups.now ≤ 64 }
    ensures { OnOk result (out.new.items ≡ out.old.items ++ (number (length groups.now) ++ flat_map group_spelling groups.now)) }
{
    put_number(out, groups.len() as u32)?;
    put_each_group(out, groups)
}

fn put_each_group(out: &mut Vec<u8>, groups: &[Group]) -> Result<(), AllocError>
    ensures { OnOk result (out.new.items ≡ out.old.items ++ flat_map group_spelling groups.now) }
{
    for group in groups {
        put_group(out, group)?;
    }
    Ok(())
}

fn put_cohorts(out: &mut Vec<u8>, cohorts: &[u32]) -> Result<(), AllocError>
    requires { length cohorts.now < 2 ^ 32 }
    ensures { OnOk result (out.new.items ≡ out.old.items ++ (number (length cohorts.now) ++ flat_map number cohorts.now)) }
{
    put_number(out, cohorts.len() as u32)?;
    put_each_number(out, cohorts)
}

fn put_each_number(out: &mut Vec<u8>, numbers: &[u32]) -> Result<(), AllocError>
    ensures { OnOk result (out.new.items ≡ out.old.items ++ flat_map number numbers.now) }
{
    for n in numbers {
        put_number(out, *n)?;
    }
    Ok(())
}
