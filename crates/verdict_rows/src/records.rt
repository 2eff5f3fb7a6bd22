// Evidence records as rows name their parts.
use crate::fault::Unmade;
use crate::tokens::Made;
use der_values::{AlgName, Items};
use evidence_syntax::{
    Ats, Chain, EvRecord, record_size, sequence_size, write_record, write_sequence,
};
use hash_kit::{HashAlg, HashValue};
use std::alloc::{AllocError, Global};

/// An archive time-stamp: the hash that it names, the values of its lists and its token, by their numbers.
#[derive(Clone, Copy)]
pub struct StampRow {
    pub names: Option<HashAlg>,
    pub lists: &'static [&'static [usize]],
    pub token: usize,
}

fn name(alg: HashAlg) -> AlgName<'static> {
    AlgName {
        oid: alg.oid(),
        params: None,
    }
}

fn list(alloc: Global, made: &Made, numbers: &[usize]) -> Result<Items<HashValue>, Unmade> {
    let mut values = Vec::new(alloc);
    for number in numbers {
        match made.values.get(*number) {
            Some(value) => values.push(*value)?,
            None => return Err(Unmade::Row),
        }
    }
    Ok(Items::from_vec(values))
}

fn lists(
    alloc: Global,
    made: &Made,
    rows: &[&[usize]],
) -> Result<Option<Items<Items<HashValue>>>, Unmade> {
    if rows.is_empty() {
        return Ok(None);
    }
    let mut lists = Vec::new(alloc);
    for numbers in rows {
        lists.push(list(alloc, made, numbers)?)?;
    }
    Ok(Some(Items::from_vec(lists)))
}

fn stamp<'m>(alloc: Global, made: &'m Made, row: &StampRow) -> Result<Ats<'m>, Unmade> {
    let algorithm = row.names.map(name);
    let lists = lists(alloc, made, row.lists)?;
    let token = made.token(row.token)?;
    Ok(Ats {
        algorithm,
        attributes: None,
        lists,
        token,
    })
}

fn chain<'m>(alloc: Global, made: &'m Made, rows: &[StampRow]) -> Result<Chain<'m>, Unmade> {
    let mut stamps = Vec::new(alloc);
    for row in rows {
        stamps.push(stamp(alloc, made, row)?)?;
    }
    Ok(Chain {
        stamps: Items::from_vec(stamps),
    })
}

fn chains<'m>(
    alloc: Global,
    made: &'m Made,
    rows: &[&[StampRow]],
) -> Result<Vec<Chain<'m>>, Unmade> {
    let mut all = Vec::new(alloc);
    for stamps in rows {
        all.push(chain(alloc, made, stamps)?)?;
    }
    Ok(all)
}

/// The sequence of these chains.
pub fn sequence(alloc: Global, made: &Made, rows: &[&[StampRow]]) -> Result<Vec<u8>, Unmade> {
    let chains = chains(alloc, made, rows)?;
    match sequence_size(&chains) {
        Some(_size) => Ok(write_sequence(alloc, &chains)?),
        None => Err(Unmade::TooLong),
    }
}

// SHA-256, and SHA-512 where a record has a second chain.
fn algorithms(alloc: Global, several: bool) -> Result<Items<AlgName<'static>>, AllocError> {
    let mut names = Vec::new(alloc);
    names.push(name(HashAlg::Sha256))?;
    if several {
        names.push(name(HashAlg::Sha512))?;
    }
    Ok(Items::from_vec(names))
}

/// The record of these chains.
pub fn record(alloc: Global, made: &Made, rows: &[&[StampRow]]) -> Result<Vec<u8>, Unmade> {
    let parts = EvRecord {
        algorithms: algorithms(alloc, rows.len() > 1)?,
        crypto: None,
        encryption: None,
        chains: Items::from_vec(chains(alloc, made, rows)?),
    };
    match record_size(&parts) {
        Some(_size) => Ok(write_record(alloc, &parts)?),
        None => Err(Unmade::TooLong),
    }
}
