// Rows of what is judged.
use crate::fault::Unmade;
use crate::policies::{Terms, USUAL, policy};
use crate::records::{StampRow, record};
use crate::tokens::{Made, at};
use algorithm_policy::Policy;
use der_values::Bytes;
use evidence_verify::{Mode, Verdict, verify};
use std::alloc::{AllocError, Global};

/// The begin of 2027.
pub const IN_2027: u32 = 1_798_761_600;

/// The documents that are `abc` alone.
pub const ABC: &[&[u8]] = &[b"abc"];

/// A record, by its chains and what stands behind it, its documents, the mode, the moment and the terms of the policy,
/// and the line of the verdict that it has to have.
#[derive(Clone, Copy)]
pub struct Row {
    pub says: &'static str,
    pub chains: &'static [&'static [StampRow]],
    pub behind: &'static [u8],
    pub documents: &'static [&'static [u8]],
    pub mode: Mode,
    pub moment: u32,
    pub terms: &'static Terms,
    pub verdict: &'static str,
}

/// Of `abc` alone, as a member, in 2027, valid.
pub const MEMBER: Row = Row {
    says: "",
    chains: &[],
    behind: &[],
    documents: ABC,
    mode: Mode::Member,
    moment: IN_2027,
    terms: &USUAL,
    verdict: "valid",
};

fn owned(alloc: Global, documents: &[&[u8]]) -> Result<Vec<Bytes>, AllocError> {
    let mut owned = Vec::new(alloc);
    for document in documents {
        owned.push(Bytes::from_vec(document.to_vec(alloc)?))?;
    }
    Ok(owned)
}

/// The verdict on these bytes.
pub fn judged(
    alloc: Global,
    policy: &Policy,
    evidence: &[u8],
    documents: &[&[u8]],
    mode: Mode,
    moment: u32,
) -> Result<Verdict, Unmade> {
    let documents = owned(alloc, documents)?;
    if documents.is_empty() || documents.len() > 64 {
        return Err(Unmade::Row);
    }
    Ok(verify(alloc, evidence, &documents, mode, policy, at(moment))?)
}

/// The verdict on the record of a row.
pub fn found(alloc: Global, made: &Made, row: &Row) -> Result<Verdict, Unmade> {
    let mut evidence = record(alloc, made, row.chains)?;
    evidence.extend_from_slice(row.behind)?;
    let policy = policy(alloc, row.terms)?;
    judged(
        alloc,
        &policy,
        &evidence,
        row.documents,
        row.mode,
        row.moment,
    )
}
