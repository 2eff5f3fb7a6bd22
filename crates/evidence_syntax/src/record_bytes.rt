ghost use Rattle.std.specs.Prelude.{◌≡◌, ◌≤◌, length, map, Some, IfOk, IfErr};
ghost use Rattle.std.specs.Option.{option_map};
ghost use Rattle.der_values.specs.Next.{contents, seen, IsValue};
ghost use Rattle.der_values.specs.Reading.{FindsUnless, Unless, AnswersUnless};
ghost use Rattle.der_values.specs.Grammar.{from_start};
ghost use Rattle.der_values.specs.Algorithm.{name_of, name_seen};
ghost use Rattle.evidence_syntax.specs.Checks.{is_memory};
ghost use Rattle.evidence_syntax.specs.Record.{EvidenceRecord, algorithms_of, record_of, record_seen, longest_record, Spells, record_first_fault};
ghost use Rattle.evidence_syntax.specs.Inside.{Counts, algorithm_at, each_algorithm, algorithms_at, record_contents_at, record_at};

use crate::checks::{SoFar, check_version};
use crate::fault::{SyntaxFault, SyntaxKind};
use crate::stamps::{Chain, sequence};
use der_values::{AlgName, Items, Reader, Tlv, read_algorithm, whole_of};
use std::alloc::Global;

/// The most bytes of a record.
pub const LONGEST_RECORD: usize = 16_777_216;

/// An EvidenceRecord (RFC 4998, 3.1).
#[derive(Debug, Drop)]
pub struct EvRecord<'a> {
    /// The names of its hashes.
    pub algorithms: Items<AlgName<'a>>,
    /// All bytes of its cryptoInfos, where it has some.
    pub crypto: Option<&'a [u8]>,
    /// All bytes of its encryptionInfo, where it has one.
    pub encryption: Option<&'a [u8]>,
    /// The chains of its archiveTimeStampSequence.
    pub chains: Items<Chain<'a>>,
}

// The name of a hash, whatever it is.
#[tactic(auto, using(der_values::proofs::Passed::algorithm_alike))]
fn algorithm<'a>(t: &Tlv<'a>) -> Result<AlgName<'a>, SyntaxFault>
    requires { IsValue t.now }
    ensures { Counts name_of name_seen (λ a. 0) result (algorithm_at 0 (seen t.now)) }
{
    Ok(read_algorithm(t)?)
}

fn all_algorithms<'a>(
    alloc: Global,
    mut reader: Reader<'a>,
) -> Result<Vec<AlgName<'a>>, SyntaxFault>
    ensures { Counts (λ ps. algorithms_of (ps, tt)) (λ v. map name_seen v.items) (λ v. 0) result (each_algorithm reader.entry) }
{
    let mut names = Vec::new(alloc);
    while !reader.at_end() {
        let name = algorithm(&reader.expect(0x30)?)?;
        names.push(name)?;
    }
    Ok(names)
}

#[tactic(auto, unfolding(der_values::specs::Reading::read, der_values::specs::Next::finish_of))]
fn algorithms<'a>(alloc: Global, t: &Tlv<'a>) -> Result<Items<AlgName<'a>>, SyntaxFault>
    requires { IsValue t.now }
    ensures { Counts algorithms_of (λ l. map name_seen l) (λ l. 0) result (algorithms_at 0 (seen t.now)) }
{
    let names = all_algorithms(alloc, t.contents())?;
    Ok(Items::from_vec(names))
}

#[tactic(auto, using(der_values::proofs::Passed::optional_passed), unfolding(der_values::specs::Reading::read))]
fn record_in<'a>(alloc: Global, t: &Tlv<'a>) -> Result<EvRecord<'a>, SyntaxFault>
    requires { IsValue t.now }
    ensures { FindsUnless is_memory (λ p stamps. record_of p) record_seen result (record_contents_at (contents (seen t.now))) }
{
    let mut reader = t.contents();
    check_version(&reader.expect(0x02)?)?;
    let algorithms = algorithms(alloc, &reader.expect(0x30)?)?;
    let crypto = reader.optional(0xa0)?;
    let encryption = reader.optional(0xa1)?;
    let so_far = SoFar { alloc, stamps: 0 };
    let chains = sequence(so_far, &reader.expect(0x30)?)?;
    reader.finish()?;
    Ok(EvRecord {
        algorithms,
        crypto: whole_of(crypto),
        encryption: whole_of(encryption),
        chains: chains.read,
    })
}

#[tactic(auto, unfolding(der_values::specs::Reading::read))]
fn whole_record<'a>(alloc: Global, bytes: &'a [u8]) -> Result<EvRecord<'a>, SyntaxFault>
    ensures { FindsUnless is_memory (λ p stamps. record_of p.0) record_seen result (record_at (from_start bytes.now)) }
{
    let mut reader = Reader::new(bytes, 0);
    let read = record_in(alloc, &reader.expect(0x30)?)?;
    reader.finish()?;
    Ok(read)
}

/// The evidence record that the bytes are, or their first fault with its place. More than 16,777,216 bytes are too
/// many before any is looked at.
pub fn read_record<'a>(alloc: Global, bytes: &'a [u8]) -> Result<EvRecord<'a>, SyntaxFault>
    // What is answered is what the bytes spell, and what they spell is answered, unless there is no memory.
    ensures found { IfOk result (λ r. Spells bytes.now (record_seen r)) }
    ensures only { (parts : EvidenceRecord) → Spells bytes.now parts → AnswersUnless is_memory record_seen parts result }

    // Else the first fault is, or want of memory.
    ensures fault { IfErr result (λ e. Unless (is_memory e) (record_first_fault bytes.now ≡ Some e)) }
{
    if bytes.len() > LONGEST_RECORD {
        return Err(SyntaxFault::at(0, SyntaxKind::TooLong));
    }
    whole_record(alloc, bytes)
}
