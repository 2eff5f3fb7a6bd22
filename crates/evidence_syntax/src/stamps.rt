ghost use Rattle.std.specs.Prelude.{map, IfSome};
ghost use Rattle.std.specs.Option.{option_map};
ghost use Rattle.der_values.specs.Next.{contents, seen, IsValue};
ghost use Rattle.der_values.specs.Algorithm.{name_of, name_seen};
ghost use Rattle.evidence_syntax.specs.Lists.{lists_of};
ghost use Rattle.evidence_syntax.specs.Stamps.{stamp_of, stamp_seen, chain_of, chain_seen, chains_of, chains_seen};
ghost use Rattle.evidence_syntax.specs.Inside.{stamp_algorithm_at, tree_at, stamp_contents_at, stamp_at, each_stamp, chain_at, each_chain, sequence_at};
ghost use Rattle.evidence_syntax.specs.Inside.{Counts};

use crate::checks::{SoFar, check_filled, count};
use crate::fault::SyntaxFault;
use crate::lists::lists;
use der_values::{AlgName, Items, Reader, Tlv, read_algorithm, whole_of};
use hash_kit::HashValue;

/// An ArchiveTimeStamp (RFC 4998, 4.1).
#[derive(Debug, Drop)]
pub struct Ats<'a> {
    /// The hash of its tree, where it is named.
    pub algorithm: Option<AlgName<'a>>,
    /// All bytes of its attributes, where it has some.
    pub attributes: Option<&'a [u8]>,
    /// The values of each list of its reduced hash tree, where it has one.
    pub lists: Option<Items<Items<HashValue>>>,
    /// All bytes of its time-stamp.
    pub token: &'a [u8],
}

/// An ArchiveTimeStampChain (RFC 4998, 5.1).
#[derive(Debug, Drop)]
pub struct Chain<'a> {
    pub stamps: Items<Ats<'a>>,
}

/// What was read, and the number of archive time-stamps so far, those in it among them.
#[derive(Debug, Drop)]
pub(crate) struct Counted<T> {
    pub read: T,
    pub stamps: u64,
}

#[tactic(auto, using(der_values::proofs::Passed::algorithm_alike))]
fn algorithm<'a>(so_far: SoFar, t: &Option<Tlv<'a>>) -> Result<Option<AlgName<'a>>, SyntaxFault>
    requires { IfSome t.now IsValue }
    ensures { Counts (λ p. option_map name_of p) (λ a. option_map name_seen a) (λ a. so_far.stamps) result (stamp_algorithm_at so_far.stamps (option_map seen t.now)) }
{
    match t {
        Some(t) => Ok(Some(read_algorithm(t)?)),
        None => Ok(None),
    }
}

fn tree(so_far: SoFar, t: &Option<Tlv<'_>>) -> Result<Option<Items<Items<HashValue>>>, SyntaxFault>
    requires { IfSome t.now IsValue }
    ensures { Counts (λ p. option_map lists_of p) (λ l. l) (λ l. so_far.stamps) result (tree_at so_far.stamps (option_map seen t.now)) }
{
    match t {
        Some(t) => Ok(Some(lists(so_far, t)?)),
        None => Ok(None),
    }
}

#[tactic(auto, using(der_values::proofs::Passed::optional_passed), unfolding(der_values::specs::Reading::read))]
fn stamp_in<'a>(so_far: SoFar, t: &Tlv<'a>) -> Result<Ats<'a>, SyntaxFault>
    requires { IsValue t.now }
    ensures { Counts stamp_of stamp_seen (λ s. so_far.stamps) result (stamp_contents_at so_far.stamps (contents (seen t.now))) }
{
    let mut reader = t.contents();
    let algorithm = algorithm(so_far, &reader.optional(0xa0)?)?;
    let attributes = reader.optional(0xa1)?;
    let lists = tree(so_far, &reader.optional(0xa2)?)?;
    let token = reader.expect(0x30)?;
    reader.finish()?;
    Ok(Ats {
        algorithm,
        attributes: whole_of(attributes),
        lists,
        token: token.whole,
    })
}

// An archive time-stamp. It is counted before it is looked into.
fn stamp<'a>(mut so_far: SoFar, t: &Tlv<'a>) -> Result<Counted<Ats<'a>>, SyntaxFault>
    requires { IsValue t.now }
    ensures { Counts stamp_of (λ c. stamp_seen c.read) (λ c. c.stamps) result (stamp_at so_far.stamps (seen t.now)) }
{
    so_far.stamps = count(so_far.stamps, t)?;
    let read = stamp_in(so_far, t)?;
    Ok(Counted {
        read,
        stamps: so_far.stamps,
    })
}

fn all_stamps<'a>(
    mut so_far: SoFar,
    mut reader: Reader<'a>,
) -> Result<Counted<Vec<Ats<'a>>>, SyntaxFault>
    ensures { Counts (λ ps. chain_of (ps, tt)) (λ c. map stamp_seen c.read.items) (λ c. c.stamps) result (each_stamp so_far.stamps reader.entry) }
{
    let mut stamps = Vec::new(so_far.alloc);
    while !reader.at_end() {
        let stamp = stamp(so_far, &reader.expect(0x30)?)?;
        so_far.stamps = stamp.stamps;
        stamps.push(stamp.read)?;
    }
    Ok(Counted {
        read: stamps,
        stamps: so_far.stamps,
    })
}

#[tactic(auto, unfolding(der_values::specs::Reading::read, der_values::specs::Next::finish_of))]
fn one_chain<'a>(so_far: SoFar, t: &Tlv<'a>) -> Result<Counted<Chain<'a>>, SyntaxFault>
    requires { IsValue t.now }
    ensures { Counts chain_of (λ c. chain_seen c.read) (λ c. c.stamps) result (chain_at so_far.stamps (seen t.now)) }
{
    check_filled(t)?;
    let all = all_stamps(so_far, t.contents())?;
    Ok(Counted {
        read: Chain {
            stamps: Items::from_vec(all.read),
        },
        stamps: all.stamps,
    })
}

fn all_chains<'a>(
    mut so_far: SoFar,
    mut reader: Reader<'a>,
) -> Result<Counted<Vec<Chain<'a>>>, SyntaxFault>
    ensures { Counts (λ ps. chains_of (ps, tt)) (λ c. chains_seen c.read.items) (λ c. c.stamps) result (each_chain so_far.stamps reader.entry) }
{
    let mut chains = Vec::new(so_far.alloc);
    while !reader.at_end() {
        let chain = one_chain(so_far, &reader.expect(0x30)?)?;
        so_far.stamps = chain.stamps;
        chains.push(chain.read)?;
    }
    Ok(Counted {
        read: chains,
        stamps: so_far.stamps,
    })
}

/// The chains of an ArchiveTimeStampSequence (RFC 4998, 5.1).
#[tactic(auto, unfolding(der_values::specs::Reading::read, der_values::specs::Next::finish_of))]
pub(crate) fn sequence<'a>(
    so_far: SoFar,
    t: &Tlv<'a>,
) -> Result<Counted<Items<Chain<'a>>>, SyntaxFault>
    requires { IsValue t.now }
    ensures { Counts chains_of (λ c. chains_seen c.read) (λ c. c.stamps) result (sequence_at so_far.stamps (seen t.now)) }
{
    check_filled(t)?;
    let all = all_chains(so_far, t.contents())?;
    Ok(Counted {
        read: Items::from_vec(all.read),
        stamps: all.stamps,
    })
}
