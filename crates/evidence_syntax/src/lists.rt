ghost use Rattle.der_values.specs.Next.{contents, seen, IsValue};
ghost use Rattle.evidence_syntax.specs.Lists.{lists_of};
ghost use Rattle.evidence_syntax.specs.Inside.{each_value, list_at, each_list, lists_at};
ghost use Rattle.evidence_syntax.specs.Inside.{Counts};

use crate::checks::{SoFar, check_filled, hash_value};
use crate::fault::SyntaxFault;
use der_values::{Items, Reader, Tlv};
use hash_kit::HashValue;

fn all_values(so_far: SoFar, mut reader: Reader<'_>) -> Result<Vec<HashValue>, SyntaxFault>
    ensures { Counts (λ ps. ps) (λ v. v.items) (λ v. so_far.stamps) result (each_value so_far.stamps reader.entry) }
{
    let mut values = Vec::new(so_far.alloc);
    while !reader.at_end() {
        let value = hash_value(&reader.expect(0x04)?)?;
        values.push(value)?;
    }
    Ok(values)
}

// A list of values, none of them being a fault.
#[tactic(auto, unfolding(der_values::specs::Reading::read, der_values::specs::Next::finish_of))]
fn list(so_far: SoFar, t: &Tlv<'_>) -> Result<Items<HashValue>, SyntaxFault>
    requires { IsValue t.now }
    ensures { Counts (λ p. p.0) (λ l. l) (λ l. so_far.stamps) result (list_at so_far.stamps (seen t.now)) }
{
    check_filled(t)?;
    let values = all_values(so_far, t.contents())?;
    Ok(Items::from_vec(values))
}

fn all_lists(so_far: SoFar, mut reader: Reader<'_>) -> Result<Vec<Items<HashValue>>, SyntaxFault>
    ensures { Counts (λ ps. lists_of (ps, tt)) (λ v. v.items) (λ v. so_far.stamps) result (each_list so_far.stamps reader.entry) }
{
    let mut lists = Vec::new(so_far.alloc);
    while !reader.at_end() {
        let list = list(so_far, &reader.expect(0x30)?)?;
        lists.push(list)?;
    }
    Ok(lists)
}

/// The lists of a reduced hash tree.
#[tactic(auto, unfolding(der_values::specs::Reading::read, der_values::specs::Next::finish_of))]
pub(crate) fn lists(so_far: SoFar, t: &Tlv<'_>) -> Result<Items<Items<HashValue>>, SyntaxFault>
    requires { IsValue t.now }
    ensures { Counts lists_of (λ l. l) (λ l. so_far.stamps) result (lists_at so_far.stamps (seen t.now)) }
{
    check_filled(t)?;
    let lists = all_lists(so_far, t.contents())?;
    Ok(Items::from_vec(lists))
}
