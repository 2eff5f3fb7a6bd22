ghost use Rattle.std.specs.Prelude.{◌≡◌, true, IfOk};
ghost use Rattle.der_values.specs.Steps.{Gives};
ghost use Rattle.der_values.specs.Next.{seen, IsValue};
ghost use Rattle.der_values.specs.Typed.{integer_of, boolean_of, oid_of, are_subidentifiers};

use crate::fault::{DerFault, DerKind};
use crate::tlv::Tlv;

/// The contents of an INTEGER: two's complement, in the fewest octets (X.690, 8.3).
/// The tag is not looked at; `Reader::expect` is the call for that.
#[tactic(auto, unfolding(crate::specs::Typed::integer_of))]
pub fn read_integer<'a>(t: &Tlv<'a>) -> Result<&'a [u8], DerFault>
    requires { IsValue t.now }
    ensures read { Gives (λ x. x.now) result (integer_of (seen t.now)) }
    ensures content { IfOk result (λ x. x.now ≡ t.now.content.now) }
{
    match t.content {
        [] => Err(DerFault::at(t.place, DerKind::BadValue)),
        [0, 0..0x80, ..] | [0xff, 0x80..=0xff, ..] => Err(DerFault::at(
            t.place,
            DerKind::NotMinimal,
        )),
        content => Ok(content),
    }
}

/// A BOOLEAN: one octet, `ff` for true and `00` for false (X.690, 11.1).
#[tactic(auto, unfolding(crate::specs::Typed::boolean_of))]
pub fn read_boolean(t: &Tlv<'_>) -> Result<bool, DerFault>
    requires { IsValue t.now }
    ensures { Gives (λ x. x) result (boolean_of (seen t.now)) }
{
    match t.content {
        [0] => Ok(false),
        [0xff] => Ok(true),
        _ => Err(DerFault::at(t.place, DerKind::BadValue)),
    }
}

fn are_whole_subidentifiers(content: &[u8]) -> bool
    ensures { result ≡ are_subidentifiers true content.now }
{
    let mut begins = true;
    for octet in content {
        if begins && *octet == 0x80 {
            return false;
        }
        begins = *octet < 0x80;
    }
    begins
}

/// The contents of an OBJECT IDENTIFIER, each subidentifier in the fewest octets (X.690, 8.19).
#[tactic(auto, unfolding(crate::specs::Typed::oid_of))]
pub fn read_oid<'a>(t: &Tlv<'a>) -> Result<&'a [u8], DerFault>
    requires { IsValue t.now }
    ensures read { Gives (λ x. x.now) result (oid_of (seen t.now)) }
    ensures content { IfOk result (λ x. x.now ≡ t.now.content.now) }
{
    if t.content.is_empty() || !are_whole_subidentifiers(t.content) {
        return Err(DerFault::at(t.place, DerKind::BadValue));
    }
    Ok(t.content)
}
