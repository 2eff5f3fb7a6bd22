ghost use Rattle.std.specs.Prelude.{◌≡◌, IfOk, IsOkAnd};
ghost use Rattle.der_values.specs.Next.{contents, seen, IsValue};
ghost use Rattle.der_values.specs.Reading.{Finds};
ghost use Rattle.der_values.specs.Algorithm.{Name, name_of, name_seen, algorithm_of, IsAlgorithm, are_none_or_null};

use crate::bytes::are_octets;
use crate::fault::DerFault;
use crate::tlv::{Tlv, whole_of};
use crate::typed::read_oid;

/// The name of an algorithm: the contents of its OBJECT IDENTIFIER, and all bytes of its parameters where it has any.
#[derive(Clone, Copy, Debug)]
pub struct AlgName<'a> {
    pub oid: &'a [u8],
    pub params: Option<&'a [u8]>,
}

// NULL in its two bytes.
const NULL: [u8; 2] = [0x05, 0x00];

impl<'a> AlgName<'a> {
    /// Whether its parameters are absent or NULL, as those of a hash algorithm are (RFC 5754, 2).
    pub fn has_no_parameters(&self) -> bool
        ensures { result ≡ are_none_or_null (name_seen self.now).params }
    {
        match self.params {
            None => true,
            Some(params) => params == NULL.as_slice(),
        }
    }
}

// What stands in the SEQUENCE, by its table.
#[tactic(auto, using(crate::proofs::Passed::optional_passed, crate::proofs::Passed::passed_whole), unfolding(crate::specs::Reading::read, crate::specs::Algorithm::algorithm_of))]
fn name_in<'a>(t: &Tlv<'a>) -> Result<AlgName<'a>, DerFault>
    requires { IsValue t.now }
    ensures { Finds (λ p σ. name_of p) name_seen result (algorithm_of (contents (seen t.now))) }
{
    let mut reader = t.contents();
    let oid = read_oid(&reader.expect(0x06)?)?;
    let params = reader.further()?;
    reader.finish()?;
    Ok(AlgName {
        oid,
        params: whole_of(params),
    })
}

/// An AlgorithmIdentifier (RFC 5280, 4.1.1.2): SEQUENCE { OBJECT IDENTIFIER, at most one further value of any tag }.
/// The tag is not looked at; `Reader::expect` is the call for that.
pub fn read_algorithm<'a>(t: &Tlv<'a>) -> Result<AlgName<'a>, DerFault>
    requires { IsValue t.now }

    // The name is what the contents say, and what they say is answered.
    ensures found { IfOk result (λ a. IsAlgorithm (contents (seen t.now)) (name_seen a)) }
    ensures only { (name : Name) → IsAlgorithm (contents (seen t.now)) name → IsOkAnd result (λ a. name_seen a ≡ name) }

    // The same by its table: the parts' names, or the first fault.
    ensures read { Finds (λ p σ. name_of p) name_seen result (algorithm_of (contents (seen t.now))) }
{
    are_octets(t.content);
    name_in(t)
}
