ghost use Rattle.std.specs.Prelude.{IfSome};
ghost use Rattle.std.specs.Option.{option_map};
ghost use Rattle.der_values.specs.Next.{seen, IsValue};
ghost use Rattle.der_values.specs.Reading.{Finds};
ghost use Rattle.cms_signed.specs.Inside.{state_of, hash_algorithm_in, certificate_id_in, certificate_ids_in, signing_certificate_in};

use crate::algorithms::is_sha256;
use crate::attributes::Attributes;
use crate::fault::CmsFault;
use der_values::{Tlv, read_algorithm};

// The hash by which the certificate is named; where it is absent, it is SHA-256.
#[tactic(auto, using(der_values::proofs::Passed::algorithm_alike), unfolding(crate::specs::Checks::hash_algorithm_at))]
fn hash_algorithm<'a>(
    found: Attributes<'a>,
    t: &Option<Tlv<'a>>,
) -> Result<Attributes<'a>, CmsFault>
    requires { IfSome t.now IsValue }
    ensures { Finds (λ p σ. σ) state_of result (hash_algorithm_in (state_of found.entry) (option_map seen t.now)) }
{
    match t {
        Some(t) => Ok(Attributes {
            by_sha256: is_sha256(&read_algorithm(t)?),
            ..found
        }),
        None => Ok(found),
    }
}

// ESSCertIDv2 (RFC 5035, 4).
#[tactic(auto, unfolding(der_values::specs::Reading::read))]
fn certificate_id<'a>(found: Attributes<'a>, t: &Tlv<'a>) -> Result<Attributes<'a>, CmsFault>
    requires { IsValue t.now }
    ensures { Finds (λ p σ. σ) state_of result (certificate_id_in (state_of found.entry) (seen t.now)) }
{
    let mut reader = t.contents();
    let found = hash_algorithm(found, &reader.optional(0x30)?)?;
    let hash = reader.expect(0x04)?.content;
    Ok(Attributes {
        certificate: Some(if found.by_sha256 { Some(hash) } else { None }),
        ..found
    })
}

// The first certificate alone is that of the signer (RFC 5035, 3).
#[tactic(auto, unfolding(der_values::specs::Reading::read))]
fn certificate_ids<'a>(found: Attributes<'a>, t: &Tlv<'a>) -> Result<Attributes<'a>, CmsFault>
    requires { IsValue t.now }
    ensures { Finds (λ p σ. σ) state_of result (certificate_ids_in (state_of found.entry) (seen t.now)) }
{
    let mut reader = t.contents();
    certificate_id(found, &reader.expect(0x30)?)
}

/// SigningCertificateV2 (RFC 5035, 3).
#[tactic(auto, unfolding(der_values::specs::Reading::read))]
pub(crate) fn signing_certificate<'a>(
    found: Attributes<'a>,
    t: &Tlv<'a>,
) -> Result<Attributes<'a>, CmsFault>
    requires { IsValue t.now }
    ensures { Finds (λ p σ. σ) state_of result (signing_certificate_in (state_of found.entry) (seen t.now)) }
{
    let mut reader = t.contents();
    certificate_ids(found, &reader.expect(0x30)?)
}
