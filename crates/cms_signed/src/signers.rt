ghost use Rattle.std.specs.Prelude.{◌≡◌, ◌^◌, ◌<◌, length, IfOk};
ghost use Rattle.der_values.specs.Steps.{Gives};
ghost use Rattle.der_values.specs.Next.{seen, IsValue};
ghost use Rattle.der_values.specs.Reading.{Finds};
ghost use Rattle.cms_signed.specs.State.{start};
ghost use Rattle.cms_signed.specs.Checks.{one_signer_at, fits, sid_at};
ghost use Rattle.cms_signed.specs.Signed.{signature_named, signer_named, signers_named, end_of_signed_data_named};
ghost use Rattle.cms_signed.specs.Inside.{kept_by, signature_seen, signer_seen, each_value, signature_algorithm_in, signature_in, signer_in, signers_in, end_of_signed_data_in};

use crate::algorithms::{digest_algorithm, is_hss_lms};
use crate::attributes::{SignedAttributes, signed_attributes};
use crate::fault::CmsFault;
use der_values::{DerFault, Reader, Tlv, read_algorithm, read_integer};

/// The version of a signer that is identified by issuer and serial number (RFC 5652, 5.3).
pub(crate) const VERSION_1: [u8; 1] = [1];

/// The version of a signer that is identified by its key, and of a SignedData with such a signer or such a content.
pub(crate) const VERSION_3: [u8; 1] = [3];

/// A signature, with the attributes that it signs.
#[derive(Clone, Copy, Debug)]
pub(crate) struct Signature<'a> {
    pub attributes: SignedAttributes<'a>,
    pub octets: &'a [u8],
}

/// A SignerInfo (RFC 5652, 5.3): all bytes of the signer's identifier, and its signature.
#[derive(Clone, Copy, Debug)]
pub(crate) struct SignerInfo<'a> {
    pub sid: &'a [u8],
    pub signature: Signature<'a>,
}

fn count_values(mut reader: Reader<'_>) -> Result<u32, DerFault>
    requires { length reader.left < 2 ^ 32 }
    ensures { Finds (λ ps σ. length ps) (λ n. n) result (each_value reader.entry) }
{
    let mut count = 0;
    while !reader.at_end() {
        match reader.next() {
            Ok(_) => count += 1,
            Err(fault) => return Err(fault),
        }
    }
    Ok(count)
}

// All headers are read before the first signer is.
#[tactic(auto, unfolding(crate::specs::Checks::one_signer_at, der_values::specs::Reading::read, der_values::specs::Next::finish_of))]
fn check_one_signer(t: &Tlv<'_>) -> Result<(), CmsFault>
    requires { IsValue t.now }
    ensures { Gives (λ u. start) result (one_signer_at start (seen t.now)) }
{
    let count = count_values(t.contents())?;
    if count != 1 {
        return Err(CmsFault::Signers(count));
    }
    Ok(())
}

fn fits(version: &[u8], tag: u8) -> bool
    ensures { result ≡ fits version.now tag }
{
    (version == VERSION_1.as_slice() && tag == 0x30)
        || (version == VERSION_3.as_slice() && tag == 0x80)
}

// A fault of the identifier's header goes before one of the version.
#[tactic(auto, unfolding(crate::specs::Checks::sid_at))]
fn check_version(version: &[u8], t: &Tlv<'_>) -> Result<(), CmsFault>
    requires { IsValue t.now }
    ensures { Gives (λ u. start) result (sid_at (record start { version = version.now }) (seen t.now)) }
{
    if fits(version, t.tag) {
        Ok(())
    } else {
        Err(CmsFault::SignerVersion)
    }
}

// The attributes, where they are signed by HSS/LMS. The algorithm is judged once it was read whole.
#[tactic(auto, using(der_values::proofs::Passed::algorithm_alike), unfolding(crate::specs::Checks::signature_algorithm_at))]
fn signed_with<'a>(
    attributes: SignedAttributes<'a>,
    t: &Tlv<'_>,
) -> Result<SignedAttributes<'a>, CmsFault>
    requires { IsValue t.now }
    ensures found { Finds (λ p σ. σ) kept_by result (signature_algorithm_in (kept_by attributes.entry) (seen t.now)) }
    ensures whole { IfOk result (λ a. a.whole.now ≡ attributes.entry.whole.now) }
{
    if is_hss_lms(&read_algorithm(t)?) {
        Ok(attributes)
    } else {
        Err(CmsFault::SignatureAlg)
    }
}

// From the signed attributes on.
#[tactic(auto, using(der_values::proofs::Passed::optional_passed), unfolding(der_values::specs::Reading::read))]
fn signature_info<'a>(mut reader: Reader<'a>) -> Result<Signature<'a>, CmsFault>
    ensures { Finds signature_named signature_seen result (signature_in reader.entry) }
{
    let attributes = signed_attributes(&reader.expect(0xa0)?)?;
    let attributes = signed_with(attributes, &reader.expect(0x30)?)?;
    let octets = reader.expect(0x04)?.content;
    reader.optional(0xa1)?;
    reader.finish()?;
    Ok(Signature { attributes, octets })
}

// SignerInfo (RFC 5652, 5.3).
#[tactic(auto, unfolding(der_values::specs::Reading::read, crate::specs::Checks::signer_version_at))]
fn signer_info<'a>(t: &Tlv<'a>) -> Result<SignerInfo<'a>, CmsFault>
    requires { IsValue t.now }
    ensures { Finds signer_named signer_seen result (signer_in start (seen t.now)) }
{
    let mut reader = t.contents();
    let version = read_integer(&reader.expect(0x02)?)?;
    let sid = reader.next()?;
    check_version(version, &sid)?;
    digest_algorithm(&reader.expect(0x30)?)?;
    Ok(SignerInfo {
        sid: sid.whole,
        signature: signature_info(reader)?,
    })
}

// The one signer.
#[tactic(auto, unfolding(der_values::specs::Reading::read))]
fn signer_infos<'a>(t: &Tlv<'a>) -> Result<SignerInfo<'a>, CmsFault>
    requires { IsValue t.now }
    ensures { Finds signers_named signer_seen result (signers_in start (seen t.now)) }
{
    check_one_signer(t)?;
    let mut reader = t.contents();
    let signer = signer_info(&reader.expect(0x30)?)?;
    reader.finish()?;
    Ok(signer)
}

/// The one signer, behind certificates and revocation lists, which are not looked into.
#[tactic(auto, using(der_values::proofs::Passed::optional_passed), unfolding(der_values::specs::Reading::read))]
pub(crate) fn end_of_signed_data<'a>(mut reader: Reader<'a>) -> Result<SignerInfo<'a>, CmsFault>
    ensures { Finds end_of_signed_data_named signer_seen result (end_of_signed_data_in reader.entry) }
{
    reader.optional(0xa0)?;
    reader.optional(0xa1)?;
    let signer = signer_infos(&reader.expect(0x31)?)?;
    reader.finish()?;
    Ok(signer)
}
