ghost use Rattle.std.specs.Prelude.{◌≡◌};
ghost use Rattle.der_values.specs.Next.{seen, IsValue};
ghost use Rattle.der_values.specs.Reading.{Finds};
ghost use Rattle.der_values.specs.Algorithm.{name_seen};
ghost use Rattle.cms_signed.specs.Names.{known_hash, is_sha256, is_hss_lms};
ghost use Rattle.cms_signed.specs.State.{start};
ghost use Rattle.cms_signed.specs.Inside.{algorithms_in, algorithm_in, each_algorithm, digest_algorithm_in};

use crate::fault::CmsFault;
use der_values::{AlgName, Reader, Tlv, read_algorithm};
use hash_kit::HashAlg;

/// id-alg-hss-lms-hashsig (RFC 8708, 3).
pub(crate) const HSS_LMS: [u8; 11] = [
    0x2a, 0x86, 0x48, 0x86, 0xf7, 0x0d, 0x01, 0x09, 0x10, 0x03, 0x11,
];

/// Whether this is SHA-256, with absent or NULL parameters (RFC 5754, 2.2).
pub(crate) fn is_sha256(name: &AlgName<'_>) -> bool
    ensures { result ≡ is_sha256 (name_seen name.now) }
{
    name.oid == HashAlg::Sha256.oid() && name.has_no_parameters()
}

/// The hash algorithm of this name, whose parameters are absent or NULL (RFC 5754, 2), or None where it is none.
pub fn known_hash(name: &AlgName<'_>) -> Option<HashAlg>
    ensures { result ≡ known_hash (name_seen name.now) }
{
    if name.has_no_parameters() {
        HashAlg::of_oid(name.oid)
    } else {
        None
    }
}

/// Whether this is HSS/LMS, with absent parameters (RFC 8708, 3).
pub(crate) fn is_hss_lms(name: &AlgName<'_>) -> bool
    ensures { result ≡ is_hss_lms (name_seen name.now) }
{
    name.oid == HSS_LMS.as_slice() && name.params.is_none()
}

/// The signer's digest algorithm. It is judged once it was read whole.
#[tactic(auto, using(der_values::proofs::Passed::algorithm_alike), unfolding(crate::specs::Checks::digest_algorithm_at))]
pub(crate) fn digest_algorithm(t: &Tlv<'_>) -> Result<(), CmsFault>
    requires { IsValue t.now }
    ensures { Finds (λ p σ. σ) (λ u. start) result (digest_algorithm_in start (seen t.now)) }
{
    if is_sha256(&read_algorithm(t)?) {
        Ok(())
    } else {
        Err(CmsFault::DigestAlg)
    }
}

#[tactic(auto, using(der_values::proofs::Passed::algorithm_alike))]
fn algorithm(t: &Tlv<'_>) -> Result<(), CmsFault>
    requires { IsValue t.now }
    ensures { Finds (λ p σ. σ) (λ u. start) result (algorithm_in start (seen t.now)) }
{
    read_algorithm(t)?;
    Ok(())
}

fn all_algorithms(mut reader: Reader<'_>) -> Result<(), CmsFault>
    ensures { Finds (λ ps σ. σ) (λ u. start) result (each_algorithm reader.entry) }
{
    while !reader.at_end() {
        algorithm(&reader.expect(0x30)?)?;
    }
    Ok(())
}

/// The digest algorithms of all signers, which are read and not judged.
#[tactic(auto, unfolding(der_values::specs::Reading::read, der_values::specs::Next::finish_of))]
pub(crate) fn digest_algorithms(t: &Tlv<'_>) -> Result<(), CmsFault>
    requires { IsValue t.now }
    ensures { Finds (λ p σ. σ) (λ u. start) result (algorithms_in start (seen t.now)) }
{
    all_algorithms(t.contents())
}
