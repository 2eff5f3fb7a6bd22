// A trial authority as a policy names it.
ghost use Rattle.std.specs.Prelude.{◌≡◌, ◌<◌, ℕ, IsTrue, IfOk, slice_index};
ghost use Rattle.algorithm_policy.specs.Content.{IsSigner};
ghost use Rattle.algorithm_policy.specs.Words.{is_name};
ghost use Rattle.trial_authority.specs.Signer.{signer_of_seed};

use crate::key::trial_public;
use crate::reply::identifier;
use algorithm_policy::Signer;
use civil_moment::Moment;
use der_values::Bytes;
use hash_kit::{HashAlg, digest};
use std::alloc::{AllocError, Global};

/// The authority of a seed as a policy names it: by this name, and with this end of its key.
pub fn trial_signer(
    alloc: Global,
    seed: &[u8; 32],
    name: &[u8],
    end: Moment,
) -> Result<Signer, AllocError>
    requires { IsTrue (is_name name.now) }
    ensures value { IfOk result (λ signer. signer ≡ signer_of_seed seed.now name.now end) }
    ensures valid { IfOk result IsSigner }
{
    let key = trial_public(alloc, seed)?;
    let cert = digest(HashAlg::Sha256, key.bytes());
    let sid = identifier(alloc, &cert)?;
    are_octets(key.bytes());
    are_octets(cert.bytes());
    are_octets(sid.as_slice());
    Ok(Signer {
        name: Bytes::from_vec(Vec::from_slice(alloc, name)?),
        sid,
        key,
        cert,
        end,
    })
}

// That bytes are below 256 is known of a parameter alone.
fn are_octets(_bytes: &[u8])
    ensures { (i : ℕ) → slice_index _bytes.now i < 256 }
{}
