ghost use Rattle.std.specs.Prelude.{◌≡◌, IfOk};
ghost use Rattle.stamp_renewal.specs.Tokens.{digests_of};

use der_values::{Bytes, Items};
use hash_kit::{HashAlg, HashValue, digest};
use std::alloc::{AllocError, Global};

/// The leaves over which a renewal of these tokens is stamped (RFC 4998, 5.2): the digest of each, in their order. An error is
/// want of memory.
pub fn stamp_leaves(
    alloc: Global,
    alg: HashAlg,
    tokens: &[Bytes],
) -> Result<Items<HashValue>, AllocError>
    ensures { IfOk result (λ leaves. leaves ≡ digests_of alg tokens.now) }
{
    let mut leaves = Vec::new(alloc);
    for token in tokens {
        leaves.push(digest(alg, token.as_slice()))?;
    }
    Ok(Items::from_vec(leaves))
}
