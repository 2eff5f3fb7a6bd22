ghost use Rattle.std.specs.Prelude.{◌≡◌, ◌<◌, length, IfOk};
ghost use Rattle.std.specs.List.{concat};
ghost use Rattle.hash_kit.specs.Digest.{digest_of};
ghost use Rattle.hash_kit.specs.Node.{node_of};

use crate::algorithm::HashAlg;
use crate::hashing::Hasher;
use crate::value::HashValue;
use std::alloc::{AllocError, Global};

/// The node over these values (RFC 4998, section 4.2): a single value is its own node, else it is the digest of all
/// of them, each as often as it stands, in ascending order.
pub fn node(alloc: Global, alg: HashAlg, values: &[HashValue]) -> Result<HashValue, AllocError>
    requires { 0 < length values.now }
    ensures { IfOk result (λ value. value ≡ node_of alg values.now) }
{
    if values.len() == 1 {
        return Ok(values[0]);
    }
    let mut ascending = Vec::from_slice(alloc, values)?;
    ascending.sort_unstable();
    Ok(digest_in_turn(alg, ascending.as_slice()))
}

// The digest of the values, joined in the order in which they stand.
fn digest_in_turn(alg: HashAlg, values: &[HashValue]) -> HashValue
    ensures { result ≡ digest_of alg (concat values.now) }
{
    let mut hasher = Hasher::new(alg);
    for value in values {
        hasher.update(value.bytes());
    }
    hasher.finish()
}
