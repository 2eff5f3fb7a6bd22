ghost use Rattle.std.specs.Prelude.{◌≡◌, ◌+◌, ◌++◌, length, OnOk};
ghost use Rattle.lms_sign.specs.Ots.{secret_value, randomizer_of, value_after, ots_key, signed_values, ots_signature};
ghost use Rattle.lms_sign.specs.Inside.{IsTree};

use crate::secret::TreeSecret;
use hash_kit::HashValue;
use lms_verify::{
    MESSAGE, ONE_TIME_KEY, after_steps, coef, greatest, hash, marked, set_of, with_checksum,
};
use std::alloc::AllocError;

/// Marks the hash that is the randomizer of a leaf.
const RANDOMIZER: u16 = 0xfffd;

/// Stands before SEED where a secret value or a randomizer is hashed (RFC 8554, appendix A).
const SECRET: u8 = 0xff;

// The secret value of digit i, x[i] (RFC 8554, appendix A).
#[tactic(auto, unfolding(crate::specs::Ots::secret_value))]
fn secret_value(tree: &TreeSecret, leaf: u32, i: u16) -> HashValue
    ensures value { result ≡ secret_value tree.now leaf i }
    ensures size { length result ≡ 32 }
{
    hash(&tree.identifier, leaf, i, &[SECRET], &tree.seed)
}

// The randomizer of a leaf, C.
#[tactic(auto, unfolding(crate::specs::Ots::randomizer_of))]
fn randomizer(tree: &TreeSecret, leaf: u32) -> HashValue
    ensures value { result ≡ randomizer_of tree.now leaf }
    ensures size { length result ≡ 32 }
{
    hash(&tree.identifier, leaf, RANDOMIZER, &[SECRET], &tree.seed)
}

// The value of digit i after so many steps.
#[tactic(auto, unfolding(crate::specs::Ots::value_after))]
fn value_after(tree: &TreeSecret, leaf: u32, i: u16, steps: u8) -> HashValue
    requires { IsTree tree.now }
    ensures value { result ≡ value_after tree.now leaf i steps }
    ensures size { length result ≡ 32 }
{
    let start = secret_value(tree, leaf, i);
    after_steps(&tree.identifier, leaf, i, 0, steps, start.bytes())
}

// The one-time public key of a leaf, K (RFC 8554, section 4.3). One hasher runs over the ends of the chains.
pub(crate) fn ots_key(tree: &TreeSecret, leaf: u32) -> HashValue
    requires { IsTree tree.now }
    ensures value { result ≡ ots_key tree.now leaf }
    ensures size { length result ≡ 32 }
{
    let set = set_of(tree.ots_type);
    let mut hasher = marked(&tree.identifier, leaf, ONE_TIME_KEY);
    for i in 0..set.digits {
        let end = value_after(tree, leaf, i as u16, greatest(&set));
        hasher.update(end.bytes());
    }
    hasher.finish()
}

// Writes the values y of a signature of this hash (RFC 8554, section 4.5).
fn write_values(
    tree: &TreeSecret,
    leaf: u32,
    message_hash: &[u8],
    out: &mut Vec<u8>,
) -> Result<(), AllocError>
    requires tree { IsTree tree.now }
    requires hash { length message_hash.now ≡ 32 }
    ensures { OnOk result (out.new.items ≡ out.old.items ++ signed_values tree.now leaf message_hash.now) }
{
    let set = set_of(tree.ots_type);
    let digits = with_checksum(message_hash, &set);
    for i in 0..set.digits {
        let value = value_after(tree, leaf, i as u16, coef(&digits, i, &set));
        out.extend_from_slice(value.bytes())?;
    }
    Ok(())
}

// Writes a one-time signature (RFC 8554, section 4.5).
pub(crate) fn write_ots_signature(
    tree: &TreeSecret,
    leaf: u32,
    message: &[u8],
    out: &mut Vec<u8>,
) -> Result<(), AllocError>
    requires { IsTree tree.now }
    ensures { OnOk result (out.new.items ≡ out.old.items ++ ots_signature tree.now leaf message.now) }
{
    let randomizer = randomizer(tree, leaf);
    let message_hash = hash(&tree.identifier, leaf, MESSAGE, randomizer.bytes(), message);
    out.extend_from_slice(&tree.ots_type.to_be_bytes())?;
    out.extend_from_slice(randomizer.bytes())?;
    write_values(tree, leaf, message_hash.bytes(), out)
}
