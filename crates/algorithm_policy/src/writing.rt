ghost use Rattle.std.specs.Prelude.{◌≡◌, ℕ, List, [], ◌∷◌, ◌++◌, map, OnOk, IfOk};
ghost use Rattle.hex.specs.Hex.{encode_lower};
ghost use Rattle.algorithm_policy.specs.Content.{named_end};
ghost use Rattle.algorithm_policy.specs.Text.{PolicyText, named};
ghost use Rattle.algorithm_policy.specs.Inside.{Writes, EndsLine};
ghost use Rattle.algorithm_policy.specs.declared.policy_line.PolicyLine.TheVariants.{Authority};

use crate::line::{AUTHORITY, HASH, HEADER};
use crate::policy::Policy;
use crate::signer::Signer;
use civil_moment::{Moment, write_generalized};
use hash_kit::HashAlg;
use std::alloc::{AllocError, Global};

/// The text of a policy, which has no other.
pub fn write_policy(alloc: Global, policy: &Policy) -> Result<Vec<u8>, AllocError>
    ensures text { IfOk result (λ text. PolicyText text.items policy.now) }
    ensures only { IfOk result (λ text. (other : List ℕ) → PolicyText other policy.now → other ≡ text.items) }
{
    written(alloc, policy)
}

fn written(alloc: Global, policy: &Policy) -> Result<Vec<u8>, AllocError>
    ensures { IfOk result (λ text. PolicyText text.items policy.now) }
{
    let mut text = Vec::new(alloc);
    text.extend_from_slice(HEADER)?;
    text.push(b'\n')?;
    push_hash(&mut text, policy, HashAlg::Sha256)?;
    push_hash(&mut text, policy, HashAlg::Sha384)?;
    push_hash(&mut text, policy, HashAlg::Sha512)?;
    push_signers(&mut text, policy.signers())?;
    Ok(text)
}

// Adds the line of a hash algorithm, if it is named.
fn push_hash(text: &mut Vec<u8>, policy: &Policy, alg: HashAlg) -> Result<(), AllocError>
    ensures { OnOk result
        (Writes text.old.items text.new.items (named alg (named_end policy.now alg))) }
{
    let Some(end) = policy.named_end(alg) else {
        return Ok(());
    };
    text.extend_from_slice(HASH)?;
    push_word(text, alg.word())?;
    push_end(text, &end)?;
    Ok(())
}

fn push_signers(text: &mut Vec<u8>, signers: &[Signer]) -> Result<(), AllocError>
    ensures { OnOk result (Writes text.old.items text.new.items (map Authority signers.now)) }
{
    for signer in signers {
        push_signer(text, signer)?;
    }
    Ok(())
}

// Adds the line of an authority.
fn push_signer(text: &mut Vec<u8>, signer: &Signer) -> Result<(), AllocError>
    ensures { OnOk result (Writes text.old.items text.new.items (Authority signer.now ∷ [])) }
{
    text.extend_from_slice(AUTHORITY)?;
    push_word(text, signer.name.as_slice())?;
    push_hex(text, signer.sid.as_slice())?;
    push_hex(text, signer.key.bytes())?;
    push_hex(text, signer.cert.bytes())?;
    push_end(text, &signer.end)?;
    Ok(())
}

// Adds a space and the word.
fn push_word(text: &mut Vec<u8>, word: &[u8]) -> Result<(), AllocError>
    ensures { OnOk result (text.new.items ≡ text.old.items ++ 32 ∷ word.now) }
{
    text.push(b' ')?;
    text.extend_from_slice(word)?;
    Ok(())
}

// Adds a space and the bytes in lower-case hexadecimal.
fn push_hex(text: &mut Vec<u8>, bytes: &[u8]) -> Result<(), AllocError>
    ensures { OnOk result (text.new.items ≡ text.old.items ++ 32 ∷ encode_lower bytes.now) }
{
    let word = hex::encode(*text.allocator(), bytes)?;
    push_word(text, word.as_bytes())
}

// Adds a space, the moment and a line feed.
fn push_end(text: &mut Vec<u8>, end: &Moment) -> Result<(), AllocError>
    ensures { OnOk result (EndsLine text.old.items text.new.items end.now) }
{
    let time = write_generalized(*text.allocator(), end)?;
    push_word(text, time.as_slice())?;
    text.push(b'\n')?;
    Ok(())
}
