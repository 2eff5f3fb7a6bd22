// The rules of a new policy.
ghost use Rattle.std.specs.Prelude.{◌≡◌, ℕ, List, IfOk, IfErr};
ghost use Rattle.algorithm_policy.specs.Text.{PolicyText};
ghost use Rattle.archive_chain.specs.Rules.{PolicyBreaks};
ghost use Rattle.archive_chain.specs.InsideToken.{Refuses, IsKeptBy};
ghost use Rattle.archive_chain.specs.declared.refusal.Refusal.TheVariants.{PolicyDrops};

use crate::refusal::Refusal;
use algorithm_policy::{Policy, PolicyFault, Signer, keeps, read_policy};
use der_values::Bytes;
use std::alloc::Global;

/// The policy that the text says, if it keeps the one in force; else what is wrong with it.
pub(crate) fn policy_rules(alloc: Global, old: &Policy, text: &[u8]) -> Result<Policy, Refusal>
    ensures keeps { IfOk result (IsKeptBy old.now text.now) }
    ensures breaks { IfErr result (Refuses (PolicyBreaks old.now text.now)) }
{
    match read_policy(alloc, text) {
        Ok(new) => kept(alloc, old, new),
        Err(PolicyFault::At { line, kind }) => Err(Refusal::BadPolicy { line, kind }),
        Err(PolicyFault::Memory) => Err(Refusal::Memory),
    }
}

// The new policy, if it keeps the old one.
fn kept(alloc: Global, old: &Policy, new: Policy) -> Result<Policy, Refusal>
    ensures keeps { (text : List ℕ) → PolicyText text new → IfOk result (IsKeptBy old.now text) }
    ensures breaks { (text : List ℕ) → PolicyText text new → IfErr result (Refuses (PolicyBreaks old.now text)) }
{
    match keeps(old, &new) {
        Ok(()) => Ok(new),
        Err(signer) => Err(dropped(alloc, signer)),
    }
}

// The refusal of a policy that drops this authority.
fn dropped(alloc: Global, signer: &Signer) -> Refusal
    ensures { Refuses (λ refusal. refusal ≡ PolicyDrops signer.now.name) result }
{
    match Vec::from_slice(alloc, signer.name.as_slice()) {
        Ok(name) => Refusal::PolicyDrops {
            name: Bytes::from_vec(name),
        },
        Err(_) => Refusal::Memory,
    }
}
