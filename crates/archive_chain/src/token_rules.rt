// The rules of an entry's token.
ghost use Rattle.std.specs.Prelude.{◌≡◌, ◌↔◌, ℕ, List, IsTrue, IfOk, IfErr};
ghost use Rattle.token_check.specs.Sound.{Sound, stamp_seen};
ghost use Rattle.archive_chain.specs.Rules.{Stamps, TokenBreaks};
ghost use Rattle.archive_chain.specs.InsideToken.{Refuses, TokenKeepsAs, IsLatestOf, early_by, IsCheckRefusal};

use crate::refusal::Refusal;
use algorithm_policy::Policy;
use civil_moment::{Moment, is_before};
use hash_kit::{HashAlg, HashValue};
use std::alloc::Global;
use token_check::{CheckedStamp, TokenFault, check_token};

/// What the token says, if it is sound under the policy, stamps this root, and is not before the latest time of the tokens
/// that it covers anew; else the first of these that fails.
pub(crate) fn token_rules<'a>(
    alloc: Global,
    policy: &Policy,
    alg: HashAlg,
    root: &HashValue,
    latest: Option<Moment>,
    token: &'a [u8],
) -> Result<CheckedStamp<'a>, Refusal>
    ensures sound { IfOk result (λ stamp. Sound policy.now token.now (stamp_seen stamp)) }
    ensures token { IfOk result (λ stamp. stamp.bytes.now ≡ token.now) }
    ensures hash { IfOk result (λ stamp. (stamp_seen stamp).alg ≡ alg) }
    ensures keeps { (covered : List (List ℕ)) → IsLatestOf policy.now covered latest
        → IfOk result (λ stamp. TokenKeepsAs policy.now alg root.now covered token.now (stamp_seen stamp)) }
    ensures breaks { (covered : List (List ℕ)) → IsLatestOf policy.now covered latest
        → IfErr result (Refuses (TokenBreaks policy.now alg root.now covered token.now)) }
{
    let stamp = sound(alloc, policy, token)?;
    if !is_stamped(&stamp, alg, root) {
        return Err(Refusal::Imprint);
    }
    match early(stamp.time, latest) {
        Some(refusal) => Err(refusal),
        None => Ok(stamp),
    }
}

// What a sound token says.
fn sound<'a>(alloc: Global, policy: &Policy, token: &'a [u8]) -> Result<CheckedStamp<'a>, Refusal>
    ensures sound { IfOk result (λ stamp. Sound policy.now token.now (stamp_seen stamp)) }
    ensures token { IfOk result (λ stamp. stamp.bytes.now ≡ token.now) }
    ensures fails { IfErr result (Refuses (IsCheckRefusal policy.now token.now)) }
{
    match check_token(alloc, token, policy) {
        Ok(stamp) => Ok(stamp),
        Err(TokenFault::Check(check)) => Err(Refusal::Token(check)),
        Err(TokenFault::Memory) => Err(Refusal::Memory),
    }
}

// Whether this root was stamped, by this hash.
fn is_stamped(stamp: &CheckedStamp<'_>, alg: HashAlg, root: &HashValue) -> bool
    ensures { IsTrue result ↔ Stamps (stamp_seen stamp.now) alg root.now }
{
    stamp.alg == alg && stamp.imprint == root.bytes()
}

// The refusal of a time before the latest.
fn early(time: Moment, latest: Option<Moment>) -> Option<Refusal>
    ensures { result ≡ early_by time latest }
{
    match latest {
        Some(covered) => {
            if is_before(&time, &covered) {
                Some(Refusal::TokenEarly {
                    token: time,
                    covered,
                })
            } else {
                None
            }
        }
        None => None,
    }
}
