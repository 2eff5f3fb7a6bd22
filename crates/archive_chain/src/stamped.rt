// The time-stamp of an entry, where its token keeps the rules.
ghost use Rattle.std.specs.Prelude.{◌≡◌, ◌<◌, ℕ, List, length, IfOk, IfErr, OnOk};
ghost use Rattle.token_check.specs.Sound.{stamp_seen};
ghost use Rattle.hash_tree.specs.Tree.{tree_root};
ghost use Rattle.archive_chain.specs.Rules.{Stamps, TokenBreaks, TokenKeepsBut};
ghost use Rattle.archive_chain.specs.InsideToken.{Refuses, IsLatestOf};
ghost use Rattle.archive_chain.specs.InsideMade.{IsStampOf, IsKeptOf};

use crate::refusal::Refusal;
use crate::time_stamp::TimeStamp;
use crate::token_rules::token_rules;
use algorithm_policy::Policy;
use civil_moment::Moment;
use der_values::{Bytes, Items};
use hash_kit::{HashAlg, HashValue};
use hash_tree::LevelTree;
use std::alloc::{AllocError, Global};
use token_check::CheckedStamp;

// The time-stamp by this token over these leaves, where the tokens that it covers anew have this latest time.
pub(crate) fn stamped(
    alloc: Global,
    policy: &Policy,
    alg: HashAlg,
    latest: Option<Moment>,
    token: &[u8],
    leaves: &[HashValue],
) -> Result<Box<TimeStamp>, Refusal>
    requires { 0 < length leaves.now }
    ensures made { IfOk result (λ stamp. IsStampOf policy.now alg token.now leaves.now stamp.value) }
    ensures keeps { (covered : List (List ℕ)) → IsLatestOf policy.now covered latest
        → OnOk result (TokenKeepsBut (λ says. Stamps says alg (tree_root alg leaves.now)) policy.now covered token.now) }
    ensures breaks { (covered : List (List ℕ)) → IsLatestOf policy.now covered latest
        → IfErr result (Refuses (TokenBreaks policy.now alg (tree_root alg leaves.now) covered token.now)) }
{
    let tree = tree_over(alloc, alg, leaves)?;
    let says = token_rules(alloc, policy, alg, &tree.root(), latest, token)?;
    let stamp = kept_of(alloc, alg, &says, tree)?;
    Ok(stamp)
}

// The tree over these leaves.
fn tree_over(alloc: Global, alg: HashAlg, leaves: &[HashValue]) -> Result<LevelTree, AllocError>
    requires { 0 < length leaves.now }
    ensures { IfOk result (λ tree. (tree.alg ≡ alg) × (tree.leaves ≡ leaves.now)) }
{
    let leaves = Vec::from_slice(alloc, leaves)?;
    LevelTree::build(alloc, alg, Items::from_vec(leaves))
}

// What is kept of a token with what it says, and of its tree.
fn kept_of(
    alloc: Global,
    alg: HashAlg,
    says: &CheckedStamp<'_>,
    tree: LevelTree,
) -> Result<Box<TimeStamp>, AllocError>
    ensures { IfOk result (λ stamp. IsKeptOf alg says.now tree stamp.value) }
{
    let token = Bytes::from_vec(Vec::from_slice(alloc, says.bytes)?);
    let sid = Bytes::from_vec(Vec::from_slice(alloc, says.sid)?);
    let stamp = TimeStamp {
        alg,
        token,
        time: says.time,
        sid,
        tree,
    };
    Ok(Box::new(alloc, stamp)?)
}
