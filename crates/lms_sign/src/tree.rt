ghost use Rattle.std.specs.Prelude.{◌≡◌, ◌+◌, ◌*◌, ◌^◌, ◌<◌, ◌≤◌, ◌++◌, IfOk, OnOk};
ghost use Rattle.lms_verify.specs.Lms.{height_of};
ghost use Rattle.lms_sign.specs.Lms.{leaves_of, leaf_node, node, sibling_of, path_of, lms_public, lms_signature};
ghost use Rattle.lms_sign.specs.Inside.{IsTree, AreNodes};

use crate::ots::{ots_key, write_ots_signature};
use crate::secret::TreeSecret;
use hash_kit::HashValue;
use lms_verify::{INNER, LEAF, hash, height_of};
use std::alloc::{AllocError, Global};
use std::marker::Model;

/// A tree with all its nodes, seen as what it comes from. T[r] stands `r` places before the end: the last leaf first, the
/// root last.
#[derive(Drop)]
pub(crate) struct Tree {
    secret: TreeSecret,
    nodes: Vec<HashValue>,
}

impl Model for Tree {
    ghost use Rattle.lms_sign.specs.declared.secret.TreeSecret.{TreeSecret};
    ghost use Rattle.lms_sign.specs.Inside.{IsTree, AreNodes};

    ghost Value = { TreeSecret };

    ghost view = { λ t. t.secret };

    ghost invariant = { λ t. IsTree t.secret × AreNodes t.secret 0 t.nodes.items };
}

// The number of leaves, 2^h.
fn leaves_of(tree: &TreeSecret) -> u32
    requires { IsTree tree.now }
    ensures value { result ≡ leaves_of tree.now }
    ensures some { 32 ≤ result }
    ensures most { result ≤ 1024 }
{
    1 << height_of(tree.lms_type)
}

// T[r] of a leaf.
#[tactic(auto, unfolding(crate::specs::Lms::leaf_node))]
fn leaf_node(tree: &TreeSecret, r: u32) -> HashValue
    requires tree { IsTree tree.now }
    requires leaf { leaves_of tree.now ≤ r }
    ensures { result ≡ leaf_node tree.now r }
{
    let key = ots_key(tree, r - leaves_of(tree));
    hash(&tree.identifier, r, LEAF, &[], key.bytes())
}

// T[r], over the nodes with a greater number.
fn next_node(tree: &TreeSecret, r: u32, later: &[HashValue]) -> HashValue
    requires tree { IsTree tree.now }
    requires some { 0 < r }
    requires later { AreNodes tree.now r later.now }
    ensures { result ≡ node tree.now r }
{
    let leaves = leaves_of(tree);
    if r >= leaves {
        return leaf_node(tree, r);
    }
    let right = 2 * (leaves - 1 - r) as usize;
    hash(
        &tree.identifier,
        r,
        INNER,
        later[right + 1].bytes(),
        later[right].bytes(),
    )
}

// The other node under the node above.
fn sibling_of(r: u32) -> u32
    requires low { 0 < r }
    requires high { r < 2 ^ 31 }
    ensures { result ≡ sibling_of r }
{
    if r % 2 == 1 { r - 1 } else { r + 1 }
}

impl Tree {
    /// Makes all nodes: 2^h one-time public keys, and a hash for each inner node.
    pub(crate) fn grow(alloc: Global, secret: TreeSecret) -> Result<Tree, AllocError>
        requires { IsTree secret }
        ensures { IfOk result (λ tree. tree ≡ secret) }
    {
        let ends = 2 * leaves_of(&secret);
        let mut nodes = Vec::with_capacity(alloc, ends as usize)?;
        for made in 1..ends {
            let node = next_node(&secret, ends - made, &nodes);
            nodes.push(node)?;
        }
        Ok(Tree { secret, nodes })
    }

    // T[r].
    fn node(&self, r: u32) -> HashValue
        requires some { 0 < r }
        requires within { r < 2 * leaves_of self.now }
        ensures { result ≡ node self.now r }
    {
        self.nodes[self.nodes.len() - r as usize]
    }

    /// The LMS public key (RFC 8554, section 5.3).
    pub(crate) fn public(&self, alloc: Global) -> Result<Vec<u8>, AllocError>
        ensures { IfOk result (λ key. key.items ≡ lms_public self.now) }
    {
        let mut key = Vec::with_capacity(alloc, 56)?;
        key.extend_from_slice(&self.secret.lms_type.to_be_bytes())?;
        key.extend_from_slice(&self.secret.ots_type.to_be_bytes())?;
        key.extend_from_slice(&self.secret.identifier)?;
        key.extend_from_slice(self.node(1).bytes())?;
        Ok(key)
    }

    // Writes the siblings on the way from a leaf to the root.
    fn write_path(&self, leaf: u32, out: &mut Vec<u8>) -> Result<(), AllocError>
        requires { leaf < leaves_of self.now }
        ensures { OnOk result (out.new.items ≡ out.old.items ++ path_of self.now leaf) }
    {
        let mut r = leaves_of(&self.secret) + leaf;
        for level in 0..height_of(self.secret.lms_type) {
            out.extend_from_slice(self.node(sibling_of(r)).bytes())?;
            r /= 2;
        }
        Ok(())
    }

    /// Writes the signature of a message by a leaf (RFC 8554, section 5.4).
    pub(crate) fn write_signature(
        &self,
        leaf: u32,
        message: &[u8],
        out: &mut Vec<u8>,
    ) -> Result<(), AllocError>
        requires { leaf < leaves_of self.now }
        ensures { OnOk result (out.new.items ≡ out.old.items ++ lms_signature self.now leaf message.now) }
    {
        out.extend_from_slice(&leaf.to_be_bytes())?;
        write_ots_signature(&self.secret, leaf, message, out)?;
        out.extend_from_slice(&self.secret.lms_type.to_be_bytes())?;
        self.write_path(leaf, out)
    }
}
