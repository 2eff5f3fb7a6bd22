ghost use Rattle.std.specs.Prelude.{◌≡◌, ◌<◌, length, IfOk};
ghost use Rattle.hash_tree.specs.Tree.{tree_root, tree_path};

use crate::levels::{level_above, push_neighbour};
use der_values::Items;
use hash_kit::{HashAlg, HashValue};
use std::alloc::{AllocError, Global};
use std::marker::Model;

/// A hash tree (RFC 4998, section 4.2) over at least one leaf. Contracts see its algorithm and its leaves.
#[derive(Debug, Drop)]
pub struct LevelTree {
    alg: HashAlg,
    // The leaves, then the nodes of neighbours, and so on up to the root.
    levels: Vec<Items<HashValue>>,
    root: HashValue,
}

impl Model for LevelTree {
    ghost use Rattle.std.specs.Prelude.{◌≡◌};
    ghost use Rattle.hash_tree.specs.Levels.{Covered, lowest};
    ghost use Rattle.hash_tree.specs.Inside.{AreLevels};
    ghost use Rattle.hash_tree.specs.Tree.{tree_root};

    ghost Value = { Covered };

    ghost view = { λ t. record { alg = t.alg; leaves = lowest t.levels.items } };

    ghost invariant = { λ t. AreLevels t.alg (lowest t.levels.items) t.levels.items × (t.root ≡ tree_root t.alg (lowest t.levels.items)) };
}

impl LevelTree {
    /// The tree over these leaves. It computes one node for each leaf but the last.
    pub fn build(
        alloc: Global,
        alg: HashAlg,
        leaves: Items<HashValue>,
    ) -> Result<LevelTree, AllocError>
        requires { 0 < length leaves }
        ensures algorithm { IfOk result (λ tree. tree.alg ≡ alg) }
        ensures leaves { IfOk result (λ tree. tree.leaves ≡ leaves) }
    {
        let mut levels = Vec::new(alloc);
        let mut level = leaves;
        while level.as_slice().len() > 1 {
            let above = level_above(alloc, alg, level.as_slice())?;
            levels.push(level)?;
            level = above;
        }
        let root = level.as_slice()[0];
        levels.push(level)?;
        Ok(LevelTree { alg, levels, root })
    }

    /// The root.
    pub fn root(&self) -> HashValue
        ensures { result ≡ tree_root self.now.alg self.now.leaves }
    {
        self.root
    }

    /// The path of the leaf at this place: from the leaf up, the root of the other half at each split.
    pub fn path(&self, alloc: Global, place: u32) -> Result<Items<HashValue>, AllocError>
        requires { place < length self.now.leaves }
        ensures { IfOk result (λ path. path ≡ tree_path self.now.alg self.now.leaves place) }
    {
        let mut path = Vec::with_capacity(alloc, self.levels.len())?;
        let mut place = place as usize;
        for level in &self.levels {
            push_neighbour(&mut path, level.as_slice(), place)?;
            place /= 2;
        }
        Ok(Items::from_vec(path))
    }
}
