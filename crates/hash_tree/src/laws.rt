//! Laws of the definitions that the crate's contracts cite. Each function has an empty body: its clause is the law.

ghost use Rattle.std.specs.Prelude.{◌≡◌, ◌*◌, ◌^◌, ◌<◌, ◌≤◌, ℕ, List, [], length, slice_index_or};
ghost use Rattle.hash_kit.specs.declared.algorithm.HashAlg.{HashAlg};
ghost use Rattle.hash_tree.specs.Tree.{power_below, tree_root, tree_path, folded};

/// Where a tree is split is the largest power of two below the number of its leaves.
pub fn power_below_is_the_largest()
    ensures power { (n : ℕ) → (k : ℕ) × (power_below n ≡ 2 ^ k) }
    ensures below { (n : ℕ) → 2 ≤ n → power_below n < n }
    ensures largest { (n : ℕ) → n ≤ 2 * power_below n }
{}

/// A leaf with its path comes to the root.
pub fn each_path_folds_to_the_root()
    ensures { (alg : HashAlg) (leaves : List (List ℕ)) (place : ℕ) → place < length leaves
        → folded alg (slice_index_or leaves place []) (tree_path alg leaves place) ≡ tree_root alg leaves }
{}
