//! Laws over the definitions alone.
ghost use Rattle.std.specs.Prelude.{◌≡◌, ℕ, ◌+◌, ◌-◌, ◌<◌, ◌≤◌};
ghost use Rattle.lms_sign.specs.Hss.{number_at, leaf_at};
ghost use Rattle.lms_sign.specs.declared.secret.HssSecret.{HssSecret};

/// No two indexes sign by the same leaf of the same tree on the last level, and two that sign by the same leaf of a tree
/// above sign the key of the same tree there. So each leaf signs one message, where no index signs two.
pub fn no_leaf_signs_twice()
    ensures last { (key : HssSecret) (x y : ℕ) → 1 ≤ key.levels
        → number_at key x (key.levels - 1) ≡ number_at key y (key.levels - 1)
        → leaf_at key x (key.levels - 1) ≡ leaf_at key y (key.levels - 1) → x ≡ y }
    ensures above { (key : HssSecret) (x y level : ℕ) → level + 1 < key.levels
        → number_at key x level ≡ number_at key y level → leaf_at key x level ≡ leaf_at key y level
        → number_at key x (level + 1) ≡ number_at key y (level + 1) }
{}
