//! Laws of the definitions that the crate's contracts cite. Each function has an empty body: its clause is the law.

ghost use Rattle.std.specs.Prelude.{◌≡◌, ◌⊎◌, ◌<◌, ℕ, List, slice_index};
ghost use Rattle.algorithm_policy.specs.Content.{Content};
ghost use Rattle.token_check.specs.declared.fault.Check.{Check};
ghost use Rattle.token_check.specs.Sound.{Stamp, Sound};
ghost use Rattle.token_check.specs.Fault.{Fails};

/// A sound token says one thing.
pub fn no_token_says_two_things()
    ensures { (policy : Content) (bytes : List ℕ) (a b : Stamp) → Sound policy bytes a → Sound policy bytes b → a ≡ b }
{}

/// One check is the first that fails.
pub fn no_token_fails_two_checks()
    ensures { (policy : Content) (bytes : List ℕ) (a b : Check) → Fails policy bytes a → Fails policy bytes b → a ≡ b }
{}

/// A sound token fails no check.
pub fn no_sound_token_fails()
    ensures { (policy : Content) (bytes : List ℕ) (stamp : Stamp) (check : Check) → Sound policy bytes stamp
        → Fails policy bytes check → ⊥ }
{}

/// Each token is sound under each policy, or a check of it is the first that fails.
pub fn each_token_is_sound_or_fails_a_check()
    ensures { (policy : Content) (bytes : List ℕ) → ((i : ℕ) → slice_index bytes i < 256)
        → ((stamp : Stamp) × Sound policy bytes stamp) ⊎ ((check : Check) × Fails policy bytes check) }
{}
