//! Laws of the definitions that the crate's contracts cite. Each function has an empty body: its clause is the law.

ghost use Rattle.std.specs.Prelude.{◌≡◌, ◌↔◌, ◌⊎◌, ◌<◌, ◌≤◌, ℕ, List, None, Some, true, length, IsTrue, Contains};
ghost use Rattle.std.specs.Ordering.{is_le};
ghost use Rattle.std.specs.declared.cmp.Ordering.TheVariants.{Less};
ghost use Rattle.civil_moment.specs.Moment.{moment_order};
ghost use Rattle.der_values.specs.Value.{Spells};
ghost use Rattle.hash_kit.specs.Algorithm.{place_of};
ghost use Rattle.hash_kit.specs.declared.algorithm.HashAlg.{HashAlg};
ghost use Rattle.hex.specs.Hex.{IsBytes};
ghost use Rattle.algorithm_policy.specs.declared.signer.Signer.{Signer};
ghost use Rattle.algorithm_policy.specs.Words.{is_sid};
ghost use Rattle.algorithm_policy.specs.Content.{Content, IsPolicy, IsKept, hash_end, target, signer_of, first_dropped};
ghost use Rattle.algorithm_policy.specs.Text.{PolicyText};
ghost use Rattle.algorithm_policy.specs.Fault.{first_fault};

/// No text is two policies.
pub fn no_text_is_two_policies()
    ensures { (text : List ℕ) (a b : Content) → PolicyText text a → PolicyText text b → a ≡ b }
{}

/// No policy has two texts.
pub fn no_policy_has_two_texts()
    ensures { (a b : List ℕ) (policy : Content) → PolicyText a policy → PolicyText b policy → a ≡ b }
{}

/// A text has no fault exactly where it is the text of a policy.
pub fn a_text_without_a_fault_is_a_policy()
    ensures { (text : List ℕ) → (first_fault text ≡ None)
        ↔ ((policy : Content) × PolicyText text policy) }
{}

/// A signer's identifier is the one spelling of a value of tag 30 or 80, of at most 1,024 bytes.
pub fn an_identifier_is_one_value()
    ensures { (sid : List ℕ) → IsBytes sid → IsTrue (is_sid sid)
        ↔ ((tag : ℕ) × (content : List ℕ) × ((tag ≡ 48) ⊎ (tag ≡ 128)) × Spells sid tag content
        × (length sid ≤ 1024)) }
{}

/// No hash algorithm ends later than the target, and those before it end earlier.
pub fn the_target_ends_last()
    ensures last { (policy : Content) (alg : HashAlg)
        → is_le (moment_order (hash_end policy alg) (hash_end policy (target policy))) ≡ true }
    ensures first { (policy : Content) (alg : HashAlg) → place_of alg < place_of (target policy)
        → moment_order (hash_end policy alg) (hash_end policy (target policy)) ≡ Less }
{}

/// A policy keeps an older one exactly where each authority of the older one stands in it with the same name,
/// identifier, key and certificate; the ends may be others. So by each identifier that the older one knows it finds the
/// same authority.
pub fn what_a_policy_keeps()
    ensures kept { (old new : Content) → first_dropped old new ≡ None
        → (signer : Signer) → Contains old.signers signer
        → (other : Signer) × Contains new.signers other × IsKept signer other }
    ensures only { (old new : Content)
        → ((signer : Signer) → Contains old.signers signer
        → (other : Signer) × Contains new.signers other × IsKept signer other)
        → first_dropped old new ≡ None }
    ensures found { (old new : Content) → IsPolicy new → first_dropped old new ≡ None
        → (sid : List ℕ) (signer : Signer) → signer_of old sid ≡ Some signer
        → (other : Signer) × (signer_of new sid ≡ Some other) × IsKept signer other }
{}
