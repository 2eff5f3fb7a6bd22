//! Laws of the definitions that the crate's contracts cite. Each function has an empty body: its clause is the law.

ghost use Rattle.std.specs.Prelude.{◌≡◌, ◌≢◌, ◌+◌, ◌%◌, ◌^◌, ◌<◌, ◌++◌, ℕ, List, length, slice_index, None, Ok};
ghost use Rattle.der_values.specs.Input.{Input};
ghost use Rattle.der_values.specs.Value.{value, Spells};
ghost use Rattle.der_values.specs.Next.{next_of};
ghost use Rattle.der_values.specs.Shape.{Shape, Checks, Parts, spell};
ghost use Rattle.der_values.specs.Reading.{read, first};
ghost use Rattle.der_values.specs.Grammar.{Valid, Means};

/// No bytes spell two values, and no spelling begins another.
pub fn no_bytes_spell_two_values()
    ensures { (a b x y : List ℕ) (t u : ℕ) (c d : List ℕ) → Spells a t c → Spells b u d → a ++ x ≡ b ++ y → (t ≡ u) × (c ≡ d) × (x ≡ y) }
{}

/// A written value is read again, whatever stands after it.
pub fn a_written_value_is_read_again()
    ensures { (place tag : ℕ) (content after : List ℕ) → tag % 32 ≢ 31 → length content < 2 ^ 32 → next_of (record { place = place; left = value tag content ++ after }) ≡ Ok (record { place = place; tag = tag; content = content }, record { place = place + length (value tag content); left = after }) }
{}

/// What is read of a shape is spelled by its parts, which are valid.
pub fn what_is_read_is_spelled<C, S, F>()
    ensures { (k : Checks C S F) (s : Shape C) (σ τ : S) (input : Input) (p : Parts s) → ((i : ℕ) → slice_index input.left i < 256) → read k s σ input ≡ Ok (p, τ) → (input.left ≡ spell s p) × Valid k s σ input.place p τ }
{}

/// What valid parts spell is read as these parts.
pub fn what_is_spelled_is_read<C, S, F>()
    ensures { (k : Checks C S F) (s : Shape C) (σ τ : S) (place : ℕ) (p : Parts s) → Valid k s σ place p τ → read k s σ (record { place = place; left = spell s p }) ≡ Ok (p, τ) }
{}

/// By one shape no bytes mean two things.
pub fn bytes_have_one_meaning<C, S, F, V>()
    ensures { (k : Checks C S F) (s : Shape C) (σ : S) (f : Parts s → S → V) (input : Input) (v w : V) → Means k s σ f input v → Means k s σ f input w → v ≡ w }
{}

/// Every string of bytes is read or has a first fault: where it has none, it has a meaning.
pub fn bytes_without_a_first_fault_have_a_meaning<C, S, F, V>()
    ensures { (k : Checks C S F) (s : Shape C) (σ : S) (f : Parts s → S → V) (input : Input) → ((i : ℕ) → slice_index input.left i < 256) → first k s σ input ≡ None → (v : V) × Means k s σ f input v }
{}

/// And never both: bytes that have a meaning have no first fault.
pub fn bytes_with_a_meaning_have_no_first_fault<C, S, F, V>()
    ensures { (k : Checks C S F) (s : Shape C) (σ : S) (f : Parts s → S → V) (input : Input) (v : V) → Means k s σ f input v → first k s σ input ≡ None }
{}
