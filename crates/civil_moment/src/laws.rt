//! Laws of the definitions that the crate's contracts cite. Each function has an empty body: its clause is the law.

ghost use Rattle.std.specs.Prelude.{◌≡◌, ◌↔◌, ℕ, List, None};
ghost use Rattle.civil_moment.specs.declared.moment.Moment.{Moment};
ghost use Rattle.civil_moment.specs.Moment.{Text};
ghost use Rattle.civil_moment.specs.Fault.{first_fault};

/// A text has no fault exactly where it says a moment.
pub fn a_text_without_a_fault_says_a_moment()
    ensures { (text : List ℕ) → (first_fault text ≡ None) ↔ ((moment : Moment) × Text text moment) }
{}
