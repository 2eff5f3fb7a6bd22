//! Laws of the definitions that the crate's contracts cite. Each function has an empty body: its clause is the law.

ghost use Rattle.std.specs.Prelude.{◌≡◌, ◌↔◌, ℕ, List, None};
ghost use Rattle.object_groups.specs.Groups.{IsGroup, fault_of};

/// Documents pass no limit exactly where they are a group.
pub fn documents_without_a_fault_are_a_group()
    ensures { (documents : List (List ℕ)) → (fault_of documents ≡ None) ↔ IsGroup documents }
{}
