//! Laws over the definitions alone.
ghost use Rattle.std.specs.Prelude.{◌≡◌, ℕ, List, IsPermutation, IsSorted};
ghost use Rattle.hash_kit.specs.Node.{bytes_cmp, ascending};

/// The list that a node joins has each value as often as the node's values have it, it ascends, and no other list is
/// such.
pub fn ascending_list_is_the_only_one()
    ensures same { (values : List (List ℕ)) → IsPermutation values (ascending values) }
    ensures ascends { (values : List (List ℕ)) → IsSorted bytes_cmp (ascending values) }
    ensures only { (values l : List (List ℕ)) → IsPermutation values l → IsSorted bytes_cmp l
        → l ≡ ascending values }
{}
