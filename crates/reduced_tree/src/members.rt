ghost use Rattle.std.specs.Prelude.{◌<◌, ◌↔◌, length, Contains, IsTrue};
ghost use Rattle.std.specs.List.{AllByRecursion};
ghost use Rattle.reduced_tree.specs.Reduced.{first_of, IsWhole};

use der_values::Items;
use hash_kit::HashValue;

/// Whether the first list has this value.
pub fn contains_first(lists: &Items<Items<HashValue>>, value: &HashValue) -> bool
    requires { 0 < length lists.now }
    ensures { IsTrue result ↔ Contains (first_of lists.now) value.now }
{
    has(lists.as_slice()[0].as_slice(), value)
}

/// Whether each value of the first list is among these.
pub fn is_whole(lists: &Items<Items<HashValue>>, values: &[HashValue]) -> bool
    requires { 0 < length lists.now }
    ensures { IsTrue result ↔ IsWhole lists.now values.now }
{
    are_among(lists.as_slice()[0].as_slice(), values)
}

fn are_among(first: &[HashValue], values: &[HashValue]) -> bool
    ensures { IsTrue result ↔ AllByRecursion (λ value. Contains values.now value) first.now }
{
    for value in first {
        if !has(values, value) {
            return false;
        }
    }
    true
}

fn has(values: &[HashValue], value: &HashValue) -> bool
    ensures { IsTrue result ↔ Contains values.now value.now }
{
    values.contains(value)
}
