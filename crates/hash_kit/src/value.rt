ghost use Rattle.std.specs.Prelude.{◌≡◌, ◌⊎◌, ◌<◌, ◌≤◌, length, nat_eq, MatchOption, Some, refl};
ghost use Rattle.std.specs.Ordering.{nat_cmp};
ghost use Rattle.std.specs.Cmp.{partial_equiv_from_equiv};
ghost use Rattle.std.specs.Cmp.Lexicographic.{pointwise, slice_cmp, nat_list_eq_equiv, nat_list_cmp_total, texts_po, texts_ties};

use std::cmp::Ordering;
use std::marker::Model;

/// The longest hash value, in bytes.
const LONGEST: usize = 64;

/// A hash value, seen as its list of 1 to 64 bytes. Values are ordered as byte strings, a prefix first.
#[derive(Clone, Copy, Debug, Drop)]
pub struct HashValue {
    // The bytes, then zeros.
    filled: [u8; 64],
    size: usize,
}

impl Model for HashValue {
    ghost use Rattle.std.specs.Prelude.{ℕ, List, length, take};
    ghost use Rattle.hash_kit.specs.Inside.{filled_up, IsFilled, size_again, filled_again};

    ghost Value = { List ℕ };

    ghost view = { λ h. take h.size h.filled };

    ghost invariant = { λ h. IsFilled h.size h.filled };

    ghost inverse = { λ v. record { filled = filled_up v; size = length v } };

    ghost inverse_ok = { λ h is i. record {
      filled = filled_again h.size h.filled is i;
      size = size_again h.size h.filled is i;
    } };
}

impl HashValue {
    /// The value of these bytes, or None where they aren't 1 to 64.
    pub fn new(bytes: &[u8]) -> Option<HashValue>
        ensures { MatchOption result ((length bytes.now ≡ 0) ⊎ (64 < length bytes.now))
            (λ value. value ≡ bytes.now) }
    {
        let size = bytes.len();
        if size == 0 || size > LONGEST {
            return None;
        }
        Some(HashValue::of(bytes))
    }

    /// The value of 1 to 64 bytes.
    pub fn of(bytes: &[u8]) -> HashValue
        requires some { 0 < length bytes.now }
        requires most { length bytes.now ≤ 64 }
        ensures { result ≡ bytes.now }
    {
        let size = bytes.len();
        let mut filled = [0; LONGEST];
        filled[..size].copy_from_slice(bytes);
        HashValue { filled, size }
    }

    /// The 1 to 64 bytes.
    pub fn bytes(&self) -> &[u8]
        ensures bytes { result.now ≡ self.now }
        ensures some { 0 < length result.now }
        ensures most { length result.now ≤ 64 }
    {
        &self.filled[..self.size]
    }
}

impl PartialEq for HashValue {
    ghost eq = { λ a b. pointwise nat_eq a b };

    ghost laws = { partial_equiv_from_equiv nat_list_eq_equiv };

    fn eq(&self, other: &Self) -> bool {
        self.bytes() == other.bytes()
    }
}

impl Eq for HashValue {
    ghost laws = { nat_list_eq_equiv };
}

impl PartialOrd for HashValue {
    ghost partial_cmp = { λ a b. Some (slice_cmp nat_cmp a b) };

    ghost laws = { texts_po };

    fn partial_cmp(&self, other: &Self) -> Option<Ordering> {
        Some(self.cmp(other))
    }
}

impl Ord for HashValue {
    ghost cmp = { λ a b. slice_cmp nat_cmp a b };

    ghost total = { nat_list_cmp_total };

    ghost matches_partial_cmp = { λ a b. refl };

    ghost matches_eq = { λ a b. texts_ties a b };

    fn cmp(&self, other: &Self) -> Ordering {
        self.bytes().cmp(other.bytes())
    }
}
