ghost use Rattle.std.specs.Prelude.{◌≡◌};
ghost use Rattle.der_values.specs.Order.{set_order_of};
ghost use Rattle.der_values.specs.Inside.{all_zero, order_over};

use std::cmp::Ordering;

fn are_zeros(bytes: &[u8]) -> bool
    ensures { result ≡ all_zero bytes.now }
{
    for octet in bytes {
        if *octet != 0 {
            return false;
        }
    }
    true
}

// The order of what two byte strings have beyond the length that they share: one of them has nothing.
fn order_of_rest(a: &[u8], b: &[u8]) -> Ordering
    ensures { result ≡ order_over a.now b.now }
{
    if !are_zeros(a) {
        Ordering::Greater
    } else if !are_zeros(b) {
        Ordering::Less
    } else {
        Ordering::Equal
    }
}

/// The order of two encodings in a SET OF (X.690, 11.6): that of byte strings, the shorter one
/// padded with zero bytes at its end.
pub fn set_order(a: &[u8], b: &[u8]) -> Ordering
    ensures { result ≡ set_order_of a.now b.now }
{
    let shared = a.len().min(b.len());
    let (a_front, a_rest) = a.split_at(shared);
    let (b_front, b_rest) = b.split_at(shared);
    match a_front.cmp(b_front) {
        Ordering::Equal => order_of_rest(a_rest, b_rest),
        order => order,
    }
}
