ghost use Rattle.std.specs.Prelude.{◌≡◌, ◌<◌, ℕ, replicate, slice_index, vec_len, IfOk};

use std::alloc::{AllocError, Global};
use std::marker::Model;

/// A byte string that is owned. Contracts see it as the list of its bytes.
#[derive(Debug, Drop)]
pub struct Bytes {
    items: Vec<u8>,
}

impl Model for Bytes {
    ghost use Rattle.std.specs.Prelude.{List, ℕ};

    ghost Value = { List ℕ };

    ghost view = { λ b. b.items.items };
}

impl Bytes {
    /// The bytes of the `Vec`, which is taken over as it stands.
    pub fn from_vec(items: Vec<u8>) -> Bytes
        ensures { result ≡ items.items }
    {
        Bytes { items }
    }

    /// The bytes, as a slice.
    pub fn as_slice(&self) -> &[u8]
        ensures { result.now ≡ self.now }
    {
        self.items.as_slice()
    }

    /// The bytes, as the `Vec` that holds them.
    pub fn into_vec(self) -> Vec<u8>
        ensures { result.items ≡ self }
    {
        let Bytes { items } = self;
        items
    }
}

/// So many zeros. The size is a parameter, so that no proof writes out a list of so many.
pub fn zeros(alloc: Global, size: usize) -> Result<Vec<u8>, AllocError>
    ensures zeros { IfOk result (λ bytes. bytes.items ≡ replicate size 0) }
    ensures len { IfOk result (λ bytes. vec_len bytes ≡ size) }
{
    vec![in alloc; 0; size]
}

/// That bytes are below 256. It is known of a slice that is passed, and not of one in a struct: a proof that needs it
/// of such a slice passes it here, and nothing is done.
pub fn are_octets(bytes: &[u8])
    ensures { (i : ℕ) → slice_index bytes.now i < 256 }
{}
