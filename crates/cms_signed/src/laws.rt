//! Laws of the definitions that the crate's contracts cite. Each function has an empty body: its clause is the law.

ghost use Rattle.std.specs.Prelude.{◌≡◌, ◌+◌, ◌^◌, ◌<◌, ◌≤◌, ℕ, List, length, slice_index, None};
ghost use Rattle.der_values.specs.Value.{value};
ghost use Rattle.cms_signed.specs.AttributeList.{Attribute, HasAttributes};
ghost use Rattle.cms_signed.specs.Signed.{Parts, ReadsSigned, first_fault, as_set};
ghost use Rattle.cms_signed.specs.Text.{ToSign, token_text, written, IsSid, HasText};

/// No bytes spell two signed time-stamps.
pub fn no_bytes_spell_two_signed_time_stamps()
    ensures { (bytes : List ℕ) (a b : Parts) → ReadsSigned bytes a → ReadsSigned bytes b → a ≡ b }
{}

/// What is written is read again. A hash has at most 64 bytes.
pub fn a_written_time_stamp_is_read_again()
    ensures { (u : ToSign) (signature : List ℕ) → HasText u signature → length u.cert_hash ≤ 64
        → ReadsSigned (token_text u signature) (written u signature) }
{}

/// What is signed is the encoding of the attributes as a SET OF (RFC 5652, 5.4): their contents under its tag.
pub fn what_is_signed_is_a_set()
    ensures { (bytes : List ℕ) (s : Parts) → ReadsSigned bytes s
        → (attributes : List ℕ) × (s.attrs ≡ value 0xa0 attributes) × (as_set s.attrs ≡ value 0x31 attributes) }
{}

/// Parts that come to less than 4 GiB have a text, where the identifier is one and the hash has at least 24 bytes.
pub fn short_parts_have_a_text()
    ensures { (u : ToSign) (signature : List ℕ) → IsSid u.sid → 24 ≤ length u.cert_hash → length u.cert_hash ≤ 64
        → length u.content + length u.sid + length signature + 512 < 2 ^ 32 → HasText u signature }
{}

/// What is handed out is what the signed attributes say: `attrs` spells a list of attributes, among them one
/// message-digest with this digest alone, and one signing-certificate that names the certificate of this hash.
pub fn the_digest_and_the_hash_are_those_of_the_attributes()
    ensures { (bytes : List ℕ) (s : Parts) → ReadsSigned bytes s → (list : List Attribute) × HasAttributes s list }
{}

/// Every string of bytes is a signed time-stamp or has a first fault.
pub fn bytes_without_a_first_fault_are_a_signed_time_stamp()
    ensures { (bytes : List ℕ) → ((i : ℕ) → slice_index bytes i < 256) → first_fault bytes ≡ None → (s : Parts) × ReadsSigned bytes s }
{}
