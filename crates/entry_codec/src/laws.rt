//! Laws of the definitions that the crate's contracts cite. Each function has an empty body: its clause is the law.

ghost use Rattle.std.specs.Prelude.{◌≡◌, ◌↔◌, ℕ, List, Some, None};
ghost use Rattle.entry_codec.specs.declared.entry.Entry.{Entry};
ghost use Rattle.entry_codec.specs.Spelling.{entry_spelling, IsEntry};
ghost use Rattle.entry_codec.specs.Fault.{entry_first_fault, Spells, StopsAt};

/// No bytes spell two entries.
pub fn no_bytes_spell_two_entries()
    ensures { (bytes : List ℕ) (e f : Entry) → IsEntry e → bytes ≡ entry_spelling e → IsEntry f → bytes ≡ entry_spelling f → e ≡ f }
{}

/// Bytes have no first fault exactly where they spell an entry.
pub fn bytes_without_a_fault_are_an_entry()
    ensures { (bytes : List ℕ) → (entry_first_fault bytes ≡ None) ↔ Spells bytes }
{}

/// The first fault stands exactly where the bytes before it begin a spelling and no spelling goes on with the byte there.
pub fn a_fault_stands_at_the_first_byte_too_many()
    ensures { (bytes : List ℕ) (place : ℕ) → (entry_first_fault bytes ≡ Some place) ↔ StopsAt bytes place }
{}
