//! Laws of the definitions that the crate's contracts cite. Each function has an empty body: its clause is the law.

ghost use Rattle.std.specs.Prelude.{◌≡◌, ◌≢◌, ◌<◌, ◌^◌, ℕ, List, length, slice_index, take, Some, None};
ghost use Rattle.std.specs.List.{flat_map};
ghost use Rattle.evidence_syntax.specs.declared.fault.SyntaxFault.TheVariants.{Memory};
ghost use Rattle.evidence_syntax.specs.Record.{EvidenceRecord, Spells, record_first_fault};
ghost use Rattle.evidence_syntax.specs.Stamps.{Stamp, SpellsSequence};
ghost use Rattle.evidence_syntax.specs.Text.{chain_text, sequence_spelling, record_contents, record_spelling};
ghost use Rattle.evidence_syntax.specs.Valid.{IsSequence, IsRecord};

/// No bytes spell two records.
pub fn no_bytes_spell_two_records()
    ensures { (bytes : List ℕ) (a b : EvidenceRecord) → Spells bytes a → Spells bytes b → a ≡ b }
{}

/// Every string of bytes is a record or has a first fault.
pub fn bytes_without_a_first_fault_are_a_record()
    ensures { (bytes : List ℕ) → ((i : ℕ) → slice_index bytes i < 256) → record_first_fault bytes ≡ None
        → (r : EvidenceRecord) × Spells bytes r }
{}

/// A first fault has a place: it is never want of memory.
pub fn want_of_memory_is_no_first_fault()
    ensures { (bytes : List ℕ) → record_first_fault bytes ≢ Some Memory }
{}

/// Bytes spell a record exactly where its parts are those that a record may have, and the bytes are their spelling.
pub fn a_record_has_one_spelling()
    ensures valid { (bytes : List ℕ) (r : EvidenceRecord) → Spells bytes r → IsRecord r }
    ensures spelling { (bytes : List ℕ) (r : EvidenceRecord) → Spells bytes r → bytes ≡ record_spelling r }
    ensures again { (r : EvidenceRecord) → IsRecord r → Spells (record_spelling r) r }
{}

/// The spelling of chains that a sequence may have is read as these chains.
pub fn a_spelled_sequence_is_read_again()
    ensures { (chains : List (List Stamp)) → IsSequence chains → length (flat_map chain_text chains) < 2 ^ 32
        → SpellsSequence (sequence_spelling chains) chains }
{}

/// The first chains of a sequence, at least one, are a sequence.
pub fn the_first_chains_are_a_sequence()
    ensures { (chains : List (List Stamp)) (n : ℕ) → IsSequence chains → 0 < n → IsSequence (take n chains) }
{}

/// A record of parts that one may have can be written.
pub fn a_record_can_be_written()
    ensures { (r : EvidenceRecord) → IsRecord r → length (record_contents r) < 2 ^ 32 }
{}

/// A record that has a spelling can be written, and so can any number of its first chains.
pub fn a_read_record_can_be_written()
    ensures whole { (bytes : List ℕ) (r : EvidenceRecord) → Spells bytes r → length (record_contents r) < 2 ^ 32 }
    ensures sequence { (bytes : List ℕ) (r : EvidenceRecord) → Spells bytes r → length (flat_map chain_text r.chains) < 2 ^ 32 }
    ensures chains { (bytes : List ℕ) (r : EvidenceRecord) (n : ℕ) → Spells bytes r
        → length (flat_map chain_text (take n r.chains)) < 2 ^ 32 }
{}
