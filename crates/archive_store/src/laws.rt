//! Laws of the definitions that the crate's contracts cite, and of calls one after another. The clauses of each function are the law.
ghost use Rattle.std.specs.Prelude.{◌≡◌, ◌⊎◌, ℕ, List, false, IsTrue, IfOk, IfErr};
ghost use Rattle.entry_codec.specs.declared.entry.Entry.{Entry};
ghost use Rattle.archive_chain.specs.History.{Legal};
ghost use Rattle.archive_store.specs.declared.fault.StoreFault.{StoreFault};
ghost use Rattle.archive_store.specs.Events.{Event, opened, Happens, FindsEachStep};
ghost use Rattle.archive_store.specs.Told.{entries_of, marks_of, is_closed};
ghost use Rattle.archive_store.specs.Images.{ReadsHistory};
ghost use Rattle.archive_store.specs.Opening.{Unopens, IsOutside};

use crate::{Store, StoreFault};
use algorithm_policy::laws::no_text_is_two_policies;
use archive_chain::laws::{
    an_entry_breaks_one_rule_first, an_entry_that_keeps_all_rules_breaks_none,
};
use entry_codec::laws::{bytes_without_a_fault_are_an_entry, no_bytes_spell_two_entries};
use ev_world::Disk;
use std::alloc::Global;

/// Whatever happens between openings, the history that is found is legal, and it is the one before with each step that was acknowledged,
/// in order and once; of a step that was not acknowledged, that one at most, at the end of its opening.
pub fn reopening_finds_a_prefix()
    ensures { (history : List Entry) (events : List Event) → Legal history → Happens (opened history) events → FindsEachStep history events }
{}

/// No bytes read two histories.
pub fn bytes_read_one_history()
    ensures { (b : List ℕ) (h k : List Entry) → ReadsHistory b h → ReadsHistory b k → h ≡ k }
{
    gate_journal::laws::bytes_read_one_list();
    no_bytes_spell_two_entries();
}

/// Bytes that read a legal history are not refused.
pub fn what_is_read_is_not_refused()
    ensures { (b : List ℕ) (h : List Entry) (e : StoreFault) → ReadsHistory b h → Unopens b e → IsOutside e }
{
    gate_journal::laws::bytes_read_one_list();
    gate_journal::laws::what_is_read_is_not_damaged();
    no_bytes_spell_two_entries();
    bytes_without_a_fault_are_an_entry();
    no_text_is_two_policies();
    an_entry_that_keeps_all_rules_breaks_none();
}

/// Bytes are refused for one fault: each refusal to open has its own.
pub fn bytes_are_refused_for_one_fault()
    ensures { (b : List ℕ) (e f : StoreFault) → Unopens b e → Unopens b f → IsOutside e ⊎ (IsOutside f ⊎ (e ≡ f)) }
{
    gate_journal::laws::bytes_read_one_list();
    gate_journal::laws::bytes_have_one_damage();
    gate_journal::laws::what_is_read_is_not_damaged();
    no_bytes_spell_two_entries();
    bytes_without_a_fault_are_an_entry();
    no_text_is_two_policies();
    an_entry_breaks_one_rule_first();
    an_entry_that_keeps_all_rules_breaks_none();
}

/// A store of which no step has failed, closed and opened again, tells the same entries and no mark. It is refused for a fault of the
/// disk or want of memory alone.
pub fn a_closed_store_tells_the_same_again<D: Disk>(
    alloc: Global,
    store: Store<D>,
) -> Result<Store<D>, (D, StoreFault)>
    requires { is_closed store.told ≡ false }
    ensures same { IfOk result (λ again. IsTrue D.tells → entries_of again.told ≡ entries_of store.told) }
    ensures unmarked { IfOk result (λ again. marks_of again.told ≡ 0) }
    ensures outside { IfErr result (λ e. IsTrue D.tells → IsOutside e.1) }
{
    Store::open(alloc, store.close())
}
