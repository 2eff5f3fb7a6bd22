// Entries, read part by part from the left.
ghost use Rattle.std.specs.Prelude.{◌≡◌, ◌∷◌, ℕ, List, ◌^◌, ◌<◌, IfOk, IfErr, Ok, Err, Some};
ghost use Rattle.der_values.specs.Reading.{Unless, AnswersUnless};
ghost use Rattle.hash_kit.specs.declared.algorithm.HashAlg.{HashAlg};
ghost use Rattle.entry_codec.specs.declared.entry.Entry.{Entry};
ghost use Rattle.entry_codec.specs.Spelling.{entry_spelling, IsEntry};
ghost use Rattle.entry_codec.specs.Form.{repeated};
ghost use Rattle.entry_codec.specs.Fault.{cohort_form, after_cohort, cohorts_form, counted_form, deposit_form, seal_form, renewal_form, policy_form, kind_form, entry_first_fault, is_memory, IsFaultOf};
ghost use Rattle.entry_codec.specs.Inside.{read_at, place_of, kind_byte, ReadsWhole};

use crate::deposit::{deposit_places, groups_at};
use crate::entry::Entry;
use crate::fault::EntryFault;
use crate::kind::Kind;
use crate::limits::{LONGEST_POLICY, LONGEST_TOKEN};
use crate::payload::Payload;
use der_values::{Bytes, Items};
use hash_kit::HashAlg;
use std::alloc::Global;

/// The entry that the bytes spell, with copies of its documents. Else the place of their first fault: of the first byte that no
/// spelling has after the bytes before it, or the end where they stop short of one; or want of memory.
pub fn read_entry(alloc: Global, bytes: &[u8]) -> Result<Entry, EntryFault>
    // What is answered is what the bytes spell, and what they spell is answered, unless there is no memory.
    ensures spelled { IfOk result (λ e. IsEntry e × (bytes.now ≡ entry_spelling e)) }
    ensures only { (e : Entry) → IsEntry e → bytes.now ≡ entry_spelling e → AnswersUnless is_memory (λ f. f) e result }
    ensures fault { IfErr result (IsFaultOf bytes.now) }
{
    whole(alloc, bytes)
}

fn whole(alloc: Global, bytes: &[u8]) -> Result<Entry, EntryFault>
    ensures ok { IfOk result (ReadsWhole bytes.now) }
    ensures fault { IfErr result (λ e. Unless (is_memory e) (entry_first_fault bytes.now ≡ Some (place_of e))) }
{
    let mut payload = Payload::new(bytes);
    let kind = payload.kind()?;
    let entry = of_kind(alloc, bytes, &mut payload, kind)?;
    payload.finish()?;
    Ok(entry)
}

#[tactic(auto, unfolding(crate::specs::Fault::kind_form))]
fn of_kind(
    alloc: Global,
    bytes: &[u8],
    payload: &mut Payload<'_>,
    kind: Kind,
) -> Result<Entry, EntryFault>
    requires bytes { bytes.now ≡ kind_byte kind ∷ payload.old.bytes }
    requires place { payload.old.place ≡ 1 }
    ensures ok { IfOk result (λ e. read_at (kind_form (kind_byte kind)) payload.old ≡ Ok (e, payload.new)) }
    ensures fault { IfErr result (λ e. Unless (is_memory e) (read_at (kind_form (kind_byte kind)) payload.old ≡ Err (place_of e))) }
{
    match kind {
        Kind::Deposit => deposit(alloc, bytes, payload),
        Kind::Seal => seal(alloc, payload),
        Kind::RenewStamps => {
            let (hash, cohorts, token) = renewal(alloc, payload)?;
            Ok(Entry::RenewStamps {
                hash,
                cohorts,
                token,
            })
        }
        Kind::RenewTrees => {
            let (hash, cohorts, token) = renewal(alloc, payload)?;
            Ok(Entry::RenewTrees {
                hash,
                cohorts,
                token,
            })
        }
        Kind::SetPolicy => set_policy(alloc, payload),
    }
}

// The groups are copied from where they lie in the bytes.
fn deposit(alloc: Global, bytes: &[u8], payload: &mut Payload<'_>) -> Result<Entry, EntryFault>
    requires bytes { bytes.now ≡ 1 ∷ payload.old.bytes }
    requires place { payload.old.place ≡ 1 }
    ensures ok { IfOk result (λ e. read_at deposit_form payload.old ≡ Ok (e, payload.new)) }
    ensures fault { IfErr result (λ e. Unless (is_memory e) (read_at deposit_form payload.old ≡ Err (place_of e))) }
{
    let places = deposit_places(alloc, payload)?;
    let groups = groups_at(alloc, bytes, &places)?;
    Ok(Entry::Deposit { groups })
}

#[tactic(auto, unfolding(crate::specs::Fault::seal_form, crate::specs::Form::reads), using(crate::proofs::Forms::reads_followed))]
fn seal(alloc: Global, payload: &mut Payload<'_>) -> Result<Entry, EntryFault>
    ensures ok { IfOk result (λ e. read_at seal_form payload.old ≡ Ok (e, payload.new)) }
    ensures fault { IfErr result (λ e. Unless (is_memory e) (read_at seal_form payload.old ≡ Err (place_of e))) }
{
    let hash = payload.hash()?;
    let count = payload.ranged(0, u64::from(u32::MAX))?;
    let token = counted(alloc, payload, LONGEST_TOKEN)?;
    Ok(Entry::Seal { hash, count, token })
}

// The hash, the cohorts and the token of a renewal.
#[tactic(auto, unfolding(crate::specs::Fault::renewal_form, crate::specs::Form::reads), using(crate::proofs::Forms::reads_followed))]
fn renewal(
    alloc: Global,
    payload: &mut Payload<'_>,
) -> Result<(HashAlg, Items<u32>, Bytes), EntryFault>
    ensures ok { IfOk result (λ r. (made : HashAlg → List ℕ → List ℕ → Entry) → read_at (renewal_form made) payload.old ≡ Ok (made r.0 r.1 r.2, payload.new)) }
    ensures fault { IfErr result (λ e. (made : HashAlg → List ℕ → List ℕ → Entry) → Unless (is_memory e) (read_at (renewal_form made) payload.old ≡ Err (place_of e))) }
{
    let hash = payload.hash()?;
    let cohorts = cohorts(alloc, payload)?;
    let token = counted(alloc, payload, LONGEST_TOKEN)?;
    Ok((hash, cohorts, token))
}

#[tactic(auto, unfolding(crate::specs::Fault::policy_form, crate::specs::Form::reads), using(crate::proofs::Forms::reads_followed))]
fn set_policy(alloc: Global, payload: &mut Payload<'_>) -> Result<Entry, EntryFault>
    ensures ok { IfOk result (λ e. read_at policy_form payload.old ≡ Ok (e, payload.new)) }
    ensures fault { IfErr result (λ e. Unless (is_memory e) (read_at policy_form payload.old ≡ Err (place_of e))) }
{
    let text = counted(alloc, payload, LONGEST_POLICY)?;
    Ok(Entry::SetPolicy { text })
}

#[tactic(auto, unfolding(crate::specs::Fault::cohorts_form), using(crate::proofs::Forms::reads_followed))]
fn cohorts(alloc: Global, payload: &mut Payload<'_>) -> Result<Items<u32>, EntryFault>
    ensures ok { IfOk result (λ cs. read_at cohorts_form payload.old ≡ Ok (cs, payload.new)) }
    ensures fault { IfErr result (λ e. Unless (is_memory e) (read_at cohorts_form payload.old ≡ Err (place_of e))) }
{
    let count = payload.ranged(1, u64::from(u32::MAX))?;
    cohorts_of(alloc, payload, count)
}

// So many cohorts, strictly ascending.
fn cohorts_of(
    alloc: Global,
    payload: &mut Payload<'_>,
    count: u32,
) -> Result<Items<u32>, EntryFault>
    ensures ok { IfOk result (λ cs. read_at (repeated cohort_form after_cohort count 0) payload.old ≡ Ok (cs, payload.new)) }
    ensures fault { IfErr result (λ e. Unless (is_memory e) (read_at (repeated cohort_form after_cohort count 0) payload.old ≡ Err (place_of e))) }
{
    let mut cohorts = Vec::new(alloc);
    let mut left = count;
    let mut low = 0;
    while left > 0 {
        left -= 1;
        let cohort = payload.ranged(low, u64::from(u32::MAX - left))?;
        cohorts.push(cohort)?;
        low = u64::from(cohort) + 1;
    }
    Ok(Items::from_vec(cohorts))
}

// A length up to this one, and a copy of that many bytes.
fn counted(alloc: Global, payload: &mut Payload<'_>, most: u64) -> Result<Bytes, EntryFault>
    requires { most < 2 ^ 32 }
    ensures ok { IfOk result (λ b. read_at (counted_form most) payload.old ≡ Ok (b, payload.new)) }
    ensures fault { IfErr result (λ e. Unless (is_memory e) (read_at (counted_form most) payload.old ≡ Err (place_of e))) }
{
    let bytes = payload.counted(most)?;
    Ok(Bytes::from_vec(Vec::from_slice(alloc, bytes)?))
}
