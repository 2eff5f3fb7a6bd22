ghost use Rattle.std.specs.Prelude.{◌≡◌, ◌<◌, ◌≤◌, List, length, None, IfOk, OnOk, IfErr};
ghost use Rattle.entry_codec.specs.declared.entry.Entry.{Entry};
ghost use Rattle.evidence_syntax.specs.Record.{longest_record};
ghost use Rattle.evidence_syntax.specs.Text.{record_spelling};
ghost use Rattle.evidence_verify.specs.declared.verdict.Mode.TheVariants.{Member};
ghost use Rattle.evidence_verify.specs.declared.verdict.Verdict.TheVariants.{Valid};
ghost use Rattle.evidence_verify.specs.Verdict.{Verdicts};
ghost use Rattle.archive_chain.specs.Kept.{covers_of};
ghost use Rattle.archive_chain.specs.History.{Legal};
ghost use Rattle.archive_chain.specs.Held.{Agrees, StandsFor};
ghost use Rattle.archive_issue.specs.Record.{group_record, documents_of, record_after};
ghost use Rattle.archive_issue.specs.Reason.{HasReason, IsRefused};

use crate::fault::IssueFault;
use crate::hashes::hash_names;
use crate::laws::a_record_is_valid_where_nothing_stands_against_it;
use crate::reason::reason;
use archive_chain::Archive;
use civil_moment::Moment;
use evidence_syntax::{EvRecord, write_record};
use object_groups::Group;
use std::alloc::{AllocError, Global};

/// The evidence record of a group (RFC 4998, 3.1), if these are its documents and nothing stands against it at this moment;
/// else the first reason, or want of memory. Its bytes are at most 16,777,216.
pub fn issue(
    alloc: Global,
    archive: &Archive,
    id: u32,
    group: &Group,
    moment: Moment,
) -> Result<Vec<u8>, IssueFault>
    // Given exactly where nothing stands against it, by what the tokens of the record say.
    ensures given { (history : List Entry) → Agrees archive.now history
        → OnOk result (HasReason archive.now history id moment None) }
    ensures refused { (history : List Entry) → Agrees archive.now history
        → IfErr result (IsRefused archive.now history id moment) }

    // The bytes are those of the record after a history that has these documents, and after a legal one they verify.
    ensures spelled { (history : List Entry) → StandsFor archive.now history → documents_of history id ≡ group.now
        → IfOk result (λ bytes. bytes.items ≡ record_spelling (record_after history id)) }
    ensures valid { (history : List Entry) → Legal history → StandsFor archive.now history → documents_of history id ≡ group.now
        → IfOk result (λ bytes. Verdicts archive.now.policy group.now Member moment bytes.items Valid) }

    ensures short { IfOk result (λ bytes. length bytes.items ≤ longest_record) }
{
    a_record_is_valid_where_nothing_stands_against_it();
    if let Some(fault) = reason(alloc, archive, id, moment)? {
        return Err(fault);
    }
    Ok(written(alloc, archive, id, group)?)
}

// The record of a group that was sealed.
fn written(alloc: Global, archive: &Archive, id: u32, group: &Group) -> Result<Vec<u8>, AllocError>
    requires { id < length archive.now.kept.sealed }
    ensures spelled { IfOk result (λ bytes. bytes.items
        ≡ record_spelling (group_record archive.now.trees group.now (covers_of archive.now.kept id))) }
    ensures short { IfOk result (λ bytes. length bytes.items ≤ longest_record) }
{
    let coverings = archive.coverings(alloc, id)?;
    let algorithms = hash_names(alloc, coverings.as_slice())?;
    let chains = archive.sequence(alloc, id, group)?;
    let record = EvRecord {
        algorithms,
        crypto: None,
        encryption: None,
        chains,
    };
    write_record(alloc, &record)
}
