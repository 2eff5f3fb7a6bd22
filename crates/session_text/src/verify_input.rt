ghost use Rattle.std.specs.Prelude.{◌≡◌, false, Some, IfOk, IfErr, Ok, Err};
ghost use Rattle.der_values.specs.Reading.{Unless, AnswersUnless};
ghost use Rattle.session_text.specs.Unread.{is_memory};
ghost use Rattle.der_values.specs.Next.{is_empty};
ghost use Rattle.session_text.specs.VerifyInput.{Verification, IsVerification, verification_seen, verify_first_fault, verify_at, from_start, mode_at, mode_in, document_at, documents_at, all_documents_at, extra_kind};
ghost use Rattle.session_text.specs.Inside.{ReadsVerify, ReadsDocuments};

use crate::shape::{ShapeFault, ShapeKind};
use crate::text::Text;
use algorithm_policy::LONGEST_POLICY;
use civil_moment::Moment;
use der_values::{Bytes, Items};
use evidence_syntax::LONGEST_RECORD;
use evidence_verify::Mode;
use object_groups::{LONGEST_DOCUMENT, MOST_DOCUMENTS};
use std::alloc::Global;

/// The input of a verification.
#[derive(Debug, Drop)]
pub struct VerifyInput<'a> {
    pub mode: Mode,
    /// The moment at which the record is judged.
    pub moment: Moment,
    /// The text of the policy. Whether it is one is not asked.
    pub policy: &'a [u8],
    /// The bytes of the record. Whether they are one is not asked.
    pub evidence: &'a [u8],
    /// The documents, 1 to 64.
    pub documents: Items<Bytes>,
}

/// The verification that the input is, or its first fault from the left with its place. The documents are copied, the policy
/// and the record are not.
pub fn read_verify<'a>(alloc: Global, bytes: &'a [u8]) -> Result<VerifyInput<'a>, ShapeFault>
    // What is answered is what the bytes spell, and what they spell is answered, unless there is no memory.
    ensures found { IfOk result (λ v. IsVerification bytes.now (verification_seen v)) }
    ensures only { (v : Verification) → IsVerification bytes.now v → AnswersUnless is_memory verification_seen v result }

    // Else the first fault is, or want of memory.
    ensures fault { IfErr result (λ e. Unless (is_memory e) (verify_first_fault bytes.now ≡ Some e)) }
{
    whole_input(alloc, bytes)
}

fn whole_input<'a>(alloc: Global, bytes: &'a [u8]) -> Result<VerifyInput<'a>, ShapeFault>
    ensures ok { IfOk result (ReadsVerify bytes.now) }
    ensures fault { IfErr result (λ e. Unless (is_memory e) (verify_at (from_start bytes.now) ≡ Err e)) }
{
    let mut text = Text::new(bytes);
    text.keyword(b"verify", b' ')?;
    let mode = mode(&mut text, b' ')?;
    let moment = text.moment(b'\n')?;
    let policy = text.counted(b"policy", LONGEST_POLICY)?;
    let evidence = text.counted(b"record", LONGEST_RECORD as u64)?;
    let documents = documents(alloc, &mut text)?;
    Ok(VerifyInput {
        mode,
        moment,
        policy,
        evidence,
        documents,
    })
}

#[tactic(auto, unfolding(crate::specs::VerifyInput::mode_at, crate::specs::VerifyInput::mode_in))]
pub(crate) fn mode(text: &mut Text<'_>, separator: u8) -> Result<Mode, ShapeFault>
    ensures ok { IfOk result (λ m. mode_at separator text.old ≡ Ok (m, text.new)) }
    ensures fault { IfErr result (λ e. mode_at separator text.old ≡ Err e) }
{
    let place = text.place();
    let word = text.word()?;
    let mode = mode_of(word, place)?;
    text.separator(separator)?;
    Ok(mode)
}

#[tactic(auto, unfolding(crate::specs::VerifyInput::mode_in))]
fn mode_of(word: &[u8], place: u64) -> Result<Mode, ShapeFault>
    ensures ok { IfOk result (λ m. mode_in place word.now ≡ Ok m) }
    ensures fault { IfErr result (λ e. mode_in place word.now ≡ Err e) }
{
    if word == b"member".as_slice() {
        Ok(Mode::Member)
    } else if word == b"whole".as_slice() {
        Ok(Mode::Whole)
    } else {
        Err(ShapeFault::at(place, ShapeKind::Word))
    }
}

fn document(alloc: Global, text: &mut Text<'_>) -> Result<Bytes, ShapeFault>
    ensures ok { IfOk result (λ d. document_at text.old ≡ Ok (d, text.new)) }
    ensures fault { IfErr result (λ e. Unless (is_memory e) (document_at text.old ≡ Err e)) }
{
    let bytes = text.counted(b"doc", LONGEST_DOCUMENT as u64)?;
    Ok(Bytes::from_vec(Vec::from_slice(alloc, bytes)?))
}

// At least one document, and further ones up to the end.
fn documents(alloc: Global, text: &mut Text<'_>) -> Result<Items<Bytes>, ShapeFault>
    ensures ok { IfOk result (ReadsDocuments text.old text.new) }
    ensures fault { IfErr result (λ e. Unless (is_memory e) (all_documents_at text.old ≡ Err e)) }
{
    let mut documents = Vec::new(alloc);
    let first = document(alloc, text)?;
    documents.push(first)?;
    while !text.at_end() {
        if documents.len() == MOST_DOCUMENTS {
            return Err(one_too_many(text));
        }
        let further = document(alloc, text)?;
        documents.push(further)?;
    }
    Ok(Items::from_vec(documents))
}

// What is wrong with the word that stands behind the last document that may stand here.
#[tactic(auto, unfolding(crate::specs::VerifyInput::documents_at))]
fn one_too_many(text: &mut Text<'_>) -> ShapeFault
    requires { is_empty text.old.bytes ≡ false }
    ensures { documents_at 0 text.old ≡ Err result }
{
    let place = text.place();
    match text.word() {
        Ok(word) => ShapeFault::at(place, extra_kind(word)),
        Err(fault) => fault,
    }
}

fn extra_kind(word: &[u8]) -> ShapeKind
    ensures { result ≡ extra_kind word.now }
{
    if word == b"doc".as_slice() {
        ShapeKind::Limit
    } else {
        ShapeKind::Word
    }
}
