// The line that says why a journal is not opened.
ghost use Rattle.std.specs.Prelude.{◌≡◌, ◌∷◌, ◌++◌, [], ℕ, List, codes, decimal, IfOk, OnOk};
ghost use Rattle.hex.specs.Hex.{encode_lower};
ghost use Rattle.session_text.specs.RefusalTexts.{IsRefusalText};
ghost use Rattle.evidence_tool.specs.JournalLines.{journal_line, IsJournalLine};
ghost use Rattle.evidence_tool.specs.Inside.{Spoils};

use archive_chain::Refusal;
use archive_store::StoreFault;
use hash_kit::HashValue;
use session_text::{add_hex, add_number, add_refusal, add_words, end_line};
use std::alloc::{AllocError, Global};

/// The line of a fault that says where the journal is damaged, or which of its entries is none or not legal.
pub fn journal_line(alloc: Global, fault: &StoreFault) -> Result<Vec<u8>, AllocError>
    requires { Spoils fault.now }
    ensures { IfOk result (λ line. IsJournalLine fault.now line.items) }
{
    match fault {
        StoreFault::BadLength { entry, length } => numbered(alloc, *entry, b" length ", *length),
        StoreFault::Damaged { entry, kept, found } => digests(alloc, *entry, kept, found),
        StoreFault::BadEntry { entry, place } => numbered(alloc, *entry, b" entry ", *place),
        StoreFault::Illegal { entry, rule } => broken_rule(alloc, *entry, rule),
        _ => unreachable!(),
    }
}

// The start of a line on this entry, and what it is about.
fn start(alloc: Global, entry: u64, what: &[u8]) -> Result<Vec<u8>, AllocError>
    ensures { IfOk result (λ line. line.items ≡ codes "journal " ++ decimal entry ++ what.now) }
{
    let mut line = Vec::new(alloc);
    add_words(&mut line, b"journal ")?;
    add_number(&mut line, entry)?;
    add_words(&mut line, what)?;
    Ok(line)
}

// A line that ends in a number.
fn numbered(alloc: Global, entry: u64, what: &[u8], number: u64) -> Result<Vec<u8>, AllocError>
    ensures { IfOk result (λ line. line.items
        ≡ codes "journal " ++ decimal entry ++ what.now ++ decimal number ++ 10 ∷ []) }
{
    let mut line = start(alloc, entry, what)?;
    add_number(&mut line, number)?;
    end_line(&mut line)?;
    Ok(line)
}

// A line with the digest that a frame keeps and that of its payload.
fn digests(
    alloc: Global,
    entry: u64,
    kept: &HashValue,
    found: &HashValue,
) -> Result<Vec<u8>, AllocError>
    ensures { IfOk result (λ line. line.items
        ≡ journal_line entry (codes "digest " ++ encode_lower kept.now ++ 32 ∷ encode_lower found.now)) }
{
    let mut line = start(alloc, entry, b" digest ")?;
    add_hex(&mut line, kept.bytes())?;
    add_words(&mut line, b" ")?;
    add_hex(&mut line, found.bytes())?;
    end_line(&mut line)?;
    Ok(line)
}

// A line with the rule that an entry breaks.
fn broken_rule(alloc: Global, entry: u64, rule: &Refusal) -> Result<Vec<u8>, AllocError>
    ensures { IfOk result (λ line. (text : List ℕ) × IsRefusalText rule.now text
        × (line.items ≡ journal_line entry (codes "rule " ++ text))) }
{
    let mut line = start(alloc, entry, b" rule ")?;
    add_refusal(&mut line, rule)?;
    end_line(&mut line)?;
    Ok(line)
}
