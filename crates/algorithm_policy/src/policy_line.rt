ghost use Rattle.std.specs.Prelude.{◌≡◌, ◌&&◌, IfOk, IfErr};
ghost use Rattle.algorithm_policy.specs.Words.{is_hex};
ghost use Rattle.algorithm_policy.specs.Fault.{words, form_of, word_fault};
ghost use Rattle.algorithm_policy.specs.Inside.{seen_words, own_fault, Blames, Says, SaysLine};

use crate::fault::{LineFault, PolicyKind};
use crate::line::{AuthorityWords, Line, form_of};
use crate::signer::Signer;
use crate::word::{cert_of, is_hex, is_name, key_of, sid_of, time_of};
use civil_moment::Moment;
use der_values::Bytes;
use hash_kit::HashAlg;
use std::alloc::Global;

/// What a line behind the first one says.
#[derive(Debug, Drop)]
pub(crate) enum PolicyLine {
    Hash(HashAlg, Moment),
    Authority(Signer),
}

/// What the line says, or the first fault of its form and its words.
pub(crate) fn read_line(alloc: Global, line: &[u8]) -> Result<PolicyLine, LineFault>
    ensures read { IfOk result (SaysLine line.now) }
    ensures fault { IfErr result (λ f. Blames f (own_fault (form_of (words line.now)))) }
{
    match form_of(line) {
        Some(Line::Hash(alg, end)) => match time_of(end) {
            Some(end) => Ok(PolicyLine::Hash(alg, end)),
            None => Err(LineFault::Is(PolicyKind::Date)),
        },
        Some(Line::Authority(words)) => Ok(PolicyLine::Authority(signer_of(alloc, &words)?)),
        None => Err(LineFault::Is(PolicyKind::Form)),
    }
}

// The authority that the words say, or their first fault.
fn signer_of(alloc: Global, words: &AuthorityWords<'_>) -> Result<Signer, LineFault>
    ensures read { IfOk result (λ signer. Says (seen_words words.now) signer) }
    ensures fault { IfErr result (λ f. Blames f (word_fault (seen_words words.now))) }
{
    if !is_name(words.name) {
        return Err(LineFault::Is(PolicyKind::Name));
    }
    if !are_hex(words) {
        return Err(LineFault::Is(PolicyKind::Hex));
    }
    let sid = sid_of(alloc, words.sid)?;
    let Some(key) = key_of(words.key) else {
        return Err(LineFault::Is(PolicyKind::Key));
    };
    let Some(cert) = cert_of(words.cert) else {
        return Err(LineFault::Is(PolicyKind::Cert));
    };
    let Some(end) = time_of(words.end) else {
        return Err(LineFault::Is(PolicyKind::Date));
    };
    let name = Bytes::from_vec(Vec::from_slice(alloc, words.name)?);
    Ok(Signer {
        name,
        sid,
        key,
        cert,
        end,
    })
}

fn are_hex(words: &AuthorityWords<'_>) -> bool
    ensures { result ≡ (is_hex words.now.sid.now && is_hex words.now.key.now && is_hex words.now.cert.now) }
{
    is_hex(words.sid) && is_hex(words.key) && is_hex(words.cert)
}
