ghost use Rattle.std.specs.Prelude.{◌≡◌, ◌<◌, ◌==◌, ℕ, List, [], ◌∷◌, ◌++◌, length, codes, position, IfSome, IfNone};
ghost use Rattle.std.specs.Option.{option_map};
ghost use Rattle.algorithm_policy.specs.Fault.{parts, words, form_of};
ghost use Rattle.algorithm_policy.specs.Inside.{seen};

use hash_kit::HashAlg;

/// The first line of each policy text.
pub(crate) const HEADER: &[u8] = b"evidence policy 1";

/// The first word of a hash algorithm's line.
pub(crate) const HASH: &[u8] = b"hash";

/// The first word of an authority's line.
pub(crate) const AUTHORITY: &[u8] = b"authority";

/// The words of a line of one of the two forms.
#[derive(Clone, Copy)]
pub(crate) enum Line<'a> {
    Hash(HashAlg, &'a [u8]),
    Authority(AuthorityWords<'a>),
}

/// The words behind `authority`.
#[derive(Clone, Copy)]
pub(crate) struct AuthorityWords<'a> {
    pub name: &'a [u8],
    pub sid: &'a [u8],
    pub key: &'a [u8],
    pub cert: &'a [u8],
    pub end: &'a [u8],
}

/// What stands before the first such byte, and what stands after it.
pub(crate) fn split_once(text: &[u8], separator: u8) -> Option<(&[u8], &[u8])>
    ensures parts { IfSome result (λ x. parts separator text.now ≡ x.0.now ∷ parts separator x.1.now) }
    ensures whole { IfSome result (λ x. text.now ≡ x.0.now ++ separator ∷ x.1.now) }
    ensures none { IfNone result (parts separator text.now ≡ text.now ∷ []) }
{
    let place = place_of(text, separator)?;
    Some((&text[..place], &text[place + 1..]))
}

// The place of the first such byte.
fn place_of(text: &[u8], separator: u8) -> Option<usize>
    ensures value { result ≡ position (λ b. b == separator) text.now }
    ensures within { IfSome result (λ place. place < length text.now) }
{
    text.iter().position(|byte| *byte == separator)
}

// All of the text, where it is one word.
fn last_word(text: &[u8]) -> Option<&[u8]>
    ensures value { IfSome result (λ word. words text.now ≡ word.now ∷ []) }
    ensures same { IfSome result (λ word. word.now ≡ text.now) }
    ensures none { IfNone result ((first next : List ℕ) × (rest : List (List ℕ))
        × (words text.now ≡ first ∷ next ∷ rest)) }
{
    match split_once(text, b' ') {
        Some(_) => None,
        None => Some(text),
    }
}

/// The form of a line, whose words are parted by one space each.
pub(crate) fn form_of(line: &[u8]) -> Option<Line<'_>>
    ensures { option_map seen result ≡ form_of (words line.now) }
{
    let (keyword, rest) = split_once(line, b' ')?;
    if keyword == HASH {
        hash_form(rest)
    } else if keyword == AUTHORITY {
        authority_form(rest)
    } else {
        None
    }
}

fn hash_form(rest: &[u8]) -> Option<Line<'_>>
    ensures { option_map seen result ≡ form_of (codes "hash" ∷ words rest.now) }
{
    let (name, rest) = split_once(rest, b' ')?;
    let end = last_word(rest)?;
    let alg = HashAlg::of_word(name)?;
    Some(Line::Hash(alg, end))
}

fn authority_form(rest: &[u8]) -> Option<Line<'_>>
    ensures { option_map seen result ≡ form_of (codes "authority" ∷ words rest.now) }
{
    let (name, rest) = split_once(rest, b' ')?;
    let (sid, rest) = split_once(rest, b' ')?;
    let (key, rest) = split_once(rest, b' ')?;
    let (cert, rest) = split_once(rest, b' ')?;
    let end = last_word(rest)?;
    Some(Line::Authority(AuthorityWords {
        name,
        sid,
        key,
        cert,
        end,
    }))
}
