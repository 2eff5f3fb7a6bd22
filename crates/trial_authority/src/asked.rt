// What is stamped.
ghost use Rattle.std.specs.Prelude.{Some, IfSome, IfNone};
ghost use Rattle.hash_kit.specs.declared.algorithm.HashAlg.{HashAlg};
ghost use Rattle.tst_info.specs.Request.{request_seen};
ghost use Rattle.trial_authority.specs.Reply.{Asks, AsksNothing};

use token_check::known_hash;
use tst_info::{StampRequest, read_request};

/// The most bytes of a request.
const LONGEST: usize = 4096;

/// The request that the bytes are, where it can be stamped: it has at most 4,096 bytes, and is over a known hash.
pub(crate) fn stampable(request: &[u8]) -> Option<StampRequest<'_>>
    ensures some { IfSome result (λ asked. (alg : HashAlg) × Asks request.now (request_seen asked) alg) }
    ensures none { IfNone result (AsksNothing request.now) }
{
    if request.len() > LONGEST {
        return None;
    }
    let Ok(asked) = read_request(request) else {
        return None;
    };
    match known_hash(&asked.hash) {
        Some(_) => Some(asked),
        None => None,
    }
}
