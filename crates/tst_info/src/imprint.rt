ghost use Rattle.der_values.specs.Next.{contents, seen, IsValue};
ghost use Rattle.der_values.specs.Reading.{Finds};
ghost use Rattle.tst_info.specs.Inside.{imprint_of, imprint_seen, imprint_at};

use crate::fault::TstFault;
use der_values::{AlgName, Tlv, read_algorithm};

/// A MessageImprint: the name of a hash, and the hash value that was stamped or is to be.
#[derive(Clone, Copy, Debug)]
pub(crate) struct MessageImprint<'a> {
    pub hash: AlgName<'a>,
    pub bytes: &'a [u8],
}

/// The imprint that stands in a SEQUENCE.
#[tactic(auto, using(der_values::proofs::Passed::algorithm_alike), unfolding(der_values::specs::Reading::read))]
pub(crate) fn imprint<'a>(t: &Tlv<'a>) -> Result<MessageImprint<'a>, TstFault>
    requires { IsValue t.now }
    ensures { Finds (λ p σ. imprint_of p) imprint_seen result (imprint_at (contents (seen t.now))) }
{
    let mut reader = t.contents();
    let hash = read_algorithm(&reader.expect(0x30)?)?;
    let bytes = reader.expect(0x04)?.content;
    reader.finish()?;
    Ok(MessageImprint { hash, bytes })
}
