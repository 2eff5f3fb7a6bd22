ghost use Rattle.std.specs.Prelude.{◌≡◌, ◌<◌, ◌^◌, ◌++◌, length, IfOk, IfSome, OnOk};
ghost use Rattle.std.specs.Option.{option_map};
ghost use Rattle.der_values.specs.Algorithm.{name_seen};
ghost use Rattle.tst_info.specs.Imprint.{imprint_text};
ghost use Rattle.tst_info.specs.Spelling.{flag_text, nonce_text};

use der_values::{AlgName, write_algorithm, write_tlv};
use std::alloc::{AllocError, Global};

// Adds a BOOLEAN that is FALSE where it does not stand.
pub(crate) fn write_flag(out: &mut Vec<u8>, flag: bool) -> Result<(), AllocError>
    ensures { OnOk result (out.new.items ≡ out.old.items ++ flag_text flag) }
{
    if flag {
        write_tlv(out, 0x01, &[0xff])
    } else {
        Ok(())
    }
}

// Adds a nonce where there is one.
pub(crate) fn write_nonce(out: &mut Vec<u8>, nonce: Option<&[u8]>) -> Result<(), AllocError>
    requires { IfSome nonce (λ b. length b.now < 2 ^ 32) }
    ensures { OnOk result (out.new.items ≡ out.old.items ++ nonce_text (option_map (λ b. b.now) nonce.entry)) }
{
    match nonce {
        Some(nonce) => write_tlv(out, 0x02, nonce),
        None => Ok(()),
    }
}

// The contents of a MessageImprint.
pub(crate) fn imprint_bytes(
    alloc: Global,
    hash: &AlgName<'_>,
    imprint: &[u8],
) -> Result<Vec<u8>, AllocError>
    requires { length (imprint_text (name_seen hash.now) imprint.now) < 2 ^ 32 }
    ensures { IfOk result (λ contents. contents.items ≡ imprint_text (name_seen hash.now) imprint.now) }
{
    let mut contents = Vec::new(alloc);
    write_algorithm(&mut contents, 0x30, hash)?;
    write_tlv(&mut contents, 0x04, imprint)?;
    Ok(contents)
}
