use crate::add_refusal;
use algorithm_policy::PolicyKind;
use archive_chain::{Full, Refusal};
use civil_moment::Moment;
use cms_signed::CmsFault;
use der_values::Bytes;
use std::test::Fail;
use token_check::Check;

#[test]
fn each_refusal_has_its_text(rt: HostRuntime) -> Result<(), Fail> {
    let alloc = rt.alloc();
    let name = Bytes::from_vec(b"late".to_vec(alloc)?);
    let token = Moment {
        seconds: 1_709_164_800,
        nanos: 0,
    };
    let covered = Moment {
        seconds: 253_402_300_799,
        nanos: 500_000_000,
    };
    let refusals = [
        Refusal::Limit(Full::Groups(65_537)),
        Refusal::Limit(Full::Documents(1_048_577)),
        Refusal::Limit(Full::Bytes(268_435_457)),
        Refusal::Limit(Full::Journal(1_073_741_825)),
        Refusal::Count {
            count: 2,
            pending: 1,
        },
        Refusal::NotLive {
            cohort: 4_294_967_295,
        },
        Refusal::OtherHash { cohort: 3 },
        Refusal::ChainFull { id: 0 },
        Refusal::Token(Check::Cms(CmsFault::Signers(2))),
        Refusal::Imprint,
        Refusal::TokenEarly { token, covered },
        Refusal::BadPolicy {
            line: 6,
            kind: PolicyKind::Twice,
        },
        Refusal::PolicyDrops { name },
    ];
    let mut text = Vec::new(alloc);
    for refusal in &refusals {
        add_refusal(&mut text, refusal)?;
        text.push(b'\n')?;
    }
    let expected = "limit groups 65537\nlimit documents 1048577\nlimit bytes 268435457\n\
        limit journal 1073741825\ncount 2 1\nnotlive 4294967295\notherhash 3\nchainfull 0\n\
        token cms signers 2\nimprint\ntokenearly 20240229000000Z 99991231235959.5Z\n\
        badpolicy 6 twice\npolicydrops 6c617465\n";
    assert_eq!(rt; text.as_slice(), expected.as_bytes());
    Ok(())
}
