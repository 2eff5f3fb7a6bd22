use super::*;
use algorithm_policy::PolicyKind;
use civil_moment::{Moment, TimeFault};
use cms_signed::{AttrKind, CmsFault};
use der_values::{DerFault, DerKind};
use evidence_syntax::SyntaxKind;
use evidence_verify::{Cause, Lapse, Mode, Verdict};
use std::alloc::{AllocError, Global};
use std::test::Fail;
use token_check::Check;
use tst_info::{TstFault, TstKind};

#[test]
fn a_verification_is_read_with_its_parts(rt: HostRuntime) -> Result<(), Fail> {
    let text =
        b"verify member 20270101000000.5Z\npolicy 3\na\nb\nrecord 2\n\n \ndoc 0\n\ndoc 4\ndoc \n";
    let read = read_verify(rt.alloc(), text)
        .ok()
        .ok_or("it is a verification")?;
    assert_eq!(rt; read.mode, Mode::Member);
    assert_eq!(rt;
        (read.moment.seconds, read.moment.nanos),
        (1_798_761_600, 500_000_000)
    );
    assert_eq!(rt; read.policy, b"a\nb".as_slice());
    assert_eq!(rt; read.evidence, b"\n ".as_slice());
    let documents = read.documents.as_slice();
    assert_eq!(rt; documents.len(), 2);
    assert_eq!(rt; documents[0].as_slice(), b"".as_slice());
    assert_eq!(rt; documents[1].as_slice(), b"doc ".as_slice());
    Ok(())
}

fn at(place: u64, kind: ShapeKind) -> Option<ShapeFault> {
    Some(ShapeFault::At { place, kind })
}

#[test]
fn an_input_is_refused_for_its_first_fault(rt: HostRuntime) {
    // An input of 40 bytes ends where the record has to stand.
    let cut = b"verify member 20270101000000Z\npolicy 0\n\n";
    assert_eq!(rt; read_verify(rt.alloc(), cut).err(), at(40, ShapeKind::Cut));
    let cases: [(&[u8], u64, ShapeKind); 22] = [
        (b"", 0, ShapeKind::Cut),
        (b"verif", 0, ShapeKind::Word),
        // An empty word.
        (b"\n", 0, ShapeKind::Word),
        (b"verify", 6, ShapeKind::Cut),
        // A line feed where a space has to stand.
        (b"verify\n", 6, ShapeKind::Word),
        (b"verify some ", 7, ShapeKind::Word),
        // An empty word.
        (b"verify  ", 7, ShapeKind::Word),
        (b"verify member 2027\n", 14, ShapeKind::Moment),
        (b"verify member ", 14, ShapeKind::Cut),
        (b"verify member 20270101000000Z ", 29, ShapeKind::Word),
        (
            b"verify whole 20270101000000Z\npolicy x\n",
            36,
            ShapeKind::Number,
        ),
        (
            b"verify whole 20270101000000Z\npolicy 00\n",
            36,
            ShapeKind::Number,
        ),
        // It is tried before the line feed.
        (
            b"verify whole 20270101000000Z\npolicy 262145",
            36,
            ShapeKind::Limit,
        ),
        // Twenty digits, above 2^64.
        (
            b"verify whole 20270101000000Z\npolicy 99999999999999999999\n",
            36,
            ShapeKind::Limit,
        ),
        // Twenty-one digits.
        (
            b"verify whole 20270101000000Z\npolicy 100000000000000000000\n",
            36,
            ShapeKind::Number,
        ),
        (
            b"verify whole 20270101000000Z\npolicy 2\na",
            39,
            ShapeKind::Cut,
        ),
        (
            b"verify whole 20270101000000Z\npolicy 2\nab",
            40,
            ShapeKind::Cut,
        ),
        (
            b"verify whole 20270101000000Z\npolicy 1\nab",
            39,
            ShapeKind::Mark,
        ),
        (
            b"verify whole 20270101000000Z\npolicy 0\n\nrecord 16777217\n",
            46,
            ShapeKind::Limit,
        ),
        // A document has to stand there.
        (
            b"verify whole 20270101000000Z\npolicy 0\n\nrecord 0\n\n",
            49,
            ShapeKind::Cut,
        ),
        (
            b"verify whole 20270101000000Z\npolicy 0\n\nrecord 0\n\ndoc 1048577\n",
            53,
            ShapeKind::Limit,
        ),
        (
            b"verify whole 20270101000000Z\npolicy 0\n\nrecord 0\n\ndoc 0\n\ndog 0\n\n",
            56,
            ShapeKind::Word,
        ),
    ];
    for (text, place, kind) in cases {
        assert_eq!(rt; read_verify(rt.alloc(), text).err(), at(place, kind));
    }
}

// An input with so many empty documents, and something behind them.
fn with_documents(alloc: Global, count: u32, behind: &[u8]) -> Result<Vec<u8>, AllocError> {
    let mut text = Vec::new(alloc);
    text.extend_from_slice(b"verify whole 20270101000000Z\npolicy 0\n\nrecord 0\n\n")?;
    for _ in 0..count {
        text.extend_from_slice(b"doc 0\n\n")?;
    }
    text.extend_from_slice(behind)?;
    Ok(text)
}

#[test]
fn no_more_than_64_documents_are_read(rt: HostRuntime) -> Result<(), Fail> {
    let text = with_documents(rt.alloc(), 64, b"")?;
    let read = read_verify(rt.alloc(), text.as_slice())
        .ok()
        .ok_or("it is a verification")?;
    assert_eq!(rt; read.documents.as_slice().len(), 64);
    // The place behind 49 bytes and 64 documents of 7 bytes.
    let text = with_documents(rt.alloc(), 64, b"doc")?;
    assert_eq!(rt;
        read_verify(rt.alloc(), text.as_slice()).err(),
        at(497, ShapeKind::Limit)
    );
    let text = with_documents(rt.alloc(), 64, b"dog")?;
    assert_eq!(rt;
        read_verify(rt.alloc(), text.as_slice()).err(),
        at(497, ShapeKind::Word)
    );
    Ok(())
}

fn bad_stamp(check: Check) -> Verdict {
    Verdict::BadStamp {
        chain: 1,
        stamp: 20,
        check,
    }
}

#[test]
fn each_verdict_has_its_line(rt: HostRuntime) -> Result<(), Fail> {
    let moment = Moment {
        seconds: 1_709_164_800,
        nanos: 0,
    };
    let last = Moment {
        seconds: 253_402_300_799,
        nanos: 500_000_000,
    };
    let lapse = Lapse {
        chain: 0,
        stamp: 3,
        cause: Cause::Key,
        end: moment,
    };
    let hash_lapse = Lapse {
        chain: 2,
        stamp: 0,
        cause: Cause::Hash,
        end: moment,
    };
    let cases: [(Verdict, &[u8]); 26] = [
        (Verdict::Valid, b"valid\n"),
        (
            Verdict::Syntax {
                place: 5147,
                kind: SyntaxKind::Der(DerKind::Trailing),
            },
            b"syntax 5147 trailing\n",
        ),
        (
            Verdict::Syntax {
                place: 0,
                kind: SyntaxKind::TooLong,
            },
            b"syntax 0 toolong\n",
        ),
        (bad_stamp(Check::TooLong), b"stamp 1 20 toolong\n"),
        (
            bad_stamp(Check::Cms(CmsFault::Der(DerFault {
                place: 7,
                kind: DerKind::NotMinimal,
            }))),
            b"stamp 1 20 cms der 7 notminimal\n",
        ),
        (
            bad_stamp(Check::Cms(CmsFault::NotSignedData)),
            b"stamp 1 20 cms notsigneddata\n",
        ),
        (
            bad_stamp(Check::Cms(CmsFault::Signers(2))),
            b"stamp 1 20 cms signers 2\n",
        ),
        (
            bad_stamp(Check::Cms(CmsFault::DoubleAttr(AttrKind::MessageDigest))),
            b"stamp 1 20 cms doubleattr messagedigest\n",
        ),
        (
            bad_stamp(Check::Cms(CmsFault::MissingAttr(AttrKind::SigningCertificate))),
            b"stamp 1 20 cms missingattr signingcertificate\n",
        ),
        (
            bad_stamp(Check::Tst(TstFault {
                place: 9,
                kind: TstKind::Der(DerKind::BadValue),
            })),
            b"stamp 1 20 tst 9 der badvalue\n",
        ),
        (
            bad_stamp(Check::Tst(TstFault {
                place: 2,
                kind: TstKind::Version,
            })),
            b"stamp 1 20 tst 2 version\n",
        ),
        (
            bad_stamp(Check::Tst(TstFault {
                place: 62,
                kind: TstKind::Time(TimeFault::Range),
            })),
            b"stamp 1 20 tst 62 time range\n",
        ),
        (bad_stamp(Check::HashUnknown), b"stamp 1 20 hashunknown\n"),
        (
            bad_stamp(Check::UnknownSigner),
            b"stamp 1 20 unknownsigner\n",
        ),
        (bad_stamp(Check::CertHash), b"stamp 1 20 certhash\n"),
        (
            bad_stamp(Check::MessageDigest),
            b"stamp 1 20 messagedigest\n",
        ),
        (bad_stamp(Check::BadSignature), b"stamp 1 20 badsignature\n"),
        (
            Verdict::MixedHash {
                chain: 4_294_967_295,
                stamp: 0,
            },
            b"hash 4294967295 0\n",
        ),
        (Verdict::OutOfOrder { chain: 1, stamp: 0 }, b"order 1 0\n"),
        (
            Verdict::NotCovered {
                chain: 0,
                stamp: 0,
                document: Some(63),
            },
            b"uncovered 0 0 63\n",
        ),
        (
            Verdict::NotCovered {
                chain: 0,
                stamp: 1,
                document: None,
            },
            b"uncovered 0 1 -\n",
        ),
        (Verdict::NotWhole { chain: 2 }, b"notwhole 2\n"),
        (
            Verdict::Early { moment, last },
            b"early 20240229000000Z 99991231235959.5Z\n",
        ),
        (Verdict::Lapsed(lapse), b"lapsed 0 3 key 20240229000000Z\n"),
        (
            Verdict::Lapsed(hash_lapse),
            b"lapsed 2 0 hash 20240229000000Z\n",
        ),
        (
            Verdict::Syntax {
                place: 2,
                kind: SyntaxKind::Der(DerKind::Indefinite),
            },
            b"syntax 2 indefinite\n",
        ),
    ];
    for (verdict, line) in cases {
        let mut text = Vec::from_slice(rt.alloc(), b"> ")?;
        write_verdict(&mut text, &verdict)?;
        assert_eq!(rt; &text[..2], b"> ".as_slice());
        assert_eq!(rt; &text[2..], line);
    }
    Ok(())
}

#[test]
fn faults_of_an_input_and_of_a_policy_have_their_lines(rt: HostRuntime) -> Result<(), Fail> {
    let mut text = Vec::new(rt.alloc());
    write_shape_fault(&mut text, 40, ShapeKind::Cut)?;
    write_policy_fault(&mut text, 2, PolicyKind::Form)?;
    assert_eq!(rt;
        text.as_slice(),
        b"shape 40 cut\nbadpolicy 2 form\n".as_slice()
    );
    Ok(())
}
