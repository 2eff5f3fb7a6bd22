use crate::{Policy, PolicyFault, PolicyKind, keeps, read_policy, write_policy};
use hash_kit::HashAlg;
use std::alloc::Global;
use std::test::Fail;

const FIRST: &[u8] = b"evidence policy 1\n";

// An HSS key of two levels, LMS type 5 and LM-OTS type 3.
const KEY: &[u8] =
    b"0000000200000005000000035a5a5a5a5a5a5a5a5a5a5a5a5a5a5a5aa0a1a2a3a4a5a6a7a8a9aaabacadaeafb0b1b2b3b4b5b6b7b8b9babbbcbdbebf";

const CERT: &[u8] = b"ba7816bf8f01cfea414140de5dae2223b00361a396177a9cb410ff61f20015ad";

const END: &[u8] = b"20300101000000Z";

// Adds a text in which `%` stands for the key, `#` for the certificate's hash and `@` for the end.
fn push_text(whole: &mut Vec<u8>, text: &[u8]) -> Result<(), Fail> {
    for byte in text {
        match *byte {
            b'%' => whole.extend_from_slice(KEY)?,
            b'#' => whole.extend_from_slice(CERT)?,
            b'@' => whole.extend_from_slice(END)?,
            other => whole.push(other)?,
        }
    }
    Ok(())
}

// The first line, and the lines of such a text.
fn behind_first(alloc: Global, text: &[u8]) -> Result<Vec<u8>, Fail> {
    let mut whole = FIRST.to_vec(alloc)?;
    push_text(&mut whole, text)?;
    Ok(whole)
}

// The fault of such a text.
fn fault_of(alloc: Global, text: &[u8]) -> Result<Option<PolicyFault>, Fail> {
    let whole = behind_first(alloc, text)?;
    Ok(read_policy(alloc, whole.as_slice()).err())
}

fn at(line: u32, kind: PolicyKind) -> Option<PolicyFault> {
    Some(PolicyFault::At { line, kind })
}

#[test]
fn the_first_line_alone_is_the_empty_policy(rt: HostRuntime) -> Result<(), Fail> {
    let policy = read_policy(rt.alloc(), FIRST)?;
    assert_eq!(rt; write_policy(rt.alloc(), &policy)?.as_slice(), FIRST);
    let empty = Policy::empty(rt.alloc())?;
    assert_eq!(rt; write_policy(rt.alloc(), &empty)?.as_slice(), FIRST);
    assert_eq!(rt; empty.target(), HashAlg::Sha256);
    assert_eq!(rt; empty.hash_end(HashAlg::Sha512).seconds, 0);
    assert!(rt; empty.key_end(b"\x80\x00").is_none());
    Ok(())
}

const TWO: &[u8] =
    b"hash sha256 20350101000000Z\nhash sha384 20600101000000Z\nhash sha512 20600101000000Z\nauthority early 8002aa01 % # @\nauthority late 30030201ff % # @\n";

// The seconds are those of `date -u +%s`.
#[test]
fn a_policy_is_read_answered_and_written_again(rt: HostRuntime) -> Result<(), Fail> {
    let text = behind_first(rt.alloc(), TWO)?;
    let policy = read_policy(rt.alloc(), text.as_slice())?;
    assert_eq!(rt; policy.hash_end(HashAlg::Sha256).seconds, 2_051_222_400);
    assert_eq!(rt; policy.hash_end(HashAlg::Sha384).seconds, 2_840_140_800);
    assert_eq!(rt; policy.target(), HashAlg::Sha384);
    let end = policy.key_end(b"\x30\x03\x02\x01\xff").ok_or("known")?;
    assert_eq!(rt; end.seconds, 1_893_456_000);
    let signer = policy.signer(b"\x80\x02\xaa\x01").ok_or("known")?;
    assert_eq!(rt; signer.name.as_slice(), b"early".as_slice());
    assert_eq!(rt; signer.key.levels(), 2);
    assert!(rt; policy.signer(b"\xaa\x01").is_none());
    assert_eq!(rt;
        write_policy(rt.alloc(), &policy)?.as_slice(),
        text.as_slice()
    );
    Ok(())
}

// Each stands behind one good line, with more behind it.
#[test]
fn each_kind_of_fault_stands_at_its_line(rt: HostRuntime) -> Result<(), Fail> {
    let rows: [(&[u8], PolicyKind); 24] = [
        (b"hash md5 @", PolicyKind::Form),
        (b"hash sha256", PolicyKind::Form),
        (b"hash sha256 @ ", PolicyKind::Form),
        (b"hash  sha256 @", PolicyKind::Form),
        (b"", PolicyKind::Form),
        (b"Authority c 8001bb % # @", PolicyKind::Form),
        (b"authority c 8001bb % #", PolicyKind::Form),
        (b"authority  80 % # @", PolicyKind::Name),
        (b"authority C 80 % # @", PolicyKind::Name),
        (
            b"authority abcdefghijklmnopqrstuvwxyz-012345 8001bb % # @",
            PolicyKind::Name,
        ),
        (b"authority c 8001BB % # @", PolicyKind::Hex),
        (b"authority c 8001b % # @", PolicyKind::Hex),
        (b"authority c 80 % 0g @", PolicyKind::Hex),
        (b"authority c  % # @", PolicyKind::Sid),
        (b"authority c 8001bb00 % # @", PolicyKind::Sid),
        (b"authority c 0401bb % # @", PolicyKind::Sid),
        (b"authority c 8001bb 00 # @", PolicyKind::Key),
        (b"authority c 8001bb % 00 2030", PolicyKind::Cert),
        (b"authority c 8001bb % # 20300229000000Z", PolicyKind::Date),
        (b"authority b 8001aa % # ", PolicyKind::Date),
        (b"authority b 8001bb % # @", PolicyKind::Order),
        (b"authority a 8001aa % # @", PolicyKind::Order),
        (b"hash sha256 @", PolicyKind::Order),
        (b"authority c 8001aa % # @", PolicyKind::Twice),
    ];
    for &(line, kind) in &rows {
        let mut text = behind_first(rt.alloc(), b"authority b 8001aa % # @\n")?;
        push_text(&mut text, line)?;
        text.extend_from_slice(b"\nx")?;
        let fault = read_policy(rt.alloc(), text.as_slice()).err();
        assert_eq!(rt; fault, at(3, kind));
    }
    Ok(())
}

#[test]
fn the_first_line_and_the_ends_of_lines_are_exact(rt: HostRuntime) -> Result<(), Fail> {
    let rows: [(&[u8], u32, PolicyKind); 9] = [
        (b"", 1, PolicyKind::Header),
        (b"x", 1, PolicyKind::Header),
        (b"evidence policy 1", 1, PolicyKind::Header),
        (b"evidence policy 1 \nx", 1, PolicyKind::Header),
        (
            b"evidence policy 1\nhash md5 20300101000000Z\n",
            2,
            PolicyKind::Form,
        ),
        (
            b"evidence policy 1\nhash sha256 20300101000000Z",
            2,
            PolicyKind::Form,
        ),
        (b"evidence policy 1\n\n", 2, PolicyKind::Form),
        (b"evidence policy 1\nhash sha256 \n", 2, PolicyKind::Date),
        (
            b"evidence policy 1\nhash sha384 20300101000000Z\nhash sha256 20300101000000Z\n",
            3,
            PolicyKind::Order,
        ),
    ];
    for &(text, line, kind) in &rows {
        assert_eq!(rt; read_policy(rt.alloc(), text).err(), at(line, kind));
    }
    Ok(())
}

// Lines of authorities with the names 00, 01 .. and the identifiers 80 01 00, 80 01 01 ..
fn push_authorities(text: &mut Vec<u8>, count: u8) -> Result<(), Fail> {
    let alloc = *text.allocator();
    for number in 0..count {
        let digits = hex::encode(alloc, [number])?;
        text.extend_from_slice(b"authority ")?;
        text.extend_from_slice(digits.as_bytes())?;
        text.extend_from_slice(b" 8001")?;
        text.extend_from_slice(digits.as_bytes())?;
        push_text(text, b" % # @\n")?;
    }
    Ok(())
}

#[test]
fn at_most_64_authorities_are_taken(rt: HostRuntime) -> Result<(), Fail> {
    let mut text = FIRST.to_vec(rt.alloc())?;
    push_authorities(&mut text, 64)?;
    assert!(rt; read_policy(rt.alloc(), text.as_slice()).is_ok());
    let mut more = FIRST.to_vec(rt.alloc())?;
    push_authorities(&mut more, 65)?;
    let fault = read_policy(rt.alloc(), more.as_slice()).err();
    assert_eq!(rt; fault, at(66, PolicyKind::TooMany));
    // It is too many, too, but an earlier one has its identifier.
    push_text(&mut text, b"authority z 800100 % # @\n")?;
    let fault = read_policy(rt.alloc(), text.as_slice()).err();
    assert_eq!(rt; fault, at(66, PolicyKind::Twice));
    Ok(())
}

// An authority whose name has 32 letters, with an identifier of a header and so many zero bytes.
fn long_sid(alloc: Global, header: &[u8], count: usize) -> Result<Vec<u8>, Fail> {
    let mut line = b"authority abcdefghijklmnopqrstuvwxyz-01234 ".to_vec(alloc)?;
    line.extend_from_slice(header)?;
    for _ in 0..count {
        line.extend_from_slice(b"00")?;
    }
    line.extend_from_slice(b" % # @\n")?;
    Ok(line)
}

#[test]
fn an_identifier_has_at_most_1024_bytes_and_a_name_32_letters(rt: HostRuntime) -> Result<(), Fail> {
    let fits = long_sid(rt.alloc(), b"308203fc", 1_020)?;
    assert_eq!(rt; fault_of(rt.alloc(), fits.as_slice())?, None);
    let long = long_sid(rt.alloc(), b"308203fd", 1_021)?;
    assert_eq!(rt;
        fault_of(rt.alloc(), long.as_slice())?,
        at(2, PolicyKind::Sid)
    );
    Ok(())
}

// The name of the first authority of the first text that the second doesn't keep, or nothing.
fn lacking(alloc: Global, old: &[u8], new: &[u8]) -> Result<Vec<u8>, Fail> {
    let old = read_policy(alloc, behind_first(alloc, old)?.as_slice())?;
    let new = read_policy(alloc, behind_first(alloc, new)?.as_slice())?;
    match keeps(&old, &new) {
        Ok(()) => Ok(Vec::new(alloc)),
        Err(signer) => Ok(signer.name.as_slice().to_vec(alloc)?),
    }
}

#[test]
fn a_policy_keeps_authorities_whatever_their_ends(rt: HostRuntime) -> Result<(), Fail> {
    let old = b"authority early 8001aa % # @\nauthority late 8001bb % # @\n";
    let rows: [(&[u8], &[u8]); 3] = [
        (
            b"authority early 8001aa % # @\nauthority late 8001bb % # 20290101000000Z\n",
            b"",
        ),
        (
            b"authority early 8001aa % # @\nauthority late 8001cc % # @\n",
            b"late",
        ),
        (b"", b"early"),
    ];
    for &(new, name) in &rows {
        let lacking = lacking(rt.alloc(), old, new)?;
        assert_eq!(rt; lacking.as_slice(), name);
    }
    Ok(())
}
