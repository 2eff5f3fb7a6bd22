use crate::{HashAlg, HashValue, Hasher, HssPublic, KeyFault, digest, node};
use hex::encode;
use std::test::Fail;

// The messages of no byte and of the bytes `abc`, of which NIST publishes the digests.
#[test]
fn digests_are_the_published_ones(rt: HostRuntime) -> Result<(), Fail> {
    let published: [(HashAlg, &[u8], &str); 6] = [
        (
            HashAlg::Sha256,
            b"",
            "e3b0c44298fc1c149afbf4c8996fb92427ae41e4649b934ca495991b7852b855",
        ),
        (
            HashAlg::Sha256,
            b"abc",
            "ba7816bf8f01cfea414140de5dae2223b00361a396177a9cb410ff61f20015ad",
        ),
        (
            HashAlg::Sha384,
            b"",
            "38b060a751ac96384cd9327eb1b1e36a21fdb71114be07434c0cc7bf63f6e1da274edebfe76f65fbd51ad2f14898b95b",
        ),
        (
            HashAlg::Sha384,
            b"abc",
            "cb00753f45a35e8bb5a03d699ac65007272c32ab0eded1631a8b605a43ff5bed8086072ba1e7cc2358baeca134c825a7",
        ),
        (
            HashAlg::Sha512,
            b"",
            "cf83e1357eefb8bdf1542850d66d8007d620e4050b5715dc83f4a921d36ce9ce47d0d13c5d85f2b0ff8318d2877eec2f63b931bd47417a81a538327af927da3e",
        ),
        (
            HashAlg::Sha512,
            b"abc",
            "ddaf35a193617abacc417349ae20413112e6fa4e89a97ea20a9eeee64b55d39a2192992a274fc1a836ba3c23a3feebbd454d4423643ce80e2a9ac94fa54ca49f",
        ),
    ];
    for &(alg, message, hex) in &published {
        assert_eq!(rt;
            encode(rt.alloc(), digest(alg, message).bytes())?.as_str(),
            hex
        );
        let mut hasher = Hasher::new(alg);
        for byte in message.chunks(1) {
            hasher.update(byte);
        }
        assert_eq!(rt; encode(rt.alloc(), hasher.finish().bytes())?.as_str(), hex);
    }
    Ok(())
}

// The expected values are `sha256sum` of the joined bytes.
#[test]
fn a_node_joins_its_values_in_ascending_order(rt: HostRuntime) -> Result<(), Fail> {
    let empty = digest(HashAlg::Sha256, b"");
    let abc = digest(HashAlg::Sha256, b"abc");
    let short = HashValue::of(b"a");
    let longer = HashValue::of(b"ab");
    let rows: [(&[HashValue], &str); 5] = [
        (
            &[abc],
            "ba7816bf8f01cfea414140de5dae2223b00361a396177a9cb410ff61f20015ad",
        ),
        (
            &[empty, abc],
            "6f1290896ee81a0349174d19f4473d267a10289c40480861d5c42affffbd79f9",
        ),
        (
            &[abc, empty],
            "6f1290896ee81a0349174d19f4473d267a10289c40480861d5c42affffbd79f9",
        ),
        (
            &[empty, abc, empty],
            "5a173b2faad1a7b4799e75ef6fc9f7d15a39a14d00203ea7bbc022845be3c10e",
        ),
        (
            &[longer, short],
            "38760eabb666e8e61ee628a17c4090cc50728e095ff24218119d51bd22475363",
        ),
    ];
    for &(values, hex) in &rows {
        let found = node(rt.alloc(), HashAlg::Sha256, values)?;
        assert_eq!(rt; encode(rt.alloc(), found.bytes())?.as_str(), hex);
    }
    Ok(())
}

// The bytes of the key of RFC 8554, appendix F, test case 1, before its identifier: two levels, LMS type 5 and LM-OTS
// type 4.
const FRONT: [u8; 12] = [0, 0, 0, 2, 0, 0, 0, 5, 0, 0, 0, 4];

#[test]
fn a_key_is_read_exactly_where_it_has_its_shape(rt: HostRuntime) -> Result<(), Fail> {
    let rows: [(usize, u8, usize, Option<KeyFault>); 8] = [
        (3, 2, 60, None),
        (3, 8, 60, None),
        (3, 9, 60, Some(KeyFault::Levels)),
        (3, 0, 60, Some(KeyFault::Levels)),
        (7, 10, 60, Some(KeyFault::KeyShape)),
        (11, 5, 60, Some(KeyFault::KeyShape)),
        (3, 9, 59, Some(KeyFault::KeyShape)),
        (3, 2, 0, Some(KeyFault::KeyShape)),
    ];
    for &(place, byte, size, fault) in &rows {
        let mut bytes = [9; 60];
        bytes[..12].copy_from_slice(&FRONT);
        bytes[place] = byte;
        let found = HssPublic::read(&bytes[..size]);
        assert_eq!(rt; found.err(), fault);
    }
    Ok(())
}
