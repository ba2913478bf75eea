//! ChaCha20, Poly1305, and both together. Expected values: RFC 8439; for the last counter and for a
//! sum equal to the prime, other implementations; for the empty message, the key's half s.

use crate::vectors::hex;
use age_cipher::{Poly1305, chacha20_xor, open_in_place, seal_in_place};
use std::process::Abort;

/// Bytes that count up from this one.
fn counting(first: u8) -> [u8; 32] {
    let mut bytes = [first; 32];
    for (i, byte) in bytes.iter_mut().enumerate() {
        *byte = byte.wrapping_add(i as u8);
    }
    bytes
}

// Section 2.3.2, and the first 16 bytes of the last block of a key stream.
#[test]
fn blocks_match_rfc_8439(rt: HostRuntime) {
    let mut buf = [0; 64];
    let nonce = [0, 0, 0, 9, 0, 0, 0, 0x4a, 0, 0, 0, 0];
    chacha20_xor(&counting(0), &nonce, 1, &mut buf);
    let expected = hex::<64>(
        "10f1e7e4d13b5915500fdd1fa32071c4c7d1f4c733c068030422aa9ac3d46c4e\
         d2826446079faa0914c2d705d98b02a2b5129cd1de164eb9cbd083e8a2503c4e",
    );
    assert_eq!(rt; buf, expected);
    let mut buf = [0; 64];
    chacha20_xor(&[0; 32], &[0; 12], u32::MAX, &mut buf);
    let (front, _) = buf.split_at(16);
    let expected = hex::<16>("ace4cd09e294d1912d4ad205d06f95d9");
    assert_eq!(rt; front, expected.as_slice());
}

// Section 2.8.2. With a wrong tag the ciphertext is unchanged.
#[test]
fn aead_matches_rfc_8439(rt: HostRuntime) {
    let text =
        *b"Ladies and Gentlemen of the class of '99: If I could offer you only one tip for the future, sunscreen would be it.";
    let key = counting(0x80);
    let nonce = hex::<12>("070000004041424344454647");
    let aad = hex::<12>("50515253c0c1c2c3c4c5c6c7");
    let ciphertext = hex::<114>(
        "d31a8d34648e60db7b86afbc53ef7ec2a4aded51296e08fea9e2b5a736ee62d6\
         3dbea45e8ca9671282fafb69da92728b1a71de0a9e060b2905d6a5b67ecd3b36\
         92ddbd7f2d778b8c9803aee328091b58fab324e4fad675945585808b4831d7bc\
         3ff4def08e4b7a9de576d26586cec64b6116",
    );
    let tag = hex::<16>("1ae10b594f09e26a7e902ecbd0600691");
    let mut buf = text;
    assert_eq!(rt; seal_in_place(&key, &nonce, &aad, &mut buf), tag);
    assert_eq!(rt; buf, ciphertext);
    let mut wrong = tag;
    wrong[15] ^= 0x80;
    assert!(rt; !open_in_place(&key, &nonce, &aad, &mut buf, &wrong));
    assert_eq!(rt; buf, ciphertext);
    assert!(rt; open_in_place(&key, &nonce, &aad, &mut buf, &tag));
    assert_eq!(rt; buf, text);
}

// The tag of a message in two pieces is the expected one.
fn expect_tag(
    rt: &impl Abort,
    name: &str,
    key: &[u8; 32],
    (first, second): (&[u8], &[u8]),
    expected: &[u8; 16],
) {
    let mut mac = Poly1305::new(key);
    mac.update(first);
    mac.update(second);
    assert_eq!(rt; mac.tag(), *expected, "{name}");
}

// The key with r equal to `r`, and all 16 bytes of s equal to `s`.
fn small_key(r: u8, s: u8) -> [u8; 32] {
    let mut key = [0; 32];
    let (_, back) = key.split_at_mut(16);
    back.fill(s);
    key[0] = r;
    key
}

// Sixteen bytes: `first`, and then 15 times `other`.
fn block(first: u8, other: u8) -> [u8; 16] {
    let mut bytes = [other; 16];
    bytes[0] = first;
    bytes
}

// Section 2.5.2 and appendix A.3; the empty message and the sum equal to the prime are not there.
#[test]
fn tags_match_rfc_8439(rt: HostRuntime) {
    let none = [].as_slice();
    let ones = [0xff; 16].as_slice();
    let two = &block(2, 0);
    let most = &block(0xfc, 0xff);
    let less = &block(0xfd, 0xff);
    let example = hex::<32>("85d6be7857556d337f4452fe42d506a80103808afb0db2fd4abff6af4149f51b");
    let group = b"Cryptographic Forum".as_slice();
    let rows = [
        (
            "example",
            example,
            group,
            b" Research Group".as_slice(),
            hex::<16>("a8061dc1305136c6c22b8baf0c0127a9"),
        ),
        ("empty message", small_key(2, 7), none, none, [7; 16]),
        (
            "sum past the prime",
            small_key(2, 0),
            ones,
            none,
            block(3, 0),
        ),
        (
            "sum past 2^128 with s",
            small_key(2, 0xff),
            two,
            none,
            block(3, 0),
        ),
        (
            "sum equal to the prime",
            small_key(1, 0),
            ones,
            most,
            [0; 16],
        ),
        (
            "sum of 2^130 - 6",
            small_key(2, 0),
            less,
            none,
            block(0xfa, 0xff),
        ),
    ];
    for (name, key, first, second, expected) in rows {
        expect_tag(&rt, name, &key, (first, second), &expected);
    }
}
