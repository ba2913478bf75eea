//! HMAC, HKDF, PBKDF2 and scrypt: vectors of the RFCs.

use crate::vectors::hex;
use age_kdf::{ScryptParams, hkdf, hmac, pbkdf2, scrypt};
use std::alloc::{AllocError, Global};

// RFC 4231, test cases 1 and 2.
#[test]
fn hmac_matches_rfc_4231(rt: HostRuntime) {
    assert_eq!(rt;
        hmac(&[0x0b; 20], &[b"Hi ", b"", b"There"]),
        hex::<32>("b0344c61d8db38535ca8afceaf0bf12b881dc200c9833da726e9376c2e32cff7")
    );
    assert_eq!(rt;
        hmac(b"Jefe", &[b"what do ya want for nothing?"]),
        hex::<32>("5bdcc146bf60754e6a042426089575c75a003f089d2739839dec58b964ec3843")
    );
}

// Test case 1.
#[test]
fn hkdf_matches_rfc_5869(rt: HostRuntime) {
    let mut out = [0u8; 42];
    let salt = hex::<13>("000102030405060708090a0b0c");
    let info = hex::<10>("f0f1f2f3f4f5f6f7f8f9");
    hkdf(&[0x0b; 22], &salt, &info, &mut out);
    assert_eq!(rt;
        out,
        hex::<42>(
            "3cb25f25faacd57a90434f64d0362f2a2d2d0a90cf1a5a4c5db02d56ecc4c5bf\
             34007208d5b887185865"
        )
    );
}

// The first vector of section 11.
#[test]
fn pbkdf2_matches_rfc_7914(rt: HostRuntime) {
    let mut out = [0u8; 64];
    pbkdf2(b"passwd", b"salt", 1, &mut out);
    assert_eq!(rt;
        out,
        hex::<64>(
            "55ac046e56e3089fec1691c22544b605f94185216dde0465e68b9d57c20dacbc\
             49ca9cccf179b645991664b39d77ef317c71b845b1e30bd509112041d3a19783"
        )
    );
}

// The key of 64 bytes, None for parameters out of range, or out of memory.
fn derived(
    alloc: Global,
    pass: &[u8],
    salt: &[u8],
    (log_n, r, p): (u32, u32, u32),
) -> Result<Option<[u8; 64]>, AllocError> {
    let Some(params) = ScryptParams::new(log_n, r, p) else {
        return Ok(None);
    };
    let mut out = [0u8; 64];
    scrypt(alloc, pass, salt, &params, &mut out)?;
    Ok(Some(out))
}

// Section 12, without the vector that takes 1 GiB.
#[test]
fn scrypt_matches_rfc_7914(rt: HostRuntime) -> Result<(), AllocError> {
    let alloc = rt.alloc();
    assert_eq!(rt;
        derived(alloc, b"", b"", (4, 1, 1))?,
        Some(hex::<64>(
            "77d6576238657b203b19ca42c18a0497f16b4844e3074ae8dfdffa3fede21442\
             fcd0069ded0948f8326a753a0fc81f17e8d3e0fb2e0d3628cf35e20c38d18906"
        ))
    );
    assert_eq!(rt;
        derived(alloc, b"password", b"NaCl", (10, 8, 16))?,
        Some(hex::<64>(
            "fdbabe1c9d3472007856e7190d01e9fe7c6ad7cbc8237830e77376634b373162\
             2eaf30d92e22a3886ff109279d9830dac727afb94a83ee6d8360cbdfa2cc0640"
        ))
    );
    assert_eq!(rt;
        derived(alloc, b"pleaseletmein", b"SodiumChloride", (14, 8, 1))?,
        Some(hex::<64>(
            "7023bdcb3afd7348461c06cd81fd38ebfda8fbba904f8e3ea9b543f6545da1f2\
             d5432955613f0fcf62d49705242a9af9e61e85dc0d651e40dfcf017b45575887"
        ))
    );
    Ok(())
}

/// Either the output is written, or the work space is refused and the output is unchanged.
/// tests/test_libraries.py refuses the work space.
#[test]
fn scrypt_whole_or_out_of_memory(rt: HostRuntime) {
    let Some(params) = ScryptParams::new(4, 1, 1) else {
        unreachable!();
    };
    let mut out = [7u8; 32];
    match scrypt(rt.alloc(), b"", b"", &params, &mut out) {
        Ok(()) => assert!(rt; out != [7; 32]),
        Err(_) => assert!(rt; out == [7; 32]),
    }
}
