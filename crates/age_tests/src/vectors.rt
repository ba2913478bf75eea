//! The file key, the nonce and the salt of new files in the module `file`; bytes from hex digits.

use age_recipient::FileKey;

pub const KEY: FileKey = FileKey([0, 1, 2, 3, 4, 5, 6, 7, 8, 9, 10, 11, 12, 13, 14, 15]);

pub const NONCE: [u8; 16] = *b"\x10\x11\x12\x13\x14\x15\x16\x17\x18\x19\x1a\x1b\x1c\x1d\x1e\x1f";

pub const SALT: [u8; 16] = *b"\x20\x21\x22\x23\x24\x25\x26\x27\x28\x29\x2a\x2b\x2c\x2d\x2e\x2f";

/// Decodes pairs of lower-case hex digits. Another character, or a missing pair, counts as 0.
pub fn hex<const N: usize>(digits: &str) -> [u8; N] {
    let mut bytes = [0; N];
    for (byte, pair) in bytes.iter_mut().zip(digits.as_bytes().chunks(2)) {
        for digit in pair {
            let value = match *digit {
                b'0'..=b'9' => *digit - b'0',
                b'a'..=b'f' => *digit - b'a' + 10,
                _ => 0,
            };
            *byte = *byte << 4 | value;
        }
    }
    bytes
}
