//! Runs one part of `age_cipher` over many texts and prints a checksum, to be timed from outside.
//!
//! `cipher_bench PART SIZE MIB BYTE`: PART is `seal`, `open`, `chacha20` or `poly1305`. There are
//! as many texts of SIZE bytes, 8 to 65,536, as fit in MIB MiB. The key and the first plaintext
//! consist of BYTE. `bench/cipher.sh` builds this program, and `bench/peers.py` times it.
#![tactic(auto)]

ghost use Rattle.std.specs.Prelude.{◌≡◌, IfOk, length, vec_len, ◌≤◌};

use age_cipher::{Poly1305, chacha20_xor, open_in_place, seal_in_place};
use std::alloc::{AllocError, Global};
use std::{env, io};

const MIN_SIZE: usize = 8;

const MAX_SIZE: usize = 65_536;

const MIB: u64 = 1_048_576;

#[derive(Clone, Copy)]
enum Part {
    Seal,
    Open,
    ChaCha20,
    Poly1305,
}

fn part_named(name: &str) -> Option<Part> {
    match name {
        "seal" => Some(Part::Seal),
        "open" => Some(Part::Open),
        "chacha20" => Some(Part::ChaCha20),
        "poly1305" => Some(Part::Poly1305),
        _ => None,
    }
}

fn nonce_of(number: u64) -> [u8; 12] {
    let [a, b, c, d, e, f, g, h] = number.to_le_bytes();
    [a, b, c, d, e, f, g, h, 0, 0, 0, 0]
}

fn prefix(bytes: &[u8]) -> u64
    requires { 8 ≤ length bytes.now }
{
    u64::from_le_bytes([
        bytes[0], bytes[1], bytes[2], bytes[3], bytes[4], bytes[5], bytes[6], bytes[7],
    ])
}

fn filled(alloc: Global, byte: u8, len: usize) -> Result<Vec<u8>, AllocError>
    ensures { IfOk result (λ v. vec_len v ≡ len) }
{
    vec![in alloc; byte; len]
}

// The result of the part for one more text, cut to 8 bytes.
fn one_text(
    part: Part,
    key: &[u8; 32],
    number: u64,
    text: &mut [u8],
    sealed: &[u8],
    tag: &[u8; 16],
) -> u64
    requires least { MIN_SIZE ≤ length text.old }
    requires most { length text.old ≤ MAX_SIZE }
    requires same_size { length sealed.now ≡ length text.old }
{
    match part {
        Part::Seal => prefix(&seal_in_place(key, &nonce_of(number), &[], text)),
        Part::Open => {
            text.copy_from_slice(sealed);
            if open_in_place(key, &nonce_of(0), &[], text, tag) {
                prefix(text)
            } else {
                0
            }
        }
        Part::ChaCha20 => {
            chacha20_xor(key, &nonce_of(number), 1, text);
            prefix(text)
        }
        Part::Poly1305 => {
            let mut mac = Poly1305::new(key);
            mac.update(text);
            let tag = mac.tag();
            text[0] = tag[0];
            prefix(&tag)
        }
    }
}

// A checksum over all texts.
fn checksum(part: Part, byte: u8, texts: u64, text: &mut [u8], sealed: &mut [u8]) -> u64
    requires least { MIN_SIZE ≤ length text.old }
    requires most { length text.old ≤ MAX_SIZE }
    requires same_size { length sealed.old ≡ length text.old }
{
    let key = [byte; 32];
    let tag = seal_in_place(&key, &nonce_of(0), &[], sealed);
    let mut sum = 0u64;
    for number in 0..texts {
        sum = sum
            .rotate_left(1)
            .wrapping_add(one_text(part, &key, number, text, sealed, &tag));
    }
    sum
}

fn main(rt: HostRuntime) -> io::Result<()> {
    let words: Vec<String> = env::args(&rt)?.collect(rt.alloc())?;
    let [_, name, size, mib, byte] = words.as_slice() else {
        return Err(io::Error::from(io::ErrorKind::InvalidInput));
    };
    let (Some(part), Ok(size), Ok(mib), Ok(byte)) = (
        part_named(name.as_str()),
        size.as_str().parse::<u32>(),
        mib.as_str().parse::<u32>(),
        byte.as_str().parse::<u8>(),
    ) else {
        return Err(io::Error::from(io::ErrorKind::InvalidInput));
    };
    let size = size as usize;
    if size < MIN_SIZE || size > MAX_SIZE {
        return Err(io::Error::from(io::ErrorKind::InvalidInput));
    }
    let mut text = filled(rt.alloc(), byte, size)?;
    let mut sealed = filled(rt.alloc(), byte, size)?;
    let texts = u64::from(mib) * MIB / size as u64;
    let sum = checksum(
        part,
        byte,
        texts,
        text.as_mut_slice(),
        sealed.as_mut_slice(),
    );
    println!(rt; "{sum:016x}")
}
