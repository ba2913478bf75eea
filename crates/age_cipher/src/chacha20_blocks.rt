//! ChaCha20's blocks, made sixteen or eight at once and XORed into a text in place (RFC 8439, 2.3
//! and 2.4).
ghost use Rattle.std.specs.Prelude.{◌≡◌, ℕ, ◌+◌, ◌-◌, ◌*◌, ◌/◌, ◌%◌, ◌≤◌, ◌<◌, ◌^◌, ◌++◌};
ghost use Rattle.std.specs.Prelude.{length, slice_index, slice_index_or, bit_xor};
ghost use Rattle.std.specs.List.{flat_map};
ghost use Rattle.age_cipher.specs.Numbers.{le_bytes};
ghost use Rattle.age_cipher.specs.Bytes.{Bytes};
ghost use Rattle.age_cipher.specs.ChaCha20.{add_words, start, stream_byte};
ghost use Rattle.age_cipher.specs.Lanes.{lane, column, bytes, lane_byte, IsXored};

use crate::chacha20::start;
use crate::chacha20_lanes::{mix, plus, spread};
use std::simd::{Simd, u8x16, u32x4, u32x8, u32x16};

/// The length of eight blocks in bytes.
pub(crate) const EIGHT_BLOCKS: usize = 512;

/// The length of sixteen blocks in bytes.
const SIXTEEN_BLOCKS: usize = 1024;

// XORs 16 bytes from `at` on with the bytes of four words.
#[inline(always)]
fn xor_words(buf: &mut [u8], at: usize, words: u32x4)
    requires { at + 16 ≤ length buf.old }
    ensures { IsXored at 16 (λ j. slice_index (bytes words) (j - at)) buf.old buf.new }
{
    let xored = u8x16::from_slice(&buf[at..]) ^ words.to_le_bytes();
    xored.copy_to_slice(&mut buf[at..]);
}

// XORs 64 bytes from `at` on with the bytes of a block.
#[inline(always)]
fn xor_block(buf: &mut [u8], at: usize, a: u32x4, b: u32x4, c: u32x4, d: u32x4)
    requires { at + 64 ≤ length buf.old }
    ensures { IsXored at 64 (λ j. slice_index (bytes (a ++ (b ++ (c ++ d)))) (j - at)) buf.old
        buf.new }
{
    xor_words(buf, at, a);
    xor_words(buf, at + 16, b);
    xor_words(buf, at + 32, c);
    xor_words(buf, at + 48, d);
}

// Lanes 4 * q to 4 * q + 3.
#[inline(always)]
fn four_lanes<const N: usize>(vector: &Simd<u32, N>, q: usize) -> u32x4
    requires { 4 * q + 4 ≤ N }
    ensures { (i : ℕ) → i < 4 → slice_index result i ≡ slice_index vector.now (4 * q + i) }
{
    let lanes = &vector.as_array()[..];
    u32x4::from_slice(&lanes[4 * q..])
}

// Lanes 4 * q to 4 * q + 3, each as one vector of its words in a, b, c and d.
#[inline(always)]
fn columns<const N: usize>(
    a: &Simd<u32, N>,
    b: &Simd<u32, N>,
    c: &Simd<u32, N>,
    d: &Simd<u32, N>,
    q: usize,
) -> (u32x4, u32x4, u32x4, u32x4)
    requires { 4 * q + 4 ≤ N }
    ensures first { result.0 ≡ column (4 * q) a.now b.now c.now d.now }
    ensures second { result.1 ≡ column (4 * q + 1) a.now b.now c.now d.now }
    ensures third { result.2 ≡ column (4 * q + 2) a.now b.now c.now d.now }
    ensures fourth { result.3 ≡ column (4 * q + 3) a.now b.now c.now d.now }
{
    let (ac_low, ac_high) = four_lanes(a, q).interleave(four_lanes(c, q));
    let (bd_low, bd_high) = four_lanes(b, q).interleave(four_lanes(d, q));
    let (first, second) = ac_low.interleave(bd_low);
    let (third, fourth) = ac_high.interleave(bd_high);
    (first, second, third, fourth)
}

// XORs the 256 bytes from `at + 256 * q` on with lanes 4 * q to 4 * q + 3, one after another.
#[inline(always)]
fn xor_four_lanes<const N: usize>(buf: &mut [u8], at: usize, words: &[Simd<u32, N>; 16], q: usize)
    requires lanes { 4 * q + 4 ≤ N }
    requires room { at + 256 * q + 256 ≤ length buf.old }
    ensures { IsXored (at + 256 * q) 256 (λ j. lane_byte words.now (j - at)) buf.old buf.new }
{
    let (a0, a1, a2, a3) = columns(&words[0], &words[1], &words[2], &words[3], q);
    let (b0, b1, b2, b3) = columns(&words[4], &words[5], &words[6], &words[7], q);
    let (c0, c1, c2, c3) = columns(&words[8], &words[9], &words[10], &words[11], q);
    let (d0, d1, d2, d3) = columns(&words[12], &words[13], &words[14], &words[15], q);
    xor_block(buf, at + 256 * q, a0, b0, c0, d0);
    xor_block(buf, at + 256 * q + 64, a1, b1, c1, d1);
    xor_block(buf, at + 256 * q + 128, a2, b2, c2, d2);
    xor_block(buf, at + 256 * q + 192, a3, b3, c3, d3);
}

// XORs 256 * (N / 4) bytes from `at` on with the lanes in order, four in each turn of the loop.
#[inline(always)]
fn xor_lanes<const N: usize>(buf: &mut [u8], at: usize, words: &[Simd<u32, N>; 16])
    requires { at + 64 * N ≤ length buf.old }
    ensures { IsXored at (256 * (N / 4)) (λ j. lane_byte words.now (j - at)) buf.old buf.new }
{
    'fours: for q in 0..N / 4 {
        xor_four_lanes(buf, at, words, q);
    }
}

// Replaces the initial states of sixteen blocks by those of the next sixteen.
#[inline(always)]
#[tactic(auto, using(crate::proofs::LaneLemmas::advance))]
fn advance(first: &mut [u32x16; 16])
    ensures { (j n : ℕ) (key nonce : Bytes) → j < 16
        → lane j first.old ≡ start key nonce n
        → lane j first.new ≡ start key nonce (add_words n 16) }
{
    first[12] = plus(first[12], u32x16::splat(16));
}

/// XORs all whole pieces of 1024 bytes of `buf` with the key stream from block `counter` on, and
/// returns how many bytes these pieces have.
#[inline(never)]
pub(crate) fn xor_sixteens(key: &[u8; 32], nonce: &[u8; 12], counter: u32, buf: &mut [u8]) -> usize
    requires { counter + (length buf.old + 63) / 64 ≤ 2 ^ 32 }
    ensures whole { result % 64 ≡ 0 }
    ensures room { result ≤ length buf.old }
    ensures xored { IsXored 0 result (stream_byte key.now nonce.now counter) buf.old buf.new }
{
    if buf.len() < SIXTEEN_BLOCKS {
        return 0;
    }
    let state = start(key, nonce, counter);
    let mut first = [u32x16::splat(0); 16];
    let offsets = u32x16::from_array([0, 1, 2, 3, 4, 5, 6, 7, 8, 9, 10, 11, 12, 13, 14, 15]);
    spread(&mut first, &state, offsets);
    let mut words = [u32x16::splat(0); 16];
    let mut at = 0;
    'pieces: while buf.len() - at >= SIXTEEN_BLOCKS {
        mix(&mut words, &first);
        xor_lanes(buf, at, &words);
        advance(&mut first);
        at += SIXTEEN_BLOCKS;
    }
    at
}

/// XORs 512 bytes from `at` on with eight blocks, the first of which has this counter.
#[inline(never)]
pub(crate) fn xor_eight_blocks(
    key: &[u8; 32],
    nonce: &[u8; 12],
    counter: u32,
    buf: &mut [u8],
    at: usize,
)
    requires counter { counter + 8 ≤ 2 ^ 32 }
    requires room { at + 512 ≤ length buf.old }
    ensures { IsXored at 512 (λ j. stream_byte key.now nonce.now counter (j - at)) buf.old
        buf.new }
{
    let state = start(key, nonce, counter);
    let mut first = [u32x8::splat(0); 16];
    spread(
        &mut first,
        &state,
        u32x8::from_array([0, 1, 2, 3, 4, 5, 6, 7]),
    );
    let mut words = [u32x8::splat(0); 16];
    mix(&mut words, &first);
    xor_lanes(buf, at, &words);
}

/// XORs the bytes from `at` on, at most 512, with the start of eight blocks, the first of which has
/// this counter.
pub(crate) fn xor_last_blocks(
    key: &[u8; 32],
    nonce: &[u8; 12],
    counter: u32,
    buf: &mut [u8],
    at: usize,
)
    requires counter { counter + 8 ≤ 2 ^ 32 }
    requires order { at ≤ length buf.old }
    requires size { length buf.old ≤ at + 512 }
    ensures { IsXored at
        (length buf.old - at)
        (λ j. stream_byte key.now nonce.now counter (j - at))
        buf.old buf.new }
{
    let mut eight = [0; EIGHT_BLOCKS];
    let size = buf.len() - at;
    eight[..size].copy_from_slice(&buf[at..]);
    xor_eight_blocks(key, nonce, counter, &mut eight, 0);
    buf[at..].copy_from_slice(&eight[..size]);
}
