//! The Salsa20/8 core (RFC 7914, section 3), four steps at a time. Each vector holds four of the
//! sixteen words, one of each column and of each row, so that the lanes are the four columns and,
//! after rotations, the four rows.

ghost use Rattle.std.specs.Prelude.{◌≡◌, ℕ, ◌<◌, slice_index, bit_xor};
ghost use Rattle.std.specs.Int.{w32, rotate_left};
ghost use Rattle.std.specs.Simd.Lanes.{zip2};
ghost use Rattle.age_kdf.specs.Salsa.{add32, columns, rows, salsa8};
ghost use Rattle.age_kdf.specs.Diagonals.{next_word, four_steps, words_in_order, rotation};

use std::simd::u32x4;

#[inline(always)]
fn sum(x: u32x4, y: u32x4) -> u32x4
    ensures { (j : ℕ) → j < 4 → slice_index result j ≡ add32 (slice_index x j) (slice_index y j) }
{
    x + y
}

#[inline(always)]
#[tactic(auto, using(crate::proofs::DiagonalLemmas::shifts_rotate))]
fn rotated(x: u32x4, k: u32) -> u32x4
    requires { (0 < k) × (k < 32) }
    ensures { (j : ℕ) → j < 4 → slice_index result j ≡ rotate_left w32 (slice_index x j) k }
{
    (x << u32x4::splat(k)) | (x >> u32x4::splat(32 - k))
}

#[inline(always)]
fn xor(x: u32x4, y: u32x4) -> u32x4
    ensures { (j : ℕ) → j < 4 → slice_index result j ≡ bit_xor (slice_index x j) (slice_index y j) }
{
    x ^ y
}

// b ^ R(a + d, k) in every lane, where R rotates to the left.
#[inline(always)]
fn step(b: u32x4, a: u32x4, d: u32x4, k: u32) -> u32x4
    requires { (0 < k) × (k < 32) }
    ensures { (j : ℕ) → j < 4
        → slice_index result j ≡ next_word (slice_index b j) (slice_index a j) (slice_index d j) k }
{
    xor(b, rotated(sum(a, d), k))
}

// The four steps in every lane.
#[inline(always)]
#[tactic(auto, unfolding(crate::specs::Diagonals::four_steps))]
fn quarter(a: u32x4, b: u32x4, c: u32x4, d: u32x4) -> (u32x4, u32x4, u32x4, u32x4)
    ensures { (j : ℕ) → j < 4
        → (
          slice_index result.0 j,
          slice_index result.1 j,
          slice_index result.2 j,
          slice_index
              result.3 j,
        )
        ≡ four_steps (slice_index a j) (slice_index b j) (slice_index c j) (slice_index d j) }
{
    let b1 = step(b, a, d, 7);
    let c1 = step(c, b1, a, 9);
    let d1 = step(d, c1, b1, 13);
    let a1 = step(a, d1, c1, 18);
    (a1, b1, c1, d1)
}

// `turned_1`, `turned_2` and `turned_3` move each lane down by 1, 2 and 3 positions, cyclically.
#[inline(always)]
fn turned_1(v: u32x4) -> u32x4
    ensures { result ≡ rotation 1 v }
{
    v.swizzle([1, 2, 3, 0])
}

#[inline(always)]
fn turned_2(v: u32x4) -> u32x4
    ensures { result ≡ rotation 2 v }
{
    v.swizzle([2, 3, 0, 1])
}

#[inline(always)]
fn turned_3(v: u32x4) -> u32x4
    ensures { result ≡ rotation 3 v }
{
    v.swizzle([3, 0, 1, 2])
}

#[inline(always)]
fn columns(s: [u32x4; 4]) -> [u32x4; 4]
    ensures { words_in_order result ≡ columns (words_in_order s) }
{
    let [a, b, c, d] = s;
    let (a, b, c, d) = quarter(a, b, c, d);
    [a, b, c, d]
}

#[inline(always)]
fn rows(s: [u32x4; 4]) -> [u32x4; 4]
    ensures { words_in_order result ≡ rows (words_in_order s) }
{
    let [a, b, c, d] = s;
    let (a, d, c, b) = quarter(a, turned_1(d), turned_2(c), turned_3(b));
    [a, turned_1(b), turned_2(c), turned_3(d)]
}

#[inline(always)]
fn diagonals(x: &[u32; 16]) -> [u32x4; 4]
    ensures { words_in_order result ≡ x.now }
{
    [
        u32x4::from_array([x[0], x[5], x[10], x[15]]),
        u32x4::from_array([x[4], x[9], x[14], x[3]]),
        u32x4::from_array([x[8], x[13], x[2], x[7]]),
        u32x4::from_array([x[12], x[1], x[6], x[11]]),
    ]
}

// The sums of the words of `s` and `t`, in the order x0 to x15.
#[inline(always)]
fn sums(s: [u32x4; 4], t: [u32x4; 4]) -> [u32; 16]
    ensures { result ≡ zip2 add32 (words_in_order s) (words_in_order t) }
{
    let [x0, x5, x10, x15] = sum(s[0], t[0]).to_array();
    let [x4, x9, x14, x3] = sum(s[1], t[1]).to_array();
    let [x8, x13, x2, x7] = sum(s[2], t[2]).to_array();
    let [x12, x1, x6, x11] = sum(s[3], t[3]).to_array();
    [
        x0, x1, x2, x3, x4, x5, x6, x7, x8, x9, x10, x11, x12, x13, x14, x15,
    ]
}

/// Salsa20/8 of 16 words.
#[inline(always)]
#[tactic(auto, unfolding(crate::specs::Salsa::double_rounds))]
pub(crate) fn salsa8(x: &mut [u32; 16])
    ensures { x.new ≡ salsa8 x.old }
{
    let first = diagonals(x);
    let mut s = first;
    'rounds: for _round in 0..4u32 {
        s = rows(columns(s));
    }
    *x = sums(first, s);
}
