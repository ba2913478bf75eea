//! ROMix (RFC 7914, section 5), with a table of the V[i], which the definition does without.

ghost use Rattle.std.specs.Prelude.{◌≡◌, ℕ, ◌+◌, ◌*◌, ◌^◌, ◌≤◌, ◌<◌, length, take, drop, bit_xor};
ghost use Rattle.std.specs.Simd.Lanes.{zip2};
ghost use Rattle.age_kdf.specs.RoMix.{romix};

use crate::block_mix::block_mix;
use crate::params::row_count;

// Writes `row` as row `i` of a table of rows of `size` words.
#[tactic(auto, using(crate::proofs::RoMixLemmas::put_row))]
fn put_row(table: &mut [u32], size: usize, i: usize, row: &[u32])
    requires room { size * i + size ≤ length table.old }
    requires len { length row.now ≡ size }
    ensures here { take size (drop (size * i) table.new) ≡ row.now }
    ensures below { (j : ℕ) → j < i
        → take size (drop (size * j) table.new) ≡ take size (drop (size * j) table.old) }
{
    let at = size * i;
    table[at..at + size].copy_from_slice(row);
}

// XORs each word of `x` with that of `row`.
#[tactic(auto, using(crate::proofs::ListLemmas::zipped))]
fn xor_into(x: &mut [u32], row: &[u32])
    requires { length row.now ≡ length x.old }
    ensures { x.new ≡ zip2 bit_xor x.old row.now }
{
    'words: for k in 0..x.len() {
        x[k] ^= row[k];
    }
}

// XORs `x` with row `i` of a table whose rows are as long as `x`.
fn xor_row(x: &mut [u32], table: &[u32], i: usize)
    requires { length x.old * i + length x.old ≤ length table.now }
    ensures { x.new ≡ zip2 bit_xor x.old (take (length x.old) (drop (length x.old * i) table.now)) }
{
    let at = x.len() * i;
    let end = at + x.len();
    xor_into(x, &table[at..end]);
}

/// ROMix of `x` with N = 2^log_n. The table has room for N rows of the size of `x`, and `y` for
/// one. Their previous contents do not matter.
#[tactic(auto, using(std::proofs::Common::below_more), unfolding(crate::specs::RoMix::v_at))]
pub(crate) fn romix(table: &mut [u32], x: &mut [u32], y: &mut [u32], r: usize, log_n: u32)
    requires r { (1 ≤ r) × (r ≤ 32) }
    requires log_n { log_n ≤ 30 }
    requires table { length table.old ≡ 32 * r * 2 ^ log_n }
    requires x { length x.old ≡ 32 * r }
    requires y { length y.old ≡ 32 * r }
    ensures { x.new ≡ romix r (2 ^ log_n) x.old }
{
    let n = row_count(log_n);
    let size = 32 * r;
    'fill: for i in 0..n {
        put_row(table, size, i, x);
        block_mix(x, y, r);
        x.copy_from_slice(y);
    }
    'look: for _turn in 0..n {
        let j = x[size - 16] as usize % n;
        xor_row(x, table, j);
        block_mix(x, y, r);
        x.copy_from_slice(y);
    }
}
