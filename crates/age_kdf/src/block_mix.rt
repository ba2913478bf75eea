//! BlockMix (RFC 7914, section 4).

ghost use Rattle.std.specs.Prelude.{◌≡◌, ◌+◌, ◌*◌, ◌≤◌, ◌<◌, length, take, drop, bit_xor};
ghost use Rattle.std.specs.Simd.Lanes.{zip2};
ghost use Rattle.age_kdf.specs.Salsa.{salsa8};
ghost use Rattle.age_kdf.specs.BlockMix.{block_mix};

use crate::salsa::salsa8;

// One step: XORs the 16 words of `from` at `at` into `x`, then applies Salsa20/8 to `x`.
#[inline(always)]
fn mix(x: &mut [u32; 16], from: &[u32], at: usize)
    requires { at + 16 ≤ length from.now }
    ensures { x.new ≡ salsa8 (zip2 bit_xor x.old (take 16 (drop at from.now))) }
{
    'words: for i in 0..16 {
        x[i] ^= from[at + i];
    }
    salsa8(x);
}

/// BlockMix of the 2 * r blocks of `from`, written into `into`.
#[tactic(auto, using(crate::proofs::ListLemmas::full), unfolding(crate::proofs::Common::block_mix))]
pub(crate) fn block_mix(from: &[u32], into: &mut [u32], r: usize)
    requires r { (1 ≤ r) × (r ≤ 32) }
    requires from_len { length from.now ≡ 32 * r }
    requires into_len { length into.old ≡ 32 * r }
    ensures { into.new ≡ block_mix r from.now }
{
    let mut x = [0u32; 16];
    x.copy_from_slice(&from[32 * r - 16..]);
    let (even, odd) = into.split_at_mut(16 * r);
    'pairs: for i in 0..r {
        mix(&mut x, from, 32 * i);
        even[16 * i..16 * i + 16].copy_from_slice(&x);
        mix(&mut x, from, 32 * i + 16);
        odd[16 * i..16 * i + 16].copy_from_slice(&x);
    }
}
