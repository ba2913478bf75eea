//! PBKDF2 (RFC 8018, section 5.2).

ghost use Rattle.std.specs.Prelude.{◌≡◌, ◌≤◌, ◌++◌, [], length, bit_xor};
ghost use Rattle.std.specs.Simd.Lanes.{zip2};
ghost use Rattle.age_kdf.specs.Bytes.{Bytes};
ghost use Rattle.age_kdf.specs.Pbkdf2.{pbkdf2, pbkdf2_block, longest_output};
ghost use Rattle.age_kdf.specs.HmacState.{IsFed};

use crate::hmac_sha256::Mac;
use crate::output_blocks::put_block;

#[tactic(auto, using(crate::proofs::ListLemmas::zipped))]
fn xor_block(sum: &mut [u8; 32], block: &[u8; 32])
    ensures { sum.new ≡ zip2 bit_xor sum.old block.now }
{
    'bytes: for k in 0..32 {
        sum[k] ^= block[k];
    }
}

/// Block `number` of PBKDF2, after `rounds` MACs. `keyed` is the HMAC state under the password, and
/// `salted` the same state after the salt.
pub(crate) fn pbkdf2_block(keyed: &Mac, salted: &Mac, number: u32, rounds: u32) -> [u8; 32]
    requires { 1 ≤ rounds }
    ensures { (pass salt : Bytes) → IsFed keyed.now pass [] → IsFed salted.now pass salt
        → result ≡ pbkdf2_block pass salt rounds number }
{
    let mut last = salted.tag_with(&[&number.to_be_bytes()]);
    let mut sum = last;
    'rounds: for _round in 0..rounds - 1 {
        last = keyed.tag_with(&[&last]);
        xor_block(&mut sum, &last);
    }
    sum
}

/// PBKDF2 of a password and a salt that are given as HMAC states, as for `pbkdf2_block`.
#[tactic(auto, using(crate::proofs::ListLemmas::full), unfolding(crate::specs::Pbkdf2::pbkdf2))]
pub(crate) fn fill(keyed: &Mac, salted: &Mac, rounds: u32, out: &mut [u8])
    requires rounds { 1 ≤ rounds }
    requires room { length out.old ≤ longest_output }
    ensures { (pass salt : Bytes) → IsFed keyed.now pass [] → IsFed salted.now pass salt
        → out.new ≡ pbkdf2 pass salt rounds (length out.old) }
{
    let count = out.len().div_ceil(32);
    'each_block: for i in 0..count {
        let block = pbkdf2_block(keyed, salted, (i + 1) as u32, rounds);
        put_block(out, i, &block);
    }
}

/// PBKDF2-HMAC-SHA-256 (RFC 8018, section 5.2). Fills `out` with the derived key.
///
/// `rounds` must be at least 1, and `out` must have at most 2^32 - 1 blocks of 32 bytes.
pub fn pbkdf2(pass: &[u8], salt: &[u8], rounds: u32, out: &mut [u8])
    requires rounds { 1 ≤ rounds }
    requires room { length out.old ≤ longest_output }
    ensures { out.new ≡ pbkdf2 pass.now salt.now rounds (length out.old) }
{
    let keyed = Mac::new(pass);
    let mut salted = keyed.copy();
    salted.update(salt);
    fill(&keyed, &salted, rounds, out);
}
