//! HKDF (RFC 5869).

ghost use Rattle.std.specs.Prelude.{◌≡◌, ◌≤◌, length};
ghost use Rattle.age_kdf.specs.Hkdf.{hkdf, longest_output};

use crate::hmac;
use crate::hmac_sha256::Mac;
use crate::output_blocks::put_block;

/// HKDF-SHA-256 (RFC 5869). Fills `out` with output keying material.
///
/// `out` must have at most 255 blocks of 32 bytes. An empty salt counts as 32 zero bytes.
#[tactic(auto, using(crate::proofs::ListLemmas::full), unfolding(crate::specs::Hkdf::hkdf))]
pub fn hkdf(ikm: &[u8], salt: &[u8], info: &[u8], out: &mut [u8])
    requires { length out.old ≤ longest_output }
    ensures { out.new ≡ hkdf ikm.now salt.now info.now (length out.old) }
{
    let extracted = Mac::new(&hmac(salt, &[ikm]));
    let count = out.len().div_ceil(32);
    // T(0) is empty: no byte of the block is used yet.
    let mut block = [0u8; 32];
    let mut block_len = 0;
    'each_block: for i in 0..count {
        block = extracted.tag_with(&[&block[..block_len], info, &[(i + 1) as u8]]);
        block_len = 32;
        put_block(out, i, &block);
    }
}
