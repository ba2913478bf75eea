//! scrypt (RFC 7914, section 6), in the caller's work space or in a newly allocated one.

ghost use Rattle.std.specs.Prelude.{◌≡◌, ◌+◌, ◌*◌, ◌^◌, ◌≤◌, ◌++◌, [], length, OnErr, OnOk};
ghost use Rattle.age_kdf.specs.Bytes.{Bytes};
ghost use Rattle.age_kdf.specs.Pbkdf2.{pbkdf2, longest_output, most_blocks};
ghost use Rattle.age_kdf.specs.Params.{work_words};
ghost use Rattle.age_kdf.specs.Scrypt.{words_of, bytes_of, mixed_parts, scrypt};
ghost use Rattle.age_kdf.specs.HmacState.{IsFed};

use crate::hmac_sha256::Mac;
use crate::params::{ScryptParams, row_count};
use crate::pbkdf2_sha256::{fill, pbkdf2_block};
use crate::romix::romix;
use std::alloc::{AllocError, Global};

// The eight words of a block of bytes.
#[tactic(auto, unfolding(crate::specs::Scrypt::words_of))]
fn load_block(words: &mut [u32], block: &[u8; 32])
    requires { length words.old ≡ 8 }
    ensures { words.new ≡ words_of block.now 8 }
{
    'words: for i in 0..8 {
        words[i] = u32::from_le_bytes([
            block[4 * i],
            block[4 * i + 1],
            block[4 * i + 2],
            block[4 * i + 3],
        ]);
    }
}

// Fills `words` with the first `count` blocks of PBKDF2 at one round, eight words each.
#[tactic(auto, unfolding(crate::specs::Scrypt::words_of))]
fn load(keyed: &Mac, salted: &Mac, words: &mut [u32], count: usize)
    requires count { count ≤ most_blocks }
    requires len { length words.old ≡ 8 * count }
    ensures { (pass salt : Bytes) → IsFed keyed.now pass [] → IsFed salted.now pass salt
        → words.new ≡ words_of (pbkdf2 pass salt 1 (32 * count)) (8 * count) }
{
    'each_block: for i in 0..count {
        let block = pbkdf2_block(keyed, salted, (i + 1) as u32, 1);
        load_block(&mut words[8 * i..8 * i + 8], &block);
    }
}

// Feeds the bytes of these words.
fn feed_words(mac: &mut Mac, words: &[u32])
    ensures { (key text : Bytes) → IsFed mac.old key text
        → IsFed mac.new key (text ++ bytes_of words.now) }
{
    for word in words {
        mac.update(&word.to_le_bytes());
    }
}

// Mixes each of the `p` parts by ROMix.
#[tactic(auto, unfolding(crate::specs::Scrypt::mixed_parts))]
fn mix_parts(table: &mut [u32], parts: &mut [u32], y: &mut [u32], r: usize, log_n: u32, p: usize)
    requires r { (1 ≤ r) × (r ≤ 32) }
    requires log_n { log_n ≤ 30 }
    requires p { p ≤ 32 }
    requires table { length table.old ≡ 32 * r * 2 ^ log_n }
    requires parts { length parts.old ≡ 32 * r * p }
    requires y { length y.old ≡ 32 * r }
    ensures { parts.new ≡ mixed_parts r (2 ^ log_n) parts.old p }
{
    let size = 32 * r;
    'each_part: for i in 0..p {
        romix(table, &mut parts[size * i..size * i + size], y, r, log_n);
    }
}

/// scrypt (RFC 7914, section 6). Fills `out` with the derived key, and allocates nothing.
///
/// `work` is scratch space of `params.work_len()` words. Its previous contents do not matter;
/// afterwards it holds data derived from the passphrase. `out` must have at most 2^32 - 1 blocks of
/// 32 bytes.
#[tactic(auto, unfolding(crate::specs::Scrypt::scrypt))]
pub fn scrypt_with(
    work: &mut [u32],
    pass: &[u8],
    salt: &[u8],
    params: &ScryptParams,
    out: &mut [u8],
)
    requires work { length work.old ≡ work_words params.now }
    requires room { length out.old ≤ longest_output }
    ensures { out.new ≡ scrypt pass.now salt.now
        (2 ^ params.now.log_n) params.now.r params.now.p (length out.old) }
{
    let log_n = params.log_n();
    let r = params.r() as usize;
    let p = params.p() as usize;
    let size = 32 * r;
    let (table, rest) = work.split_at_mut(size * row_count(log_n));
    let (parts, rest) = rest.split_at_mut(size * p);
    let (y, _) = rest.split_at_mut(size);
    let keyed = Mac::new(pass);
    let mut salted = keyed.copy();
    salted.update(salt);
    load(&keyed, &salted, parts, 4 * r * p);
    mix_parts(table, parts, y, r, log_n, p);
    let mut fed = keyed.copy();
    feed_words(&mut fed, parts);
    fill(&keyed, &fed, 1, out);
}

/// scrypt (RFC 7914, section 6) like `scrypt_with`, but allocates the work space, 4 *
/// `params.work_len()` bytes.
///
/// If the allocation is refused, returns `AllocError` and leaves `out` unchanged.
pub fn scrypt(
    alloc: Global,
    pass: &[u8],
    salt: &[u8],
    params: &ScryptParams,
    out: &mut [u8],
) -> Result<(), AllocError>
    requires room { length out.old ≤ longest_output }
    // On Ok the output is scrypt (RFC 7914, section 6).
    ensures ok { OnOk result (out.new ≡ scrypt pass.now salt.now
        (2 ^ params.now.log_n) params.now.r params.now.p (length out.old)) }
    // On Err the output is unchanged.
    ensures err { OnErr result (out.new ≡ out.old) }
{
    let mut work = vec![in alloc; 0u32; params.work_len()]?;
    scrypt_with(&mut work, pass, salt, params, out);
    Ok(())
}
