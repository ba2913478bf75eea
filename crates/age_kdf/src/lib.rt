//! HMAC and the key derivations that age uses: HKDF, PBKDF2 and scrypt, all over SHA-256.
//!
//! Each function computes exactly what its RFC defines. The contracts cite the definitions in
//! `specs/`, which are on lists of bytes or words and use the SHA-256 of the crate `sha2`.
//!
//! ```
//! let mut wrap_key = [0; 32];
//! hkdf(&secret, &salt, b"info", &mut wrap_key);
//! let tag = hmac(&wrap_key, &[b"first part", b"second part"]);
//!
//! if let Some(params) = ScryptParams::new(18, 8, 1) {
//!     scrypt(alloc, b"passphrase", &salt, &params, &mut wrap_key)?; // takes 2^18 KiB
//! }
//! ```
//!
//! *What a contract sees.* Secrets, salts and outputs are lists of bytes. Of the work space of
//! `scrypt_with` it sees the length alone. `ScryptParams` is the record `Costs`: log_n, r and p, in
//! their ranges. A MAC in progress is private.
//!
//! Limits: only `scrypt` allocates, and it fails only if the allocation is refused; `scrypt_with`
//! works in the caller's memory. Parameters go up to log_n 30, r 32 and p 32, and log_n is below 16
//! r, as RFC 7914 demands. Constant time and wiping of memory are not claimed.
#![tactic(auto)]

ghost use Rattle.std.specs.Prelude.{◌≡◌};
ghost use Rattle.std.specs.List.{flat_map};
ghost use Rattle.age_kdf.specs.Hmac.{hmac};

mod block_mix;
mod hkdf_sha256;
mod hmac_sha256;
mod output_blocks;
mod params;
mod pbkdf2_sha256;
mod romix;
mod salsa;
mod scrypt_kdf;

pub use hkdf_sha256::hkdf;
use hmac_sha256::Mac;
pub use params::ScryptParams;
pub use pbkdf2_sha256::pbkdf2;
pub use scrypt_kdf::{scrypt, scrypt_with};

/// HMAC-SHA-256 (RFC 2104, section 2). Returns the MAC under `key` of the concatenated parts.
///
/// A key may have any length. A key of more than 64 bytes is hashed first.
pub fn hmac(key: &[u8], parts: &[&[u8]]) -> [u8; 32]
    ensures { result ≡ hmac key.now (flat_map (λ p. p.now) parts.now) }
{
    Mac::new(key).tag_with(parts)
}
