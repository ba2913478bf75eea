//! The random bytes of a new file, and how a seed is divided into them.

ghost use Rattle.std.specs.Prelude.{◌≡◌, ◌≢◌, take, drop, length, IfSome, IfNone};

use age_file::{FileKey, Fresh};
use age_job::exactly;

/// The random bytes of a new file.
#[derive(Drop)]
pub struct Seed {
    /// The file key and the payload's nonce.
    pub fresh: Fresh,
    /// The salt of all stanzas.
    pub salt: [u8; 16],
}

/// Makes a seed from 48 bytes: 16 each for the file key, the nonce and the salt, in this order.
/// Returns `None` for any other length.
pub fn seed_of(bytes: &[u8]) -> Option<Seed>
    // The first 16 bytes are the file key, the next 16 the nonce, the last 16 the salt.
    ensures some { IfSome result (λ seed. (seed.fresh.file_key.0 ≡ take 16 bytes.now)
        × (seed.fresh.nonce ≡ take 16 (drop 16 bytes.now))
        × (seed.salt ≡ drop 16 (drop 16 bytes.now))) }
    // There are not 48 bytes.
    ensures none { IfNone result (length bytes.now ≢ 48) }
{
    let (file_key, rest) = bytes.split_at_checked(16)?;
    let (nonce, salt) = rest.split_at_checked(16)?;
    let fresh = Fresh {
        file_key: FileKey(exactly(file_key)?),
        nonce: exactly(nonce)?,
    };
    let salt = exactly(salt)?;
    Some(Seed { fresh, salt })
}
