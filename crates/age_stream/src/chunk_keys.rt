//! The key and the nonces of a payload's chunks.
ghost use Rattle.std.specs.Prelude.{◌≡◌, ◌^◌, ◌<◌};
ghost use Rattle.age_stream.specs.Payload.{payload_key, chunk_nonce};
ghost use Rattle.age_stream.specs.Sizes.{most_chunks};

use age_header::FileKey;
use age_kdf::hkdf;

/// The nonce of chunk i: its number in eleven big-endian bytes, then 1 for the last chunk and 0 for
/// the others (C2SP `age.md`, "Payload"). Eleven bytes hold the numbers below 2^88.
#[tactic(auto, unfolding(crate::specs::Payload::chunk_nonce))]
pub fn chunk_nonce(i: u128, last: bool) -> [u8; 12]
    requires { i < most_chunks }
    ensures { result ≡ chunk_nonce i last }
{
    let [_, _, _, _, _, a, b, c, d, e, f, g, h, j, k, l] = i.to_be_bytes();
    [a, b, c, d, e, f, g, h, j, k, l, if last { 1 } else { 0 }]
}

/// The key of the chunks that follow this nonce (C2SP `age.md`, "Payload").
#[tactic(auto, unfolding(crate::specs::Payload::payload_key))]
pub fn payload_key(key: &FileKey, nonce: &[u8; 16]) -> [u8; 32]
    ensures { result ≡ payload_key key.now nonce.now }
{
    let mut chunk_key = [0; 32];
    hkdf(&key.0, nonce, b"payload", &mut chunk_key);
    chunk_key
}
