//! The state of an HMAC-SHA-256 computation (RFC 2104), which can be copied between two pieces of
//! the text.

ghost use Rattle.std.specs.Prelude.{◌≡◌, ◌≤◌, ◌++◌, [], map, length, drop, bit_xor};
ghost use Rattle.std.specs.List.{flat_map};
ghost use Rattle.age_kdf.specs.Hmac.{hmac, block_key};

use sha2::{Digest, Sha256};

const IPAD: u8 = 0x36;

const OPAD: u8 = 0x5c;

// Writes `bytes` over the start of `block`.
fn put_prefix(block: &mut [u8; 64], bytes: &[u8])
    requires { length bytes.now ≤ 64 }
    ensures { block.new ≡ bytes.now ++ drop (length bytes.now) block.old }
{
    block[..bytes.len()].copy_from_slice(bytes);
}

// The key as one block: hashed if it is longer, then padded with zeros.
#[tactic(auto, using(crate::proofs::HkdfLemmas::zeros_behind))]
fn block_key(key: &[u8]) -> [u8; 64]
    ensures { result ≡ block_key key.now }
{
    let mut block = [0u8; 64];
    if key.len() <= 64 {
        put_prefix(&mut block, key);
    } else {
        put_prefix(&mut block, &Sha256::digest(key));
    }
    block
}

// `block` with each byte XORed with `pad`.
fn xored(block: &[u8; 64], pad: u8) -> [u8; 64]
    ensures { result ≡ map (λ k. bit_xor k pad) block.now }
{
    let mut out = *block;
    'bytes: for i in 0..64 {
        out[i] ^= pad;
    }
    out
}

/// The states of the inner and the outer hash of an HMAC. The inner one takes the text.
#[derive(Clone, Drop)]
pub(crate) struct Mac {
    inner: Sha256,
    outer: Sha256,
}

impl Mac {
    ghost use Rattle.age_kdf.specs.HmacState.{IsFed};
    ghost use Rattle.age_kdf.specs.Bytes.{Bytes};

    /// The state of an HMAC under `key` before any text.
    #[tactic(auto, unfolding(crate::specs::HmacState::IsFed))]
    pub(crate) fn new(key: &[u8]) -> Mac
        ensures { IsFed result key.now [] }
    {
        let block = block_key(key);
        Mac {
            inner: Sha256::new_with_prefix(&xored(&block, IPAD)),
            outer: Sha256::new_with_prefix(&xored(&block, OPAD)),
        }
    }

    /// Copies the state without allocating.
    pub(crate) fn copy(&self) -> Mac
        ensures { result ≡ self.now }
    {
        match self.clone() {
            Ok(copy) => copy,
            Err(_) => unreachable!(),
        }
    }

    /// Feeds `bytes`.
    #[tactic(auto, unfolding(crate::specs::HmacState::IsFed))]
    pub(crate) fn update(&mut self, bytes: &[u8])
        ensures { (key text : Bytes) → IsFed self.old key text
            → IsFed self.new key (text ++ bytes.now) }
    {
        self.inner.update(bytes);
    }

    /// The MAC of the text fed.
    #[tactic(auto, unfolding(crate::specs::HmacState::IsFed, crate::specs::Hmac::hmac))]
    fn finalize(self) -> [u8; 32]
        ensures { (key text : Bytes) → IsFed self key text → result ≡ hmac key text }
    {
        let Mac { inner, mut outer } = self;
        outer.update(&inner.finalize());
        outer.finalize()
    }

    /// The MAC of the text fed so far followed by the parts. The state is unchanged.
    pub(crate) fn tag_with(&self, parts: &[&[u8]]) -> [u8; 32]
        ensures { (key text : Bytes) → IsFed self.now key text
            → result ≡ hmac key (text ++ flat_map (λ p. p.now) parts.now) }
    {
        let mut mac = self.copy();
        'parts: for part in parts {
            mac.update(part);
        }
        mac.finalize()
    }
}
