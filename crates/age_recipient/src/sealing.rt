//! The file key within a stanza's body (C2SP `age.md`, "The scrypt recipient type").

ghost use Rattle.std.specs.Prelude.{◌≡◌, length};
ghost use Rattle.age_recipient.specs.Sealing.{sealed_key, unsealed_key, sealed_key_size};

use crate::unwrapped::Unwrapped;
use age_cipher::{open_in_place, seal_in_place};
use age_header::FileKey;

/// The length of a body that holds a file key: the file key and its tag.
pub(crate) const SEALED_KEY_SIZE: usize = FILE_KEY_SIZE + 16;

const FILE_KEY_SIZE: usize = 16;

/// The nonce is constant because a wrap key seals only one file key.
const NONCE: [u8; 12] = [0; 12];

/// The body that holds this file key: 16 bytes of ciphertext and the tag.
pub(crate) fn seal_key(wrap_key: &[u8; 32], file_key: &FileKey) -> [u8; SEALED_KEY_SIZE]
    ensures { result ≡ sealed_key wrap_key.now file_key.now }
{
    let mut text = file_key.0;
    let tag = seal_in_place(wrap_key, &NONCE, b"", &mut text);
    let mut body = [0; SEALED_KEY_SIZE];
    let (prefix, back) = body.split_at_mut(FILE_KEY_SIZE);
    prefix.copy_from_slice(&text);
    back.copy_from_slice(&tag);
    body
}

/// Opens a body of 32 bytes under this wrap key.
#[tactic(auto, unfolding(crate::specs::Sealing::unsealed_key))]
pub(crate) fn unseal_key(wrap_key: &[u8; 32], body: &[u8]) -> Unwrapped
    requires { length body.now ≡ sealed_key_size }
    ensures { result ≡ unsealed_key wrap_key.now body.now }
{
    let (prefix, back) = body.split_at(FILE_KEY_SIZE);
    let mut key = [0; FILE_KEY_SIZE];
    key.copy_from_slice(prefix);
    let mut tag = [0; 16];
    tag.copy_from_slice(back);
    if open_in_place(wrap_key, &NONCE, b"", &mut key, &tag) {
        return Unwrapped::Key(FileKey(key));
    }
    Unwrapped::Failed
}
