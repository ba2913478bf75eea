//! Canonical base64 without padding (RFC 4648, section 4), by the crate `base64` with an alphabet
//! spelled out here.

ghost use Rattle.std.specs.Prelude.{◌≡◌, IfOk, IfSome, IfNone, option_map};
ghost use Rattle.std.specs.String.{string_bytes};
ghost use Rattle.age_kdf.specs.Bytes.{Bytes};
ghost use Rattle.age_header.specs.Base64.{IsBase64, decoded_bytes, base64_of};
ghost use Rattle.age_header.specs.Text.{IsPlain};

use base64::DecodeAllocError;
use base64::alphabet::Alphabet;
use base64::engine::general_purpose::{GeneralPurpose, NO_PAD};
use std::alloc::{AllocError, Global};

// spelled out because the contract of `engine` has to state these characters
const ALPHABET: &str = "ABCDEFGHIJKLMNOPQRSTUVWXYZabcdefghijklmnopqrstuvwxyz0123456789+/";

/// Makes the engine for canonical base64 without padding. The engine holds a table, so make one
/// engine for many lines.
pub fn engine() -> GeneralPurpose
    // The engine has the standard alphabet and no padding, and decodes canonical text only.
    ensures { IsPlain result }
{
    let Ok(alphabet) = Alphabet::new(ALPHABET) else {
        unreachable!();
    };
    GeneralPurpose::new(&alphabet, NO_PAD)
}

/// Returns the bytes whose base64 the characters are, or `None` if there are no such bytes.
pub fn decode(
    alloc: Global,
    engine: &GeneralPurpose,
    text: &[u8],
) -> Result<Option<Vec<u8>>, AllocError>
    requires { IsPlain engine.now }
    // On Ok: the bytes whose base64 the characters are, or `None` if there are no such bytes.
    ensures value { IfOk result (λ o. option_map (λ v. v.items) o ≡ decoded_bytes text.now) }
    // The characters are the base64 of the bytes returned.
    ensures some { IfOk result (λ o. IfSome o (λ v. IsBase64 v.items text.now)) }
    // On `None` the characters are not the base64 of any bytes.
    ensures none { IfOk result (λ o. IfNone o ((b : Bytes) → IsBase64 b text.now → ⊥)) }
{
    match engine.decode(alloc, text) {
        Ok(bytes) => Ok(Some(bytes)),
        Err(DecodeAllocError::DecodeError(_)) => Ok(None),
        Err(DecodeAllocError::OutOfMemory) => Err(AllocError),
    }
}

/// Returns the canonical base64 of these bytes, without padding.
pub fn encode(alloc: Global, engine: &GeneralPurpose, bytes: &[u8]) -> Result<String, AllocError>
    requires { IsPlain engine.now }
    ensures { IfOk result (λ text. string_bytes text ≡ base64_of bytes.now) }
{
    engine.encode(alloc, bytes)
}
