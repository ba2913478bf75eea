//! Keyed stanzas, this project's own type: they wrap a file key under a key of 32 bytes.

ghost use Rattle.std.specs.Prelude.{◌≡◌, Some, map, true, IfOk, IfErr};
ghost use Rattle.std.specs.String.{string_bytes};
ghost use Rattle.age_recipient.specs.Answer.{is_of};
ghost use Rattle.age_recipient.specs.KeyedStanza.{arguments_answer, keyed_answer, keyed_stanza};
ghost use Rattle.age_recipient.specs.KeyedStanza.{keyed_type, keyed_wrap_key, salted_answer};

use crate::sealing::{SEALED_KEY_SIZE, seal_key, unseal_key};
use crate::stanza_list::{after_type, salt_of};
use crate::unwrapped::{StanzaFault, Unwrapped};
use age_header::{FileKey, Stanza, base64_no_pad};
use age_kdf::hkdf;
use std::alloc::{AllocError, Global};

/// The type of a key's stanza, its first argument.
pub const KEYED_TYPE: &str = "example.org/key";

/// The key under which a keyed stanza seals the file key.
#[tactic(auto, unfolding(crate::specs::KeyedStanza::keyed_wrap_key))]
fn keyed_wrap_key(key: &[u8; 32], salt: &[u8; 16]) -> [u8; 32]
    ensures { result ≡ keyed_wrap_key key.now salt.now }
{
    let mut wrap_key = [0; 32];
    hkdf(key, salt, KEYED_TYPE.as_bytes(), &mut wrap_key);
    wrap_key
}

/// The stanza that wraps this file key.
pub(crate) fn keyed_stanza(
    alloc: Global,
    key: &[u8; 32],
    salt: &[u8; 16],
    file_key: &FileKey,
) -> Result<Stanza, AllocError>
    ensures { IfOk result (λ stanza. stanza ≡ keyed_stanza key.now salt.now file_key.now) }
{
    let salt_text = base64_no_pad::encode(alloc, &base64_no_pad::engine(), salt)?;
    let body = seal_key(&keyed_wrap_key(key, salt), file_key);
    // its arguments are visible characters, so the only error is a refused allocation
    let Ok(stanza) = Stanza::new(alloc, &[KEYED_TYPE, salt_text.as_str()], &body) else {
        return Err(AllocError);
    };
    Ok(stanza)
}

/// The answer of one stanza to a key.
#[tactic(auto, unfolding(crate::specs::KeyedStanza::keyed_answer))]
pub(crate) fn keyed_answer(
    alloc: Global,
    key: &[u8; 32],
    stanza: &Stanza,
) -> Result<Unwrapped, AllocError>
    ensures answer { IfOk result (λ answer. answer ≡ keyed_answer key.now stanza.now) }
    ensures memory { IfErr result (λ _. is_of keyed_type stanza.now ≡ true) }
{
    match after_type(stanza, KEYED_TYPE) {
        None => Ok(Unwrapped::NotMine),
        Some(args) => arguments_answer(alloc, key, args, stanza.body()),
    }
}

/// The answer of a keyed stanza whose arguments after the type are these.
fn arguments_answer(
    alloc: Global,
    key: &[u8; 32],
    args: &[String],
    body: &[u8],
) -> Result<Unwrapped, AllocError>
    ensures { IfOk result
        (λ answer. answer ≡ arguments_answer key.now (map string_bytes args.now) body.now) }
{
    let [salt] = args else {
        return Ok(Unwrapped::Malformed(StanzaFault::ArgCount));
    };
    match salt_of(alloc, salt.as_bytes())? {
        None => Ok(Unwrapped::Malformed(StanzaFault::Salt)),
        Some(salt) => Ok(salted_answer(key, body, &salt)),
    }
}

/// The answer of a stanza with this salt.
fn salted_answer(key: &[u8; 32], body: &[u8], salt: &[u8; 16]) -> Unwrapped
    ensures { result ≡ salted_answer key.now body.now (Some salt.now) }
{
    if body.len() != SEALED_KEY_SIZE {
        return Unwrapped::Malformed(StanzaFault::BodyLength);
    }
    unseal_key(&keyed_wrap_key(key, salt), body)
}
