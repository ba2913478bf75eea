//! The stanza of a passphrase (C2SP `age.md`, "The scrypt recipient type").

ghost use Rattle.std.specs.Prelude.{◌≡◌, ◌≤◌, ◌++◌, Some, map, length, true, IfOk, IfErr};
ghost use Rattle.std.specs.String.{string_bytes};
ghost use Rattle.age_recipient.specs.Answer.{is_of};
ghost use Rattle.age_recipient.specs.PassphraseStanza.{arguments_answer, is_work_factor};
ghost use Rattle.age_recipient.specs.PassphraseStanza.{number_from, pass_answer, pass_stanza};
ghost use Rattle.age_recipient.specs.PassphraseStanza.{pass_wrap_key, salted_answer, scrypt_type};
ghost use Rattle.age_recipient.specs.PassphraseHolders.{most_work};
ghost use Rattle.age_recipient.specs.Sealing.{sealed_key_size};

use super::work::{is_work_factor, work_at_most};
use crate::sealing::{SEALED_KEY_SIZE, seal_key, unseal_key};
use crate::stanza_list::{after_type, salt_of};
use crate::unwrapped::{StanzaFault, Unwrapped};
use age_header::{FileKey, Stanza, base64_no_pad};
use age_kdf::{ScryptParams, scrypt};
use std::alloc::{AllocError, Global};

const LABEL: &[u8; 28] = b"age-encryption.org/v1/scrypt";

/// The type of a passphrase's stanza, its first argument.
pub const SCRYPT_TYPE: &str = "scrypt";

/// The key under which a passphrase stanza seals the file key.
#[tactic(auto, unfolding(crate::specs::PassphraseStanza::pass_wrap_key))]
fn pass_wrap_key(
    alloc: Global,
    pass: &[u8],
    salt: &[u8; 16],
    work: u8,
) -> Result<[u8; 32], AllocError>
    requires low { 1 ≤ work }
    requires high { work ≤ most_work }
    ensures { IfOk result (λ wrap_key. wrap_key ≡ pass_wrap_key pass.now salt.now work) }
{
    let Some(params) = ScryptParams::new(u32::from(work), 8, 1) else {
        unreachable!();
    };
    let mut wrap_key = [0; 32];
    scrypt(alloc, pass, &labelled(salt), &params, &mut wrap_key)?;
    Ok(wrap_key)
}

/// The salt of scrypt: the label, then the stanza's salt.
fn labelled(salt: &[u8; 16]) -> [u8; 44]
    ensures { result ≡ LABEL.now ++ salt.now }
{
    let mut text = [0; 44];
    let (prefix, back) = text.split_at_mut(LABEL.len());
    prefix.copy_from_slice(LABEL);
    back.copy_from_slice(salt);
    text
}

/// The stanza that wraps this file key.
pub(crate) fn pass_stanza(
    alloc: Global,
    pass: &[u8],
    work: u8,
    salt: &[u8; 16],
    file_key: &FileKey,
) -> Result<Stanza, AllocError>
    requires low { 1 ≤ work }
    requires high { work ≤ most_work }
    ensures { IfOk result (λ stanza. stanza ≡ pass_stanza pass.now work salt.now file_key.now) }
{
    let wrap_key = pass_wrap_key(alloc, pass, salt, work)?;
    let salt_text = base64_no_pad::encode(alloc, &base64_no_pad::engine(), salt)?;
    let work_text = format!(in alloc; "{work}")?;
    let body = seal_key(&wrap_key, file_key);
    // its arguments are visible characters, so the only error is a refused allocation
    let Ok(stanza) = Stanza::new(
        alloc,
        &[SCRYPT_TYPE, salt_text.as_str(), work_text.as_str()],
        &body,
    ) else {
        return Err(AllocError);
    };
    Ok(stanza)
}

/// The answer of one stanza to a passphrase. Its form is checked before scrypt runs.
#[tactic(auto, unfolding(crate::specs::PassphraseStanza::pass_answer))]
pub(crate) fn pass_answer(
    alloc: Global,
    pass: &[u8],
    max: u8,
    stanza: &Stanza,
) -> Result<Unwrapped, AllocError>
    requires { max ≤ most_work }
    ensures answer { IfOk result (λ answer. answer ≡ pass_answer pass.now max stanza.now) }
    ensures memory { IfErr result (λ _. is_of scrypt_type stanza.now ≡ true) }
{
    match after_type(stanza, SCRYPT_TYPE) {
        None => Ok(Unwrapped::NotMine),
        Some(args) => arguments_answer(alloc, pass, max, args, stanza.body()),
    }
}

/// The answer of a passphrase stanza whose arguments after the type are these.
fn arguments_answer(
    alloc: Global,
    pass: &[u8],
    max: u8,
    args: &[String],
    body: &[u8],
) -> Result<Unwrapped, AllocError>
    requires { max ≤ most_work }
    ensures { IfOk result
        (λ answer. answer ≡ arguments_answer pass.now max (map string_bytes args.now) body.now) }
{
    let [salt, work] = args else {
        return Ok(Unwrapped::Malformed(StanzaFault::ArgCount));
    };
    match salt_of(alloc, salt.as_bytes())? {
        None => Ok(Unwrapped::Malformed(StanzaFault::Salt)),
        Some(salt) => salted_answer(alloc, pass, max, work.as_bytes(), body, &salt),
    }
}

/// The answer of a stanza with this salt. Allocates, and runs scrypt, only for a well-formed work
/// factor up to `max` and a body of 32 bytes.
fn salted_answer(
    alloc: Global,
    pass: &[u8],
    max: u8,
    work: &[u8],
    body: &[u8],
    salt: &[u8; 16],
) -> Result<Unwrapped, AllocError>
    requires { max ≤ most_work }
    ensures answer { IfOk result
        (λ answer. answer ≡ salted_answer pass.now max work.now body.now (Some salt.now)) }
    // Returns out of memory only for a well-formed work factor up to `max` and a body of 32 bytes.
    ensures memory { IfErr result (λ _. (is_work_factor work.now ≡ true)
        × (number_from 0 work.now ≤ max) × (length body.now ≡ sealed_key_size)) }
{
    if !is_work_factor(work) {
        return Ok(Unwrapped::Malformed(StanzaFault::WorkFactorText));
    }
    let Some(work) = work_at_most(work, max) else {
        return Ok(Unwrapped::Malformed(StanzaFault::WorkFactorTooHigh));
    };
    if body.len() != SEALED_KEY_SIZE {
        return Ok(Unwrapped::Malformed(StanzaFault::BodyLength));
    }
    Ok(unseal_key(&pass_wrap_key(alloc, pass, salt, work)?, body))
}
