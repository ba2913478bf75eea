//! The loop of an identity over a header's stanzas, and the reading of a stanza's type and salt.

ghost use Rattle.std.specs.Prelude.{◌≡◌, map, option_map, true, IfOk, IfErr};
ghost use Rattle.std.specs.List.{list_any};
ghost use Rattle.std.specs.String.{string_bytes};
ghost use Rattle.age_header.specs.Base64.{decoded_bytes};
ghost use Rattle.age_recipient.specs.Answer.{after_type, decision, is_of};
ghost use Rattle.age_recipient.specs.Salt.{salt_of};

use crate::unwrapped::Unwrapped;
use age_header::{Stanza, base64_no_pad};
use std::alloc::{AllocError, Global};
use std::convert::TryFrom;

/// An identity that examines one stanza at a time.
pub(crate) trait Opener {
    ghost use Rattle.std.specs.Prelude.{◌≡◌, true, IfOk, IfErr};
    ghost use Rattle.age_kdf.specs.Bytes.{Bytes};
    ghost use Rattle.age_header.specs.Header.{StanzaParts};
    ghost use Rattle.age_recipient.specs.Answer.{is_of};
    ghost use Rattle.age_recipient.specs.declared.unwrapped.Unwrapped.{Unwrapped};

    // The answer of one stanza.
    ghost gives: { Self → StanzaParts → Unwrapped };

    // The type of stanzas that it opens.
    ghost kind: { Self → Bytes };

    fn open(&self, alloc: Global, stanza: &Stanza) -> Result<Unwrapped, AllocError>
        ensures answer { IfOk result (λ answer. answer ≡ gives self.now stanza.now) }
        ensures memory { IfErr result (λ _. is_of (kind self.now) stanza.now ≡ true) };
}

/// Returns the decision of these stanzas' answers. Stanzas after one that decides are not examined.
#[tactic(auto, using(crate::proofs::AnswerLemmas::first_opened))]
pub(crate) fn first_opened<O: Opener>(
    alloc: Global,
    opener: &O,
    stanzas: &[Stanza],
) -> Result<Unwrapped, AllocError>
    ensures answer { IfOk result
        (λ answer. answer ≡ decision (map (O.gives opener.now) stanzas.now)) }
    ensures memory { IfErr result
        (λ _. list_any (is_of (O.kind opener.now)) stanzas.now ≡ true) }
{
    let mut so_far = Unwrapped::NotMine;
    for stanza in stanzas {
        match so_far.followed_by(opener.open(alloc, stanza)?) {
            Ok(next) => so_far = next,
            Err(decision) => return Ok(decision),
        }
    }
    Ok(so_far)
}

/// The arguments after the type, if the stanza is of this type.
pub(crate) fn after_type<'a>(stanza: &'a Stanza, kind: &str) -> Option<&'a [String]>
    ensures { option_map (λ args. map string_bytes args.now) result
        ≡ after_type kind.now stanza.now.args }
{
    let Some((first, rest)) = stanza.args().split_first() else {
        return None;
    };
    if first.as_str() != kind {
        return None;
    }
    Some(rest)
}

/// Decodes a salt. Returns `None` if the text is not the base64 of 16 bytes.
pub(crate) fn salt_of(alloc: Global, text: &[u8]) -> Result<Option<[u8; 16]>, AllocError>
    ensures { IfOk result (λ salt. salt ≡ salt_of (decoded_bytes text.now)) }
{
    let Some(bytes) = base64_no_pad::decode(alloc, &base64_no_pad::engine(), text)? else {
        return Ok(None);
    };
    match <[u8; 16]>::try_from(bytes.as_slice()) {
        Ok(salt) => Ok(Some(salt)),
        Err(_) => Ok(None),
    }
}
