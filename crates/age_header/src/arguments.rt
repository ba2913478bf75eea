//! The arguments of a stanza, and their line.

ghost use Rattle.std.specs.Prelude.{◌≡◌, ◌≢◌, ◌≤◌, ◌++◌};
ghost use Rattle.std.specs.Prelude.{map, length, take, drop, IfOk, MatchOption};
ghost use Rattle.std.specs.List.{AllByRecursion};
ghost use Rattle.std.specs.String.{string_bytes};
ghost use Rattle.age_kdf.specs.Bytes.{Bytes};
ghost use Rattle.age_header.specs.Header.{IsVisible};
ghost use Rattle.age_header.specs.Arguments.{NoVisible};

use std::alloc::{AllocError, Global};
use std::marker::Model;

/// The arguments of a stanza.
#[derive(Drop)]
pub(crate) struct Arguments {
    texts: Vec<String>,
}

impl Model for Arguments {
    ghost use Rattle.std.specs.Prelude.{List, ℕ, map};
    ghost use Rattle.age_kdf.specs.Bytes.{Bytes};
    ghost use Rattle.std.specs.String.{string_bytes};

    ghost Value = { List Bytes };

    ghost view = { λ a. map string_bytes a.texts.items };
}

impl Arguments {
    ghost use Rattle.std.specs.Prelude.{List, ℕ, IfSome, IfNone, ◌≡◌};
    ghost use Rattle.age_header.specs.Header.{AreArguments, argument_line, line};
    ghost use Rattle.age_header.specs.Device.{Bytes};

    /// Copies these texts.
    #[tactic(auto, using(crate::proofs::StanzaLemmas::copies_take))]
    pub(crate) fn copied(alloc: Global, texts: &[&str]) -> Result<Arguments, AllocError>
        ensures { IfOk result (λ args. args ≡ map (λ t. t.now) texts.now) }
    {
        let mut copies = Vec::with_capacity(alloc, texts.len())?;
        for text in texts {
            let copy = String::from_str(alloc, text)?;
            copies.push(copy)?;
        }
        Ok(Arguments { texts: copies })
    }

    /// Parses an argument line, without its LF.
    #[tactic(auto, using(crate::proofs::ArgumentsLemmas::parse_steps))]
    pub(crate) fn parse(alloc: Global, text: &[u8]) -> Result<Option<Arguments>, AllocError>
        ensures some { IfOk result
            (λ o. IfSome o (λ args. AreArguments args × (line text.now ≡ argument_line args))) }
        ensures none { IfOk result (λ o. IfNone o
            ((args : List Bytes) → AreArguments args → line text.now ≡ argument_line args → ⊥)) }
    {
        let Some(mut rest) = strip_prefix(text, b"->") else {
            return Ok(None);
        };
        let spaces = rest.iter().filter(|byte| **byte == b' ').count();
        let mut texts = Vec::with_capacity(alloc, spaces)?;
        while !rest.is_empty() {
            let Some(tail) = strip_prefix(rest, b" ") else {
                return Ok(None);
            };
            let len = visible_len(tail);
            if len == 0 {
                return Ok(None);
            }
            let (arg, after) = tail.split_at(len);
            texts.push(visible_string(alloc, arg)?)?;
            rest = after;
        }
        if texts.is_empty() {
            return Ok(None);
        }
        Ok(Some(Arguments { texts }))
    }

    /// The texts, in order.
    pub(crate) fn texts(&self) -> &[String]
        ensures { map string_bytes result.now ≡ self.now }
    {
        self.texts.as_slice()
    }
}

/// The rest of the text after this prefix, or `None` if the text does not begin with the prefix.
pub(crate) fn strip_prefix<'a>(text: &'a [u8], prefix: &[u8]) -> Option<&'a [u8]>
    ensures { MatchOption result ((x : Bytes) → text.now ≢ prefix.now ++ x)
        (λ x. text.now ≡ prefix.now ++ x.now) }
{
    text.strip_prefix(prefix)
}

/// The number of visible characters (bytes 33 to 126) at the start of the text.
pub(crate) fn visible_len(text: &[u8]) -> usize
    ensures bound { result ≤ length text.now }
    ensures prefix { AllByRecursion IsVisible (take result text.now) }
    ensures rest { NoVisible (drop result text.now) }
{
    for (i, byte) in text.iter().enumerate() {
        if *byte < 33 || *byte > 126 {
            return i;
        }
    }
    text.len()
}

/// The string of these visible characters.
fn visible_string(alloc: Global, text: &[u8]) -> Result<String, AllocError>
    requires { AllByRecursion IsVisible text.now }
    ensures { IfOk result (λ s. string_bytes s ≡ text.now) }
{
    match String::from_utf8(Vec::from_slice(alloc, text)?) {
        Ok(string) => Ok(string),
        Err(_) => unreachable!(),
    }
}
