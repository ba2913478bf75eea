//! A stanza as a value.

ghost use Rattle.std.specs.Prelude.{◌≡◌, ◌↔◌, ◌++◌, [], map, IfOk, IfErr, OnOk, IsTrue};
ghost use Rattle.std.specs.List.{AllByRecursion};
ghost use Rattle.age_header.specs.Header.{AreArguments, IsVisible};
ghost use Rattle.age_header.specs.Stanza.{IsStanzaError};

use crate::arguments::Arguments;
use std::alloc::{AllocError, Global};
use std::marker::Model;

/// Why a stanza could not be made.
#[derive(Clone, Copy, Debug, Drop, PartialEq, Eq)]
pub enum StanzaError {
    /// There is no argument.
    NoArgs,
    /// The argument of this index, from 0, is empty.
    EmptyArg(usize),
    /// The argument of this index, from 0, has a byte outside 33 to 126.
    BadByte(usize),
    /// An allocation was refused.
    Memory,
}

/// A stanza of a header (C2SP `age.md`, "Recipient stanza"). It has one or more arguments of
/// visible characters, the first of which is its type, and a body of any bytes.
#[derive(Drop)]
pub struct Stanza {
    args: Arguments,
    body: Vec<u8>,
}

impl Model for Stanza {
    ghost use Rattle.age_header.specs.Header.{StanzaParts, AreArguments};
    ghost use Rattle.base64.specs.GeneralPurpose.{IsBytes};

    ghost Value = { StanzaParts };

    ghost view = { λ s. record { args = s.args; body = s.body.items } };

    ghost invariant = { λ s. AreArguments s.args × IsBytes s.body.items };
}

impl Stanza {
    ghost use Rattle.base64.specs.GeneralPurpose.{IsBytes};
    ghost use Rattle.std.specs.String.{string_bytes};

    /// Makes a stanza with copies of these arguments and of this body.
    ///
    /// # Errors
    /// `NoArgs`; `EmptyArg` or `BadByte` of the first bad argument; `Memory` if memory is refused.
    pub fn new(alloc: Global, args: &[&str], body: &[u8]) -> Result<Stanza, StanzaError>
        // The stanza holds the arguments and the body.
        ensures ok { IfOk result (λ s. (s.args ≡ map (λ a. a.now) args.now) × (s.body ≡ body.now)) }
        // The fault is the first fault of the arguments, or `Memory` if they have none.
        ensures err { IfErr result (IsStanzaError (map (λ a. a.now) args.now)) }
    {
        check_arguments(args)?;
        let Ok(args) = Arguments::copied(alloc, args) else {
            return Err(StanzaError::Memory);
        };
        let Ok(body) = Vec::from_slice(alloc, body) else {
            return Err(StanzaError::Memory);
        };
        Ok(Stanza { args, body })
    }

    /// Makes a stanza of these arguments with an empty body.
    pub(crate) fn open(alloc: Global, args: Arguments) -> Stanza
        requires { AreArguments args }
        ensures { result ≡ record { args = args; body = [] } }
    {
        Stanza {
            args,
            body: Vec::new(alloc),
        }
    }

    /// Appends bytes to the body.
    pub(crate) fn extend(&mut self, bytes: &[u8]) -> Result<(), AllocError>
        ensures ok { OnOk result
            (self.new ≡ record { args = self.old.args; body = self.old.body ++ bytes.now }) }
    {
        self.body.extend_from_slice(bytes)
    }

    /// Returns the arguments, in order: one or more, none of them empty, each of bytes 33 to 126.
    pub fn args(&self) -> &[String]
        ensures value { map string_bytes result.now ≡ self.now.args }
        // There are one or more arguments, each of one or more visible characters.
        ensures arguments { AreArguments self.now.args }
    {
        self.args.texts()
    }

    /// Returns the body's bytes.
    pub fn body(&self) -> &[u8]
        ensures value { result.now ≡ self.now.body }
        // Each byte is below 256.
        ensures bytes { IsBytes self.now.body }
    {
        self.body.as_slice()
    }
}

/// Refuses an empty list, or else the first bad argument.
#[tactic(auto, using(crate::proofs::StanzaLemmas::args_take))]
fn check_arguments(args: &[&str]) -> Result<(), StanzaError>
    ensures ok { OnOk result (AreArguments (map (λ a. a.now) args.now)) }
    ensures err { IfErr result (IsStanzaError (map (λ a. a.now) args.now)) }
{
    if args.is_empty() {
        return Err(StanzaError::NoArgs);
    }
    for (i, arg) in args.iter().enumerate() {
        if arg.is_empty() {
            return Err(StanzaError::EmptyArg(i));
        }
        if !is_visible(arg.as_bytes()) {
            return Err(StanzaError::BadByte(i));
        }
    }
    Ok(())
}

/// Whether each byte is from 33 to 126.
fn is_visible(text: &[u8]) -> bool
    ensures { IsTrue result ↔ AllByRecursion IsVisible text.now }
{
    text.iter().all(|b| *b >= 33 && *b <= 126)
}
