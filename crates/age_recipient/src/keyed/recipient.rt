//! The recipient and the identity of a key of 32 bytes.

ghost use Rattle.std.specs.Prelude.{◌≡◌};

use super::stanza::{keyed_answer, keyed_stanza};
use crate::identity::Identity;
use crate::recipient::{Recipient, WrapFault};
use crate::stanza_list::{Opener, first_opened};
use crate::unwrapped::Unwrapped;
use age_header::{FileKey, Stanza};
use std::alloc::{AllocError, Global};
use std::marker::Model;

/// Wraps a file key under a key of 32 bytes, in a stanza of this project's own type. The salt must
/// be 16 random bytes, fresh for each file.
#[derive(Drop)]
pub struct KeyRecipient {
    key: [u8; 32],
    salt: [u8; 16],
}

impl Model for KeyRecipient {
    ghost use Rattle.age_recipient.specs.KeyedHolders.{KeySecret};

    ghost Value = { KeySecret };

    ghost view = { λ r. record { key = r.key; salt = r.salt } };
}

impl KeyRecipient {
    /// Makes a recipient of this key, with this salt.
    pub fn new(key: [u8; 32], salt: [u8; 16]) -> KeyRecipient
        ensures { result ≡ record { key = key; salt = salt } }
    {
        KeyRecipient { key, salt }
    }
}

impl Recipient for KeyRecipient {
    ghost use Rattle.age_recipient.specs.KeyedHolders.{key_wraps};

    ghost wraps = { λ r file_key. key_wraps r file_key };

    fn wrap(&self, alloc: Global, key: &FileKey) -> Result<Vec<Stanza>, WrapFault> {
        let Ok(stanza) = keyed_stanza(alloc, &self.key, &self.salt, key) else {
            return Err(WrapFault::Memory);
        };
        match vec![in alloc; stanza] {
            Ok(stanzas) => Ok(stanzas),
            Err(_) => Err(WrapFault::Memory),
        }
    }
}

/// Unwraps a file key with a key of 32 bytes. The first stanza of type `example.org/key` that is
/// malformed or that opens decides.
#[derive(Drop)]
pub struct KeyIdentity {
    key: [u8; 32],
}

impl Model for KeyIdentity {
    ghost use Rattle.std.specs.Prelude.{List, ℕ};
    ghost use Rattle.age_header.specs.Device.{Bytes};

    ghost Value = { Bytes };

    ghost view = { λ i. i.key };
}

impl KeyIdentity {
    /// Makes an identity of this key.
    pub fn new(key: [u8; 32]) -> KeyIdentity
        ensures { result ≡ key }
    {
        KeyIdentity { key }
    }
}

impl Identity for KeyIdentity {
    ghost use Rattle.std.specs.List.{list_any};
    ghost use Rattle.age_recipient.specs.Answer.{is_of};
    ghost use Rattle.age_recipient.specs.KeyedHolders.{key_unwraps};
    ghost use Rattle.age_recipient.specs.KeyedStanza.{keyed_type};

    ghost meaning = { λ key stanzas. key_unwraps key stanzas };

    // The identity may run out of memory exactly if there is a stanza of type `example.org/key`.
    ghost may_run_out = { λ _ stanzas. list_any (is_of keyed_type) stanzas };

    fn unwrap(&self, alloc: Global, stanzas: &[Stanza]) -> Result<Unwrapped, AllocError> {
        first_opened(alloc, self, stanzas)
    }
}

impl Opener for KeyIdentity {
    ghost use Rattle.age_recipient.specs.KeyedStanza.{keyed_answer, keyed_type};

    ghost gives = { λ key stanza. keyed_answer key stanza };

    ghost kind = { λ _. keyed_type };

    fn open(&self, alloc: Global, stanza: &Stanza) -> Result<Unwrapped, AllocError> {
        keyed_answer(alloc, &self.key, stanza)
    }
}
