//! The recipient and the identity of one key of 32 bytes.

ghost use Rattle.std.specs.Prelude.{◌≡◌};
ghost use Rattle.age_recipient.specs.Salt.{IsSalt};

use super::recipient::{KeyIdentity, KeyRecipient};
use crate::matched::Matched;

/// A recipient and an identity of one key. The identity unwraps what the recipient wraps.
#[derive(Drop)]
pub struct KeyPair {
    recipient: KeyRecipient,
    identity: KeyIdentity,
    ghost one_key: { recipient.key ≡ identity },
    ghost salt: { IsSalt recipient.salt },
}

impl KeyPair {
    /// Makes the pair of this key: a recipient with a salt of 16 bytes, and an identity.
    pub fn new(key: [u8; 32], salt: [u8; 16]) -> KeyPair
        // The recipient has this key and this salt.
        ensures recipient { ⟦<KeyPair as Matched>⟧.the_recipient result
            ≡ record { key = key; salt = salt } }
        // The identity has this key.
        ensures identity { ⟦<KeyPair as Matched>⟧.the_identity result ≡ key }
    {
        KeyPair {
            recipient: KeyRecipient::new(key, salt),
            identity: KeyIdentity::new(key),
        }
    }
}

impl Matched for KeyPair {
    type R = KeyRecipient;

    type I = KeyIdentity;

    ghost use Rattle.age_recipient.specs.Pairing.{key_pair_law};

    ghost the_recipient = { λ pair. pair.recipient };

    ghost the_identity = { λ pair. pair.identity };

    fn recipient(&self) -> &KeyRecipient {
        &self.recipient
    }

    fn identity(&self) -> &KeyIdentity {
        &self.identity
    }

    ghost opens = { λ pair file_key stanzas.
        key_pair_law pair.recipient pair.identity file_key stanzas pair.one_key pair.salt };
}
