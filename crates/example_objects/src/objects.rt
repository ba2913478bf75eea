//! A recipient and an identity that no other program knows.

use age_file::{FileKey, Identity, Recipient, Stanza, Unwrapped, WrapFault};
use std::alloc::{AllocError, Global};

/// Returns a stanza of a type that no other program knows.
#[derive(Drop)]
pub(crate) struct Plug;

impl Recipient for Plug {
    ghost use Rattle.std.specs.Prelude.{Ok, [], ◌∷◌, codes, replicate};

    ghost wraps = { λ _ _. Ok (record { args = codes "plug" ∷ []; body = replicate 48 0 } ∷ []) };

    fn wrap(&self, alloc: Global, _key: &FileKey) -> Result<Vec<Stanza>, WrapFault> {
        let Ok(stanza) = Stanza::new(alloc, &["plug"], &[0; 48]) else {
            return Err(WrapFault::Memory);
        };
        match vec![in alloc; stanza] {
            Ok(stanzas) => Ok(stanzas),
            Err(_) => Err(WrapFault::Memory),
        }
    }
}

/// Already holds the file key of one file, as an agent might.
#[derive(Drop)]
pub(crate) struct Held {
    pub(crate) key: FileKey,
}

impl Identity for Held {
    ghost use Rattle.age_file.specs.Words.{Key};

    ghost meaning = { λ held _. Key held.key };

    fn unwrap(&self, _alloc: Global, _stanzas: &[Stanza]) -> Result<Unwrapped, AllocError> {
        Ok(Unwrapped::Key(self.key))
    }
}
