//! Recipients and identities of a caller.

use age_header::Stanza;
use age_recipient::{FileKey, Identity, Labels, Recipient, Unwrapped, WrapFault};
use std::alloc::{AllocError, Global};
use std::cell::Cell;
use std::rc::Rc;

/// Returns a stanza of a type that no identity knows.
#[derive(Drop)]
pub(super) struct ForeignRecipient;

impl Recipient for ForeignRecipient {
    ghost use Rattle.std.specs.Prelude.{Ok, [], ◌∷◌, codes, replicate};

    ghost wraps = { λ _ _. Ok (record { args = codes "plug" ∷ []; body = replicate 48 0 } ∷ []) };

    fn wrap(&self, alloc: Global, _key: &FileKey) -> Result<Vec<Stanza>, WrapFault> {
        let Ok(stanza) = Stanza::new(alloc, &["plug"], &[0; 48]) else {
            return Err(WrapFault::Memory);
        };
        match vec![in alloc; stanza] {
            Ok(stanzas) => Ok(stanzas),
            Err(_) => Err(WrapFault::Memory),
        }
    }
}

/// Returns a stanza with this text as its one argument, to give a header a certain length.
#[derive(Drop)]
pub(super) struct LongRecipient {
    pub(super) text: String,
}

impl Recipient for LongRecipient {
    ghost use Rattle.std.specs.Prelude.{Ok, [], ◌∷◌};
    ghost use Rattle.std.specs.String.{string_bytes};

    ghost wraps = { λ long _. Ok (record { args = string_bytes long.text ∷ []; body = [] } ∷ []) };

    fn wrap(&self, alloc: Global, _key: &FileKey) -> Result<Vec<Stanza>, WrapFault> {
        let Ok(stanza) = Stanza::new(alloc, &[self.text.as_str()], &[]) else {
            return Err(WrapFault::Memory);
        };
        match vec![in alloc; stanza] {
            Ok(stanzas) => Ok(stanzas),
            Err(_) => Err(WrapFault::Memory),
        }
    }
}

/// Returns no stanza, but refuses with a number. Its labels say that it must be alone.
#[derive(Drop)]
pub(super) struct RefusingRecipient {
    pub(super) code: u32,
}

impl Recipient for RefusingRecipient {
    ghost use Rattle.std.specs.Prelude.{Err};
    ghost use Rattle.age_recipient.specs.declared.labels.Labels.TheVariants.{Alone};

    ghost wraps = { λ refuses _. Err refuses.code };

    ghost the_labels = { λ _. Alone };

    fn wrap(&self, _alloc: Global, _key: &FileKey) -> Result<Vec<Stanza>, WrapFault> {
        Err(WrapFault::Refused(self.code))
    }

    fn labels(&self, _alloc: Global) -> Result<Labels, AllocError> {
        Ok(Labels::Alone)
    }
}

/// Returns a stanza, and has these labels.
#[derive(Drop)]
pub(super) struct LabelledRecipient {
    pub(super) labels: Labels,
}

impl Recipient for LabelledRecipient {
    ghost use Rattle.std.specs.Prelude.{Ok, [], ◌∷◌, codes};

    ghost wraps = { λ _ _. Ok (record { args = codes "x" ∷ []; body = [] } ∷ []) };

    ghost the_labels = { λ labelled. labelled.labels };

    fn wrap(&self, alloc: Global, _key: &FileKey) -> Result<Vec<Stanza>, WrapFault> {
        let Ok(stanza) = Stanza::new(alloc, &["x"], &[]) else {
            return Err(WrapFault::Memory);
        };
        match vec![in alloc; stanza] {
            Ok(stanzas) => Ok(stanzas),
            Err(_) => Err(WrapFault::Memory),
        }
    }

    fn labels(&self, _alloc: Global) -> Result<Labels, AllocError> {
        Ok(self.labels.clone()?)
    }
}

/// Returns the same result for any stanzas, like an agent that already holds a file key.
#[derive(Drop)]
pub(super) struct FixedIdentity {
    pub(super) answer: Unwrapped,
}

impl Identity for FixedIdentity {
    ghost meaning = { λ makes _. makes.answer };

    fn unwrap(&self, _alloc: Global, _stanzas: &[Stanza]) -> Result<Unwrapped, AllocError> {
        Ok(self.answer)
    }
}

/// Counts its calls, and always runs out of memory.
#[derive(Drop)]
pub(super) struct OutOfMemoryIdentity {
    pub(super) asked: Rc<Cell<u32>>,
}

impl Identity for OutOfMemoryIdentity {
    ghost use Rattle.age_recipient.specs.declared.unwrapped.Unwrapped.TheVariants.{NotMine};

    ghost meaning = { λ _ _. NotMine };

    fn unwrap(&self, alloc: Global, _stanzas: &[Stanza]) -> Result<Unwrapped, AllocError> {
        self.asked.set(self.asked.get().saturating_add(1));
        let _: Vec<u8> = Vec::with_capacity(alloc, usize::MAX)?;
        Ok(Unwrapped::NotMine)
    }
}

/// Returns no stanza, and does not refuse.
#[derive(Drop)]
pub(super) struct NoStanza;

impl Recipient for NoStanza {
    ghost use Rattle.std.specs.Prelude.{Ok, []};

    ghost wraps = { λ _ _. Ok [] };

    fn wrap(&self, alloc: Global, _key: &FileKey) -> Result<Vec<Stanza>, WrapFault> {
        Ok(Vec::new(alloc))
    }
}

/// Returns a stanza of another type, and then one of the passphrase type.
#[derive(Drop)]
pub(super) struct ScryptBesideAnother;

impl Recipient for ScryptBesideAnother {
    ghost use Rattle.std.specs.Prelude.{Ok, [], ◌∷◌, codes};

    ghost wraps = { λ _ _. Ok (record { args = codes "x" ∷ []; body = [] }
        ∷ record { args = codes "scrypt" ∷ []; body = [] } ∷ []) };

    fn wrap(&self, alloc: Global, _key: &FileKey) -> Result<Vec<Stanza>, WrapFault> {
        let Ok(other) = Stanza::new(alloc, &["x"], &[]) else {
            return Err(WrapFault::Memory);
        };
        let Ok(passphrase) = Stanza::new(alloc, &["scrypt"], &[]) else {
            return Err(WrapFault::Memory);
        };
        match vec![in alloc; other, passphrase] {
            Ok(stanzas) => Ok(stanzas),
            Err(_) => Err(WrapFault::Memory),
        }
    }
}
