//! The recipient and the identity of a passphrase.

ghost use Rattle.std.specs.Prelude.{◌≡◌, Ok, IfOk, IfErr};
ghost use Rattle.age_recipient.specs.PassphraseHolders.{IsPassError, WorkFits};

use super::stanza::{pass_answer, pass_stanza};
use super::work::MAX_WORK_FACTOR;
use crate::identity::Identity;
use crate::labels::Labels;
use crate::recipient::{Recipient, WrapFault};
use crate::stanza_list::{Opener, first_opened};
use crate::unwrapped::Unwrapped;
use age_header::{FileKey, Stanza};
use std::alloc::{AllocError, Global};
use std::marker::Model;

/// Why a recipient or identity of a passphrase could not be made.
#[derive(Clone, Copy, Debug, Drop, PartialEq, Eq)]
pub enum PassError {
    /// A work factor is not 1 to 30, or a pair's work factor is above the pair's maximum.
    WorkFactor,
    /// An allocation was refused.
    Memory,
}

/// Wraps a file key under a passphrase (C2SP `age.md`, "The scrypt recipient type").
///
/// The salt must be 16 random bytes, fresh for each file. The work factor is the base-2 logarithm
/// of the memory in KiB that wrapping and unwrapping take; 18 is usual, and takes about a second. A
/// passphrase recipient must be the only recipient of its file: otherwise `encrypt` returns
/// `IncompatibleRecipients`.
#[derive(Drop)]
pub struct PassRecipient {
    pass: Vec<u8>,
    salt: [u8; 16],
    work: u8,
}

impl Model for PassRecipient {
    ghost use Rattle.age_recipient.specs.PassphraseHolders.{PassSecret, WorkFits};

    ghost Value = { PassSecret };

    ghost view = { λ r. record { pass = r.pass.items; salt = r.salt; work = r.work } };

    ghost invariant = { λ r. WorkFits r.work };
}

impl PassRecipient {
    /// Makes a recipient of this passphrase, any bytes, with a salt and a work factor, which is the
    /// base-2 logarithm of scrypt's N (RFC 7914, section 2).
    ///
    /// # Errors
    /// `WorkFactor` if `work` is not 1 to 30, else `Memory`.
    pub fn new(
        alloc: Global,
        pass: &[u8],
        salt: [u8; 16],
        work: u8,
    ) -> Result<PassRecipient, PassError>
        // The recipient has these arguments, and the work factor is 1 to 30.
        ensures ok { IfOk result
            (λ r. WorkFits work × (r ≡ record { pass = pass.now; salt = salt; work = work })) }
        // Returns `WorkFactor` exactly if the work factor is not 1 to 30.
        ensures err { IfErr result (IsPassError (WorkFits work)) }
    {
        if work < 1 || work > MAX_WORK_FACTOR {
            return Err(PassError::WorkFactor);
        }
        match Vec::from_slice(alloc, pass) {
            Ok(pass) => Ok(PassRecipient { pass, salt, work }),
            Err(_) => Err(PassError::Memory),
        }
    }
}

impl Recipient for PassRecipient {
    ghost use Rattle.age_recipient.specs.declared.labels.Labels.TheVariants.{Alone};
    ghost use Rattle.age_recipient.specs.PassphraseHolders.{pass_wraps};

    ghost wraps = { λ r file_key. pass_wraps r file_key };

    ghost the_labels = { λ _. Alone };

    fn wrap(&self, alloc: Global, key: &FileKey) -> Result<Vec<Stanza>, WrapFault> {
        let Ok(stanza) = pass_stanza(alloc, self.pass.as_slice(), self.work, &self.salt, key) else {
            return Err(WrapFault::Memory);
        };
        match vec![in alloc; stanza] {
            Ok(stanzas) => Ok(stanzas),
            Err(_) => Err(WrapFault::Memory),
        }
    }

    fn labels(&self, _alloc: Global) -> Result<Labels, AllocError>
        // Always returns `Alone`.
        ensures { result ≡ Ok Labels.Alone }
    {
        Ok(Labels::Alone)
    }
}

/// Unwraps a file key with a passphrase. The first stanza of type `scrypt` that is malformed or
/// that opens decides.
#[derive(Drop)]
pub struct PassIdentity {
    pass: Vec<u8>,
    max: u8,
}

impl Model for PassIdentity {
    ghost use Rattle.age_recipient.specs.PassphraseHolders.{PassGuess, WorkFits};

    ghost Value = { PassGuess };

    ghost view = { λ i. record { pass = i.pass.items; max = i.max } };

    ghost invariant = { λ i. WorkFits i.max };
}

impl PassIdentity {
    /// Makes an identity of this passphrase, any bytes. It accepts work factors of at most `max`.
    ///
    /// # Errors
    /// `WorkFactor` if `max` is not 1 to 30, else `Memory`.
    pub fn new(alloc: Global, pass: &[u8], max: u8) -> Result<PassIdentity, PassError>
        // The identity has these arguments, and the maximum is 1 to 30.
        ensures ok { IfOk result (λ i. WorkFits max × (i ≡ record { pass = pass.now; max = max })) }
        // Returns `WorkFactor` exactly if the maximum is not 1 to 30.
        ensures err { IfErr result (IsPassError (WorkFits max)) }
    {
        if max < 1 || max > MAX_WORK_FACTOR {
            return Err(PassError::WorkFactor);
        }
        match Vec::from_slice(alloc, pass) {
            Ok(pass) => Ok(PassIdentity { pass, max }),
            Err(_) => Err(PassError::Memory),
        }
    }
}

impl Identity for PassIdentity {
    ghost use Rattle.std.specs.List.{list_any};
    ghost use Rattle.age_recipient.specs.Answer.{is_of};
    ghost use Rattle.age_recipient.specs.PassphraseHolders.{pass_unwraps};
    ghost use Rattle.age_recipient.specs.PassphraseStanza.{scrypt_type};

    ghost meaning = { λ i stanzas. pass_unwraps i stanzas };

    // The identity may run out of memory exactly if there is a stanza of type `scrypt`.
    ghost may_run_out = { λ _ stanzas. list_any (is_of scrypt_type) stanzas };

    fn unwrap(&self, alloc: Global, stanzas: &[Stanza]) -> Result<Unwrapped, AllocError> {
        first_opened(alloc, self, stanzas)
    }
}

impl Opener for PassIdentity {
    ghost use Rattle.age_recipient.specs.PassphraseStanza.{pass_answer, scrypt_type};

    ghost gives = { λ i stanza. pass_answer i.pass i.max stanza };

    ghost kind = { λ _. scrypt_type };

    fn open(&self, alloc: Global, stanza: &Stanza) -> Result<Unwrapped, AllocError> {
        pass_answer(alloc, self.pass.as_slice(), self.max, stanza)
    }
}
