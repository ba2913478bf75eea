//! The recipient and the identity of one passphrase.

ghost use Rattle.std.specs.Prelude.{◌≡◌, IfOk, IfErr};
ghost use Rattle.age_recipient.specs.PassphraseHolders.{IsPassError, PairFits};
ghost use Rattle.age_recipient.specs.Salt.{IsSalt};

use super::recipient::{PassError, PassIdentity, PassRecipient};
use super::work::MAX_WORK_FACTOR;
use crate::identity::Identity;
use crate::matched::Matched;
use crate::recipient::Recipient;
use std::alloc::Global;

/// A recipient and an identity of one passphrase. The identity unwraps what the recipient wraps.
#[derive(Drop)]
pub struct PassPair {
    recipient: PassRecipient,
    identity: PassIdentity,
    ghost one_passphrase: { recipient.pass ≡ identity.pass },
    ghost work: { PairFits recipient.work identity.max },
    ghost salt: { IsSalt recipient.salt },
}

impl PassPair {
    /// Makes the pair of this passphrase, any bytes: a recipient with a salt of 16 bytes
    /// and a work factor, and an identity with a maximum work factor.
    ///
    /// # Errors
    /// `WorkFactor` if `work` or `max` is not 1 to 30, or `work` is above `max`; else `Memory`.
    pub fn new(
        alloc: Global,
        pass: &[u8],
        salt: [u8; 16],
        work: u8,
        max: u8,
    ) -> Result<PassPair, PassError>
        // The work factor is from 1 to the maximum, which is at most 30.
        ensures fits { IfOk result (λ _. PairFits work max) }
        // The recipient has this passphrase, salt and work factor.
        ensures recipient { IfOk result (λ pair. ⟦<PassPair as Matched>⟧.the_recipient pair
            ≡ record { pass = pass.now; salt = salt; work = work }) }
        // The identity has this passphrase and maximum work factor.
        ensures identity { IfOk result (λ pair. ⟦<PassPair as Matched>⟧.the_identity pair
            ≡ record { pass = pass.now; max = max }) }
        // Returns `WorkFactor` exactly if a work factor is not 1 to 30, or `work` is above `max`.
        ensures err { IfErr result (IsPassError (PairFits work max)) }
    {
        if work < 1 || max > MAX_WORK_FACTOR || work > max {
            return Err(PassError::WorkFactor);
        }
        let recipient = PassRecipient::new(alloc, pass, salt, work)?;
        let identity = PassIdentity::new(alloc, pass, max)?;
        Ok(PassPair {
            recipient,
            identity,
        })
    }
}

impl Matched for PassPair {
    type R = PassRecipient;

    type I = PassIdentity;

    ghost use Rattle.age_recipient.specs.Pairing.{pair_law};

    ghost the_recipient = { λ pair. pair.recipient };

    ghost the_identity = { λ pair. pair.identity };

    fn recipient(&self) -> &PassRecipient {
        &self.recipient
    }

    fn identity(&self) -> &PassIdentity {
        &self.identity
    }

    ghost opens = { λ pair file_key stanzas.
        pair_law pair.recipient pair.identity file_key stanzas pair.one_passphrase pair.salt
        pair.work };
}
