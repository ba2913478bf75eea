//! The recipient of a secret.
ghost use Rattle.std.specs.Prelude.{◌≡◌, Ok, map, IfOk, box_value};
ghost use Rattle.age_recipient.specs.KeyedStanza.{keyed_stanza};
ghost use Rattle.age_recipient.specs.Wrap.{WrapsAs};
ghost use Rattle.age_job.specs.Job.{IsInRange};
ghost use Rattle.age_commands.specs.Secret.{recipient_of};

use age_file::{
    FileKey, KeyRecipient, LabelSet, Labels, PassError, PassRecipient, Recipient, Stanza, WrapFault,
};
use age_job::{Job, Secret};
use std::alloc::{AllocError, Global};

/// The recipient for a secret: its first passphrase, or its keys in order. The keys can share one
/// salt, because different keys make different wrap keys. It is one object because a function that
/// returns a list of boxes that it made cannot be proved.
#[derive(Drop)]
pub(crate) enum SecretRecipient {
    Passphrase(PassRecipient),
    /// The keys and their salt.
    Keys(Vec<[u8; 32]>, [u8; 16]),
}

impl SecretRecipient {
    /// The recipient of this secret, with this salt, in a box. A passphrase has the job's work
    /// factor.
    pub(crate) fn boxed(
        alloc: Global,
        job: &Job,
        secret: Secret,
        salt: [u8; 16],
    ) -> Result<Box<SecretRecipient>, AllocError>
        requires { IsInRange job.now }
        ensures { IfOk result
            (λ recipient. box_value recipient ≡ recipient_of secret job.now.work salt) }
    {
        match secret {
            Secret::Passphrase(passphrase, _) => {
                match PassRecipient::new(alloc, passphrase.as_slice(), salt, job.work) {
                    Ok(recipient) => Ok(Box::new(alloc, SecretRecipient::Passphrase(recipient))?),
                    Err(PassError::WorkFactor) => unreachable!(),
                    Err(PassError::Memory) => Err(AllocError),
                }
            }
            Secret::Keys(keys) => Ok(Box::new(alloc, SecretRecipient::Keys(keys, salt))?),
        }
    }
}

impl Recipient for SecretRecipient {
    ghost use Rattle.age_commands.specs.Secret.{labels_of, wraps_of};

    ghost wraps = { λ recipient file_key. wraps_of recipient file_key };

    ghost the_labels = { λ recipient. labels_of recipient };

    fn wrap(&self, alloc: Global, key: &FileKey) -> Result<Vec<Stanza>, WrapFault> {
        match self {
            SecretRecipient::Passphrase(recipient) => recipient.wrap(alloc, key),
            SecretRecipient::Keys(keys, salt) => wrap_for_keys(alloc, keys.as_slice(), *salt, key),
        }
    }

    fn labels(&self, alloc: Global) -> Result<Labels, AllocError> {
        match self {
            SecretRecipient::Passphrase(recipient) => recipient.labels(alloc),
            SecretRecipient::Keys(_, _) => Ok(Labels::Names(LabelSet::new(alloc, &[])?)),
        }
    }
}

/// The stanzas of these keys, one each.
fn wrap_for_keys(
    alloc: Global,
    keys: &[[u8; 32]],
    salt: [u8; 16],
    file_key: &FileKey,
) -> Result<Vec<Stanza>, WrapFault>
    ensures { WrapsAs (Ok (map (λ key. keyed_stanza key salt file_key.now) keys.now)) result }
{
    let mut stanzas = Vec::new(alloc);
    for key in keys {
        let mut one = KeyRecipient::new(*key, salt).wrap(alloc, file_key)?;
        if stanzas.append(&mut one).is_err() {
            return Err(WrapFault::Memory);
        }
    }
    Ok(stanzas)
}
