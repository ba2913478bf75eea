//! The identity of a secret.
ghost use Rattle.std.specs.Prelude.{◌≡◌, ◌∷◌, [], true, IfOk, IfErr, box_value};
ghost use Rattle.std.specs.List.{list_any};
ghost use Rattle.age_job.specs.Job.{IsInRange};
ghost use Rattle.age_recipient.specs.Answer.{is_of};
ghost use Rattle.age_recipient.specs.KeyedStanza.{keyed_type};
ghost use Rattle.age_recipient.specs.PassphraseStanza.{scrypt_type};
ghost use Rattle.age_commands.specs.Secret.{answers_of, guesses_of, keys_unwrap, passes_unwrap};
ghost use Rattle.age_commands.specs.Secret.{unwraps_of};

use age_file::{Identity, KeyIdentity, PassError, PassIdentity, Stanza, Unwrapped};
use age_job::{Job, Secret};
use std::alloc::{AllocError, Global};

/// The identity for a secret: the identities of its passphrases or of its keys, called in order.
#[derive(Drop)]
pub(crate) enum SecretIdentity {
    Passphrases(Vec<PassIdentity>),
    Keys(Vec<[u8; 32]>),
}

impl SecretIdentity {
    /// The identity of this secret, in a box. Passphrases have the job's maximum work factor.
    pub(crate) fn boxed(
        alloc: Global,
        job: &Job,
        secret: Secret,
    ) -> Result<Box<SecretIdentity>, AllocError>
        requires { IsInRange job.now }
        ensures { IfOk result (λ identity. (λ stanzas. unwraps_of (box_value identity) stanzas ∷ [])
            ≡ answers_of secret job.now.max_work) }
    {
        match secret {
            Secret::Passphrase(first, others) => {
                let identities = pass_identities(alloc, job, first.as_slice(), others.as_slice())?;
                Ok(Box::new(alloc, SecretIdentity::Passphrases(identities))?)
            }
            Secret::Keys(keys) => Ok(Box::new(alloc, SecretIdentity::Keys(keys))?),
        }
    }
}

impl Identity for SecretIdentity {
    ghost use Rattle.age_commands.specs.Secret.{has_own, unwraps_of};

    ghost meaning = { λ identity stanzas. unwraps_of identity stanzas };

    ghost may_run_out = { λ identity stanzas. has_own identity stanzas };

    fn unwrap(&self, alloc: Global, stanzas: &[Stanza]) -> Result<Unwrapped, AllocError> {
        match self {
            SecretIdentity::Passphrases(identities) => {
                unwrap_by_passphrases(alloc, identities.as_slice(), stanzas)
            }
            SecretIdentity::Keys(keys) => unwrap_by_keys(alloc, keys.as_slice(), stanzas),
        }
    }
}

/// The identities of these passphrases.
fn pass_identities(
    alloc: Global,
    job: &Job,
    first: &[u8],
    others: &[Vec<u8>],
) -> Result<Vec<PassIdentity>, AllocError>
    requires { IsInRange job.now }
    ensures { IfOk result
        (λ identities. identities.items ≡ guesses_of first.now others.now job.now.max_work) }
{
    let mut identities = vec![in alloc; pass_identity(alloc, job, first)?]?;
    for other in others {
        identities.push(pass_identity(alloc, job, other.as_slice())?)?;
    }
    Ok(identities)
}

fn pass_identity(alloc: Global, job: &Job, passphrase: &[u8]) -> Result<PassIdentity, AllocError>
    requires { IsInRange job.now }
    ensures { IfOk result
        (λ identity. identity ≡ record { pass = passphrase.now; max = job.now.max_work }) }
{
    match PassIdentity::new(alloc, passphrase, job.max_work) {
        Ok(identity) => Ok(identity),
        Err(PassError::WorkFactor) => unreachable!(),
        Err(PassError::Memory) => Err(AllocError),
    }
}

/// The first answer of these passphrases that decides; if none does, `Failed` or `NotMine`.
fn unwrap_by_passphrases(
    alloc: Global,
    identities: &[PassIdentity],
    stanzas: &[Stanza],
) -> Result<Unwrapped, AllocError>
    ensures answer { IfOk result (λ answer. answer ≡ passes_unwrap identities.now stanzas.now) }
    ensures memory { IfErr result (λ _. list_any (is_of scrypt_type) stanzas.now ≡ true) }
{
    let mut so_far = Unwrapped::NotMine;
    for identity in identities {
        match so_far.followed_by(identity.unwrap(alloc, stanzas)?) {
            Ok(next) => so_far = next,
            Err(decision) => return Ok(decision),
        }
    }
    Ok(so_far)
}

/// The first answer of these keys that decides; if none does, `Failed` or `NotMine`.
fn unwrap_by_keys(
    alloc: Global,
    keys: &[[u8; 32]],
    stanzas: &[Stanza],
) -> Result<Unwrapped, AllocError>
    ensures answer { IfOk result (λ answer. answer ≡ keys_unwrap keys.now stanzas.now) }
    ensures memory { IfErr result (λ _. list_any (is_of keyed_type) stanzas.now ≡ true) }
{
    let mut so_far = Unwrapped::NotMine;
    for key in keys {
        match so_far.followed_by(KeyIdentity::new(*key).unwrap(alloc, stanzas)?) {
            Ok(next) => so_far = next,
            Err(decision) => return Ok(decision),
        }
    }
    Ok(so_far)
}
