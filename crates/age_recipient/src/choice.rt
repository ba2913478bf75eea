//! The choice of a file key by several identities.

ghost use Rattle.std.specs.Prelude.{◌≡◌, ◌⊎◌, map, true, Err, IfOk, IfErr};
ghost use Rattle.age_recipient.specs.Answer.{decision};
ghost use Rattle.age_recipient.specs.Choice.{choice, lacks_memory};

use crate::identity::Identity;
use crate::unwrapped::{StanzaFault, Unwrapped};
use age_header::{FileKey, Stanza};
use std::alloc::{AllocError, Global};

/// Why identities found no file key.
#[derive(Clone, Copy, Debug, Drop, PartialEq, Eq)]
pub enum UnlockFault {
    /// No stanza is of the type of any identity.
    NoMatch,
    /// There are stanzas of an identity's type, but none of them opens: the passphrase or key is
    /// wrong.
    WrongKey,
    /// A stanza of an identity's type is malformed.
    Malformed(StanzaFault),
    /// An identity returned `AllocError`.
    Memory,
}

/// Finds the file key in a header's stanzas. Calls the identities in order. The first that finds a
/// key or a malformed stanza decides, and no later one is called.
///
/// # Errors
/// `Malformed` if a malformed stanza decided. If nothing decided, `WrongKey` if an identity
/// returned `Failed`, else `NoMatch`. `Memory` if an identity that was called returned
/// `AllocError`.
pub fn unlock(
    alloc: Global,
    identities: &[Box<dyn Identity>],
    stanzas: &[Stanza],
) -> Result<FileKey, UnlockFault>
    // Returns the choice by the identities' answers, in order, or out of memory.
    ensures choice { (result ≡ Err UnlockFault.Memory)
        ⊎ (result ≡ choice (map (λ b. meaning b stanzas.now) identities.now)) }
    // Returns out of memory only if an identity may run out and no identity before it decides.
    ensures memory { result ≡ Err UnlockFault.Memory → lacks_memory
        (map (λ b. meaning b stanzas.now) identities.now)
        (map (λ b. may_run_out b stanzas.now) identities.now) ≡ true }
{
    match first_decided(alloc, identities, stanzas) {
        Ok(Unwrapped::NotMine) => Err(UnlockFault::NoMatch),
        Ok(Unwrapped::Failed) => Err(UnlockFault::WrongKey),
        Ok(Unwrapped::Key(key)) => Ok(key),
        Ok(Unwrapped::Malformed(fault)) => Err(UnlockFault::Malformed(fault)),
        Err(_) => Err(UnlockFault::Memory),
    }
}

/// The decision of these identities' answers. Identities after one that decides are not called.
#[tactic(auto, using(crate::proofs::AnswerLemmas::decisions))]
fn first_decided(
    alloc: Global,
    identities: &[Box<dyn Identity>],
    stanzas: &[Stanza],
) -> Result<Unwrapped, AllocError>
    ensures answer { IfOk result
        (λ answer. answer ≡ decision (map (λ b. meaning b stanzas.now) identities.now)) }
    ensures memory { IfErr result (λ _. lacks_memory
        (map (λ b. meaning b stanzas.now) identities.now)
        (map (λ b. may_run_out b stanzas.now) identities.now) ≡ true) }
{
    let mut so_far = Unwrapped::NotMine;
    for identity in identities {
        match so_far.followed_by(ask(alloc, identity, stanzas)?) {
            Ok(next) => so_far = next,
            Err(decision) => return Ok(decision),
        }
    }
    Ok(so_far)
}

/// Calls one identity's `unwrap`. This is a function of its own so that a contract can cite the
/// box, an item of the list.
fn ask(
    alloc: Global,
    identity: &Box<dyn Identity>,
    stanzas: &[Stanza],
) -> Result<Unwrapped, AllocError>
    ensures answer { IfOk result (λ answer. answer ≡ meaning identity.now stanzas.now) }
    ensures memory { IfErr result (λ _. may_run_out identity.now stanzas.now ≡ true) }
{
    identity.unwrap(alloc, stanzas)
}
