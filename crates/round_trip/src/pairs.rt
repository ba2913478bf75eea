//! Encrypting and decrypting, for pairs.

ghost use Rattle.std.specs.Prelude.{◌≡◌, [], ◌∷◌, IfOk, IfErr, MatchResult};
ghost use Rattle.age_file.specs.AgeFile.{IsBounds};
ghost use Rattle.age_file.specs.NewFile.{Gathered, IsRefusal};
ghost use Rattle.age_file.specs.Words.{IsFileKey, PairFits};
ghost use Rattle.round_trip.specs.Losses.{IsLoss, IsPaired, IsPairedIf, none};

use crate::file::{decrypted, encrypted};
use age_file::{
    Fault, FileKey, Fresh, Identity, KeyIdentity, KeyPair, KeyRecipient, Limits, Matched,
    PassError, PassIdentity, PassPair, PassRecipient, Recipient, laws,
};
use std::alloc::Global;

/// Why a plaintext did not come back.
#[derive(Debug, Drop)]
pub enum TripError {
    /// The pair or one of its parts could not be made.
    Unpaired(PassError),
    /// The allocation of a box for the recipient or the identity was refused.
    Memory,
    /// Encrypting failed.
    Encrypting(Fault),
    /// Decrypting failed.
    Decrypting(Fault),
}

/// Encrypts a plaintext for a pair's recipient, and decrypts the file with the pair's identity. The
/// result is that plaintext. The recipient and the identity are passed as boxes beside the pair,
/// because a pair lends its two parts and a box owns its contents.
///
/// # Errors
/// `Encrypting` with a fault of `encrypt`; `Decrypting` with `OutOfMemory`, or with `Write` if an
/// allocation of the sink was refused.
pub fn there_and_back<M: Matched>(
    alloc: Global,
    pair: &M,
    recipient: Box<dyn Recipient>,
    identity: Box<dyn Identity>,
    plain: &[u8],
    fresh: &Fresh,
    limits: &Limits,
) -> Result<Vec<u8>, TripError>
    requires recipient { (⟦<dyn Recipient as Recipient>⟧ recipient.vtable).wraps recipient.value
        ≡ M.R.wraps (M.the_recipient pair.now) }
    requires identity { (⟦<dyn Identity as Identity>⟧ identity.vtable).meaning identity.value
        ≡ M.I.meaning (M.the_identity pair.now) }
    // On Ok the decrypted text is the plaintext that was encrypted.
    ensures back { IfOk result (λ text. text.items ≡ plain.now) }
    // Encrypting fails only with `OutOfMemory`, `Write`, `TooManyChunks` if the plaintext has more
    // chunks than the limit, or a fault of `IsRefusal`, with which no header is made. Decrypting
    // fails only with `OutOfMemory` or `Write`.
    ensures lost { let refuses = IsRefusal limits.now fresh.now.file_key
        (Gathered (M.R.wraps (M.the_recipient pair.now) fresh.now.file_key ∷ [])
        ((⟦<dyn Recipient as Recipient>⟧ recipient.vtable).the_labels recipient.value ∷ [])) in
        IfErr result (IsLoss refuses limits.now plain.now) }
    // Never returns `Unpaired`.
    ensures paired { IfErr result IsPaired }
{
    laws::pair_opens(pair);
    has_sixteen_bytes(fresh.file_key);
    let file = match encrypted(alloc, recipient, plain, fresh, limits) {
        Ok(file) => file,
        Err(fault) => return Err(TripError::Encrypting(fault)),
    };
    match decrypted(alloc, identity, file.as_slice(), limits) {
        Ok(text) => Ok(text),
        Err(fault) => Err(TripError::Decrypting(fault)),
    }
}

/// A file key has 16 bytes. Its type says so, and here a contract does.
fn has_sixteen_bytes(key: FileKey)
    ensures { IsFileKey key }
{
    let FileKey(_bytes) = key;
}

/// Limits are in their ranges. Their type says so, and here a contract does.
fn are_bounds(limits: &Limits)
    ensures { IsBounds limits.now }
{
    // For the proof alone (docs/PROOFS.md, "How to read a clause"): the invariant of `limits`.
    let _ = limits.max_chunks();
}

/// Does what `there_and_back` does, for the pair of a passphrase that `PassPair::new` makes.
///
/// # Errors
/// `Unpaired` with an error of `PassPair::new`; `Memory`; those of `there_and_back`, of which
/// `Encrypting` has only `TooManyChunks`, `OutOfMemory`, or `Write` for a refused allocation.
pub fn pass_there_and_back(
    alloc: Global,
    pass: &[u8],
    salt: [u8; 16],
    work: u8,
    max: u8,
    plain: &[u8],
    fresh: &Fresh,
    limits: &Limits,
) -> Result<Vec<u8>, TripError>
    // On Ok the decrypted text is the plaintext that was encrypted.
    ensures back { IfOk result (λ text. text.items ≡ plain.now) }
    // Encrypting fails only with `OutOfMemory`, `Write`, or `TooManyChunks` if the plaintext has
    // more chunks than the limit; decrypting only with `OutOfMemory` or `Write`.
    ensures lost { IfErr result (IsLoss none limits.now plain.now) }
    // Returns `Unpaired(WorkFactor)` exactly if the work factor or its maximum is out of range, or
    // the work factor exceeds the maximum.
    ensures paired { MatchResult result (λ _. PairFits work max)
        (IsPairedIf (PairFits work max)) }
{
    let pair = match PassPair::new(alloc, pass, salt, work, max) {
        Ok(pair) => pair,
        Err(error) => return Err(TripError::Unpaired(error)),
    };
    let recipient = match PassRecipient::new(alloc, pass, salt, work) {
        Ok(recipient) => recipient,
        Err(error) => return Err(TripError::Unpaired(error)),
    };
    let identity = match PassIdentity::new(alloc, pass, max) {
        Ok(identity) => identity,
        Err(error) => return Err(TripError::Unpaired(error)),
    };
    let (Ok(recipient), Ok(identity)) = (Box::new(alloc, recipient), Box::new(alloc, identity))
    else {
        return Err(TripError::Memory);
    };
    are_bounds(limits);
    has_sixteen_bytes(fresh.file_key);
    there_and_back(alloc, &pair, recipient, identity, plain, fresh, limits)
}

/// Does what `there_and_back` does, for the pair of a key.
///
/// # Errors
/// `Memory`; those of `there_and_back`, of which `Encrypting` has only `TooManyChunks`,
/// `OutOfMemory`, or `Write` for a refused allocation.
pub fn key_there_and_back(
    alloc: Global,
    key: [u8; 32],
    salt: [u8; 16],
    plain: &[u8],
    fresh: &Fresh,
    limits: &Limits,
) -> Result<Vec<u8>, TripError>
    // On Ok the decrypted text is the plaintext that was encrypted.
    ensures back { IfOk result (λ text. text.items ≡ plain.now) }
    // Encrypting fails only with `OutOfMemory`, `Write`, or `TooManyChunks` if the plaintext has
    // more chunks than the limit; decrypting only with `OutOfMemory` or `Write`.
    ensures lost { IfErr result (IsLoss none limits.now plain.now) }
    // Never returns `Unpaired`.
    ensures paired { IfErr result IsPaired }
{
    let pair = KeyPair::new(key, salt);
    let recipient = Box::new(alloc, KeyRecipient::new(key, salt));
    let identity = Box::new(alloc, KeyIdentity::new(key));
    let (Ok(recipient), Ok(identity)) = (recipient, identity) else {
        return Err(TripError::Memory);
    };
    are_bounds(limits);
    has_sixteen_bytes(fresh.file_key);
    there_and_back(alloc, &pair, recipient, identity, plain, fresh, limits)
}
