//! Encrypting for one recipient and decrypting with one identity, in memory.

ghost use Rattle.std.specs.Prelude.{◌≡◌, List, [], ◌∷◌, Ok, IfOk, IfErr};
ghost use Rattle.age_file.specs.AgeFile.{AgeFile};
ghost use Rattle.age_file.specs.NewFile.{Gathered, IsRefusal};
ghost use Rattle.age_file.specs.Verdict.{IsVerdict};
ghost use Rattle.age_file.specs.Words.{Bytes, StanzaParts, whole};
ghost use Rattle.round_trip.specs.Losses.{IsMemoryFault, IsUnwritten};

use age_file::{
    Fault, Fresh, Identity, Limits, MemSink, MemSource, Recipient, decrypt, encrypt, laws,
};
use std::alloc::Global;

/// Encrypts a plaintext for one recipient.
///
/// # Errors
/// Those of `encrypt`: a fault with which no header is made, `TooManyChunks`, `OutOfMemory`, or
/// `Write` if an allocation of the sink was refused.
pub fn encrypted(
    alloc: Global,
    recipient: Box<dyn Recipient>,
    plain: &[u8],
    fresh: &Fresh,
    limits: &Limits,
) -> Result<Vec<u8>, Fault>
    // On Ok the result is an age file of the plaintext, with the stanzas of the recipient.
    ensures file { IfOk result (λ file. (stanzas : List StanzaParts)
        × (wraps recipient fresh.now.file_key ≡ Ok stanzas)
        × AgeFile limits.now fresh.now.file_key stanzas plain.now file.items) }
    // The only faults are `OutOfMemory`, `Write`, `TooManyChunks` if the plaintext has more chunks
    // than the limit, and those of `IsRefusal`, with which no header is made.
    ensures lost { let refuses = IsRefusal limits.now fresh.now.file_key
        (Gathered (wraps recipient fresh.now.file_key ∷ []) (the_labels recipient ∷ [])) in
        IfErr result (IsUnwritten refuses limits.now plain.now) }
{
    let recipients = vec![in alloc; recipient]?;
    let mut source = MemSource::new(plain);
    let mut file = MemSink::new(Vec::new(alloc));
    encrypt(
        alloc,
        &mut source,
        &mut file,
        recipients.as_slice(),
        fresh,
        limits,
    )?;
    Ok(file.into_vec())
}

/// Decrypts a file with one identity.
///
/// # Errors
/// Those of `decrypt`. For a file whose verdict for this identity is a plaintext without a fault,
/// only `OutOfMemory`, or `Write` if an allocation of the sink was refused.
pub fn decrypted(
    alloc: Global,
    identity: Box<dyn Identity>,
    file: &[u8],
    limits: &Limits,
) -> Result<Vec<u8>, Fault>
    // On Ok, if the file's verdict for this identity has no fault, the text is its plaintext.
    ensures text { IfOk result (λ text. (plain : Bytes)
        → IsVerdict limits.now (λ s. meaning identity s ∷ []) file.now (whole plain)
        → text.items ≡ plain) }
    // With such a verdict the only faults are `OutOfMemory` and `Write`.
    ensures lost { IfErr result (λ fault. (plain : Bytes)
        → IsVerdict limits.now (λ s. meaning identity s ∷ []) file.now (whole plain)
        → IsMemoryFault fault) }
{
    laws::ok_is_age_file();
    let identities = vec![in alloc; identity]?;
    let mut source = MemSource::new(file);
    let mut text = MemSink::new(Vec::new(alloc));
    decrypt(alloc, &mut source, &mut text, identities.as_slice(), limits)?;
    Ok(text.into_vec())
}
