//! Finding the file key of a header.

ghost use Rattle.std.specs.Prelude.{◌≡◌, ◌⊎◌, map, true, Ok, Err, IfErr};
ghost use Rattle.std.specs.List.{list_any};
ghost use Rattle.std.specs.Result.{result_map_both};
ghost use Rattle.std.specs.Str.{bytes_eq};
ghost use Rattle.age_header.specs.Mac.{header_mac};
ghost use Rattle.age_header.specs.declared.file_key.FileKey.{FileKey};
ghost use Rattle.age_file.specs.AgeFile.{is_mixed, is_scrypt};
ghost use Rattle.age_file.specs.Device.{IsNoDeviceFault};
ghost use Rattle.age_file.specs.Verdict.{MayLackMemory, answers_by, found_key, header_key};
ghost use Rattle.age_file.specs.Verdict.{unlock_fault};

use crate::fault::Fault;
use age_header::{Header, Stanza, mac_of};
use age_recipient::{FileKey, Identity, SCRYPT_TYPE, UnlockFault, unlock};
use std::alloc::Global;

/// Finds the file key of a header with these identities, tried in order, and verifies the header's
/// MAC under it.
///
/// # Errors
/// The first that applies of `MixedPassphrase`; `NoMatch`, `WrongKey` and `Malformed`, as for
/// `age_recipient::unlock`; `BadMac`. `OutOfMemory` if an allocation was refused or an identity
/// returned it.
pub fn unlock_header(
    alloc: Global,
    identities: &[Box<dyn Identity>],
    header: &Header,
) -> Result<FileKey, Fault>
    // Returns the file key that the identities choose, if the header's MAC is right under it;
    // otherwise the first fault, or out of memory.
    ensures key { (result ≡ Err Fault.OutOfMemory)
        ⊎ (result ≡ header_key (answers_by identities.now (λ i s. meaning i s)) header.now) }
    // The fault is neither `Read` nor `Write`.
    ensures no_device { IfErr result IsNoDeviceFault }
    // If a scrypt stanza is not alone, the fault is `MixedPassphrase`, and never `OutOfMemory`.
    ensures mixed { is_mixed header.now.stanzas ≡ true → result ≡ Err Fault.MixedPassphrase }
    // Returns `OutOfMemory` only if an identity may run out of memory and no identity before it
    // decides, or if the identities choose a key.
    ensures memory { result ≡ Err Fault.OutOfMemory → MayLackMemory
        (answers_by identities.now (λ i s. meaning i s) header.now.stanzas)
        (map (λ i. may_run_out i header.now.stanzas) identities.now) }
{
    let (key, has_right_mac) = found_key(alloc, identities, header)?;
    if !has_right_mac {
        return Err(Fault::BadMac);
    }
    Ok(key)
}

/// Finds the file key of a header as `unlock_header` does, and whether the header's MAC is right
/// under it.
pub(crate) fn found_key(
    alloc: Global,
    identities: &[Box<dyn Identity>],
    header: &Header,
) -> Result<(FileKey, bool), Fault>
    ensures key { (result ≡ Err Fault.OutOfMemory)
        ⊎ (result ≡ found_key (answers_by identities.now (λ i s. meaning i s)) header.now) }
    ensures mixed { is_mixed header.now.stanzas ≡ true → result ≡ Err Fault.MixedPassphrase }
    ensures memory { result ≡ Err Fault.OutOfMemory → MayLackMemory
        (answers_by identities.now (λ i s. meaning i s) header.now.stanzas)
        (map (λ i. may_run_out i header.now.stanzas) identities.now) }
{
    if is_mixed(header.stanzas()) {
        return Err(Fault::MixedPassphrase);
    }
    tested(alloc, header, unlock(alloc, identities, header.stanzas()))
}

/// The key that was chosen, and whether the header's MAC under it is right.
fn tested(
    alloc: Global,
    header: &Header,
    chosen: Result<FileKey, UnlockFault>,
) -> Result<(FileKey, bool), Fault>
    ensures key { (result ≡ Err Fault.OutOfMemory) ⊎ (result ≡ result_map_both
        (λ k. (k, bytes_eq header.now.mac (header_mac k.0 header.now.stanzas))) unlock_fault
        chosen) }
    ensures memory { result ≡ Err Fault.OutOfMemory
        → (chosen ≡ Err UnlockFault.Memory) ⊎ ((k : FileKey) × (chosen ≡ Ok k)) }
{
    let key = chosen?;
    let mac = mac_of(alloc, &key.0, header.stanzas())?;
    let is_right = header.has_mac(&mac);
    Ok((key, is_right))
}

/// Whether there is a `scrypt` stanza and another stanza.
pub fn is_mixed(stanzas: &[Stanza]) -> bool
    ensures { result ≡ is_mixed stanzas.now }
{
    stanzas.len() > 1 && has_scrypt(stanzas)
}

/// Whether one of the stanzas is of type `scrypt`.
fn has_scrypt(stanzas: &[Stanza]) -> bool
    ensures { result ≡ list_any (λ s. is_scrypt s.args) stanzas.now }
{
    for stanza in stanzas {
        if is_scrypt(stanza) {
            return true;
        }
    }
    false
}

fn is_scrypt(stanza: &Stanza) -> bool
    ensures { result ≡ is_scrypt stanza.now.args }
{
    match stanza.args().split_first() {
        Some((kind, _)) => kind.as_str() == SCRYPT_TYPE,
        None => false,
    }
}
