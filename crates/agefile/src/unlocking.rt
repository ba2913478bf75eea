//! From a header and a secret to the file key.

ghost use Rattle.std.specs.Prelude.{◌≡◌, IfNone, IfSome, map};
ghost use Rattle.age_kdf.specs.Bytes.{Bytes};
ghost use Rattle.age_recipient.specs.KeyedHolders.{key_unwraps};
ghost use Rattle.age_recipient.specs.PassphraseHolders.{WorkFits, pass_unwraps};
ghost use Rattle.agefile.specs.Codes.{bad_work_factor};
ghost use Rattle.agefile.specs.Giving.{one_answer};
ghost use Rattle.agefile.specs.Sizes.{IsFront};
ghost use Rattle.agefile.specs.Report.{Returns};
ghost use Rattle.agefile.specs.Unlock.{FindsKey, GivesKey, Unlocks};

use crate::code::{OK, WORK_FACTOR};
use crate::giving::give_up;
use crate::limits::limits;
use crate::report::{Report, report_fault};
use age_file::{
    Fault, FileKey, Identity, KeyIdentity, MemSource, PassError, PassIdentity, inspect,
    unlock_header,
};
use std::alloc::Global;

/// A header's length in bytes, and its file key.
#[derive(Clone, Copy)]
pub(crate) struct Unlocked {
    pub(crate) header_len: u64,
    pub(crate) key: FileKey,
}

/// With a passphrase, which may be any bytes, finds the file key of the header at the start of a
/// file, verifies the header's MAC under this file key, and writes the file key to `file_key`.
/// Accepts work factors of at most `max_work`, 1 to 30. On 0 the report has the length of the
/// header. The first 65,552 bytes of a longer file suffice.
///
/// # Errors
/// 22 if `max_work` is not 1 to 30. Otherwise the first that applies of 1 to 4, as for
/// `age_file::inspect`, and 5 to 9, as for `age_file::unlock_header`. 17 if an allocation was
/// refused. In all cases `file_key` is unchanged.
#[unsafe(no_mangle)]
pub extern "C" fn agefile_unlock_passphrase(
    alloc: Global,
    front: &[u8],
    pass: &[u8],
    max_work: u8,
    file_key: &mut [u8; 16],
    report: &mut Report,
) -> u32
    // If the maximum is 1 to 30: on 0 `file_key` is the file key found, the header's MAC was
    // verified under it, and the report has the header's length; on any other code, that of the
    // first fault up to the MAC or 17, `file_key` is unchanged. The first 65,552 bytes suffice.
    ensures fit { (b : Bytes) → IsFront front.now b → WorkFits max_work
        → Unlocks (one_answer (pass_unwraps (record { pass = pass.now; max = max_work }))) b
        file_key.old file_key.new report.new result }
    // If the maximum is not 1 to 30, returns 22 and leaves `file_key` unchanged.
    ensures unfit { (WorkFits max_work → ⊥)
        → Returns bad_work_factor None file_key.old file_key.new report.new result }
{
    match key_for_passphrase(alloc, front, pass, max_work) {
        Some(key) => give_key(key, file_key, report),
        None => give_up(WORK_FACTOR, file_key, report),
    }
}

/// With a key of 32 bytes, for this project's own stanza, finds the file key of the header at the
/// start of a file, verifies the header's MAC under it, and writes the file key to `file_key`. On 0
/// the report has the length of the header. The first 65,552 bytes of a longer file suffice.
///
/// # Errors
/// The first that applies of 1 to 4, as for `age_file::inspect`, and 5 to 9, as for
/// `age_file::unlock_header`. 17 if an allocation was refused. `file_key` is then unchanged.
#[unsafe(no_mangle)]
pub extern "C" fn agefile_unlock_key(
    alloc: Global,
    front: &[u8],
    key: &[u8; 32],
    file_key: &mut [u8; 16],
    report: &mut Report,
) -> u32
    // On 0 `file_key` is the file key found with the key, the header's MAC was verified under the
    // file key, and the report has the header's length. Otherwise returns the first fault up to the
    // MAC, or 17, and leaves `file_key` unchanged. The first 65,552 bytes of the file suffice.
    ensures front { (b : Bytes) → IsFront front.now b
        → Unlocks (one_answer (key_unwraps key.now)) b file_key.old file_key.new report.new result }
{
    give_key(key_for_key(alloc, front, key), file_key, report)
}

/// Writes a file key and reports the length of its header, or reports the fault.
fn give_key(key: Result<Unlocked, Fault>, file_key: &mut [u8; 16], report: &mut Report) -> u32
    ensures { GivesKey key file_key.old file_key.new report.new result }
{
    match key {
        Ok(found) => {
            *report = Report::of_len(found.header_len);
            let key = found.key.0;
            *file_key = key;
            OK
        }
        Err(fault) => report_fault(0, fault, report),
    }
}

/// Finds the file key with a passphrase. Returns `None` exactly if `max_work` is not 1 to 30.
fn key_for_passphrase(
    alloc: Global,
    front: &[u8],
    pass: &[u8],
    max_work: u8,
) -> Option<Result<Unlocked, Fault>>
    ensures some { IfSome result (λ key. WorkFits max_work
        × FindsKey (one_answer (pass_unwraps (record { pass = pass.now; max = max_work })))
        front.now
        key) }
    ensures none { IfNone result (WorkFits max_work → ⊥) }
{
    let identity = match PassIdentity::new(alloc, pass, max_work) {
        Ok(identity) => identity,
        Err(PassError::WorkFactor) => return None,
        Err(PassError::Memory) => return Some(Err(Fault::OutOfMemory)),
    };
    match Box::new(alloc, identity) {
        Ok(identity) => Some(key_for(alloc, front, identity)),
        Err(_) => Some(Err(Fault::OutOfMemory)),
    }
}

/// Finds the file key with a key of 32 bytes.
fn key_for_key(alloc: Global, front: &[u8], key: &[u8; 32]) -> Result<Unlocked, Fault>
    ensures { FindsKey (one_answer (key_unwraps key.now)) front.now result }
{
    let identity = Box::new(alloc, KeyIdentity::new(*key))?;
    key_for(alloc, front, identity)
}

/// Finds the file key for one identity.
pub(crate) fn key_for(
    alloc: Global,
    front: &[u8],
    identity: Box<dyn Identity>,
) -> Result<Unlocked, Fault>
    ensures { FindsKey (one_answer (meaning identity)) front.now result }
{
    let identities = vec![in alloc; identity]?;
    find_key(alloc, front, identities.as_slice())
}

/// Finds the file key for some identities.
fn find_key(
    alloc: Global,
    front: &[u8],
    identities: &[Box<dyn Identity>],
) -> Result<Unlocked, Fault>
    ensures { FindsKey (λ stanzas. map (λ i. meaning i stanzas) identities.now) front.now result }
{
    let mut source = MemSource::new(front);
    let header = inspect(alloc, &mut source, &limits())?;
    let key = unlock_header(alloc, identities, &header)?;
    let header_len = (front.len() - source.rest().len()) as u64;
    Ok(Unlocked { header_len, key })
}
