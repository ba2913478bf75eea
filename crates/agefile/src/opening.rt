//! Opening a file under its file key.

ghost use Rattle.std.specs.Prelude.{◌≡◌};
ghost use Rattle.agefile.specs.Unlock.{FindsStart, Opens, StartsAt, by_file_key};

use crate::code::OK;
use crate::payload::Payload;
use crate::phase::READING;
use crate::report::{Report, report_fault};
use crate::start::{Start, start_for};
use age_file::{Fault, FileKey, Identity, Stanza, Unwrapped};
use std::alloc::{AllocError, Global};
use std::marker::Model;

/// An identity that returns this file key for any stanzas.
#[derive(Drop)]
struct GivenKey {
    key: FileKey,
}

impl Model for GivenKey {
    ghost use Rattle.age_kdf.specs.Bytes.{Bytes};

    ghost Value = { Bytes };

    ghost view = { λ i. i.key.0 };
}

impl GivenKey {
    fn new(key: FileKey) -> GivenKey
        ensures { result ≡ key.0 }
    {
        GivenKey { key }
    }
}

impl Identity for GivenKey {
    ghost use Rattle.agefile.specs.Unlock.{gives_key};

    ghost meaning = { λ key stanzas. gives_key key stanzas };

    fn unwrap(&self, _alloc: Global, _stanzas: &[Stanza]) -> Result<Unwrapped, AllocError> {
        Ok(Unwrapped::Key(self.key))
    }
}

/// Verifies the MAC of the header at the start of a file under a file key, and starts the payload
/// for reading. On 0 the report has, as its length, the offset of the first sealed chunk. Any
/// beginning of the file suffices that contains its header and the 16 bytes after it; for a shorter
/// beginning of a file that opens, the call returns 3 or 10, or 17 if an allocation was refused.
///
/// # Errors
/// The first that applies of 1 to 4, as for `age_file::inspect`; 5 if a `scrypt` stanza is not
/// alone; 9 if the MAC is not the one under this key; 10 if fewer than 16 bytes follow the header.
/// 17 if an allocation was refused. The payload is then not open.
#[unsafe(no_mangle)]
pub extern "C" fn agefile_open(
    alloc: Global,
    front: &[u8],
    file_key: &[u8; 16],
    payload: &mut Payload,
    report: &mut Report,
) -> u32
    // Returns the first fault up to the nonce, by the verdict for this file key; or 17. The payload
    // is then closed. Otherwise the payload is before chunk 0, for reading, and the report has that
    // chunk's offset.
    ensures { Opens (by_file_key file_key.now) front.now payload.new report.new result }
{
    start_at(start_under(alloc, front, file_key), payload, report)
}

/// Starts the payload for reading, or, on a fault, closes it.
fn start_at(start: Result<Start, Fault>, payload: &mut Payload, report: &mut Report) -> u32
    ensures { StartsAt start payload.new report.new result }
{
    match start {
        Ok(start) => {
            *payload = Payload::before_first(start.key, READING);
            *report = Report::of_len(start.first);
            OK
        }
        Err(fault) => {
            *payload = Payload::closed();
            report_fault(0, fault, report)
        }
    }
}

/// Finds the start of the payload of a file with this front, under its file key.
pub(crate) fn start_under(alloc: Global, front: &[u8], file_key: &[u8; 16]) -> Result<Start, Fault>
    ensures { FindsStart (by_file_key file_key.now) front.now result }
{
    let identity = Box::new(alloc, GivenKey::new(FileKey(*file_key)))?;
    start_for(alloc, front, identity)
}
