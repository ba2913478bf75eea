//! Ranges of a file's plaintext.

ghost use Rattle.std.specs.Prelude.{◌≡◌, ◌⊎◌, ◌+◌, ◌≤◌, Ok, Err, IfOk, IfErr};
ghost use Rattle.age_header.specs.Device.{CountsFaultIf};
ghost use Rattle.age_file.specs.Device.{is_read};
ghost use Rattle.age_stream.specs.Writer.{device_of, fault_of};
ghost use Rattle.age_file.specs.Ranges.{GaveHeader, IsOpenFault, MissesHeader};
ghost use Rattle.age_file.specs.Ranges.{StartsFileRanges};
ghost use Rattle.age_file.specs.Verdict.{answers_by};

use crate::at_source::{AtSource, Origin};
use crate::fault::Fault;
use crate::inspecting::inspect;
use crate::limits::Limits;
use crate::unlocking::unlock_header;
use age_header::Header;
use age_recipient::Identity;
use age_stream::{RangeReader, ReadAt, Refused};
use std::alloc::Global;
use std::marker::Brand;

/// A header, the source that it was read from, and the offset of the first byte after the header.
struct HeaderAt<'a, D> {
    header: Header,
    dev: &'a mut D,
    at: u64,
}

/// Reads the header at the start of a source. `K` has what was known of the source before: its
/// contents, the number of bytes that had been read from it, and the ghost name of the reference to
/// it.
fn header_at<'a, D: ReadAt, K: Origin>(
    alloc: Global,
    dev: &'a mut D,
    limits: &Limits,
) -> Result<HeaderAt<'a, D>, Refused<'a, D, Fault>>
    requires bytes { K.bytes ≡ D.bytes dev.old }
    requires given { K.given ≡ D.given dev.old }
    requires name { K.name ≡ dev.ghost_name }
    ensures same_reference { IfOk result (λ found. found.dev.ghost_name ≡ K.name) }
    ensures stay { IfOk result (λ found. D.bytes found.dev.now ≡ K.bytes) }
    ensures given { IfOk result (λ found. D.given found.dev.now ≤ K.given + found.at) }
    ensures uncounted { IfOk result (λ found. D.failed found.dev.now ≡ D.failed dev.old) }
    ensures first { IfOk result
        (λ found. GaveHeader limits.now (D.gave found.dev.now) found.at found.header) }
    ensures handed_back { IfErr result
        (λ refused. (device_of refused).ghost_name ≡ K.name) }
    ensures misses { IfErr result
        (λ refused. MissesHeader limits.now K.bytes (fault_of refused)) }
    ensures named { IfErr result (λ refused. IsOpenFault (fault_of refused)) }
    ensures front { IfErr result (λ refused. (fault_of refused ≡ Fault.Read)
        ⊎ (D.given (device_of refused).now ≤ K.given + limits.now.max_header)) }
    ensures left { IfErr result (λ refused. D.bytes (device_of refused).now ≡ K.bytes) }
    ensures counted { IfErr result (λ refused. CountsFaultIf is_read (D.failed dev.old)
        (D.failed (device_of refused).now) (fault_of refused)) }
{
    let mut source: AtSource<'a, D, K> = AtSource::new(dev);
    match inspect(alloc, &mut source, limits) {
        Ok(header) => {
            // For the proof alone (docs/PROOFS.md, "How to read a clause"): the limit fits a u64.
            let _ = limits.max_header();
            let (dev, at) = source.into_parts();
            Ok(HeaderAt { header, dev, at })
        }
        Err(fault) => {
            let (dev, _) = source.into_parts();
            Err(Refused::of(dev, fault))
        }
    }
}

/// Opens a file for reading any part of its plaintext (C2SP `age.md`). Reads the header from the
/// source's first byte on, byte by byte, finds the file key, and verifies the header's MAC under
/// it. Then opens the payload as `RangeReader::open` does, which reads the nonce and the last
/// piece. An error holds the source.
///
/// # Errors
/// The first that applies of:
/// - those of `decrypt` up to `NonceTruncated`;
/// - `TooManyChunks`;
/// - `ChunkShort`, `EmptyFinal` or `BadChunk` of the last piece.
///
/// `Read` if the source failed, `OutOfMemory` if an allocation was refused or an identity returned
/// it.
pub fn open_ranges<'a, D: ReadAt>(
    alloc: Global,
    dev: &'a mut D,
    identities: &[Box<dyn Identity>],
    limits: &Limits,
) -> Result<RangeReader<'a, D>, Refused<'a, D, Fault>>
    ensures same_reference { IfOk result
        (λ reader. reader.dev.ghost_name ≡ dev.entry.ghost_name) }
    // The reader has the payload after the header, under the key that the identities choose, and
    // ends where the source does. It keeps the last chunk; at most header, nonce and last piece
    // were read. Even if the contents are not known, the header was read from byte 0 on, and the
    // last piece, as it was read, opens to the last chunk under that key.
    ensures ranges { IfOk result (λ reader. StartsFileRanges D.bytes D.given D.failed D.gave
        D.found limits.now (answers_by identities.now (λ i s. meaning i s)) dev.old
        reader.dev.now (Ok reader.chunks)) }
    ensures handed_back { IfErr result
        (λ refused. (device_of refused).ghost_name ≡ dev.entry.ghost_name) }
    // The fault is the first that applies: those of `decrypt` up to `NonceTruncated`,
    // `TooManyChunks`, the last piece's; or it is `Read`, which is counted, or `OutOfMemory`. On a
    // fault of the header or its key, or on `OutOfMemory`, at most as many bytes were read as a
    // header may have. The fault is never a recipient's or a write's, even if contents are unknown.
    ensures refuses { IfErr result (λ refused. StartsFileRanges D.bytes D.given D.failed D.gave
        D.found limits.now (answers_by identities.now (λ i s. meaning i s)) dev.old
        (device_of refused).now (Err (fault_of refused))) }
{
    let HeaderAt { header, dev, at } = match header_at::<D, Brand>(alloc, dev, limits) {
        Ok(found) => found,
        Err(refused) => return Err(refused),
    };
    let key = match unlock_header(alloc, identities, &header) {
        Ok(key) => key,
        Err(fault) => return Err(Refused::of(dev, fault)),
    };
    match RangeReader::open(alloc, &key, dev, at, limits.max_chunks()) {
        Ok(reader) => Ok(reader),
        Err(refused) => {
            let (dev, fault) = refused.into_parts();
            Err(Refused::of(dev, Fault::from(fault)))
        }
    }
}
