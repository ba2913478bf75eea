//! The command `range`: a part of the plaintext of a file of the format.
ghost use Rattle.std.specs.Prelude.{◌≤◌, ◌<◌, ◌≡◌, ◌+◌, ◌-◌, ◌^◌, ◌%◌, length, min, IfOk};
ghost use Rattle.age_stream.specs.Offsets.{StaysGiven};
ghost use Rattle.age_stream.specs.Ranges.{range_len};
ghost use Rattle.age_stream.specs.Sizes.{chunk_size};
ghost use Rattle.age_file.specs.Device.{IsQuiet, is_write};
ghost use Rattle.age_job.specs.Job.{IsInRange};
ghost use Rattle.age_job.specs.declared.ranges.TheConstants.{MAX_OFFSET};
ghost use Rattle.age_commands.specs.Range.{RangingAny, WritesNextAny, WritesAny};
ghost use Rattle.age_commands.specs.Secret.{answers_of, limits_of};
ghost use Rattle.age_header.specs.Device.{CountsIf, move_by};

use crate::buffering::limits_of;
use crate::identity::SecretIdentity;
use age_file::{CHUNK_SIZE, Fault, Identity, RangeReader, ReadAt, Sink, open_ranges, write_all};
use age_job::{Job, Secret};
use std::alloc::Global;

/// Writes to the sink the plaintext of the source from the job's offset on, at most as many bytes
/// as the job requests. First it checks the header, the key and the last chunk, even for no bytes.
/// If a chunk of the range then does not open, the bytes of the range before it were written.
pub(crate) fn range_of<D: ReadAt, W: Sink>(
    alloc: Global,
    job: &Job,
    secret: Secret,
    input: &mut D,
    out: &mut W,
) -> Result<(), Fault>
    requires { IsInRange job.now }
    // The bytes written are those from the job's offset on, each verified at its offset: on Ok as
    // many as requested or up to the end of the plaintext, on a fault perhaps fewer. A fault is one
    // of opening, after which nothing was written, a damaged chunk, or a failed read or write.
    ensures any { RangingAny D.gave D.found (limits_of job.now)
        (answers_of secret job.now.max_work) job.now.at job.now.len input.new
        (move_by W.taken out.old out.new) result }
    ensures quiet { IsQuiet out.old out.new result }
    ensures writes { CountsIf is_write (W.failed out.old) (W.failed out.new) result }
{
    let identity: Box<dyn Identity> = SecretIdentity::boxed(alloc, job, secret)?;
    let identities = vec![in alloc; identity]?;
    let mut piece = vec![in alloc; 0u8; CHUNK_SIZE]?;
    match open_ranges(alloc, input, identities.as_slice(), &limits_of(job)) {
        Ok(mut reader) => {
            let written = write_range(&mut reader, job.at, job.len, piece.as_mut_slice(), out);
            let source = reader.into_inner();
            // For the proof alone (docs/PROOFS.md, "How to read a clause"): what was read.
            let _ = &*source;
            written
        }
        Err(refused) => Err(refused.fault()),
    }
}

/// Writes at most `len` bytes of the plaintext from offset `at` on.
fn write_range<D: ReadAt, W: Sink>(
    reader: &mut RangeReader<'_, D>,
    at: u64,
    len: u64,
    piece: &mut [u8],
    out: &mut W,
) -> Result<(), Fault>
    requires at { at ≤ MAX_OFFSET }
    requires len { len ≤ MAX_OFFSET }
    requires piece { length piece.old ≡ CHUNK_SIZE }
    ensures same_reference { reader.new.dev.ghost_name ≡ reader.old.dev.ghost_name }
    ensures any { WritesAny (D.gave reader.new.dev.now) reader.old.chunks at len
        (move_by W.taken out.old out.new) result }
    ensures writes { CountsIf is_write (W.failed out.old) (W.failed out.new) result }
{
    let mut at = at;
    let mut left = len;
    while left > 0 {
        let n = write_next(reader, at, left, piece, out)?;
        if n == 0 {
            return Ok(());
        }
        at += n as u64;
        left -= n as u64;
    }
    Ok(())
}

/// Writes those of the `left` bytes from offset `at` on that are in the chunk of `at`, and returns
/// their number. No read crosses the end of a chunk, so a failed read leaves nothing in the buffer
/// to write.
fn write_next<D: ReadAt, W: Sink>(
    reader: &mut RangeReader<'_, D>,
    at: u64,
    left: u64,
    piece: &mut [u8],
    out: &mut W,
) -> Result<usize, Fault>
    requires end { at + left < 2 ^ 64 }
    requires left { 0 < left }
    requires piece { length piece.old ≡ CHUNK_SIZE }
    ensures same_reference { reader.new.dev.ghost_name ≡ reader.old.dev.ghost_name }
    ensures piece { length piece.new ≡ CHUNK_SIZE }
    ensures same { reader.new.chunks.layout ≡ reader.old.chunks.layout }
    ensures number { IfOk result (λ n. n
        ≡ range_len reader.old.chunks at (min left (chunk_size - at % chunk_size))) }
    ensures stays_given { StaysGiven (D.gave reader.old.dev.now) (D.gave reader.new.dev.now) }
    ensures any { WritesNextAny (D.gave reader.new.dev.now) reader.old.chunks at left
        (move_by W.taken out.old out.new) result }
    ensures writes { CountsIf is_write (W.failed out.old) (W.failed out.new) result }
{
    let most = left.min(CHUNK_SIZE as u64 - at % CHUNK_SIZE as u64) as usize;
    let n = reader.read_range(at, &mut piece[..most])?;
    let Ok(()) = write_all(out, &piece[..n]) else {
        return Err(Fault::Write);
    };
    Ok(n)
}
