//! Decrypting a whole file.

ghost use Rattle.std.specs.Prelude.{◌≡◌, ◌⊎◌, IfErr};
ghost use Rattle.age_header.specs.Device.{CountsIf, GaveAtMost, flow_by, move_by};
ghost use Rattle.age_file.specs.Decrypt.{Decrypts, TookUpTo};
ghost use Rattle.age_file.specs.Device.{IsLate, IsQuiet, is_read, is_write};
ghost use Rattle.age_file.specs.Verdict.{answers_by};

use crate::fault::Fault;
use crate::inspecting::inspect;
use crate::limits::Limits;
use crate::unlocking::unlock_header;
use age_header::{Sink, Source};
use age_recipient::Identity;
use age_stream::{Done, StreamReader};
use std::alloc::Global;

/// Decrypts a file (C2SP `age.md`), which is all bytes left in the source. Writes the plaintext of
/// each chunk as soon as the chunk is verified.
///
/// Only after Ok is the output the whole plaintext. What was written before an error is genuine but
/// incomplete. A passphrase identity takes 2^work KiB of memory, where work is the stanza's work
/// factor, up to the identity's maximum.
///
/// # Errors
/// The first that applies of:
/// - `NotAge`, `BadLine`, `HeaderTruncated`, `HeaderTooLarge`, as for `inspect`;
/// - `MixedPassphrase`;
/// - `NoMatch`, `WrongKey`, `Malformed`, as for `age_recipient::unlock`;
/// - `BadMac`;
/// - `NonceTruncated`;
/// - for each chunk in turn `TooManyChunks`, `ChunkShort`, `EmptyFinal`, `BadChunk`, as for
///   `age_stream::StreamReader::next_chunk`: the plaintext of the chunks before it was written.
///
/// On a fault before the chunks nothing was written. `Read` and `Write` if a device failed: a
/// prefix of the plaintext was written. `OutOfMemory` if an allocation was refused or an identity
/// returned it: nothing was written.
pub fn decrypt<S: Source, W: Sink>(
    alloc: Global,
    input: &mut S,
    out: &mut W,
    identities: &[Box<dyn Identity>],
    limits: &Limits,
) -> Result<Done, Fault>
    // Returns the verdict on the bytes read from the source and writes its plaintext, unless a
    // device failed or the fault is `OutOfMemory`. On Ok the counts are the length of the plaintext
    // and the number of pieces. If a device failed, a prefix of the plaintext was written.
    ensures decrypts { Decrypts limits.now (answers_by identities.now (λ i s. meaning i s))
        (flow_by S.to_come S.gave input.old input.new) (move_by W.taken out.old out.new) result }
    ensures quiet { IsQuiet out.old out.new result }
    ensures reads { CountsIf is_read (S.failed input.old) (S.failed input.new) result }
    ensures writes { CountsIf is_write (W.failed out.old) (W.failed out.new) result }
    // On a fault at piece i, or on `Write` after i full chunks of output: at most the header, the
    // nonce, the pieces up to and including piece i, and one more byte were read.
    ensures took { IfErr result (TookUpTo limits.now (flow_by S.to_come S.gave input.old input.new)
        (move_by W.taken out.old out.new)) }
    // On any fault before the nonce but `Read`, at most `max_header` bytes were read.
    ensures front { IfErr result (λ fault. IsLate fault ⊎ ((fault ≡ Fault.NonceTruncated)
        ⊎ GaveAtMost limits.now.max_header (flow_by S.to_come S.gave input.old input.new))) }
{
    let header = inspect(alloc, input, limits)?;
    let key = unlock_header(alloc, identities, &header)?;
    let reader = match StreamReader::new(alloc, &key, input, limits.max_chunks()) {
        Ok(reader) => reader,
        Err(refused) => return Err(Fault::from(refused.fault())),
    };
    Ok(reader.copy_to(out)?)
}
