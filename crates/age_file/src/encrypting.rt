//! Encrypting a whole file, and writing the header and the nonce that begin one.

ghost use Rattle.std.specs.Prelude.{◌≡◌, ◌⊎◌, ◌++◌, Err, IfErr};
ghost use Rattle.age_header.specs.Device.{Bytes, Counts, CountsIf, Writes, flow_by, move_by};
ghost use Rattle.age_header.specs.Header.{Head};
ghost use Rattle.age_file.specs.Device.{IsQuiet, is_read, is_write};
ghost use Rattle.age_file.specs.NewFile.{EncryptsGiven, FillsChunk, RefusesFirst};
ghost use Rattle.age_file.specs.NewFile.{TookWhileEncrypting, gathering_by};

use crate::fault::Fault;
use crate::limits::{Fresh, Limits};
use crate::new_header::text_for;
use age_header::{DeviceFault, Header, Sink, Source, write_all, write_header};
use age_recipient::Recipient;
use age_stream::{ChunkBuf, ChunkSealer, Done, StreamWriter};
use std::alloc::Global;

/// Writes the age file (C2SP `age.md`) of a plaintext, which is all bytes left in the source, for
/// these recipients. Allocates everything before it writes the first byte. Writes the header and
/// the nonce once the first chunk is full or the source has ended, and each chunk as soon as a byte
/// after it was read, or the source has ended.
///
/// `fresh` and the salts of the recipients must be random and used only for this file, because
/// using them again repeats the keys of a file. A passphrase recipient takes 2^work KiB of memory
/// while it wraps. What was written before an error is not a complete file.
///
/// # Errors
/// The first that applies of:
/// - `Refused` at the first recipient that refuses;
/// - `IncompatibleRecipients` at the first whose labels do not go together with those of recipient
///   0;
/// - `NoRecipients` if there is no stanza at all;
/// - `MixedPassphrase` if a `scrypt` stanza is not alone;
/// - `HeaderTooLarge`.
///
/// On these, and on `OutOfMemory`, nothing was read or written. `TooManyChunks` if the plaintext
/// has more chunks than the limit: the header, the nonce and the first limit - 1 sealed chunks were
/// written. `Read` and `Write` if a device failed: a prefix of the file was written, and on `Read`
/// before the first chunk was full, nothing.
#[tactic(auto, using(crate::proofs::EncryptLemmas::encrypts_unread))]
pub fn encrypt<S: Source, W: Sink>(
    alloc: Global,
    plain: &mut S,
    out: &mut W,
    recipients: &[Box<dyn Recipient>],
    fresh: &Fresh,
    limits: &Limits,
) -> Result<Done, Fault>
    // On Ok the file of the recipients' stanzas, the plaintext, the file key and the nonce was
    // written, and the counts are the length of the plaintext and the number of its chunks. On
    // `Read` and `Write` a prefix of the file was written, and on `TooManyChunks` the header, the
    // nonce and the first limit - 1 sealed chunks.
    ensures encrypts { EncryptsGiven limits.now fresh.now
        (gathering_by recipients.now (λ r k. wraps r k) (λ r. the_labels r) fresh.now.file_key)
        (flow_by S.to_come S.gave plain.old plain.new) (move_by W.taken out.old out.new) result }
    // The fault is `Read`, `Write`, `TooManyChunks`, `OutOfMemory`, or the first that applies: a
    // refusal; a recipient not going together with recipient 0, by labels that they may return; no
    // stanza; a `scrypt` stanza that is not alone; a header over the limit.
    ensures refused { IfErr result (RefusesFirst limits.now fresh.now.file_key
        (gathering_by recipients.now (λ r k. wraps r k) (λ r. the_labels r) fresh.now.file_key)) }
    ensures quiet { IsQuiet out.old out.new result }
    // If the fault is `Read` and something was written, the source gave 65,536 bytes or more.
    ensures spared { result ≡ Err Fault.Read
        → (out.new ≡ out.old) ⊎ FillsChunk (flow_by S.to_come S.gave plain.old plain.new) }
    ensures reads { CountsIf is_read (S.failed plain.old) (S.failed plain.new) result }
    ensures writes { CountsIf is_write (W.failed out.old) (W.failed out.new) result }
    // On `Write` and `TooManyChunks`, if n full sealed chunks were written, at most 65,536 (n + 2)
    // bytes of plaintext were read. On any other fault except `Read` nothing was read.
    ensures took { IfErr result (TookWhileEncrypting limits.now fresh.now
        (gathering_by recipients.now (λ r k. wraps r k) (λ r. the_labels r) fresh.now.file_key)
        (flow_by S.to_come S.gave plain.old plain.new) (move_by W.taken out.old out.new)) }
{
    let mut front = text_for(alloc, recipients, &fresh.file_key, limits)?;
    front.extend_from_slice(&fresh.nonce)?;
    let buf = ChunkBuf::new(alloc)?;
    let mut sealer = ChunkSealer::new(&fresh.file_key, &fresh.nonce, limits.max_chunks(), buf);
    let Ok(is_open) = sealer.fill(plain) else {
        return Err(Fault::Read);
    };
    let Ok(()) = write_all(out, front.as_slice()) else {
        return Err(Fault::Write);
    };
    if is_open {
        return Ok(StreamWriter::over(out, sealer).seal_from(plain)?);
    }
    Ok(sealer.finish(out)?)
}

/// Writes a header and then the nonce of its payload, 16 bytes.
///
/// # Errors
/// `DeviceFault` if the sink failed: a prefix of header and nonce was written.
pub fn write_header_and_nonce<W: Sink>(
    header: &Header,
    nonce: &[u8; 16],
    out: &mut W,
) -> Result<(), DeviceFault>
    // Writes the header and then the nonce; on an error a prefix of these bytes.
    ensures text { (text : Bytes) × Head header.now.stanzas header.now.mac text
        × Writes (move_by W.taken out.old out.new) result (text ++ nonce.now) }
    ensures count { Counts (W.failed out.old) (W.failed out.new) result }
{
    write_header(header, out)?;
    write_all(out, nonce)
}
