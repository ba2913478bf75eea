//! Replacing the header of a file and keeping its payload.

ghost use Rattle.std.specs.Prelude.{IfErr};
ghost use Rattle.age_header.specs.Device.{CountsIf, flow_by, move_by};
ghost use Rattle.age_file.specs.Device.{IsQuiet, is_read, is_write};
ghost use Rattle.age_file.specs.NewFile.{gathering_by};
ghost use Rattle.age_file.specs.Rewrap.{Rewraps, TookWhileRewrapping};
ghost use Rattle.age_file.specs.Verdict.{answers_by};

use crate::copying::{BUFFER_SIZE, copy_all};
use crate::fault::Fault;
use crate::inspecting::inspect;
use crate::limits::Limits;
use crate::new_header::text_for;
use crate::unlocking::unlock_header;
use age_header::{Sink, Source, write_all};
use age_recipient::{Identity, Recipient};
use std::alloc::Global;

/// Writes a file with a new header for the same file key, and after it every byte that follows the
/// old header, unchanged. The payload is neither opened nor verified. Whoever kept the old header
/// and its secret can still open the file.
///
/// # Errors
/// The first that applies of:
/// - for the old header, those of `decrypt` up to `BadMac`;
/// - for the new header, `Refused`, `IncompatibleRecipients`, `NoRecipients`, `MixedPassphrase` and
///   `HeaderTooLarge`, as for `encrypt`.
///
/// On these, and on `OutOfMemory`, nothing was written. `Read` and `Write` if a device failed: a
/// prefix of the new file was written. `TooManyChunks` only if the source returns 2^105 bytes or
/// more, which no payload has.
pub fn rewrap<S: Source, W: Sink>(
    alloc: Global,
    input: &mut S,
    out: &mut W,
    identities: &[Box<dyn Identity>],
    recipients: &[Box<dyn Recipient>],
    limits: &Limits,
) -> Result<(), Fault>
    // On Ok the header of the new stanzas, with their MAC under the same file key, was written,
    // then every byte that followed the old header. The fault is the first that applies: for the
    // old header those of `decrypt` up to the MAC, for the new one those of `encrypt`; or out of
    // memory. On `Read`, `Write` and `TooManyChunks` a prefix of this, or nothing, was written.
    ensures rewraps { Rewraps limits.now (answers_by identities.now (λ i s. meaning i s))
        (gathering_by recipients.now (λ r k. wraps r k) (λ r. the_labels r))
        (flow_by S.to_come S.gave input.old input.new) (move_by W.taken out.old out.new) result }
    ensures quiet { IsQuiet out.old out.new result }
    ensures reads { CountsIf is_read (S.failed input.old) (S.failed input.new) result }
    ensures writes { CountsIf is_write (W.failed out.old) (W.failed out.new) result }
    // On `Write` and `TooManyChunks` at most `max_header` + 65,536 more bytes were read than were
    // written; on any other fault except `Read` at most `max_header` bytes were read.
    ensures took { IfErr result (TookWhileRewrapping limits.now
        (flow_by S.to_come S.gave input.old input.new) (move_by W.taken out.old out.new)) }
{
    let header = inspect(alloc, input, limits)?;
    let key = unlock_header(alloc, identities, &header)?;
    let text = text_for(alloc, recipients, &key, limits)?;
    let mut buf = vec![in alloc; 0u8; BUFFER_SIZE]?;
    let Ok(()) = write_all(out, text.as_slice()) else {
        return Err(Fault::Write);
    };
    // After this first piece, each write begins at a multiple of the buffer's size in the new file.
    let first = BUFFER_SIZE - text.len() % BUFFER_SIZE;
    copy_all(input, out, buf.as_mut_slice(), first)
}
