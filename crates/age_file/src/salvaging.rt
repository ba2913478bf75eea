//! Saving what can be saved of a damaged file.

ghost use Rattle.std.specs.Prelude.{◌≡◌, ◌⊎◌, IfErr, IfOk};
ghost use Rattle.age_header.specs.Device.{CountsIf, GaveAtMost, flow_by, move_by};
ghost use Rattle.age_stream.specs.Salvage.{losses_by};
ghost use Rattle.age_file.specs.Decrypt.{TookUpTo};
ghost use Rattle.age_file.specs.Device.{IsLate, IsQuiet, is_read, is_write};
ghost use Rattle.age_file.specs.Salvage.{SalvagesFile, is_whole_file};
ghost use Rattle.age_file.specs.Verdict.{answers_by};

use crate::fault::Fault;
use crate::inspecting::inspect;
use crate::limits::Limits;
use crate::unlocking::found_key;
use age_header::{Sink, Source};
use age_recipient::Identity;
use age_stream::{Losses, Salvaged, salvage_payload};
use std::alloc::Global;

/// How much of a file was saved.
#[derive(Clone, Copy, Debug, Drop, PartialEq, Eq)]
pub struct SalvagedFile {
    /// Whether the header's MAC is right. Otherwise the header was changed, though a key fits.
    pub has_right_mac: bool,
    /// How much of the payload was saved.
    pub payload: Salvaged,
}

impl SalvagedFile {
    /// Whether the header's MAC is right and the payload is whole: exactly then `decrypt` finds no
    /// fault.
    pub fn is_whole(&self) -> bool
        ensures { result ≡ is_whole_file self.now }
    {
        self.has_right_mac && self.payload.is_whole()
    }
}

/// Saves what it can of a damaged file (C2SP `age.md`), which is all bytes left in the source.
/// Writes the plaintext of every chunk that opens, and zeros in place of every chunk that does not,
/// so that each byte keeps its offset. Reports the lost chunks to `losses`. If a key fits but the
/// header was changed, `salvage` goes on under that key, because each chunk has its own tag.
///
/// Each chunk that was saved is genuine, and stands where it stood in its plaintext. The plaintext
/// as a whole is genuine exactly if the result is whole (`SalvagedFile::is_whole`): exactly then
/// `decrypt` of the same bytes finds no fault.
///
/// # Errors
/// Those of `decrypt` up to `NonceTruncated` except `BadMac`: nothing was written. `TooManyChunks`
/// if there are more chunks than the limit: as many as the limit were written. `Read` and `Write`
/// if a device failed: a prefix of the saved text was written. `OutOfMemory` if an allocation was
/// refused or an identity returned it: nothing was written.
#[tactic(auto, using(crate::proofs::SalvageLemmas::inspect_salvages))]
pub fn salvage<S: Source, W: Sink, L: Losses>(
    alloc: Global,
    input: &mut S,
    out: &mut W,
    losses: &mut L,
    identities: &[Box<dyn Identity>],
    limits: &Limits,
) -> Result<SalvagedFile, Fault>
    // Judges the header and its key as `decrypt` does, and says whether the header's MAC is right.
    // Then writes every chunk that opens, and zeros in place of every chunk that does not, and
    // reports each lost chunk, in order. On a fault a first part of this was written and reported.
    ensures salvages { SalvagesFile limits.now (answers_by identities.now (λ i s. meaning i s))
        (flow_by S.to_come S.gave input.old input.new) (move_by W.taken out.old out.new)
        (losses_by L.lost losses.old losses.new) result }
    // If no chunk is lost, none was reported.
    ensures silent { IfOk result (λ s. s.payload.lost ≡ 0 → losses.new ≡ losses.old) }
    ensures quiet { IsQuiet out.old out.new result }
    ensures reads { CountsIf is_read (S.failed input.old) (S.failed input.new) result }
    ensures writes { CountsIf is_write (W.failed out.old) (W.failed out.new) result }
    // On a fault at piece i, or on `Write` after i full chunks of output: at most the header, the
    // nonce, the pieces up to and including piece i, and one more byte were read.
    ensures took { IfErr result (TookUpTo limits.now (flow_by S.to_come S.gave input.old input.new)
        (move_by W.taken out.old out.new)) }
    // On a fault of the header or its key except `Read` and `OutOfMemory`, at most as many bytes
    // were read as a header may have.
    ensures front { IfErr result (λ fault. IsLate fault
        ⊎ ((fault ≡ Fault.NonceTruncated) ⊎ ((fault ≡ Fault.OutOfMemory)
        ⊎ GaveAtMost limits.now.max_header (flow_by S.to_come S.gave input.old input.new)))) }
{
    let header = inspect(alloc, input, limits)?;
    let (key, has_right_mac) = found_key(alloc, identities, &header)?;
    let payload = salvage_payload(alloc, &key, input, out, losses, limits.max_chunks())?;
    Ok(SalvagedFile {
        has_right_mac,
        payload,
    })
}
