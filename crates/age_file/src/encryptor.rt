//! A file that is written in steps: its header, then its payload piece by piece.

ghost use Rattle.std.specs.Prelude.{◌≡◌, Ok, Err, IfOk, IfErr};
ghost use Rattle.age_header.specs.Mac.{header_mac};
ghost use Rattle.age_stream.specs.Writer.{device_of, fault_of, sealer_of, sink_of};
ghost use Rattle.age_file.specs.NewFile.{FailsHeading, IsHeading, gathering_by};

use crate::encrypting::write_header_and_nonce;
use crate::fault::Fault;
use crate::limits::{Fresh, Limits};
use crate::new_header::header_for;
use age_header::{Header, Sink};
use age_recipient::Recipient;
use age_stream::{ChunkBuf, ChunkSealer, Refused, StreamWriter};
use std::alloc::Global;
use std::marker::Model;

/// A new file whose header is made but not yet written. `start` consumes the `Encryptor`.
#[derive(Drop)]
pub struct Encryptor {
    header: Header,
    fresh: Fresh,
    limits: Limits,
}

impl Model for Encryptor {
    ghost use Rattle.age_file.specs.States.{EncryptorState};

    ghost Value = { EncryptorState };

    ghost view = { λ e. record { header = e.header; fresh = e.fresh; limits = e.limits } };
}

impl Encryptor {
    ghost use Rattle.age_file.specs.States.{StartsFile};
    ghost use Rattle.age_header.specs.Device.{Bytes};

    /// Makes the header of a new file for these recipients.
    ///
    /// # Errors
    /// As for `encrypt`: `Refused`, `IncompatibleRecipients`, `NoRecipients`, `MixedPassphrase`,
    /// `HeaderTooLarge`. `OutOfMemory` if an allocation was refused or a recipient returned it.
    pub fn new(
        alloc: Global,
        recipients: &[Box<dyn Recipient>],
        fresh: &Fresh,
        limits: &Limits,
    ) -> Result<Encryptor, Fault>
        // The `Encryptor` keeps the fresh values and the limits, and holds the header that
        // `encrypt` writes for them and these recipients.
        ensures ok { IfOk result (λ e. (e.fresh ≡ fresh.now) × (e.limits ≡ limits.now)
            × (e.header.mac ≡ header_mac fresh.now.file_key.0 e.header.stanzas)
            × ((text : Bytes) × IsHeading limits.now fresh.now.file_key
            (gathering_by recipients.now (λ r k. wraps r k) (λ r. the_labels r) fresh.now.file_key)
            e.header.stanzas text)) }
        // The fault is the first that applies, in the order of `encrypt`, or out of memory.
        ensures err { IfErr result (FailsHeading limits.now fresh.now.file_key
            (gathering_by recipients.now (λ r k. wraps r k) (λ r. the_labels r)
            fresh.now.file_key)) }
    {
        let header = header_for(alloc, recipients, &fresh.file_key, limits)?;
        Ok(Encryptor {
            header,
            fresh: *fresh,
            limits: *limits,
        })
    }

    /// Writes the header and the nonce, and returns a writer of the payload. Allocates before it
    /// writes. An error holds the sink.
    ///
    /// # Errors
    /// `OutOfMemory` if the allocation was refused: nothing was written. `Write` if the sink
    /// failed: a prefix of the header and the nonce was written.
    pub fn start<'a, W: Sink>(
        self,
        alloc: Global,
        out: &'a mut W,
    ) -> Result<StreamWriter<'a, W>, Refused<'a, W, Fault>>
        ensures same_reference { IfOk result
            (λ writer. (sink_of writer).ghost_name ≡ out.entry.ghost_name) }
        // The header and the nonce were written, and chunk 0 is next.
        ensures starts { IfOk result (λ writer. StartsFile W.taken W.failed self out.old
            (sink_of writer).now (Ok (sealer_of writer))) }
        ensures handed_back { IfErr result
            (λ refused. (device_of refused).ghost_name ≡ out.entry.ghost_name) }
        // If a write failed, a prefix of header and nonce was written, and the failure is counted;
        // on out of memory the sink is unchanged.
        ensures loses { IfErr result (λ refused. StartsFile W.taken W.failed self out.old
            (device_of refused).now (Err (fault_of refused))) }
    {
        let Ok(buf) = ChunkBuf::new(alloc) else {
            return Err(Refused::of(out, Fault::OutOfMemory));
        };
        let Ok(()) = write_header_and_nonce(&self.header, &self.fresh.nonce, out) else {
            return Err(Refused::of(out, Fault::Write));
        };
        let max_chunks = self.limits.max_chunks();
        let sealer = ChunkSealer::new(&self.fresh.file_key, &self.fresh.nonce, max_chunks, buf);
        Ok(StreamWriter::over(out, sealer))
    }
}
