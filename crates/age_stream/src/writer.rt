//! Writing a payload piece by piece to a caller's sink.
ghost use Rattle.std.specs.Prelude.{◌≡◌, ◌⊎◌, ◌≤◌, Ok, Err, IfOk, IfErr, IfSome, IfNone};
ghost use Rattle.age_header.specs.Device.{CountsIf, Writes, flow_by, move_by};
ghost use Rattle.age_stream.specs.Counts.{is_read, is_write};
ghost use Rattle.age_stream.specs.Sealing.{FinishesBy, SealsAll};
ghost use Rattle.age_stream.specs.Writer.{IsRefusedMemory, StartsWriter, TakesPiece};
ghost use Rattle.age_stream.specs.Sizes.{most_chunks};

use crate::buffer::ChunkBuf;
use crate::done::Done;
use crate::fault::StreamFault;
use crate::refused::Refused;
use crate::sealing::ChunkSealer;
use age_header::{FileKey, MemSource, Sink, Source, write_all};
use std::alloc::Global;

/// Writes a payload to a caller's sink. It must be consumed, by `seal_from`, `finish` or `abandon`.
/// After a fault, later calls return the same fault and do not write to the sink.
pub struct StreamWriter<'a, W, B = ChunkSealer> {
    out: &'a mut W,
    sealer: B,
}

impl<'a, W: Sink> StreamWriter<'a, W> {
    /// Makes a writer to this sink, to which the nonce of the sealer's payload must have been
    /// written. The call writes nothing.
    pub fn over(out: &'a mut W, sealer: ChunkSealer) -> StreamWriter<'a, W>
        ensures same_reference { result.out.ghost_name ≡ out.entry.ghost_name }
        ensures unchanged { result.out.now ≡ out.old }
        // The writer continues where `sealer` was.
        ensures sealer { result.sealer ≡ sealer }
    {
        StreamWriter { out, sealer }
    }

    /// Makes a writer of the payload with this nonce under this file key. It allocates nothing, and
    /// writes the nonce. An error holds the sink.
    ///
    /// # Errors
    /// `Write` if the sink failed: a prefix of the nonce was written.
    pub fn with_buf(
        key: &FileKey,
        nonce: &[u8; 16],
        out: &'a mut W,
        max_chunks: u128,
        buf: ChunkBuf,
    ) -> Result<StreamWriter<'a, W>, Refused<'a, W, StreamFault>>
        requires low { 1 ≤ max_chunks }
        requires high { max_chunks ≤ most_chunks }
        ensures same_reference { IfOk result
            (λ writer. writer.out.ghost_name ≡ out.entry.ghost_name) }
        // The nonce was written, and chunk 0 is next.
        ensures starts { IfOk result (λ writer. StartsWriter W.taken W.failed key.now nonce.now
            max_chunks out.old writer.out.now (Ok writer.sealer)) }
        ensures handed_back { IfErr result
            (λ refused. refused.device.ghost_name ≡ out.entry.ghost_name) }
        // A prefix of the nonce was written, and the failure is counted.
        ensures loses { IfErr result (λ refused. StartsWriter W.taken W.failed key.now nonce.now
            max_chunks out.old refused.device.now (Err refused.fault)) }
    {
        if let Err(fault) = put_nonce(nonce, out) {
            return Err(Refused::of(out, fault));
        }
        Ok(StreamWriter::over(out, ChunkSealer::new(key, nonce, max_chunks, buf)))
    }

    /// Makes a writer of the payload with this nonce under this file key. It allocates its buffer,
    /// and then writes the nonce. An error holds the sink.
    ///
    /// # Errors
    /// `Memory` if the allocation was refused: nothing was written. `Write` if the sink failed: a
    /// prefix of the nonce was written.
    pub fn new(
        alloc: Global,
        key: &FileKey,
        nonce: &[u8; 16],
        out: &'a mut W,
        max_chunks: u128,
    ) -> Result<StreamWriter<'a, W>, Refused<'a, W, StreamFault>>
        requires low { 1 ≤ max_chunks }
        requires high { max_chunks ≤ most_chunks }
        ensures same_reference { IfOk result
            (λ writer. writer.out.ghost_name ≡ out.entry.ghost_name) }
        // The nonce was written, and chunk 0 is next.
        ensures starts { IfOk result (λ writer. StartsWriter W.taken W.failed key.now nonce.now
            max_chunks out.old writer.out.now (Ok writer.sealer)) }
        ensures handed_back { IfErr result
            (λ refused. refused.device.ghost_name ≡ out.entry.ghost_name) }
        // Either memory was refused and nothing was written, or `with_buf` failed.
        ensures loses { IfErr result (λ refused. IsRefusedMemory out.old refused.device.now
            refused.fault ⊎ StartsWriter W.taken W.failed key.now nonce.now max_chunks out.old
            refused.device.now (Err refused.fault)) }
    {
        let Ok(buf) = ChunkBuf::new(alloc) else {
            return Err(Refused::of(out, StreamFault::Memory));
        };
        StreamWriter::with_buf(key, nonce, out, max_chunks, buf)
    }

    /// Appends one more piece to the plaintext, and writes the chunks that are full and not the
    /// last.
    ///
    /// # Errors
    /// `Write` if the sink failed: a prefix of the sealed chunks was written. `TooManyChunks` if
    /// the text needs more than `max_chunks`: in all, `max_chunks - 1` chunks were written.
    pub fn write_piece(&mut self, piece: &[u8]) -> Result<(), StreamFault>
        ensures same_reference { self.new.out.ghost_name ≡ self.old.out.ghost_name }
        // A kept fault is returned, and nothing is written.
        ensures kept_fault { IfSome self.old.sealer.fault (λ f. (result ≡ Err f)
            × (self.new.sealer ≡ self.old.sealer) × (self.new.out.now ≡ self.old.out.now)) }
        // However the plaintext is split among calls, the same bytes are written in the end. The
        // only faults that can arise are `Write` and `TooManyChunks`.
        ensures takes { IfNone self.old.sealer.fault (TakesPiece self.old.sealer self.new.sealer
            piece.now (move_by W.taken self.old.out.now self.new.out.now) result) }
        ensures count { IfNone self.old.sealer.fault
            (CountsIf is_write (W.failed self.old.out.now) (W.failed self.new.out.now) result) }
    {
        let mut source = MemSource::new(piece);
        self.sealer.write_from(&mut source, self.out)
    }

    /// Reads all bytes left in the source, and writes all chunks, the last one too. Returns the
    /// total numbers of bytes and chunks sealed.
    ///
    /// # Errors
    /// Those of `write_piece`, and `Read` if the source failed: a prefix of the sealed chunks was
    /// written.
    pub fn seal_from<S: Source>(self, plain: &mut S) -> Result<Done, StreamFault>
        // A kept fault is returned, and neither device is called.
        ensures kept_fault { IfSome self.entry.sealer.fault (λ f.
            (result ≡ Err f) × (plain.new ≡ plain.old) × (self.exit.0.now ≡ self.entry.out.now)) }
        // On Ok all that the source gave was sealed and written, on a fault a prefix of it. Unless
        // the fault is `Read`, the clause bounds how much of the source was read.
        ensures seals { IfNone self.entry.sealer.fault (SealsAll self.entry.sealer
            (flow_by S.to_come S.gave plain.old plain.new)
            (move_by W.taken self.entry.out.now self.exit.0.now) result) }
        ensures reads { IfNone self.entry.sealer.fault
            (CountsIf is_read (S.failed plain.old) (S.failed plain.new) result) }
        ensures writes { IfNone self.entry.sealer.fault
            (CountsIf is_write (W.failed self.entry.out.now) (W.failed self.exit.0.now) result) }
    {
        let StreamWriter { out, sealer } = self;
        let mut sealer = sealer;
        sealer.write_from(plain, out)?;
        sealer.finish(out)
    }

    /// Seals and writes the text held, as the last chunk. Returns the total numbers of bytes and
    /// chunks sealed.
    ///
    /// # Errors
    /// `Write` if the sink failed: a prefix of the sealed chunk was written.
    pub fn finish(self) -> Result<Done, StreamFault>
        // A kept fault is returned, and nothing is written.
        ensures kept_fault { IfSome self.entry.sealer.fault
            (λ f. (result ≡ Err f) × (self.exit.0.now ≡ self.entry.out.now)) }
        // Writes the text held, sealed as the last chunk, or a prefix of that if a write failed.
        // The counts are the length of the whole plaintext and the number of its chunks.
        ensures text { IfNone self.entry.sealer.fault (FinishesBy self.entry.sealer
            (move_by W.taken self.entry.out.now self.exit.0.now) result) }
        ensures count { IfNone self.entry.sealer.fault
            (CountsIf is_write (W.failed self.entry.out.now) (W.failed self.exit.0.now) result) }
    {
        let StreamWriter { out, sealer } = self;
        sealer.finish(out)
    }

    /// Drops the writer. What is held is not written.
    pub fn abandon(self)
        // The sink is as the last call left it.
        ensures { self.exit.0.now ≡ self.entry.out.now }
    {
        let StreamWriter { out: _, sealer: _ } = self;
    }
}

/// Writes the nonce.
fn put_nonce<W: Sink>(nonce: &[u8; 16], out: &mut W) -> Result<(), StreamFault>
    ensures text { Writes (move_by W.taken out.old out.new) result nonce.now }
    ensures fault { IfErr result (λ fault. fault ≡ StreamFault.Write) }
    ensures count { CountsIf is_write (W.failed out.old) (W.failed out.new) result }
{
    match write_all(out, nonce) {
        Ok(()) => Ok(()),
        Err(_) => Err(StreamFault::Write),
    }
}
