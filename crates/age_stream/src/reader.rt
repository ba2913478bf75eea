//! Reading a payload chunk by chunk from a caller's source.
ghost use Rattle.std.specs.Prelude.{◌≡◌, ◌⊎◌, ◌≤◌, []};
ghost use Rattle.std.specs.Prelude.{Ok, Err, Some, None, IfOk, IfErr, IfSome, IfNone, IsErrOf, ⊤};
ghost use Rattle.std.specs.Borrow.{sem, follows_so};
ghost use Rattle.age_header.specs.Device.{CountsIf, flow_by, move_by};
ghost use Rattle.age_stream.specs.Counts.{is_read, is_write};
ghost use Rattle.age_stream.specs.Opening.{Advances, EndsAt, IsSpentAfter, WritesAll};
ghost use Rattle.age_stream.specs.Reader.{Lends, StartsReader, is_lent};
ghost use mathlib.Core.Option.{none};
ghost use mir.Syntax.{named};
ghost use Rattle.age_stream.specs.Sizes.{most_chunks};

use crate::buffer::ChunkBuf;
use crate::done::Done;
use crate::fault::StreamFault;
use crate::opening::ChunkOpener;
use crate::refused::Refused;
use age_header::{FileKey, Sink, Source};
use std::alloc::Global;

/// Reads a payload from a caller's source, and lends its chunks in order, each once it is verified.
/// After a fault, later calls return the same fault and do not read the source.
#[derive(Drop)]
pub struct StreamReader<'a, S, B = ChunkOpener> {
    input: &'a mut S,
    opener: B,
}

impl<'a, S: Source> StreamReader<'a, S> {
    ghost use Rattle.age_stream.specs.contracts.opening.ChunkOpener.{the_row as opener_row};
    ghost use Rattle.age_stream.specs.contracts.reader.StreamReader.{the_row};

    /// Makes a reader of this source, from which `opener` must have read the nonce. The call reads
    /// nothing.
    pub fn over(input: &'a mut S, opener: ChunkOpener) -> StreamReader<'a, S>
        ensures same_reference { result.input.ghost_name ≡ input.entry.ghost_name }
        ensures unchanged { result.input.now ≡ input.old }
        // The reader continues where `opener` was.
        ensures opener { result.opener ≡ opener }
    {
        StreamReader { input, opener }
    }

    /// Makes a reader, under this file key, of the payload that is left in the source. It allocates
    /// its buffer, and then reads the nonce. An error holds the source.
    ///
    /// # Errors
    /// `Memory` if the allocation was refused: nothing was read. `NonceTruncated` if the source
    /// returns fewer than 16 bytes, `Read` if it failed.
    pub fn new(
        alloc: Global,
        key: &FileKey,
        input: &'a mut S,
        max_chunks: u128,
    ) -> Result<StreamReader<'a, S>, Refused<'a, S, StreamFault>>
        requires { max_chunks ≤ most_chunks }
        ensures same_reference { IfOk result
            (λ reader. reader.input.ghost_name ≡ input.entry.ghost_name) }
        // The nonce was read, and piece 0 is next.
        ensures starts { IfOk result (λ reader. StartsReader S.to_come S.gave S.failed key.now
            max_chunks input.old reader.input.now (Ok reader.opener)) }
        ensures handed_back { IfErr result
            (λ refused. refused.device.ghost_name ≡ input.entry.ghost_name) }
        // Memory was refused and nothing was read, or the nonce is incomplete, or a read failed.
        ensures misses { IfErr result (λ refused. StartsReader S.to_come S.gave S.failed key.now
            max_chunks input.old refused.device.now (Err refused.fault)) }
    {
        let Ok(buf) = ChunkBuf::new(alloc) else {
            return Err(Refused::of(input, StreamFault::Memory));
        };
        match ChunkOpener::start(key, input, max_chunks, buf) {
            Ok(opener) => Ok(StreamReader::over(input, opener)),
            Err(fault) => Err(Refused::of(input, fault)),
        }
    }

    /// The text of the piece just opened.
    fn chunk(&self) -> &[u8]
        ensures { result.now ≡ self.now.opener.text }
    {
        self.opener.text()
    }

    /// Reads and opens the next piece. Returns false after the last piece.
    fn advance(&mut self) -> Result<bool, StreamFault>
        ensures same_reference { self.new.input.ghost_name ≡ self.old.input.ghost_name }
        ensures kept_fault { IfSome self.old.opener.fault (λ f. (result ≡ Err f)
            × (self.new.opener ≡ self.old.opener) × (self.new.input.now ≡ self.old.input.now)) }
        ensures keeps { IfNone self.old.opener.fault
            (IfErr result (λ f. self.new.opener.fault ≡ Some f)) }
        ensures count { IfNone self.old.opener.fault
            (CountsIf is_read (S.failed self.old.input.now) (S.failed self.new.input.now) result) }
        ensures opens { IfNone self.old.opener.fault (IsErrOf result StreamFault.Read
            ⊎ Advances self.old.opener self.new.opener
            (flow_by S.to_come S.gave self.old.input.now self.new.input.now) result) }
        ensures blank { IfNone self.old.opener.fault (IsSpentAfter self.new.opener result) }
    {
        self.opener.advance(self.input)
    }

    /// Lends the next chunk of the plaintext, once it is verified; `None` after the last. An empty
    /// plaintext has one empty chunk.
    ///
    /// # Errors
    /// The first that applies to the next piece, piece i: `TooManyChunks` if i reaches
    /// `max_chunks`, `ChunkShort` if the piece is shorter than a tag, 16 bytes, `EmptyFinal` if it
    /// is the last piece, but not the first, and only a tag, `BadChunk` if its tag is wrong. `Read`
    /// if the source failed.
    pub fn next_chunk(&mut self) -> Result<Option<&[u8]>, StreamFault>
        // Lends the next piece's text, or returns its fault. After the last piece, and after a
        // fault, the reader holds no text and no byte of another piece. The chunk is borrowed from
        // the reader, so the clause can speak of the reader only once the chunk is given back. The
        // reader is then `last`, and `λ last` says what holds of it. The words before `λ last` are
        // the checker's: `follows_so` names the lender by its `ghost_name`, and `the_row`, with the
        // lifetime `named 1`, is the layout of its type `StreamReader<S>`.
        ensures* after { sem 𝓛 (follows_so
            (the_row (record { mir = named 1; lft = [] }) S.row opener_row)
            (the_row (record { mir = named 1; lft = [] }) S.row opener_row) self.entry.ghost_name
            none (λ _ _. ⊤) (λ last. (last.input.ghost_name ≡ self.old.input.ghost_name)
            × IfSome self.old.opener.fault
            (λ f. (last.opener ≡ self.old.opener) × (last.input.now ≡ self.old.input.now))
            × IfNone self.old.opener.fault (Lends self.old.opener last.opener
            (flow_by S.to_come S.gave self.old.input.now last.input.now)
            (S.failed self.old.input.now) (S.failed last.input.now) (is_lent result))
            × IfOk result (λ o. IfSome o (λ piece. piece.now ≡ last.opener.text)))) }
        // A kept fault is returned.
        ensures kept_fault { IfSome self.old.opener.fault (λ f. result ≡ Err f) }
    {
        if self.advance()? {
            Ok(Some(self.chunk()))
        } else {
            Ok(None)
        }
    }

    /// Writes the chunks of the plaintext that are left, each as soon as it is verified. Returns
    /// the numbers of bytes and chunks written.
    ///
    /// # Errors
    /// Those of `next_chunk`: the chunks before the fault were written. `Write` if the sink failed:
    /// a prefix of the plaintext left was written.
    pub fn copy_to<W: Sink>(self, out: &mut W) -> Result<Done, StreamFault>
        // A kept fault is returned, and neither device is called.
        ensures kept_fault { IfSome self.entry.opener.fault (λ f.
            (result ≡ Err f) × (self.exit.0.now ≡ self.entry.input.now) × (out.new ≡ out.old)) }
        // Writes the openings of the pieces left, up to the first fault, which is returned. On Ok
        // the counts are the length of the written text and the number of its pieces. If a device
        // failed, a prefix of the openings was written.
        ensures writes_all { IfNone self.entry.opener.fault (WritesAll self.entry.opener
            (flow_by S.to_come S.gave self.entry.input.now self.exit.0.now)
            (move_by W.taken out.old out.new) result) }
        // A fault other than `Read` is that of a piece i, or of a write after at least 65,536 i
        // bytes. The call then read at most 65,552 (i + 1) + 1 bytes of the source.
        ensures ends { IfNone self.entry.opener.fault (IfErr result (λ f. (f ≡ StreamFault.Read)
            ⊎ EndsAt self.entry.opener.max_chunks 0
            (flow_by S.to_come S.gave self.entry.input.now self.exit.0.now)
            (move_by W.taken out.old out.new) f)) }
        ensures reads { IfNone self.entry.opener.fault
            (CountsIf is_read (S.failed self.entry.input.now) (S.failed self.exit.0.now) result) }
        ensures writes { IfNone self.entry.opener.fault
            (CountsIf is_write (W.failed out.old) (W.failed out.new) result) }
    {
        let StreamReader { input, opener } = self;
        match opener.kept() {
            Some(fault) => Err(fault),
            None => opener.write_pieces(input, out),
        }
    }
}
