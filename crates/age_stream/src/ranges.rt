//! Reading any part of a plaintext from a caller's source.
ghost use Rattle.std.specs.Prelude.{◌≡◌, Ok, Err, IfOk, IfErr};
ghost use Rattle.age_stream.specs.Ranges.{ReadsRange, StartsRanges};

use crate::chunks::Chunks;
use crate::fault::StreamFault;
use crate::read_at::ReadAt;
use crate::refused::Refused;
use age_header::FileKey;
use std::alloc::Global;
use std::marker::Model;

/// Reads any part of a payload's plaintext from a caller's source. To read a part it opens only the
/// chunks that the part touches, and not the first of these if that is the chunk kept. It allocates
/// one `ChunkBuf`, once.
#[derive(Drop)]
pub struct RangeReader<'a, D: ReadAt> {
    dev: &'a mut D,
    chunks: Chunks,
}

impl<'a, D: ReadAt> Model for RangeReader<'a, D> {
    ghost use Rattle.age_stream.specs.Ranges.{IsSound, RangesOver};

    ghost Value = { RangesOver D };

    ghost view = { λ r. record { dev = r.dev; chunks = r.chunks } };

    ghost invariant = { λ r. IsSound (D.gave r.dev.now) (D.found r.dev.now) r.chunks };
}

impl<'a, D: ReadAt> RangeReader<'a, D> {
    /// Makes a reader of the payload that begins at offset `payload_at` of the source, under this
    /// file key (C2SP `age.md`, "Payload"). It allocates its buffer, reads the nonce, and reads and
    /// opens the last piece, whose length and tag prove where the payload ends. The last chunk is
    /// then the kept one. An error holds the source.
    ///
    /// # Errors
    /// `Memory` if the allocation was refused: nothing was read. `NonceTruncated` if there are
    /// fewer than 16 bytes from `payload_at` on. Then the first that applies: `TooManyChunks` if
    /// there are more than `max_chunks` pieces; of the last piece `ChunkShort` if it is shorter
    /// than a tag, `EmptyFinal` if it is only a tag and not the first piece, `BadChunk` if its tag
    /// is wrong. `Read` if the source failed.
    pub fn open(
        alloc: Global,
        key: &FileKey,
        dev: &'a mut D,
        payload_at: u64,
        max_chunks: u128,
    ) -> Result<RangeReader<'a, D>, Refused<'a, D, StreamFault>>
        ensures same_reference { IfOk result
            (λ reader. reader.dev.ghost_name ≡ dev.entry.ghost_name) }
        // The reader has opened and keeps the last chunk, and has read at most the nonce and the
        // last piece. Its key is derived from the file key and the nonce read at `payload_at`, its
        // pieces end at the size found, and the last piece, as read, opens to the text kept.
        ensures opens { IfOk result (λ reader. StartsRanges D.bytes D.given D.failed D.gave
            D.found key.now max_chunks payload_at dev.old reader.dev.now (Ok reader.chunks)) }
        ensures handed_back { IfErr result
            (λ refused. refused.device.ghost_name ≡ dev.entry.ghost_name) }
        // The fault is the first of these that the size found and the bytes read show: a truncated
        // nonce, too many pieces, a fault of the last piece. Or it is `Read`, which is counted, or
        // `Memory`, and then the source is unchanged. It is never `Write`.
        ensures refuses { IfErr result (λ refused. StartsRanges D.bytes D.given D.failed D.gave
            D.found key.now max_chunks payload_at dev.old refused.device.now (Err refused.fault)) }
    {
        match Chunks::open(alloc, key, dev, payload_at, max_chunks) {
            Ok(chunks) => Ok(RangeReader { dev, chunks }),
            Err(fault) => Err(Refused::of(dev, fault)),
        }
    }

    /// Returns the source, and drops what the reader knows: the offsets and the chunk kept.
    pub fn into_inner(self) -> &'a mut D
        ensures same_reference { result.ghost_name ≡ self.entry.dev.ghost_name }
        // The source is as the reader left it.
        ensures unchanged { result.now ≡ self.entry.dev.now }
    {
        self.dev
    }

    /// The plaintext's length in bytes.
    pub fn plain_len(&self) -> u64
        ensures { result ≡ self.now.chunks.layout.plain }
    {
        self.chunks.layout().plain
    }

    /// The number of attempts so far to read and open a chunk, failures included, saturating at the
    /// largest `u64`. It is 1 after `open`.
    pub fn opened(&self) -> u64
        ensures { result ≡ self.now.chunks.opened }
    {
        self.chunks.opened()
    }

    /// Fills the start of `buf` with the plaintext from offset `at` on, and returns the number of
    /// bytes: the smaller of `buf.len()` and the length of the plaintext from `at` on, which is 0
    /// past its end. The rest of `buf` is unchanged. An empty range reads nothing. Of any other
    /// range the last chunk is then kept. The call allocates nothing.
    ///
    /// # Errors
    /// `BadChunk(i)` if chunk i is the first of the range that does not open; `Read` if a read of a
    /// chunk failed. Then `buf` has the bytes before this chunk, the rest of `buf` is unchanged,
    /// and no chunk is kept. A later call reads the source again.
    pub fn read_range(&mut self, at: u64, buf: &mut [u8]) -> Result<usize, StreamFault>
        ensures same_reference { self.new.dev.ghost_name ≡ self.old.dev.ghost_name }
        // If every touched chunk can be read and opens, fills the start of the buffer with the
        // plaintext from the offset on, as much as there is and fits, and returns the number of
        // bytes. Otherwise returns `Read` or `BadChunk` for the first chunk that fails, with the
        // bytes before that chunk in the buffer. The rest of the buffer is unchanged.
        ensures reads { ReadsRange D.bytes D.given D.failed D.gave at
            (record { source = self.old.dev.now; chunks = self.old.chunks; buf = buf.old })
            (record { source = self.new.dev.now; chunks = self.new.chunks; buf = buf.new })
            result }
    {
        self.chunks.read_range(self.dev, at, buf)
    }
}
