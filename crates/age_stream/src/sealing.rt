//! Sealing a payload's chunks, one after another.
ghost use Rattle.std.specs.Prelude.{◌≡◌, ◌⊎◌, ◌<◌, ◌≤◌, ◌+◌, ◌-◌, ◌^◌, ◌++◌, [], length, take};
ghost use Rattle.std.specs.Prelude.{Some, None, Ok, Err, IfOk, OnOk, OnErr, IfErr, IfSome, IfNone};
ghost use Rattle.std.specs.Prelude.{MatchResult};
ghost use Rattle.std.specs.Io.KnownBytes.{Appends, IsAtEnd};
ghost use Rattle.age_cipher.specs.Sealing.{sealed_text};
ghost use Rattle.age_header.specs.Device.{Counts, CountsIf, GaveSome, Writes, flow_by, move_by};
ghost use Rattle.age_header.specs.Filling.{Filled};
ghost use Rattle.age_stream.specs.Counts.{is_read, is_write};
ghost use Rattle.age_stream.specs.Sealing.{Fills, IsFed, PutsFull, Stopped, TakesAll, FinishesBy};
ghost use Rattle.age_stream.specs.Payload.{payload_key, chunk_nonce};
ghost use Rattle.age_stream.specs.Sizes.{chunk_size, sealed_chunk_size, most_chunks, tag_size};
ghost use Rattle.age_stream.specs.Sizes.{chunk_buf_size};

use crate::buffer::ChunkBuf;
use crate::chunk_keys::{chunk_nonce, payload_key};
use crate::done::Done;
use crate::fault::StreamFault;
use crate::sizes::{CHUNK_SIZE, TAG_SIZE};
use age_cipher::seal_in_place;
use age_header::{DeviceFault, FileKey, Sink, Source, fill_from, write_all};
use std::marker::Model;

/// Seals the chunks of a plaintext in order, each in the same memory. It holds a full chunk until
/// more text comes, because the last chunk is sealed with another nonce. After a fault, later calls
/// return the same fault and call no device.
#[derive(Drop)]
pub struct ChunkSealer {
    key: [u8; 32],
    max_chunks: u128,
    index: u128,
    buf: Vec<u8>,
    len: usize,
    fault: Option<StreamFault>,
}

impl Model for ChunkSealer {
    ghost use Rattle.std.specs.Prelude.{◌≡◌, ◌≤◌, ◌<◌, ◌^◌, length, take, vec_capacity};
    ghost use Rattle.age_stream.specs.Sealing.{SealerState};
    ghost use Rattle.age_stream.specs.Sizes.{chunk_size, chunk_buf_size, most_chunks};

    ghost Value = { SealerState };

    ghost view = { λ s. record {
      key = s.key;
      max_chunks = s.max_chunks;
      index = s.index;
      held = take s.len s.buf.items;
      fault = s.fault;
    } };

    ghost invariant = { λ s. (length s.buf.items ≡ chunk_buf_size) × (s.len ≤ chunk_size)
        × (s.index < s.max_chunks) × (s.max_chunks ≤ most_chunks)
        × (vec_capacity s.buf ≡ chunk_buf_size) };
}

impl ChunkSealer {
    ghost use Rattle.age_stream.specs.Sealing.{at_start};

    /// Makes a sealer of the payload with this nonce under this file key. Chunk 0 is next.
    pub fn new(key: &FileKey, nonce: &[u8; 16], max_chunks: u128, buf: ChunkBuf) -> ChunkSealer
        requires low { 1 ≤ max_chunks }
        requires high { max_chunks ≤ most_chunks }
        ensures { result ≡ at_start (payload_key key.now nonce.now) max_chunks }
    {
        ChunkSealer {
            key: payload_key(key, nonce),
            max_chunks,
            index: 0,
            buf: buf.into_bytes(),
            len: 0,
            fault: None,
        }
    }

    /// Reads until a full chunk is held, or the source is at its end. Returns whether the source
    /// may give more. It writes nothing.
    ///
    /// # Errors
    /// `Read` if the source failed.
    pub fn fill<S: Source>(&mut self, plain: &mut S) -> Result<bool, StreamFault>
        // A kept fault is returned, and the source is not read.
        ensures kept_fault { IfSome self.old.fault (λ f. (result ≡ Err f) × (self.new ≡ self.old)
            × (plain.new ≡ plain.old)) }
        // Takes what the source gives, up to a full chunk, writes nothing, and returns whether the
        // source may give more.
        ensures fills { IfNone self.old.fault
            (Fills self.old self.new (flow_by S.to_come S.gave plain.old plain.new) result) }
        ensures reads { IfNone self.old.fault
            (CountsIf is_read (S.failed plain.old) (S.failed plain.new) result) }
    {
        if let Some(kept) = self.fault {
            return Err(kept);
        }
        match fill_up_to(plain, self.buf.as_mut_slice(), self.len, CHUNK_SIZE) {
            Ok(len) => {
                self.len = len;
                Ok(len == CHUNK_SIZE)
            }
            Err(_) => {
                self.fault = Some(StreamFault::Read);
                Err(StreamFault::Read)
            }
        }
    }

    /// Reads all bytes left in the source, and writes the chunks that are full and not the last.
    pub fn write_from<S: Source, W: Sink>(
        &mut self,
        plain: &mut S,
        out: &mut W,
    ) -> Result<(), StreamFault>
        // A kept fault is returned, and neither device is called.
        ensures kept_fault { IfSome self.old.fault (λ f. (result ≡ Err f) × (self.new ≡ self.old)
            × (plain.new ≡ plain.old) × (out.new ≡ out.old)) }
        // However the plaintext is split among calls, the chunks written so far and those that
        // follow are the payload's. Too many chunks are refused at the first byte of the first
        // chunk over the limit. At most 65,536 bytes are held.
        ensures takes { IfNone self.old.fault (TakesAll self.old self.new
            (flow_by S.to_come S.gave plain.old plain.new) (move_by W.taken out.old out.new)
            result) }
        ensures reads { IfNone self.old.fault
            (CountsIf is_read (S.failed plain.old) (S.failed plain.new) result) }
        ensures writes { IfNone self.old.fault
            (CountsIf is_write (W.failed out.old) (W.failed out.new) result) }
    {
        if let Some(fault) = self.fault {
            return Err(fault);
        }
        match feed(
            plain,
            out,
            &self.key,
            self.max_chunks,
            &mut self.index,
            self.buf.as_mut_slice(),
            self.len,
        ) {
            Ok(len) => {
                self.len = len;
                Ok(())
            }
            Err(fault) => {
                self.fault = Some(fault);
                Err(fault)
            }
        }
    }

    /// Seals and writes the text held, as the last chunk. Returns the total numbers of bytes and
    /// chunks sealed.
    pub fn finish<W: Sink>(self, out: &mut W) -> Result<Done, StreamFault>
        // A kept fault is returned, and nothing is written.
        ensures kept_fault { IfSome self.fault (λ f. (result ≡ Err f) × (out.new ≡ out.old)) }
        // Writes the text held, sealed as the last chunk, or a prefix of that if a write failed.
        // The counts are the length of the whole plaintext and the number of its chunks.
        ensures text { IfNone self.fault
            (FinishesBy self (move_by W.taken out.old out.new) result) }
        ensures writes { IfNone self.fault
            (CountsIf is_write (W.failed out.old) (W.failed out.new) result) }
    {
        let ChunkSealer {
            key,
            max_chunks: _,
            index,
            buf,
            len,
            fault,
        } = self;
        if let Some(fault) = fault {
            return Err(fault);
        }
        let mut buf = buf;
        match put_sealed(out, &key, index, true, buf.as_mut_slice(), len) {
            Ok(()) => Ok(Done {
                bytes: CHUNK_SIZE as u128 * index + len as u128,
                chunks: index + 1,
            }),
            Err(_) => Err(StreamFault::Write),
        }
    }
}

/// Reads all bytes left in the source into the buffer, whose first `len` bytes are held, and writes
/// each full chunk that is not the last. Returns the number of bytes held in the end.
fn feed<S: Source, W: Sink>(
    plain: &mut S,
    out: &mut W,
    key: &[u8; 32],
    max: u128,
    index: &mut u128,
    bytes: &mut [u8],
    len: usize,
) -> Result<usize, StreamFault>
    requires size { length bytes.old ≡ chunk_buf_size }
    requires held { len ≤ chunk_size }
    requires within { index.old < max }
    requires small { max ≤ most_chunks }
    ensures size { length bytes.new ≡ chunk_buf_size }
    ensures within { index.new < max }
    ensures len { IfOk result (λ n. n ≤ chunk_size) }
    ensures fed { MatchResult result
        (λ n. IsFed key.now index.old index.new (take len bytes.old) (take n bytes.new)
        (flow_by S.to_come S.gave plain.old plain.new) (move_by W.taken out.old out.new)
        × IsAtEnd (S.to_come plain.new))
        (Stopped key.now max index.old index.new (take len bytes.old)
        (flow_by S.to_come S.gave plain.old plain.new) (move_by W.taken out.old out.new)) }
    ensures reads { CountsIf is_read (S.failed plain.old) (S.failed plain.new) result }
    ensures writes { CountsIf is_write (W.failed out.old) (W.failed out.new) result }
{
    let mut held = len;
    loop {
        let n = match fill_up_to(plain, bytes, held, CHUNK_SIZE + 1) {
            Ok(n) => n,
            Err(_) => return Err(StreamFault::Read),
        };
        let is_last = n <= CHUNK_SIZE;
        if is_last {
            return Ok(n);
        }
        put_full(out, key, max, index, bytes)?;
        held = 1;
    }
}

/// Fills the buffer from byte `held` up to byte `most`, or until the source is at its end.
fn fill_up_to<S: Source>(
    plain: &mut S,
    bytes: &mut [u8],
    held: usize,
    most: usize,
) -> Result<usize, DeviceFault>
    requires size { length bytes.old ≡ chunk_buf_size }
    requires held { held ≤ most }
    requires most { most ≤ chunk_size + 1 }
    ensures size { length bytes.new ≡ chunk_buf_size }
    ensures bytes { IfOk result (λ n. (n ≤ most)
        × Filled held n bytes.old bytes.new (flow_by S.to_come S.gave plain.old plain.new)) }
    ensures end { IfOk result (λ n. n < most → IsAtEnd (S.to_come plain.new)) }
    ensures lost { OnErr result (GaveSome (flow_by S.to_come S.gave plain.old plain.new)) }
    ensures count { Counts (S.failed plain.old) (S.failed plain.new) result }
{
    let (prefix, _) = bytes.split_at_mut(most);
    fill_from(plain, prefix, held)
}

/// Seals and writes the full chunk at the start of the buffer, not as the last, and moves the byte
/// after it to the start. Returns `TooManyChunks` if the limit allows no chunk after this one.
fn put_full<W: Sink>(
    out: &mut W,
    key: &[u8; 32],
    max: u128,
    index: &mut u128,
    bytes: &mut [u8],
) -> Result<(), StreamFault>
    requires size { length bytes.old ≡ chunk_buf_size }
    requires within { index.old < max }
    requires small { max ≤ most_chunks }
    ensures size { length bytes.new ≡ chunk_buf_size }
    ensures within { index.new < max }
    ensures puts { PutsFull key.now max index.old index.new bytes.old bytes.new
        (move_by W.taken out.old out.new) result }
    ensures writes { CountsIf is_write (W.failed out.old) (W.failed out.new) result }
{
    if *index + 1 >= max {
        return Err(StreamFault::TooManyChunks);
    }
    let next = bytes[CHUNK_SIZE];
    match put_sealed(out, key, *index, false, bytes, CHUNK_SIZE) {
        Ok(()) => {
            bytes[0] = next;
            *index += 1;
            Ok(())
        }
        Err(_) => Err(StreamFault::Write),
    }
}

/// Seals the first `len` bytes in place, and writes them with their tag.
fn put_sealed<W: Sink>(
    out: &mut W,
    key: &[u8; 32],
    i: u128,
    last: bool,
    bytes: &mut [u8],
    len: usize,
) -> Result<(), DeviceFault>
    requires size { length bytes.old ≡ chunk_buf_size }
    requires len { len ≤ chunk_size }
    requires small { i < most_chunks }
    ensures size { length bytes.new ≡ chunk_buf_size }
    ensures text { Writes (move_by W.taken out.old out.new) result
        (sealed_text key.now (chunk_nonce i last) [] (take len bytes.old)) }
    ensures count { Counts (W.failed out.old) (W.failed out.new) result }
{
    let (piece, _) = bytes.split_at_mut(len + TAG_SIZE);
    seal_chunk(key, i, last, piece);
    write_all(out, piece)
}

/// Seals all but the last 16 bytes in place, as chunk i; the last 16 become the tag. `last` says
/// whether the chunk ends its payload.
pub fn seal_chunk(key: &[u8; 32], i: u128, last: bool, chunk: &mut [u8])
    requires low { tag_size ≤ length chunk.old }
    requires high { length chunk.old ≤ sealed_chunk_size }
    requires small { i < most_chunks }
    ensures len { length chunk.new ≡ length chunk.old }
    // The buffer holds the chunk, sealed as chunk i.
    ensures sealed { chunk.new
        ≡ sealed_text key.now (chunk_nonce i last) [] (take
        (length chunk.old - tag_size) chunk.old) }
{
    let len = chunk.len() - TAG_SIZE;
    let (text, end) = chunk.split_at_mut(len);
    let tag = seal_in_place(key, &chunk_nonce(i, last), b"", text);
    end.copy_from_slice(&tag);
}
