//! Opening a payload's pieces, one after another.
ghost use Rattle.std.specs.Prelude.{◌≡◌, ◌≢◌, ◌⊎◌, ◌<◌, ◌≤◌, ◌+◌, ◌-◌, ◌^◌, ◌++◌, ◌&&◌, [], length};
ghost use Rattle.std.specs.Prelude.{take, drop, Some, None, Ok, Err, IfOk, OnOk, OnErr, IfErr};
ghost use Rattle.std.specs.Prelude.{IfSome, IfNone, IsErrOf, MatchResult, nat_lt, nat_eq, true};
ghost use Rattle.std.specs.Bool.{OnTrue, OnFalse};
ghost use Rattle.age_kdf.specs.Bytes.{Bytes};
ghost use Rattle.age_cipher.specs.Sealing.{opened_text};
ghost use Rattle.age_header.specs.Device.{Counts, CountsIf, GaveAtMost, GaveSome, flow_by, move_by};
ghost use Rattle.age_stream.specs.Counts.{is_read, is_write};
ghost use Rattle.age_stream.specs.Opening.{Advances, EndsAt, GivesNonce, GivesText, IsAtPiece};
ghost use Rattle.age_stream.specs.Opening.{IsSpentAfter, Loses, ReadsAhead, ReadsPiece, Starts};
ghost use Rattle.age_stream.specs.Opening.{WritesAll};
ghost use Rattle.age_stream.specs.Reading.{outcome};
ghost use Rattle.age_stream.specs.Sizes.{chunk_size, sealed_chunk_size, most_chunks, nonce_size};
ghost use Rattle.age_stream.specs.Sizes.{tag_size, chunk_buf_size};

use crate::buffer::ChunkBuf;
use crate::chunk_keys::{chunk_nonce, payload_key};
use crate::done::Done;
use crate::fault::StreamFault;
use crate::sizes::{NONCE_SIZE, SEALED_CHUNK_SIZE, TAG_SIZE};
use age_cipher::open_in_place;
use age_header::{DeviceFault, FileKey, Sink, Source, fill_from, write_all};
use std::marker::Model;

/// Opens the pieces of a payload in order, each in the same memory. After a fault, later calls
/// return the same fault and do not read the source.
#[derive(Drop)]
pub struct ChunkOpener {
    key: [u8; 32],
    max_chunks: u128,
    index: u128,
    buf: Vec<u8>,
    len: usize,
    ahead: usize,
    more: bool,
    fault: Option<StreamFault>,
}

impl Model for ChunkOpener {
    ghost use Rattle.std.specs.Prelude.{◌≡◌, ◌≤◌, ◌^◌, length, take, drop, vec_capacity};
    ghost use Rattle.age_stream.specs.Opening.{OpenerState, held_of};
    ghost use Rattle.age_stream.specs.Sizes.{chunk_size, sealed_chunk_size, chunk_buf_size};
    ghost use Rattle.age_stream.specs.Sizes.{most_chunks};

    ghost Value = { OpenerState };

    ghost view = { λ o. record {
      key = o.key;
      max_chunks = o.max_chunks;
      index = o.index;
      held = held_of o.more (take o.ahead (drop sealed_chunk_size o.buf.items));
      text = take o.len o.buf.items;
      fault = o.fault;
    } };

    ghost invariant = { λ o. (length o.buf.items ≡ chunk_buf_size) × (o.ahead ≤ 1)
        × (o.len ≤ chunk_size) × (o.index ≤ o.max_chunks) × (o.max_chunks ≤ most_chunks)
        × (vec_capacity o.buf ≡ chunk_buf_size) };
}

impl ChunkOpener {
    ghost use Rattle.age_stream.specs.Opening.{OpenerState};

    /// Reads the nonce of a payload, and makes an opener whose next piece is piece 0.
    ///
    /// # Errors
    /// `NonceTruncated` if the source returns fewer than 16 bytes, `Read` if it failed.
    pub fn start<S: Source>(
        key: &FileKey,
        source: &mut S,
        max_chunks: u128,
        buf: ChunkBuf,
    ) -> Result<ChunkOpener, StreamFault>
        requires { max_chunks ≤ most_chunks }
        // On Ok the nonce was read, and piece 0 comes next. Otherwise there is no whole nonce, or a
        // read failed.
        ensures starts { Starts key.now max_chunks (flow_by S.to_come S.gave source.old source.new)
            result }
        // Unless a read failed, at most 16 bytes were read.
        ensures gave { IsErrOf result StreamFault.Read
            ⊎ GaveAtMost nonce_size (flow_by S.to_come S.gave source.old source.new) }
        ensures count { CountsIf is_read (S.failed source.old) (S.failed source.new) result }
    {
        let nonce = read_nonce(source)?;
        Ok(ChunkOpener {
            key: payload_key(key, &nonce),
            max_chunks,
            index: 0,
            buf: buf.into_bytes(),
            len: 0,
            ahead: 0,
            more: true,
            fault: None,
        })
    }

    /// Lends the text of the piece just opened, empty unless the last `advance` returned true.
    pub fn text(&self) -> &[u8]
        // The text of the opener's state.
        ensures text { result.now ≡ self.now.text }
        // At most 65,536 bytes.
        ensures len { length result.now ≤ chunk_size }
    {
        &self.buf.as_slice()[..self.len]
    }

    /// The kept fault, if there is one.
    pub(crate) fn kept(&self) -> Option<StreamFault>
        ensures { result ≡ self.now.fault }
    {
        self.fault
    }

    /// Reads and opens the next piece. Returns false after the last piece.
    pub fn advance<S: Source>(&mut self, source: &mut S) -> Result<bool, StreamFault>
        // A kept fault is returned; the source is not read, and nothing changes.
        ensures kept_fault { IfSome self.old.fault
            (λ f. (result ≡ Err f) × (source.new ≡ source.old) × (self.new ≡ self.old)) }
        // A fault is kept, and every later call returns it.
        ensures keeps { IfNone self.old.fault (IfErr result (λ f. self.new.fault ≡ Some f)) }
        ensures count { IfNone self.old.fault
            (CountsIf is_read (S.failed source.old) (S.failed source.new) result) }
        // Unless a read failed, the next piece is opened under its number, or its fault is
        // returned; after the last piece the result is false. Text and fault are those of the bytes
        // that the source gave, joined in order, whether or not its contents are known. No byte
        // that was read is left out.
        ensures opens { IfNone self.old.fault (IsErrOf result StreamFault.Read
            ⊎ Advances self.old self.new (flow_by S.to_come S.gave source.old source.new) result) }
        // On a fault there was a piece left, and the source gave some bytes, perhaps none.
        ensures lost { IfNone self.old.fault
            (OnErr result (Loses self.old.held
            (flow_by S.to_come S.gave source.old source.new))) }
        // After the result false, and after a fault, the opener has no text and holds no byte of
        // another piece.
        ensures blank { IfNone self.old.fault (IsSpentAfter self.new result) }
    {
        if let Some(fault) = self.fault {
            return Err(fault);
        }
        if !self.more {
            self.len = 0;
            return Ok(false);
        }
        match next_piece(
            source,
            self.buf.as_mut_slice(),
            &self.key,
            self.max_chunks,
            self.index,
            self.ahead,
        ) {
            Ok(piece) => {
                self.len = piece.len;
                self.more = piece.more;
                self.ahead = 1;
                self.index += 1;
                Ok(true)
            }
            Err(fault) => {
                self.len = 0;
                self.more = false;
                self.fault = Some(fault);
                Err(fault)
            }
        }
    }

    /// Opens the pieces that are left, and writes the text of each as soon as it is verified.
    /// Returns the numbers of bytes and chunks written.
    pub(crate) fn write_pieces<S: Source, W: Sink>(
        self,
        source: &mut S,
        out: &mut W,
    ) -> Result<Done, StreamFault>
        requires { self.fault ≡ None }
        ensures writes_all { WritesAll self (flow_by S.to_come S.gave source.old source.new)
            (move_by W.taken out.old out.new) result }
        ensures ends { IfErr result (λ f. (f ≡ StreamFault.Read)
            ⊎ EndsAt self.max_chunks 0 (flow_by S.to_come S.gave source.old source.new)
            (move_by W.taken out.old out.new) f) }
        ensures reads { CountsIf is_read (S.failed source.old) (S.failed source.new) result }
        ensures writes { CountsIf is_write (W.failed out.old) (W.failed out.new) result }
    {
        let mut opener = self;
        let mut done = Done {
            bytes: 0,
            chunks: 0,
        };
        loop {
            match opener.advance(source) {
                Ok(true) => done.chunks += 1,
                Ok(false) => return Ok(done),
                Err(fault) => return Err(fault),
            }
            match write_all(out, opener.text()) {
                Ok(()) => done.bytes += opener.text().len() as u128,
                Err(_) => return Err(StreamFault::Write),
            }
        }
    }
}

/// The length of a piece's text, and whether another piece follows.
#[derive(Clone, Copy)]
struct Piece {
    len: usize,
    more: bool,
}

/// Reads the next piece, and opens it as piece i. Before the call, if `ahead` is 1, the last byte
/// of the buffer is the first byte of this piece. After the call, if another piece follows, the
/// last byte of the buffer is the first byte of that piece.
fn next_piece<S: Source>(
    source: &mut S,
    bytes: &mut [u8],
    key: &[u8; 32],
    max: u128,
    i: u128,
    ahead: usize,
) -> Result<Piece, StreamFault>
    requires size { length bytes.old ≡ chunk_buf_size }
    requires ahead { ahead ≤ 1 }
    requires index { i ≤ max }
    requires small { max ≤ most_chunks }
    ensures len { length bytes.new ≡ chunk_buf_size }
    ensures count { CountsIf is_read (S.failed source.old) (S.failed source.new) result }
    ensures opens { IsErrOf result StreamFault.Read
        ⊎ ReadsPiece key.now max i (take ahead (drop sealed_chunk_size bytes.old)) bytes.new
        (flow_by S.to_come S.gave source.old source.new) result }
    ensures lost { OnErr result (GaveSome (flow_by S.to_come S.gave source.old source.new)) }
    ensures at { IfErr result (λ f. (f ≡ StreamFault.Read) ⊎ IsAtPiece max i f) }
    ensures size { IfOk result
        (λ piece. (piece.len ≤ chunk_size) × (piece.more ≡ true → piece.len ≡ chunk_size)) }
    ensures within { OnOk result (i < max) }
{
    let Ok(n) = read_piece(source, bytes, SEALED_CHUNK_SIZE, ahead) else {
        return Err(StreamFault::Read);
    };
    let last = n <= SEALED_CHUNK_SIZE;
    let len = open_chunk(key, max, i, last, bytes, n.min(SEALED_CHUNK_SIZE))?;
    Ok(Piece { len, more: !last })
}

/// Reads the next piece, at most `size` bytes, and the byte after it, if any. Returns the number of
/// bytes. If `ahead` is 1, the first of them was read before: it was the last byte of the buffer.
pub(crate) fn read_piece<S: Source>(
    source: &mut S,
    bytes: &mut [u8],
    size: usize,
    ahead: usize,
) -> Result<usize, DeviceFault>
    requires size { length bytes.old ≡ size + 1 }
    requires ahead { ahead ≤ 1 }
    requires some { 0 < size }
    ensures len { length bytes.new ≡ size + 1 }
    ensures reads { IfOk result (λ n. ReadsAhead size (take ahead (drop size bytes.old)) n
        bytes.new (flow_by S.to_come S.gave source.old source.new)) }
    ensures lost { OnErr result (GaveSome (flow_by S.to_come S.gave source.old source.new)) }
    ensures count { Counts (S.failed source.old) (S.failed source.new) result }
{
    carry(bytes, size, ahead);
    fill_from(source, bytes, ahead)
}

/// Reads the 16 bytes of a payload's nonce.
pub(crate) fn read_nonce<S: Source>(source: &mut S) -> Result<[u8; 16], StreamFault>
    ensures nonce { GivesNonce (flow_by S.to_come S.gave source.old source.new) result }
    ensures gave { IsErrOf result StreamFault.Read
        ⊎ GaveAtMost nonce_size (flow_by S.to_come S.gave source.old source.new) }
    ensures count { CountsIf is_read (S.failed source.old) (S.failed source.new) result }
{
    let mut nonce = [0; NONCE_SIZE];
    match fill_from(source, &mut nonce, 0) {
        Ok(NONCE_SIZE) => Ok(nonce),
        Ok(_) => Err(StreamFault::NonceTruncated),
        Err(_) => Err(StreamFault::Read),
    }
}

/// Moves what was read ahead to the start of the buffer.
fn carry(bytes: &mut [u8], size: usize, ahead: usize)
    requires size { length bytes.old ≡ size + 1 }
    requires ahead { ahead ≤ 1 }
    requires some { 0 < size }
    ensures prefix { take ahead bytes.new ≡ take ahead (drop size bytes.old) }
{
    let (prefix, end) = bytes.split_at_mut(size);
    let (first, _) = prefix.split_at_mut(ahead);
    let (next, _) = end.split_at(ahead);
    first.copy_from_slice(next);
}

/// Opens the first `end` bytes in place, as chunk i, and returns the length of their text, which is
/// then at the start of the buffer. The tag, and what follows it, is unchanged. `last` says whether
/// the chunk ends its payload. A payload may have at most `max` chunks (C2SP `age.md`, "Payload").
///
/// # Errors
/// The first that applies: `TooManyChunks` if `i` is `max`; `ChunkShort` if `end` is less than the
/// 16 bytes of a tag; `EmptyFinal` if the last chunk, but not the first, is only a tag; `BadChunk`
/// if the tag is wrong. After an error the buffer is unchanged.
#[tactic(auto, unfolding(crate::specs::Reading::outcome))]
pub fn open_chunk(
    key: &[u8; 32],
    max: u128,
    i: u128,
    last: bool,
    bytes: &mut [u8],
    end: usize,
) -> Result<usize, StreamFault>
    requires high { end ≤ length bytes.old }
    requires size { end ≤ sealed_chunk_size }
    requires index { i ≤ max }
    requires small { i < max → i < most_chunks }
    ensures len { length bytes.new ≡ length bytes.old }
    // The bytes after the text are unchanged.
    ensures rest { drop (end - tag_size) bytes.new ≡ drop (end - tag_size) bytes.old }
    // The text is as long as the piece without its tag.
    ensures size { IfOk result (λ n. n ≡ end - tag_size) }
    // The piece's outcome at its number is returned, and its text is at the start of the buffer.
    ensures text { GivesText (outcome key.now max i last (take end bytes.old)) bytes.new result }
    // On a fault the whole buffer is unchanged.
    ensures unchanged { OnErr result (bytes.new ≡ bytes.old) }
    // A chunk opens only below the limit.
    ensures within { OnOk result (i < max) }
    // A fault is one of piece i, or too many chunks, and then i is the limit.
    ensures at { IfErr result (IsAtPiece max i) }
{
    if i >= max {
        return Err(StreamFault::TooManyChunks);
    }
    if end < TAG_SIZE {
        return Err(StreamFault::ChunkShort(i));
    }
    if is_empty_final(last, i, end) {
        return Err(StreamFault::EmptyFinal(i));
    }
    if open_prefix(key, &chunk_nonce(i, last), bytes, end) {
        Ok(end - TAG_SIZE)
    } else {
        Err(StreamFault::BadChunk(i))
    }
}

/// Whether the piece is the last, not the first, and only a tag.
fn is_empty_final(last: bool, i: u128, len: usize) -> bool
    ensures { result ≡ (last && nat_lt 0 i && nat_eq len tag_size) }
{
    last && i > 0 && len == TAG_SIZE
}

/// Opens the first `end` bytes in place, and returns whether they open. If not, nothing changes.
pub(crate) fn open_prefix(key: &[u8; 32], nonce: &[u8; 12], bytes: &mut [u8], end: usize) -> bool
    requires low { tag_size ≤ end }
    requires high { end ≤ length bytes.old }
    requires size { end ≤ sealed_chunk_size }
    ensures rest { drop (end - tag_size) bytes.new ≡ drop (end - tag_size) bytes.old }
    ensures unchanged { OnFalse result (bytes.new ≡ bytes.old) }
    ensures opened { OnTrue result (opened_text key.now nonce.now [] (take end bytes.old)
        ≡ Some (take (end - tag_size) bytes.new)) }
    ensures refused { OnFalse result (opened_text key.now nonce.now [] (take end bytes.old)
        ≡ None) }
{
    let (prefix, _) = bytes.split_at_mut(end);
    let (text, mac) = prefix.split_at_mut(end - TAG_SIZE);
    let mut tag = [0u8; TAG_SIZE];
    tag.copy_from_slice(mac);
    open_in_place(key, nonce, b"", text, &tag)
}
