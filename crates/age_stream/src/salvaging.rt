//! Saving what can be opened of a damaged payload.
ghost use Rattle.std.specs.Prelude.{◌≡◌, ◌⊎◌, ◌<◌, ◌≤◌, ◌+◌, ◌-◌, ◌^◌, length, take, drop, false};
ghost use Rattle.std.specs.Prelude.{Some, None, Ok, Err, IfOk, IfSome, IfErr};
ghost use Rattle.age_header.specs.Device.{CountsIf, OfGiven, flow_by, move_by};
ghost use Rattle.age_stream.specs.Counts.{is_read, is_write};
ghost use Rattle.age_stream.specs.Opening.{EndsAt};
ghost use Rattle.age_stream.specs.Payload.{pieces};
ghost use Rattle.age_stream.specs.Salvage.{EndsSaving, IsOfPieces, Reports, Salvages, SavesParts};
ghost use Rattle.age_stream.specs.Salvage.{first_part, in_place, loss, lost_part, losses_by};
ghost use Rattle.age_stream.specs.Salvage.{padded_part, padding, part, parts, with_part};
ghost use Rattle.age_stream.specs.Sizes.{chunk_size, max_padding, sealed_chunk_size, most_chunks};
ghost use Rattle.age_stream.specs.Sizes.{tag_size, chunk_buf_size};

use crate::buffer::ChunkBuf;
use crate::chunk_keys::{chunk_nonce, payload_key};
use crate::fault::StreamFault;
use crate::opening::{open_prefix, read_nonce, read_piece};
use crate::salvaged::{Losses, LostChunk, Salvaged, Saved};
use crate::sizes::{MAX_PADDING, SEALED_CHUNK_SIZE, TAG_SIZE};
use age_header::{FileKey, Sink, Source, write_all};
use std::alloc::Global;

/// Saves what it can of a payload that is left in the source. Writes, at its offset, the text of
/// every chunk that opens. Any other chunk that has text is lost: zeros are written in its place,
/// and it is reported to `losses`. A chunk may open as the last or as another, wherever it is.
///
/// Each chunk that was saved is genuine, and is at its offset in the plaintext. The plaintext as a
/// whole is genuine exactly if the result is whole (`Salvaged::is_whole`).
///
/// # Errors
/// `Memory` if the allocation was refused: nothing was read. `NonceTruncated` if the source returns
/// fewer than 16 bytes. `TooManyChunks` if there are more than `max_chunks` chunks: only that many
/// were written. `Read` and `Write` if a device failed: a prefix of the saved text was written.
pub fn salvage_payload<S: Source, W: Sink, L: Losses>(
    alloc: Global,
    key: &FileKey,
    source: &mut S,
    out: &mut W,
    losses: &mut L,
    max_chunks: u128,
) -> Result<Salvaged, StreamFault>
    requires { max_chunks ≤ most_chunks }
    // Writes, at its offset, every chunk that opens, and zeros in place of every other, and reports
    // each lost chunk, in order. A fault ends this after a part of it.
    ensures salvages { Salvages key.now max_chunks
        (flow_by S.to_come S.gave source.old source.new) (move_by W.taken out.old out.new)
        (losses_by L.lost losses.old losses.new) result }
    // On Ok, if no chunk is lost, `losses` is unchanged.
    ensures silent { IfOk result (λ s. s.lost ≡ 0 → losses.new ≡ losses.old) }
    // If there is no whole nonce, or no memory, nothing was written or reported.
    ensures quiet { IfErr result
        (λ fault. IsOfPieces fault ⊎ ((out.new ≡ out.old) × (losses.new ≡ losses.old))) }
    ensures reads { CountsIf is_read (S.failed source.old) (S.failed source.new) result }
    ensures writes { CountsIf is_write (W.failed out.old) (W.failed out.new) result }
    // If piece i exceeds the limit, or a write failed after at least 65,536 i bytes: at most the
    // nonce, pieces 0 to i, and one more byte were read.
    ensures took { IfErr result (EndsSaving max_chunks
        (flow_by S.to_come S.gave source.old source.new) (move_by W.taken out.old out.new)) }
{
    let Ok(buf) = ChunkBuf::new(alloc) else {
        return Err(StreamFault::Memory);
    };
    let nonce = read_nonce(source)?;
    let mut bytes = buf.into_bytes();
    let key = payload_key(key, &nonce);
    save_pieces(source, out, losses, &key, max_chunks, bytes.as_mut_slice())
}

/// What was saved before the first piece: nothing.
const NOTHING_SAVED: Salvaged = Salvaged {
    bytes: 0,
    chunks: 0,
    lost: 0,
    early: None,
    before: Saved::Chunk,
    last: Saved::Chunk,
};

/// Saves what it can of the pieces that are left in the source.
fn save_pieces<S: Source, W: Sink, L: Losses>(
    source: &mut S,
    out: &mut W,
    losses: &mut L,
    key: &[u8; 32],
    max: u128,
    bytes: &mut [u8],
) -> Result<Salvaged, StreamFault>
    requires size { length bytes.old ≡ chunk_buf_size }
    requires small { max ≤ most_chunks }
    ensures saves { OfGiven (flow_by S.to_come S.gave source.old source.new)
        (λ rest. SavesParts max (parts key.now 0 (pieces rest)) (move_by W.taken out.old out.new)
        (losses_by L.lost losses.old losses.new) result) }
    ensures silent { IfOk result (λ s. s.lost ≡ 0 → losses.new ≡ losses.old) }
    ensures ends { IfErr result (λ f. (f ≡ StreamFault.Read) ⊎ EndsAt max 0
        (flow_by S.to_come S.gave source.old source.new) (move_by W.taken out.old out.new) f) }
    ensures reads { CountsIf is_read (S.failed source.old) (S.failed source.new) result }
    ensures writes { CountsIf is_write (W.failed out.old) (W.failed out.new) result }
{
    let mut done = NOTHING_SAVED;
    let mut ahead = 0;
    loop {
        if done.chunks >= max {
            return Err(StreamFault::TooManyChunks);
        }
        let Ok(n) = read_piece(source, bytes, SEALED_CHUNK_SIZE, ahead) else {
            return Err(StreamFault::Read);
        };
        let (len, saved) = save_first(key, done.chunks, bytes, n);
        match write_all(out, &bytes[..len]) {
            Ok(()) => note(&mut done, losses, len, saved),
            Err(_) => return Err(StreamFault::Write),
        }
        if n <= SEALED_CHUNK_SIZE {
            return Ok(done);
        }
        ahead = 1;
    }
}

/// Saves what it can of piece i, the first piece of these `n` bytes: its text, or zeros, is then at
/// the start of the buffer. Returns the length of this text, and what was saved.
#[tactic(auto, using(crate::proofs::SalvageLemmas::first_saved))]
fn save_first(key: &[u8; 32], i: u128, bytes: &mut [u8], n: usize) -> (usize, Saved)
    requires size { length bytes.old ≡ chunk_buf_size }
    requires high { n ≤ chunk_buf_size }
    requires small { i < most_chunks }
    ensures len { length bytes.new ≡ chunk_buf_size }
    ensures part { first_part key.now i (take n bytes.old)
        ≡ record { text = take result.0 bytes.new; saved = result.1 } }
    ensures rest { drop sealed_chunk_size bytes.new ≡ drop sealed_chunk_size bytes.old }
    ensures text { result.0 ≤ chunk_size }
    ensures full { sealed_chunk_size < n → result.0 ≡ chunk_size }
{
    let end = n.min(SEALED_CHUNK_SIZE);
    let saved = save_piece(key, i, n <= SEALED_CHUNK_SIZE, bytes, end);
    let len = end.saturating_sub(TAG_SIZE).saturating_sub(saved.padding());
    (len, saved)
}

/// Saves what it can of the first `end` bytes, in place, as piece i. `last` says whether no byte
/// follows them. Their text, or zeros in its place, is then at the start of the buffer; it has
/// `end - 16` bytes (none if `end` is below 16), less the padding. What follows it is unchanged.
pub fn save_piece(key: &[u8; 32], i: u128, last: bool, bytes: &mut [u8], end: usize) -> Saved
    requires high { end ≤ length bytes.old }
    requires size { end ≤ sealed_chunk_size }
    requires small { i < most_chunks }
    ensures len { length bytes.new ≡ length bytes.old }
    // The result and the text at the start of the buffer are the part that stands for the piece.
    ensures part { part key.now i last (take end bytes.old)
        ≡ record { text = take (end - tag_size - padding result) bytes.new; saved = result } }
    // The bytes after the text are unchanged.
    ensures rest { drop (end - tag_size - padding result) bytes.new
        ≡ drop (end - tag_size - padding result) bytes.old }
    // Only the last piece is taken for a chunk with padding.
    ensures padding { last ≡ false → padding result ≡ 0 }
{
    if end < TAG_SIZE {
        return Saved::Nothing;
    }
    if open_prefix(key, &chunk_nonce(i, last), bytes, end) {
        return in_place(i, last, end);
    }
    if open_prefix(key, &chunk_nonce(i, !last), bytes, end) {
        return if last { Saved::Chunk } else { Saved::Early };
    }
    if last {
        if let Some(padding) = open_padded(key, i, bytes, end) {
            return Saved::Padded(padding);
        }
    }
    let (text, _) = bytes.split_at_mut(end - TAG_SIZE);
    text.fill(0);
    if end == TAG_SIZE {
        Saved::Nothing
    } else {
        Saved::Zeros
    }
}

/// Opens the first `end` bytes in place as chunk i, the last, without the padding at their end: the
/// fewest bytes, 1 to 4,095, without which they open. Returns how many bytes these are; on `None`
/// the buffer is unchanged.
fn open_padded(key: &[u8; 32], i: u128, bytes: &mut [u8], end: usize) -> Option<usize>
    requires low { tag_size ≤ end }
    requires high { end ≤ length bytes.old }
    requires size { end ≤ sealed_chunk_size }
    requires small { i < most_chunks }
    ensures opened { IfSome result (λ k.
        padded_part key.now i 1 max_padding (take end bytes.old)
        ≡ record { text = take (end - tag_size - k) bytes.new; saved = Saved.Padded k }) }
    ensures rest { IfSome result (λ k.
        drop (end - tag_size - k) bytes.new ≡ drop (end - tag_size - k) bytes.old) }
    ensures none { result ≡ None → (bytes.new ≡ bytes.old)
        × (padded_part key.now i 1 max_padding (take end bytes.old)
        ≡ lost_part (take end bytes.old)) }
{
    let most = MAX_PADDING.min(end - TAG_SIZE);
    'lengths: for padding in 1..most + 1 {
        if open_prefix(key, &chunk_nonce(i, true), bytes, end - padding) {
            return Some(padding);
        }
    }
    None
}

/// What was saved of a piece of `len` bytes that opens as the chunk of its position.
fn in_place(i: u128, last: bool, len: usize) -> Saved
    ensures { result ≡ in_place i last len }
{
    if !last {
        Saved::Chunk
    } else if i > 0 && len == TAG_SIZE {
        Saved::Early
    } else {
        Saved::LastChunk
    }
}

/// Counts one more piece, reports it if its chunk is lost, and notes it if the chunk is early.
fn note<L: Losses>(done: &mut Salvaged, losses: &mut L, len: usize, saved: Saved)
    requires bytes { done.old.bytes + len < 2 ^ 128 }
    requires chunks { done.old.chunks + 1 < 2 ^ 128 }
    requires lost { done.old.lost ≤ done.old.chunks }
    ensures counts { done.new ≡ with_part done.old len saved }
    ensures reports { Reports (losses_by L.lost losses.old losses.new)
        (loss saved (record { chunk = done.old.chunks; start = done.old.bytes; len = len })) }
    ensures silent { done.new.lost ≡ 0 → losses.new ≡ losses.old }
{
    match saved {
        Saved::Zeros => {
            losses.lose(LostChunk {
                chunk: done.chunks,
                start: done.bytes,
                len,
            });
            done.lost += 1;
        }
        Saved::Early => done.early = Some(done.chunks),
        _ => {}
    }
    done.bytes += len as u128;
    done.chunks += 1;
    done.before = done.last;
    done.last = saved;
}
