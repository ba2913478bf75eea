//! The chunks of a payload, of which at most one is kept. A call that reads is passed the source.
ghost use Rattle.std.specs.Prelude.{◌≡◌, ◌⊎◌, ◌+◌, ◌-◌, ◌/◌, ◌<◌, ◌≤◌, ◌++◌, length, take, drop, min};
ghost use Rattle.std.specs.Prelude.{Some, None, IfOk, OnOk, OnErr, IfErr, if◌then◌else◌};
ghost use Rattle.age_header.specs.Device.{CountsIf, move_by};
ghost use Rattle.age_stream.specs.Counts.{is_read};
ghost use Rattle.age_stream.specs.Offsets.{StaysGiven};
ghost use Rattle.age_stream.specs.Ranges.{IsLost, IsOpenFault, IsSound};
ghost use Rattle.age_stream.specs.Ranges.{OpenedAtLeast, OpensRanges, Probes, ReadsRange, is_kept};
ghost use Rattle.age_stream.specs.Ranges.{kept_text};
ghost use Rattle.age_stream.specs.Slice.{chunk_len};
ghost use Rattle.age_stream.specs.Writer.{IsRefusedMemory};
ghost use Rattle.age_stream.specs.Sizes.{tag_size, chunk_buf_size};

use crate::buffer::ChunkBuf;
use crate::chunk_keys::payload_key;
use crate::fault::StreamFault;
use crate::layout::Layout;
use crate::loading::{chunk_len, load, load_last, payload_start};
use crate::read_at::ReadAt;
use crate::sizes::{CHUNK_SIZE, NONCE_SIZE};
use age_header::FileKey;
use std::alloc::Global;
use std::marker::Model;

/// A payload's chunks: their layout, the chunk kept, if any, and a count of attempts to open one.
#[derive(Drop)]
pub struct Chunks {
    layout: Layout,
    buf: Vec<u8>,
    index: Option<u64>,
    opened: u64,
}

impl Model for Chunks {
    ghost use Rattle.std.specs.Prelude.{◌≡◌, length, vec_capacity};
    ghost use Rattle.age_stream.specs.Ranges.{RangeState};
    ghost use Rattle.age_stream.specs.Sizes.{chunk_buf_size};

    ghost Value = { RangeState };

    ghost view = { λ c.
        record { layout = c.layout; index = c.index; buf = c.buf.items; opened = c.opened } };

    ghost invariant = { λ c. (length c.buf.items ≡ chunk_buf_size)
        × (vec_capacity c.buf ≡ chunk_buf_size) };
}

/// How many of the `len` bytes from offset `at` on are in a plaintext of `plain` bytes.
fn range_len(plain: u64, at: u64, len: usize) -> usize
    ensures { result ≡ min len (plain - at) }
{
    if at >= plain {
        return 0;
    }
    let left = plain - at;
    if left < len as u64 {
        left as usize
    } else {
        len
    }
}

/// Copies `text[skip..]` to `buf[done..end]` as far as both go, and returns the number of bytes.
fn put(text: &[u8], skip: usize, buf: &mut [u8], done: usize, end: usize) -> usize
    requires skip { skip < length text.now }
    requires done { done < end }
    requires end { end ≤ length buf.old }
    ensures count { result ≡ min (length text.now - skip) (end - done) }
    ensures prefix { take (done + result) buf.new
        ≡ take done buf.old ++ take result (drop skip text.now) }
    ensures rest { drop (done + result) buf.new ≡ drop (done + result) buf.old }
{
    let n = (text.len() - skip).min(end - done);
    let (_, tail) = buf.split_at_mut(done);
    let (hole, _) = tail.split_at_mut(n);
    hole.copy_from_slice(&text[skip..skip + n]);
    n
}

impl Chunks {
    /// The layout of the chunks: their key, offsets and number.
    pub(crate) fn layout(&self) -> Layout
        ensures { result ≡ self.now.layout }
    {
        self.layout
    }

    /// The number of attempts to read and open a chunk, saturating at the largest `u64`.
    pub(crate) fn opened(&self) -> u64
        ensures { result ≡ self.now.opened }
    {
        self.opened
    }

    /// Finds the chunks of the payload at this offset, and opens and keeps the last.
    #[tactic(auto, using(crate::proofs::RangeLemmas::keeps_last))]
    pub(crate) fn open<D: ReadAt>(
        alloc: Global,
        key: &FileKey,
        dev: &mut D,
        payload_at: u64,
        max_chunks: u128,
    ) -> Result<Chunks, StreamFault>
        ensures probes { Probes (move_by D.bytes dev.old dev.new) (D.found dev.new) payload_at
            (D.given dev.old) (D.given dev.new) }
        ensures opens { OpensRanges key.now max_chunks payload_at (D.gave dev.new) (D.found dev.new)
            result }
        ensures stays_given { StaysGiven (D.gave dev.old) (D.gave dev.new) }
        ensures sound { IfOk result (IsSound (D.gave dev.new) (D.found dev.new)) }
        ensures named { IfErr result
            (λ fault. IsRefusedMemory dev.old dev.new fault ⊎ IsOpenFault fault) }
        ensures count { CountsIf is_read (D.failed dev.old) (D.failed dev.new) result }
    {
        let Ok(buf) = ChunkBuf::new(alloc) else {
            return Err(StreamFault::Memory);
        };
        let start = payload_start(dev, payload_at)?;
        let key = payload_key(key, &start.nonce);
        let mut buf = buf.into_bytes();
        let layout = load_last(
            dev,
            key,
            payload_at + NONCE_SIZE as u64,
            start.sealed_len,
            max_chunks,
            buf.as_mut_slice(),
        )?;
        Ok(Chunks {
            layout,
            buf,
            index: Some(layout.count - 1),
            opened: 1,
        })
    }

    /// Opens and keeps chunk i, unless it is kept already.
    fn hold<D: ReadAt>(&mut self, dev: &mut D, i: u64) -> Result<(), StreamFault>
        requires within { i < self.old.layout.count }
        requires sound { IsSound (D.gave dev.old) (D.found dev.old) self.old }
        ensures stay { D.bytes dev.new ≡ D.bytes dev.old }
        ensures same { self.new.layout ≡ self.old.layout }
        ensures kept_chunk { OnOk result (self.new.index ≡ Some i) }
        ensures none { OnErr result (self.new.index ≡ None) }
        ensures sound { IsSound (D.gave dev.new) (D.found dev.new) self.new }
        ensures stays_given { StaysGiven (D.gave dev.old) (D.gave dev.new) }
        ensures lost { IfErr result (IsLost (D.gave dev.new) self.old.layout i) }
        ensures rises { self.old.opened ≤ self.new.opened }
        ensures counts { OpenedAtLeast self.old self.new.opened
            (if is_kept self.old.index i then 0 else 1) }
        ensures opened { self.new.opened + (if is_kept self.old.index i then 1 else 0)
            ≤ self.old.opened + 1 }
        ensures given { D.given dev.new
            ≤ D.given dev.old
            + (if is_kept self.old.index i then 0
            else chunk_len self.old.layout.plain i + tag_size) }
        ensures count { CountsIf is_read (D.failed dev.old) (D.failed dev.new) result }
    {
        if self.index == Some(i) {
            return Ok(());
        }
        self.index = None;
        self.opened = self.opened.saturating_add(1);
        load(dev, self.layout, i, self.buf.as_mut_slice())?;
        self.index = Some(i);
        Ok(())
    }

    /// The start of the buffer: the text of chunk i, if chunk i is the one kept.
    fn text(&self, i: u64) -> &[u8]
        requires { i < self.now.layout.count }
        ensures text { result.now ≡ kept_text self.now i }
        ensures len { length result.now ≡ chunk_len self.now.layout.plain i }
    {
        let n = chunk_len(self.layout, i);
        &self.buf.as_slice()[..n]
    }

    /// Fills the start of `buf` with the plaintext from offset `at` on, and returns the number of
    /// bytes.
    pub(crate) fn read_range<D: ReadAt>(
        &mut self,
        dev: &mut D,
        at: u64,
        buf: &mut [u8],
    ) -> Result<usize, StreamFault>
        requires sound { IsSound (D.gave dev.old) (D.found dev.old) self.old }
        ensures sound { IsSound (D.gave dev.new) (D.found dev.new) self.new }
        ensures reads { ReadsRange D.bytes D.given D.failed D.gave at
            (record { source = dev.old; chunks = self.old; buf = buf.old })
            (record { source = dev.new; chunks = self.new; buf = buf.new }) result }
    {
        let layout = self.layout();
        let end = range_len(layout.plain, at, buf.len());
        let mut i = at / CHUNK_SIZE as u64;
        let mut skip = (at % CHUNK_SIZE as u64) as usize;
        let mut done = 0;
        while done < end {
            let held = self.hold(dev, i);
            if let Err(fault) = held {
                return Err(fault);
            }
            let n = put(self.text(i), skip, buf, done, end);
            done += n;
            skip = 0;
            i += 1;
        }
        Ok(end)
    }
}
