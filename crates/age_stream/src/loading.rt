//! Reading a payload's nonce and its pieces at their offsets. Each piece is opened in place.
ghost use Rattle.std.specs.Prelude.{◌≡◌, ◌⊎◌, ◌^◌, ◌+◌, ◌-◌, ◌*◌, ◌<◌, ◌≤◌, length, take, drop};
ghost use Rattle.std.specs.Prelude.{ℕ, Some, None, Ok, Err, IfOk, OnOk, OnErr, IfErr, IfSome};
ghost use Rattle.age_header.specs.Device.{Counts, CountsIf};
ghost use Rattle.age_stream.specs.Counts.{is_read};
ghost use Rattle.age_stream.specs.Offsets.{GaveAt, StaysGiven};
ghost use Rattle.age_stream.specs.Ranges.{IsLost, IsOpenFault, JudgesLast, PieceOpens, end_of};
ghost use Rattle.age_stream.specs.Ranges.{last_len};
ghost use Rattle.age_stream.specs.Slice.{chunk_len};
ghost use Rattle.age_stream.specs.Sizes.{nonce_size, tag_size, chunk_buf_size};

use crate::chunk_keys::chunk_nonce;
use crate::fault::StreamFault;
use crate::layout::Layout;
use crate::opening::{open_chunk, open_prefix};
use crate::read_at::ReadAt;
use crate::sizes::{CHUNK_SIZE, NONCE_SIZE, SEALED_CHUNK_SIZE, TAG_SIZE};
use age_header::DeviceFault;

/// A payload's nonce, and the number of sealed bytes that follow it.
#[derive(Clone, Copy)]
pub(crate) struct PayloadStart {
    pub(crate) nonce: [u8; 16],
    pub(crate) sealed_len: u64,
}

/// Reads once from offset `at + got` of the source into `buf[got..end]`.
fn read_after<D: ReadAt>(
    dev: &mut D,
    at: u64,
    buf: &mut [u8],
    got: usize,
    end: usize,
) -> Result<usize, DeviceFault>
    requires fits { at + end < 2 ^ 64 }
    requires unfilled { got < end }
    requires room { end ≤ length buf.old }
    ensures stay { D.bytes dev.new ≡ D.bytes dev.old }
    ensures within { IfOk result (λ n. got + n ≤ end) }
    ensures prefix { take got buf.new ≡ take got buf.old }
    ensures found { D.found dev.new ≡ D.found dev.old }
    ensures stays_given { StaysGiven (D.gave dev.old) (D.gave dev.new) }
    ensures read { IfOk result
        (λ n. GaveAt (D.gave dev.new) (at + got) (take n (drop got buf.new))) }
    ensures some { IfOk result
        (λ n. n ≡ 0 → IfSome (D.found dev.old) (λ size. size ≤ at + got)) }
    ensures given { IfOk result (λ n. D.given dev.new ≤ D.given dev.old + n) }
    ensures none_given { OnErr result (D.given dev.new ≡ D.given dev.old) }
    ensures count { Counts (D.failed dev.old) (D.failed dev.new) result }
{
    let offset = at + got as u64;
    let (prefix, _) = buf.split_at_mut(end);
    let (_, hole) = prefix.split_at_mut(got);
    dev.read_at(offset, hole)
}

/// Fills the first `end` bytes of `buf` from offset `at` of the source, in as many reads as needed.
/// The size must have been found, and be at least `at + end`.
pub(crate) fn read_full<D: ReadAt>(
    dev: &mut D,
    at: u64,
    buf: &mut [u8],
    end: usize,
) -> Result<(), DeviceFault>
    requires fits { at + end < 2 ^ 64 }
    requires room { end ≤ length buf.old }
    requires within { (size : ℕ) × (D.found dev.old ≡ Some size) × (at + end ≤ size) }
    ensures stay { D.bytes dev.new ≡ D.bytes dev.old }
    ensures found { D.found dev.new ≡ D.found dev.old }
    ensures stays_given { StaysGiven (D.gave dev.old) (D.gave dev.new) }
    ensures read { OnOk result (GaveAt (D.gave dev.new) at (take end buf.new)) }
    ensures given { D.given dev.new ≤ D.given dev.old + end }
    ensures count { Counts (D.failed dev.old) (D.failed dev.new) result }
{
    let mut got = 0;
    while got < end {
        let n = read_after(dev, at, buf, got, end)?;
        got += n;
    }
    Ok(())
}

/// The length of chunk i.
pub(crate) fn chunk_len(layout: Layout, i: u64) -> usize
    requires { i < layout.count }
    ensures { result ≡ chunk_len layout.plain i }
{
    (layout.plain - CHUNK_SIZE as u64 * i).min(CHUNK_SIZE as u64) as usize
}

/// Reads and opens piece i. Its text is then at the start of the buffer.
pub(crate) fn load<D: ReadAt>(
    dev: &mut D,
    layout: Layout,
    i: u64,
    buf: &mut [u8],
) -> Result<(), StreamFault>
    requires room { length buf.old ≡ chunk_buf_size }
    requires within { i < layout.count }
    requires end { D.found dev.old ≡ Some (end_of layout) }
    ensures stay { D.bytes dev.new ≡ D.bytes dev.old }
    ensures found { D.found dev.new ≡ D.found dev.old }
    ensures opens { OnOk result (PieceOpens (D.gave dev.new) layout i
        (Some (take (chunk_len layout.plain i) buf.new))) }
    ensures stays_given { StaysGiven (D.gave dev.old) (D.gave dev.new) }
    ensures lost { IfErr result (IsLost (D.gave dev.new) layout i) }
    ensures given { D.given dev.new ≤ D.given dev.old + (chunk_len layout.plain i + tag_size) }
    ensures count { CountsIf is_read (D.failed dev.old) (D.failed dev.new) result }
{
    let nonce = chunk_nonce(i as u128, i + 1 == layout.count);
    let end = chunk_len(layout, i) + TAG_SIZE;
    let Ok(()) = read_full(dev, layout.first + SEALED_CHUNK_SIZE as u64 * i, buf, end) else {
        return Err(StreamFault::Read);
    };
    if open_prefix(&layout.key, &nonce, buf, end) {
        Ok(())
    } else {
        Err(StreamFault::BadChunk(i as u128))
    }
}

/// Reads the nonce at this offset, and finds how many bytes follow it.
pub(crate) fn payload_start<D: ReadAt>(dev: &mut D, at: u64) -> Result<PayloadStart, StreamFault>
    ensures stay { D.bytes dev.new ≡ D.bytes dev.old }
    ensures fits { IfOk result (λ start. at + nonce_size + start.sealed_len < 2 ^ 64) }
    ensures stays_given { StaysGiven (D.gave dev.old) (D.gave dev.new) }
    ensures read { IfOk result (λ start. GaveAt (D.gave dev.new) at start.nonce) }
    ensures found { IfOk result
        (λ start. D.found dev.new ≡ Some (at + nonce_size + start.sealed_len)) }
    ensures err { IfErr result (λ fault. (fault ≡ StreamFault.Read)
        ⊎ ((fault ≡ StreamFault.NonceTruncated)
        × ((n : ℕ) × (D.found dev.new ≡ Some n) × (n < at + nonce_size)))) }
    ensures given { D.given dev.new ≤ D.given dev.old + nonce_size }
    ensures unread { D.found dev.new ≡ None → D.given dev.new ≤ D.given dev.old }
    ensures count { CountsIf is_read (D.failed dev.old) (D.failed dev.new) result }
{
    let Ok(size) = dev.size() else {
        return Err(StreamFault::Read);
    };
    let left = size.saturating_sub(at);
    if left < NONCE_SIZE as u64 {
        return Err(StreamFault::NonceTruncated);
    }
    let mut nonce = [0; NONCE_SIZE];
    let Ok(()) = read_full(dev, at, &mut nonce, NONCE_SIZE) else {
        return Err(StreamFault::Read);
    };
    Ok(PayloadStart {
        nonce,
        sealed_len: left - NONCE_SIZE as u64,
    })
}

/// Reads and opens the last of the pieces, which begin at offset `first` and have `sealed` bytes
/// together, and returns their layout. The text of the last is then at the start of the buffer.
#[tactic(auto, using(crate::proofs::JudgesLastLemmas::piece_named))]
pub(crate) fn load_last<D: ReadAt>(
    dev: &mut D,
    key: [u8; 32],
    first: u64,
    sealed: u64,
    max: u128,
    buf: &mut [u8],
) -> Result<Layout, StreamFault>
    requires room { length buf.old ≡ chunk_buf_size }
    requires fits { first + sealed < 2 ^ 64 }
    requires end { D.found dev.old ≡ Some (first + sealed) }
    ensures stay { D.bytes dev.new ≡ D.bytes dev.old }
    ensures found { D.found dev.new ≡ D.found dev.old }
    ensures stays_given { StaysGiven (D.gave dev.old) (D.gave dev.new) }
    ensures layout { IfOk result (λ layout. (layout.key ≡ key) × (layout.first ≡ first)
        × (layout.plain + tag_size * layout.count ≡ sealed)) }
    ensures judges { IfOk result (λ layout. JudgesLast (D.gave dev.new) key max first sealed
        (Ok (take (chunk_len layout.plain (layout.count - 1)) buf.new))) }
    ensures opens { IfOk result (λ layout. PieceOpens (D.gave dev.new) layout (layout.count - 1)
        (Some (take (chunk_len layout.plain (layout.count - 1)) buf.new))) }
    ensures fails { IfErr result (λ fault. (fault ≡ StreamFault.Read)
        ⊎ JudgesLast (D.gave dev.new) key max first sealed (Err fault)) }
    ensures named { IfErr result IsOpenFault }
    ensures given { D.given dev.new ≤ D.given dev.old + last_len sealed }
    ensures count { CountsIf is_read (D.failed dev.old) (D.failed dev.new) result }
{
    let last = sealed.saturating_sub(1) / SEALED_CHUNK_SIZE as u64;
    if last as u128 >= max {
        return Err(StreamFault::TooManyChunks);
    }
    let end = (sealed - SEALED_CHUNK_SIZE as u64 * last) as usize;
    let Ok(()) = read_full(dev, first + SEALED_CHUNK_SIZE as u64 * last, buf, end) else {
        return Err(StreamFault::Read);
    };
    let len = open_chunk(&key, max, last as u128, true, buf, end)?;
    Ok(Layout {
        key,
        first,
        plain: CHUNK_SIZE as u64 * last + len as u64,
        count: last + 1,
    })
}
