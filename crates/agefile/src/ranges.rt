//! Reading parts of a plaintext in steps. The caller reads the file, one sealed chunk at a time.

ghost use Rattle.std.specs.Prelude.{◌≡◌, ◌≤◌, ◌/◌};
ghost use Rattle.agefile.specs.Words.{None, true, outcome, chunk_size};
ghost use Rattle.std.specs.Bool.{OnFalse, OnTrue};
ghost use Rattle.age_stream.specs.Ranges.{last_index};
ghost use Rattle.agefile.specs.Sizes.{limits};
ghost use Rattle.agefile.specs.Unlock.{by_file_key};
ghost use Rattle.agefile.specs.Ranges.{GivesFrom, OpensAt, OpensRanges, Verified, closed_ranges};
ghost use Rattle.agefile.specs.Ranges.{piece_outcome, has_byte, may_open, may_verify};
ghost use Rattle.agefile.specs.Ranges.{piece_len, piece_report, plain_of};
ghost use Rattle.agefile.specs.Report.{Returns, report_of};
ghost use Rattle.agefile.specs.Codes.{ok, out_of_order};

use crate::code::{OK, OUT_OF_ORDER};
use crate::limits::MAX_CHUNKS;
use crate::opening::start_under;
use crate::report::{Report, report_fault};
use crate::start::Start;
use age_file::Fault;
use age_stream::{CHUNK_SIZE, SEALED_CHUNK_SIZE, TAG_SIZE, open_chunk};
use std::alloc::Global;

/// Not open.
const CLOSED: u64 = 0;

/// Open, with the last sealed chunk not verified yet.
const OPEN: u64 = 1;

/// Open, with the last sealed chunk verified.
const VERIFIED: u64 = 2;

/// The state of a payload between two calls on its ranges, in the caller's memory.
#[repr(C)]
#[derive(Clone, Copy)]
pub struct Ranges {
    /// The key of the chunks.
    pub key: [u8; 32],
    /// The offset in the file of the first sealed chunk.
    pub first: u64,
    /// The length of all sealed chunks in bytes.
    pub sealed_len: u64,
    /// 0 not open, 1 open, 2 the last sealed chunk was verified.
    pub state: u64,
}

impl Ranges {
    /// A payload that is not open.
    fn closed() -> Ranges
        ensures { result ≡ closed_ranges }
    {
        Ranges {
            key: [0; 32],
            first: 0,
            sealed_len: 0,
            state: CLOSED,
        }
    }
}

/// Returns 23, and leaves no payload open.
fn stay_closed(ranges: &mut Ranges, report: &mut Report) -> u32
    ensures { Returns out_of_order None closed_ranges ranges.new report.new result }
{
    *ranges = Ranges::closed();
    *report = Report::default();
    OUT_OF_ORDER
}

/// Opens a file of `file_len` bytes for ranges under its file key. `front` is any beginning of it
/// that contains its header and the 16 bytes after it. On 0 the report has the last sealed chunk's
/// offset in the file, and that chunk's length.
///
/// # Errors
/// Those of `agefile_open`, then 23 if the file ends before its first sealed chunk. No payload is
/// then open.
#[unsafe(no_mangle)]
pub extern "C" fn agefile_ranges_open(
    alloc: Global,
    front: &[u8],
    file_len: u64,
    file_key: &[u8; 16],
    ranges: &mut Ranges,
    report: &mut Report,
) -> u32
    ensures { OpensRanges (by_file_key file_key.now) front.now file_len ranges.new report.new
        result }
{
    open_at(
        start_under(alloc, front, file_key),
        file_len,
        ranges,
        report,
    )
}

/// Opens the payload from this start to the end of a file of this length; none on a fault or 23.
fn open_at(
    start: Result<Start, Fault>,
    file_len: u64,
    ranges: &mut Ranges,
    report: &mut Report,
) -> u32
    ensures { OpensAt file_len start ranges.new report.new result }
{
    let start = match start {
        Ok(start) => start,
        Err(fault) => {
            *ranges = Ranges::closed();
            return report_fault(0, fault, report);
        }
    };
    if file_len < start.first {
        return stay_closed(ranges, report);
    }
    let sealed_len = file_len - start.first;
    let last = last_index(sealed_len);
    let key = start.key;
    *ranges = Ranges {
        key,
        first: start.first,
        sealed_len,
        state: OPEN,
    };
    *report = Report {
        len: piece_len(sealed_len, last) as u64,
        place: start.first + SEALED_CHUNK_SIZE as u64 * last,
        detail: 0,
    };
    OK
}

/// Verifies the last sealed chunk, whose length and tag prove where the file ends, and opens it in
/// place. Must come before the calls below. On 0 its text is at the start of the buffer, and the
/// report has the length of the plaintext.
///
/// # Errors
/// 23 if no payload is open, or the chunk has another length: only the report changes. Otherwise
/// the first that applies of 11, 12 and 13, as for `age_stream::open_chunk`: the chunk is
/// unchanged, and the payload counts as not verified.
#[unsafe(no_mangle)]
pub extern "C" fn agefile_ranges_last(
    ranges: &mut Ranges,
    chunk: &mut [u8],
    report: &mut Report,
) -> u32
    // Returns 23, and changes only the report, if no payload is open or the chunk has another
    // length.
    ensures out_of_order { OnFalse (may_verify ranges.old chunk.old)
        ((result ≡ out_of_order) × (ranges.new ≡ ranges.old) × (chunk.new ≡ chunk.old)
        × (report.new ≡ report_of 0 None)) }
    // Opens the last piece under its number: the payload is then verified, and the report has the
    // length of the plaintext. On a fault the chunk is unchanged, and the payload not verified.
    ensures verified { OnTrue (may_verify ranges.old chunk.old)
        (Verified ranges.old ranges.new chunk.old chunk.new report.new result
        (outcome ranges.old.key limits.max_chunks (last_index ranges.old.sealed_len) true
        chunk.old)) }
{
    *report = Report::of_len(0);
    let sealed_len = ranges.sealed_len;
    let last = last_index(sealed_len);
    let len = chunk.len();
    if !matches!(ranges.state, OPEN | VERIFIED) || len != piece_len(sealed_len, last) {
        return OUT_OF_ORDER;
    }
    ranges.state = OPEN;
    match open_chunk(&ranges.key, MAX_CHUNKS, last as u128, true, chunk, len) {
        Ok(_) => {
            ranges.state = VERIFIED;
            report.len = plain_of(sealed_len);
            OK
        }
        Err(fault) => report_fault(0, Fault::from(fault), report),
    }
}

/// Finds the sealed chunk that holds byte `at` of the plaintext. The report has its offset in the
/// file, and its length.
///
/// # Errors
/// 23 if the last sealed chunk was not verified, the plaintext has no byte `at`, or offsets in the
/// file do not fit 64 bits.
#[unsafe(no_mangle)]
pub extern "C" fn agefile_ranges_locate(ranges: &Ranges, at: u64, report: &mut Report) -> u32
    // Returns 23, and changes only the report, if the last sealed chunk was not verified, the
    // plaintext has no byte `at`, or offsets in the file do not fit 64 bits.
    ensures out_of_order { OnFalse (has_byte ranges.now at)
        ((result ≡ out_of_order) × (report.new ≡ report_of 0 None)) }
    // Reports the piece that holds the byte: its offset in the file, and its length.
    ensures located { OnTrue (has_byte ranges.now at)
        ((result ≡ ok) × (report.new ≡ piece_report ranges.now (at / chunk_size))) }
{
    *report = Report::of_len(0);
    if !has_byte(ranges, at) {
        return OUT_OF_ORDER;
    }
    let i = at / CHUNK_SIZE as u64;
    report.place = ranges.first + SEALED_CHUNK_SIZE as u64 * i;
    report.len = piece_len(ranges.sealed_len, i) as u64;
    OK
}

/// Opens in place the sealed chunk that holds byte `at` of the plaintext. On 0 the report has where
/// the plaintext from `at` to the end of this chunk is in the buffer: its offset and its length.
///
/// # Errors
/// 23 as for `agefile_ranges_locate`, or if the chunk has another length; 13 if no plaintext seals
/// to these bytes under the chunk's number. The chunk is unchanged.
#[unsafe(no_mangle)]
pub extern "C" fn agefile_ranges_chunk(
    ranges: &Ranges,
    at: u64,
    chunk: &mut [u8],
    report: &mut Report,
) -> u32
    // Returns 23, and changes only the report, if `agefile_ranges_locate` would return 23 or the
    // chunk has another length.
    ensures out_of_order { OnFalse (may_open ranges.now at chunk.old)
        ((result ≡ out_of_order) × (chunk.new ≡ chunk.old) × (report.new ≡ report_of 0 None)) }
    // Opens the piece under its number, and reports where byte `at` is in the piece's text and how
    // long the text is from there on; or returns the fault, and leaves the chunk unchanged.
    ensures gives { OnTrue (may_open ranges.now at chunk.old)
        (GivesFrom at chunk.old chunk.new report.new result
        (piece_outcome ranges.now (at / chunk_size) chunk.old)) }
{
    *report = Report::of_len(0);
    let len = chunk.len();
    let i = at / CHUNK_SIZE as u64;
    if !has_byte(ranges, at) || len != piece_len(ranges.sealed_len, i) {
        return OUT_OF_ORDER;
    }
    let last = i == last_index(ranges.sealed_len);
    match open_chunk(&ranges.key, MAX_CHUNKS, i as u128, last, chunk, len) {
        Ok(text) => {
            report.place = at % CHUNK_SIZE as u64;
            report.len = text as u64 - report.place;
            OK
        }
        Err(fault) => report_fault(0, Fault::from(fault), report),
    }
}

/// Whether the last chunk was verified, offsets in the file fit 64 bits, and the plaintext has a
/// byte at this offset.
fn has_byte(ranges: &Ranges, at: u64) -> bool
    ensures { result ≡ has_byte ranges.now at }
{
    ranges.state == VERIFIED
        && ranges.first <= u64::MAX - ranges.sealed_len
        && at < plain_of(ranges.sealed_len)
}

/// The index of the last piece, if all pieces together have this length.
fn last_index(sealed_len: u64) -> u64
    ensures { result ≡ last_index sealed_len }
{
    sealed_len.saturating_sub(1) / SEALED_CHUNK_SIZE as u64
}

/// The length of piece i, if all pieces together have this length.
fn piece_len(sealed_len: u64, i: u64) -> usize
    requires { i ≤ last_index sealed_len }
    ensures { result ≡ piece_len sealed_len i }
{
    (sealed_len - SEALED_CHUNK_SIZE as u64 * i).min(SEALED_CHUNK_SIZE as u64) as usize
}

/// The length of the plaintext, if the sealed chunks together have this length.
fn plain_of(sealed_len: u64) -> u64
    ensures { result ≡ plain_of sealed_len }
{
    sealed_len.saturating_sub(TAG_SIZE as u64 * (last_index(sealed_len) + 1))
}
