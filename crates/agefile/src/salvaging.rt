//! Saving what is left of a damaged payload, one sealed chunk after another.

ghost use Rattle.std.specs.Prelude.{◌≡◌, ◌+◌, ◌^◌, ◌<◌, ◌≤◌};
ghost use Rattle.agefile.specs.Words.{length, sealed_chunk_size};
ghost use Rattle.agefile.specs.Salvage.{SavesAs, SavesNext, judged, noted, saved_number};

use crate::code::{OK, OUT_OF_ORDER};
use crate::limits::MAX_CHUNKS;
use crate::payload::{Payload, go_on};
use crate::report::{Report, report_fault};
use age_file::Fault;
use age_stream::{Saved, TAG_SIZE, save_piece};

/// Saves what it can of the next sealed chunk, in place: 65,552 bytes, or what is left if it is the
/// last. On 0 the buffer begins with the chunk's text, whether the chunk is marked as the last or
/// not, or, if it does not open, with as many zeros. The report has the length of either and, as
/// its place, what was saved: 1 a chunk not marked as the last, 2 the last chunk, 3 a chunk that is
/// marked as the last but cannot be it, 4 zeros, 5 nothing, because at most 16 bytes are left and
/// do not open, 6 the last chunk, after which up to 4,095 bytes were ignored. For the last chunk
/// the report's detail is 1 if the plaintext is whole, 2 if it is cut short, else 0. The payload
/// continues after the chunk. Allocates nothing.
///
/// # Errors
/// 23 if the payload is not open for reading, or the chunk has another length: only the report
/// changes. 14 if there are 2^64 - 1 chunks already: the chunk is unchanged, and the payload
/// accepts no further chunk.
#[unsafe(no_mangle)]
pub extern "C" fn agefile_salvage_next(
    payload: &mut Payload,
    chunk: &mut [u8],
    last: bool,
    report: &mut Report,
) -> u32
    ensures { SavesNext payload.old payload.new chunk.old chunk.new last report.new result }
{
    if !payload.may_open(chunk.len(), last) {
        *report = Report::default();
        return OUT_OF_ORDER;
    }
    save_as(payload, last, chunk, report)
}

/// Saves what it can of a chunk under its number.
fn save_as(payload: &mut Payload, last: bool, chunk: &mut [u8], report: &mut Report) -> u32
    requires { length chunk.old ≤ sealed_chunk_size }
    ensures { SavesAs payload.old payload.new last chunk.old chunk.new report.new result }
{
    if payload.number as u128 >= MAX_CHUNKS {
        let code = report_fault(0, Fault::TooManyChunks, report);
        go_on(payload, last, code);
        return code;
    }
    let len = chunk.len();
    let saved = save_piece(&payload.key, payload.number as u128, last, chunk, len);
    let text = len.saturating_sub(TAG_SIZE).saturating_sub(saved.padding());
    *report = Report::of_len(text as u64);
    report.place = saved_number(saved) as u64;
    if last {
        report.detail = verdict(payload, saved);
    }
    note(payload, saved);
    go_on(payload, last, OK);
    OK
}

/// Notes what was saved of a chunk.
fn note(payload: &mut Payload, saved: Saved)
    ensures { payload.new ≡ noted payload.old saved }
{
    if let Saved::Zeros | Saved::Early = saved {
        payload.damaged = 1;
    }
    payload.before = saved_number(saved);
}

/// What is known of the plaintext after its last chunk: 1 if it is whole, 2 if it is cut short,
/// else 0.
fn verdict(payload: &Payload, last: Saved) -> u64
    ensures { result ≡ judged last payload.now.damaged payload.now.before }
{
    match last {
        Saved::LastChunk if payload.damaged == 0 => 1,
        Saved::Chunk => 2,
        Saved::Nothing if payload.before <= 1 => 2,
        _ => 0,
    }
}

/// What was saved of a chunk, by the numbers of `agefile.h`.
fn saved_number(saved: Saved) -> u32
    ensures { result ≡ saved_number saved }
{
    match saved {
        Saved::Chunk => 1,
        Saved::LastChunk => 2,
        Saved::Early => 3,
        Saved::Zeros => 4,
        Saved::Nothing => 5,
        Saved::Padded(_) => 6,
    }
}
