//! A payload in order: one sealed chunk after another, opened or sealed.

ghost use Rattle.std.specs.Prelude.{◌≡◌, ◌+◌, ◌^◌, ◌<◌};
ghost use Rattle.agefile.specs.Codes.{ok};
ghost use Rattle.agefile.specs.Payload.{OpensNext, SealsNext, after_chunk, before_first};
ghost use Rattle.agefile.specs.Payload.{closed_payload, may_open, may_seal};

use crate::chunk::{has_text, is_chunk_len, open_as, seal_as};
use crate::code::{OK, OUT_OF_ORDER};
use crate::phase::{CLOSED, ENDED, FAILED, READING, WRITING};
use crate::report::Report;

/// The state of a payload between two calls, in the caller's memory. Its fields may have any value.
#[repr(C)]
#[derive(Clone, Copy)]
pub struct Payload {
    /// The key of the chunks.
    pub key: [u8; 32],
    /// The number of the next chunk.
    pub number: u64,
    /// 0 not open, 1 reading, 2 writing, 3 after the last chunk, 4 after a fault.
    pub state: u64,
    /// For `agefile_salvage_next`: 1 once a chunk was `Saved::Zeros` or `Saved::Early`, else 0.
    pub damaged: u32,
    /// For `agefile_salvage_next`: 1 to 6 for what was saved of the chunk before, or 0.
    pub before: u32,
    /// 0. Reserved for the number of bytes of a chunk that later versions may keep.
    pub held: u64,
}

impl Payload {
    /// A payload that is not open.
    pub(crate) fn closed() -> Payload
        ensures { result ≡ closed_payload }
    {
        Payload {
            key: [0; 32],
            number: 0,
            state: CLOSED,
            damaged: 0,
            before: 0,
            held: 0,
        }
    }

    /// A payload before chunk 0, for reading or writing.
    pub(crate) fn before_first(key: [u8; 32], phase: u64) -> Payload
        ensures { result ≡ before_first key phase }
    {
        Payload {
            key,
            number: 0,
            state: phase,
            damaged: 0,
            before: 0,
            held: 0,
        }
    }

    /// Whether the payload may open a chunk of this length next.
    pub(crate) fn may_open(&self, len: usize, last: bool) -> bool
        ensures { result ≡ may_open self.now len last }
    {
        self.state == READING && is_chunk_len(len, last)
    }

    /// Whether the payload may seal a chunk of this length next.
    fn may_seal(&self, len: usize, last: bool) -> bool
        ensures { result ≡ may_seal self.now len last }
    {
        self.state == WRITING && is_chunk_len(len, last) && has_text(self.number, len)
    }
}

/// Opens the next sealed chunk in place: 65,552 bytes, or what is left if it is the last. On 0 its
/// text is at the start of the buffer, and the report has its length. Allocates nothing.
///
/// # Errors
/// 23 if the payload is not open for reading, or the chunk has another length: only the report
/// changes. Otherwise the first that applies of 14, 11, 12 and 13, as for `age_stream::open_chunk`:
/// the chunk is unchanged, and the payload accepts no further chunk.
#[unsafe(no_mangle)]
pub extern "C" fn agefile_open_next(
    payload: &mut Payload,
    chunk: &mut [u8],
    last: bool,
    report: &mut Report,
) -> u32
    ensures { OpensNext payload.old payload.new chunk.old chunk.new last report.new result }
{
    if !payload.may_open(chunk.len(), last) {
        *report = Report::default();
        return OUT_OF_ORDER;
    }
    let code = open_as(&payload.key, payload.number, last, chunk, report);
    go_on(payload, last, code);
    code
}

/// Seals the next chunk in place: its text, 65,536 bytes or what is left if it is the last, then 16
/// bytes of room for the tag. Only the last chunk of an empty plaintext has no text. On 0 the whole
/// buffer is the sealed chunk. Allocates nothing.
///
/// # Errors
/// 23 if the payload is not open for writing, or the chunk has another length. 14 if there are
/// 2^64 - 1 chunks already; the payload then accepts no further chunk. The chunk is unchanged.
#[unsafe(no_mangle)]
pub extern "C" fn agefile_seal_next(
    payload: &mut Payload,
    chunk: &mut [u8],
    last: bool,
    report: &mut Report,
) -> u32
    ensures { SealsNext payload.old payload.new chunk.old chunk.new last report.new result }
{
    if !payload.may_seal(chunk.len(), last) {
        *report = Report::default();
        return OUT_OF_ORDER;
    }
    let code = seal_as(&payload.key, payload.number, last, chunk, report);
    go_on(payload, last, code);
    code
}

/// Counts an accepted chunk, and ends the payload after the last; or marks the payload as failed.
pub(crate) fn go_on(payload: &mut Payload, last: bool, code: u32)
    requires { code ≡ ok → payload.old.number + 1 < 2 ^ 64 }
    ensures { payload.new ≡ after_chunk payload.old last code }
{
    if code != OK {
        payload.state = FAILED;
        return;
    }
    payload.number += 1;
    if last {
        payload.state = ENDED;
    }
}
