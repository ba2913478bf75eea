//! A part of a payload: some of its chunks, without the last, for another thread to open or seal.

ghost use Rattle.std.specs.Prelude.{◌≡◌, ◌<◌};
ghost use Rattle.agefile.specs.Part.{OpensNext, SealsNext, TakesPart, closed_part, may_take};
ghost use Rattle.agefile.specs.Part.{payload_of, with_payload};

use crate::code::{OK, OUT_OF_ORDER};
use crate::payload::{Payload, agefile_open_next, agefile_seal_next};
use crate::phase::{CLOSED, ENDED, READING, WRITING};
use crate::report::{Report, report_fault};
use age_file::Fault;

/// The state of a part between two calls, in the caller's memory. Its fields may have any value.
#[repr(C)]
#[derive(Clone, Copy)]
pub struct Part {
    /// The key of the chunks.
    pub key: [u8; 32],
    /// The number of the next chunk in the file.
    pub number: u64,
    /// The number of chunks left.
    pub left: u64,
    /// 0 not open, 1 reading, 2 writing, 3 after the last chunk of the part, 4 after a fault.
    pub state: u64,
    /// 0, reserved for later versions.
    pub spare: u64,
}

impl Part {
    /// A part that is not open.
    fn closed() -> Part
        ensures { result ≡ closed_part }
    {
        Part {
            key: [0; 32],
            number: 0,
            left: 0,
            state: CLOSED,
            spare: 0,
        }
    }

    /// The part as a payload, without `left`.
    fn payload(&self) -> Payload
        ensures { result ≡ payload_of self.now }
    {
        Payload {
            key: self.key,
            number: self.number,
            state: self.state,
            damaged: 0,
            before: 0,
            held: 0,
        }
    }

    /// Takes over the result of a call on its payload, and counts down after an accepted chunk.
    fn follow(&mut self, payload: &Payload, code: u32)
        requires { 0 < self.old.left }
        ensures { self.new ≡ with_payload self.old payload.now code }
    {
        self.number = payload.number;
        self.state = payload.state;
        if code != OK {
            return;
        }
        self.left -= 1;
        if self.left == 0 {
            self.state = ENDED;
        }
    }
}

/// Whether a payload is open for reading or writing, and the count is above 0.
fn may_take(payload: &Payload, count: u64) -> bool
    ensures { result ≡ may_take payload.now count }
{
    (payload.state == READING || payload.state == WRITING) && count > 0
}

/// Takes the next chunks, one or more and none of them the last, from a payload that is open for
/// reading or writing. The part opens or seals exactly these chunks, and the payload continues
/// after them.
///
/// # Errors
/// 23 if the payload is not open for reading or writing, or the count is 0; 14 if the part would go
/// beyond the limit of 2^64 - 1 chunks. The payload is then unchanged, and the part is not open.
#[unsafe(no_mangle)]
pub extern "C" fn agefile_take_part(
    payload: &mut Payload,
    count: u64,
    part: &mut Part,
    report: &mut Report,
) -> u32
    ensures { TakesPart payload.old payload.new count part.new report.new result }
{
    *part = Part::closed();
    *report = Report::default();
    if !may_take(payload, count) {
        return OUT_OF_ORDER;
    }
    if count > u64::MAX - payload.number {
        return report_fault(0, Fault::TooManyChunks, report);
    }
    let key = payload.key;
    *part = Part {
        key,
        number: payload.number,
        left: count,
        state: payload.state,
        spare: 0,
    };
    payload.number += count;
    OK
}

/// Opens the part's next sealed chunk, 65,552 bytes, in place. On 0 its text is at the start of the
/// buffer, and the report has its length. Allocates nothing.
///
/// # Errors
/// 23 if the part has no chunk left or is not open for reading, or the chunk has another length:
/// only the report changes. Otherwise 14 or 13: the chunk is unchanged, and no other is accepted.
#[unsafe(no_mangle)]
pub extern "C" fn agefile_part_open_next(
    part: &mut Part,
    chunk: &mut [u8],
    report: &mut Report,
) -> u32
    ensures { OpensNext part.old part.new chunk.old chunk.new report.new result }
{
    if part.left == 0 {
        *report = Report::default();
        return OUT_OF_ORDER;
    }
    let mut payload = part.payload();
    let code = agefile_open_next(&mut payload, chunk, false, report);
    part.follow(&payload, code);
    code
}

/// Seals the part's next chunk in place: 65,536 bytes of text, then 16 bytes of room for the tag.
/// On 0 the whole buffer is the sealed chunk. Allocates nothing.
///
/// # Errors
/// 23 if the part has no chunk left or is not open for writing, or the chunk has another length:
/// only the report changes. Otherwise 14: the chunk is unchanged, and no other is accepted.
#[unsafe(no_mangle)]
pub extern "C" fn agefile_part_seal_next(
    part: &mut Part,
    chunk: &mut [u8],
    report: &mut Report,
) -> u32
    ensures { SealsNext part.old part.new chunk.old chunk.new report.new result }
{
    if part.left == 0 {
        *report = Report::default();
        return OUT_OF_ORDER;
    }
    let mut payload = part.payload();
    let code = agefile_seal_next(&mut payload, chunk, false, report);
    part.follow(&payload, code);
    code
}
