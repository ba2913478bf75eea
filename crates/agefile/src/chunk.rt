//! Opening and sealing one chunk, by its number, in place.

ghost use Rattle.std.specs.Prelude.{◌≡◌, ◌<◌, ◌≤◌};
ghost use Rattle.agefile.specs.Words.{length, sealed_chunk_size, tag_size};
ghost use Rattle.agefile.specs.Payload.{OpensAs, SealsAs, has_text, is_chunk_len};
ghost use Rattle.agefile.specs.Codes.{ok};
ghost use Rattle.agefile.specs.Sizes.{limits};

use crate::code::OK;
use crate::limits::MAX_CHUNKS;
use crate::report::{Report, report_fault};
use age_file::Fault;
use age_stream::{SEALED_CHUNK_SIZE, TAG_SIZE, open_chunk, seal_chunk};

/// Opens a chunk under its number.
pub(crate) fn open_as(
    key: &[u8; 32],
    number: u64,
    last: bool,
    chunk: &mut [u8],
    report: &mut Report,
) -> u32
    requires { length chunk.old ≤ sealed_chunk_size }
    ensures opens { OpensAs key.now number last chunk.old chunk.new report.new result }
    ensures within { result ≡ ok → number < limits.max_chunks }
{
    let len = chunk.len();
    match open_chunk(key, MAX_CHUNKS, number as u128, last, chunk, len) {
        Ok(text) => {
            *report = Report::of_len(text as u64);
            OK
        }
        Err(fault) => report_fault(0, Fault::from(fault), report),
    }
}

/// Seals a chunk under its number. All but the last 16 bytes of the buffer are the chunk's text.
pub(crate) fn seal_as(
    key: &[u8; 32],
    number: u64,
    last: bool,
    chunk: &mut [u8],
    report: &mut Report,
) -> u32
    requires low { tag_size ≤ length chunk.old }
    requires high { length chunk.old ≤ sealed_chunk_size }
    ensures seals { SealsAs key.now number last chunk.old chunk.new report.new result }
{
    if number as u128 >= MAX_CHUNKS {
        return report_fault(0, Fault::TooManyChunks, report);
    }
    seal_chunk(key, number as u128, last, chunk);
    *report = Report::of_len(chunk.len() as u64);
    OK
}

/// Whether a chunk of this length is full, or is the last and not longer.
pub(crate) fn is_chunk_len(len: usize, last: bool) -> bool
    ensures { result ≡ is_chunk_len len last }
{
    if last {
        len <= SEALED_CHUNK_SIZE
    } else {
        len == SEALED_CHUNK_SIZE
    }
}

/// Whether a chunk of this length has a tag and some text. Chunk 0 may be a tag alone.
pub(crate) fn has_text(number: u64, len: usize) -> bool
    ensures { result ≡ has_text number len }
{
    len > TAG_SIZE || len == TAG_SIZE && number == 0
}
