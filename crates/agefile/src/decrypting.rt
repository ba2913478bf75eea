//! Decrypting a whole file under its file key.

ghost use Rattle.std.specs.Prelude.{◌≡◌, ◌≤◌, ◌-◌, length, min, IfOk};
ghost use Rattle.age_stream.specs.Reading.{first_outcome, reading_from};
ghost use Rattle.age_stream.specs.Sizes.{sealed_chunk_size, tag_size};
ghost use Rattle.agefile.specs.WholeFiles.{Decrypts, GivesFirst, GivesReading};
ghost use Rattle.agefile.specs.Sizes.{limits, opened_len};
ghost use Rattle.agefile.specs.Unlock.{by_file_key};

use crate::code::{OK, OUT_OF_MEMORY, TOO_SMALL};
use crate::giving::give_up;
use crate::heading::refuse;
use crate::limits::MAX_CHUNKS;
use crate::opening::start_under;
use crate::report::{Report, report_fault};
use crate::sizes::opened_len;
use age_file::Fault;
use age_stream::{SEALED_CHUNK_SIZE, StreamFault, open_chunk};
use std::alloc::Global;

/// Decrypts a whole file under its file key. On a chunk's fault `out` begins with the plaintext of
/// the chunks before it, and its other bytes are unchanged.
///
/// # Errors
/// The first that applies of:
/// - those of `agefile_open`;
/// - 21 if `out` is too small for the longest plaintext that the sealed chunks can have, whose
///   length is then in the report;
/// - those of the chunks, as for `age_file::decrypt`.
///
/// 17 if an allocation was refused. On an error other than a chunk's, `out` is unchanged.
#[unsafe(no_mangle)]
pub extern "C" fn agefile_decrypt(
    alloc: Global,
    file: &[u8],
    file_key: &[u8; 16],
    out: &mut [u8],
    report: &mut Report,
) -> u32
    // Returns the first fault before the chunks, by the verdict for this file key; else 21 if `out`
    // is too small, with the length needed in the report; or 17. In these cases `out` is unchanged.
    // Otherwise `out` begins with the verdict's plaintext, its other bytes are unchanged, and the
    // verdict's fault, or 0, is returned.
    ensures { Decrypts (by_file_key file_key.now) file.now out.old out.new report.new result }
{
    let start = match start_under(alloc, file, file_key) {
        Ok(start) => start,
        Err(fault) => return refuse(fault, out, report),
    };
    let (_, sealed) = file.split_at(start.first as usize);
    let room = opened_len(sealed.len() as u64);
    if room > out.len() as u64 {
        *report = Report::of_len(room);
        return TOO_SMALL;
    }
    let Ok(chunk) = vec![in alloc; 0; SEALED_CHUNK_SIZE] else {
        return give_up(OUT_OF_MEMORY, out, report);
    };
    let mut chunk = chunk;
    let (len, fault) = open_pieces(&start.key, sealed, chunk.as_mut_slice(), out);
    match fault {
        Some(fault) => report_fault(len as u64, Fault::from(fault), report),
        None => {
            *report = Report::of_len(len as u64);
            OK
        }
    }
}

/// Opens sealed chunks in order into the start of a buffer. Each is first opened in the memory of
/// `chunk`, so that no byte of a chunk with a fault reaches the buffer. Returns the length of their
/// text, and the first fault if there is one.
fn open_pieces(
    key: &[u8; 32],
    sealed: &[u8],
    chunk: &mut [u8],
    out: &mut [u8],
) -> (usize, Option<StreamFault>)
    requires chunk { length chunk.old ≡ sealed_chunk_size }
    requires room { opened_len (length sealed.now) ≤ length out.old }
    ensures { GivesReading (reading_from key.now limits.max_chunks 0 sealed.now) out.old out.new
        result.0 result.1 }
{
    let mut at = 0;
    let mut len = 0;
    let mut number = 0u64;
    'pieces: loop {
        let (_, left) = sealed.split_at(at);
        let (_, room) = out.split_at_mut(len);
        match open_first(key, number, left, chunk, room) {
            Ok(n) => len += n,
            Err(fault) => return (len, Some(fault)),
        }
        if left.len() <= SEALED_CHUNK_SIZE {
            return (len, None);
        }
        at += SEALED_CHUNK_SIZE;
        number += 1;
    }
}

/// Opens the first of the remaining sealed chunks into the start of a buffer.
fn open_first(
    key: &[u8; 32],
    number: u64,
    left: &[u8],
    chunk: &mut [u8],
    room: &mut [u8],
) -> Result<usize, StreamFault>
    requires chunk { length chunk.old ≡ sealed_chunk_size }
    requires room { min (length left.now) sealed_chunk_size - tag_size ≤ length room.old }
    ensures chunk { length chunk.new ≡ sealed_chunk_size }
    ensures size { IfOk result (λ n. n ≡ min (length left.now) sealed_chunk_size - tag_size) }
    ensures gives { GivesFirst (first_outcome key.now limits.max_chunks number left.now) room.old
        room.new result }
{
    let size = left.len().min(SEALED_CHUNK_SIZE);
    let (piece, _) = left.split_at(size);
    let (sealed, _) = chunk.split_at_mut(size);
    sealed.copy_from_slice(piece);
    let last = left.len() <= SEALED_CHUNK_SIZE;
    let len = open_chunk(key, MAX_CHUNKS, number as u128, last, sealed, size)?;
    let (text, _) = sealed.split_at(len);
    let (front, _) = room.split_at_mut(len);
    front.copy_from_slice(text);
    Ok(len)
}
