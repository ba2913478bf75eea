//! Encrypting a whole plaintext for a text of stanzas.

ghost use Rattle.std.specs.Prelude.{◌≡◌, ◌+◌, ◌*◌, ◌≤◌, ◌++◌};
ghost use Rattle.agefile.specs.Words.{[], drop, length, min, nat_le, take, sealed_text, chunk_size};
ghost use Rattle.agefile.specs.Words.{tag_size};
ghost use Rattle.std.specs.List.{concat};
ghost use Rattle.age_stream.specs.Payload.{chunk_nonce, chunks, payload, sealed_chunks_from};
ghost use Rattle.agefile.specs.WholeFiles.{Encrypts};
ghost use Rattle.agefile.specs.Sizes.{chunk_count, file_len};

use crate::code::{OK, TOO_SMALL};
use crate::heading::{make_header, refuse};
use crate::report::Report;
use crate::sizes::agefile_file_len;
use age_file::FileKey;
use age_stream::{CHUNK_SIZE, NONCE_SIZE, SEALED_CHUNK_SIZE, TAG_SIZE, payload_key, seal_chunk};
use std::alloc::Global;

/// Encrypts a plaintext for a text of stanzas, as `agefile_begin` and the calls on its payload do.
/// File key and nonce are 16 random bytes each and must never be used twice.
///
/// # Errors
/// Those of `agefile_header`. `out` is then unchanged.
#[unsafe(no_mangle)]
pub extern "C" fn agefile_encrypt(
    alloc: Global,
    plain: &[u8],
    stanzas: &[u8],
    file_key: &[u8; 16],
    nonce: &[u8; 16],
    out: &mut [u8],
    report: &mut Report,
) -> u32
    // On 0 `out` begins with the header of the stanzas and the payload of the plaintext. Otherwise
    // returns the header's fault, 17, or 21 with the file's length in the report; `out` is
    // unchanged.
    ensures { Encrypts stanzas.now file_key.now nonce.now plain.now out.old out.new report.new
        result }
{
    let key = FileKey(*file_key);
    let header = match make_header(alloc, stanzas, &key) {
        Ok(header) => header,
        Err(fault) => return refuse(fault, out, report),
    };
    let size = agefile_file_len(header.len() as u64, plain.len() as u64);
    *report = Report::of_len(size);
    if size > out.len() as u64 {
        return TOO_SMALL;
    }
    let (file, _) = out.split_at_mut(size as usize);
    write_file(header.as_slice(), plain, &key, nonce, file);
    OK
}

/// Writes a header and the payload of a plaintext to a buffer of exactly their length.
fn write_file(header: &[u8], plain: &[u8], key: &FileKey, nonce: &[u8; 16], file: &mut [u8])
    requires { length file.old ≡ file_len (length header.now) (length plain.now) }
    ensures { file.new ≡ header.now ++ payload key.now nonce.now plain.now }
{
    let (head, rest) = file.split_at_mut(header.len());
    head.copy_from_slice(header);
    let (fresh, sealed) = rest.split_at_mut(NONCE_SIZE);
    fresh.copy_from_slice(nonce);
    seal_chunks(&payload_key(key, nonce), plain, sealed);
}

/// Seals the chunks of a plaintext into a buffer of exactly their length.
fn seal_chunks(key: &[u8; 32], plain: &[u8], out: &mut [u8])
    requires { length out.old ≡ length plain.now + tag_size * chunk_count (length plain.now) }
    ensures { out.new ≡ concat (sealed_chunks_from key.now 0 (chunks plain.now)) }
{
    let mut at = 0;
    let mut done = 0;
    let mut number = 0u64;
    'chunks: loop {
        let (_, left) = plain.split_at(at);
        let (_, room) = out.split_at_mut(done);
        seal_first(key, number, left, room);
        if left.len() <= CHUNK_SIZE {
            return;
        }
        at += CHUNK_SIZE;
        done += SEALED_CHUNK_SIZE;
        number += 1;
    }
}

/// Seals the first chunk of the rest of a plaintext into the start of a buffer.
fn seal_first(key: &[u8; 32], number: u64, left: &[u8], room: &mut [u8])
    requires { min (length left.now) chunk_size + tag_size ≤ length room.old }
    ensures { room.new
        ≡ sealed_text key.now (chunk_nonce number (nat_le (length left.now) chunk_size)) []
        (take chunk_size left.now) ++ drop (min (length left.now) chunk_size + tag_size) room.old }
{
    let size = left.len().min(CHUNK_SIZE);
    let (text, _) = left.split_at(size);
    let (chunk, _) = room.split_at_mut(size + TAG_SIZE);
    let (front, _) = chunk.split_at_mut(size);
    front.copy_from_slice(text);
    seal_chunk(key, number as u128, left.len() <= CHUNK_SIZE, chunk);
}
