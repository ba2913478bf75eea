//! The header for a text of stanzas, alone or at the beginning of a new file.

ghost use Rattle.std.specs.Prelude.{◌≡◌, length, IfOk};
ghost use Rattle.std.specs.String.{string_bytes};
ghost use Rattle.age_header.specs.Base64.{IsBase64};
ghost use Rattle.age_header.specs.Header.{mac_size};
ghost use Rattle.age_kdf.specs.Bytes.{Bytes};
ghost use Rattle.agefile.specs.Heading.{BeginsFile, FindsMac, GivesHeader, MakesHeader, heading};
ghost use Rattle.agefile.specs.Heading.{in_text, lines_in, probe};
ghost use Rattle.agefile.specs.Report.{Refuses};

use crate::code::{OK, OUT_OF_MEMORY};
use crate::giving::{give_up, give_whole};
use crate::limits::limits;
use crate::payload::Payload;
use crate::phase::WRITING;
use crate::report::{Report, report_fault};
use age_file::{Fault, FileKey, MemSource, inspect, is_mixed, mac_of};
use age_header::base64_no_pad;
use age_stream::payload_key;
use std::alloc::{AllocError, Global};

/// Writes the header for a text of stanzas, with its MAC under a file key: version line, stanzas,
/// end line. The text is the concatenated output of one or more wrapping calls. On 0 the report has
/// the length of the header.
///
/// # Errors
/// The first that applies of 18 if the text is empty; 2 with the first bad line, counted in the
/// text (an end line is bad there), 3 and 4, as for `age_file::inspect`; 5 if a `scrypt` stanza is
/// not alone; 21 if `out` is too small. 17 if an allocation was refused. `out` is then unchanged.
#[unsafe(no_mangle)]
pub extern "C" fn agefile_header(
    alloc: Global,
    stanzas: &[u8],
    file_key: &[u8; 16],
    out: &mut [u8],
    report: &mut Report,
) -> u32
    ensures { GivesHeader stanzas.now file_key.now out.old out.new report.new result }
{
    match make_header(alloc, stanzas, &FileKey(*file_key)) {
        Ok(header) => give_whole(header.as_slice(), out, report),
        Err(fault) => refuse(fault, out, report),
    }
}

/// Begins a file. Writes its header, as `agefile_header` does, then the nonce of its payload, and
/// starts the payload for writing. File key and nonce are 16 random bytes each and must never be
/// used twice. On 0 the report has the length of header and nonce.
///
/// # Errors
/// Those of `agefile_header`. `out` is then unchanged, and the payload is not open.
#[unsafe(no_mangle)]
pub extern "C" fn agefile_begin(
    alloc: Global,
    stanzas: &[u8],
    file_key: &[u8; 16],
    nonce: &[u8; 16],
    out: &mut [u8],
    payload: &mut Payload,
    report: &mut Report,
) -> u32
    ensures { BeginsFile stanzas.now file_key.now nonce.now out.old out.new payload.new report.new
        result }
{
    let key = FileKey(*file_key);
    *payload = Payload::closed();
    let header = match make_header(alloc, stanzas, &key) {
        Ok(header) => header,
        Err(fault) => return refuse(fault, out, report),
    };
    let mut front = header;
    if front.extend_from_slice(nonce).is_err() {
        return give_up(OUT_OF_MEMORY, out, report);
    }
    let code = give_whole(front.as_slice(), out, report);
    if code == OK {
        *payload = Payload::before_first(payload_key(&key, nonce), WRITING);
    }
    code
}

/// Returns the code of a fault, and leaves the buffer unchanged.
pub(crate) fn refuse(fault: Fault, out: &mut [u8], report: &mut Report) -> u32
    ensures { Refuses fault out.old out.new report.new result }
{
    // For the proof alone (docs/PROOFS.md, "How to read a clause"): the buffer is unchanged.
    let _ = out;
    report_fault(0, fault, report)
}

/// The header for a text of stanzas, with its MAC under a file key.
///
/// # Errors
/// The first that applies of `NoRecipients` if the text is empty; `BadLine` with the first bad
/// line, counted in the text (an end line is bad there), `HeaderTruncated` and `HeaderTooLarge`, as
/// for `age_file::inspect`; `MixedPassphrase` if a `scrypt` stanza is not alone. `OutOfMemory` if
/// an allocation was refused.
#[tactic(auto, using(crate::proofs::HeadingLemmas::header_none))]
pub(crate) fn make_header(alloc: Global, stanzas: &[u8], key: &FileKey) -> Result<Vec<u8>, Fault>
    ensures { MakesHeader stanzas.now key.now result }
{
    if stanzas.len() == 0 {
        return Err(Fault::NoRecipients);
    }
    let probe = framed(alloc, stanzas, &[b'A'; 43])?;
    let mac = mac_under(alloc, probe.as_slice(), key)?;
    let characters = characters_of(alloc, &mac)?;
    Ok(framed(alloc, stanzas, characters.as_bytes())?)
}

/// The base64 of a MAC.
fn characters_of(alloc: Global, mac: &[u8; 32]) -> Result<String, AllocError>
    ensures base64 { IfOk result (λ text. IsBase64 mac.now (string_bytes text)) }
    ensures len { length mac.now ≡ mac_size }
{
    base64_no_pad::encode(alloc, &base64_no_pad::engine(), mac)
}

/// A text between the version line and an end line with these base64 characters.
#[tactic(auto, using(crate::proofs::HeadingLemmas::framed_text))]
fn framed(alloc: Global, text: &[u8], characters: &[u8]) -> Result<Vec<u8>, AllocError>
    ensures { IfOk result (λ all. all.items ≡ heading text.now characters.now) }
{
    let mut all = Vec::from_slice(alloc, b"age-encryption.org/v1\n")?;
    all.extend_from_slice(text)?;
    all.extend_from_slice(b"--- ")?;
    all.extend_from_slice(characters)?;
    all.push(b'\n')?;
    Ok(all)
}

/// Computes the MAC under a file key for the stanzas of a probe, or returns the fault of its text.
fn mac_under(alloc: Global, text: &[u8], key: &FileKey) -> Result<[u8; 32], Fault>
    ensures { (stanzas : Bytes) → text.now ≡ probe stanzas → FindsMac stanzas key.now result }
{
    let mut source = MemSource::new(text);
    let header = match inspect(alloc, &mut source, &limits()) {
        Ok(header) => header,
        Err(fault) => return Err(in_text(fault)),
    };
    let rest = source.rest();
    if rest.len() > 0 {
        let (front, _) = text.split_at(text.len() - rest.len());
        return Err(in_text(Fault::BadLine(lines_in(front))));
    }
    if is_mixed(header.stanzas()) {
        return Err(Fault::MixedPassphrase);
    }
    Ok(mac_of(alloc, &key.0, header.stanzas())?)
}

/// A header's fault with its line counted in the text of stanzas, which begins at the second line.
fn in_text(fault: Fault) -> Fault
    ensures { result ≡ in_text fault }
{
    match fault {
        Fault::BadLine(line) => Fault::BadLine(line.saturating_sub(1)),
        other => other,
    }
}

/// The number of LFs in a text.
fn lines_in(text: &[u8]) -> u64
    ensures { result ≡ lines_in text.now }
{
    let mut lines = 0;
    for byte in text {
        if *byte == b'\n' {
            lines += 1;
        }
    }
    lines
}
