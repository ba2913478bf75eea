//! Reading a header, line by line.

ghost use Rattle.std.specs.Prelude.{◌≡◌, ◌≤◌, ◌++◌};
ghost use Rattle.std.specs.Prelude.{length, codes, None, Err, IfOk, IfErr, OnOk, IfSome, IfNone};
ghost use Rattle.age_header.specs.Device.{CountsIf, Gave, flow_by};
ghost use Rattle.age_kdf.specs.Bytes.{Bytes};
ghost use Rattle.age_header.specs.Base64.{IsBase64};
ghost use Rattle.age_header.specs.Header.{mac_size, version_line, version_size};
ghost use Rattle.age_header.specs.Reader.{ReadAtMost, ReadsHeader, is_read};
ghost use Rattle.age_header.specs.Text.{IsPlain};

use crate::arguments::strip_prefix;
use crate::base64_no_pad;
use crate::device::Source;
use crate::fault::HeaderFault;
use crate::header::Header;
use crate::lines::{LineEnd, read_line};
use crate::progress::Progress;
use crate::size::VERSION_SIZE;
use base64::engine::general_purpose::GeneralPurpose;
use std::alloc::{AllocError, Global};
use std::convert::TryFrom;
use std::marker::Model;

const VERSION: &[u8; 21] = b"age-encryption.org/v1";

/// Reads headers of at most `max` bytes. After a fault the reader returns that fault from every
/// call, without reading the source.
#[derive(Drop)]
pub struct HeaderReader {
    max: usize,
    fault: Option<HeaderFault>,
}

impl Model for HeaderReader {
    ghost use Rattle.age_header.specs.Reader.{ReaderState};

    ghost Value = { ReaderState };

    ghost view = { λ r. record { max = r.max; fault = r.fault } };
}

impl HeaderReader {
    ghost use Rattle.age_header.specs.Reader.{fault_of};

    /// Makes a reader of headers of at most `max` bytes, without a fault.
    pub fn new(max: usize) -> HeaderReader
        ensures { result ≡ record { max = max; fault = None } }
    {
        HeaderReader { max, fault: None }
    }

    /// Reads the header at the start of the input (C2SP `age.md`, "Header"), and exactly the
    /// header's bytes from the source.
    ///
    /// # Errors
    /// If the input's first `max` bytes do not begin with a header: `NotAge` if the first 22 of
    /// them, or all if fewer, are not a prefix of the version line; else `BadLine(n)` for the least
    /// n for which the first n lines are not a prefix of a header; else `Truncated` if the input is
    /// shorter than `max`, else `TooLarge`. `Read` for a failed read, `Memory` for refused memory.
    pub fn read_from<S: Source>(
        &mut self,
        alloc: Global,
        input: &mut S,
    ) -> Result<Header, HeaderFault>
        // Returns an earlier fault, without reading the source.
        ensures kept_fault { IfSome self.old.fault
            (λ e. (result ≡ Err e) × (input.new ≡ input.old)) }
        // The reader keeps a fault, which it then returns from every call.
        ensures keeps { self.new ≡ record { max = self.old.max; fault = fault_of result } }
        // Without an earlier fault: returns `Read` only if the source's count of failures rose by
        // one or is the largest `u64`. With any other result the count is unchanged.
        ensures count { IfNone self.old.fault
            (CountsIf is_read (S.failed input.old) (S.failed input.new) result) }
        // Without an earlier fault, failed read or refused memory, the result is the header verdict
        // on the bytes that the source returned. On Ok these are exactly the header's bytes.
        ensures verdict { IfNone self.old.fault
            (ReadsHeader (flow_by S.to_come S.gave input.old input.new) self.old.max result) }
        // On a fault other than `Read`, at most `max` bytes were read.
        ensures most { IfNone self.old.fault (IfErr result
            (ReadAtMost self.old.max (flow_by S.to_come S.gave input.old input.new))) }
    {
        if let Some(fault) = self.fault {
            return Err(fault);
        }
        let result = read_header(alloc, input, self.max);
        if let Err(fault) = &result {
            self.fault = Some(*fault);
        }
        result
    }
}

/// Reads the header at the start of the input.
fn read_header<S: Source>(alloc: Global, input: &mut S, max: usize) -> Result<Header, HeaderFault>
    ensures count { CountsIf is_read (S.failed input.old) (S.failed input.new) result }
    ensures verdict { ReadsHeader (flow_by S.to_come S.gave input.old input.new) max result }
    ensures most { IfErr result (ReadAtMost max (flow_by S.to_come S.gave input.old input.new)) }
{
    read_version(alloc, input, max)?;
    let engine = base64_no_pad::engine();
    let mut room = max - VERSION_SIZE;
    let mut lines = 1u64;
    let mut progress = Progress::new(alloc);
    'lines: loop {
        let (text, end) = read_line(alloc, input, room)?;
        match end {
            LineEnd::Input => return Err(HeaderFault::Truncated),
            LineEnd::Room => return Err(HeaderFault::TooLarge),
            LineEnd::Lf => {}
        }
        room -= text.len() + 1;
        lines += 1;
        if progress.is_whole() {
            match end_mac(alloc, &engine, text.as_slice()) {
                Ok(Some(mac)) => return Ok(progress.finish(mac)),
                Ok(None) => {}
                Err(_) => return Err(HeaderFault::Memory),
            }
        }
        progress = match progress.step(alloc, &engine, text.as_slice()) {
            Ok(Some(next)) => next,
            Ok(None) => return Err(HeaderFault::BadLine(lines)),
            Err(_) => return Err(HeaderFault::Memory),
        };
    }
}

/// Reads the version line.
fn read_version<S: Source>(alloc: Global, input: &mut S, max: usize) -> Result<(), HeaderFault>
    ensures count { CountsIf is_read (S.failed input.old) (S.failed input.new) result }
    ensures ok { OnOk result
        ((version_size ≤ max) × Gave (flow_by S.to_come S.gave input.old input.new) version_line) }
    ensures err { IfErr result
        (λ e. ReadsHeader (flow_by S.to_come S.gave input.old input.new) max (Err e)) }
    ensures most { IfErr result (ReadAtMost max (flow_by S.to_come S.gave input.old input.new)) }
{
    let (first, end) = read_line(alloc, input, max.min(VERSION_SIZE))?;
    let Some(rest) = strip_prefix(VERSION, first.as_slice()) else {
        return Err(HeaderFault::NotAge);
    };
    match end {
        LineEnd::Input => Err(HeaderFault::Truncated),
        LineEnd::Room => Err(HeaderFault::TooLarge),
        LineEnd::Lf => {
            if !rest.is_empty() {
                return Err(HeaderFault::NotAge);
            }
            Ok(())
        }
    }
}

/// The MAC in this line, passed without its LF; `None` if it is not an end line.
fn end_mac(
    alloc: Global,
    engine: &GeneralPurpose,
    text: &[u8],
) -> Result<Option<[u8; 32]>, AllocError>
    requires { IsPlain engine.now }
    ensures some { IfOk result (λ o. IfSome o (λ mac. (characters : Bytes)
        × (length mac ≡ mac_size) × (text.now ≡ codes "--- " ++ characters)
        × IsBase64 mac characters)) }
    ensures none { IfOk result (λ o. IfNone o ((mac characters : Bytes) → length mac ≡ mac_size
        → text.now ≡ codes "--- " ++ characters → IsBase64 mac characters → ⊥)) }
{
    let Some(characters) = strip_prefix(text, b"--- ") else {
        return Ok(None);
    };
    let Some(mac) = base64_no_pad::decode(alloc, engine, characters)? else {
        return Ok(None);
    };
    match <[u8; 32]>::try_from(mac.as_slice()) {
        Ok(mac) => Ok(Some(mac)),
        Err(_) => Ok(None),
    }
}
