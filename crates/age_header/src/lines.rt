//! Reading one line.

ghost use Rattle.std.specs.Prelude.{◌≡◌, [], ◌∷◌, length, IfOk, IfErr, OnErr, IfSome, IfNone};
ghost use Rattle.std.specs.Io.KnownBytes.{IsAtEnd};
ghost use Rattle.age_header.specs.Device.{Counts, CountsIf, Gave, GaveSome, flow_by};
ghost use Rattle.age_header.specs.Verdict.{IsLineText};
ghost use Rattle.age_header.specs.Reader.{ReadAtMost, is_read};
ghost use Rattle.age_header.specs.Lines.{line_bytes, IsEnd, IsOutside};

use crate::device::{DeviceFault, Source};
use crate::fault::HeaderFault;
use std::alloc::Global;

/// How a line ended.
#[derive(Clone, Copy, Debug, Drop, PartialEq, Eq)]
pub(crate) enum LineEnd {
    /// With an LF, which was read, too.
    Lf,
    /// At the end of the input.
    Input,
    /// Not within `max_len` bytes.
    Room,
}

/// Reads one line, at most `max_len` bytes with its LF. Returns it without the LF, and how it
/// ended. Reads byte by byte, so that no byte after the line is read.
pub(crate) fn read_line<S: Source>(
    alloc: Global,
    input: &mut S,
    max_len: usize,
) -> Result<(Vec<u8>, LineEnd), HeaderFault>
    ensures count { CountsIf is_read (S.failed input.old) (S.failed input.new) result }
    ensures bytes { IfOk result (λ l. Gave (flow_by S.to_come S.gave input.old input.new)
        (line_bytes l.0.items l.1)) }
    ensures text { IfOk result (λ l. IsLineText l.0.items) }
    ensures end { IfOk result (λ l. IsEnd l.1 (length l.0.items) max_len (S.to_come input.new)) }
    ensures err { IfErr result IsOutside }
    ensures lost { OnErr result (GaveSome (flow_by S.to_come S.gave input.old input.new)) }
    ensures most { IfErr result
        (ReadAtMost max_len (flow_by S.to_come S.gave input.old input.new)) }
{
    let mut line = Vec::new(alloc);
    for _ in 0..max_len {
        let next = match next_byte(input) {
            Ok(Some(next)) => next,
            Ok(None) => return Ok((line, LineEnd::Input)),
            Err(_) => return Err(HeaderFault::Read),
        };
        if next == b'\n' {
            return Ok((line, LineEnd::Lf));
        }
        if line.push(next).is_err() {
            return Err(HeaderFault::Memory);
        }
    }
    Ok((line, LineEnd::Room))
}

/// Reads one byte, and returns `None` at the end of the input.
fn next_byte<S: Source>(input: &mut S) -> Result<Option<u8>, DeviceFault>
    ensures count { Counts (S.failed input.old) (S.failed input.new) result }
    ensures some { IfOk result (λ next. IfSome next (λ byte.
        Gave (flow_by S.to_come S.gave input.old input.new) (byte ∷ []))) }
    ensures none { IfOk result (λ next. IfNone next (IsAtEnd (S.to_come input.new)
        × Gave (flow_by S.to_come S.gave input.old input.new) [])) }
    ensures lost { OnErr result (Gave (flow_by S.to_come S.gave input.old input.new) []) }
{
    let mut byte = [0u8; 1];
    match input.read(&mut byte) {
        Ok(0) => Ok(None),
        Ok(_) => Ok(Some(byte[0])),
        Err(fault) => Err(fault),
    }
}
