//! Copying what follows a header.

ghost use Rattle.std.specs.Prelude.{◌≡◌, ◌≤◌, length, IfErr};
ghost use Rattle.age_header.specs.Device.{CountsIf, flow_by, move_by};
ghost use Rattle.age_file.specs.Copying.{Copies, CopiesAhead, CopiesPiece, buffer_size};
ghost use Rattle.age_file.specs.Device.{is_read, is_write};

use crate::fault::Fault;
use age_header::{Sink, Source, fill_from, write_all};

/// The size in bytes of the buffer of `rewrap`, which copies a piece up to a multiple of this size
/// in the new file, then pieces of this size, and at last what is left.
pub const BUFFER_SIZE: usize = 65_536;

/// The most full pieces that `copy_pieces` copies, 2^105 bytes in all. No payload has as many; the
/// bound is there so that the loop ends.
const MAX_PIECES: u128 = 1 << 89;

/// Copies all bytes left in the source: a piece of `first` bytes, and then pieces of the buffer's
/// length.
#[tactic(auto, using(crate::proofs::CopiesLemmas::copy_all))]
pub(crate) fn copy_all<S: Source, W: Sink>(
    input: &mut S,
    out: &mut W,
    buf: &mut [u8],
    first: usize,
) -> Result<(), Fault>
    requires size { length buf.old ≡ buffer_size }
    requires first { first ≤ buffer_size }
    ensures copies { Copies (flow_by S.to_come S.gave input.old input.new)
        (move_by W.taken out.old out.new) result }
    ensures ahead { IfErr result (CopiesAhead (flow_by S.to_come S.gave input.old input.new)
        (move_by W.taken out.old out.new)) }
    ensures reads { CountsIf is_read (S.failed input.old) (S.failed input.new) result }
    ensures writes { CountsIf is_write (W.failed out.old) (W.failed out.new) result }
{
    let (start, _) = buf.split_at_mut(first);
    match copy_piece(input, out, start) {
        Ok(true) => copy_pieces(input, out, buf),
        Ok(false) => Ok(()),
        Err(fault) => Err(fault),
    }
}

/// Copies all bytes left in the source, a piece of the buffer's length at a time.
#[tactic(auto, using(crate::proofs::CopiesLemmas::copy_pieces))]
fn copy_pieces<S: Source, W: Sink>(input: &mut S, out: &mut W, buf: &mut [u8]) -> Result<(), Fault>
    requires { length buf.old ≡ buffer_size }
    ensures copies { Copies (flow_by S.to_come S.gave input.old input.new)
        (move_by W.taken out.old out.new) result }
    ensures ahead { IfErr result (CopiesAhead (flow_by S.to_come S.gave input.old input.new)
        (move_by W.taken out.old out.new)) }
    ensures reads { CountsIf is_read (S.failed input.old) (S.failed input.new) result }
    ensures writes { CountsIf is_write (W.failed out.old) (W.failed out.new) result }
{
    let mut copied = 0;
    while copied < MAX_PIECES {
        match copy_piece(input, out, buf) {
            Ok(true) => copied += 1,
            Ok(false) => return Ok(()),
            Err(fault) => return Err(fault),
        }
    }
    Err(Fault::TooManyChunks)
}

/// Copies one piece of the buffer's length, or what is left of the source. Returns whether the
/// piece was full.
fn copy_piece<S: Source, W: Sink>(input: &mut S, out: &mut W, buf: &mut [u8]) -> Result<bool, Fault>
    ensures len { length buf.new ≡ length buf.old }
    ensures copies { CopiesPiece (length buf.old) (flow_by S.to_come S.gave input.old input.new)
        (move_by W.taken out.old out.new) result }
    ensures reads { CountsIf is_read (S.failed input.old) (S.failed input.new) result }
    ensures writes { CountsIf is_write (W.failed out.old) (W.failed out.new) result }
{
    let Ok(n) = fill_from(input, buf, 0) else {
        return Err(Fault::Read);
    };
    match write_all(out, &buf[..n]) {
        Ok(()) => Ok(n == buf.len()),
        Err(_) => Err(Fault::Write),
    }
}
