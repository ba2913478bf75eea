//! Reading until a buffer is full.

ghost use Rattle.std.specs.Prelude.{◌≡◌, ◌<◌, ◌≤◌, length, IfOk, OnErr};
ghost use Rattle.std.specs.Io.KnownBytes.{IsAtEnd};
ghost use Rattle.age_header.specs.Device.{Counts, GaveSome, flow_by};
ghost use Rattle.age_header.specs.Filling.{Filled, Got};

use crate::device::{DeviceFault, Source};

/// Fills `buf` from its byte `start` on, in as many reads as needed, until it is full or the source
/// has ended. Returns the number of bytes of `buf` that are filled, including the first `start`.
///
/// # Errors
/// If a read failed. It is not repeated, and the bytes read before it are lost.
pub fn fill_from<S: Source>(
    input: &mut S,
    buf: &mut [u8],
    start: usize,
) -> Result<usize, DeviceFault>
    requires { start ≤ length buf.old }
    ensures len { length buf.new ≡ length buf.old }
    // On Ok(n) the bytes of the buffer from `start` to n were read from the source; those before
    // are unchanged.
    ensures bytes { IfOk result
        (λ n. Filled start n buf.old buf.new (flow_by S.to_come S.gave input.old input.new)) }
    // If the contents are known, n is less than the buffer's length only at their end.
    ensures end { IfOk result (λ n. n < length buf.old → IsAtEnd (S.to_come input.new)) }
    // On an error the source had returned some bytes, perhaps none.
    ensures lost { OnErr result (GaveSome (flow_by S.to_come S.gave input.old input.new)) }
    ensures count { Counts (S.failed input.old) (S.failed input.new) result }
{
    let mut at = start;
    while at < buf.len() {
        match read_after(input, buf, at) {
            Ok(0) => return Ok(at),
            Ok(n) => at += n,
            Err(fault) => return Err(fault),
        }
    }
    Ok(at)
}

/// One read into `buf` after its first `at` bytes.
fn read_after<S: Source>(input: &mut S, buf: &mut [u8], at: usize) -> Result<usize, DeviceFault>
    requires { at ≤ length buf.old }
    ensures bytes { IfOk result
        (λ n. Got at n buf.old buf.new (flow_by S.to_come S.gave input.old input.new)) }
    ensures lost { OnErr result (GaveSome (flow_by S.to_come S.gave input.old input.new)) }
    ensures count { Counts (S.failed input.old) (S.failed input.new) result }
{
    let (_, rest) = buf.split_at_mut(at);
    input.read(rest)
}
