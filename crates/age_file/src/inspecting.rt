//! Reading a file's header.

ghost use Rattle.std.specs.Prelude.{IfErr};
ghost use Rattle.age_header.specs.Device.{CountsIf, flow_by};
ghost use Rattle.age_file.specs.Device.{is_read};
ghost use Rattle.age_file.specs.Inspect.{Inspects, ReadsFront};

use crate::fault::Fault;
use crate::limits::Limits;
use age_header::{Header, HeaderReader, Source};
use std::alloc::Global;

/// Reads the header at the start of a file (C2SP `age.md`), and exactly the header's bytes from the
/// source. Does not verify the MAC.
///
/// # Errors
/// The first that applies of `NotAge`, `BadLine`, `HeaderTruncated` and `HeaderTooLarge`, as for
/// `HeaderReader`. `Read` if the source failed, `OutOfMemory` if an allocation was refused.
pub fn inspect<S: Source>(alloc: Global, input: &mut S, limits: &Limits) -> Result<Header, Fault>
    // Returns the header verdict, unless the fault is `Read` or `OutOfMemory`. On Ok exactly the
    // header's bytes were read.
    ensures verdict { Inspects limits.now (flow_by S.to_come S.gave input.old input.new) result }
    ensures reads { CountsIf is_read (S.failed input.old) (S.failed input.new) result }
    // On a fault other than `Read`, at most as many bytes were read as a header may have.
    ensures most { IfErr result
        (ReadsFront limits.now (flow_by S.to_come S.gave input.old input.new)) }
{
    Ok(HeaderReader::new(limits.max_header()).read_from(alloc, input)?)
}
