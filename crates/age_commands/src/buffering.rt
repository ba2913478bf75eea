//! A job's limits, and the sources over its input.
ghost use Rattle.std.specs.Prelude.{◌≡◌, ◌<◌, [], None, IfOk, IfErr};
ghost use Rattle.age_job.specs.Job.{IsInRange};
ghost use Rattle.age_commands.specs.Secret.{limits_of};
ghost use Rattle.age_commands.specs.Skipping.{come_by};

use crate::skipping::{Begun, SkippingSource};
use age_file::{Fault, FileAt, Limits, MAX_CHUNKS, ReadAt, ReadSource, Source};
use age_job::{Input, Job};
use std::alloc::Global;
use std::io::{BufReader, Read, Seek};

/// The size of the buffer through which a header is read before its payload. Bytes of the payload
/// in this buffer are copied; longer reads after them go directly into the buffer of the library.
pub(crate) const HEADER_BUFFER_LEN: usize = 8_192;

/// Returns the limits of this job.
pub fn limits_of(job: &Job) -> Limits
    requires { IsInRange job.now }
    // The limits are that of `-H` and 2^88 chunks.
    ensures { result ≡ limits_of job.now }
{
    let Some(limits) = Limits::new(job.max_header, MAX_CHUNKS) else {
        unreachable!();
    };
    limits
}

/// Makes a source over this reader, for a damaged file. If `skips`, it continues after bytes that
/// cannot be read.
pub(crate) fn skipping_source<'a, R: Input, K: Begun>(
    alloc: Global,
    input: &'a mut R,
    skips: bool,
) -> Result<SkippingSource<'a, R, K>, Fault>
    requires start { K.start ≡ R.remaining input.old }
    requires failed { K.failed ≡ R.failed input.old }
    ensures to_come { IfOk result (λ source. ⟦<SkippingSource<'a, R, K> as Source>⟧.to_come source
        ≡ come_by skips (R.remaining input.old)) }
    ensures gave { IfOk result
        (λ source. ⟦<SkippingSource<'a, R, K> as Source>⟧.gave source []) }
    ensures err { IfErr result (λ fault. fault ≡ Fault.OutOfMemory) }
{
    match BufReader::with_capacity(alloc, HEADER_BUFFER_LEN, input) {
        Ok(buffered) => Ok(SkippingSource::new(buffered, skips)),
        Err(_) => Err(Fault::OutOfMemory),
    }
}

/// Makes a source over this reader, with a buffer of this size.
pub(crate) fn buffered_source<R: Read + Drop>(
    alloc: Global,
    len: usize,
    input: R,
) -> Result<ReadSource<BufReader<R>>, Fault>
    requires { 0 < len }
    ensures ok { IfOk result (λ source. ⟦<ReadSource<BufReader<R>> as Source>⟧.to_come source
        ≡ R.remaining input) }
    ensures err { IfErr result (λ fault. fault ≡ Fault.OutOfMemory) }
{
    match BufReader::with_capacity(alloc, len, input) {
        Ok(buffered) => Ok(ReadSource::new(buffered)),
        Err(_) => Err(Fault::OutOfMemory),
    }
}

/// Makes a `ReadAt` over this file, for a header, its payload's nonce, and whole chunks.
pub(crate) fn source_at_offsets<F: Read + Seek + Drop>(
    alloc: Global,
    file: F,
) -> Result<FileAt<BufReader<F>>, Fault>
    ensures err { IfErr result (λ fault. fault ≡ Fault.OutOfMemory) }
{
    match BufReader::with_capacity(alloc, HEADER_BUFFER_LEN, file) {
        Ok(buffered) => Ok(FileAt::new(buffered)),
        Err(_) => Err(Fault::OutOfMemory),
    }
}
