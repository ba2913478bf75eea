//! Messages on standard error.
ghost use Rattle.age_cli.specs.Told.{Says, Tells, failure_text, stream_by};
ghost use Rattle.age_header.specs.Device.{Bytes, Took, move_by};

use crate::failure::Failure;
use age_file::{Sink, write_all};
use age_job::Job;
use std::alloc::Global;
use std::fmt::Display;
use std::io::Write;

/// Prints a text on standard error, in one write if the system takes it whole. If memory is
/// refused for the text, prints the line of that fault instead. Returns whether the text was
/// printed.
pub(crate) fn say<D: Display, E: Sink>(alloc: Global, text: &D, err: &mut E) -> bool
    ensures { Says (D.output text.now) (stream_by E.taken E.failed err.old err.new) result }
{
    let mut whole = Vec::new(alloc);
    match write!(whole, "{text}") {
        Ok(()) => write_all(err, whole.as_slice()).is_ok(),
        Err(_) => {
            let _ = write_all(err, b"agep: out of memory\n");
            false
        }
    }
}

/// Prints a failure and, with `--verbose`, what more is known about it.
pub(crate) fn tell<E: Sink>(alloc: Global, job: &Job, failure: &Failure<'_>, err: &mut E)
    ensures { Tells job.now.verbose (failure_text failure.now)
        (stream_by E.taken E.failed err.old err.new) }
{
    if say(alloc, &format_args!("agep: {failure}\n"), err) && job.verbose {
        explain(alloc, failure, err);
    }
}

/// Prints what more is known about a failure.
fn explain<E: Sink>(alloc: Global, failure: &Failure<'_>, err: &mut E)
    ensures { (text : Bytes) × Took (move_by E.taken err.old err.new) text }
{
    let detail = match failure {
        Failure::AgeFile(_, detail) => detail,
        Failure::Job(failure) => &failure.detail,
    };
    if let Some(detail) = detail {
        say(alloc, &format_args!("agep: {detail}\n"), err);
    }
}
