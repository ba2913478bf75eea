//! A command with its secrets, from an input to an output.
ghost use Rattle.std.specs.Prelude.{◌≡◌, OnOk};
ghost use Rattle.age_job.specs.Job.{IsInRange};
ghost use Rattle.age_commands.specs.Skipping.{HasFailed};
ghost use Rattle.age_commands.specs.Task.{Performs, PerformsQuietly, without_counts};
ghost use Rattle.age_file.specs.Device.{is_write};
ghost use Rattle.age_header.specs.Device.{CountsIf, move_by};
ghost use Rattle.age_stream.specs.Salvage.{losses_by};

use crate::buffering::{HEADER_BUFFER_LEN, buffered_source, source_at_offsets};
use crate::decrypt::decrypt;
use crate::encrypt::encrypt;
use crate::inspect::inspect;
use crate::range::range_of;
use crate::rewrap::rewrap;
use crate::salvage::{Report, salvage_all};
use crate::seed::Seed;
use age_file::{BUFFER_SIZE, Done, Fault, ReadSource, Sink};
use age_job::{Input, Job, Secret};
use std::alloc::Global;
use std::marker::Brand;

/// A command with all that it needs besides its job and its input.
#[derive(Drop)]
pub enum Task {
    Encrypt(Secret, Seed),
    Decrypt(Secret),
    /// With the old secret, the new one, and the salt.
    Rewrap(Secret, Secret, [u8; 16]),
    /// With the file key, if the header is to be checked.
    Inspect(Option<[u8; 16]>),
    Range(Secret),
    Salvage(Secret),
}

/// Performs this task from this input to this sink. Only `salvage` reports anything to `report`.
/// `range` reads the input at offsets, the other commands in order from its start.
#[tactic(auto, using(crate::proofs::TaskLemmas::no_memory))]
pub fn perform_between<R: Input, W: Sink, L: Report>(
    alloc: Global,
    job: &Job,
    task: Task,
    input: &mut R,
    out: &mut W,
    report: &mut L,
) -> Result<(), Fault>
    requires { IsInRange job.now }
    // Returns, writes and reports what the library does for the recipient, the identity and the
    // limits of the job and its secrets; of `range` only how many bytes and which kind of fault.
    // `encrypt` uses the seed's file key, nonce and salt, `rewrap` the salt of its task. `salvage`
    // reads the bytes of IN, unless a read of IN failed, which raised the count of failures.
    ensures performs { Performs job.now task (HasFailed R.failed (R.failed input.old))
        (R.remaining input.old) (move_by W.taken out.old out.new)
        (losses_by L.lost report.old report.new) result }
    // On a fault other than a chunk's, `TooManyChunks`, `Read` and `Write` the sink is unchanged,
    // whether or not its contents are known. But `inspect` writes a header whose MAC is wrong.
    ensures quiet { PerformsQuietly task out.old out.new result }
    // On Ok nothing was reported.
    ensures silent { OnOk result (report.new ≡ report.old) }
    ensures writes { CountsIf is_write (W.failed out.old) (W.failed out.new) result }
{
    match task {
        Task::Encrypt(secret, seed) => {
            without_counts(encrypt(alloc, job, secret, &seed, &mut ReadSource::new(input), out))
        }
        Task::Decrypt(secret) => {
            let mut source = buffered_source(alloc, HEADER_BUFFER_LEN, input)?;
            without_counts(decrypt(alloc, job, secret, &mut source, out))
        }
        Task::Rewrap(old, new, salt) => {
            let mut source = buffered_source(alloc, HEADER_BUFFER_LEN, input)?;
            rewrap(alloc, job, old, new, salt, &mut source, out)
        }
        Task::Inspect(file_key) => {
            let mut source = buffered_source(alloc, BUFFER_SIZE, input)?;
            inspect(alloc, job, &file_key, &mut source, out)
        }
        Task::Range(secret) => {
            let mut source = source_at_offsets(alloc, input)?;
            range_of(alloc, job, secret, &mut source, out)
        }
        Task::Salvage(secret) => {
            salvage_all::<R, W, L, Brand>(alloc, job, secret, input, out, report)
        }
    }
}

/// The result without the counts of bytes and chunks.
fn without_counts(done: Result<Done, Fault>) -> Result<(), Fault>
    ensures { result ≡ without_counts done }
{
    match done {
        Ok(_) => Ok(()),
        Err(fault) => Err(fault),
    }
}
