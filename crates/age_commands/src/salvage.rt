//! The command `salvage`, which saves what is left of a damaged file.
ghost use Rattle.std.specs.Prelude.{◌≡◌, IfOk, OnOk};
ghost use Rattle.age_file.specs.Device.{IsQuiet, is_write};
ghost use Rattle.age_file.specs.Salvage.{SalvagesFile};
ghost use Rattle.age_job.specs.Job.{IsInRange};
ghost use Rattle.age_commands.specs.Skipping.{HasFailed};
ghost use Rattle.age_commands.specs.Task.{SalvagesAll, if_whole};
ghost use Rattle.age_commands.specs.Secret.{answers_of, limits_of};
ghost use Rattle.age_header.specs.Device.{CountsIf, flow_by, move_by};
ghost use Rattle.age_stream.specs.Salvage.{losses_by};

use crate::buffering::{limits_of, skipping_source};
use crate::identity::SecretIdentity;
use crate::skipping::{Begun, Unread};
use age_file::{Fault, Identity, Losses, SalvagedFile, Sink, Source};
use age_job::{Input, Job, Secret};
use std::alloc::Global;

/// A receiver of the reports of `salvage`.
pub trait Report: Losses {
    /// Receives, after all lost chunks, what was saved, if IN is not whole or was not all read.
    fn damaged(&mut self, saved: &SalvagedFile)
        // The lost chunks reported so far are unchanged.
        ensures { Self.lost self.new ≡ Self.lost self.old };

    /// Receives which bytes of IN became zeros because of failed reads, if there are any.
    fn unread(&mut self, unread: &Unread)
        // The lost chunks reported so far are unchanged.
        ensures { Self.lost self.new ≡ Self.lost self.old };
}

/// Saves the damaged file to the sink, with the identity of this secret. If IN is named, continues
/// after bytes that cannot be read. Reports each lost chunk. If there is no other fault, but the
/// file is not whole or not all read, reports that, and returns `BadChunk` with the piece count.
#[tactic(auto, using(crate::proofs::TaskLemmas::no_source))]
pub(crate) fn salvage_all<R: Input, W: Sink, L: Report, K: Begun>(
    alloc: Global,
    job: &Job,
    secret: Secret,
    input: &mut R,
    out: &mut W,
    report: &mut L,
) -> Result<(), Fault>
    requires range { IsInRange job.now }
    requires start { K.start ≡ R.remaining input.old }
    requires failed { K.failed ≡ R.failed input.old }
    ensures salvages { SalvagesAll (limits_of job.now) (answers_of secret job.now.max_work)
        job.now.input (HasFailed R.failed (R.failed input.old)) (R.remaining input.old)
        (move_by W.taken out.old out.new) (losses_by L.lost report.old report.new) result }
    // On Ok nothing was reported.
    ensures silent { OnOk result (report.new ≡ report.old) }
    ensures quiet { IsQuiet out.old out.new result }
    ensures writes { CountsIf is_write (W.failed out.old) (W.failed out.new) result }
{
    let mut source = match skipping_source::<R, K>(alloc, input, job.input.is_some()) {
        Ok(source) => source,
        Err(fault) => return Err(fault),
    };
    let done = salvage(alloc, job, secret, &mut source, out, report);
    judged(report, done, source.is_read(), source.unread())
}

/// The result of the command. Reports what was saved, if the file is not whole or not all was read,
/// and for which bytes zeros were returned, if there are any.
fn judged<L: Report>(
    report: &mut L,
    done: Result<SalvagedFile, Fault>,
    is_read: bool,
    unread: Option<Unread>,
) -> Result<(), Fault>
    ensures result { result ≡ if_whole is_read done }
    ensures lost { L.lost report.new ≡ L.lost report.old }
    ensures silent { OnOk result (report.new ≡ report.old) }
{
    let result = match done {
        Ok(saved) if saved.is_whole() && is_read => return Ok(()),
        Ok(saved) => {
            report.damaged(&saved);
            Err(Fault::BadChunk(saved.payload.chunks))
        }
        Err(fault) => Err(fault),
    };
    if let Some(unread) = unread {
        report.unread(&unread);
    }
    result
}

/// Saves what is left of the source to the sink with the identity of this secret, as
/// `age_file::salvage` does. Reports each lost chunk.
#[tactic(auto, using(crate::proofs::SalvageLemmas::salvage))]
fn salvage<S: Source, W: Sink, L: Losses>(
    alloc: Global,
    job: &Job,
    secret: Secret,
    input: &mut S,
    out: &mut W,
    losses: &mut L,
) -> Result<SalvagedFile, Fault>
    requires { IsInRange job.now }
    // Returns, writes and reports what the library does for the identity and the limits of the job
    // and its secret.
    ensures salvages { SalvagesFile (limits_of job.now) (answers_of secret job.now.max_work)
        (flow_by S.to_come S.gave input.old input.new) (move_by W.taken out.old out.new)
        (losses_by L.lost losses.old losses.new) result }
    // On Ok, if no chunk is lost, none was reported.
    ensures silent { IfOk result (λ s. s.payload.lost ≡ 0 → losses.new ≡ losses.old) }
    // On a fault other than a chunk's, `TooManyChunks`, `Read` and `Write` the sink is unchanged.
    ensures quiet { IsQuiet out.old out.new result }
    ensures writes { CountsIf is_write (W.failed out.old) (W.failed out.new) result }
{
    let identity: Box<dyn Identity> = SecretIdentity::boxed(alloc, job, secret)?;
    let identities = vec![in alloc; identity]?;
    let limits = &limits_of(job);
    age_file::salvage(alloc, input, out, losses, identities.as_slice(), limits)
}
