//! The command `encrypt`: a file of the format, made of any bytes.
ghost use Rattle.age_file.specs.Device.{IsQuiet, is_write};
ghost use Rattle.age_job.specs.Job.{IsInRange};
ghost use Rattle.age_commands.specs.Secret.{gathering_of, limits_of};
ghost use Rattle.age_commands.specs.Task.{Encrypting};
ghost use Rattle.age_header.specs.Device.{CountsIf, flow_by, move_by};

use crate::buffering::limits_of;
use crate::recipient::SecretRecipient;
use crate::seed::Seed;
use age_file::{Done, Fault, Recipient, Sink, Source};
use age_job::{Job, Secret};
use std::alloc::Global;

/// Encrypts the source to the sink for the recipient of this secret, as `age_file::encrypt` does.
#[tactic(auto, using(crate::proofs::SecretLemmas::unread))]
pub(crate) fn encrypt<S: Source, W: Sink>(
    alloc: Global,
    job: &Job,
    secret: Secret,
    seed: &Seed,
    input: &mut S,
    out: &mut W,
) -> Result<Done, Fault>
    requires { IsInRange job.now }
    ensures encrypts { Encrypting (limits_of job.now) seed.now.fresh
        (gathering_of secret job.now.work seed.now.salt seed.now.fresh.file_key)
        (flow_by S.to_come S.gave input.old input.new) (move_by W.taken out.old out.new) result }
    ensures quiet { IsQuiet out.old out.new result }
    ensures writes { CountsIf is_write (W.failed out.old) (W.failed out.new) result }
{
    let recipient: Box<dyn Recipient> = SecretRecipient::boxed(alloc, job, secret, seed.salt)?;
    let recipients = vec![in alloc; recipient]?;
    age_file::encrypt(
        alloc,
        input,
        out,
        recipients.as_slice(),
        &seed.fresh,
        &limits_of(job),
    )
}
