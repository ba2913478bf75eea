//! The command `rewrap`: a file with a new header for the same file key.
ghost use Rattle.age_file.specs.Device.{IsQuiet, is_write};
ghost use Rattle.age_file.specs.Rewrap.{Rewraps};
ghost use Rattle.age_job.specs.Job.{IsInRange};
ghost use Rattle.age_commands.specs.Secret.{answers_of, gathering_of, limits_of};
ghost use Rattle.age_header.specs.Device.{CountsIf, flow_by, move_by};

use crate::buffering::limits_of;
use crate::identity::SecretIdentity;
use crate::recipient::SecretRecipient;
use age_file::{Fault, Identity, Recipient, Sink, Source};
use age_job::{Job, Secret};
use std::alloc::Global;

/// Copies the source to the sink with a new header for the recipient of the new secret, if the old
/// secret opens the old header, as `age_file::rewrap` does.
#[tactic(auto, using(crate::proofs::SecretLemmas::unread))]
pub(crate) fn rewrap<S: Source, W: Sink>(
    alloc: Global,
    job: &Job,
    old: Secret,
    new: Secret,
    salt: [u8; 16],
    input: &mut S,
    out: &mut W,
) -> Result<(), Fault>
    requires { IsInRange job.now }
    ensures rewraps { Rewraps (limits_of job.now) (answers_of old job.now.max_work)
        (gathering_of new job.now.work salt)
        (flow_by S.to_come S.gave input.old input.new) (move_by W.taken out.old out.new) result }
    ensures quiet { IsQuiet out.old out.new result }
    ensures writes { CountsIf is_write (W.failed out.old) (W.failed out.new) result }
{
    let identity: Box<dyn Identity> = SecretIdentity::boxed(alloc, job, old)?;
    let identities = vec![in alloc; identity]?;
    let recipient: Box<dyn Recipient> = SecretRecipient::boxed(alloc, job, new, salt)?;
    let recipients = vec![in alloc; recipient]?;
    age_file::rewrap(
        alloc,
        input,
        out,
        identities.as_slice(),
        recipients.as_slice(),
        &limits_of(job),
    )
}
