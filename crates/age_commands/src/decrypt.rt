//! The command `decrypt`: the plaintext of a file of the format.
ghost use Rattle.age_file.specs.Decrypt.{Decrypts};
ghost use Rattle.age_file.specs.Device.{IsQuiet, is_write};
ghost use Rattle.age_job.specs.Job.{IsInRange};
ghost use Rattle.age_commands.specs.Secret.{answers_of, limits_of};
ghost use Rattle.age_header.specs.Device.{CountsIf, flow_by, move_by};

use crate::buffering::limits_of;
use crate::identity::SecretIdentity;
use age_file::{Done, Fault, Identity, Sink, Source};
use age_job::{Job, Secret};
use std::alloc::Global;

/// Decrypts the source to the sink with the identity of this secret, as `age_file::decrypt` does.
/// On a fault of a chunk the plaintext of the chunks before that chunk was written.
#[tactic(auto, using(crate::proofs::SecretLemmas::unread))]
pub(crate) fn decrypt<S: Source, W: Sink>(
    alloc: Global,
    job: &Job,
    secret: Secret,
    input: &mut S,
    out: &mut W,
) -> Result<Done, Fault>
    requires { IsInRange job.now }
    ensures decrypts { Decrypts (limits_of job.now) (answers_of secret job.now.max_work)
        (flow_by S.to_come S.gave input.old input.new) (move_by W.taken out.old out.new) result }
    ensures quiet { IsQuiet out.old out.new result }
    ensures writes { CountsIf is_write (W.failed out.old) (W.failed out.new) result }
{
    let identity: Box<dyn Identity> = SecretIdentity::boxed(alloc, job, secret)?;
    let identities = vec![in alloc; identity]?;
    age_file::decrypt(alloc, input, out, identities.as_slice(), &limits_of(job))
}
