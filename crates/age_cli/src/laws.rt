//! Laws on what status 0 means. Each is a fact about the definitions alone, stated as the contract
//! of a function that does nothing.

ghost use Rattle.std.specs.Prelude.{◌≡◌, ◌≤◌, ◌⊎◌, ◌++◌, ⊤, List, Ok, Option, Result, Some, length};
ghost use Rattle.age_header.specs.Device.{Bytes, Known, Moved, move_of};
ghost use Rattle.age_header.specs.Header.{HeaderParts, StanzaParts};
ghost use Rattle.age_header.specs.Verdict.{HeaderVerdict};
ghost use Rattle.age_header.specs.declared.file_key.FileKey.{FileKey};
ghost use Rattle.age_file.specs.AgeFile.{AgeFile};
ghost use Rattle.age_file.specs.declared.fault.Fault.{Fault};
ghost use Rattle.age_job.specs.declared.job.Job.{Job};
ghost use Rattle.age_args.specs.JobOf.{IsPiped, Makes};
ghost use Rattle.age_file.specs.Rewrap.{Rewrapped};
ghost use Rattle.age_file.specs.Verdict.{Answering, finding};
ghost use Rattle.age_commands.specs.Inspect.{IsShown, check_of};
ghost use Rattle.age_cli.specs.Program.{Runs, RunsOn, word_limits};
ghost use Rattle.age_commands.specs.Secret.{limits_of};

use age_file::laws::ok_is_age_file;
use age_job::Command;
use std::rt::Files;

/// What a `run_job` that ended with status 0 appended to its output, if the contents of input and
/// output are known. `decrypt` and `salvage`: the whole plaintext of the input, which is an age
/// file. `encrypt`: an age file of the input. `rewrap`: the input with another header. `inspect`:
/// the header at the start of the input, as its text with `-r`, otherwise as a table. `range`: at
/// most as many bytes as the job requests. Nothing else was appended.
///
/// The same holds for a `run` with status 0 whose arguments make a job and name neither IN nor OUT:
/// by `words` this job has the command and the limits that they set. (Those of `range` name IN.)
#[tactic(auto, using(crate::proofs::LawLemmas::jobs_done))]
pub fn done_jobs<F: Files>()
    ensures decrypt { (job : Job) (b xs : Bytes) (new : Known)
        → (job.command ≡ Command.Decrypt) ⊎ (job.command ≡ Command.Salvage)
        → Runs job (Some b) (move_of (Some xs) new) (Ok tt)
        → (stanzas : List StanzaParts) × (k : FileKey) × (plain : Bytes)
        × AgeFile (limits_of job) k stanzas plain b × (new ≡ Some (xs ++ plain)) }
    ensures encrypt { (job : Job) (plain xs : Bytes) (new : Known) → job.command ≡ Command.Encrypt
        → Runs job (Some plain) (move_of (Some xs) new) (Ok tt)
        → (stanzas : List StanzaParts) × (k : FileKey) × (b : Bytes)
        × AgeFile (limits_of job) k stanzas plain b × (new ≡ Some (xs ++ b)) }
    ensures rewrap { (job : Job) (b xs : Bytes) (new : Known) → job.command ≡ Command.Rewrap
        → Runs job (Some b) (move_of (Some xs) new) (Ok tt)
        → (answers : Answering) × (c : Bytes) × Rewrapped (limits_of job) answers b c
        × (new ≡ Some (xs ++ c)) }
    ensures inspect { (job : Job) (b xs : Bytes) (new : Known) → job.command ≡ Command.Inspect
        → Runs job (Some b) (move_of (Some xs) new) (Ok tt)
        → (header : HeaderParts) × (text : Bytes)
        × HeaderVerdict b (limits_of job).max_header (Ok (finding text header))
        × ((key : Option Bytes) × (shown : Bytes)
        × IsShown job.raw header (check_of key header) shown
        × (new ≡ Some (xs ++ shown))) }
    ensures range { (job : Job) (from : Known) (xs : Bytes) (new : Known)
        → job.command ≡ Command.Range → Runs job from (move_of (Some xs) new) (Ok tt)
        → (part : Bytes) × (length part ≤ job.len) × (new ≡ Some (xs ++ part)) }
    ensures words { (words : List Bytes) (command : Command) (job : Job) (from : Known)
        (sink : Moved) (result : Result ⊤ Fault) → IsPiped command words → Makes words job
        → RunsOn F.File.remaining F.File.contents job from sink result
        → (job.command ≡ command) × (limits_of job ≡ word_limits words)
        × Runs job from sink result }
{
    ok_is_age_file();
}
