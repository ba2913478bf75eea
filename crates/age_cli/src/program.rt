//! The program, over a reader and two writers.
ghost use Rattle.std.specs.Prelude.{◌≡◌, ◌≢◌, ◌≤◌, ◌⊎◌};
ghost use Rattle.std.specs.Prelude.{Err, None, Ok, false, codes, IfErr, IfOk, OnOk};
ghost use Rattle.age_job.specs.Job.{IsInRange};
ghost use Rattle.age_job.specs.Refusal.{MayRefuse};
ghost use Rattle.age_job.specs.declared.target.Target.TheVariants.{InPlace};
ghost use Rattle.age_args.specs.JobOf.{AreWrong, AskForText, Makes};
ghost use Rattle.age_args.specs.Words.{texts};
ghost use Rattle.age_cli.specs.Program.{AnswersRefusal, FailsBeside, IsDevice, IsTaskOf, OfWork};
ghost use Rattle.age_cli.specs.Program.{RunsOn, Works, keeps_output};
ghost use Rattle.age_cli.specs.Told.{Tells, Told, stream_by};
ghost use Rattle.age_file.specs.Texts.{fault_text};
ghost use Rattle.age_header.specs.Device.{Moved, Stays, move_by};

use crate::failure::Failure;
use crate::lines::{LossLines, NoLines, Saving};
use crate::messages::{say, tell};
use crate::work::perform_to;
use age_args::{WordsFault, read_words};
use age_commands::{Seed, Task, seed_of};
use age_file::{Fault, Sink};
use age_job::{
    Command, Input, Job, Lines, Pipe, ReadFiles, SEED_LEN, SystemFile, Target, Watched,
    read_encrypt_secrets, read_file_key, read_rewrap_secrets, read_secret, refuse_output,
    shows_progress,
};
use std::alloc::Global;
use std::io::{IsTerminal, Read, Write};
use std::rt::{Env, Files};
use std::time::Clock;

/// Success.
const DONE: u8 = 0;
/// A fault.
const FAILED: u8 = 1;
/// The command line was refused.
const REFUSED: u8 = 2;

/// Runs `agep` on these arguments, the first of which is the program's name, and returns its exit
/// status: 0 for success, 1 after a fault, 2 for a refused command line.
///
/// Reads `input` if the arguments do not name IN. Writes the output of the command to `out` if they
/// do not name OUT, and the texts of help and version. Writes to `err` one line for a fault, with
/// `--verbose` a second one on the file, the lines of `salvage` on lost chunks, and the text for a
/// refused command line. If `/dev/stderr` is a terminal that can erase a line, and the output is
/// not a terminal, `--verbose` also shows there how much was read, in a line erased at the end. To
/// compare files, takes `input` and `out` to be `/proc/self/fd/0` and `/proc/self/fd/1`.
pub fn run<F: Files + Clock + Env + AllocGlobal, R: Read, W: Write + IsTerminal, E: Sink>(
    rt: &F,
    words: &[&str],
    input: &mut R,
    out: &mut W,
    err: &mut E,
) -> u8
where
    F::File: SystemFile,
    // The status is 0, 1 or 2.
    ensures status { result ≤ 2 }
    // Status 2: the words are wrong, the input was not read, and the output is unchanged.
    ensures refused { result ≡ 2 → (input.new ≡ input.old) × (out.new ≡ out.old)
        × AreWrong (texts words.now) }
    // Wrong words: the status is 2, or it is 1 and the output is unchanged. If `clap` could also
    // take the words to ask for a text, nothing is said.
    ensures refuses { AreWrong (texts words.now)
        → AskForText (texts words.now)
        ⊎ ((result ≡ 2) ⊎ ((result ≡ 1) × (out.new ≡ out.old))) }
    // Status 0: `err` is unchanged. No clause covers the line on how much was read.
    ensures quiet { result ≡ 0 → err.new ≡ err.old }
    // Status 0: the words ask for a text of `clap`, or they make a job and a task of its command
    // was performed from its IN to its OUT. Unless named, these are `input` and `out`. A named IN
    // or OUT is some value of the file type, not tied to the file opened.
    ensures finishes { result ≡ 0 → AskForText (texts words.now)
        ⊎ ((job : Job) × Makes (texts words.now) job × RunsOn F.File.remaining F.File.contents job
        (R.remaining input.old) (move_by W.contents out.old out.new) (Ok tt)) }
    // Status 1: the words ask for a text, the contents of `out` are unchanged if known, or the
    // words make a job of which a task ended with a fault.
    ensures begins { result ≡ 1 → AskForText (texts words.now)
        ⊎ (Stays (move_by W.contents out.old out.new)
        ⊎ ((job : Job) × Makes (texts words.now) job
        × ((fault : Fault) × RunsOn F.File.remaining F.File.contents job
        (R.remaining input.old) (move_by W.contents out.old out.new) (Err fault)))) }
    // Status 1: the words ask for a text; or `err` got the line of refused memory, or a prefix if a
    // write failed; or the words make a job for which the clause `told` of `run_job` is true.
    ensures told { let err = stream_by E.taken E.failed err.old err.new in
        result ≡ 1 → AskForText (texts words.now)
        ⊎ (Tells false (codes "out of memory") err
        ⊎ ((job : Job) × Makes (texts words.now) job × Told F.File.remaining F.File.contents job
        (R.remaining input.old) (input.new ≡ input.old) (move_by W.contents out.old out.new)
        err)) }
    // If the words make a job, `input` is unread if the job names IN, and `out` is unchanged if the
    // job names OUT. Otherwise `input` is unread, and `out` unchanged unless they ask for a text.
    ensures streams { (AskForText (texts words.now) × (input.new ≡ input.old))
        ⊎ (((input.new ≡ input.old) × (out.new ≡ out.old))
        ⊎ ((job : Job) × Makes (texts words.now) job × (job.input ≢ None → input.new ≡ input.old)
        × (job.output ≢ None → out.new ≡ out.old))) }
{
    match read_words(rt.alloc(), words) {
        Ok(job) => run_job(rt, &job, input, out, err),
        Err(fault) => answer_refusal(rt.alloc(), &fault, out, err),
    }
}

/// Does this job, and returns the exit status as `run` does: 0 for success, 1 after a fault.
pub fn run_job<F: Files + Clock + Env + AllocGlobal, R: Read, W: Write + IsTerminal, E: Sink>(
    rt: &F,
    job: &Job,
    input: &mut R,
    out: &mut W,
    err: &mut E,
) -> u8
where
    F::File: SystemFile,
    requires { IsInRange job.now }
    // The status is 0 or 1.
    ensures status { result ≤ 1 }
    // Status 0: `err` is unchanged. No clause covers the line on how much was read.
    ensures quiet { result ≡ 0 → err.new ≡ err.old }
    // Status 0: a task of the job's command was performed from its IN to its OUT, with some secret
    // of the kind that the options name and some seed. If the contents of IN and OUT are known,
    // exactly what the library writes was appended; but for `range` the clause only bounds the
    // number of bytes written.
    ensures finishes { result ≡ 0 → RunsOn F.File.remaining F.File.contents job.now
        (R.remaining input.old) (move_by W.contents out.old out.new) (Ok tt) }
    // If the job names IN, `input` is not read.
    ensures input { job.now.input ≢ None → input.new ≡ input.old }
    // If the job names OUT, nothing is written to standard output.
    ensures output { job.now.output ≢ None → out.new ≡ out.old }
    // Status 1: `out`, if known, is unchanged; or a task of the job ended with a fault, and OUT has
    // what the library writes with this fault or, if the flush failed, with the work's result.
    ensures begins { result ≡ 1 → Stays (move_by W.contents out.old out.new)
        ⊎ ((fault : Fault) × RunsOn F.File.remaining F.File.contents job.now
        (R.remaining input.old) (move_by W.contents out.old out.new) (Err fault)) }
    // Status 1, but not of `salvage`: `err` got the line of the fault that ended the job, or of
    // refused memory: a prefix if a write failed, and with `--verbose` maybe more after it. That
    // fault is one of the work; or it is a refusal with `input` unread, or a fault at the end of
    // OUT, and `out`, if known, is unchanged.
    ensures told { result ≡ 1 → Told F.File.remaining F.File.contents job.now
        (R.remaining input.old) (input.new ≡ input.old) (move_by W.contents out.old out.new)
        (stream_by E.taken E.failed err.old err.new) }
{
    let is_shown = shows_progress(rt, job, out);
    let target = Target::of(rt, job);
    let mut work = Work {
        job,
        target: &target,
        read: ReadFiles::new(rt, job),
        is_shown,
    };
    if matches!(job.command, Command::Salvage) {
        let mut lines = LossLines {
            alloc: rt.alloc(),
            err,
            job,
            run: None,
            lost: 0,
            is_shown,
        };
        let Err(failure) = perform(rt, &mut work, input, out, &mut lines) else {
            return DONE;
        };
        lines.fail(&failure);
        return FAILED;
    }
    let Err(failure) = perform(rt, &mut work, input, out, &mut NoLines) else {
        return DONE;
    };
    tell(rt.alloc(), job, &failure, err);
    FAILED
}

/// A job with its files.
#[derive(Drop)]
struct Work<'a> {
    job: &'a Job,
    /// How OUT is written.
    target: &'a Target,
    /// The files opened for reading.
    read: ReadFiles<'a>,
    /// Whether to show how much of IN was read.
    is_shown: bool,
    ghost in_place: { job.now.atomic ≡ false → target.now ≡ InPlace },
}

/// Reads the small files, opens IN and OUT if they are named, performs the task, in this order.
fn perform<'a, F: Files + Clock + AllocGlobal, R: Read, W: Write + IsTerminal, L: Saving>(
    rt: &F,
    work: &mut Work<'a>,
    input: &mut R,
    out: &mut W,
    lines: &mut L,
) -> Result<(), Failure<'a>>
where
    F::File: SystemFile,
    requires { IsInRange work.old.job.now }
    ensures silent { OnOk result (lines.new ≡ lines.old) }
    ensures completes { let sink = move_by W.contents out.old out.new in
        OfWork (RunsOn F.File.remaining F.File.contents work.old.job.now
        (R.remaining input.old) sink) (FailsBeside work.old.job.now (input.new ≡ input.old) sink)
        result }
    ensures input { work.old.job.now.input ≢ None → input.new ≡ input.old }
    ensures output { work.old.job.now.output ≢ None → out.new ≡ out.old }
{
    let job = work.job;
    let task = task_of(rt, job, &mut work.read, out)?;
    match &job.input {
        Some(name) => {
            let file = work.read.open_input(rt, job.command, name.as_str())?;
            let mut input = Watched::new(rt, job, &work.read, file, work.is_shown);
            perform_on(rt, work, task, &mut input, out, lines)
        }
        None => {
            work.read.add_standard_input();
            let mut watched = Watched::new(rt, job, &work.read, Pipe(input), work.is_shown);
            let done = perform_on(rt, work, task, &mut watched, out, lines);
            let input = watched.reader.0;
            // For the proof alone (docs/PROOFS.md, "How to read a clause"): whether IN was read.
            let _ = &*input;
            done
        }
    }
}

/// Checks the options about OUT, and makes the job's task with the secrets that its options name.
#[tactic(auto, using(crate::proofs::ProgramLemmas::task_of))]
fn task_of<'a, F: Files + AllocGlobal, W: IsTerminal>(
    rt: &F,
    job: &'a Job,
    read: &mut ReadFiles<'a>,
    out: &W,
) -> Result<Task, age_job::Failure<'a>>
    ensures task { IfOk result (IsTaskOf job.now) }
    ensures fault { IfErr result (λ failure. MayRefuse job.now failure.fault) }
{
    refuse_output(rt, job)?;
    match job.command {
        Command::Encrypt => {
            let (secret, seed) = read_encrypt_secrets(rt, job, read, out)?;
            Ok(Task::Encrypt(secret, seed_from(&seed)))
        }
        Command::Decrypt => Ok(Task::Decrypt(read_secret(rt, job, read)?)),
        Command::Rewrap => {
            let (old, new, seed) = read_rewrap_secrets(rt, job, read, out)?;
            Ok(Task::Rewrap(old, new, seed_from(&seed).salt))
        }
        Command::Inspect => Ok(Task::Inspect(read_file_key(rt, job, read)?)),
        Command::Range => Ok(Task::Range(read_secret(rt, job, read)?)),
        Command::Salvage => Ok(Task::Salvage(read_secret(rt, job, read)?)),
    }
}

/// The parts of a seed.
fn seed_from(bytes: &[u8; SEED_LEN]) -> Seed {
    let Some(seed) = seed_of(bytes) else {
        unreachable!();
    };
    seed
}

/// Opens or creates OUT if it is named, performs the task on this input, and finishes OUT.
fn perform_on<'a, F: Files + AllocGlobal, R: Input, W: Write, L: Saving>(
    rt: &F,
    work: &Work<'a>,
    task: Task,
    input: &mut R,
    out: &mut W,
    lines: &mut L,
) -> Result<(), Failure<'a>>
where
    F::File: SystemFile,
    requires { IsInRange work.now.job.now }
    ensures silent { OnOk result (lines.new ≡ lines.old) }
    ensures performs { let sink = move_by W.contents out.old out.new in
        OfWork (λ done. (target : Moved)
        × IsDevice (λ (file : F.File × F.File). move_by F.File.contents file.0 file.1)
        work.now.job.now.output sink target
        × Works work.now.job.now task (R.remaining input.old) target done)
        (FailsBeside work.now.job.now (input.new ≡ input.old) sink) result }
    ensures output { work.now.job.now.output ≢ None → out.new ≡ out.old }
{
    let (job, target) = (work.job, work.target);
    let Some(name) = &job.output else {
        work.read.refuse_standard_output()?;
        return perform_to(rt.alloc(), job, task, input, out, lines);
    };
    let name = name.as_str();
    let mut output = target.create(rt, job, &work.read, name)?;
    let done = perform_to(rt.alloc(), job, task, input, &mut output, lines);
    let is_kept = is_kept(&done, lines.has_saved(output.written()));
    let Err(failure) = target.finish(rt, job, output, name, is_kept) else {
        return done;
    };
    if let Err(first) = &done {
        lines.fail(first);
    }
    Err(Failure::Job(failure))
}

/// Whether the output is kept after this result, and not discarded.
fn is_kept(done: &Result<(), Failure<'_>>, has_saved: bool) -> bool
    ensures { result ≡ keeps_output done.now has_saved }
{
    match done {
        Ok(()) => true,
        Err(Failure::AgeFile(Fault::Write, _) | Failure::Job(_)) => false,
        Err(Failure::AgeFile(_, _)) => has_saved,
    }
}

/// Prints a fault.
fn fail<E: Sink>(alloc: Global, fault: Fault, err: &mut E) -> u8
    ensures status { result ≡ 1 }
    ensures told { Tells false (fault_text fault) (stream_by E.taken E.failed err.old err.new) }
{
    say(alloc, &format_args!("agep: {fault}\n"), err);
    FAILED
}

/// Prints why the arguments are not a job, or prints the help or the version.
fn answer_refusal<W: Write, E: Sink>(
    alloc: Global,
    fault: &WordsFault,
    out: &mut W,
    err: &mut E,
) -> u8
    ensures answers { AnswersRefusal fault.now result (out.new ≡ out.old) }
    ensures quiet { result ≡ 0 → err.new ≡ err.old }
    ensures told { fault.now ≡ WordsFault.Memory
        → Tells false (codes "out of memory") (stream_by E.taken E.failed err.old err.new) }
{
    match fault {
        WordsFault::Refused(error) => {
            if error.use_stderr() {
                say(alloc, &Lines(error), err);
                return REFUSED;
            }
            match write!(out, "{error}").and_then(|()| out.flush()) {
                Ok(()) => DONE,
                Err(_) => fail(alloc, Fault::Write, err),
            }
        }
        WordsFault::Memory => fail(alloc, Fault::OutOfMemory, err),
    }
}
