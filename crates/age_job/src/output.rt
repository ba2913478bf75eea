//! The file that a job writes, and what is refused as OUT.
ghost use Rattle.std.specs.Prelude.{◌≡◌, ◌<◌, false, true, length, Err, None, IfErr, IfOk, IsOk};
ghost use Rattle.age_job.specs.Refusal.{IsNamed, MakesHeader, MayRefuse};
ghost use Rattle.age_job.specs.Mode.{new_mode};

use crate::failure::{Failure, Operation};
use crate::fault::Fault;
use crate::file_names::Name;
use crate::files::{ReadFiles, unidentified};
use crate::inode::{Inode, Kind};
use crate::job::{Command, Job};
use std::fs::{OpenFile, OpenOptions};
use std::io::{ErrorKind, IsTerminal, Write};
use std::os::unix::fs::OpenOptionsExt;
use std::rt::Files;
use std::{fs, io};

/// The mode, before the umask, of a new file with a plaintext, or that takes the place of another.
pub(crate) const PLAINTEXT_MODE: u32 = 0o600;

/// The mode of any other new file, before the umask.
const FILE_MODE: u32 = 0o666;

/// A file to write. A regular file keeps its contents until the first write to it, or until the
/// command succeeds.
#[derive(Drop)]
pub struct Output<F> {
    pub(crate) file: F,
    is_regular: bool,
    /// Whether this is a regular file that may still have its old contents.
    is_stale: bool,
    /// The number of bytes written.
    written: u64,
}

/// Checks the options about OUT: refuses `--atomic` without OUT and, with `--no-clobber`, any OUT
/// that exists.
pub fn refuse_output<'a, F: Files>(rt: &F, job: &'a Job) -> Result<(), Fault<'a>>
    // `--atomic` without OUT is refused.
    ensures alone { job.now.atomic ≡ true → job.now.output ≡ None → result ≡ Err Fault.AtomicAlone }
    // Without these options nothing is refused.
    ensures free { job.now.atomic ≡ false → job.now.no_clobber ≡ false → IsOk result }
    ensures fault { IfErr result (MayRefuse job.now) }
{
    match &job.output {
        Some(name) if job.no_clobber && fs::symlink_metadata(rt, name.as_str()).is_ok() => {
            Err(Fault::OutputExists(Name(name.as_str())))
        }
        None if job.atomic => Err(Fault::AtomicAlone),
        _ => Ok(()),
    }
}

/// Opens the file of this name for writing, and creates it if it does not exist. Refuses an
/// existing file with `--no-clobber`, and a regular file or block device that the job reads.
pub(crate) fn open_in_place<'a, F: Files>(
    rt: &F,
    job: &'a Job,
    read: &ReadFiles<'a>,
    name: &'a str,
) -> Result<Output<F::File>, Failure<'a>>
    ensures { IsNamed job.now.output name.now
        → IfErr result (λ failure. MayRefuse job.now failure.fault) }
{
    let mut options = new_file(new_mode(job.command));
    match options.open(rt, name) {
        Ok(file) => return Ok(Output::over(file, true)),
        Err(reason) if reason.kind() != ErrorKind::AlreadyExists => {
            return Err(cannot_create(name, name, reason));
        }
        Err(_) if job.no_clobber => return Err(Fault::OutputExists(Name(name)).into()),
        Err(_) => {}
    }
    options.create_new(false).create(true);
    let file = match options.open(rt, name) {
        Ok(file) => file,
        Err(reason) => return Err(cannot_create(name, name, reason)),
    };
    let inode = match Inode::of_open(&file) {
        Ok(inode) => inode,
        Err(reason) => return Err(unidentified(name, reason)),
    };
    read.refuse(&inode, name)?;
    Ok(Output::over(file, inode.kind == Kind::Regular))
}

/// The options to open a file that must not exist.
pub(crate) fn new_file(mode: u32) -> OpenOptions {
    let mut options = OpenOptions::new();
    options.write(true).create_new(true).mode(mode);
    options
}

/// The failure to create the file of this name, because an operation on the file `new` failed.
pub(crate) fn cannot_create<'a>(name: &'a str, new: &'a str, reason: io::Error) -> Failure<'a>
    ensures { result.fault ≡ Fault.CannotCreate (record { 0 = name.entry }) }
{
    Failure::of_system(
        Fault::CannotCreate(Name(name)),
        Operation::Creating,
        new,
        reason,
    )
}

/// Refuses to write an age file, which is not text, to a terminal.
pub(crate) fn refuse_terminal<'a, W: IsTerminal>(job: &Job, out: &W) -> Result<(), Fault<'a>>
    ensures { MakesHeader job.now → IfErr result (MayRefuse job.now) }
{
    if job.output.is_none() && out.is_terminal() {
        return Err(Fault::OutputIsTerminal);
    }
    Ok(())
}

/// The mode of a file that this command creates, before the system applies the umask.
pub(crate) fn new_mode(command: Command) -> u32
    // The mode of a plaintext for `decrypt`, `range` and `salvage`, that of any other file for the
    // other commands. The clause cites the code's constants; only tests show that they are 600 and
    // 666.
    ensures { result ≡ new_mode command }
{
    match command {
        Command::Decrypt | Command::Range | Command::Salvage => PLAINTEXT_MODE,
        Command::Encrypt | Command::Inspect | Command::Rewrap => FILE_MODE,
    }
}

impl<F: OpenFile> Output<F> {
    pub(crate) fn over(file: F, is_regular: bool) -> Output<F>
        // A regular file counts as having its old contents.
        ensures { result.is_stale ≡ is_regular }
    {
        Output {
            file,
            is_regular,
            is_stale: is_regular,
            written: 0,
        }
    }

    /// Returns the number of bytes written.
    pub fn written(&self) -> u64
        ensures { result ≡ self.now.written }
    {
        self.written
    }

    /// Truncates a file that may still have its old contents.
    fn empty(&mut self) -> io::Result<()>
        // On Ok the file no longer counts as having its old contents. Only tests show that
        // `set_len(0)` is called, and that it truncates the file.
        ensures emptied { IsOk result → self.new.is_stale ≡ false }
        ensures same_file { self.new.file ≡ self.old.file }
    {
        if self.is_stale {
            self.file.set_len(0)?;
            self.is_stale = false;
        }
        Ok(())
    }

    /// Truncates a file that may still have its old contents, if there are bytes to write.
    fn make_room(&mut self, bytes: &[u8]) -> io::Result<()>
        // A write of 0 bytes does not change whether the file counts as having its old contents.
        ensures waits { length bytes.now ≡ 0 → self.new.is_stale ≡ self.old.is_stale }
        ensures emptied { IsOk result → 0 < length bytes.now → self.new.is_stale ≡ false }
        ensures same_file { self.new.file ≡ self.old.file }
    {
        if !bytes.is_empty() {
            self.empty()?;
        }
        Ok(())
    }

    /// Ends an output that is kept: truncates a regular file to which nothing was written, and
    /// syncs a regular file. A failure names OUT by `name`.
    pub(crate) fn finish<'a>(&mut self, name: &'a str) -> Result<(), Failure<'a>>
        ensures { IfErr result (λ failure. failure.fault ≡ Fault.Write) }
    {
        if let Err(reason) = self.empty() {
            return Err(failed_write(Operation::Truncating, name, reason));
        }
        match self.sync() {
            Ok(()) => Ok(()),
            Err(reason) => Err(failed_write(Operation::Syncing, name, reason)),
        }
    }

    fn sync(&self) -> io::Result<()> {
        if self.is_regular {
            return self.file.sync_all();
        }
        Ok(())
    }
}

pub(crate) fn failed_write<'a>(
    operation: Operation,
    name: &'a str,
    reason: io::Error,
) -> Failure<'a>
    ensures { result.fault ≡ Fault.Write }
{
    Failure::of_system(Fault::Write, operation, name, reason)
}

// The contents of an output are those of its file, and a write returns the number of bytes that the
// file took.
impl<F: Write + OpenFile> Write for Output<F> {
    ghost contents = { λ output. F.contents output.file };

    fn write(&mut self, buf: &[u8]) -> io::Result<usize> {
        self.make_room(buf)?;
        let n = self.file.write(buf)?;
        self.written = self.written.saturating_add(n as u64);
        Ok(n)
    }

    fn flush(&mut self) -> io::Result<()> {
        self.file.flush()
    }
}
