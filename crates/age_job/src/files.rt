//! The files that a job reads, and whether standard input or the file to write is one of them.

ghost use Rattle.std.specs.Prelude.{◌≡◌, ◌⊎◌, codes, take, IfErr, IfOk, IfSome};
ghost use Rattle.age_job.specs.Refusal.{IsFileFault, IsSameFault};

use crate::failure::{Failure, Operation};
use crate::fault::Fault;
use crate::file_names::{Name, Role};
use crate::inode::{Inode, Kind, STANDARD_INPUT, STANDARD_OUTPUT};
use crate::job::{Command, Job};
use std::alloc::Global;
use std::io::{ErrorKind, Read, Seek, SeekFrom};
use std::rt::Files;
use std::{fs, io};

/// The maximum size of a passphrase file, and the largest size that messages tell, in bytes.
pub(crate) const MAX_SMALL: usize = 65_536;

/// The role and the name of a file that the job reads.
#[derive(Clone, Copy, Drop)]
pub(crate) struct NamedFile<'a> {
    pub(crate) role: Role,
    pub(crate) name: &'a str,
}

/// A file that the job has opened for reading.
#[derive(Drop)]
pub(crate) struct ReadFile<'a> {
    pub(crate) named: NamedFile<'a>,
    /// The identity of the file, or why the system refused to say.
    inode: io::Result<Inode>,
}

/// The files that a job has opened for reading. The file to write is compared with them.
#[derive(Drop)]
pub struct ReadFiles<'a> {
    input: Option<ReadFile<'a>>,
    small: Vec<ReadFile<'a>>,
    /// The identities of standard input and output at the start, which are not known if the stream
    /// is closed or there is no /proc.
    standard: io::Result<Inode>,
    standard_output: io::Result<Inode>,
    /// The role of standard input, if it has one.
    standard_role: Option<Role>,
}

fn cannot_open<'a>(name: &'a str, reason: io::Error) -> Failure<'a>
    ensures { result.fault ≡ Fault.CannotOpen (record { 0 = name.entry }) }
{
    Failure::of_system(
        Fault::CannotOpen(Name(name)),
        Operation::Opening,
        name,
        reason,
    )
}

pub(crate) fn unidentified<'a>(name: &'a str, reason: io::Error) -> Failure<'a>
    ensures { result.fault ≡ Fault.Unidentified (record { 0 = name.entry }) }
{
    Failure::of_system(
        Fault::Unidentified(Name(name)),
        Operation::Identifying,
        name,
        reason,
    )
}

impl<'a> ReadFile<'a> {
    /// Refuses to write `out`, the file of this name, if that changes, or may change, this file.
    fn refuse(&self, out: &Inode, name: &'a str) -> Result<(), Failure<'a>>
        ensures { IfErr result (λ failure. IsSameFault name.now failure.fault) }
    {
        match &self.inode {
            Err(reason) if out.keeps_bytes() => Err(unidentified(self.named.name, *reason)),
            Ok(inode) if inode.is_changed_by(out) => {
                Err(Fault::OutputIsRead(self.named.role, Name(name)).into())
            }
            _ => Ok(()),
        }
    }
}

impl<'a> ReadFiles<'a> {
    /// Makes the list of a job's files, with none opened yet.
    pub fn new<F: Files + AllocGlobal>(rt: &F, job: &'a Job) -> ReadFiles<'a> {
        let mut read = ReadFiles {
            input: None,
            small: Vec::new(rt.alloc()),
            standard: Inode::at(rt, STANDARD_INPUT),
            standard_output: Inode::at(rt, STANDARD_OUTPUT),
            standard_role: None,
        };
        let is_standard = match &job.input {
            Some(name) => read.is_named_standard(rt, name.as_str()),
            None => true,
        };
        if is_standard {
            read.standard_role = Some(Role::Input);
        }
        read
    }

    /// Opens IN, the file of this name. A directory opens, but reading it fails. Refuses a pipe or
    /// a terminal for `range`, which reads at offsets.
    pub fn open_input<F: Files>(
        &mut self,
        rt: &F,
        command: Command,
        name: &'a str,
    ) -> Result<F::File, Failure<'a>>
        ensures { IfErr result
            (λ failure. IsFileFault name.now failure.fault) }
    {
        let mut file = open(rt, name)?;
        self.add_input(name, Inode::of_open(&file));
        if command == Command::Range
            && let Err(reason) = file.seek(SeekFrom::Start(0))
        {
            return Err(cannot_open(name, reason));
        }
        Ok(file)
    }

    /// Adds standard input as IN.
    pub fn add_standard_input(&mut self) {
        self.add_input("standard input", self.standard);
    }

    fn add_input(&mut self, name: &'a str, inode: io::Result<Inode>) {
        let role = Role::Input;
        let named = NamedFile { role, name };
        self.input = Some(ReadFile { named, inode });
    }

    /// Opens a small file. Standard input can have only one role, because bytes read as a small
    /// file would be missing from IN or from another small file.
    pub(crate) fn open_small<F: Files>(
        &mut self,
        rt: &F,
        named: NamedFile<'a>,
    ) -> Result<F::File, Failure<'a>>
        ensures { IfErr result
            (λ failure. IsFileFault named.entry.name.now failure.fault) }
    {
        let NamedFile { role, name } = named;
        if let Some(other) = self.standard_role
            && self.is_named_standard(rt, name)
        {
            return Err(Fault::StandardInputTwice(other, role).into());
        }
        let file = open(rt, name)?;
        let inode = Inode::of_open(&file);
        if self.is_standard(&inode) {
            if let Some(other) = self.standard_role {
                return Err(Fault::StandardInputTwice(other, role).into());
            }
            self.standard_role = Some(role);
        }
        self.small.push(ReadFile { named, inode })?;
        Ok(file)
    }

    /// Returns the length of an IN that is known to be a regular file, but `None` for `range`.
    pub(crate) fn input_size(&self, command: Command) -> Option<u64> {
        match self.input.as_ref()?.inode {
            Ok(inode) if inode.kind == Kind::Regular && command != Command::Range => {
                Some(inode.len)
            }
            _ => None,
        }
    }

    /// Whether reading this file consumes standard input. No character device counts, because one
    /// reader of `/dev/null` takes nothing from another.
    fn is_standard(&self, inode: &io::Result<Inode>) -> bool {
        match (&self.standard, inode) {
            (Ok(standard), Ok(inode)) => inode.kind != Kind::CharDevice && standard.is(inode),
            _ => false,
        }
    }

    /// Whether this is a name of standard input, or leads to the file that is standard input.
    fn is_named_standard<F: Files>(&self, rt: &F, name: &str) -> bool {
        if matches!(name, "/dev/stdin" | "/dev/fd/0" | "/proc/self/fd/0") {
            return true;
        }
        self.is_standard(&Inode::at(rt, name))
    }

    /// Refuses to write this file if that changes, or may change, a file that the job reads.
    pub(crate) fn refuse(&self, out: &Inode, name: &'a str) -> Result<(), Failure<'a>>
        ensures { IfErr result (λ failure. IsSameFault name.now failure.fault) }
    {
        if let Some(file) = &self.input {
            file.refuse(out, name)?;
        }
        for file in self.small.as_slice() {
            file.refuse(out, name)?;
        }
        Ok(())
    }

    /// Refuses to replace this file if it is, or may be, a file that the job reads and must keep: a
    /// small file or, for `salvage`, IN.
    pub(crate) fn refuse_replaced(
        &self,
        command: Command,
        out: &Inode,
        name: &'a str,
    ) -> Result<(), Failure<'a>>
        ensures { IfErr result (λ failure. IsSameFault name.now failure.fault) }
    {
        if let Some(file) = &self.input
            && !file.named.role.may_be_replaced(command)
        {
            file.refuse(out, name)?;
        }
        for file in self.small.as_slice() {
            if !file.named.role.may_be_replaced(command) {
                file.refuse(out, name)?;
            }
        }
        Ok(())
    }

    /// Refuses standard output if writing to it changes, or may change, a file that the job reads.
    /// Does nothing if the system does not identify standard output.
    pub fn refuse_standard_output(&self) -> Result<(), Failure<'a>>
        ensures { IfErr result (λ failure. IsSameFault (codes "standard output") failure.fault) }
    {
        match &self.standard_output {
            Ok(out) => self.refuse(out, "standard output"),
            Err(_) => Ok(()),
        }
    }
}

fn open<'a, F: Files>(rt: &F, name: &'a str) -> Result<F::File, Failure<'a>>
    ensures { IfErr result
        (λ failure. failure.fault ≡ Fault.CannotOpen (record { 0 = name.entry })) }
{
    match fs::open(rt, name) {
        Ok(file) => Ok(file),
        Err(reason) => Err(cannot_open(name, reason)),
    }
}

/// Reads at most `most` bytes of this file. The standard library repeats an interrupted read here,
/// unlike one of IN.
pub(crate) fn read_prefix<'a, R: Read + Drop>(
    alloc: Global,
    named: NamedFile<'a>,
    file: R,
    most: usize,
) -> Result<Vec<u8>, Failure<'a>>
    // If the reader's bytes are known, returns the first of them, at most as many as asked for.
    ensures bytes { IfOk result
        (λ bytes. IfSome (R.remaining file) (λ xs. bytes.items ≡ take most xs)) }
    ensures fault { IfErr result
        (λ failure. (failure.fault ≡ Fault.Read) ⊎ (failure.fault ≡ Fault.OutOfMemory)) }
{
    let mut bytes = Vec::new(alloc);
    match file.take(most as u64).read_to_end(&mut bytes) {
        Ok(_) => Ok(bytes),
        Err(reason) if reason.kind() == ErrorKind::OutOfMemory => Err(Fault::OutOfMemory.into()),
        Err(reason) => {
            let NamedFile { role, name } = named;
            Err(Failure::of_system(Fault::Read, Operation::ReadingAs(role), name, reason))
        }
    }
}
