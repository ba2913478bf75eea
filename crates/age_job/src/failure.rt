//! A fault of a job, and what `--verbose` prints after it.

ghost use Rattle.std.specs.Prelude.{◌≡◌, Some};
ghost use Rattle.age_job.specs.declared.fault.Fault.TheVariants.{OutOfMemory};

use crate::fault::Fault;
use crate::file_names::{Bytes, Name, Role};
use crate::files::MAX_SMALL;
use crate::job::Job;
use crate::watched::Front;
use std::alloc::{AllocError, AllocFailed};
use std::fmt::Write;
use std::{fmt, io};

/// Why a job was refused or failed, and what more is known about the fault.
#[derive(Drop)]
pub struct Failure<'a> {
    pub fault: Fault<'a>,
    pub detail: Option<Detail<'a>>,
}

/// What more is known about a fault. Its text follows `agep: ` on the second line.
#[derive(Drop)]
pub enum Detail<'a> {
    /// An operation of the system on this file, and the reason why it failed.
    System(Operation, Name<'a>, io::Error),
    /// The size of a small file in bytes; 65,537 stands for any size above 65,536.
    Size(Role, Name<'a>, usize),
    /// The file is not a character device.
    NoDevice(Role, Name<'a>),
    /// The file that the fault is about.
    File(Role, Name<'a>),
    /// What the first bytes of IN show.
    Front(Name<'a>, Front),
    /// No secret of this job opens IN.
    Unopened(Name<'a>, &'a Job),
}

/// An operation of the system on a file.
#[derive(Clone, Copy)]
pub enum Operation {
    Opening,
    Identifying,
    Creating,
    Reading,
    /// Reading a small file in this role.
    ReadingAs(Role),
    Writing,
    Truncating,
    Syncing,
    Replacing,
    /// Syncing the folder in which OUT was replaced.
    SyncingReplaced,
}

impl<'a> Failure<'a> {
    /// Makes a failure of this fault, with the operation and the system's reason.
    pub fn of_system(
        fault: Fault<'a>,
        operation: Operation,
        name: &'a str,
        reason: io::Error,
    ) -> Failure<'a>
        // The fault that was passed.
        ensures fault { result.fault ≡ fault.entry }
        // The operation on this file, and the reason.
        ensures detail { result.detail
            ≡ Some (Detail.System operation (record { 0 = name.entry }) reason) }
    {
        Failure::with(fault, Detail::System(operation, Name(name), reason))
    }

    /// Makes a failure of this fault, with what is known about it.
    pub fn with(fault: Fault<'a>, detail: Detail<'a>) -> Failure<'a>
        // The fault that was passed.
        ensures fault { result.fault ≡ fault.entry }
        // The detail that was passed.
        ensures detail { result.detail ≡ Some detail.entry }
    {
        Failure {
            fault,
            detail: Some(detail),
        }
    }
}

impl<'a> From<Fault<'a>> for Failure<'a> {
    ghost from_gives = { λ fault failure. failure.fault ≡ fault };

    fn from(fault: Fault<'a>) -> Failure<'a> {
        Failure {
            fault,
            detail: None,
        }
    }
}

impl From<AllocError> for Failure<'_> {
    ghost from_gives = { λ _ failure. failure.fault ≡ OutOfMemory };

    fn from(error: AllocError) -> Self {
        Failure::from(Fault::from(error))
    }
}

impl<T: Drop> From<AllocFailed<T>> for Failure<'_> {
    ghost from_gives = { λ _ failure. failure.fault ≡ OutOfMemory };

    fn from(error: AllocFailed<T>) -> Self {
        Failure::from(Fault::from(error))
    }
}

impl fmt::Display for Operation {
    fn fmt<W: fmt::Write>(&self, f: &mut fmt::Formatter<W>) -> fmt::Result {
        f.write_str(match self {
            Operation::ReadingAs(role) => return write!(f, "reading {role}"),
            Operation::Opening => "opening",
            Operation::Identifying => "identifying",
            Operation::Creating => "creating",
            Operation::Reading => "reading",
            Operation::Writing => "writing",
            Operation::Truncating => "truncating",
            Operation::Syncing => "syncing",
            Operation::Replacing => "replacing",
            Operation::SyncingReplaced => "OUT was replaced; syncing its folder",
        })
    }
}

impl fmt::Display for Detail<'_> {
    fn fmt<W: fmt::Write>(&self, f: &mut fmt::Formatter<W>) -> fmt::Result {
        match self {
            Detail::System(operation, name, reason) => {
                write!(f, "{operation} {name}: ")?;
                let mut text = BeforeCode { f, ended: false };
                write!(text, "{reason}")
            }
            Detail::Size(role, name, len) => write_size(*role, *name, *len, f),
            Detail::NoDevice(role, name) => {
                let words = role.words();
                write!(f, "{words} {name}: not a device, so its bytes may repeat")
            }
            Detail::File(role, name) => write!(f, "{}: {name}", role.words()),
            Detail::Front(name, front) => write!(f, "{name}: {}", front.words()),
            Detail::Unopened(name, job) => {
                write!(f, "{name}: not opened by")?;
                write_tried(job, f)
            }
        }
    }
}

/// Writes the size of a small file and, unless it holds a passphrase, the size that it must have.
fn write_size<W: fmt::Write>(
    role: Role,
    name: Name<'_>,
    len: usize,
    f: &mut fmt::Formatter<W>,
) -> fmt::Result {
    let words = role.words();
    let more = if len > MAX_SMALL { "more than " } else { "" };
    let len = Bytes(len.min(MAX_SMALL) as u128);
    write!(f, "{words} {name}: {more}{len}")?;
    f.write_str(match role {
        Role::Key | Role::NewKey => "; a key file holds 32 raw bytes, not hexadecimal",
        Role::FileKey => "; a file key file holds 16 raw bytes, not hexadecimal",
        Role::Seed => "; a seed file holds at least 48 bytes",
        Role::Input | Role::Passphrase | Role::NewPassphrase => "",
    })
}

/// Writes the names of the files whose secrets were tried.
fn write_tried<W: fmt::Write>(job: &Job, f: &mut fmt::Formatter<W>) -> fmt::Result {
    let (role, first, more) = match (&job.pass, &job.key) {
        (Some(name), _) => (Role::Passphrase, name, job.more_passes.as_slice()),
        (None, Some(name)) => (Role::Key, name, job.more_keys.as_slice()),
        (None, None) => return Ok(()),
    };
    let (words, name) = (role.words(), Name(first.as_str()));
    write!(f, " {words} {name}")?;
    for name in more {
        let name = Name(name.as_str());
        write!(f, ", {words} {name}")?;
    }
    Ok(())
}

/// Writes a system's reason without the number of the error.
#[derive(Drop)]
struct BeforeCode<'a, W> {
    f: &'a mut fmt::Formatter<W>,
    ended: bool,
}

impl<W: fmt::Write> fmt::Write for BeforeCode<'_, W> {
    fn write_str(&mut self, text: &str) -> fmt::Result {
        if self.ended {
            return Ok(());
        }
        match text.split_once(" (os error ") {
            Some((reason, _code)) => {
                self.ended = true;
                self.f.write_str(reason)
            }
            None => self.f.write_str(text),
        }
    }
}
