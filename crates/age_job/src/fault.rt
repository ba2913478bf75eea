//! Why a job was refused, or a file of it could not be used.

ghost use Rattle.std.specs.Prelude.{◌≡◌, Some};
ghost use Rattle.age_job.specs.declared.fault.Fault.TheVariants.{OutOfMemory};
ghost use Rattle.age_job.specs.Texts.{fault_text};

use crate::file_names::{Name, Role};
use std::alloc::{AllocError, AllocFailed};
use std::fmt;

/// Why a job was refused, or a file not usable. A fault's text follows `agep: ` on standard error.
#[derive(Clone, Copy, Drop)]
pub enum Fault<'a> {
    /// A read failed.
    Read,
    /// A write failed.
    Write,
    /// An allocation was refused.
    OutOfMemory,
    /// The arguments name both a passphrase file and a key file, or neither.
    KeyChoice,
    /// The arguments name both a new passphrase file and a new key file, or neither.
    NewKeyChoice,
    CannotOpen(Name<'a>),
    CannotCreate(Name<'a>),
    /// The system does not identify this file, so the job cannot tell whether it may use the file.
    Unidentified(Name<'a>),
    /// `--atomic` without a file to write.
    AtomicAlone,
    /// `--no-clobber`, and the file to write exists.
    OutputExists(Name<'a>),
    /// `--atomic`, and the file to write is not regular, such as a folder, a device or a pipe.
    OutputIsSpecial(Name<'a>),
    /// `--atomic`, and the new file, which is to replace the file to write, exists.
    NewFileExists(Name<'a>),
    /// `--atomic`, and another run or program has locked, or is writing, the file to write.
    OutputIsBusy(Name<'a>),
    /// The file to write is also read.
    OutputIsRead(Role, Name<'a>),
    /// Standard input would be read twice, in these roles.
    StandardInputTwice(Role, Role),
    KeyLength,
    SeedLength,
    FileKeyLength,
    PassphraseLength,
    /// The passphrase for a new header is empty.
    NoPassphrase,
    /// The passphrase for a new header ends in CR or LF, or begins with a byte-order mark.
    UntypedPassphrase,
    /// An age file would be written to a terminal.
    OutputIsTerminal,
}

impl From<AllocError> for Fault<'_> {
    ghost from_gives = { λ _ fault. fault ≡ OutOfMemory };

    fn from(_error: AllocError) -> Self {
        Fault::OutOfMemory
    }
}

impl<T: Drop> From<AllocFailed<T>> for Fault<'_> {
    ghost from_gives = { λ _ fault. fault ≡ OutOfMemory };

    fn from(_error: AllocFailed<T>) -> Self {
        Fault::OutOfMemory
    }
}

impl fmt::Display for Fault<'_> {
    ghost output = { λ fault. Some (fault_text fault) };

    fn fmt<W: fmt::Write>(&self, f: &mut fmt::Formatter<W>) -> fmt::Result {
        match self {
            Fault::Read => f.write_str("read failed"),
            Fault::Write => f.write_str("write failed"),
            Fault::OutOfMemory => f.write_str("out of memory"),
            Fault::KeyChoice => f.write_str("give one of -p and -k"),
            Fault::NewKeyChoice => f.write_str("give one of -P and -K"),
            Fault::CannotOpen(name) => write!(f, "cannot open {name}"),
            Fault::CannotCreate(name) => write!(f, "cannot create {name}"),
            Fault::Unidentified(name) => write!(f, "cannot tell which file {name} is"),
            Fault::AtomicAlone => f.write_str("--atomic needs -o"),
            Fault::OutputExists(name) => write!(f, "OUT exists: {name}"),
            Fault::OutputIsSpecial(name) => write!(f, "OUT is not a regular file: {name}"),
            Fault::NewFileExists(name) => {
                write!(f, "{name} exists: another run is writing it, or was killed")
            }
            Fault::OutputIsBusy(name) => write!(f, "another run is writing OUT: {name}"),
            Fault::OutputIsRead(role, name) => write!(f, "OUT is also {role}: {name}"),
            Fault::StandardInputTwice(one, other) if one == other => {
                write!(f, "standard input cannot be {one} twice")
            }
            Fault::StandardInputTwice(one, other) => {
                write!(f, "standard input cannot be both {one} and {other}")
            }
            Fault::KeyLength => f.write_str("key file must hold 32 bytes"),
            Fault::SeedLength => f.write_str("seed file must hold 48 bytes"),
            Fault::FileKeyLength => f.write_str("file key file must hold 16 bytes"),
            Fault::PassphraseLength => f.write_str("passphrase file is too long"),
            Fault::NoPassphrase => f.write_str("passphrase file is empty"),
            Fault::UntypedPassphrase => {
                f.write_str("passphrase ends in CR or LF, or begins with a byte-order mark")
            }
            Fault::OutputIsTerminal => f.write_str("standard output is a terminal"),
        }
    }
}
