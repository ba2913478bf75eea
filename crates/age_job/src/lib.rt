//! The job of a command line of `agep`: a command with its options, and the files that it names.
//! This crate opens the files, reads the secrets in them, and describes errors. It knows neither
//! the format nor how a command line is parsed.
//!
//! ```
//! let target = Target::of(rt, &job);
//! let mut read = ReadFiles::new(rt, &job);
//! let file = read.open_input(rt, job.command, name)?;
//! let mut input = Watched::new(rt, &job, &read, file, false);
//! let mut out = target.create(rt, &job, &read, out_name)?;
//! ```
//!
//! `job` has the job, and `ranges` the ranges of its numbers. `files` opens the files to read,
//! `inode` identifies them, and `small_files` reads the secrets; `secret` has passphrases and keys.
//! `output` is the file to write; `target` says which one: OUT in place, or a new file that takes its
//! place. `system_file` locks a file and changes its owner. `watched` counts failed reads and keeps
//! the last error, and `progress` shows at a terminal how much was read. `fault` and `file_names`
//! have the texts of errors, `failure` those of `--verbose`.
//!
//! *What a contract sees.* A `Job` is the record of its fields, and a secret is one or more
//! passphrases or a list of keys. A file is the bytes that its reader will return (`remaining`) and
//! those that its writer has taken (`contents`); for the system's files they are not known. An
//! `Output` has its file, and whether the file may still have its old contents (`is_stale`).
//!
//! Limits: no contract says what files contain, or which of them are the same. The scripts under
//! `tests/` show both.
#![tactic(auto)]

mod failure;
mod fault;
mod file_names;
mod files;
mod inode;
mod job;
mod output;
mod progress;
mod ranges;
mod secret;
mod small_files;
mod system_file;
mod target;
mod watched;

pub use failure::{Detail, Failure, Operation};
pub use fault::Fault;
pub use file_names::{Bytes, Lines, Name, Role};
pub use files::ReadFiles;
pub use job::{Command, Job};
pub use output::{Output, refuse_output};
pub use progress::{ERASE, shows_progress};
pub use ranges::{
    DEFAULT_SEED, MAX_HEADER_SIZE, MAX_OFFSET, MAX_WORK_FACTOR, MIN_HEADER_SIZE, MIN_WORK_FACTOR,
};
pub use secret::{SEED_LEN, Secret, exactly};
pub use small_files::{read_encrypt_secrets, read_file_key, read_rewrap_secrets, read_secret};
pub use system_file::SystemFile;
pub use target::Target;
pub use watched::{Front, Input, Pipe, Watched};
