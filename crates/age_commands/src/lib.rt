//! The commands of `agep`, from any source to any sink, and the sink that keeps the reason of a
//! failed write.
//!
//! ```
//! let task = Task::Decrypt(Secret::Passphrase(passphrase, Vec::new(alloc)));
//! let done = age_commands::perform_between(alloc, &job, task, &mut input, &mut out, &mut report);
//! ```
//!
//! `task` has a command with its secrets, and each command has a module of its own. `seed` has the
//! random bytes of a new file, `recipient` and `identity` say what a secret means to a command, and
//! `buffering` has a job's limits and the sources over its input. `skipping` is the source of
//! `salvage`, and `watched_sink` a sink over any writer.
//!
//! Nothing here opens a file or prints: `age_job` opens the files, and `age_cli` prints.
//!
//! *What a contract sees.* A task is a command with its secrets. `specs/Secret.antt` says which
//! recipient or identity a secret means. The input is a reader: the bytes to come, if they are
//! known, and its count of failed reads. A `WatchedSink` is its writer, and its count of failures.
#![tactic(auto)]

mod buffering;
mod decrypt;
mod encrypt;
mod identity;
mod inspect;
mod range;
mod recipient;
mod rewrap;
mod salvage;
mod seed;
mod skipping;
mod task;
mod watched_sink;

pub use buffering::limits_of;
pub use salvage::Report;
pub use seed::{Seed, seed_of};
pub use skipping::Unread;
pub use task::{Task, perform_between};
pub use watched_sink::{Borrowed, WatchedSink};
