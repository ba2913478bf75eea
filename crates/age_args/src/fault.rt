//! Why the arguments are not a job.

ghost use Rattle.std.specs.Prelude.{◌≡◌};
ghost use Rattle.age_args.specs.JobOf.{Becomes};

use clap::Error;
use clap::error::ErrorKind;
use std::alloc::AllocError;

/// Why the arguments are not a job.
#[derive(Debug, Drop)]
pub enum WordsFault {
    /// `clap` refused the arguments, or has the help or the version to show.
    Refused(Error),
    /// An allocation was refused.
    Memory,
}

impl From<AllocError> for WordsFault {
    ghost use Rattle.age_args.specs.declared.fault.WordsFault.TheVariants.{Memory};

    ghost from_gives = { λ _ fault. fault ≡ Memory };

    fn from(_error: AllocError) -> WordsFault {
        WordsFault::Memory
    }
}

impl From<Error> for WordsFault {
    ghost from_gives = { Becomes };

    fn from(error: Error) -> WordsFault {
        if error.kind() == ErrorKind::OutOfMemory {
            return WordsFault::Memory;
        }
        WordsFault::Refused(error)
    }
}
