//! Conversions of other errors to `Fault`.

ghost use Rattle.std.specs.Prelude.{◌≡◌};

use crate::fault::Fault;
use age_header::HeaderFault;
use age_recipient::UnlockFault;
use age_stream::{Refused, StreamFault};
use std::alloc::{AllocError, AllocFailed};

impl From<HeaderFault> for Fault {
    ghost use Rattle.age_file.specs.Verdict.{header_fault};

    ghost from_gives = { λ header fault. fault ≡ header_fault header };

    fn from(fault: HeaderFault) -> Fault {
        match fault {
            HeaderFault::NotAge => Fault::NotAge,
            HeaderFault::BadLine(line) => Fault::BadLine(line),
            HeaderFault::Truncated => Fault::HeaderTruncated,
            HeaderFault::TooLarge => Fault::HeaderTooLarge,
            HeaderFault::Read => Fault::Read,
            HeaderFault::Memory => Fault::OutOfMemory,
        }
    }
}

impl From<UnlockFault> for Fault {
    ghost use Rattle.age_file.specs.Verdict.{unlock_fault};

    ghost from_gives = { λ unlock fault. fault ≡ unlock_fault unlock };

    fn from(fault: UnlockFault) -> Fault {
        match fault {
            UnlockFault::NoMatch => Fault::NoMatch,
            UnlockFault::WrongKey => Fault::WrongKey,
            UnlockFault::Malformed(stanza) => Fault::Malformed(stanza),
            UnlockFault::Memory => Fault::OutOfMemory,
        }
    }
}

impl From<StreamFault> for Fault {
    ghost use Rattle.age_file.specs.Verdict.{stream_fault};

    ghost from_gives = { λ stream fault. fault ≡ stream_fault stream };

    fn from(fault: StreamFault) -> Fault {
        match fault {
            StreamFault::NonceTruncated => Fault::NonceTruncated,
            StreamFault::ChunkShort(i) => Fault::ChunkShort(i),
            StreamFault::EmptyFinal(i) => Fault::EmptyFinal(i),
            StreamFault::BadChunk(i) => Fault::BadChunk(i),
            StreamFault::TooManyChunks => Fault::TooManyChunks,
            StreamFault::Read => Fault::Read,
            StreamFault::Write => Fault::Write,
            StreamFault::Memory => Fault::OutOfMemory,
        }
    }
}

impl From<AllocError> for Fault {
    ghost use Rattle.age_file.specs.declared.fault.Fault.TheVariants.{OutOfMemory};

    ghost from_gives = { λ error fault. fault ≡ OutOfMemory };

    fn from(_error: AllocError) -> Fault {
        Fault::OutOfMemory
    }
}

impl<T: Drop> From<AllocFailed<T>> for Fault {
    ghost use Rattle.age_file.specs.declared.fault.Fault.TheVariants.{OutOfMemory};

    ghost from_gives = { λ error fault. fault ≡ OutOfMemory };

    fn from(_error: AllocFailed<T>) -> Fault {
        Fault::OutOfMemory
    }
}

impl<'a, D> From<Refused<'a, D, Fault>> for Fault {
    ghost use Rattle.age_stream.specs.Writer.{fault_of};

    ghost from_gives = { λ refused fault. fault ≡ fault_of refused };

    fn from(refused: Refused<'a, D, Fault>) -> Fault {
        refused.fault()
    }
}
