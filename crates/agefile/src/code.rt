//! The codes of `agefile.h` except 24. `./generate` copies the messages in backquotes below.

ghost use Rattle.std.specs.Prelude.{◌≡◌, ◌-◌, ◌^◌, min};
ghost use Rattle.agefile.specs.Codes.{fault_code, fault_detail, fault_place};

use age_file::{Fault, StanzaFault};

/// `no fault`.
pub(crate) const OK: u32 = 0;

/// An allocation was refused.
pub(crate) const OUT_OF_MEMORY: u32 = 17;

/// `buffer is too small` for the output.
pub(crate) const TOO_SMALL: u32 = 21;

/// `work factor must be 1 to 30`: `work` or `max_work` is not.
pub(crate) const WORK_FACTOR: u32 = 22;

/// `no such offset, a chunk of another length, or a call out of order`.
pub(crate) const OUT_OF_ORDER: u32 = 23;

/// `stanza arguments must be visible ASCII, one space apart`.
pub(crate) const BAD_ARGUMENTS: u32 = 25;

/// `passphrase is empty`: anyone could open a file encrypted with it.
pub(crate) const EMPTY_PASSPHRASE: u32 = 26;

/// The code of a fault.
pub(crate) fn fault_code(fault: Fault) -> u32
    ensures { result ≡ fault_code fault }
{
    match fault {
        Fault::NotAge => 1,
        Fault::BadLine(_) => 2,
        Fault::HeaderTruncated => 3,
        Fault::HeaderTooLarge => 4,
        Fault::MixedPassphrase => 5,
        Fault::NoMatch => 6,
        Fault::WrongKey => 7,
        Fault::Malformed(_) => 8,
        Fault::BadMac => 9,
        Fault::NonceTruncated => 10,
        Fault::ChunkShort(_) => 11,
        Fault::EmptyFinal(_) => 12,
        Fault::BadChunk(_) => 13,
        Fault::TooManyChunks => 14,
        Fault::Read => 15,
        Fault::Write => 16,
        Fault::OutOfMemory => OUT_OF_MEMORY,
        Fault::NoRecipients => 18,
        Fault::Refused(_, _) => 19,
        Fault::IncompatibleRecipients(_) => 20,
    }
}

/// The line or the chunk of a fault, else 0. A chunk's number saturates at the largest `u64`.
pub(crate) fn fault_place(fault: Fault) -> u64
    ensures { result ≡ fault_place fault }
{
    match fault {
        Fault::BadLine(line) => line,
        Fault::ChunkShort(i) | Fault::EmptyFinal(i) | Fault::BadChunk(i) => capped(i),
        _ => 0,
    }
}

/// A number, saturating at the largest `u64`.
fn capped(n: u128) -> u64
    ensures { result ≡ min n (2 ^ 64 - 1) }
{
    if n < 0xffff_ffff_ffff_ffff {
        n as u64
    } else {
        u64::MAX
    }
}

/// The part of a stanza that is malformed: 1 to 5, or 0 for other parts. 0 for other faults.
pub(crate) fn fault_detail(fault: Fault) -> u64
    ensures { result ≡ fault_detail fault }
{
    match fault {
        Fault::Malformed(StanzaFault::ArgCount) => 1,
        Fault::Malformed(StanzaFault::Salt) => 2,
        Fault::Malformed(StanzaFault::WorkFactorText) => 3,
        Fault::Malformed(StanzaFault::WorkFactorTooHigh) => 4,
        Fault::Malformed(StanzaFault::BodyLength) => 5,
        _ => 0,
    }
}
