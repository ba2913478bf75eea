//! The faults of reading a header.

/// The errors of reading a header.
#[derive(Clone, Copy, Debug, Drop, PartialEq, Eq)]
pub enum HeaderFault {
    /// The first 22 bytes within the limit, or all if fewer, are not a prefix of the version line.
    NotAge,
    /// With this line the text cannot become a header, whatever follows. The first line is line 1.
    BadLine(u64),
    /// The input ends within the header.
    Truncated,
    /// The header does not end within the limit.
    TooLarge,
    /// A read of the source failed.
    Read,
    /// An allocation was refused.
    Memory,
}
