//! The ranges of a job's numbers, and the default seed file.

/// The minimum work factor.
pub const MIN_WORK_FACTOR: u64 = 1;

/// The maximum work factor.
pub const MAX_WORK_FACTOR: u64 = 30;

/// The smallest limit on a header, in bytes.
pub const MIN_HEADER_SIZE: u64 = 1024;

/// The largest limit on a header, in bytes.
pub const MAX_HEADER_SIZE: u64 = 16_777_216;

/// The maximum offset and the maximum length of a range, in bytes: 2^63 - 1.
pub const MAX_OFFSET: u64 = 9_223_372_036_854_775_807;

/// The seed file if the command line names none.
pub const DEFAULT_SEED: &str = "/dev/urandom";
