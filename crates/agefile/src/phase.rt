//! The phases of a payload and of its parts between two calls.

/// Not open.
pub(crate) const CLOSED: u64 = 0;

/// Open for reading: the next chunk is to be opened.
pub(crate) const READING: u64 = 1;

/// Open for writing: the next chunk is to be sealed.
pub(crate) const WRITING: u64 = 2;

/// The last chunk was accepted.
pub(crate) const ENDED: u64 = 3;

/// A chunk had a fault.
pub(crate) const FAILED: u64 = 4;
