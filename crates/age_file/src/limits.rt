//! The limits of a file, and the random bytes of a new one.

ghost use Rattle.std.specs.Prelude.{◌≡◌, ◌^◌, Some, None, IfSome, IfNone};
ghost use Rattle.age_file.specs.AgeFile.{default_max_header};
ghost use Rattle.age_stream.specs.Sizes.{most_chunks};

use age_recipient::FileKey;
use std::marker::Model;

/// The smallest limit on the size of a header, 1 KiB.
const MIN_HEADER_LIMIT: usize = 1_024;

/// The largest limit on the size of a header, 16 MiB.
const MAX_HEADER_LIMIT: usize = 16_777_216;

/// The default limit on the size of a header, 64 KiB.
const DEFAULT_MAX_HEADER: usize = 65_536;

/// The maximum number of chunks of a payload, because a chunk's number has eleven bytes in its
/// nonce.
pub const MAX_CHUNKS: u128 = 1 << 88;

/// The maximum size of a header in bytes, and of a payload in chunks.
#[derive(Clone, Copy, Debug, PartialEq, Eq)]
pub struct Limits {
    max_header: usize,
    max_chunks: u128,
}

impl Model for Limits {
    ghost use Rattle.age_file.specs.AgeFile.{Bounds, IsBounds};

    ghost Value = { Bounds };

    ghost view = { λ l. record { max_header = l.max_header; max_chunks = l.max_chunks } };

    ghost invariant = { λ l.
        IsBounds (record { max_header = l.max_header; max_chunks = l.max_chunks }) };

    ghost inverse = { λ b. record { max_header = b.max_header; max_chunks = b.max_chunks } };
}

impl Limits {
    ghost use Rattle.age_file.specs.AgeFile.{IsBounds};

    /// Makes limits of `max_header` bytes, from 1,024 to 16,777,216, and `max_chunks` chunks, from
    /// 1 to 2^88 = 309,485,009,821,345,068,724,781,056. Returns `None` exactly if a number is out
    /// of its range.
    pub fn new(max_header: usize, max_chunks: u128) -> Option<Limits>
        // The limits hold these numbers, which are in their ranges.
        ensures some { IfSome result (λ limits. IsBounds limits
            × (limits ≡ record { max_header = max_header; max_chunks = max_chunks })) }
        // A number is out of its range.
        ensures none { IfNone result
            (IsBounds (record { max_header = max_header; max_chunks = max_chunks }) → ⊥) }
    {
        if max_header < MIN_HEADER_LIMIT
            || max_header > MAX_HEADER_LIMIT
            || max_chunks < 1
            || max_chunks > MAX_CHUNKS
        {
            return None;
        }
        Some(Limits {
            max_header,
            max_chunks,
        })
    }

    /// The maximum size of a header in bytes.
    pub fn max_header(&self) -> usize
        ensures value { result ≡ self.now.max_header }
        // Both limits are in the ranges that `new` accepts.
        ensures range { IsBounds self.now }
    {
        self.max_header
    }

    /// The maximum number of chunks of a payload.
    pub fn max_chunks(&self) -> u128
        ensures value { result ≡ self.now.max_chunks }
        // Both limits are in the ranges that `new` accepts.
        ensures range { IsBounds self.now }
    {
        self.max_chunks
    }
}

impl Default for Limits {
    ghost is_default = { λ limits.
        limits ≡ record { max_header = default_max_header; max_chunks = most_chunks } };

    /// Allows a header of 65,536 bytes, and a payload of 2^88 chunks.
    fn default() -> Limits {
        Limits {
            max_header: DEFAULT_MAX_HEADER,
            max_chunks: MAX_CHUNKS,
        }
    }
}

/// The 32 random bytes of a new file. They must never be used for two files, because two files with
/// the same values have the same payload key. Together with the salts of the recipients, 16 bytes
/// each, they make two files of one plaintext differ.
#[derive(Clone, Copy, PartialEq, Eq)]
pub struct Fresh {
    /// The file key.
    pub file_key: FileKey,
    /// The payload's nonce.
    pub nonce: [u8; 16],
}
