//! The faults of a payload.

/// The errors of calls on a payload (C2SP `age.md`, "Payload"). Chunks are numbered from 0.
#[derive(Clone, Copy, Debug, Drop, PartialEq, Eq)]
pub enum StreamFault {
    /// There are fewer bytes than the nonce's 16.
    NonceTruncated,
    /// This piece is shorter than a tag.
    ChunkShort(u128),
    /// The last piece has only a tag, and is not the first.
    EmptyFinal(u128),
    /// The tag of this piece is wrong: no plaintext seals to it as the chunk of its number.
    BadChunk(u128),
    /// There are more chunks than are allowed.
    TooManyChunks,
    /// A read failed.
    Read,
    /// A write failed.
    Write,
    /// An allocation was refused.
    Memory,
}
