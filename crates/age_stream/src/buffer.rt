//! The memory in which chunks are sealed and opened.
ghost use Rattle.std.specs.Prelude.{◌≡◌, length, vec_capacity, IfOk};
ghost use Rattle.age_stream.specs.Sizes.{chunk_buf_size};

use crate::sizes::CHUNK_BUF_SIZE;
use std::alloc::{AllocError, Global};

/// A buffer for one sealed chunk and one byte, 65,553 bytes. Writing or reading a payload allocates
/// nothing else.
#[derive(Drop)]
pub struct ChunkBuf {
    bytes: Vec<u8>,
    ghost size: { length bytes.items ≡ chunk_buf_size },
    ghost capacity: { vec_capacity bytes ≡ chunk_buf_size },
}

impl ChunkBuf {
    /// Allocates the buffer.
    ///
    /// # Errors
    /// The allocation was refused.
    pub fn new(alloc: Global) -> Result<ChunkBuf, AllocError> {
        let bytes = vec![in alloc; 0u8; CHUNK_BUF_SIZE]?;
        // The capacity is always `CHUNK_BUF_SIZE`, but the contract of `vec!` does not say so.
        if bytes.capacity() != CHUNK_BUF_SIZE {
            return Err(AllocError);
        }
        Ok(ChunkBuf { bytes })
    }

    /// The memory of the buffer, as a vector of 65,553 bytes.
    pub(crate) fn into_bytes(self) -> Vec<u8>
        ensures size { length result.items ≡ chunk_buf_size }
        ensures capacity { vec_capacity result ≡ chunk_buf_size }
    {
        let ChunkBuf { bytes } = self;
        bytes
    }
}
