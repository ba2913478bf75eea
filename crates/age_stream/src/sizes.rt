//! The sizes of a payload's parts, in bytes (C2SP `age.md`, "Payload").

/// The nonce at the start of a payload.
pub const NONCE_SIZE: usize = 16;

/// The plaintext of each chunk but the last.
pub const CHUNK_SIZE: usize = 65_536;

/// The tag at the end of each sealed chunk.
pub const TAG_SIZE: usize = 16;

/// A chunk of `CHUNK_SIZE` bytes when it is sealed.
pub const SEALED_CHUNK_SIZE: usize = CHUNK_SIZE + TAG_SIZE;

/// The longest padding that salvaging looks for after the last chunk: 1 less than a block of 4,096.
pub const MAX_PADDING: usize = 4095;

/// The buffer of a sealer or an opener: a sealed chunk and the byte after it.
pub(crate) const CHUNK_BUF_SIZE: usize = SEALED_CHUNK_SIZE + 1;
