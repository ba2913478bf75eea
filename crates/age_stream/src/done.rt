//! The counts that sealing and opening return.

/// How much was sealed or opened.
#[derive(Clone, Copy, Debug, Drop, PartialEq, Eq)]
pub struct Done {
    /// The number of plaintext bytes.
    pub bytes: u128,
    /// The number of chunks.
    pub chunks: u128,
}
