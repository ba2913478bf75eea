//! The file key of an age file.

/// The file key of one age file: 16 bytes, from which the keys of its header and payload are
/// derived (C2SP `age.md`, "File key"). A file key must be used for one file only.
#[derive(Clone, Copy, PartialEq, Eq)]
pub struct FileKey(pub [u8; 16]);
