//! The payload of age v1 files (C2SP `age.md`, "Payload"): a nonce, then a plaintext's chunks, each
//! sealed with a nonce of its own, which has its number. A payload is written and read one chunk at
//! a time, in one `ChunkBuf`.
//!
//! ```
//! let mut writer = StreamWriter::new(alloc, &file_key, &nonce, &mut sink, max_chunks)?;
//! writer.write_piece(b"any part of the plaintext")?;
//! writer.finish()?; // seals the last chunk
//!
//! let mut reader = StreamReader::new(alloc, &file_key, &mut source, max_chunks)?;
//! while let Some(chunk) = reader.next_chunk()? {} // lent once its tag was verified
//! ```
//!
//! `RangeReader` reads any part of a plaintext, and `salvage_payload` saves what it can of a
//! damaged payload. `open_chunk`, `seal_chunk` and `save_piece` work on one chunk in the caller's
//! memory.
//!
//! `sizes` has the sizes of a payload's parts, `specs/Sizes.antt` the same for clauses.
//!
//! *What a contract sees.* A sealer is the record `SealerState` and an opener `OpenerState`: the
//! chunks' key, the next chunk's number, the limit, the bytes held, the fault kept, and an
//! opener's text. `RangeState` has the chunks' key and offsets (`Layout`), the chunk kept and its
//! text, and the count of attempts to open a chunk. `StreamWriter`, `StreamReader` and
//! `RangeReader` pair such a state with the reference to their device: `x.out`, `x.input`, `x.dev`.
//!
//! Limits: at most 2^88 chunks of at most 65,536 bytes. The plaintext read is complete only if the
//! last chunk was read.
#![tactic(auto)]

mod buffer;
mod chunk_keys;
mod chunks;
mod done;
mod fault;
pub mod laws;
mod layout;
mod loading;
mod opening;
mod ranges;
mod read_at;
mod reader;
mod refused;
mod runs;
mod salvaged;
mod salvaging;
mod sealing;
mod sizes;
mod writer;

pub use buffer::ChunkBuf;
pub use chunk_keys::{chunk_nonce, payload_key};
pub use done::Done;
pub use fault::StreamFault;
pub use opening::{ChunkOpener, open_chunk};
pub use ranges::RangeReader;
pub use read_at::{FileAt, MemAt, ReadAt};
pub use reader::StreamReader;
pub use refused::Refused;
pub use runs::{LostRun, join_lost};
pub use salvaged::{Losses, LostChunk, Salvaged, Saved};
pub use salvaging::{salvage_payload, save_piece};
pub use sealing::{ChunkSealer, seal_chunk};
pub use sizes::{CHUNK_SIZE, NONCE_SIZE, SEALED_CHUNK_SIZE, TAG_SIZE};
pub use writer::StreamWriter;
