//! Whole age v1 files (C2SP `age.md`). Start here: this crate re-exports what a caller needs of the
//! crates below it.
//!
//! ```
//! let limits = &Limits::default();
//! let mut file = MemSink::new(Vec::new(alloc));
//! encrypt(alloc, &mut MemSource::new(text), &mut file, recipients, &fresh, limits)?;
//!
//! let file = file.into_vec();
//! let mut back = MemSink::new(Vec::new(alloc));
//! decrypt(alloc, &mut MemSource::new(file.as_slice()), &mut back, identities, limits)?;
//! ```
//!
//! - `encrypt` and `decrypt` take recipients and identities in boxes. `Fresh` is 32 random bytes,
//!   which must never be used for two files.
//! - `Encryptor` and `Decryptor` do the same in steps: a writer takes the plaintext piece by piece,
//!   a reader returns it chunk by chunk.
//! - `rewrap` gives a file another passphrase or key.
//! - `open_ranges` opens a file for reading any part of its plaintext.
//! - `salvage` saves what it can of a damaged file.
//! - `inspect` reads a header.
//!
//! One definition, the verdict (`specs/Verdict.antt`), says what bytes are to given identities.
//! Contracts, and laws in `laws`, cite it. docs/DESIGN.md, "Words", defines the terms.
//!
//! The texts of the errors are in `fault`, the limits of a header and of the number of chunks in
//! `limits`, the chunk size in `age_stream` (`src/sizes.rt`, `specs/Sizes.antt`), the range of work
//! factors in `age_recipient` (`specs/PassphraseHolders.antt`), and the program's default work
//! factors in `age_args` (`src/options.rt`). CONTRIBUTING.md, "Where a change goes", says what
//! else changes with each.
//!
//! *What a contract sees.* `Limits` is the record `Bounds`, a header `HeaderParts`, and `Fresh` a
//! file key and a nonce. An `Encryptor` is the record `EncryptorState` of its header, fresh values
//! and limits. Functions such as `input_of`, `source_of` and `sink_of` give the parts of a
//! `Decryptor`, a reader or a writer. A list of recipients or identities is that of their meanings.
//!
//! Limits: those of `Limits`. `encrypt`, `decrypt`, `rewrap` and `salvage` read the source to its
//! end unless they fail. What `decrypt` writes before an error is genuine but incomplete.
#![tactic(auto)]

mod at_source;
mod copying;
mod decrypting;
mod decryptor;
mod encrypting;
mod encryptor;
mod fault;
mod fault_conversions;
mod inspecting;
pub mod laws;
mod limits;
mod new_header;
mod ranges;
mod rewrapping;
mod salvaging;
mod unlocking;

pub use age_header::{
    DeviceFault, Header, HeaderFault, HeaderReader, MemSink, MemSource, ReadSource, Sink, Source,
    Stanza, StanzaError, WriteSink, mac_of, signed_text, write_all, write_header,
};
pub use age_recipient::{
    FileKey, Identity, KeyIdentity, KeyPair, KeyRecipient, LabelSet, Labels, Matched, PassError,
    PassIdentity, PassPair, PassRecipient, Recipient, StanzaFault, UnlockFault, Unwrapped,
    WrapFault, first_incompatible, unlock,
};
pub use age_stream::{
    CHUNK_SIZE, ChunkBuf, Done, FileAt, Losses, LostChunk, LostRun, MemAt, NONCE_SIZE, RangeReader,
    ReadAt, Refused, SEALED_CHUNK_SIZE, Salvaged, Saved, StreamFault, StreamReader, StreamWriter,
    TAG_SIZE, chunk_nonce, join_lost,
};
pub use copying::BUFFER_SIZE;
pub use decrypting::decrypt;
pub use decryptor::Decryptor;
pub use encrypting::{encrypt, write_header_and_nonce};
pub use encryptor::Encryptor;
pub use fault::Fault;
pub use inspecting::inspect;
pub use limits::{Fresh, Limits, MAX_CHUNKS};
pub use new_header::{header_for, header_text};
pub use ranges::open_ranges;
pub use rewrapping::rewrap;
pub use salvaging::{SalvagedFile, salvage};
pub use unlocking::{is_mixed, unlock_header};
