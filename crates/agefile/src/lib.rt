//! Age v1 files (C2SP `age.md`) for callers in C: the exports of `agefile.h`. Their contracts speak
//! of the bytes to which pointers refer, and have no `requires`. Between two calls all state is in
//! structs that the caller holds.
//!
//! ```c
//! agefile_report report;
//! uint8_t file_key[16];
//! uint32_t code = agefile_unlock_passphrase(
//!     file, file_len, pass, pass_len, 22, file_key, &report);
//! if (code == AGEFILE_OK)
//!     code = agefile_decrypt(file, file_len, file_key, out, out_len, &report);
//! if (code == AGEFILE_OK)
//!     fwrite(out, 1, report.len, stdout);
//! ```
//!
//! The exports are in these modules:
//! - `inspecting`, `listing`: the contents of a header;
//! - `unlocking`: from a secret to a file key;
//! - `wrapping`: from a file key to a stanza, and a caller's own stanza;
//! - `heading`: from stanzas to a header, and to the beginning of a file;
//! - `decrypting`, `sealing`: whole buffers under a file key;
//! - `opening`: the start of a payload under a file key;
//! - `payload`, `part`: chunks in order, and in several threads;
//! - `salvaging`: what is left of a damaged payload;
//! - `ranges`: parts of a plaintext;
//! - `sizes`: the sizes of buffers;
//! - `version`.
//!
//! *What a contract sees.* A buffer in C is a slice: a list of bytes before the call, and one after
//! it. A pointer to a struct is the record of its fields, which may have any values, because no
//! invariant is assumed. A code is a number, and a report is its three numbers.
//!
//! Limits: a header of 65,536 bytes, 2^64 - 1 chunks. `agefile.h` has the duties of a caller, and
//! docs/C.md says what is proved.
#![tactic(auto)]

mod chunk;
mod code;
mod decrypting;
mod giving;
mod heading;
mod inspecting;
pub mod laws;
mod limits;
mod listing;
mod opening;
mod part;
mod payload;
mod phase;
mod ranges;
mod report;
mod salvaging;
mod sealing;
mod sizes;
mod start;
mod unlocking;
mod version;
mod wrapping;
