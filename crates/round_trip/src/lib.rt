//! Round trips: functions that encrypt a plaintext for a pair's recipient, decrypt the file with
//! the pair's identity, and return the same plaintext or an error. Also here: a part of a file's
//! plaintext (`part_of`), and a list of calls on one reader of ranges (`make_calls`).
//!
//! ```
//! let text = key_there_and_back(alloc, key, salt, plain, &fresh, &limits)?; // equals `plain`
//! ```
//!
//! *What a contract sees.* A plaintext and a file are lists of bytes in memory. A pair is the
//! meanings of its recipient and its identity. A loss is the reason why no plaintext came back.
//! `make_calls` works over any source.
//!
//! Limits: a round trip has one recipient. The only errors of a passphrase's or a key's round trip
//! are `WorkFactor`, `TooManyChunks`, `OutOfMemory`, `Write` and `Memory`.
#![tactic(auto)]

mod file;
mod pairs;
mod ranges;

pub use file::{decrypted, encrypted};
pub use pairs::{TripError, key_there_and_back, pass_there_and_back, there_and_back};
pub use ranges::{RangeCall, make_calls, part_of};
