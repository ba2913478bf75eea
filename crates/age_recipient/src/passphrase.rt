//! Passphrases (C2SP `age.md`, "The scrypt recipient type"): the stanza, its recipient and
//! identity, and both as a pair.

mod pair;
mod recipient;
mod stanza;
mod work;

pub use pair::PassPair;
pub use recipient::{PassError, PassIdentity, PassRecipient};
pub use stanza::SCRYPT_TYPE;
