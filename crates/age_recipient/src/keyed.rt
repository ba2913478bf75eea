//! Keys of 32 bytes, with this project's own type of stanza: the stanza, its recipient and
//! identity, and both as a pair.

mod pair;
mod recipient;
mod stanza;

pub use pair::KeyPair;
pub use recipient::{KeyIdentity, KeyRecipient};
pub use stanza::KEYED_TYPE;
