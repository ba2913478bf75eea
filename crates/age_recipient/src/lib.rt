//! Recipients and identities of age v1 files (C2SP `age.md`). A recipient wraps a file key into
//! stanzas, an identity unwraps it.
//!
//! ```
//! // a fresh salt; 2^18 KiB of memory
//! let recipient = PassRecipient::new(alloc, b"correct horse", salt, 18)?;
//! let stanzas = recipient.wrap(alloc, &file_key)?;
//! let identity = PassIdentity::new(alloc, b"correct horse", 22)?; // takes work factors up to 22
//! // `identities` is a list of boxed identities
//! let key = unlock(alloc, identities.as_slice(), stanzas.as_slice())?;
//! ```
//!
//! This crate has the recipients and identities of passphrases and, with this project's own type of
//! stanza, of keys of 32 bytes. For another kind implement `Recipient` or `Identity`, and state its
//! meaning as a function.
//!
//! *What a contract sees.* A recipient is its ghost functions `wraps`, of a file key, and
//! `the_labels`; an identity is `meaning`, of a list of stanzas. So a list of boxes is a list of
//! meanings. The recipient and identity of a passphrase are the records `PassSecret` and
//! `PassGuess`, those of a key `KeySecret` and the key's bytes. A set of labels is the list of its
//! texts in order. `may_run_out` says for which stanzas an identity may return out of memory.
//!
//! Limits: work factors are 1 to 30 (`passphrase/work.rt`, `specs/PassphraseHolders.antt`). There
//! are no X25519, SSH or plugin recipients.
#![tactic(auto)]

mod choice;
mod identity;
mod keyed;
mod labels;
mod matched;
mod passphrase;
mod recipient;
mod sealing;
mod stanza_list;
mod unwrapped;

pub use age_header::FileKey;
pub use choice::{UnlockFault, unlock};
pub use identity::Identity;
pub use keyed::{KEYED_TYPE, KeyIdentity, KeyPair, KeyRecipient};
pub use labels::{LabelSet, Labels, first_incompatible};
pub use matched::Matched;
pub use passphrase::{PassError, PassIdentity, PassPair, PassRecipient, SCRYPT_TYPE};
pub use recipient::{Recipient, WrapFault};
pub use unwrapped::{StanzaFault, Unwrapped};
