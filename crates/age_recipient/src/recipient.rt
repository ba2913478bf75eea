//! Recipients, which wrap a file key into stanzas.

use crate::labels::{LabelSet, Labels};
use age_header::{FileKey, Stanza};
use std::alloc::{AllocError, Global};

/// Why a recipient returned no stanzas.
#[derive(Clone, Copy, Debug, Drop, PartialEq, Eq)]
pub enum WrapFault {
    /// The recipient refuses, with this code.
    Refused(u32),
    /// An allocation was refused.
    Memory,
}

/// A recipient of a file, which wraps the file key into stanzas (C2SP `age.md`, "File key").
pub trait Recipient: Drop {
    ghost use Rattle.std.specs.Prelude.{List, [], ℕ, Result, IfOk};
    ghost use Rattle.age_header.specs.Header.{StanzaParts};
    ghost use Rattle.age_header.specs.declared.file_key.FileKey.{FileKey};
    ghost use Rattle.age_recipient.specs.declared.labels.Labels.{Labels};
    ghost use Rattle.age_recipient.specs.declared.labels.Labels.TheVariants.{Names};
    ghost use Rattle.age_recipient.specs.Labels.{MayLabel};
    ghost use Rattle.age_recipient.specs.Wrap.{WrapsAs};

    // The recipient's meaning: the stanzas for a key, or the code with which it refuses.
    ghost wraps: { Self → FileKey → Result (List StanzaParts) ℕ };

    // The labels in the recipient's meaning. The default is an empty set of names.
    ghost the_labels: { Self → Labels } = { λ _. Names [] };

    /// Wraps the file key. Returns the stanzas that hold it for this recipient.
    ///
    /// # Errors
    /// `Refused` with its code if the recipient refuses, `Memory` if an allocation was refused.
    fn wrap(&self, alloc: Global, key: &FileKey) -> Result<Vec<Stanza>, WrapFault>
        // A recipient returns its own meaning, or `Memory`. Each impl is proved to do so.
        ensures { WrapsAs (wraps self.now key.now) result };

    /// Returns the labels of this recipient, which say with which other recipients it may share a
    /// file. The default body returns an empty set of names, which goes together with every other
    /// empty set.
    ///
    /// # Errors
    /// If an allocation was refused.
    #[tactic(auto, using(crate::proofs::LabelLemmas::no_texts))]
    fn labels(&self, alloc: Global) -> Result<Labels, AllocError>
        // Returns the labels of the recipient's meaning, or an empty set of names. The default body
        // returns the latter, and is proved once for all recipients. A key's recipient, even in a
        // box, returns an empty set, because its `the_labels` is one.
        ensures { IfOk result (MayLabel (the_labels self.now)) }
    {
        Ok(Labels::Names(LabelSet::new(alloc, &[])?))
    }
}
