//! Secrets that find the file key in a header.

use crate::unwrapped::Unwrapped;
use age_header::Stanza;
use std::alloc::{AllocError, Global};

/// A secret that unwraps the file key from a header's stanzas (C2SP `age.md`, "File key").
pub trait Identity: Drop {
    ghost use Rattle.std.specs.Prelude.{List, Bool, true, ◌≡◌, IfOk, IfErr};
    ghost use Rattle.age_header.specs.Header.{StanzaParts};
    ghost use Rattle.age_recipient.specs.declared.unwrapped.Unwrapped.{Unwrapped};

    // The identity's meaning: its result for each list of stanzas.
    ghost meaning: { Self → List StanzaParts → Unwrapped };

    // Whether the identity may return out of memory for a list of stanzas. By default it may.
    ghost may_run_out: { Self → List StanzaParts → Bool } = { λ _ _. true };

    /// Unwraps the file key from a header's stanzas. The result is the identity's meaning for them.
    ///
    /// # Errors
    /// If an allocation was refused.
    fn unwrap(&self, alloc: Global, stanzas: &[Stanza]) -> Result<Unwrapped, AllocError>
        // On Ok the answer is the identity's own meaning. Each impl is proved to return it.
        ensures answer { IfOk result (λ answer. answer ≡ meaning self.now stanzas.now) }
        // Returns out of memory only if `may_run_out` is true of these stanzas.
        ensures memory { IfErr result (λ _. may_run_out self.now stanzas.now ≡ true) };
}
