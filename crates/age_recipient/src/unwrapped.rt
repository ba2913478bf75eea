//! The answer of an identity to the stanzas of a header.

ghost use Rattle.std.specs.Prelude.{◌≡◌, List, ◌∷◌, Some, false, IfOk, IfErr};
ghost use Rattle.age_recipient.specs.Answer.{decides, decision_from};
ghost use Rattle.age_recipient.specs.Texts.{stanza_fault_text};

use age_header::FileKey;
use std::error::Error;
use std::fmt;

/// Why a stanza of an identity's own type is malformed. A passphrase's identity checks for all of
/// these but `Other`, in this order; a key's identity for `ArgCount`, `Salt` and `BodyLength`.
#[derive(Clone, Copy, Debug, Drop, PartialEq, Eq)]
pub enum StanzaFault {
    ArgCount,
    /// The salt is not the canonical base64 of 16 bytes.
    Salt,
    /// The work factor is not a digit 1 to 9 followed by any digits.
    WorkFactorText,
    /// The work factor is above the identity's maximum.
    WorkFactorTooHigh,
    /// The body does not have 32 bytes.
    BodyLength,
    /// Another fault, with a code chosen by a caller's own identity.
    Other(u32),
}

impl fmt::Display for StanzaFault {
    ghost output = { λ fault. Some (stanza_fault_text fault) };

    fn fmt<W: fmt::Write>(&self, f: &mut fmt::Formatter<W>) -> fmt::Result {
        match self {
            StanzaFault::ArgCount => f.write_str("argument count"),
            StanzaFault::Salt => f.write_str("salt"),
            StanzaFault::WorkFactorText => f.write_str("work factor"),
            StanzaFault::WorkFactorTooHigh => f.write_str("work factor is too high"),
            StanzaFault::BodyLength => f.write_str("body length"),
            StanzaFault::Other(code) => write!(f, "code {code}"),
        }
    }
}

impl Error for StanzaFault {}

/// The answer of an identity to a header's stanzas.
#[derive(Clone, Copy, PartialEq, Eq)]
pub enum Unwrapped {
    /// No stanza is of the identity's type.
    NotMine,
    /// There are stanzas of its type, but none of them opens.
    Failed,
    Key(FileKey),
    /// A stanza of its type is malformed.
    Malformed(StanzaFault),
}

impl Unwrapped {
    /// Combines this answer with the next one when identities, or stanzas, are tried in order.
    ///
    /// # Errors
    /// The next answer, if it is a key or a malformed stanza. It decides: no later answer counts.
    pub fn followed_by(self, next: Unwrapped) -> Result<Unwrapped, Unwrapped>
        // On Ok the answer returned stands for both, whatever answers follow.
        ensures continues { IfOk result (λ both.
            (more : List Unwrapped) → decision_from self (next ∷ more) ≡ decision_from both more) }
        // On Ok the next answer does not decide.
        ensures undecided { IfOk result (λ _. decides next ≡ false) }
        // On an error the next answer, a key or a malformed stanza, decides, whatever follows.
        ensures decides { IfErr result (λ decision.
            (more : List Unwrapped) → decision_from self (next ∷ more) ≡ decision) }
    {
        match next {
            Unwrapped::NotMine => Ok(self),
            Unwrapped::Failed => Ok(next),
            Unwrapped::Key(_) | Unwrapped::Malformed(_) => Err(next),
        }
    }
}
