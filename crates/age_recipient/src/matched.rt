//! A recipient and an identity that match.

use crate::identity::Identity;
use crate::recipient::Recipient;

/// A recipient and an identity that match: the identity unwraps what the recipient wraps.
pub trait Matched {
    type R: Recipient;

    type I: Identity;

    ghost use Rattle.std.specs.Prelude.{List, ◌≡◌, Ok};
    ghost use Rattle.age_header.specs.Header.{StanzaParts};
    ghost use Rattle.age_header.specs.declared.file_key.FileKey.{FileKey};
    ghost use Rattle.age_recipient.specs.declared.unwrapped.Unwrapped.TheVariants.{Key};
    ghost use Rattle.age_recipient.specs.Key.{IsFileKey};

    ghost the_recipient: { Self → Self.R };

    ghost the_identity: { Self → Self.I };

    /// Returns the recipient, which wraps.
    fn recipient(&self) -> &Self::R
        ensures { result.now ≡ the_recipient self.now };

    /// Returns the identity, which unwraps.
    fn identity(&self) -> &Self::I
        ensures { result.now ≡ the_identity self.now };

    // The law: if the recipient wraps a file key in stanzas, the identity's meaning for exactly
    // these stanzas is that file key. An impl names a proof of this law, which must be in specs/
    // because an impl cannot name anything in proofs/.
    ghost opens: { (pair : Self) (file_key : FileKey) (stanzas : List StanzaParts)
        → IsFileKey file_key → Self.R.wraps (the_recipient pair) file_key ≡ Ok stanzas
        → Self.I.meaning (the_identity pair) stanzas ≡ Key file_key };
}
