//! A header's MAC, and the text over which it is computed.

ghost use Rattle.std.specs.Prelude.{◌≡◌, IfOk};
ghost use Rattle.age_header.specs.Mac.{header_mac};
ghost use Rattle.age_header.specs.Text.{signed_text};

use crate::base64_no_pad;
use crate::device::MemSink;
use crate::stanza::Stanza;
use crate::writer::write_signed;
use age_kdf::{hkdf, hmac};
use std::alloc::{AllocError, Global};

/// Returns the text of a header with these stanzas, one or more, from its first byte up to and
/// including the three bytes `---`. The header's MAC is computed over this text (C2SP `age.md`,
/// "Header MAC").
pub fn signed_text(alloc: Global, stanzas: &[Stanza]) -> Result<Vec<u8>, AllocError>
    ensures { IfOk result (λ text. text.items ≡ signed_text stanzas.now) }
{
    let mut text = MemSink::new(Vec::new(alloc));
    match write_signed(stanzas, &base64_no_pad::engine(), &mut text) {
        Ok(()) => Ok(text.into_vec()),
        Err(_) => Err(AllocError),
    }
}

/// Computes the MAC of a header with these stanzas, one or more, under the file key (C2SP `age.md`,
/// "Header MAC"): HMAC-SHA-256 of `signed_text`. The key of the HMAC is 32 bytes of HKDF-SHA-256 of
/// the file key, with an empty salt and the info `header`.
pub fn mac_of(alloc: Global, key: &[u8; 16], stanzas: &[Stanza]) -> Result<[u8; 32], AllocError>
    ensures { IfOk result (λ mac. mac ≡ header_mac key.now stanzas.now) }
{
    let text = signed_text(alloc, stanzas)?;
    let mut mac_key = [0u8; 32];
    hkdf(key, b"", b"header", &mut mac_key);
    Ok(hmac(&mac_key, &[text.as_slice()]))
}
