//! A header as a value.

ghost use Rattle.std.specs.Prelude.{◌≡◌, ◌≢◌, ◌-◌, ◌^◌, [], length, min, IfSome, IfNone};

use crate::base64_no_pad;
use crate::size::{MAC_LINE_SIZE, MAC_TEXT_SIZE, VERSION_SIZE, stanza_len};
use crate::stanza::Stanza;
use std::marker::Model;
use std::simd::u8x32;

/// A header (C2SP `age.md`, "Header"): its stanzas, one or more, and its MAC of 32 bytes.
#[derive(Drop)]
pub struct Header {
    stanzas: Vec<Stanza>,
    mac: [u8; 32],
}

impl Model for Header {
    ghost use Rattle.age_header.specs.Header.{HeaderParts};
    ghost use Rattle.age_header.specs.Text.{IsHeaderValue};

    ghost Value = { HeaderParts };

    ghost view = { λ h. record { stanzas = h.stanzas.items; mac = h.mac } };

    ghost invariant = { λ h. IsHeaderValue h.stanzas.items h.mac };
}

impl Header {
    ghost use Rattle.std.specs.Str.{bytes_eq};
    ghost use Rattle.age_header.specs.Base64.{IsBase64};
    ghost use Rattle.age_header.specs.Header.{Head};
    ghost use Rattle.age_header.specs.Text.{IsHeaderValue};
    ghost use Rattle.age_header.specs.Device.{Bytes};

    /// Makes a header of these stanzas and this MAC. Returns `None` if there is no stanza.
    pub fn new(stanzas: Vec<Stanza>, mac: [u8; 32]) -> Option<Header>
        // The header holds the stanzas, of which there are one or more, and the MAC.
        ensures some { IfSome result
            (λ h. (stanzas.items ≢ []) × (h.stanzas ≡ stanzas.items) × (h.mac ≡ mac)) }
        // On `None` there is no stanza.
        ensures none { IfNone result (stanzas.items ≡ []) }
    {
        if stanzas.is_empty() {
            return None;
        }
        // For the proof alone (docs/PROOFS.md, "How to read a clause"): each stanza's invariant.
        for stanza in &stanzas {
            let _ = stanza.args();
            let _ = stanza.body();
        }
        Some(Header { stanzas, mac })
    }

    /// Returns the stanzas, in order.
    pub fn stanzas(&self) -> &[Stanza]
        ensures value { result.now ≡ self.now.stanzas }
        // The stanzas and the MAC have a text.
        ensures whole { IsHeaderValue self.now.stanzas self.now.mac }
    {
        self.stanzas.as_slice()
    }

    /// Returns the MAC, 32 bytes.
    pub fn mac(&self) -> &[u8; 32]
        ensures { result.now ≡ self.now.mac }
    {
        &self.mac
    }

    /// Whether these 32 bytes are the MAC. All are compared, as the lanes of a vector, without an
    /// early exit. Nothing is claimed of time.
    pub fn has_mac(&self, mac: &[u8; 32]) -> bool
        ensures { result ≡ bytes_eq self.now.mac mac.now }
    {
        let differences = u8x32::from_array(self.mac) ^ u8x32::from_array(*mac);
        differences.reduce_or() == 0
    }

    /// Returns the base64 of the MAC, 43 characters, as it stands in the end line.
    pub fn mac_signs(&self) -> [u8; MAC_TEXT_SIZE]
        ensures { IsBase64 self.now.mac result }
    {
        let mut characters = [0u8; MAC_TEXT_SIZE];
        let Ok(_) = base64_no_pad::engine().encode_slice(&self.mac, &mut characters) else {
            unreachable!();
        };
        characters
    }

    /// Returns the length of the header's text in bytes, saturating at the largest `u64`.
    pub fn text_len(&self) -> u64
        ensures { (h : Bytes) × Head self.now.stanzas self.now.mac h
            × (result ≡ min (length h) (2 ^ 64 - 1)) }
    {
        let mut len = (VERSION_SIZE + MAC_LINE_SIZE) as u64;
        for stanza in self.stanzas() {
            len = len.saturating_add(stanza_len(stanza));
        }
        len
    }
}
