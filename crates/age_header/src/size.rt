//! The sizes of a header's parts, in bytes (C2SP `age.md`, "Header"), and the length of a stanza's
//! text. Sums saturate at the largest `u64`.

ghost use Rattle.std.specs.Prelude.{◌≡◌, ◌-◌, ◌^◌, length, map, min};
ghost use Rattle.std.specs.String.{string_bytes};
ghost use Rattle.age_kdf.specs.Bytes.{Bytes};
ghost use Rattle.age_header.specs.Header.{argument_line};
ghost use Rattle.age_header.specs.Text.{body_text, stanza_text};

use crate::stanza::Stanza;

/// The version line, with its LF.
pub(crate) const VERSION_SIZE: usize = 22;

/// A full line of a stanza's body, without its LF.
pub(crate) const LINE_SIZE: usize = 64;

/// The part of the body that a full line encodes.
pub(crate) const BYTES_OF_A_LINE: usize = 48;

/// The MAC in base64.
pub(crate) const MAC_TEXT_SIZE: usize = 43;

/// The last line: three hyphens, a space, the MAC in base64 and an LF.
pub(crate) const MAC_LINE_SIZE: usize = MAC_TEXT_SIZE + 5;

/// The length of a stanza.
#[tactic(auto, using(crate::proofs::LengthLemmas::stanza_len))]
pub(crate) fn stanza_len(stanza: &Stanza) -> u64
    ensures { result ≡ min (length (stanza_text stanza.now)) (2 ^ 64 - 1) }
{
    args_len(stanza.args()).saturating_add(body_len(stanza.body().len()))
}

/// The length of a line of arguments.
fn args_len(args: &[String]) -> u64
    ensures { result ≡ min (length (argument_line (map string_bytes args.now))) (2 ^ 64 - 1) }
{
    // the arrow and the LF
    let mut len = 3u64;
    for arg in args {
        len = len.saturating_add(1).saturating_add(arg.len() as u64);
    }
    len
}

/// The length of the lines of a body of this many bytes.
#[tactic(auto, using(crate::proofs::LengthLemmas::body_size))]
fn body_len(len: usize) -> u64
    ensures { (b : Bytes) → length b ≡ len → result ≡ min (length (body_text b)) (2 ^ 64 - 1) }
{
    let full = (len / BYTES_OF_A_LINE) as u64;
    let last = ((len % BYTES_OF_A_LINE * 4 + 2) / 3 + 1) as u64;
    full.saturating_mul(LINE_SIZE as u64 + 1)
        .saturating_add(last)
}
