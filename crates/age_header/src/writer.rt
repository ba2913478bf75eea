//! Writing a header, part by part, without allocating.

ghost use Rattle.std.specs.Prelude.{◌≡◌, ◌≤◌, length, map};
ghost use Rattle.std.specs.String.{string_bytes};
ghost use Rattle.age_kdf.specs.Bytes.{Bytes};
ghost use Rattle.age_header.specs.Device.{Counts, Writes, move_by};
ghost use Rattle.age_header.specs.Header.{Head, argument_line, bytes_of_a_line};
ghost use Rattle.age_header.specs.Base64.{base64_of};
ghost use Rattle.age_header.specs.Text.{IsPlain, body_text, stanza_text, signed_text, mac_end};

use crate::base64_no_pad;
use crate::device::{DeviceFault, Sink, write_all};
use crate::header::Header;
use crate::size::{BYTES_OF_A_LINE, LINE_SIZE};
use crate::stanza::Stanza;
use base64::engine::general_purpose::GeneralPurpose;

/// Writes the header's text (C2SP `age.md`, "Header"). On an error a prefix of it was written.
pub fn write_header<W: Sink>(header: &Header, out: &mut W) -> Result<(), DeviceFault>
    // On Ok the header's text was written; after a failed write, a prefix of it.
    ensures text { (h : Bytes) × Head header.now.stanzas header.now.mac h
        × Writes (move_by W.taken out.old out.new) result h }
    // A failed write added 1 to the sink's count of failures, saturating; else it is unchanged.
    ensures count { Counts (W.failed out.old) (W.failed out.new) result }
{
    let engine = base64_no_pad::engine();
    write_signed(header.stanzas(), &engine, out)?;
    write_mac(header.mac(), &engine, out)
}

/// Writes the header of these stanzas up to and including the three bytes `---`.
pub(crate) fn write_signed<W: Sink>(
    stanzas: &[Stanza],
    engine: &GeneralPurpose,
    out: &mut W,
) -> Result<(), DeviceFault>
    requires { IsPlain engine.now }
    ensures text { Writes (move_by W.taken out.old out.new) result (signed_text stanzas.now) }
    ensures count { Counts (W.failed out.old) (W.failed out.new) result }
{
    write_all(out, b"age-encryption.org/v1\n")?;
    for stanza in stanzas {
        write_args(stanza.args(), out)?;
        write_body(stanza.body(), engine, out)?;
    }
    write_all(out, b"---")
}

/// Writes the rest of the end line: the space, the MAC and the LF.
fn write_mac<W: Sink>(
    mac: &[u8; 32],
    engine: &GeneralPurpose,
    out: &mut W,
) -> Result<(), DeviceFault>
    requires { IsPlain engine.now }
    ensures text { Writes (move_by W.taken out.old out.new) result (mac_end mac.now) }
    ensures count { Counts (W.failed out.old) (W.failed out.new) result }
{
    write_all(out, b" ")?;
    write_base64(mac, engine, out)?;
    write_all(out, b"\n")
}

/// Writes the line of these arguments.
fn write_args<W: Sink>(args: &[String], out: &mut W) -> Result<(), DeviceFault>
    ensures text { Writes (move_by W.taken out.old out.new) result
        (argument_line (map string_bytes args.now)) }
    ensures count { Counts (W.failed out.old) (W.failed out.new) result }
{
    write_all(out, b"->")?;
    for arg in args {
        write_all(out, b" ")?;
        write_all(out, arg.as_bytes())?;
    }
    write_all(out, b"\n")
}

/// Writes a body's lines.
fn write_body<W: Sink>(body: &[u8], engine: &GeneralPurpose, out: &mut W) -> Result<(), DeviceFault>
    requires { IsPlain engine.now }
    ensures text { Writes (move_by W.taken out.old out.new) result (body_text body.now) }
    ensures count { Counts (W.failed out.old) (W.failed out.new) result }
{
    let mut rest = body;
    while rest.len() >= BYTES_OF_A_LINE {
        let (piece, after) = rest.split_at(BYTES_OF_A_LINE);
        write_base64(piece, engine, out)?;
        write_all(out, b"\n")?;
        rest = after;
    }
    write_base64(rest, engine, out)?;
    write_all(out, b"\n")
}

/// Writes the base64 of at most `BYTES_OF_A_LINE` bytes.
fn write_base64<W: Sink>(
    bytes: &[u8],
    engine: &GeneralPurpose,
    out: &mut W,
) -> Result<(), DeviceFault>
    requires short { length bytes.now ≤ bytes_of_a_line }
    requires plain { IsPlain engine.now }
    ensures text { Writes (move_by W.taken out.old out.new) result (base64_of bytes.now) }
    ensures count { Counts (W.failed out.old) (W.failed out.new) result }
{
    let mut characters = [0u8; LINE_SIZE];
    let Ok(len) = engine.encode_slice(bytes, &mut characters) else {
        unreachable!();
    };
    write_all(out, &characters[..len])
}
