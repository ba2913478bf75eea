//! The errors of whole files.

ghost use Rattle.std.specs.Prelude.{Some};
ghost use Rattle.age_file.specs.Texts.{fault_text};

use age_recipient::StanzaFault;
use std::error::Error;
use std::fmt;

/// Why a file was not written, or a plaintext not read. Chunks and recipients are counted from 0,
/// header lines from 1. The program prints the texts of `Display`.
#[derive(Clone, Copy, Debug, Drop, PartialEq, Eq)]
pub enum Fault {
    /// The first bytes are not a prefix of the version line.
    NotAge,
    /// The lines up to this one cannot begin a header. The version line is line 1.
    BadLine(u64),
    /// The input ends within its header.
    HeaderTruncated,
    /// The header, read or to be written, is larger than the limit.
    HeaderTooLarge,
    /// A stanza of type `scrypt` is not the only stanza (C2SP `age.md`, "The scrypt recipient
    /// type").
    MixedPassphrase,
    /// No stanza is of the type of any identity.
    NoMatch,
    /// There are stanzas of an identity's type, but none of them opens: the passphrase or key is
    /// wrong.
    WrongKey,
    /// A stanza of an identity's type is malformed.
    Malformed(StanzaFault),
    /// The header's MAC is not that of its stanzas under the file key.
    BadMac,
    /// Fewer than 16 bytes, the payload's nonce, follow the header.
    NonceTruncated,
    /// This sealed chunk, the last, is shorter than a tag, 16 bytes.
    ChunkShort(u128),
    /// This sealed chunk, the last and not the first, has only a tag, 16 bytes.
    EmptyFinal(u128),
    /// No plaintext seals to this chunk at its number: its tag is wrong.
    BadChunk(u128),
    /// The payload, read or to be written, has more chunks than the limit.
    TooManyChunks,
    /// A read of the source failed.
    Read,
    /// A write to the sink failed.
    Write,
    /// An allocation was refused, or a caller's recipient or identity returned out of memory.
    OutOfMemory,
    /// The recipients returned no stanza.
    NoRecipients,
    /// The recipient of this index refused, with this code.
    Refused(usize, u32),
    /// The labels of the recipient of this index, 1 or more, do not go together with those of
    /// recipient 0.
    IncompatibleRecipients(usize),
}

impl fmt::Display for Fault {
    ghost output = { λ fault. Some (fault_text fault) };

    fn fmt<W: fmt::Write>(&self, f: &mut fmt::Formatter<W>) -> fmt::Result {
        match self {
            Fault::NotAge => f.write_str("not an age file"),
            Fault::BadLine(line) => write!(f, "bad header line {line}"),
            Fault::HeaderTruncated => f.write_str("header is cut short"),
            Fault::HeaderTooLarge => f.write_str("header is too large"),
            Fault::MixedPassphrase => f.write_str("a passphrase stanza must stand alone"),
            Fault::NoMatch => f.write_str("no key fits this file"),
            Fault::WrongKey => f.write_str("wrong passphrase or key"),
            Fault::Malformed(part) => write!(f, "malformed stanza: {part}"),
            Fault::BadMac => f.write_str("header check failed"),
            Fault::NonceTruncated => f.write_str("payload nonce is cut short"),
            Fault::ChunkShort(chunk) => write!(f, "chunk {chunk} is cut short"),
            Fault::EmptyFinal(chunk) => write!(f, "chunk {chunk} is empty"),
            Fault::BadChunk(chunk) => write!(f, "chunk {chunk} is damaged"),
            Fault::TooManyChunks => f.write_str("too many chunks"),
            Fault::Read => f.write_str("read failed"),
            Fault::Write => f.write_str("write failed"),
            Fault::OutOfMemory => f.write_str("out of memory"),
            Fault::NoRecipients => f.write_str("no recipients"),
            Fault::Refused(index, code) => write!(f, "recipient {index} refused: {code}"),
            Fault::IncompatibleRecipients(index) => {
                write!(f, "recipient {index} does not go with recipient 0")
            }
        }
    }
}

impl Error for Fault {}
