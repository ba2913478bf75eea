//! Reading a file's header.

ghost use Rattle.std.specs.Prelude.{◌≡◌, IfOk};
ghost use Rattle.std.specs.String.{string_bytes};
ghost use Rattle.age_kdf.specs.Bytes.{Bytes};
ghost use Rattle.agefile.specs.Inspect.{HeaderOf, Inspected, arguments_text, stanza_summary};
ghost use Rattle.agefile.specs.Sizes.{IsFront};

use crate::code::OK;
use crate::limits::limits;
use crate::report::{Report, report_fault};
use age_file::{Fault, Header, MemSource, Stanza, inspect};
use std::alloc::{AllocError, Global};

/// A header's sizes and MAC.
#[repr(C)]
#[derive(Clone, Copy)]
pub struct Summary {
    /// The header's length in bytes.
    pub header_len: u64,
    /// The number of its stanzas.
    pub stanzas: u64,
    /// Its MAC.
    pub mac: [u8; 32],
}

/// A stanza's sizes.
#[repr(C)]
#[derive(Clone, Copy)]
pub struct StanzaSummary {
    /// The number of its arguments; the first is the type.
    pub args: u64,
    /// The length in bytes of its arguments, joined by single spaces.
    pub args_len: u64,
    /// The length of its body in bytes.
    pub body_len: u64,
}

/// Reads the header at the start of a file, and writes its sizes and MAC to `summary`. Does not
/// verify the MAC, since that needs the file key. The first 65,552 bytes of a longer file suffice:
/// their result is that of the whole file.
///
/// # Errors
/// 1 to 4, as for `age_file::inspect`. 17 if an allocation was refused. `summary` is unchanged.
#[unsafe(no_mangle)]
pub extern "C" fn agefile_inspect(
    alloc: Global,
    front: &[u8],
    summary: &mut Summary,
    report: &mut Report,
) -> u32
    // Writes the length of the header, the number of its stanzas and its MAC, by the header
    // verdict; or returns the verdict's fault, or 17, and leaves `summary` unchanged. The first
    // 65,552 bytes of the file suffice.
    ensures front { (b : Bytes) → IsFront front.now b
        → Inspected b summary.old summary.new report.new result }
{
    match header_of(alloc, front) {
        Ok(header) => {
            *report = Report::of_len(0);
            *summary = Summary {
                header_len: header.text_len(),
                stanzas: header.stanzas().len() as u64,
                mac: *header.mac(),
            };
            OK
        }
        Err(fault) => report_fault(0, fault, report),
    }
}

/// The sizes of a stanza. `text` is its arguments, joined by single spaces.
pub(crate) fn stanza_summary(stanza: &Stanza, text: &[u8]) -> StanzaSummary
    requires { text.now ≡ arguments_text stanza.now.args }
    ensures { result ≡ stanza_summary stanza.now }
{
    StanzaSummary {
        args: stanza.args().len() as u64,
        args_len: text.len() as u64,
        body_len: stanza.body().len() as u64,
    }
}

/// The arguments of a stanza, joined by single spaces.
pub(crate) fn joined(alloc: Global, stanza: &Stanza) -> Result<String, AllocError>
    ensures { IfOk result (λ text. string_bytes text ≡ arguments_text stanza.now.args) }
{
    stanza.args().join(alloc, " ")
}

/// The header at the start of a file.
pub(crate) fn header_of(alloc: Global, front: &[u8]) -> Result<Header, Fault>
    ensures { (b : Bytes) → IsFront front.now b → HeaderOf b result }
{
    inspect(alloc, &mut MemSource::new(front), &limits())
}
