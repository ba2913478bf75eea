//! Listing all stanzas of a file's header in one call.

ghost use Rattle.std.specs.Prelude.{◌≡◌, ◌⊎◌, ◌++◌, map, IfOk, OnOk};
ghost use Rattle.age_kdf.specs.Bytes.{Bytes};
ghost use Rattle.agefile.specs.Inspect.{GivesList, GivesStanzas, InspectsStanzas, arguments_text};
ghost use Rattle.agefile.specs.Inspect.{list_text, stanza_summary};
ghost use Rattle.agefile.specs.Sizes.{IsFront};
ghost use Rattle.agefile.specs.Codes.{out_of_memory};
ghost use Rattle.agefile.specs.Report.{Returns};

use crate::code::{OK, OUT_OF_MEMORY, TOO_SMALL};
use crate::inspecting::{StanzaSummary, header_of, joined, stanza_summary};
use crate::report::{Report, report_fault};
use age_file::Stanza;
use std::alloc::{AllocError, Global};

/// Writes the sizes of the header's stanzas, in order, to the start of `stanzas`. Writes to the
/// start of `text`, for each stanza, its arguments joined by single spaces, then its body. The
/// report has the length of this text, and as its place the number of stanzas. The first 65,552
/// bytes of a longer file suffice.
///
/// # Errors
/// 1 to 4, as for `age_file::inspect`. 21 if `stanzas` or `text` is too small: the report then has
/// the same numbers as on 0, which are the sizes needed. 17 if an allocation was refused. In all
/// cases `stanzas` and `text` are unchanged.
#[unsafe(no_mangle)]
pub extern "C" fn agefile_stanzas(
    alloc: Global,
    front: &[u8],
    stanzas: &mut [StanzaSummary],
    text: &mut [u8],
    report: &mut Report,
) -> u32
    // Writes the sizes of the header verdict's stanzas, and one text with the arguments of each,
    // joined by single spaces, and its body. Or returns the verdict's fault, 17, or, if the array
    // or the buffer is too small, 21, and leaves both unchanged. On 0 and 21 the report has the
    // length of the text and the number of stanzas. The first 65,552 bytes of the file suffice.
    ensures front { (b : Bytes) → IsFront front.now b
        → InspectsStanzas b stanzas.old stanzas.new text.old text.new report.new result }
{
    match header_of(alloc, front) {
        Ok(header) => list(alloc, header.stanzas(), stanzas, text, report),
        Err(fault) => report_fault(0, fault, report),
    }
}

/// Writes the sizes and the text of these stanzas.
fn list(
    alloc: Global,
    found: &[Stanza],
    stanzas: &mut [StanzaSummary],
    text: &mut [u8],
    report: &mut Report,
) -> u32
    ensures { (Returns out_of_memory None stanzas.old stanzas.new report.new result
        × (text.new ≡ text.old))
        ⊎ GivesStanzas found.now stanzas.old stanzas.new text.old text.new report.new result }
{
    let Ok((sizes, all)) = listing_of(alloc, found) else {
        *report = Report::default();
        return OUT_OF_MEMORY;
    };
    give_list(sizes.as_slice(), all.as_slice(), stanzas, text, report)
}

/// Copies the sizes and the text, if both fit.
fn give_list(
    sizes: &[StanzaSummary],
    all: &[u8],
    stanzas: &mut [StanzaSummary],
    text: &mut [u8],
    report: &mut Report,
) -> u32
    ensures { GivesList sizes.now stanzas.old stanzas.new all.now text.old text.new
        report.new result }
{
    *report = Report {
        len: all.len() as u64,
        place: sizes.len() as u64,
        detail: 0,
    };
    if sizes.len() > stanzas.len() || all.len() > text.len() {
        return TOO_SMALL;
    }
    stanzas[..sizes.len()].copy_from_slice(sizes);
    text[..all.len()].copy_from_slice(all);
    OK
}

/// The sizes of these stanzas, and their text.
fn listing_of(alloc: Global, found: &[Stanza]) -> Result<(Vec<StanzaSummary>, Vec<u8>), AllocError>
    ensures { IfOk result (λ l. (l.0.items ≡ map stanza_summary found.now)
        × (l.1.items ≡ list_text found.now)) }
{
    let mut sizes = Vec::with_capacity(alloc, found.len())?;
    let mut text = Vec::new(alloc);
    for stanza in found {
        sizes.push(list_stanza(alloc, stanza, &mut text)?)?;
    }
    Ok((sizes, text))
}

/// Adds a stanza's text, and returns its sizes.
fn list_stanza(
    alloc: Global,
    stanza: &Stanza,
    text: &mut Vec<u8>,
) -> Result<StanzaSummary, AllocError>
    ensures sizes { IfOk result (λ s. s ≡ stanza_summary stanza.now) }
    ensures text { OnOk result (text.new.items
        ≡ text.old.items ++ (arguments_text stanza.now.args ++ stanza.now.body)) }
{
    let args = joined(alloc, stanza)?;
    text.extend_from_slice(args.as_bytes())?;
    text.extend_from_slice(stanza.body())?;
    Ok(stanza_summary(stanza, args.as_bytes()))
}
