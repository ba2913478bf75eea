//! The text of a stanza: one that wraps a file key, or a caller's own.

ghost use Rattle.std.specs.Prelude.{◌≡◌, ◌∷◌};
ghost use Rattle.agefile.specs.Words.{[], StanzaParts};
ghost use Rattle.age_recipient.specs.KeyedStanza.{keyed_stanza};
ghost use Rattle.age_recipient.specs.PassphraseHolders.{WorkFits};
ghost use Rattle.age_recipient.specs.PassphraseStanza.{pass_stanza};
ghost use Rattle.agefile.specs.Codes.{bad_work_factor, empty_passphrase};
ghost use Rattle.agefile.specs.Report.{Returns};
ghost use Rattle.agefile.specs.Wrapping.{GivesOwn, GivesText, refusal_code};

use crate::code::{BAD_ARGUMENTS, EMPTY_PASSPHRASE, OUT_OF_MEMORY, WORK_FACTOR};
use crate::giving::{give_up, give_whole};
use crate::report::Report;
use age_file::{
    FileKey, Header, KeyRecipient, PassError, PassRecipient, Recipient, Stanza, StanzaError,
    signed_text,
};
use std::alloc::Global;

/// Writes the text of the stanza that wraps a file key under a passphrase with a work factor of 1
/// to 30. The passphrase is any bytes, at least one. The salt is 16 random bytes, fresh for each
/// stanza.
///
/// # Errors
/// The first that applies of 26 if `pass` is empty; 22 if `work` is not 1 to 30; 21 if `out` is too
/// small, or 17 if an allocation was refused. `out` is then unchanged. There are no other codes.
#[unsafe(no_mangle)]
pub extern "C" fn agefile_wrap_passphrase(
    alloc: Global,
    file_key: &[u8; 16],
    pass: &[u8],
    work: u8,
    salt: &[u8; 16],
    out: &mut [u8],
    report: &mut Report,
) -> u32
    // If the passphrase is empty, returns 26 before any other code. `out` is unchanged.
    ensures empty { pass.now ≡ []
        → Returns empty_passphrase None out.old out.new report.new result }
    // If it is not empty and the work factor is 1 to 30, writes the text of its stanza, with this
    // salt; or returns 21 or 17, and leaves `out` unchanged.
    ensures fit { (pass.now ≡ [] → ⊥) → WorkFits work
        → GivesText (pass_stanza pass.now work salt.now (record { 0 = file_key.now })) out.old
        out.new report.new result }
    // If it is not empty and the work factor is not 1 to 30, returns 22. `out` is unchanged.
    ensures unfit { (pass.now ≡ [] → ⊥) → (WorkFits work → ⊥)
        → Returns bad_work_factor None out.old out.new report.new result }
{
    if pass.is_empty() {
        return give_up(EMPTY_PASSPHRASE, out, report);
    }
    let recipient = match PassRecipient::new(alloc, pass, *salt, work) {
        Ok(recipient) => recipient,
        Err(PassError::WorkFactor) => return give_up(WORK_FACTOR, out, report),
        Err(PassError::Memory) => return give_up(OUT_OF_MEMORY, out, report),
    };
    match recipient.wrap(alloc, &FileKey(*file_key)) {
        Ok(stanzas) => give_text(alloc, stanzas, out, report),
        Err(_) => give_up(OUT_OF_MEMORY, out, report),
    }
}

/// Writes the text of the stanza that wraps a file key under a key of 32 bytes; this type of stanza
/// is this project's own. The salt is 16 random bytes, fresh for each stanza.
///
/// # Errors
/// 21 if `out` is too small, 17 if an allocation was refused. `out` is then unchanged. There are no
/// other codes.
#[unsafe(no_mangle)]
pub extern "C" fn agefile_wrap_key(
    alloc: Global,
    file_key: &[u8; 16],
    key: &[u8; 32],
    salt: &[u8; 16],
    out: &mut [u8],
    report: &mut Report,
) -> u32
    ensures { GivesText (keyed_stanza key.now salt.now (record { 0 = file_key.now })) out.old
        out.new report.new result }
{
    match KeyRecipient::new(*key, *salt).wrap(alloc, &FileKey(*file_key)) {
        Ok(stanzas) => give_text(alloc, stanzas, out, report),
        Err(_) => give_up(OUT_OF_MEMORY, out, report),
    }
}

/// Writes the text of a caller's own stanza. `args` are its type and arguments, joined by single
/// spaces, and `body` is its body.
///
/// # Errors
/// 25 if the arguments are not one or more words of visible characters (`!` to `~`), joined by
/// single spaces; 21 if `out` is too small, 17 if an allocation was refused. `out` is then
/// unchanged. There are no other codes.
#[unsafe(no_mangle)]
pub extern "C" fn agefile_wrap(
    alloc: Global,
    args: &[u8],
    body: &[u8],
    out: &mut [u8],
    report: &mut Report,
) -> u32
    ensures { GivesOwn args.now body.now out.old out.new report.new result }
{
    let Ok(text) = str::from_utf8(args) else {
        return give_up(BAD_ARGUMENTS, out, report);
    };
    let words: Vec<&str> = match text.split(' ').collect(alloc) {
        Ok(words) => words,
        Err(_) => return give_up(OUT_OF_MEMORY, out, report),
    };
    match Stanza::new(alloc, words.as_slice(), body) {
        Ok(stanza) => give_one(alloc, stanza, out, report),
        Err(error) => give_up(refusal_code(error), out, report),
    }
}

/// The code of an error of `Stanza::new`.
fn refusal_code(error: StanzaError) -> u32
    ensures { result ≡ refusal_code error }
{
    match error {
        StanzaError::Memory => OUT_OF_MEMORY,
        _ => BAD_ARGUMENTS,
    }
}

/// Writes the text of a stanza.
fn give_one(alloc: Global, stanza: Stanza, out: &mut [u8], report: &mut Report) -> u32
    ensures { GivesText stanza out.old out.new report.new result }
{
    match vec![in alloc; stanza] {
        Ok(stanzas) => give_text(alloc, stanzas, out, report),
        Err(_) => give_up(OUT_OF_MEMORY, out, report),
    }
}

/// Writes the text of the only stanza of this list.
fn give_text(alloc: Global, stanzas: Vec<Stanza>, out: &mut [u8], report: &mut Report) -> u32
    requires { (stanza : StanzaParts) × (stanzas.items ≡ stanza ∷ []) }
    ensures { (stanza : StanzaParts) → stanzas.items ≡ stanza ∷ []
        → GivesText stanza out.old out.new report.new result }
{
    let Some(header) = Header::new(stanzas, [0; 32]) else {
        unreachable!();
    };
    // the stanzas are between the version line and the `---` of a header's text
    match signed_text(alloc, header.stanzas()) {
        Ok(text) => {
            let (front, _) = text.as_slice().split_at(text.len() - 3);
            let (_, stanza) = front.split_at(22);
            give_whole(stanza, out, report)
        }
        Err(_) => give_up(OUT_OF_MEMORY, out, report),
    }
}
