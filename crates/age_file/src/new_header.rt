//! The header of a new file.

ghost use Rattle.std.specs.Prelude.{◌≡◌, Some, None, map, IfOk, IfErr};
ghost use Rattle.std.specs.List.{AllZip};
ghost use Rattle.age_header.specs.Device.{Bytes};
ghost use Rattle.age_header.specs.Header.{Head};
ghost use Rattle.age_header.specs.Mac.{header_mac};
ghost use Rattle.age_recipient.specs.Labels.{MayLabel};
ghost use Rattle.age_recipient.specs.Wrap.{WrapsAs};
ghost use Rattle.age_file.specs.NewFile.{FailsHeading, Gathers, IsHeading, IsNewHeader, WrapsAll};
ghost use Rattle.age_file.specs.NewFile.{gathering_from, gathering_by};

use crate::fault::Fault;
use crate::limits::Limits;
use crate::unlocking::is_mixed;
use age_header::{Header, MemSink, Stanza, mac_of, write_header};
use age_recipient::{FileKey, Labels, Recipient, WrapFault, first_incompatible};
use std::alloc::{AllocError, Global};

/// Makes the header of a new file for these recipients, with its MAC under the file key.
///
/// # Errors
/// As for `encrypt`: `Refused`, `IncompatibleRecipients`, `NoRecipients`, `MixedPassphrase`,
/// `HeaderTooLarge`. `OutOfMemory` if an allocation was refused or a recipient returned it.
pub fn header_for(
    alloc: Global,
    recipients: &[Box<dyn Recipient>],
    key: &FileKey,
    limits: &Limits,
) -> Result<Header, Fault>
    // Returns the header that `encrypt` writes.
    ensures ok { IfOk result (λ h. (h.mac ≡ header_mac key.now.0 h.stanzas)
        × ((text : Bytes) × IsHeading limits.now key.now
        (gathering_by recipients.now (λ r k. wraps r k) (λ r. the_labels r) key.now)
        h.stanzas text)) }
    // The fault is the first that applies, in the order of `encrypt`, or out of memory.
    ensures err { IfErr result (FailsHeading limits.now key.now
        (gathering_by recipients.now (λ r k. wraps r k) (λ r. the_labels r) key.now)) }
{
    let stanzas = gather_stanzas(alloc, recipients, key)?;
    if stanzas.is_empty() {
        return Err(Fault::NoRecipients);
    }
    if is_mixed(stanzas.as_slice()) {
        return Err(Fault::MixedPassphrase);
    }
    let mac = mac_of(alloc, &key.0, stanzas.as_slice())?;
    let Some(header) = Header::new(stanzas, mac) else {
        unreachable!();
    };
    if header.text_len() > limits.max_header() as u64 {
        return Err(Fault::HeaderTooLarge);
    }
    Ok(header)
}

/// The text of a header (C2SP `age.md`, "Header"), or an error if an allocation was refused.
pub fn header_text(alloc: Global, header: &Header) -> Result<Vec<u8>, AllocError>
    ensures { IfOk result (λ text. Head header.now.stanzas header.now.mac text.items) }
{
    let mut text = MemSink::new(Vec::new(alloc));
    match write_header(header, &mut text) {
        Ok(()) => Ok(text.into_vec()),
        Err(_) => Err(AllocError),
    }
}

/// The text of the header that `header_for` makes.
#[tactic(auto, using(crate::proofs::EncryptLemmas::new_header))]
pub(crate) fn text_for(
    alloc: Global,
    recipients: &[Box<dyn Recipient>],
    key: &FileKey,
    limits: &Limits,
) -> Result<Vec<u8>, Fault>
    ensures ok { IfOk result (λ text. IsNewHeader limits.now key.now
        (gathering_by recipients.now (λ r k. wraps r k) (λ r. the_labels r) key.now) text.items) }
    ensures err { IfErr result (FailsHeading limits.now key.now
        (gathering_by recipients.now (λ r k. wraps r k) (λ r. the_labels r) key.now)) }
{
    let header = header_for(alloc, recipients, key, limits)?;
    Ok(header_text(alloc, &header)?)
}

/// The stanzas of the recipients, in order, if the recipients go together.
fn gather_stanzas(
    alloc: Global,
    recipients: &[Box<dyn Recipient>],
    key: &FileKey,
) -> Result<Vec<Stanza>, Fault>
    ensures { Gathers
        (gathering_by recipients.now (λ r k. wraps r k) (λ r. the_labels r) key.now) result }
{
    let stanzas = wrap_all(alloc, recipients, key)?;
    let labels = labels_of_all(alloc, recipients)?;
    match first_incompatible(labels.as_slice()) {
        None => Ok(stanzas),
        Some(i) => Err(Fault::IncompatibleRecipients(i)),
    }
}

/// The stanzas of the recipients, in order.
fn wrap_all(
    alloc: Global,
    recipients: &[Box<dyn Recipient>],
    key: &FileKey,
) -> Result<Vec<Stanza>, Fault>
    ensures { WrapsAll (gathering_from 0 (map (λ r. wraps r key.now) recipients.now)) result }
{
    let mut all = Vec::new(alloc);
    for (i, recipient) in recipients.iter().enumerate() {
        match wrap_by(alloc, recipient, key) {
            Ok(stanzas) => {
                let mut stanzas = stanzas;
                if all.append(&mut stanzas).is_err() {
                    return Err(Fault::OutOfMemory);
                }
            }
            Err(WrapFault::Refused(code)) => return Err(Fault::Refused(i, code)),
            Err(WrapFault::Memory) => return Err(Fault::OutOfMemory),
        }
    }
    Ok(all)
}

/// The labels of the recipients, in order.
#[tactic(auto, using(crate::proofs::GatheredLemmas::collects_all))]
fn labels_of_all(
    alloc: Global,
    recipients: &[Box<dyn Recipient>],
) -> Result<Vec<Labels>, AllocError>
    ensures { IfOk result (λ labels.
        AllZip MayLabel (map (λ r. the_labels r) recipients.now) labels.items) }
{
    let mut all = Vec::new(alloc);
    for recipient in recipients {
        all.push(labels_of(alloc, recipient)?)?;
    }
    Ok(all)
}

/// Calls one recipient's `wrap`. It is a separate function so that its contract can cite the box,
/// which is an item of a list.
fn wrap_by(
    alloc: Global,
    recipient: &Box<dyn Recipient>,
    key: &FileKey,
) -> Result<Vec<Stanza>, WrapFault>
    ensures { WrapsAs (wraps recipient.now key.now) result }
{
    recipient.wrap(alloc, key)
}

/// Calls one recipient's `labels`, in a function of its own for the same reason as `wrap_by`.
fn labels_of(alloc: Global, recipient: &Box<dyn Recipient>) -> Result<Labels, AllocError>
    ensures { IfOk result (MayLabel (the_labels recipient.now)) }
{
    recipient.labels(alloc)
}
