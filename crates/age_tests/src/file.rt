//! Whole files through callers' devices, recipients and identities.

pub(crate) mod begun;
mod callers;
mod constructors;
mod failing;
mod objects;
mod ranges;
mod rewrapping;
mod salvaging;
mod steps;

use crate::devices::{FailingSink, FailingSource};
use crate::vectors::{KEY, NONCE, SALT};
use age_file::{Done, Fault, Fresh, Limits, decrypt, encrypt};
use age_header::{MemSink, MemSource, Sink, Source};
use age_recipient::{Identity, KeyIdentity, KeyRecipient, PassIdentity, PassRecipient, Recipient};
use objects::ForeignRecipient;
use std::alloc::{AllocError, Global};
use std::process::Abort;

const FRESH: Fresh = Fresh {
    file_key: KEY,
    nonce: NONCE,
};

const PASS: &[u8] = b"correct horse";

type Recipients = Vec<Box<dyn Recipient>>;

type Identities = Vec<Box<dyn Identity>>;

/// This value in a box.
fn boxed<T>(rt: &impl Abort, alloc: Global, value: T) -> Box<T> {
    Box::new(alloc, value).expect(rt, "memory")
}

fn add(rt: &impl Abort, recipients: &mut Recipients, recipient: Box<dyn Recipient>) {
    recipients.push(recipient).expect(rt, "memory");
}

/// A list of this one recipient.
fn one(rt: &impl Abort, alloc: Global, recipient: Box<dyn Recipient>) -> Recipients {
    let mut recipients = Vec::new(alloc);
    add(rt, &mut recipients, recipient);
    recipients
}

fn try_also(rt: &impl Abort, identities: &mut Identities, identity: Box<dyn Identity>) {
    identities.push(identity).expect(rt, "memory");
}

/// A list of this one identity.
fn only(rt: &impl Abort, alloc: Global, identity: Box<dyn Identity>) -> Identities {
    let mut identities = Vec::new(alloc);
    try_also(rt, &mut identities, identity);
    identities
}

/// The passphrase's recipient, with work factor 10.
fn passphrase_recipients(rt: &impl Abort, alloc: Global) -> Recipients {
    let recipient = PassRecipient::new(alloc, PASS, SALT, 10).expect(rt, "memory");
    one(rt, alloc, boxed(rt, alloc, recipient))
}

/// The passphrase's identity.
fn passphrase_identities(rt: &impl Abort, alloc: Global) -> Identities {
    let identity = PassIdentity::new(alloc, PASS, 22).expect(rt, "memory");
    only(rt, alloc, boxed(rt, alloc, identity))
}

/// The recipient of the key that is 32 times `byte`.
fn key_recipients(rt: &impl Abort, alloc: Global, byte: u8) -> Recipients {
    one(
        rt,
        alloc,
        boxed(rt, alloc, KeyRecipient::new([byte; 32], SALT)),
    )
}

/// The identity of the key that is 32 times `byte`.
fn key_identities(rt: &impl Abort, alloc: Global, byte: u8) -> Identities {
    only(rt, alloc, boxed(rt, alloc, KeyIdentity::new([byte; 32])))
}

/// The result of encrypting for these recipients, and the output.
fn encrypted(
    alloc: Global,
    plain: &[u8],
    recipients: &Recipients,
) -> (Result<Done, Fault>, Vec<u8>) {
    encrypted_within(alloc, plain, recipients, &Limits::default())
}

fn encrypted_within(
    alloc: Global,
    plain: &[u8],
    recipients: &Recipients,
    limits: &Limits,
) -> (Result<Done, Fault>, Vec<u8>) {
    let mut out = MemSink::new(Vec::new(alloc));
    let mut input = MemSource::new(plain);
    let answer = encrypt(
        alloc,
        &mut input,
        &mut out,
        recipients.as_slice(),
        &FRESH,
        limits,
    );
    (answer, out.into_vec())
}

/// The result of encrypting for these recipients, with the default limits.
fn encrypt_to<S: Source, W: Sink>(
    alloc: Global,
    input: &mut S,
    out: &mut W,
    recipients: &Recipients,
) -> Result<Done, Fault> {
    encrypt(
        alloc,
        input,
        out,
        recipients.as_slice(),
        &FRESH,
        &Limits::default(),
    )
}

/// The result of decrypting with these identities, and the output.
fn decrypted(
    alloc: Global,
    file: &[u8],
    identities: &Identities,
) -> (Result<Done, Fault>, Vec<u8>) {
    decrypted_within(alloc, file, identities, &Limits::default())
}

fn decrypted_within(
    alloc: Global,
    file: &[u8],
    identities: &Identities,
    limits: &Limits,
) -> (Result<Done, Fault>, Vec<u8>) {
    let mut out = MemSink::new(Vec::new(alloc));
    let mut input = MemSource::new(file);
    let answer = decrypt(alloc, &mut input, &mut out, identities.as_slice(), limits);
    (answer, out.into_vec())
}

/// The result of decrypting with these identities and the default limits.
fn decrypt_to<S: Source, W: Sink>(
    alloc: Global,
    input: &mut S,
    out: &mut W,
    identities: &Identities,
) -> Result<Done, Fault> {
    decrypt(alloc, input, out, identities.as_slice(), &Limits::default())
}

/// The `Done` of this many bytes in one chunk.
fn done(bytes: u128) -> Result<Done, Fault> {
    Ok(Done { bytes, chunks: 1 })
}

/// Encrypts and decrypts, reading and writing one byte at a time. The last chunk is full.
#[test]
fn encrypt_and_decrypt_work_byte_by_byte(rt: HostRuntime) {
    let alloc = rt.alloc();
    let plain = vec![in alloc; 7u8; 65_536].expect(&rt, "memory");
    let recipients = passphrase_recipients(&rt, alloc);
    let done = done(65_536);
    let (answer, file) = encrypted(alloc, plain.as_slice(), &recipients);
    assert!(rt; answer == done);
    assert_eq!(rt; file.len(), 65_718);
    let mut source = FailingSource::new(plain.as_slice(), 1, 0);
    let mut sink = FailingSink::new(alloc, 1, 0);
    assert!(rt; encrypt_to(alloc, &mut source, &mut sink, &recipients) == done);
    assert!(rt; sink.bytes == file);
    let identities = passphrase_identities(&rt, alloc);
    let mut source = FailingSource::new(file.as_slice(), 1, 0);
    let mut sink = FailingSink::new(alloc, 1, 0);
    assert!(rt; decrypt_to(alloc, &mut source, &mut sink, &identities) == done);
    assert!(rt; sink.bytes == plain);
}

/// With two chunks and a limit of one, encrypting writes header and nonce, decrypting one chunk.
#[test]
fn too_many_chunks_are_refused_in_both_directions(rt: HostRuntime) {
    let alloc = rt.alloc();
    let Some(one) = Limits::new(65_536, 1) else {
        unreachable!();
    };
    let plain = vec![in alloc; 7u8; 65_537].expect(&rt, "memory");
    let recipients = key_recipients(&rt, alloc, 3);
    let (answer, begun) = encrypted_within(alloc, plain.as_slice(), &recipients, &one);
    assert!(rt; answer == Err(Fault::TooManyChunks));
    assert_eq!(rt; begun.len(), 172);
    let (_, file) = encrypted(alloc, plain.as_slice(), &recipients);
    assert!(rt; file.as_slice().starts_with(begun.as_slice()));
    let (answer, front) = decrypted_within(
        alloc,
        file.as_slice(),
        &key_identities(&rt, alloc, 3),
        &one,
    );
    assert!(rt; answer == Err(Fault::TooManyChunks));
    assert_eq!(rt; front.len(), 65_536);
}

/// A stanza of a caller's type is written, and skipped by other identities; the MAC covers it.
#[test]
fn foreign_stanzas_are_written_and_skipped(rt: HostRuntime) {
    let alloc = rt.alloc();
    let done = done(0);
    let mut recipients = one(&rt, alloc, boxed(&rt, alloc, ForeignRecipient));
    add(
        &rt,
        &mut recipients,
        boxed(&rt, alloc, KeyRecipient::new([3; 32], SALT)),
    );
    let (answer, file) = encrypted(alloc, b"", &recipients);
    assert!(rt; answer == done);
    assert_eq!(rt; file.len(), 262);
    let plug =
        b"age-encryption.org/v1\n-> plug\nAAAAAAAAAAAAAAAAAAAAAAAAAAAAAAAAAAAAAAAAAAAAAAAAAAAAAAAAAAAAAAAA\n\n-> ";
    assert!(rt; file.as_slice().starts_with(plug));
    let identities = key_identities(&rt, alloc, 3);
    let (answer, _) = decrypted(alloc, file.as_slice(), &identities);
    assert!(rt; answer == done);
    // without the three lines of the first stanza
    let mut cut = Vec::from_slice(alloc, b"age-encryption.org/v1\n-> ").expect(&rt, "memory");
    let (_, rest) = file.as_slice().split_at(plug.len().min(file.len()));
    cut.extend_from_slice(rest).expect(&rt, "memory");
    let (answer, _) = decrypted(alloc, cut.as_slice(), &identities);
    assert!(rt; answer == Err(Fault::BadMac));
}
