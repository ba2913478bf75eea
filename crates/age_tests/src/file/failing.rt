//! Devices that fail at each read and each write in turn.

use super::begun::{begin_decryptor, begin_file, opened, unlocked};
use super::{
    FRESH, Identities, Recipients, decrypt_to, encrypt_to, encrypted, key_identities,
    key_recipients,
};
use crate::devices::{FailingSink, FailingSource};
use crate::vectors::SALT;
use age_file::{Encryptor, Fault, Limits, MemAt, ReadAt, WriteSink};
use age_header::{MemSink, MemSource, Sink};
use age_recipient::{KeyIdentity, KeyRecipient};
use std::alloc::Global;
use std::process::Abort;

/// A sink over a slice, of each length in turn, is filled with a prefix of the file.
#[test]
fn failing_sink_gets_a_beginning_of_the_file(rt: HostRuntime) {
    let alloc = rt.alloc();
    let recipients = key_recipients(&rt, alloc, 3);
    for len in 0..FILE.len() + 1 {
        let mut room = vec![in alloc; 0u8; len].expect(&rt, "memory");
        let mut sink = WriteSink::new(room.as_mut_slice());
        let answer = encrypt_to(alloc, &mut MemSource::new(b""), &mut sink, &recipients);
        assert!(rt;
            answer.err()
                == if len < FILE.len() {
                    Some(Fault::Write)
                } else {
                    None
                },
            "room for {len} bytes"
        );
        assert!(rt; FILE.starts_with(room.as_slice()), "room for {len} bytes");
    }
}

/// The number of reads, of at most 1,000 bytes, that decrypting makes if read `failing` fails (0:
/// none), and whether the result and the output are then as expected.
fn reads_until(
    rt: &impl Abort,
    alloc: Global,
    file: &[u8],
    plain: &[u8],
    failing: u64,
) -> (u64, bool) {
    let mut source = FailingSource::new(file, 1_000, failing);
    let mut sink = FailingSink::new(alloc, 1, 0);
    let identities = key_identities(rt, alloc, 3);
    let answer = decrypt_to(alloc, &mut source, &mut sink, &identities);
    let whole = answer.is_ok() && sink.bytes.as_slice() == plain;
    let failed = answer == Err(Fault::Read) && plain.starts_with(sink.bytes.as_slice());
    (source.reads, if failing == 0 { whole } else { failed })
}

/// Decrypting two chunks, with each read failing in turn: a prefix of the plaintext is written, and
/// nothing more is read.
#[test]
fn failing_read_leaves_a_beginning_of_the_plaintext(rt: HostRuntime) {
    let alloc = rt.alloc();
    let plain = vec![in alloc; 7u8; 65_537].expect(&rt, "memory");
    let (_, file) = encrypted(alloc, plain.as_slice(), &key_recipients(&rt, alloc, 3));
    let (reads, whole) = reads_until(&rt, alloc, file.as_slice(), plain.as_slice(), 0);
    assert!(rt; whole && reads > 156 + 65);
    for earlier in 0..reads {
        let failing = earlier + 1;
        let (met, failed) = reads_until(&rt, alloc, file.as_slice(), plain.as_slice(), failing);
        assert!(rt; failed, "read {failing}");
        assert_eq!(rt; met, failing);
    }
}

/// A source of a plaintext of two chunks fails. Before 66 reads of at most 1,000 bytes have filled
/// the first chunk, nothing is written; after a later failure the output is a prefix of the file.
#[test]
fn failing_plaintext_leaves_a_beginning_of_the_file(rt: HostRuntime) {
    let alloc = rt.alloc();
    let recipients = key_recipients(&rt, alloc, 3);
    let plain = vec![in alloc; 7u8; 65_537].expect(&rt, "memory");
    let (_, whole) = encrypted(alloc, plain.as_slice(), &recipients);
    for (failing, len) in [(1, 0), (66, 0), (67, 172), (68, 172 + 65_552)] {
        let mut source = FailingSource::new(plain.as_slice(), 1_000, failing);
        let mut sink = FailingSink::new(alloc, 1, 0);
        let answer = encrypt_to(alloc, &mut source, &mut sink, &recipients);
        assert!(rt; answer == Err(Fault::Read), "read {failing}");
        assert_eq!(rt; sink.bytes.len(), len, "read {failing}");
        assert!(rt;
            whole.as_slice().starts_with(sink.bytes.as_slice()),
            "read {failing}"
        );
        assert_eq!(rt; source.reads, failing);
    }
}

/// The file of the empty plaintext for the key that is 32 times 3, made by tests/reference.py.
pub(super) const FILE: &[u8] =
    b"age-encryption.org/v1\n-> example.org/key ICEiIyQlJicoKSorLC0uLw\nV4z9dcExmsj4rOYyl6enYhk5Msw0sZuovpzKf+BEY6Y\n--- vTjtX063xQZt7OcXF0O+SrfCT1OR+JXStLMiFO1M3/E\n\x10\x11\x12\x13\x14\x15\x16\x17\x18\x19\x1a\x1b\x1c\x1d\x1e\x1f\x50\x15\x09\x65\x52\xfe\x30\x35\x66\x48\x70\x85\x54\xcb\x9c\x28";

/// Whether starting a file writes its header and nonce, or returns out of memory with nothing
/// written, or a failed write, which means that the sink's own allocation was refused.
fn starts_or_starves(alloc: Global, recipients: &Recipients) -> bool {
    let mut out = MemSink::new(Vec::new(alloc));
    let started = match Encryptor::new(alloc, recipients.as_slice(), &FRESH, &Limits::default()) {
        Ok(encryptor) => match begin_file(encryptor, alloc, &mut out) {
            Ok(writer) => Ok(writer.abandon()),
            Err(fault) => Err(fault),
        },
        Err(fault) => Err(fault),
    };
    let failures = out.failures();
    let written = out.into_vec();
    match started {
        Ok(()) => FILE.starts_with(written.as_slice()) && written.len() == 172,
        Err(Fault::Write) => failures == 1,
        Err(fault) => fault == Fault::OutOfMemory && written.is_empty(),
    }
}

/// Whether a file is unlocked and its chunk read, or a call returns out of memory, with at least
/// the 32 bytes of the payload still unread.
fn reads_or_starves(alloc: Global, identities: &Identities) -> bool {
    let mut source = MemSource::new(FILE);
    let decryptor = match begin_decryptor(alloc, &mut source) {
        Ok(decryptor) => decryptor,
        Err(fault) => return fault == Fault::OutOfMemory && source.rest().len() >= 32,
    };
    let read = match unlocked(decryptor, alloc, identities.as_slice()) {
        Ok(mut reader) => Ok(matches!(reader.next_chunk(), Ok(Some(&[])))),
        Err(fault) => Err(fault),
    };
    match read {
        Ok(is_empty) => is_empty,
        Err(fault) => fault == Fault::OutOfMemory && source.rest().len() == 32,
    }
}

/// Whether a file opens for ranges, or the call returns out of memory and read at most the header.
fn opens_or_starves(alloc: Global, identities: &Identities) -> bool {
    let mut dev = MemAt::new(FILE);
    let opened = match opened(alloc, &mut dev, identities.as_slice(), &Limits::default()) {
        Ok(reader) => Ok(reader.plain_len()),
        Err(fault) => Err(fault),
    };
    opened == Ok(0) || opened == Err(Fault::OutOfMemory) && dev.given() <= 156
}

/// The calls in steps, and opening ranges, return Ok or out of memory, or `Write` if the sink's
/// allocation was refused. tests/test_libraries.py refuses each allocation in turn.
#[test]
fn whole_or_out_of_memory(rt: HostRuntime) {
    let alloc = rt.alloc();
    let mut recipients: Recipients = Vec::new(alloc);
    let mut identities: Identities = Vec::new(alloc);
    let Ok(recipient) = Box::new(alloc, KeyRecipient::new([3; 32], SALT)) else {
        return;
    };
    let Ok(identity) = Box::new(alloc, KeyIdentity::new([3; 32])) else {
        return;
    };
    if recipients.push(recipient).is_err() || identities.push(identity).is_err() {
        return;
    }
    assert!(rt; starts_or_starves(alloc, &recipients));
    assert!(rt; reads_or_starves(alloc, &identities));
    assert!(rt; opens_or_starves(alloc, &identities));
}
