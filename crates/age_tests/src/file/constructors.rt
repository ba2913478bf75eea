//! The state of a device after a constructor has failed, with each read and write failing in turn.

use super::begun::{begin_decryptor, begin_file, opened, unlocked};
use super::failing::FILE;
use super::{FRESH, Identities, key_identities, key_recipients};
use crate::devices::{CountingReadAt, FailingSink, FailingSource};
use age_file::{Encryptor, Fault, Limits, ReadAt};
use age_header::Source;
use std::alloc::Global;
use std::cell::Cell;

/// The header and the nonce have 172 bytes. Each write fails in turn: the failed write is the last,
/// and is counted once.
#[test]
fn failed_write_of_the_front_is_the_last(rt: HostRuntime) {
    let alloc = rt.alloc();
    let recipients = key_recipients(&rt, alloc, 3);
    for most in 0..172 {
        let encryptor = Encryptor::new(
            alloc,
            recipients.as_slice(),
            &FRESH,
            &Limits::default(),
        ).expect(&rt, "no fault");
        let mut sink = FailingSink::new(alloc, 1, most as u64 + 1);
        match begin_file(encryptor, alloc, &mut sink) {
            Ok(writer) => {
                writer.abandon();
                assert!(rt; false, "{most} bytes");
            }
            Err(fault) => assert!(rt; fault == Fault::Write, "{most} bytes"),
        }
        assert!(rt; sink.bytes.as_slice() == &FILE[..most], "{most} bytes");
        assert_eq!(rt; sink.calls, most as u64 + 1);
        assert_eq!(rt; sink.failures, 1, "{most} bytes");
    }
}

/// The fault, if any, of reading a file in steps up to its nonce.
fn read_fault<S: Source>(alloc: Global, source: &mut S, identities: &Identities) -> Option<Fault> {
    match begin_decryptor(alloc, source) {
        Ok(decryptor) => unlocked(decryptor, alloc, identities.as_slice()).err(),
        Err(fault) => Some(fault),
    }
}

/// The header is read byte by byte, the nonce at once, and for ranges the only chunk at once. Each
/// read fails in turn: the failed read is the last, and is counted once.
#[test]
fn failed_read_of_the_front_is_the_last(rt: HostRuntime) {
    let alloc = rt.alloc();
    let identities = key_identities(&rt, alloc, 3);
    for failing in 1..159 {
        let mut source = FailingSource::new(FILE, 16, failing);
        let met = read_fault(alloc, &mut source, &identities);
        assert!(rt;
            met == if failing < 158 {
                Some(Fault::Read)
            } else {
                None
            },
            "read {failing}"
        );
        assert_eq!(rt; source.reads, failing.min(157));
        assert_eq!(rt;
            source.failures,
            if failing < 158 { 1 } else { 0 },
            "read {failing}"
        );
        let reads = Cell::new(0);
        let mut dev = CountingReadAt::new(FILE, usize::MAX, &reads, failing);
        let met = opened(alloc, &mut dev, identities.as_slice(), &Limits::default()).err();
        assert!(rt; met == Some(Fault::Read), "read {failing}");
        assert_eq!(rt; reads.get(), failing);
        assert_eq!(rt; dev.failures(), 1, "read {failing}");
    }
}
