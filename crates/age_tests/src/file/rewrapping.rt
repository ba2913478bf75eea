//! Rewrapping with devices that fail.

use super::{Identities, Recipients, encrypted, key_identities, key_recipients};
use crate::devices::{FailingSink, FailingSource};
use age_file::{Fault, Limits, rewrap};
use age_header::{MemSink, MemSource, Sink, Source};
use std::alloc::Global;

/// The result of rewrapping, with the default limits.
fn rewrap_to<S: Source, W: Sink>(
    alloc: Global,
    input: &mut S,
    out: &mut W,
    identities: &Identities,
    recipients: &Recipients,
) -> Result<(), Fault> {
    let (identities, recipients) = (identities.as_slice(), recipients.as_slice());
    rewrap(
        alloc,
        input,
        out,
        identities,
        recipients,
        &Limits::default(),
    )
}

/// Each read and each write fails in turn: the output is a prefix of the new file.
#[test]
fn failing_devices_leave_a_beginning_of_the_rewrapped_file(rt: HostRuntime) {
    let alloc = rt.alloc();
    let (_, file) = encrypted(alloc, b"abc", &key_recipients(&rt, alloc, 1));
    let (identities, recipients) = (key_identities(&rt, alloc, 1), key_recipients(&rt, alloc, 3));
    let mut source = MemSource::new(file.as_slice());
    let mut sink = MemSink::new(Vec::new(alloc));
    let answer = rewrap_to(alloc, &mut source, &mut sink, &identities, &recipients);
    assert!(rt; answer == Ok(()));
    let whole = sink.into_vec();
    assert_eq!(rt; whole.len(), 191);
    for failing in 1..200 {
        let mut source = FailingSource::new(file.as_slice(), 1, failing);
        let mut sink = FailingSink::new(alloc, 1, 0);
        let answer = rewrap_to(alloc, &mut source, &mut sink, &identities, &recipients);
        // 191 reads of one byte, and one that finds the end
        let expected = if failing <= 192 {
            Err(Fault::Read)
        } else {
            Ok(())
        };
        assert!(rt; answer == expected, "read {failing}");
        assert!(rt;
            whole.as_slice().starts_with(sink.bytes.as_slice()),
            "read {failing}"
        );
        assert!(rt; sink.bytes.is_empty() == (failing <= 156), "read {failing}");
    }
    for most in 0..191 {
        let mut source = MemSource::new(file.as_slice());
        let mut sink = FailingSink::new(alloc, 1, most as u64 + 1);
        let answer = rewrap_to(alloc, &mut source, &mut sink, &identities, &recipients);
        assert!(rt; answer == Err(Fault::Write), "room for {most} bytes");
        assert!(rt; sink.bytes.len() == most, "room for {most} bytes");
        assert!(rt;
            whole.as_slice().starts_with(sink.bytes.as_slice()),
            "room for {most} bytes"
        );
    }
}
