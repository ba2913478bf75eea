//! Salvaging with devices that fail.

use super::{encrypted, key_identities, key_recipients};
use crate::devices::{FailingSink, FailingSource};
use age_file::{Fault, Limits, Losses, LostChunk, SalvagedFile, Sink, Source, salvage};
use age_header::{MemSink, MemSource};
use std::alloc::Global;
use std::process::Abort;

/// Counts the reports.
#[derive(Drop)]
struct Counted {
    chunks: usize,
}

impl Losses for Counted {
    ghost use Rattle.std.specs.Prelude.{None};

    ghost lost = { λ _. None };

    fn lose(&mut self, _chunk: LostChunk) {
        self.chunks = self.chunks.saturating_add(1);
    }
}

/// The result of salvaging, and the number of chunks that it reports.
fn salvaged<S: Source, W: Sink>(
    rt: &impl Abort,
    alloc: Global,
    source: &mut S,
    sink: &mut W,
) -> (Result<SalvagedFile, Fault>, usize) {
    let mut losses = Counted { chunks: 0 };
    let identities = key_identities(rt, alloc, 3);
    let limits = Limits::default();
    let answer = salvage(
        alloc,
        source,
        sink,
        &mut losses,
        identities.as_slice(),
        &limits,
    );
    (answer, losses.chunks)
}

/// The file of a plaintext of 131,078 bytes, each 7, and that plaintext.
fn file_and_text(rt: &impl Abort, alloc: Global) -> (Vec<u8>, Vec<u8>) {
    let plain = vec![in alloc; 7u8; 131_078].expect(rt, "memory");
    let (_, file) = encrypted(alloc, plain.as_slice(), &key_recipients(rt, alloc, 3));
    (file, plain)
}

/// Each read fails in turn: only whole chunks were written, from the first one on.
#[test]
fn failing_read_leaves_what_was_saved(rt: HostRuntime) {
    let alloc = rt.alloc();
    let (file, plain) = file_and_text(&rt, alloc);
    let mut whole = false;
    for failing in 1..1_000 {
        let mut source = FailingSource::new(file.as_slice(), 10_000, failing);
        let mut sink = MemSink::new(Vec::new(alloc));
        let (answer, _) = salvaged(&rt, alloc, &mut source, &mut sink);
        let text = sink.into_vec();
        assert!(rt;
            plain.as_slice().starts_with(text.as_slice()),
            "read {failing}"
        );
        if source.failures == 0 {
            whole = answer.is_ok() && text.len() == 131_078;
            break;
        }
        assert_eq!(rt; answer, Err(Fault::Read), "read {failing}");
        assert_eq!(rt; source.reads, failing);
        assert_eq!(rt; text.len() % 65_536, 0, "read {failing}");
    }
    assert!(rt; whole);
}

/// A write fails: what was saved before is written, with zeros in place of the lost chunk.
#[test]
fn failing_write_leaves_a_beginning(rt: HostRuntime) {
    let alloc = rt.alloc();
    let (mut file, _) = file_and_text(&rt, alloc);
    assert_eq!(rt; file.len(), 131_298);
    file.as_mut_slice()[172] ^= 1;
    for room in [0, 1, 65_535, 65_536, 65_537, 131_072, 131_077] {
        let mut sink = FailingSink::new(alloc, 1, (room as u64).wrapping_add(1));
        let mut source = MemSource::new(file.as_slice());
        let (answer, reported) = salvaged(&rt, alloc, &mut source, &mut sink);
        assert_eq!(rt; answer, Err(Fault::Write), "room for {room} bytes");
        assert_eq!(rt; sink.bytes.len(), room);
        for (i, byte) in sink.bytes.iter().enumerate() {
            assert_eq!(rt; *byte, if i < 65_536 { 0 } else { 7 }, "byte {i} of {room}");
        }
        assert_eq!(rt; reported, (room / 65_536).min(1), "room for {room} bytes");
    }
}
