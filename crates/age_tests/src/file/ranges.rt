//! Ranges over a source that counts its reads, is slow or fails, and over a file that is cut.

use super::begun::opened;
use super::{encrypted, key_identities, key_recipients};
use crate::devices::CountingReadAt;
use age_file::{Fault, FileAt, Limits, MemAt, RangeReader, ReadAt, StreamFault};
use round_trip::part_of;
use std::alloc::Global;
use std::cell::Cell;
use std::fs;
use std::fs::File;
use std::process::Abort;

/// Ranges of a plaintext of 140,000 bytes, read one after another: offset and length, the result,
/// and the number of chunks opened so far.
const ROWS: [((u64, usize), usize, u64); 8] = [
    ((139_990, 10), 10, 1),
    ((0, 10), 10, 2),
    ((5, 10), 10, 2),
    ((65_530, 12), 12, 3),
    ((139_999, 5), 1, 4),
    ((140_000, 5), 0, 4),
    ((18_446_744_073_709_551_615, 5), 0, 4),
    ((0, 0), 0, 4),
];

/// The file of 140,000 plaintext bytes, byte i being i modulo 251, for the key that is 32 times 3.
fn file_of(rt: &impl Abort, alloc: Global) -> Vec<u8> {
    let mut plain = Vec::new(alloc);
    for at in 0..140_000usize {
        plain.push((at % 251) as u8).expect(rt, "memory");
    }
    let (_, file) = encrypted(alloc, plain.as_slice(), &key_recipients(rt, alloc, 3));
    file
}

/// A read of `len` bytes from offset `at` on into a buffer of bytes 255 must return `answer`, and
/// put `filled` bytes of the plaintext at the buffer's front; the others must still be 255.
fn expect_range<T: Abort, D: ReadAt>(
    rt: &T,
    alloc: Global,
    reader: &mut RangeReader<'_, D>,
    (at, len): (u64, usize),
    answer: Result<usize, StreamFault>,
    filled: usize,
) {
    let mut buf = vec![in alloc; 255u8; len].expect(rt, "memory");
    assert_eq!(rt;
        reader.read_range(at, buf.as_mut_slice()),
        answer,
        "{len} bytes at {at}"
    );
    for i in 0..buf.len() {
        let byte = if i < filled {
            (at.wrapping_add(i as u64) % 251) as u8
        } else {
            255
        };
        assert_eq!(rt; buf[i], byte, "byte {i} of {len} at {at}");
    }
}

/// A part that crosses the end of a chunk, and one that crosses the end of the plaintext.
#[test]
fn part_of_a_file_is_at_its_offset(rt: HostRuntime) {
    let alloc = rt.alloc();
    let file = file_of(&rt, alloc);
    let identities = key_identities(&rt, alloc, 3);
    for (at, n) in [(65_530u64, 12usize), (139_999, 1)] {
        let mut buf = [255u8; 12];
        let answer = part_of(
            alloc,
            identities.as_slice(),
            file.as_slice(),
            &Limits::default(),
            at,
            &mut buf,
        );
        assert!(rt; answer == Ok(n), "12 bytes at {at}");
        for i in 0..12usize {
            let byte = if i < n {
                (at.wrapping_add(i as u64) % 251) as u8
            } else {
                255
            };
            assert_eq!(rt; buf[i], byte, "byte {i} of 12 at {at}");
        }
    }
}

/// If the source returns everything requested, the header costs 156 reads, one for each byte, and
/// the nonce and each opened chunk cost one. A slow source changes only the number of reads.
#[test]
fn each_opened_chunk_costs_one_read(rt: HostRuntime) {
    let alloc = rt.alloc();
    let file = file_of(&rt, alloc);
    let identities = key_identities(&rt, alloc, 3);
    for most in [usize::MAX, 1] {
        let reads = Cell::new(0);
        let mut dev = CountingReadAt::new(file.as_slice(), most, &reads, 0);
        let mut reader = opened(alloc, &mut dev, identities.as_slice(), &Limits::default()).expect(
            &rt, "no fault",
        );
        assert_eq!(rt; reader.plain_len(), 140_000);
        for (place, n, opened) in ROWS {
            expect_range(&rt, alloc, &mut reader, place, Ok(n), n);
            let (at, len) = place;
            assert_eq!(rt; reader.opened(), opened, "{len} bytes at {at}");
            assert!(rt;
                most == 1 || reads.get() == 157 + opened,
                "{len} bytes at {at}"
            );
        }
        drop(reader);
        assert_eq!(rt; dev.given(), 156 + 16 + 8_944 + 65_552 + 65_552 + 8_944);
    }
}

/// Each read after the header fails in turn. In a range, a failed read leaves the bytes of the
/// chunks before it, and repeating the call works. A damaged chunk leaves them too.
#[test]
fn failed_read_leaves_the_chunks_before_it(rt: HostRuntime) {
    let alloc = rt.alloc();
    let mut file = file_of(&rt, alloc);
    let identities = key_identities(&rt, alloc, 3);
    for failing in 157..162 {
        let reads = Cell::new(0);
        let mut dev = CountingReadAt::new(file.as_slice(), usize::MAX, &reads, failing);
        match opened(alloc, &mut dev, identities.as_slice(), &Limits::default()) {
            Ok(mut reader) => {
                let filled = match failing {
                    159 => 0,
                    160 => 65_536,
                    _ => 131_072,
                };
                let (whole, failed) = ((0, 140_000), Err(StreamFault::Read));
                expect_range(&rt, alloc, &mut reader, whole, failed, filled);
                expect_range(&rt, alloc, &mut reader, whole, Ok(140_000), 140_000);
            }
            Err(fault) => assert!(rt; failing < 159 && fault == Fault::Read, "read {failing}"),
        }
        assert_eq!(rt; dev.failures(), 1, "read {failing}");
    }
    if let Some(byte) = file.as_mut_slice().get_mut(172 + 65_552) {
        *byte ^= 1;
    }
    let mut dev = MemAt::new(file.as_slice());
    let mut reader = opened(alloc, &mut dev, identities.as_slice(), &Limits::default()).expect(
        &rt, "no fault",
    );
    let damaged = Err(StreamFault::BadChunk(1));
    expect_range(&rt, alloc, &mut reader, (65_530, 10), damaged, 6);
}

/// A file that was cut after it was opened: a range that needs a missing byte is a failed read. The
/// kept chunk can still be read.
#[test]
fn truncated_file_is_a_failed_read(rt: HostRuntime) {
    let alloc = rt.alloc();
    let file = file_of(&rt, alloc);
    fs::write(&rt, "cut.tmp", file.as_slice()).expect(&rt, "no fault");
    let mut dev = FileAt::new(File::open(&rt, "cut.tmp").expect(&rt, "no fault"));
    let identities = key_identities(&rt, alloc, 3);
    let mut reader = opened(alloc, &mut dev, identities.as_slice(), &Limits::default()).expect(
        &rt, "no fault",
    );
    let front = file.as_slice().get(..172 + 65_552 + 100);
    fs::write(&rt, "cut.tmp", front.unwrap_or(b"")).expect(&rt, "no fault");
    expect_range(&rt, alloc, &mut reader, (131_072, 8_928), Ok(8_928), 8_928);
    expect_range(&rt, alloc, &mut reader, (0, 65_536), Ok(65_536), 65_536);
    let failed = Err(StreamFault::Read);
    for (place, filled) in [((0, 65_537), 65_536), ((65_536, 10), 0), ((131_072, 10), 0)] {
        expect_range(&rt, alloc, &mut reader, place, failed, filled);
    }
    expect_range(&rt, alloc, &mut reader, (0, 10), Ok(10), 10);
    fs::remove_file(&rt, "cut.tmp").expect(&rt, "no fault");
}
