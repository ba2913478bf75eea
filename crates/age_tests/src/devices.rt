//! Devices that count their reads or writes, and fail at a chosen one.

use age_header::{DeviceFault, Sink, Source};
use age_stream::{MemAt, ReadAt};
use std::alloc::Global;
use std::cell::Cell;

/// Returns at most `most` of these bytes at a time, counts its reads, and fails at read `failing`,
/// counted from 1, or never if that is 0. Proofs do not know its contents.
#[derive(Drop)]
pub struct FailingSource<'a> {
    pub rest: &'a [u8],
    most: usize,
    failing: u64,
    pub reads: u64,
    pub failures: u64,
}

impl<'a> FailingSource<'a> {
    pub fn new(bytes: &'a [u8], most: usize, failing: u64) -> FailingSource<'a> {
        FailingSource {
            rest: bytes,
            most,
            failing,
            reads: 0,
            failures: 0,
        }
    }
}

impl<'a> Source for FailingSource<'a> {
    ghost use Rattle.std.specs.Prelude.{None};

    ghost failed = { λ s. s.failures };

    ghost to_come = { λ _. None };

    fn read(&mut self, buf: &mut [u8]) -> Result<usize, DeviceFault> {
        self.reads = self.reads.wrapping_add(1);
        if self.reads == self.failing {
            self.failures = self.failures.saturating_add(1);
            return Err(DeviceFault);
        }
        let n = self.rest.len().min(buf.len()).min(self.most);
        let (front, rest) = self.rest.split_at(n);
        buf[..n].copy_from_slice(front);
        self.rest = rest;
        Ok(n)
    }

    fn failures(&self) -> u64 {
        self.failures
    }
}

/// Accepts at most `most` bytes of a piece (0 counts as 1), counts its calls, and fails at call
/// `failing`, counted from 1 (0: never), and if memory is refused. Proofs do not know its contents.
#[derive(Drop)]
pub struct FailingSink {
    pub bytes: Vec<u8>,
    most: usize,
    failing: u64,
    pub calls: u64,
    pub failures: u64,
}

impl FailingSink {
    pub fn new(alloc: Global, most: usize, failing: u64) -> FailingSink {
        FailingSink {
            bytes: Vec::new(alloc),
            most,
            failing,
            calls: 0,
            failures: 0,
        }
    }
}

impl Sink for FailingSink {
    ghost use Rattle.std.specs.Prelude.{None};

    ghost failed = { λ s. s.failures };

    ghost taken = { λ _. None };

    fn write(&mut self, piece: &[u8]) -> Result<usize, DeviceFault> {
        let (front, _) = piece.split_at(piece.len().min(self.most.max(1)));
        self.calls = self.calls.wrapping_add(1);
        if self.calls == self.failing || self.bytes.extend_from_slice(front).is_err() {
            self.failures = self.failures.saturating_add(1);
            return Err(DeviceFault);
        }
        Ok(front.len())
    }

    fn failures(&self) -> u64 {
        self.failures
    }
}

/// Returns at most `most` of these bytes at a time (0 counts as 1), counts its reads, and fails at
/// read `failing`, counted from 1, or never if that is 0. Proofs do not know its contents.
#[derive(Drop)]
pub struct CountingReadAt<'a> {
    bytes: MemAt<'a>,
    most: usize,
    reads: &'a Cell<u64>,
    failing: u64,
    failures: u64,
}

impl<'a> CountingReadAt<'a> {
    pub fn new(
        bytes: &'a [u8],
        most: usize,
        reads: &'a Cell<u64>,
        failing: u64,
    ) -> CountingReadAt<'a> {
        CountingReadAt {
            bytes: MemAt::new(bytes),
            most,
            reads,
            failing,
            failures: 0,
        }
    }
}

impl<'a> ReadAt for CountingReadAt<'a> {
    ghost use Rattle.std.specs.Prelude.{None};
    ghost use Rattle.std.proofs.Common.{rules};

    ghost bytes = { λ _. None };

    ghost gave = { λ s. ⟦<MemAt<'a> as ReadAt>⟧.gave s.bytes };

    ghost found = { λ s. ⟦<MemAt<'a> as ReadAt>⟧.found s.bytes };

    ghost given = { λ s. ⟦<MemAt<'a> as ReadAt>⟧.given s.bytes };

    ghost failed = { λ s. s.failures };

    ghost agrees = { Prim.search rules };

    fn size(&mut self) -> Result<u64, DeviceFault> {
        self.bytes.size()
    }

    fn read_at(&mut self, at: u64, buf: &mut [u8]) -> Result<usize, DeviceFault> {
        self.reads.set(self.reads.get().wrapping_add(1));
        if self.reads.get() == self.failing {
            self.failures = self.failures.saturating_add(1);
            return Err(DeviceFault);
        }
        let n = buf.len().min(self.most.max(1));
        self.bytes.read_at(at, &mut buf[..n])
    }

    fn given(&self) -> u64 {
        self.bytes.given()
    }

    fn failures(&self) -> u64 {
        self.failures
    }
}
