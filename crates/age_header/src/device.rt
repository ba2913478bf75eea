//! Devices: sources of bytes and sinks for bytes. A device counts its failures, so that a caller
//! can tell an I/O error from a fault in the bytes. Proofs may know its contents.

ghost use Rattle.std.specs.Prelude.{◌≡◌, ◌<◌, ◌≤◌, ◌+◌, ◌-◌, ◌^◌, ℕ};
ghost use Rattle.std.specs.Prelude.{Some, length, min, ⊤, vec_capacity, vec_len, IfOk, OnErr};
ghost use Rattle.std.specs.declared.option.Option.{Option};
ghost use Rattle.std.specs.Io.{ReadsAtMost};
ghost use Rattle.age_header.specs.Device.{Bytes, Known, Counts, Gives, Takes, Writes};
ghost use Rattle.age_header.specs.Device.{flow_by, move_of, move_by};
ghost use Rattle.age_header.specs.MemSink.{spare_of};

use std::io::{Read, Write};

/// A call of a device failed, and the device counted this failure, saturating.
#[derive(Clone, Copy, Debug, Drop, PartialEq, Eq)]
pub struct DeviceFault;

/// A source of bytes, like `std::io::Read`.
pub trait Source {
    // The number of failed reads, saturating at the largest `u64`.
    ghost failed: { Self → ℕ };

    // The bytes still to come, if proofs know the contents.
    ghost to_come: { Self → Known };

    // Whether the source may have returned exactly these bytes so far. The default is always true.
    ghost gave: { Self → Bytes → Type 0 } = { λ _ _. ⊤ };

    /// Reads the next bytes into the start of `buf`, and returns their number.
    ///
    /// Returns 0 for a nonempty `buf` only at the end of the input. A short read does not mean the
    /// end. After an error nothing is known about the bytes in `buf`.
    fn read(&mut self, buf: &mut [u8]) -> Result<usize, DeviceFault>
        ensures bound { ReadsAtMost result buf.new }
        // An error adds 1 to the count of failures, saturating. On Ok the count is unchanged.
        ensures count { Counts (failed self.old) (failed self.new) result }
        // On Ok(n) the source returned its next n bytes, into the start of the buffer; for a
        // nonempty buffer, n is 0 only at the end. On an error the source returned no bytes.
        ensures gave { Gives (flow_by to_come gave self.old self.new) result buf.new };

    /// The number of failed reads, saturating at the largest `u64`.
    fn failures(&self) -> u64
        ensures { result ≡ failed self.now };
}

/// A sink for bytes, like `std::io::Write`.
pub trait Sink {
    // The number of failed writes, saturating at the largest `u64`.
    ghost failed: { Self → ℕ };

    // The bytes written so far, if proofs know the contents.
    ghost taken: { Self → Known };

    /// Writes a prefix of `piece`, and returns its length, at least 1 for a nonempty piece. On an
    /// error nothing was written.
    fn write(&mut self, piece: &[u8]) -> Result<usize, DeviceFault>
        ensures bound { IfOk result (λ n. n ≤ length piece.now) }
        // An error adds 1 to the count of failures, saturating. On Ok the count is unchanged.
        ensures count { Counts (failed self.old) (failed self.new) result }
        // On Ok(n) the first n bytes of the piece were appended; n is at least 1 for a nonempty
        // piece. On an error nothing was appended.
        ensures bytes { Takes (move_by taken self.old self.new) result piece.now };

    /// The number of failed writes, saturating at the largest `u64`.
    fn failures(&self) -> u64
        ensures { result ≡ failed self.now };
}

/// Writes the whole piece, in as many writes as the sink needs. On an error a prefix of it was
/// written. An interrupted write is not repeated.
pub fn write_all<W: Sink>(out: &mut W, piece: &[u8]) -> Result<(), DeviceFault>
    // On Ok the whole piece was written, on an error a prefix of it.
    ensures text { Writes (move_by W.taken out.old out.new) result piece.now }
    // A failed write added 1 to the sink's count of failures, saturating; else it is unchanged.
    ensures count { Counts (W.failed out.old) (W.failed out.new) result }
{
    let mut at = 0;
    while at < piece.len() {
        at += out.write(&piece[at..])?;
    }
    Ok(())
}

/// Adds 1 to the count of failures, saturating, and returns the fault.
fn count_failure(failures: &mut u64) -> DeviceFault
    ensures { failures.new ≡ min (failures.old + 1) (2 ^ 64 - 1) }
{
    *failures = failures.saturating_add(1);
    DeviceFault
}

/// A source over bytes in memory. Its reads never fail.
#[derive(Drop)]
pub struct MemSource<'a> {
    rest: &'a [u8],
}

impl<'a> MemSource<'a> {
    /// Makes a source of these bytes.
    pub fn new(bytes: &'a [u8]) -> MemSource<'a>
        ensures { ⟦<MemSource<'a> as Source>⟧.to_come result ≡ Some bytes.now }
    {
        MemSource { rest: bytes }
    }

    /// The bytes still to come.
    pub fn rest(&self) -> &'a [u8]
        ensures { ⟦<MemSource<'a> as Source>⟧.to_come self.now ≡ Some result.now }
    {
        self.rest
    }
}

impl<'a> Source for MemSource<'a> {
    ghost failed = { λ _. 0 };

    ghost to_come = { λ s. Some s.rest.now };

    fn read(&mut self, buf: &mut [u8]) -> Result<usize, DeviceFault> {
        let n = self.rest.len().min(buf.len());
        let (prefix, rest) = self.rest.split_at(n);
        buf[..n].copy_from_slice(prefix);
        self.rest = rest;
        Ok(n)
    }

    fn failures(&self) -> u64 {
        0
    }
}

/// A sink that appends to its vector. It writes every piece whole, and fails only if a piece
/// exceeds the vector's spare capacity and the allocation is refused.
#[derive(Drop)]
pub struct MemSink {
    out: Vec<u8>,
    failures: u64,
}

impl MemSink {
    /// Makes a sink that appends to this vector.
    pub fn new(out: Vec<u8>) -> MemSink
        // The bytes written so far are those of the vector.
        ensures bytes { ⟦<MemSink as Sink>⟧.taken result ≡ Some out.items }
        // The count of failures is 0.
        ensures count { ⟦<MemSink as Sink>⟧.failed result ≡ 0 }
        // The room of the sink is the vector's spare capacity.
        ensures spare { spare_of result ≡ vec_capacity out - vec_len out }
    {
        MemSink { out, failures: 0 }
    }

    /// Returns the vector, which holds all bytes written.
    pub fn into_vec(self) -> Vec<u8>
        ensures { ⟦<MemSink as Sink>⟧.taken self ≡ Some result.items }
    {
        let MemSink { out, failures: _ } = self;
        out
    }
}

impl Sink for MemSink {
    ghost failed = { λ s. s.failures };

    ghost taken = { λ s. Some s.out.items };

    fn write(&mut self, piece: &[u8]) -> Result<usize, DeviceFault>
        ensures bound { IfOk result (λ n. n ≤ length piece.now) }
        // An error adds 1 to the count of failures, saturating. On Ok the count is unchanged.
        ensures count { Counts self.old.failures self.new.failures result }
        // On Ok(n) the first n bytes of the piece were appended; n is at least 1 for a nonempty
        // piece. On an error nothing was appended.
        ensures bytes { Takes (move_of (Some self.old.out.items) (Some self.new.out.items))
            result piece.now }
        // On Ok the whole piece was written.
        ensures whole { IfOk result (λ n. n ≡ length piece.now) }
        // A write fails only if the piece is longer than the room.
        ensures full { OnErr result (spare_of self.old < length piece.now) }
        // On Ok the room shrinks by at most the number of bytes written.
        ensures spare { IfOk result (λ n. spare_of self.old ≤ spare_of self.new + n) }
    {
        match self.out.extend_from_slice(piece) {
            Ok(()) => Ok(piece.len()),
            Err(_) => Err(count_failure(&mut self.failures)),
        }
    }

    fn failures(&self) -> u64 {
        self.failures
    }
}

/// A source over any reader.
#[derive(Drop)]
pub struct ReadSource<R> {
    reader: R,
    failures: u64,
}

impl<R: Read> ReadSource<R> {
    /// Makes a source of this reader's bytes.
    pub fn new(reader: R) -> ReadSource<R>
        // The bytes to come are those of the reader.
        ensures bytes { ⟦<ReadSource<R> as Source>⟧.to_come result ≡ R.remaining reader }
        // The count of failures is 0.
        ensures count { ⟦<ReadSource<R> as Source>⟧.failed result ≡ 0 }
    {
        ReadSource {
            reader,
            failures: 0,
        }
    }

    /// Returns the reader, which has the bytes still to come.
    pub fn into_inner(self) -> R
        ensures { ⟦<ReadSource<R> as Source>⟧.to_come self ≡ R.remaining result }
    {
        let ReadSource {
            reader,
            failures: _,
        } = self;
        reader
    }
}

impl<R: Read> Source for ReadSource<R> {
    ghost failed = { λ s. s.failures };

    ghost to_come = { λ s. R.remaining s.reader };

    fn read(&mut self, buf: &mut [u8]) -> Result<usize, DeviceFault> {
        match self.reader.read(buf) {
            Ok(n) => Ok(n),
            Err(_) => Err(count_failure(&mut self.failures)),
        }
    }

    fn failures(&self) -> u64 {
        self.failures
    }
}

/// A sink over any writer. A write that takes no byte of a nonempty piece is a failure, because a
/// loop over such writes would never end.
#[derive(Drop)]
pub struct WriteSink<W> {
    writer: W,
    failures: u64,
}

impl<W: Write> WriteSink<W> {
    /// Makes a sink to this writer.
    pub fn new(writer: W) -> WriteSink<W>
        // The bytes written so far are the writer's contents.
        ensures bytes { ⟦<WriteSink<W> as Sink>⟧.taken result ≡ W.contents writer }
        // The count of failures is 0.
        ensures count { ⟦<WriteSink<W> as Sink>⟧.failed result ≡ 0 }
    {
        WriteSink {
            writer,
            failures: 0,
        }
    }

    /// Returns the writer, which has the bytes written.
    pub fn into_inner(self) -> W
        ensures { ⟦<WriteSink<W> as Sink>⟧.taken self ≡ W.contents result }
    {
        let WriteSink {
            writer,
            failures: _,
        } = self;
        writer
    }
}

impl<W: Write> Sink for WriteSink<W> {
    ghost failed = { λ s. s.failures };

    ghost taken = { λ s. W.contents s.writer };

    fn write(&mut self, piece: &[u8]) -> Result<usize, DeviceFault> {
        match self.writer.write(piece) {
            Ok(n) if n > 0 || piece.is_empty() => Ok(n),
            _ => Err(count_failure(&mut self.failures)),
        }
    }

    fn failures(&self) -> u64 {
        self.failures
    }
}
