//! Sources that are read at offsets.

ghost use Rattle.std.specs.Prelude.{◌≡◌, ◌+◌, ◌-◌, ◌^◌, ℕ};
ghost use Rattle.std.specs.Prelude.{Some, None, IfOk, length, min, slice_get, take, ⊤};
ghost use Rattle.std.specs.declared.option.Option.{Option};
ghost use Rattle.std.specs.Io.{ReadsAtMost};
ghost use Rattle.std.proofs.Common.{rules};
ghost use Rattle.age_kdf.specs.Bytes.{Bytes};
ghost use Rattle.age_header.specs.Device.{Known, Counts};
ghost use Rattle.age_stream.specs.Offsets.{Agrees, CountsGiven, EmptyAtEnd, FindsSize, GaveAt};
ghost use Rattle.age_stream.specs.Offsets.{HasOffsets, StaysGiven};

use age_header::DeviceFault;
use std::io::{Read, Seek, SeekFrom};

/// A source that is read at offsets, in any order. If proofs know its contents, these do not
/// change: the same offset has the same byte at each read. Of a file, proofs know only the counts
/// and, once it was found, the size.
pub trait ReadAt {
    // The contents, if they are known to proofs.
    ghost bytes: { Self → Known };

    // The size in bytes, once it was found.
    ghost found: { Self → Option ℕ };

    // Whether the source may have given this byte at this offset. For a slice: whether the byte is
    // there, read or not. The default allows every byte.
    ghost gave: { Self → (at byte : ℕ) → Type 0 } = { λ _ _ _. ⊤ };

    // The number of bytes read so far, saturating at the largest u64.
    ghost given: { Self → ℕ };

    // The number of failed calls, saturating at the largest u64.
    ghost failed: { Self → ℕ };

    /// The size in bytes.
    ///
    /// # Errors
    /// If the size was not found. The failure is counted.
    fn size(&mut self) -> Result<u64, DeviceFault>
        // Known contents stay.
        ensures stay { bytes self.new ≡ bytes self.old }
        // Bytes read before still count as read.
        ensures stays_given { StaysGiven (gave self.old) (gave self.new) }
        // The size is that of the known contents; the first size that was found stays.
        ensures size { FindsSize (bytes self.old) (found self.old) (found self.new) result }
        // Nothing was read.
        ensures given { given self.new ≡ given self.old }
        // An error raises the count of failures, an Ok leaves it.
        ensures count { Counts (failed self.old) (failed self.new) result };

    /// Reads bytes from offset `at` on into the start of `buf`, and returns their number. Returns 0
    /// with a nonempty `buf` only at the end or past it. A short read does not mean the end.
    ///
    /// # Errors
    /// If the read failed; no byte was read. The failure is counted.
    fn read_at(&mut self, at: u64, buf: &mut [u8]) -> Result<usize, DeviceFault>
        // Known contents stay.
        ensures stay { bytes self.new ≡ bytes self.old }
        // The size that was found stays.
        ensures found { found self.new ≡ found self.old }
        ensures bound { ReadsAtMost result buf.new }
        // The offsets of known contents fit a u64.
        ensures offsets { HasOffsets (bytes self.old) }
        // A read into a nonempty buffer returns 0 only at or past the end of the known contents and
        // of the size found: an earlier end is an error.
        ensures end { EmptyAtEnd (bytes self.old) (found self.old) at result buf.new }
        // Bytes read before still count as read.
        ensures stays_given { StaysGiven (gave self.old) (gave self.new) }
        // On Ok the bytes from the offset on are at the start of the buffer: the source gave each
        // at its offset.
        ensures read { IfOk result (λ n. GaveAt (gave self.new) at (take n buf.new)) }
        // The count of bytes rises by the number of bytes read, up to the largest u64.
        ensures given { CountsGiven (given self.old) (given self.new) result }
        // An error raises the count of failures, an Ok leaves it.
        ensures count { Counts (failed self.old) (failed self.new) result };

    /// The number of bytes read so far, saturating at the largest `u64`.
    fn given(&self) -> u64
        ensures { result ≡ given self.now };

    /// The number of failed calls, saturating at the largest `u64`.
    fn failures(&self) -> u64
        ensures { result ≡ failed self.now };

    // If the contents are known, the bytes given and the size found are those of the contents.
    ghost agrees: { (s : Self) (b : Bytes) → bytes s ≡ Some b → Agrees b (gave s) (found s) };
}

/// A slice. Its calls never fail.
#[derive(Drop)]
pub struct MemAt<'a> {
    bytes: &'a [u8],
    given: u64,
}

impl<'a> MemAt<'a> {
    /// Makes a source of these bytes, of which none was read yet.
    pub fn new(bytes: &'a [u8]) -> MemAt<'a>
        // Its contents are the slice's bytes.
        ensures bytes { ⟦<MemAt<'a> as ReadAt>⟧.bytes result ≡ Some bytes.now }
        // No byte was read.
        ensures given { ⟦<MemAt<'a> as ReadAt>⟧.given result ≡ 0 }
    {
        MemAt { bytes, given: 0 }
    }
}

impl<'a> ReadAt for MemAt<'a> {
    ghost bytes = { λ s. Some s.bytes.now };

    ghost gave = { λ s at byte. slice_get s.bytes.now at ≡ Some byte };

    ghost found = { λ s. Some (length s.bytes.now) };

    ghost given = { λ s. s.given };

    ghost failed = { λ _. 0 };

    ghost agrees = { Prim.search rules };

    fn size(&mut self) -> Result<u64, DeviceFault> {
        Ok(self.bytes.len() as u64)
    }

    fn read_at(&mut self, at: u64, buf: &mut [u8]) -> Result<usize, DeviceFault> {
        let rest = self.bytes.get(at as usize..).unwrap_or(&[]);
        let n = rest.len().min(buf.len());
        buf[..n].copy_from_slice(&rest[..n]);
        self.given = self.given.saturating_add(n as u64);
        Ok(n)
    }

    fn given(&self) -> u64 {
        self.given
    }

    fn failures(&self) -> u64 {
        0
    }
}

/// A file, or anything else that implements `Read` and `Seek`. Proofs do not know its contents. It
/// keeps the first size that it finds: at an offset below it, a read into a nonempty buffer fails
/// if it gets no byte. A read that begins where the last call, a read, ended does not seek.
#[derive(Drop)]
pub struct FileAt<F> {
    file: F,
    // the file's offset, if it is known
    position: Option<u64>,
    size: Option<u64>,
    given: u64,
    failures: u64,
}

impl<F: Read + Seek> FileAt<F> {
    /// Makes a source over this file, with no byte read and no failure counted.
    pub fn new(file: F) -> FileAt<F>
        // The contents of a file are not known.
        ensures bytes { ⟦<FileAt<F> as ReadAt>⟧.bytes result ≡ None }
        // No size was found yet.
        ensures found { ⟦<FileAt<F> as ReadAt>⟧.found result ≡ None }
        // No byte was read.
        ensures given { ⟦<FileAt<F> as ReadAt>⟧.given result ≡ 0 }
        // No failure is counted.
        ensures count { ⟦<FileAt<F> as ReadAt>⟧.failed result ≡ 0 }
    {
        FileAt {
            file,
            position: None,
            size: None,
            given: 0,
            failures: 0,
        }
    }
}

/// Counts one more failure.
fn count_failure(failures: &mut u64) -> DeviceFault
    ensures { failures.new ≡ min (failures.old + 1) (2 ^ 64 - 1) }
{
    *failures = failures.saturating_add(1);
    DeviceFault
}

/// Reads once from this offset on, after a seek if the file may be at another offset.
fn read_from<F: Read + Seek>(
    file: &mut F,
    position: &mut Option<u64>,
    at: u64,
    buf: &mut [u8],
) -> std::io::Result<usize>
    ensures { ReadsAtMost result buf.new }
{
    if position.take() != Some(at) {
        file.seek(SeekFrom::Start(at))?;
    }
    let n = file.read(buf)?;
    *position = at.checked_add(n as u64);
    Ok(n)
}

impl<F: Read + Seek> ReadAt for FileAt<F> {
    ghost bytes = { λ _. None };

    ghost found = { λ s. s.size };

    ghost given = { λ s. s.given };

    ghost failed = { λ s. s.failures };

    ghost agrees = { Prim.search rules };

    fn size(&mut self) -> Result<u64, DeviceFault> {
        if let Some(size) = self.size {
            return Ok(size);
        }
        self.position = None;
        match self.file.seek(SeekFrom::End(0)) {
            Ok(size) => {
                self.size = Some(size);
                Ok(size)
            }
            Err(_) => Err(count_failure(&mut self.failures)),
        }
    }

    fn read_at(&mut self, at: u64, buf: &mut [u8]) -> Result<usize, DeviceFault> {
        match read_from(&mut self.file, &mut self.position, at, buf) {
            Ok(n) if n > 0 || buf.is_empty() || self.size.is_none_or(|size| size <= at) => {
                self.given = self.given.saturating_add(n as u64);
                Ok(n)
            }
            _ => Err(count_failure(&mut self.failures)),
        }
    }

    fn given(&self) -> u64 {
        self.given
    }

    fn failures(&self) -> u64 {
        self.failures
    }
}
