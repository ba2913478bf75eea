//! A source that continues after bytes that cannot be read.
ghost use Rattle.std.specs.Prelude.{◌≡◌, ◌≤◌, ◌<◌, ◌+◌, ◌-◌, ◌^◌, ◌⊎◌, []};
ghost use Rattle.std.specs.Prelude.{None, Some, true, min, IfSome, length, replicate, take};
ghost use Rattle.std.specs.Io.Buffered.{reader_inner};
ghost use Rattle.age_header.specs.Device.{Known};
ghost use Rattle.age_commands.specs.Skipping.{HasFailed, HasRead, come_by, is_end, unread_len};

use age_file::{DeviceFault, NONCE_SIZE, Source};
use age_job::Input;
use std::io;
use std::io::{BufReader, ErrorKind, Read, Seek, SeekFrom};
use std::marker::{Brand, PhantomData};

/// For proofs, what a reader holds at its start, and its count of failed reads then. It relates
/// what a `SkippingSource` has returned to what its reader held.
pub(crate) trait Begun {
    ghost use Rattle.std.specs.Prelude.{ℕ};

    ghost start: { Known };

    ghost failed: { ℕ };
}

impl Begun for Brand {
    ghost start = { None };

    ghost failed = { 0 };
}

/// The bytes of a file for which zeros were returned, because a read failed in their chunk.
#[derive(Clone, Copy, Drop)]
pub struct Unread {
    /// The offset of the first.
    pub first: u64,
    /// Their number.
    pub bytes: u64,
    /// Why the last of these reads failed.
    pub reason: io::Error,
}

/// How far a source has read.
#[derive(Clone, Copy, Drop, PartialEq, Eq)]
pub(crate) enum Reached {
    /// It has returned the bytes up to some offset, each as it was read.
    Place,
    /// The same up to the end of the file.
    End,
    /// A read failed.
    Failure,
}

/// A source over a reader. If it skips, it continues after a read of a chunk that failed, but was
/// not interrupted: it returns zeros for the rest of the chunk, or as much of it as the file has.
#[derive(Drop)]
pub(crate) struct SkippingSource<'a, R, K: Begun> {
    reader: BufReader<&'a mut R>,
    /// The reader's count of failed reads at its start.
    failed: u64,
    failures: u64,
    /// Whether it continues after a failed read.
    skips: bool,
    /// Whether a chunk was requested: a header and its nonce are read with shorter buffers.
    is_at_chunks: bool,
    reached: Reached,
    unread: Option<Unread>,
    begun: PhantomData<K>,
    ghost counted: { failed ≡ K.failed },
}

impl<'a, R: Input, K: Begun> SkippingSource<'a, R, K> {
    /// Makes a source over this reader, which is at its start. If `skips`, it continues after
    /// failed reads of chunks.
    pub(crate) fn new(reader: BufReader<&'a mut R>, skips: bool) -> SkippingSource<'a, R, K>
        requires start { K.start ≡ ⟦<BufReader<&'a mut R> as Read>⟧.remaining reader }
        requires failed { K.failed ≡ R.failed (reader_inner reader).now }
        ensures to_come { ⟦<SkippingSource<'a, R, K> as Source>⟧.to_come result
            ≡ come_by skips (⟦<BufReader<&'a mut R> as Read>⟧.remaining reader.entry) }
        ensures gave { ⟦<SkippingSource<'a, R, K> as Source>⟧.gave result [] }
    {
        let failed = reader.get_ref().failures();
        SkippingSource {
            reader,
            failed,
            failures: 0,
            skips,
            is_at_chunks: false,
            reached: Reached::Place,
            unread: None,
            begun: PhantomData,
        }
    }

    /// Whether all bytes were read, up to the end.
    pub(crate) fn is_read(&self) -> bool
        ensures { result ≡ is_end self.now.reached }
    {
        self.reached == Reached::End
    }

    /// The bytes for which zeros were returned, if there are any.
    pub(crate) fn unread(&self) -> Option<Unread>
        ensures { result ≡ self.now.unread }
    {
        self.unread
    }

    /// Continues after a read that failed for this reason, if it may: writes zeros into the buffer,
    /// counts the bytes for which they stand, and returns their number.
    fn skip(&mut self, buf: &mut [u8], reason: io::Error) -> Option<usize>
        ensures zeros { IfSome result
            (λ n. (n ≤ length buf.new) × (take n buf.new ≡ replicate n 0)) }
        ensures noted { IfSome result (λ n. unread_len self.new.unread
            ≡ min (unread_len self.old.unread + n) (2 ^ 64 - 1)) }
        ensures reached { self.new.reached ≡ Reached.Failure }
        // Only a source that skips moves the reader, and only if the reader counted a failed read.
        ensures moved { (self.new.reader ≡ self.old.reader)
            ⊎ ((self.old.skips ≡ true) × HasFailed R.failed K.failed) }
        ensures stays { (self.new.skips ≡ self.old.skips)
            × (self.new.failures ≡ self.old.failures) }
        // Only a source that skips continues, and only if the reader counted a failed read.
        ensures may { IfSome result
            (λ _. (self.old.skips ≡ true) × HasFailed R.failed K.failed) }
    {
        self.reached = Reached::Failure;
        if !self.skips || !self.is_at_chunks || reason.kind() == ErrorKind::Interrupted {
            return None;
        }
        if self.reader.get_ref().failures() <= self.failed {
            return None;
        }
        let (at, n) = pass_over(&mut self.reader, buf)?;
        let (first, bytes) = match self.unread {
            Some(before) => (before.first, before.bytes),
            None => (at, 0),
        };
        let bytes = bytes.saturating_add(n as u64);
        self.unread = Some(Unread {
            first,
            bytes,
            reason,
        });
        Some(n)
    }
}

/// Writes zeros into the buffer in place of the bytes at which a read failed, and moves the reader
/// past them. Returns the offset of the first and their number. Leaves the last byte of the buffer,
/// unless it is the only one, because a chunk is read together with the first byte of the next.
/// Returns `None` at the end of the file, for an empty buffer, or if the reader cannot seek.
fn pass_over<R: Seek>(reader: &mut R, buf: &mut [u8]) -> Option<(u64, usize)>
    ensures zeros { IfSome result
        (λ r. (r.1 ≤ length buf.new) × (take r.1 buf.new ≡ replicate r.1 0)) }
    // The zeros end within the file, and the reader is then at the offset after them.
    ensures within { IfSome (R.stream_position reader.old) (λ at. IfSome (R.stream_bytes reader.old)
        (λ bytes. IfSome result (λ r. (r.0 ≡ at) × (0 < r.1) × (at + r.1 ≤ length bytes)
        × (R.stream_position reader.new ≡ Some (at + r.1))))) }
{
    let at = reader.stream_position().ok()?;
    let end = reader.seek(SeekFrom::End(0)).ok()?;
    let most = buf.len().saturating_sub(1).max(1).min(buf.len());
    let n = end.saturating_sub(at).min(most as u64) as usize;
    if n == 0 {
        return None;
    }
    reader
        .seek(SeekFrom::Start(at.saturating_add(n as u64)))
        .ok()?;
    let (zeros, _) = buf.split_at_mut(n);
    zeros.fill(0);
    Some((at, n))
}

impl<'a, R: Input, K: Begun> Source for SkippingSource<'a, R, K> {
    ghost failed = { λ s. s.failures };

    ghost to_come = { λ s. come_by s.skips (⟦<BufReader<&'a mut R> as Read>⟧.remaining s.reader) };

    ghost gave = { λ s past. HasRead s.reached (HasFailed R.failed K.failed) K.start
        (⟦<BufReader<&'a mut R> as Read>⟧.remaining s.reader) past };

    #[tactic(auto, using(crate::proofs::SalvageLemmas::read_more))]
    fn read(&mut self, buf: &mut [u8]) -> Result<usize, DeviceFault> {
        if buf.len() > NONCE_SIZE {
            self.is_at_chunks = true;
        }
        match self.reader.read(buf) {
            Ok(n) => {
                if self.reached != Reached::Failure {
                    let is_end = n == 0 && !buf.is_empty();
                    self.reached = if is_end { Reached::End } else { Reached::Place };
                }
                Ok(n)
            }
            Err(reason) => {
                if let Some(n) = self.skip(buf, reason) {
                    return Ok(n);
                }
                self.failures = self.failures.saturating_add(1);
                Err(DeviceFault)
            }
        }
    }

    fn failures(&self) -> u64 {
        self.failures
    }
}
