//! The sink of a command's output.
ghost use Rattle.std.specs.Prelude.{◌≡◌, ◌⊎◌, ◌+◌, ◌-◌, ◌^◌, min, Err};
ghost use Rattle.age_header.specs.Device.{CountsIf};
ghost use Rattle.age_file.specs.Device.{is_write};
ghost use Rattle.age_commands.specs.Output.{Ends};

use age_file::{DeviceFault, Fault, Sink};
use std::io;
use std::io::Write;
use std::marker::{Brand, PhantomData};

/// The ghost name of a sink's reference to its writer. The clauses of `Sink` do not mention it, so
/// after generic code only this name shows that the sink still has the same writer.
pub trait Borrowed {
    ghost use Rattle.std.specs.Prelude.{ℕ};

    ghost name: { ℕ };
}

impl Borrowed for Brand {
    ghost name = { 0 };
}

/// A sink over a writer. It keeps the reason of the last failed write, and does not retry a write.
#[derive(Drop)]
pub struct WatchedSink<'a, W, K: Borrowed> {
    pub writer: &'a mut W,
    failures: u64,
    /// Why the last failed write failed, if the system said so.
    pub reason: Option<io::Error>,
    borrowed: PhantomData<K>,
    ghost same: { writer.ghost_name ≡ K.name },
}

impl<'a, W: Write, K: Borrowed> WatchedSink<'a, W, K> {
    /// Makes a sink to this writer.
    pub fn new(writer: &'a mut W) -> WatchedSink<'a, W, K>
        requires { K.name ≡ writer.ghost_name }
        // The writer is unchanged.
        ensures { result.writer.now ≡ writer.old }
    {
        WatchedSink {
            writer,
            failures: 0,
            reason: None,
            borrowed: PhantomData,
        }
    }

    /// Flushes the writer after work with this result, unless that is a failed write. So verified
    /// chunks arrive even after a fault. If the flush fails, returns `Write` instead of the result.
    pub fn finish(&mut self, work: Result<(), Fault>) -> Result<(), Fault>
        ensures ends { Ends (W.contents self.old.writer.now) (W.contents self.new.writer.now) work
            result }
        // A failed flush is counted as a failed write. If the work did not end with a failed
        // write, `Write` is returned only for such a flush.
        ensures counted { (work ≡ Err Fault.Write)
            ⊎ CountsIf is_write self.old.failures self.new.failures result }
    {
        if let Err(Fault::Write) = work {
            return work;
        }
        match self.writer.flush() {
            Ok(()) => work,
            Err(reason) => {
                self.fail(Some(reason));
                Err(Fault::Write)
            }
        }
    }

    /// Counts a failed write, and keeps its reason.
    fn fail(&mut self, reason: Option<io::Error>) -> DeviceFault
        ensures writer { self.new.writer.now ≡ self.old.writer.now }
        ensures count { self.new.failures ≡ min (self.old.failures + 1) (2 ^ 64 - 1) }
    {
        self.failures = self.failures.saturating_add(1);
        self.reason = reason;
        DeviceFault
    }
}

impl<'a, W: Write, K: Borrowed> Sink for WatchedSink<'a, W, K> {
    ghost failed = { λ s. s.failures };

    ghost taken = { λ s. W.contents s.writer.now };

    fn write(&mut self, piece: &[u8]) -> Result<usize, DeviceFault> {
        match self.writer.write(piece) {
            Ok(n) if n > 0 || piece.is_empty() => Ok(n),
            Ok(_) => Err(self.fail(None)),
            Err(reason) => Err(self.fail(Some(reason))),
        }
    }

    fn failures(&self) -> u64 {
        self.failures
    }
}
