//! The lines of `salvage` about lost chunks and a damaged file.

use crate::failure::Failure;
use crate::messages::{say, tell};
use crate::work::input_name;
use age_commands::{Report, Unread};
use age_file::{
    CHUNK_SIZE, Fault, Losses, LostChunk, LostRun, Salvaged, SalvagedFile, Saved, Sink, TAG_SIZE,
    join_lost,
};
use age_job::{Bytes, Detail, ERASE, Job, Operation};
use std::alloc::Global;
use std::fmt;

/// A receiver of reports that knows whether something was saved.
pub(crate) trait Saving: Report {
    /// Whether any of the `written` bytes is of a chunk that was saved.
    fn has_saved(&self, written: u64) -> bool;

    /// Receives a failure of the job. `BadChunk` is not printed, because the damage was reported.
    fn fail(&mut self, failure: &Failure<'_>);
}

/// Prints each run of lost chunks when the next run begins or the work ends, and lines on the file.
#[derive(Drop)]
pub(crate) struct LossLines<'a, 'b, E> {
    pub(crate) alloc: Global,
    pub(crate) err: &'a mut E,
    pub(crate) job: &'b Job,
    pub(crate) run: Option<LostRun>,
    /// The number of bytes of all lost chunks.
    pub(crate) lost: u64,
    /// Whether the line on progress may be shown. A line printed here replaces it.
    pub(crate) is_shown: bool,
}

/// Prints nothing: only `salvage` loses chunks.
#[derive(Clone, Copy, Drop)]
pub(crate) struct NoLines;

impl Losses for NoLines {
    ghost use Rattle.std.specs.Prelude.{None};

    ghost lost = { λ _. None };

    fn lose(&mut self, _chunk: LostChunk) {}
}

impl Report for NoLines {
    fn damaged(&mut self, _saved: &SalvagedFile) {}

    fn unread(&mut self, _unread: &Unread) {}
}

impl Saving for NoLines {
    fn has_saved(&self, _written: u64) -> bool {
        false
    }

    fn fail(&mut self, _failure: &Failure<'_>) {}
}

/// A run of lost chunks. Its text follows `agep: ` on standard error.
#[derive(Clone, Copy, Drop)]
struct RunLine(LostRun);

impl fmt::Display for RunLine {
    fn fmt<W: fmt::Write>(&self, f: &mut fmt::Formatter<W>) -> fmt::Result {
        let LostRun {
            first,
            last,
            start,
            end,
        } = self.0;
        let end = end.saturating_sub(1);
        if first == last {
            write!(
                f,
                "chunk {first} is lost: bytes {start} to {end} of the plaintext"
            )
        } else {
            write!(
                f,
                "chunks {first} to {last} are lost: bytes {start} to {end} of the plaintext"
            )
        }
    }
}

impl<'a, 'b, E: Sink> LossLines<'a, 'b, E> {
    fn print<D: fmt::Display>(&mut self, line: &D) {
        let before = if self.is_shown { ERASE } else { "" };
        say(
            self.alloc,
            &format_args!("{before}agep: {line}\n"),
            self.err,
        );
    }

    /// Prints why a chunk that is marked as the last may not be the last.
    fn early(&mut self, chunk: u128, saved: &Salvaged) {
        match saved.last {
            Saved::Early => self.print(&format_args!(
                "chunk {chunk} is empty: only an empty plaintext ends with an empty chunk"
            )),
            Saved::Nothing if saved.before == Saved::Early => self.print(&format_args!(
                "up to {TAG_SIZE} bytes follow chunk {chunk}, which is the last"
            )),
            _ => self.print(&format_args!(
                "chunk {chunk} is marked as the last, and more follows: bytes after the end, \
                 or another file"
            )),
        }
    }

    /// Prints why the end of the file may not be the end of what was encrypted.
    fn end_of(&mut self, saved: &Salvaged) {
        let number = saved.chunks.saturating_sub(1);
        match (saved.before, saved.last) {
            (_, Saved::Padded(padding)) => {
                self.print(&format_args!("chunk {number} is the last; bytes after it: {padding}"));
            }
            (_, Saved::Zeros) if saved.early.is_none() => {
                let len = saved.bytes.saturating_sub(1) % CHUNK_SIZE as u128 + 1 + TAG_SIZE as u128;
                self.print(&format_args!(
                    "the file ends after {len} bytes of chunk {number}: more may be missing"
                ));
            }
            (Saved::Zeros, Saved::Nothing) if saved.early.is_none() => {
                let number = number.saturating_sub(1);
                self.print(&format_args!(
                    "up to {TAG_SIZE} bytes follow chunk {number}: more may be missing"
                ));
            }
            _ => {}
        }
    }

    /// Prints the run of lost chunks that is not printed yet, if there is one.
    fn end(&mut self) {
        if let Some(run) = self.run {
            self.run = None;
            self.print(&RunLine(run));
        }
    }
}

impl<'a, 'b, E: Sink> Losses for LossLines<'a, 'b, E> {
    ghost use Rattle.std.specs.Prelude.{None};

    ghost lost = { λ _. None };

    fn lose(&mut self, chunk: LostChunk) {
        self.lost = self.lost.saturating_add(chunk.len as u64);
        if chunk.start.checked_add(chunk.len as u128).is_none() {
            return;
        }
        if let Some(run) = join_lost(&mut self.run, chunk) {
            self.print(&RunLine(run));
        }
    }
}

impl<'a, 'b, E: Sink> Report for LossLines<'a, 'b, E> {
    fn damaged(&mut self, saved: &SalvagedFile) {
        self.end();
        if !saved.has_right_mac {
            self.print(&"the header was changed: the chunks were tried with the key that fits");
        }
        let payload = saved.payload;
        if let Some(early) = payload.early {
            self.early(early, &payload);
        }
        if payload.is_cut() {
            let bytes = payload.bytes;
            self.print(&format_args!(
                "the file is cut short: the plaintext from byte {bytes} on is missing"
            ));
        }
        self.end_of(&payload);
    }

    fn unread(&mut self, unread: &Unread) {
        self.end();
        let Unread {
            first,
            bytes,
            reason,
        } = *unread;
        let detail = Detail::System(Operation::Reading, input_name(self.job), reason);
        let were = if bytes == 1 { "was" } else { "were" };
        let bytes = Bytes(bytes as u128);
        self.print(&format_args!("{detail}; {bytes} {were} left out, the first at byte {first}"));
    }
}

impl<'a, 'b, E: Sink> Saving for LossLines<'a, 'b, E> {
    fn has_saved(&self, written: u64) -> bool {
        self.lost < written
    }

    fn fail(&mut self, failure: &Failure<'_>) {
        self.end();
        if !matches!(failure, Failure::AgeFile(Fault::BadChunk(_), _)) {
            tell(self.alloc, self.job, failure, self.err);
        }
    }
}
