//! The input of a command, with what messages about it need.
ghost use Rattle.std.specs.Prelude.{◌≡◌, ◌+◌, ◌-◌, ◌^◌, None, min, MatchResult};
ghost use Rattle.std.specs.Io.{ReadsAtMost};
ghost use Rattle.std.specs.Io.KnownBytes.{ReadConsumes};

use crate::files::ReadFiles;
use crate::job::Job;
use crate::progress::Line;
use crate::secret::begins_with_mark;
use std::io;
use std::io::{ErrorKind, Read, Seek, SeekFrom, Write};
use std::rt::Files;
use std::time::Clock;

/// A reader that counts its failed reads, so that clauses can speak of them, and keeps what
/// messages need.
pub trait Input: Read + Seek {
    ghost use Rattle.std.specs.Prelude.{ℕ};

    // The number of failed reads, saturating at the largest `u64`.
    ghost failed: { Self → ℕ };

    /// The number of failed reads, saturating at the largest `u64`.
    fn failures(&self) -> u64
        ensures { result ≡ failed self.now };

    /// The reason of the last failed read or seek.
    fn reason(&self) -> Option<io::Error>;

    /// What the bytes of the first read that succeeded show; before that, `Other`.
    fn front(&self) -> Front;
}

/// A reader that counts its failed reads, and shows how much was read.
#[derive(Drop)]
pub struct Watched<'a, R, C: Clock, T: Write + Drop> {
    pub reader: R,
    failures: u64,
    reason: Option<io::Error>,
    /// What the bytes of the first read show.
    front: Option<Front>,
    line: Option<Line<'a, C, T>>,
}

/// What the first bytes of a file show, if it is not an age file.
#[derive(Clone, Copy, PartialEq, Eq)]
pub enum Front {
    Empty,
    Armor,
    /// It begins as the files of `openssl enc` do.
    OpenSsl,
    ByteOrderMark,
    /// It begins as the files of gpg do.
    Gpg,
    Other,
}

/// A reader that cannot be read at offsets, such as standard input.
#[derive(Drop)]
pub struct Pipe<'a, R>(pub &'a mut R);

impl<R: Read> Read for Pipe<'_, R> {
    ghost remaining = { λ pipe. R.remaining pipe.0.now };

    fn read(&mut self, buf: &mut [u8]) -> io::Result<usize> {
        self.0.read(buf)
    }
}

impl<R> Seek for Pipe<'_, R> {
    fn seek(&mut self, _pos: SeekFrom) -> io::Result<u64> {
        Err(io::Error::from(ErrorKind::NotSeekable))
    }
}

impl<'a, R, F: Files + Clock> Watched<'a, R, F, F::File> {
    /// Watches the reader of IN. IN must have been added to `read`, and the reader must be at its
    /// first byte. If `is_shown`, standard error must be the terminal.
    pub fn new(
        rt: &'a F,
        job: &Job,
        read: &ReadFiles<'_>,
        reader: R,
        is_shown: bool,
    ) -> Watched<'a, R, F, F::File>
        // Reading from the result is reading from this reader.
        ensures reader { result.reader ≡ reader }
        // No read has failed, and nothing was read.
        ensures start { (result.failures ≡ 0) × (result.reason ≡ None) × (result.front ≡ None) }
    {
        Watched {
            reader,
            failures: 0,
            reason: None,
            front: None,
            line: if is_shown {
                Line::of(rt, job, read.input_size(job.command))
            } else {
                None
            },
        }
    }
}

// Reading returns the bytes of IN. A failed read does not count as the end.
impl<R: Read, C: Clock, T: Write + Drop> Read for Watched<'_, R, C, T> {
    ghost remaining = { λ watched. R.remaining watched.reader };

    fn read(&mut self, buf: &mut [u8]) -> io::Result<usize>
        ensures bound { ReadsAtMost result buf.new }
        // On Ok the buffer has the reader's next bytes. On an error the reader still has them.
        ensures bytes { ReadConsumes (R.remaining self.old.reader) (R.remaining self.new.reader)
            result buf.new }
        // A failed read raises the count, up to 2^64 - 1. On Ok the count is unchanged.
        ensures count { MatchResult result (λ _. self.new.failures ≡ self.old.failures)
            (λ _. self.new.failures ≡ min (self.old.failures + 1) (2 ^ 64 - 1)) }
    {
        match self.reader.read(buf) {
            Ok(n) => {
                if self.front.is_none() {
                    self.front = Some(Front::of(&buf[..n]));
                }
                if let Some(line) = &mut self.line {
                    line.add(n);
                }
                Ok(n)
            }
            Err(reason) => {
                self.failures = self.failures.saturating_add(1);
                self.reason = Some(reason);
                Err(reason)
            }
        }
    }
}

impl<R: Read + Seek, C: Clock, T: Write + Drop> Input for Watched<'_, R, C, T> {
    ghost failed = { λ watched. watched.failures };

    fn failures(&self) -> u64 {
        self.failures
    }

    fn reason(&self) -> Option<io::Error> {
        self.reason
    }

    fn front(&self) -> Front {
        self.front.unwrap_or(Front::Other)
    }
}

impl<R: Seek, C: Clock, T: Write + Drop> Seek for Watched<'_, R, C, T> {
    fn seek(&mut self, pos: SeekFrom) -> io::Result<u64>
        // A seek is not a read: it leaves the count unchanged, even if it fails.
        ensures count { self.new.failures ≡ self.old.failures }
    {
        match self.reader.seek(pos) {
            Ok(at) => Ok(at),
            Err(reason) => {
                self.reason = Some(reason);
                Err(reason)
            }
        }
    }
}

impl Front {
    fn of(bytes: &[u8]) -> Front {
        if bytes.is_empty() {
            Front::Empty
        } else if bytes.starts_with(b"-----BEGIN AGE") {
            Front::Armor
        } else if bytes.starts_with(b"Salted__") {
            Front::OpenSsl
        } else if begins_with_mark(bytes) {
            Front::ByteOrderMark
        } else if is_of_gpg(bytes) {
            Front::Gpg
        } else {
            Front::Other
        }
    }

    pub(crate) fn words(self) -> &'static str {
        match self {
            Front::Empty => "the file is empty",
            Front::Armor => "it begins with ASCII armor; age decrypts such a file",
            Front::OpenSsl => "it begins as files of openssl enc do, which decrypts them",
            Front::ByteOrderMark => "it begins with a byte-order mark",
            Front::Gpg => "it begins as files of gpg do, which decrypts them",
            Front::Other => "",
        }
    }
}

/// Whether a file begins as those of gpg do: with armor, or with a packet of OpenPGP that has an
/// encrypted session key, by a public key or a passphrase.
fn is_of_gpg(bytes: &[u8]) -> bool {
    bytes.starts_with(b"-----BEGIN PGP")
        || matches!(bytes.first(), Some(0x84..=0x86 | 0x8c..=0x8e | 0xc1 | 0xc3))
}
