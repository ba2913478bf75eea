//! The line at a terminal that shows how much of IN was read.
use crate::inode::{Inode, Kind};
use crate::job::Job;
use crate::system_file::SystemFile;
use std::fs::OpenOptions;
use std::io::{IsTerminal, Write};
use std::rt::{Env, Files};
use std::time::Clock;
use std::{fmt, io};

/// The number of bytes after which the clock is read again.
const STRIDE: u64 = 65_536;

/// The number of first looks at the clock that restart the measuring of the rate, because scrypt
/// may run before the first read, or after the header was read.
const FIRST_LOOKS: u32 = 2;

/// The least number of milliseconds between two drawings of the line.
const PAUSE: u128 = 500;

/// Moves to the start of the line, and erases it.
pub const ERASE: &str = "\r\x1b[K";

/// Makes the terminal drop what follows the last column of the line.
const CUT: &str = "\x1b[?7l";

/// Makes the terminal continue after the last column in the next line.
const WRAP: &str = "\x1b[?7h";

/// The size in bytes of the buffer for a drawing. The longest drawing is shorter.
const MAX_DRAWN: usize = 256;

/// Whether to show how much was read: with `--verbose`, if standard error is a terminal that can
/// erase a line, and the output cannot go to a terminal.
pub fn shows_progress<F: Files + Env, W: IsTerminal>(rt: &F, job: &Job, out: &W) -> bool
where
    F::File: SystemFile,
{
    if !job.verbose || is_dumb(rt) || !matches!(terminal(rt), Ok(file) if file.is_terminal()) {
        return false;
    }
    match &job.output {
        Some(name) => !may_be_terminal(rt, name.as_str()),
        None => !out.is_terminal(),
    }
}

/// Opens standard error once more, for the line. The stream itself is for the messages.
fn terminal<F: Files>(rt: &F) -> io::Result<F::File> {
    OpenOptions::new().write(true).open(rt, "/dev/stderr")
}

/// Whether this is the name of a character device other than `/dev/null`. Such a device may be a
/// terminal; the standard library says only of an open file whether it is a terminal.
fn may_be_terminal<F: Files>(rt: &F, name: &str) -> bool {
    match (Inode::at(rt, name), Inode::at(rt, "/dev/null")) {
        (Ok(out), Ok(null)) => out.kind == Kind::CharDevice && !out.is(&null),
        (Ok(out), Err(_)) => out.kind == Kind::CharDevice,
        (Err(_), _) => false,
    }
}

/// Whether the environment says that the terminal has no escape sequences.
fn is_dumb<F: Env>(rt: &F) -> bool {
    let mut name = [0u8; 4];
    matches!(rt.var("TERM", &mut name), Ok(4)) && name == *b"dumb"
}

/// A line at a terminal. It is erased when it is dropped.
pub struct Line<'a, C: Clock, T: Write + Drop> {
    clock: &'a C,
    terminal: T,
    portion: Portion,
    looks: u32,
    /// The times in milliseconds of the start and of the last drawing after it (or of the start).
    started: u128,
    drawn: u128,
    /// The number of bytes read before the start.
    before: u64,
    /// Whether something is drawn.
    is_drawn: bool,
    /// The number of bytes after which the clock is read.
    next: u64,
}

/// The number of bytes read, the number in all if it is known, and the number each second.
#[derive(Clone, Copy)]
struct Portion {
    done: u64,
    size: Option<u64>,
    rate: u128,
}

impl<'a, F: Files + Clock> Line<'a, F, F::File> {
    /// The line for a reader that returns `size` bytes, if that is known. Standard error must be
    /// the terminal. With a passphrase, first says that a key is made, because scrypt takes time.
    pub(crate) fn of(rt: &'a F, job: &Job, size: Option<u64>) -> Option<Line<'a, F, F::File>> {
        let started = rt.monotonic().ok()?.as_millis();
        let (done, rate) = (0, 0);
        let mut line = Line {
            clock: rt,
            terminal: terminal(rt).ok()?,
            portion: Portion { done, size, rate },
            looks: 0,
            started,
            drawn: started,
            before: 0,
            is_drawn: false,
            next: STRIDE,
        };
        if job.pass.is_some() || job.new_pass.is_some() {
            line.draw(&"agep: making a key from the passphrase");
        }
        Some(line)
    }
}

impl<C: Clock, T: Write + Drop> Line<'_, C, T> {
    /// Adds this many bytes to those read, and draws the line again if it is due.
    pub(crate) fn add(&mut self, len: usize) {
        self.portion.done = self.portion.done.saturating_add(len as u64);
        if self.portion.done < self.next {
            return;
        }
        self.next = self.portion.done.saturating_add(STRIDE);
        if let Ok(now) = self.clock.monotonic() {
            let now = now.as_millis();
            self.looks = self.looks.saturating_add(1);
            if self.looks <= FIRST_LOOKS {
                (self.started, self.drawn, self.before) = (now, now, self.portion.done);
            } else if now.saturating_sub(self.drawn) >= PAUSE {
                self.drawn = now;
                let took = now.saturating_sub(self.started);
                let read = self.portion.done.saturating_sub(self.before) as u128;
                self.portion.rate = read.saturating_mul(1000).checked_div(took).unwrap_or(0);
                let portion = self.portion;
                self.draw(&portion);
            }
        }
    }

    /// Draws the line, cut at the width of the terminal, in one write, so that no interrupt leaves
    /// the terminal cutting lines. Ignores a failed write.
    fn draw<D: fmt::Display>(&mut self, text: &D) {
        self.is_drawn = true;
        let mut drawn = [0u8; MAX_DRAWN];
        let mut room = &mut drawn[..];
        if write!(room, "{ERASE}{CUT}{text}{WRAP}").is_ok() {
            let len = MAX_DRAWN.saturating_sub(room.len());
            let _ = self.terminal.write_all(&drawn[..len]);
        }
    }
}

impl<C: Clock, T: Write + Drop> Drop for Line<'_, C, T> {
    fn drop(mut self) {
        if self.is_drawn {
            let _ = self.terminal.write_all(ERASE.as_bytes());
        }
        let Line {
            clock: _,
            terminal: _,
            portion: _,
            looks: _,
            started: _,
            drawn: _,
            before: _,
            is_drawn: _,
            next: _,
        } = self;
    }
}

impl fmt::Display for Portion {
    fn fmt<W: fmt::Write>(&self, f: &mut fmt::Formatter<W>) -> fmt::Result {
        let (done, rate) = (Amount(self.done as u128), Amount(self.rate));
        let Some(size) = self.size else {
            return write!(f, "agep: {done}, {rate}/s");
        };
        let left = (size.saturating_sub(self.done) as u128).checked_div(self.rate);
        let size = Amount(size as u128);
        write!(f, "agep: {done} of {size}, {rate}/s")?;
        match left {
            Some(left) => write!(f, ", {left} s left"),
            None => Ok(()),
        }
    }
}

/// A number of bytes, in KiB or MiB.
#[derive(Clone, Copy)]
struct Amount(u128);

impl fmt::Display for Amount {
    fn fmt<W: fmt::Write>(&self, f: &mut fmt::Formatter<W>) -> fmt::Result {
        let amount = self.0 >> 10;
        if amount < 10_240 {
            write!(f, "{amount} KiB")
        } else {
            let amount = amount >> 10;
            write!(f, "{amount} MiB")
        }
    }
}
