//! Calls `run` with a writer that records each flush.

use age_cli::{SystemFile, WriteSink, run};
use std::io;
use std::io::{ErrorKind, IsTerminal, Write};
use std::process::Abort;
use std::rt::{Env, Files};
use std::time::Clock;

/// A header of one stanza.
const HEADER: &[u8] =
    b"age-encryption.org/v1\n-> a\n\n--- AAAAAAAAAAAAAAAAAAAAAAAAAAAAAAAAAAAAAAAAAAA\n";
/// A header cut short within its version line.
const CUT: &[u8] = b"age-enc";

/// Keeps the bytes written, and their number at each flush; or refuses every flush.
#[derive(Drop)]
struct Buffered {
    taken: Vec<u8>,
    flushed: Vec<usize>,
    refuses: bool,
}

impl Write for Buffered {
    fn write(&mut self, piece: &[u8]) -> io::Result<usize> {
        self.taken.write(piece)
    }

    fn flush(&mut self) -> io::Result<()> {
        if self.refuses || self.flushed.push(self.taken.len()).is_err() {
            return Err(io::Error::from(ErrorKind::Other));
        }
        Ok(())
    }
}

impl IsTerminal for Buffered {
    fn is_terminal(&self) -> bool {
        false
    }
}

/// Runs `words` on `input`: expects `len` bytes of output, if given, then one flush, and `status`.
/// If flushes fail, expects status 1, and no message but that of a failed write.
fn expect_flushed<F: Files + Clock + Env + AllocGlobal + Abort>(
    rt: &F,
    words: &[&str],
    input: &[u8],
    (status, len): (u8, Option<usize>),
)
where
    F::File: SystemFile,
{
    for refuses in [false, true] {
        let alloc = rt.alloc();
        let mut out = Buffered {
            taken: Vec::new(alloc),
            flushed: Vec::new(alloc),
            refuses,
        };
        let mut err = WriteSink::new(Buffered {
            taken: Vec::new(alloc),
            flushed: Vec::new(alloc),
            refuses: false,
        });
        let mut input = input;
        let ended = run(rt, words, &mut input, &mut out, &mut err);
        let err = err.into_inner();
        if let Some(len) = len {
            assert_eq!(rt; out.taken.len(), len);
        }
        if refuses {
            assert_eq!(rt; ended, 1);
            assert_eq!(rt; err.taken.as_slice(), b"agep: write failed\n".as_slice());
        } else {
            assert_eq!(rt; ended, status);
            assert_eq!(rt; out.flushed.as_slice(), [out.taken.len()].as_slice());
        }
    }
}

#[test]
fn output_is_flushed_once_at_its_end(rt: HostRuntime) {
    let raw = ["agep", "inspect", "-r"];
    expect_flushed(&rt, &raw, HEADER, (0, Some(HEADER.len())));
    expect_flushed(&rt, &raw, CUT, (1, Some(0)));
    expect_flushed(&rt, &["agep", "--help"], b"", (0, None));
}
