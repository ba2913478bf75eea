//! Devices over a reader or a writer. A failed call is counted once and not repeated, even if it
//! was interrupted or would have blocked.

use age_header::{ReadSource, Sink, Source, WriteSink, write_all};
use std::io;
use std::io::{ErrorKind, Read, Write};

/// The first call fails, or, if `error` is `None`, a first write takes nothing; the rest succeed.
#[derive(Drop)]
struct Late {
    error: Option<ErrorKind>,
    bytes: Vec<u8>,
    calls: u64,
}

impl Late {
    fn call(&mut self) -> io::Result<bool> {
        self.calls = self.calls.saturating_add(1);
        match self.error {
            Some(kind) if self.calls == 1 => Err(io::Error::from(kind)),
            _ => Ok(self.calls > 1),
        }
    }
}

impl Read for Late {
    fn read(&mut self, buf: &mut [u8]) -> io::Result<usize> {
        self.call()?;
        self.bytes.as_slice().read(buf)
    }
}

impl Write for Late {
    fn write(&mut self, piece: &[u8]) -> io::Result<usize> {
        if !self.call()? {
            return Ok(0);
        }
        self.bytes.write(piece)
    }

    fn flush(&mut self) -> io::Result<()> {
        Ok(())
    }
}

#[test]
fn failed_read_is_not_retried(rt: HostRuntime) {
    for kind in [ErrorKind::Interrupted, ErrorKind::WouldBlock] {
        let mut source = ReadSource::new(Late {
            error: Some(kind),
            bytes: Vec::from_slice(rt.alloc(), b"abc").expect(&rt, "memory"),
            calls: 0,
        });
        let mut buf = [0; 4];
        assert!(rt; source.read(&mut buf).is_err());
        assert_eq!(rt; source.failures(), 1);
        assert_eq!(rt; source.read(&mut buf), Ok(3));
        assert_eq!(rt; source.failures(), 1);
        assert_eq!(rt; source.into_inner().calls, 2);
    }
}

#[test]
fn failed_write_is_not_retried(rt: HostRuntime) {
    for error in [
        Some(ErrorKind::Interrupted),
        Some(ErrorKind::WouldBlock),
        None,
    ] {
        let mut sink = WriteSink::new(Late {
            error,
            bytes: Vec::new(rt.alloc()),
            calls: 0,
        });
        assert!(rt; write_all(&mut sink, b"abc").is_err());
        assert_eq!(rt; sink.failures(), 1);
        assert!(rt; write_all(&mut sink, b"abc").is_ok());
        let writer = sink.into_inner();
        assert_eq!(rt; writer.calls, 2);
        assert_eq!(rt; writer.bytes.as_slice(), b"abc".as_slice());
    }
}
