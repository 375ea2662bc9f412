//! A reader and a writer of std that fail.

use std::io::{self, ErrorKind, Read, Write};

/// Gives two bytes at the first read, fails at the second, and is at its end from the third on.
#[derive(Drop)]
pub(crate) struct Torn {
    pub(crate) reads: u8,
}

impl Read for Torn {
    fn read(&mut self, buf: &mut [u8]) -> io::Result<usize> {
        self.reads = self.reads.saturating_add(1);
        match self.reads {
            1 => {
                let count = buf.len().min(2);
                buf[..count].copy_from_slice(&b"ab"[..count]);
                Ok(count)
            }
            2 => Err(io::Error::from(ErrorKind::BrokenPipe)),
            _ => Ok(0),
        }
    }
}

/// Takes at most three bytes at a write. The second write fails, the third takes nothing, and the second flush fails.
#[derive(Drop)]
pub(crate) struct Blocked {
    pub(crate) writes: u8,
    pub(crate) flushes: u8,
}

impl Write for Blocked {
    fn write(&mut self, buf: &[u8]) -> io::Result<usize> {
        self.writes = self.writes.saturating_add(1);
        match self.writes {
            2 => Err(io::Error::from(ErrorKind::BrokenPipe)),
            3 => Ok(0),
            _ => Ok(buf.len().min(3)),
        }
    }

    fn flush(&mut self) -> io::Result<()> {
        self.flushes = self.flushes.saturating_add(1);
        if self.flushes == 2 {
            return Err(io::Error::from(ErrorKind::BrokenPipe));
        }
        Ok(())
    }
}
