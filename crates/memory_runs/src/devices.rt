//! A reader and a writer over arrays, which take no memory.
use std::io;
use std::io::{ErrorKind, Read, Write};

/// A reader of bytes, which may fail at its first read.
#[derive(Drop)]
pub(crate) struct Source<'a> {
    left: &'a [u8],
    fails: bool,
}

impl<'a> Source<'a> {
    pub(crate) fn new(bytes: &'a [u8]) -> Self {
        Source {
            left: bytes,
            fails: false,
        }
    }

    pub(crate) fn failing() -> Self {
        Source {
            left: &[],
            fails: true,
        }
    }
}

impl Read for Source<'_> {
    fn read(&mut self, buf: &mut [u8]) -> io::Result<usize> {
        if self.fails {
            return Err(io::Error::from(ErrorKind::BrokenPipe));
        }
        let n = buf.len().min(self.left.len());
        let (front, rest) = self.left.split_at(n);
        buf[..n].copy_from_slice(front);
        self.left = rest;
        Ok(n)
    }
}

/// The bytes that a writer has taken.
#[derive(Drop)]
pub(crate) struct Written {
    bytes: [u8; 1024],
    count: usize,
}

impl Written {
    pub(crate) fn new() -> Self {
        Written {
            bytes: [0; 1024],
            count: 0,
        }
    }

    pub(crate) fn count(&self) -> usize {
        self.count
    }

    /// The text of these bytes without the LF at its end, or None where they are none.
    pub(crate) fn text(&self) -> Option<&str> {
        let text = str::from_utf8(self.bytes.get(..self.count)?).ok()?;
        text.strip_suffix('\n')
    }
}

/// A writer that takes so many bytes, and then fails.
#[derive(Drop)]
pub(crate) struct Sink<'a> {
    written: &'a mut Written,
    limit: usize,
}

impl<'a> Sink<'a> {
    pub(crate) fn new(written: &'a mut Written, limit: usize) -> Self {
        Sink { written, limit }
    }
}

impl Write for Sink<'_> {
    fn write(&mut self, buf: &[u8]) -> io::Result<usize> {
        let from = self.written.count;
        let n = buf.len().min(self.limit.saturating_sub(from));
        let Some(room) = self.written.bytes.get_mut(from..) else {
            return Err(io::Error::from(ErrorKind::BrokenPipe));
        };
        if n == 0 || n > room.len() {
            return Err(io::Error::from(ErrorKind::BrokenPipe));
        }
        room[..n].copy_from_slice(&buf[..n]);
        self.written.count = from + n;
        Ok(n)
    }

    fn flush(&mut self) -> io::Result<()> {
        Ok(())
    }
}
