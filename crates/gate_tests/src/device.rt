//! Devices for tests: a reader and a writer over memory, which can be set to fail. And bytes for
//! them.
use std::io;
use std::io::{ErrorKind, Read, Write};
use std::test::Fail;

/// The bytes that a text spells in hexadecimal.
pub(crate) fn bytes_of(rt: &HostRuntime, text: &str) -> Result<Vec<u8>, Fail> {
    let mut bytes = Vec::new(rt.alloc());
    for digits in text.split_whitespace() {
        bytes.push(u8::from_str_radix(digits, 16)?)?;
    }
    Ok(bytes)
}

/// How a device behaves. Its calls are numbered from 1, flushes among them.
#[derive(Clone, Copy)]
pub struct Manner {
    /// How many bytes a call moves at most.
    pub step: usize,
    /// The first call that is interrupted, and how many are.
    pub interrupted_from: u64,
    pub interruptions: u64,
    /// The call that fails; 0 for none.
    pub fails_at: u64,
    /// The kind of error that it fails with; with none, it moves no byte.
    pub failure: Option<ErrorKind>,
    /// Whether reads never come to an end.
    pub is_endless: bool,
}

/// Every call moves all that it can.
pub const CALM: Manner = Manner {
    step: usize::MAX,
    interrupted_from: 1,
    interruptions: 0,
    fails_at: 0,
    failure: Some(ErrorKind::BrokenPipe),
    is_endless: false,
};

/// A device that moves three bytes a call, and fails at a call; at 0 it does not fail.
pub(crate) fn fails(at: u64) -> Manner {
    Manner {
        step: 3,
        fails_at: at,
        ..CALM
    }
}

/// A device that is interrupted from a call on, so many times.
pub(crate) fn interrupted((from, times): (u64, u64)) -> Manner {
    Manner {
        interrupted_from: from,
        interruptions: times,
        ..CALM
    }
}

/// The calls of a device.
#[derive(Drop)]
struct Calls {
    manner: Manner,
    begun: u64,
}

impl Calls {
    fn new(manner: Manner) -> Self {
        Calls { manner, begun: 0 }
    }

    /// Numbers a call: how many bytes it moves at most, or its error.
    fn begin(&mut self) -> io::Result<usize> {
        self.begun = self.begun.saturating_add(1);
        if self.begun == self.manner.fails_at {
            return match self.manner.failure {
                Some(kind) => Err(io::Error::from(kind)),
                None => Ok(0),
            };
        }
        if self.begun >= self.manner.interrupted_from && self.manner.interruptions > 0 {
            self.manner.interruptions -= 1;
            return Err(io::Error::from(ErrorKind::Interrupted));
        }
        Ok(self.manner.step)
    }
}

/// A reader of bytes.
#[derive(Drop)]
pub struct Source<'a> {
    calls: Calls,
    given: &'a [u8],
}

impl<'a> Source<'a> {
    pub(crate) fn new(given: &'a [u8], manner: Manner) -> Self {
        Source {
            calls: Calls::new(manner),
            given,
        }
    }
}

impl Read for Source<'_> {
    fn read(&mut self, buf: &mut [u8]) -> io::Result<usize> {
        let most = self.calls.begin()?;
        if self.calls.manner.is_endless {
            return Ok(buf.len());
        }
        let n = most.min(buf.len()).min(self.given.len());
        let (front, rest) = self.given.split_at(n);
        buf[..n].copy_from_slice(front);
        self.given = rest;
        Ok(n)
    }
}

/// A writer that puts what it takes after other bytes.
#[derive(Drop)]
pub struct Sink<'a> {
    calls: Calls,
    taken: &'a mut Vec<u8>,
}

impl<'a> Sink<'a> {
    pub(crate) fn new(taken: &'a mut Vec<u8>, manner: Manner) -> Self {
        Sink {
            calls: Calls::new(manner),
            taken,
        }
    }
}

impl Write for Sink<'_> {
    fn write(&mut self, buf: &[u8]) -> io::Result<usize> {
        let n = self.calls.begin()?.min(buf.len());
        self.taken.extend_from_slice(&buf[..n])?;
        Ok(n)
    }

    fn flush(&mut self) -> io::Result<()> {
        self.calls.begin()?;
        Ok(())
    }
}
