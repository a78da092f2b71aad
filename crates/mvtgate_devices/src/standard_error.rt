//! Standard error as a device that an engine writes to.
use std::io::{ErrorKind, Write};
use std::{io, str};

/// Passes whole texts on to standard error. What is no UTF-8 is refused.
#[derive(Drop)]
pub struct StandardError<'a, R> {
    rt: &'a R,
}

impl<'a, R: Eprint> StandardError<'a, R> {
    /// The standard error of a run.
    pub fn new(rt: &'a R) -> Self {
        StandardError { rt }
    }
}

impl<R: Eprint> Write for StandardError<'_, R> {
    fn write(&mut self, buf: &[u8]) -> io::Result<usize> {
        let Ok(text) = str::from_utf8(buf) else {
            return Err(io::Error::from(ErrorKind::InvalidData));
        };
        self.rt.eprint(text)?;
        Ok(buf.len())
    }

    fn flush(&mut self) -> io::Result<()> {
        Ok(())
    }
}
