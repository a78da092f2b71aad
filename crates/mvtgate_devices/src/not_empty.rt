//! A reader that takes an input of no bytes for one that can't be read.
ghost use Rattle.std.specs.Prelude.{◌≡◌, ◌≢◌, ◌<◌, ◌||◌, length, nat_lt, IsTrue, IsFalse, IfOk, IfErr, OnErr};
ghost use Rattle.std.specs.Io.{ReadsAtMost};
ghost use Rattle.std.specs.Io.KnownBytes.{IsAtEnd, ReadConsumes};
ghost use Rattle.std.specs.IoError.{error_kind};

use std::io;
use std::io::{ErrorKind, Read};

/// Passes reads on to a device. Where the device ends before it gave a byte, that read fails: no
/// bytes are a valid tile, and also what a missing or broken source leaves in a pipe.
#[derive(Drop)]
pub struct NotEmpty<T> {
    device: T,
    has_begun: bool,
    is_empty: bool,
}

impl<T> NotEmpty<T> {
    ghost use Rattle.mvtgate_devices.specs.NotEmpty.{has_begun, is_empty};

    /// A reader of a device, of which nothing was read yet.
    pub fn new(device: T) -> Self
        ensures begun { IsFalse (has_begun result) }
        ensures empty { IsFalse (is_empty result) }
    {
        NotEmpty {
            device,
            has_begun: false,
            is_empty: false,
        }
    }

    /// Whether the device ended before it gave a byte.
    pub fn is_empty(&self) -> bool
        ensures { result ≡ is_empty self.now }
    {
        self.is_empty
    }
}

impl<T: Read> Read for NotEmpty<T> {
    ghost use Rattle.mvtgate_devices.specs.NotEmpty.{device_bytes, has_begun, is_empty};

    ghost remaining = { device_bytes T.remaining };

    fn read(&mut self, buf: &mut [u8]) -> io::Result<usize>
        ensures bound { ReadsAtMost result buf.new }
        ensures bytes { ReadConsumes (device_bytes T.remaining self.old)
            (device_bytes T.remaining self.new) result buf.new }

        ensures begun { IfOk result (λ n. has_begun self.new ≡ (has_begun self.old || nat_lt 0 n)) }
        ensures kept { OnErr result (has_begun self.new ≡ has_begun self.old) }
        // The end of an input is passed on only behind a byte.
        ensures end { IfOk result (λ n. n ≡ 0 → 0 < length buf.new → IsTrue (has_begun self.new)) }
        ensures read { IfOk result (λ _. is_empty self.new ≡ is_empty self.old) }
        // Without one it's a failure, which no caller takes for an interruption.
        ensures empty { IfErr result (λ e. is_empty self.new ≢ is_empty self.old →
            IsTrue (is_empty self.new) × IsFalse (has_begun self.old)
            × (error_kind e ≢ ErrorKind.Interrupted)
            × IsAtEnd (device_bytes T.remaining self.new)) }
    {
        let n = self.device.read(buf)?;
        if n == 0 && !buf.is_empty() && !self.has_begun {
            self.is_empty = true;
            return Err(io::Error::from(ErrorKind::UnexpectedEof));
        }
        self.has_begun = self.has_begun || n > 0;
        Ok(n)
    }
}

#[cfg(test)]
mod tests;
