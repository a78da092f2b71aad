ghost use Rattle.std.specs.Prelude.{◌≡◌, ◌≢◌, ◌<◌, length, IfOk, IfErr, OnOk};
ghost use Rattle.std.specs.Io.{ReadsAtMost, WritesAtMost};
ghost use Rattle.std.specs.Io.KnownBytes.{Keeps, ReadConsumes, WriteAppends};
ghost use Rattle.std.specs.IoError.{error_kind};

use std::io;
use std::io::{ErrorKind, Read, Write};

/// Passes reads, writes and flushes on to a device, and counts what they did. A count that reaches
/// the greatest `u64` stays there.
#[derive(Drop)]
pub struct Tally<T> {
    device: T,
    bytes: u64,
    failed: u64,
    interrupted: u64,
}

impl<T> Tally<T> {
    ghost use Rattle.mvt_engine.specs.Tally.{after_bytes, after_failure, after_interruption, counts_of, device_of, no_counts};

    /// A tally of a device, on which nothing was counted yet.
    pub fn new(device: T) -> Self
        ensures device { device_of result ≡ device }
        ensures counts { counts_of result ≡ no_counts }
    {
        Tally {
            device,
            bytes: 0,
            failed: 0,
            interrupted: 0,
        }
    }

    /// How many bytes went through.
    pub fn bytes(&self) -> u64
        ensures { result ≡ (counts_of self.now).bytes }
    {
        self.bytes
    }

    /// How many calls failed: by an error other than an interruption, or by a write of some bytes
    /// that took none.
    pub fn failed(&self) -> u64
        ensures { result ≡ (counts_of self.now).failed }
    {
        self.failed
    }

    /// How many calls were interrupted.
    pub fn interrupted(&self) -> u64
        ensures { result ≡ (counts_of self.now).interrupted }
    {
        self.interrupted
    }

    /// Begins the counts anew.
    pub fn reset(&mut self)
        ensures device { device_of self.new ≡ device_of self.old }
        ensures counts { counts_of self.new ≡ no_counts }
    {
        self.bytes = 0;
        self.failed = 0;
        self.interrupted = 0;
    }

    fn count_bytes(&mut self, n: usize)
        ensures device { device_of self.new ≡ device_of self.old }
        ensures counts { counts_of self.new ≡ after_bytes (counts_of self.old) n }
    {
        self.bytes = self.bytes.saturating_add(n as u64);
    }

    fn count_failure(&mut self)
        ensures device { device_of self.new ≡ device_of self.old }
        ensures counts { counts_of self.new ≡ after_failure (counts_of self.old) }
    {
        self.failed = self.failed.saturating_add(1);
    }

    fn count_error(&mut self, error: &io::Error)
        ensures device { device_of self.new ≡ device_of self.old }
        ensures interrupted { error_kind error.now ≡ ErrorKind.Interrupted →
            counts_of self.new ≡ after_interruption (counts_of self.old) }
        ensures failed { error_kind error.now ≢ ErrorKind.Interrupted →
            counts_of self.new ≡ after_failure (counts_of self.old) }
    {
        if error.kind() == ErrorKind::Interrupted {
            self.interrupted = self.interrupted.saturating_add(1);
        } else {
            self.count_failure();
        }
    }
}

impl<T: Read> Read for Tally<T> {
    ghost use Rattle.mvt_engine.specs.Tally.{after_bytes, after_failure, after_interruption, counts_of, tally_bytes};

    ghost remaining = { tally_bytes T.remaining };

    fn read(&mut self, buf: &mut [u8]) -> io::Result<usize>
        ensures bound { ReadsAtMost result buf.new }
        ensures bytes { ReadConsumes (tally_bytes T.remaining self.old)
            (tally_bytes T.remaining self.new) result buf.new }

        ensures moved { IfOk result (λ n. counts_of self.new ≡ after_bytes (counts_of self.old) n) }
        ensures interrupted { IfErr result (λ e. error_kind e ≡ ErrorKind.Interrupted →
            counts_of self.new ≡ after_interruption (counts_of self.old)) }
        ensures failed { IfErr result (λ e. error_kind e ≢ ErrorKind.Interrupted →
            counts_of self.new ≡ after_failure (counts_of self.old)) }
    {
        match self.device.read(buf) {
            Ok(n) => {
                self.count_bytes(n);
                Ok(n)
            }
            Err(error) => {
                self.count_error(&error);
                Err(error)
            }
        }
    }
}

impl<T: Write> Write for Tally<T> {
    ghost use Rattle.mvt_engine.specs.Tally.{after_bytes, after_failure, after_interruption, counts_of, tally_bytes};

    ghost contents = { tally_bytes T.contents };

    fn write(&mut self, buf: &[u8]) -> io::Result<usize>
        ensures bound { WritesAtMost result buf.now }
        ensures bytes { WriteAppends (tally_bytes T.contents self.old)
            (tally_bytes T.contents self.new) result buf.now }

        ensures moved { IfOk result (λ n. 0 < n
            → counts_of self.new ≡ after_bytes (counts_of self.old) n) }
        ensures nothing { OnOk result (length buf.now ≡ 0
            → counts_of self.new ≡ after_bytes (counts_of self.old) 0) }
        // A write that takes none of some bytes would be tried forever, so it counts as failed.
        ensures took_none { IfOk result (λ n. n ≡ 0 → 0 < length buf.now →
            counts_of self.new ≡ after_failure (counts_of self.old)) }
        ensures interrupted { IfErr result (λ e. error_kind e ≡ ErrorKind.Interrupted →
            counts_of self.new ≡ after_interruption (counts_of self.old)) }
        ensures failed { IfErr result (λ e. error_kind e ≢ ErrorKind.Interrupted →
            counts_of self.new ≡ after_failure (counts_of self.old)) }
    {
        match self.device.write(buf) {
            Ok(n) => {
                if n == 0 && !buf.is_empty() {
                    self.count_failure();
                } else {
                    self.count_bytes(n);
                }
                Ok(n)
            }
            Err(error) => {
                self.count_error(&error);
                Err(error)
            }
        }
    }

    fn flush(&mut self) -> io::Result<()>
        ensures bytes { Keeps (tally_bytes T.contents self.old) (tally_bytes T.contents self.new) }

        ensures ok { OnOk result (counts_of self.new ≡ counts_of self.old) }
        ensures interrupted { IfErr result (λ e. error_kind e ≡ ErrorKind.Interrupted →
            counts_of self.new ≡ after_interruption (counts_of self.old)) }
        ensures failed { IfErr result (λ e. error_kind e ≢ ErrorKind.Interrupted →
            counts_of self.new ≡ after_failure (counts_of self.old)) }
    {
        match self.device.flush() {
            Ok(()) => Ok(()),
            Err(error) => {
                self.count_error(&error);
                Err(error)
            }
        }
    }
}
