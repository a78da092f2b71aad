//! A file for what `mend` tells of its changes.

use std::fs::OpenFile;
use std::io;
use std::io::Write;

/// Passes what is written on to a file, which is emptied before the first write. Until then it stays
/// as it was: the tile may be read from it, and where the tile is refused nothing is told.
#[derive(Drop)]
pub struct ReportFile<F> {
    file: F,
    is_emptied: bool,
}

impl<F: OpenFile> ReportFile<F> {
    /// A file that is open for writing, with what it had.
    pub fn new(file: F) -> Self {
        ReportFile {
            file,
            is_emptied: false,
        }
    }

    /// Empties it, unless it is a device or a pipe, which keeps nothing.
    fn empty(&self) -> io::Result<()> {
        if self.file.metadata()?.is_file() {
            self.file.set_len(0)?;
        }
        Ok(())
    }
}

impl<F: Write + OpenFile> Write for ReportFile<F> {
    fn write(&mut self, buf: &[u8]) -> io::Result<usize> {
        if !self.is_emptied {
            self.empty()?;
            self.is_emptied = true;
        }
        self.file.write(buf)
    }

    fn flush(&mut self) -> io::Result<()> {
        self.file.flush()
    }
}
