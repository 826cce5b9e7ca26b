//! A standard output that can fail.
use std::io::{self, ErrorKind, Write};

/// Standard output.
#[derive(Drop)]
pub struct Output {
    pub bytes: Vec<u8>,
    /// Whether it takes bytes.
    pub takes: bool,
    /// How many flushes succeed.
    pub flushes: u32,
}

impl Write for Output {
    fn write(&mut self, buf: &[u8]) -> io::Result<usize> {
        if !self.takes {
            return Err(io::Error::from(ErrorKind::StorageFull));
        }
        self.bytes.extend_from_slice(buf)?;
        Ok(buf.len())
    }

    fn flush(&mut self) -> io::Result<()> {
        if self.flushes == 0 {
            return Err(io::Error::from(ErrorKind::StorageFull));
        }
        self.flushes = self.flushes.saturating_sub(1);
        Ok(())
    }
}
