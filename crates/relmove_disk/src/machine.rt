//! A disk as a runtime: memory, a clock and standard error.
use crate::disk::Disk;
use std::alloc::{Alloc, Global};
use std::fmt::Display;
use std::io::{self, Eprint, ErrorKind, Write};
use std::time::{Clock, Duration};

/// A disk as a runtime.
#[derive(Clone, Copy)]
pub struct DiskMachine<'a>(pub &'a Disk);

impl Alloc for DiskMachine<'_> {
    type A = Global;

    fn alloc(&self) -> Global {
        self.0.alloc
    }
}

impl Clock for DiskMachine<'_> {
    fn monotonic(&self) -> io::Result<Duration> {
        Ok(Duration::from_millis(self.0.read_clock()))
    }

    fn since_1970(&self) -> io::Result<Duration> {
        Err(io::Error::from(ErrorKind::Unsupported))
    }
}

impl Eprint for DiskMachine<'_> {
    fn eprint<D: Display + Drop>(&self, value: D) -> io::Result<()> {
        write!(self.0.printed.try_borrow_mut()?, "{value}")
    }

    fn eprintln<D: Display + Drop>(&self, value: D) -> io::Result<()> {
        writeln!(self.0.printed.try_borrow_mut()?, "{value}")
    }
}

/// The standard error of a runtime with this disk.
#[derive(Clone, Copy)]
pub struct DiskErrors<'a>(pub &'a Disk);

impl Write for DiskErrors<'_> {
    fn write(&mut self, buf: &[u8]) -> io::Result<usize> {
        self.0.printed.try_borrow_mut()?.extend_from_slice(buf)?;
        Ok(buf.len())
    }

    fn flush(&mut self) -> io::Result<()> {
        Ok(())
    }
}
