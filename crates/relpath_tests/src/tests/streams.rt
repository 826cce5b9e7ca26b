//! Readers and writers that return and take what a test wants, and record their calls.

use std::alloc::Global;
use std::io::{self, ErrorKind, Read, Write};

/// A reader that gives what another one has.
#[derive(Drop)]
pub struct Source<R> {
    inner: R,
    size: usize,
    failure: Option<(u64, ErrorKind)>,
    /// How many reads were made of it.
    pub reads: u64,
    /// How many bytes these had room for.
    pub room: usize,
}

impl<R: Read> Source<R> {
    /// Gives as many bytes as a read has room for, and never fails.
    pub fn new(inner: R) -> Source<R> {
        Source {
            inner,
            size: usize::MAX,
            failure: None,
            reads: 0,
            room: 0,
        }
    }

    /// Gives at most `size` bytes a read.
    pub fn in_pieces(self, size: usize) -> Source<R> {
        Source { size, ..self }
    }

    /// Fails at the read of this number, counted from 1, and at no other.
    pub fn failing_at(self, number: u64, kind: ErrorKind) -> Source<R> {
        Source {
            failure: Some((number, kind)),
            ..self
        }
    }
}

impl<R: Read> Read for Source<R> {
    fn read(&mut self, buf: &mut [u8]) -> io::Result<usize> {
        self.reads = self.reads.saturating_add(1);
        self.room = self.room.saturating_add(buf.len());
        if let Some((number, kind)) = self.failure
            && number == self.reads
        {
            return Err(kind.into());
        }
        let size = buf.len().min(self.size);
        self.inner.read(&mut buf[..size])
    }
}

/// A writer that keeps what it takes.
#[derive(Drop)]
pub struct Sink {
    /// What it took.
    pub taken: Vec<u8>,
    size: usize,
    failure: Option<(u64, ErrorKind)>,
    flush_failure: Option<ErrorKind>,
    /// How many writes were made of it.
    pub writes: u64,
    /// How many bytes these offered.
    pub offered: usize,
    /// How many flushes were made of it.
    pub flushes: u64,
    /// How many bytes it had taken at the last flush.
    pub flushed: usize,
}

impl Sink {
    /// Takes all the bytes of each write, and never fails.
    pub fn new(alloc: Global) -> Sink {
        Sink {
            taken: Vec::new(alloc),
            size: usize::MAX,
            failure: None,
            flush_failure: None,
            writes: 0,
            offered: 0,
            flushes: 0,
            flushed: 0,
        }
    }

    /// Takes at most `size` bytes of each write.
    pub fn in_pieces(self, size: usize) -> Sink {
        Sink { size, ..self }
    }

    /// Takes nothing of any write.
    pub fn full(self) -> Sink {
        self.in_pieces(0)
    }

    /// Fails at the write of this number, counted from 1, and at no other.
    pub fn failing_at(self, number: u64, kind: ErrorKind) -> Sink {
        Sink {
            failure: Some((number, kind)),
            ..self
        }
    }

    /// Fails at each flush.
    pub fn failing_to_flush(self, kind: ErrorKind) -> Sink {
        Sink {
            flush_failure: Some(kind),
            ..self
        }
    }
}

impl Write for Sink {
    fn write(&mut self, buf: &[u8]) -> io::Result<usize> {
        self.writes = self.writes.saturating_add(1);
        self.offered = self.offered.saturating_add(buf.len());
        if let Some((number, kind)) = self.failure
            && number == self.writes
        {
            return Err(kind.into());
        }
        let size = buf.len().min(self.size);
        self.taken.extend_from_slice(&buf[..size])?;
        Ok(size)
    }

    fn flush(&mut self) -> io::Result<()> {
        self.flushes = self.flushes.saturating_add(1);
        self.flushed = self.taken.len();
        match self.flush_failure {
            Some(kind) => Err(kind.into()),
            None => Ok(()),
        }
    }
}
