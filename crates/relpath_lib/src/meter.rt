//! Counts of the calls of a reader or a writer.
ghost use Rattle.std.specs.Prelude.{◌≡◌, ◌<◌, is_err};
ghost use Rattle.std.specs.Io.{ReadsAtMost, WritesAtMost};
ghost use Rattle.std.specs.Io.KnownBytes.{ReadConsumes, WriteAppends};

use std::io::{Read, Result, Write};

/// A reader or a writer. Counts the calls that it passes on, and those of them that fail.
///
/// ```
/// let mut reader = Meter::new(b"a/b".as_slice());
/// let mut buf = [0; 2];
/// assert_eq!(rt; reader.read(&mut buf)?, 2);
/// assert_eq!(rt; reader.calls(), 1);
/// ```
#[derive(Drop)]
pub struct Meter<T> {
    inner: T,
    calls: u64,
    flushes: u64,
    failures: u64,
}

impl<T> Meter<T> {
    ghost use Rattle.relpath_lib.specs.Meter.{
      inner_of,
      calls_of,
      flushes_of,
      failures_of,
      IsFresh,
      CountsCall,
      CountsFlush,
      CountsFailure,
    };

    /// Wraps `inner`. All counts are 0.
    pub fn new(inner: T) -> Meter<T>
        // the meter has this reader or writer
        ensures inner { inner_of result ≡ inner }
        // all counts are 0
        ensures fresh { IsFresh result }
    {
        Meter {
            inner,
            calls: 0,
            flushes: 0,
            failures: 0,
        }
    }

    /// Returns how many reads or writes were made.
    pub fn calls(&self) -> u64
        ensures { result ≡ calls_of self.now }
    {
        self.calls
    }

    /// Returns how many flushes were made.
    pub fn flushes(&self) -> u64
        ensures { result ≡ flushes_of self.now }
    {
        self.flushes
    }

    /// Returns how many calls failed. A call failed if it returned an error, or if it was a write of at
    /// least one byte that took no byte.
    pub fn failures(&self) -> u64
        ensures { result ≡ failures_of self.now }
    {
        self.failures
    }

    /// Returns the reader or the writer.
    pub fn into_inner(self) -> T
        ensures { result ≡ inner_of self }
    {
        self.inner
    }

    // Counts a read or a write, and whether it failed.
    fn count_call(&mut self, failed: bool)
        requires calls { calls_of self.old < u64.MAX }
        requires failures { failures_of self.old < u64.MAX }
        ensures inner { inner_of self.new ≡ inner_of self.old }
        ensures counts { CountsCall self.old self.new failed }
    {
        self.calls += 1;
        self.count_failure(failed);
    }

    // Counts a flush, and whether it failed.
    fn count_flush(&mut self, failed: bool)
        requires flushes { flushes_of self.old < u64.MAX }
        requires failures { failures_of self.old < u64.MAX }
        ensures inner { inner_of self.new ≡ inner_of self.old }
        ensures counts { CountsFlush self.old self.new failed }
    {
        self.flushes += 1;
        self.count_failure(failed);
    }

    // Counts a failure, if the call failed.
    fn count_failure(&mut self, failed: bool)
        requires { failures_of self.old < u64.MAX }
        ensures inner { inner_of self.new ≡ inner_of self.old }
        ensures calls { calls_of self.new ≡ calls_of self.old }
        ensures flushes { flushes_of self.new ≡ flushes_of self.old }
        ensures failures { CountsFailure self.old self.new failed }
    {
        if failed {
            self.failures += 1;
        }
    }
}

impl<R: Read> Meter<R> {
    ghost use Rattle.relpath_lib.specs.Meter.{calls_of, failures_of, CountsCall, bytes_of};

    /// Passes a read on to the reader.
    pub fn read(&mut self, buf: &mut [u8]) -> Result<usize>
        // there have to be fewer calls than `u64::MAX`
        requires calls { calls_of self.old < u64.MAX }
        // there have to be fewer failures than `u64::MAX`
        requires failures { failures_of self.old < u64.MAX }
        // no more bytes than the buffer has
        ensures bound { ReadsAtMost result buf.new }
        // known bytes lose what was read
        ensures bytes { ReadConsumes
            (bytes_of R.remaining self.old) (bytes_of R.remaining self.new) result buf.new }
        // one more call, and a failure if it failed
        ensures counts { CountsCall self.old self.new (is_err result) }
    {
        let result = self.inner.read(buf);
        self.count_call(result.is_err());
        result
    }
}

impl<W: Write> Meter<W> {
    ghost use Rattle.relpath_lib.specs.Meter.{
      calls_of,
      flushes_of,
      failures_of,
      CountsCall,
      CountsFlush,
      is_failed_write,
      bytes_of,
      KeepsBytes,
    };

    /// Passes a write on to the writer.
    pub fn write(&mut self, buf: &[u8]) -> Result<usize>
        // there have to be fewer calls than `u64::MAX`
        requires calls { calls_of self.old < u64.MAX }
        // there have to be fewer failures than `u64::MAX`
        requires failures { failures_of self.old < u64.MAX }
        // no more bytes than the buffer has
        ensures bound { WritesAtMost result buf.now }
        // known bytes gain what was written
        ensures bytes { WriteAppends
            (bytes_of W.contents self.old) (bytes_of W.contents self.new) result buf.now }
        // one more call, and a failure if it failed
        ensures counts { CountsCall self.old self.new (is_failed_write result buf.now) }
    {
        let result = self.inner.write(buf);
        let failed = match &result {
            Ok(taken) => *taken == 0 && !buf.is_empty(),
            Err(_) => true,
        };
        self.count_call(failed);
        result
    }

    /// Passes a flush on to the writer.
    pub fn flush(&mut self) -> Result<()>
        // there have to be fewer flushes than `u64::MAX`
        requires flushes { flushes_of self.old < u64.MAX }
        // there have to be fewer failures than `u64::MAX`
        requires failures { failures_of self.old < u64.MAX }
        // known bytes stay
        ensures bytes { KeepsBytes W.contents self.old self.new }
        // one more flush, and a failure if it failed
        ensures counts { CountsFlush self.old self.new (is_err result) }
    {
        let result = self.inner.flush();
        self.count_flush(result.is_err());
        result
    }
}
