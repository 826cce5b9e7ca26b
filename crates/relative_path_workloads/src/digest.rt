//! A digest of results.
use std::fmt;
use std::hash::{DefaultHasher, Hasher};
use std::io::{self, Write};

// A digest of what is written to it.
#[derive(Drop)]
pub(crate) struct Digest {
    hasher: DefaultHasher,
}

impl Digest {
    // The digest of nothing.
    pub(crate) fn new() -> Digest {
        Digest {
            hasher: DefaultHasher::new(),
        }
    }

    // Adds a text, and where it ends.
    pub(crate) fn add(&mut self, text: &str) {
        self.hasher.write(text.as_bytes());
        self.add_number(text.len());
    }

    // Adds a number.
    pub(crate) fn add_number(&mut self, number: usize) {
        self.hasher.write_usize(number);
    }
}

impl Write for Digest {
    fn write(&mut self, bytes: &[u8]) -> io::Result<usize> {
        self.hasher.write(bytes);
        Ok(bytes.len())
    }

    fn flush(&mut self) -> io::Result<()> {
        Ok(())
    }
}

impl fmt::Display for Digest {
    fn fmt<W: fmt::Write>(&self, f: &mut fmt::Formatter<W>) -> fmt::Result {
        let number = self.hasher.finish();
        write!(f, "{number:016x}")
    }
}
