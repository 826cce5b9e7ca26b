//! The digest of a text.
ghost use Rattle.std.specs.Prelude.{◌≡◌, length};
ghost use Rattle.sha2.specs.Sha256.{sha256};

use sha2::{Digest, Sha256};

/// The length and the SHA-256 of a text. Two texts with one digest are taken for the same.
#[derive(Clone, Copy, Debug, PartialEq, Eq)]
pub struct TextDigest {
    /// How many bytes the text has.
    pub length: u64,
    /// Its SHA-256.
    pub sha256: [u8; 32],
}

impl TextDigest {
    /// The digest of a text.
    pub fn of(text: &[u8]) -> TextDigest
        // how many bytes the text has
        ensures length { result.length ≡ length text.now }
        // the SHA-256 of the text
        ensures sha256 { result.sha256 ≡ sha256 text.now }
    {
        TextDigest {
            length: text.len() as u64,
            sha256: Sha256::digest(text),
        }
    }
}
