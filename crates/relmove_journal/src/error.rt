//! Why a text isn't read as a journal.
ghost use Rattle.std.specs.Prelude.{◌≡◌};
ghost use Rattle.relmove_journal.specs.declared.error.JournalError.TheVariants.{OutOfMemory};

use std::alloc::{AllocError, AllocFailed};
use std::error::Error;
use std::fmt;

/// Why a text isn't read as a journal.
#[derive(Clone, Copy, Debug, PartialEq, Eq)]
pub enum JournalError {
    /// An allocation failed.
    OutOfMemory,
    /// No run writes this text.
    NotAJournal,
    /// It begins as a journal of an older version, which is no longer read.
    OldJournal,
}

impl fmt::Display for JournalError {
    fn fmt<W: fmt::Write>(&self, f: &mut fmt::Formatter<W>) -> fmt::Result {
        f.write_str(match self {
            JournalError::OutOfMemory => "memory ran out",
            JournalError::NotAJournal => "this isn't a journal that a run wrote",
            JournalError::OldJournal => "this is a journal of an older version",
        })
    }
}

impl Error for JournalError {}

impl From<AllocError> for JournalError {
    // a failed allocation becomes `OutOfMemory`
    ghost from_gives = { λ _ error. error ≡ OutOfMemory };

    fn from(_: AllocError) -> JournalError {
        JournalError::OutOfMemory
    }
}

impl<T: Drop> From<AllocFailed<T>> for JournalError {
    // a failed allocation becomes `OutOfMemory`
    ghost from_gives = { λ _ error. error ≡ OutOfMemory };

    fn from(_: AllocFailed<T>) -> JournalError {
        JournalError::OutOfMemory
    }
}
