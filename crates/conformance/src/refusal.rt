//! Why a line has no result.

use relative_path::{FromPathError, RelativeToError, StripPrefixError};
use std::alloc::{AllocError, AllocFailed};
use std::fmt;

/// Why a line has no result.
#[derive(Drop)]
pub enum NoAnswer {
    UnknownCommand,
    WrongFieldCount,
    UnknownStep,
    NotAWidth,
    StripPrefix,
    FromPath(FromPathError),
    RelativeTo(RelativeToError),
    OutOfMemory,
}

impl fmt::Display for NoAnswer {
    fn fmt<W: fmt::Write>(&self, f: &mut fmt::Formatter<W>) -> fmt::Result {
        match self {
            NoAnswer::UnknownCommand => f.write_str("unknown command"),
            NoAnswer::WrongFieldCount => f.write_str("wrong number of fields"),
            NoAnswer::UnknownStep => f.write_str("unknown step"),
            NoAnswer::NotAWidth => f.write_str("not a width"),
            NoAnswer::StripPrefix => f.write_str("StripPrefixError"),
            NoAnswer::FromPath(error) => error.fmt(f),
            NoAnswer::RelativeTo(error) => error.fmt(f),
            NoAnswer::OutOfMemory => f.write_str("out of memory"),
        }
    }
}

impl From<FromPathError> for NoAnswer {
    fn from(error: FromPathError) -> NoAnswer {
        NoAnswer::FromPath(error)
    }
}

impl From<RelativeToError> for NoAnswer {
    fn from(error: RelativeToError) -> NoAnswer {
        NoAnswer::RelativeTo(error)
    }
}

impl From<StripPrefixError> for NoAnswer {
    fn from(_error: StripPrefixError) -> NoAnswer {
        NoAnswer::StripPrefix
    }
}

impl From<AllocError> for NoAnswer {
    fn from(_error: AllocError) -> NoAnswer {
        NoAnswer::OutOfMemory
    }
}

impl<T: Drop> From<AllocFailed<T>> for NoAnswer {
    fn from(_failed: AllocFailed<T>) -> NoAnswer {
        NoAnswer::OutOfMemory
    }
}
