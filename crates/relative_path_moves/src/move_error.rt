//! Errors of moves and of references.
ghost use Rattle.std.specs.Prelude.{◌≡◌, Some};
ghost use Rattle.relative_path_moves.specs.MoveError.{of_moves, of_reference, refusal_text};

use std::alloc::AllocError;
use std::error::Error;
use std::fmt;

/// Why no table can be made of some moves. Moves are numbered from 0.
///
/// ```
/// let error = MoveTableError::SameOld(0, 3);
/// assert_eq!(rt;
///     error.to_string(alloc)?.as_str(),
///     "moves 0 and 3 have the same old path"
/// );
/// ```
#[derive(Clone, Copy, Debug, PartialEq, Eq)]
pub enum MoveTableError {
    /// The first move whose old or new path has no file name.
    NoFileName(usize),
    /// The lexicographically first two moves whose old paths lead to the same place from every base.
    SameOld(usize, usize),
    /// An allocation failed. By then both paths of each move were seen to have a file name.
    OutOfMemory,
}

impl fmt::Display for MoveTableError {
    // the words for the error
    ghost output = { λ refusal. Some (refusal_text (of_moves refusal)) };

    fn fmt<W: fmt::Write>(&self, f: &mut fmt::Formatter<W>) -> fmt::Result {
        MoveError::from(*self).fmt(f)
    }
}

impl Error for MoveTableError {}

impl From<AllocError> for MoveTableError {
    ghost use Rattle.relative_path_moves.specs.declared.move_error.MoveTableError.TheVariants.{OutOfMemory};

    // a failed allocation becomes `OutOfMemory`
    ghost from_gives = { λ _ refusal. refusal ≡ OutOfMemory };

    fn from(_: AllocError) -> MoveTableError {
        MoveTableError::OutOfMemory
    }
}

/// Why a reference has no new path after the moves of a table.
///
/// ```
/// let error = ReferenceError::NoPath;
/// assert_eq!(rt; error.to_string(alloc)?.as_str(), "no path");
/// ```
#[derive(Clone, Copy, Debug, PartialEq, Eq)]
pub enum ReferenceError {
    /// After the moves the file to which the reference leads is above the root.
    AboveRoot,
    /// No path leads there from the new directory of the file with the reference.
    NoPath,
    /// An allocation failed.
    OutOfMemory,
}

impl fmt::Display for ReferenceError {
    // the words for the error
    ghost output = { λ refusal. Some (refusal_text (of_reference refusal)) };

    fn fmt<W: fmt::Write>(&self, f: &mut fmt::Formatter<W>) -> fmt::Result {
        MoveError::from(*self).fmt(f)
    }
}

impl Error for ReferenceError {}

impl From<AllocError> for ReferenceError {
    ghost use Rattle.relative_path_moves.specs.declared.move_error.ReferenceError.TheVariants.{OutOfMemory};

    // a failed allocation becomes `OutOfMemory`
    ghost from_gives = { λ _ refusal. refusal ≡ OutOfMemory };

    fn from(_: AllocError) -> ReferenceError {
        ReferenceError::OutOfMemory
    }
}

/// Why [`moved`](crate::moved) fails: for the reason of a [`MoveTableError`] or of a [`ReferenceError`].
/// Moves are numbered from 0.
///
/// ```
/// let error = MoveError::NoFileName(3);
/// assert_eq!(rt; error.to_string(alloc)?.as_str(), "move 3 lacks a file name");
/// ```
#[derive(Clone, Copy, Debug, PartialEq, Eq)]
pub enum MoveError {
    /// The first move whose old or new path has no file name.
    NoFileName(usize),
    /// The lexicographically first two moves whose old paths lead to the same place from every base.
    SameOld(usize, usize),
    /// After the moves the file to which the reference leads is above the root.
    AboveRoot,
    /// No path leads there from the new directory of the file with the reference.
    NoPath,
    /// An allocation failed. By then both paths of each move were seen to have a file name.
    OutOfMemory,
}

impl fmt::Display for MoveError {
    // the words for the error
    ghost output = { λ refusal. Some (refusal_text refusal) };

    fn fmt<W: fmt::Write>(&self, f: &mut fmt::Formatter<W>) -> fmt::Result {
        match self {
            MoveError::NoFileName(k) => write!(f, "move {k} lacks a file name"),
            MoveError::SameOld(j, k) => write!(f, "moves {j} and {k} have the same old path"),
            MoveError::AboveRoot => f.write_str("reference climbs above the root"),
            MoveError::NoPath => f.write_str("no path"),
            MoveError::OutOfMemory => f.write_str("out of memory"),
        }
    }
}

impl Error for MoveError {}

impl From<AllocError> for MoveError {
    ghost use Rattle.relative_path_moves.specs.declared.move_error.MoveError.TheVariants.{OutOfMemory};

    // a failed allocation becomes `OutOfMemory`
    ghost from_gives = { λ _ refusal. refusal ≡ OutOfMemory };

    fn from(_: AllocError) -> MoveError {
        MoveError::OutOfMemory
    }
}

impl From<MoveTableError> for MoveError {
    // the same error as a `MoveError`
    ghost from_gives = { λ error refusal. refusal ≡ of_moves error };

    fn from(error: MoveTableError) -> MoveError {
        match error {
            MoveTableError::NoFileName(k) => MoveError::NoFileName(k),
            MoveTableError::SameOld(j, k) => MoveError::SameOld(j, k),
            MoveTableError::OutOfMemory => MoveError::OutOfMemory,
        }
    }
}

impl From<ReferenceError> for MoveError {
    // the same error as a `MoveError`
    ghost from_gives = { λ error refusal. refusal ≡ of_reference error };

    fn from(error: ReferenceError) -> MoveError {
        match error {
            ReferenceError::AboveRoot => MoveError::AboveRoot,
            ReferenceError::NoPath => MoveError::NoPath,
            ReferenceError::OutOfMemory => MoveError::OutOfMemory,
        }
    }
}
