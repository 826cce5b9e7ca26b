//! Why moves are refused.
use relative_path_moves::MoveTableError;
use relative_path_places::NormalPath;
use std::alloc::{AllocError, AllocFailed};
use std::error::Error;
use std::fmt;

/// Why moves are refused, before anything is done. Moves are numbered from 0.
///
/// The refusals are tried in this order. Those of the first group, up to `ReservedName`, are tried for one move after
/// another, and so are `NotThere` and `ForeignName`, and then `Taken`, and then `BelowFile`, and then `BelowUnread`.
///
/// ```
/// let refusal = Refusal::NotThere(3);
/// assert_eq!(rt; refusal.to_string(alloc)?.as_str(), "move 3: nothing is at its old path");
/// ```
#[derive(Debug, PartialEq, Eq, Drop)]
pub enum Refusal {
    /// The old or the new path of this move has no file name: it leads to the root, or ends in `..`.
    NoFileName(usize),
    /// The old or the new path of this move leads above the root.
    LeavesRoot(usize),
    /// The new path of this move is its old one, or below it.
    IntoItself(usize),
    /// The new path of this move has a name that isn't plain on every platform.
    NotPlain(usize),
    /// The old or the new path of this move has a name that begins with `.relmove`, as the run's own files have.
    ReservedName(usize),
    /// These two moves have the same old path.
    SameOld(usize, usize),
    /// Nothing is at the old path of this move.
    NotThere(usize),
    /// This move takes along a directory that holds a name that isn't UTF-8.
    ForeignName(usize),
    /// These two moves have the same new path.
    SameNew(usize, usize),
    /// An entry is at the new path of this move, and stays there.
    Taken(usize),
    /// The entries with these paths have the same path after the moves.
    Collision(NormalPath, NormalPath),
    /// The new path of this move is below what is, after the moves, a file or a symbolic link.
    BelowFile(usize),
    /// The new path of this move is below what is, after the moves, a directory that isn't read.
    BelowUnread(usize),
    /// An allocation failed.
    OutOfMemory,
}

impl fmt::Display for Refusal {
    fn fmt<W: fmt::Write>(&self, f: &mut fmt::Formatter<W>) -> fmt::Result {
        match self {
            Refusal::NoFileName(k) => write!(f, "move {k}: a path leads to no file of the root"),
            Refusal::LeavesRoot(k) => write!(f, "move {k}: a path leads above the root"),
            Refusal::IntoItself(k) => write!(
                f,
                "move {k}: its new path is its old one or below it"
            ),
            Refusal::NotPlain(k) => write!(f, "move {k}: a new name isn't plain on every platform"),
            Refusal::ReservedName(k) => write!(f, "move {k}: a name begins with .relmove"),
            Refusal::SameOld(j, k) => write!(f, "moves {j} and {k} have the same old path"),
            Refusal::NotThere(k) => write!(f, "move {k}: nothing is at its old path"),
            Refusal::ForeignName(k) => write!(
                f,
                "move {k}: it takes along a name that isn't UTF-8"
            ),
            Refusal::SameNew(j, k) => write!(f, "moves {j} and {k} have the same new path"),
            Refusal::Taken(k) => write!(f, "move {k}: its new path is taken"),
            Refusal::Collision(one, other) => {
                let (one, other) = (one.as_relative_path(), other.as_relative_path());
                write!(f, "{one} and {other} get the same path")
            }
            Refusal::BelowFile(k) => write!(f, "move {k}: its new path is below a file"),
            Refusal::BelowUnread(k) => write!(
                f,
                "move {k}: its new path is below a directory that isn't read"
            ),
            Refusal::OutOfMemory => f.write_str("out of memory"),
        }
    }
}

impl Error for Refusal {}

impl From<AllocError> for Refusal {
    ghost use Rattle.std.specs.Prelude.{◌≡◌};
    ghost use Rattle.relmove_checks.specs.declared.refusal.Refusal.TheVariants.{OutOfMemory};

    // a failed allocation becomes `OutOfMemory`
    ghost from_gives = { λ _ refusal. refusal ≡ OutOfMemory };

    fn from(_: AllocError) -> Refusal {
        Refusal::OutOfMemory
    }
}

impl<T: Drop> From<AllocFailed<T>> for Refusal {
    ghost use Rattle.std.specs.Prelude.{◌≡◌};
    ghost use Rattle.relmove_checks.specs.declared.refusal.Refusal.TheVariants.{OutOfMemory};

    // a failed allocation becomes `OutOfMemory`
    ghost from_gives = { λ _ refusal. refusal ≡ OutOfMemory };

    fn from(_: AllocFailed<T>) -> Refusal {
        Refusal::OutOfMemory
    }
}
