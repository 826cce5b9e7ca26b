//! Why moves are refused.
use relmove_plan::Refusal;
use relmove_store::RunFault;
use std::alloc::{AllocError, AllocFailed};

/// Why moves are refused. Moves are numbered from 0.
#[derive(Debug, Drop)]
pub enum WhyRefused {
    /// A call failed, or there is a journal.
    RunFault(RunFault),
    /// The plan refuses the moves.
    Plan(Refusal),
    /// A path of this move ends in a slash, and what moves is no directory.
    NoDirectory(usize),
    /// A path of this move is in a directory whose name begins with a dot. Such directories aren't read, but for `.github`.
    DotDirectory(usize),
    /// This move was made before the call, and nothing is at its new path.
    NotArrived(usize),
    /// This move of a page was made before the call, and a directory is at its new path, with a file in it that has the page's
    /// name.
    IntoDirectory(usize),
    /// This move was made before the call, and something else is at its old path.
    NotLeft(usize),
    /// The new path of this move has a name that begins as those of a run's own files, in another case. A file system may
    /// take one for the other.
    ReservedName(usize),
}

impl From<AllocError> for WhyRefused {
    fn from(_: AllocError) -> WhyRefused {
        WhyRefused::RunFault(RunFault::OutOfMemory)
    }
}

impl<T: Drop> From<AllocFailed<T>> for WhyRefused {
    fn from(_: AllocFailed<T>) -> WhyRefused {
        WhyRefused::RunFault(RunFault::OutOfMemory)
    }
}

impl From<RunFault> for WhyRefused {
    fn from(fault: RunFault) -> WhyRefused {
        WhyRefused::RunFault(fault)
    }
}

impl From<Refusal> for WhyRefused {
    fn from(refusal: Refusal) -> WhyRefused {
        WhyRefused::Plan(refusal)
    }
}
