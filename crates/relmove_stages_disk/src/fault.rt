//! Why a call fails, and which call is to fail.
ghost use Rattle.std.specs.Prelude.{◌≡◌};
ghost use Rattle.relmove_stages_disk.specs.declared.fault.Fault.TheVariants.{OutOfMemory};

use std::alloc::{AllocError, AllocFailed};

/// Why a call of a [`crate::MemoryDisk`] fails.
#[derive(Clone, Copy, Debug, PartialEq, Eq)]
pub enum Fault {
    /// The call was to fail.
    Failed,
    /// Memory ran out. The call did nothing.
    OutOfMemory,
    /// The action can't be done, and isn't done yet. The call did nothing.
    Refused,
}

/// How a call fails.
#[derive(Clone, Copy, Debug, PartialEq, Eq)]
pub enum Failing {
    /// Before it does anything.
    Before,
    /// After it wrote the first half of a new text. Any other call did all.
    Midway,
    /// After it did all.
    After,
}

/// Which call is to fail, and how.
#[derive(Clone, Copy, Debug, PartialEq, Eq)]
pub struct Failure {
    /// How many calls come before it.
    pub calls: usize,
    /// How it fails.
    pub failing: Failing,
    /// Whether all later calls fail too, before they do anything, as after a kill.
    pub is_kill: bool,
}

impl From<AllocError> for Fault {
    // a failed allocation becomes `OutOfMemory`
    ghost from_gives = { λ _ fault. fault ≡ OutOfMemory };

    fn from(_: AllocError) -> Fault {
        Fault::OutOfMemory
    }
}

impl<T: Drop> From<AllocFailed<T>> for Fault {
    // a failed allocation becomes `OutOfMemory`
    ghost from_gives = { λ _ fault. fault ≡ OutOfMemory };

    fn from(_: AllocFailed<T>) -> Fault {
        Fault::OutOfMemory
    }
}
