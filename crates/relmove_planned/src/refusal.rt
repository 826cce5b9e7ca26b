//! Why moves have no work of a run.
use relmove_checks::Refusal;
use std::alloc::{AllocError, AllocFailed};
use std::error::Error;
use std::fmt;

/// Why moves have no work that a run can carry out. Pages are numbered from 0.
///
/// ```
/// let refusal = WorkRefusal::ReservedName(3);
/// assert_eq!(rt; refusal.to_string(alloc)?.as_str(), "page 3: a name begins with .relmove");
/// ```
#[derive(Debug, PartialEq, Eq, Drop)]
pub enum WorkRefusal {
    /// The path of this page has a name that begins with `.relmove`, as the run's own files have.
    ReservedName(usize),
    /// The moves are refused, or an allocation failed.
    Moves(Refusal),
    /// The old text of a page is removed that isn't among the pages. It can't be so if the entries are whole.
    LacksText,
    /// The work can't be a run's: a path of its lists is none that a journal has.
    NotOfRun,
}

impl fmt::Display for WorkRefusal {
    fn fmt<W: fmt::Write>(&self, f: &mut fmt::Formatter<W>) -> fmt::Result {
        match self {
            WorkRefusal::ReservedName(k) => write!(f, "page {k}: a name begins with .relmove"),
            WorkRefusal::Moves(refusal) => write!(f, "{refusal}"),
            WorkRefusal::LacksText => f.write_str("the old text of a page isn't among the pages"),
            WorkRefusal::NotOfRun => f.write_str("the work can't be a run's"),
        }
    }
}

impl Error for WorkRefusal {}

impl From<Refusal> for WorkRefusal {
    ghost use Rattle.std.specs.Prelude.{◌≡◌};
    ghost use Rattle.relmove_planned.specs.declared.refusal.WorkRefusal.TheVariants.{Moves};

    // the moves are refused
    ghost from_gives = { λ refusal why. why ≡ Moves refusal };

    fn from(refusal: Refusal) -> WorkRefusal {
        WorkRefusal::Moves(refusal)
    }
}

impl From<AllocError> for WorkRefusal {
    ghost use Rattle.std.specs.Prelude.{◌≡◌};
    ghost use Rattle.relmove_checks.specs.declared.refusal.Refusal.TheVariants.{OutOfMemory};
    ghost use Rattle.relmove_planned.specs.declared.refusal.WorkRefusal.TheVariants.{Moves};

    // a failed allocation becomes `OutOfMemory`
    ghost from_gives = { λ _ why. why ≡ Moves OutOfMemory };

    fn from(_: AllocError) -> WorkRefusal {
        WorkRefusal::Moves(Refusal::OutOfMemory)
    }
}
