//! Why `run` fails.
ghost use Rattle.std.specs.Prelude.{◌≡◌, Some};
ghost use Rattle.std.specs.Fmt.{styled_text};

use std::alloc::AllocError;
use std::error::Error;
use std::fmt;

/// Why [`run`](crate::run::run) fails. A fault prints its name.
///
/// ```
/// assert_eq!(rt; Fault::NotText.to_string(alloc)?.as_str(), "NotText");
/// ```
#[derive(Clone, Copy, Debug, PartialEq, Eq)]
pub enum Fault {
    /// A read returned an error.
    Read,
    /// The input has more bytes than the limit.
    InputTooLong,
    /// The input isn't UTF-8.
    NotText,
    /// An allocation failed. Nothing was written by then.
    OutOfMemory,
    /// A write or the flush returned an error, or a write took no byte.
    Write,
}

impl Fault {
    ghost use Rattle.relpath_lib.specs.Fault.{fault_name};

    /// Returns the name of the fault.
    pub fn name(self) -> &'static str
        ensures { result.now ≡ fault_name self }
    {
        match self {
            Fault::Read => "Read",
            Fault::InputTooLong => "InputTooLong",
            Fault::NotText => "NotText",
            Fault::OutOfMemory => "OutOfMemory",
            Fault::Write => "Write",
        }
    }
}

impl fmt::Display for Fault {
    ghost use Rattle.relpath_lib.specs.Fault.{fault_name};

    // the fault's name
    ghost output = { λ fault. Some (fault_name fault) };

    // the same, cut and padded as asked
    ghost styled_output = { λ fault spec. Some (styled_text spec (fault_name fault)) };

    fn fmt<W: fmt::Write>(&self, f: &mut fmt::Formatter<W>) -> fmt::Result {
        f.pad(self.name())
    }
}

impl Error for Fault {}

impl From<AllocError> for Fault {
    ghost use Rattle.relpath_lib.specs.declared.fault.Fault.TheVariants.{OutOfMemory};

    // a failed allocation becomes `OutOfMemory`
    ghost from_gives = { λ _ fault. fault ≡ OutOfMemory };

    fn from(_: AllocError) -> Fault {
        Fault::OutOfMemory
    }
}
