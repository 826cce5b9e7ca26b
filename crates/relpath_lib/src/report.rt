//! What the program prints of how `run` ended, and its exit status.
ghost use Rattle.std.specs.Prelude.{◌≡◌, Err, is_err, IsOk, OnOk, if◌then◌else◌};
ghost use Rattle.std.specs.Process.{exit_status};
ghost use Rattle.relpath_lib.specs.Meter.{failures_of, IsFresh, Appended};
ghost use Rattle.relpath_lib.specs.Report.{report_of, status_of};

use crate::fault::Fault;
use crate::meter::Meter;
use crate::output::write_all;
use std::io::Write;
use std::process::ExitCode;

/// Prints the name of the fault with which `run` ended, if it failed. Returns the exit status.
///
/// If a write fails, a part of the line may be missing.
///
/// ```
/// let mut errors = Meter::new(Vec::new(alloc));
/// assert_eq!(rt; report::report(Err(Fault::NotText), &mut errors), ExitCode::FAILURE);
/// assert_eq!(rt; errors.into_inner().as_slice(), b"relpath: NotText\n".as_slice());
/// ```
pub fn report<W: Write>(ended: Result<(), Fault>, errors: &mut Meter<W>) -> ExitCode
    requires { IsFresh errors.old }
    // 0 for `Ok`, 1 for a fault
    ensures status { exit_status result ≡ status_of ended }
    // unless a write fails: a fault's line, nothing for `Ok`
    ensures printed { failures_of errors.new ≡ 0 →
        Appended W.contents errors.old errors.new (report_of ended) }
    // at `Ok` the meter is as before
    ensures silent { IsOk ended → errors.new ≡ errors.old }
{
    match ended {
        Ok(()) => ExitCode::SUCCESS,
        Err(fault) => {
            // If standard error fails too, there is nowhere to report it.
            let _ = print_fault(fault, errors);
            ExitCode::FAILURE
        }
    }
}

// Prints the line with the name of a fault.
fn print_fault<W: Write>(fault: Fault, errors: &mut Meter<W>) -> Result<(), Fault>
    requires { IsFresh errors.old }
    ensures printed { OnOk result (Appended W.contents errors.old errors.new (report_of (Err fault))) }
    ensures failures { failures_of errors.new ≡ (if is_err result then 1 else 0) }
{
    write_all(errors, b"relpath: ")?;
    write_all(errors, fault.name().as_bytes())?;
    write_all(errors, b"\n")
}
