//! Runs the scripts on standard input: each makes a disk in memory, and makes runs of `relmove_run` on it. Calls of the file
//! system fail in them, the power is lost, and other programs change files. A sweep makes the same run again for each call that
//! can fail.
//!
//! The page of the crate has the language, and `relmove_statements` what it shares with another program. A module uses modules
//! of the layers below, and those to its left in its own layer.
//!
//! ```text
//! all of a script            script
//! a statement                step
//! what statements do         settings  faults  kept  checks
//! calls                      call
//! the state of a script      scene
//! what it has                case  sweep  outcome  work
//! ```
#![tactic(auto)]

use crate::script::Runs;
use relmove_statements::run_input;
use std::io::{self, BufWriter, Write};
use std::process::ExitCode;

mod call;
mod case;
mod checks;
mod faults;
mod kept;
mod outcome;
mod scene;
mod script;
mod settings;
mod step;
mod sweep;
mod work;

fn main(rt: HostRuntime) -> io::Result<ExitCode> {
    let input = io::read_to_string(rt.alloc(), rt.reader())?;
    let mut out = BufWriter::new(rt.alloc(), io::writer(&rt))?;
    let have_passed = run_input(rt.alloc(), &Runs, input.as_str(), &mut out)?;
    out.flush()?;
    Ok(if have_passed {
        ExitCode::SUCCESS
    } else {
        ExitCode::FAILURE
    })
}
