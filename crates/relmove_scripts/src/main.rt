//! Runs the scripts on standard input: each makes a disk in memory, calls `relmove` over it, and says what the calls print
//! and what is on the disk after them.
//!
//! The page of the crate has the language, and `relmove_statements` what it shares with other programs. A module uses modules
//! of the layers below, and those to its left in its own layer.
//!
//! ```text
//! all of a script            script
//! how a call ends            ending
//! a call                     call
//! what it is given           terms
//! what it prints             output  printed
//! ```
#![tactic(auto)]

use crate::script::Calls;
use relmove_statements::run_input;
use std::io::{self, BufWriter, Write};
use std::process::ExitCode;

mod call;
mod ending;
mod output;
mod printed;
mod script;
mod terms;

fn main(rt: HostRuntime) -> io::Result<ExitCode> {
    let input = io::read_to_string(rt.alloc(), rt.reader())?;
    let mut out = BufWriter::new(rt.alloc(), io::writer(&rt))?;
    let have_passed = run_input(rt.alloc(), &Calls, input.as_str(), &mut out)?;
    out.flush()?;
    Ok(if have_passed {
        ExitCode::SUCCESS
    } else {
        ExitCode::FAILURE
    })
}
