//! `relpath`: reads commands on relative paths, one a line, and writes one line for each.
//!
//! ```console
//! $ printf 'normalize\ta/../b\n' | relpath
//! = b
//! ```
//!
//! `relpath_lib` does all of it but to take the process's own input and output.
#![tactic(auto)]

use relpath_lib::Meter;
use relpath_lib::report::report;
use relpath_lib::run::run;
use std::process::ExitCode;

fn main(rt: HostRuntime) -> ExitCode {
    let mut reader = Meter::new(rt.stdin());
    let mut writer = Meter::new(rt.stdout());
    let ended = run(rt.alloc(), &mut reader, &mut writer);
    report(ended, &mut Meter::new(rt.stderr()))
}
