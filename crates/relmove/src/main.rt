//! `relmove`: moves files and directories, and changes the links of pages so that each still leads where it led.
//!
//! ```text
//! $ relmove --check docs
//! docs/index.md:3:8: old.md: nothing is there
//! ```
//!
//! `relmove_lib` does all of it but to take the process's own arguments and output.
#![tactic(auto)]

use relmove_lib::{Progress, WithProgress, answer};
use std::env;
use std::io::{self, BufWriter, IsTerminal};
use std::process::ExitCode;

// The status of a call that can't begin.
const REFUSED: u8 = 2;

fn main(rt: HostRuntime) -> ExitCode {
    match run(&rt) {
        Ok(status) => ExitCode::from(status),
        Err(error) => {
            // If standard error fails too, there is nowhere to report it.
            let _ = eprintln!(rt;
                "relmove: the arguments can't be read, or memory ran out: {error}"
            );
            ExitCode::from(REFUSED)
        }
    }
}

// Does what the process's arguments ask for. On a terminal, a long call prints its progress.
fn run(rt: &HostRuntime) -> io::Result<u8> {
    let arguments = env::args(rt)?.skip(1).collect::<Vec<_>>(rt.alloc())?;
    let words = arguments
        .iter()
        .map(|word| word.as_str())
        .collect::<Vec<_>>(rt.alloc())?;
    let mut input = rt.stdin();
    let mut out = BufWriter::new(rt.alloc(), io::writer(rt))?;
    let mut errors = rt.stderr();
    let status = if errors.is_terminal() {
        let progress = Progress::new();
        let watched = WithProgress::new(rt, &progress);
        answer(&watched, &words, &mut input, &mut out, &mut errors)
    } else {
        answer(rt, &words, &mut input, &mut out, &mut errors)
    };
    Ok(status.code())
}
