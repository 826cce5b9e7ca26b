//! Reads lines that each name a call of `relative_path`, and writes the call's result for each, so that the results can be
//! compared with stored ones.
//!
//! `tools/conformance` says what the lines are, and what is written for each.
#![tactic(auto)]

use std::io::{self, BufWriter, Write};

mod answers;
mod call;
mod refusal;

fn main(rt: HostRuntime) -> io::Result<()> {
    let questions = io::read_to_string(rt.alloc(), rt.reader())?;
    let mut output = BufWriter::new(rt.alloc(), io::writer(&rt))?;
    for line in questions.split_terminator('\n') {
        match answers::answer(rt.alloc(), line) {
            Ok(text) => writeln!(output, "= {text}")?,
            Err(refusal) => writeln!(output, "! {refusal}")?,
        }
    }
    output.flush()
}
