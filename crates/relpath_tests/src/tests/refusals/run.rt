//! `run`, over memory.
use super::marks::{begin, end};
use crate::tests::run::{SIX_ANSWERS, SIX_LINES};
use crate::tests::same;
use relpath_lib::run::run;
use relpath_lib::{Fault, Meter};
use std::alloc::{AllocError, Global};
use std::test::Fail;

// A text, a path of 10,000 bytes and 5,000 components after it, and an end.
fn with_long_path(alloc: Global, text: &str, end: &str) -> Result<String, AllocError> {
    let mut line = text.to_string(alloc)?;
    line.push_str("a/".repeat(alloc, 4_999)?.as_str())?;
    line.push_str("aa")?;
    line.push_str(end)?;
    Ok(line)
}

// Whether `run` over the input writes this output, or nothing if an allocation failed.
fn gives(alloc: Global, case: &str, input: &[u8], output: &[u8]) -> Result<(), Fail> {
    let mut reader = Meter::new(input);
    let mut writer = Meter::new(Vec::with_capacity(alloc, output.len())?);
    begin(alloc);
    let answer = run(alloc, &mut reader, &mut writer);
    end(alloc, answer == Err(Fault::OutOfMemory))?;
    let written = writer.into_inner();
    if answer == Err(Fault::OutOfMemory) {
        same(case, &written.len(), &0)
    } else {
        let is_output = written.as_slice() == output;
        same(case, &(answer, is_output), &(Ok(()), true))
    }
}

// Requests: 65537 376 7s 3 6s 14 = 0, 65537 = 0, 65537 40040 5000s 10000 = 0, 65537 131072 262144 524288 1048576 = 0
#[test]
fn lines(rt: HostRuntime) -> Result<(), Fail> {
    let long = with_long_path(rt.alloc(), "normalize\t", "")?;
    let answer = with_long_path(rt.alloc(), "= ", "\n")?;
    gives(rt.alloc(), "six lines", SIX_LINES, SIX_ANSWERS)?;
    gives(rt.alloc(), "no line", b"", b"")?;
    gives(
        rt.alloc(),
        "a long path",
        long.as_bytes(),
        answer.as_bytes(),
    )?;
    let lines = "\n".repeat(rt.alloc(), 32_768)?;
    let answers = "! unknown command\n".repeat(rt.alloc(), 32_768)?;
    gives(
        rt.alloc(),
        "answers longer than half a MiB",
        lines.as_bytes(),
        answers.as_bytes(),
    )
}
