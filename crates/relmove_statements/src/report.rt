//! Runs the scripts of an input, and prints which of them fail.
use crate::fault::{Failure, wrong};
use crate::line::{ENDS, HEADING, Line, TITLE, lines_from, lines_of};
use crate::script::{Definition, Runner, definitions_of, run_script};
use std::alloc::Global;
use std::io::{self, Write};

// What scripts above the first heading are printed as.
const NO_TOPIC: &str = "no topic";

// How many scripts passed and failed.
#[derive(Clone, Copy)]
struct Count {
    passed: usize,
    failed: usize,
}

impl Count {
    // Adds a script.
    fn add(&mut self, has_passed: bool) {
        if has_passed {
            self.passed = self.passed.saturating_add(1);
        } else {
            self.failed = self.failed.saturating_add(1);
        }
    }

    // Adds the scripts of a topic.
    fn add_all(&mut self, topic: Count) {
        self.passed = self.passed.saturating_add(topic.passed);
        self.failed = self.failed.saturating_add(topic.failed);
    }

    // Prints how many scripts of this name passed and failed, if there are any.
    fn print<W: Write>(self, name: &str, out: &mut W) -> io::Result<()> {
        let Count { passed, failed } = self;
        if passed == 0 && failed == 0 {
            return Ok(());
        }
        writeln!(out, "{name}: {passed} passed, {failed} failed")
    }
}

// No scripts.
const NONE: Count = Count {
    passed: 0,
    failed: 0,
};

/// Runs all scripts of an input. Prints those that fail, and how many of each topic passed and failed. Returns whether
/// there are scripts, and all passed.
pub fn run_input<R: Runner, W: Write>(
    alloc: Global,
    runner: &R,
    input: &str,
    out: &mut W,
) -> io::Result<bool> {
    let lines = lines_of(alloc, input)?;
    let definitions = definitions_of(alloc, &lines)?;
    run_topics(alloc, runner, &lines, &definitions, out)
}

// Runs the scripts of each topic.
fn run_topics<R: Runner, W: Write>(
    alloc: Global,
    runner: &R,
    lines: &[Line<'_>],
    definitions: &[Definition<'_, '_>],
    out: &mut W,
) -> io::Result<bool> {
    let mut all = NONE;
    all.add_all(run_topic(
        alloc,
        runner,
        NO_TOPIC,
        lines_from(lines, 0, &[HEADING]),
        definitions,
        out,
    )?);
    for (index, line) in lines.iter().enumerate() {
        if line.name == HEADING {
            let topic = lines_from(lines, index.saturating_add(1), &[HEADING]);
            all.add_all(run_topic(alloc, runner, line.rest, topic, definitions, out)?);
        }
    }
    all.print("all", out)?;
    Ok(all.passed > 0 && all.failed == 0)
}

// Runs the scripts of a topic. A line that is in no script counts as one that failed.
fn run_topic<R: Runner, W: Write>(
    alloc: Global,
    runner: &R,
    name: &str,
    lines: &[Line<'_>],
    definitions: &[Definition<'_, '_>],
    out: &mut W,
) -> io::Result<Count> {
    let mut count = NONE;
    if let Some(line) = lines_from(lines, 0, ENDS).first() {
        count.add(print(name, wrong(*line, "this line is in no script"), out)?);
    }
    for (index, line) in lines.iter().enumerate() {
        if line.name == TITLE {
            let body = lines_from(lines, index.saturating_add(1), ENDS);
            let outcome = run_script(alloc, runner, *line, body, definitions);
            count.add(print(line.rest, outcome, out)?);
        }
    }
    count.print(name, out)?;
    Ok(count)
}

// Prints why a script failed, if it did. Returns whether it passed.
fn print<W: Write>(title: &str, outcome: Result<(), Failure>, out: &mut W) -> io::Result<bool> {
    match outcome {
        Ok(()) => Ok(true),
        Err(failure) => {
            let Failure {
                number,
                fault,
                when,
            } = failure;
            match when {
                Some(when) => writeln!(out, "line {number}: {title}, {when}: {fault}")?,
                None => writeln!(out, "line {number}: {title}: {fault}")?,
            }
            Ok(false)
        }
    }
}
