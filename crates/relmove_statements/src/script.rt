//! A script: its definitions, and the line that says how it fails.
use crate::fault::{Failure, Fault, at, wrong};
use crate::line::{DEFINITION, ENDS, Line, cut, lines_from};
use std::alloc::Global;
use std::io;

// The name of the line that says how the line above it fails.
const FAILS: &str = "^";

// The name of a statement that stands for the statements of a definition.
const USE: &str = "use";

/// Runs the statements of a script.
pub trait Runner {
    /// Runs the statements of a script that has a title, without any `use`.
    fn run(
        &self,
        alloc: Global,
        title: Line<'_>,
        lines: &[Line<'_>],
        definitions: &[Definition<'_, '_>],
    ) -> Result<(), Failure>;
}

/// Statements that have a name.
#[derive(Clone, Copy)]
pub struct Definition<'l, 'a> {
    name: &'a str,
    lines: &'l [Line<'a>],
}

/// The definitions of an input.
pub fn definitions_of<'l, 'a>(
    alloc: Global,
    lines: &'l [Line<'a>],
) -> io::Result<Vec<Definition<'l, 'a>>> {
    let mut definitions = Vec::new(alloc);
    for (index, line) in lines.iter().enumerate() {
        if line.name == DEFINITION {
            definitions.push(Definition {
                name: line.rest,
                lines: lines_from(lines, index.saturating_add(1), ENDS),
            })?;
        }
    }
    Ok(definitions)
}

/// Runs a script, which has a title and these lines. If one of its lines says how the line above it fails, fails unless
/// that line fails so.
pub fn run_script<R: Runner>(
    alloc: Global,
    runner: &R,
    title: Line<'_>,
    lines: &[Line<'_>],
    definitions: &[Definition<'_, '_>],
) -> Result<(), Failure> {
    let Some((above, fails, below)) = cut(lines, FAILS) else {
        return run_lines(alloc, runner, title, lines, definitions);
    };
    let others = at(title, joined(alloc, above, below))?;
    match run_lines(alloc, runner, title, &others, definitions) {
        Ok(()) => wrong(fails, "the line above doesn't fail"),
        Err(failure) => at(fails, need_failure(alloc, &failure, fails)),
    }
}

// Two lists of lines as one.
fn joined<'a>(
    alloc: Global,
    first: &[Line<'a>],
    second: &[Line<'a>],
) -> Result<Vec<Line<'a>>, Fault> {
    let mut lines = Vec::from_slice(alloc, first)?;
    lines.extend_from_slice(second)?;
    Ok(lines)
}

// Fails unless a script failed in the line above this one, and for the reason that it says.
fn need_failure(alloc: Global, failure: &Failure, fails: Line<'_>) -> Result<(), Fault> {
    let Failure { number, fault, .. } = failure;
    let found = format!(in alloc; "line {number}: {fault}")?;
    let above = fails.number.saturating_sub(1);
    let why = fails.rest;
    let expected = format!(in alloc; "line {above}: {why}")?;
    if found.as_str() == expected.as_str() {
        return Ok(());
    }
    Err(Fault::Unlike {
        what: "the failure",
        found,
        expected,
    })
}

// Runs the lines of a script.
fn run_lines<R: Runner>(
    alloc: Global,
    runner: &R,
    title: Line<'_>,
    lines: &[Line<'_>],
    definitions: &[Definition<'_, '_>],
) -> Result<(), Failure> {
    let lines = expanded(alloc, lines, definitions)?;
    runner.run(alloc, title, &lines, definitions)
}

// Lines, with those of a definition in place of each statement that stands for them.
fn expanded<'a>(
    alloc: Global,
    lines: &[Line<'a>],
    definitions: &[Definition<'_, 'a>],
) -> Result<Vec<Line<'a>>, Failure> {
    let mut all = Vec::new(alloc);
    for line in lines {
        at(*line, push_expanded(&mut all, *line, definitions))?;
    }
    Ok(all)
}

// Adds a line, or the lines for which it stands.
fn push_expanded<'a>(
    all: &mut Vec<Line<'a>>,
    line: Line<'a>,
    definitions: &[Definition<'_, 'a>],
) -> Result<(), Fault> {
    if line.name == USE {
        all.extend_from_slice(lines_named(line.rest, definitions)?)?;
    } else {
        all.push(line)?;
    }
    Ok(())
}

/// The lines of the one definition of a name.
pub fn lines_named<'l, 'a>(
    name: &str,
    definitions: &[Definition<'l, 'a>],
) -> Result<&'l [Line<'a>], Fault> {
    let mut named = definitions
        .iter()
        .filter(|definition| definition.name == name);
    match (named.next(), named.next()) {
        (Some(definition), None) => Ok(definition.lines),
        (Some(_), Some(_)) => Err(Fault::Wrong("two definitions have this name")),
        (None, _) => Err(Fault::Wrong("no definition has this name")),
    }
}
