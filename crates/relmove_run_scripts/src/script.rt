//! A script: its case, and its statements, once for each value of its sweep.
use crate::case::case_named;
use crate::scene::{Flow, Scene};
use crate::step::{CALL, step};
use relmove_statements::{
    Definition, Failure, Fault, Line, Runner, add_when, at, cut, number_of, wrong,
};
use std::alloc::{AllocError, Global};

// The name of a case, and of the statement that counts how often a script comes to it.
const CASE: &str = "case";

const COUNT: &str = "count";

// Runs of a script at most.
const MOST_RUNS: u32 = 10_000_000;

/// Runs scripts.
#[derive(Clone, Copy)]
pub struct Runs;

impl Runner for Runs {
    fn run(
        &self,
        alloc: Global,
        title: Line<'_>,
        lines: &[Line<'_>],
        definitions: &[Definition<'_, '_>],
    ) -> Result<(), Failure> {
        if cut(lines, CALL).is_none() {
            return wrong(title, "this script makes no call");
        }
        let (name, lines) = match lines.split_first() {
            Some((first, rest)) if first.name == CASE => (Some(first.rest), rest),
            _ => (None, lines),
        };
        match scene_of(alloc, name, definitions) {
            Ok(mut scene) => sweep(&mut scene, title, lines, definitions),
            Err(fault) => at(title, Err(fault)),
        }
    }
}

// The state of a script that begins with the case of a name.
fn scene_of<'a>(
    alloc: Global,
    name: Option<&str>,
    definitions: &[Definition<'_, 'a>],
) -> Result<Scene<'a>, Fault> {
    Scene::new(alloc, case_named(alloc, name, definitions)?)
}

// Runs the statements for each value.
fn sweep(
    scene: &mut Scene<'_>,
    title: Line<'_>,
    lines: &[Line<'_>],
    definitions: &[Definition<'_, '_>],
) -> Result<(), Failure> {
    let mut counts = at(title, counts_of(scene.alloc, lines))?;
    for _ in 0..MOST_RUNS {
        if let Err(failure) = run_once(scene, lines, definitions, &mut counts) {
            return Err(with_values(scene, failure));
        }
        if !scene.advance() {
            return need_counts(scene.alloc, title, lines, &counts);
        }
    }
    wrong(title, "this sweep has no end")
}

// How often the script came to each line.
fn counts_of(alloc: Global, lines: &[Line<'_>]) -> Result<Vec<u32>, Fault> {
    let mut counts = Vec::with_capacity(alloc, lines.len())?;
    for _ in lines {
        counts.push(0)?;
    }
    Ok(counts)
}

// Says at which values a statement failed.
fn with_values(scene: &Scene<'_>, failure: Failure) -> Failure {
    let when = match scene.sweep.words(scene.alloc) {
        Ok(when) => when,
        Err(_) => None,
    };
    add_when(failure, when)
}

// Runs the statements once.
fn run_once(
    scene: &mut Scene<'_>,
    lines: &[Line<'_>],
    definitions: &[Definition<'_, '_>],
    counts: &mut [u32],
) -> Result<(), Failure> {
    scene.renew()?;
    for (index, line) in lines.iter().enumerate() {
        if let Some(count) = counts.get_mut(index) {
            *count = count.saturating_add(1);
        }
        if line.name != COUNT && !is_said(lines, index) {
            let (_, below) = lines.split_at(index.saturating_add(1).min(lines.len()));
            if step(scene, *line, below, definitions)? == Flow::Pass {
                return Ok(());
            }
        }
    }
    Ok(())
}

// Whether a line belongs to what the statement above says of a call.
fn is_said(lines: &[Line<'_>], index: usize) -> bool {
    let Some(line) = lines.get(index) else {
        return false;
    };
    if line.name != "!" && line.name != "|" {
        return false;
    }
    let (above, _) = lines.split_at(index.min(lines.len()));
    match above.last() {
        Some(above) => ["=", "said", "!", "|"]
            .iter()
            .any(|name| *name == above.name),
        None => false,
    }
}

// Fails unless the script came to its end, and to each line that says how often, so often.
fn need_counts(
    alloc: Global,
    title: Line<'_>,
    lines: &[Line<'_>],
    counts: &[u32],
) -> Result<(), Failure> {
    for (line, count) in lines.iter().zip(counts.iter()) {
        if line.name == COUNT {
            at(*line, need_count(alloc, line.rest, *count))?;
        }
    }
    match (lines.last(), counts.last()) {
        (Some(line), Some(0)) if line.name != COUNT => wrong(*line, "no call comes to this line"),
        _ => Ok(()),
    }
}

// Fails unless a number is the one that is expected, or not below the one before `..`.
fn need_count(alloc: Global, expected: &str, count: u32) -> Result<(), Fault> {
    let is_right = match expected.strip_suffix("..") {
        Some(least) => count >= number_of(least)?,
        None => count == number_of(expected)?,
    };
    if is_right {
        return Ok(());
    }
    Err(Fault::Unlike {
        what: "the count",
        found: format!(in alloc; "{count}")?,
        expected: String::from_str(alloc, expected)?,
    })
}
