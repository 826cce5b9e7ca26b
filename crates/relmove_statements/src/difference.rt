//! Where what was found differs from what was expected.
use crate::fault::Fault;
use std::alloc::{AllocError, Global};

// What is shown in place of a line that isn't there.
const NOTHING: &str = "nothing";

// Two lines that differ. One is missing where its text ends.
type Different<'t> = (Option<&'t str>, Option<&'t str>);

/// Fails unless a text is the one that is expected.
pub fn need_same(
    alloc: Global,
    what: &'static str,
    found: &str,
    expected: &str,
) -> Result<(), Fault> {
    match first_difference(found, expected) {
        Some((found, expected)) => Err(Fault::Unlike {
            what,
            found: quoted(alloc, found)?,
            expected: quoted(alloc, expected)?,
        }),
        None => Ok(()),
    }
}

/// Fails unless a list of what is on a disk is the one that is expected.
pub fn need_same_tree(alloc: Global, found: &str, expected: &str) -> Result<(), Fault> {
    match first_difference(found, expected) {
        Some((found, expected)) => Err(Fault::Unlike {
            what: "the tree",
            found: readable(alloc, found)?,
            expected: readable(alloc, expected)?,
        }),
        None => Ok(()),
    }
}

// The first lines of two texts that differ.
fn first_difference<'t>(found: &'t str, expected: &'t str) -> Option<Different<'t>> {
    let mut others = expected.split_inclusive('\n');
    for line in found.split_inclusive('\n') {
        let other = others.next();
        if other != Some(line) {
            return Some((Some(line), other));
        }
    }
    let other = others.next()?;
    Some((None, Some(other)))
}

// A line as a message has it.
fn quoted(alloc: Global, line: Option<&str>) -> Result<String, AllocError> {
    match line {
        Some(line) => format!(in alloc; "{line:?}"),
        None => String::from_str(alloc, NOTHING),
    }
}

// A line of a list of what is on a disk as a message has it, with the text of a file in place of its bytes.
fn readable(alloc: Global, line: Option<&str>) -> Result<String, Fault> {
    let Some(line) = line else {
        return Ok(String::from_str(alloc, NOTHING)?);
    };
    let line = line.strip_suffix('\n').unwrap_or(line);
    if let Some((path, rest)) = line.split_once(" File([") {
        let numbers = rest.strip_suffix("])").unwrap_or(rest);
        if let Ok(text) = String::from_utf8(bytes_of_numbers(alloc, numbers)?) {
            return Ok(format!(in alloc; "{path} {text:?}")?);
        }
    }
    Ok(String::from_str(alloc, line)?)
}

// The bytes of a list of numbers.
fn bytes_of_numbers(alloc: Global, numbers: &str) -> Result<Vec<u8>, Fault> {
    let mut bytes = Vec::new(alloc);
    for number in numbers.split(", ") {
        if let Ok(byte) = number.parse::<u8>() {
            bytes.push(byte)?;
        }
    }
    Ok(bytes)
}
