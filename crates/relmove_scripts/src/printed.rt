//! What a call reads and prints, and the lines that say so.
use relmove_statements::{Failure, Fault, Line, at, bytes_of, line_of, need_same};
use std::alloc::Global;

// What a line of output ends in that stands for any line with this beginning.
const ANY_END: &str = "\\*";

/// The bytes of all lines of a name.
pub fn bytes_of_lines(alloc: Global, lines: &[Line<'_>], name: &str) -> Result<Vec<u8>, Failure> {
    let mut bytes = Vec::new(alloc);
    for line in lines {
        if line.name == name {
            at(*line, push_line(alloc, &mut bytes, line.rest))?;
        }
    }
    Ok(bytes)
}

// Adds a line.
fn push_line(alloc: Global, bytes: &mut Vec<u8>, text: &str) -> Result<(), Fault> {
    let line = line_of(alloc, text)?;
    Ok(bytes.extend_from_slice(line.as_slice())?)
}

/// Fails unless exactly what the lines of a name say was printed.
pub fn need_printed(
    alloc: Global,
    head: Line<'_>,
    (what, found): (&'static str, &[u8]),
    lines: &[Line<'_>],
    name: &str,
) -> Result<(), Failure> {
    let mut expected = Vec::new(alloc);
    for line in lines {
        if line.name == name {
            at(*line, push_expected(alloc, &mut expected, found, line.rest))?;
        }
    }
    at(
        head,
        need_same_bytes(alloc, what, found, expected.as_slice()),
    )
}

// Adds a line that is expected. One that may have any end gets that of the line that was printed in its place, if this one has
// the same beginning.
fn push_expected(
    alloc: Global,
    expected: &mut Vec<u8>,
    found: &[u8],
    line: &str,
) -> Result<(), Fault> {
    let Some(start) = line.strip_suffix(ANY_END) else {
        return push_line(alloc, expected, line);
    };
    let start = bytes_of(alloc, start)?;
    let printed = first_line(found.get(expected.len()..).unwrap_or(&[]));
    if printed.starts_with(start.as_slice()) {
        return Ok(expected.extend_from_slice(printed)?);
    }
    expected.extend_from_slice(start.as_slice())?;
    expected.extend_from_slice(ANY_END.as_bytes())?;
    Ok(expected.push(b'\n')?)
}

// The first line, with its end.
fn first_line(bytes: &[u8]) -> &[u8] {
    match bytes.iter().position(|byte| *byte == b'\n') {
        Some(end) => bytes.get(..end.saturating_add(1)).unwrap_or(bytes),
        None => bytes,
    }
}

// Fails unless bytes are those that are expected.
fn need_same_bytes(
    alloc: Global,
    what: &'static str,
    found: &[u8],
    expected: &[u8],
) -> Result<(), Fault> {
    match (str::from_utf8(found), str::from_utf8(expected)) {
        (Ok(found), Ok(expected)) => need_same(alloc, what, found, expected),
        _ => Err(Fault::Wrong("what is printed, or expected, isn't UTF-8")),
    }
}
