//! Tests of what no contract says.
mod calling;
mod large;
mod many_moves;
mod one_move;
mod refusals;
mod tree_moves;

use relative_path::{RelativePath, RelativePathBuf};
use relative_path_moves::{ReferenceError, moved};
use std::alloc::{AllocError, Global};
use std::fmt::Debug;
use std::test::Fail;

fn as_paths<'a>((old, new): (&'a str, &'a str)) -> (RelativePath<'a>, RelativePath<'a>) {
    (RelativePath::new(old), RelativePath::new(new))
}

fn text_of(buf: &RelativePathBuf) -> &str {
    buf.as_relative_path().as_str()
}

// Fails in the words of this case where another value was found than is expected. A call of it costs
// a proof a fourth of what `assert_eq!` with a message does.
fn same<T: PartialEq + Debug + Drop>(case: &str, found: T, expected: T) -> Result<(), Fail> {
    if found == expected {
        Ok(())
    } else {
        Err(Fail::new(format_args!("{case:?}: {found:?}, not {expected:?}")))
    }
}

// Fails where a call made another text than is expected, or found no memory.
fn gives_text(case: &str, answer: Result<String, AllocError>, expected: &str) -> Result<(), Fail> {
    let made = answer?;
    same(case, made.as_str(), expected)
}

// Words for a case, moves, a reference of the first file that moves, and what it becomes, or an
// error's words after `! `. Moves are one text, which costs a proof less than a table in a table.
type Case = (&'static str, &'static str, &'static str, &'static str);

// Fails where a reference becomes another text than is expected in this case.
fn becomes_in(alloc: Global, (case, moves, reference, expected): Case) -> Result<(), Fail> {
    let moves = read_moves(alloc, moves)?;
    becomes(alloc, case, &moves, 0, reference, expected)
}

// The same of each of these cases.
fn all_become(alloc: Global, cases: &[Case]) -> Result<(), Fail> {
    for case in cases {
        becomes_in(alloc, *case)?;
    }
    Ok(())
}

// A move from a text such as `a > b`. Another text becomes a move to the root, which no table takes.
fn read_move<'a>(text: &'a str) -> (RelativePath<'a>, RelativePath<'a>) {
    as_paths(text.split_once(" > ").unwrap_or((text, "")))
}

// Moves from a text such as `a > b, c > d`.
fn read_moves<'a>(
    alloc: Global,
    text: &'a str,
) -> Result<Vec<(RelativePath<'a>, RelativePath<'a>)>, AllocError> {
    text.split(", ").map(read_move).collect(alloc)
}

// Fails where a reference of file number `i` becomes another text than is expected.
fn becomes(
    alloc: Global,
    case: &str,
    moves: &[(RelativePath<'_>, RelativePath<'_>)],
    i: usize,
    reference: &str,
    expected: &str,
) -> Result<(), Fail> {
    let answer = told(alloc, moves, i, reference)?;
    same(case, (reference, answer.as_str()), (reference, expected))
}

// What a reference of file number `i` becomes, or an error's words after `! `.
fn told(
    alloc: Global,
    moves: &[(RelativePath<'_>, RelativePath<'_>)],
    i: usize,
    reference: &str,
) -> Result<String, AllocError> {
    if i >= moves.len() {
        return String::from_str(alloc, "no such file");
    }
    match moved(alloc, moves, i, RelativePath::new(reference)) {
        Ok(way) => Ok(way.into_string()),
        Err(refusal) => format!(in alloc; "! {refusal}"),
    }
}

// What a reference of a page becomes, `as it is`, or an error's words after `! `.
fn told_of(
    alloc: Global,
    answer: Result<Option<RelativePathBuf>, ReferenceError>,
) -> Result<String, AllocError> {
    match answer {
        Ok(Some(way)) => Ok(way.into_string()),
        Ok(None) => String::from_str(alloc, "as it is"),
        Err(refusal) => format!(in alloc; "! {refusal}"),
    }
}
