//! Moves that are refused.
use super::planned::planned;
use super::same;
use relmove_plan::{NameRule, Refusal};
use std::alloc::Global;
use std::test::Fail;

const ROWS: [(&str, &str); 13] = [
    ("a.md", "a"),
    ("b.md", "b"),
    ("d", "/"),
    ("d/a.md", "da"),
    ("d/s", "/"),
    ("d/s/t", "t"),
    ("f", "/"),
    ("f/g", "/?"),
    ("l", "-> d"),
    ("m", "/"),
    ("v", "/..."),
    ("d/v", "/..."),
    ("f.x", "/?"),
];

const REFUSED: [(&str, &[(&str, &str)], &str); 22] = [
    (
        "the root moves",
        &[("a.md", "n"), ("", "x")],
        "move 1: a path leads to no file of the root",
    ),
    (
        "onto the root",
        &[("a.md", "d/..")],
        "move 0: a path leads to no file of the root",
    ),
    (
        "from above",
        &[("a.md", "n"), ("../x", "y")],
        "move 1: a path leads above the root",
    ),
    (
        "to above",
        &[("a.md", "d/../../x")],
        "move 0: a path leads above the root",
    ),
    (
        "into itself",
        &[("d", "d/s/x")],
        "move 0: its new path is its old one or below it",
    ),
    (
        "onto itself",
        &[("d", "./d/s/..//")],
        "move 0: a path leads to no file of the root",
    ),
    (
        "to where it is",
        &[("a.md", "d/../a.md")],
        "move 0: its new path is its old one or below it",
    ),
    (
        "a device",
        &[("a.md", "m/nul.md")],
        "move 0: a new name isn't plain on every platform",
    ),
    (
        "a run's own name",
        &[("a.md", "m/.relmove-1")],
        "move 0: a name begins with .relmove",
    ),
    (
        "twice",
        &[("a.md", "x"), ("./a.md", "y")],
        "moves 0 and 1 have the same old path",
    ),
    (
        "nothing there",
        &[("a.md", "x"), ("d/b.md", "y")],
        "move 1: nothing is at its old path",
    ),
    (
        "a foreign name",
        &[("a.md", "x"), ("f", "y")],
        "move 1: it takes along a name that isn't UTF-8",
    ),
    (
        "its directory",
        &[("f/g", "y"), ("f", "x")],
        "move 0: it takes along a name that isn't UTF-8",
    ),
    (
        "a longer name",
        &[("a.md", "x"), ("f.x", "y")],
        "move 1: it takes along a name that isn't UTF-8",
    ),
    (
        "one new path",
        &[("a.md", "x"), ("b.md", "m/../x")],
        "moves 0 and 1 have the same new path",
    ),
    (
        "a file is there",
        &[("a.md", "b.md")],
        "move 0: its new path is taken",
    ),
    (
        "a directory is there",
        &[("a.md", "x"), ("d", "m")],
        "move 1: its new path is taken",
    ),
    (
        "a file of a directory",
        &[("d", "n"), ("a.md", "n/a.md")],
        "a.md and d/a.md get the same path",
    ),
    (
        "below a file",
        &[("a.md", "b.md/x/y")],
        "move 0: its new path is below a file",
    ),
    (
        "below a symbolic link",
        &[("a.md", "l/x")],
        "move 0: its new path is below a file",
    ),
    (
        "below a file that comes",
        &[("a.md", "n"), ("b.md", "n/x")],
        "move 1: its new path is below a file",
    ),
    (
        "below a moved file",
        &[("d", "n"), ("b.md", "n/a.md/x")],
        "move 1: its new path is below a file",
    ),
];

// Old and new paths with a name of a run's own.
const OWN_NAMES: [(&str, &[(&str, &str)], &str); 7] = [
    (
        "the journal moves",
        &[(".relmove", "x")],
        "move 0: a name begins with .relmove",
    ),
    (
        "a new journal moves",
        &[("a.md", "x"), (".relmove-journal", "y")],
        "move 1: a name begins with .relmove",
    ),
    (
        "a name of the old path",
        &[("d/.relmove-1/a.md", "x")],
        "move 0: a name begins with .relmove",
    ),
    (
        "a name that the old path leaves again",
        &[(".relmove-1/../a.md", "x")],
        "move 0: a name begins with .relmove",
    ),
    (
        "a name of the new path",
        &[("a.md", ".relmove-1/x")],
        "move 0: a name begins with .relmove",
    ),
    (
        "the new name isn't plain either",
        &[("a.md", ".relmove?")],
        "move 0: a new name isn't plain on every platform",
    ),
    (
        "and neither is another new name",
        &[(".relmove", "m/nul.md")],
        "move 0: a new name isn't plain on every platform",
    ),
];

// New paths near a directory that isn't read.
const UNREAD: [(&str, &[(&str, &str)], &str); 11] = [
    (
        "into a directory that isn't read",
        &[("a.md", "v/x")],
        "move 0: its new path is below a directory that isn't read",
    ),
    (
        "far below it",
        &[("a.md", "x"), ("b.md", "v/x/y/z")],
        "move 1: its new path is below a directory that isn't read",
    ),
    (
        "into where it moves",
        &[("v", "n"), ("a.md", "n/x")],
        "move 1: its new path is below a directory that isn't read",
    ),
    (
        "into it where its directory moves",
        &[("d", "n"), ("a.md", "n/v/x")],
        "move 1: its new path is below a directory that isn't read",
    ),
    (
        "into it where it leaves a directory that moves",
        &[("a.md", "w/x"), ("d", "n"), ("d/v", "w")],
        "move 0: its new path is below a directory that isn't read",
    ),
    ("onto it", &[("a.md", "v")], "move 0: its new path is taken"),
    (
        "onto where it moves",
        &[("v", "n"), ("a.md", "n")],
        "moves 0 and 1 have the same new path",
    ),
    (
        "onto where its directory takes it",
        &[("d", "n"), ("a.md", "n/v")],
        "a.md and d/v get the same path",
    ),
    (
        "from inside it",
        &[("v/x", "y")],
        "move 0: nothing is at its old path",
    ),
    (
        "it is below a file",
        &[("v", "l/v"), ("a.md", "l/v/x")],
        "move 0: its new path is below a file",
    ),
    (
        "another move is below a file",
        &[("a.md", "v/x"), ("b.md", "l/y")],
        "move 1: its new path is below a file",
    ),
];

const ACCEPTED: [(&str, &[(&str, &str)]); 7] = [
    ("a directory that isn't read moves", &[("v", "n")]),
    ("beside it", &[("v", "n"), ("a.md", "x/n")]),
    ("a longer name", &[("v", "n"), ("a.md", "nn/x")]),
    ("a shorter name", &[("v", "nn"), ("a.md", "n/x")]),
    ("where it was", &[("v", "n"), ("a.md", "v/x")]),
    (
        "it comes into a new directory",
        &[("v", "n/v"), ("a.md", "n/x")],
    ),
    (
        "a name nearly of a run's own",
        &[("a.md", ".relmov/x.relmove")],
    ),
];

fn is_refused(
    alloc: Global,
    case: &str,
    moves: &[(&str, &str)],
    expected: &str,
) -> Result<(), Fail> {
    match planned(alloc, &ROWS, moves, NameRule::Plain)? {
        Ok(_) => Err(Fail::new(format_args!("{case:?}: a plan"))),
        Err(refusal) => same(case, &refusal.to_string(alloc)?.as_str(), &expected),
    }
}

fn is_accepted(alloc: Global, case: &str, moves: &[(&str, &str)]) -> Result<(), Fail> {
    match planned(alloc, &ROWS, moves, NameRule::Plain)? {
        Ok(_) => Ok(()),
        Err(refusal) => Err(Fail::new(format_args!("{case:?}: {refusal}"))),
    }
}

#[test]
fn refuses_moves(rt: HostRuntime) -> Result<(), Fail> {
    for (case, moves, expected) in &REFUSED {
        is_refused(rt.alloc(), case, moves, expected)?;
    }
    Ok(())
}

#[test]
fn refuses_the_names_of_a_run(rt: HostRuntime) -> Result<(), Fail> {
    for (case, moves, expected) in &OWN_NAMES {
        is_refused(rt.alloc(), case, moves, expected)?;
    }
    Ok(())
}

#[test]
fn refuses_moves_into_directories_that_are_not_read(rt: HostRuntime) -> Result<(), Fail> {
    for (case, moves, expected) in &UNREAD {
        is_refused(rt.alloc(), case, moves, expected)?;
    }
    Ok(())
}

#[test]
fn accepts_moves(rt: HostRuntime) -> Result<(), Fail> {
    for (case, moves) in &ACCEPTED {
        is_accepted(rt.alloc(), case, moves)?;
    }
    Ok(())
}

#[test]
fn takes_any_name(rt: HostRuntime) -> Result<(), Fail> {
    let plan = planned(rt.alloc(), &ROWS, &[("a.md", "m/nul.md")], NameRule::Any)?;
    same("a device", &plan.is_ok(), &true)?;
    let own = planned(rt.alloc(), &ROWS, &[("a.md", ".relmove?")], NameRule::Any)?;
    same("a run's own", &own.err(), &Some(Refusal::ReservedName(0)))
}
