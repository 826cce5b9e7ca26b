//! How a call ends, and what is on the disk then.
use crate::call::Done;
use crate::printed::need_printed;
use crate::terms::{GIVEN, SWEEPS};
use relmove_disk::Disk;
use relmove_statements::{
    Failure, Fault, Line, at, cut, empty_disk, is_among, lines_from, need_absent, need_disk,
    need_listing, need_nothing, need_same, need_there, path_of, set_up, two_of, wrong,
};
use std::alloc::Global;

/// The name of a call.
pub const CALL: &str = "$";

/// The name of the line above another way in which a call can end.
pub const OR: &str = "or";

// The names of the lines that say how a call ends: what it prints, its status, and the tree after it.
const OUTPUT: &str = "|";

const ERRORS: &str = "!";

const STATUS: &str = "=";

const AFTER: &str = "after";

// The names of the lines that say what a call prints.
const PRINTED: &[&str] = &[OUTPUT, ERRORS];

/// The names of the lines between the first call of a script and its status.
pub const FIRST: &[&[&str]] = &[PRINTED, GIVEN, SWEEPS];

/// The names of the lines between a later call and its status.
pub const LATER: &[&[&str]] = &[PRINTED, GIVEN];

/// The names of the lines above the status of another way in which a call can end.
pub const OTHER: &[&[&str]] = &[PRINTED];

/// How a call ends.
#[derive(Clone, Copy)]
pub struct Ending<'l, 'a> {
    /// The call, or the line above this ending.
    pub head: Line<'a>,
    /// The lines up to its status.
    pub lines: &'l [Line<'a>],
    status: Line<'a>,
    // The lines up to the next call.
    rest: &'l [Line<'a>],
    /// The next calls.
    pub next: &'l [Line<'a>],
}

/// The ending that lines say, up to the next ending of the same call.
pub fn ending_of<'l, 'a: 'l>(
    head: Line<'a>,
    lines: &'l [Line<'a>],
) -> Result<Ending<'l, 'a>, Failure> {
    let lines = lines_from(lines, 0, &[OR]);
    let Some((lines, status, below)) = cut(lines, STATUS) else {
        return Err(no_status(head));
    };
    let rest = lines_from(below, 0, &[CALL]);
    let (_, next) = below.split_at(rest.len().min(below.len()));
    Ok(Ending {
        head,
        lines,
        status,
        rest,
        next,
    })
}

// A call without a status.
fn no_status(head: Line<'_>) -> Failure {
    Failure {
        number: head.number,
        fault: Fault::Wrong("this call has no status"),
        when: None,
    }
}

/// Fails unless all lines up to a status have one of these names.
pub fn need_known(lines: &[Line<'_>], names: &[&[&str]]) -> Result<(), Failure> {
    for line in lines {
        if !names.iter().any(|names| is_among(line.name, names)) {
            return wrong(*line, "no such statement here");
        }
    }
    Ok(())
}

/// Fails unless a call ended so.
pub fn need_end(
    alloc: Global,
    disk: &Disk,
    done: &Done,
    before: &str,
    ending: Ending<'_, '_>,
) -> Result<(), Failure> {
    let (head, lines) = (ending.head, ending.lines);
    let out = ("standard output", done.out.as_slice());
    need_printed(alloc, head, out, lines, OUTPUT)?;
    let errors = ("standard error", done.errors.as_slice());
    need_printed(alloc, head, errors, lines, ERRORS)?;
    at(
        ending.status,
        need_status(alloc, done.status, ending.status.rest),
    )?;
    need_tree(alloc, disk, ending, before)
}

/// Whether a call has the status of this ending.
pub fn has_status(done: &Done, ending: Ending<'_, '_>) -> bool {
    match ending.status.rest.parse::<u8>() {
        Ok(status) => status == done.status,
        Err(_) => false,
    }
}

// Fails unless a status is the one that is expected.
fn need_status(alloc: Global, status: u8, expected: &str) -> Result<(), Fault> {
    match expected.parse::<u8>() {
        Ok(number) if number == status => Ok(()),
        Ok(number) => Err(Fault::Unlike {
            what: "the status",
            found: format!(in alloc; "{status}")?,
            expected: format!(in alloc; "{number}")?,
        }),
        Err(_) => Err(Fault::Wrong("not a number")),
    }
}

// Fails unless the tree after a call is the one that is said, or the one before the call.
fn need_tree(
    alloc: Global,
    disk: &Disk,
    ending: Ending<'_, '_>,
    before: &str,
) -> Result<(), Failure> {
    match ending.rest.split_first() {
        Some((first, tree)) if first.name == AFTER => need_said_tree(alloc, disk, *first, tree),
        _ => at(ending.head, need_listing(alloc, disk, before)),
    }
}

// Fails unless the tree is the one that is said. It may be said to be any.
fn need_said_tree(
    alloc: Global,
    disk: &Disk,
    after: Line<'_>,
    tree: &[Line<'_>],
) -> Result<(), Failure> {
    if after.rest == "anything" {
        return need_anything(alloc, disk, tree);
    }
    at(after, need_nothing(after.rest))?;
    let expected = at(after, empty_disk(alloc))?;
    set_up(alloc, &expected, tree)?;
    at(after, need_disk(alloc, disk, &expected))?;
    need_modes(alloc, disk, tree)
}

// Fails unless something is at a path, or nothing is, where the lines say so.
fn need_anything(alloc: Global, disk: &Disk, lines: &[Line<'_>]) -> Result<(), Failure> {
    for line in lines {
        at(*line, need_thing(alloc, disk, line.name, line.rest))?;
    }
    Ok(())
}

// Fails unless something is at a path, or nothing is.
fn need_thing(alloc: Global, disk: &Disk, name: &str, words: &str) -> Result<(), Fault> {
    match name {
        "has" => need_there(alloc, disk, words),
        "lacks" => need_absent(alloc, disk, words),
        _ => Err(Fault::Wrong("no such statement here")),
    }
}

// Fails unless the permissions are those that lines say.
fn need_modes(alloc: Global, disk: &Disk, lines: &[Line<'_>]) -> Result<(), Failure> {
    for line in lines {
        if line.name == "mode" {
            at(*line, need_mode(alloc, disk, line.rest))?;
        }
    }
    Ok(())
}

// Fails unless what is at a path has these permissions, in octal digits.
fn need_mode(alloc: Global, disk: &Disk, words: &str) -> Result<(), Fault> {
    let (word, digits) = two_of(words)?;
    let (mode, _, _) = disk.rights(path_of(alloc, word)?.as_str())?;
    let found = format!(in alloc; "{mode:o}")?;
    need_same(alloc, "the permissions", found.as_str(), digits)
}

/// Does what the lines below a call's status say of the disk before the next call, unless they say what is there after it.
pub fn set_up_next(alloc: Global, disk: &Disk, ending: Ending<'_, '_>) -> Result<(), Failure> {
    match ending.rest.first() {
        Some(first) if first.name == AFTER => Ok(()),
        _ => set_up(alloc, disk, ending.rest),
    }
}
