//! The statements between a call and its status that say what happens in the call.
use crate::output::Output;
use relmove_disk::{Disk, Failing};
use relmove_statements::{
    Failure, Fault, Line, at, count_questions, cut, failing_of, number_of, surprise, two_of, wrong,
};
use std::alloc::Global;

/// The name of a line of standard input.
pub const INPUT: &str = "<";

const CLOCK: &str = "clock";

const OUTPUT_FAILS: &str = "output-fails";

const ASKS: &str = "asks";

const CALLS: &str = "calls";

const FAIL: &str = "fail";

const BEFORE: &str = "before";

/// The names of the statements that say what a call is given and does.
pub const GIVEN: &[&str] = &[INPUT, CLOCK, OUTPUT_FAILS, ASKS, CALLS];

/// The names of the statements of what happens at each call of the file system.
pub const SWEEPS: &[&str] = &[FAIL, BEFORE];

// The one statement of a name, if there is one.
fn the_one<'a>(lines: &[Line<'a>], name: &str) -> Result<Option<Line<'a>>, Failure> {
    let Some((_, line, rest)) = cut(lines, name) else {
        return Ok(None);
    };
    match cut(rest, name) {
        Some((_, second, _)) => wrong(second, "this is said twice"),
        None => Ok(Some(line)),
    }
}

/// Whether something happens at each call of the file system.
pub fn is_sweep(lines: &[Line<'_>]) -> bool {
    lines
        .iter()
        .any(|line| line.name == FAIL || line.name == BEFORE)
}

/// Lets what is to happen at each call of the file system happen at the one of this number.
pub fn arm(alloc: Global, disk: &Disk, number: u32, lines: &[Line<'_>]) -> Result<(), Failure> {
    disk.fail_at(0, Failing::Refused);
    if let Some(line) = the_one(lines, FAIL)? {
        at(line, fail(disk, number, line.rest))?;
    }
    if let Some(line) = the_one(lines, BEFORE)? {
        at(line, change_before(alloc, disk, number, line.rest))?;
    }
    Ok(())
}

// Makes the call of a number fail: `WAY at each call`.
fn fail(disk: &Disk, number: u32, words: &str) -> Result<(), Fault> {
    let Some(way) = words.strip_suffix(" at each call") else {
        return Err(Fault::Wrong("no moment is said"));
    };
    disk.fail_at(number, failing_of(way)?);
    Ok(())
}

// Lets another program change something before the call of a number: `each call: STATEMENT`.
fn change_before(alloc: Global, disk: &Disk, number: u32, words: &str) -> Result<(), Fault> {
    let Some(deed) = words.strip_prefix("each call: ") else {
        return Err(Fault::Wrong("no moment is said"));
    };
    surprise(alloc, disk, number, deed)
}

/// By how many milliseconds the clock goes on each time that it is read, if the call has one.
pub fn clock_of(lines: &[Line<'_>]) -> Result<Option<u64>, Failure> {
    match the_one(lines, CLOCK)? {
        Some(line) => Ok(Some(u64::from(at(line, number_of(line.rest))?))),
        None => Ok(None),
    }
}

/// Standard output, as it is before the call.
pub fn output_of(alloc: Global, lines: &[Line<'_>]) -> Result<Output, Failure> {
    match the_one(lines, OUTPUT_FAILS)? {
        Some(line) => at(line, failing_output(alloc, line.rest)),
        None => Ok(Output {
            bytes: Vec::new(alloc),
            takes: true,
            flushes: u32::MAX,
        }),
    }
}

// Standard output that takes no bytes, or of which a flush fails: `write`, or `flush NUMBER`.
fn failing_output(alloc: Global, words: &str) -> Result<Output, Fault> {
    let (takes, flushes) = match words.strip_prefix("flush ") {
        Some(digits) => (true, number_of(digits)?.saturating_sub(1)),
        None if words == "write" => (false, 0),
        None => return Err(Fault::Wrong("no output fails so")),
    };
    Ok(Output {
        bytes: Vec::new(alloc),
        takes,
        flushes,
    })
}

/// Begins to count how often the disk is asked what is at the path of which the lines say it.
pub fn count_questions_of(alloc: Global, disk: &Disk, lines: &[Line<'_>]) -> Result<(), Failure> {
    match the_one(lines, ASKS)? {
        Some(line) => at(line, count_questions_for(alloc, disk, line.rest)),
        None => Ok(()),
    }
}

// Begins to count how often the disk is asked what is at a path: `NUMBER PATH`.
fn count_questions_for(alloc: Global, disk: &Disk, words: &str) -> Result<(), Fault> {
    let (_, word) = two_of(words)?;
    count_questions(alloc, disk, word)
}

/// Fails unless a call asked the disk as often as the lines say, and made as many calls of the file system as the call before
/// it, if they say so.
pub fn need_terms(
    alloc: Global,
    disk: &Disk,
    (before, calls): (u32, u32),
    lines: &[Line<'_>],
) -> Result<(), Failure> {
    if let Some(line) = the_one(lines, ASKS)? {
        at(line, need_questions(alloc, disk, line.rest))?;
    }
    match the_one(lines, CALLS)? {
        Some(line) => at(line, need_calls(alloc, line.rest, before, calls)),
        None => Ok(()),
    }
}

// Fails unless the disk was asked so often.
fn need_questions(alloc: Global, disk: &Disk, words: &str) -> Result<(), Fault> {
    let (digits, _) = two_of(words)?;
    need_number(alloc, "the questions", disk.questions(), number_of(digits)?)
}

// Fails unless a call made as many calls of the file system as the one before it.
fn need_calls(alloc: Global, words: &str, before: u32, calls: u32) -> Result<(), Fault> {
    if words != "as before" {
        return Err(Fault::Wrong("no call is counted so"));
    }
    need_number(alloc, "the calls of the file system", calls, before)
}

// Fails unless a number is the one that is expected.
fn need_number(alloc: Global, what: &'static str, found: u32, expected: u32) -> Result<(), Fault> {
    if found == expected {
        return Ok(());
    }
    Err(Fault::Unlike {
        what,
        found: format!(in alloc; "{found}")?,
        expected: format!(in alloc; "{expected}")?,
    })
}
