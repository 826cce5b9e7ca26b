//! A script: a disk, and calls of relmove over it.
use crate::call::{Done, make_call};
use crate::ending::{
    CALL, Ending, FIRST, LATER, OR, OTHER, ending_of, has_status, need_end, need_known, set_up_next,
};
use crate::terms::{arm, is_sweep, need_terms};
use relmove_disk::{Disk, Failing};
use relmove_statements::{
    Definition, Failure, Fault, Line, Runner, add_when, at, cut, empty_disk, lines_from, set_up,
    wrong,
};
use std::alloc::{AllocError, Global};

// A call makes fewer calls of the file system.
const MOST_CALLS: u32 = 100_000;

/// Runs scripts.
#[derive(Clone, Copy)]
pub struct Calls;

// A script: its title, the lines before its first call, this call, and the ways in which it can end.
#[derive(Drop)]
struct Script<'l, 'a> {
    title: Line<'a>,
    start: &'l [Line<'a>],
    call: Line<'a>,
    first: Ending<'l, 'a>,
    endings: Vec<Ending<'l, 'a>>,
}

impl Runner for Calls {
    fn run(
        &self,
        alloc: Global,
        title: Line<'_>,
        lines: &[Line<'_>],
        _definitions: &[Definition<'_, '_>],
    ) -> Result<(), Failure> {
        let Some((start, call, below)) = cut(lines, CALL) else {
            return wrong(title, "this script makes no call");
        };
        let first = ending_of(call, below)?;
        let script = Script {
            title,
            start,
            call,
            first,
            endings: endings_of(alloc, first, below)?,
        };
        sweep(alloc, &script)
    }
}

// The ways in which a call can end.
fn endings_of<'l, 'a: 'l>(
    alloc: Global,
    first: Ending<'l, 'a>,
    below: &'l [Line<'a>],
) -> Result<Vec<Ending<'l, 'a>>, Failure> {
    need_known(first.lines, FIRST)?;
    let mut endings = Vec::new(alloc);
    at(first.head, push(&mut endings, first))?;
    for (index, line) in below.iter().enumerate() {
        if line.name == OR {
            let lines = lines_from(below, index.saturating_add(1), &[OR]);
            let ending = ending_of(*line, lines)?;
            need_known(ending.lines, OTHER)?;
            at(*line, push(&mut endings, ending))?;
        }
    }
    Ok(endings)
}

// Adds an ending.
fn push<'l, 'a>(endings: &mut Vec<Ending<'l, 'a>>, ending: Ending<'l, 'a>) -> Result<(), Fault> {
    Ok(endings.push(ending)?)
}

// Runs a script, or once for each call of the file system that its first call makes.
fn sweep(alloc: Global, script: &Script<'_, '_>) -> Result<(), Failure> {
    let mut reached = at(script.title, none_reached(alloc, script.endings.len()))?;
    if !is_sweep(script.first.lines) {
        run_at(alloc, script, 0, &mut reached)?;
        return need_all(&script.endings, &reached);
    }
    for number in 1..MOST_CALLS {
        match run_at(alloc, script, number, &mut reached) {
            Ok(true) => {}
            Ok(false) => return need_all(&script.endings, &reached),
            Err(failure) => return Err(with_number(alloc, failure, number)),
        }
    }
    wrong(script.call, "this call has no end")
}

// No ending was reached.
fn none_reached(alloc: Global, count: usize) -> Result<Vec<bool>, Fault> {
    let mut reached = Vec::with_capacity(alloc, count)?;
    for _ in 0..count {
        reached.push(false)?;
    }
    Ok(reached)
}

// Fails unless the call ended in each of these ways.
fn need_all(endings: &[Ending<'_, '_>], reached: &[bool]) -> Result<(), Failure> {
    for (ending, is_reached) in endings.iter().zip(reached.iter()) {
        if !*is_reached {
            return wrong(ending.head, "no call ends so");
        }
    }
    Ok(())
}

// Says at which call of the file system a script failed.
fn with_number(alloc: Global, failure: Failure, number: u32) -> Failure {
    let when = match format!(in alloc; "at call {number}") {
        Ok(when) => Some(when),
        Err(_) => None,
    };
    add_when(failure, when)
}

// Runs a script. What is to happen at each call of the file system happens at the one of this number. Returns whether there
// was such a call.
fn run_at(
    alloc: Global,
    script: &Script<'_, '_>,
    number: u32,
    reached: &mut [bool],
) -> Result<bool, Failure> {
    let (call, lines) = (script.call, script.first.lines);
    let disk = at(script.title, empty_disk(alloc))?;
    set_up(alloc, &disk, script.start)?;
    let before = at(call, listing(&disk))?;
    arm(alloc, &disk, number, lines)?;
    let done = make_call(alloc, &disk, call, lines)?;
    if done.calls < number {
        return Ok(false);
    }
    need_terms(alloc, &disk, (0, done.calls), lines)?;
    let before = before.as_str();
    match find_end(alloc, &disk, &done, before, &script.endings) {
        Some((index, ending)) => {
            if let Some(is_reached) = reached.get_mut(index) {
                *is_reached = true;
            }
            go_on(alloc, &disk, ending, done.calls)?;
        }
        None => need_end(alloc, &disk, &done, before, nearest_end(&done, script))?,
    }
    Ok(true)
}

// All that is on a disk.
fn listing(disk: &Disk) -> Result<String, Fault> {
    Ok(disk.listing()?)
}

// The first of these ways in which a call ended, and its index.
fn find_end<'l, 'a>(
    alloc: Global,
    disk: &Disk,
    done: &Done,
    before: &str,
    endings: &[Ending<'l, 'a>],
) -> Option<(usize, Ending<'l, 'a>)> {
    for (index, ending) in endings.iter().enumerate() {
        if need_end(alloc, disk, done, before, *ending).is_ok() {
            return Some((index, *ending));
        }
    }
    None
}

// The first way to end with the status of a call, or the first one. If a call ended in none of the ways, what differs from this
// one is printed.
fn nearest_end<'l, 'a>(done: &Done, script: &Script<'l, 'a>) -> Ending<'l, 'a> {
    for ending in &script.endings {
        if has_status(done, *ending) {
            return *ending;
        }
    }
    script.first
}

// Makes the calls after the first one, which ended so and made so many calls of the file system.
fn go_on(
    alloc: Global,
    disk: &Disk,
    ending: Ending<'_, '_>,
    mut calls: u32,
) -> Result<(), Failure> {
    set_up_next(alloc, disk, ending)?;
    for (index, line) in ending.next.iter().enumerate() {
        if line.name == CALL {
            let below = lines_from(ending.next, index.saturating_add(1), &[CALL]);
            calls = run_call(alloc, disk, *line, below, calls)?;
        }
    }
    Ok(())
}

// Makes a call that ends in one way, after one that made so many calls of the file system. Returns how many it makes.
fn run_call(
    alloc: Global,
    disk: &Disk,
    call: Line<'_>,
    below: &[Line<'_>],
    calls: u32,
) -> Result<u32, Failure> {
    let ending = ending_of(call, below)?;
    need_known(ending.lines, LATER)?;
    let before = at(call, listing(disk))?;
    disk.fail_at(0, Failing::Refused);
    let done = make_call(alloc, disk, call, ending.lines)?;
    need_terms(alloc, disk, (calls, done.calls), ending.lines)?;
    need_end(alloc, disk, &done, before.as_str(), ending)?;
    set_up_next(alloc, disk, ending)?;
    Ok(done.calls)
}
