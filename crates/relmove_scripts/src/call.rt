//! A call of relmove: what it is given, and what it does.
use crate::output::Output;
use crate::printed::bytes_of_lines;
use crate::terms::{INPUT, clock_of, count_questions_of, output_of};
use relmove_disk::{Disk, DiskErrors, DiskMachine};
use relmove_lib::{Progress, WithProgress, answer};
use relmove_statements::{Failure, Fault, Line, at, words_of};
use std::alloc::Global;

/// What a call did.
#[derive(Drop)]
pub struct Done {
    pub status: u8,
    pub out: Vec<u8>,
    pub errors: Vec<u8>,
    /// How many calls of the file system it made.
    pub calls: u32,
}

/// Makes a call. The lines up to its status say what it is given.
pub fn make_call(
    alloc: Global,
    disk: &Disk,
    call: Line<'_>,
    lines: &[Line<'_>],
) -> Result<Done, Failure> {
    let input = bytes_of_lines(alloc, lines, INPUT)?;
    let words = at(call, words_of(alloc, call.rest))?;
    let out = output_of(alloc, lines)?;
    let clock = clock_of(lines)?;
    count_questions_of(alloc, disk, lines)?;
    at(
        call,
        done_by(alloc, disk, &words, input.as_slice(), out, clock),
    )
}

// What a call with these words does.
fn done_by(
    alloc: Global,
    disk: &Disk,
    words: &[String],
    input: &[u8],
    mut out: Output,
    clock: Option<u64>,
) -> Result<Done, Fault> {
    let words = words
        .iter()
        .map(|word| word.as_str())
        .collect::<Vec<_>>(alloc)?;
    let status = match clock {
        None => status_of(disk, &words, input, &mut out),
        Some(interval) => {
            disk.set_clock(interval);
            status_with_progress(disk, &words, input, &mut out)
        }
    };
    let Output { bytes, .. } = out;
    Ok(Done {
        status,
        out: bytes,
        errors: disk.take_printed()?,
        calls: disk.calls(),
    })
}

// The status of a call that prints no progress.
fn status_of(disk: &Disk, words: &[&str], mut input: &[u8], out: &mut Output) -> u8 {
    let (machine, mut errors) = (DiskMachine(disk), DiskErrors(disk));
    answer(&machine, words, &mut input, out, &mut errors).code()
}

// The status of a call that prints its progress.
fn status_with_progress(disk: &Disk, words: &[&str], mut input: &[u8], out: &mut Output) -> u8 {
    let (machine, mut errors) = (DiskMachine(disk), DiskErrors(disk));
    let progress = Progress::new();
    let watched = WithProgress::new(&machine, &progress);
    answer(&watched, words, &mut input, out, &mut errors).code()
}
