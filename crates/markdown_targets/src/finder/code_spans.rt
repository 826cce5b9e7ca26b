//! Code spans: text between two runs of backticks of the same length.
ghost use Rattle.std.specs.Prelude.{◌≤◌, ◌<◌, length, IfSome};
ghost use Rattle.markdown_targets.specs.Offsets.{Skips, Advances};

use crate::finder::bytes::{byte_at, run_end};
use crate::span::PageSpan;
use std::alloc::{AllocError, Global};

// How long a run of backticks may be to open a code span.
const LONGEST_RUN: usize = 80;

// Where the last run of each length begins that was seen so far. So a search for a run that isn't
// there is never made.
#[derive(Drop)]
pub(crate) struct BacktickRuns {
    last: Vec<usize>,
}

impl BacktickRuns {
    // Returns a table in which no run was seen.
    pub(crate) fn new(alloc: Global) -> Result<BacktickRuns, AllocError> {
        let mut last = Vec::with_capacity(alloc, LONGEST_RUN + 1)?;
        for _ in 0..=LONGEST_RUN {
            last.push(0)?;
        }
        Ok(BacktickRuns { last })
    }

    // Sees the runs from an offset on. The text ends with its block.
    pub(crate) fn see(&mut self, text: &[u8], from: usize)
        requires { from ≤ length text.now }
    {
        let mut k = from;
        while let Some(run) = next_run(text, k) {
            if let Some(last) = self.last.get_mut(run.end - run.start) {
                *last = run.start;
            }
            k = run.end;
        }
    }

    // Returns the end of the code span whose first run is at an offset, or of that run where none closes it.
    pub(crate) fn span_end(&self, text: &[u8], start: usize) -> usize
        requires { start < length text.now }
        ensures { Advances text.now start result }
    {
        let Some(opening) = next_run(text, start) else {
            return start + 1;
        };
        let width = opening.end - opening.start;
        match self.last.get(width) {
            Some(&last) if last > start => closer_end(text, opening.end, width),
            _ => opening.end,
        }
    }
}

// Returns the first run of backticks from an offset on.
fn next_run(text: &[u8], from: usize) -> Option<PageSpan>
    requires { from ≤ length text.now }
    ensures { IfSome result (λ run. (from ≤ run.start) × Advances text.now run.start run.end) }
{
    let start = byte_at(text, from, b'`');
    let end = run_end(text, start, |byte| byte == b'`');
    if start == text.len() || end == start {
        return None;
    }
    Some(PageSpan { start, end })
}

// Returns the end of the first run of a width from an offset on, or the offset where there is none.
fn closer_end(text: &[u8], from: usize, width: usize) -> usize
    requires { from ≤ length text.now }
    ensures { Skips text.now from result }
{
    let mut k = from;
    while let Some(run) = next_run(text, k) {
        if run.end - run.start == width {
            return run.end;
        }
        k = run.end;
    }
    from
}
