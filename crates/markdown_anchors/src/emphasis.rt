//! Marks of emphasis: which asterisks and underscores aren't text.

use std::alloc::AllocError;

// What stands in a text in place of a mark of emphasis, until it is removed. No text has it otherwise.
pub(crate) const MARK: u8 = 0;

// How many kinds of runs there are that differ in which runs they close.
const KINDS: usize = 12;

// Asterisks or underscores next to each other.
#[derive(Clone, Copy)]
pub(crate) struct Run {
    // The byte.
    pub(crate) byte: u8,
    // Where in the page the run begins.
    pub(crate) source: usize,
    // Where in the text those begin that aren't marks yet.
    pub(crate) at: usize,
    // How many aren't marks yet.
    pub(crate) left: usize,
    // How many there are.
    pub(crate) length: usize,
    // Whether emphasis may begin with the run.
    pub(crate) opens: bool,
    // Whether emphasis may end with the run.
    pub(crate) closes: bool,
}

impl Run {
    // Returns whether emphasis that begins with this run may end with another one.
    fn is_closed_by(self, closer: Run) -> bool {
        let is_odd = (self.closes || closer.opens)
            && self.length.saturating_add(closer.length) % 3 == 0
            && self.length % 3 != 0;
        self.byte == closer.byte && !is_odd
    }

    // Returns the number of the run's kind.
    fn kind(self) -> usize {
        let byte = if self.byte == b'_' { 6 } else { 0 };
        let opens = if self.opens { 3 } else { 0 };
        self.length % 3 + byte + opens
    }

    // Makes some of the run marks.
    fn mark(&mut self, text: &mut [u8], count: usize) {
        let end = self.at.saturating_add(count);
        if let Some(marks) = text.get_mut(self.at..end) {
            marks.fill(MARK);
        }
        self.at = end;
        self.left = self.left.saturating_sub(count);
    }
}

// The runs with which emphasis may still begin, and for each kind of runs how many of the first ones it can't end.
#[derive(Drop)]
struct Openers {
    runs: Vec<Run>,
    tried: [usize; KINDS],
}

impl Openers {
    // Takes the last run with which emphasis may begin that this run ends, and forgets those after it.
    fn take(&mut self, closer: Run) -> Option<Run> {
        let first = self.tried.get(closer.kind()).copied().unwrap_or(0);
        for k in (first..self.runs.len()).rev() {
            if self.runs.get(k).is_some_and(|run| run.is_closed_by(closer)) {
                self.runs.truncate(k + 1);
                let opener = self.runs.pop();
                self.limit_tried();
                return opener;
            }
        }
        if let Some(tried) = self.tried.get_mut(closer.kind()) {
            *tried = self.runs.len();
        }
        None
    }

    // Forgets what is known of runs that are no longer there.
    fn limit_tried(&mut self) {
        let count = self.runs.len();
        for tried in &mut self.tried {
            *tried = (*tried).min(count);
        }
    }

    // Adds a run.
    fn add(&mut self, run: Run) -> Result<(), AllocError> {
        self.runs.push(run)?;
        Ok(())
    }
}

// Makes marks of the asterisks and underscores in a text that these runs have, in order.
pub(crate) fn mark_emphasis(runs: Vec<Run>, text: &mut [u8]) -> Result<(), AllocError> {
    let mut openers = Openers {
        runs: Vec::new(*runs.allocator()),
        tried: [0; KINDS],
    };
    for run in &runs {
        let mut closer = *run;
        if closer.closes {
            close(&mut openers, &mut closer, text)?;
        }
        if closer.opens && closer.left > 0 {
            openers.add(closer)?;
        }
    }
    Ok(())
}

// Ends with a run the emphasis that it can end.
fn close(openers: &mut Openers, closer: &mut Run, text: &mut [u8]) -> Result<(), AllocError> {
    for _ in 0..closer.left {
        if closer.left == 0 {
            return Ok(());
        }
        let Some(mut opener) = openers.take(*closer) else {
            return Ok(());
        };
        let count = if opener.left > 1 && closer.left > 1 {
            2
        } else {
            1
        };
        opener.mark(text, count);
        closer.mark(text, count);
        if opener.left > 0 {
            openers.add(opener)?;
        }
    }
    Ok(())
}
