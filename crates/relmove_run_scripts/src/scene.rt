//! The state of a script: its disk, what is to fail, and how the last call ended.
use crate::case::Case;
use crate::outcome::Outcome;
use crate::sweep::Sweep;
use relmove_disk::{Disk, Failing};
use relmove_statements::{Failure, Fault, Line, empty_disk, path_of, set_up};
use std::alloc::Global;

/// Whether a script goes on after a statement.
#[derive(Clone, Copy, PartialEq, Eq)]
pub enum Flow {
    On,
    /// The rest is passed over.
    Pass,
}

/// What is to happen in the next call.
#[derive(Clone, Copy)]
pub struct Armed {
    /// The number of the call that fails, or 0.
    pub number: u32,
    pub failing: Failing,
    /// The number of a second call that fails, or 0.
    pub refused: u32,
    /// The place of the number of a call that is looked for.
    pub search: Option<usize>,
    /// The place of the number that is each call in turn.
    pub each: Option<usize>,
    /// Whether calls before which the same is on the disk as before the one before are passed over.
    pub has_moments: bool,
    /// The last call before which another program does something.
    pub needed: u32,
}

/// Nothing happens.
pub const NOTHING: Armed = Armed {
    number: 0,
    failing: Failing::Refused,
    refused: 0,
    search: None,
    each: None,
    has_moments: false,
    needed: 0,
};

/// The state of a script.
#[derive(Drop)]
pub struct Scene<'a> {
    pub alloc: Global,
    pub case: Case<'a>,
    /// All that is on the disk before the moves of the case, and after them, once the disk was made anew.
    pub listing_before: String,
    pub listing_after: String,
    pub disk: Disk,
    pub root: String,
    pub sweep: Sweep,
    pub armed: Armed,
    /// Which call is looked for.
    pub sought: String,
    /// The number of the call that was named last.
    pub number: u32,
    /// The number of the last one of which each is a call.
    pub each: u32,
    /// How the last call ended, and whether it was a run, and was killed. `None` after a loss of power.
    pub last: Option<Outcome>,
    pub is_run: bool,
    pub is_killed: bool,
    /// All that was on the disk before the last call.
    pub before: String,
    /// What was on the disk below a path, and how many bytes files have that were measured.
    pub remembered: String,
    pub measured: u64,
}

impl<'a> Scene<'a> {
    /// A script that begins, with these values.
    pub fn new(alloc: Global, case: Case<'a>) -> Result<Scene<'a>, Fault> {
        Ok(Scene {
            alloc,
            case,
            listing_before: String::new(alloc),
            listing_after: String::new(alloc),
            disk: empty_disk(alloc)?,
            root: String::from_str(alloc, "site")?,
            sweep: Sweep::new(alloc),
            armed: NOTHING,
            sought: String::new(alloc),
            number: 0,
            each: 0,
            last: None,
            is_run: false,
            is_killed: false,
            before: String::new(alloc),
            remembered: String::new(alloc),
            measured: 0,
        })
    }

    /// Begins the script anew. Returns whether its sweep has more values.
    pub fn advance(&mut self) -> bool {
        self.number = 0;
        self.measured = 0;
        self.sweep.advance()
    }

    /// Forgets the disk, and makes the tree of the case.
    pub fn renew(&mut self) -> Result<(), Failure> {
        self.armed = NOTHING;
        self.last = None;
        self.disk = disk_with(self.alloc, &self.case.before)?;
        if self.listing_before.is_empty() {
            self.listing_before = listing_of(self.alloc, &self.case.before)?;
            self.listing_after = listing_of(self.alloc, &self.case.after)?;
        }
        Ok(())
    }

    /// A path from the top of the disk.
    pub fn path(&self, word: &str) -> Result<String, Fault> {
        path_of(self.alloc, word)
    }

    /// How the last call ended.
    pub fn last(&self) -> Result<&Outcome, Fault> {
        match &self.last {
            Some(outcome) => Ok(outcome),
            None => Err(Fault::Wrong("no call ended")),
        }
    }
}

/// All that is on a disk with the tree that lines say.
pub fn listing_of(alloc: Global, lines: &[Line<'_>]) -> Result<String, Failure> {
    let disk = disk_with(alloc, lines)?;
    match disk.listing() {
        Ok(listing) => Ok(listing),
        Err(error) => nowhere(Fault::System(error)),
    }
}

// A disk with the tree that lines say.
fn disk_with(alloc: Global, lines: &[Line<'_>]) -> Result<Disk, Failure> {
    let disk = match empty_disk(alloc) {
        Ok(disk) => disk,
        Err(fault) => return nowhere(fault),
    };
    set_up(alloc, &disk, lines)?;
    Ok(disk)
}

// Fails at no line.
fn nowhere<T>(fault: Fault) -> Result<T, Failure> {
    Err(Failure {
        number: 0,
        fault,
        when: None,
    })
}
