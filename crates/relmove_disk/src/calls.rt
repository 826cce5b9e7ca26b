//! Which calls fail, and how.
use std::cell::Cell;
use std::io::{self, ErrorKind};

/// How a call fails.
#[derive(Clone, Copy, Debug, PartialEq, Eq)]
pub enum Failing {
    /// It does nothing, and fails.
    Refused,
    /// It does nothing, and fails for lack of memory.
    OutOfMemory,
    /// It does what it is to do, and fails.
    DoneAndFailed,
    /// It does nothing and fails, and so does every call after it, as if the process were killed.
    Killed,
    /// It does what it is to do, and every call after it fails.
    DoneAndKilled,
    /// A question what is at a path says that nothing is there. Any other call does what it is to do.
    NotThere,
}

/// Whether a call that is done says so.
#[derive(Clone, Copy, PartialEq, Eq)]
pub(crate) enum Turn {
    Succeeds,
    Fails,
    // A question says that nothing is there.
    Hides,
}

impl Turn {
    /// Fails if the call that is done has to say that it failed.
    pub fn end(self) -> io::Result<()> {
        match self {
            Turn::Succeeds | Turn::Hides => Ok(()),
            Turn::Fails => Err(io::Error::from(ErrorKind::Other)),
        }
    }
}

/// The number of calls so far, and those that fail.
#[derive(Drop)]
pub(crate) struct Calls {
    count: Cell<u32>,
    fails_at: Cell<u32>,
    failing: Cell<Failing>,
    // A second call that fails: it is refused.
    refused_at: Cell<u32>,
}

impl Calls {
    /// No call, and none that fails.
    pub fn new() -> Calls {
        Calls {
            count: Cell::new(0),
            fails_at: Cell::new(0),
            failing: Cell::new(Failing::Refused),
            refused_at: Cell::new(0),
        }
    }

    /// Counts anew. From now on the call of this number fails; none does if the number is 0.
    pub fn fail_at(&self, number: u32, failing: Failing) {
        self.count.set(0);
        self.fails_at.set(number);
        self.failing.set(failing);
        self.refused_at.set(0);
    }

    /// Refuses the call of this number too.
    pub fn refuse_at(&self, number: u32) {
        self.refused_at.set(number);
    }

    /// How many calls were made.
    pub fn count(&self) -> u32 {
        self.count.get()
    }

    /// Counts a call. Fails if the call does nothing.
    pub fn turn(&self) -> io::Result<Turn> {
        let number = self.count.get().saturating_add(1);
        self.count.set(number);
        if number == self.refused_at.get() {
            return Err(io::Error::from(ErrorKind::Other));
        }
        let fails_at = self.fails_at.get();
        if fails_at == 0 || number < fails_at {
            return Ok(Turn::Succeeds);
        }
        let is_first = number == fails_at;
        match self.failing.get() {
            Failing::Refused if is_first => Err(io::Error::from(ErrorKind::Other)),
            Failing::Refused => Ok(Turn::Succeeds),
            Failing::OutOfMemory if is_first => Err(io::Error::from(ErrorKind::OutOfMemory)),
            Failing::OutOfMemory => Ok(Turn::Succeeds),
            Failing::DoneAndFailed if is_first => Ok(Turn::Fails),
            Failing::DoneAndFailed => Ok(Turn::Succeeds),
            Failing::Killed => Err(io::Error::from(ErrorKind::Other)),
            Failing::DoneAndKilled if is_first => Ok(Turn::Fails),
            Failing::DoneAndKilled => Err(io::Error::from(ErrorKind::Other)),
            Failing::NotThere if is_first => Ok(Turn::Hides),
            Failing::NotThere => Ok(Turn::Succeeds),
        }
    }
}
