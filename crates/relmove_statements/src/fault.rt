//! Why a script fails.
use crate::line::Line;
use std::alloc::{AllocError, AllocFailed};
use std::{fmt, io};

/// Why a statement fails.
#[derive(Drop)]
pub enum Fault {
    /// It isn't written as the language asks for.
    Wrong(&'static str),
    /// A call did something else than the script says.
    Unlike {
        what: &'static str,
        found: String,
        expected: String,
    },
    /// The disk in memory can't do it, or memory ran out.
    System(io::Error),
}

impl fmt::Display for Fault {
    fn fmt<W: fmt::Write>(&self, f: &mut fmt::Formatter<W>) -> fmt::Result {
        match self {
            Fault::Wrong(why) => f.write_str(why),
            Fault::Unlike {
                what,
                found,
                expected,
            } => write!(f, "{what}: {found}, not {expected}"),
            Fault::System(error) => write!(f, "{error}"),
        }
    }
}

impl From<io::Error> for Fault {
    fn from(error: io::Error) -> Fault {
        Fault::System(error)
    }
}

impl From<AllocError> for Fault {
    fn from(error: AllocError) -> Fault {
        Fault::System(io::Error::from(error))
    }
}

impl<T: Drop> From<AllocFailed<T>> for Fault {
    fn from(_failed: AllocFailed<T>) -> Fault {
        Fault::System(io::Error::from(AllocError))
    }
}

/// A fault, and the number of its line. In a sweep, also when it comes.
#[derive(Drop)]
pub struct Failure {
    pub number: usize,
    pub fault: Fault,
    pub when: Option<String>,
}

/// Says in which line a fault is.
pub fn at<T>(line: Line<'_>, outcome: Result<T, Fault>) -> Result<T, Failure> {
    match outcome {
        Ok(value) => Ok(value),
        Err(fault) => Err(Failure {
            number: line.number,
            fault,
            when: None,
        }),
    }
}

/// Says in a failure when it comes.
pub fn add_when(failure: Failure, when: Option<String>) -> Failure {
    let Failure { number, fault, .. } = failure;
    Failure {
        number,
        fault,
        when,
    }
}

/// Fails at a line that isn't written as the language asks for.
pub fn wrong<T>(line: Line<'_>, why: &'static str) -> Result<T, Failure> {
    Err(Failure {
        number: line.number,
        fault: Fault::Wrong(why),
        when: None,
    })
}
