//! What a run says at its end beside that it ended.
use crate::fault::RunFault;
use crate::printable::Printable;
use std::fmt;

/// Something that is left when a run has ended. Paths are relative to the root.
#[derive(Debug, Drop)]
pub enum Remark {
    /// A file that isn't as the run left it: another program changed it, or put it there.
    Kept(String),
    /// What moved, or was to move, is at neither of two paths.
    Gone {
        /// The one path.
        from: String,
        /// The other path.
        to: String,
    },
    /// When a run was taken back, something was at a staging name and at the new path that came from it. What had the staging
    /// name is at its old path, though the other one may be the run's.
    AtBoth {
        /// The staging name.
        from: String,
        /// The new path.
        to: String,
    },
    /// The journal of another user's run that didn't end, in a directory near.
    Near {
        /// The journal.
        path: String,
        /// The number of the user who owns it.
        owner: u32,
    },
    /// The run's own directory, which another program moved or removed during the call. What the run had in it is where that
    /// program put it.
    Away(String),
    /// A directory that the run emptied, or its own directory, can't be removed.
    Stays(RunFault),
}

impl fmt::Display for Remark {
    fn fmt<W: fmt::Write>(&self, f: &mut fmt::Formatter<W>) -> fmt::Result {
        match self {
            Remark::Kept(path) => {
                let path = Printable(path.as_str());
                write!(
                    f,
                    "{path} is kept: another program changed it, or put it there"
                )
            }
            Remark::Gone { from, to } => {
                let (from, to) = (Printable(from.as_str()), Printable(to.as_str()));
                write!(
                    f,
                    "neither {from} nor {to} is there: another program removed it"
                )
            }
            Remark::AtBoth { from, to } => {
                let (from, to) = (Printable(from.as_str()), Printable(to.as_str()));
                write!(
                    f,
                    "something was at {from} and at {to}: the first went back to the old path, and the second is kept"
                )
            }
            Remark::Near { path, owner } => {
                let path = Printable(path.as_str());
                write!(
                    f,
                    "{path} is the journal of a run that didn't end, of the user of the number {owner}"
                )
            }
            Remark::Away(path) => {
                let path = Printable(path.as_str());
                write!(
                    f,
                    "{path} isn't there: another program moved or removed it, with what was in it"
                )
            }
            Remark::Stays(fault) => write!(f, "{fault}; this directory stays"),
        }
    }
}
