//! What a run would change, as it is told.
use crate::printable::Printable;
use std::fmt;

/// A change of the files below a root. Paths are relative to the root.
#[derive(Debug, PartialEq, Eq, Drop)]
pub enum Change {
    /// A file or directory gets another path.
    Rename {
        /// Its path before.
        from: String,
        /// Its path after.
        to: String,
    },
    /// A directory is made.
    MakeDirectory(String),
    /// A file is removed.
    RemoveFile(String),
    /// A directory is removed, if nothing is in it.
    RemoveDirectory(String),
}

impl fmt::Display for Change {
    fn fmt<W: fmt::Write>(&self, f: &mut fmt::Formatter<W>) -> fmt::Result {
        match self {
            Change::Rename { from, to } => {
                let (from, to) = (Printable(from.as_str()), Printable(to.as_str()));
                write!(f, "rename {from} to {to}")
            }
            Change::MakeDirectory(path) => write_change(f, "make the directory", path.as_str()),
            Change::RemoveFile(path) => write_change(f, "remove", path.as_str()),
            Change::RemoveDirectory(path) => write_change(
                f,
                "if it is empty, remove the directory",
                path.as_str(),
            ),
        }
    }
}

// Writes a change of one path.
fn write_change<W: fmt::Write>(f: &mut fmt::Formatter<W>, words: &str, path: &str) -> fmt::Result {
    let path = Printable(path);
    write!(f, "{words} {path}")
}
