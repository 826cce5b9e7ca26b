//! An action of a stage.
use relmove_actions::Rename;
use relmove_journal::TextFile;

/// An action of a stage. It may be done already.
#[derive(Clone, Copy)]
pub enum Action<'a> {
    /// Gives something its staging name, or its new path.
    Carry(&'a Rename),
    /// Gives what is at its new path its staging name again.
    Unplace(&'a Rename),
    /// Takes what has its staging name back to its old path.
    Unstage(&'a Rename),
    /// Makes a directory.
    Make(&'a str),
    /// Removes a directory that the run made.
    Unmake(&'a str),
    /// Removes a text of the run.
    RemoveText(&'a TextFile),
    /// Removes a new text that may be written in part: the one of this number.
    RemovePart(usize, &'a TextFile),
    /// Removes a directory that the run emptied.
    RemoveEmptied(&'a str),
}
