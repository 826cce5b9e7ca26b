//! What is at a path, as far as the entries of a tree say it.
use crate::tree::{EntryKind, Tree, is_read_directory};

/// What is at a path, as far as the entries of a tree say it.
#[derive(Clone, Copy, Debug, PartialEq, Eq)]
pub enum Presence {
    /// An entry that is no symbolic link is there.
    There,
    /// The path leads through a symbolic link, or into a directory that isn't read.
    Unknown,
    /// No entry is there, and the directory for it is read, or isn't there.
    Absent,
}

/// Returns what is at a path, as far as the entries of a tree say it. The path is in its normal form. Allocates nothing.
pub fn presence_at(tree: &Tree, path: &str) -> Presence {
    match tree.entries.get(path) {
        Some(EntryKind::Symlink(_)) => Presence::Unknown,
        Some(_) => Presence::There,
        None if path.is_empty() => Presence::There,
        None => presence_below(tree, path),
    }
}

// What is at a path that no entry has.
fn presence_below(tree: &Tree, path: &str) -> Presence {
    for (slash, _) in path.match_indices('/') {
        let above = path.get(..slash).unwrap_or("");
        match tree.entries.get(above) {
            Some(EntryKind::Directory) if is_read_directory(tree, above) => {}
            Some(EntryKind::Directory) => return Presence::Unknown,
            Some(EntryKind::Symlink(_)) => return Presence::Unknown,
            _ => return Presence::Absent,
        }
    }
    Presence::Absent
}
