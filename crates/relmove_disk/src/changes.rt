//! The changes of names that aren't on the disk yet.
use std::io;

/// A change of a name. A node is named by its number.
#[derive(Debug, Drop)]
pub(crate) enum Change {
    /// A name was made.
    Made(String),
    /// A name was removed. It led to this node.
    Removed(String, usize),
    /// What was at the first path is at the second one, in the place of a node or of nothing.
    Renamed(String, String, Option<usize>),
}

// A change, and the directories that have to be synced before it is on the disk. Of a rename from one directory to another
// these are the old one and then the new one.
#[derive(Debug, Drop)]
struct Unsynced {
    change: Change,
    directories: Vec<usize>,
    // Whether the new directory of a rename was synced, and the old one wasn't.
    is_half: bool,
}

/// The changes of names that aren't on the disk yet, the oldest first.
#[derive(Debug, Drop)]
pub(crate) struct Changes(Vec<Unsynced>);

impl Changes {
    /// No changes.
    pub fn new(alloc: std::alloc::Global) -> Changes {
        Changes(Vec::new(alloc))
    }

    /// How many there are.
    pub fn len(&self) -> usize {
        self.0.len()
    }

    /// Adds a change in these directories.
    pub fn add(&mut self, change: Change, directories: Vec<usize>) -> io::Result<()> {
        match self.0.push(Unsynced {
            change,
            directories,
            is_half: false,
        }) {
            Ok(()) => Ok(()),
            Err(_) => Err(io::Error::from(std::alloc::AllocError)),
        }
    }

    /// Takes the newest change away. If that is a rename whose new directory alone was synced, returns its old directory
    /// too.
    pub fn pop(&mut self) -> Option<(Change, Option<usize>)> {
        let Unsynced {
            change,
            directories,
            is_half,
        } = self.0.pop()?;
        let half = if is_half {
            directories.first().copied()
        } else {
            None
        };
        Some((change, half))
    }

    /// Forgets all changes.
    pub fn clear(&mut self) {
        self.0.clear();
    }

    /// Puts what was changed in a directory on the disk. A rename from one directory to another needs both.
    pub fn sync(&mut self, directory: usize) {
        for unsynced in self.0.iter_mut() {
            let is_new = match unsynced.directories.as_slice() {
                [old, new] => *new == directory && *old != directory,
                _ => false,
            };
            if is_new && matches!(&unsynced.change, Change::Renamed(_, _, None)) {
                unsynced.is_half = true;
            }
            unsynced.directories.retain(|other| *other != directory);
        }
        self.0.retain(|unsynced| !unsynced.directories.is_empty());
    }
}
