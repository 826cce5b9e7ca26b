//! What the system says is at a path.
use relmove_store::{Found, FoundKind, RunFault, Store};
use std::io::{self, ErrorKind};

/// What a walk finds at a path.
#[derive(Drop)]
pub enum Seen {
    /// Nothing, or what can't be looked up.
    Nothing,
    /// A file, or anything else that holds no names.
    File,
    /// A directory.
    Directory,
    /// The root itself, to which a path led from outside.
    Root,
    /// A symbolic link, and the path in it.
    Symlink(String),
}

/// Returns what the system says is at a path, or `None` if nothing is there. What can't be looked up isn't there, so the
/// only fault is lack of memory.
pub fn find<S: Store>(store: &mut S, path: &str) -> Result<Option<Found>, RunFault> {
    let found = store.find(path);
    known_answer(found)
}

/// Returns what a call says, or `None` if it failed. Fails only for lack of memory. Allocates nothing.
pub fn known_answer<T: Drop>(outcome: io::Result<Option<T>>) -> Result<Option<T>, RunFault> {
    match outcome {
        Ok(value) => Ok(value),
        Err(error) if error.kind() == ErrorKind::OutOfMemory => Err(RunFault::OutOfMemory),
        Err(_) => Ok(None),
    }
}

/// Returns what a walk finds at a path, as the system says it. Fails only for lack of memory. Allocates the path in a symbolic
/// link.
pub fn seen_by_system<S: Store>(store: &mut S, path: &str) -> Result<Seen, RunFault> {
    let Some(found) = find(store, path)? else {
        return Ok(Seen::Nothing);
    };
    match found.kind {
        FoundKind::Directory => Ok(Seen::Directory),
        FoundKind::File => Ok(Seen::File),
        FoundKind::Other => Ok(Seen::File),
        FoundKind::Symlink => {
            let read = store.read_symlink(path);
            match known_answer(read)? {
                Some(text) => Ok(Seen::Symlink(text)),
                None => Ok(Seen::Nothing),
            }
        }
    }
}
