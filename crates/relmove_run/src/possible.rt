//! Asks the system whether it can have the paths of a run, before the run begins.
use crate::disk::copy_of;
use relmove_actions::Actions;
use relmove_journal::{directory_of, join};
use relmove_store::{Found, FoundKind, RunFault, Store, SystemCall, at, need_short};
use relmove_work::{is_of_text, staging_path, text_path};
use std::alloc::Global;
use std::collections::BTreeMap;
use std::io::ErrorKind;

/// Fails if the system can't have a path of these actions: a path is too long, or has a name that is, or is on another
/// file system than the root. Nothing is changed.
///
/// A name that isn't there is asked for by itself, in the nearest directory above it that is there.
pub fn need_possible<S: Store>(store: &mut S, actions: &Actions) -> Result<(), RunFault> {
    let Some(root) = find_at(store, "")? else {
        return Err(RunFault::Missing(copy_of(store, store.root())?));
    };
    let mut asked = BTreeMap::new(store.alloc());
    for text in &actions.texts {
        let path = text_path(store.alloc(), text.file.as_str())?;
        need_short(store.alloc(), store.root(), path.as_str())?;
    }
    for rename in &actions.staged {
        if !is_of_text(rename) {
            need_on_device(store, rename.from.as_str(), &root)?;
        }
    }
    for path in &actions.made {
        let path = staging_path(store.alloc(), path.as_str())?;
        need_short(store.alloc(), store.root(), path.as_str())?;
    }
    for rename in &actions.placed {
        need_fine_path(store, rename.to.as_str(), &root, &mut asked)?;
    }
    Ok(())
}

// What is at a path. A path that is too long is a fault.
fn find_at<S: Store>(store: &mut S, path: &str) -> Result<Option<Found>, RunFault> {
    match store.find(path) {
        Err(error) if error.kind() == ErrorKind::InvalidFilename => {
            Err(RunFault::TooLong(copy_of(store, path)?))
        }
        asked => at(store.alloc(), SystemCall::Ask, path, asked),
    }
}

// Fails if what is at a path is on another file system than the root.
fn need_on_device<S: Store>(store: &mut S, path: &str, root: &Found) -> Result<(), RunFault> {
    need_directory_on_device(store, directory_of(path), root)?;
    need_directory_on_device(store, path, root)
}

// Fails if a directory is on another file system than the root. Of files this isn't asked: where a file system lies over two
// others, a file can have the device of one of them.
fn need_directory_on_device<S: Store>(
    store: &mut S,
    path: &str,
    root: &Found,
) -> Result<(), RunFault> {
    match find_at(store, path)? {
        Some(found) if found.kind == FoundKind::Directory && found.device != root.device => {
            Err(RunFault::OtherDevice(copy_of(store, path)?))
        }
        _ => Ok(()),
    }
}

// Fails if the system can't have a path: the path or a name in it is too long, or the directory for it is on another
// file system than the root. Notes for each path that was asked for whether a directory is there.
fn need_fine_path<S: Store>(
    store: &mut S,
    path: &str,
    root: &Found,
    asked: &mut BTreeMap<String, bool>,
) -> Result<(), RunFault> {
    need_short(store.alloc(), store.root(), path)?;
    let mut nearest = String::new(store.alloc());
    for name in path.split('/') {
        let next = join(store.alloc(), nearest.as_str(), name)?;
        let is_directory = match asked.get(next.as_str()) {
            Some(is_directory) => *is_directory,
            None => is_fine_directory(store, next.as_str(), path, root)?,
        };
        asked.insert(copy_of(store, next.as_str())?, is_directory)?;
        if is_directory {
            nearest = next;
        }
    }
    Ok(())
}

// Whether a directory is on the way to a path. Fails if the path is too long, or the directory is on another file system
// than the root.
fn is_fine_directory<S: Store>(
    store: &mut S,
    directory: &str,
    path: &str,
    root: &Found,
) -> Result<bool, RunFault> {
    match find_at(store, directory) {
        Ok(Some(found)) if found.kind == FoundKind::Directory => {
            if found.device != root.device {
                return Err(RunFault::OtherDevice(copy_of(store, directory)?));
            }
            Ok(true)
        }
        Ok(_) => Ok(false),
        Err(RunFault::TooLong(_)) => Err(RunFault::TooLong(copy_of(store, path)?)),
        Err(fault) => Err(fault),
    }
}
