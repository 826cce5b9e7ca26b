//! Asks whether the caller may change the directories of a run, before the run begins.
use crate::walk::top_of;
use relmove_actions::Actions;
use relmove_folder::{Tree, find, is_directory_entry, known_answer};
use relmove_journal::{directory_of, join};
use relmove_store::{ROOT_USER, RunFault, Store, SystemCall, fault_of};
use std::alloc::{AllocError, Global};
use std::collections::{BTreeMap, BTreeSet};
use std::io::{self, ErrorKind};

// What the owner of a directory needs to change the names in it: to write and to search.
const CHANGE_NAMES: u32 = 0o300;

// What the owner of a directory needs to move it into another directory, as a run does with its own one: to write.
const MOVE: u32 = 0o200;

/// Fails if the run of these actions changes the names in a directory that is the caller's, or moves such a directory, and the
/// directory's mode doesn't let its owner do so. Nothing is changed.
///
/// Of other directories the mode alone doesn't say who may change them, and root may change all.
pub fn need_writable<S: Store>(
    store: &mut S,
    tree: &Tree,
    actions: &Actions,
) -> Result<(), RunFault> {
    let directories = changed_directories(store.alloc(), actions)?;
    for directory in &directories {
        need_mode(store, directory.as_str(), CHANGE_NAMES)?;
    }
    need_movable(store, tree, actions)
}

// Fails if the run of these actions moves a directory that is the caller's, and the mode doesn't let its owner do so.
fn need_movable<S: Store>(store: &mut S, tree: &Tree, actions: &Actions) -> Result<(), RunFault> {
    for rename in &actions.staged {
        let from = rename.from.as_str();
        if is_directory_entry(tree, from) {
            need_mode(store, from, MOVE)?;
        }
    }
    Ok(())
}

// Fails if what is at a path belongs to the caller, and its owner hasn't these permissions.
fn need_mode<S: Store>(store: &mut S, path: &str, needed: u32) -> Result<(), RunFault> {
    let Some(found) = find(store, path)? else {
        return Ok(());
    };
    if found.mode & needed == needed
        || found.owner == ROOT_USER
        || !is_caller(store, found.owner)?
    {
        return Ok(());
    }
    let error = io::Error::from(ErrorKind::PermissionDenied);
    Err(fault_of(store.alloc(), SystemCall::Write, path, &error))
}

// Whether this process acts for a user. The system says so of the process itself.
fn is_caller<S: Store>(store: &mut S, user: u32) -> Result<bool, RunFault> {
    let top = top_of(store)?;
    let path = join(store.alloc(), top.as_str(), "proc/self")?;
    let found = store.follow(path.as_str());
    match known_answer(found)? {
        Some(process) => Ok(process.owner == user),
        None => Ok(false),
    }
}

// The directories in which the run of actions changes names, by their paths before it. The root is the empty path.
fn changed_directories(alloc: Global, actions: &Actions) -> Result<BTreeSet<String>, AllocError> {
    let mut directories = left_directories(alloc, actions)?;
    // The run's own directory and its journal.
    directories.insert(String::new(alloc))?;
    let made = made_directories(alloc, actions)?;
    let names = names_by_new_path(alloc, actions)?;
    let old_paths = old_paths_by_name(alloc, actions)?;
    for rename in &actions.placed {
        let staging = path_before(alloc, &names, directory_of(rename.to.as_str()))?;
        let nearest = nearest_unmade(&made, staging.as_str());
        directories.insert(path_before(alloc, &old_paths, nearest)?)?;
    }
    Ok(directories)
}

// The directories that something leaves in the run of actions.
fn left_directories(alloc: Global, actions: &Actions) -> Result<BTreeSet<String>, AllocError> {
    let mut directories = BTreeSet::new(alloc);
    for rename in &actions.staged {
        let directory = directory_of(rename.from.as_str());
        directories.insert(String::from_str(alloc, directory)?)?;
    }
    Ok(directories)
}

// The directories that the run of actions makes. One in a directory that moves is below that one's staging name.
fn made_directories<'a>(
    alloc: Global,
    actions: &'a Actions,
) -> Result<BTreeSet<&'a str>, AllocError> {
    let mut made = BTreeSet::new(alloc);
    for path in &actions.made {
        made.insert(path.as_str())?;
    }
    Ok(made)
}

// The staging names from which something comes, by the new paths.
fn names_by_new_path<'a>(
    alloc: Global,
    actions: &'a Actions,
) -> Result<BTreeMap<&'a str, &'a str>, AllocError> {
    let mut names = BTreeMap::new(alloc);
    for rename in &actions.placed {
        names.insert(rename.to.as_str(), rename.from.as_str())?;
    }
    Ok(names)
}

// The old paths of what leaves, by the staging names.
fn old_paths_by_name<'a>(
    alloc: Global,
    actions: &'a Actions,
) -> Result<BTreeMap<&'a str, &'a str>, AllocError> {
    let mut old_paths = BTreeMap::new(alloc);
    for rename in &actions.staged {
        old_paths.insert(rename.to.as_str(), rename.from.as_str())?;
    }
    Ok(old_paths)
}

// The path before renames of what is at a path after them. `renamed` has the paths before them, by those after them.
fn path_before(
    alloc: Global,
    renamed: &BTreeMap<&str, &str>,
    path: &str,
) -> Result<String, AllocError> {
    if let Some(from) = renamed.get(path) {
        return String::from_str(alloc, from);
    }
    for (slash, _) in path.rmatch_indices('/') {
        if let Some(from) = renamed.get(path.get(..slash).unwrap_or("")) {
            let mut before = String::from_str(alloc, from)?;
            before.push_str(path.get(slash..).unwrap_or(""))?;
            return Ok(before);
        }
    }
    String::from_str(alloc, path)
}

// The nearest directory that isn't made: the one at a path, or one above it.
fn nearest_unmade<'a>(made: &BTreeSet<&str>, path: &'a str) -> &'a str {
    if !made.contains(path) {
        return path;
    }
    for (slash, _) in path.rmatch_indices('/') {
        let above = path.get(..slash).unwrap_or("");
        if !made.contains(above) {
            return above;
        }
    }
    ""
}
