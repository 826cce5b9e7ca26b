//! Directories that moves leave without a file, although links of pages lead to them.
use relative_path::RelativePath;
use relative_path_links::{Edit, MovedSitePage};
use relative_path_moves::TreeMoves;
use relmove_folder::{EntryKind, Tree, is_read_directory};
use relmove_plan::Plan;
use std::alloc::{AllocError, Global};
use std::collections::{BTreeMap, BTreeSet};

/// Returns the directories of a tree to which links of pages lead, if the moves take all files out of them. A directory
/// that isn't read, or in which a name can't be read, holds files.
///
/// Allocates paths.
pub(crate) fn emptied_directories(
    alloc: Global,
    tree: &Tree,
    plan: &Plan<'_>,
) -> Result<BTreeSet<String>, AllocError> {
    let linked = linked_directories(alloc, plan)?;
    if linked.is_empty() {
        return Ok(BTreeSet::new(alloc));
    }
    let empty = empty_directories(alloc, tree, plan, &linked)?;
    let mut emptied = BTreeSet::new(alloc);
    for (directory, now) in &linked {
        if empty.contains(now.as_str()) {
            emptied.insert(String::from_str(alloc, directory.as_str())?)?;
        }
    }
    Ok(emptied)
}

// Returns where those of some directories are after the moves that hold nothing then.
fn empty_directories(
    alloc: Global,
    tree: &Tree,
    plan: &Plan<'_>,
    directories: &BTreeMap<String, String>,
) -> Result<BTreeSet<String>, AllocError> {
    let mut empty = BTreeSet::new(alloc);
    for now in directories.values() {
        empty.insert(String::from_str(alloc, now.as_str())?)?;
    }
    for (path, kind) in &tree.entries {
        if holds_itself(tree, path.as_str(), kind) {
            let now = path_after(alloc, &plan.moves, path.as_str())?;
            remove_above(&mut empty, now.as_str());
        }
    }
    for path in &tree.unreadable_names {
        let now = path_after(alloc, &plan.moves, path.as_str())?;
        empty.remove(now.as_str());
        remove_above(&mut empty, now.as_str());
    }
    Ok(empty)
}

// Returns where a path is after moves.
fn path_after(alloc: Global, moves: &TreeMoves<'_>, path: &str) -> Result<String, AllocError> {
    let now = moves.path_after(alloc, RelativePath::new(path))?;
    Ok(now.into_relative_path_buf().into_string())
}

// Whether the directories above an entry aren't empty by it alone: it is no directory, or one that isn't read.
fn holds_itself(tree: &Tree, path: &str, kind: &EntryKind) -> bool {
    *kind != EntryKind::Directory || !is_read_directory(tree, path)
}

// Removes the directories above a path.
fn remove_above(directories: &mut BTreeSet<String>, path: &str) {
    for (slash, _) in path.match_indices('/') {
        directories.remove(path.get(..slash).unwrap_or(""));
    }
}

// Returns the directories to which links lead, and in which something moves, each with its path after the moves.
fn linked_directories(
    alloc: Global,
    plan: &Plan<'_>,
) -> Result<BTreeMap<String, String>, AllocError> {
    let directories = directories_left(alloc, &plan.moves)?;
    let mut linked = BTreeMap::new(alloc);
    for page in &plan.pages {
        add_linked(alloc, &directories, page, &mut linked)?;
    }
    Ok(linked)
}

// Adds those of some directories to which links of a page lead.
fn add_linked(
    alloc: Global,
    directories: &BTreeMap<String, String>,
    page: &MovedSitePage,
    linked: &mut BTreeMap<String, String>,
) -> Result<(), AllocError> {
    for edit in &page.edits {
        let path = file_of(edit);
        if let Some(now) = directories.get(path) {
            let now = String::from_str(alloc, now.as_str())?;
            linked.insert(String::from_str(alloc, path)?, now)?;
        }
    }
    Ok(())
}

// The path of the file to which the link of an edit leads, or an empty one.
fn file_of(edit: &Edit) -> &str {
    match &edit.file {
        Some(file) => file.as_relative_path().as_str(),
        None => "",
    }
}

// Returns the directories above old paths, each with its path after the moves.
fn directories_left(
    alloc: Global,
    moves: &TreeMoves<'_>,
) -> Result<BTreeMap<String, String>, AllocError> {
    let mut directories = BTreeMap::new(alloc);
    for a in moves.moves() {
        let old = a.old.normal().as_relative_path().as_str();
        add_above(alloc, moves, old, &mut directories)?;
    }
    Ok(directories)
}

// Adds the directories above a path, each with its path after the moves.
fn add_above(
    alloc: Global,
    moves: &TreeMoves<'_>,
    path: &str,
    directories: &mut BTreeMap<String, String>,
) -> Result<(), AllocError> {
    for (slash, _) in path.match_indices('/') {
        let above = path.get(..slash).unwrap_or("");
        let now = path_after(alloc, moves, above)?;
        directories.insert(String::from_str(alloc, above)?, now)?;
    }
    Ok(())
}
