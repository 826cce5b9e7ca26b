//! Syncs the directories in which a stage of a run changed names, and removes the names that a loss of power kept there.
use crate::disk::{Above, remove_second_name, sync_directory};
use crate::stages::{actions_of, path_of, paths_of};
use relmove_journal::{Stage, Work, directory_of, join, name_of};
use relmove_stages::Action;
use relmove_store::{RunFault, Store};
use std::alloc::{AllocError, Global};
use std::collections::{BTreeMap, BTreeSet};

// Waits until all that a stage did to names is on the disk.
pub(crate) fn sync_stage<S: Store>(
    store: &mut S,
    work: &Work,
    stage: Stage,
) -> Result<(), RunFault> {
    for directory in &directories_of(store.alloc(), work, stage)? {
        sync_directory(store, directory.as_str())?;
    }
    Ok(())
}

// Removes the names that things left for their staging names in a stage, where a loss of power kept them. A directory in
// which such a name is may have left too.
pub(crate) fn remove_left_names<S: Store>(
    store: &mut S,
    above: &mut Above,
    work: &Work,
    stage: Stage,
) -> Result<(), RunFault> {
    for (path, kept) in &left_names_of(store.alloc(), work, stage)? {
        remove_second_name(store, above, path.as_str(), kept)?;
    }
    Ok(())
}

// The names that things left in a stage, where they are after the stage, and the names that they got.
fn left_names_of(
    alloc: Global,
    work: &Work,
    stage: Stage,
) -> Result<Vec<(String, &str)>, AllocError> {
    let mut left = Vec::new(alloc);
    for action in &actions_of(alloc, work, stage)? {
        if let Some(paths) = paths_of(*action) {
            left.push(paths)?;
        }
    }
    places_of(alloc, &left)
}

// Where names are that things left for their staging names, and the staging names.
fn places_of<'a>(
    alloc: Global,
    left: &[(&'a str, &'a str)],
) -> Result<Vec<(String, &'a str)>, AllocError> {
    let mut names = BTreeMap::new(alloc);
    for (path, name) in left {
        names.insert(*path, *name)?;
    }
    let mut places = Vec::with_capacity(alloc, left.len())?;
    for (path, name) in left {
        let directory = place_after(alloc, &names, directory_of(path))?;
        let place = join(alloc, directory.as_str(), name_of(path))?;
        places.push((place, *name))?;
    }
    Ok(places)
}

// The directories in which a stage changes names, where they are after the stage.
fn directories_of(
    alloc: Global,
    work: &Work,
    stage: Stage,
) -> Result<BTreeSet<String>, AllocError> {
    let actions = actions_of(alloc, work, stage)?;
    let names = new_paths_of(alloc, &actions)?;
    let mut directories = BTreeSet::new(alloc);
    for action in &actions {
        add_directories(alloc, *action, &names, &mut directories)?;
    }
    Ok(directories)
}

// The new path of each path that actions rename.
fn new_paths_of<'a>(
    alloc: Global,
    actions: &[Action<'a>],
) -> Result<BTreeMap<&'a str, &'a str>, AllocError> {
    let mut names = BTreeMap::new(alloc);
    for action in actions {
        if let Some((from, to)) = paths_of(*action) {
            names.insert(from, to)?;
        }
    }
    Ok(names)
}

// Adds the directories in which an action changes names. The directory that a thing left may have left too. Without its own
// inode a new directory loses what is placed in it.
fn add_directories(
    alloc: Global,
    action: Action<'_>,
    names: &BTreeMap<&str, &str>,
    directories: &mut BTreeSet<String>,
) -> Result<(), AllocError> {
    let directory = directory_of(path_of(action));
    if let Some((_, to)) = paths_of(action) {
        directories.insert(place_after(alloc, names, directory)?)?;
        return add(alloc, directory_of(to), directories);
    }
    if let Action::Make(path) = action {
        add(alloc, path, directories)?;
    }
    add(alloc, directory, directories)
}

// Adds a directory.
fn add(
    alloc: Global,
    directory: &str,
    directories: &mut BTreeSet<String>,
) -> Result<(), AllocError> {
    directories.insert(String::from_str(alloc, directory)?)?;
    Ok(())
}

// Where a directory is, if it or the nearest directory above it got a staging name.
fn place_after(
    alloc: Global,
    names: &BTreeMap<&str, &str>,
    directory: &str,
) -> Result<String, AllocError> {
    if let Some(name) = names.get(directory) {
        return String::from_str(alloc, name);
    }
    for (slash, _) in directory.rmatch_indices('/') {
        if let (Some(above), Some(rest)) = (directory.get(..slash), directory.get(slash..))
            && let Some(name) = names.get(above)
        {
            let mut place = String::from_str(alloc, name)?;
            place.push_str(rest)?;
            return Ok(place);
        }
    }
    String::from_str(alloc, directory)
}
