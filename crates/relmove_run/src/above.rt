//! Whether a symbolic link is on the way to a path of a run.
use crate::disk::copy_of;
use relmove_journal::{Leftover, Work};
use relmove_store::{FoundKind, RunFault, Store, SystemCall, at};
use std::alloc::{AllocError, Global};
use std::collections::BTreeSet;
use std::io::ErrorKind;

/// Fails if a symbolic link is on the way to a path of a run, and isn't itself one that the run moves.
///
/// Allocates a list of its paths.
pub(crate) fn need_no_symlinks_above<S: Store>(store: &mut S, work: &Work) -> Result<(), RunFault> {
    let paths = paths_of(store.alloc(), work)?;
    let mut asked = BTreeSet::new(store.alloc());
    for path in &paths {
        need_no_symlink_above(store, path, &paths, &mut asked)?;
    }
    Ok(())
}

// The paths that a run changes.
fn paths_of(alloc: Global, work: &Work) -> Result<BTreeSet<&str>, AllocError> {
    let mut paths = BTreeSet::new(alloc);
    for rename in &work.staged {
        paths.insert(rename.from.as_str())?;
    }
    for rename in &work.placed {
        paths.insert(rename.to.as_str())?;
    }
    for path in &work.made {
        paths.insert(path.as_str())?;
    }
    for leftover in &work.cleaned {
        if let Leftover::Directory(path) = leftover {
            paths.insert(path.as_str())?;
        }
    }
    Ok(paths)
}

// Fails if a symbolic link that isn't one of these paths is on the way to a path. Each path is asked for once.
fn need_no_symlink_above<'a, S: Store>(
    store: &mut S,
    path: &'a str,
    paths: &BTreeSet<&str>,
    asked: &mut BTreeSet<&'a str>,
) -> Result<(), RunFault> {
    for (slash, _) in path.match_indices('/') {
        if let Some(above) = path.get(..slash)
            && !paths.contains(above)
            && !asked.contains(above)
        {
            need_no_symlink(store, above)?;
            asked.insert(above)?;
        }
    }
    Ok(())
}

// Fails if a symbolic link is at a path. What can't be looked up leads nowhere.
fn need_no_symlink<S: Store>(store: &mut S, path: &str) -> Result<(), RunFault> {
    let found = match store.find(path) {
        Err(error) if error.kind() == ErrorKind::PermissionDenied => None,
        Err(error) if error.kind() == ErrorKind::InvalidFilename => None,
        asked => at(store.alloc(), SystemCall::Ask, path, asked)?,
    };
    match found {
        Some(found) if found.kind == FoundKind::Symlink => {
            Err(RunFault::NotADirectory(copy_of(store, path)?))
        }
        _ => Ok(()),
    }
}
