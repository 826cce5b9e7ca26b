//! Looks for journals of other runs, in the directories below a root and above it.
use crate::disk::{copy_of, find};
use relmove_journal::{JOURNAL, join};
use relmove_store::{FoundKind, Remark, RunFault, Store};

// How many directories above the root are looked at. No path that the system takes has more.
const MOST_ABOVE: usize = 4096;

/// Returns the journals of other users above the root, and in these directories below it. Fails if one of them is a journal
/// of the user who owns the root. What can't be looked up counts as no journal.
///
/// Allocates the remarks, and their paths.
pub fn need_no_journal_near<S: Store>(
    store: &mut S,
    directories: &[&str],
) -> Result<Vec<Remark>, RunFault> {
    let owner = owner_of_root(store)?;
    let mut others = Vec::new(store.alloc());
    look_near(store, directories, owner, &mut others)?;
    Ok(others)
}

/// Returns the journals of other users in these directories below the root. Fails if one of them is a journal of the user
/// who owns the root. What can't be looked up counts as no journal.
///
/// Allocates the remarks, and their paths.
pub fn need_no_journal_below<S: Store>(
    store: &mut S,
    directories: &[&str],
) -> Result<Vec<Remark>, RunFault> {
    let owner = owner_of_root(store)?;
    let mut others = Vec::new(store.alloc());
    look_below(store, directories, owner, &mut others)?;
    Ok(others)
}

// The user who owns the root.
fn owner_of_root<S: Store>(store: &mut S) -> Result<u32, RunFault> {
    match find(store, "")? {
        Some(root) => Ok(root.owner),
        None => Err(RunFault::Missing(copy_of(store, store.root())?)),
    }
}

// Fails if a directory above the root, or one of these below it, has a journal of a user. Notes those of others.
pub(crate) fn look_near<S: Store>(
    store: &mut S,
    directories: &[&str],
    user: u32,
    others: &mut Vec<Remark>,
) -> Result<(), RunFault> {
    look_below(store, directories, user, others)?;
    look_above(store, user, others)
}

// Fails if one of these directories below the root has a journal of a user. Notes those of others.
fn look_below<S: Store>(
    store: &mut S,
    directories: &[&str],
    user: u32,
    others: &mut Vec<Remark>,
) -> Result<(), RunFault> {
    for directory in directories {
        if !directory.is_empty() {
            look_in(store, directory, user, others)?;
        }
    }
    Ok(())
}

// Fails if a directory has a journal of a user. Notes that of another.
fn look_in<S: Store>(
    store: &mut S,
    directory: &str,
    user: u32,
    others: &mut Vec<Remark>,
) -> Result<(), RunFault> {
    let path = join(store.alloc(), directory, JOURNAL)?;
    match find(store, path.as_str()) {
        Ok(Some(found)) if found.kind == FoundKind::File && found.owner == user => {
            Err(RunFault::JournalNear(path))
        }
        Ok(Some(found)) if found.kind == FoundKind::File => {
            let owner = found.owner;
            Ok(others.push(Remark::Near { path, owner })?)
        }
        Err(RunFault::OutOfMemory) => Err(RunFault::OutOfMemory),
        _ => Ok(()),
    }
}

// Fails if a directory above the root has a journal of a user. Notes those of others.
fn look_above<S: Store>(
    store: &mut S,
    user: u32,
    others: &mut Vec<Remark>,
) -> Result<(), RunFault> {
    let mut below = find(store, "")?;
    let mut directory = String::from_str(store.alloc(), "..")?;
    for _ in 0..MOST_ABOVE {
        let above = match find(store, directory.as_str()) {
            Err(RunFault::OutOfMemory) => return Err(RunFault::OutOfMemory),
            Err(_) => None,
            Ok(above) => above,
        };
        match (&below, &above) {
            (Some(below), Some(above)) if !above.is_same(below) => {}
            _ => return Ok(()),
        }
        look_in(store, directory.as_str(), user, others)?;
        below = above;
        directory.push_str("/..")?;
    }
    Ok(())
}
