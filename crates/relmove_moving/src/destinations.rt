//! Where the moves of a call lead: each to NEW, or into the directory NEW.
use relative_path::RelativePath;
use relmove_folder::{Tree, is_at_or_below, is_directory, is_directory_entry, normal_text};
use std::alloc::{AllocError, Global};
use std::collections::BTreeSet;

/// What each NEW of a call is.
#[derive(Clone, Copy, Debug, PartialEq, Eq)]
pub enum NewKind {
    /// The directory to move into.
    Directory,
    /// The whole new path.
    Whole,
    /// A directory to move into if one is there that doesn't move itself, or if NEW ends in a slash and OLD is no directory.
    /// Else the whole new path.
    AsFound,
}

/// Returns the moves of a call, each with its whole new path.
///
/// Allocates the paths.
pub fn whole_moves(
    alloc: Global,
    tree: &Tree,
    moves: &[(&str, &str)],
    kind: NewKind,
) -> Result<Vec<(String, String)>, AllocError> {
    let olds = normal_olds(alloc, moves)?;
    let mut whole = Vec::with_capacity(alloc, moves.len())?;
    for (old, new) in moves {
        let is_into = match kind {
            NewKind::Directory => true,
            NewKind::Whole => false,
            NewKind::AsFound => is_destination(alloc, tree, &olds, old, new)?,
        };
        let new = whole_path(alloc, old, new, is_into)?;
        whole.push((String::from_str(alloc, old)?, new))?;
    }
    Ok(whole)
}

// The old paths, in their normal form.
fn normal_olds(alloc: Global, moves: &[(&str, &str)]) -> Result<BTreeSet<String>, AllocError> {
    let mut olds = BTreeSet::new(alloc);
    for (old, _) in moves {
        olds.insert(normal_text(alloc, old)?)?;
    }
    Ok(olds)
}

// Whether OLD moves into a directory NEW.
fn is_destination(
    alloc: Global,
    tree: &Tree,
    olds: &BTreeSet<String>,
    old: &str,
    new: &str,
) -> Result<bool, AllocError> {
    // An empty NEW is a mistake, and not the root.
    if new.is_empty() {
        return Ok(false);
    }
    let normal = normal_text(alloc, new)?;
    let normal = normal.as_str();
    if normal.is_empty() || is_directory_entry(tree, normal) && !is_at_or_below(olds, normal) {
        return Ok(true);
    }
    Ok(new.ends_with('/') && !is_directory(alloc, tree, old)?)
}

// The new path of OLD: NEW, or the path of OLD's name in the directory NEW. A path without a name is no file's, and such a
// move is refused later.
fn whole_path(alloc: Global, old: &str, new: &str, is_into: bool) -> Result<String, AllocError> {
    match RelativePath::new(old).file_name() {
        Some(name) if is_into => {
            let whole = RelativePath::new(new).join_normalized(alloc, RelativePath::new(name))?;
            Ok(whole.into_string())
        }
        _ => String::from_str(alloc, new),
    }
}
