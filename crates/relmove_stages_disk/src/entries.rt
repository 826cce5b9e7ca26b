//! What the entries say is at a path, and entries after a change.
ghost use Rattle.std.specs.Prelude.{◌≡◌, ◌++◌, ◌∷◌, [], IfNone, IfOk, IfSome, IsTrue, List, None, OnOk, Some, ℕ, false, map};
ghost use Rattle.relative_path.specs.RelativePath.{path_components, path_text};
ghost use Rattle.relative_path.specs.Steps.{Step, components};
ghost use Rattle.relmove_trees.specs.FileTrees.{CanTake, Directory, File, HasBelow, HasNothing, after_rename, names_of, with_node};
ghost use Rattle.relmove_stages_disk.specs.Entries.{IsBelow, entries_tree, item_of, moved, node_at};

use crate::entry::{Entry, Node, is_directory, is_nothing};
use relative_path::{RelativePath, RelativePathBuf};
use std::alloc::{AllocError, Global};

// Returns what is at a path.
pub(crate) fn find_node<'a>(entries: &'a [Entry], path: RelativePath<'_>) -> Option<&'a Node>
    ensures { node_at result ≡ entries_tree entries.entry.now (names_of (path_text path.entry)) }
{
    for entry in entries {
        if entry.path.as_relative_path() == path {
            return Some(&entry.node);
        }
    }
    None
}

// Returns whether a path is below another.
fn is_below(path: RelativePath<'_>, top: RelativePath<'_>) -> bool
    ensures below { IsTrue result → IsBelow (names_of (path_text path.entry)) (names_of (path_text top.entry)) }
    ensures none { result ≡ false → ¬ IsBelow (names_of (path_text path.entry)) (names_of (path_text top.entry)) }
{
    if path == top {
        return false;
    }
    path.starts_with(top)
}

// Returns whether anything is below a path.
pub(crate) fn has_below(entries: &[Entry], path: RelativePath<'_>) -> bool
    ensures below { IsTrue result → HasBelow (entries_tree entries.now) (names_of (path_text path.entry)) }
    ensures none { result ≡ false → ¬ HasBelow (entries_tree entries.now) (names_of (path_text path.entry)) }
{
    for entry in entries {
        if is_below(entry.path.as_relative_path(), path) {
            return true;
        }
    }
    false
}

// Returns the path without its last component.
fn parent_of(path: RelativePath<'_>) -> Option<RelativePath<'_>>
    ensures some { IfSome result (λ top. (last : Step) × (path_components path.entry ≡ path_components top ++ last ∷ [])) }
    ensures none { IfNone result (path_components path.entry ≡ []) }
{
    let mut left = path.components();
    match left.next_back() {
        Some(_) => Some(left.as_relative_path()),
        None => None,
    }
}

// Returns whether something can come to a path: nothing is there or below, and above it is a directory.
pub(crate) fn can_take(entries: &[Entry], path: RelativePath<'_>) -> bool
    ensures takes { IsTrue result → CanTake (entries_tree entries.now) (names_of (path_text path.entry)) }
    ensures none { result ≡ false → ¬ CanTake (entries_tree entries.now) (names_of (path_text path.entry)) }
{
    let Some(top) = parent_of(path) else {
        return false;
    };
    if !is_directory(find_node(entries, top)) {
        return false;
    }
    if !is_nothing(find_node(entries, path)) {
        return false;
    }
    !has_below(entries, path)
}

// Puts copies at the end.
pub(crate) fn push_copies(
    alloc: Global,
    copies: &mut Vec<Entry>,
    entries: &[Entry],
) -> Result<(), AllocError>
    ensures { OnOk result (map item_of copies.new.items ≡ map item_of copies.old.items ++ map item_of entries.now) }
{
    for entry in entries {
        copies.push(entry.copy(alloc)?)?;
    }
    Ok(())
}

// Copies the entries.
pub(crate) fn copies_of(alloc: Global, entries: &[Entry]) -> Result<Vec<Entry>, AllocError>
    ensures { IfOk result (λ copies. entries_tree copies.items ≡ entries_tree entries.now) }
{
    let mut copies = Vec::new(alloc);
    push_copies(alloc, &mut copies, entries)?;
    Ok(copies)
}

// Copies the entries, with a directory at a path.
pub(crate) fn with_directory(
    alloc: Global,
    entries: &[Entry],
    path: RelativePath<'_>,
) -> Result<Vec<Entry>, AllocError>
    ensures { IfOk result (λ copies. entries_tree copies.items
        ≡ with_node (names_of (path_text path.entry)) (Some Directory) (entries_tree entries.now)) }
{
    let mut copies = Vec::new(alloc);
    copies.push(Entry {
        path: RelativePathBuf::from_text(alloc, path.as_str())?,
        node: Node::Directory,
    })?;
    push_copies(alloc, &mut copies, entries)?;
    Ok(copies)
}

// Copies the entries, with a file at a path.
pub(crate) fn with_file(
    alloc: Global,
    entries: &[Entry],
    path: RelativePath<'_>,
    bytes: &[u8],
) -> Result<Vec<Entry>, AllocError>
    ensures { IfOk result (λ copies. entries_tree copies.items
        ≡ with_node (names_of (path_text path.entry)) (Some (File bytes.now)) (entries_tree entries.now)) }
{
    let mut copies = Vec::new(alloc);
    copies.push(Entry {
        path: RelativePathBuf::from_text(alloc, path.as_str())?,
        node: Node::File(bytes.to_vec(alloc)?),
    })?;
    push_copies(alloc, &mut copies, entries)?;
    Ok(copies)
}

// Copies the entries, without those at a path.
pub(crate) fn without(
    alloc: Global,
    entries: &[Entry],
    path: RelativePath<'_>,
) -> Result<Vec<Entry>, AllocError>
    ensures { IfOk result (λ copies. entries_tree copies.items
        ≡ with_node (names_of (path_text path.entry)) None (entries_tree entries.now)) }
{
    let mut copies = Vec::new(alloc);
    for entry in entries {
        if entry.path.as_relative_path() == path {
            continue;
        }
        copies.push(entry.copy(alloc)?)?;
    }
    Ok(copies)
}

// Copies an entry. If it is at or below the old path, the copy is at or below the new one.
fn renamed_entry(
    alloc: Global,
    entry: &Entry,
    from: RelativePath<'_>,
    to: RelativePath<'_>,
) -> Result<Entry, AllocError>
    ensures { IfOk result (λ copy. item_of copy
        ≡ moved (names_of (path_text from.entry)) (names_of (path_text to.entry)) (item_of entry.now)) }
{
    let Ok(rest) = entry.path.as_relative_path().strip_prefix(from) else {
        return entry.copy(alloc);
    };
    Ok(Entry {
        path: to.join(alloc, rest)?,
        node: entry.node.copy(alloc)?,
    })
}

// Copies the entries. What is at or below the old path is at or below the new one.
pub(crate) fn renamed(
    alloc: Global,
    entries: &[Entry],
    from: RelativePath<'_>,
    to: RelativePath<'_>,
) -> Result<Vec<Entry>, AllocError>
    ensures { IfOk result (λ copies. HasNothing (entries_tree entries.now) (names_of (path_text to.entry))
        → entries_tree copies.items
        ≡ after_rename (names_of (path_text from.entry), names_of (path_text to.entry)) (entries_tree entries.now)) }
{
    let mut copies = Vec::new(alloc);
    for entry in entries {
        copies.push(renamed_entry(alloc, entry, from, to)?)?;
    }
    Ok(copies)
}
