//! Paths that lead to something before moves, and to nothing or to something else after them.
use crate::emptied::emptied_directories;
use crate::layout::{Layout, layout_after, layout_before};
use crate::walk::end_of;
use relative_path::RelativePath;
use relative_path_moves::TreeMoves;
use relmove_findings::Loss;
use relmove_folder::{EntryKind, Tree, find, has_unread_name};
use relmove_plan::Plan;
use relmove_store::{RunFault, Store};
use std::alloc::{AllocError, Global};
use std::collections::BTreeSet;

/// What is asked for of links beside what a plan says of them.
#[derive(Drop)]
pub(crate) struct Watch<'a> {
    /// The tree.
    pub tree: &'a Tree,
    /// Whether its file system takes a name for one in another case.
    pub ignores_case: bool,
    // Whether it has a symbolic link, or a directory that can't be listed.
    has_symlink: bool,
    // Whether it has a directory whose name begins with a dot, and that isn't read.
    has_dot_directory: bool,
    // The directories that the moves leave empty, and to which links lead.
    emptied: BTreeSet<String>,
    plan: &'a Plan<'a>,
    // The tree before the moves and after them, once it was asked for.
    both: Option<(Layout<'a>, Layout<'a>)>,
}

impl<'a> Watch<'a> {
    /// What is asked for of links of this tree.
    pub fn new<S: Store>(
        store: &mut S,
        tree: &'a Tree,
        plan: &'a Plan<'a>,
    ) -> Result<Watch<'a>, RunFault> {
        Ok(Watch {
            tree,
            ignores_case: ignores_case(store, tree)?,
            has_symlink: has_symlink(tree),
            has_dot_directory: has_dot_directory(tree),
            emptied: emptied_directories(store.alloc(), tree, plan)?,
            plan,
            both: None,
        })
    }

    /// Whether the moves leave the directory at a path empty, although a link leads to it.
    pub fn is_emptied(&self, path: &str) -> bool {
        self.emptied.contains(path)
    }

    /// Whether anything is asked for of a link to this path that the plan changes or lets stay.
    pub fn sees(&self, path: &str) -> bool {
        self.ignores_case
            || self.has_symlink
            || self.has_dot_directory && (path.starts_with('.') || path.contains("/."))
    }

    /// Where a path leads after the moves, if it led to something else before them. A path that leads nowhere has nothing
    /// to lose.
    pub fn loss_of<S: Store>(
        &mut self,
        store: &mut S,
        path: &str,
    ) -> Result<Option<Loss>, RunFault> {
        let alloc = store.alloc();
        let both = match self.both.take() {
            Some(both) => both,
            None => (
                layout_before(alloc, self.tree)?,
                layout_after(alloc, self.tree, self.plan)?,
            ),
        };
        let loss = loss_between(store, &both.0, &both.1, &self.plan.moves, path)?;
        self.both = Some(both);
        Ok(loss)
    }
}

// Whether a tree has a symbolic link, or a directory that can't be listed.
fn has_symlink(tree: &Tree) -> bool {
    !tree.unlisted.is_empty()
        || tree
            .entries
            .values()
            .any(|kind| matches!(kind, EntryKind::Symlink(_)))
}

// Whether a tree has a directory whose name begins with a dot, and that isn't read.
fn has_dot_directory(tree: &Tree) -> bool {
    tree.entries.iter().any(|(path, kind)| *kind == EntryKind::Directory
        && has_unread_name(path.as_str()))
}

// Whether the file system takes a name for one in another case. Asks for one name: the first one that has an ASCII letter,
// with the first of its letters in the other case.
fn ignores_case<S: Store>(store: &mut S, tree: &Tree) -> Result<bool, RunFault> {
    for path in tree.entries.keys() {
        if let Some(other) = in_other_case(store.alloc(), path.as_str())? {
            let is_entry = tree.entries.contains_key(other.as_str());
            return Ok(!is_entry && find(store, other.as_str())?.is_some());
        }
    }
    Ok(false)
}

// A path with the first ASCII letter of its last name in the other case, if that name has one.
fn in_other_case(alloc: Global, path: &str) -> Result<Option<String>, AllocError> {
    let start = match path.rfind('/') {
        Some(slash) => slash,
        None => 0,
    };
    for (at, letter) in path.char_indices() {
        if start <= at && letter.is_ascii_alphabetic() {
            return Ok(Some(with_other_case(alloc, path, at, letter)?));
        }
    }
    Ok(None)
}

// A path with the letter at this offset in the other case.
fn with_other_case(
    alloc: Global,
    path: &str,
    at: usize,
    letter: char,
) -> Result<String, AllocError> {
    let other = if letter.is_ascii_lowercase() {
        letter.to_ascii_uppercase()
    } else {
        letter.to_ascii_lowercase()
    };
    let mut full = String::from_str(alloc, path.get(..at).unwrap_or(""))?;
    full.push(other)?;
    full.push_str(
        path.get(at..)
            .unwrap_or("")
            .strip_prefix(letter)
            .unwrap_or(""),
    )?;
    Ok(full)
}

// Where a path leads after the moves, if it led to something else before them.
fn loss_between<S: Store>(
    store: &mut S,
    before: &Layout<'_>,
    after: &Layout<'_>,
    moves: &TreeMoves<'_>,
    path: &str,
) -> Result<Option<Loss>, RunFault> {
    let alloc = store.alloc();
    let Some(file) = end_of(store, before, path)? else {
        return Ok(None);
    };
    let now = moves.path_after(alloc, RelativePath::new(path))?;
    let Some(end) = end_of(store, after, now.as_relative_path().as_str())? else {
        return Ok(Some(Loss::Nowhere));
    };
    let file = moves.path_after(alloc, RelativePath::new(file.as_str()))?;
    if file.as_relative_path().as_str() == end.as_str() {
        Ok(None)
    } else {
        Ok(Some(Loss::Elsewhere))
    }
}
