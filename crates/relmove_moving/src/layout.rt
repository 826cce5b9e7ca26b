//! What is at each path of a tree, before moves and after them.
use relative_path::RelativePath;
use relmove_folder::{EntryKind, Seen, Tree, has_path, is_read_directory, seen_by_system};
use relmove_plan::Plan;
use relmove_store::{RunFault, Store};
use std::alloc::{AllocError, Global};
use std::collections::BTreeMap;

// An entry of a tree, before moves or after them.
#[derive(Clone, Copy)]
enum Item<'a> {
    // A file, or anything else that holds no names.
    File,
    // A directory that is read, or that moves make.
    Directory,
    // A directory that isn't read, and its path before the moves.
    Unread(&'a str),
    // A symbolic link, and the path in it, if that is UTF-8.
    Symlink(Option<&'a str>),
}

// What is at each path of a tree, before moves or after them.
#[derive(Drop)]
pub(crate) struct Layout<'a>(BTreeMap<String, Item<'a>>);

// What is at each path before moves.
pub(crate) fn layout_before<'a>(alloc: Global, tree: &'a Tree) -> Result<Layout<'a>, AllocError> {
    let mut layout = BTreeMap::new(alloc);
    for (path, kind) in &tree.entries {
        let item = item_of(tree, path.as_str(), kind);
        layout.insert(String::from_str(alloc, path.as_str())?, item)?;
    }
    Ok(Layout(layout))
}

// What is at each path after moves.
pub(crate) fn layout_after<'a>(
    alloc: Global,
    tree: &'a Tree,
    plan: &Plan<'_>,
) -> Result<Layout<'a>, AllocError> {
    let mut layout = BTreeMap::new(alloc);
    for (path, kind) in &tree.entries {
        let now = plan
            .moves
            .path_after(alloc, RelativePath::new(path.as_str()))?;
        let item = item_of(tree, path.as_str(), kind);
        layout.insert(now.into_relative_path_buf().into_string(), item)?;
    }
    for path in &plan.actions.made {
        layout.insert(String::from_str(alloc, path.as_str())?, Item::Directory)?;
    }
    let mut layout = Layout(layout);
    for path in &plan.actions.emptied {
        layout.remove_empty(tree, path.as_str());
    }
    Ok(layout)
}

// What an entry of a tree is.
fn item_of<'a>(tree: &Tree, path: &'a str, kind: &'a EntryKind) -> Item<'a> {
    match kind {
        EntryKind::File | EntryKind::Other => Item::File,
        EntryKind::Directory if is_read_directory(tree, path) => Item::Directory,
        EntryKind::Directory => Item::Unread(path),
        EntryKind::Symlink(Some(text)) => Item::Symlink(Some(text.as_str())),
        EntryKind::Symlink(None) => Item::Symlink(None),
    }
}

impl Layout<'_> {
    // Removes a directory, unless something is in it.
    fn remove_empty(&mut self, tree: &Tree, directory: &str) {
        let is_empty = !self.0.keys().any(|path| is_below(path.as_str(), directory));
        if is_empty && !has_path(&tree.unreadable_names, directory) {
            self.0.remove(directory);
        }
    }

    // What is at a path below the root. In a directory that isn't read, the system is asked for what was there before the
    // moves.
    pub fn seen_at<S: Store>(&self, store: &mut S, path: &str) -> Result<Seen, RunFault> {
        match self.0.get(path) {
            Some(Item::File) => Ok(Seen::File),
            Some(Item::Directory) => Ok(Seen::Directory),
            Some(Item::Unread(_)) => Ok(Seen::Directory),
            Some(Item::Symlink(Some(text))) => {
                Ok(Seen::Symlink(String::from_str(store.alloc(), text)?))
            }
            Some(Item::Symlink(None)) => Ok(Seen::Nothing),
            None => match self.unread_path(store.alloc(), path)? {
                Some(old) => seen_by_system(store, old.as_str()),
                None => Ok(Seen::Nothing),
            },
        }
    }

    // The path before the moves of what is at a path in a directory that isn't read.
    fn unread_path(&self, alloc: Global, path: &str) -> Result<Option<String>, AllocError> {
        for (slash, _) in path.rmatch_indices('/') {
            let above = path.get(..slash).unwrap_or("");
            match self.0.get(above) {
                Some(Item::Unread(old)) => {
                    let mut full = String::from_str(alloc, old)?;
                    full.push_str(path.get(slash..).unwrap_or(""))?;
                    return Ok(Some(full));
                }
                Some(_) => return Ok(None),
                None => {}
            }
        }
        Ok(None)
    }
}

// Whether a path is below a directory.
fn is_below(path: &str, directory: &str) -> bool {
    match path.strip_prefix(directory) {
        Some(rest) => rest.starts_with('/'),
        None => false,
    }
}
