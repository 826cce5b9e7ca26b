//! A tree, and the moves in it.
use crate::pages_as::{PagesAs, ShownMove};
use crate::tree::{EntryKind, Tree, is_directory_entry};
use relative_path::RelativePath;
use relative_path_moves::{Move, TreeMoves};
use relmove_mentions::INDEX_NAMES;
use std::alloc::{AllocError, Global};
use std::collections::BTreeMap;

/// A tree, and the moves in it.
#[derive(Clone, Copy)]
pub struct MovingTree<'a, 'm> {
    /// The tree before the moves.
    pub tree: &'a Tree,
    /// The moves.
    pub moves: &'a TreeMoves<'m>,
    /// Whether they were made before the call.
    pub made: bool,
    /// The number of each move, by its old path.
    pub numbers: &'a BTreeMap<String, usize>,
    /// The moves of the names under which the site shows pages.
    pub shown: &'a [ShownMove],
    /// How the site shows its pages, if links use these names.
    pub pages_as: Option<PagesAs>,
}

impl MovingTree<'_, '_> {
    /// The number of the move that takes along what is at a path, if one does. Allocates nothing.
    pub fn number_of(&self, path: &str) -> Option<usize> {
        number_of(self.numbers, path)
    }

    /// Whether a directory is at a path that doesn't move. Allocates nothing.
    pub fn is_staying_directory(&self, path: &str) -> bool {
        (path.is_empty() || is_directory_entry(self.tree, path)) && self.number_of(path).is_none()
    }

    /// Whether a regular file is at a path. Allocates nothing.
    pub fn is_file(&self, path: &str) -> bool {
        matches!(self.tree.entries.get(path), Some(EntryKind::File))
    }

    /// Whether a path is a name under which the site shows a page that moves, and links to it move along. Allocates nothing.
    pub fn is_shown_name(&self, path: &str) -> bool {
        self.shown
            .iter()
            .any(|a| a.old.as_str() == path && a.new.as_str() != path)
    }

    /// The index page of a directory that stays, if it leaves the directory or gets another name. Allocates its path.
    pub fn left_index(
        &self,
        alloc: Global,
        directory: RelativePath<'_>,
    ) -> Result<Option<String>, AllocError> {
        if !self.is_staying_directory(directory.as_str()) {
            return Ok(None);
        }
        for name in &INDEX_NAMES {
            let index = directory.join_normalized(alloc, RelativePath::new(*name))?;
            if self.is_left(alloc, index.as_relative_path())? {
                return Ok(Some(index.into_string()));
            }
        }
        Ok(None)
    }

    // Whether a file moves away from a path, to another directory or under another name.
    fn is_left(&self, alloc: Global, path: RelativePath<'_>) -> Result<bool, AllocError> {
        if self.tree.entries.get(path.as_str()).is_none() {
            return Ok(false);
        }
        let moved = self.moves.path_after(alloc, path)?;
        Ok(moved.as_relative_path() != path)
    }

    /// The path by which a file is named. Allocates it.
    pub fn shown_path(&self, alloc: Global, path: &str) -> Result<String, AllocError> {
        shown_path(alloc, self.moves, self.made, path)
    }
}

/// Returns the path by which what was at a path before moves is named: the one after them, if they were made before the call.
/// Allocates it.
pub fn shown_path(
    alloc: Global,
    moves: &TreeMoves<'_>,
    made: bool,
    path: &str,
) -> Result<String, AllocError> {
    if !made {
        return String::from_str(alloc, path);
    }
    let now = moves.path_after(alloc, RelativePath::new(path))?;
    Ok(now.into_relative_path_buf().into_string())
}

/// The number of each move, by its old path. Allocates the map.
pub fn numbers_of(
    alloc: Global,
    moves: &[Move<'_>],
) -> Result<BTreeMap<String, usize>, AllocError> {
    let mut numbers = BTreeMap::new(alloc);
    for (number, a) in moves.iter().enumerate() {
        let old = a.old.normal().as_relative_path().as_str();
        numbers.insert(String::from_str(alloc, old)?, number)?;
    }
    Ok(numbers)
}

/// The number of the move that takes along what is at a path, if one does: the move of the path, or of the nearest
/// directory above it. Allocates nothing.
pub fn number_of(numbers: &BTreeMap<String, usize>, path: &str) -> Option<usize> {
    if let Some(number) = numbers.get(path) {
        return Some(*number);
    }
    for (slash, _) in path.rmatch_indices('/') {
        if let Some(number) = numbers.get(path.get(..slash).unwrap_or("")) {
            return Some(*number);
        }
    }
    None
}
