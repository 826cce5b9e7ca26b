//! The names of what moves in a tree, before the moves and after them.
use crate::extensions::is_searched;
use crate::moving_tree::MovingTree;
use crate::slugs::address_path;
use crate::tree::{EntryKind, Tree, is_directory_entry};
use relative_path::RelativePath;
use relative_path_moves::TreeMoves;
use relative_path_places::{NormalPath, NormalView};
use relmove_mentions::{Mention, OldNames, is_page};
use std::alloc::{AllocError, Global};
use std::collections::BTreeMap;

/// The paths for which a tree is searched.
#[derive(Drop)]
pub struct SearchedPaths {
    /// The entries that move.
    pub moved: PathPairs,
    /// All entries before the moves, if a file moves that is searched: what it writes of files that stay may no longer lead to
    /// them.
    pub all: KnownPaths,
}

impl SearchedPaths {
    /// What is searched for in a tree that moves. Allocates the paths.
    pub fn of(alloc: Global, moving: MovingTree<'_, '_>) -> Result<SearchedPaths, AllocError> {
        let MovingTree { tree, moves, .. } = moving;
        let moved = PathPairs::of(alloc, tree, moves, moved_paths(alloc, moving)?)?;
        let paths = paths_for_moved(alloc, tree, &moved)?;
        let addressed = addressed_entries(alloc, tree, &paths)?;
        let all = KnownPaths::of(alloc, tree, paths, &addressed)?;
        Ok(SearchedPaths { moved, all })
    }
}

/// Paths of entries before the moves and after them.
#[derive(Drop)]
pub struct PathPairs {
    /// The paths before the moves.
    pub before: KnownPaths,
    /// Those after them.
    pub after: KnownPaths,
}

impl PathPairs {
    // These paths, and what they are after moves.
    fn of(
        alloc: Global,
        tree: &Tree,
        moves: &TreeMoves<'_>,
        before: Vec<NormalPath>,
    ) -> Result<PathPairs, AllocError> {
        let mut after = Vec::with_capacity(alloc, before.len())?;
        for path in &before {
            after.push(moves.path_after(alloc, path.as_relative_path())?)?;
        }
        let addressed = addressed_entries(alloc, tree, &before)?;
        Ok(PathPairs {
            before: KnownPaths::of(alloc, tree, before, &addressed)?,
            after: KnownPaths::of(alloc, tree, after, &addressed)?,
        })
    }
}

// The numbers of those paths of entries of which a site makes addresses: of pages and directories.
fn addressed_entries(
    alloc: Global,
    tree: &Tree,
    paths: &[NormalPath],
) -> Result<Vec<usize>, AllocError> {
    let mut numbers = Vec::new(alloc);
    for (number, path) in paths.iter().enumerate() {
        let path = path.as_relative_path();
        if is_page(path) || is_directory_entry(tree, path.as_str()) {
            numbers.push(number)?;
        }
    }
    Ok(numbers)
}

/// Paths of entries, and the addresses that a site makes of them.
#[derive(Drop)]
pub struct KnownPaths {
    /// The paths.
    pub paths: Vec<NormalPath>,
    // The addresses that aren't paths of the tree, each with the number of its path.
    addresses: Vec<(NormalPath, usize)>,
}

impl KnownPaths {
    // Paths, with the addresses of those that have these numbers, unless something in the tree is there.
    fn of(
        alloc: Global,
        tree: &Tree,
        paths: Vec<NormalPath>,
        addressed: &[usize],
    ) -> Result<KnownPaths, AllocError> {
        let mut addresses = Vec::new(alloc);
        for number in addressed {
            if let Some(path) = paths.get(*number)
                && let Some(address) = address_path(alloc, path.as_relative_path().as_str())?
                && !tree.entries.contains_key(address.as_str())
            {
                let address = NormalPath::of(alloc, RelativePath::new(address.as_str()))?;
                addresses.push((address, *number))?;
            }
        }
        Ok(KnownPaths { paths, addresses })
    }
}

// The paths of the entries that move.
fn moved_paths(alloc: Global, moving: MovingTree<'_, '_>) -> Result<Vec<NormalPath>, AllocError> {
    let mut olds = Vec::new(alloc);
    for path in moving.tree.entries.keys() {
        if moving.number_of(path.as_str()).is_some() {
            olds.push(NormalPath::of(alloc, RelativePath::new(path.as_str()))?)?;
        }
    }
    Ok(olds)
}

// The paths of all entries, if a file moves that is searched, and none otherwise. Those of directories come last, since a path to
// a directory stands for its index page, if it has one.
fn paths_for_moved(
    alloc: Global,
    tree: &Tree,
    moved: &PathPairs,
) -> Result<Vec<NormalPath>, AllocError> {
    let mut paths = Vec::new(alloc);
    if !moved
        .before
        .paths
        .iter()
        .any(|path| is_searched(path.as_relative_path()))
    {
        return Ok(paths);
    }
    for (path, kind) in &tree.entries {
        if *kind != EntryKind::Directory {
            paths.push(NormalPath::of(alloc, RelativePath::new(path.as_str()))?)?;
        }
    }
    for (path, kind) in &tree.entries {
        if *kind == EntryKind::Directory {
            paths.push(NormalPath::of(alloc, RelativePath::new(path.as_str()))?)?;
        }
    }
    Ok(paths)
}

/// The names of paths before the moves and after them.
#[derive(Drop)]
pub struct Names<'p> {
    /// The names before the moves.
    pub before: KnownNames<'p>,
    /// Those after them.
    pub after: KnownNames<'p>,
}

impl<'p> Names<'p> {
    /// The names of paths. Allocates them.
    pub fn of(alloc: Global, paths: &'p PathPairs) -> Result<Names<'p>, AllocError> {
        Ok(Names {
            before: KnownNames::of(alloc, &paths.before)?,
            after: KnownNames::of(alloc, &paths.after)?,
        })
    }
}

/// The names of paths, and of the addresses that a site makes of them.
#[derive(Drop)]
pub struct KnownNames<'p> {
    /// The names, also those of addresses.
    pub names: OldNames<'p>,
    // The paths of which a site makes these addresses.
    addressed: BTreeMap<String, NormalView<'p>>,
}

impl<'p> KnownNames<'p> {
    /// The names of paths, and of their addresses. A name of a path comes before that of an address. Allocates them.
    pub fn of(alloc: Global, known: &'p KnownPaths) -> Result<KnownNames<'p>, AllocError> {
        let count = known.paths.len().saturating_add(known.addresses.len());
        let mut views = Vec::with_capacity(alloc, count)?;
        for path in &known.paths {
            views.push(path.view())?;
        }
        let mut addressed = BTreeMap::new(alloc);
        for (address, number) in &known.addresses {
            views.push(address.view())?;
            if let Some(path) = known.paths.get(*number) {
                let address = String::from_str(alloc, address.as_relative_path().as_str())?;
                addressed.entry(address)?.or_insert(path.view());
            }
        }
        Ok(KnownNames {
            names: OldNames::of(alloc, &views)?,
            addressed,
        })
    }

    /// Puts the path for which a site makes an address in place of each such address. Allocates nothing.
    pub fn resolve(&self, mentions: &mut [Mention<'p>]) {
        if self.addressed.is_empty() {
            return;
        }
        for mention in mentions.iter_mut() {
            if let Some(path) = self.addressed.get(mention.path.as_relative_path().as_str()) {
                mention.path = *path;
            }
        }
    }
}

/// Paths as relative paths. Allocates the list.
pub fn relative_paths(
    alloc: Global,
    paths: &[NormalPath],
) -> Result<Vec<RelativePath<'_>>, AllocError> {
    let mut relative = Vec::with_capacity(alloc, paths.len())?;
    for path in paths {
        relative.push(path.as_relative_path())?;
    }
    Ok(relative)
}
