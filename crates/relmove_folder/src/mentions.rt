//! Where the old paths of a run are written, apart from links that are read.
use crate::addresses::MovedPage;
use crate::bases::Tops;
use crate::extensions::is_searched_file;
use crate::moved_names::{KnownNames, Names, SearchedPaths, relative_paths};
use crate::moving_tree::{MovingTree, numbers_of};
use crate::names_alone::PageNames;
use crate::pages_as::{PagesAs, ShownMove};
use crate::places::MentionPlaces;
use crate::planned_page::PlannedPage;
use crate::search::Search;
use crate::seen::find;
use crate::served::Served;
use crate::targets::PageTargets;
use crate::tree::{
    EntryKind, LONGEST_PAGE, TOO_LONG, Tree, is_at_or_below, is_left_out, normal_paths,
};
use relative_path::RelativePath;
use relative_path_moves::TreeMoves;
use relmove_store::{RunFault, Store, SystemCall, at};
use std::alloc::{AllocError, Global};
use std::collections::{BTreeMap, BTreeSet};

/// Which files are searched, and how they are named.
#[derive(Clone, Copy)]
pub struct SearchOptions<'a> {
    /// No file at or below these paths is searched.
    pub excluded: &'a [&'a str],
    /// Whether the moves were made before the call. Files then have the paths that they have now.
    pub made: bool,
    /// The moves of the names under which the site shows pages, by which links to these names are mended.
    pub shown: &'a [ShownMove],
    /// The path of the site's root, if it is known.
    pub site_root: Option<&'a str>,
    /// How the site shows its pages, if links use these names.
    pub pages_as: Option<PagesAs>,
}

/// What the search for old paths has to know of the targets of a tree's pages.
#[derive(Drop)]
pub struct SiteTargets {
    // The number of each move, by its old path.
    numbers: BTreeMap<String, usize>,
    // The directories from which a path can lead in any file.
    tops: Tops,
    // The targets of each page.
    pages: Vec<PageTargets>,
}

/// Returns what the search for old paths has to know of the targets of a tree's pages. `pages` has what becomes of them, in the
/// tree's order.
///
/// Allocates the spans of the targets, the paths and new texts of a few of them, and the numbers of the moves.
pub fn targets_of(
    alloc: Global,
    tree: &Tree,
    moves: &TreeMoves<'_>,
    pages: &[PlannedPage],
    options: SearchOptions<'_>,
) -> Result<SiteTargets, AllocError> {
    let numbers = numbers_of(alloc, moves.moves())?;
    let tops = Tops::of(alloc, moves, options.site_root)?;
    let moving = MovingTree {
        tree,
        moves,
        made: options.made,
        numbers: &numbers,
        shown: options.shown,
        pages_as: options.pages_as,
    };
    let pages = page_targets(alloc, moving, &tops, pages)?;
    Ok(SiteTargets {
        numbers,
        tops,
        pages,
    })
}

// The targets of pages that their search has to know.
fn page_targets(
    alloc: Global,
    moving: MovingTree<'_, '_>,
    tops: &Tops,
    news: &[PlannedPage],
) -> Result<Vec<PageTargets>, AllocError> {
    let tops = relative_paths(alloc, &tops.before)?;
    let mut targets = Vec::with_capacity(alloc, news.len())?;
    for (page, new) in moving.tree.pages.iter().zip(news) {
        let moved = MovedPage {
            page,
            new: &new.path,
        };
        targets.push(PageTargets::of(alloc, moving, &tops, moved, &new.edits)?)?;
    }
    Ok(targets)
}

/// Finds where the old paths of moves are written: in pages outside the targets that are read, and in other files with
/// certain extensions. [`targets_of`] returns the targets. What leads to the new path after the moves, with the file name that it
/// had, isn't among the places. Files that aren't UTF-8 are passed over.
///
/// Reads the files that aren't pages, and has one of them in memory at a time. Allocates the names of the old paths and of
/// the new ones, and the places.
pub fn mentions_of<S: Store>(
    store: &mut S,
    tree: &Tree,
    moves: &TreeMoves<'_>,
    targets: &SiteTargets,
    options: SearchOptions<'_>,
) -> Result<MentionPlaces, RunFault> {
    let moving = MovingTree {
        tree,
        moves,
        made: options.made,
        numbers: &targets.numbers,
        shown: options.shown,
        pages_as: options.pages_as,
    };
    search_all(store, moving, targets, options.excluded)
}

// Finds where old paths are written.
fn search_all<S: Store>(
    store: &mut S,
    moving: MovingTree<'_, '_>,
    targets: &SiteTargets,
    excluded: &[&str],
) -> Result<MentionPlaces, RunFault> {
    let alloc = store.alloc();
    let tops = &targets.tops;
    let paths = SearchedPaths::of(alloc, moving)?;
    let moved = Names::of(alloc, &paths.moved)?;
    let all = KnownNames::of(alloc, &paths.all)?;
    let renamed = PageNames::of(alloc, moving)?;
    let before = relative_paths(alloc, &tops.before)?;
    let after = relative_paths(alloc, &tops.after)?;
    let served = Served::of(alloc, moving.tree, moving.moves, &tops.before)?;
    let search = Search {
        moving,
        moved: &moved,
        all: &all,
        renamed: &renamed,
        tops: &before,
        tops_after: &after,
        served: &served,
    };
    search.all_places(store, &targets.pages, excluded)
}

impl Search<'_, '_, '_> {
    // The places in pages, and in other files, but for those at and below excluded paths.
    fn all_places<S: Store>(
        &self,
        store: &mut S,
        targets: &[PageTargets],
        excluded: &[&str],
    ) -> Result<MentionPlaces, RunFault> {
        let alloc = store.alloc();
        let mut found = MentionPlaces::new(alloc, self.moving.moves.moves())?;
        self.add_pages(alloc, targets, &mut found)?;
        let excluded = normal_paths(alloc, excluded)?;
        self.add_files(store, &excluded, &mut found)?;
        Ok(found)
    }

    // Adds the places in pages.
    fn add_pages(
        &self,
        alloc: Global,
        targets: &[PageTargets],
        found: &mut MentionPlaces,
    ) -> Result<(), AllocError> {
        for (page, targets) in self.moving.tree.pages.iter().zip(targets) {
            let (path, text) = (page.path.as_str(), page.text.as_str());
            self.add_text(alloc, path, text, targets, found)?;
        }
        Ok(())
    }

    // Adds the places in other files, but for those at and below excluded paths.
    fn add_files<S: Store>(
        &self,
        store: &mut S,
        excluded: &BTreeSet<String>,
        found: &mut MentionPlaces,
    ) -> Result<(), RunFault> {
        for (path, kind) in &self.moving.tree.entries {
            if *kind == EntryKind::File && is_searched_file(RelativePath::new(path.as_str())) {
                self.add_file(store, path.as_str(), excluded, found)?;
            }
        }
        Ok(())
    }

    // Adds the places in a file, unless its path is excluded.
    fn add_file<S: Store>(
        &self,
        store: &mut S,
        path: &str,
        excluded: &BTreeSet<String>,
        found: &mut MentionPlaces,
    ) -> Result<(), RunFault> {
        let alloc = store.alloc();
        if is_at_or_below(excluded, self.moving.shown_path(alloc, path)?.as_str()) {
            return Ok(());
        }
        if let Some(text) = read_text(store, path, found)? {
            let targets = PageTargets::new(alloc);
            self.add_text(alloc, path, text.as_str(), &targets, found)?;
        }
        Ok(())
    }
}

// The text of a file. `None` if it is gone, or isn't UTF-8. A file that can't be read, or is too long, is noted.
fn read_text<S: Store>(
    store: &mut S,
    path: &str,
    found: &mut MentionPlaces,
) -> Result<Option<String>, RunFault> {
    match find(store, path)? {
        Some(file) if file.length <= LONGEST_PAGE => read_short(store, path, found),
        Some(_) => {
            found.leave_out(store.alloc(), path, TOO_LONG)?;
            Ok(None)
        }
        None => Ok(None),
    }
}

// The same, for a file that isn't too long.
fn read_short<S: Store>(
    store: &mut S,
    path: &str,
    found: &mut MentionPlaces,
) -> Result<Option<String>, RunFault> {
    let alloc = store.alloc();
    let bytes = match store.read_start(path, LONGEST_PAGE) {
        Err(error) if is_left_out(error.kind()) => {
            let why = error.to_string(alloc)?;
            found.leave_out(alloc, path, why.as_str())?;
            return Ok(None);
        }
        read => at(alloc, SystemCall::Read, path, read)?,
    };
    match String::from_utf8(bytes) {
        Ok(text) => Ok(Some(text)),
        Err(_) => Ok(None),
    }
}
