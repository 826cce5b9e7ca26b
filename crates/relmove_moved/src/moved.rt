//! Moves that somebody made before the call: the tree and its files as they were before the moves, and what is left to do.
ghost use Rattle.std.specs.Prelude.{◌≡◌, ◌↔◌, IfOk, IsTrue, length};
ghost use Rattle.relative_path_links.specs.Edits.{targets_of};
ghost use Rattle.relative_path_links.specs.Targets.{HasTargets};

use relative_path::RelativePath;
use relative_path_links::{Change, Edit, MovedSitePage, SitePage, edited};
use relative_path_moves::{MoveTableError, TreeMoves};
use relative_path_places::{NormalPath, PlaceIndex};
use relmove_actions::Actions;
use relmove_findings::WhyRefused;
use relmove_folder::{
    EntryKind, Page, ShownMove, Tree, is_at_or_below, is_directory_entry, leads_somewhere,
    normal_text,
};
use relmove_journal::{join, name_of};
use relmove_mentions::is_page;
use relmove_plan::Refusal;
use relmove_steps::{After, actions_of};
use relmove_store::{Found, Names, PageFile, RunFault, Store};
use std::alloc::{AllocError, Global};
use std::collections::{BTreeMap, BTreeSet};
use std::io::{self, ErrorKind};

/// Moves that were made before the call.
#[derive(Drop)]
pub struct MadeMoves<'m> {
    // From each old path to the new one.
    moves: TreeMoves<'m>,
    // From each new path to the old one.
    back: TreeMoves<'m>,
    // The new paths, in their normal form.
    news: BTreeSet<String>,
    // The paths of the entries now.
    now: PlaceIndex,
}

impl<'m> MadeMoves<'m> {
    /// The moves that were made in a tree. Fails if nothing is at a new path, or something else is at an old one.
    ///
    /// Allocates tables of the moves, and an index of the tree's paths.
    pub fn of(
        alloc: Global,
        tree: &Tree,
        moves: &[(&'m str, &'m str)],
    ) -> Result<MadeMoves<'m>, WhyRefused> {
        let made = MadeMoves {
            moves: table_of(alloc, moves)?,
            back: table_back(alloc, moves)?,
            news: new_paths(alloc, moves)?,
            now: index_of(alloc, tree)?,
        };
        made.need_at_new_paths(alloc, tree)?;
        made.need_none_at_old_paths(alloc, tree)?;
        Ok(made)
    }

    // Fails if nothing is at the new path of a move, or the directory into which a page moved.
    fn need_at_new_paths(&self, alloc: Global, tree: &Tree) -> Result<(), WhyRefused> {
        for (number, a) in self.moves.moves().iter().enumerate() {
            let new = NormalPath::of(alloc, a.new.written())?;
            let new = new.as_relative_path().as_str();
            if !tree.entries.contains_key(new) {
                return Err(WhyRefused::NotArrived(number));
            }
            if has_page_of(alloc, tree, new, a.old.normal().as_relative_path())? {
                return Err(WhyRefused::IntoDirectory(number));
            }
        }
        Ok(())
    }

    // Fails if something else than what moved would be at the old path of a move.
    fn need_none_at_old_paths(&self, alloc: Global, tree: &Tree) -> Result<(), WhyRefused> {
        for path in tree.entries.keys() {
            let old = self
                .back
                .path_after(alloc, RelativePath::new(path.as_str()))?;
            if let Some(number) = self.moves.olds().get(&old)
                && !self.is_new_path(number, path.as_str())
            {
                return Err(WhyRefused::NotLeft(number));
            }
        }
        Ok(())
    }

    // Whether a path is the new one of a move.
    fn is_new_path(&self, number: usize, path: &str) -> bool {
        match self.moves.moves().get(number) {
            Some(a) => a.new.normal().as_relative_path().as_str() == path,
            None => false,
        }
    }

    // The path before the moves of what is at a path now.
    fn path_before(&self, alloc: Global, path: &str) -> Result<String, AllocError> {
        let before = self.back.path_after(alloc, RelativePath::new(path))?;
        Ok(before.into_relative_path_buf().into_string())
    }

    // The path now of what was at a path before the moves.
    fn path_now(&self, alloc: Global, path: &str) -> Result<String, AllocError> {
        let now = self.moves.path_after(alloc, RelativePath::new(path))?;
        Ok(now.into_relative_path_buf().into_string())
    }

    // Whether nothing was at a path before the moves: what is there now came by a move.
    fn is_new(&self, path: &str, now: &str) -> bool {
        path == now && is_at_or_below(&self.news, path)
    }

    /// A tree that was read, as it was before the moves. Its pages stay in the order of their paths now, and its list of
    /// directories has their paths now.
    ///
    /// Allocates the paths.
    pub fn tree_before(&self, alloc: Global, tree: Tree) -> Result<Tree, AllocError> {
        let Tree {
            entries,
            pages,
            not_text,
            with_base,
            unreadable_names,
            unlisted,
            directories,
            unread,
        } = tree;
        Ok(Tree {
            entries: self.entries_before(alloc, &entries)?,
            pages: self.pages_before(alloc, pages)?,
            not_text,
            with_base,
            unreadable_names: self.paths_before(alloc, &unreadable_names)?,
            unlisted: self.paths_before(alloc, &unlisted)?,
            directories,
            unread,
        })
    }

    // The entries before the moves.
    fn entries_before(
        &self,
        alloc: Global,
        entries: &BTreeMap<String, EntryKind>,
    ) -> Result<BTreeMap<String, EntryKind>, AllocError> {
        let mut before = BTreeMap::new(alloc);
        for (path, kind) in entries {
            before.insert(
                self.path_before(alloc, path.as_str())?,
                copy_of(alloc, kind)?,
            )?;
        }
        for path in self.moves.moves() {
            add_directories(alloc, path.old.normal(), &mut before)?;
        }
        Ok(before)
    }

    // The pages before the moves.
    fn pages_before(&self, alloc: Global, mut pages: Vec<Page>) -> Result<Vec<Page>, AllocError> {
        for page in pages.iter_mut() {
            page.path = self.path_before(alloc, page.path.as_str())?;
        }
        Ok(pages)
    }

    // Paths before the moves, sorted.
    fn paths_before(&self, alloc: Global, paths: &[String]) -> Result<Vec<String>, AllocError> {
        let mut before = Vec::with_capacity(alloc, paths.len())?;
        for path in paths {
            before.push(self.path_before(alloc, path.as_str())?)?;
        }
        before.sort()?;
        Ok(before)
    }

    /// The actions that put the new texts of pages where the pages are now. Nothing else moves.
    ///
    /// Allocates them.
    pub fn actions_now(
        &self,
        alloc: Global,
        tree: &Tree,
        pages: &[MovedSitePage],
    ) -> Result<Actions, Refusal> {
        let none = TreeMoves::new(alloc, &[]).map_err(refusal_of_table)?;
        if let Some((one, other)) = none.same_new(alloc)? {
            return Err(Refusal::SameNew(one, other));
        }
        let site = site_now(alloc, tree, pages)?;
        let now = After {
            index: &self.now,
            after: &self.now,
            table: &none,
            pages,
        };
        Ok(actions_of(alloc, &site, now)?)
    }
}

// Whether a directory has a file with the name of a page.
fn has_page_of(
    alloc: Global,
    tree: &Tree,
    directory: &str,
    page: RelativePath<'_>,
) -> Result<bool, AllocError> {
    if !is_page(page) || !is_directory_entry(tree, directory) {
        return Ok(false);
    }
    let path = join(alloc, directory, name_of(page.as_str()))?;
    Ok(matches!(tree.entries.get(path.as_str()), Some(EntryKind::File)))
}

// The pages of a tree, where they are after moves.
fn site_now<'a>(
    alloc: Global,
    tree: &'a Tree,
    pages: &'a [MovedSitePage],
) -> Result<Vec<SitePage<'a>>, AllocError>
    ensures { IfOk result (λ site. length site.items ≡ length pages.now) }
{
    let mut site = Vec::with_capacity(alloc, pages.len())?;
    for page in pages {
        let text = text_of(tree, site.len());
        site.push(SitePage {
            path: &page.path,
            text,
        })?;
    }
    Ok(site)
}

// The text of a page, given by its number.
fn text_of(tree: &Tree, number: usize) -> &str {
    match tree.pages.get(number) {
        Some(page) => page.text.as_str(),
        None => "",
    }
}

// The table of moves.
fn table_of<'m>(alloc: Global, moves: &[(&'m str, &'m str)]) -> Result<TreeMoves<'m>, Refusal> {
    let mut pairs = Vec::with_capacity(alloc, moves.len())?;
    for (old, new) in moves {
        pairs.push((RelativePath::new(old), RelativePath::new(new)))?;
    }
    TreeMoves::new(alloc, &pairs).map_err(refusal_of_table)
}

// The table of the moves back.
fn table_back<'m>(alloc: Global, moves: &[(&'m str, &'m str)]) -> Result<TreeMoves<'m>, Refusal> {
    let mut pairs = Vec::with_capacity(alloc, moves.len())?;
    for (old, new) in moves {
        pairs.push((RelativePath::new(new), RelativePath::new(old)))?;
    }
    TreeMoves::new(alloc, &pairs).map_err(|error| match error {
        MoveTableError::SameOld(one, other) => Refusal::SameNew(one, other),
        error => refusal_of_table(error),
    })
}

// The refusal of moves of which no table can be made.
fn refusal_of_table(error: MoveTableError) -> Refusal {
    match error {
        MoveTableError::NoFileName(number) => Refusal::NoFileName(number),
        MoveTableError::SameOld(one, other) => Refusal::SameOld(one, other),
        MoveTableError::OutOfMemory => Refusal::OutOfMemory,
    }
}

// The new paths of moves, in their normal form.
fn new_paths(alloc: Global, moves: &[(&str, &str)]) -> Result<BTreeSet<String>, AllocError> {
    let mut news = BTreeSet::new(alloc);
    for (_, new) in moves {
        news.insert(normal_text(alloc, new)?)?;
    }
    Ok(news)
}

// The index of the paths of a tree's entries.
fn index_of(alloc: Global, tree: &Tree) -> Result<PlaceIndex, AllocError> {
    let mut index = PlaceIndex::new(alloc);
    for (number, path) in tree.entries.keys().enumerate() {
        index.insert(alloc, RelativePath::new(path.as_str()), number)?;
    }
    Ok(index)
}

// Adds the directories above a path that aren't there.
fn add_directories(
    alloc: Global,
    path: &NormalPath,
    entries: &mut BTreeMap<String, EntryKind>,
) -> Result<(), AllocError> {
    let path = path.as_relative_path().as_str();
    for (slash, _) in path.match_indices('/') {
        let above = path.get(..slash).unwrap_or("");
        if !entries.contains_key(above) {
            entries.insert(String::from_str(alloc, above)?, EntryKind::Directory)?;
        }
    }
    Ok(())
}

// The same kind of entry.
fn copy_of(alloc: Global, kind: &EntryKind) -> Result<EntryKind, AllocError> {
    Ok(match kind {
        EntryKind::File => EntryKind::File,
        EntryKind::Directory => EntryKind::Directory,
        EntryKind::Symlink(Some(path)) => {
            EntryKind::Symlink(Some(String::from_str(alloc, path.as_str())?))
        }
        EntryKind::Symlink(None) => EntryKind::Symlink(None),
        EntryKind::Other => EntryKind::Other,
    })
}

/// Keeps those targets of pages that moved which led to nothing before the moves: somebody may have changed them since.
///
/// `store` has the files before the moves, and `tree` is theirs. Asks it for the files of the targets, but for names under
/// which the site shows pages that move. Allocates new texts.
pub fn keep_dead_targets<S: Store>(
    store: &mut S,
    tree: &Tree,
    shown: &[ShownMove],
    pages: &mut [MovedSitePage],
) -> Result<(), RunFault> {
    let mut number = 0usize;
    for new in pages.iter_mut() {
        if let Some(page) = tree.pages.get(number)
            && page.path.as_str() != new.path.as_relative_path().as_str()
        {
            keep_in_page(store, page, shown, new)?;
        }
        number = number.saturating_add(1);
    }
    Ok(())
}

// Keeps the targets of a page that led to nothing.
fn keep_in_page<S: Store>(
    store: &mut S,
    page: &Page,
    shown: &[ShownMove],
    new: &mut MovedSitePage,
) -> Result<(), RunFault> {
    let mut keeps = false;
    for edit in new.edits.iter_mut() {
        if edit.is_new() && led_to_nothing(store, shown, edit)? {
            edit.change = Change::Kept;
            keeps = true;
        }
    }
    if keeps {
        new.text = text_with(store.alloc(), page.text.as_str(), &new.edits)?;
    }
    Ok(())
}

// Whether the target of an edit led to nothing. A name under which the site shows a page that moves led to the page.
fn led_to_nothing<S: Store>(
    store: &mut S,
    shown: &[ShownMove],
    edit: &Edit,
) -> Result<bool, AllocError> {
    let Some(file) = &edit.file else {
        return Ok(false);
    };
    let file = file.as_relative_path().as_str();
    let is_shown = shown.iter().any(|a| a.old.as_str() == file);
    Ok(!is_shown && !leads_somewhere(store, file)?)
}

// A page with the new targets among its edits, or `None` if there are none.
fn text_with(alloc: Global, page: &str, edits: &[Edit]) -> Result<Option<String>, AllocError> {
    if !edits.iter().any(|edit| edit.is_new()) {
        return Ok(None);
    }
    // A plan makes edits in order.
    if !are_in_order(page, edits) {
        return Ok(None);
    }
    Ok(Some(edited(alloc, page, edits)?))
}

// Whether a page has the targets of edits, each after the end of the one before.
fn are_in_order(page: &str, edits: &[Edit]) -> bool
    ensures { IsTrue result ↔ HasTargets page.now 0 (targets_of edits.now) }
{
    let mut at = 0;
    let mut rest = edits;
    while let Some((edit, others)) = rest.split_first() {
        if edit.target.start < at || !edit.target.is_of(page) {
            return false;
        }
        at = edit.target.end;
        rest = others;
    }
    true
}

/// The files of a store, by their paths before moves that were made. It answers questions, and changes nothing.
#[derive(Drop)]
pub struct StoreBefore<'a, 'm, S> {
    store: &'a mut S,
    made: &'a MadeMoves<'m>,
}

impl<'a, 'm, S: Store> StoreBefore<'a, 'm, S> {
    /// The files of a store before these moves. Allocates nothing.
    pub fn new(store: &'a mut S, made: &'a MadeMoves<'m>) -> StoreBefore<'a, 'm, S> {
        StoreBefore { store, made }
    }

    // The path now of what was at a path, or `None` if nothing was there.
    fn path_now(&self, path: &str) -> Result<Option<String>, AllocError> {
        let now = self.made.path_now(self.store.alloc(), path)?;
        if self.made.is_new(path, now.as_str()) {
            return Ok(None);
        }
        Ok(Some(now))
    }

    // The path now of what has to be there.
    fn need_path(&self, path: &str) -> io::Result<String> {
        match self.path_now(path)? {
            Some(now) => Ok(now),
            None => Err(io::Error::from(ErrorKind::NotFound)),
        }
    }
}

// The error of a call that would change something.
fn changes_nothing<T>() -> io::Result<T> {
    Err(io::Error::from(ErrorKind::Unsupported))
}

impl<S: Store> Store for StoreBefore<'_, '_, S> {
    type NewFile = S::NewFile;

    fn alloc(&self) -> Global {
        self.store.alloc()
    }

    fn root(&self) -> &str {
        self.store.root()
    }

    fn find(&mut self, path: &str) -> io::Result<Option<Found>> {
        match self.path_now(path)? {
            Some(now) => self.store.find(now.as_str()),
            None => Ok(None),
        }
    }

    fn follow(&mut self, path: &str) -> io::Result<Option<Found>> {
        match self.path_now(path)? {
            Some(now) => self.store.follow(now.as_str()),
            None => Ok(None),
        }
    }

    fn list(&mut self, path: &str) -> io::Result<Names> {
        let now = self.need_path(path)?;
        self.store.list(now.as_str())
    }

    fn read_symlink(&mut self, path: &str) -> io::Result<Option<String>> {
        let now = self.need_path(path)?;
        self.store.read_symlink(now.as_str())
    }

    fn read(&mut self, path: &str) -> io::Result<Vec<u8>> {
        let now = self.need_path(path)?;
        self.store.read(now.as_str())
    }

    fn read_start(&mut self, path: &str, most: u64) -> io::Result<Vec<u8>> {
        let now = self.need_path(path)?;
        self.store.read_start(now.as_str(), most)
    }

    fn read_page(&mut self, path: &str) -> io::Result<(PageFile, Vec<u8>)> {
        let now = self.need_path(path)?;
        self.store.read_page(now.as_str())
    }

    fn create(&mut self, _: &str, _: u32) -> io::Result<S::NewFile> {
        changes_nothing()
    }

    fn find_new(&mut self, _: &S::NewFile) -> io::Result<Found> {
        changes_nothing()
    }

    fn write(&mut self, _: &mut S::NewFile, _: &[u8]) -> io::Result<()> {
        changes_nothing()
    }

    fn set_owner(&mut self, _: &S::NewFile, _: u32, _: u32) -> io::Result<()> {
        changes_nothing()
    }

    fn set_mode(&mut self, _: &S::NewFile, _: u32) -> io::Result<()> {
        changes_nothing()
    }

    fn sync(&mut self, _: &S::NewFile) -> io::Result<()> {
        changes_nothing()
    }

    fn sync_directory(&mut self, _: &str) -> io::Result<()> {
        changes_nothing()
    }

    fn rename(&mut self, _: &str, _: &str) -> io::Result<()> {
        changes_nothing()
    }

    fn hard_link(&mut self, _: &str, _: &str) -> io::Result<()> {
        changes_nothing()
    }

    fn make_directory(&mut self, _: &str, _: u32) -> io::Result<()> {
        changes_nothing()
    }

    fn remove_file(&mut self, _: &str) -> io::Result<()> {
        changes_nothing()
    }

    fn remove_directory(&mut self, _: &str) -> io::Result<()> {
        changes_nothing()
    }

    fn lock(&mut self) -> io::Result<bool> {
        changes_nothing()
    }

    fn is_locked(&mut self) -> io::Result<bool> {
        self.store.is_locked()
    }
}
