//! Plans moves in a tree that was read, and finds the links that the plan leaves.
use crate::losses::Watch;
use relative_path::RelativePath;
use relative_path_links::{Change, Edit, Markdown, MovedSitePage, SitePage, SiteRoot};
use relative_path_moves::{Move, MoveTableError, TreeMoves};
use relative_path_places::NormalPath;
use relmove_actions::Actions;
use relmove_findings::{LeftLink, LostSymlink, Moving, PlannedMoves, WhyLeft, WhyRefused};
use relmove_folder::{
    EntryKind, Page, PagesAs, PlannedPage, Positions, Presence, ShownMove, Tree, cannot_read,
    has_path, has_unread_name, is_directory, is_read_directory, leads_somewhere, normal_text,
    presence_at, shown_moves,
};
use relmove_journal::{JOURNAL, directory_of, join};
use relmove_plan::{Entry, Kind, NameRule, Plan, Refusal, make_plan};
use relmove_store::{
    FoundKind, LONGEST_PATH, RunFault, Store, SystemCall, at, is_absence, need_short,
};
use std::alloc::{AllocError, Global};
use std::io::ErrorKind;

/// Plans the moves of a tree: each OLD with its NEW. Nothing is changed. Links that begin with a slash lead from the site's
/// root. If the site shows pages under other names, links to these names move along with the pages. Fails with [`RunFault::TooLong`] if something in the tree gets a path that is too long for the system.
///
/// Asks the system whether what the links that stay lead to is there, and for the names in directories that aren't read
/// and get longer paths. Of a link it asks for nothing else, unless the link leads through a symbolic link or into a
/// directory that isn't read. Once it asks whether the file system ignores case. If it does, links that lead to no name
/// that was read are asked for. What is above the root is asked for only where a symbolic link leads there.
pub fn moving_of<'a, 'm, S: Store>(
    store: &mut S,
    tree: &'a Tree,
    root: &SiteRoot,
    pages_as: Option<PagesAs>,
    moves: &[(&'m str, &'m str)],
    rule: NameRule,
) -> Result<Moving<'a, 'm>, WhyRefused> {
    let alloc = store.alloc();
    need_read_directories(alloc, moves)?;
    let pairs = pairs_of(alloc, moves)?;
    let shown = shown_by(alloc, tree, &pairs, pages_as)?;
    let links = link_moves(alloc, moves, &shown)?;
    let plan = plan_of(alloc, tree, root, &pairs, &links, rule)?;
    need_directories(alloc, tree, moves)?;
    need_other_names(moves)?;
    need_short_paths(store, tree, &plan.moves)?;
    let (left, lost) = losses_of(store, tree, &plan)?;
    Ok(Moving {
        plan,
        left,
        lost,
        shown,
    })
}

/// Returns what moves do to a tree, and the actions of their run. The new texts of the pages are among the actions alone then.
/// Allocates the list of the pages.
pub fn parts_of<'a, 'm>(
    alloc: Global,
    moving: Moving<'a, 'm>,
) -> Result<(PlannedMoves<'a, 'm>, Actions), AllocError> {
    let Moving {
        plan,
        left,
        lost,
        shown,
    } = moving;
    let Plan {
        moves,
        pages,
        symlinks,
        actions,
    } = plan;
    let planned = PlannedMoves {
        moves,
        pages: planned_pages(alloc, pages)?,
        symlinks,
        left,
        lost,
        shown,
    };
    Ok((planned, actions))
}

// The pages of a plan, without their new texts.
fn planned_pages(alloc: Global, pages: Vec<MovedSitePage>) -> Result<Vec<PlannedPage>, AllocError> {
    let mut planned = Vec::with_capacity(alloc, pages.len())?;
    for page in pages {
        planned.push(PlannedPage::of(page))?;
    }
    Ok(planned)
}

// The moves, as paths.
fn pairs_of<'a>(
    alloc: Global,
    moves: &[(&'a str, &'a str)],
) -> Result<Vec<(RelativePath<'a>, RelativePath<'a>)>, AllocError> {
    let mut pairs = Vec::with_capacity(alloc, moves.len())?;
    for (old, new) in moves {
        pairs.push((RelativePath::new(old), RelativePath::new(new)))?;
    }
    Ok(pairs)
}

// Fails if a path of a move is in a directory that isn't read.
fn need_read_directories(alloc: Global, moves: &[(&str, &str)]) -> Result<(), WhyRefused> {
    for (number, (old, new)) in moves.iter().enumerate() {
        if is_in_dot_directory(alloc, old)? || is_in_dot_directory(alloc, new)? {
            return Err(WhyRefused::DotDirectory(number));
        }
    }
    Ok(())
}

// Whether a path is in a directory below the root whose name begins with a dot, and isn't `.github`.
fn is_in_dot_directory(alloc: Global, path: &str) -> Result<bool, AllocError> {
    let normal = normal_text(alloc, path)?;
    let directory = directory_of(normal.as_str());
    Ok(RelativePath::new(directory).climb() == 0 && directory.split('/').any(has_unread_name))
}

// Fails if a path of a move ends in a slash, and what moves is no directory.
fn need_directories(alloc: Global, tree: &Tree, moves: &[(&str, &str)]) -> Result<(), WhyRefused> {
    for (number, (old, new)) in moves.iter().enumerate() {
        if (old.ends_with('/') || new.ends_with('/')) && !is_directory(alloc, tree, old)? {
            return Err(WhyRefused::NoDirectory(number));
        }
    }
    Ok(())
}

// Fails if a new path has a name that begins as those of a run's own files, in whatever case.
fn need_other_names(moves: &[(&str, &str)]) -> Result<(), WhyRefused> {
    for (number, (_, new)) in moves.iter().enumerate() {
        if new.split('/').any(is_reserved_name) {
            return Err(WhyRefused::ReservedName(number));
        }
    }
    Ok(())
}

// Whether a name begins as those of a run's own files, in whatever case. They all begin as the journal's.
fn is_reserved_name(name: &str) -> bool {
    match name.get(..JOURNAL.len()) {
        Some(start) => start.eq_ignore_ascii_case(JOURNAL),
        None => false,
    }
}

// Fails if something in the tree gets a path that is too long, since a directory above it moves.
fn need_short_paths<S: Store>(
    store: &mut S,
    tree: &Tree,
    moves: &TreeMoves<'_>,
) -> Result<(), WhyRefused> {
    let alloc = store.alloc();
    let most = most_added(store.root(), moves.moves());
    for (path, kind) in &tree.entries {
        let path = path.as_str();
        if path.len().saturating_add(most) > LONGEST_PATH {
            let after = moves.path_after(alloc, RelativePath::new(path))?;
            need_short(alloc, store.root(), after.as_relative_path().as_str())?;
        }
        if *kind == EntryKind::Directory && has_unread_name(path) {
            let after = moves.path_after(alloc, RelativePath::new(path))?;
            need_short_below(store, path, after.as_relative_path().as_str())?;
        }
    }
    Ok(())
}

// How many bytes a path below a root gets at most, with the root's path before it and after moves.
fn most_added(root: &str, moves: &[Move<'_>]) -> usize {
    let mut longest = 0usize;
    for a in moves {
        longest = longest.max(a.new.written().as_str().len());
    }
    root.len().saturating_add(1).saturating_add(longest)
}

// Fails if something below a directory that isn't read gets a path that is too long, since the directory gets another
// one. Asks for names and kinds alone. What can't be listed isn't asked for.
fn need_short_below<S: Store>(store: &mut S, old: &str, new: &str) -> Result<(), RunFault> {
    if new.len() <= old.len() {
        return Ok(());
    }
    let alloc = store.alloc();
    let mut directories = Vec::new(alloc);
    directories.push((String::from_str(alloc, old)?, String::from_str(alloc, new)?))?;
    let mut next = 0;
    while let Some((old, new)) = directories.get(next) {
        let more = need_short_in(store, old.as_str(), new.as_str())?;
        directories.extend(more)?;
        next += 1;
    }
    Ok(())
}

// Fails if something in a directory gets a path that is too long. Returns the directories in it, each with its new path.
fn need_short_in<S: Store>(
    store: &mut S,
    old: &str,
    new: &str,
) -> Result<Vec<(String, String)>, RunFault> {
    let alloc = store.alloc();
    let mut directories = Vec::new(alloc);
    let names = match store.list(old) {
        Err(error) if cannot_ask(error.kind()) => return Ok(directories),
        listed => at(alloc, SystemCall::List, old, listed)?,
    };
    for name in &names.texts {
        let new = join(alloc, new, name.as_str())?;
        need_short(alloc, store.root(), new.as_str())?;
        let old = join(alloc, old, name.as_str())?;
        if is_directory_at(store, old.as_str())? {
            directories.push((old, new))?;
        }
    }
    Ok(directories)
}

// Whether a directory is at a path. What can't be looked up is none.
fn is_directory_at<S: Store>(store: &mut S, path: &str) -> Result<bool, RunFault> {
    match store.find(path) {
        Err(error) if cannot_ask(error.kind()) => Ok(false),
        asked => match at(store.alloc(), SystemCall::Ask, path, asked)? {
            Some(found) => Ok(found.kind == FoundKind::Directory),
            None => Ok(false),
        },
    }
}

// Whether an error says that something can't be read, or is gone.
fn cannot_ask(kind: ErrorKind) -> bool {
    cannot_read(kind) || is_absence(kind)
}

// The moves of the names under which a site shows its pages in a form. Of moves that can't be planned there are none.
fn shown_by(
    alloc: Global,
    tree: &Tree,
    moves: &[(RelativePath<'_>, RelativePath<'_>)],
    pages_as: Option<PagesAs>,
) -> Result<Vec<ShownMove>, AllocError> {
    let Some(form) = pages_as else {
        return Ok(Vec::new(alloc));
    };
    match table_of(alloc, moves)? {
        Some(table) => shown_moves(alloc, tree, &table, form),
        None => Ok(Vec::new(alloc)),
    }
}

// The table of moves. `None` if there can't be one.
fn table_of<'a>(
    alloc: Global,
    moves: &[(RelativePath<'a>, RelativePath<'a>)],
) -> Result<Option<TreeMoves<'a>>, AllocError> {
    match TreeMoves::new(alloc, moves) {
        Ok(table) => Ok(Some(table)),
        Err(MoveTableError::OutOfMemory) => Err(AllocError),
        Err(_) => Ok(None),
    }
}

// The moves by which links move: all moves, and those of shown names. There are none if links move as the files do.
fn link_moves(
    alloc: Global,
    moves: &[(&str, &str)],
    shown: &[ShownMove],
) -> Result<Vec<(String, String)>, AllocError> {
    let mut links = Vec::new(alloc);
    if shown.is_empty() {
        return Ok(links);
    }
    for (old, new) in moves {
        links.push((String::from_str(alloc, old)?, String::from_str(alloc, new)?))?;
    }
    for a in shown {
        links.push((a.old.clone()?, a.new.clone()?))?;
    }
    Ok(links)
}

// The table of the moves by which links move. `None` if there are none.
fn link_table(
    alloc: Global,
    links: &[(String, String)],
) -> Result<Option<TreeMoves<'_>>, AllocError> {
    if links.is_empty() {
        return Ok(None);
    }
    let mut pairs = Vec::with_capacity(alloc, links.len())?;
    for (old, new) in links {
        pairs.push((
            RelativePath::new(old.as_str()),
            RelativePath::new(new.as_str()),
        ))?;
    }
    table_of(alloc, &pairs)
}

// The plan of moves.
fn plan_of<'a>(
    alloc: Global,
    tree: &Tree,
    root: &SiteRoot,
    moves: &[(RelativePath<'a>, RelativePath<'a>)],
    links: &[(String, String)],
    rule: NameRule,
) -> Result<Plan<'a>, Refusal> {
    let entries = entries_of(alloc, tree)?;
    let paths = page_paths(alloc, &tree.pages)?;
    let pages = site_pages(alloc, &tree.pages, &paths)?;
    let tree = relmove_plan::SiteTree {
        entries: &entries,
        pages: &pages,
        root,
    };
    let links = link_table(alloc, links)?;
    make_plan(alloc, tree, moves, links.as_ref(), rule, &Markdown)
}

// The entries of a tree, as the plan takes them.
fn entries_of<'a>(alloc: Global, tree: &'a Tree) -> Result<Vec<Entry<'a>>, AllocError> {
    let mut entries = Vec::new(alloc);
    for (path, kind) in &tree.entries {
        let kind = match kind {
            EntryKind::File => Kind::File,
            EntryKind::Other => Kind::File,
            EntryKind::Directory => directory_kind(tree, path.as_str()),
            EntryKind::Symlink(Some(path)) => symlink_of(path.as_str()),
            EntryKind::Symlink(None) => Kind::Symlink { path: None },
        };
        let path = NormalPath::of(alloc, RelativePath::new(path.as_str()))?;
        entries.push(Entry { path, kind })?;
    }
    Ok(entries)
}

// Returns the directory at a path of a tree.
fn directory_kind<'a>(tree: &Tree, path: &str) -> Kind<'a> {
    Kind::Directory {
        has_foreign_name: has_path(&tree.unreadable_names, path),
        is_read: is_read_directory(tree, path),
    }
}

// Returns the symbolic link that has this path.
fn symlink_of<'a>(path: &'a str) -> Kind<'a> {
    Kind::Symlink {
        path: if path.starts_with('/') {
            None
        } else {
            Some(RelativePath::new(path))
        },
    }
}

// The normal paths of pages.
fn page_paths(alloc: Global, pages: &[Page]) -> Result<Vec<NormalPath>, AllocError> {
    let mut paths = Vec::with_capacity(alloc, pages.len())?;
    for page in pages {
        paths.push(NormalPath::of(alloc, RelativePath::new(page.path.as_str()))?)?;
    }
    Ok(paths)
}

// The pages with these paths, as the plan takes them.
fn site_pages<'a>(
    alloc: Global,
    pages: &'a [Page],
    paths: &'a [NormalPath],
) -> Result<Vec<SitePage<'a>>, AllocError> {
    let mut site = Vec::with_capacity(alloc, pages.len())?;
    for (page, path) in pages.iter().zip(paths) {
        site.push(SitePage {
            path,
            text: page.text.as_str(),
        })?;
    }
    Ok(site)
}

// The links and the symbolic links that no longer lead to their file, or may not.
fn losses_of<'a, S: Store>(
    store: &mut S,
    tree: &'a Tree,
    plan: &Plan<'_>,
) -> Result<(Vec<LeftLink<'a>>, Vec<LostSymlink<'a>>), RunFault> {
    let mut watch = Watch::new(store, tree, plan)?;
    let left = left_links(store, &tree.pages, &plan.pages, &mut watch)?;
    let lost = lost_symlinks(store, tree, plan, &mut watch)?;
    Ok((left, lost))
}

// The links that no longer lead to their file, or may not.
fn left_links<'a, S: Store>(
    store: &mut S,
    pages: &'a [Page],
    news: &[MovedSitePage],
    watch: &mut Watch<'_>,
) -> Result<Vec<LeftLink<'a>>, RunFault> {
    let mut left = Vec::new(store.alloc());
    for (page, new) in pages.iter().zip(news) {
        add_left_links(store, page, &new.edits, watch, &mut left)?;
    }
    Ok(left)
}

// Adds the links of a page that stay although they no longer lead to their file, or may not, and those that no longer lead
// there although they have the target that the plan gives them.
fn add_left_links<'a, S: Store>(
    store: &mut S,
    page: &'a Page,
    edits: &[Edit],
    watch: &mut Watch<'_>,
    left: &mut Vec<LeftLink<'a>>,
) -> Result<(), RunFault> {
    let mut positions = Positions::new(page.text.as_str());
    for edit in edits {
        if let Some((why, leads)) = loss_of_edit(store, edit, watch)?
            && let Some((position, target)) = positions.of(edit.target)
        {
            left.push(LeftLink {
                page: page.path.as_str(),
                position,
                target,
                why,
                leads,
            })?;
        }
    }
    Ok(())
}

// Returns why the link of an edit no longer leads to its file after the moves, or may not, and whether it leads to a file
// before them, or may. `None` if it still leads there.
fn loss_of_edit<S: Store>(
    store: &mut S,
    edit: &Edit,
    watch: &mut Watch<'_>,
) -> Result<Option<(WhyLeft, bool)>, RunFault> {
    if let Change::Left(why) = edit.change {
        let leads = may_lead(store, edit.file.as_ref())?;
        return Ok(Some((WhyLeft::Unchanged(why), leads)));
    }
    match watched_loss(store, edit.file.as_ref(), watch)? {
        Some(why) => Ok(Some((why, true))),
        None => Ok(None),
    }
}

// Returns whether a target with this file leads to a file, or may. A target without one has a meaning that isn't known.
fn may_lead<S: Store>(store: &mut S, file: Option<&NormalPath>) -> Result<bool, RunFault> {
    let Some(file) = file else {
        return Ok(true);
    };
    let file = file.as_relative_path();
    // What is above the root isn't looked at.
    Ok(file.climb() > 0 || leads_somewhere(store, file.as_str())?)
}

// Returns why a link to this file that the plan changes or lets stay no longer leads there, or may not.
fn watched_loss<S: Store>(
    store: &mut S,
    file: Option<&NormalPath>,
    watch: &mut Watch<'_>,
) -> Result<Option<WhyLeft>, RunFault> {
    let Some(file) = file else {
        return Ok(None);
    };
    let file = file.as_relative_path();
    if watch.is_emptied(file.as_str()) {
        return Ok(Some(WhyLeft::Emptied));
    }
    if !watch.sees(file.as_str()) || file.climb() > 0 {
        return Ok(None);
    }
    why_left(store, file.as_str(), watch)
}

// Why a link that leads to this path no longer leads to its file after the moves, or may not.
fn why_left<S: Store>(
    store: &mut S,
    file: &str,
    watch: &mut Watch<'_>,
) -> Result<Option<WhyLeft>, RunFault> {
    match presence_at(watch.tree, file) {
        Presence::There => Ok(None),
        Presence::Unknown => match watch.loss_of(store, file)? {
            Some(loss) => Ok(Some(WhyLeft::Lost(loss))),
            None => Ok(None),
        },
        Presence::Absent if watch.ignores_case && leads_somewhere(store, file)? => {
            Ok(Some(WhyLeft::OtherSpelling))
        }
        Presence::Absent => Ok(None),
    }
}

// The symbolic links that no longer lead to what they led to, but for those of the plan.
fn lost_symlinks<'a, S: Store>(
    store: &mut S,
    tree: &'a Tree,
    plan: &Plan<'_>,
    watch: &mut Watch<'_>,
) -> Result<Vec<LostSymlink<'a>>, RunFault> {
    let mut lost = Vec::new(store.alloc());
    // Those of the plan are in the order of the entries.
    let mut notices = plan.symlinks.as_slice();
    for (path, kind) in &tree.entries {
        if !matches!(kind, EntryKind::Symlink(_)) {
            continue;
        }
        if let Some((notice, rest)) = notices.split_first()
            && notice.path.as_relative_path().as_str() == path.as_str()
        {
            notices = rest;
        } else if let Some(loss) = watch.loss_of(store, path.as_str())? {
            lost.push(LostSymlink {
                path: path.as_str(),
                loss,
            })?;
        }
    }
    Ok(lost)
}
