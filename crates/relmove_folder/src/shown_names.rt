//! The moves of the names under which a site shows its pages.
use crate::pages_as::{PagesAs, ShownMove};
use crate::slugs::address_path;
use crate::tree::{EntryKind, Tree};
use relative_path::{RelativePath, RelativePathBuf};
use relative_path_moves::TreeMoves;
use relmove_mentions::is_index_page;
use std::alloc::{AllocError, Global};
use std::collections::BTreeSet;

/// The moves of the names under which a site shows the pages that have a move of their own: of `a.html` to `b.html` if `a.md`
/// moves to `b.md`. There is none for a page if something else is at one of the names, if its extension isn't `md`, or if the
/// site shows it as its directory, as it does an index page. The name stays of a page that moves, perhaps with a directory, if the
/// page says itself under which address it is shown, or if the site may show the new path at another address than the path.
///
/// Allocates the names, and if there may be one, the new path of each entry.
pub fn shown_moves(
    alloc: Global,
    tree: &Tree,
    moves: &TreeMoves<'_>,
    form: PagesAs,
) -> Result<Vec<ShownMove>, AllocError> {
    let stay = names_that_stay(alloc, tree, moves, form)?;
    let mut shown = Vec::new(alloc);
    for a in moves.moves() {
        let old = a.old.normal().as_relative_path();
        let new = a.new.normal().as_relative_path();
        if let Some(old) = name_before(alloc, tree, old, form)?
            && let Some(new) = name_as(alloc, new, form)?
            && !stay.contains(old.as_relative_path().as_str())
        {
            shown.push((old, new))?;
        }
    }
    let mut all = if shown.is_empty() {
        Vec::new(alloc)
    } else {
        free_moves(alloc, &paths_after(alloc, tree, moves)?, shown)?
    };
    for name in &stay {
        all.push(ShownMove {
            old: name.clone()?,
            new: name.clone()?,
        })?;
    }
    Ok(all)
}

// The names of pages that move, and of which a site may not show the new path under its name.
fn names_that_stay(
    alloc: Global,
    tree: &Tree,
    moves: &TreeMoves<'_>,
    form: PagesAs,
) -> Result<BTreeSet<String>, AllocError> {
    let mut names = BTreeSet::new(alloc);
    insert_own_addresses(alloc, tree, moves, form, &mut names)?;
    insert_other_addresses(alloc, tree, moves, form, &mut names)?;
    Ok(names)
}

// Inserts the names of pages that move, and say themselves under which address they are shown.
fn insert_own_addresses(
    alloc: Global,
    tree: &Tree,
    moves: &TreeMoves<'_>,
    form: PagesAs,
    names: &mut BTreeSet<String>,
) -> Result<(), AllocError> {
    for page in &tree.pages {
        let old = RelativePath::new(page.path.as_str());
        let new = moves.path_after(alloc, old)?;
        if new.as_relative_path() != old && has_address(page.text.as_str()) {
            insert_name(alloc, tree, old, form, names)?;
        }
    }
    Ok(())
}

// Inserts the names of pages whose new path may be another in an address, those that aren't read too.
fn insert_other_addresses(
    alloc: Global,
    tree: &Tree,
    moves: &TreeMoves<'_>,
    form: PagesAs,
    names: &mut BTreeSet<String>,
) -> Result<(), AllocError> {
    for path in tree.entries.keys() {
        let old = RelativePath::new(path.as_str());
        let new = moves.path_after(alloc, old)?;
        if gets_other_address(alloc, old, new.as_relative_path(), Some(form))? {
            insert_name(alloc, tree, old, form, names)?;
        }
    }
    Ok(())
}

// Inserts the name under which a site shows the page at a path, if there is one.
fn insert_name(
    alloc: Global,
    tree: &Tree,
    page: RelativePath<'_>,
    form: PagesAs,
    names: &mut BTreeSet<String>,
) -> Result<(), AllocError> {
    if let Some(name) = name_before(alloc, tree, page, form)? {
        names.insert(name.into_string())?;
    }
    Ok(())
}

/// Whether a site may show a page or a directory at another address than its new path, as Hugo shows `My Page.md` as `my-page/`. A
/// site that showed it at its old path, though that isn't such an address, doesn't.
pub(crate) fn gets_other_address(
    alloc: Global,
    old: RelativePath<'_>,
    new: RelativePath<'_>,
    form: Option<PagesAs>,
) -> Result<bool, AllocError> {
    if form != Some(PagesAs::Directory) {
        return Ok(false);
    }
    let before = address_path(alloc, old.as_str())?;
    let after = address_path(alloc, new.as_str())?;
    Ok(before.is_none() && after.is_some())
}

// Whether the front matter of a page gives its address.
fn has_address(text: &str) -> bool {
    let mut lines = text.lines();
    let end = match lines.next() {
        Some("---") => "---",
        Some("+++") => "+++",
        _ => return false,
    };
    for line in lines {
        if line.trim_end() == end {
            return false;
        }
        if gives_address(line) {
            return true;
        }
    }
    false
}

// Whether a line of front matter gives an address, or a part of one.
fn gives_address(line: &str) -> bool {
    ADDRESS_KEYS.iter().any(|key| match line.strip_prefix(*key) {
        Some(rest) => rest.trim_start().starts_with(':') || rest.trim_start().starts_with('='),
        None => false,
    })
}

// The keys of front matter by which Hugo, Jekyll and Docusaurus give a page another address than its path's.
const ADDRESS_KEYS: [&str; 3] = ["permalink", "slug", "url"];

// The name under which a site shows the page at a path, if a page is there, and nothing else has the name.
fn name_before(
    alloc: Global,
    tree: &Tree,
    page: RelativePath<'_>,
    form: PagesAs,
) -> Result<Option<RelativePathBuf>, AllocError> {
    if !matches!(tree.entries.get(page.as_str()), Some(EntryKind::File)) {
        return Ok(None);
    }
    let Some(name) = name_as(alloc, page, form)? else {
        return Ok(None);
    };
    let is_free = !tree.entries.contains_key(name.as_relative_path().as_str());
    Ok(if is_free { Some(name) } else { None })
}

// The name under which a site shows a page: `a.html`, or `a` for `a/` too. `None` for what is no page, and for an index page
// that the site shows as its directory.
fn name_as(
    alloc: Global,
    page: RelativePath<'_>,
    form: PagesAs,
) -> Result<Option<RelativePathBuf>, AllocError> {
    if page.extension() != Some("md") {
        return Ok(None);
    }
    if form == PagesAs::Html {
        return Ok(Some(page.with_extension(alloc, "html")?));
    }
    let is_shown = !is_index_page(page) && !matches!(page.file_stem(), Some(".") | Some(".."));
    Ok(if is_shown {
        Some(page.with_extension(alloc, "")?)
    } else {
        None
    })
}

// The paths of the entries of a tree after moves.
fn paths_after(
    alloc: Global,
    tree: &Tree,
    moves: &TreeMoves<'_>,
) -> Result<BTreeSet<String>, AllocError> {
    let mut after = BTreeSet::new(alloc);
    for path in tree.entries.keys() {
        let now = moves.path_after(alloc, RelativePath::new(path.as_str()))?;
        after.insert(now.into_relative_path_buf().into_string())?;
    }
    Ok(after)
}

// The moves of names to those that nothing else has.
fn free_moves(
    alloc: Global,
    taken: &BTreeSet<String>,
    names: Vec<(RelativePathBuf, RelativePathBuf)>,
) -> Result<Vec<ShownMove>, AllocError> {
    let mut moves = Vec::new(alloc);
    for (old, new) in names {
        if !taken.contains(new.as_relative_path().as_str()) {
            moves.push(ShownMove {
                old: old.into_string(),
                new: new.into_string(),
            })?;
        }
    }
    Ok(moves)
}
