//! Where links lead on a site that shows a page `a.md` as `a/`, or may: from the addresses of pages.
use crate::moving_tree::MovingTree;
use crate::pages_as::{PagesAs, shown_page};
use crate::tree::{EntryKind, Page, Tree};
use relative_path::{RelativePath, RelativePathBuf};
use relative_path_links::{Change, Edit, SiteRoot};
use relative_path_places::{NormalPath, directory};
use relmove_journal::join;
use relmove_mentions::{INDEX_NAMES, is_index_page, is_page};
use std::alloc::{AllocError, Global};
use target_paths::TargetReading;

// The path of what a site shows where a path leads from the address of a page, if the path may be one to a page's address. `None`
// if nothing is there.
pub(crate) fn shown_from(
    alloc: Global,
    tree: &Tree,
    page: RelativePath<'_>,
    path: &str,
) -> Result<Option<String>, AllocError> {
    match place_from(alloc, page, path)? {
        Some(place) => shown_at(alloc, tree, place.as_relative_path().as_str()),
        None => Ok(None),
    }
}

// Where a path leads from the address of a page, if it may be one to a page's address: if it ends in a slash, or its last name has
// no extension.
fn place_from(
    alloc: Global,
    page: RelativePath<'_>,
    path: &str,
) -> Result<Option<RelativePathBuf>, AllocError> {
    let relative = RelativePath::new(path);
    if path.is_empty() || !(path.ends_with('/') || relative.extension().is_none()) {
        return Ok(None);
    }
    let place = address_of(page).join_normalized(alloc, relative)?;
    Ok(Some(place))
}

// The address of what is at a path, on such a site: an index page's directory, and of another page the path without its
// extension. What is no page has its path.
pub(crate) fn address_of<'a>(path: RelativePath<'a>) -> RelativePath<'a> {
    if is_index_page(path) {
        directory(path)
    } else if is_page(path) {
        without_extension(path)
    } else {
        path
    }
}

// The path without its extension.
fn without_extension<'a>(path: RelativePath<'a>) -> RelativePath<'a> {
    match path.as_str().rsplit_once('.') {
        Some((front, _)) => RelativePath::new(front),
        None => path,
    }
}

// A page before the moves, and its path after them.
#[derive(Clone, Copy)]
pub(crate) struct MovedPage<'a> {
    pub(crate) page: &'a Page,
    pub(crate) new: &'a NormalPath,
}

// What the target of an edit leads to from its page's address, on a site that shows `a.md` as `a/`.
#[derive(Drop)]
pub(crate) enum FromAddress {
    // It leads from the page's directory, from the site's root, or to nothing.
    No,
    // It leads to the same as before the moves. An index page has the file name that it had.
    Kept,
    // It no longer leads to what is at this path. If that doesn't move, and the page doesn't, the move with this number gives
    // the target another text.
    Lost(String, Option<usize>),
}

// What the target of an edit leads to from its page's address. If it isn't known how the site shows its pages, that counts only in
// an index page that is none after the moves: its address was its directory, and may be another one then.
pub(crate) fn from_address(
    alloc: Global,
    moving: MovingTree<'_, '_>,
    moved: MovedPage<'_>,
    edit: &Edit,
) -> Result<FromAddress, AllocError> {
    let old = RelativePath::new(moved.page.path.as_str());
    let is_asked = match moving.pages_as {
        Some(form) => form == PagesAs::Directory,
        None => is_index_page(old) && !is_index_page(moved.new.as_relative_path()),
    };
    if !is_asked {
        return Ok(FromAddress::No);
    }
    let text = moved.page.text.get(edit.target.start..edit.target.end);
    let Some(place) = place_of(alloc, old, edit, text.unwrap_or(""))? else {
        return Ok(FromAddress::No);
    };
    let Some(shown) = shown_at(alloc, moving.tree, place.as_relative_path().as_str())? else {
        return Ok(FromAddress::No);
    };
    let new = match &edit.change {
        Change::New(text) => text.as_str(),
        Change::Kept | Change::Left(_) => text.unwrap_or(""),
    };
    let after = place_of(alloc, moved.new.as_relative_path(), edit, new)?;
    let page = RelativePath::new(shown.as_str());
    let right = moving.moves.path_after(alloc, page)?;
    let right = right.as_relative_path();
    // Not every site takes an `index.md` for its directory that takes a `README.md` for it.
    let keeps_name = !is_index_page(page) || page.file_name() == right.file_name();
    Ok(match after {
        Some(after) if keeps_name && after.as_relative_path() == address_of(right) => {
            FromAddress::Kept
        }
        _ => FromAddress::Lost(shown, number_of(alloc, moving, edit)?),
    })
}

// The index page that leaves the directory to which a target of dots alone leads from its page's address, if it isn't known how the
// site shows its pages.
pub(crate) fn left_from_address(
    alloc: Global,
    moving: MovingTree<'_, '_>,
    page: &Page,
    edit: &Edit,
) -> Result<Option<String>, AllocError> {
    let text = page.text.get(edit.target.start..edit.target.end);
    let text = text.unwrap_or("");
    if moving.pages_as.is_some() || !is_dots(text) {
        return Ok(None);
    }
    let address = address_of(RelativePath::new(page.path.as_str()));
    let place = address.join_normalized(alloc, RelativePath::new(text))?;
    moving.left_index(alloc, place.as_relative_path())
}

// Whether a text is `.` and `..` with slashes between them, or the like.
fn is_dots(text: &str) -> bool {
    text.starts_with('.') && text.bytes().all(|byte| byte == b'.' || byte == b'/')
}

// The number of the move of what the target of an edit leads to from its page's directory, if there is one.
fn number_of(
    alloc: Global,
    moving: MovingTree<'_, '_>,
    edit: &Edit,
) -> Result<Option<usize>, AllocError> {
    let Some(file) = &edit.file else {
        return Ok(None);
    };
    let file = file.as_relative_path().as_str();
    Ok(match shown_page(alloc, moving.tree, file, "/")? {
        Some(shown) => moving.number_of(shown.page.as_str()),
        None => moving.number_of(file),
    })
}

// Where the text of a target leads from the address of a page. `None` if it doesn't lead from there.
fn place_of(
    alloc: Global,
    page: RelativePath<'_>,
    edit: &Edit,
    text: &str,
) -> Result<Option<RelativePathBuf>, AllocError> {
    match SiteRoot::unknown().read_target(alloc, edit.target.syntax, text)? {
        TargetReading::Path { path, .. } => place_from(alloc, page, path.as_str()),
        _ => Ok(None),
    }
}

// The path of what a site shows at an address: a directory's index page, or the directory, or a page. `None` if nothing is
// there.
fn shown_at(alloc: Global, tree: &Tree, address: &str) -> Result<Option<String>, AllocError> {
    if address.is_empty() {
        return index_in(alloc, tree, address);
    }
    if let Some(EntryKind::Directory) = tree.entries.get(address) {
        let index = index_in(alloc, tree, address)?;
        return Ok(Some(match index {
            Some(index) => index,
            None => String::from_str(alloc, address)?,
        }));
    }
    match shown_page(alloc, tree, address, "/")? {
        Some(shown) => Ok(Some(shown.page)),
        None => Ok(None),
    }
}

// The index page of a directory, if it has one.
fn index_in(alloc: Global, tree: &Tree, directory: &str) -> Result<Option<String>, AllocError> {
    for name in &INDEX_NAMES {
        let index = join(alloc, directory, name)?;
        if let Some(EntryKind::File) = tree.entries.get(index.as_str()) {
            return Ok(Some(index));
        }
    }
    Ok(None)
}
