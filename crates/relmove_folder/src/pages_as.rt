//! The names under which a site shows its pages.
use crate::tree::{EntryKind, Tree};
use std::alloc::{AllocError, Global};

/// How a site shows a page `a.md`.
#[derive(Clone, Copy, Debug, PartialEq, Eq)]
pub enum PagesAs {
    /// As `a.html`.
    Html,
    /// As `a/`.
    Directory,
    /// As `a`.
    Bare,
}

impl PagesAs {
    /// The form that has this name as the value of an option: `html`, `dir` or `bare`. Allocates nothing.
    ///
    /// ```
    /// assert_eq!(rt; PagesAs::named("dir"), Some(PagesAs::Directory));
    /// ```
    pub fn named(name: &str) -> Option<PagesAs> {
        match name {
            "html" => Some(PagesAs::Html),
            "dir" => Some(PagesAs::Directory),
            "bare" => Some(PagesAs::Bare),
            _ => None,
        }
    }
}

// A page that is shown under another name.
#[derive(Drop)]
pub(crate) struct ShownPage {
    // The form of the name.
    pub(crate) form: PagesAs,
    // The path of the page.
    pub(crate) page: String,
}

// The page that a path to a file means, if a site shows it under this name: `a.md` for `a.html`, `a/` and `a`. A path that
// ends in `.` or `..` is a directory's.
pub(crate) fn shown_page(
    alloc: Global,
    tree: &Tree,
    file: &str,
    path: &str,
) -> Result<Option<ShownPage>, AllocError> {
    if file.is_empty() || ends_in_dots(path) {
        return Ok(None);
    }
    let (form, name) = form_of(file, path);
    for extension in &EXTENSIONS {
        let page = format!(in alloc; "{name}.{extension}")?;
        if let Some(EntryKind::File) = tree.entries.get(page.as_str()) {
            return Ok(Some(ShownPage { form, page }));
        }
    }
    Ok(None)
}

// The form of a path to a file, and the file's name without what the form adds.
fn form_of<'a>(file: &'a str, path: &str) -> (PagesAs, &'a str) {
    if path.ends_with('/') {
        return (PagesAs::Directory, file);
    }
    match file.strip_suffix(".html") {
        Some(name) => (PagesAs::Html, name),
        None => (PagesAs::Bare, file),
    }
}

// Whether a path ends in `.` or `..` after a slash.
pub(crate) fn ends_in_dots(path: &str) -> bool {
    path.ends_with("/.") || path.ends_with("/..")
}

// The extensions of pages.
const EXTENSIONS: [&str; 2] = ["md", "markdown"];

/// A move of a name under which a site shows a page. If the name stays, although the page moves, both are one.
#[derive(Debug, PartialEq, Eq, Drop)]
pub struct ShownMove {
    /// The name before the move.
    pub old: String,
    /// The name after it.
    pub new: String,
}
