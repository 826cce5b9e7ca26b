//! Reads what is below the root: directories, files, links, and the texts of pages.
use markdown_targets::link_targets;
use relative_path::RelativePath;
use relmove_actions::STAGING;
use relmove_journal::{join, name_of};
use relmove_mentions::is_page;
use relmove_store::{Found, FoundKind, PageFile, RunFault, Store, SystemCall, at};
use std::alloc::{AllocError, Global};
use std::collections::{BTreeMap, BTreeSet};
use std::io::{self, ErrorKind};

/// What is at a path.
#[derive(Debug, PartialEq, Eq, Drop)]
pub enum EntryKind {
    /// A regular file.
    File,
    /// A directory.
    Directory,
    /// A symbolic link, and where it leads as it is written, or `None` if that isn't UTF-8.
    Symlink(Option<String>),
    /// A FIFO, a socket or a device.
    Other,
}

/// A page, and its text.
#[derive(Debug, PartialEq, Eq, Drop)]
pub struct Page {
    /// Its path from the root.
    pub path: String,
    /// Its text.
    pub text: String,
    /// The file from which the text was read.
    pub file: PageFile,
}

/// What isn't read, and why.
#[derive(Debug, PartialEq, Eq, Drop)]
pub struct Unread {
    /// Its path from the root.
    pub path: String,
    /// Why, in words.
    pub why: String,
}

/// What is below a root. All paths are from the root.
#[derive(Debug, Drop)]
pub struct Tree {
    /// What is at each path. What is in a directory whose name begins with a dot, but for `.github`, or where a symbolic link
    /// leads, isn't listed.
    pub entries: BTreeMap<String, EntryKind>,
    /// The pages: files whose names end in `.md` or `.markdown`, in any case, and don't begin with a dot. Those at and below
    /// paths that were to be left out aren't among them.
    pub pages: Vec<Page>,
    /// Files with the name of a page that aren't UTF-8.
    pub not_text: Vec<String>,
    /// Pages with a `<base href>`. Their links aren't relative to the page, so no link of theirs is read.
    pub with_base: Vec<String>,
    /// Directories in which a name isn't UTF-8, and those that can't be listed, or in which a path is too long.
    pub unreadable_names: Vec<String>,
    /// Directories that can't be listed.
    pub unlisted: Vec<String>,
    /// The directories that are read. The root is the empty path.
    pub directories: Vec<String>,
    /// What can't be read, and what has the name of a page and isn't a regular file, or is longer than [`LONGEST_PAGE`].
    pub unread: Vec<Unread>,
}

/// Reads what is below the root of a store. No symbolic link is followed, and only regular files are opened. What can't
/// be read is left out, and named. So is a page that is longer than [`LONGEST_PAGE`]. A page at or below one of the excluded
/// paths is left out without a word.
///
/// Allocates a path for each file, and the texts of the pages.
pub fn read_tree<S: Store>(store: &mut S, excluded: &[&str]) -> Result<Tree, RunFault> {
    let alloc = store.alloc();
    let excluded = normal_paths(alloc, excluded)?;
    let mut walk = Walk::new(alloc);
    let mut waiting = Vec::new(alloc);
    waiting.push(String::new(alloc))?;
    let mut directories = Vec::new(alloc);
    while let Some(directory) = waiting.pop() {
        walk.add_directory(store, directory.as_str(), &mut waiting)?;
        directories.push(directory)?;
    }
    walk.into_tree(store, directories, &excluded)
}

// Paths in their normal form.
pub(crate) fn normal_paths(alloc: Global, paths: &[&str]) -> Result<BTreeSet<String>, AllocError> {
    let mut normal = BTreeSet::new(alloc);
    for path in paths {
        normal.insert(normal_text(alloc, path)?)?;
    }
    Ok(normal)
}

/// Returns a path in its normal form. Allocates it.
pub fn normal_text(alloc: Global, path: &str) -> Result<String, AllocError> {
    Ok(RelativePath::new(path).normalize(alloc)?.into_string())
}

/// Whether a path is one of these, or below one. All are in their normal form; the root is the empty path. Allocates nothing.
pub fn is_at_or_below(paths: &BTreeSet<String>, path: &str) -> bool {
    paths.contains("")
        || paths.contains(path)
        || path.match_indices('/').any(|(slash, _)| match path.get(..slash) {
            Some(above) => paths.contains(above),
            None => false,
        })
}

/// How many bytes a page may have that is read: 64 MiB.
pub const LONGEST_PAGE: u64 = 64 << 20;

// What was found so far.
#[derive(Drop)]
struct Walk {
    entries: BTreeMap<String, EntryKind>,
    unreadable_names: Vec<String>,
    unlisted: Vec<String>,
    unread: Vec<Unread>,
    // The files that are too long for a page.
    long_files: BTreeSet<String>,
}

impl Walk {
    // Nothing.
    fn new(alloc: Global) -> Walk {
        Walk {
            entries: BTreeMap::new(alloc),
            unreadable_names: Vec::new(alloc),
            unlisted: Vec::new(alloc),
            unread: Vec::new(alloc),
            long_files: BTreeSet::new(alloc),
        }
    }

    // Adds what is in a directory, and the directories in it to those that wait.
    fn add_directory<S: Store>(
        &mut self,
        store: &mut S,
        directory: &str,
        waiting: &mut Vec<String>,
    ) -> Result<(), RunFault> {
        let alloc = store.alloc();
        let names = match store.list(directory) {
            Err(error) if !directory.is_empty() && cannot_read(error.kind()) => {
                return self.add_unlisted(alloc, directory, &error);
            }
            listed => at(
                alloc,
                SystemCall::List,
                directory_or_root(store.root(), directory),
                listed,
            )?,
        };
        if names.has_other {
            self.add_unreadable_name(alloc, directory)?;
        }
        for name in &names.texts {
            self.add_name(store, directory, name.as_str(), waiting)?;
        }
        Ok(())
    }

    // Notes a directory that can't be listed.
    fn add_unlisted(
        &mut self,
        alloc: Global,
        directory: &str,
        error: &io::Error,
    ) -> Result<(), RunFault> {
        self.add_unread(alloc, directory, error)?;
        self.add_unreadable_name(alloc, directory)?;
        self.unlisted.push(String::from_str(alloc, directory)?)?;
        Ok(())
    }

    // Notes a directory in which a name can't be read.
    fn add_unreadable_name(&mut self, alloc: Global, directory: &str) -> Result<(), RunFault> {
        self.unreadable_names
            .push(String::from_str(alloc, directory)?)?;
        Ok(())
    }

    // Notes what can't be read.
    fn add_unread(&mut self, alloc: Global, path: &str, error: &io::Error) -> Result<(), RunFault> {
        self.unread.push(Unread {
            path: String::from_str(alloc, path)?,
            why: error.to_string(alloc)?,
        })?;
        Ok(())
    }

    // Adds a name in a directory. A directory whose name doesn't begin with a dot, or is `.github`, is one to list. What
    // can't be asked for is named, and what is gone is left out.
    fn add_name<S: Store>(
        &mut self,
        store: &mut S,
        directory: &str,
        name: &str,
        waiting: &mut Vec<String>,
    ) -> Result<(), RunFault> {
        let alloc = store.alloc();
        let path = join(alloc, directory, name)?;
        let asked = match store.find(path.as_str()) {
            Ok(None) => return Ok(()),
            Err(error) if cannot_read(error.kind()) => {
                self.add_unread(alloc, path.as_str(), &error)?;
                return self.add_unreadable_name(alloc, directory);
            }
            asked => at(alloc, SystemCall::Ask, path.as_str(), asked)?,
        };
        let Some(found) = asked else {
            return Ok(());
        };
        if found.kind == FoundKind::Directory && !has_unread_name(name) {
            waiting.push(String::from_str(alloc, path.as_str())?)?;
        }
        self.add_entry(store, path, &found)
    }

    // Adds what was found at a path.
    fn add_entry<S: Store>(
        &mut self,
        store: &mut S,
        path: String,
        found: &Found,
    ) -> Result<(), RunFault> {
        let alloc = store.alloc();
        let kind = kind_of(store, path.as_str(), found.kind)?;
        if kind == EntryKind::Symlink(None) {
            self.unread.push(Unread {
                path: String::from_str(alloc, path.as_str())?,
                why: String::from_str(alloc, NO_TEXT)?,
            })?;
        }
        if kind == EntryKind::File && found.length > LONGEST_PAGE {
            self.long_files
                .insert(String::from_str(alloc, path.as_str())?)?;
        }
        self.entries.insert(path, kind)?;
        Ok(())
    }

    // Reads the pages, and returns the tree.
    fn into_tree<S: Store>(
        self,
        store: &mut S,
        directories: Vec<String>,
        excluded: &BTreeSet<String>,
    ) -> Result<Tree, RunFault> {
        let Walk {
            entries,
            mut unreadable_names,
            mut unlisted,
            mut unread,
            long_files,
        } = self;
        unreadable_names.sort()?;
        unreadable_names.dedup();
        unlisted.sort()?;
        let mut reading = read_pages(store, &entries, &long_files, excluded)?;
        unread.append(&mut reading.unread)?;
        Ok(Tree {
            entries,
            pages: reading.pages,
            not_text: reading.not_text,
            with_base: reading.with_base,
            unreadable_names,
            unlisted,
            directories,
            unread,
        })
    }
}

/// Whether an error says that the system doesn't let this program read something, or that its path is too long.
pub fn cannot_read(kind: ErrorKind) -> bool {
    matches!(
        kind,
        ErrorKind::PermissionDenied | ErrorKind::InvalidFilename
    )
}

// The path of a directory in a fault. The root has the path that it was given.
fn directory_or_root<'a>(root: &'a str, directory: &'a str) -> &'a str {
    if directory.is_empty() {
        root
    } else {
        directory
    }
}

// Why a symbolic link isn't read.
const NO_TEXT: &str = "where this symbolic link leads isn't UTF-8";

// What is at a path where this was found.
fn kind_of<S: Store>(store: &mut S, path: &str, found: FoundKind) -> Result<EntryKind, RunFault> {
    Ok(match found {
        FoundKind::Directory => EntryKind::Directory,
        FoundKind::File => EntryKind::File,
        FoundKind::Other => EntryKind::Other,
        FoundKind::Symlink => {
            let read = store.read_symlink(path);
            EntryKind::Symlink(at(store.alloc(), SystemCall::ReadSymlink, path, read)?)
        }
    })
}

// Reads the pages among the entries, but for those that are too long, and those at and below excluded paths.
fn read_pages<S: Store>(
    store: &mut S,
    entries: &BTreeMap<String, EntryKind>,
    long_files: &BTreeSet<String>,
    excluded: &BTreeSet<String>,
) -> Result<Reading, RunFault> {
    let alloc = store.alloc();
    let mut reading = Reading::new(alloc);
    for (path, kind) in entries {
        if is_read_page(path.as_str()) && !is_at_or_below(excluded, path.as_str()) {
            match kind {
                EntryKind::File if long_files.contains(path.as_str()) => {
                    reading.leave_out(alloc, path.as_str(), TOO_LONG)?
                }
                EntryKind::File => reading.add(store, path.as_str())?,
                EntryKind::Other => reading.leave_out(alloc, path.as_str(), NO_FILE)?,
                EntryKind::Directory | EntryKind::Symlink(_) => {}
            }
        }
    }
    Ok(reading)
}

// Why a file above the limit isn't read.
pub(crate) const TOO_LONG: &str = "longer than 64 MiB";

// Why a FIFO, a socket or a device isn't read.
const NO_FILE: &str = "not a regular file";

// The pages that are read, and those that aren't.
#[derive(Drop)]
struct Reading {
    pages: Vec<Page>,
    not_text: Vec<String>,
    with_base: Vec<String>,
    unread: Vec<Unread>,
}

impl Reading {
    // No pages.
    fn new(alloc: Global) -> Reading {
        Reading {
            pages: Vec::new(alloc),
            not_text: Vec::new(alloc),
            with_base: Vec::new(alloc),
            unread: Vec::new(alloc),
        }
    }

    // Reads the page at a path.
    fn add<S: Store>(&mut self, store: &mut S, path: &str) -> Result<(), RunFault> {
        let alloc = store.alloc();
        let (file, bytes) = match store.read_page(path) {
            Err(error) if is_left_out(error.kind()) => {
                let why = error.to_string(alloc)?;
                return self.leave_out(alloc, path, why.as_str());
            }
            read => at(alloc, SystemCall::Read, path, read)?,
        };
        let path = String::from_str(alloc, path)?;
        let Ok(text) = String::from_utf8(bytes) else {
            self.not_text.push(path)?;
            return Ok(());
        };
        if has_base(alloc, text.as_str())? {
            self.with_base
                .push(String::from_str(alloc, path.as_str())?)?;
        }
        self.pages.push(Page { path, text, file })?;
        Ok(())
    }

    // Notes that the page at a path isn't read.
    fn leave_out(&mut self, alloc: Global, path: &str, why: &str) -> Result<(), RunFault> {
        self.unread.push(Unread {
            path: String::from_str(alloc, path)?,
            why: String::from_str(alloc, why)?,
        })?;
        Ok(())
    }
}

// Whether a file that fails to be read in this way is left out: it can't be read, or it is no longer a regular file.
pub(crate) fn is_left_out(kind: ErrorKind) -> bool {
    cannot_read(kind) || matches!(kind, ErrorKind::NotFound | ErrorKind::InvalidInput)
}

// Whether a page has a `<base href>`. The page is searched only if it has the letters of such a tag.
fn has_base(alloc: Global, text: &str) -> Result<bool, AllocError> {
    let may_have = text.split('<').skip(1).any(|rest| match rest.get(..4) {
        Some(name) => name.eq_ignore_ascii_case("base"),
        None => false,
    });
    Ok(may_have && link_targets(alloc, text)?.has_base)
}

/// Whether a directory is at a path of a tree. Allocates the path in its normal form.
pub fn is_directory(alloc: Global, tree: &Tree, path: &str) -> Result<bool, AllocError> {
    let normal = normal_text(alloc, path)?;
    Ok(is_directory_entry(tree, normal.as_str()))
}

/// Whether an entry of a tree is a directory. The path is in its normal form. Allocates nothing.
pub fn is_directory_entry(tree: &Tree, path: &str) -> bool {
    matches!(tree.entries.get(path), Some(EntryKind::Directory))
}

/// Whether the directory at a path is read: its name doesn't begin with a dot, or is `.github`, and it can be listed.
/// Allocates nothing.
pub fn is_read_directory(tree: &Tree, path: &str) -> bool {
    !has_unread_name(path) && !has_path(&tree.unlisted, path)
}

// The directory whose name begins with a dot, and that is read all the same.
const READ: &str = ".github";

/// Whether the name at the end of a path is that of a directory that isn't read: it begins with a dot, and isn't `.github`.
///
/// ```
/// assert!(rt; has_unread_name("docs/.git"));
/// assert!(rt; !has_unread_name(".github"));
/// ```
pub fn has_unread_name(path: &str) -> bool {
    let name = name_of(path);
    name.starts_with('.') && name != READ
}

/// Whether a path is among sorted ones, as are `unlisted` and `unreadable_names` of a [`Tree`]. Allocates nothing.
pub fn has_path(paths: &[String], path: &str) -> bool {
    paths
        .binary_search_by(|other| other.as_str().cmp(path))
        .is_ok()
}

/// Whether a path has a reserved name: one that a run may give, also a run of an older version.
///
/// ```
/// assert!(rt; has_reserved_name("docs/.relmove-1"));
/// ```
pub fn has_reserved_name(path: &str) -> bool {
    name_of(path).starts_with(STAGING)
}

// Whether a file at a path is a page that is read.
fn is_read_page(path: &str) -> bool {
    !name_of(path).starts_with('.') && is_page(RelativePath::new(path))
}
