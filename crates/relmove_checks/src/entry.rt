//! The entries of a tree of files.
use relative_path::RelativePath;
use relative_path_places::NormalPath;

/// What an entry of a tree is.
#[derive(Clone, Copy, Debug)]
pub enum Kind<'a> {
    /// A file.
    File,
    /// A directory, and what is known of what it holds.
    Directory {
        /// It holds, itself, a name that isn't UTF-8. No entry has such a name.
        has_foreign_name: bool,
        /// It is read: what it holds is among the entries, but for names that aren't UTF-8. If it isn't read, anything may
        /// be in it, and no new path may be below where it is after the moves.
        is_read: bool,
    },
    /// A symbolic link, and the path that it has. `None` if that isn't a relative path in UTF-8.
    Symlink {
        /// The path, from the directory of the symbolic link.
        path: Option<RelativePath<'a>>,
    },
}

/// An entry of a tree: a file, a directory or a symbolic link below its root.
#[derive(Debug, Drop)]
pub struct Entry<'a> {
    /// Its path from the root.
    pub path: NormalPath,
    /// What it is.
    pub kind: Kind<'a>,
}
