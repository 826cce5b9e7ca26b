//! What a run does to the files below its root, in order.

/// A file or directory gets another path.
#[derive(Debug, PartialEq, Eq, Drop)]
pub struct Rename {
    /// Its path before.
    pub from: String,
    /// Its path after.
    pub to: String,
}

/// A page's new text is written to a new file next to the page.
#[derive(Debug, PartialEq, Eq, Drop)]
pub struct NewText {
    /// The page, which has the permissions that the new file gets.
    pub page: String,
    /// The new file.
    pub file: String,
    /// The new text.
    pub text: String,
}

/// What a run does, in order. All paths are relative to the root.
///
/// A staging name is directly in the root: `.relmove-1`, `.relmove-2` and so on. Everything that moves and
/// each page that changes goes to such a name first, so that chains and swaps of moves need no rule of their own.
#[derive(Debug, PartialEq, Eq, Drop)]
pub struct Actions {
    /// The new texts. They are written first.
    pub texts: Vec<NewText>,
    /// Everything that moves, each page that changes and each new text, to its staging name. What is below a
    /// directory leaves before the directory.
    pub staged: Vec<Rename>,
    /// Directories to make, parents first. One inside a directory that moves is made under that one's staging name.
    pub made: Vec<String>,
    /// From the staging names to the new paths, directories before what is below them. A page that changes comes
    /// from the name of its new text.
    pub placed: Vec<Rename>,
    /// The old texts of pages that changed, under their staging names.
    pub removed: Vec<String>,
    /// Directories that the run may have emptied, the deepest first.
    pub emptied: Vec<String>,
}
