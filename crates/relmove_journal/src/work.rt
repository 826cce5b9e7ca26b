//! What a run does, stage by stage.
ghost use Rattle.std.specs.Prelude.{◌≡◌};
ghost use Rattle.relmove_journal.specs.Reading.{no_work, parts_of};

use crate::text_digest::TextDigest;
use relmove_actions::Rename;
use std::alloc::Global;

/// How far a run is: what is to be done next.
#[derive(Clone, Copy, Debug, PartialEq, Eq)]
pub enum Stage {
    /// The new texts are written, each to a file of its own. Nothing else has changed. A run begins at this stage.
    Writing,
    /// What moves and each page that changes gets its staging name. All new texts are written.
    Staging,
    /// Directories are made. Everything has its staging name.
    Making,
    /// Everything gets its new path. The directories are made.
    Placing,
    /// Old texts and emptied directories are removed. Everything is at its new path.
    Cleaning,
    /// What is at its new path gets its staging name again.
    Unplacing,
    /// The directories that were made are removed. Everything has its staging name.
    Unmaking,
    /// What has its staging name goes back to its old path. The directories are removed.
    Unstaging,
    /// The new texts are removed. Everything is at its old path.
    Erasing,
}

/// A text in a file.
#[derive(Debug, PartialEq, Eq, Drop)]
pub struct TextFile {
    /// The file.
    pub path: String,
    /// The text's digest.
    pub digest: TextDigest,
}

/// What a run removes at its end.
#[derive(Debug, PartialEq, Eq, Drop)]
pub enum Leftover {
    /// The old text of a page, under its staging name.
    Text(TextFile),
    /// A directory, if nothing is in it.
    Directory(String),
}

/// What a run does: a list for each stage. Going back, it takes each list from its end. All paths are relative to the
/// root.
#[derive(Debug, PartialEq, Eq, Drop)]
pub struct Work {
    /// The new texts, each at its staging name.
    pub texts: Vec<TextFile>,
    /// From old paths to staging names.
    pub staged: Vec<Rename>,
    /// The directories that are made.
    pub made: Vec<String>,
    /// From staging names to new paths.
    pub placed: Vec<Rename>,
    /// What is removed at the end.
    pub cleaned: Vec<Leftover>,
}

impl Work {
    /// Work with nothing to do. Allocates nothing.
    pub fn new(alloc: Global) -> Work
        // each list is empty
        ensures nothing { parts_of result ≡ no_work }
    {
        Work {
            texts: Vec::new(alloc),
            staged: Vec::new(alloc),
            made: Vec::new(alloc),
            placed: Vec::new(alloc),
            cleaned: Vec::new(alloc),
        }
    }
}
