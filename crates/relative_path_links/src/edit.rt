//! What becomes of the targets of a page, and the page that comes of it.
ghost use Rattle.std.specs.Prelude.{◌≡◌, false, IfOk, IsTrue, string_bytes};
ghost use Rattle.relative_path_links.specs.Targets.{HasTarget, HasTargets};
ghost use Rattle.relative_path_links.specs.Edits.{edit_text, targets_of, with_edits, IsSettled, is_new};

use crate::target::Target;
use relative_path_places::NormalPath;
use std::alloc::{AllocError, Global};
use target_paths::WhyUnknown;

/// Why a target stays as it is although it no longer leads to its file, or may not.
#[derive(Clone, Copy, Debug, PartialEq, Eq)]
pub enum Unchanged {
    /// Its file is above the root.
    AboveRoot,
    /// No path leads from the page's new directory to its file.
    NoPath,
    /// It begins with a slash, and its file is outside of the site's root: the shortest path from the root to the file
    /// leads above the root.
    OutsideSiteRoot,
    /// The path to its file has a NUL, which no target spells.
    Nul,
    /// What it means isn't known, so it may lead to a file that moved.
    Unknown(WhyUnknown),
    /// With a new target there the page would be read otherwise: its links would be others.
    WouldReadOtherwise,
}

/// What becomes of a target after files moved.
#[derive(Debug, PartialEq, Eq, Drop)]
pub enum Change {
    /// It stays as it is.
    Kept,
    /// This text takes its place.
    New(String),
    /// It stays as it is for this reason, although it no longer leads to its file, or may not.
    Left(Unchanged),
}

/// A target of a page, and what becomes of it after files moved.
#[derive(Debug, Drop)]
pub struct Edit {
    /// The target in the page before the moves.
    pub target: Target,
    /// What becomes of it.
    pub change: Change,
    /// The file to which it leads before the moves: the normal path from the root. `None` if the target isn't
    /// read as a path.
    pub file: Option<NormalPath>,
}

impl Edit {
    /// Returns whether a new text takes the place of the target. Allocates nothing.
    ///
    /// ```
    /// let target = Target { syntax: TargetSyntax::Markdown, start: 4, end: 8 };
    /// assert!(rt; !Edit { target, change: Change::Kept, file: None }.is_new());
    /// ```
    pub fn is_new(&self) -> bool
        ensures { result ≡ is_new self.now.change }
    {
        matches!(self.change, Change::New(_))
    }

    // Gives up the new text, if one takes the place of the target and if it is to be given up.
    pub(crate) fn give_up(&mut self, is_given_up: bool)
        ensures settled { IsSettled self.old self.new }
        ensures given_up { IsTrue is_given_up → is_new self.new.change ≡ false }
    {
        if is_given_up && self.is_new() {
            self.change = Change::Left(Unchanged::WouldReadOtherwise);
        }
    }

    // Returns what stands in place of the target, in the page of the edit.
    pub(crate) fn text<'a>(&'a self, page: &'a str) -> &'a str
        requires { HasTarget page.now self.now.target }
        ensures { result.now ≡ edit_text page.now self.now }
    {
        match &self.change {
            Change::New(text) => text,
            Change::Kept | Change::Left(_) => self.target.text(page),
        }
    }
}

/// Returns a page with its edits. What stands between the targets stays.
///
/// The edits are of the page, in order, as [`rewrite_links`](crate::rewrite_links) returns them.
///
/// Allocates the text. The only error is lack of memory.
///
/// ```
/// let target = Target { syntax: TargetSyntax::Markdown, start: 4, end: 8 };
/// let change = Change::New(String::from_str(alloc, "more/b.md")?);
/// let edits = [Edit { target, change, file: None }];
/// assert_eq!(rt; edited(alloc, "[a](b.md#c)", &edits)?.as_str(), "[a](more/b.md#c)");
/// ```
pub fn edited(alloc: Global, page: &str, edits: &[Edit]) -> Result<String, AllocError>
    // the page has the targets of the edits, each after the end of the one before
    requires targets { HasTargets page.now 0 (targets_of edits.now) }
    // the page with the text of each edit in place of its target
    ensures text { IfOk result (λ text. string_bytes text ≡ with_edits page.now 0 edits.now) }
{
    let mut text = String::with_capacity(alloc, edited_len(page, edits))?;
    let mut at = 0;
    let mut rest = edits;
    while let Some((edit, others)) = rest.split_first() {
        text.push_str(&page[at..edit.target.start])?;
        text.push_str(edit.text(page))?;
        at = edit.target.end;
        rest = others;
    }
    text.push_str(&page[at..])?;
    Ok(text)
}

// Returns how many bytes a page has with its edits.
fn edited_len(page: &str, edits: &[Edit]) -> usize {
    let mut len = page.len();
    for edit in edits {
        if let Change::New(text) = &edit.change {
            let target = &edit.target;
            let old = target.end.saturating_sub(target.start);
            len = len.saturating_sub(old).saturating_add(text.len());
        }
    }
    len
}
