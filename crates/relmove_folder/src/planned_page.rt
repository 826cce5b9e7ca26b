//! A page of a plan.
use relative_path_links::{Edit, MovedSitePage};
use relative_path_places::NormalPath;
use std::alloc::{AllocError, Global};
use std::mem;

/// A page after moves, without its new text, which the actions of their run have.
#[derive(Drop)]
pub struct PlannedPage {
    /// Its path from the root.
    pub path: NormalPath,
    /// What becomes of its targets.
    pub edits: Vec<Edit>,
    /// Whether its text changes.
    pub is_changed: bool,
}

impl PlannedPage {
    /// Returns a page of a plan. Its new text is gone then. Allocates nothing.
    pub fn of(page: MovedSitePage) -> PlannedPage {
        let MovedSitePage { path, edits, text } = page;
        PlannedPage {
            path,
            edits,
            is_changed: text.is_some(),
        }
    }

    /// Forgets the targets that stay, which are most of the memory of a plan. Allocates a list of the others.
    pub fn forget_kept_targets(&mut self, alloc: Global) -> Result<(), AllocError> {
        let edits = mem::replace(&mut self.edits, Vec::new(alloc));
        for edit in edits {
            if edit.is_new() {
                self.edits.push(edit)?;
            }
        }
        Ok(())
    }
}
