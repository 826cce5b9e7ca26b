//! The targets of a page that the search for old paths has to know.
use crate::addresses::{FromAddress, MovedPage, from_address, left_from_address};
use crate::moving_tree::MovingTree;
use crate::presence::{Presence, presence_at};
use crate::shown_names::gets_other_address;
use crate::tree::{Page, is_directory_entry};
use relative_path::RelativePath;
use relative_path_links::{Change, Edit};
use relmove_mentions::TextSpan;
use std::alloc::{AllocError, Global};

/// The targets of a page that its search has to know.
#[derive(Drop)]
pub struct PageTargets {
    /// The spans of those that are read, in order.
    pub read: Vec<TextSpan>,
    /// Those that no longer lead to what is at an old path: to a directory or a top whose index page leaves, or from a page's
    /// address.
    pub lost: Vec<LostTarget>,
    /// Those that lead to nothing, and get new texts, in order.
    pub rewritten: Vec<Rewritten>,
}

impl PageTargets {
    /// No targets. Allocates nothing.
    pub fn new(alloc: Global) -> PageTargets {
        PageTargets {
            read: Vec::new(alloc),
            lost: Vec::new(alloc),
            rewritten: Vec::new(alloc),
        }
    }

    /// The targets of edits of a page. Allocates the lists.
    pub fn of(
        alloc: Global,
        moving: MovingTree<'_, '_>,
        tops: &[RelativePath<'_>],
        moved: MovedPage<'_>,
        edits: &[Edit],
    ) -> Result<PageTargets, AllocError> {
        let mut targets = PageTargets {
            read: Vec::with_capacity(alloc, edits.len())?,
            lost: Vec::new(alloc),
            rewritten: Vec::new(alloc),
        };
        for edit in edits {
            match from_address(alloc, moving, moved, edit)? {
                FromAddress::No if is_slash_alone(moved.page, edit) => {
                    targets.add_slash(alloc, moving, tops, edit)?
                }
                FromAddress::No => match left_from_address(alloc, moving, moved.page, edit)? {
                    Some(old) => targets.add_lost(edit, old, None)?,
                    None => targets.add(alloc, moving, edit)?,
                },
                FromAddress::Kept => targets.read.push(span_of(edit))?,
                FromAddress::Lost(old, number) => targets.add_lost(edit, old, number)?,
            }
        }
        Ok(targets)
    }

    // Adds the target of an edit that leads from its page's address, and no longer to what is at an old path.
    fn add_lost(
        &mut self,
        edit: &Edit,
        old: String,
        number: Option<usize>,
    ) -> Result<(), AllocError> {
        self.lost.push(LostTarget {
            start: edit.target.start,
            old,
            number,
        })?;
        self.read.push(span_of(edit))?;
        Ok(())
    }

    // Adds a target that is a slash alone, and isn't read, if the index page of a top leaves it.
    fn add_slash(
        &mut self,
        alloc: Global,
        moving: MovingTree<'_, '_>,
        tops: &[RelativePath<'_>],
        edit: &Edit,
    ) -> Result<(), AllocError> {
        for top in tops {
            if let Some(old) = moving.left_index(alloc, *top)? {
                return self.add_lost(edit, old, None);
            }
        }
        Ok(())
    }

    // Adds the target of an edit.
    fn add(
        &mut self,
        alloc: Global,
        moving: MovingTree<'_, '_>,
        edit: &Edit,
    ) -> Result<(), AllocError> {
        let span = span_of(edit);
        match (&edit.file, &edit.change) {
            (None, Change::Kept) => Ok(()),
            (None, _) | (Some(_), Change::Left(_)) => {
                self.read.push(span)?;
                Ok(())
            }
            (Some(file), Change::New(text)) => {
                let file = file.as_relative_path();
                self.add_path(alloc, moving, span, file, Some(text.as_str()))
            }
            (Some(file), Change::Kept) => {
                self.add_path(alloc, moving, span, file.as_relative_path(), None)
            }
        }
    }

    // Adds a target that leads to a path, and has a new text or none. One that leads to nothing can mean a page by another
    // name, unless that name has a move, by which it has its new text. One to a directory that stays can mean the directory's
    // index page.
    fn add_path(
        &mut self,
        alloc: Global,
        moving: MovingTree<'_, '_>,
        span: TextSpan,
        file: RelativePath<'_>,
        new: Option<&str>,
    ) -> Result<(), AllocError> {
        if let Some(old) = lost_directory(alloc, moving, file)? {
            self.lost.push(LostTarget {
                start: span.start,
                old,
                number: None,
            })?;
            self.read.push(span)?;
            return Ok(());
        }
        if presence_at(moving.tree, file.as_str()) == Presence::Absent {
            return match new {
                Some(_) if moving.is_shown_name(file.as_str()) => {
                    self.read.push(span)?;
                    Ok(())
                }
                Some(text) => self.add_rewritten(alloc, span, text),
                None => Ok(()),
            };
        }
        if new.is_some() || !moving.is_staying_directory(file.as_str()) {
            self.read.push(span)?;
        }
        Ok(())
    }

    // Adds a target that leads to nothing, and gets a new text.
    fn add_rewritten(
        &mut self,
        alloc: Global,
        span: TextSpan,
        text: &str,
    ) -> Result<(), AllocError> {
        let text = String::from_str(alloc, text)?;
        self.rewritten.push(Rewritten { span, text })?;
        Ok(())
    }

    /// The rewritten target that has a span. Allocates nothing.
    pub fn rewritten_at(&self, span: TextSpan) -> Option<&Rewritten> {
        let number = self
            .rewritten
            .partition_point(|target| target.span.end <= span.start);
        match self.rewritten.get(number) {
            Some(target) if target.span.start <= span.start && span.end <= target.span.end => {
                Some(target)
            }
            _ => None,
        }
    }
}

// What a target to a directory no longer leads to: the index page that leaves it, or the directory itself, if it moves to where
// the site may have another address for it.
fn lost_directory(
    alloc: Global,
    moving: MovingTree<'_, '_>,
    directory: RelativePath<'_>,
) -> Result<Option<String>, AllocError> {
    if let Some(index) = moving.left_index(alloc, directory)? {
        return Ok(Some(index));
    }
    if !is_directory_entry(moving.tree, directory.as_str()) {
        return Ok(None);
    }
    let new = moving.moves.path_after(alloc, directory)?;
    if gets_other_address(alloc, directory, new.as_relative_path(), moving.pages_as)? {
        return Ok(Some(String::from_str(alloc, directory.as_str())?));
    }
    Ok(None)
}

// Whether the target of an edit is a slash, perhaps with a query or a fragment, and isn't read, since no site's root is known.
fn is_slash_alone(page: &Page, edit: &Edit) -> bool {
    let text = page.text.get(edit.target.start..edit.target.end);
    match text.unwrap_or("").strip_prefix('/') {
        Some(rest) => {
            edit.file.is_none()
                && (rest.is_empty() || rest.starts_with('?') || rest.starts_with('#'))
        }
        None => false,
    }
}

// The span of an edit's target.
fn span_of(edit: &Edit) -> TextSpan {
    TextSpan {
        start: edit.target.start,
        end: edit.target.end,
    }
}

/// A target that no longer leads to what is at an old path.
#[derive(Drop)]
pub struct LostTarget {
    /// The offset of the target.
    pub start: usize,
    /// The path.
    pub old: String,
    /// The number of the move that gives it another text, if there is one.
    pub number: Option<usize>,
}

/// A target that leads to nothing, and gets a new text.
#[derive(Drop)]
pub struct Rewritten {
    /// Its span.
    pub span: TextSpan,
    /// Its new text.
    pub text: String,
}

impl Rewritten {
    /// The new text without a query and a fragment. Allocates nothing.
    pub fn path(&self) -> &str {
        let text = self.text.as_str();
        match text.find(['?', '#']) {
            Some(end) => text.get(..end).unwrap_or(""),
            None => text,
        }
    }
}
