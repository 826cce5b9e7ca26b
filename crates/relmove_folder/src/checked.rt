//! What a check of the links of pages finds.
use crate::position::Position;
use std::cmp::Ordering;

/// Why a link is dead.
#[derive(Debug, PartialEq, Eq, Drop)]
pub enum WhyDead {
    /// It leads to a path below the root, and nothing is there. The page, if one is given, is there: on a site that shows
    /// `a.md` as `a.html`, `a/` or `a`, the link leads to it.
    Missing { page: Option<String> },
    /// It leads above the root.
    AboveRoot,
    /// It leads to a page in which no heading and no element has the name that its fragment asks for.
    NoName,
    /// What is there has a name in another case, or in another form of Unicode. The file system takes one for the other.
    OtherSpelling,
}

impl WhyDead {
    /// Why, in words, without the page that is there.
    pub fn words(&self) -> &'static str {
        match self {
            WhyDead::Missing { .. } => "nothing is there",
            WhyDead::AboveRoot => "it leads above the root",
            WhyDead::NoName => "no heading has this name",
            WhyDead::OtherSpelling => "the name there has another case or form",
        }
    }
}

/// A link that is dead.
#[derive(Debug, PartialEq, Eq, Drop)]
pub struct DeadLink {
    /// The path of its page from the root.
    pub page: String,
    /// Where its target begins in the page.
    pub position: Position,
    /// Its target, as it is written.
    pub target: String,
    /// Why it is dead.
    pub why: WhyDead,
}

/// The links of pages, as they were checked.
#[derive(Debug, PartialEq, Eq, Drop)]
pub struct Checked {
    /// How many pages were read.
    pub pages: usize,
    /// How many links they have that are read.
    pub links: usize,
    /// How many of these have a meaning that isn't known.
    pub unknown: usize,
    /// The links that lead to nothing below the root, or above it.
    pub dead: Vec<DeadLink>,
}

// The order of dead links: that of the pages, and of the targets in a page.
pub(crate) fn order(one: &DeadLink, other: &DeadLink) -> Ordering {
    let pages = one.page.as_str().cmp(other.page.as_str());
    let lines = one.position.line.cmp(&other.position.line);
    let columns = one.position.column.cmp(&other.position.column);
    pages.then(lines).then(columns)
}
