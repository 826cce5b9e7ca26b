//! What moves do to a tree.
use relative_path_links::Unchanged;
use relative_path_moves::TreeMoves;
use relmove_folder::{PlannedPage, Position, ShownMove};
use relmove_plan::{Plan, SymlinkNotice};

/// Where a path leads after moves that led to something else before them.
#[derive(Clone, Copy, Debug, PartialEq, Eq)]
pub enum Loss {
    /// To nothing.
    Nowhere,
    /// To something else.
    Elsewhere,
}

/// Why a link no longer leads to its file, or may not.
#[derive(Clone, Copy, Debug, PartialEq, Eq)]
pub enum WhyLeft {
    /// No target can be written for it, or its file isn't known.
    Unchanged(Unchanged),
    /// It leads through a symbolic link, and not to its file after the moves.
    Lost(Loss),
    /// It leads to a directory that the moves leave empty.
    Emptied,
    /// Its file has a name in another case, or in another form of Unicode, and the file system takes one for the other.
    OtherSpelling,
}

/// A link that no longer leads to its file after the moves, or may not.
#[derive(Clone, Copy, Debug)]
pub struct LeftLink<'a> {
    /// The path of its page before the moves.
    pub page: &'a str,
    /// Where its target begins in the page before the moves.
    pub position: Position,
    /// Its target, as it is written.
    pub target: &'a str,
    /// Why.
    pub why: WhyLeft,
    /// Whether it leads to a file before the moves, or may.
    pub leads: bool,
}

/// A symbolic link that no longer leads to what it led to.
#[derive(Clone, Copy, Debug)]
pub struct LostSymlink<'a> {
    /// Its path before the moves.
    pub path: &'a str,
    /// Where it leads.
    pub loss: Loss,
}

/// What moves do to a tree.
#[derive(Drop)]
pub struct Moving<'a, 'm> {
    /// The plan.
    pub plan: Plan<'m>,
    /// The links that no longer lead to their file, or may not.
    pub left: Vec<LeftLink<'a>>,
    /// The symbolic links that no longer lead to what they led to, and aren't among those of the plan.
    pub lost: Vec<LostSymlink<'a>>,
    /// The moves of the names under which the site shows pages. Links to these names move along.
    pub shown: Vec<ShownMove>,
}

/// What moves do to a tree, apart from the actions of their run.
#[derive(Drop)]
pub struct PlannedMoves<'a, 'm> {
    /// The table of the moves.
    pub moves: TreeMoves<'m>,
    /// Each page after the moves, in the order of the tree's pages.
    pub pages: Vec<PlannedPage>,
    /// The symbolic links that move, or that lead to what moves.
    pub symlinks: Vec<SymlinkNotice>,
    /// The links that no longer lead to their file, or may not.
    pub left: Vec<LeftLink<'a>>,
    /// The symbolic links that no longer lead to what they led to, and aren't in `symlinks`.
    pub lost: Vec<LostSymlink<'a>>,
    /// The moves of the names under which the site shows pages. Links to these names move along.
    pub shown: Vec<ShownMove>,
}
