//! Symbolic links that moves concern.
ghost use Rattle.std.specs.Prelude.{◌↔◌, IfOk, IsTrue, MatchOption};
ghost use Rattle.relative_path.specs.Steps.{components};
ghost use Rattle.relative_path_moves.specs.Moves.{AreApart};
ghost use Rattle.relmove_plan.specs.Symlinks.{AreNotices, GetsElsewhere, HasNotice, IsConcerned, IsNoticeOf, LeadsToMoved};

use relative_path::RelativePath;
use relative_path_moves::TreeMoves;
use relative_path_places::NormalPath;
use relmove_checks::{Entry, Kind};
use std::alloc::{AllocError, Global};

/// A symbolic link that moves, or that leads to what moves. What it holds stays as it is, and may lead elsewhere then.
#[derive(Debug, PartialEq, Eq, Drop)]
pub struct SymlinkNotice {
    /// Where it is before the moves.
    pub path: NormalPath,
    /// It moves.
    pub moves: bool,
    /// It leads to what moves.
    pub leads_to_moved: bool,
}

// Returns the symbolic links that move, or lead to what moves.
pub(crate) fn symlink_notices(
    alloc: Global,
    entries: &[Entry<'_>],
    moves: &TreeMoves<'_>,
) -> Result<Vec<SymlinkNotice>, AllocError>
    // no two moves have the same old path
    requires { AreApart moves.now }
    ensures { IfOk result (λ notices. AreNotices moves.now entries.now notices.items) }
{
    let mut notices = Vec::new(alloc);
    for entry in entries {
        if let Some(notice) = notice_of(alloc, entry, moves)? {
            notices.push(notice)?;
        }
    }
    Ok(notices)
}

// Returns what moves do with a symbolic link and what it leads to. `None` if they do nothing, and of other entries.
fn notice_of(
    alloc: Global,
    entry: &Entry<'_>,
    moves: &TreeMoves<'_>,
) -> Result<Option<SymlinkNotice>, AllocError>
    requires { AreApart moves.now }
    ensures { IfOk result (λ notice. HasNotice moves.now entry.now.path entry.now.kind notice) }
{
    match entry.kind {
        Kind::File => Ok(None),
        Kind::Directory { .. } => Ok(None),
        Kind::Symlink { path } => notice_of_symlink(alloc, &entry.path, path, moves),
    }
}

// Returns what moves do with a symbolic link and what it leads to. `None` if they do nothing.
fn notice_of_symlink(
    alloc: Global,
    symlink: &NormalPath,
    path: Option<RelativePath<'_>>,
    moves: &TreeMoves<'_>,
) -> Result<Option<SymlinkNotice>, AllocError>
    requires { AreApart moves.now }
    ensures { IfOk result (λ notice. MatchOption notice (¬ IsConcerned moves.now (components symlink.now) path.entry)
        (IsNoticeOf moves.now symlink.now path.entry)) }
{
    let is_moved = gets_elsewhere(alloc, symlink, moves)?;
    let leads = leads_to_moved(alloc, symlink, path, moves)?;
    if !is_moved && !leads {
        return Ok(None);
    }
    Ok(Some(SymlinkNotice {
        path: symlink.copy(alloc)?,
        moves: is_moved,
        leads_to_moved: leads,
    }))
}

// Returns whether the path that a symbolic link has leads to what moves.
fn leads_to_moved(
    alloc: Global,
    symlink: &NormalPath,
    path: Option<RelativePath<'_>>,
    moves: &TreeMoves<'_>,
) -> Result<bool, AllocError>
    requires { AreApart moves.now }
    ensures { IfOk result (λ leads. IsTrue leads ↔ LeadsToMoved moves.now (components symlink.now) path.entry) }
{
    match path {
        Some(path) => {
            let meant = NormalPath::of_joined(alloc, symlink.directory().as_relative_path(), path)?;
            gets_elsewhere(alloc, &meant, moves)
        }
        None => Ok(false),
    }
}

// Returns whether what is at a path is elsewhere after the moves.
fn gets_elsewhere(
    alloc: Global,
    path: &NormalPath,
    moves: &TreeMoves<'_>,
) -> Result<bool, AllocError>
    requires { AreApart moves.now }
    ensures { IfOk result (λ moved. IsTrue moved ↔ GetsElsewhere moves.now (components path.now)) }
{
    match moves.new_path(alloc, path)? {
        Some(now) => {
            let stays = now == *path;
            Ok(!stays)
        }
        None => Ok(false),
    }
}
