//! Rewrites the targets of a page after files moved.
ghost use Rattle.std.specs.Prelude.{◌≡◌, ◌++◌, drop, IfOk, IsTrue, List, string_bytes};
ghost use Rattle.std.specs.List.{All, list_any};
ghost use Rattle.relative_path.specs.Steps.{components};
ghost use Rattle.relative_path.specs.Normalizing.{IsNormalTextOf};
ghost use Rattle.target_paths.specs.Reading.{IsTail};
ghost use Rattle.target_paths.specs.Writing.{is_nul};
ghost use Rattle.relative_path_links.specs.Targets.{HasTarget, HasTargets};
ghost use Rattle.relative_path_links.specs.Edits.{IsGivenUp, targets_of};
ghost use Rattle.relative_path_links.specs.SiteRoot.{begins_with_dot, moving_from, page_moving};
ghost use Rattle.relative_path_links.specs.Rewriter.{
  Becomes,
  BecomesBy,
  begins_with_up,
  ChangesPath,
  ends_in_dots,
  IsChangeAt,
  IsChangeByWay,
  IsRootedChangeByWay,
  lacks_slash,
  unknown_change,
  with_dot,
  with_slash,
};

use crate::edit::{Change, Edit, Unchanged};
use crate::site_root::{SiteRoot, Start, begins_with_dot, read_at};
use crate::target::Target;
use relative_path::{RelativePath, RelativePathBuf};
use relative_path_moves::{MovedReference, PageMove, ReferenceError, TreeMoves};
use relative_path_places::{NormalPath, has_place};
use std::alloc::{AllocError, Global};
use target_paths::{TargetReading, TargetSyntax, WhyUnknown, push_target_of_path};

/// Returns what becomes of each target of a page after the moves of a table. With these edits each target leads
/// from the page's new directory, or from the site's root, to the file to which it led before, wherever that file is
/// now. [`edited`](crate::edited) returns the page with them.
///
/// The targets are those that [`targets`](crate::targets) finds, or others that are in order in the page, as
/// [`are_in_order`](crate::are_in_order) tests. `moved` is what [`TreeMoves::moved_page`] returns for the path
/// of the page before the moves; the page itself may move or stay.
///
/// Each target is read as a browser reads it, by [`SiteRoot::read_target`]. A target that isn't read as a path is
/// kept. So is a target whose path, as it is written, still leads to its file. The path of another becomes the
/// shortest path to the file, written by [`target_of_path`](target_paths::target_of_path); a slash at its
/// end, the query and the fragment stay, and so does `./` at its start, unless the new path begins with `..`.
/// A path that ends in `.` or `..` is a directory's, as if it had a slash at its end: so the new path gets that slash,
/// unless it ends in `..` too. A target that leads from the site's root begins with a slash again. If there is no such
/// path, the target is left as it is. A target whose meaning isn't known is left too, if the table has a move, since it
/// may lead to what moved.
///
/// Allocates the list of edits, and for each target what [`SiteRoot::read_target`] and [`TreeMoves::reference_in`] do,
/// its new text, the new path if it begins with `./`, and a copy of the new text if it begins with a slash. The only
/// error is lack of memory.
///
/// ```
/// let moves = [("a.md", "docs/a.md"), ("my b.md", "docs/more/b.md")]
///     .map(|(old, new)| (RelativePath::new(old), RelativePath::new(new)));
/// let moves = TreeMoves::new(alloc, &moves)?;
/// let page = "[b](my%20b.md#top), <img src='img/c.png'>, [d](../d.md)";
/// let found = targets(alloc, page)?;
/// let path = NormalPath::of(alloc, RelativePath::new("a.md"))?;
/// let moved = moves.moved_page(alloc, &path)?;
/// let edits = rewrite_links(alloc, page, &found, &SiteRoot::unknown(), &moves, &moved)?;
/// let expected = "[b](more/b.md#top), <img src='../img/c.png'>, [d](../d.md)";
/// assert_eq!(rt; edited(alloc, page, &edits)?.as_str(), expected);
/// assert_eq!(rt; edits[2].change, Change::Left(Unchanged::AboveRoot));
/// ```
pub fn rewrite_links(
    alloc: Global,
    page: &str,
    targets: &[Target],
    root: &SiteRoot,
    moves: &TreeMoves<'_>,
    moved: &PageMove,
) -> Result<Vec<Edit>, AllocError>
    requires { HasTargets page.now 0 targets.now }
    // one edit for each target, in order
    ensures targets { IfOk result (λ edits. targets_of edits.items ≡ targets.now) }
    // each target becomes what `Becomes` says
    ensures changes { IfOk result
        (λ edits. All (Becomes (page_moving root.now moves.now moved.now) page.now) edits.items) }
    // no new target is given up
    ensures new { IfOk result (λ edits. All (λ edit. ¬ IsGivenUp edit.change) edits.items) }
{
    let mut edits = Vec::with_capacity(alloc, targets.len())?;
    let mut rest = targets;
    while let Some((target, others)) = rest.split_first() {
        edits.push(edit_of(alloc, page, *target, root, moves, moved)?)?;
        rest = others;
    }
    Ok(edits)
}

// Returns what becomes of a target.
fn edit_of(
    alloc: Global,
    page: &str,
    target: Target,
    root: &SiteRoot,
    moves: &TreeMoves<'_>,
    moved: &PageMove,
) -> Result<Edit, AllocError>
    requires { HasTarget page.now target }
    ensures target { IfOk result (λ edit. edit.target ≡ target) }
    ensures becomes { IfOk result (Becomes (page_moving root.now moves.now moved.now) page.now) }
    ensures new { IfOk result (λ edit. ¬ IsGivenUp edit.change) }
{
    let start = root.start(target.text(page), moved);
    edit_from(alloc, page, target, start, moves)
}

// Returns what becomes of a target that leads from here.
fn edit_from(
    alloc: Global,
    page: &str,
    target: Target,
    start: Start<'_>,
    moves: &TreeMoves<'_>,
) -> Result<Edit, AllocError>
    requires { HasTarget page.now target }
    ensures target { IfOk result (λ edit. edit.target ≡ target) }
    ensures becomes { IfOk result (BecomesBy (moving_from moves.now start.entry) page.now) }
    ensures new { IfOk result (λ edit. ¬ IsGivenUp edit.change) }
{
    let text = target.text(page);
    match read_at(alloc, start.is_rooted, target.syntax, text)? {
        TargetReading::NotRelative => Ok(Edit {
            target,
            change: Change::Kept,
            file: None,
        }),
        TargetReading::Unknown(why) => Ok(Edit {
            target,
            change: unknown_change(moves, why),
            file: None,
        }),
        TargetReading::Path { path, tail_at } => {
            let (file, change) = follow(
                alloc,
                target.syntax,
                &path,
                &text[tail_at..],
                start,
                moves,
            )?;
            Ok(Edit {
                target,
                change,
                file: Some(file),
            })
        }
    }
}

// Returns what becomes of a target whose meaning isn't known.
fn unknown_change(moves: &TreeMoves<'_>, why: WhyUnknown) -> Change
    ensures change { result ≡ unknown_change moves.now why }
    ensures new { ¬ IsGivenUp result }
{
    if moves.len() == 0 {
        Change::Kept
    } else {
        Change::Left(Unchanged::Unknown(why))
    }
}

// Returns the file to which a path leads, and what becomes of a target that is this path and then the tail.
fn follow(
    alloc: Global,
    syntax: TargetSyntax,
    path: &str,
    tail: &str,
    start: Start<'_>,
    moves: &TreeMoves<'_>,
) -> Result<(NormalPath, Change), AllocError>
    requires { IsTrue start.is_rooted → IsTrue (begins_with_dot path.now) }
    ensures file { IfOk result (λ found.
        IsNormalTextOf ((moving_from moves.now start.entry).before ++ components path.now) found.0) }
    ensures change { IsTail syntax tail.now → IfOk result (λ found.
        ChangesPath (moving_from moves.now start.entry) syntax path.now tail.now found.1) }
    ensures new { IfOk result (λ found. ¬ IsGivenUp found.1) }
{
    let path_on = RelativePath::new(path);
    let MovedReference { file, moved } = moves.reference_in(alloc, start.directory, path_on)?;
    match moved {
        Ok(None) => Ok((file, Change::Kept)),
        Ok(Some(way)) => {
            let change = change_by_way(alloc, start.is_rooted, path, tail, way)?;
            Ok((file, change))
        }
        Err(ReferenceError::AboveRoot) => Ok((file, Change::Left(Unchanged::AboveRoot))),
        Err(ReferenceError::NoPath) => Ok((file, Change::Left(Unchanged::NoPath))),
        Err(ReferenceError::OutOfMemory) => Err(AllocError),
    }
}

// Returns what becomes of a target that is this path and then the tail, by the way to its file.
fn change_by_way(
    alloc: Global,
    is_rooted: bool,
    path: &str,
    tail: &str,
    way: RelativePathBuf,
) -> Result<Change, AllocError>
    requires { IsTrue is_rooted → IsTrue (begins_with_dot path.now) }
    ensures change { IfOk result (IsChangeAt is_rooted path.now tail.now way.text) }
    ensures new { IfOk result (λ change. ¬ IsGivenUp change) }
{
    if is_rooted {
        new_rooted_target(alloc, path, tail, way)
    } else {
        new_target(alloc, path, tail, way)
    }
}

// Returns the target for a way from the site's root: the one for the way as it is, without the dot at its start.
fn new_rooted_target(
    alloc: Global,
    path: &str,
    tail: &str,
    way: RelativePathBuf,
) -> Result<Change, AllocError>
    requires { IsTrue (begins_with_dot path.now) }
    ensures change { IfOk result (IsRootedChangeByWay path.now tail.now way.text) }
    ensures new { IfOk result (λ change. ¬ IsGivenUp change) }
{
    if !has_place(way.as_relative_path()) {
        return Ok(Change::Left(Unchanged::OutsideSiteRoot));
    }
    match new_target(alloc, path, tail, way)? {
        Change::Kept => Ok(Change::Kept),
        Change::New(text) => {
            let text = String::from_str(alloc, &text[1..])?;
            Ok(Change::New(text))
        }
        Change::Left(why) => Ok(Change::Left(why)),
    }
}

// Returns the target for a way, with the `./` and the slash of the path, and then the tail.
fn new_target(
    alloc: Global,
    path: &str,
    tail: &str,
    way: RelativePathBuf,
) -> Result<Change, AllocError>
    ensures change { IfOk result (IsChangeByWay path.now tail.now way.text) }
    ensures new { IfOk result (λ change. ¬ IsGivenUp change) }
{
    let new = with_dot(alloc, path, way.into_string())?;
    let new = with_slash(path, new)?;
    if has_nul(&new) {
        return Ok(Change::Left(Unchanged::Nul));
    }
    let mut text = String::with_capacity(alloc, new.len().saturating_add(tail.len()))?;
    push_target_of_path(&mut text, &new)?;
    text.push_str(tail)?;
    Ok(Change::New(text))
}

// Returns the way, with `./` before it if the path begins so and the way doesn't begin with `..`. Then it allocates once:
// the text, with room for a slash.
fn with_dot(alloc: Global, path: &str, way: String) -> Result<String, AllocError>
    ensures { IfOk result (λ new. string_bytes new ≡ with_dot path.now (string_bytes way)) }
{
    if !begins_with_dot(path) || begins_with_up(&way) {
        return Ok(way);
    }
    let mut new = String::with_capacity(alloc, way.len().saturating_add(3))?;
    new.push_str("./")?;
    new.push_str(&way)?;
    Ok(new)
}

// Returns whether a way begins with `..`.
fn begins_with_up(way: &str) -> bool
    ensures { result ≡ begins_with_up way.now }
{
    way == ".." || way.as_bytes().starts_with(b"../")
}

// Returns the way, with a slash at its end if it lacks the slash of the path.
fn with_slash(path: &str, mut way: String) -> Result<String, AllocError>
    ensures { IfOk result (λ new. string_bytes new ≡ with_slash path.now (string_bytes way)) }
{
    if lacks_slash(path, &way) {
        way.push('/')?;
    }
    Ok(way)
}

// Returns whether a way lacks the slash of the path: it has none at its end, and the path has one, or is a directory's
// without one, and the way isn't.
fn lacks_slash(path: &str, way: &str) -> bool
    ensures { result ≡ lacks_slash path.now way.now }
{
    (path.ends_with('/') || ends_in_dots(path) && !ends_in_dots(way)) && !way.ends_with('/')
}

// Returns whether the last component of a path is `.` or `..`, with no slash after it.
fn ends_in_dots(path: &str) -> bool
    ensures { result ≡ ends_in_dots path.now }
{
    path == "."
        || path == ".."
        || path.as_bytes().ends_with(b"/.")
        || path.as_bytes().ends_with(b"/..")
}

fn has_nul(path: &str) -> bool
    ensures { result ≡ list_any is_nul path.now }
{
    path.bytes().any(|b| b == 0)
}
