//! A table of moves, searched by the old paths: what a reference becomes after the moves.
ghost use Rattle.std.specs.Prelude.{◌≡◌, ◌<◌, ◌≤◌, ◌↔◌, ℕ, List, length, map, Some, IfOk, IfSome, IsNone, IsTrue, OnOk, IsErrOf, MatchOption};
ghost use Rattle.relative_path.specs.Steps.{Step, components};
ghost use Rattle.relative_path.specs.Walk.{IsSame};
ghost use Rattle.relative_path.specs.Relating.{Leads, IsReachable, IsShortestText};
ghost use Rattle.relative_path.specs.RelativePath.{path_text, path_components};
ghost use Rattle.relative_path.specs.declared.path.RelativePath.{RelativePath};
ghost use Rattle.relative_path_moves.specs.Moves.{
  moves_of,
  move_at,
  new_text,
  IsFirstNameless,
  AreNamed,
  IsFirstPair,
  AreApart,
  MovesFrom,
  IsUnmoved,
  IsPathAfter,
  ForFile,
  ForFileOfLink,
  ClimbsAbove,
  BelowTop,
  IsBeyond,
  IsMovedText,
};
ghost use Rattle.relative_path_moves.specs.MoveError.{Refuses};
ghost use Rattle.relative_path_moves.specs.MoveTable.{olds_of, IsSound, IsWay, IsShortestBuffer, IsLink, LeadToFile};
ghost use Rattle.relative_path_places.specs.PlaceIndex.{Indexes};

use crate::move_error::{MoveTableError, ReferenceError};
use relative_path::{RelativePath, RelativePathBuf};
use relative_path_places::{NormalPath, PlaceIndex, directory, has_place};
use std::alloc::{AllocError, Global};
use std::marker::Model;

/// A table of moves, made once for many references.
///
/// A move is the old and the new path of a file, both relative to one root. In a table both paths of
/// each move have a file name, and no two moves have the same old path. Two moves may have the same new
/// path, and a new path may be that of a file that stays.
///
/// A reference is a *path* here: it has no scheme, no query and no fragment, and a percent sign is a
/// byte of a name.
///
/// Making the table normalises each old path and inserts it into a B-tree. A lookup normalises a few
/// paths and searches the tree once, however many moves there are.
///
/// ```
/// let page = (RelativePath::new("docs/a.md"), RelativePath::new("docs/sub/b.md"));
/// let image = (RelativePath::new("img/x.png"), RelativePath::new("art/y.png"));
/// let moves = [page, image];
/// let table = MoveTable::new(alloc, &moves)?;
/// let way = table.moved(alloc, 0, RelativePath::new("../img/x.png"))?;
/// assert_eq!(rt; way.as_relative_path().as_str(), "../../art/y.png");
/// ```
///
/// The table borrows the list of moves. So a function can't make this list and return the table. A function
/// that makes the list and uses the table:
///
/// ```
/// /// Where a file is after the moves that the lines of a list say: an old path, a space and a new path.
/// fn path_by_list(alloc: Global, list: &str, file: &str) -> Result<RelativePathBuf, MoveTableError> {
///     let mut moves = Vec::new(alloc);
///     for line in list.split('\n') {
///         if let Some((old, new)) = line.split_once(' ') {
///             let paths = (RelativePath::new(old), RelativePath::new(new));
///             moves.push(paths).map_err(AllocError::from)?;
///         }
///     }
///     let table = MoveTable::new(alloc, &moves)?;
///     let now = table.path_after(alloc, RelativePath::new(file))?;
///     Ok(now.to_relative_path_buf(alloc)?)
/// }
/// ```
///
/// ```
/// let now = path_by_list(alloc, "a.md docs/a.md\nb.md docs/b.md", "./b.md")?;
/// assert_eq!(rt; now.as_relative_path().as_str(), "docs/b.md");
/// ```
#[derive(Drop)]
pub struct MoveTable<'a> {
    moves: &'a [(RelativePath<'a>, RelativePath<'a>)],
    by_old: PlaceIndex,
}

impl<'a> Model for MoveTable<'a> {
    // contracts see the old path and the new one of each move, as they are given
    ghost Value = { List (RelativePath × RelativePath) };

    // these pairs of paths
    ghost view = { λ table. table.moves.now };

    // file names, no two equivalent old paths, and an index of these
    ghost invariant = { λ table. IsSound (moves_of table.moves.now) table.by_old };
}

impl<'a> MoveTable<'a> {
    /// Makes the table of these moves. Fails if a path has no file name, or if two old paths lead to
    /// the same place.
    ///
    /// The call looks for file names before it allocates. It then allocates for each old path: the
    /// normal form, and an entry of the table.
    ///
    /// ```
    /// let moves = [("a", "b"), ("c/../a", "d")]
    ///     .map(|(old, new)| (RelativePath::new(old), RelativePath::new(new)));
    /// let table = MoveTable::new(alloc, &moves);
    /// assert!(rt; table.is_err_and(|error| error == MoveTableError::SameOld(0, 1)));
    /// ```
    pub fn new(
        alloc: Global,
        moves: &'a [(RelativePath<'a>, RelativePath<'a>)],
    ) -> Result<MoveTable<'a>, MoveTableError>
        // these moves, in order
        ensures moves { IfOk result (λ table. table ≡ moves.now) }
        // each path has a file name
        ensures named { OnOk result (AreNamed (moves_of moves.now)) }
        // no two old paths are equivalent
        ensures apart { OnOk result (AreApart (moves_of moves.now)) }
        // `NoFileName` exactly for the first move without a file name
        ensures no_file_name { (k : ℕ) → IsErrOf result (MoveTableError.NoFileName k)
            ↔ IsFirstNameless (moves_of moves.now) k }
        // `SameOld` exactly for the first two equivalent old paths, given file names and memory
        ensures same_old { (j k : ℕ) → Refuses result (MoveTableError.SameOld j k) MoveTableError.OutOfMemory
            (AreNamed (moves_of moves.now) × IsFirstPair (moves_of moves.now) j k) }
        // `OutOfMemory` only if each path has a file name
        ensures out_of_memory { IsErrOf result MoveTableError.OutOfMemory → AreNamed (moves_of moves.now) }
    {
        if let Some(k) = first_nameless(moves) {
            return Err(MoveTableError::NoFileName(k));
        }
        match by_old_path(alloc, moves)? {
            (by_old, None) => Ok(MoveTable { moves, by_old }),
            (_, Some((j, k))) => Err(MoveTableError::SameOld(j, k)),
        }
    }

    /// The number of moves in the table.
    ///
    /// ```
    /// let moves = [(RelativePath::new("a"), RelativePath::new("b"))];
    /// assert_eq!(rt; MoveTable::new(alloc, &moves)?.len(), 1);
    /// ```
    pub fn len(&self) -> usize
        ensures { result ≡ length self.now }
    {
        self.moves.len()
    }

    /// Returns what a reference in the file of move number `i` becomes after all the moves. A reference is
    /// a *path* here, without scheme, query, fragment and percent signs: a percent sign is a byte of a
    /// name. For the targets of the links of a page call `rewrite_links` of the crate `relative_path_links`.
    ///
    /// The result is the shortest path from the file's new directory to where the reference leads. This is the
    /// place where it led before the moves, or the new path of a move if that is its old path.
    ///
    /// The call allocates what `join_normalized` and `try_relative` do. It fails with `OutOfMemory` only if
    /// one of these allocations fails.
    ///
    /// ```
    /// let moves = [("a.md", "x/a.md"), ("b.md", "y/b.md")]
    ///     .map(|(old, new)| (RelativePath::new(old), RelativePath::new(new)));
    /// let table = MoveTable::new(alloc, &moves)?;
    /// let way = table.moved(alloc, 0, RelativePath::new("b.md"))?;
    /// assert_eq!(rt; way.as_relative_path().as_str(), "../y/b.md");
    /// let above = table.moved(alloc, 0, RelativePath::new("../b.md"));
    /// assert_eq!(rt; above.err(), Some(ReferenceError::AboveRoot));
    /// ```
    pub fn moved(
        &self,
        alloc: Global,
        i: usize,
        reference: RelativePath<'_>,
    ) -> Result<RelativePathBuf, ReferenceError>
        requires { i < length self.now }
        // `AboveRoot` exactly for a file above the root, given memory
        ensures above_root { Refuses result ReferenceError.AboveRoot ReferenceError.OutOfMemory
            (ForFile (moves_of self.now) i (path_components reference.entry) ClimbsAbove) }
        // `NoPath` exactly for an unreachable file in the root, given memory
        ensures no_path { Refuses result ReferenceError.NoPath ReferenceError.OutOfMemory
            (ForFile (moves_of self.now) i (path_components reference.entry) (BelowTop (IsBeyond (moves_of self.now) i))) }
        // the shortest path from the new directory to the file
        ensures shortest { IfOk result (λ way.
            ForFile (moves_of self.now) i (path_components reference.entry)
            (BelowTop (IsMovedText (moves_of self.now) i way.text))) }
    {
        let (old, new) = self.paths(i);
        let meant = NormalPath::of_joined(alloc, directory(old), reference)?;
        way_or_refusal(alloc, directory(new), self.file_of(&meant))
    }

    /// Returns what a reference becomes in the page that was at this path before the moves. The page
    /// itself may move or stay. A reference is a *path* here, without scheme, query, fragment and percent
    /// signs: a percent sign is a byte of a name. For the targets of the links of a page call `rewrite_links`
    /// of the crate `relative_path_links`.
    ///
    /// Fails with `AboveRoot` if the reference leads above the root, also if it still leads there. Otherwise
    /// returns `None` if the reference, as it is written, still leads from the page's new
    /// directory to its file. Otherwise the result is the path that [`MoveTable::moved`] describes. So a
    /// caller that rewrites a page changes only the references that the moves broke. In a page that stays,
    /// these are the references to files that moved.
    ///
    /// The call allocates the page's normal form, and what `join_normalized`, `join`, `leads_apart` and
    /// `try_relative` do.
    ///
    /// ```
    /// let moves = [(RelativePath::new("img/x.png"), RelativePath::new("art/y.png"))];
    /// let table = MoveTable::new(alloc, &moves)?;
    /// let page = RelativePath::new("docs/a.md");
    /// let way = table.moved_in(alloc, page, RelativePath::new("../img/x.png"))?;
    /// let way = way.ok_or("a way")?;
    /// assert_eq!(rt; way.as_relative_path().as_str(), "../art/y.png");
    /// assert!(rt; table.moved_in(alloc, page, RelativePath::new("./b.md"))?.is_none());
    /// ```
    pub fn moved_in(
        &self,
        alloc: Global,
        page: RelativePath<'_>,
        reference: RelativePath<'_>,
    ) -> Result<Option<RelativePathBuf>, ReferenceError>
        // `AboveRoot` exactly for a file above the root, given memory
        ensures above_root { Refuses result ReferenceError.AboveRoot ReferenceError.OutOfMemory
            (ForFileOfLink (moves_of self.now) (path_components page.entry) (path_components reference.entry)
            (λ _. ClimbsAbove)) }
        // `NoPath` exactly for an unreachable file in the root, given memory
        ensures no_path { Refuses result ReferenceError.NoPath ReferenceError.OutOfMemory
            (ForFileOfLink (moves_of self.now) (path_components page.entry) (path_components reference.entry)
            (λ directory. BelowTop (λ path. ¬ IsReachable directory path))) }
        // `None` exactly if the reference still leads to its file
        ensures stays { IfOk result (λ way. IsNone way
            ↔ ForFileOfLink (moves_of self.now) (path_components page.entry) (path_components reference.entry)
            (λ directory. Leads directory (path_components reference.entry))) }
        // the shortest path from the new directory to the file
        ensures shortest { IfOk result (λ way. IfSome way (λ way.
            ForFileOfLink (moves_of self.now) (path_components page.entry) (path_components reference.entry)
            (λ directory. BelowTop (λ path. IsShortestText directory path way.text)))) }
    {
        let now = self.path_after(alloc, page)?;
        let meant = NormalPath::of_joined(alloc, directory(page), reference)?;
        link_to(alloc, directory(now), reference, self.file_of(&meant))
    }

    /// Returns the path of a file after the moves. If the path leads where the old path of a move leads,
    /// the result is the new path of that move, as it was given to the table. Otherwise the result is the path
    /// itself, unchanged.
    ///
    /// Allocates the path's normal form, and fails only if that allocation fails.
    ///
    /// ```
    /// let moves = [(RelativePath::new("a.md"), RelativePath::new("x/a.md"))];
    /// let table = MoveTable::new(alloc, &moves)?;
    /// let now = table.path_after(alloc, RelativePath::new("./a.md"))?;
    /// assert_eq!(rt; now.as_str(), "x/a.md");
    /// assert_eq!(rt; table.path_after(alloc, RelativePath::new("b.md"))?.as_str(), "b.md");
    /// ```
    pub fn path_after<'b>(
        &'b self,
        alloc: Global,
        file: RelativePath<'b>,
    ) -> Result<RelativePath<'b>, AllocError>
        // the components of the file's path after the moves
        ensures path { IfOk result (λ now. (path : List Step)
            → IsPathAfter (moves_of self.now) (path_components file.entry) path ↔ (path ≡ path_components now)) }
        // a file that moves gets the text of its move's new path
        ensures text { IfOk result (λ now. (j : ℕ) → MovesFrom (moves_of self.now) (path_components file.entry) j
            → path_text now ≡ new_text self.now j) }
        // a file that doesn't move keeps its path's text
        ensures kept { IfOk result (λ now. IsUnmoved (moves_of self.now) (path_components file.entry)
            → path_text now ≡ path_text file.entry) }
    {
        let place = NormalPath::of(alloc, file)?;
        match self.by_old.get(&place) {
            Some(j) => Ok(self.paths(j).1),
            None => Ok(file),
        }
    }

    // Returns the old and the new path of a move.
    fn paths(&self, i: usize) -> (RelativePath<'a>, RelativePath<'a>)
        requires { i < length self.now }
        ensures old { path_components result.0 ≡ (move_at (moves_of self.now) i).old }
        ensures new { path_components result.1 ≡ (move_at (moves_of self.now) i).new }
        ensures text { path_text result.1 ≡ new_text self.now i }
    {
        let moves = self.moves;
        moves[i]
    }

    // Returns the path, after the moves, of the file at a place.
    fn file_of<'b>(&'b self, place: &'b NormalPath) -> RelativePath<'b>
        ensures { (cs : List Step) → IsSame cs (components place.now)
            → LeadToFile (moves_of self.now) cs (path_components result) }
    {
        match self.by_old.get(place) {
            Some(j) => self.paths(j).1,
            None => place.as_relative_path(),
        }
    }
}

// Returns the number of the first move whose old or new path has no file name.
pub(crate) fn first_nameless(moves: &[(RelativePath<'_>, RelativePath<'_>)]) -> Option<usize>
    ensures { MatchOption result (AreNamed (moves_of moves.now)) (IsFirstNameless (moves_of moves.now)) }
{
    for (k, (old, new)) in moves.iter().enumerate() {
        if old.file_name().is_none() || new.file_name().is_none() {
            return Some(k);
        }
    }
    None
}

// Returns the index of the old paths, and the first two moves whose old paths lead to the same place.
fn by_old_path(
    alloc: Global,
    moves: &[(RelativePath<'_>, RelativePath<'_>)],
) -> Result<(PlaceIndex, Option<(usize, usize)>), AllocError>
    ensures olds { IfOk result (λ found. Indexes (olds_of (moves_of moves.now)) found.0) }
    ensures pair { IfOk result (λ found. MatchOption found.1 (AreApart (moves_of moves.now))
        (λ pair. IsFirstPair (moves_of moves.now) pair.0 pair.1)) }
{
    let mut by_old = PlaceIndex::new(alloc);
    let mut pair = None;
    for (k, (old, _)) in moves.iter().enumerate() {
        let first = by_old.insert(alloc, *old, k)?;
        pair = first_pair(pair, first, k);
    }
    Ok((by_old, pair))
}

// Returns the lexicographically first of two pairs of moves: `pair`, and `first` with `k` if they
// differ. `k` is greater than both numbers of `pair`.
pub(crate) fn first_pair(
    pair: Option<(usize, usize)>,
    first: usize,
    k: usize,
) -> Option<(usize, usize)>
    ensures one { k ≤ first → result ≡ pair }
    ensures earlier { IfSome pair (λ earlier. earlier.0 ≤ first → result ≡ pair) }
    ensures later { MatchOption pair (first < k → result ≡ Some (first, k))
        (λ later. first < k → first < later.0 → result ≡ Some (first, k)) }
{
    match pair {
        _ if k <= first => pair,
        Some((j, _)) if j <= first => pair,
        _ => Some((first, k)),
    }
}

// Returns the shortest path from a directory to a file. Fails if the file climbs above the root.
fn way_or_refusal(
    alloc: Global,
    directory: RelativePath<'_>,
    file: RelativePath<'_>,
) -> Result<RelativePathBuf, ReferenceError>
    ensures { IsWay (path_components directory.entry) (path_components file.entry)
        (IsShortestBuffer (path_components directory.entry) (path_components file.entry)) result }
{
    if !has_place(file) {
        return Err(ReferenceError::AboveRoot);
    }
    directory
        .try_relative(alloc, file)?
        .ok_or(ReferenceError::NoPath)
}

// Returns the shortest path from a directory to a file, or `None` if the reference leads there. Fails
// if the file climbs above the root.
fn link_to(
    alloc: Global,
    directory: RelativePath<'_>,
    reference: RelativePath<'_>,
    file: RelativePath<'_>,
) -> Result<Option<RelativePathBuf>, ReferenceError>
    ensures { IsWay (path_components directory.entry) (path_components file.entry)
        (IsLink (path_components directory.entry) (path_components reference.entry)
        (path_components file.entry)) result }
{
    if file.climb() > 0 {
        return Err(ReferenceError::AboveRoot);
    }
    let led = directory.join(alloc, reference)?;
    if led.as_relative_path().leads_apart(alloc, file)?.is_none() {
        return Ok(None);
    }
    match directory.try_relative(alloc, file)? {
        Some(way) => Ok(Some(way)),
        None => Err(ReferenceError::NoPath),
    }
}
