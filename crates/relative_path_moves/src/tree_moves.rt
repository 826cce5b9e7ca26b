//! A table of moves of files and directories.
ghost use Rattle.std.specs.Prelude.{◌≡◌, ◌↔◌, ℕ, List, ◌++◌, length, map, None, Some, IfOk, IfSome, IfNone, IsNone, OnOk, IsErrOf, MatchOption};
ghost use Rattle.relative_path.specs.Steps.{Step, components};
ghost use Rattle.relative_path.specs.Normalizing.{IsNormalTextOf};
ghost use Rattle.relative_path.specs.Relating.{Leads, IsReachable, IsShortestText};
ghost use Rattle.relative_path.specs.RelativePath.{path_components};
ghost use Rattle.relative_path_places.specs.Places.{directory};
ghost use Rattle.relative_path_places.specs.Views.{view_text, view_components};
ghost use Rattle.relative_path_moves.specs.Moves.{
  Move,
  moves_of,
  move_at,
  IsFirstNameless,
  AreNamed,
  IsFirstPair,
  AreApart,
  ClimbsAbove,
  BelowTop,
  turned,
  written_moves,
};
ghost use Rattle.relative_path_moves.specs.MoveError.{Refuses};
ghost use Rattle.relative_path_places.specs.PlaceIndex.{Indexes};
ghost use Rattle.relative_path_moves.specs.MoveTable.{IsSound, olds_of};
ghost use Rattle.relative_path_moves.specs.TreeMoves.{AtTreePath, AtTreeFile, IsLeftInPlace, IsTakenTo, NearestUpTo, by_side, path_on};

use crate::leading::leads_to;
use crate::move_error::{MoveTableError, ReferenceError};
use crate::move_table::{first_nameless, first_pair};
use crate::moves::Move;
use relative_path::{RelativePath, RelativePathBuf};
use relative_path_places::{NormalPath, NormalView, PlaceIndex};
use std::alloc::{AllocError, Global};
use std::marker::Model;

/// A table of moves of files and directories, made once for many files.
///
/// A move of a directory is a move of all below it. If several moves take a file along, the nearest does:
/// the file's own move first, then that of the nearest directory above it. The new paths are where things
/// are after all the moves, so no move acts on the result of another.
///
/// A move of `docs` to `guide` takes `docs/a.md` to `guide/a.md` and `docs` to `guide`. It leaves
/// `docs2/a.md` where it is. If `docs/a.md` has a move of its own, that one counts.
///
/// Old and new paths are relative to one root. A path that climbs above the root doesn't move.
///
/// Two files may end in one place.
///
/// Making the table normalises each path of the moves once, and inserts the old paths into a B-tree. A lookup
/// searches the tree once for a file and each directory above it, however many moves there are.
///
/// ```
/// let moves = [("docs", "guide"), ("docs/a.md", "b.md")]
///     .map(|(old, new)| (RelativePath::new(old), RelativePath::new(new)));
/// let table = TreeMoves::new(alloc, &moves)?;
/// let now = table.path_after(alloc, RelativePath::new("docs/img/x.png"))?;
/// assert_eq!(rt; now.as_relative_path().as_str(), "guide/img/x.png");
/// let now = table.path_after(alloc, RelativePath::new("docs/a.md"))?;
/// assert_eq!(rt; now.as_relative_path().as_str(), "b.md");
/// ```
#[derive(Drop)]
pub struct TreeMoves<'a> {
    moves: Vec<Move<'a>>,
    by_old: PlaceIndex,
}

impl<'a> Model for TreeMoves<'a> {
    // contracts see a list of moves
    ghost Value = { List Move };

    // the moves, by the components of their paths
    ghost view = { λ table. written_moves table.moves.items };

    // file names, no two equivalent old paths, and an index of these
    ghost invariant = { λ table. IsSound (written_moves table.moves.items) table.by_old };
}

/// Where a page is after the moves, and its directory before and after them.
///
/// [`TreeMoves::moved_page`] makes it once for all references of the page.
#[derive(Debug, Drop)]
pub struct PageMove {
    /// The page's path after the moves.
    pub path: NormalPath,
    /// The page's directory before the moves.
    pub before: NormalPath,
    /// The page's directory after the moves.
    pub after: NormalPath,
}

/// A reference in a page: the file to which it leads before the moves, and what it becomes after them.
#[derive(Debug, Drop)]
pub struct MovedReference {
    /// The normal path of the file to which the reference leads before the moves.
    pub file: NormalPath,
    /// What the reference becomes: the result of [`TreeMoves::moved_in`].
    pub moved: Result<Option<RelativePathBuf>, ReferenceError>,
}

impl<'a> TreeMoves<'a> {
    /// Makes the table of these moves. Fails as [`MoveTable::new`](crate::MoveTable::new) does: if a path has no file name, or if
    /// two old paths lead to the same place. A new path above the root is no error.
    ///
    /// The call looks for file names before it allocates. It then allocates the list of moves, the normal form of each
    /// path, and for each old path a copy of its normal form and an entry of the table.
    ///
    /// ```
    /// let moves = [("docs", "guide"), ("./docs", "d")]
    ///     .map(|(old, new)| (RelativePath::new(old), RelativePath::new(new)));
    /// let table = TreeMoves::new(alloc, &moves);
    /// assert!(rt; table.is_err_and(|error| error == MoveTableError::SameOld(0, 1)));
    /// ```
    pub fn new(
        alloc: Global,
        moves: &[(RelativePath<'a>, RelativePath<'a>)],
    ) -> Result<TreeMoves<'a>, MoveTableError>
        // these moves, in order
        ensures moves { IfOk result (λ tree. tree ≡ moves_of moves.now) }
        // each path has a file name
        ensures named { OnOk result (AreNamed (moves_of moves.now)) }
        // no two old paths are equivalent
        ensures apart { OnOk result (AreApart (moves_of moves.now)) }
        // `NoFileName` exactly for the first move without a file name
        ensures no_file_name { (k : ℕ) → IsErrOf result (MoveTableError.NoFileName k)
            ↔ IsFirstNameless (moves_of moves.now) k }
        // `SameOld` exactly for the first two equivalent old paths, given file names and memory
        ensures same_old { (j k : ℕ) → Refuses result (MoveTableError.SameOld j k) MoveTableError.OutOfMemory
            (AreNamed (moves_of moves.now) × IsFirstPair (moves_of moves.now) j k) }
        // `OutOfMemory` only if each path has a file name
        ensures out_of_memory { IsErrOf result MoveTableError.OutOfMemory → AreNamed (moves_of moves.now) }
    {
        if let Some(k) = first_nameless(moves) {
            return Err(MoveTableError::NoFileName(k));
        }
        let moves = Move::of_pairs(alloc, moves)?;
        TreeMoves::of(alloc, moves)
    }

    /// Makes the table of these moves, whose paths have file names. Fails only if two old paths lead to the same
    /// place, or if an allocation fails.
    ///
    /// Allocates for each old path a copy of its normal form, and an entry of the table.
    ///
    /// ```
    /// let [docs, guide] = ["docs", "guide"].map(RelativePath::new);
    /// let mut moves = Vec::new(alloc);
    /// moves.push(Move::of(alloc, docs, guide)?)?;
    /// assert_eq!(rt; TreeMoves::of(alloc, moves)?.len(), 1);
    /// ```
    pub fn of(alloc: Global, moves: Vec<Move<'a>>) -> Result<TreeMoves<'a>, MoveTableError>
        // each path has to have a file name
        requires { AreNamed (written_moves moves.items) }
        // these moves, in order
        ensures moves { IfOk result (λ table. table ≡ written_moves moves.entry.items) }
        // no two old paths are equivalent
        ensures apart { OnOk result (AreApart (written_moves moves.entry.items)) }
        // never `NoFileName`
        ensures named { (k : ℕ) → ¬ IsErrOf result (MoveTableError.NoFileName k) }
        // `SameOld` exactly for the first two equivalent old paths, given memory
        ensures same_old { (j k : ℕ) → Refuses result (MoveTableError.SameOld j k) MoveTableError.OutOfMemory
            (IsFirstPair (written_moves moves.entry.items) j k) }
    {
        match by_path(alloc, &moves, Side::Old)? {
            (by_old, None) => Ok(TreeMoves { moves, by_old }),
            (_, Some((j, k))) => Err(MoveTableError::SameOld(j, k)),
        }
    }

    /// Returns the moves of the table, in order. Allocates nothing.
    ///
    /// ```
    /// let moves = [(RelativePath::new("docs"), RelativePath::new("guide"))];
    /// let table = TreeMoves::new(alloc, &moves)?;
    /// assert_eq!(rt; table.moves()[0].new.written().as_str(), "guide");
    /// ```
    pub fn moves(&self) -> &[Move<'a>]
        // these moves
        ensures moves { written_moves result.now ≡ self.now }
        // each path has a file name
        ensures named { AreNamed self.now }
        // no two old paths are equivalent
        ensures apart { AreApart self.now }
    {
        &self.moves
    }

    /// Returns the index of the old paths: the number of the move whose old path leads to a place. Allocates nothing.
    ///
    /// ```
    /// let moves = [(RelativePath::new("./docs"), RelativePath::new("guide"))];
    /// let table = TreeMoves::new(alloc, &moves)?;
    /// let docs = NormalPath::of(alloc, RelativePath::new("docs"))?;
    /// assert_eq!(rt; table.olds().get(&docs), Some(0));
    /// ```
    pub fn olds(&self) -> &PlaceIndex
        ensures { Indexes (olds_of self.now) result.now }
    {
        &self.by_old
    }

    /// Returns the numbers of the lexicographically first two moves whose new paths lead to the same place. `None` if
    /// there are none.
    ///
    /// Allocates for each new path a copy of its normal form, and an entry of an index. Fails only if an allocation fails.
    ///
    /// ```
    /// let moves = [("a", "c"), ("b", "./c")]
    ///     .map(|(old, new)| (RelativePath::new(old), RelativePath::new(new)));
    /// let table = TreeMoves::new(alloc, &moves)?;
    /// assert_eq!(rt; table.same_new(alloc)?, Some((0, 1)));
    /// ```
    pub fn same_new(&self, alloc: Global) -> Result<Option<(usize, usize)>, AllocError>
        ensures { IfOk result (λ pair. MatchOption pair (AreApart (turned self.now))
            (λ pair. IsFirstPair (turned self.now) pair.0 pair.1)) }
    {
        let (_, pair) = by_path(alloc, &self.moves, Side::New)?;
        Ok(pair)
    }

    /// The number of moves in the table.
    ///
    /// ```
    /// let moves = [(RelativePath::new("docs"), RelativePath::new("guide"))];
    /// assert_eq!(rt; TreeMoves::new(alloc, &moves)?.len(), 1);
    /// ```
    pub fn len(&self) -> usize
        ensures { result ≡ length self.now }
    {
        self.moves.len()
    }

    /// Returns the normal path of a file or directory after the moves.
    ///
    /// Allocates the path's normal form, and once more, the result, if a move takes the file along. Fails only
    /// if an allocation fails.
    ///
    /// ```
    /// let moves = [(RelativePath::new("docs"), RelativePath::new("guide"))];
    /// let table = TreeMoves::new(alloc, &moves)?;
    /// for (file, expected) in [("docs/./a.md", "guide/a.md"), ("docs2/a.md", "docs2/a.md")] {
    ///     let now = table.path_after(alloc, RelativePath::new(file))?;
    ///     assert_eq!(rt; now.as_relative_path().as_str(), expected);
    /// }
    /// ```
    pub fn path_after(
        &self,
        alloc: Global,
        file: RelativePath<'_>,
    ) -> Result<NormalPath, AllocError>
        ensures { IfOk result (λ now. AtTreePath self.now (path_components file.entry)
            (λ path. IsNormalTextOf path now)) }
    {
        let place = NormalPath::of(alloc, file)?;
        match self.taken_to(alloc, place.view())? {
            Some(now) => Ok(now),
            None => Ok(place),
        }
    }

    /// Returns the normal path after the moves, as [`TreeMoves::path_after`] does, of a file or directory with a normal
    /// path. It isn't normalised again.
    ///
    /// Allocates once, the result. Fails only if that allocation fails.
    ///
    /// ```
    /// let moves = [(RelativePath::new("docs"), RelativePath::new("guide"))];
    /// let table = TreeMoves::new(alloc, &moves)?;
    /// let file = NormalPath::of(alloc, RelativePath::new("docs/a.md"))?;
    /// let now = table.normal_after(alloc, file.view())?;
    /// assert_eq!(rt; now.as_relative_path().as_str(), "guide/a.md");
    /// ```
    pub fn normal_after(
        &self,
        alloc: Global,
        file: NormalView<'_>,
    ) -> Result<NormalPath, AllocError>
        ensures { IfOk result (λ now. (place : List Step) → IsNormalTextOf place (view_text file.entry)
            → AtTreePath self.now place (λ path. IsNormalTextOf path now)) }
    {
        match self.taken_to(alloc, file)? {
            Some(now) => Ok(now),
            None => NormalPath::of_view(alloc, file),
        }
    }

    /// Returns the normal path, after the moves, of a file or directory with a normal path that a move takes along.
    /// `None` if it stays where it is.
    ///
    /// Allocates at most once, the result. Fails only if that allocation fails.
    ///
    /// ```
    /// let moves = [(RelativePath::new("docs"), RelativePath::new("guide"))];
    /// let table = TreeMoves::new(alloc, &moves)?;
    /// let file = NormalPath::of(alloc, RelativePath::new("docs/a.md"))?;
    /// let now = table.new_path(alloc, &file)?.ok_or("a new path")?;
    /// assert_eq!(rt; now.as_relative_path().as_str(), "guide/a.md");
    /// ```
    pub fn new_path(
        &self,
        alloc: Global,
        file: &NormalPath,
    ) -> Result<Option<NormalPath>, AllocError>
        // where the nearest move takes it, or `None` if no move takes it along
        ensures { IfOk result (λ now. MatchOption now (IsLeftInPlace self.now (components file.now))
            (λ now. (path : List Step) × IsTakenTo self.now (components file.now) path
            × IsNormalTextOf path now)) }
    {
        self.taken_to(alloc, file.view())
    }

    /// Returns where a page is after the moves, and its directory before and after them. The result serves
    /// all references of the page, by [`TreeMoves::moved_in`].
    ///
    /// Allocates the page's path after the moves and each of the two directories. Nothing is normalised. Fails only if
    /// an allocation fails.
    ///
    /// ```
    /// let moves = [(RelativePath::new("docs"), RelativePath::new("guide"))];
    /// let table = TreeMoves::new(alloc, &moves)?;
    /// let page = NormalPath::of(alloc, RelativePath::new("docs/sub/a.md"))?;
    /// let page = table.moved_page(alloc, &page)?;
    /// assert_eq!(rt; page.path.as_relative_path().as_str(), "guide/sub/a.md");
    /// assert_eq!(rt; page.before.as_relative_path().as_str(), "docs/sub");
    /// assert_eq!(rt; page.after.as_relative_path().as_str(), "guide/sub");
    /// ```
    pub fn moved_page(&self, alloc: Global, page: &NormalPath) -> Result<PageMove, AllocError>
        // `before` is the page's directory before the moves
        ensures before { IfOk result
            (λ moved. IsNormalTextOf (directory (components page.now)) moved.before) }
        // `path` and `after` are the page's normal path and directory after the moves
        ensures after { IfOk result (λ moved. AtTreePath self.now (components page.now)
            (λ now. IsNormalTextOf now moved.path × IsNormalTextOf (directory now) moved.after)) }
    {
        let before = directory_of(alloc, page)?;
        match self.taken_to(alloc, page.view())? {
            Some(path) => {
                let after = directory_of(alloc, &path)?;
                Ok(PageMove {
                    path,
                    before,
                    after,
                })
            }
            None => {
                let path = page.copy(alloc)?;
                let after = before.copy(alloc)?;
                Ok(PageMove {
                    path,
                    before,
                    after,
                })
            }
        }
    }

    /// Returns what a reference in a page becomes after the moves. The page is given by the result of
    /// [`TreeMoves::moved_page`], and may move or stay. A reference is a *path* here, without scheme,
    /// query, fragment and percent signs: a percent sign is a byte of a name. The crate `target_paths`
    /// reads the target of a link as a path.
    ///
    /// Returns `None` if the reference, as it is written, still leads from the page's new directory to
    /// its file, above the root too. Otherwise the result is the shortest path from the page's new
    /// directory to the file. The file is where the reference led before the moves; if a move takes
    /// that place along, the file is where the nearest move takes it.
    ///
    /// If the reference no longer leads to its file, the call fails with [`ReferenceError::AboveRoot`]
    /// where the file climbs above the root, and with [`ReferenceError::NoPath`] where no path leads from
    /// the page's new directory to the file.
    ///
    /// Allocates at most four times: what `join_normalized` does, the file if a move takes it along, and
    /// the result, with room for one more byte. It fails with `OutOfMemory` only if one of these allocations
    /// fails.
    ///
    /// ```
    /// let moves = [(RelativePath::new("docs"), RelativePath::new("guide"))];
    /// let table = TreeMoves::new(alloc, &moves)?;
    /// let page = NormalPath::of(alloc, RelativePath::new("docs/a.md"))?;
    /// let page = table.moved_page(alloc, &page)?;
    /// assert!(rt; table.moved_in(alloc, &page, RelativePath::new("img/x.png"))?.is_none());
    /// let page = NormalPath::of(alloc, RelativePath::new("index.md"))?;
    /// let page = table.moved_page(alloc, &page)?;
    /// let way = table.moved_in(alloc, &page, RelativePath::new("docs/a.md"))?;
    /// let way = way.ok_or("a way")?;
    /// assert_eq!(rt; way.as_relative_path().as_str(), "guide/a.md");
    /// ```
    pub fn moved_in(
        &self,
        alloc: Global,
        page: &PageMove,
        reference: RelativePath<'_>,
    ) -> Result<Option<RelativePathBuf>, ReferenceError>
        // `None` only if the reference still leads to its file
        ensures stays { IfOk result (λ way. IsNone way
            → AtTreeFile self.now (components page.now.before) (path_components reference.entry)
            (λ path. Leads (components page.now.after) (path_components reference.entry) path)) }
        // the shortest path to the file, where the reference no longer leads
        ensures shortest { IfOk result (λ way. IfSome way (λ way.
            AtTreeFile self.now (components page.now.before) (path_components reference.entry)
            (λ path. (¬ Leads (components page.now.after) (path_components reference.entry) path)
            × BelowTop (λ path. IsShortestText (components page.now.after) path way.text) path))) }
        // `AboveRoot` only for a file above the root, where the reference no longer leads
        ensures above_root { IsErrOf result ReferenceError.AboveRoot
            → AtTreeFile self.now (components page.now.before) (path_components reference.entry)
            (λ path. (¬ Leads (components page.now.after) (path_components reference.entry) path)
            × ClimbsAbove path) }
        // `NoPath` only for an unreachable file in the root
        ensures no_path { IsErrOf result ReferenceError.NoPath
            → AtTreeFile self.now (components page.now.before) (path_components reference.entry)
            (λ path. (¬ Leads (components page.now.after) (path_components reference.entry) path)
            × BelowTop (λ path. ¬ IsReachable (components page.now.after) path) path) }
    {
        self.reference_in(alloc, page, reference)?.moved
    }

    /// Returns what a reference in a page becomes after the moves, as [`TreeMoves::moved_in`] does, and the file
    /// to which it leads before them.
    ///
    /// Allocates what [`TreeMoves::moved_in`] does. Fails only if the allocation of the file's path fails.
    ///
    /// ```
    /// let moves = [(RelativePath::new("docs"), RelativePath::new("guide"))];
    /// let table = TreeMoves::new(alloc, &moves)?;
    /// let page = NormalPath::of(alloc, RelativePath::new("docs/a.md"))?;
    /// let page = table.moved_page(alloc, &page)?;
    /// let found = table.reference_in(alloc, &page, RelativePath::new("../b.md"))?;
    /// assert_eq!(rt; found.file.as_relative_path().as_str(), "b.md");
    /// assert!(rt; found.moved?.is_none());
    /// ```
    pub fn reference_in(
        &self,
        alloc: Global,
        page: &PageMove,
        reference: RelativePath<'_>,
    ) -> Result<MovedReference, AllocError>
        // the normal path of where the reference leads before the moves
        ensures file { IfOk result (λ found.
            IsNormalTextOf (components page.now.before ++ path_components reference.entry) found.file) }
        // `None` only if the reference still leads to its file
        ensures stays { IfOk result (λ found. IfOk found.moved (λ way. IsNone way
            → AtTreeFile self.now (components page.now.before) (path_components reference.entry)
            (λ path. Leads (components page.now.after) (path_components reference.entry) path))) }
        // the shortest path to the file, where the reference no longer leads
        ensures shortest { IfOk result (λ found. IfOk found.moved (λ way. IfSome way (λ way.
            AtTreeFile self.now (components page.now.before) (path_components reference.entry)
            (λ path. (¬ Leads (components page.now.after) (path_components reference.entry) path)
            × BelowTop (λ path. IsShortestText (components page.now.after) path way.text) path)))) }
        // `AboveRoot` only for a file above the root, where the reference no longer leads
        ensures above_root { IfOk result (λ found. IsErrOf found.moved ReferenceError.AboveRoot
            → AtTreeFile self.now (components page.now.before) (path_components reference.entry)
            (λ path. (¬ Leads (components page.now.after) (path_components reference.entry) path)
            × ClimbsAbove path)) }
        // `NoPath` only for an unreachable file in the root
        ensures no_path { IfOk result (λ found. IsErrOf found.moved ReferenceError.NoPath
            → AtTreeFile self.now (components page.now.before) (path_components reference.entry)
            (λ path. (¬ Leads (components page.now.after) (path_components reference.entry) path)
            × BelowTop (λ path. ¬ IsReachable (components page.now.after) path) path)) }
    {
        let file = page.before.join(alloc, reference)?;
        let moved = self.link_to_file(alloc, &page.after, reference, &file);
        Ok(MovedReference { file, moved })
    }

    // Returns the shortest path from a directory after the moves to a file, or `None` if the reference leads
    // there.
    fn link_to_file(
        &self,
        alloc: Global,
        directory: &NormalPath,
        reference: RelativePath<'_>,
        file: &NormalPath,
    ) -> Result<Option<RelativePathBuf>, ReferenceError>
        ensures stays { IfOk result (λ way. IsNone way → (from : List Step) → IsNormalTextOf from file.now
            → AtTreePath self.now from
            (λ path. Leads (components directory.now) (path_components reference.entry) path)) }
        ensures shortest { IfOk result (λ way. IfSome way (λ way. (from : List Step) → IsNormalTextOf from file.now
            → AtTreePath self.now from
            (λ path. (¬ Leads (components directory.now) (path_components reference.entry) path)
            × BelowTop (λ path. IsShortestText (components directory.now) path way.text) path))) }
        ensures above_root { IsErrOf result ReferenceError.AboveRoot
            → (from : List Step) → IsNormalTextOf from file.now → AtTreePath self.now from
            (λ path. (¬ Leads (components directory.now) (path_components reference.entry) path)
            × ClimbsAbove path) }
        ensures no_path { IsErrOf result ReferenceError.NoPath
            → (from : List Step) → IsNormalTextOf from file.now → AtTreePath self.now from
            (λ path. (¬ Leads (components directory.now) (path_components reference.entry) path)
            × BelowTop (λ path. ¬ IsReachable (components directory.now) path) path) }
    {
        match self.taken_to(alloc, file.view())? {
            Some(now) => link_from(alloc, directory, reference, &now),
            None => link_from(alloc, directory, reference, file),
        }
    }

    // Returns the normal path to which the nearest move takes the file with this normal path. `None` if
    // no move takes it along. Allocates at most once.
    fn taken_to(
        &self,
        alloc: Global,
        file: NormalView<'_>,
    ) -> Result<Option<NormalPath>, AllocError>
        ensures path { IfOk result (λ now. (place : List Step) → IsNormalTextOf place (view_text file.entry)
            → MatchOption now (IsLeftInPlace self.now place)
            (λ now. (path : List Step) × IsTakenTo self.now place path × IsNormalTextOf path now)) }
        ensures own { IfOk result (λ now. MatchOption now (IsLeftInPlace self.now (view_components file.entry))
            (λ now. (path : List Step) × IsTakenTo self.now (view_components file.entry) path
            × IsNormalTextOf path now)) }
        ensures named { IfOk result (λ now. IfSome now (λ _. AreNamed self.now)) }
    {
        if file.names().is_none() {
            return Ok(None);
        }
        let Some((j, old)) = self.nearest(file) else {
            return Ok(None);
        };
        let below = file.below(old);
        let new = self.moves[j].new.normal();
        let now = new.followed_by(alloc, below.unwrap())?;
        Ok(Some(now))
    }

    // Returns the number of the nearest move whose old path leads to the place or to a directory above it,
    // and the normal form of that old path. Allocates nothing.
    fn nearest<'p>(&self, place: NormalView<'p>) -> Option<(usize, NormalView<'p>)>
        ensures none { IfNone result (NearestUpTo (olds_of self.now) (view_components place.entry)
            (length (view_components place.entry)) None) }
        ensures nearest { IfSome result (λ found. NearestUpTo (olds_of self.now)
            (view_components place.entry) (length (view_components place.entry)) (Some found.0)) }
        ensures old { IfSome result
            (λ found. IsNormalTextOf (move_at self.now found.0).old (view_text found.1)) }
    {
        let mut above = place;
        loop {
            if let Some(j) = self.by_old.get_view(above) {
                return Some((j, above));
            }
            let Some(parent) = above.parent() else {
                return None;
            };
            above = parent;
        }
    }
}

// The old or the new path of a move.
#[derive(Clone, Copy)]
pub(crate) enum Side {
    Old,
    New,
}

// Returns the index of the old or the new paths of moves, and the first two moves of which these lead to the same place.
fn by_path(
    alloc: Global,
    moves: &[Move<'_>],
    side: Side,
) -> Result<(PlaceIndex, Option<(usize, usize)>), AllocError>
    ensures paths { IfOk result (λ found. Indexes (olds_of (by_side side (written_moves moves.now))) found.0) }
    ensures pair { IfOk result (λ found. MatchOption found.1 (AreApart (by_side side (written_moves moves.now)))
        (λ pair. IsFirstPair (by_side side (written_moves moves.now)) pair.0 pair.1)) }
{
    let mut index = PlaceIndex::new(alloc);
    let mut pair = None;
    for (k, a) in moves.iter().enumerate() {
        let path = path_on(a, side).copy(alloc)?;
        let first = index.insert_normal(path, k)?;
        pair = first_pair(pair, first, k);
    }
    Ok((index, pair))
}

// Returns the normal form of the old or the new path of a move.
fn path_on<'m>(a: &'m Move<'_>, side: Side) -> &'m NormalPath
    ensures { IsNormalTextOf (path_components (path_on side a.now)) result.now }
{
    match side {
        Side::Old => a.old.normal(),
        Side::New => a.new.normal(),
    }
}

// Returns the shortest path from a directory to a file, or `None` if the reference leads there. Fails
// if the reference doesn't lead there, and the file climbs above the root or no path leads there.
fn link_from(
    alloc: Global,
    directory: &NormalPath,
    reference: RelativePath<'_>,
    file: &NormalPath,
) -> Result<Option<RelativePathBuf>, ReferenceError>
    ensures stays { IfOk result (λ way. IsNone way
        → Leads (components directory.now) (path_components reference.entry) (components file.now)) }
    ensures shortest { IfOk result (λ way. IfSome way (λ way.
        (¬ Leads (components directory.now) (path_components reference.entry) (components file.now))
        × BelowTop (λ path. IsShortestText (components directory.now) path way.text)
        (components file.now))) }
    ensures above_root { IsErrOf result ReferenceError.AboveRoot
        → (¬ Leads (components directory.now) (path_components reference.entry) (components file.now))
        × ClimbsAbove (components file.now) }
    ensures no_path { IsErrOf result ReferenceError.NoPath
        → (¬ Leads (components directory.now) (path_components reference.entry) (components file.now))
        × BelowTop (λ path. ¬ IsReachable (components directory.now) path) (components file.now) }
{
    if leads_to(directory, reference, file) {
        return Ok(None);
    }
    let Some(to) = file.view().names() else {
        return Err(ReferenceError::AboveRoot);
    };
    let Some(from) = directory.view().names() else {
        return Err(ReferenceError::NoPath);
    };
    Ok(Some(from.way_to(alloc, to)?))
}

// Copies the directory of a file with a normal path.
fn directory_of(alloc: Global, file: &NormalPath) -> Result<NormalPath, AllocError>
    ensures { IfOk result (λ above. IsNormalTextOf (directory (components file.now)) above) }
{
    NormalPath::of_view(alloc, file.directory())
}
