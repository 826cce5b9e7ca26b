//! What one reference becomes.
ghost use Rattle.std.specs.Prelude.{◌<◌, ◌↔◌, ℕ, length, IfOk, IsErrOf};
ghost use Rattle.relative_path.specs.RelativePath.{path_components};
ghost use Rattle.relative_path_moves.specs.Moves.{
  moves_of,
  IsFirstNameless,
  AreNamed,
  IsFirstPair,
  AreApart,
  ForFile,
  ClimbsAbove,
  BelowTop,
  IsBeyond,
  IsMovedText,
};
ghost use Rattle.relative_path_moves.specs.MoveError.{Refuses};

use crate::move_error::MoveError;
use crate::move_table::MoveTable;
use relative_path::{RelativePath, RelativePathBuf};
use std::alloc::Global;

/// Returns what a reference in a file that moved becomes after all the moves. A reference is a *path*
/// here, without scheme, query, fragment and percent signs: a percent sign is a byte of a name. For the
/// targets of the links of a page call `rewrite_links` of the crate `relative_path_links`.
///
/// A move is the old and the new path of a file, both relative to one root. The reference is in
/// the file of move number `i`. The result is the shortest path from that file's new directory to where
/// the reference leads. This is the place where it led before the moves, or the new path of a move if that
/// is its old path.
///
/// Two moves may have the same new path, and a new path may be that of a file that stays.
///
/// The call checks the moves before the reference, and looks for file names before it allocates. It then
/// allocates for each old path: the normal form, and an entry of a table.
///
/// The table serves this one reference. Making it takes time `n log n` in the number of moves. For many
/// references make one [`MoveTable`]; each lookup then takes time `log n`.
///
/// ```
/// let page = (RelativePath::new("docs/a.md"), RelativePath::new("docs/sub/b.md"));
/// let image = (RelativePath::new("img/x.png"), RelativePath::new("art/y.png"));
/// let reference = RelativePath::new("../img/x.png");
/// let way = moved(alloc, &[page, image], 0, reference)?;
/// assert_eq!(rt; way.as_relative_path().as_str(), "../../art/y.png");
/// ```
pub fn moved(
    alloc: Global,
    moves: &[(RelativePath<'_>, RelativePath<'_>)],
    i: usize,
    reference: RelativePath<'_>,
) -> Result<RelativePathBuf, MoveError>
    requires { i < length moves.now }
    // `NoFileName` exactly for the first move without a file name
    ensures no_file_name { (k : ℕ) → IsErrOf result (MoveError.NoFileName k)
        ↔ IsFirstNameless (moves_of moves.now) k }
    // `SameOld` exactly for the first two equivalent old paths, given file names and memory
    ensures same_old { (j k : ℕ) → Refuses result (MoveError.SameOld j k) MoveError.OutOfMemory
        (AreNamed (moves_of moves.now) × IsFirstPair (moves_of moves.now) j k) }
    // `AboveRoot` exactly for a file above the root, given a table and memory
    ensures above_root { Refuses result MoveError.AboveRoot MoveError.OutOfMemory
        (AreNamed (moves_of moves.now) × AreApart (moves_of moves.now)
        × ForFile (moves_of moves.now) i (path_components reference.entry) ClimbsAbove) }
    // `NoPath` exactly for an unreachable file in the root, given a table and memory
    ensures no_path { Refuses result MoveError.NoPath MoveError.OutOfMemory
        (AreNamed (moves_of moves.now) × AreApart (moves_of moves.now)
        × ForFile (moves_of moves.now) i (path_components reference.entry)
        (BelowTop (IsBeyond (moves_of moves.now) i))) }
    // `OutOfMemory` only if each path has a file name
    ensures out_of_memory { IsErrOf result MoveError.OutOfMemory → AreNamed (moves_of moves.now) }
    // the shortest path from the new directory to the file
    ensures shortest { IfOk result (λ way. AreNamed (moves_of moves.now)
        × AreApart (moves_of moves.now)
        × ForFile (moves_of moves.now) i (path_components reference.entry)
        (BelowTop (IsMovedText (moves_of moves.now) i way.text))) }
{
    Ok(MoveTable::new(alloc, moves)?.moved(alloc, i, reference)?)
}
