//! Moves of files and directories.
ghost use Rattle.std.specs.Prelude.{◌≡◌, map, IfOk};
ghost use Rattle.relative_path_moves.specs.Moves.{moves_of, paths_of, written_moves};

use relative_path::RelativePath;
use relative_path_places::WrittenPath;
use std::alloc::{AllocError, Global};

/// The move of a file or directory: its old path and its new one, both relative to one root.
///
/// ```
/// let [old, new] = ["./a.md", "docs/a.md"].map(RelativePath::new);
/// let a = Move::of(alloc, old, new)?;
/// assert_eq!(rt; a.old.written().as_str(), "./a.md");
/// assert_eq!(rt; a.old.normal().as_relative_path().as_str(), "a.md");
/// ```
#[derive(Debug, Drop)]
pub struct Move<'a> {
    /// Where it is before.
    pub old: WrittenPath<'a>,
    /// Where it is after.
    pub new: WrittenPath<'a>,
}

impl<'a> Move<'a> {
    /// Returns the move from an old path to a new one.
    ///
    /// Allocates the normal form of each path, and fails only if an allocation fails.
    ///
    /// ```
    /// let [old, new] = ["docs/a.md", "docs/../b.md"].map(RelativePath::new);
    /// let a = Move::of(alloc, old, new)?;
    /// assert_eq!(rt; a.new.normal().as_relative_path().as_str(), "b.md");
    /// ```
    pub fn of(
        alloc: Global,
        old: RelativePath<'a>,
        new: RelativePath<'a>,
    ) -> Result<Move<'a>, AllocError>
        // this old path
        ensures old { IfOk result (λ move. move.old ≡ old.entry) }
        // this new path
        ensures new { IfOk result (λ move. move.new ≡ new.entry) }
    {
        Ok(Move {
            old: WrittenPath::of(alloc, old)?,
            new: WrittenPath::of(alloc, new)?,
        })
    }

    /// Returns the moves of these pairs of an old and a new path, in order. The paths stay as they are written.
    ///
    /// Allocates the list, and the normal form of each path. Fails only if an allocation fails.
    ///
    /// ```
    /// let pairs = [("a", "b"), ("c", "./d")]
    ///     .map(|(old, new)| (RelativePath::new(old), RelativePath::new(new)));
    /// let moves = Move::of_pairs(alloc, &pairs)?;
    /// assert_eq!(rt; moves[1].new.normal().as_relative_path().as_str(), "d");
    /// ```
    pub fn of_pairs(
        alloc: Global,
        pairs: &[(RelativePath<'a>, RelativePath<'a>)],
    ) -> Result<Vec<Move<'a>>, AllocError>
        // these pairs of paths, as they are written
        ensures pairs { IfOk result (λ moves. map paths_of moves.items ≡ pairs.now) }
        // their moves
        ensures moves { IfOk result (λ moves. written_moves moves.items ≡ moves_of pairs.now) }
    {
        let mut moves = Vec::with_capacity(alloc, pairs.len())?;
        for (old, new) in pairs {
            let a = Move::of(alloc, *old, *new)?;
            moves.push(a)?;
        }
        Ok(moves)
    }
}
