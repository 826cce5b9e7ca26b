//! Joins of two paths and of many, with and without normalising.
ghost use Rattle.std.specs.Prelude.{◌≡◌, ◌++◌, [], List, ℕ, map, IfOk};
ghost use Rattle.relative_path.specs.Editing.{pushed};
ghost use Rattle.relative_path.specs.Pushing.{pushed_all};
ghost use Rattle.relative_path.specs.Normalizing.{IsNormalTextOf};
ghost use Rattle.relative_path.specs.RelativePath.{path_text, path_components};
ghost use Rattle.relative_path.specs.Steps.{components};
ghost use Rattle.relative_path.specs.Walk.{LeadsInTurn};
ghost use Rattle.relative_path_bench.specs.Joining.{IsJoinedFromTheLeft, IsJoinedFromTheRight};

use relative_path::{RelativePath, RelativePathBuf};
use std::alloc::{AllocError, Global};

/// Returns `path` joined with `other`.
///
/// The components of the result are those of `path` followed by those of `other`. So it leads where
/// `other` leads from the place where `path` leads. Allocates once, the result. The only error is lack
/// of memory.
///
/// ```
/// let joined = join_law(alloc, RelativePath::new("a/"), RelativePath::new("//b"))?;
/// assert_eq!(rt; joined.as_relative_path().as_str(), "a//b");
/// ```
pub fn join_law(
    alloc: Global,
    path: RelativePath<'_>,
    other: RelativePath<'_>,
) -> Result<RelativePathBuf, AllocError>
    // the first text, a slash if needed, the second without one leading slash
    ensures text { IfOk result
        (λ joined. joined.text ≡ pushed (path_text path.entry) (path_text other.entry)) }
    // the first path's components, then the second's
    ensures components { IfOk result
        (λ joined. components joined.text
        ≡ path_components path.entry ++ path_components other.entry) }
    // it leads where both lead in turn
    ensures walk { IfOk result (λ joined. LeadsInTurn (path_components path.entry)
        (path_components other.entry) (components joined.text)) }
{
    path.join(alloc, other)
}

/// Returns two buffers: `from_paths` of the paths, and an empty buffer onto which each path was pushed in turn.
///
/// Both buffers have the same text. Allocates where a push does. The only error is lack of memory.
///
/// ```
/// let paths = ["a", "/b", "", "c"].map(RelativePath::new);
/// let (at_once, one_by_one) = from_paths_law(alloc, &paths)?;
/// assert_eq!(rt; at_once.as_relative_path().as_str(), "a/b/c");
/// assert_eq!(rt; one_by_one.as_relative_path().as_str(), "a/b/c");
/// ```
pub fn from_paths_law(
    alloc: Global,
    paths: &[RelativePath<'_>],
) -> Result<(RelativePathBuf, RelativePathBuf), AllocError>
    // first: all paths pushed, in order
    ensures at_once { IfOk result (λ pair. pair.0.text ≡ pushed_all [] (map path_text paths.now)) }
    // second: all paths pushed, in order
    ensures one_by_one { IfOk result
        (λ pair. pair.1.text ≡ pushed_all [] (map path_text paths.now)) }
    // both results have the same text
    ensures same { IfOk result (λ pair. pair.0.text ≡ pair.1.text) }
{
    let at_once = RelativePathBuf::from_paths(alloc, paths.iter().copied())?;
    let mut one_by_one = RelativePathBuf::new(alloc);
    for path in paths {
        one_by_one.push(*path)?;
    }
    Ok((at_once, one_by_one))
}

/// Returns `join_normalized` of `path` and `other`, and the normal form of their join.
///
/// Both results have the same text. Allocates for both and for the join. The only error is lack of
/// memory.
///
/// ```
/// let path = RelativePath::new("x/y");
/// let (joined, normal) = join_normalized_law(alloc, path, RelativePath::new("../z"))?;
/// assert_eq!(rt; joined.as_relative_path().as_str(), "x/z");
/// assert_eq!(rt; normal.as_relative_path().as_str(), "x/z");
/// ```
pub fn join_normalized_law(
    alloc: Global,
    path: RelativePath<'_>,
    other: RelativePath<'_>,
) -> Result<(RelativePathBuf, RelativePathBuf), AllocError>
    // first: the normal text of both in turn
    ensures joined { IfOk result (λ pair. IsNormalTextOf
        (path_components path.entry ++ path_components other.entry) pair.0.text) }
    // second: the normal text of the join
    ensures normal_form { IfOk result (λ pair. IsNormalTextOf
        (components (pushed (path_text path.entry) (path_text other.entry))) pair.1.text) }
    // both results have the same text
    ensures same { IfOk result (λ pair. pair.0.text ≡ pair.1.text) }
{
    let joined = path.join_normalized(alloc, other)?;
    let whole = path.join(alloc, other)?;
    let normal = whole.as_relative_path().normalize(alloc)?;
    Ok((joined, normal))
}

/// Returns three paths joined by `join_normalized`: once with `a` and `b` joined first, and once with
/// `b` and `c` joined first.
///
/// Both results have the same text. Allocates for both and for the first joins. The only error is lack
/// of memory.
///
/// ```
/// let [a, b, c] = ["a", "../..", "b"].map(RelativePath::new);
/// let (from_the_left, from_the_right) = associative(alloc, a, b, c)?;
/// assert_eq!(rt; from_the_left.as_relative_path().as_str(), "../b");
/// assert_eq!(rt; from_the_right.as_relative_path().as_str(), "../b");
/// ```
pub fn associative(
    alloc: Global,
    a: RelativePath<'_>,
    b: RelativePath<'_>,
    c: RelativePath<'_>,
) -> Result<(RelativePathBuf, RelativePathBuf), AllocError>
    // first: `a` and `b` joined in normal form, then `c`
    ensures from_the_left { IfOk result (λ pair. IsJoinedFromTheLeft (path_components a.entry)
        (path_components b.entry) (path_components c.entry) pair.0.text) }
    // second: `b` and `c` joined in normal form, after `a`
    ensures from_the_right { IfOk result (λ pair. IsJoinedFromTheRight (path_components a.entry)
        (path_components b.entry) (path_components c.entry) pair.1.text) }
    // both results have the same text
    ensures same { IfOk result (λ pair. pair.0.text ≡ pair.1.text) }
{
    let a_b = a.join_normalized(alloc, b)?;
    let b_c = b.join_normalized(alloc, c)?;
    let from_the_left = a_b.as_relative_path().join_normalized(alloc, c)?;
    let from_the_right = a.join_normalized(alloc, b_c.as_relative_path())?;
    Ok((from_the_left, from_the_right))
}

/// Returns the normal form of the path, `join_normalized` of the path with the empty path, and
/// `join_normalized` of the empty path with the path.
///
/// All three results have the same text. Allocates for each. The only error is lack of memory.
///
/// ```
/// let (normal, empty_after, empty_before) = unit(alloc, RelativePath::new("a//b/."))?;
/// assert_eq!(rt; normal.as_relative_path().as_str(), "a/b");
/// assert_eq!(rt; empty_after.as_relative_path().as_str(), "a/b");
/// assert_eq!(rt; empty_before.as_relative_path().as_str(), "a/b");
/// ```
pub fn unit(
    alloc: Global,
    path: RelativePath<'_>,
) -> Result<(RelativePathBuf, RelativePathBuf, RelativePathBuf), AllocError>
    // first: the path's normal text
    ensures normal_form { IfOk result (λ r. IsNormalTextOf (path_components path.entry) r.0.text) }
    // second: the first and the empty path, normalised
    ensures empty_after { IfOk result
        (λ r. IsNormalTextOf (components r.0.text ++ components []) r.1.text) }
    // third: the empty path and the first, normalised
    ensures empty_before { IfOk result
        (λ r. IsNormalTextOf (components [] ++ components r.0.text) r.2.text) }
    // the second text is the first
    ensures same_after { IfOk result (λ r. r.1.text ≡ r.0.text) }
    // the third text is the first
    ensures same_before { IfOk result (λ r. r.2.text ≡ r.0.text) }
{
    let empty = RelativePath::new("");
    let normal = path.normalize(alloc)?;
    let empty_after = normal.as_relative_path().join_normalized(alloc, empty)?;
    let empty_before = empty.join_normalized(alloc, normal.as_relative_path())?;
    Ok((normal, empty_after, empty_before))
}
