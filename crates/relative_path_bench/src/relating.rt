//! The shortest path from one path to another, and paths that lead to the same place.
ghost use Rattle.std.specs.Prelude.{◌≡◌, ◌≤◌, ◌↔◌, ◌+◌, ◌++◌, ℕ, List, length, IfOk, IfSome, IsNone, Some};
ghost use Rattle.relative_path.specs.Normalizing.{IsNormalTextOf};
ghost use Rattle.relative_path.specs.Relating.{Leads, IsReachable, IsShortestText, IsWayText, LeadsApart};
ghost use Rattle.relative_path.specs.RelativePath.{path_components};
ghost use Rattle.relative_path.specs.Steps.{Step, components};
ghost use Rattle.relative_path_bench.specs.Relating.{EndAlike};

use relative_path::{RelativePath, RelativePathBuf};
use std::alloc::{AllocError, Global};

/// Returns two normal forms: of `from` followed by the shortest path to `to`, and of `to`. If no path
/// leads from `from` to `to`, the first result is the normal form of `from`.
///
/// The results have the same text exactly if some path leads from `from` to `to`. Allocates for both
/// and for the shortest path. The only error is lack of memory.
///
/// ```
/// let from = RelativePath::new("a/b");
/// let (back, to) = leads_back(alloc, from, RelativePath::new("a/c"))?;
/// assert!(rt; back == to);
/// ```
pub fn leads_back(
    alloc: Global,
    from: RelativePath<'_>,
    to: RelativePath<'_>,
) -> Result<(RelativePathBuf, RelativePathBuf), AllocError>
    // first: the target's normal text, if a path leads there
    ensures there { IfOk result
        (λ pair. IsReachable (path_components from.entry) (path_components to.entry)
        → IsNormalTextOf (path_components to.entry) pair.0.text) }
    // first: otherwise the source's normal text
    ensures stays { IfOk result
        (λ pair. ¬ IsReachable (path_components from.entry) (path_components to.entry)
        → IsNormalTextOf (path_components from.entry) pair.0.text) }
    // second: the target's normal text
    ensures to { IfOk result (λ pair. IsNormalTextOf (path_components to.entry) pair.1.text) }
    // the same text exactly if a path leads to the target
    ensures same { IfOk result (λ pair. (pair.0.text ≡ pair.1.text)
        ↔ IsReachable (path_components from.entry) (path_components to.entry)) }
{
    let way = from.relative(alloc, to)?;
    let back = from.join_normalized(alloc, way.as_relative_path())?;
    Ok((back, to.normalize(alloc)?))
}

/// Returns the normal forms of both paths, and the length of the shortest base from which the paths
/// differ.
///
/// The two texts are the same exactly if, from every base, both paths climb above the top or both end
/// in the same place. Exactly then the third result is `None`. Allocates for each result. The only
/// error is lack of memory.
///
/// ```
/// let path = RelativePath::new("a//b");
/// let (normal, other, apart) = same_law(alloc, path, RelativePath::new("a/./b"))?;
/// assert!(rt; normal == other);
/// assert_eq!(rt; apart, None);
/// ```
pub fn same_law(
    alloc: Global,
    path: RelativePath<'_>,
    other: RelativePath<'_>,
) -> Result<(RelativePathBuf, RelativePathBuf, Option<usize>), AllocError>
    // first: the first path's normal text
    ensures path { IfOk result (λ r. IsNormalTextOf (path_components path.entry) r.0.text) }
    // second: the second path's normal text
    ensures other { IfOk result (λ r. IsNormalTextOf (path_components other.entry) r.1.text) }
    // third: the length of the shortest separating base
    ensures apart { IfOk result (λ r. (n : ℕ) → (r.2 ≡ Some n)
        ↔ LeadsApart (path_components path.entry) (path_components other.entry) n) }
    // the same text exactly if the paths are equivalent
    ensures texts { IfOk result (λ r. (r.0.text ≡ r.1.text)
        ↔ EndAlike (path_components path.entry) (path_components other.entry)) }
    // third: `None` exactly if the paths are equivalent
    ensures none { IfOk result (λ r. IsNone r.2
        ↔ EndAlike (path_components path.entry) (path_components other.entry)) }
{
    let normal = path.normalize(alloc)?;
    let other_normal = other.normalize(alloc)?;
    Ok((normal, other_normal, path.leads_apart(alloc, other)?))
}

/// Returns the shortest paths from `a` to `c`, from `a` to `b`, and from `b` to `c`. Each is empty if no
/// path leads there.
///
/// A path from `a` to `b`, followed by one from `b` to `c`, leads from `a` to `c`. So if both exist, the
/// shortest path from `a` to `c` has no more components than both together. Allocates for the three
/// results. The only error is lack of memory.
///
/// ```
/// let [a, b, c] = ["a/b", "a", "c"].map(RelativePath::new);
/// let (a_c, a_b, b_c) = triangle(alloc, a, b, c)?;
/// assert_eq!(rt; a_c.as_relative_path().as_str(), "../../c");
/// assert_eq!(rt; a_b.as_relative_path().as_str(), "..");
/// assert_eq!(rt; b_c.as_relative_path().as_str(), "../c");
/// ```
pub fn triangle(
    alloc: Global,
    a: RelativePath<'_>,
    b: RelativePath<'_>,
    c: RelativePath<'_>,
) -> Result<(RelativePathBuf, RelativePathBuf, RelativePathBuf), AllocError>
    // first: the shortest path from `a` to `c`, or empty
    ensures a_c { IfOk result
        (λ ways. IsWayText (path_components a.entry) (path_components c.entry) ways.0.text) }
    // second: the shortest path from `a` to `b`, or empty
    ensures a_b { IfOk result
        (λ ways. IsWayText (path_components a.entry) (path_components b.entry) ways.1.text) }
    // third: the shortest path from `b` to `c`, or empty
    ensures b_c { IfOk result
        (λ ways. IsWayText (path_components b.entry) (path_components c.entry) ways.2.text) }
    // paths from `a` to `b` and on to `c` lead to `c`
    ensures transitive { (r s : List Step)
        → Leads (path_components a.entry) r (path_components b.entry)
        → Leads (path_components b.entry) s (path_components c.entry)
        → Leads (path_components a.entry) (r ++ s) (path_components c.entry) }
    // the first has no more components than the others together, if those exist
    ensures triangle { IfOk result
        (λ ways. IsReachable (path_components a.entry) (path_components b.entry)
        → IsReachable (path_components b.entry) (path_components c.entry)
        → length (components ways.0.text)
        ≤ length (components ways.1.text) + length (components ways.2.text)) }
{
    let a_c = a.relative(alloc, c)?;
    let a_b = a.relative(alloc, b)?;
    Ok((a_c, a_b, b.relative(alloc, c)?))
}

/// Returns the shortest path from `from` to `to`, and the normal form of `from` followed by it. `None`
/// exactly if no path leads from `from` to `to`.
///
/// The second result has the normal text of `to`. Allocates for both. The only error is lack of
/// memory.
///
/// ```
/// let from = RelativePath::new("a/b");
/// let found = try_law(alloc, from, RelativePath::new("a/c"))?;
/// assert!(rt; found.is_some_and(|(way, _)| way.as_relative_path().as_str() == "../c"));
/// ```
pub fn try_law(
    alloc: Global,
    from: RelativePath<'_>,
    to: RelativePath<'_>,
) -> Result<Option<(RelativePathBuf, RelativePathBuf)>, AllocError>
    // `None` exactly if no path leads to the target
    ensures none { IfOk result (λ found. IsNone found
        ↔ (¬ IsReachable (path_components from.entry) (path_components to.entry))) }
    // first: the shortest path to the target
    ensures way { IfOk result (λ found. IfSome found (λ pair.
        IsShortestText (path_components from.entry) (path_components to.entry) pair.0.text)) }
    // second: the source and the first, normalised
    ensures there { IfOk result (λ found. IfSome found (λ pair.
        IsNormalTextOf (path_components from.entry ++ components pair.0.text) pair.1.text)) }
    // second: the target's normal text
    ensures to { IfOk result (λ found. IfSome found (λ pair.
        IsNormalTextOf (path_components to.entry) pair.1.text)) }
{
    let Some(way) = from.try_relative(alloc, to)? else {
        return Ok(None);
    };
    let there = from.join_normalized(alloc, way.as_relative_path())?;
    Ok(Some((way, there)))
}
