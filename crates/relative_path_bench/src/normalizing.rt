//! Normal forms.
ghost use Rattle.std.specs.Prelude.{◌≡◌, ◌≤◌, ◌↔◌, List, ℕ, length, IfOk, IsTrue};
ghost use Rattle.relative_path.specs.Normalizing.{climb, IsNormal, IsNormalText, IsNormalTextOf};
ghost use Rattle.relative_path.specs.RelativePath.{path_text, path_components};
ghost use Rattle.relative_path.specs.Steps.{components};
ghost use Rattle.relative_path.specs.Walk.{IsSame};

use relative_path::{RelativePath, RelativePathBuf};
use std::alloc::{AllocError, Global};

/// Returns the normal form of the path, and the normal form of that.
///
/// Both results have the same text, which is no longer than the path's. Allocates for both. The only
/// error is lack of memory.
///
/// ```
/// let (once, twice) = normalize_twice(alloc, RelativePath::new("a/./b"))?;
/// assert_eq!(rt; once.as_relative_path().as_str(), "a/b");
/// assert_eq!(rt; twice.as_relative_path().as_str(), "a/b");
/// ```
pub fn normalize_twice(
    alloc: Global,
    path: RelativePath<'_>,
) -> Result<(RelativePathBuf, RelativePathBuf), AllocError>
    // first: the path's normal text
    ensures once { IfOk result (λ pair. IsNormalTextOf (path_components path.entry) pair.0.text) }
    // second: the first one's normal text
    ensures twice { IfOk result (λ pair. IsNormalTextOf (components pair.0.text) pair.1.text) }
    // both results have the same text
    ensures same { IfOk result (λ pair. pair.0.text ≡ pair.1.text) }
    // the first is no longer than the path
    ensures no_longer { IfOk result
        (λ pair. length pair.0.text ≤ length (path_text path.entry)) }
    // the first has normal components
    ensures normal_components { IfOk result (λ pair. IsNormal (components pair.0.text)) }
    // each normal text equivalent to the path is the first
    ensures only_normal_text { IfOk result (λ pair. (text : List ℕ) → IsNormalText text
        → IsSame (path_components path.entry) (components text) → text ≡ pair.0.text) }
{
    let once = path.normalize(alloc)?;
    let twice = once.as_relative_path().normalize(alloc)?;
    Ok((once, twice))
}

/// Returns whether the path is normalised, and the normal form of the path.
///
/// The path is normalised exactly if it has the components of its normal form. Allocates for the
/// normal form. The only error is lack of memory.
///
/// ```
/// let (is_normal, normal) = normalized_law(alloc, RelativePath::new("foo//bar"))?;
/// assert!(rt; is_normal);
/// assert_eq!(rt; normal.as_relative_path().as_str(), "foo/bar");
/// ```
pub fn normalized_law(
    alloc: Global,
    path: RelativePath<'_>,
) -> Result<(bool, RelativePathBuf), AllocError>
    // whether the path's components are normal
    ensures is_normal { IfOk result
        (λ pair. IsTrue pair.0 ↔ IsNormal (path_components path.entry)) }
    // second: the path's normal text
    ensures normal_form { IfOk result
        (λ pair. IsNormalTextOf (path_components path.entry) pair.1.text) }
    // whether the normal text has the path's components
    ensures equal { IfOk result
        (λ pair. IsTrue pair.0 ↔ (path_components path.entry ≡ components pair.1.text)) }
{
    let is_normal = path.is_normalized();
    let normal = path.normalize(alloc)?;
    Ok((is_normal, normal))
}

/// Returns how many names a base must have for the path to lead anywhere from it, and the normal form
/// of the path.
///
/// The normal form begins with as many `..`. Allocates for the normal form. The only error is lack
/// of memory.
///
/// ```
/// let (climb, normal) = climb_law(alloc, RelativePath::new("a/../../b"))?;
/// assert_eq!(rt; climb, 1);
/// assert_eq!(rt; normal.as_relative_path().as_str(), "../b");
/// ```
pub fn climb_law(
    alloc: Global,
    path: RelativePath<'_>,
) -> Result<(usize, RelativePathBuf), AllocError>
    // second: the path's normal text
    ensures normal_form { IfOk result
        (λ pair. IsNormalTextOf (path_components path.entry) pair.1.text) }
    // how many `..` the normal text begins with
    ensures climb { IfOk result (λ pair. pair.0 ≡ climb (components pair.1.text)) }
{
    let normal = path.normalize(alloc)?;
    Ok((path.climb(), normal))
}
