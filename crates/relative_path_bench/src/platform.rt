//! The path from one platform path to another.
ghost use Rattle.std.specs.Prelude.{◌≡◌, ◌≢◌, ◌↔◌, ◌++◌, List, None, Some, IfOk, IfErr, IsErrAnd};
ghost use Rattle.relative_path.specs.Error.{relative_to_kind};
ghost use Rattle.relative_path.specs.Steps.{Step, components, spell};
ghost use Rattle.relative_path.specs.Unix.{has_root, unix_components, way_to};
ghost use Rattle.relative_path.specs.Walk.{IsSame};
ghost use Rattle.relative_path.specs.declared.error.RelativeToErrorKind.TheVariants as kinds;

use relative_path::{RelativePathBuf, RelativeToError, unix};
use std::alloc::Global;

/// Returns the relative path from one platform path, the root, to another.
///
/// The root followed by the result leads where the other path leads, from every base. The call fails
/// if only one of the texts begins with a slash, and if the root climbs above what both begin with.
/// Otherwise it allocates for the result, and fails only if that allocation fails.
///
/// ```
/// let way = relative_to_law(alloc, "foo/bar", "./x")?;
/// assert_eq!(rt; way.as_relative_path().as_str(), "../foo/bar");
/// ```
pub fn relative_to_law(
    alloc: Global,
    path: &str,
    root: &str,
) -> Result<RelativePathBuf, RelativeToError>
    // as many `..` as the root's rest goes down, then the path's rest
    ensures text { IfOk result (λ answer. (way : List Step)
        × (way_to path.now root.now ≡ Some way) × (answer.text ≡ spell way)) }
    // `PrefixMismatch` exactly if only one has a root
    ensures prefix_mismatch { IsErrAnd result
        (λ error. relative_to_kind error ≡ kinds.PrefixMismatch)
        ↔ (has_root path.now ≢ has_root root.now) }
    // `AmbiguousTraversal` exactly if otherwise the root's rest climbs
    ensures ambiguous_traversal { IsErrAnd result
        (λ error. relative_to_kind error ≡ kinds.AmbiguousTraversal)
        ↔ ((has_root path.now ≡ has_root root.now) × (way_to path.now root.now ≡ None)) }
    // never `NonUtf8` or `IllegalComponent`
    ensures kind { IfErr result (λ error. relative_to_kind error ≢ kinds.NonUtf8
        × relative_to_kind error ≢ kinds.IllegalComponent) }
    // after the root, equivalent to the path
    ensures leads { IfOk result (λ answer. IsSame
        (unix_components root.now ++ components answer.text) (unix_components path.now)) }
{
    unix::relative_to(alloc, path, root)
}
