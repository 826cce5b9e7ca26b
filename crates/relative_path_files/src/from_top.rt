//! The places that paths lead to from the top.
ghost use Rattle.std.specs.Prelude.{◌≡◌, ◌≢◌, ◌↔◌, IfErr, IfOk, IfSome, IsNone, None};
ghost use Rattle.relative_path.specs.RelativePath.{path_components};
ghost use Rattle.relative_path.specs.Walk.{place_of};
ghost use Rattle.relative_path_files.specs.FromTop.{SpellsPlace};

use relative_path::{RelativePath, RelativePathBuf};
use std::alloc::{AllocError, Global};

/// Returns the place where a path leads from the top, as a path of the place's names. Returns `None` if the
/// path climbs above the top, even if it comes back. It looks at no name: [`crate::has_plain_names`] does.
///
/// Allocates once, unless the path climbs or is empty.
///
/// ```
/// let place = place_from_top(alloc, RelativePath::new("/a/./../b//c/"))?;
/// assert!(rt; place.is_some_and(|place| place.as_relative_path().as_str() == "b/c"));
/// assert!(rt; place_from_top(alloc, RelativePath::new("../a"))?.is_none());
/// ```
pub fn place_from_top(
    alloc: Global,
    path: RelativePath<'_>,
) -> Result<Option<RelativePathBuf>, AllocError>
    // `None` exactly if the path climbs above the top
    ensures none { IfOk result (λ found. IsNone found ↔ (place_of (path_components path.entry) ≡ None)) }
    // the names of its place from the top, joined by slashes
    ensures some { IfOk result (λ found. IfSome found
        (λ place. SpellsPlace (path_components path.entry) place.text)) }
    // it fails only for a path that doesn't climb
    ensures err { IfErr result (λ _. place_of (path_components path.entry) ≢ None) }
{
    if path.climb() > 0 {
        return Ok(None);
    }
    let mut place = RelativePathBuf::with_capacity(alloc, path.as_str().len())?;
    path.normalize_into(&mut place);
    Ok(Some(place))
}
