//! What follows a prefix of a path.
ghost use Rattle.std.specs.Prelude.{◌≡◌, ◌↔◌, length, IfOk, IfSome, IsSome};
ghost use Rattle.relative_path.specs.Editing.{pushed};
ghost use Rattle.relative_path.specs.Prefixing.{StartsWith, IsDropped};
ghost use Rattle.relative_path.specs.RelativePath.{path_text, path_components};
ghost use Rattle.relative_path.specs.Steps.{components};

use relative_path::{RelativePath, RelativePathBuf};
use std::alloc::{AllocError, Global};

/// Returns what follows `base` in the path, and `base` joined with that. `None` exactly if the path
/// doesn't start with `base`.
///
/// The join equals the path, component by component. Allocates for the join. The only error is lack
/// of memory.
///
/// ```
/// let path = RelativePath::new("//foo/bar/");
/// let found = strip_law(alloc, path, RelativePath::new("foo"))?;
/// assert!(rt; found.is_some_and(|(rest, joined)| rest.as_str() == "bar/"
///     && joined.as_relative_path() == path));
/// ```
pub fn strip_law<'a>(
    alloc: Global,
    path: RelativePath<'a>,
    base: RelativePath<'_>,
) -> Result<Option<(RelativePath<'a>, RelativePathBuf)>, AllocError>
    // `Some` exactly if the path starts with the base
    ensures found { IfOk result (λ found. IsSome found
        ↔ StartsWith (path_components path.entry) (path_components base.entry)) }
    // first: what follows the base's components and their slashes
    ensures rest { IfOk result (λ found. IfSome found (λ pair. IsDropped (path_text path.entry)
        (length (path_components base.entry)) (path_text pair.0))) }
    // second: the first pushed onto the base
    ensures joined { IfOk result (λ found. IfSome found (λ pair. pair.1.text
        ≡ pushed (path_text base.entry) (path_text pair.0))) }
    // the second has the path's components
    ensures equal { IfOk result (λ found. IfSome found (λ pair. components pair.1.text
        ≡ path_components path.entry)) }
{
    let Ok(rest) = path.strip_prefix(base) else {
        return Ok(None);
    };
    let joined = base.join(alloc, rest)?;
    Ok(Some((rest, joined)))
}
