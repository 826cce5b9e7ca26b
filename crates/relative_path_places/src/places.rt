//! Whether a path leads to a place from the top, and the directory of a file.
ghost use Rattle.std.specs.Prelude.{◌≡◌, ◌↔◌, IsSome, IsTrue};
ghost use Rattle.relative_path.specs.Editing.{IsPopped};
ghost use Rattle.relative_path.specs.RelativePath.{path_text, path_components};
ghost use Rattle.relative_path.specs.Walk.{place_of};
ghost use Rattle.relative_path_places.specs.Places.{directory};

use relative_path::RelativePath;

/// Returns whether a path leads to a place from the top. A path that climbs above its start doesn't.
///
/// A path with a place from the top stays below every base: it leads to that place below the base.
/// Allocates nothing.
///
/// ```
/// assert!(rt; has_place(RelativePath::new("a/../b")));
/// assert!(rt; !has_place(RelativePath::new("a/../../b")));
/// ```
pub fn has_place(path: RelativePath<'_>) -> bool
    ensures { IsTrue result ↔ IsSome (place_of (path_components path.entry)) }
{
    path.climb() == 0
}

/// Returns the directory of a file, which is where the file's references start. It is the parent of the
/// path, or the path itself if that is empty.
///
/// The result is a part of the path. Allocates nothing.
///
/// ```
/// let file = RelativePath::new("docs/guide/start.md");
/// assert_eq!(rt; directory(file).as_str(), "docs/guide");
/// assert_eq!(rt; directory(RelativePath::new("start.md")).as_str(), "");
/// ```
pub fn directory<'a>(file: RelativePath<'a>) -> RelativePath<'a>
    // the components of the directory
    ensures components { path_components result ≡ directory (path_components file.entry) }
    // the shortest prefix with the directory's components
    ensures text { IsPopped (path_text file.entry) (path_text result) }
{
    file.parent().unwrap_or(file)
}
