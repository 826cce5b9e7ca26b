//! Platform paths as texts, under the Unix rules for their components.
//!
//! A slash at the start is the root, and other slashes only separate. A `.` counts only at the start
//! of a path without a root. No call here asks the file system.
ghost use Rattle.std.specs.Prelude.{◌≡◌, ◌≢◌, ◌↔◌, ◌++◌, List, ℕ, IfOk, IfErr, IsErr, IsErrAnd, IsTrue, Some, None, false, if◌then◌else◌, string_bytes};
ghost use Rattle.std.specs.Path.{path_bytes, path_buf_bytes};
ghost use Rattle.relative_path.specs.Editing.{without_cur_dirs};
ghost use Rattle.relative_path.specs.Error.{from_path_kind, relative_to_kind};
ghost use Rattle.relative_path.specs.RelativePath.{path_text, path_components};
ghost use Rattle.relative_path.specs.Steps.{Step, components, spell};
ghost use Rattle.relative_path.specs.Unix.{has_root, unix_components, onto, way_to, IsLogical};
ghost use Rattle.relative_path.specs.Walk.{IsSame};
ghost use Rattle.relative_path.specs.declared.error.FromPathErrorKind.TheVariants as from_path_kinds;
ghost use Rattle.relative_path.specs.declared.error.RelativeToErrorKind.TheVariants as relative_to_kinds;

use crate::buf::RelativePathBuf;
use crate::error::{FromPathError, RelativeToError, RelativeToErrorKind};
use crate::path::RelativePath;
use crate::unix_components::{depth, has_root, without_shared};
pub use crate::unix_texts::parent_text;
use crate::unix_texts::{climbed_text, joined, joined_logically};
use std::alloc::{AllocError, Global};
use std::path::{Path, PathBuf};

/// Views a platform path as a relative path with the same text. Allocates nothing.
///
/// Fails with `NonRelative` if the platform path begins with a slash.
///
/// ```
/// assert_eq!(rt; unix::view("./foo//bar")?.as_str(), "./foo//bar");
/// ```
pub fn view(text: &str) -> Result<RelativePath<'_>, FromPathError>
    // it fails exactly for a leading slash
    ensures relative { IsErr result ↔ IsTrue (has_root text.now) }
    // a path with the same text
    ensures ok { IfOk result (λ path. path_text path ≡ text.now) }
    // the only error is `NonRelative`
    ensures kind { IfErr result (λ error. from_path_kind error ≡ from_path_kinds.NonRelative) }
{
    RelativePath::from_path(Path::new(text))
}

/// Returns the components of a platform path, without any `.`, joined by single slashes.
///
/// Fails with `NonRelative`, before it allocates, if the text begins with a slash. Otherwise the
/// call allocates once: as many bytes as the text has, if there are any. The only other error is
/// `OutOfMemory`.
///
/// ```
/// let path = unix::from_path(alloc, "./foo//bar/.")?;
/// assert_eq!(rt; path.as_relative_path().as_str(), "foo/bar");
/// ```
pub fn from_path(alloc: Global, text: &str) -> Result<RelativePathBuf, FromPathError>
    // no text with a leading slash succeeds
    ensures relative { IfOk result (λ path. has_root text.now ≡ false) }
    // the components but `.`, joined by single slashes
    ensures ok { IfOk result (λ path. path.text ≡ spell (without_cur_dirs (unix_components text.now))) }
    // `NonRelative` for a leading slash, else `OutOfMemory`
    ensures kind { IfErr result (λ error. from_path_kind error
        ≡ (if has_root text.now then from_path_kinds.NonRelative else from_path_kinds.OutOfMemory)) }
{
    RelativePathBuf::from_path(alloc, Path::new(text))
}

/// Returns `base` followed by the text of each component of `path`. A slash precedes each
/// component, except at the start of the result.
///
/// Allocates once: as many bytes as both texts have, and one more. The only error is lack of
/// memory.
///
/// ```
/// let path = unix::to_path(alloc, RelativePath::new("../bar//baz"), "/foo")?;
/// assert_eq!(rt; path.as_str(), "/foo/../bar/baz");
/// ```
pub fn to_path(alloc: Global, path: RelativePath<'_>, base: &str) -> Result<String, AllocError>
    ensures { IfOk result (λ text. string_bytes text ≡ onto base.now (path_components path.entry)) }
{
    joined(alloc, base, path.as_str())
}

/// Returns the platform path where `path` leads from `base`: each `.` is skipped, each `..` goes up
/// as [`parent_text`] does, and each name is added. A slash precedes a name, except at the start of
/// the result.
///
/// Allocates once: as many bytes as both texts have, and one more. The only error is lack of
/// memory.
///
/// ```
/// let path = unix::to_logical_path(alloc, RelativePath::new("../bar//baz"), "/foo")?;
/// assert_eq!(rt; path.as_str(), "//bar/baz");
/// ```
pub fn to_logical_path(
    alloc: Global,
    path: RelativePath<'_>,
    base: &str,
) -> Result<String, AllocError>
    ensures { IfOk result
        (λ text. IsLogical base.now (path_components path.entry) (string_bytes text)) }
{
    joined_logically(alloc, base, path.as_str())
}

/// Returns the relative path from `root` to `path`. The components that both begin with are
/// dropped. The result is then one `..` for each directory that the rest of `root` goes down,
/// followed by the rest of `path`.
///
/// Fails with `PrefixMismatch` if only one of the texts begins with a slash, and with
/// `AmbiguousTraversal` if the rest of `root` climbs above what both begin with; both errors come
/// before any allocation. Otherwise the call allocates once: the result at its exact length, if it
/// isn't empty. The only other error is `OutOfMemory`.
///
/// ```
/// let path = unix::relative_to(alloc, "/foo/qux", "/foo/bar/./baz")?;
/// assert_eq!(rt; path.as_relative_path().as_str(), "../../qux");
/// ```
pub fn relative_to(
    alloc: Global,
    path: &str,
    root: &str,
) -> Result<RelativePathBuf, RelativeToError>
    // `PrefixMismatch` exactly if only one has a root
    ensures prefix_mismatch { IsErrAnd result
        (λ error. relative_to_kind error ≡ relative_to_kinds.PrefixMismatch)
        ↔ (has_root path.now ≢ has_root root.now) }
    // `AmbiguousTraversal` exactly if otherwise the root's rest climbs
    ensures ambiguous_traversal { IsErrAnd result
        (λ error. relative_to_kind error ≡ relative_to_kinds.AmbiguousTraversal)
        ↔ ((has_root path.now ≡ has_root root.now) × (way_to path.now root.now ≡ None)) }
    // never `NonUtf8` or `IllegalComponent`
    ensures kind { IfErr result (λ error. relative_to_kind error ≢ relative_to_kinds.NonUtf8
        × relative_to_kind error ≢ relative_to_kinds.IllegalComponent) }
    // as many `..` as the root's rest goes down, then the path's rest
    ensures ok { IfOk result (λ answer. (way : List Step) × (way_to path.now root.now ≡ Some way)
        × (answer.text ≡ spell way)) }
    // after the root, equivalent to the path
    ensures leads { IfOk result (λ answer. IsSame
        (unix_components root.now ++ components answer.text) (unix_components path.now)) }
{
    if has_root(path) != has_root(root) {
        return Err(RelativeToErrorKind::PrefixMismatch.into());
    }
    let (path, root) = without_shared(path, root);
    let climb = depth(root).ok_or(RelativeToErrorKind::AmbiguousTraversal)?;
    let way = climbed_text(alloc, climb, path)?;
    Ok(way.into())
}

/// The call on platform paths that the standard library lacks.
///
/// [`Path`] and [`PathBuf`] implement the trait. It isn't meant for other types.
///
/// ```
/// let baz = Path::new("/foo/bar/baz");
/// let path = baz.relative_to(alloc, Path::new("/foo/bar/qux"))?;
/// assert_eq!(rt; path.as_relative_path().as_str(), "../baz");
/// ```
pub trait PathExt {
    ghost text: { Self → List ℕ };

    /// Returns the relative path from `root` to this platform path: what [`relative_to`] returns
    /// for their texts.
    fn relative_to(&self, alloc: Global, root: Path<'_>) -> Result<RelativePathBuf, RelativeToError>
        // `PrefixMismatch` exactly if only one has a root
        ensures prefix_mismatch { IsErrAnd result
            (λ error. relative_to_kind error ≡ relative_to_kinds.PrefixMismatch)
            ↔ (has_root (text self.now) ≢ has_root (path_bytes root.entry)) }
        // `AmbiguousTraversal` exactly if otherwise the root's rest climbs
        ensures ambiguous_traversal { IsErrAnd result
            (λ error. relative_to_kind error ≡ relative_to_kinds.AmbiguousTraversal)
            ↔ ((has_root (text self.now) ≡ has_root (path_bytes root.entry))
            × (way_to (text self.now) (path_bytes root.entry) ≡ None)) }
        // never `NonUtf8` or `IllegalComponent`
        ensures kind { IfErr result (λ error. relative_to_kind error ≢ relative_to_kinds.NonUtf8
            × relative_to_kind error ≢ relative_to_kinds.IllegalComponent) }
        // as many `..` as the root's rest goes down, then the path's rest
        ensures ok { IfOk result (λ answer. (way : List Step)
            × (way_to (text self.now) (path_bytes root.entry) ≡ Some way)
            × (answer.text ≡ spell way)) }
        // after the root, equivalent to the path
        ensures leads { IfOk result (λ answer. IsSame
            (unix_components (path_bytes root.entry) ++ components answer.text)
            (unix_components (text self.now))) };
}

impl PathExt for Path<'_> {
    // the platform path's text
    ghost text = { path_bytes };

    fn relative_to(
        &self,
        alloc: Global,
        root: Path<'_>,
    ) -> Result<RelativePathBuf, RelativeToError> {
        relative_to(alloc, self.as_str(), root.as_str())
    }
}

impl PathExt for PathBuf {
    // the platform path's text
    ghost text = { path_buf_bytes };

    fn relative_to(
        &self,
        alloc: Global,
        root: Path<'_>,
    ) -> Result<RelativePathBuf, RelativeToError> {
        self.as_path().relative_to(alloc, root)
    }
}
