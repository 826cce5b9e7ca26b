//! File names, their stems and extensions, and parents.
ghost use Rattle.std.specs.Prelude.{◌≡◌, ◌↔◌, ◌++◌, [], ◌∷◌, Some, IfOk, IfSome, IsSome, IsTrue};
ghost use Rattle.std.specs.Option.{option_and_then, option_copied};
ghost use Rattle.relative_path.specs.Editing.{IsPopped};
ghost use Rattle.relative_path.specs.Naming.{file_name_of, stem_of, extension_of, is_plain_extension, IsStemAndExtension, IsExtended};
ghost use Rattle.relative_path.specs.RelativePath.{path_text, path_components};
ghost use Rattle.relative_path.specs.Steps.{name};
ghost use Rattle.relative_path_bench.specs.Naming.{without_last_curs};

use relative_path::{RelativePath, RelativePathBuf};
use std::alloc::{AllocError, Global};

/// Returns the file name, its stem and its extension. `None` exactly if the path has no file name.
///
/// The file name is the stem, or the stem, a dot and the extension if there is an extension. The
/// results are parts of the path. Allocates nothing.
///
/// ```
/// let parts = stem_law(RelativePath::new("a/foo.tar.gz"));
/// assert_eq!(rt; parts, Some(("foo.tar.gz", "foo.tar", Some("gz"))));
/// ```
pub fn stem_law(path: RelativePath<'_>) -> Option<(&str, &str, Option<&str>)>
    // `None` exactly without a file name
    ensures found { IsSome result ↔ IsSome (file_name_of (path_text path.entry)) }
    // the path's file name
    ensures file_name { IfSome result
        (λ parts. file_name_of (path_text path.entry) ≡ Some parts.0.now) }
    // the file name's stem
    ensures stem { IfSome result (λ parts. parts.1.now ≡ stem_of parts.0.now) }
    // the file name's extension, if any
    ensures extension { IfSome result (λ parts. option_copied parts.2 ≡ extension_of parts.0.now) }
    // the file name: the stem, then any extension after a dot
    ensures joined { IfSome result
        (λ parts. IsStemAndExtension parts.0.now parts.1.now (option_copied parts.2)) }
{
    let file_name = path.file_name()?;
    let stem = path.file_stem()?;
    Some((file_name, stem, path.extension()))
}

/// Returns a copy of the path with this extension in place of the path's own. `None` exactly if the
/// path has no file name. The extension has at least one byte, and has no dot and no slash.
///
/// The extension of the copy is this extension. Allocates for the copy. The only error is lack of
/// memory.
///
/// ```
/// let set = extension_law(alloc, RelativePath::new("foo.tar.gz"), "xz")?;
/// assert!(rt; set.is_some_and(|buf| buf.as_relative_path().as_str() == "foo.tar.xz"));
/// ```
pub fn extension_law(
    alloc: Global,
    path: RelativePath<'_>,
    extension: &str,
) -> Result<Option<RelativePathBuf>, AllocError>
    requires { IsTrue (is_plain_extension extension.now) }
    // `None` exactly without a file name
    ensures found { IfOk result
        (λ set. IsSome set ↔ IsSome (file_name_of (path_text path.entry))) }
    // the text up to its stem's end, then the dotted extension
    ensures text { IfOk result (λ set. IfSome set
        (λ buf. IsExtended (path_text path.entry) extension.now buf.text)) }
    // the result has this extension
    ensures extension { IfOk result (λ set. IfSome set (λ buf.
        option_and_then extension_of (file_name_of buf.text) ≡ Some extension.now)) }
{
    let mut buf = path.to_relative_path_buf(alloc)?;
    if buf.set_extension(extension)? {
        Ok(Some(buf))
    } else {
        Ok(None)
    }
}

/// Returns the parent and the file name. `None` exactly if the path has no file name.
///
/// The components of the parent, followed by the file name, are those of the path without each `.` at
/// its end. The results are parts of the path. Allocates nothing.
///
/// ```
/// let pair = parent_law(RelativePath::new("foo/./bar/."));
/// assert!(rt; pair.is_some_and(|(parent, name)| parent.as_str() == "foo/." && name == "bar"));
/// ```
pub fn parent_law(path: RelativePath<'_>) -> Option<(RelativePath<'_>, &str)>
    // `None` exactly without a file name
    ensures found { IsSome result ↔ IsSome (file_name_of (path_text path.entry)) }
    // the shortest prefix with the directory's components
    ensures parent { IfSome result (λ pair. IsPopped (path_text path.entry) (path_text pair.0)) }
    // the path's file name
    ensures file_name { IfSome result
        (λ pair. file_name_of (path_text path.entry) ≡ Some pair.1.now) }
    // both in turn: the path without each `.` at its end
    ensures joined { IfSome result (λ pair. path_components pair.0 ++ name pair.1.now ∷ []
        ≡ without_last_curs (path_components path.entry)) }
{
    let file_name = path.file_name()?;
    Some((path.parent()?, file_name))
}
