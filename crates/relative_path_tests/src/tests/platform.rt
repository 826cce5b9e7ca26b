//! Platform paths, by their texts and as `Path` and `PathBuf`.
use super::{gives_text, same, text_of};
use relative_path::{
    FromPathError, FromPathErrorKind, PathExt, RelativePath, RelativePathBuf, RelativeToError,
    RelativeToErrorKind, unix,
};
use std::alloc::{AllocError, Global};
use std::fmt::{Debug, Display};
use std::path::{Path, PathBuf};
use std::test::Fail;

// A text, and what going up leaves of it.
const PARENTS: [(&str, &str); 10] = [
    ("foo/./bar", "foo"),
    ("/foo", "/"),
    ("//foo", "/"),
    (".", ""),
    ("./foo", "."),
    ("a/../", "a"),
    ("/", "/"),
    ("", ""),
    ("/./é//./日本/.", "/./é"),
    ("///.//", "///.//"),
];

#[test]
fn goes_up_on_platform_texts() -> Result<(), Fail> {
    for (text, parent) in &PARENTS {
        same(text, unix::parent_text(text), *parent)?;
    }
    Ok(())
}

// A platform path that begins with no slash, and the relative path made of it.
const RELATIVES: [(&str, &str); 7] = [
    ("./a/./b//c/", "a/b/c"),
    ("a/./b", "a/b"),
    ("", ""),
    (".", ""),
    ("foo/bar", "foo/bar"),
    ("../é//..", "../é/.."),
    ("a\\b/c:", "a\\b/c:"),
];

// Fails where the view of a text or of its `Path` has another text, or the relative path made of the text.
fn makes(alloc: Global, text: &str, expected: &str) -> Result<(), Fail> {
    same(text, unix::view(text)?.as_str(), text)?;
    same(
        text,
        RelativePath::from_path(Path::new(text))?.as_str(),
        text,
    )?;
    let made = unix::from_path(alloc, text)?;
    same(text, text_of(&made), expected)
}

#[test]
fn makes_relative_paths(rt: HostRuntime) -> Result<(), Fail> {
    for (text, expected) in &RELATIVES {
        makes(rt.alloc(), text, expected)?;
    }
    Ok(())
}

// Fails if the error isn't that of a root.
fn refuses_a_root<T: Drop>(case: &str, answer: Result<T, FromPathError>) -> Result<(), Fail> {
    let refused = answer.err().ok_or("a refusal")?;
    same(case, refused.kind(), FromPathErrorKind::NonRelative)
}

#[test]
fn refuses_roots(rt: HostRuntime) -> Result<(), Fail> {
    for text in &["/", "/foo/bar", "///", "/."] {
        refuses_a_root(text, unix::view(text))?;
        refuses_a_root(text, RelativePath::from_path(Path::new(text)))?;
        refuses_a_root(text, unix::from_path(rt.alloc(), text))?;
    }
    Ok(())
}

// A relative path, a platform path, and the first after the second.
const BEHIND: [(&str, &str, &str); 7] = [
    ("foo", "/", "//foo"),
    ("c:\\bar\\baz", "foo", "foo/c:\\bar\\baz"),
    ("/hello///world//", ".", "./hello/world"),
    ("foo/bar", "", "foo/bar"),
    ("/bar/baz", "foo", "foo/bar/baz"),
    ("./a/..", "é/", "é//./a/.."),
    ("///", "", ""),
];

#[test]
fn puts_paths_after_platform_paths(rt: HostRuntime) -> Result<(), Fail> {
    for (text, base, expected) in &BEHIND {
        let made = unix::to_path(rt.alloc(), RelativePath::new(text), base);
        gives_text(text, made, expected)?;
    }
    Ok(())
}

// A relative path, a platform path, and where the first leads from the second.
const LOGICAL: [(&str, &str, &str); 8] = [
    ("../../x", "/a/./b", "//x"),
    ("..", ".", ""),
    ("..", "/", "/"),
    ("..", "", ""),
    ("..", "foo/bar", "foo"),
    ("/bar/baz", "foo", "foo/bar/baz"),
    ("foo/bar", "", "foo/bar"),
    ("./..//x/.", "é/日本/", "é/x"),
];

#[test]
fn leads_from_platform_paths(rt: HostRuntime) -> Result<(), Fail> {
    for (text, base, expected) in &LOGICAL {
        let made = unix::to_logical_path(rt.alloc(), RelativePath::new(text), base);
        gives_text(text, made, expected)?;
    }
    Ok(())
}

const AMBIGUOUS: &str = "! path traversal cannot be determined";

// The result of `relative_to`, as a text.
fn shown(
    alloc: Global,
    answer: Result<RelativePathBuf, RelativeToError>,
) -> Result<String, AllocError> {
    match answer {
        Ok(path) => Ok(path.into_string()),
        Err(error) => format!(in alloc; "! {error}"),
    }
}

// The same of a `PathBuf`.
fn way_to_buffer(alloc: Global, path: &str, root: &str) -> Result<String, AllocError> {
    let owned = PathBuf::from(String::from_str(alloc, path)?);
    shown(alloc, owned.relative_to(alloc, Path::new(root)))
}

// Fails if a form of `relative_to` doesn't return this.
fn leads(alloc: Global, path: &str, root: &str, expected: &str) -> Result<(), Fail> {
    let way = shown(alloc, unix::relative_to(alloc, path, root));
    gives_text(path, way, expected)?;
    let way = shown(alloc, Path::new(path).relative_to(alloc, Path::new(root)));
    gives_text(path, way, expected)?;
    gives_text(path, way_to_buffer(alloc, path, root), expected)
}

// A path, a root, and the path from the root to the first path, or the words of an error. But for the last two, the
// original crate returns something else here. Where the path has nothing left of its own, it climbs once for each
// component of the root, `.` and `..` too. Where the root's own part begins with `.`, it writes the path's first component
// before the climb.
const WAYS: [(&str, &str, &str); 12] = [
    ("", ".", ""),
    ("", "./a", ".."),
    ("", "..", AMBIGUOUS),
    ("", "../..", AMBIGUOUS),
    ("foo", "foo/..", AMBIGUOUS),
    ("foo", "foo/a/..", ""),
    ("/", "/a/../b", ".."),
    ("foo/bar", "./x", "../foo/bar"),
    ("a/b/c", "./x/y", "../../a/b/c"),
    ("a", "./x/..", "a"),
    ("é/ü", "é/日本//.", "../ü"),
    ("foo", "/bar", "! paths contain different absolute prefixes"),
];

#[test]
fn finds_ways_to_paths(rt: HostRuntime) -> Result<(), Fail> {
    for (path, root, expected) in &WAYS {
        leads(rt.alloc(), path, root, expected)?;
    }
    Ok(())
}

// Fails if an error isn't equal to its clone, or doesn't print these words as a text does: as they are, in a width and a
// precision that hold them, and in a width that they don't fill.
fn tells<T: Clone + Drop + PartialEq + Debug + Display>(
    alloc: Global,
    error: &T,
    words: &str,
) -> Result<(), Fail> {
    same(words, &error.clone()?, error)?;
    let expected = format!(in alloc; "{words}|{words}|{words:*>48}")?;
    let printed = format!(in alloc; "{error}|{error:5.99}|{error:*>48}");
    gives_text(words, printed, expected.as_str())
}

// Kinds of errors, and what an error of the kind prints.
const FROM_PATH_KINDS: [(FromPathErrorKind, &str); 4] = [
    (
        FromPathErrorKind::NonRelative,
        "path contains non-relative component",
    ),
    (
        FromPathErrorKind::NonUtf8,
        "path contains non-utf8 component",
    ),
    (
        FromPathErrorKind::BadSeparator,
        "path contains platform-specific path separator",
    ),
    (FromPathErrorKind::OutOfMemory, "out of memory"),
];

#[test]
fn tells_why_a_path_is_not_relative(rt: HostRuntime) -> Result<(), Fail> {
    for (kind, words) in &FROM_PATH_KINDS {
        let error = FromPathError::from(*kind);
        same(words, error.kind(), *kind)?;
        tells(rt.alloc(), &error, words)?;
    }
    Ok(())
}

#[test]
fn reasons_why_a_path_is_not_relative_differ() -> Result<(), Fail> {
    for (kind, words) in &FROM_PATH_KINDS {
        for (other, _) in &FROM_PATH_KINDS {
            let is_same = FromPathError::from(*kind) == FromPathError::from(*other);
            same(words, is_same, kind == other)?;
        }
    }
    Ok(())
}

// The same of the kinds of the other error.
const RELATIVE_TO_KINDS: [(RelativeToErrorKind, &str); 5] = [
    (
        RelativeToErrorKind::NonUtf8,
        "path contains non-utf8 component",
    ),
    (
        RelativeToErrorKind::PrefixMismatch,
        "paths contain different absolute prefixes",
    ),
    (
        RelativeToErrorKind::AmbiguousTraversal,
        "path traversal cannot be determined",
    ),
    (
        RelativeToErrorKind::IllegalComponent,
        "path contains illegal components",
    ),
    (RelativeToErrorKind::OutOfMemory, "out of memory"),
];

#[test]
fn tells_why_no_way_leads_to_a_path(rt: HostRuntime) -> Result<(), Fail> {
    for (kind, words) in &RELATIVE_TO_KINDS {
        let error = RelativeToError::from(*kind);
        same(words, error.kind(), *kind)?;
        tells(rt.alloc(), &error, words)?;
    }
    Ok(())
}

#[test]
fn reasons_why_no_way_leads_to_a_path_differ() -> Result<(), Fail> {
    for (kind, words) in &RELATIVE_TO_KINDS {
        for (other, _) in &RELATIVE_TO_KINDS {
            let is_same = RelativeToError::from(*kind) == RelativeToError::from(*other);
            same(words, is_same, kind == other)?;
        }
    }
    Ok(())
}
