//! Platform paths, by their texts and as `Path` and `PathBuf`.
use super::marks::{begin, end, end_answered};
use super::rows::{Call, LONG, check_rows};
use crate::tests::{same, text_of};
use relative_path::{
    FromPathError, FromPathErrorKind, PathExt, RelativePath, RelativePathBuf, RelativeToError,
    RelativeToErrorKind, unix,
};
use std::alloc::{AllocError, Global};
use std::fmt::Debug;
use std::path::{Path, PathBuf};
use std::test::Fail;

// The mark after a call that failed with this kind of error. Fails if it isn't lack of memory.
fn end_out_of_memory<K: Copy + PartialEq + Debug + Drop>(
    alloc: Global,
    kind: K,
    out_of_memory: K,
) -> Result<(), Fail> {
    end(alloc, kind == out_of_memory)?;
    same("a kind", Some(kind), Some(out_of_memory))
}

// The mark after a call. Fails if no allocation failed and the result has another text.
fn end_with_path(
    alloc: Global,
    answer: Result<RelativePathBuf, FromPathError>,
    text: &str,
) -> Result<(), Fail> {
    match answer {
        Ok(path) => {
            end_answered(alloc);
            same("a path", text_of(&path), text)
        }
        Err(error) => end_out_of_memory(alloc, error.kind(), FromPathErrorKind::OutOfMemory),
    }
}

// The same of a way.
fn end_with_way(
    alloc: Global,
    answer: Result<RelativePathBuf, RelativeToError>,
    text: &str,
) -> Result<(), Fail> {
    match answer {
        Ok(way) => {
            end_answered(alloc);
            same("a way", (text_of(&way), way.spare()), (text, 0))
        }
        Err(error) => end_out_of_memory(alloc, error.kind(), RelativeToErrorKind::OutOfMemory),
    }
}

// The same of a platform path's text.
fn end_with_text(
    alloc: Global,
    answer: Result<String, AllocError>,
    text: &str,
) -> Result<(), Fail> {
    match answer {
        Ok(found) => {
            end_answered(alloc);
            same("a text", found.as_str(), text)
        }
        Err(_) => end(alloc, true),
    }
}

/// Of a `Path`, and of a text.
pub fn from_path_of(alloc: Global, text: &str, left: &str) -> Result<(), Fail> {
    begin(alloc);
    let answer = RelativePathBuf::from_path(alloc, Path::new(text));
    end_with_path(alloc, answer, left)?;
    begin(alloc);
    end_with_path(alloc, unix::from_path(alloc, text), left)
}

// Requests: 11 = 1, 11 = 1, = 0, = 0, 1048576 = 1, 1048576 = 1
#[test]
fn from_path(rt: HostRuntime) -> Result<(), Fail> {
    check_rows(
        rt.alloc(),
        Call::FromPath,
        &[("./a/./b//c/", "", "a/b/c"), ("", "", ""), (LONG, "", LONG)],
    )
}

fn kind_of(answer: Result<RelativePathBuf, FromPathError>) -> Option<FromPathErrorKind> {
    answer.as_ref().err().map(FromPathError::kind)
}

// Requests: = 0
#[test]
fn from_path_of_a_root(rt: HostRuntime) -> Result<(), Fail> {
    let alloc = rt.alloc();
    begin(alloc);
    let as_path = kind_of(RelativePathBuf::from_path(alloc, Path::new("/")));
    let as_text = kind_of(unix::from_path(alloc, "/"));
    end_answered(alloc);
    let expected = Some(FromPathErrorKind::NonRelative);
    same("a root", (as_path, as_text), (expected, expected))
}

/// After a `Path`, and after a text.
pub fn to_path_of(alloc: Global, text: &str, base: &str, joined: &str) -> Result<(), Fail> {
    let path = RelativePath::new(text);
    begin(alloc);
    let answer = path.to_path(alloc, Path::new(base));
    end_with_text(alloc, answer.map(PathBuf::into_string), joined)?;
    begin(alloc);
    end_with_text(alloc, unix::to_path(alloc, path, base), joined)
}

// Requests: 18 = 1, 18 = 1, 1 = 1, 1 = 1, 1048577 = 1, 1048577 = 1
#[test]
fn to_path(rt: HostRuntime) -> Result<(), Fail> {
    check_rows(
        rt.alloc(),
        Call::ToPath,
        &[
            ("/hello///world//", ".", "./hello/world"),
            ("", "", ""),
            (LONG, "", LONG),
        ],
    )
}

/// From a `Path`, and from a text.
pub fn to_logical_path_of(
    alloc: Global,
    text: &str,
    base: &str,
    reached: &str,
) -> Result<(), Fail> {
    let path = RelativePath::new(text);
    begin(alloc);
    let answer = path.to_logical_path(alloc, Path::new(base));
    end_with_text(alloc, answer.map(PathBuf::into_string), reached)?;
    begin(alloc);
    end_with_text(alloc, unix::to_logical_path(alloc, path, base), reached)
}

// Requests: 14 = 1, 14 = 1, 1 = 1, 1 = 1, 1048577 = 1, 1048577 = 1
#[test]
fn to_logical_path(rt: HostRuntime) -> Result<(), Fail> {
    check_rows(
        rt.alloc(),
        Call::ToLogicalPath,
        &[("../../x", "/a/./b", "//x"), ("", "", ""), (LONG, "", LONG)],
    )
}

// Of a `PathBuf`.
fn relative_to_of_a_buffer(alloc: Global, text: &str, root: &str, way: &str) -> Result<(), Fail> {
    let buf = PathBuf::from(String::from_str(alloc, text)?);
    begin(alloc);
    end_with_way(alloc, buf.relative_to(alloc, Path::new(root)), way)
}

/// Of a text, a `Path` and a `PathBuf`.
pub fn relative_to_of(alloc: Global, text: &str, root: &str, way: &str) -> Result<(), Fail> {
    begin(alloc);
    end_with_way(alloc, unix::relative_to(alloc, text, root), way)?;
    begin(alloc);
    let answer = Path::new(text).relative_to(alloc, Path::new(root));
    end_with_way(alloc, answer, way)?;
    relative_to_of_a_buffer(alloc, text, root, way)
}

// Requests: 13 = 1, 13 = 1, 13 = 1, = 0, = 0, = 0, 1048576 = 1, 1048576 = 1, 1048576 = 1
#[test]
fn relative_to(rt: HostRuntime) -> Result<(), Fail> {
    check_rows(
        rt.alloc(),
        Call::RelativeTo,
        &[
            ("some/path", "some/foo/bar/../baz/path", "../../../path"),
            ("", "", ""),
            (LONG, "", LONG),
        ],
    )
}

fn kind_of_way(answer: Result<RelativePathBuf, RelativeToError>) -> Option<RelativeToErrorKind> {
    answer.as_ref().err().map(RelativeToError::kind)
}

// Fails where a way isn't refused with this kind.
fn refuses_a_way(
    alloc: Global,
    text: &str,
    root: &str,
    kind: RelativeToErrorKind,
) -> Result<(), Fail> {
    begin(alloc);
    let as_path = kind_of_way(Path::new(text).relative_to(alloc, Path::new(root)));
    let as_text = kind_of_way(unix::relative_to(alloc, text, root));
    end_answered(alloc);
    same(text, (as_path, as_text), (Some(kind), Some(kind)))
}

// Requests: = 0
#[test]
fn relative_to_another_prefix(rt: HostRuntime) -> Result<(), Fail> {
    refuses_a_way(
        rt.alloc(),
        "foo",
        "/bar",
        RelativeToErrorKind::PrefixMismatch,
    )
}

// Requests: = 0
#[test]
fn relative_to_what_climbs(rt: HostRuntime) -> Result<(), Fail> {
    refuses_a_way(
        rt.alloc(),
        ".",
        "a/../..",
        RelativeToErrorKind::AmbiguousTraversal,
    )
}
