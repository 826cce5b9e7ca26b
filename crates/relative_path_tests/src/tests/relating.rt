//! The way from one path to another, and where paths lead apart.
use super::{may_give, same};
use relative_path::RelativePath;
use std::alloc::Global;
use std::test::Fail;

// A source, a target, and the way between them where there is one.
type Way = (&'static str, &'static str, Option<&'static str>);

const WAYS: [Way; 12] = [
    ("a/b/c/d", "a/b/e/f", Some("../../e/f")),
    (
        "foo/bar/bap/foo.h",
        "../arch/foo.h",
        Some("../../../../../arch/foo.h"),
    ),
    ("../arch/foo.h", "foo/bar/bap/foo.h", None),
    ("../a/../../foo/bar", "../../foo/baz", Some("../baz")),
    ("a", "a/.", Some("")),
    ("a/../aaa", "b/../bbb", Some("../bbb")),
    ("../../foo/relative-path", "bar", None),
    ("git", "git/relative-path", Some("relative-path")),
    ("git/relative-path", "git", Some("..")),
    ("../../foo/bar", "../../foo/baz", Some("../baz")),
    ("a/b", "a/c", Some("../c")),
    ("..", "a", None),
];

#[test]
fn finds_the_way(rt: HostRuntime) -> Result<(), Fail> {
    for (from, to, expected) in &WAYS {
        let way = RelativePath::new(from).try_relative(rt.alloc(), RelativePath::new(to));
        may_give(from, way, *expected)?;
    }
    Ok(())
}

const APART: [(&str, &str, Option<usize>); 6] = [
    ("..", "a", Some(0)),
    ("../a", "../b", Some(1)),
    ("a//b", "a/./b", None),
    ("a/..", "../b/..", Some(0)),
    ("../../x", "../y", Some(1)),
    ("a", "b", Some(0)),
];

/// Fails where two paths lead apart from another base on.
pub fn lead_apart(
    alloc: Global,
    text: &str,
    other: &str,
    expected: Option<usize>,
) -> Result<(), Fail> {
    let apart = RelativePath::new(text).leads_apart(alloc, RelativePath::new(other))?;
    same(text, apart, expected)
}

#[test]
fn leads_apart(rt: HostRuntime) -> Result<(), Fail> {
    for (text, other, expected) in &APART {
        lead_apart(rt.alloc(), text, other, *expected)?;
    }
    Ok(())
}
