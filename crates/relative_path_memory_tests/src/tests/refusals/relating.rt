//! The way from one path to another, and where paths lead apart.
use super::long_text;
use super::marks::{begin, end, end_answered};
use super::rows::{Call, LONG, Making, check_rows};
use crate::tests::{same, text_of};
use relative_path::{RelativePath, RelativePathBuf};
use std::alloc::Global;
use std::test::Fail;

// Requests: 4s 4s 10 = 1, 1s 1 = 1, = 0, 524288s 1048576 = 1
#[test]
fn relative(rt: HostRuntime) -> Result<(), Fail> {
    check_rows(
        rt.alloc(),
        Call::Makes(Making::Relative),
        &[
            ("a/b/c/d", "a/b/e/ff", "../../e/ff"),
            ("", "a", "a"),
            ("", "", ""),
            ("", LONG, LONG),
        ],
    )
}

fn text_and_room(buf: &RelativePathBuf) -> (&str, usize) {
    (text_of(buf), buf.spare())
}

fn try_relative_of(
    alloc: Global,
    from: &str,
    to: &str,
    expected: Option<(&str, usize)>,
) -> Result<(), Fail> {
    begin(alloc);
    let answer = RelativePath::new(from).try_relative(alloc, RelativePath::new(to));
    match answer {
        Ok(way) => {
            end_answered(alloc);
            let found = way.as_ref().map(text_and_room);
            same("a way and its room", found, expected)
        }
        Err(_) => end(alloc, true),
    }
}

// Requests: 2s 2s 4 = 1, 1s 1s = 0, 1s 2 = 1, = 0, 524288s 1048576 = 1
#[test]
fn try_relative(rt: HostRuntime) -> Result<(), Fail> {
    let alloc = rt.alloc();
    try_relative_of(alloc, "a/b", "a/c", Some(("../c", 0)))?;
    try_relative_of(alloc, "..", "a", None)?;
    try_relative_of(alloc, "a", "", Some(("..", 0)))?;
    try_relative_of(alloc, "", "", Some(("", 0)))?;
    let long = long_text(alloc)?;
    try_relative_of(alloc, "", long.as_str(), Some((long.as_str(), 0)))
}

fn leads_apart_of(
    alloc: Global,
    text: &str,
    other: &str,
    apart: Option<usize>,
) -> Result<(), Fail> {
    begin(alloc);
    let answer = RelativePath::new(text).leads_apart(alloc, RelativePath::new(other));
    match answer {
        Ok(found) => {
            end_answered(alloc);
            same("leads_apart", found, apart)
        }
        Err(_) => end(alloc, true),
    }
}

// Requests: 2s 2s = 0, 1s = 0, = 0, 524288s 524288s = 0
#[test]
fn leads_apart(rt: HostRuntime) -> Result<(), Fail> {
    let alloc = rt.alloc();
    leads_apart_of(alloc, "../a", "../b", Some(1))?;
    leads_apart_of(alloc, "", "a", Some(0))?;
    leads_apart_of(alloc, "", "", None)?;
    let long = long_text(alloc)?;
    leads_apart_of(alloc, long.as_str(), long.as_str(), None)
}
