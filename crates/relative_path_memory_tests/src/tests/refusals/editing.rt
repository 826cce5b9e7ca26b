//! Copies, joins and pushes.
use super::marks::{begin, end, end_answered};
use super::rows::{Call, LONG, Making, check_rows, check_texts};
use super::{gives, long_text};
use crate::tests::{same, text_of};
use relative_path::{RelativePath, RelativePathBuf};
use std::alloc::{AllocError, Global};
use std::cmp::Ordering;
use std::fmt::InlineText;
use std::hash::{DefaultHasher, Hash, Hasher};
use std::test::Fail;

// A text of ten bytes.
const SHORT: &str = "//a/b/./c/";

// Requests: 10 = 1, = 0, 1048576 = 1
#[test]
fn from_text(rt: HostRuntime) -> Result<(), Fail> {
    check_texts(
        rt.alloc(),
        Call::Makes(Making::FromText),
        &[SHORT, "", LONG],
    )
}

fn with_capacity_of(alloc: Global, capacity: usize) -> Result<(), Fail> {
    begin(alloc);
    let answer = RelativePathBuf::with_capacity(alloc, capacity);
    match answer {
        Ok(buf) => {
            end_answered(alloc);
            same("length and room", (buf.len(), buf.spare()), (0, capacity))
        }
        Err(_) => end(alloc, true),
    }
}

// Requests: 10 = 1, = 0, 1048576 = 1
#[test]
fn with_capacity(rt: HostRuntime) -> Result<(), Fail> {
    let alloc = rt.alloc();
    with_capacity_of(alloc, 10)?;
    with_capacity_of(alloc, 0)?;
    with_capacity_of(alloc, 1_048_576)
}

pub fn clone_of(alloc: Global, text: &str) -> Result<(), Fail> {
    let buf = RelativePathBuf::from_text(alloc, text)?;
    begin(alloc);
    gives(alloc, buf.clone(), text)
}

// Requests: 10 = 1, = 0, 1048576 = 1
#[test]
fn clone(rt: HostRuntime) -> Result<(), Fail> {
    check_texts(rt.alloc(), Call::Clone, &[SHORT, "", LONG])
}

// Requests: 10 = 1, = 0, 1048576 = 1
#[test]
fn to_relative_path_buf(rt: HostRuntime) -> Result<(), Fail> {
    check_texts(
        rt.alloc(),
        Call::Makes(Making::ToRelativePathBuf),
        &[SHORT, "", LONG],
    )
}

// Requests: 10 = 1, = 0, 1048576 = 1
#[test]
fn join(rt: HostRuntime) -> Result<(), Fail> {
    check_rows(
        rt.alloc(),
        Call::Makes(Making::Join),
        &[
            ("foo/bar", "/az", "foo/bar/az"),
            ("", "", ""),
            ("", LONG, LONG),
        ],
    )
}

// The mark after a push onto `foo`. Fails if it leaves another text.
fn end_pushed(
    alloc: Global,
    answer: Result<(), AllocError>,
    left: &str,
    more: &str,
) -> Result<(), Fail> {
    match answer {
        Ok(()) => {
            end_answered(alloc);
            same("pushed", left.strip_prefix("foo/"), Some(more))
        }
        Err(_) => {
            end(alloc, true)?;
            same("refused", left, "foo")
        }
    }
}

/// Pushes onto `foo`, which stays if an allocation fails.
pub fn push_of(alloc: Global, more: &str) -> Result<(), Fail> {
    let mut buf = RelativePathBuf::from_text(alloc, "foo")?;
    begin(alloc);
    let answer = buf.push(RelativePath::new(more));
    end_pushed(alloc, answer, text_of(&buf), more)
}

// Requests: 10 = 0, 8 = 0, 1048580 = 0
#[test]
fn push(rt: HostRuntime) -> Result<(), Fail> {
    check_texts(rt.alloc(), Call::Push, &["barbaz", "", LONG])
}

/// The mark after a call on a buffer that has room for it. Fails where it leaves another text.
pub fn end_with_room(
    alloc: Global,
    case: &str,
    answer: Result<(), AllocError>,
    buf: &RelativePathBuf,
    text: &str,
) -> Result<(), Fail> {
    end(alloc, answer.is_err())?;
    same(case, text_of(buf), text)
}

// A push and an `extend` of a buffer that has room for them.
// Requests: = 0, = 0
#[test]
fn fits(rt: HostRuntime) -> Result<(), Fail> {
    let alloc = rt.alloc();
    let mut buf = RelativePathBuf::with_capacity(alloc, 15)?;
    begin(alloc);
    let pushed = buf.push(RelativePath::new("foo"));
    end_with_room(alloc, "push", pushed, &buf, "foo")?;
    let paths = ["bar", "baz", "qux"].map(RelativePath::new);
    begin(alloc);
    let extended = buf.extend(paths);
    end_with_room(alloc, "extend", extended, &buf, "foo/bar/baz/qux")
}

// Pops two names off `foo/bar` and a longer name.
fn pop_two(alloc: Global, buf: &mut RelativePathBuf) -> Result<(), Fail> {
    begin(alloc);
    let popped = (buf.pop(), buf.pop());
    end_answered(alloc);
    same("pop", (popped, text_of(buf)), ((true, true), "foo"))
}

// A long name goes.
// Requests: = 0
#[test]
fn pop(rt: HostRuntime) -> Result<(), Fail> {
    let name = "b".repeat(rt.alloc(), 1_048_576)?;
    let mut buf = RelativePathBuf::from_text(rt.alloc(), "foo/bar")?;
    buf.push(RelativePath::new(name.as_str()))?;
    pop_two(rt.alloc(), &mut buf)
}

fn sizes_of(buf: &RelativePathBuf) -> (usize, usize, usize) {
    let text_len = buf.as_relative_path().as_str().len();
    (buf.len(), buf.spare(), text_len)
}

fn compared(buf: &RelativePathBuf, other: &RelativePathBuf) -> (bool, bool, Ordering) {
    let mut state = DefaultHasher::new();
    buf.hash(&mut state);
    (buf == other, buf < other, buf.cmp(other))
}

// How much of what a buffer prints fits into 32 bytes, and of what another prints for debugging.
fn printed(buf: &RelativePathBuf, other: &RelativePathBuf) -> (usize, usize) {
    let printed = InlineText::<32>::of(buf);
    let shown = InlineText::<32>::of(&format_args!("{other:?}"));
    (printed.as_str().len(), shown.as_str().len())
}

// A buffer of this text and with room to spare.
fn roomy(alloc: Global, text: &str) -> Result<RelativePathBuf, AllocError> {
    let mut roomy = String::with_capacity(alloc, text.len().saturating_add(8))?;
    roomy.push_str(text)?;
    Ok(RelativePathBuf::from(roomy))
}

// The calls of a buffer that take no memory: of one with this text and with room to spare, and another of this text.
fn takes_no_memory(
    alloc: Global,
    text: &str,
    buf: RelativePathBuf,
    other: &RelativePathBuf,
) -> Result<(), Fail> {
    begin(alloc);
    let empty_len = text_of(&RelativePathBuf::new(alloc)).len();
    let found = (
        empty_len,
        sizes_of(&buf),
        compared(&buf, other),
        printed(&buf, other),
    );
    let taken = String::from(RelativePathBuf::from(buf.into_string()));
    end_answered(alloc);
    let sizes = (text.len(), 8, text.len());
    let lens = (32.min(text.len()), 32.min(text.len() + 2));
    let expected = (0, sizes, (true, false, Ordering::Equal), lens);
    same(
        "an empty text, sizes, compared, printed and taken",
        (found, taken.as_str()),
        (expected, text),
    )
}

pub fn asks_for_nothing_of(alloc: Global, text: &str) -> Result<(), Fail> {
    let buf = roomy(alloc, text)?;
    let other = RelativePathBuf::from_text(alloc, text)?;
    takes_no_memory(alloc, text, buf, &other)
}

// Requests: = 0, = 0, = 0
#[test]
fn asks_for_nothing(rt: HostRuntime) -> Result<(), Fail> {
    check_texts(rt.alloc(), Call::AsksForNothing, &[SHORT, "", LONG])
}

fn from_paths_of(alloc: Global, texts: [&str; 4], text: &str) -> Result<(), Fail> {
    let paths = texts.map(RelativePath::new);
    begin(alloc);
    let answer = RelativePathBuf::from_paths(alloc, paths);
    match answer {
        Ok(buf) => {
            end_answered(alloc);
            same("from_paths", text_of(&buf), text)
        }
        Err(_) => end(alloc, true),
    }
}

// Requests: 8 = 1, = 0, 1048576 = 1
#[test]
fn from_paths(rt: HostRuntime) -> Result<(), Fail> {
    let alloc = rt.alloc();
    from_paths_of(alloc, ["a", "/b", "", "c"], "a/b/c")?;
    from_paths_of(alloc, [""; 4], "")?;
    let long = long_text(alloc)?;
    from_paths_of(alloc, ["", "", "", long.as_str()], long.as_str())
}

// Requests: = 0
#[test]
fn extend_by_empty_paths(rt: HostRuntime) -> Result<(), Fail> {
    let mut buf = RelativePathBuf::new(rt.alloc());
    begin(rt.alloc());
    let answer = buf.extend([""; 2].map(RelativePath::new));
    end_with_room(rt.alloc(), "extend", answer, &buf, "")
}

/// A slash and 4,096 letters.
pub fn long_name(alloc: Global) -> Result<String, AllocError> {
    let mut name = "/".to_string(alloc)?;
    name.push_str("b".repeat(alloc, 4_096)?.as_str())?;
    Ok(name)
}

// Whether an `extend` of the empty path, with room for `a`, by `a`, the long name and `c` may leave
// this text, and this path to take: the pushes before the refused one are done, and the paths after
// it are still there.
fn is_left(answer: Result<(), AllocError>, text: &str, name: &str, left: Option<&str>) -> bool {
    match (answer, text) {
        (Err(_), "a") => left == Some("c"),
        (Err(_), text) => left.is_none() && text.strip_prefix("a") == Some(name),
        (Ok(()), text) => {
            let between = text.strip_prefix("a").unwrap_or("").strip_suffix("/c");
            left.is_none() && between == Some(name)
        }
    }
}

/// The mark after such an `extend`. Fails where it may not leave this buffer and this path.
pub fn end_extended(
    alloc: Global,
    answer: Result<(), AllocError>,
    buf: &RelativePathBuf,
    name: &str,
    left: Option<RelativePath<'_>>,
) -> Result<(), Fail> {
    end(alloc, answer.is_err())?;
    let left = left.map(RelativePath::as_str);
    let is_right = is_left(answer, text_of(buf), name, left);
    same("extend", is_right, true)
}

fn extend_by(alloc: Global, name: &str) -> Result<(), Fail> {
    let paths = ["a", name, "c"].map(RelativePath::new);
    let mut lent = paths.iter().copied();
    let mut buf = RelativePathBuf::with_capacity(alloc, 1)?;
    begin(alloc);
    let answer = buf.extend(&mut lent);
    end_extended(alloc, answer, &buf, name, lent.next())
}

// Requests: 4098 8196 = 0
#[test]
fn extend(rt: HostRuntime) -> Result<(), Fail> {
    extend_by(rt.alloc(), long_name(rt.alloc())?.as_str())
}
