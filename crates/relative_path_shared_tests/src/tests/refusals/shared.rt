//! The forms that own or share a text, and the buffer's way to them.
use super::marks::{begin, end, end_answered};
use super::{Call, check_texts};
use crate::tests::{same, shows};
use relative_path::{RelativePath, RelativePathBuf};
use relative_path_shared::{BoxedRelativePath, BufExt, CowRelativePath, RcRelativePath};
use std::alloc::{AllocError, Global};
use std::boxed::BoxedStr;
use std::cmp::Ordering;
use std::hash::{DefaultHasher, Hash};
use std::test::Fail;

// The mark after a call. Fails if no allocation failed and the result has another text.
fn gives_box(
    alloc: Global,
    answer: Result<BoxedRelativePath, AllocError>,
    text: &str,
) -> Result<(), Fail> {
    match answer {
        Ok(boxed) => {
            end_answered(alloc);
            shows("a box", boxed.as_relative_path(), text)
        }
        Err(_) => end(alloc, true),
    }
}

/// Copies a text into a box.
pub fn boxed_from_text_of(alloc: Global, text: &str) -> Result<(), Fail> {
    begin(alloc);
    gives_box(alloc, BoxedRelativePath::from_text(alloc, text), text)
}

// Requests: 4 = 1, = 0, 1048576 = 1
#[test]
fn boxed_from_text(rt: HostRuntime) -> Result<(), Fail> {
    check_texts(rt.alloc(), Call::BoxedFromText)
}

/// Copies a box.
pub fn boxed_clone_of(alloc: Global, text: &str) -> Result<(), Fail> {
    let boxed = BoxedRelativePath::from_text(alloc, text)?;
    begin(alloc);
    gives_box(alloc, boxed.clone(alloc), text)
}

// Requests: 4 = 1, = 0, 1048576 = 1
#[test]
fn boxed_clone(rt: HostRuntime) -> Result<(), Fail> {
    check_texts(rt.alloc(), Call::BoxedClone)
}

// The mark after a call that takes no memory. Fails if there is no result or it has another text.
fn gives_taken_box(
    alloc: Global,
    answer: Result<BoxedRelativePath, RelativePathBuf>,
    text: &str,
) -> Result<(), Fail> {
    match answer {
        Ok(boxed) => {
            end_answered(alloc);
            shows("a box", boxed.as_relative_path(), text)
        }
        Err(_) => {
            end(alloc, true)?;
            Err(Fail::new("a box"))
        }
    }
}

/// Makes a buffer a box.
pub fn boxed_from_buf_of(alloc: Global, text: &str) -> Result<(), Fail> {
    let buf = RelativePathBuf::from_text(alloc, text)?;
    begin(alloc);
    gives_taken_box(alloc, BoxedRelativePath::from_buf(alloc, buf), text)
}

// Requests: = 0, = 0, = 0
#[test]
fn boxed_from_buf(rt: HostRuntime) -> Result<(), Fail> {
    check_texts(rt.alloc(), Call::BoxedFromBuf)
}

/// The same by the buffer's own call.
pub fn into_boxed_relative_path_of(alloc: Global, text: &str) -> Result<(), Fail> {
    let buf = RelativePathBuf::from_text(alloc, text)?;
    begin(alloc);
    gives_taken_box(alloc, buf.into_boxed_relative_path(alloc), text)
}

// Requests: = 0, = 0, = 0
#[test]
fn into_boxed_relative_path(rt: HostRuntime) -> Result<(), Fail> {
    check_texts(rt.alloc(), Call::IntoBoxedRelativePath)
}

/// Copies a text for its first owner.
pub fn rc_from_path_text_of(alloc: Global, text: &str) -> Result<(), Fail> {
    begin(alloc);
    match RcRelativePath::from_path_text(alloc, RelativePath::new(text)) {
        Ok(shared) => {
            end_answered(alloc);
            shows("from_path_text", shared.as_relative_path(), text)
        }
        Err(_) => end(alloc, true),
    }
}

// Requests: 4 40 = 2, 40 = 1, 1048576 40 = 2
#[test]
fn rc_from_path_text(rt: HostRuntime) -> Result<(), Fail> {
    check_texts(rt.alloc(), Call::RcFromPathText)
}

/// Gives a buffer's text to its first owner, or hands the buffer back.
pub fn rc_from_buf_of(alloc: Global, text: &str) -> Result<(), Fail> {
    let buf = RelativePathBuf::from_text(alloc, text)?;
    begin(alloc);
    match RcRelativePath::from_buf(alloc, buf) {
        Ok(shared) => {
            end_answered(alloc);
            shows("shared", shared.as_relative_path(), text)
        }
        Err(buf) => {
            end(alloc, true)?;
            shows("handed back", buf.as_relative_path(), text)
        }
    }
}

// Requests: 4 40 = 1, 40 = 1, 1048576 40 = 1
#[test]
fn rc_from_buf(rt: HostRuntime) -> Result<(), Fail> {
    check_texts(rt.alloc(), Call::RcFromBuf)
}

// The mark after a text is shared. Fails if an owner shows another text.
fn gives_second<E: Drop>(
    alloc: Global,
    answer: Result<RcRelativePath, E>,
    first: RelativePath<'_>,
    text: &str,
) -> Result<(), Fail> {
    match answer {
        Ok(second) => {
            end_answered(alloc);
            let found = [second.as_relative_path().as_str(), first.as_str()];
            same("the second owner and the first", &found, &[text; 2])
        }
        Err(_) => {
            end(alloc, true)?;
            Err(Fail::new("a second owner"))
        }
    }
}

/// Shares a text with a second owner.
pub fn rc_share_of(alloc: Global, text: &str) -> Result<(), Fail> {
    let first = RcRelativePath::from_path_text(alloc, RelativePath::new(text))?;
    begin(alloc);
    gives_second(alloc, first.share(), first.as_relative_path(), text)
}

// Requests: = 0, = 0, = 0
#[test]
fn rc_share(rt: HostRuntime) -> Result<(), Fail> {
    check_texts(rt.alloc(), Call::RcShare)
}

type Read = (bool, bool, Ordering);

// What comparing a path with another and hashing it gives.
fn read<T: Ord + Hash>(path: &T, other: &T) -> Read {
    path.hash(&mut DefaultHasher::new());
    (path == other, path < other, path.cmp(other))
}

// The calls that take no memory, of each form of this text.
fn takes_no_memory(
    alloc: Global,
    text: &str,
    bare: BoxedStr,
    buf: RelativePathBuf,
    boxed: &BoxedRelativePath,
    shared: &RcRelativePath,
) -> Result<(), Fail> {
    begin(alloc);
    let from_bare = BoxedRelativePath::from(bare);
    let owned = CowRelativePath::from(buf);
    let borrowed = CowRelativePath::from(boxed.as_relative_path());
    let found = (
        read(&from_bare, boxed),
        read(shared, shared),
        read(&owned, &borrowed),
    );
    let lens = [
        from_bare.as_relative_path().as_str().len(),
        shared.as_relative_path().as_str().len(),
        owned.as_relative_path().as_str().len(),
    ];
    end_answered(alloc);
    let alike = (true, false, Ordering::Equal);
    let expected = ((alike, alike, alike), [text.len(); 3]);
    same("compared, and lengths", &(found, lens), &expected)
}

/// Makes each form of this text, of which the calls take no memory.
pub fn asks_for_nothing_of(alloc: Global, text: &str) -> Result<(), Fail> {
    let boxed = BoxedRelativePath::from_text(alloc, text)?;
    let shared = RcRelativePath::from_path_text(alloc, RelativePath::new(text))?;
    let bare = BoxedStr::from_str(alloc, text)?;
    let buf = RelativePathBuf::from_text(alloc, text)?;
    takes_no_memory(alloc, text, bare, buf, &boxed, &shared)
}

// Requests: = 0, = 0, = 0
#[test]
fn asks_for_nothing(rt: HostRuntime) -> Result<(), Fail> {
    check_texts(rt.alloc(), Call::AsksForNothing)
}
