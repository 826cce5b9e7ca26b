//! File names and extensions.
use super::editing::end_with_room;
use super::marks::{begin, end, end_answered};
use super::rows::{Call, LONG, Making, check_rows};
use crate::tests::{same, text_of};
use relative_path::{RelativePath, RelativePathBuf};
use std::alloc::{AllocError, Global};
use std::test::Fail;

// Requests: 10 = 1, = 0, 1048576 = 1
#[test]
fn with_file_name(rt: HostRuntime) -> Result<(), Fail> {
    check_rows(
        rt.alloc(),
        Call::Makes(Making::WithFileName),
        &[
            ("tmp/foo.txt", "bar.rs", "tmp/bar.rs"),
            ("", "", ""),
            (LONG, "aa", LONG),
        ],
    )
}

// Requests: 10 = 1, = 0, 1048576 = 1
#[test]
fn with_extension(rt: HostRuntime) -> Result<(), Fail> {
    check_rows(
        rt.alloc(),
        Call::Makes(Making::WithExtension),
        &[
            ("foobar.rs", "txt", "foobar.txt"),
            ("", "", ""),
            (LONG, "", LONG),
        ],
    )
}

/// The mark after a file name is set. Fails if this name isn't the one left below the directory, or, if an allocation
/// failed, the first one.
pub fn end_with_name(
    alloc: Global,
    answer: Result<(), AllocError>,
    left: Option<&str>,
    file_name: &str,
    first: &str,
) -> Result<(), Fail> {
    match answer {
        Ok(()) => {
            end_answered(alloc);
            same("set_file_name", left, Some(file_name))
        }
        Err(_) => {
            end(alloc, true)?;
            same("set_file_name", left, Some(first))
        }
    }
}

// Sets the file name of a path, which stays if an allocation fails: the first name, in this directory.
fn set_file_name_of(
    alloc: Global,
    path: &str,
    directory: &str,
    first: &str,
    file_name: &str,
) -> Result<(), Fail> {
    let mut buf = RelativePathBuf::from_text(alloc, path)?;
    begin(alloc);
    let answer = buf.set_file_name(file_name);
    let left = text_of(&buf).strip_prefix(directory);
    end_with_name(alloc, answer, left, file_name, first)
}

// Requests: 10 = 0, = 0, 1048576 = 0
#[test]
fn set_file_name(rt: HostRuntime) -> Result<(), Fail> {
    let alloc = rt.alloc();
    let long = "b".repeat(alloc, 1_048_574)?;
    set_file_name_of(alloc, "f/b", "f/", "b", "barbarba")?;
    set_file_name_of(alloc, "f/b", "f/", "b", "")?;
    set_file_name_of(alloc, "f/b", "f/", "b", long.as_str())
}

// Requests: 4100 = 0
#[test]
fn set_a_long_file_name(rt: HostRuntime) -> Result<(), Fail> {
    let name = "b".repeat(rt.alloc(), 4_096)?;
    set_file_name_of(rt.alloc(), "foo/bar", "foo/", "bar", name.as_str())
}

// Requests: = 0
#[test]
fn set_file_name_that_fits(rt: HostRuntime) -> Result<(), Fail> {
    let mut buf = RelativePathBuf::from_text(rt.alloc(), "foo/bar")?;
    begin(rt.alloc());
    let answer = buf.set_file_name("baz");
    end_with_room(rt.alloc(), "set_file_name", answer, &buf, "foo/baz")
}

// The mark after the extension of `f/.` is set. Fails if it leaves another text.
fn end_extended(
    alloc: Global,
    answer: Result<bool, AllocError>,
    left: &str,
    extension: &str,
) -> Result<(), Fail> {
    match answer {
        Ok(is_set) => {
            end_answered(alloc);
            let added = left.strip_prefix("f.");
            same("set_extension", (is_set, added), (true, Some(extension)))
        }
        Err(_) => {
            end(alloc, true)?;
            same("refused", left, "f/.")
        }
    }
}

// Sets the extension of `f/.`, which stays if an allocation fails.
fn set_extension_of(alloc: Global, extension: &str) -> Result<(), Fail> {
    let mut buf = RelativePathBuf::from_text(alloc, "f/.")?;
    begin(alloc);
    let answer = buf.set_extension(extension);
    end_extended(alloc, answer, text_of(&buf), extension)
}

// Requests: 10 = 0, 1048576 = 0
#[test]
fn set_extension(rt: HostRuntime) -> Result<(), Fail> {
    let alloc = rt.alloc();
    set_extension_of(alloc, "barbarba")?;
    set_extension_of(alloc, "b".repeat(alloc, 1_048_574)?.as_str())
}

// A text, its room, an extension, the text after the extension is set, and the result.
const FITTING: [(&str, usize, &str, &str, bool); 5] = [
    ("foo", 7, "bar", "foo.bar", true),
    ("foo.txt", 7, "bar", "foo.bar", true),
    ("foo.bar", 7, "", "foo", true),
    ("foo/..", 6, "bar", "foo/..", false),
    ("", 0, "", "", false),
];

// The mark after that. Fails if the result is another, or it leaves another text.
fn end_fitting(
    alloc: Global,
    case: &str,
    answer: Result<bool, AllocError>,
    left: &str,
    expected: (bool, &str),
) -> Result<(), Fail> {
    end(alloc, answer.is_err())?;
    same(case, (answer.ok(), left), (Some(expected.0), expected.1))
}

// Sets an extension for which a buffer has the room.
fn set_extension_in(
    alloc: Global,
    text: &str,
    room: usize,
    extension: &str,
    expected: (bool, &str),
) -> Result<(), Fail> {
    let mut buf = RelativePathBuf::with_capacity(alloc, room)?;
    buf.push(RelativePath::new(text))?;
    begin(alloc);
    let answer = buf.set_extension(extension);
    end_fitting(alloc, text, answer, text_of(&buf), expected)
}

// Requests: = 0, = 0, = 0, = 0, = 0
#[test]
fn set_extension_that_fits(rt: HostRuntime) -> Result<(), Fail> {
    for (text, room, extension, left, is_set) in &FITTING {
        set_extension_in(rt.alloc(), text, *room, extension, (*is_set, left))?;
    }
    Ok(())
}
