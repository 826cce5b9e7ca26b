//! Normal forms.
use super::long_text;
use super::marks::{begin, end, end_answered};
use super::rows::{Call, LONG, Making, check_rows};
use crate::tests::{same, text_of};
use relative_path::{RelativePath, RelativePathBuf, WriteError, bytes};
use std::alloc::Global;
use std::test::Fail;

// Requests: 3s 10 = 1, 7s 3 = 1, 4s 19 = 1, 524288s 1048576 = 1, = 0, = 0
#[test]
fn normalize(rt: HostRuntime) -> Result<(), Fail> {
    check_rows(
        rt.alloc(),
        Call::Makes(Making::Normalize),
        &[
            ("aaa/bbb/cc", "", "aaa/bbb/cc"),
            ("a/.././b/../c/d", "", "c/d"),
            ("aaaa/bbbb/cccc/dddd/", "", "aaaa/bbbb/cccc/dddd"),
            (LONG, "", LONG),
            ("///", "", ""),
            ("", "", ""),
        ],
    )
}

pub fn normalize_into_of(alloc: Global, text: &str, normal: &str) -> Result<(), Fail> {
    let mut out = RelativePathBuf::with_capacity(alloc, text.len())?;
    begin(alloc);
    RelativePath::new(text).normalize_into(&mut out);
    end_answered(alloc);
    same("normalize_into", text_of(&out), normal)
}

// Requests: = 0, = 0, = 0
#[test]
fn normalize_into(rt: HostRuntime) -> Result<(), Fail> {
    check_rows(
        rt.alloc(),
        Call::NormalizeInto,
        &[
            ("a/.././b/../c/d", "", "c/d"),
            ("", "", ""),
            (LONG, "", LONG),
        ],
    )
}

// Normalises into `size` bytes, too few of which are left as they are. Fails if memory is lacking for a path that isn't
// longer than these bytes.
fn normalize_in_bytes_of(
    alloc: Global,
    text: &str,
    size: usize,
    expected: Result<&str, WriteError>,
) -> Result<(), Fail> {
    let mut out = vec![in alloc; b'#'; size]?;
    begin(alloc);
    let answer = bytes::normalize(alloc, RelativePath::new(text), &mut out);
    if size < text.len() && answer == Err(WriteError::OutOfMemory) {
        end(alloc, true)?;
        return same("unchanged", out.iter().all(|byte| *byte == b'#'), true);
    }
    end_answered(alloc);
    let written = answer.map(|len| out.get(..len).unwrap_or(b""));
    same("normalize", written, expected.map(str::as_bytes))
}

// Requests: = 0, = 0, 7s 3 = 0, 7s 3 = 0, = 0
#[test]
fn normalize_in_bytes(rt: HostRuntime) -> Result<(), Fail> {
    let alloc = rt.alloc();
    normalize_in_bytes_of(alloc, "a/.././b/../c/d", 15, Ok("c/d"))?;
    normalize_in_bytes_of(alloc, "///", 3, Ok(""))?;
    normalize_in_bytes_of(alloc, "a/.././b/../c/d", 3, Ok("c/d"))?;
    normalize_in_bytes_of(alloc, "a/.././b/../c/d", 2, Err(WriteError::NoRoom(3)))?;
    normalize_in_bytes_of(alloc, "", 0, Ok(""))
}

// Requests: 524288s 1048576 ~ 0
#[test]
fn normalize_in_as_many_bytes(rt: HostRuntime) -> Result<(), Fail> {
    let long = long_text(rt.alloc())?;
    let text = long.as_str();
    normalize_in_bytes_of(rt.alloc(), text, text.len(), Ok(text))
}

// Requests: 13s 6 = 1, 524288s 1048576 = 1, = 0
#[test]
fn join_normalized(rt: HostRuntime) -> Result<(), Fail> {
    check_rows(
        rt.alloc(),
        Call::Makes(Making::JoinNormalized),
        &[
            ("x/y", "../../a/b/../../../c/d/../e", "../c/e"),
            ("", LONG, LONG),
            ("", "", ""),
        ],
    )
}
