//! Texts in the caller's bytes.
use super::same;
use relative_path::{RelativePath, WriteError, bytes};
use std::alloc::Global;
use std::test::Fail;

// What each byte is before a call.
const UNWRITTEN: u8 = b'#';

// What a call returns that writes this text into so many bytes.
fn len_or_need(text: &str, size: usize) -> Result<usize, WriteError> {
    if size < text.len() {
        Err(WriteError::NoRoom(text.len()))
    } else {
        Ok(text.len())
    }
}

// Whether a text is at the start of the bytes, or nothing where it doesn't fit.
fn has_text_or_nothing(out: &[u8], text: &str) -> bool {
    match out.get(..text.len()) {
        Some(written) => written == text.as_bytes(),
        None => out.iter().all(|byte| *byte == UNWRITTEN),
    }
}

// Fails where a path has another normal form in these bytes.
fn normalizes_into(
    alloc: Global,
    path: RelativePath<'_>,
    normal: &str,
    out: &mut [u8],
) -> Result<(), Fail> {
    let expected = len_or_need(normal, out.len());
    same(path.as_str(), bytes::normalize(alloc, path, out), expected)?;
    same(path.as_str(), has_text_or_nothing(out, normal), true)
}

// Fails where it has another in so many bytes.
fn normalizes_in(
    alloc: Global,
    path: RelativePath<'_>,
    normal: &str,
    size: usize,
) -> Result<(), Fail> {
    let mut out = vec![in alloc; UNWRITTEN; size]?;
    normalizes_into(alloc, path, normal, &mut out)
}

/// Fails where a path has another normal form in the caller's bytes: as many as it has, as many as its normal form has,
/// and one less.
pub fn normalizes(alloc: Global, path: RelativePath<'_>, normal: &str) -> Result<(), Fail> {
    normalizes_in(alloc, path, normal, path.as_str().len())?;
    normalizes_in(alloc, path, normal, normal.len())?;
    normalizes_in(alloc, path, normal, normal.len().saturating_sub(1))
}

// A text, a path, and the text after its push.
type Push = (&'static str, &'static str, &'static str);

const PUSHES: [Push; 8] = [
    ("", "", ""),
    ("", "foo", "foo"),
    ("", "//foo", "/foo"),
    ("foo", "", "foo/"),
    ("foo", "bar", "foo/bar"),
    ("foo", "/bar", "foo/bar"),
    ("foo/", "/bar", "foo/bar"),
    ("é", "../ü", "é/../ü"),
];

// Fails where two pushes fill these bytes with another text than the row's, or with another than its first where they
// are too few.
fn pushes_onto(out: &mut [u8], row: Push) -> Result<(), Fail> {
    let (text, path, pushed) = row;
    let Ok(len) = bytes::push(out, 0, RelativePath::new(text)) else {
        return Err(Fail::new("too few bytes for the first text"));
    };
    let expected = len_or_need(pushed, out.len());
    let left = if expected.is_ok() { pushed } else { text };
    let answer = bytes::push(out, len, RelativePath::new(path));
    same(path, answer, expected)?;
    same(path, &*out, left.as_bytes())
}

fn pushes_in(alloc: Global, row: Push, size: usize) -> Result<(), Fail> {
    let mut out = vec![in alloc; UNWRITTEN; size]?;
    pushes_onto(&mut out, row)
}

#[test]
fn pushes_where_there_is_room(rt: HostRuntime) -> Result<(), Fail> {
    for row in &PUSHES {
        pushes_in(rt.alloc(), *row, row.2.len())?;
        pushes_in(rt.alloc(), *row, row.0.len())?;
    }
    Ok(())
}
