//! Normal forms, also in a buffer and in the caller's bytes, and how far paths climb.
use super::{bytes, gives, same, text_of};
use relative_path::{Component, RelativePath, RelativePathBuf};
use std::alloc::{AllocError, Global};
use std::test::Fail;

// Between blanks: texts whose normal forms the stored lines of `conformance` have.
const TEXTS: &str =
    " . /// a/.././b/../c/d a/../../.. ../a/../../b ./a/b/../../../c/.. ../foo/./bar/../baz.txt é/../ü.ö foo//bar \
    ..../.../.. a\\b/.. x/y/../../a/b/../../../c/d/../e foo/bar/../foo/bar ../foo/bar/../baz.txt a//b/. 日本/é/../ü/./語";

// By the call that fills a buffer.
fn filled_with_normal_form(
    alloc: Global,
    path: RelativePath<'_>,
) -> Result<RelativePathBuf, AllocError> {
    let mut filled = RelativePathBuf::with_capacity(alloc, path.as_str().len())?;
    path.normalize_into(&mut filled);
    Ok(filled)
}

/// Fails where a text has another normal form, by the call that makes a buffer, by the one that fills it, or by the one
/// that writes into bytes.
pub fn normalizes(alloc: Global, text: &str, normal: &str) -> Result<(), Fail> {
    let path = RelativePath::new(text);
    gives(text, path.normalize(alloc), normal)?;
    gives(text, filled_with_normal_form(alloc, path), normal)?;
    bytes::normalizes(alloc, path, normal)
}

fn is_up(component: &Component<'_>) -> bool {
    *component == Component::ParentDir
}

/// Fails where the calls make different normal forms of a text, or a path climbs by another number than its normal form
/// has steps up.
pub fn normalizes_in_each_way(alloc: Global, text: &str) -> Result<(), Fail> {
    let path = RelativePath::new(text);
    let normal = path.normalize(alloc)?;
    normalizes(alloc, text, text_of(&normal))?;
    let ups = normal.as_relative_path().components().filter(is_up);
    same(text, path.climb(), ups.count())
}

#[test]
fn makes_one_normal_form(rt: HostRuntime) -> Result<(), Fail> {
    for text in TEXTS.split(' ') {
        normalizes_in_each_way(rt.alloc(), text)?;
    }
    Ok(())
}

#[test]
fn control_characters_stay(rt: HostRuntime) -> Result<(), Fail> {
    normalizes(rt.alloc(), "é\0/./\n日\0.\nü/", "é\0/\n日\0.\nü")
}
