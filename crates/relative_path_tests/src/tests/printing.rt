//! What paths, components and errors print.
use super::gives_text;
use relative_path::{
    Component, FromPathError, FromPathErrorKind, RelativePath, RelativePathBuf, RelativeToError,
    RelativeToErrorKind,
};
use std::alloc::Global;
use std::fmt::{Debug, Display};
use std::test::Fail;

// Fails where a value prints something else than its text does: as it is, for debugging, and in widths and precisions.
fn prints_as<T: Display + Debug>(alloc: Global, value: &T, text: &str) -> Result<(), Fail> {
    let expected = format!(in alloc;
        "{text}|{text:?}|{text:5}|{text:>1001}|{text:-^7}|{text:.2}|{text:.999}"
    )?;
    let printed = format!(in alloc;
        "{value}|{value:?}|{value:5}|{value:>1001}|{value:-^7}|{value:.2}|{value:.999}"
    );
    gives_text(text, printed, expected.as_str())
}

// As a view, by `display` and in a buffer.
fn prints(alloc: Global, text: &str) -> Result<(), Fail> {
    let path = RelativePath::new(text);
    prints_as(alloc, &path, text)?;
    prints_as(alloc, &path.display(), text)?;
    prints_as(alloc, &RelativePathBuf::from_text(alloc, text)?, text)
}

#[test]
fn prints_the_text(rt: HostRuntime) -> Result<(), Fail> {
    for text in &["foo/bar", "a\\b/\"c\"", "é/ü", "é/b", "日本/\u{301}a", ""] {
        prints(rt.alloc(), text)?;
    }
    prints(rt.alloc(), "ä".repeat(rt.alloc(), 500)?.as_str())?;
    prints(rt.alloc(), "a".repeat(rt.alloc(), 1_000)?.as_str())
}

// Fails where a value doesn't print these words for debugging.
fn prints_for_debugging<T: Debug>(alloc: Global, value: &T, words: &str) -> Result<(), Fail> {
    gives_text(words, format!(in alloc; "{value:?}"), words)
}

// What the Rust crate's derives print.
#[test]
fn prints_components_for_debugging(rt: HostRuntime) -> Result<(), Fail> {
    prints_for_debugging(rt.alloc(), &Component::CurDir, "CurDir")?;
    prints_for_debugging(rt.alloc(), &Component::ParentDir, "ParentDir")?;
    prints_for_debugging(rt.alloc(), &Component::Normal("a\"é"), "Normal(\"a\\\"é\")")
}

#[test]
fn prints_errors_for_debugging(rt: HostRuntime) -> Result<(), Fail> {
    let from_root = FromPathError::from(FromPathErrorKind::NonRelative);
    prints_for_debugging(
        rt.alloc(),
        &from_root,
        "FromPathError { kind: NonRelative }",
    )?;
    let apart = RelativeToError::from(RelativeToErrorKind::PrefixMismatch);
    prints_for_debugging(
        rt.alloc(),
        &apart,
        "RelativeToError { kind: PrefixMismatch }",
    )
}
