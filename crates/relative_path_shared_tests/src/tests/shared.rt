//! The forms that own or share a text, and the buffer's way to them.
use super::{same, shows};
use relative_path::{RelativePath, RelativePathBuf};
use relative_path_shared::{BoxedRelativePath, BufExt, CowRelativePath, RcRelativePath};
use std::boxed::BoxedStr;
use std::test::Fail;

// Whether two paths show this text.
fn show(
    case: &str,
    path: RelativePath<'_>,
    other: RelativePath<'_>,
    text: &str,
) -> Result<(), Fail> {
    same(case, &[path.as_str(), other.as_str()], &[text; 2])
}

// Whether a box of a buffer shows this text.
fn shows_box(
    case: &str,
    answer: Result<BoxedRelativePath, RelativePathBuf>,
    text: &str,
) -> Result<(), Fail> {
    let boxed = answer.ok().ok_or(case)?;
    shows(case, boxed.as_relative_path(), text)
}

#[test]
fn copied_boxes_show_the_text(rt: HostRuntime) -> Result<(), Fail> {
    let copied = BoxedRelativePath::from_text(rt.alloc(), "a//b")?;
    let cloned = copied.clone(rt.alloc())?;
    show(
        "from_text and clone",
        copied.as_relative_path(),
        cloned.as_relative_path(),
        "a//b",
    )
}

#[test]
fn a_box_of_a_boxed_text_shows_it(rt: HostRuntime) -> Result<(), Fail> {
    let taken = BoxedRelativePath::from(BoxedStr::from_str(rt.alloc(), "a//b")?);
    shows("From<BoxedStr>", taken.as_relative_path(), "a//b")
}

#[test]
fn a_box_of_a_buffer_shows_the_text(rt: HostRuntime) -> Result<(), Fail> {
    let buf = RelativePathBuf::from_text(rt.alloc(), "a//b")?;
    let answer = BoxedRelativePath::from_buf(rt.alloc(), buf);
    shows_box("from_buf", answer, "a//b")
}

#[test]
fn a_buffer_becomes_a_box_that_shows_the_text(rt: HostRuntime) -> Result<(), Fail> {
    let buf = RelativePathBuf::from_text(rt.alloc(), "a//b")?;
    let answer = buf.into_boxed_relative_path(rt.alloc());
    shows_box("BufExt", answer, "a//b")
}

#[test]
fn owners_share_the_text(rt: HostRuntime) -> Result<(), Fail> {
    let first = RcRelativePath::from_path_text(rt.alloc(), RelativePath::new("a//b"))?;
    shows("from_path_text", first.as_relative_path(), "a//b")?;
    let second = first.share()?;
    drop(first);
    let path = second.as_relative_path();
    shows("share, the first owner gone", path, "a//b")
}

#[test]
fn an_owner_of_a_buffer_shows_the_text(rt: HostRuntime) -> Result<(), Fail> {
    let buf = RelativePathBuf::from_text(rt.alloc(), "a//b")?;
    let answer = RcRelativePath::from_buf(rt.alloc(), buf);
    let taken = answer.ok().ok_or("from_buf")?;
    shows("from_buf", taken.as_relative_path(), "a//b")
}

#[test]
fn either_form_shows_the_text(rt: HostRuntime) -> Result<(), Fail> {
    let owned = CowRelativePath::from(RelativePathBuf::from_text(rt.alloc(), "a//b")?);
    let borrowed = CowRelativePath::from(RelativePath::new("a//b"));
    show(
        "owned and borrowed",
        owned.as_relative_path(),
        borrowed.as_relative_path(),
        "a//b",
    )
}

#[test]
fn strings_become_buffers_and_back(rt: HostRuntime) -> Result<(), Fail> {
    let text = RelativePathBuf::from_text(rt.alloc(), "//a/")?.into_string();
    same("into_string", &text.as_str(), &"//a/")?;
    let buf = RelativePathBuf::from(text);
    shows("From<String>", buf.as_relative_path(), "//a/")?;
    same(
        "From<RelativePathBuf>",
        &String::from(buf).as_str(),
        &"//a/",
    )
}
