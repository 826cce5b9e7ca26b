//! Wrong functions that are right as long as no allocation fails. tools/refusals checks that each of these tests
//! fails.
ghost use Rattle.std.specs.Iterator.{IsFinite};

use super::editing::{end_extended, long_name};
use super::marks::begin;
use super::naming::end_with_name;
use crate::tests::text_of;
use relative_path::{RelativePath, RelativePathBuf};
use std::alloc::{AllocError, Global};
use std::test::Fail;

// Sets a file name, and cuts the old one before it reserves.
fn cut_and_push(buf: &mut RelativePathBuf, file_name: &str) -> Result<(), AllocError> {
    buf.pop();
    buf.push(RelativePath::new(file_name))
}

fn set_file_name_of(alloc: Global, file_name: &str) -> Result<(), Fail> {
    let mut buf = RelativePathBuf::from_text(alloc, "foo/bar")?;
    begin(alloc);
    let answer = cut_and_push(&mut buf, file_name);
    let left = text_of(&buf).strip_prefix("foo/");
    end_with_name(alloc, answer, left, file_name, "bar")
}

#[test]
fn set_file_name(rt: HostRuntime) -> Result<(), Fail> {
    set_file_name_of(rt.alloc(), "b".repeat(rt.alloc(), 4096)?.as_str())
}

// Pushes the paths, and restores the first text if a push fails.
fn push_or_restore<'p, I: Iterator<Item = RelativePath<'p>>>(
    buf: &mut RelativePathBuf,
    paths: I,
) -> Result<(), AllocError>
    requires { I.can_next paths × IsFinite (I.remaining paths) }
{
    let first = buf.clone()?;
    for path in paths {
        if let Err(error) = buf.push(path) {
            *buf = first;
            return Err(error);
        }
    }
    Ok(())
}

fn extend_by(alloc: Global, name: &str) -> Result<(), Fail> {
    let paths = ["a", name, "c"].map(RelativePath::new);
    let mut lent = paths.iter().copied();
    let mut buf = RelativePathBuf::with_capacity(alloc, 1)?;
    begin(alloc);
    let answer = push_or_restore(&mut buf, &mut lent);
    end_extended(alloc, answer, &buf, name, lent.next())
}

#[test]
fn extend(rt: HostRuntime) -> Result<(), Fail> {
    extend_by(rt.alloc(), long_name(rt.alloc())?.as_str())
}
