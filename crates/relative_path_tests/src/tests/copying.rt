//! Copies of a text, and room for one.
use super::{gives, same};
use relative_path::{RelativePath, RelativePathBuf};
use std::alloc::Global;
use std::test::Fail;

// By each call that copies a text, or hands it on.
fn copies(alloc: Global, text: &str) -> Result<(), Fail> {
    let copy = RelativePath::new(text).to_relative_path_buf(alloc);
    gives("to_relative_path_buf", copy, text)?;
    let buf = RelativePathBuf::from_text(alloc, text)?;
    gives("clone", buf.clone(), text)?;
    same("into_string", buf.into_string().as_str(), text)
}

#[test]
fn copies_texts(rt: HostRuntime) -> Result<(), Fail> {
    copies(rt.alloc(), "//a/")
}

#[test]
fn makes_room(rt: HostRuntime) -> Result<(), Fail> {
    let buf = RelativePathBuf::with_capacity(rt.alloc(), 15)?;
    same("with_capacity", (buf.len(), buf.spare() >= 15), (0, true))?;
    gives("new", Ok(RelativePathBuf::new(rt.alloc())), "")
}
