//! What is at a path of a tree.
use super::marks::{begin, end};
use crate::tests::same;
use relmove_folder::{EntryKind, Tree, is_directory};
use std::alloc::{AllocError, Global};
use std::collections::BTreeMap;
use std::test::Fail;

// A tree with a directory that holds a file.
fn tree(alloc: Global) -> Result<Tree, AllocError> {
    let text = |text: &str| String::from_str(alloc, text);
    let mut entries = BTreeMap::new(alloc);
    entries.insert(text("d")?, EntryKind::Directory)?;
    entries.insert(text("d/b.md")?, EntryKind::File)?;
    Ok(Tree {
        entries,
        pages: Vec::new(alloc),
        not_text: Vec::new(alloc),
        with_base: Vec::new(alloc),
        unreadable_names: Vec::new(alloc),
        unlisted: Vec::new(alloc),
        directories: Vec::new(alloc),
        unread: Vec::new(alloc),
    })
}

// Requests: 2s 1 = 0
#[test]
fn a_directory(rt: HostRuntime) -> Result<(), Fail> {
    let tree = tree(rt.alloc())?;
    begin(rt.alloc());
    let answer = is_directory(rt.alloc(), &tree, "./d/");
    end(rt.alloc(), answer.is_err())?;
    match answer {
        Ok(is_there) => same("a directory", &is_there, &true),
        Err(_) => Ok(()),
    }
}
