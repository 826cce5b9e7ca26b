//! Paths by their places.
use super::marks::{begin, end};
use super::{end_with, end_with_normal, long_text};
use crate::tests::{finds, normal, text_of};
use relative_path::{RelativePath, RelativePathBuf};
use relative_path_places::{NamePath, NormalPath, PlaceIndex, WrittenPath};
use std::alloc::{AllocError, Global};
use std::test::Fail;

// Requests: = 0
#[test]
fn an_empty_index(rt: HostRuntime) -> Result<(), Fail> {
    begin(rt.alloc());
    let index = PlaceIndex::new(rt.alloc());
    end(rt.alloc(), false)?;
    finds(rt.alloc(), &index, "", None)
}

fn insert_of(alloc: Global, text: &str) -> Result<(), Fail> {
    let mut index = PlaceIndex::new(alloc);
    index.insert(alloc, RelativePath::new("b"), 0)?;
    begin(alloc);
    let first = index.insert(alloc, RelativePath::new(text), 1);
    end(alloc, first.is_err())?;
    finds(alloc, &index, text, first.ok())?;
    finds(alloc, &index, "b", Some(0))
}

// Requests: 2s 3 = 1, = 0, 524288s 1048576 = 1
#[test]
fn insert(rt: HostRuntime) -> Result<(), Fail> {
    insert_of(rt.alloc(), "b/c")?;
    insert_of(rt.alloc(), "")?;
    insert_of(rt.alloc(), long_text(rt.alloc())?.as_str())
}

fn get_of(alloc: Global, text: &str) -> Result<(), Fail> {
    let mut index = PlaceIndex::new(alloc);
    index.insert(alloc, RelativePath::new(text), 0)?;
    let place = NormalPath::of(alloc, RelativePath::new(text))?;
    begin(alloc);
    end_with(alloc, "get", index.get(&place), Some(0))
}

// Requests: = 0, = 0, = 0
#[test]
fn get(rt: HostRuntime) -> Result<(), Fail> {
    get_of(rt.alloc(), "a//b")?;
    get_of(rt.alloc(), "")?;
    get_of(rt.alloc(), long_text(rt.alloc())?.as_str())
}

fn normal_of(alloc: Global, text: &str, expected: &str) -> Result<(), Fail> {
    begin(alloc);
    let answer = NormalPath::of(alloc, RelativePath::new(text));
    end_with_normal(alloc, text, answer, expected)
}

// Requests: 5s 3 = 1, = 0, 1s = 0, 524288s 1048576 = 1
#[test]
fn a_normal_path(rt: HostRuntime) -> Result<(), Fail> {
    normal_of(rt.alloc(), "./c/../a//b", "a/b")?;
    normal_of(rt.alloc(), "", "")?;
    normal_of(rt.alloc(), ".", "")?;
    let long = long_text(rt.alloc())?;
    normal_of(rt.alloc(), long.as_str(), long.as_str())
}

fn joined_of(alloc: Global, text: &str, expected: &str) -> Result<(), Fail> {
    let [base, path] = ["a/b", text].map(RelativePath::new);
    begin(alloc);
    let answer = NormalPath::of_joined(alloc, base, path);
    end_with_normal(alloc, text, answer, expected)?;
    let base = NormalPath::of(alloc, base)?;
    begin(alloc);
    let answer = base.join(alloc, path);
    end_with_normal(alloc, text, answer, expected)
}

// Requests: 4s 3 = 1, 4s 3 = 1, 4s = 0, 4s = 0
#[test]
fn a_joined_path(rt: HostRuntime) -> Result<(), Fail> {
    joined_of(rt.alloc(), "../c", "a/c")?;
    joined_of(rt.alloc(), "../..", "")
}

fn get_view_of(alloc: Global, text: &str) -> Result<(), Fail> {
    let mut index = PlaceIndex::new(alloc);
    index.insert(alloc, RelativePath::new(text), 0)?;
    let place = NormalPath::of(alloc, RelativePath::new(text))?;
    begin(alloc);
    end_with(alloc, "get_view", index.get_view(place.view()), Some(0))
}

// Requests: = 0, = 0
#[test]
fn get_view(rt: HostRuntime) -> Result<(), Fail> {
    get_view_of(rt.alloc(), "a//b")?;
    get_view_of(rt.alloc(), long_text(rt.alloc())?.as_str())
}

fn followed_of(
    alloc: Global,
    front: &NormalPath,
    names: NamePath<'_>,
    expected: &str,
) -> Result<(), Fail> {
    begin(alloc);
    let answer = front.followed_by(alloc, names);
    end_with_normal(alloc, "names", answer, expected)
}

fn followed(alloc: Global, front: &str, names: &str, expected: &str) -> Result<(), Fail> {
    let front = normal(alloc, front)?;
    let path = normal(alloc, names)?;
    match path.view().names() {
        Some(names) => followed_of(alloc, &front, names, expected),
        None => Err(Fail::new("no names")),
    }
}

// Requests: 7 = 1, 1 = 1
#[test]
fn names_after_a_path(rt: HostRuntime) -> Result<(), Fail> {
    followed(rt.alloc(), "../a", "bc", "../a/bc")?;
    followed(rt.alloc(), "", "", "")
}

// The mark after a call. Fails if no allocation failed and the path has another text.
fn end_with_way(
    alloc: Global,
    answer: Result<RelativePathBuf, AllocError>,
    text: &str,
) -> Result<(), Fail> {
    match answer {
        Ok(way) => end_with(alloc, "a way", text_of(&way), text),
        Err(_) => end(alloc, true),
    }
}

fn way_of(alloc: Global, from: NamePath<'_>, to: NamePath<'_>, expected: &str) -> Result<(), Fail> {
    begin(alloc);
    let answer = from.way_to(alloc, to);
    end_with_way(alloc, answer, expected)
}

fn way(alloc: Global, from: &str, to: &str, expected: &str) -> Result<(), Fail> {
    let from = normal(alloc, from)?;
    let to = normal(alloc, to)?;
    match (from.view().names(), to.view().names()) {
        (Some(from), Some(to)) => way_of(alloc, from, to, expected),
        _ => Err(Fail::new("no names")),
    }
}

// Requests: 13 = 1, 1 = 1
#[test]
fn the_shortest_way(rt: HostRuntime) -> Result<(), Fail> {
    way(rt.alloc(), "docs/guide", "docs/img/x.png", "../img/x.png")?;
    way(rt.alloc(), "a", "a", "")
}

fn copy_of(alloc: Global, text: &str) -> Result<(), Fail> {
    let path = normal(alloc, text)?;
    begin(alloc);
    let answer = path.copy(alloc);
    end_with_normal(alloc, "a copy", answer, text)
}

// Requests: 3 = 1, = 0
#[test]
fn a_copy(rt: HostRuntime) -> Result<(), Fail> {
    copy_of(rt.alloc(), "a/b")?;
    copy_of(rt.alloc(), "")
}

// Requests: 4 = 1
#[test]
fn a_copy_of_a_view(rt: HostRuntime) -> Result<(), Fail> {
    let path = normal(rt.alloc(), "docs/a")?;
    let above = path.view().parent().ok_or("a parent")?;
    begin(rt.alloc());
    let answer = NormalPath::of_view(rt.alloc(), above);
    end_with_normal(rt.alloc(), "a directory", answer, "docs")
}

// The mark after a call. Fails if no allocation failed and the path is written in another way, or has another normal text.
fn end_with_written(
    alloc: Global,
    answer: Result<WrittenPath<'_>, AllocError>,
    texts: (&str, &str),
) -> Result<(), Fail> {
    match answer {
        Ok(path) => {
            let normal = path.normal().as_relative_path();
            let found = (path.written().as_str(), normal.as_str());
            end_with(alloc, "a path", found, texts)
        }
        Err(_) => end(alloc, true),
    }
}

// Requests: 2s 3 = 1
#[test]
fn a_written_path(rt: HostRuntime) -> Result<(), Fail> {
    begin(rt.alloc());
    let answer = WrittenPath::of(rt.alloc(), RelativePath::new("a//b"));
    end_with_written(rt.alloc(), answer, ("a//b", "a/b"))
}

// Requests: 3 = 1
#[test]
fn a_copy_of_a_written_path(rt: HostRuntime) -> Result<(), Fail> {
    let path = WrittenPath::of(rt.alloc(), RelativePath::new("a//b"))?;
    begin(rt.alloc());
    let answer = path.copy(rt.alloc());
    end_with_written(rt.alloc(), answer, ("a//b", "a/b"))
}
