//! Equality, order and hash across the forms.
ghost use Rattle.std.specs.Prelude.{◌+◌, ◌*◌, ◌%◌, ◌^◌, fold};

use super::same;
use relative_path::{Component, RelativePath, RelativePathBuf};
use relative_path_shared::{BoxedRelativePath, CowRelativePath, RcRelativePath};
use std::alloc::{AllocError, Global};
use std::cmp::Ordering;
use std::collections::HashMap;
use std::hash::{Hash, Hasher};
use std::test::Fail;

const COMPARISONS: [(&str, &str, Ordering); 8] = [
    ("", "", Ordering::Equal),
    ("foo/", "foo", Ordering::Equal),
    ("a//b", "a/b", Ordering::Equal),
    ("foo", "", Ordering::Greater),
    ("foo/bar", "foo/bar/baz", Ordering::Less),
    ("a/b", "a.b", Ordering::Less),
    ("..", "!", Ordering::Less),
    ("a/./b", "a/b", Ordering::Less),
];

// Fails where two paths in these forms don't compare so.
fn compares<T: Ord>(case: &str, left: &T, right: &T, order: Ordering) -> Result<(), Fail> {
    let found = (left.cmp(right), left == right);
    same(case, &found, &(order, order.is_eq()))
}

fn compares_boxes(alloc: Global, left: &str, right: &str, order: Ordering) -> Result<(), Fail> {
    let boxed = BoxedRelativePath::from_text(alloc, left)?;
    let other = BoxedRelativePath::from_text(alloc, right)?;
    compares(left, &boxed, &other, order)
}

fn compares_owners(alloc: Global, left: &str, right: &str, order: Ordering) -> Result<(), Fail> {
    let shared = RcRelativePath::from_path_text(alloc, RelativePath::new(left))?;
    let other = RcRelativePath::from_path_text(alloc, RelativePath::new(right))?;
    compares(left, &shared, &other, order)
}

// The one borrowed, and the other owned.
fn compares_either_form(
    alloc: Global,
    left: &str,
    right: &str,
    order: Ordering,
) -> Result<(), Fail> {
    let borrowed = CowRelativePath::from(RelativePath::new(left));
    let owned = CowRelativePath::from(RelativePathBuf::from_text(alloc, right)?);
    compares(left, &borrowed, &owned, order)
}

#[test]
fn compares_by_components(rt: HostRuntime) -> Result<(), Fail> {
    for (left, right, order) in &COMPARISONS {
        compares_boxes(rt.alloc(), left, right, *order)?;
        compares_owners(rt.alloc(), left, right, *order)?;
        compares_either_form(rt.alloc(), left, right, *order)?;
    }
    Ok(())
}

// A hasher that shows its last writes, in eight bytes: a `|`, which is 124, ends each.
#[derive(Drop)]
struct Writes(u64);

impl Hasher for Writes {
    ghost write = { λ state bytes. record {
      0 =
          ((fold (λ shown byte. ((shown * 256) % 2 ^ 64 + byte) % 2 ^ 64) state.0 bytes * 256) % 2 ^ 64
          + 124) % 2 ^ 64;
    } };

    ghost finish = { λ state. state.0 };

    fn finish(&self) -> u64 {
        self.0
    }

    fn write(&mut self, bytes: &[u8]) {
        for byte in bytes {
            self.0 = self.0.wrapping_mul(256).wrapping_add(u64::from(*byte));
        }
        self.0 = self.0.wrapping_mul(256).wrapping_add(124);
    }
}

fn writes_of<T: Hash>(value: &T) -> [u8; 8] {
    let mut state = Writes(0);
    value.hash(&mut state);
    state.finish().to_be_bytes()
}

// Each component is a write, and a slash another. A write before those of `a` would show.
const WRITES: [(&str, &[u8; 8]); 2] = [("a//b", b"a|/|b|/|"), ("a", b"\0\0\0\0a|/|")];

#[test]
fn each_component_is_a_write_and_a_slash_another() -> Result<(), Fail> {
    for (text, writes) in &WRITES {
        let path = RelativePath::new(text);
        let found = [writes_of(&path), writes_of(&CowRelativePath::from(path))];
        same("view and borrowed", &found, &[**writes; 2])?;
    }
    let writes = writes_of(&Component::ParentDir);
    same("`..` alone", &writes, b"\0\0\0..|/|")
}

#[test]
fn boxes_write_as_views(rt: HostRuntime) -> Result<(), Fail> {
    for (text, writes) in &WRITES {
        let boxed = BoxedRelativePath::from_text(rt.alloc(), text)?;
        same("box", &writes_of(&boxed), *writes)?;
    }
    Ok(())
}

#[test]
fn owners_write_as_views(rt: HostRuntime) -> Result<(), Fail> {
    for (text, writes) in &WRITES {
        let shared = RcRelativePath::from_path_text(rt.alloc(), RelativePath::new(text))?;
        same("owner", &writes_of(&shared), *writes)?;
    }
    Ok(())
}

#[test]
fn buffers_write_as_views(rt: HostRuntime) -> Result<(), Fail> {
    for (text, writes) in &WRITES {
        let buf = RelativePath::new(text).to_relative_path_buf(rt.alloc())?;
        let of_buf = writes_of(&buf);
        let found = [of_buf, writes_of(&CowRelativePath::from(buf))];
        same("buffer and owned", &found, &[**writes; 2])?;
    }
    Ok(())
}

// Fails where a map has another value for a key of this text.
fn has_size(
    alloc: Global,
    sizes: &HashMap<BoxedRelativePath, u32>,
    text: &str,
    size: Option<u32>,
) -> Result<(), Fail> {
    let key = BoxedRelativePath::from_text(alloc, text)?;
    same(text, &sizes.get(&key).copied(), &size)
}

#[test]
fn boxed_keys_are_found_however_they_are_spelled(rt: HostRuntime) -> Result<(), Fail> {
    let mut sizes = HashMap::new(rt.alloc());
    let key = BoxedRelativePath::from_text(rt.alloc(), "src/main.rs")?;
    sizes.insert(key, 120)?;
    has_size(rt.alloc(), &sizes, "src//main.rs/", Some(120))?;
    has_size(rt.alloc(), &sizes, "src", None)
}

#[test]
fn a_buffer_of_a_string_is_equal(rt: HostRuntime) -> Result<(), Fail> {
    let buf = RelativePath::new("foo/bar").to_relative_path_buf(rt.alloc())?;
    let other = RelativePathBuf::from(String::from_str(rt.alloc(), "foo/bar")?);
    same("From<String>", &buf, &other)
}

#[test]
fn a_buffer_of_a_text_is_equal(rt: HostRuntime) -> Result<(), Fail> {
    let buf = RelativePath::new("foo/bar").to_relative_path_buf(rt.alloc())?;
    let other = RelativePathBuf::from_text(rt.alloc(), "foo/bar")?;
    same("from_text", &buf, &other)
}

// Fails where two of these aren't equal.
fn are_equal(paths: &[RelativePath<'_>]) -> Result<(), Fail> {
    for left in paths {
        for right in paths {
            same(left.as_str(), left, right)?;
        }
    }
    Ok(())
}

// `foo/bar`, by pushes.
fn pushed(alloc: Global) -> Result<RelativePathBuf, AllocError> {
    let mut buf = RelativePathBuf::new(alloc);
    buf.push(RelativePath::new("foo"))?;
    buf.push(RelativePath::new("bar"))?;
    Ok(buf)
}

#[test]
fn views_buffers_and_either_form_are_equal(rt: HostRuntime) -> Result<(), Fail> {
    let path = RelativePath::new("foo/bar");
    let borrowed = CowRelativePath::from(path);
    let buf = pushed(rt.alloc())?;
    let owned = CowRelativePath::from(pushed(rt.alloc())?);
    are_equal(&[
        path,
        buf.as_relative_path(),
        borrowed.as_relative_path(),
        owned.as_relative_path(),
    ])
}

// Fails where a box of a buffer isn't equal to these paths, or they to each other.
fn equal_a_box(alloc: Global, path: RelativePath<'_>, other: RelativePath<'_>) -> Result<(), Fail> {
    let answer = BoxedRelativePath::from_buf(alloc, pushed(alloc)?);
    let taken = answer.ok().ok_or("from_buf")?;
    are_equal(&[path, other, taken.as_relative_path()])
}

#[test]
fn boxes_are_equal_as_views(rt: HostRuntime) -> Result<(), Fail> {
    let buf = RelativePath::new("foo/bar").to_relative_path_buf(rt.alloc())?;
    let copied = BoxedRelativePath::from_text(rt.alloc(), "foo/bar")?;
    equal_a_box(
        rt.alloc(),
        buf.as_relative_path(),
        copied.as_relative_path(),
    )
}

// The same of an owner.
fn equal_an_owner(
    alloc: Global,
    path: RelativePath<'_>,
    other: RelativePath<'_>,
) -> Result<(), Fail> {
    let answer = RcRelativePath::from_buf(alloc, pushed(alloc)?);
    let taken = answer.ok().ok_or("from_buf")?;
    are_equal(&[path, other, taken.as_relative_path()])
}

#[test]
fn owners_are_equal_as_views(rt: HostRuntime) -> Result<(), Fail> {
    let buf = RelativePath::new("foo/bar").to_relative_path_buf(rt.alloc())?;
    let copied = RcRelativePath::from_path_text(rt.alloc(), buf.as_relative_path())?;
    equal_an_owner(
        rt.alloc(),
        buf.as_relative_path(),
        copied.as_relative_path(),
    )
}
