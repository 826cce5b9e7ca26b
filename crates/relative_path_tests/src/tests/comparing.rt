//! Equality, order and hash.
use super::same;
use relative_path::{Component, RelativePath, RelativePathBuf};
use std::alloc::Global;
use std::hash::{DefaultHasher, Hash, Hasher};
use std::test::Fail;

// Between blanks: texts of paths. Stored lines of `conformance` compare views.
const TEXTS: &str =
    " foo foo/ foo/bar foo/bar/baz //foo///bar /foo/bar foo///bar a a. a.b a/. a/b a//b a/./b a/B . .. ! z é";

fn hash_of<T: Hash>(value: &T) -> u64 {
    let mut state = DefaultHasher::new();
    value.hash(&mut state);
    state.finish()
}

// Whether buffers are compared as their views, hashes of views are equal exactly if the views are, and a buffer is hashed as
// its view.
fn are_compared(left: &RelativePathBuf, right: &RelativePathBuf) -> bool {
    let (a, b) = (left.as_relative_path(), right.as_relative_path());
    left.cmp(right) == a.cmp(&b)
        && (left == right) == (a == b)
        && (hash_of(&a) == hash_of(&b)) == (a == b)
        && hash_of(left) == hash_of(&a)
}

fn compares(alloc: Global, left: &str, right: &str) -> Result<(), Fail> {
    let x = RelativePathBuf::from_text(alloc, left)?;
    let y = RelativePathBuf::from_text(alloc, right)?;
    same(left, (right, are_compared(&x, &y)), (right, true))
}

fn compares_to_each(alloc: Global, left: &str) -> Result<(), Fail> {
    for right in TEXTS.split(' ') {
        compares(alloc, left, right)?;
    }
    Ok(())
}

// That unequal paths hash differently holds under this hasher.
#[test]
fn compares_by_components(rt: HostRuntime) -> Result<(), Fail> {
    for left in TEXTS.split(' ') {
        compares_to_each(rt.alloc(), left)?;
    }
    Ok(())
}

// The least first.
const COMPONENTS: [Component<'static>; 7] = [
    Component::CurDir,
    Component::ParentDir,
    Component::Normal("!"),
    Component::Normal("..."),
    Component::Normal("a"),
    Component::Normal("aa"),
    Component::Normal("b"),
];

#[test]
fn orders_components() -> Result<(), Fail> {
    for (place, left) in COMPONENTS.iter().enumerate() {
        for (other, right) in COMPONENTS.iter().enumerate() {
            let found = (left.cmp(right), left == right);
            same(left.as_str(), found, (place.cmp(&other), place == other))?;
        }
    }
    Ok(())
}

// A path, and what it writes into a hasher.
const WRITES: [(&str, &str); 3] = [("a/b", "a/b/"), ("a//b", "a/b/"), ("a", "a/")];

fn hash_of_bytes(bytes: &str) -> u64 {
    let mut state = DefaultHasher::new();
    state.write(bytes.as_bytes());
    state.finish()
}

#[test]
fn feeds_a_hasher_each_component_and_a_slash() -> Result<(), Fail> {
    for (text, bytes) in &WRITES {
        same(
            text,
            hash_of(&RelativePath::new(text)),
            hash_of_bytes(bytes),
        )?;
    }
    Ok(())
}

#[test]
fn refusals_to_strip_are_equal() -> Result<(), Fail> {
    let path = RelativePath::new("foo/bar");
    let by_name = path.strip_prefix(RelativePath::new("fo")).err();
    let by_length = path.strip_prefix(RelativePath::new("foo/bar/baz")).err();
    same("fo", by_name.is_some(), true)?;
    same("foo/bar/baz", &by_length, &by_name)?;
    same("a clone", &by_name.clone()?, &by_name)
}
