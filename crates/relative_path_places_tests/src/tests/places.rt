use super::{finds, gives_text, same};
use relative_path::RelativePath;
use relative_path_places::{NormalPath, PlaceIndex, directory, has_place};
use std::alloc::{AllocError, Global};
use std::test::Fail;

// The numbers of paths, and of the first path that leads to the same.
const PATHS: [(usize, &str, usize); 6] = [
    (0, "a", 0),
    (1, "../b", 1),
    (2, "", 2),
    (3, "c/..", 2),
    (4, "./a", 0),
    (5, "x/../../b", 1),
];

// Inserts these paths. Fails if a number is returned that isn't expected.
fn inserts(alloc: Global, index: &mut PlaceIndex) -> Result<(), Fail> {
    for (number, path, first) in &PATHS {
        let found = index.insert(alloc, RelativePath::new(path), *number)?;
        same(path, found, *first)?;
    }
    Ok(())
}

#[test]
fn finds_the_first_path_of_a_place(rt: HostRuntime) -> Result<(), Fail> {
    let mut index = PlaceIndex::new(rt.alloc());
    inserts(rt.alloc(), &mut index)?;
    finds(rt.alloc(), &index, "a/.", Some(0))?;
    finds(rt.alloc(), &index, "b", None)?;
    finds(rt.alloc(), &index, "../b", Some(1))
}

// A path and a reference, the normal path of the two, its directory, and whether it has a place.
const NORMAL: [(&str, &str, &str, &str, bool); 6] = [
    ("a//b", "./c", "a/b/c", "a/b", true),
    ("a", "../../b/c", "../b/c", "../b", false),
    ("", "", "", "", true),
    ("a/..", "..", "..", "", false),
    ("a/b", "..", "a", "", true),
    ("../a", "../..", "../..", "..", false),
];

// Fails where a normal path has another text, directory or place than is expected.
fn looks(normal: &NormalPath, text: &str, above: &str, has: bool) -> Result<(), Fail> {
    let found = (
        normal.as_relative_path().as_str(),
        normal.directory().as_relative_path().as_str(),
    );
    same(text, (found, normal.has_place()), ((text, above), has))
}

fn join(alloc: Global, base: &str, reference: &str) -> Result<NormalPath, AllocError> {
    let base = NormalPath::of(alloc, RelativePath::new(base))?;
    base.join(alloc, RelativePath::new(reference))
}

// Fails where a join has another text, directory or place than is expected.
fn joins(
    alloc: Global,
    (base, reference): (&str, &str),
    text: &str,
    above: &str,
    has: bool,
) -> Result<(), Fail> {
    let joined = join(alloc, base, reference)?;
    looks(&joined, text, above, has)
}

#[test]
fn joins_normal_paths(rt: HostRuntime) -> Result<(), Fail> {
    for (base, reference, text, above, has) in &NORMAL {
        joins(rt.alloc(), (base, reference), text, above, *has)?;
    }
    Ok(())
}

// Two paths, and whether their normal paths are equal.
const PAIRS: [(&str, &str, bool); 4] = [
    ("a/./b/", "c/../a//b", true),
    ("a", "../a", false),
    ("..", "", false),
    ("a/..", "", true),
];

// Fails where a normal path isn't printed as its own text is.
fn prints_its_text(alloc: Global, normal: &NormalPath) -> Result<(), Fail> {
    let text = format!(in alloc; "{:?}", normal.as_relative_path().as_str())?;
    gives_text("printed", format!(in alloc; "{normal:?}"), text.as_str())
}

// Fails there, and where it is equal to the normal path of a text, unless that is expected.
fn equals(alloc: Global, normal: &NormalPath, other: &str, equal: bool) -> Result<(), Fail> {
    prints_its_text(alloc, normal)?;
    let found = NormalPath::of(alloc, RelativePath::new(other))?;
    same(other, *normal == found, equal)
}

// The same of the normal path of a text.
fn equals_of(alloc: Global, one: &str, other: &str, equal: bool) -> Result<(), Fail> {
    let normal = NormalPath::of(alloc, RelativePath::new(one))?;
    equals(alloc, &normal, other, equal)
}

#[test]
fn tells_normal_paths_apart(rt: HostRuntime) -> Result<(), Fail> {
    for (one, other, equal) in &PAIRS {
        equals_of(rt.alloc(), one, other, *equal)?;
    }
    Ok(())
}

// A path, whether it has a place, and its directory.
const PLACES: [(&str, bool, &str); 5] = [
    ("", true, ""),
    ("a/b.md", true, "a"),
    ("../b.md", false, ".."),
    ("a/../../b.md", false, "a/../.."),
    ("b.md/.", true, ""),
];

// Fails where a path has a place or a directory other than is expected.
fn is_placed(text: &str, has: bool, above: &str) -> Result<(), Fail> {
    let path = RelativePath::new(text);
    let found = (has_place(path), directory(path).as_str());
    same(text, found, (has, above))
}

#[test]
fn tells_places_and_directories(_rt: HostRuntime) -> Result<(), Fail> {
    for (text, has, above) in &PLACES {
        is_placed(text, *has, above)?;
    }
    Ok(())
}
