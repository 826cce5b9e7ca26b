//! Views of normal paths, and paths of names.
use super::{normal, same, text_of};
use relative_path::RelativePath;
use relative_path_places::{NamePath, NormalPath, NormalView, PlaceIndex};
use std::alloc::Global;
use std::test::Fail;

// A path, its parent, and whether it is made of names.
const VIEWS: [(&str, Option<&str>, bool); 6] = [
    ("", None, true),
    ("a", Some(""), true),
    ("a//./b/c", Some("a/b"), true),
    ("..", Some(""), false),
    ("../a/b", Some("../a"), false),
    ("..a/.b", Some("..a"), true),
];

fn view_str<'a>(view: NormalView<'a>) -> &'a str {
    view.as_relative_path().as_str()
}

fn names_str<'a>(names: NamePath<'a>) -> &'a str {
    names.as_relative_path().as_str()
}

// Fails where a view has another parent than is expected, or names although none are.
fn views(path: &NormalPath, parent: Option<&str>, has: bool) -> Result<(), Fail> {
    let view = path.view();
    let text = path.as_relative_path().as_str();
    same(text, view_str(view), text)?;
    same(text, view.parent().map(view_str), parent)?;
    same(
        text,
        view.names().map(names_str),
        if has { Some(text) } else { None },
    )
}

fn views_of(alloc: Global, text: &str, parent: Option<&str>, has: bool) -> Result<(), Fail> {
    let path = normal(alloc, text)?;
    views(&path, parent, has)
}

#[test]
fn goes_up_and_reads_names(rt: HostRuntime) -> Result<(), Fail> {
    for (text, parent, has) in &VIEWS {
        views_of(rt.alloc(), text, *parent, *has)?;
    }
    Ok(())
}

// A path, one above it, and the names between.
const BELOW: [(&str, &str, Option<&str>); 9] = [
    ("a/b/c", "a", Some("b/c")),
    ("a/b", "a/b", Some("")),
    ("a", "", Some("a")),
    ("", "", Some("")),
    ("../a", "..", Some("a")),
    ("../../a", "..", None),
    ("..", "", None),
    ("ab", "a", None),
    ("a", "a/b", None),
];

fn leads_down(path: &NormalPath, above: &NormalPath, names: Option<&str>) -> Result<(), Fail> {
    let text = path.as_relative_path().as_str();
    same(text, path.view().below(above.view()).map(names_str), names)
}

fn leads_down_of(alloc: Global, path: &str, above: &str, names: Option<&str>) -> Result<(), Fail> {
    let path = normal(alloc, path)?;
    let above = normal(alloc, above)?;
    leads_down(&path, &above, names)
}

#[test]
fn reads_the_names_below(rt: HostRuntime) -> Result<(), Fail> {
    for (path, above, names) in &BELOW {
        leads_down_of(rt.alloc(), path, above, *names)?;
    }
    Ok(())
}

// A path, names, and the path that the names follow.
const FOLLOWED: [(&str, &str, &str); 4] = [
    ("a", "b/c", "a/b/c"),
    ("", "a", "a"),
    ("../a", "", "../a"),
    ("..", "a", "../a"),
];

fn is_followed(
    alloc: Global,
    path: &NormalPath,
    names: Option<NamePath<'_>>,
    expected: &str,
) -> Result<(), Fail> {
    let Some(names) = names else {
        return Err(Fail::new("no names"));
    };
    let found = path.followed_by(alloc, names)?;
    same(expected, found.as_relative_path().as_str(), expected)
}

fn is_followed_of(alloc: Global, path: &str, names: &str, expected: &str) -> Result<(), Fail> {
    let path = normal(alloc, path)?;
    let names = normal(alloc, names)?;
    is_followed(alloc, &path, names.view().names(), expected)
}

#[test]
fn puts_names_after_a_path(rt: HostRuntime) -> Result<(), Fail> {
    for (path, names, expected) in &FOLLOWED {
        is_followed_of(rt.alloc(), path, names, expected)?;
    }
    Ok(())
}

// Two places, and the shortest path from the first to the second.
const WAYS: [(&str, &str, &str); 6] = [
    ("a/b", "a/c", "../c"),
    ("", "a/b", "a/b"),
    ("a/b", "", "../.."),
    ("a/b", "a/b", ""),
    ("a", "b/c", "../b/c"),
    ("a/bc", "a/b", "../b"),
];

fn leads_to(
    alloc: Global,
    from: Option<NamePath<'_>>,
    to: Option<NamePath<'_>>,
    expected: &str,
) -> Result<(), Fail> {
    let (Some(from), Some(to)) = (from, to) else {
        return Err(Fail::new("no names"));
    };
    let way = from.way_to(alloc, to)?;
    same(expected, text_of(&way), expected)
}

fn leads_to_of(alloc: Global, from: &str, to: &str, expected: &str) -> Result<(), Fail> {
    let from = normal(alloc, from)?;
    let to = normal(alloc, to)?;
    leads_to(alloc, from.view().names(), to.view().names(), expected)
}

#[test]
fn finds_the_shortest_way(rt: HostRuntime) -> Result<(), Fail> {
    for (from, to, expected) in &WAYS {
        leads_to_of(rt.alloc(), from, to, expected)?;
    }
    Ok(())
}

// Fails where an index finds another number by the directory of a path than is expected.
fn finds_above(index: &PlaceIndex, path: &NormalPath, number: Option<usize>) -> Result<(), Fail> {
    let found = path.view().parent().and_then(|above| index.get_view(above));
    same("a directory", found, number)
}

fn finds_above_of(
    alloc: Global,
    index: &PlaceIndex,
    text: &str,
    number: Option<usize>,
) -> Result<(), Fail> {
    let path = normal(alloc, text)?;
    finds_above(index, &path, number)
}

#[test]
fn finds_a_part_of_a_path(rt: HostRuntime) -> Result<(), Fail> {
    let mut index = PlaceIndex::new(rt.alloc());
    index.insert(rt.alloc(), RelativePath::new("x/../docs"), 0)?;
    finds_above_of(rt.alloc(), &index, "docs/a.md", Some(0))?;
    finds_above_of(rt.alloc(), &index, "docs", None)?;
    finds_above_of(rt.alloc(), &index, "../docs/a.md", None)
}
