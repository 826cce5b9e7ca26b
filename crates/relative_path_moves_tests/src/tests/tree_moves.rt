//! Where files are after moves of directories.
use super::{gives_text, read_moves, same, told_of};
use relative_path::RelativePath;
use relative_path_moves::{MoveTableError, MovedReference, PageMove, TreeMoves};
use relative_path_places::NormalPath;
use std::alloc::Global;
use std::test::Fail;

// The moves of the first table.
const MOVES: &str =
    "docs > guide, docs/sub/deep > d, docs/a.md > b.md, guide > old/./guide, ../up > up, x/y > ../z";

// A file before moves and after them.
type Moved = (&'static str, &'static str);

// The files of these moves.
const FILES: [Moved; 12] = [
    ("docs/c.md", "guide/c.md"),
    ("docs", "guide"),
    ("docs2/a.md", "docs2/a.md"),
    ("docs/sub/e.md", "guide/sub/e.md"),
    ("docs/sub/deep/f/g.md", "d/f/g.md"),
    ("docs/a.md", "b.md"),
    ("docs/a.md/h", "b.md/h"),
    ("guide/c.md", "old/guide/c.md"),
    ("./x/../docs//c.md", "guide/c.md"),
    ("../up/i.md", "../up/i.md"),
    ("x/y/j.md", "../z/j.md"),
    ("", ""),
];

// Fails where a normal path has another text than is expected.
fn is_at(file: &str, now: &NormalPath, expected: &str) -> Result<(), Fail> {
    same(file, now.as_relative_path().as_str(), expected)
}

// Fails where a file is at another path than is expected.
fn is_after(alloc: Global, tree: &TreeMoves<'_>, file: &str, expected: &str) -> Result<(), Fail> {
    let now = tree.path_after(alloc, RelativePath::new(file))?;
    is_at(file, &now, expected)
}

// Fails where one of these files is at another path than is expected.
fn are_after(alloc: Global, tree: &TreeMoves<'_>, files: &[Moved]) -> Result<(), Fail> {
    for (file, expected) in files {
        is_after(alloc, tree, file, expected)?;
    }
    Ok(())
}

// The same of the files of the table, after these moves.
fn are_after_moves(
    alloc: Global,
    moves: &[(RelativePath<'_>, RelativePath<'_>)],
) -> Result<(), Fail> {
    let tree = TreeMoves::new(alloc, moves)?;
    are_after(alloc, &tree, &FILES)
}

#[test]
fn the_nearest_move_takes_a_file_along(rt: HostRuntime) -> Result<(), Fail> {
    let moves = read_moves(rt.alloc(), MOVES)?;
    are_after_moves(rt.alloc(), &moves)
}

#[test]
fn two_moves_of_one_directory_are_an_error(rt: HostRuntime) -> Result<(), Fail> {
    let moves = read_moves(rt.alloc(), "a > b, docs > c, d/../docs > e")?;
    let error = TreeMoves::new(rt.alloc(), &moves).err();
    same("docs", error, Some(MoveTableError::SameOld(1, 2)))
}

// A page before moves, a reference in it, and what the reference becomes, `as it is`, or an error's words
// after `! `.
type Link = (&'static str, &'static str, &'static str);

// Fails where a reference in a page becomes another text than is expected after moves of directories.
fn becomes_in_page(
    alloc: Global,
    tree: &TreeMoves<'_>,
    page: &PageMove,
    reference: &str,
    expected: &str,
) -> Result<(), Fail> {
    let answer = tree.moved_in(alloc, page, RelativePath::new(reference));
    gives_text(reference, told_of(alloc, answer), expected)
}

// The same of the page of a row.
fn link_becomes(
    alloc: Global,
    tree: &TreeMoves<'_>,
    (page, reference, expected): Link,
) -> Result<(), Fail> {
    let path = NormalPath::of(alloc, RelativePath::new(page))?;
    let page = tree.moved_page(alloc, &path)?;
    becomes_in_page(alloc, tree, &page, reference, expected)
}

// The same of each of these rows.
fn links_become_in(alloc: Global, tree: &TreeMoves<'_>, links: &[Link]) -> Result<(), Fail> {
    for link in links {
        link_becomes(alloc, tree, *link)?;
    }
    Ok(())
}

// The same, after these moves.
fn links_become_after(
    alloc: Global,
    moves: &[(RelativePath<'_>, RelativePath<'_>)],
    links: &[Link],
) -> Result<(), Fail> {
    let tree = TreeMoves::new(alloc, moves)?;
    links_become_in(alloc, &tree, links)
}

// The same, after the moves of a text.
fn links_become(alloc: Global, moves: &str, links: &[Link]) -> Result<(), Fail> {
    let moves = read_moves(alloc, moves)?;
    links_become_after(alloc, &moves, links)
}

// Links before a move of `docs` to `guide`.
const TO_A_DIRECTORY: [Link; 9] = [
    ("index.md", "docs/a.md", "guide/a.md"),
    ("index.md", "docs", "guide"),
    ("index.md", "./docs/sub/../a.md", "guide/a.md"),
    ("index.md", "docs2/a.md", "as it is"),
    ("x/y.md", "../docs/img/x.png", "../guide/img/x.png"),
    ("x/y.md", "../docs2", "as it is"),
    ("index.md", "", "as it is"),
    ("index.md", ".", "as it is"),
    ("index.md", "./b.md", "as it is"),
];

#[test]
fn links_to_a_directory_that_moves(rt: HostRuntime) -> Result<(), Fail> {
    links_become(rt.alloc(), "docs > guide", &TO_A_DIRECTORY)
}

// Links before a move of `docs` to `new/guide`.
const OF_A_PAGE: [Link; 11] = [
    ("docs/a.md", "img/x.png", "as it is"),
    ("docs/a.md", "./b.md", "as it is"),
    ("docs/sub/c.md", "../a.md", "as it is"),
    ("docs/a.md", "../docs/b.md", "b.md"),
    ("docs/a.md", "../index.md", "../../index.md"),
    ("docs/a.md", "..", "../.."),
    ("docs/a.md", "", "as it is"),
    ("docs/a.md", ".", "as it is"),
    ("docs/./a.md", "../docs2/x", "../../docs2/x"),
    ("docs", "docs/a.md", "guide/a.md"),
    ("docs", "a.md", "../a.md"),
];

#[test]
fn links_of_a_page_in_a_directory_that_moves(rt: HostRuntime) -> Result<(), Fail> {
    links_become(rt.alloc(), "docs > new/guide", &OF_A_PAGE)
}

// The nearest move counts, for the page and for the target.
const WITHIN_MOVES: [Link; 6] = [
    ("docs/c.md", "a.md", "../b.md"),
    ("docs/a.md", "c.md", "guide/c.md"),
    ("docs/sub/e.md", "deep/g.md", "../../d/g.md"),
    ("docs/sub/deep/g.md", "../e.md", "../guide/sub/e.md"),
    ("docs/sub/deep/f/g.md", "../h.md", "as it is"),
    ("docs/sub/deep/g.md", "../../a.md", "../b.md"),
];

#[test]
fn links_with_moves_within_moves(rt: HostRuntime) -> Result<(), Fail> {
    links_become(
        rt.alloc(),
        "docs > guide, docs/sub/deep > d, docs/a.md > b.md",
        &WITHIN_MOVES,
    )
}

// Links before moves of three directories, two of them to another depth.
const ABOVE_THE_ROOT: [Link; 7] = [
    ("docs/a.md", "../../issues", "as it is"),
    ("docs/sub/a.md", "../../../issues", "as it is"),
    (
        "deep/a.md",
        "../../issues",
        "! reference climbs above the root",
    ),
    ("index.md", "../issues", "as it is"),
    (
        "flat/b/a.md",
        "../../../issues",
        "! reference climbs above the root",
    ),
    ("flat/b/a.md", "../..", ".."),
    (
        "flat/b/a.md",
        "../../../flat/b/c.md",
        "! reference climbs above the root",
    ),
];

#[test]
fn links_above_the_root(rt: HostRuntime) -> Result<(), Fail> {
    links_become(
        rt.alloc(),
        "docs > guide, deep > deep/er, flat/b > b",
        &ABOVE_THE_ROOT,
    )
}

// Links before a move of `out` above the root.
const TO_ABOVE_THE_ROOT: [Link; 4] = [
    ("out/a.md", "../index.md", "! no path"),
    ("out/a.md", "b.md", "as it is"),
    ("out/a.md", "../out/b.md", "as it is"),
    ("index.md", "out/a.md", "! reference climbs above the root"),
];

#[test]
fn links_with_a_new_path_above_the_root(rt: HostRuntime) -> Result<(), Fail> {
    links_become(rt.alloc(), "out > ../out", &TO_ABOVE_THE_ROOT)
}

// A page before moves, a reference in it, the file to which it leads, and what the reference becomes, `as it is`, or
// an error's words after `! `.
type Found = (&'static str, &'static str, &'static str, &'static str);

// References before a move of `docs` to `guide`, of `deep` to another depth, and of `out` above the root.
const OF_FILES: [Found; 12] = [
    ("index.md", "docs/./a.md", "docs/a.md", "guide/a.md"),
    ("docs/a.md", "img/x.png", "docs/img/x.png", "as it is"),
    ("docs/sub/a.md", "../../docs//b.md", "docs/b.md", "../b.md"),
    ("docs2/a.md", "./x/../b.md", "docs2/b.md", "as it is"),
    ("docs/a.md", "", "docs", "as it is"),
    ("docs/a.md", "..", "", "as it is"),
    (
        "deep/a.md",
        "../../issues",
        "../issues",
        "! reference climbs above the root",
    ),
    ("docs/a.md", "../../issues", "../issues", "as it is"),
    (
        "index.md",
        "out/a.md",
        "out/a.md",
        "! reference climbs above the root",
    ),
    ("out/a.md", "../index.md", "index.md", "! no path"),
    ("out/a.md", "b.md", "out/b.md", "as it is"),
    ("../c.md", "docs/a.md", "../docs/a.md", "as it is"),
];

// Fails where a reference in a page leads to another file than is expected, or becomes something else.
fn leads_to(
    alloc: Global,
    moves: &TreeMoves<'_>,
    page: &PageMove,
    (_, reference, file, expected): Found,
) -> Result<(), Fail> {
    let found = moves.reference_in(alloc, page, RelativePath::new(reference))?;
    let MovedReference { file: found, moved } = found;
    is_at(reference, &found, file)?;
    gives_text(reference, told_of(alloc, moved), expected)
}

// The same of each of these rows.
fn all_lead(alloc: Global, moves: &TreeMoves<'_>, rows: &[Found]) -> Result<(), Fail> {
    for row in rows {
        let path = NormalPath::of(alloc, RelativePath::new(row.0))?;
        let page = moves.moved_page(alloc, &path)?;
        leads_to(alloc, moves, &page, *row)?;
    }
    Ok(())
}

#[test]
fn files_of_references_before_the_moves(rt: HostRuntime) -> Result<(), Fail> {
    let alloc = rt.alloc();
    let moves = read_moves(alloc, "docs > guide, deep > deep/er, out > ../out")?;
    let moves = TreeMoves::new(alloc, &moves)?;
    all_lead(alloc, &moves, &OF_FILES)
}
