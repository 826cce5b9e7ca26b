//! Files that move.
use super::marks::{begin, end};
use super::{directory_of, end_with, end_with_normal, long_text};
use crate::tests::{as_paths, same, text_of};
use relative_path::{RelativePath, RelativePathBuf};
use relative_path_moves::{
    Move, MoveError, MoveTable, MoveTableError, MovedReference, PageMove, ReferenceError,
    TreeMoves, moved,
};
use relative_path_places::NormalPath;
use std::alloc::{AllocError, Global};
use std::fmt::Debug;
use std::test::Fail;

// Moves of two pages.
fn page_moves() -> [(RelativePath<'static>, RelativePath<'static>); 2] {
    [("a.md", "x/a.md"), ("b.md", "y/b.md")].map(as_paths)
}

// A move of a directory.
fn docs_moves() -> [(RelativePath<'static>, RelativePath<'static>); 1] {
    [("docs", "guide")].map(as_paths)
}

// The mark after a call. Fails if no allocation failed and the result has another text.
fn end_with_way(
    alloc: Global,
    answer: Result<RelativePathBuf, MoveError>,
    text: &str,
) -> Result<(), Fail> {
    match answer {
        Ok(way) => end_with(alloc, "a way", text_of(&way), text),
        Err(error) => {
            end(alloc, true)?;
            same("a refusal", error, MoveError::OutOfMemory)
        }
    }
}

// What a reference of a file that moves becomes.
fn ask_one_move(
    alloc: Global,
    paths: (&str, &str),
    reference: &str,
    way: &str,
) -> Result<(), Fail> {
    let moves = [as_paths(paths)];
    begin(alloc);
    let answer = moved(alloc, &moves, 0, RelativePath::new(reference));
    end_with_way(alloc, answer, way)
}

// What the directory of a long path becomes.
fn ask_a_long_move(alloc: Global, long: &str) -> Result<(), Fail> {
    ask_one_move(alloc, (long, "b"), ".", directory_of(long))
}

// Requests: 2s 9 488 4s 9 2s 2s 15 = 1, 1s 4 488 = 0, 524288s 1048576 488 524288s 1048573 524287s 1048573 = 1
#[test]
fn one_move(rt: HostRuntime) -> Result<(), Fail> {
    let first = ("docs/a.md", "docs/sub/b.md");
    ask_one_move(rt.alloc(), first, "../img/x.png", "../../img/x.png")?;
    ask_one_move(rt.alloc(), ("a.md", "b.md"), "", "")?;
    ask_a_long_move(rt.alloc(), long_text(rt.alloc())?.as_str())
}

// Requests: 1s 4 488 1s 4 1s 4 1s 2s 9 = 1
#[test]
fn two_moves(rt: HostRuntime) -> Result<(), Fail> {
    let moves = page_moves();
    let reference = RelativePath::new("b.md");
    begin(rt.alloc());
    let answer = moved(rt.alloc(), &moves, 0, reference);
    end_with_way(rt.alloc(), answer, "../y/b.md")
}

// Requests: = 0
#[test]
fn a_move_without_a_file_name(rt: HostRuntime) -> Result<(), Fail> {
    let moves = [("a", "b"), ("..", "c"), ("./a", "d")].map(as_paths);
    begin(rt.alloc());
    let answer = moved(rt.alloc(), &moves, 0, RelativePath::new("x"));
    let error = answer.err();
    end(rt.alloc(), error == Some(MoveError::OutOfMemory))?;
    same("a name", error, Some(MoveError::NoFileName(1)))
}

// The mark after a call that makes a table of moves. Fails if no allocation failed.
fn end_refused(alloc: Global, error: MoveTableError) -> Result<(), Fail> {
    end(alloc, true)?;
    same("a refusal", error, MoveTableError::OutOfMemory)
}

fn makes(alloc: Global, moves: &[(RelativePath<'_>, RelativePath<'_>)]) -> Result<(), Fail> {
    begin(alloc);
    let answer = MoveTable::new(alloc, moves);
    match answer {
        Ok(table) => end_with(alloc, "a table", table.len(), moves.len()),
        Err(error) => end_refused(alloc, error),
    }
}

// A table of the move of one file.
fn makes_of_one(alloc: Global, old: &str) -> Result<(), Fail> {
    makes(alloc, &[as_paths((old, "b"))])
}

// Requests: 1s 4 488 1s 4 = 3, = 0, 524288s 1048576 488 = 2
#[test]
fn a_table(rt: HostRuntime) -> Result<(), Fail> {
    makes(rt.alloc(), &page_moves())?;
    makes(rt.alloc(), &[])?;
    makes_of_one(rt.alloc(), long_text(rt.alloc())?.as_str())
}

// Requests: 1s 1 488 2s 1 = 0
#[test]
fn a_table_with_one_old_path_twice(rt: HostRuntime) -> Result<(), Fail> {
    let moves = [("a", "b"), ("./a", "c")].map(as_paths);
    begin(rt.alloc());
    let answer = MoveTable::new(rt.alloc(), &moves);
    let expected = MoveTableError::SameOld(0, 1);
    end_with_error(
        rt.alloc(),
        answer.err(),
        MoveTableError::OutOfMemory,
        expected,
    )
}

// The mark after a call. Fails if no allocation failed and the error is another, or there is none.
fn end_with_error<E: PartialEq + Debug + Drop>(
    alloc: Global,
    error: Option<E>,
    out_of_memory: E,
    expected: E,
) -> Result<(), Fail> {
    if error == Some(out_of_memory) {
        end(alloc, true)
    } else {
        end_with(alloc, "an error", error, Some(expected))
    }
}

// The same of a reference that climbs above the root.
fn end_above_root(alloc: Global, error: Option<ReferenceError>) -> Result<(), Fail> {
    end_with_error(
        alloc,
        error,
        ReferenceError::OutOfMemory,
        ReferenceError::AboveRoot,
    )
}

// References of the first file of a table of two, and one that climbs above the root.
fn ask(alloc: Global, table: &MoveTable<'_>, long: &str) -> Result<(), Fail> {
    if table.len() < 2 {
        return Err(Fail::new("two moves"));
    }
    begin(alloc);
    let answer = table.moved(alloc, 0, RelativePath::new("b.md"));
    end_with_way(alloc, answer.map_err(MoveError::from), "../y/b.md")?;
    begin(alloc);
    let answer = table.moved(alloc, 1, RelativePath::new("../a.md"));
    end_above_root(alloc, answer.err())?;
    begin(alloc);
    let answer = table.moved(alloc, 0, RelativePath::new(""));
    end_with_way(alloc, answer.map_err(MoveError::from), "..")?;
    begin(alloc);
    let answer = table.moved(
        alloc,
        0,
        RelativePath::new(long.strip_prefix("../").unwrap_or("")),
    );
    end_with_way(alloc, answer.map_err(MoveError::from), long)
}

// The long text after a climb.
fn long_climb(alloc: Global) -> Result<String, AllocError> {
    let mut long = "../".to_string(alloc)?;
    long.push_str(long_text(alloc)?.as_str())?;
    Ok(long)
}

// Requests: 1s 4 1s 2s 9 = 1, 2s 7 = 0, 1s 2 = 1, 524288s 1048576 1s 524288s 1048579 = 1
#[test]
fn a_reference_of_a_table(rt: HostRuntime) -> Result<(), Fail> {
    let moves = page_moves();
    let table = MoveTable::new(rt.alloc(), &moves)?;
    ask(rt.alloc(), &table, long_climb(rt.alloc())?.as_str())
}

// Where a file is after the moves.
fn ask_of_a_file(alloc: Global, table: &MoveTable<'_>, file: &str, now: &str) -> Result<(), Fail> {
    begin(alloc);
    let answer = table.path_after(alloc, RelativePath::new(file));
    match answer {
        Ok(path) => end_with(alloc, "a file", path.as_str(), now),
        Err(_) => end(alloc, true),
    }
}

fn ask_of_files(alloc: Global, table: &MoveTable<'_>) -> Result<(), Fail> {
    ask_of_a_file(alloc, table, "./a.md", "x/a.md")?;
    ask_of_a_file(alloc, table, "", "")?;
    let long = long_text(alloc)?;
    ask_of_a_file(alloc, table, long.as_str(), long.as_str())
}

// Requests: 2s 4 = 0, = 0, 524288s 1048576 = 0
#[test]
fn the_path_of_a_file(rt: HostRuntime) -> Result<(), Fail> {
    let moves = page_moves();
    let table = MoveTable::new(rt.alloc(), &moves)?;
    ask_of_files(rt.alloc(), &table)
}

fn plants(alloc: Global, moves: &[(RelativePath<'_>, RelativePath<'_>)]) -> Result<(), Fail> {
    begin(alloc);
    let answer = TreeMoves::new(alloc, moves);
    match answer {
        Ok(_) => end(alloc, false),
        Err(error) => end_refused(alloc, error),
    }
}

// Requests: 80 1s 4 1s 5 4 488 = 5, = 0
#[test]
fn a_tree(rt: HostRuntime) -> Result<(), Fail> {
    plants(rt.alloc(), &docs_moves())?;
    plants(rt.alloc(), &[])
}

// Requests: 1s 4 1s 5 = 2
#[test]
fn a_move(rt: HostRuntime) -> Result<(), Fail> {
    let [old, new] = ["docs", "guide"].map(RelativePath::new);
    begin(rt.alloc());
    let answer = Move::of(rt.alloc(), old, new);
    match answer {
        Ok(a) => end_with(rt.alloc(), "a move", normal_text(a.new.normal()), "guide"),
        Err(_) => end(rt.alloc(), true),
    }
}

// Requests: 80 1s 4 1s 5 = 3
#[test]
fn moves_of_pairs(rt: HostRuntime) -> Result<(), Fail> {
    begin(rt.alloc());
    let answer = Move::of_pairs(rt.alloc(), &docs_moves());
    match answer {
        Ok(moves) => end_with(rt.alloc(), "moves", moves.len(), 1),
        Err(_) => end(rt.alloc(), true),
    }
}

// Two moves to one path.
fn moves_to_one() -> [(RelativePath<'static>, RelativePath<'static>); 2] {
    [("a", "c/d"), ("b", "c//d")].map(as_paths)
}

// Requests: 3 488 3 = 0
#[test]
fn the_same_new_path(rt: HostRuntime) -> Result<(), Fail> {
    let moves = moves_to_one();
    let tree = TreeMoves::new(rt.alloc(), &moves)?;
    begin(rt.alloc());
    let answer = tree.same_new(rt.alloc());
    match answer {
        Ok(pair) => end_with(rt.alloc(), "a pair", pair, Some((0, 1))),
        Err(_) => end(rt.alloc(), true),
    }
}

// Where a file is after a move of a directory.
fn ask_of_a_tree(alloc: Global, tree: &TreeMoves<'_>, file: &str, now: &str) -> Result<(), Fail> {
    begin(alloc);
    let answer = tree.path_after(alloc, RelativePath::new(file));
    end_with_normal(alloc, "a file", answer, now)
}

// Files before a move of `docs` to `guide`, and after it.
const FILES: [(&str, &str); 4] = [
    ("docs/a", "guide/a"),
    ("docs2/a", "docs2/a"),
    ("", ""),
    ("../a", "../a"),
];

fn ask_of_files_of_a_tree(alloc: Global, tree: &TreeMoves<'_>) -> Result<(), Fail> {
    for (file, now) in &FILES {
        ask_of_a_tree(alloc, tree, file, now)?;
    }
    let long = long_text(alloc)?;
    ask_of_a_tree(alloc, tree, long.as_str(), long.as_str())
}

// Requests: 2s 6 7 = 1, 2s 7 = 1, = 0, 2s 4 = 1, 524288s 1048576 = 1
#[test]
fn the_path_of_a_file_in_a_tree(rt: HostRuntime) -> Result<(), Fail> {
    let moves = docs_moves();
    let tree = TreeMoves::new(rt.alloc(), &moves)?;
    ask_of_files_of_a_tree(rt.alloc(), &tree)
}

// The new path of a file after a move of a directory, if the move takes it along.
fn ask_if_taken(
    alloc: Global,
    tree: &TreeMoves<'_>,
    file: &str,
    now: Option<&str>,
) -> Result<(), Fail> {
    let path = NormalPath::of(alloc, RelativePath::new(file))?;
    begin(alloc);
    let answer = tree.new_path(alloc, &path);
    match answer {
        Ok(path) => end_with(alloc, file, path.as_ref().map(normal_text), now),
        Err(_) => end(alloc, true),
    }
}

fn normal_text(path: &NormalPath) -> &str {
    path.as_relative_path().as_str()
}

// Requests: 7 = 1, = 0, = 0, = 0
#[test]
fn the_new_path_of_a_file_in_a_tree(rt: HostRuntime) -> Result<(), Fail> {
    let moves = docs_moves();
    let tree = TreeMoves::new(rt.alloc(), &moves)?;
    ask_if_taken(rt.alloc(), &tree, "docs/a", Some("guide/a"))?;
    ask_if_taken(rt.alloc(), &tree, "docs2/a", None)?;
    ask_if_taken(rt.alloc(), &tree, "", None)?;
    ask_if_taken(rt.alloc(), &tree, "../a", None)
}

// Where a file with a normal path is after a move of a directory.
fn ask_of_a_normal_path(
    alloc: Global,
    tree: &TreeMoves<'_>,
    file: &str,
    now: &str,
) -> Result<(), Fail> {
    let path = NormalPath::of(alloc, RelativePath::new(file))?;
    begin(alloc);
    let answer = tree.normal_after(alloc, path.view());
    end_with_normal(alloc, "a file", answer, now)
}

// Requests: 7 = 1, 7 = 1, = 0, 4 = 1
#[test]
fn the_path_of_a_normal_path_in_a_tree(rt: HostRuntime) -> Result<(), Fail> {
    let moves = docs_moves();
    let tree = TreeMoves::new(rt.alloc(), &moves)?;
    for (file, now) in &FILES {
        ask_of_a_normal_path(rt.alloc(), &tree, file, now)?;
    }
    Ok(())
}

// The path of a page after the moves, and its directories before and after them.
fn texts_of(moved: &PageMove) -> (&str, &str, &str) {
    (
        moved.path.as_relative_path().as_str(),
        moved.before.as_relative_path().as_str(),
        moved.after.as_relative_path().as_str(),
    )
}

// The mark after a call. Fails if no allocation failed and the result is another page.
fn end_with_page(
    alloc: Global,
    page: &str,
    answer: Result<PageMove, AllocError>,
    now: (&str, &str, &str),
) -> Result<(), Fail> {
    match answer {
        Ok(moved) => end_with(alloc, page, texts_of(&moved), now),
        Err(_) => end(alloc, true),
    }
}

// The path of a page after a move of a directory, and its directory before and after the move.
fn ask_of_a_page(
    alloc: Global,
    tree: &TreeMoves<'_>,
    page: &str,
    now: (&str, &str, &str),
) -> Result<(), Fail> {
    let path = NormalPath::of(alloc, RelativePath::new(page))?;
    begin(alloc);
    let answer = tree.moved_page(alloc, &path);
    end_with_page(alloc, page, answer, now)
}

// Pages, their paths after a move of `docs` to `guide`, and their directories before and after it.
const PAGES: [(&str, (&str, &str, &str)); 3] = [
    ("docs/a", ("guide/a", "docs", "guide")),
    ("c/d", ("c/d", "c", "c")),
    ("", ("", "", "")),
];

fn ask_of_pages(alloc: Global, tree: &TreeMoves<'_>) -> Result<(), Fail> {
    for (page, now) in &PAGES {
        ask_of_a_page(alloc, tree, page, *now)?;
    }
    ask_of_a_long_page(alloc, tree, long_text(alloc)?.as_str())
}

// The same of a page with a long path.
fn ask_of_a_long_page(alloc: Global, tree: &TreeMoves<'_>, long: &str) -> Result<(), Fail> {
    let above = directory_of(long);
    ask_of_a_page(alloc, tree, long, (long, above, above))
}

// Requests: 4 7 5 = 3, 1 3 1 = 3, = 0, 1048573 1048576 1048573 = 3
#[test]
fn a_page_of_a_tree(rt: HostRuntime) -> Result<(), Fail> {
    let moves = docs_moves();
    let tree = TreeMoves::new(rt.alloc(), &moves)?;
    ask_of_pages(rt.alloc(), &tree)
}

// The mark after a call. Fails if no allocation failed and a reference becomes another text.
fn end_with_change(
    alloc: Global,
    reference: &str,
    answer: Result<Option<RelativePathBuf>, ReferenceError>,
    text: Option<&str>,
) -> Result<(), Fail> {
    match answer {
        Ok(way) => end_with(alloc, reference, way.as_ref().map(text_of), text),
        Err(error) => {
            end(alloc, true)?;
            same(reference, error, ReferenceError::OutOfMemory)
        }
    }
}

// A reference in a page after a move of a directory, and what it becomes, if that is another.
fn ask_in_a_tree(
    alloc: Global,
    tree: &TreeMoves<'_>,
    (page, reference): (&str, &str),
    text: Option<&str>,
) -> Result<(), Fail> {
    let path = NormalPath::of(alloc, RelativePath::new(page))?;
    let page = tree.moved_page(alloc, &path)?;
    begin(alloc);
    let answer = tree.moved_in(alloc, &page, RelativePath::new(reference));
    end_with_change(alloc, reference, answer, text)
}

// A reference that climbs above the root after a move of `docs` to `new/guide`.
fn ask_in_a_deeper_tree(alloc: Global) -> Result<(), Fail> {
    let moves = [("docs", "new/guide")].map(as_paths);
    let tree = TreeMoves::new(alloc, &moves)?;
    ask_above_root(alloc, &tree)
}

fn ask_above_root(alloc: Global, tree: &TreeMoves<'_>) -> Result<(), Fail> {
    let path = NormalPath::of(alloc, RelativePath::new("docs/a"))?;
    let page = tree.moved_page(alloc, &path)?;
    begin(alloc);
    let answer = tree.moved_in(alloc, &page, RelativePath::new("../../x"));
    end_above_root(alloc, answer.err())
}

// A reference in a page, and what it becomes, if that is another.
type Reference = ((&'static str, &'static str), Option<&'static str>);

// References before a move of `docs` to `guide`.
const REFERENCES: [Reference; 4] = [
    (("c/d", "../docs/b"), Some("../guide/b")),
    (("d", "docs/b"), Some("guide/b")),
    (("docs/a", "b"), None),
    (("c/d", ""), None),
];

// What the references of these rows become.
fn ask_for_those_of(alloc: Global, tree: &TreeMoves<'_>, rows: &[Reference]) -> Result<(), Fail> {
    for (link, text) in rows {
        ask_in_a_tree(alloc, tree, *link, *text)?;
    }
    Ok(())
}

fn ask_for_references(alloc: Global, tree: &TreeMoves<'_>) -> Result<(), Fail> {
    ask_for_those_of(alloc, tree, &REFERENCES)?;
    ask_in_a_deeper_tree(alloc)?;
    ask_in_a_tree(alloc, tree, ("c/d", long_text(alloc)?.as_str()), None)
}

// Requests: 4s 6 7 11 = 1, 2s 6 7 8 = 1, 2s 6 7 = 0, 1s 1 = 0, 4s 4 = 0, 524289s 1048578 = 0
#[test]
fn a_reference_in_a_tree(rt: HostRuntime) -> Result<(), Fail> {
    let moves = docs_moves();
    let tree = TreeMoves::new(rt.alloc(), &moves)?;
    ask_for_references(rt.alloc(), &tree)
}

// Returns the file of a reference, and what the reference becomes. Fails where either allocation failed, and then
// holds nothing.
fn whole(answer: Result<MovedReference, AllocError>) -> Result<MovedReference, ReferenceError> {
    let found = answer?;
    match found.moved {
        Err(ReferenceError::OutOfMemory) => Err(ReferenceError::OutOfMemory),
        _ => Ok(found),
    }
}

// The mark after a call. Fails if no allocation failed and a reference leads to another file, or becomes another text.
fn end_with_reference(
    alloc: Global,
    reference: &str,
    answer: Result<MovedReference, ReferenceError>,
    (file, becomes): (&str, Result<Option<&str>, ReferenceError>),
) -> Result<(), Fail> {
    match answer {
        Ok(found) => {
            end(alloc, false)?;
            same(reference, found.file.as_relative_path().as_str(), file)?;
            is_moved(reference, &found.moved, becomes)
        }
        Err(error) => {
            end(alloc, true)?;
            same(reference, error, ReferenceError::OutOfMemory)
        }
    }
}

// Fails where a reference becomes another text than is expected, or fails otherwise.
fn is_moved(
    reference: &str,
    moved: &Result<Option<RelativePathBuf>, ReferenceError>,
    becomes: Result<Option<&str>, ReferenceError>,
) -> Result<(), Fail> {
    match moved {
        Ok(way) => same(reference, Ok(way.as_ref().map(text_of)), becomes),
        Err(error) => same(reference, Err(*error), becomes),
    }
}

// A page, a reference in it, the file to which it leads before moves, and what it becomes.
type FoundReference = (
    &'static str,
    &'static str,
    &'static str,
    Result<Option<&'static str>, ReferenceError>,
);

// A reference in a page after a move of a directory, its file, and what it becomes.
fn find_in_a_tree(
    alloc: Global,
    moves: &TreeMoves<'_>,
    (page, reference): (&str, &str),
    expected: (&str, Result<Option<&str>, ReferenceError>),
) -> Result<(), Fail> {
    let path = NormalPath::of(alloc, RelativePath::new(page))?;
    let page = moves.moved_page(alloc, &path)?;
    begin(alloc);
    let answer = moves.reference_in(alloc, &page, RelativePath::new(reference));
    end_with_reference(alloc, reference, whole(answer), expected)
}

// References before a move of `docs` to `new/guide`.
const FOUND_REFERENCES: [FoundReference; 5] = [
    ("c/d", "../docs/b", "docs/b", Ok(Some("../new/guide/b"))),
    ("d", "docs/b", "docs/b", Ok(Some("new/guide/b"))),
    ("docs/a", "b", "docs/b", Ok(None)),
    ("c/d", "", "c", Ok(None)),
    ("docs/a", "../../x", "../x", Err(ReferenceError::AboveRoot)),
];

fn find_references(alloc: Global, moves: &TreeMoves<'_>) -> Result<(), Fail> {
    for (page, reference, file, becomes) in &FOUND_REFERENCES {
        find_in_a_tree(alloc, moves, (page, reference), (file, *becomes))?;
    }
    let long = long_text(alloc)?;
    find_in_a_tree(
        alloc,
        moves,
        ("d", long.as_str()),
        (long.as_str(), Ok(None)),
    )
}

// Requests: 4s 6 11 15 = 2, 2s 6 11 12 = 2, 2s 6 11 = 1, 1s 1 = 1, 4s 4 = 1, 524288s 1048576 = 1
#[test]
fn a_reference_in_a_tree_with_its_file(rt: HostRuntime) -> Result<(), Fail> {
    let moves = [("docs", "new/guide")].map(as_paths);
    let moves = TreeMoves::new(rt.alloc(), &moves)?;
    find_references(rt.alloc(), &moves)
}

// A reference of a page that stays, and what it becomes, if that is another.
fn ask_in_a_page(
    alloc: Global,
    table: &MoveTable<'_>,
    (page, reference): (&str, &str),
    text: Option<&str>,
) -> Result<(), Fail> {
    begin(alloc);
    let answer = table.moved_in(alloc, RelativePath::new(page), RelativePath::new(reference));
    end_with_change(alloc, reference, answer, text)
}

// References before moves of two pages.
const OF_A_PAGE: [Reference; 3] = [
    (("c/d.md", "../b.md"), Some("../y/b.md")),
    (("c/d.md", "./e.md"), None),
    (("", ""), None),
];

fn ask_in_pages(alloc: Global, table: &MoveTable<'_>) -> Result<(), Fail> {
    for (link, text) in &OF_A_PAGE {
        ask_in_a_page(alloc, table, *link, *text)?;
    }
    let long = long_text(alloc)?;
    ask_in_a_page(alloc, table, ("c/d.md", long.as_str()), None)
}

// Requests: 2s 6 3s 4 9 3s 2s 1s 2s 9 = 1, 2s 6 3s 6 8 3s 2s = 0, = 0,
// 2s 6 524289s 1048578 1048578 524289s 524289s = 0
#[test]
fn a_reference_of_a_page(rt: HostRuntime) -> Result<(), Fail> {
    let moves = page_moves();
    let table = MoveTable::new(rt.alloc(), &moves)?;
    ask_in_pages(rt.alloc(), &table)
}
