use super::{
    Case, all_become, as_paths, becomes, gives_text, read_move, read_moves, same, text_of, told_of,
};
use relative_path::RelativePath;
use relative_path_moves::{MoveError, MoveTable, MoveTableError, ReferenceError};
use std::alloc::{AllocError, Global};
use std::fmt::Display;
use std::test::Fail;

const MOVED: [Case; 5] = [
    (
        "a file that moves too",
        "a.md > x/a.md, b.md > y/b.md",
        "b.md",
        "../y/b.md",
    ),
    (
        "the other of two that change places",
        "a > b, b > a",
        "b",
        "a",
    ),
    ("itself, which changes places", "a > b, b > a", "a", "b"),
    (
        "a file that moves, by its place",
        "./d//../p/./a.md > q/a.md, x/../img/i.png > j.png",
        "../img/./i.png",
        "../j.png",
    ),
    (
        "a file that stays, by its place",
        "./d//../p/./a.md > q/a.md, x/../img/i.png > j.png",
        "../img/k.png",
        "../img/k.png",
    ),
];

#[test]
fn answers_where_the_target_is_now(rt: HostRuntime) -> Result<(), Fail> {
    all_become(rt.alloc(), &MOVED)
}

const REFUSED: [Case; 3] = [
    (
        "the first without a file name",
        "a > b, .. > c, ./a > d",
        "x",
        "! move 1 lacks a file name",
    ),
    (
        "two with one old path",
        "a > b, ./a > c",
        "../..",
        "! moves 0 and 1 have the same old path",
    ),
    (
        "the first two with one old path",
        "a > n, b > n, ./b > n, x/../a > n",
        "y",
        "! moves 0 and 3 have the same old path",
    ),
];

#[test]
fn refuses_moves(rt: HostRuntime) -> Result<(), Fail> {
    all_become(rt.alloc(), &REFUSED)
}

// Words for a case, moves, a page and its reference, and what that becomes.
const IN_A_PAGE: [Case; 7] = [
    (
        "a page that stays, and a file that moves",
        "img/x.png > art/y.png",
        "docs/a.md > ../img/x.png",
        "../art/y.png",
    ),
    (
        "a page and a file that stay",
        "img/x.png > art/y.png",
        "docs/a.md > .././docs//b.md",
        "as it is",
    ),
    (
        "a page with a new name, and a file that stays",
        "docs/a.md > docs/c.md",
        "docs/a.md > ./b.md",
        "as it is",
    ),
    (
        "a page and a file that move together",
        "docs/a.md > guide/a.md, docs/b.md > guide/b.md",
        "./docs/a.md > ./b.md",
        "as it is",
    ),
    (
        "a page that moves, and a file that stays",
        "docs/a.md > guide/a.md, docs/b.md > guide/b.md",
        "docs/a.md > c.md",
        "../docs/c.md",
    ),
    (
        "a page that stays, and what climbs",
        "docs/a.md > guide/a.md",
        "docs/b.md > ../../c.md",
        "! reference climbs above the root",
    ),
    (
        "a page that moves above the root",
        "docs/a.md > ../a.md",
        "docs/a.md > b.md",
        "! no path",
    ),
];

// Fails where a reference of a page becomes another text than is expected after these moves.
fn becomes_in_a_page(
    alloc: Global,
    case: &str,
    moves: &[(RelativePath<'_>, RelativePath<'_>)],
    (page, reference): (RelativePath<'_>, RelativePath<'_>),
    expected: &str,
) -> Result<(), Fail> {
    let table = MoveTable::new(alloc, moves)?;
    let answer = table.moved_in(alloc, page, reference);
    gives_text(case, told_of(alloc, answer), expected)
}

// The same of the moves of a case.
fn link_becomes_in(alloc: Global, (case, moves, link, expected): Case) -> Result<(), Fail> {
    let moves = read_moves(alloc, moves)?;
    becomes_in_a_page(alloc, case, &moves, read_move(link), expected)
}

#[test]
fn answers_in_pages(rt: HostRuntime) -> Result<(), Fail> {
    for case in &IN_A_PAGE {
        link_becomes_in(rt.alloc(), *case)?;
    }
    Ok(())
}

/// So many paths, each its number between these two texts.
pub fn numbered(
    alloc: Global,
    count: usize,
    before: &str,
    after: &str,
) -> Result<Vec<String>, AllocError> {
    let mut paths = Vec::new(alloc);
    for k in 0..count {
        paths.push(format!(in alloc; "{before}{k}{after}")?)?;
    }
    Ok(paths)
}

/// The moves from each of these paths to the other in its place.
pub fn paired<'a>(
    alloc: Global,
    olds: &'a [String],
    news: &'a [String],
) -> Result<Vec<(RelativePath<'a>, RelativePath<'a>)>, AllocError> {
    let mut moves = Vec::new(alloc);
    for (old, new) in olds.iter().zip(news) {
        moves.push(as_paths((old.as_str(), new.as_str())))?;
    }
    Ok(moves)
}

// Fails where a file's reference to file number 500, which is a page of its own directory, becomes another
// text than is expected.
fn refers_to_one(alloc: Global, table: &MoveTable<'_>, i: usize) -> Result<(), Fail> {
    if i >= table.len() {
        return Err(Fail::new("no such file"));
    }
    let way = table.moved(alloc, i, RelativePath::new("../docs/500.md"))?;
    let expected = if i == 500 {
        "page.md"
    } else {
        "../500/page.md"
    };
    same("500.md", (i, text_of(&way)), (i, expected))
}

// Asks a table for this reference of each of its files.
fn all_refer_to_one(alloc: Global, table: &MoveTable<'_>) -> Result<(), Fail> {
    for i in 0..table.len() {
        refers_to_one(alloc, table, i)?;
    }
    Ok(())
}

// Asks a table of a thousand moves for ten references of each file.
fn refers_ten_times(alloc: Global, table: &MoveTable<'_>) -> Result<(), Fail> {
    same("a table", table.len(), 1_000)?;
    for _ in 0..10 {
        all_refer_to_one(alloc, table)?;
    }
    Ok(())
}

// Asks these thousand moves for a reference of one file, and a table of them for those of each.
fn refers_from_each(
    alloc: Global,
    moves: &[(RelativePath<'_>, RelativePath<'_>)],
) -> Result<(), Fail> {
    becomes(alloc, "file 7", moves, 7, "./999.md", "../999/page.md")?;
    let table = MoveTable::new(alloc, moves)?;
    refers_ten_times(alloc, &table)
}

#[test]
fn answers_among_a_thousand_moves(rt: HostRuntime) -> Result<(), Fail> {
    let olds = numbered(rt.alloc(), 1_000, "docs/", ".md")?;
    let news = numbered(rt.alloc(), 1_000, "", "/page.md")?;
    let moves = paired(rt.alloc(), &olds, &news)?;
    refers_from_each(rt.alloc(), &moves)
}

#[test]
fn tells_refusals_apart() -> Result<(), Fail> {
    for (what, refusal, other) in &[
        (
            "other order",
            MoveError::SameOld(0, 1),
            MoveError::SameOld(1, 0),
        ),
        (
            "other number",
            MoveError::NoFileName(0),
            MoveError::NoFileName(1),
        ),
        ("other reason", MoveError::AboveRoot, MoveError::NoPath),
    ] {
        same(what, refusal == other, false)?;
        same(what, refusal, refusal)?;
    }
    Ok(())
}

// Fails if an error doesn't print these words, in a width and in a precision too.
fn prints<T: Display>(alloc: Global, refusal: &T, words: &str) -> Result<(), Fail> {
    let expected = format!(in alloc; "{words}|{words}|{words}|{words}")?;
    let printed = format!(in alloc; "{refusal}|{refusal:5.99}|{refusal:>99}|{refusal:.2}");
    gives_text(words, printed, expected.as_str())
}

#[test]
fn refusals_print_their_words(rt: HostRuntime) -> Result<(), Fail> {
    for (refusal, words) in &[
        (MoveError::AboveRoot, "reference climbs above the root"),
        (MoveError::NoPath, "no path"),
        (MoveError::OutOfMemory, "out of memory"),
        (MoveError::NoFileName(1_000), "move 1000 lacks a file name"),
        (
            MoveError::SameOld(10, usize::MAX),
            "moves 10 and 18446744073709551615 have the same old path",
        ),
    ] {
        prints(rt.alloc(), refusal, words)?;
    }
    Ok(())
}

#[test]
fn refusals_of_moves_print_their_words(rt: HostRuntime) -> Result<(), Fail> {
    for (refusal, words) in &[
        (
            MoveTableError::NoFileName(1_000),
            "move 1000 lacks a file name",
        ),
        (
            MoveTableError::SameOld(10, usize::MAX),
            "moves 10 and 18446744073709551615 have the same old path",
        ),
        (MoveTableError::OutOfMemory, "out of memory"),
    ] {
        prints(rt.alloc(), refusal, words)?;
    }
    Ok(())
}

#[test]
fn refusals_of_references_print_their_words(rt: HostRuntime) -> Result<(), Fail> {
    for (refusal, words) in &[
        (ReferenceError::AboveRoot, "reference climbs above the root"),
        (ReferenceError::NoPath, "no path"),
        (ReferenceError::OutOfMemory, "out of memory"),
    ] {
        prints(rt.alloc(), refusal, words)?;
    }
    Ok(())
}
