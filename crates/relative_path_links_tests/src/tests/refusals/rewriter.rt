//! The finder and the rewriter of links.
use super::long_text;
use super::marks::{begin, end, end_answered};
use crate::tests::{moves, same};
use relative_path::RelativePath;
use relative_path_links::{
    Finder, Markdown, MovedSitePage, SitePage, SiteRoot, edited, rewrite_links, rewrite_site,
    targets,
};
use relative_path_moves::{PageMove, TreeMoves};
use relative_path_places::NormalPath;
use std::alloc::{AllocError, Global};
use std::test::Fail;

// The rewriter's call between two marks. Fails if no allocation failed and the page with its edits has another text
// than is expected.
fn moved_in(
    alloc: Global,
    tree: &TreeMoves<'_>,
    moved: &PageMove,
    page: &str,
    expected: &str,
) -> Result<(), Fail> {
    let found = targets(alloc, page)?;
    begin(alloc);
    let answer = rewrite_links(alloc, page, &found, &SiteRoot::unknown(), tree, moved);
    let Ok(edits) = answer else {
        return end(alloc, true);
    };
    end_answered(alloc);
    let text = edited(alloc, page, &edits)?;
    same("a page", text.as_str(), expected)
}

// The same, on the page a.md, which the tree's moves take elsewhere.
fn first_moved_in(
    alloc: Global,
    tree: &TreeMoves<'_>,
    page: &str,
    expected: &str,
) -> Result<(), Fail> {
    let path = NormalPath::of(alloc, RelativePath::new("a.md"))?;
    let moved = tree.moved_page(alloc, &path)?;
    moved_in(alloc, tree, &moved, page, expected)
}

// The same, for a tree with these moves.
fn moved_by(alloc: Global, pairs: &[(&str, &str)], page: &str, expected: &str) -> Result<(), Fail> {
    let moves = moves(alloc, pairs)?;
    let tree = TreeMoves::new(alloc, &moves)?;
    first_moved_in(alloc, &tree, page, expected)
}

// The same, where the page alone moves.
fn moved_down(alloc: Global, page: &str, expected: &str) -> Result<(), Fail> {
    moved_by(alloc, &[("a.md", "b/a.md")], page, expected)
}

// Requests: 176 4 4 1s 4 8 7 4 4 1s 4 8 7 = 5
#[test]
fn two_links(rt: HostRuntime) -> Result<(), Fail> {
    moved_down(
        rt.alloc(),
        "[c](c.md) [d](d.md)",
        "[c](../c.md) [d](../d.md)",
    )
}

// Requests: 88 1048576 1048576 524288s 1048576 1048580 1048579 = 3
#[test]
fn a_long_link(rt: HostRuntime) -> Result<(), Fail> {
    let long = long_text(rt.alloc())?;
    let page = format!(in rt.alloc(); "[c]({long})")?;
    let expected = format!(in rt.alloc(); "[c](../{long})")?;
    moved_down(rt.alloc(), page.as_str(), expected.as_str())
}

// Requests: 88 6 4 2s 3 5 9 11 22 = 3
#[test]
fn a_link_to_a_directory_that_moves(rt: HostRuntime) -> Result<(), Fail> {
    let moves = [("a.md", "b/a.md"), ("c", "d e")];
    moved_by(rt.alloc(), &moves, "[c](c/x/#t)", "[c](../d%20e/x/#t)")
}

// Requests: 88 6 6 2s 4 7 7 9 8 = 3, 88 6 6 2s 4 8 7 = 3
#[test]
fn a_link_that_begins_with_a_dot_and_a_slash(rt: HostRuntime) -> Result<(), Fail> {
    let moves = [("c.md", "d/c.md")];
    moved_by(rt.alloc(), &moves, "[c](./c.md)", "[c](./d/c.md)")?;
    moved_down(rt.alloc(), "[c](./c.md)", "[c](../c.md)")
}

// Requests: 88 7 7 2s 7 = 2
#[test]
fn a_link_that_is_left(rt: HostRuntime) -> Result<(), Fail> {
    moved_down(rt.alloc(), "[c](../c.md)", "[c](../c.md)")
}

// Requests: = 0, = 0
#[test]
fn a_page_without_links(rt: HostRuntime) -> Result<(), Fail> {
    moved_down(rt.alloc(), "no link](", "no link](")?;
    moved_down(rt.alloc(), "", "")
}

// The call that makes the page, between two marks.
fn edited_in(
    alloc: Global,
    tree: &TreeMoves<'_>,
    moved: &PageMove,
    page: &str,
    expected: &str,
) -> Result<(), Fail> {
    let found = targets(alloc, page)?;
    let edits = rewrite_links(alloc, page, &found, &SiteRoot::unknown(), tree, moved)?;
    begin(alloc);
    let answer = edited(alloc, page, &edits);
    end_with_text(alloc, answer, expected)
}

// The mark after a call. Fails if no allocation failed and the text is another than is expected.
fn end_with_text(
    alloc: Global,
    answer: Result<String, AllocError>,
    expected: &str,
) -> Result<(), Fail> {
    match answer {
        Ok(text) => {
            end_answered(alloc);
            same("a page", text.as_str(), expected)
        }
        Err(_) => end(alloc, true),
    }
}

// The same, where the page alone moves.
fn edited_down(alloc: Global, page: &str, expected: &str) -> Result<(), Fail> {
    let moves = moves(alloc, &[("a.md", "b/a.md")])?;
    let tree = TreeMoves::new(alloc, &moves)?;
    let path = NormalPath::of(alloc, RelativePath::new("a.md"))?;
    let moved = tree.moved_page(alloc, &path)?;
    edited_in(alloc, &tree, &moved, page, expected)
}

// Requests: 25 = 1, 12 = 1, = 0
#[test]
fn a_page_with_its_edits(rt: HostRuntime) -> Result<(), Fail> {
    let expected = "[c](../c.md) [d](../d.md)";
    edited_down(rt.alloc(), "[c](c.md) [d](d.md)", expected)?;
    edited_down(rt.alloc(), "[c](../c.md)", "[c](../c.md)")?;
    edited_down(rt.alloc(), "", "")
}

// Fails where a site has another first page than this one.
fn begins_with(pages: &[MovedSitePage], path: &str, text: Option<&str>) -> Result<(), Fail> {
    let Some(first) = pages.first() else {
        return Err(Fail::new("a page"));
    };
    same("a path", first.path.as_relative_path().as_str(), path)?;
    same("a page", first.text.as_deref(), text)
}

// The mark after a call. Fails if no allocation failed and the site has another page than is expected.
fn end_with_site(
    alloc: Global,
    answer: Result<Vec<MovedSitePage>, AllocError>,
    expected: Option<&str>,
) -> Result<(), Fail> {
    match answer {
        Ok(pages) => {
            end_answered(alloc);
            begins_with(&pages, "b/a.md", expected)
        }
        Err(_) => end(alloc, true),
    }
}

// The rewriter's call between two marks, on a site of one page.
fn site_moved_in(
    alloc: Global,
    tree: &TreeMoves<'_>,
    text: &str,
    expected: Option<&str>,
) -> Result<(), Fail> {
    let path = NormalPath::of(alloc, RelativePath::new("a.md"))?;
    let page = SitePage { path: &path, text };
    begin(alloc);
    let answer = rewrite_site(alloc, &[page], &SiteRoot::unknown(), tree, tree, &Markdown);
    end_with_site(alloc, answer, expected)
}

// The same, where the page moves into a directory, and another file.
fn site_moved_down(alloc: Global, text: &str, expected: Option<&str>) -> Result<(), Fail> {
    let moves = moves(alloc, &[("a.md", "b/a.md"), ("x", "b/pre")])?;
    let tree = TreeMoves::new(alloc, &moves)?;
    site_moved_in(alloc, &tree, text, expected)
}

// Requests: 80 9 128 648 64 96 96 24 7 1 88 4 4 1s 4 8 7 12 12 128 648 64 96 96 24 = 6
#[test]
fn a_site(rt: HostRuntime) -> Result<(), Fail> {
    site_moved_down(rt.alloc(), "[c](c.md)", Some("[c](../c.md)"))
}

// Requests: 80 7 128 648 64 96 96 24 7 1 88 2 = 3
#[test]
fn a_site_whose_page_stays(rt: HostRuntime) -> Result<(), Fail> {
    site_moved_down(rt.alloc(), "[c](#c)", None)
}

// Requests: 80 9 128 648 64 96 96 24 7 1 88 1 1 1s 1 6 4 3 11 11 128 648 64 = 4
#[test]
fn a_site_whose_page_would_read_otherwise(rt: HostRuntime) -> Result<(), Fail> {
    site_moved_down(rt.alloc(), "[x](\n<x>)", None)
}

// Requests: = 0
#[test]
fn a_site_without_pages(rt: HostRuntime) -> Result<(), Fail> {
    let tree = TreeMoves::new(rt.alloc(), &[])?;
    begin(rt.alloc());
    let answer = rewrite_site(
        rt.alloc(),
        &[],
        &SiteRoot::unknown(),
        &tree,
        &tree,
        &Markdown,
    );
    end(rt.alloc(), answer.is_err())
}

fn finds(alloc: Global, page: &str, count: usize) -> Result<(), Fail> {
    begin(alloc);
    let answer = targets(alloc, page);
    match answer {
        Ok(found) => {
            end_answered(alloc);
            same(page, found.len(), count)
        }
        Err(_) => end(alloc, true),
    }
}

// Requests: 21 128 648 64 96 96 48 = 1, 648 = 0
#[test]
fn links_of_a_page(rt: HostRuntime) -> Result<(), Fail> {
    finds(rt.alloc(), "[c](c.md) ![d](d.png)", 2)?;
    finds(rt.alloc(), "", 0)
}

fn finds_by_finder(alloc: Global, page: &str, count: usize) -> Result<(), Fail> {
    begin(alloc);
    let answer = Markdown.targets(alloc, page);
    match answer {
        Ok(found) => {
            end_answered(alloc);
            same(page, found.len(), count)
        }
        Err(_) => end(alloc, true),
    }
}

// Requests: 21 128 648 64 96 96 48 = 1, 648 = 0
#[test]
fn links_of_a_page_by_a_finder(rt: HostRuntime) -> Result<(), Fail> {
    finds_by_finder(rt.alloc(), "[c](c.md) ![d](d.png)", 2)?;
    finds_by_finder(rt.alloc(), "", 0)
}
