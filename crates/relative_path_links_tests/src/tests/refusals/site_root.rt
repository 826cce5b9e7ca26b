//! Targets that lead from a site's root.
use super::marks::{begin, end, end_answered};
use crate::tests::{moves, same};
use relative_path::RelativePath;
use relative_path_links::{SiteRoot, edited, rewrite_links, targets};
use relative_path_moves::{PageMove, TreeMoves};
use relative_path_places::NormalPath;
use std::alloc::Global;
use std::test::Fail;
use target_paths::{TargetReading, TargetSyntax};

// Requests: 4 4 4 = 3
#[test]
fn a_root(rt: HostRuntime) -> Result<(), Fail> {
    let docs = NormalPath::of(rt.alloc(), RelativePath::new("docs"))?;
    begin(rt.alloc());
    let answer = SiteRoot::at(rt.alloc(), &docs);
    let Ok(root) = answer else {
        return end(rt.alloc(), true);
    };
    end_answered(rt.alloc());
    same("a root", root.start_of("/a.md").is_some(), true)
}

// The reading of a target between two marks. Fails if no allocation failed and it spells another path.
fn reads(alloc: Global, root: &SiteRoot, target: &str, path: &str) -> Result<(), Fail> {
    begin(alloc);
    let answer = root.read_target(alloc, TargetSyntax::Markdown, target);
    let Ok(reading) = answer else {
        return end(alloc, true);
    };
    end_answered(alloc);
    let found = match &reading {
        TargetReading::Path { path, .. } => path.as_str(),
        _ => "none",
    };
    same(target, found, path)
}

// Requests: 6 6 6 = 1, 4 4 = 1
#[test]
fn a_target(rt: HostRuntime) -> Result<(), Fail> {
    let docs = NormalPath::of(rt.alloc(), RelativePath::new("docs"))?;
    let root = SiteRoot::at(rt.alloc(), &docs)?;
    reads(rt.alloc(), &root, "/a.md", "./a.md")?;
    reads(rt.alloc(), &root, "a.md", "a.md")
}

// The rewriter's call between two marks. Fails if no allocation failed and the page with its edits has another text
// than is expected.
fn becomes(
    alloc: Global,
    root: &SiteRoot,
    (tree, moved): (&TreeMoves<'_>, &PageMove),
    page: &str,
    expected: &str,
) -> Result<(), Fail> {
    let found = targets(alloc, page)?;
    begin(alloc);
    let answer = rewrite_links(alloc, page, &found, root, tree, moved);
    let Ok(edits) = answer else {
        return end(alloc, true);
    };
    end_answered(alloc);
    let text = edited(alloc, page, &edits)?;
    same("a page", text.as_str(), expected)
}

// Requests: 88 6 6 6 2s 4 7 7 9 8 7 = 3
#[test]
fn a_link_from_the_root(rt: HostRuntime) -> Result<(), Fail> {
    let top = NormalPath::of(rt.alloc(), RelativePath::new(""))?;
    let root = SiteRoot::at(rt.alloc(), &top)?;
    let moves = moves(rt.alloc(), &[("c.md", "d/c.md")])?;
    let tree = TreeMoves::new(rt.alloc(), &moves)?;
    let page = NormalPath::of(rt.alloc(), RelativePath::new("a.md"))?;
    let moved = tree.moved_page(rt.alloc(), &page)?;
    becomes(
        rt.alloc(),
        &root,
        (&tree, &moved),
        "[c](/c.md)",
        "[c](/d/c.md)",
    )
}
