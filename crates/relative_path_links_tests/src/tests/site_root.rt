//! Targets that lead from a site's root.
use super::{moves, same};
use relative_path::RelativePath;
use relative_path_links::{Change, Edit, SiteRoot, Unchanged, edited, rewrite_links, targets};
use relative_path_moves::{PageMove, TreeMoves};
use relative_path_places::NormalPath;
use std::alloc::{AllocError, Global};
use std::test::Fail;
use target_paths::{TargetReading, TargetSyntax, WhyUnknown};

// Moves in a site with the root `docs`, out of it, and into it.
const MOVES: [(&str, &str); 6] = [
    ("docs/guide/a.md", "docs/start/b.md"),
    ("docs/img", "docs/art"),
    ("docs/gone.md", "gone.md"),
    ("notes/in.md", "docs/in.md"),
    ("docs/nul.md", "docs/nul\0.md"),
    ("docs/c d.md", "docs/x:{y}.md"),
];

// A page of the site, with links, and what it becomes.
type Row = (&'static str, &'static str);

// Links whose files move within the root.
const ROOTED: [Row; 12] = [
    ("[a](/guide/a.md)", "[a](/start/b.md)"),
    ("[a](/guide/a.md?q#t \"a\")", "[a](/start/b.md?q#t \"a\")"),
    (
        "[a](/guide/a.md\\#t) ![x](/img/x.png)",
        "[a](/start/b.md\\#t) ![x](/art/x.png)",
    ),
    (
        "[a]\n\n[a]: /guide/a.md 't'\n",
        "[a]\n\n[a]: /start/b.md 't'\n",
    ),
    (
        "<a href=/guide/a.md> <img src='/img/x%20y.png'>",
        "<a href=/start/b.md> <img src='/art/x%20y.png'>",
    ),
    (
        "[i](/img) [i](/img/) [i](/img/.) [i](/img/x/..)",
        "[i](/art) [i](/art/) [i](/art/) [i](/art/)",
    ),
    (
        "[a](/guide/../guide//a.md) [a](/./guide/a.md)",
        "[a](/start/b.md) [a](/start/b.md)",
    ),
    ("[a](/guide/&#97;.md)", "[a](/start/b.md)"),
    ("<a href='/guide\\a.md '>", "<a href='/start/b.md'>"),
    ("<a href='/\tguide/a.md'>", "<a href='/start/b.md'>"),
    ("[a](</c d.md>)", "[a](</x:{y}.md>)"),
    (
        "[a](guide/a.md) [a](/guide/a.md)",
        "[a](start/b.md) [a](/start/b.md)",
    ),
];

// Links that stay as they are, since they lead on, or aren't read.
const KEPT: [&str; 8] = [
    "[b](/b.md) [r](/) [r](/#t) [r](/?q) [g](/guide) [o](/guide/a.md:80)",
    "[h](//guide/a.md) [h](//guide/a%2Fb) <a href='//guide/a.md'>",
    "[h](/&#47;guide/a.md) <a href='/\\guide/a.md'> <a href='/\t/guide/a.md'>",
    "[w](/\\guide/a.md) <a href='/ guide/a.md'> <a href=' /guide/a.md'>",
    "[u](/../notes/in.md) [u](/guide/../../gone.md)",
    "[h](https://x.org/guide/a.md) [m](mailto:/guide%2Fa.md) [w](C:/guide/a.md)",
    "[t](#/guide/a.md) [q](?/guide/a.md)",
    "`[a](/guide/a.md)`",
];

// A page with one link that is left, and why.
const LEFT: [(&str, Unchanged); 5] = [
    ("[g](/gone.md)", Unchanged::OutsideSiteRoot),
    ("[n](/nul.md)", Unchanged::Nul),
    (
        "[x](/guide%2Fa.md)",
        Unchanged::Unknown(WhyUnknown::EncodedSlash),
    ),
    (
        "<a href='/&T;'>",
        Unchanged::Unknown(WhyUnknown::CharacterReference),
    ),
    ("[x](/%ff)", Unchanged::Unknown(WhyUnknown::NotUtf8)),
];

// A page with its edits: its text, and why targets are left.
#[derive(Drop)]
struct EditedPage {
    text: String,
    left: Vec<Unchanged>,
}

// Returns why targets are left.
fn reasons(alloc: Global, edits: &[Edit]) -> Result<Vec<Unchanged>, AllocError> {
    let mut left = Vec::new(alloc);
    for edit in edits {
        if let Change::Left(why) = &edit.change {
            left.push(*why)?;
        }
    }
    Ok(left)
}

// What a page that moves so becomes in a site with this root.
fn after_move(
    alloc: Global,
    root: &SiteRoot,
    (tree, moved): (&TreeMoves<'_>, &PageMove),
    page: &str,
) -> Result<EditedPage, AllocError> {
    let found = targets(alloc, page)?;
    let edits = rewrite_links(alloc, page, &found, root, tree, moved)?;
    let text = edited(alloc, page, &edits)?;
    let left = reasons(alloc, &edits)?;
    Ok(EditedPage { text, left })
}

// What a page at a path becomes in a site with a root at a path.
fn after_in(
    alloc: Global,
    root: &str,
    tree: &TreeMoves<'_>,
    path: &str,
    page: &str,
) -> Result<EditedPage, AllocError> {
    let root = NormalPath::of(alloc, RelativePath::new(root))?;
    let root = SiteRoot::at(alloc, &root)?;
    let path = NormalPath::of(alloc, RelativePath::new(path))?;
    let moved = tree.moved_page(alloc, &path)?;
    after_move(alloc, &root, (tree, &moved), page)
}

// The same, after these moves.
fn after(
    alloc: Global,
    (root, pairs): (&str, &[(&str, &str)]),
    path: &str,
    page: &str,
) -> Result<EditedPage, Fail> {
    let moves = moves(alloc, pairs)?;
    let tree = TreeMoves::new(alloc, &moves)?;
    Ok(after_in(alloc, root, &tree, path, page)?)
}

// Fails where a page becomes another text than is expected, or its targets aren't left for these reasons.
fn becomes(
    alloc: Global,
    site: (&str, &[(&str, &str)]),
    path: &str,
    (page, expected): (&str, &str),
    left: &[Unchanged],
) -> Result<(), Fail> {
    let new = after(alloc, site, path, page)?;
    same(page, new.text.as_str(), expected)?;
    same(page, new.left.as_slice(), left)
}

#[test]
fn writes_targets_from_the_root_again(rt: HostRuntime) -> Result<(), Fail> {
    for row in &ROOTED {
        becomes(rt.alloc(), ("docs", &MOVES), "docs/index.md", *row, &[])?;
    }
    Ok(())
}

#[test]
fn keeps_targets_that_lead_on_or_arent_read(rt: HostRuntime) -> Result<(), Fail> {
    for page in &KEPT {
        becomes(
            rt.alloc(),
            ("docs", &MOVES),
            "docs/index.md",
            (page, page),
            &[],
        )?;
    }
    Ok(())
}

#[test]
fn leaves_a_target_that_it_cant_write(rt: HostRuntime) -> Result<(), Fail> {
    for (page, why) in &LEFT {
        becomes(
            rt.alloc(),
            ("docs", &MOVES),
            "docs/index.md",
            (page, page),
            &[*why],
        )?;
    }
    Ok(())
}

// Pages below and beside the root, those that move, and other roots.
const PLACES: [(&str, &str, Row); 6] = [
    (
        "docs",
        "README.md",
        ("[a](/guide/a.md)", "[a](/start/b.md)"),
    ),
    (
        "docs",
        "docs/guide/a.md",
        ("[a](/guide/a.md) [i](/b.md)", "[a](/start/b.md) [i](/b.md)"),
    ),
    (
        "",
        "x.md",
        ("[a](/docs/guide/a.md)", "[a](/docs/start/b.md)"),
    ),
    ("", "x.md", ("[g](/docs/gone.md)", "[g](/gone.md)")),
    (
        "docs/guide",
        "x.md",
        ("[a](/guide/a.md)", "[a](/guide/a.md)"),
    ),
    ("gone", "x.md", ("[a](/guide/a.md)", "[a](/guide/a.md)")),
];

#[test]
fn reads_from_the_root_whatever_the_page(rt: HostRuntime) -> Result<(), Fail> {
    for (root, path, row) in &PLACES {
        becomes(rt.alloc(), (root, &MOVES), path, *row, &[])?;
    }
    Ok(())
}

// A move that takes the root itself, a page outside of it after the move, and why its target is left.
type RootMove = (
    (&'static str, &'static str),
    &'static str,
    &'static [Unchanged],
);

const ROOT_MOVES: [RootMove; 3] = [
    (
        ("docs", "site"),
        "[a](/a.md)",
        &[Unchanged::OutsideSiteRoot],
    ),
    (("docs", "docs/en"), "[a](/en/a.md)", &[]),
    (("docs/a.md", "docs"), "[a](/)", &[]),
];

#[test]
fn the_root_has_one_path_before_and_after(rt: HostRuntime) -> Result<(), Fail> {
    for (pair, expected, left) in &ROOT_MOVES {
        let page = "[a](/a.md)";
        becomes(
            rt.alloc(),
            ("docs", &[*pair]),
            "x.md",
            (page, expected),
            left,
        )?;
    }
    Ok(())
}

// A page with one target, and the file to which it leads before the moves.
type WithFile = (&'static str, Option<&'static str>);

const FILES: [WithFile; 6] = [
    ("[a](/guide/a.md#t)", Some("docs/guide/a.md")),
    ("[g](/gone.md)", Some("docs/gone.md")),
    ("[r](/)", Some("docs")),
    ("[h](//guide/a.md)", None),
    ("[u](/../a.md)", None),
    ("[x](/guide%2Fa.md)", None),
];

// Fails where the edits aren't one, of a target that leads to this file.
fn has_file(case: &str, edits: &[Edit], file: Option<&str>) -> Result<(), Fail> {
    let [edit] = edits else {
        return Err(Fail::new(format_args!("{case:?}: another number of edits than 1")));
    };
    let found = edit
        .file
        .as_ref()
        .map(|found| found.as_relative_path().as_str());
    same(case, found, file)
}

// Fails where the target of a page leads to another file than its row says.
fn leads_to(
    alloc: Global,
    root: &SiteRoot,
    (tree, moved): (&TreeMoves<'_>, &PageMove),
    (page, file): WithFile,
) -> Result<(), Fail> {
    let found = targets(alloc, page)?;
    let edits = rewrite_links(alloc, page, &found, root, tree, moved)?;
    has_file(page, &edits, file)
}

#[test]
fn says_the_file_before_the_moves(rt: HostRuntime) -> Result<(), Fail> {
    let docs = NormalPath::of(rt.alloc(), RelativePath::new("docs"))?;
    let root = SiteRoot::at(rt.alloc(), &docs)?;
    let moves = moves(rt.alloc(), &MOVES)?;
    let tree = TreeMoves::new(rt.alloc(), &moves)?;
    let moved = tree.moved_page(rt.alloc(), &docs)?;
    for row in &FILES {
        leads_to(rt.alloc(), &root, (&tree, &moved), *row)?;
    }
    Ok(())
}

// Targets, and the paths that they spell with the offset of their tails, in a site with a root.
const READ: [(TargetSyntax, &str, Option<(&str, usize)>); 8] = [
    (TargetSyntax::Markdown, "/a.md", Some(("./a.md", 5))),
    (TargetSyntax::Markdown, "/a%20b.md?q", Some(("./a b.md", 9))),
    (TargetSyntax::Attribute, "/a\\b#t", Some(("./a/b", 4))),
    (TargetSyntax::Markdown, "/", Some(("./", 1))),
    (TargetSyntax::Markdown, "//a", None),
    (TargetSyntax::Attribute, "/\n/a", None),
    (TargetSyntax::Markdown, "/a/../..", None),
    (TargetSyntax::Markdown, "a//../b#t", Some(("a//../b", 7))),
];

// Fails where a target spells another path than its row says.
fn reads(
    alloc: Global,
    root: &SiteRoot,
    (syntax, target, expected): (TargetSyntax, &str, Option<(&str, usize)>),
) -> Result<(), Fail> {
    let reading = root.read_target(alloc, syntax, target)?;
    let found = match &reading {
        TargetReading::Path { path, tail_at } => Some((path.as_str(), *tail_at)),
        _ => None,
    };
    same(target, found, expected)
}

#[test]
fn reads_a_target_with_a_dot_before_it(rt: HostRuntime) -> Result<(), Fail> {
    let docs = NormalPath::of(rt.alloc(), RelativePath::new("docs"))?;
    let root = SiteRoot::at(rt.alloc(), &docs)?;
    for row in &READ {
        reads(rt.alloc(), &root, *row)?;
    }
    Ok(())
}
