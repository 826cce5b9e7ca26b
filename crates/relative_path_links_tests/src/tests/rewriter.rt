use super::pages::PAGE;
use super::{moves, same};
use relative_path::RelativePath;
use relative_path_links::{Change, Edit, SiteRoot, Unchanged, edited, rewrite_links, targets};
use relative_path_moves::{PageMove, TreeMoves};
use relative_path_places::NormalPath;
use std::alloc::{AllocError, Global};
use std::test::Fail;
use target_paths::WhyUnknown;

// Moves of three pages and an image; the page is the first.
const MOVES: [(&str, &str); 4] = [
    ("docs/a.md", "docs/sub/b.md"),
    ("docs/c.md", "e/f.md"),
    ("img/x.png", "art/y.png"),
    ("docs/über.md", "docs/sub/日本.md"),
];

// Pages with links, and what they become.
const LINKED: [(&str, &str); 11] = [
    ("[c](c.md)", "[c](../../e/f.md)"),
    ("![x](../img/x.png)\n", "![x](../../art/y.png)\n"),
    (
        "[d](d.md#top) [c](c.md?q#f)",
        "[d](../d.md#top) [c](../../e/f.md?q#f)",
    ),
    (
        "[c](./c.md \"A title\") (c.md)",
        "[c](../../e/f.md \"A title\") (c.md)",
    ),
    (
        "[c](c.md)\r\n[d]( <d.md> )\r\n",
        "[c](../../e/f.md)\r\n[d]( <../d.md> )\r\n",
    ),
    (
        "[ü](über.md) [z](zürich/日.png)",
        "[ü](日本.md) [z](../zürich/日.png)",
    ),
    ("[no](c.md\n[c](c.md) ](", "[no](c.md\n[c](../../e/f.md) ]("),
    ("[self](a.md) [here](.)", "[self](b.md) [here](..)"),
    (
        "[up](sub) [in](sub/x:y.md) [g](g/)",
        "[up](./) [in](x%3Ay.md) [g](../g/)",
    ),
    ("[c][c]\n\n[c]: c.md\n", "[c][c]\n\n[c]: ../../e/f.md\n"),
    (
        "`[c](c.md)` [g](<g h.md>)",
        "`[c](c.md)` [g](<../g%20h.md>)",
    ),
];

// Pages with links that begin with `./`, or nearly so, and what they become.
const DOTTED: [(&str, &str); 8] = [
    ("[x](./sub/x.md) [x](sub/x.md)", "[x](./x.md) [x](x.md)"),
    (
        "[x](.//sub/x.md?q#f) [x](././sub/x.md)",
        "[x](./x.md?q#f) [x](./x.md)",
    ),
    (
        "[x](%2E/sub/x.md) [x](./../docs/sub/x.md)",
        "[x](./x.md) [x](./x.md)",
    ),
    ("[x](../docs/sub/x.md)", "[x](x.md)"),
    (
        "[g](./sub/g/) [sub](./sub) [sub](./sub/)",
        "[g](./g/) [sub](./) [sub](./)",
    ),
    (
        "[c](./c.md) [docs](./) [docs](./.)",
        "[c](../../e/f.md) [docs](../) [docs](..)",
    ),
    (
        "[x](./sub/..x.md) [x](./sub/x:y.md)",
        "[x](./..x.md) [x](./x:y.md)",
    ),
    (
        "[x](<./sub/--->) <img src='./sub/+%20x.png'>",
        "[x](<./--->) <img src='./+%20x.png'>",
    ),
];

// Pages that stay as they are.
const KEPT: [&str; 7] = [
    "",
    "no link: a](b and [c] (d\n",
    "a) b) c)\n\n)",
    "[a](#a) [q](?q) [none]()",
    "[h](https://x.org/c.md) [m](mailto:x) [w](C:\\c.md)",
    "[r](/c.md) [s](//x.org/c.md)",
    "] (c.md) [c]\n(c.md)\r\n",
];

// A page with its edits: its text, and where a target is left, and why.
#[derive(Drop)]
struct EditedPage {
    text: String,
    left: Vec<(usize, Unchanged)>,
}

// Returns the offsets of the targets that are left, and the reasons.
fn left_in(alloc: Global, edits: &[Edit]) -> Result<Vec<(usize, Unchanged)>, AllocError> {
    let mut left = Vec::new(alloc);
    for edit in edits {
        if let Change::Left(why) = &edit.change {
            left.push((edit.target.start, *why))?;
        }
    }
    Ok(left)
}

// What a page that moves so becomes in a tree.
fn after_move(
    alloc: Global,
    tree: &TreeMoves<'_>,
    moved: &PageMove,
    page: &str,
) -> Result<EditedPage, AllocError> {
    let found = targets(alloc, page)?;
    let edits = rewrite_links(alloc, page, &found, &SiteRoot::unknown(), tree, moved)?;
    let text = edited(alloc, page, &edits)?;
    let left = left_in(alloc, &edits)?;
    Ok(EditedPage { text, left })
}

// What a page at a path becomes in a tree.
fn after_in(
    alloc: Global,
    tree: &TreeMoves<'_>,
    from: &str,
    page: &str,
) -> Result<EditedPage, AllocError> {
    let from = NormalPath::of(alloc, RelativePath::new(from))?;
    let moved = tree.moved_page(alloc, &from)?;
    after_move(alloc, tree, &moved, page)
}

// What a page at a path becomes after these moves.
fn after(
    alloc: Global,
    pairs: &[(&str, &str)],
    from: &str,
    page: &str,
) -> Result<EditedPage, Fail> {
    let moves = moves(alloc, pairs)?;
    let tree = TreeMoves::new(alloc, &moves)?;
    Ok(after_in(alloc, &tree, from, page)?)
}

// Fails where it becomes another text than is expected, or a target is left.
fn becomes(
    alloc: Global,
    pairs: &[(&str, &str)],
    from: &str,
    page: &str,
    expected: &str,
) -> Result<(), Fail> {
    let new = after(alloc, pairs, from, page)?;
    same(page, new.text.as_str(), expected)?;
    same(page, new.left.as_slice(), [].as_slice())
}

// Fails where a page at this path becomes another text than its row says.
fn all_become(
    alloc: Global,
    pairs: &[(&str, &str)],
    from: &str,
    rows: &[(&str, &str)],
) -> Result<(), Fail> {
    for (page, expected) in rows {
        becomes(alloc, pairs, from, page, expected)?;
    }
    Ok(())
}

#[test]
fn moves_the_targets_of_links(rt: HostRuntime) -> Result<(), Fail> {
    all_become(rt.alloc(), &MOVES, "docs/a.md", &LINKED)
}

#[test]
fn keeps_a_dot_and_a_slash_at_the_start(rt: HostRuntime) -> Result<(), Fail> {
    all_become(rt.alloc(), &MOVES, "docs/a.md", &DOTTED)
}

// Links to directories from a page in `docs/sub` that moves to the root, and what they become.
const DIRECTORIES: [(&str, &str); 5] = [
    ("[up](..) [up](../)", "[up](docs/) [up](docs/)"),
    (
        "[here](.) [here](./)",
        "[here](docs/sub/) [here](./docs/sub/)",
    ),
    ("[up](../.) [up](./..)", "[up](docs/) [up](./docs/)"),
    ("[x](x/..#t) [x](../x)", "[x](docs/sub/#t) [x](docs/x)"),
    ("[root](../..) [root](../../)", "[root](./) [root](./)"),
];

#[test]
fn writes_the_slash_of_a_directory(rt: HostRuntime) -> Result<(), Fail> {
    all_become(
        rt.alloc(),
        &[("docs/sub/a.md", "b.md")],
        "docs/sub/a.md",
        &DIRECTORIES,
    )
}

// The same from a page that moves down, to directories above it.
const DIRECTORIES_ABOVE: [(&str, &str); 3] = [
    ("[up](..) [up](../)", "[up](../..) [up](../../)"),
    ("[here](.) [x](x/.)", "[here](..) [x](../x/)"),
    ("[up](../.) [up](./..)", "[up](../..) [up](../..)"),
];

#[test]
fn writes_no_slash_after_two_dots(rt: HostRuntime) -> Result<(), Fail> {
    all_become(
        rt.alloc(),
        &[("docs/sub/a.md", "docs/sub/in/a.md")],
        "docs/sub/a.md",
        &DIRECTORIES_ABOVE,
    )
}

#[test]
fn leaves_the_rest_as_it_is(rt: HostRuntime) -> Result<(), Fail> {
    for page in &KEPT {
        becomes(rt.alloc(), &MOVES, "docs/a.md", page, page)?;
    }
    Ok(())
}

#[test]
fn moves_a_page_that_stays(rt: HostRuntime) -> Result<(), Fail> {
    let page = "[c](./../docs/c.md) [d](./d.md)";
    let expected = "[c](../e/f.md) [d](./d.md)";
    becomes(rt.alloc(), &MOVES, "docs/d.md", page, expected)
}

// Old and new paths of a page, the page with one unchanged link, and where and why.
const UNCHANGED: [(&str, &str, &str, usize, Unchanged); 6] = [
    ("a.md", "b/a.md", "[e](../e.md)", 4, Unchanged::AboveRoot),
    ("d.md", "../x/d.md", "[e](e.md)", 4, Unchanged::NoPath),
    ("a\0/a.md", "b/a.md", "[x](x.md)", 4, Unchanged::Nul),
    (
        "a.md",
        "b.md",
        "[x](a%2Fb)",
        4,
        Unchanged::Unknown(WhyUnknown::EncodedSlash),
    ),
    (
        "a.md",
        "b.md",
        "<img src='&T;'>",
        10,
        Unchanged::Unknown(WhyUnknown::CharacterReference),
    ),
    (
        "a.md",
        "b.md",
        "[x](<%ff>)",
        5,
        Unchanged::Unknown(WhyUnknown::NotUtf8),
    ),
];

// Fails where the link isn't left so.
fn leaves(
    alloc: Global,
    (old, new, page, at, why): (&str, &str, &str, usize, Unchanged),
) -> Result<(), Fail> {
    let moved = after(alloc, &[(old, new)], old, page)?;
    same(old, moved.text.as_str(), page)?;
    same(old, moved.left.as_slice(), [(at, why)].as_slice())
}

#[test]
fn leaves_a_link_that_it_cant_move(rt: HostRuntime) -> Result<(), Fail> {
    for row in &UNCHANGED {
        leaves(rt.alloc(), *row)?;
    }
    Ok(())
}

// A page's path, the page with one target, and the file to which it leads before the moves.
type WithFile = (&'static str, &'static str, Option<&'static str>);

// Targets of each syntax before `MOVES`, and those of files that move with their page or alone.
const FILES: [WithFile; 8] = [
    ("docs/a.md", "[b](b%20\\_c.md?q#t)", Some("docs/b _c.md")),
    ("docs/a.md", "![x](./../img//x.png)", Some("img/x.png")),
    ("docs/a.md", "[c]: <c.md#&#35;> 't'\n", Some("docs/c.md")),
    ("docs/a.md", "<img src='i&amp;j.png'>", Some("docs/i&j.png")),
    ("docs/a.md", "<a href=sub/>", Some("docs/sub")),
    ("docs/d.md", "[a](a.md)", Some("docs/a.md")),
    ("d.md", "[u](docs/%C3%BCber.md)", Some("docs/über.md")),
    ("docs/a.md", "[r](..)", Some("")),
];

// Targets that lead above the root, and such as aren't read as paths.
const ABOVE_OR_NONE: [WithFile; 10] = [
    ("docs/a.md", "[e](../../e.md)", Some("../e.md")),
    ("d.md", "<img src=\"x/../../e.png\">", Some("../e.png")),
    ("../d.md", "[e]: e.md\n", Some("../e.md")),
    ("d.md", "[r](..)", Some("..")),
    ("docs/a.md", "[q](?q) ", None),
    ("docs/a.md", "[h](https://x.org/c.md)", None),
    ("docs/a.md", "<a href='/c.md'>", None),
    ("docs/a.md", "<a href='&T;'>", None),
    ("docs/a.md", "[x](a%2Fb)", None),
    ("docs/a.md", "[n](docs%00x.md)", None),
];

// Fails where the edits aren't one, of a target that leads to this file.
fn has_file(case: &str, edits: &[Edit], file: Option<&str>) -> Result<(), Fail> {
    let [edit] = edits else {
        return Err(Fail::new(format_args!("{case:?}: another number of edits than 1")));
    };
    let found = edit
        .file
        .as_ref()
        .map(|found| found.as_relative_path().as_str());
    same(case, found, file)
}

// Fails where the target of a page leads to another file than its row says.
fn leads_to(alloc: Global, tree: &TreeMoves<'_>, (path, page, file): WithFile) -> Result<(), Fail> {
    let path = NormalPath::of(alloc, RelativePath::new(path))?;
    let moved = tree.moved_page(alloc, &path)?;
    let found = targets(alloc, page)?;
    let edits = rewrite_links(alloc, page, &found, &SiteRoot::unknown(), tree, &moved)?;
    has_file(page, &edits, file)
}

// The same of each of these rows, after these moves.
fn all_lead(alloc: Global, pairs: &[(&str, &str)], rows: &[WithFile]) -> Result<(), Fail> {
    let moves = moves(alloc, pairs)?;
    let tree = TreeMoves::new(alloc, &moves)?;
    for row in rows {
        leads_to(alloc, &tree, *row)?;
    }
    Ok(())
}

#[test]
fn tells_the_file_before_the_moves(rt: HostRuntime) -> Result<(), Fail> {
    all_lead(rt.alloc(), &MOVES, &FILES)?;
    all_lead(rt.alloc(), &[], &FILES)
}

#[test]
fn tells_a_file_above_the_root_and_none_for_what_is_no_path(rt: HostRuntime) -> Result<(), Fail> {
    all_lead(rt.alloc(), &MOVES, &ABOVE_OR_NONE)?;
    all_lead(rt.alloc(), &[], &ABOVE_OR_NONE)
}

// Targets that are left, for each reason that a path has.
const LEFT_WITH_FILE: [((&str, &str), WithFile); 3] = [
    (
        ("a.md", "b/a.md"),
        ("a.md", "[e](../e.md)", Some("../e.md")),
    ),
    (("d.md", "../x/d.md"), ("d.md", "[e](e.md)", Some("e.md"))),
    (
        ("a\0/a.md", "b/a.md"),
        ("a\0/a.md", "[x](x.md)", Some("a\0/x.md")),
    ),
];

#[test]
fn tells_the_file_of_a_target_that_is_left(rt: HostRuntime) -> Result<(), Fail> {
    for (pair, row) in &LEFT_WITH_FILE {
        all_lead(rt.alloc(), &[*pair], &[*row])?;
    }
    Ok(())
}

#[test]
fn moves_the_others_beside_a_link_that_is_left(rt: HostRuntime) -> Result<(), Fail> {
    let moves = [("My Docs/a.md", "b/a.md")];
    let page = "[x](%2f) [y](<y.md#z>) [z](../../z.md)";
    let moved = after(rt.alloc(), &moves, "My Docs/a.md", page)?;
    let expected = "[x](%2f) [y](<../My%20Docs/y.md#z>) [z](../../z.md)";
    same(page, moved.text.as_str(), expected)?;
    let slash = Unchanged::Unknown(WhyUnknown::EncodedSlash);
    same(page, moved.left.as_slice(), [(4, slash)].as_slice())
}

// Moves of files with awkward names, and of directories.
const AWKWARD: [(&str, &str); 9] = [
    ("my file.md", "docs/my file.md"),
    ("a_b.md", "docs/a_b.md"),
    ("img/x.png", "art/x.png"),
    ("c.md", "d%20e.md"),
    ("b.md", "b/c#d.md"),
    ("old", "new"),
    ("(a)", "a`|&"),
    ("g\n", "g>"),
    ("old/in", "in:"),
];

// Links of a page that stays at the root, and what they become.
const SPELLED: [(&str, &str); 12] = [
    (
        "[x](my%20file.md) [z](a\\_b.md) [w](c.md) <img src=\"img/x.png\">",
        "[x](docs/my%20file.md) [z](docs/a_b.md) [w](d%2520e.md) <img src=\"art/x.png\">",
    ),
    ("[b](b.md#top) [t](#top)", "[b](b/c%23d.md#top) [t](#top)"),
    (
        "[o](old/a.md) [o](old) [o](old/) [p](old2/a.md)",
        "[o](new/a.md) [o](new) [o](new/) [p](old2/a.md)",
    ),
    ("[o](old/in/x.md)", "[o](in%3A/x.md)"),
    ("[a](%28a%29/x.md)", "[a](a%60%7C%26/x.md)"),
    ("[g](<g%0a/x.md>)", "[g](<g%3E/x.md>)"),
    ("<a href=c.md?q>c</a>", "<a href=d%2520e.md?q>c</a>"),
    (
        "<a href='&#99;.md&#38;'>c</a> <a href=' c.md '>c</a>",
        "<a href='&#99;.md&#38;'>c</a> <a href='d%2520e.md'>c</a>",
    ),
    ("[i](../../issues)", "[i](../../issues)"),
    (
        "[c](./c.md) [d](x/../d.md)",
        "[c](./d%2520e.md) [d](x/../d.md)",
    ),
    (
        "[c](c.md\\#c) [d](c.md&#35;d)",
        "[c](d%2520e.md\\#c) [d](d%2520e.md&#35;d)",
    ),
    ("[h](http://h/x) [r](/c.md)", "[h](http://h/x) [r](/c.md)"),
];

#[test]
fn reads_and_writes_targets_as_a_browser_does(rt: HostRuntime) -> Result<(), Fail> {
    all_become(rt.alloc(), &AWKWARD, "index.md", &SPELLED)
}

#[test]
fn leaves_nothing_where_nothing_moves(rt: HostRuntime) -> Result<(), Fail> {
    let page = "[x](a%2Fb) <img src='&T;'> [y](../../y)";
    becomes(rt.alloc(), &[], "docs/a.md", page, page)
}

#[test]
fn keeps_links_within_a_directory_that_moves(rt: HostRuntime) -> Result<(), Fail> {
    let moves = [("docs", "guide"), ("img", "docs")];
    let page = "[b](b.md) [b](../docs/b.md) [c](./sub/../c.md) [i](../img/i.png) [o](../../o)";
    let expected = "[b](b.md) [b](b.md) [c](./sub/../c.md) [i](../docs/i.png) [o](../../o)";
    becomes(rt.alloc(), &moves, "docs/a.md", page, expected)
}

#[test]
fn moves_a_link_in_each_line(rt: HostRuntime) -> Result<(), Fail> {
    let page = "- [c](c.md)\n".repeat(rt.alloc(), 500)?;
    let expected = "- [c](../../e/f.md)\n".repeat(rt.alloc(), 500)?;
    becomes(rt.alloc(), &MOVES, "docs/a.md", &page, &expected)
}

// Fails where a text lacks one of these parts.
fn has_parts(text: &str, parts: &[&str]) -> Result<(), Fail> {
    for part in parts {
        same(part, text.contains(*part), true)?;
    }
    Ok(())
}

// Moves of the page, and of a page that it links to.
const THERE: [(&str, &str); 2] = [
    ("docs/PAGE.md", "guide/links.md"),
    ("docs/CALLING.md", "guide/calling.md"),
];

const BACK: [(&str, &str); 2] = [
    ("guide/links.md", "docs/PAGE.md"),
    ("guide/calling.md", "docs/CALLING.md"),
];

// Parts of the page, as it is after its moves.
const PARTS: [&str; 8] = [
    "[the callers](calling.md), which move too",
    "[the errors](calling.md#errors), with a fragment",
    "[the decisions](../docs/DECISIONS.md \"why it is made so\")",
    "[the contracts](../docs/contracts/)",
    "[this page](links.md)",
    "[the front page](../README.md), [a part of this page](#links-of-a-page-that-moves)",
    "`[the callers](CALLING.md)`, in code",
    "[calling]: calling.md\n",
];

// The page with the two links that still lead to their targets from where it was, which
// are written as it had them between.
fn as_moved_back(alloc: Global) -> Result<String, Fail> {
    let (before, rest) = PAGE.split_once("(DECISIONS.md ").ok_or("decisions")?;
    let (between, after) = rest.split_once("(contracts/)").ok_or("contracts")?;
    Ok(format!(in alloc; "{before}(../docs/DECISIONS.md {between}(../docs/contracts/){after}")?)
}

#[test]
fn moves_a_page_and_back(rt: HostRuntime) -> Result<(), Fail> {
    let expected = as_moved_back(rt.alloc())?;
    let moved = after(rt.alloc(), &THERE, "docs/PAGE.md", PAGE)?;
    has_parts(&moved.text, &PARTS)?;
    becomes(rt.alloc(), &BACK, "guide/links.md", &moved.text, &expected)
}
