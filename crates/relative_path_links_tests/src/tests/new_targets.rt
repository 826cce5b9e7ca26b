//! New targets with which the page is read as before, and some with which it isn't.
use super::{moves, same};
use relative_path::RelativePath;
use relative_path_links::{
    Change, Edit, Markdown, MovedSitePage, SitePage, SiteRoot, Unchanged, rewrite_site, targets,
};
use relative_path_moves::TreeMoves;
use relative_path_places::NormalPath;
use std::alloc::Global;
use std::test::Fail;
use target_paths::{TargetReading, TargetSyntax, path_of_target};

// Words for a case, the new path of the file `x`, a page at the root whose targets lead to that file, and the page
// after the move.
type Case = (&'static str, &'static str, &'static str, &'static str);

const SPELLED: [Case; 8] = [
    (
        "a backtick, after and before others",
        "a`b",
        "` [x](x) ` [x](x) `` [x](x)",
        "` [x](x) ` [x](a%60b) `` [x](a%60b)",
    ),
    (
        "brackets, in the link of an image",
        "a](b)[",
        "[![x](x)](x)",
        "[![x](a]%28b%29[)](a]%28b%29[)",
    ),
    (
        "angle brackets, with and without these around the target",
        "a<b>",
        "[x](<x>) [x](x) <a href=x>",
        "[x](<a%3Cb%3E>) [x](a%3Cb%3E) <a href=a%3Cb%3E>",
    ),
    (
        "an entity, in each syntax",
        "a&amp;b",
        "[x](x) <a href='&#120;'> &amp;",
        "[x](a%26amp;b) <a href='a%26amp;b'> &amp;",
    ),
    (
        "a backslash, at the end too",
        "a\\_b\\",
        "[x](x) <img src=\"x\"> [x](x#\\#)",
        "[x](a%5C_b%5C) <img src=\"a%5C_b%5C\"> [x](a%5C_b%5C#\\#)",
    ),
    (
        "an empty line",
        "a\n\nb\r",
        "[x](x) <img src=x>",
        "[x](a%0A%0Ab%0D) <img src=a%0A%0Ab%0D>",
    ),
    (
        "quotes and a space, before a title",
        "a 'b' \"c\" (d)",
        "[x](x 't') [x](x \"t\") [x](x (t))",
        "[x](a%20%27b%27%20%22c%22%20%28d%29 't') [x](a%20%27b%27%20%22c%22%20%28d%29 \"t\") \
         [x](a%20%27b%27%20%22c%22%20%28d%29 (t))",
    ),
    (
        "quotes, in an attribute with each of them",
        "a'\"=b",
        "<img src='x'> <img src=\"x\"> <img src=x alt=''>",
        "<img src='a%27%22%3Db'> <img src=\"a%27%22%3Db\"> <img src=a%27%22%3Db alt=''>",
    ),
];

const IN_BLOCKS: [Case; 8] = [
    (
        "dashes, in a definition on two lines",
        "---",
        "[x]\n\n[x]:\nx\n",
        "[x]\n\n[x]:\n%2D--\n",
    ),
    (
        "a space and brackets, in a definition with a title",
        "a b]: c",
        "[x]: x\n't'\n",
        "[x]: a%20b]%3A%20c\n't'\n",
    ),
    (
        "a number of a list, on a line of its own",
        "1.",
        "[x](\nx\n)\n",
        "[x](\n%31.\n)\n",
    ),
    (
        "a mark of a list, on a line of its own",
        "+ a",
        "> [x](\n> x)\n",
        "> [x](\n> %2B%20a)\n",
    ),
    (
        "a fence of code, on a line of its own",
        "~~~",
        "- [x](\n  x)\n",
        "- [x](\n  %7E~~)\n",
    ),
    (
        "a bar, in a table",
        "a|b",
        "| a |\n|---|\n| [x](x) |\n",
        "| a |\n|---|\n| [x](a%7Cb) |\n",
    ),
    (
        "two backticks, beside code with its own link",
        "``",
        "`[x](x)` [x](x) `",
        "`[x](x)` [x](%60%60) `",
    ),
    (
        "a tag, in a block of HTML",
        "</div>",
        "<div>\n<a href=x>\n</div>\n\n[x](x)",
        "<div>\n<a href=%3C/div%3E>\n</div>\n\n[x](%3C/div%3E)",
    ),
];

// Pages that stay as they are, since with the new targets a link would be lost, or one more found: words for the case,
// the new path of the file `x`, and the page.
const READ_OTHERWISE: [(&str, &str, &str); 5] = [
    (
        "the target would begin a block of HTML",
        "pre",
        "[x](\n<x>)\n",
    ),
    (
        "the target would begin a block of HTML, with its slash",
        "div",
        "![x](\n <x/>)",
    ),
    (
        "the target would begin a block of HTML after a label",
        "script",
        "[x]:\n<x>\n",
    ),
    (
        "with the attribute the label would be one that is defined, so that the link around it would be lost",
        "n",
        "[v [a <img src=\"x\">]](x)\n\n[a <img src=\"n\">]: #y\n",
    ),
    (
        "with the attribute the label would be none that is defined, so that there would be a link around it",
        "n",
        "[v [a <img src=\"x\">]](#z)\n\n[a <img src=\"x\">]: #y\n",
    ),
];

// Fails where a target isn't read as this path.
fn is_read_as(
    alloc: Global,
    case: &str,
    (syntax, target): (TargetSyntax, &str),
    path: &str,
) -> Result<(), Fail> {
    let reading = path_of_target(alloc, syntax, target)?;
    let TargetReading::Path { path: found, .. } = reading else {
        return Err(Fail::new(format_args!("{case:?}: {target:?} is read as no path")));
    };
    same(case, found.as_str(), path)
}

// Fails where a target that is found in a page isn't read as this path.
fn all_are_read_as(alloc: Global, case: &str, page: &str, path: &str) -> Result<(), Fail> {
    for target in &targets(alloc, page)? {
        let text = page.get(target.start..target.end).unwrap_or("");
        is_read_as(alloc, case, (target.syntax, text), path)?;
    }
    Ok(())
}

// Returns whether the new text of a target is given up.
fn would_read_otherwise(edit: &Edit) -> bool {
    edit.change == Change::Left(Unchanged::WouldReadOtherwise)
}

// Fails where the page doesn't change to this text.
fn changes_to(case: &str, page: &MovedSitePage, text: &str) -> Result<(), Fail> {
    same(case, page.text.as_deref(), Some(text))?;
    same(case, page.edits.iter().all(Edit::is_new), true)
}

// Fails where the page changes, or no target of it is given up.
fn stays(case: &str, page: &MovedSitePage) -> Result<(), Fail> {
    same(case, page.text.as_deref(), None)?;
    same(case, page.edits.iter().any(Edit::is_new), false)?;
    same(case, page.edits.iter().any(would_read_otherwise), true)
}

// Returns a page at the root after a move of the file `x` to another path.
fn after_move(alloc: Global, new: &str, text: &str) -> Result<Vec<MovedSitePage>, Fail> {
    let moves = moves(alloc, &[("x", new)])?;
    let moves = TreeMoves::new(alloc, &moves)?;
    let path = NormalPath::of(alloc, RelativePath::new("index.md"))?;
    let page = SitePage { path: &path, text };
    Ok(rewrite_site(
        alloc,
        &[page],
        &SiteRoot::unknown(),
        &moves,
        &moves,
        &Markdown,
    )?)
}

// Fails where the page of a case doesn't become what it says, or a target of it isn't read as the new path then.
fn becomes(alloc: Global, (case, new, page, expected): Case) -> Result<(), Fail> {
    let pages = after_move(alloc, new, page)?;
    let [moved] = pages.as_slice() else {
        return Err(Fail::new("a page"));
    };
    changes_to(case, moved, expected)?;
    all_are_read_as(alloc, case, expected, new)
}

#[test]
fn new_targets_are_found_again(rt: HostRuntime) -> Result<(), Fail> {
    for case in &SPELLED {
        becomes(rt.alloc(), *case)?;
    }
    Ok(())
}

#[test]
fn new_targets_are_found_again_in_blocks(rt: HostRuntime) -> Result<(), Fail> {
    for case in &IN_BLOCKS {
        becomes(rt.alloc(), *case)?;
    }
    Ok(())
}

// Fails where the page of a case changes.
fn is_given_up(alloc: Global, (case, new, page): (&str, &str, &str)) -> Result<(), Fail> {
    let pages = after_move(alloc, new, page)?;
    let [moved] = pages.as_slice() else {
        return Err(Fail::new("a page"));
    };
    stays(case, moved)
}

#[test]
fn new_targets_that_would_be_read_otherwise_are_given_up(rt: HostRuntime) -> Result<(), Fail> {
    for case in &READ_OTHERWISE {
        is_given_up(rt.alloc(), *case)?;
    }
    Ok(())
}
