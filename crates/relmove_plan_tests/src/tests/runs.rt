//! Whole runs of plans, over a tree in memory.
use super::model::Files;
use super::planned::planned;
use super::same;
use relative_path_links::{Change, MovedSitePage};
use relmove_plan::NameRule;
use std::alloc::Global;
use std::test::Fail;

type Rows<'a> = &'a [(&'a str, &'a str)];

// Fails where the actions of the plan for these moves lead to another tree than is expected.
fn leads(
    alloc: Global,
    case: &str,
    before: Rows<'_>,
    moves: Rows<'_>,
    after: Rows<'_>,
) -> Result<(), Fail> {
    let plan = match planned(alloc, before, moves, NameRule::Plain)? {
        Ok(plan) => plan,
        Err(refusal) => return Err(Fail::new(format_args!("{case:?}: {refusal}"))),
    };
    let mut files = Files::of(alloc, before)?;
    files.run(alloc, &plan.actions)?;
    same(case, &files, &Files::of(alloc, after)?)
}

#[test]
fn a_swap(rt: HostRuntime) -> Result<(), Fail> {
    leads(
        rt.alloc(),
        "a swap of files",
        &[("a", "1"), ("b", "2")],
        &[("a", "b"), ("b", "a")],
        &[("a", "2"), ("b", "1")],
    )
}

#[test]
fn a_chain(rt: HostRuntime) -> Result<(), Fail> {
    leads(
        rt.alloc(),
        "a chain",
        &[("a", "1"), ("b", "2"), ("c", "3")],
        &[("b", "c"), ("a", "b"), ("c", "d/e/f")],
        &[
            ("b", "1"),
            ("c", "2"),
            ("d", "/"),
            ("d/e", "/"),
            ("d/e/f", "3"),
        ],
    )
}

#[test]
fn a_file_out_of_a_directory_that_moves(rt: HostRuntime) -> Result<(), Fail> {
    leads(
        rt.alloc(),
        "a file out of a directory that moves",
        &[("d", "/"), ("d/a.md", "[b](b.md)"), ("d/b.md", "[a](a.md)")],
        &[("d", "e"), ("d/a.md", "a.md")],
        &[
            ("a.md", "[b](e/b.md)"),
            ("e", "/"),
            ("e/b.md", "[a](../a.md)"),
        ],
    )
}

#[test]
fn a_page_inside_a_directory_that_moves(rt: HostRuntime) -> Result<(), Fail> {
    leads(
        rt.alloc(),
        "a page inside a directory that moves",
        &[
            ("d", "/"),
            ("d/a.md", "[x](../x)"),
            ("i.md", "[a](d/a.md)"),
            ("x", "x"),
        ],
        &[("d", "e/f")],
        &[
            ("e", "/"),
            ("e/f", "/"),
            ("e/f/a.md", "[x](../../x)"),
            ("i.md", "[a](e/f/a.md)"),
            ("x", "x"),
        ],
    )
}

#[test]
fn a_directory_for_another(rt: HostRuntime) -> Result<(), Fail> {
    leads(
        rt.alloc(),
        "a directory to the place of another that moves",
        &[("d", "/"), ("d/a", "1"), ("e", "/"), ("e/b", "2")],
        &[("d", "e"), ("e", "d/e")],
        &[
            ("d", "/"),
            ("d/e", "/"),
            ("d/e/b", "2"),
            ("e", "/"),
            ("e/a", "1"),
        ],
    )
}

#[test]
fn a_new_directory_inside_one_that_moves(rt: HostRuntime) -> Result<(), Fail> {
    leads(
        rt.alloc(),
        "a new directory inside one that moves",
        &[
            ("d", "/"),
            ("d/a", "1"),
            ("d/s", "/"),
            ("d/s/t", "3"),
            ("x", "2"),
        ],
        &[("d", "e"), ("x", "e/s/u/v/x"), ("d/s/t", "e/w/t")],
        &[
            ("e", "/"),
            ("e/a", "1"),
            ("e/s", "/"),
            ("e/s/u", "/"),
            ("e/s/u/v", "/"),
            ("e/s/u/v/x", "2"),
            ("e/w", "/"),
            ("e/w/t", "3"),
        ],
    )
}

#[test]
fn directories_that_are_left_empty(rt: HostRuntime) -> Result<(), Fail> {
    leads(
        rt.alloc(),
        "directories that are left empty",
        &[
            ("d", "/"),
            ("d/s", "/"),
            ("d/s/a", "1"),
            ("e", "/"),
            ("e/b", "2"),
            ("e/t", "/"),
        ],
        &[("d/s/a", "a"), ("e/b", "b")],
        &[("a", "1"), ("b", "2"), ("e", "/"), ("e/t", "/")],
    )
}

#[test]
fn directories_to_which_links_lead(rt: HostRuntime) -> Result<(), Fail> {
    leads(
        rt.alloc(),
        "directories to which links lead",
        &[
            ("d", "/"),
            ("d/e", "/"),
            ("d/e/a.md", "[here](./)"),
            ("f", "/"),
            ("f/g", "/"),
            ("f/g/h", "1"),
            ("i", "/"),
            ("i/j", "2"),
            ("k.md", "[g](f/./g/?x) [i](i/j)"),
        ],
        &[
            ("d/e/a.md", "a.md"),
            ("f", "n"),
            ("f/g/h", "h"),
            ("i/j", "j"),
        ],
        &[
            ("a.md", "[here](./d/e/)"),
            ("h", "1"),
            ("j", "2"),
            ("k.md", "[g](n/g/?x) [i](j)"),
        ],
    )
}

#[test]
fn names_that_are_taken(rt: HostRuntime) -> Result<(), Fail> {
    leads(
        rt.alloc(),
        "staging names that are taken",
        &[
            (".relmove-1", "x"),
            ("a.md", "[b](d/b.md)"),
            ("d", "/"),
            ("d/.relmove-3", "y"),
            ("d/b.md", "[a](../a.md)"),
        ],
        &[("a.md", "c.md")],
        &[
            (".relmove-1", "x"),
            ("c.md", "[b](d/b.md)"),
            ("d", "/"),
            ("d/.relmove-3", "y"),
            ("d/b.md", "[a](../c.md)"),
        ],
    )
}

#[test]
fn a_page_that_moves_and_changes(rt: HostRuntime) -> Result<(), Fail> {
    leads(
        rt.alloc(),
        "pages that swap and change",
        &[
            ("a.md", "[b](b.md) 1"),
            ("b.md", "[a](a.md) 2"),
            ("c.md", "[a](a.md) [c](c.md)"),
        ],
        &[("a.md", "b.md"), ("b.md", "a.md")],
        &[
            ("a.md", "[a](b.md) 2"),
            ("b.md", "[b](a.md) 1"),
            ("c.md", "[a](b.md) [c](c.md)"),
        ],
    )
}

// How many targets of a page get a new text, and how many are left.
fn new_and_left(page: &MovedSitePage) -> (usize, usize) {
    let (mut new, mut left) = (0usize, 0usize);
    for edit in &page.edits {
        match edit.change {
            Change::Kept => {}
            Change::New(_) => new = new.saturating_add(1),
            Change::Left(_) => left = left.saturating_add(1),
        }
    }
    (new, left)
}

// What a plan says besides its actions.
#[test]
fn pages_that_change(rt: HostRuntime) -> Result<(), Fail> {
    let rows = [
        ("a.md", "[b](b.md) [b](b.md#x) [up](../x) [c](c.md)"),
        ("b.md", "[a](a.md)"),
        ("c.md", "[b](d%2fe)"),
        ("l", "-> b.md"),
    ];
    let plan = planned(rt.alloc(), &rows, &[("b.md", "d/b.md")], NameRule::Plain)?;
    let plan = plan.map_err(|refusal| Fail::new(format_args!("{refusal}")))?;
    let expected = [(true, (2, 0)), (true, (1, 0)), (false, (0, 1))];
    same("pages", &plan.pages.len(), &3)?;
    for (page, (changes, counts)) in plan.pages.iter().zip(&expected) {
        same("a page changes", &page.text.is_some(), changes)?;
        same("its targets", &new_and_left(page), counts)?;
    }
    same("symbolic links", &plan.symlinks.len(), &1)?;
    let symlink = plan.symlinks.first().ok_or("a symbolic link")?;
    same("its path", &symlink.path.as_relative_path().as_str(), &"l")?;
    same("it moves", &symlink.moves, &false)?;
    same("it leads to what moves", &symlink.leads_to_moved, &true)
}
