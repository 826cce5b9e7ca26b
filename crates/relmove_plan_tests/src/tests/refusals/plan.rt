//! The plan of moves.
use super::marks::{begin, end};
use crate::tests::same;
use relative_path::RelativePath;
use relative_path_links::{Markdown, SitePage, SiteRoot};
use relative_path_places::NormalPath;
use relmove_plan::{Entry, Kind, NameRule, Plan, Refusal, SiteTree, make_plan};
use std::alloc::{AllocError, Global};
use std::test::Fail;

// An entry of a tree.
fn entry<'a>(alloc: Global, path: &str, kind: Kind<'a>) -> Result<Entry<'a>, AllocError> {
    let path = NormalPath::of(alloc, RelativePath::new(path))?;
    Ok(Entry { path, kind })
}

// The plan of a move of a file of a directory, between two marks. The tree has a page with this text too.
fn planned<'a>(alloc: Global, text: &str, new: &'a str) -> Result<Result<Plan<'a>, Refusal>, Fail> {
    let directory = Kind::Directory {
        has_foreign_name: false,
        is_read: true,
    };
    let entries = [
        entry(alloc, "a.md", Kind::File)?,
        entry(alloc, "d", directory)?,
        entry(alloc, "d/b.md", Kind::File)?,
    ];
    let pages = [SitePage {
        path: &entries[0].path,
        text,
    }];
    let tree = SiteTree {
        entries: &entries,
        pages: &pages,
        root: &SiteRoot::unknown(),
    };
    let moves = [(RelativePath::new("d/b.md"), RelativePath::new(new))];
    begin(alloc);
    let answer = make_plan(alloc, tree, &moves, None, NameRule::Plain, &Markdown);
    end(alloc, matches!(&answer, Err(Refusal::OutOfMemory)))?;
    Ok(answer)
}

// Requests: 4 488 1 6 80 2s 6 2s 6 6 488 6 488 72 4 1 7 4 488 1 6 80 11 128 648 64 96 96 1s 4 88 6 6 2s 6 7 7 6 11 11
// 128 648 64 96 96 1s 1s 8 9 18 1s 10 4 488 6 6 10 192 10 192 4 1 9 18 1s 10 4 10 11 288 1 9 18 1s 10 10 10 96 1 9 18
// 1s 10 4 10 10 144 80 6 1s 10 6 488 64 1 368 1s 1s 1 96 64 1 368 1s = 33
#[test]
fn a_plan_with_a_page_that_changes(rt: HostRuntime) -> Result<(), Fail> {
    match planned(rt.alloc(), "[b](d/b.md)", "e/b.md")? {
        Ok(plan) => {
            let page = plan.pages.first().ok_or("a page")?;
            same("the page", &page.text.as_deref(), &Some("[b](e/b.md)"))?;
            same("renames", &plan.actions.staged.len(), &3)
        }
        Err(refusal) => same("a refusal", &refusal, &Refusal::OutOfMemory),
    }
}

// Requests: 4 488 1 6 80 2s 6 1s 4 6 488 4 488 4 = 0
#[test]
fn a_move_that_is_refused(rt: HostRuntime) -> Result<(), Fail> {
    match planned(rt.alloc(), "", "a.md")? {
        Ok(_) => Err(Fail::new("a plan")),
        Err(Refusal::OutOfMemory) => Ok(()),
        Err(refusal) => same("a refusal", &refusal, &Refusal::Taken(0)),
    }
}
