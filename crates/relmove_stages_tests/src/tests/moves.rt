//! Moves of a small tree, from their paths to what is on the disk.
use crate::tests::example::{Place, entries, has};
use crate::tests::trial::{Trial, carry_out_moves_in_trial};
use relative_path::RelativePath;
use relative_path_links::{SitePage, SiteRoot};
use relative_path_places::NormalPath;
use relmove_plan::{Entry, Kind, SiteTree};
use relmove_planned::{MovesFault, WorkRefusal};
use relmove_stages_disk::{Fault, MemoryDisk};
use std::alloc::{AllocError, Global};
use std::test::Fail;

const BEFORE: &[Place] = &[
    ("", None),
    (".relmove-run", None),
    ("a.md", Some("[b](b.md)")),
    ("b.md", Some("")),
];

const AFTER: &[Place] = &[
    ("", None),
    (".relmove-run", None),
    ("a.md", Some("[b](guide/b.md)")),
    ("guide", None),
    ("guide/b.md", Some("")),
];

fn file<'a>(alloc: Global, path: &str) -> Result<Entry<'a>, AllocError> {
    Ok(Entry {
        path: NormalPath::of(alloc, RelativePath::new(path))?,
        kind: Kind::File,
    })
}

fn trial(alloc: Global) -> Result<Trial, Fault> {
    Ok(Trial {
        disk: MemoryDisk::new(alloc, entries(alloc, BEFORE)?, None),
    })
}

// Why a page at this path, and the file `b.md`, can't be moved so; `None` if they can.
fn refusal(alloc: Global, page: &str, new: &str) -> Result<Option<WorkRefusal>, Fault> {
    let files = [file(alloc, page)?, file(alloc, "b.md")?];
    let pages = [SitePage {
        path: &files[0].path,
        text: "[b](b.md)",
    }];
    let tree = SiteTree {
        entries: &files,
        pages: &pages,
        root: &SiteRoot::unknown(),
    };
    let moves = [(RelativePath::new("b.md"), RelativePath::new(new))];
    match carry_out_moves_in_trial(&mut trial(alloc)?, alloc, tree, &moves) {
        Err(MovesFault::Refused(refusal)) => Ok(Some(refusal)),
        _ => Ok(None),
    }
}

#[test]
fn moves_a_file_and_mends_a_link(rt: HostRuntime) -> Result<(), Fail> {
    let alloc = rt.alloc();
    let files = [file(alloc, "a.md")?, file(alloc, "b.md")?];
    let pages = [SitePage {
        path: &files[0].path,
        text: "[b](b.md)",
    }];
    let tree = SiteTree {
        entries: &files,
        pages: &pages,
        root: &SiteRoot::unknown(),
    };
    let moves = [(RelativePath::new("b.md"), RelativePath::new("guide/b.md"))];
    let mut trial = trial(alloc)?;
    let ended = carry_out_moves_in_trial(&mut trial, alloc, tree, &moves);
    assert!(rt; ended.is_ok(), "the moves are done");
    assert!(rt;
        has(&trial.disk, AFTER),
        "the file is moved, and the link leads to it"
    );
    Ok(())
}

#[test]
fn refuses_names_of_a_run_and_directories_that_are_not_read(rt: HostRuntime) -> Result<(), Fail> {
    let alloc = rt.alloc();
    assert_eq!(rt;
        refusal(alloc, "docs/.relmove-1/a.md", "c.md")?,
        Some(WorkRefusal::ReservedName(0)),
        "the page is in a directory of a run's own"
    );
    assert_eq!(rt;
        refusal(alloc, "a.md", ".c/b.md")?,
        Some(WorkRefusal::NotOfRun),
        "a new directory wouldn't be read"
    );
    assert_eq!(rt;
        refusal(alloc, "a.md", "c.md")?,
        None,
        "another move is done"
    );
    Ok(())
}
