use super::{Case, all_become};
use std::test::Fail;

const LED: [Case; 5] = [
    (
        "another directory",
        "docs/a.md > docs/sub/b.md",
        "../img/x.png",
        "../../img/x.png",
    ),
    (
        "the file itself",
        "docs/a.md > docs/sub/b.md",
        "a.md",
        "b.md",
    ),
    ("its directory", "docs/a.md > docs/sub/b.md", "", ".."),
    (
        "itself by its directory",
        "docs/a.md > docs/sub/b.md",
        "../docs/./a.md",
        "b.md",
    ),
    ("the directory itself", "a.md > b.md", ".", ""),
];

#[test]
fn answers_where_a_reference_leads(rt: HostRuntime) -> Result<(), Fail> {
    all_become(rt.alloc(), &LED)
}

const NOWHERE: [Case; 6] = [
    (
        "no old name",
        ".. > b.md",
        "x",
        "! move 0 lacks a file name",
    ),
    (
        "no new name",
        "a.md > ..",
        "x",
        "! move 0 lacks a file name",
    ),
    ("no way down again", "a.md > ../b.md", "x.md", "! no path"),
    (
        "a target above",
        "a.md > sub/a.md",
        "../x",
        "! reference climbs above the root",
    ),
    (
        "a target above, from above",
        "a.md > ../b.md",
        "../x",
        "! reference climbs above the root",
    ),
    (
        "the file itself, above",
        "a.md > ../b.md",
        "a.md",
        "! reference climbs above the root",
    ),
];

#[test]
fn refuses_what_leads_nowhere(rt: HostRuntime) -> Result<(), Fail> {
    all_become(rt.alloc(), &NOWHERE)
}
