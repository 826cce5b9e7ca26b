//! The names of a path, and from where they lead to it.
use super::{mentions, normal_paths, rows_mention, views};
use relative_path::RelativePath;
use relmove_mentions::{FileText, OldNames};
use std::test::Fail;

const OLDS: [&str; 6] = [
    "docs",
    "docs/setup.md",
    "docs/guide/README.md",
    "img/logo.png",
    "api/Notes.MARKDOWN",
    "top.md",
];

// The directory of a file, its text, and what the text mentions.
const FROM_THE_TOP: [(&str, &str, &str); 10] = [
    ("", "see docs/setup.md", "docs/setup.md > docs/setup.md; "),
    (
        "a/b",
        "\"docs/setup.md\"",
        "docs/setup.md > docs/setup.md; ",
    ),
    (
        "a/b",
        "(/docs/setup.html)",
        "/docs/setup.html > docs/setup.md; ",
    ),
    (
        "a/b",
        "docs/setup/,docs/setup",
        "docs/setup/ > docs/setup.md; docs/setup > docs/setup.md; ",
    ),
    (
        "a/b",
        "docs//guide/./x/../README.md",
        "docs//guide/./x/../README.md > docs/guide/README.md; ",
    ),
    (
        "",
        "docs/guide docs/guide/",
        "docs/guide > docs/guide/README.md; docs/guide/ > docs/guide/README.md; ",
    ),
    (
        "a",
        "/top.md /top /docs",
        "/top.md > top.md; /top > top.md; /docs > docs; ",
    ),
    ("a", "top.md top docs docs/", ""),
    (
        "",
        "top.md top docs docs/",
        "top.md > top.md; top > top.md; docs > docs; docs/ > docs; ",
    ),
    ("", "../docs/setup.md /../top.md", ""),
];

const FROM_THE_DIRECTORY: [(&str, &str, &str); 9] = [
    ("docs", "setup.md", "setup.md > docs/setup.md; "),
    ("docs", "./setup.html", "./setup.html > docs/setup.md; "),
    ("docs/guide", "../setup", "../setup > docs/setup.md; "),
    (
        "docs/guide",
        "README.md README",
        "README.md > docs/guide/README.md; README > docs/guide/README.md; ",
    ),
    (
        "docs/guide",
        "../guide",
        "../guide > docs/guide/README.md; ",
    ),
    ("docs/guide", ". .. ../ / ./", ""),
    (
        "docs",
        "guide/index.html index.html guide/index",
        "guide/index.html > docs/guide/README.md; ",
    ),
    ("img", "/logo.png", ""),
    ("img", "logo.html logo", ""),
];

const ENDINGS: [(&str, &str, &str); 6] = [
    (
        "api",
        "Notes.MARKDOWN",
        "Notes.MARKDOWN > api/Notes.MARKDOWN; ",
    ),
    (
        "api",
        "Notes.html Notes",
        "Notes.html > api/Notes.MARKDOWN; Notes > api/Notes.MARKDOWN; ",
    ),
    ("api", "Notes.md notes", ""),
    ("api", "Notes.HTML", ""),
    ("docs/guide", "readme.md", ""),
    ("", "api/ img img/", ""),
];

// A page whose stem is `.` or `..`, and what mentions it: neither its directory nor the one above.
const WITH_DOTS: [(&str, &str, &str); 3] = [
    ("", "d a a/b ./d", ""),
    (
        "",
        "d/..md a/b/...md",
        "d/..md > d/..md; a/b/...md > a/b/...md; ",
    ),
    (
        "d",
        "..html ../a/b/...html",
        "..html > d/..md; ../a/b/...html > a/b/...md; ",
    ),
];

#[test]
fn stems_of_dots(rt: HostRuntime) -> Result<(), Fail> {
    rows_mention(rt.alloc(), &["d/..md", "a/b/...md"], &WITH_DOTS)
}

#[test]
fn names_from_the_top(rt: HostRuntime) -> Result<(), Fail> {
    rows_mention(rt.alloc(), &OLDS, &FROM_THE_TOP)
}

#[test]
fn names_from_the_directory(rt: HostRuntime) -> Result<(), Fail> {
    rows_mention(rt.alloc(), &OLDS, &FROM_THE_DIRECTORY)
}

#[test]
fn endings_of_pages(rt: HostRuntime) -> Result<(), Fail> {
    rows_mention(rt.alloc(), &OLDS, &ENDINGS)
}

// A text in a file of the directories `docs/guide` and `docs/guide/start`, with the tops `docs` and `img`, and what it
// mentions.
const FROM_SEVERAL: [(&str, &str); 7] = [
    (
        "/setup.md /setup/",
        "/setup.md > docs/setup.md; /setup/ > docs/setup.md; ",
    ),
    (
        "/guide/ guide/index.html",
        "/guide/ > docs/guide/README.md; guide/index.html > docs/guide/README.md; ",
    ),
    ("setup.md logo.png", ""),
    ("/logo.png", "/logo.png > img/logo.png; "),
    ("/docs/setup.md docs/setup.md", ""),
    (
        "../setup ../../setup/",
        "../setup > docs/setup.md; ../../setup/ > docs/setup.md; ",
    ),
    (
        "README.md ../README.md",
        "README.md > docs/guide/README.md; ../README.md > docs/guide/README.md; ",
    ),
];

#[test]
fn names_from_several_directories(rt: HostRuntime) -> Result<(), Fail> {
    let alloc = rt.alloc();
    let paths = normal_paths(alloc, &OLDS)?;
    let views = views(alloc, paths.as_slice())?;
    let names = OldNames::of(alloc, views.as_slice())?;
    for (text, expected) in &FROM_SEVERAL {
        let file = FileText {
            directories: &[
                RelativePath::new("docs/guide"),
                RelativePath::new("docs/guide/start"),
            ],
            tops: &[RelativePath::new("docs"), RelativePath::new("img")],
            text: text.as_bytes(),
            read: &[],
        };
        mentions(alloc, &names, file, text, expected)?;
    }
    Ok(())
}
