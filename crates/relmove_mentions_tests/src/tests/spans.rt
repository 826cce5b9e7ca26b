//! Where a path in a text begins and ends, its encoding, and what was read.
ghost use Rattle.relmove_mentions.specs.Spans.{FollowFrom};

use super::{mentions, normal_paths, rows_mention, views};
use relative_path::RelativePath;
use relmove_mentions::{FileText, OldNames, TextSpan};
use std::alloc::Global;
use std::test::Fail;

const BOUNDS: [(&str, &str, &str); 10] = [
    ("", "a.md", "a.md > a.md; "),
    ("", "<a.md>\na.md:12", "a.md > a.md; a.md > a.md; "),
    ("", "a.md.. xa.md a.mdx a.md-b _a.md a.md.b .a.md", ""),
    ("", "See a.md. Or a.md.", "a.md > a.md; a.md > a.md; "),
    ("", "a.mdé éa.md a.md%20 a.md/b", ""),
    (
        "",
        "`a.md`, 'a.md'; a.md!",
        "a.md > a.md; a.md > a.md; a.md > a.md; ",
    ),
    (
        "",
        "a=a.md&b=\\a.md",
        "a > a.md; a.md > a.md; a.md > a.md; ",
    ),
    ("", "", ""),
    ("", " ", ""),
    ("", "\u{0}a.md\u{0}", "a.md > a.md; "),
];

#[test]
fn bounds(rt: HostRuntime) -> Result<(), Fail> {
    rows_mention(rt.alloc(), &["a.md"], &BOUNDS)
}

const OTHERS: [&str; 4] = [
    "my file.md",
    "docs/x (old)/über [1].txt",
    "docs/x (old)",
    "file.md",
];

const WITH_OTHERS: [(&str, &str, &str); 9] = [
    (
        "",
        "see my file.md here",
        "my file.md > my file.md; file.md > file.md; ",
    ),
    ("", "my%20file.md", "my%20file.md > my file.md; "),
    (
        "",
        "%6dy file%2emd",
        "%6dy file%2emd > my file.md; file%2emd > file.md; ",
    ),
    (
        "",
        "my  file.md my\nfile",
        "file.md > file.md; file > file.md; ",
    ),
    ("", "xmy file", "file > file.md; "),
    ("docs", "x (old).", "x (old) > docs/x (old); "),
    ("docs", "x (old), x (old", "x (old) > docs/x (old); "),
    (
        "a",
        "docs/x (old)/über [1].txt!",
        "docs/x (old)/über [1].txt > docs/x (old)/über [1].txt; ",
    ),
    (
        "a",
        "docs/x%20%28old%29/%C3%BCber%20%5B1%5D.txt",
        "docs/x%20%28old%29/%C3%BCber%20%5B1%5D.txt > docs/x (old)/über [1].txt; ",
    ),
];

#[test]
fn paths_with_other_bytes(rt: HostRuntime) -> Result<(), Fail> {
    rows_mention(rt.alloc(), &OTHERS, &WITH_OTHERS)
}

const ENCODED: [(&str, &str, &str); 7] = [
    ("", "?file=docs%2Fa.txt", "docs%2Fa.txt > docs/a.txt; "),
    (
        "",
        "100%25.txt 100%.txt 100%2525.txt",
        "100%25.txt > 100%.txt; 100%.txt > 100%.txt; ",
    ),
    ("docs", "%61.txt %2", "%61.txt > docs/a.txt; "),
    ("docs", "%2Fdocs%2Fa.txt", "%2Fdocs%2Fa.txt > docs/a.txt; "),
    ("docs", "%FF%2F..%2Fa.txt", ""),
    (
        "docs",
        "b%20c.txt b%2520c.txt",
        "b%20c.txt > docs/b%20c.txt; b%2520c.txt > docs/b%20c.txt; ",
    ),
    ("docs", "b c.txt", ""),
];

#[test]
fn percent_signs(rt: HostRuntime) -> Result<(), Fail> {
    rows_mention(
        rt.alloc(),
        &["docs/a.txt", "100%.txt", "docs/b%20c.txt"],
        &ENCODED,
    )
}

// The first of two paths with one name is mentioned.
#[test]
fn first_of_two(rt: HostRuntime) -> Result<(), Fail> {
    let alloc = rt.alloc();
    let text = "a a.md a.html";
    let first = ("", text, "a > a; a.md > a.md; a.html > a.md; ");
    rows_mention(alloc, &["a", "a.md"], &[first])?;
    let second = ("", text, "a > a.md; a.md > a.md; a.html > a.md; ");
    rows_mention(alloc, &["a.md", "a"], &[second])
}

// The same for the pages for which a directory can stand.
#[test]
fn first_of_two_index_pages(rt: HostRuntime) -> Result<(), Fail> {
    let alloc = rt.alloc();
    let text = "d/ d/index.html";
    let first = ("", text, "d/ > d/README.md; d/index.html > d/README.md; ");
    rows_mention(alloc, &["d/README.md", "d/index.md"], &[first])?;
    let second = ("", text, "d/ > d/index.md; d/index.html > d/index.md; ");
    rows_mention(alloc, &["d/index.md", "d/README.md"], &[second])
}

// The same as `rows_mention` for one text in the root, of which spans were read.
fn text_mentions(alloc: Global, text: &str, read: &[TextSpan], expected: &str) -> Result<(), Fail>
    requires { FollowFrom 0 read.now }
{
    let paths = normal_paths(alloc, &["a.md"])?;
    let views = views(alloc, paths.as_slice())?;
    let names = OldNames::of(alloc, views.as_slice())?;
    let file = FileText {
        directories: &[RelativePath::new("")],
        tops: &[],
        text: text.as_bytes(),
        read,
    };
    mentions(alloc, &names, file, text, expected)
}

#[test]
fn read_spans(rt: HostRuntime) -> Result<(), Fail> {
    let alloc = rt.alloc();
    let text = "[a.md](a.md) a.md";
    let all = "a.md > a.md; a.md > a.md; a.md > a.md; ";
    let two = "a.md > a.md; a.md > a.md; ";
    text_mentions(alloc, text, &[], all)?;
    text_mentions(alloc, text, &[TextSpan { start: 7, end: 11 }], two)?;
    text_mentions(alloc, text, &[TextSpan { start: 10, end: 12 }], two)?;
    text_mentions(alloc, text, &[TextSpan { start: 5, end: 7 }], all)?;
    text_mentions(alloc, text, &[TextSpan { start: 8, end: 8 }], all)?;
    text_mentions(
        alloc,
        text,
        &[
            TextSpan { start: 0, end: 1 },
            TextSpan { start: 1, end: 17 },
        ],
        "",
    )
}

// Bytes that aren't UTF-8 are no part of a path, and end none.
#[test]
fn other_encodings(rt: HostRuntime) -> Result<(), Fail> {
    let alloc = rt.alloc();
    let paths = normal_paths(alloc, &["a.md"])?;
    let views = views(alloc, paths.as_slice())?;
    let names = OldNames::of(alloc, views.as_slice())?;
    let file = FileText {
        directories: &[RelativePath::new("")],
        tops: &[],
        text: b"\xFFa.md a.md\xE9 \xC3 a.md",
        read: &[],
    };
    let found = names.mentions(alloc, file)?;
    let spans = found
        .iter()
        .map(|mention| mention.span)
        .collect::<Vec<_>>(alloc)?;
    if spans.as_slice() == [TextSpan { start: 14, end: 18 }].as_slice() {
        Ok(())
    } else {
        Err(Fail::new("one mention at the end"))
    }
}
