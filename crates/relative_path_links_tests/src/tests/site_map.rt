use super::{paths, prints, same};
use relative_path::RelativePath;
use relative_path_links::{SiteMap, SiteMapError};
use std::alloc::Global;
use std::test::Fail;

// The pages of a site: two of them spelt alike, one above the others, one named like a directory,
// and some whose names hold spaces.
const PAGES: [&str; 20] = [
    "index.html",
    "guide/index.html",
    "guide/start.html",
    "guide/install/linux.html",
    "guide/install/mac.html",
    "./guide//start.html",
    "guide",
    "blog/index.html",
    "blog/2024/a.html",
    "blog/2024/b% again.html",
    "blog/2025/index.html",
    "blog/2025/12/01/x.html",
    "api/v1/paths.html",
    "api/v2/paths.html",
    "api/v2/../v1/../v2/errors.html",
    "a%b/c.html",
    "img/logo.svg",
    "über/日本.html",
    "../legal.html",
    "404.html/.",
];

// Paths, and the page that each finds.
const FOUND: [(&str, Option<usize>); 12] = [
    ("guide/../index.html", Some(0)),
    ("guide/start.html", Some(2)),
    ("./guide//start.html", Some(2)),
    ("guide/.", Some(6)),
    ("blog/2023/../2024/./a.html", Some(8)),
    ("api/v2/errors.html", Some(14)),
    ("über/x/../日本.html", Some(17)),
    ("a/../../legal.html", Some(18)),
    ("404.html", Some(19)),
    ("blog", None),
    ("../site/index.html", None),
    ("", None),
];

// Fails where a site finds another page at a path than a row says.
fn site_finds(
    alloc: Global,
    site: &SiteMap<'_>,
    rows: &[(&str, Option<usize>)],
) -> Result<(), Fail> {
    for (path, page) in rows {
        let found = site.find(alloc, RelativePath::new(path))?;
        same(path, found, *page)?;
    }
    Ok(())
}

// The same, for the site of these pages.
fn finds(alloc: Global, pages: &[&str], rows: &[(&str, Option<usize>)]) -> Result<(), Fail> {
    let pages = paths(alloc, pages)?;
    let site = SiteMap::new(alloc, &pages)?;
    site_finds(alloc, &site, rows)
}

#[test]
fn finds_a_page_by_any_spelling(rt: HostRuntime) -> Result<(), Fail> {
    finds(rt.alloc(), &PAGES, &FOUND)
}

// The numbers of two pages, and the reference from the first to the second.
const HREFS: [(usize, usize, Option<&str>); 16] = [
    (0, 1, Some("guide/index.html")),
    (1, 0, Some("../index.html")),
    (1, 5, Some("start.html")),
    (5, 8, Some("../blog/2024/a.html")),
    (2, 6, Some("../guide")),
    (3, 6, Some("../../guide")),
    (6, 6, Some("guide")),
    (6, 2, Some("guide/start.html")),
    (11, 19, Some("../../../../404.html")),
    (14, 12, Some("../v1/paths.html")),
    (8, 9, Some("b%25%20again.html")),
    (0, 9, Some("blog/2024/b%25%20again.html")),
    (0, 15, Some("a%25b/c.html")),
    (1, 15, Some("../a%25b/c.html")),
    (8, 18, Some("../../../legal.html")),
    (19, 17, Some("über/日本.html")),
];

// Fails where the first of these pages refers to the second by another reference than is expected.
fn refers(
    alloc: Global,
    site: &SiteMap<'_>,
    (from, to, expected): (usize, usize, Option<&str>),
) -> Result<(), Fail> {
    if from >= site.len() || to >= site.len() {
        return Err(Fail::new("no such page"));
    }
    let href = site.href(alloc, from, to)?;
    let found = href.as_ref().map(String::as_str);
    same("a reference", (from, to, found), (from, to, expected))
}

// Fails where a site has another reference than a row says.
fn site_refers(
    alloc: Global,
    site: &SiteMap<'_>,
    rows: &[(usize, usize, Option<&str>)],
) -> Result<(), Fail> {
    for row in rows {
        refers(alloc, site, *row)?;
    }
    Ok(())
}

// The same, for the site of these pages.
fn all_refer(
    alloc: Global,
    pages: &[&str],
    rows: &[(usize, usize, Option<&str>)],
) -> Result<(), Fail> {
    let pages = paths(alloc, pages)?;
    let site = SiteMap::new(alloc, &pages)?;
    site_refers(alloc, &site, rows)
}

#[test]
fn refers_from_a_page_to_another(rt: HostRuntime) -> Result<(), Fail> {
    all_refer(rt.alloc(), &PAGES, &HREFS)
}

#[test]
fn no_reference_leads_down_to_a_page_of_unknown_names(rt: HostRuntime) -> Result<(), Fail> {
    all_refer(rt.alloc(), &PAGES, &[(18, 0, None)])
}

// Pages whose names have bytes that mean something else in a URL or in HTML.
const AWKWARD: [&str; 8] = [
    "index.html",
    "docs/a b.html",
    "docs/a%3Fb.html",
    "docs/a%20b.html",
    "docs/a#b.html",
    "docs/&'s'.html",
    "docs/%2e%2e/..%2f.html",
    "100%/über%.html",
];

const AWKWARD_HREFS: [(usize, usize, Option<&str>); 9] = [
    (0, 1, Some("docs/a%20b.html")),
    (0, 2, Some("docs/a%253Fb.html")),
    (0, 3, Some("docs/a%2520b.html")),
    (0, 4, Some("docs/a%23b.html")),
    (4, 2, Some("a%253Fb.html")),
    (0, 5, Some("docs/%26%27s%27.html")),
    (1, 6, Some("%252e%252e/..%252f.html")),
    (6, 1, Some("../a%20b.html")),
    (5, 7, Some("../100%25/über%25.html")),
];

#[test]
fn encodes_the_names(rt: HostRuntime) -> Result<(), Fail> {
    all_refer(rt.alloc(), &AWKWARD, &AWKWARD_HREFS)
}

// Directories' pages, whose paths end in a slash, and other pages.
const DIRECTORIES: [&str; 8] = [
    "index.html",
    "guide/",
    "guide/a.html",
    "./guide/x/../b//",
    "guide/b/c/d.html",
    "guide",
    "a b/",
    "../above/",
];

const DIRECTORY_HREFS: [(usize, usize, Option<&str>); 19] = [
    (0, 1, Some("guide/")),
    (1, 0, Some("../index.html")),
    (1, 2, Some("a.html")),
    (2, 1, Some("./")),
    (1, 1, Some("./")),
    (1, 3, Some("b/")),
    (3, 1, Some("../")),
    (3, 4, Some("c/d.html")),
    (4, 3, Some("../")),
    (4, 1, Some("../../")),
    (5, 1, Some("guide/")),
    (1, 5, Some("../guide")),
    (0, 6, Some("a%20b/")),
    (1, 6, Some("../a%20b/")),
    (6, 6, Some("./")),
    (6, 3, Some("../guide/b/")),
    (1, 7, Some("../../above/")),
    (7, 7, Some("./")),
    (7, 1, None),
];

#[test]
fn refers_from_and_to_directories(rt: HostRuntime) -> Result<(), Fail> {
    all_refer(rt.alloc(), &DIRECTORIES, &DIRECTORY_HREFS)
}

const FOUND_DIRECTORIES: [(&str, Option<usize>); 5] = [
    ("guide", Some(1)),
    ("guide/", Some(1)),
    ("guide/b", Some(3)),
    ("a b/.", Some(6)),
    ("/", None),
];

#[test]
fn finds_a_directory_with_and_without_a_slash(rt: HostRuntime) -> Result<(), Fail> {
    finds(rt.alloc(), &DIRECTORIES, &FOUND_DIRECTORIES)
}

// Fails where a site of these two pages is refused for another reason, or not at all.
fn refuses(alloc: Global, texts: [&str; 2], refusal: SiteMapError) -> Result<(), Fail> {
    let error = SiteMap::new(alloc, &texts.map(RelativePath::new)).err();
    same("pages", (texts, error), (texts, Some(refusal)))
}

// Pairs of pages, and which of the two lacks a file name.
const WITHOUT_FILE_NAME: [([&str; 2], SiteMapError); 4] = [
    (["a.html", "b/.."], SiteMapError::NoFileName(1)),
    (["", "b.html"], SiteMapError::NoFileName(0)),
    (["b/", "/"], SiteMapError::NoFileName(1)),
    (["/.", ".."], SiteMapError::NoFileName(0)),
];

#[test]
fn refuses_a_page_without_a_file_name(rt: HostRuntime) -> Result<(), Fail> {
    for (texts, refusal) in &WITHOUT_FILE_NAME {
        refuses(rt.alloc(), *texts, *refusal)?;
    }
    Ok(())
}

// Pages of which the second has a name that isn't plain.
const NOT_PLAIN: [&str; 10] = [
    "docs/a?b.html",
    "\\\\evil.com",
    "docs/\"q\".html",
    "a:b/c.html",
    "docs/tab\t.html",
    "docs/nul\0.html",
    "aux.html",
    "a./b.html",
    "..namedfork/rsrc",
    "a*/../b.html",
];

#[test]
fn refuses_a_name_that_is_not_plain(rt: HostRuntime) -> Result<(), Fail> {
    for page in &NOT_PLAIN {
        refuses(rt.alloc(), ["a.html", page], SiteMapError::NotPlain(1))?;
        refuses(rt.alloc(), [page, ".."], SiteMapError::NoFileName(1))?;
    }
    Ok(())
}

#[test]
fn takes_no_pages(rt: HostRuntime) -> Result<(), Fail> {
    let site = SiteMap::new(rt.alloc(), &[])?;
    same("no pages", site.len(), 0)
}

// Errors, and what they print.
const WORDS: [(SiteMapError, &str); 3] = [
    (
        SiteMapError::NoFileName(1_000),
        "page 1000 lacks a file name",
    ),
    (
        SiteMapError::NotPlain(1_000),
        "page 1000 has a name that isn't plain",
    ),
    (SiteMapError::OutOfMemory, "out of memory"),
];

#[test]
fn refusals_print_their_words(rt: HostRuntime) -> Result<(), Fail> {
    for (refusal, words) in &WORDS {
        prints(rt.alloc(), refusal, words)?;
    }
    Ok(())
}
