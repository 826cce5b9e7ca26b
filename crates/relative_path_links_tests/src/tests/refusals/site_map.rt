//! The site map.
use super::long_text;
use super::marks::{begin, end, end_answered};
use crate::tests::same;
use relative_path::RelativePath;
use relative_path_links::{SiteMap, SiteMapError};
use std::alloc::{AllocError, Global};
use std::test::Fail;

fn maps(alloc: Global, pages: &[RelativePath<'_>]) -> Result<(), Fail> {
    begin(alloc);
    let answer = SiteMap::new(alloc, pages);
    match answer {
        Ok(site) => {
            end_answered(alloc);
            same("pages", site.len(), pages.len())
        }
        Err(error) => {
            end(alloc, true)?;
            same("a refusal", error, SiteMapError::OutOfMemory)
        }
    }
}

// Requests: 2s 12 488 2s 10 1s 6 = 4, = 0, 524288s 1048576 488 = 2
#[test]
fn three_pages(rt: HostRuntime) -> Result<(), Fail> {
    let pages = ["a/index.html", "a/b%c.html", "d.html"].map(RelativePath::new);
    maps(rt.alloc(), &pages)?;
    maps(rt.alloc(), &[])?;
    let long = long_text(rt.alloc())?;
    maps(rt.alloc(), &[RelativePath::new(long.as_str())])
}

// Fails if a site of these pages is refused for another reason, or not at all.
fn refuses(alloc: Global, pages: [&str; 2], refusal: SiteMapError) -> Result<(), Fail> {
    let pages = pages.map(RelativePath::new);
    begin(alloc);
    let answer = SiteMap::new(alloc, &pages);
    let error = answer.err();
    end(alloc, error == Some(SiteMapError::OutOfMemory))?;
    same("a name", error, Some(refusal))
}

// Requests: = 0
#[test]
fn a_page_without_a_file_name(rt: HostRuntime) -> Result<(), Fail> {
    refuses(rt.alloc(), ["a", "b/.."], SiteMapError::NoFileName(1))
}

// Requests: = 0
#[test]
fn a_page_with_a_name_that_is_not_plain(rt: HostRuntime) -> Result<(), Fail> {
    refuses(rt.alloc(), ["a", "b?"], SiteMapError::NotPlain(1))
}

// Fails where memory is there and the site finds another page at a path.
fn site_finds(
    alloc: Global,
    site: &SiteMap<'_>,
    path: &str,
    expected: Option<usize>,
) -> Result<(), Fail> {
    begin(alloc);
    let answer = site.find(alloc, RelativePath::new(path));
    match answer {
        Ok(found) => {
            end_answered(alloc);
            same("find", found, expected)
        }
        Err(_) => end(alloc, true),
    }
}

// The same, for a site of two pages, of which this is the second.
fn finds(alloc: Global, page: &str, path: &str, expected: Option<usize>) -> Result<(), Fail> {
    let pages = ["a/b.html", page].map(RelativePath::new);
    let site = SiteMap::new(alloc, &pages)?;
    site_finds(alloc, &site, path, expected)
}

// Requests: 2s 6 = 0, 524288s 1048576 = 0
#[test]
fn find(rt: HostRuntime) -> Result<(), Fail> {
    finds(rt.alloc(), "./d.html", "./d.html", Some(1))?;
    let long = long_text(rt.alloc())?;
    finds(rt.alloc(), long.as_str(), long.as_str(), Some(1))
}

// Requests: = 0
#[test]
fn find_the_empty_path(rt: HostRuntime) -> Result<(), Fail> {
    finds(rt.alloc(), "d.html", "", None)
}

// Fails where memory is there and the site has another reference from its first page to its second. The
// marks are around the site's call.
fn refers(alloc: Global, site: &SiteMap<'_>, expected: &str) -> Result<(), Fail> {
    if site.len() < 2 {
        return Err(Fail::new("the pages"));
    }
    begin(alloc);
    let answer = site.href(alloc, 0, 1);
    match answer {
        Ok(href) => {
            end_answered(alloc);
            let found = href.as_ref().map(String::as_str);
            same("href", found, Some(expected))
        }
        Err(_) => end(alloc, true),
    }
}

// The same, for a site of these pages.
fn page_refers(alloc: Global, pages: [&str; 2], expected: &str) -> Result<(), Fail> {
    let pages = pages.map(RelativePath::new);
    let site = SiteMap::new(alloc, &pages)?;
    refers(alloc, &site, expected)
}

// The long text after these few bytes.
fn long_after(alloc: Global, front: &str) -> Result<String, AllocError> {
    let mut text = front.to_string(alloc)?;
    text.push_str(long_text(alloc)?.as_str())?;
    Ok(text)
}

// Requests: 1s 1s 8 8 16 = 1, 1s 524288s 1048575 2097150 1048578 2097156 = 1
#[test]
fn href(rt: HostRuntime) -> Result<(), Fail> {
    let index = "a/index.html";
    page_refers(rt.alloc(), [index, "a/b%c.html"], "b%25c.html")?;
    let page = long_after(rt.alloc(), "a/c%")?;
    let href = long_after(rt.alloc(), "c%25")?;
    page_refers(rt.alloc(), [index, page.as_str()], href.as_str())
}
