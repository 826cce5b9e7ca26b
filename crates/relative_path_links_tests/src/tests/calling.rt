//! The caller that the page of `relative_path_links` shows.
ghost use Rattle.std.specs.Prelude.{◌<◌, ℕ, IfOk, IfSome, length, string_bytes};
ghost use Rattle.relative_path.specs.RelativePath.{path_components};
ghost use Rattle.relative_path_places.specs.PlaceIndex.{IsFirstAt};
ghost use Rattle.relative_path_links.specs.SiteMap.{page_at, paths_of};
ghost use Rattle.relative_path_links.specs.UrlPath.{Resolves};

use super::same;
use relative_path::RelativePath;
use relative_path_links::SiteMap;
use std::alloc::{AllocError, Global};
use std::test::Fail;

/// The reference to write in page number `from` to link to the page at a path. `None` if the site has no such page,
/// or if no link leads there.
pub fn link_to(
    alloc: Global,
    site: &SiteMap<'_>,
    from: usize,
    path: RelativePath<'_>,
) -> Result<Option<String>, AllocError>
    requires { from < length site.now }
    ensures { IfOk result (λ found. IfSome found (λ href. (to : ℕ)
        × IsFirstAt (paths_of site.now) (path_components path.entry) to
        × Resolves (page_at site.now from) (page_at site.now to) (string_bytes href))) }
{
    let found = site.find(alloc, path)?;
    let Some(to) = found else {
        return Ok(None);
    };
    let href = site.href(alloc, from, to)?;
    Ok(href)
}

// Fails where the first page of a site has another link to a path.
fn links_to(
    alloc: Global,
    site: &SiteMap<'_>,
    path: &str,
    expected: Option<&str>,
) -> Result<(), Fail> {
    if site.len() == 0 {
        return Err(Fail::new("no page"));
    }
    let href = link_to(alloc, site, 0, RelativePath::new(path))?;
    same(path, href.as_ref().map(String::as_str), expected)
}

#[test]
fn the_caller_of_the_page(rt: HostRuntime) -> Result<(), Fail> {
    let alloc = rt.alloc();
    let pages = ["docs/install.html", "index.html"].map(RelativePath::new);
    let site = SiteMap::new(alloc, &pages)?;
    links_to(alloc, &site, "docs/../index.html", Some("../index.html"))?;
    links_to(alloc, &site, "docs", None)
}
