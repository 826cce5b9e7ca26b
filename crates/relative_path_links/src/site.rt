//! Rewrites the pages of a site after its files moved.
ghost use Rattle.std.specs.Prelude.{IfOk};
ghost use Rattle.relative_path_links.specs.Site.{AreRewritten, ForMovedPage, IsRewritten, KeepTheirLinks};

use crate::edit::Edit;
use crate::finder::Finder;
use crate::reread::settle;
use crate::rewriter::rewrite_links;
use crate::site_root::SiteRoot;
use relative_path_moves::TreeMoves;
use relative_path_places::NormalPath;
use std::alloc::{AllocError, Global};

/// A page of a site before the moves.
#[derive(Clone, Copy, Debug)]
pub struct SitePage<'a> {
    /// Its path from the root.
    pub path: &'a NormalPath,
    /// Its text.
    pub text: &'a str,
}

/// A page of a site after the moves.
#[derive(Drop)]
pub struct MovedSitePage {
    /// Its path from the root.
    pub path: NormalPath,
    /// What becomes of each of its targets.
    pub edits: Vec<Edit>,
    /// Its text, if it changes.
    pub text: Option<String>,
}

/// Rewrites the pages of a site after the moves of a table. Each link then leads to the file to which it led
/// before, wherever that file is now, or it is left.
///
/// The pages move by `moves`, and what links lead to by `links`. Both are one table, unless a site shows pages under other
/// names: if it shows `a.md` as `a.html`, and `a.md` moves to `b.md`, `links` also has the move of `a.html` to `b.html`.
///
/// The links of a page are those whose targets the finder finds, as [`Markdown`](crate::Markdown) does. A link
/// leads, as a browser reads its target, from the directory of its page, or from the site's root, if that is known and
/// the target begins with one slash. All bytes outside the targets stay. A page stays as it is if its directory doesn't
/// move and no link of it leads to a file that moves.
///
/// A page that changes is read again. If the finder doesn't find the targets of the edits where they are now, or
/// finds others, the new target next to the first difference is given up. It is left as it is, with the reason
/// [`WouldReadOtherwise`](crate::Unchanged::WouldReadOtherwise). After three such targets all new ones of the page
/// are given up. So a page is read again at most four times.
///
/// Allocates the list of pages, and for each page what the finder, [`TreeMoves::moved_page`] and [`rewrite_links`]
/// do. For a page that changes it also allocates its text, and what the finder does once more, each time that the
/// page is read again. The only error is lack of memory.
///
/// ```
/// let moves = [(RelativePath::new("guide"), RelativePath::new("docs/guide"))];
/// let moves = TreeMoves::new(alloc, &moves)?;
/// let index = NormalPath::of(alloc, RelativePath::new("index.md"))?;
/// let page = SitePage { path: &index, text: "[a](guide/a.md)" };
/// let moved = rewrite_site(alloc, &[page], &SiteRoot::unknown(), &moves, &moves, &Markdown)?;
/// assert_eq!(rt; moved[0].path.as_relative_path().as_str(), "index.md");
/// assert_eq!(rt; moved[0].text.as_deref(), Some("[a](docs/guide/a.md)"));
/// ```
pub fn rewrite_site<'m, F: Finder>(
    alloc: Global,
    pages: &[SitePage<'_>],
    root: &SiteRoot,
    moves: &TreeMoves<'m>,
    links: &TreeMoves<'m>,
    finder: &F,
) -> Result<Vec<MovedSitePage>, AllocError>
    // each page as by `rewrite_links`, but for targets that are given up, at its path after the moves
    ensures rewritten { IfOk result
        (λ new. AreRewritten (F.finds finder.now) root.now moves.now links.now pages.now new.items) }
    // each link that is read still leads to its file, query and fragment kept, or is left, and is found again
    ensures links { IfOk result
        (λ new. KeepTheirLinks (F.finds finder.now) root.now moves.now links.now pages.now new.items) }
{
    let mut moved = Vec::with_capacity(alloc, pages.len())?;
    for page in pages {
        moved.push(moved_page(alloc, *page, root, moves, links, finder)?)?;
    }
    Ok(moved)
}

// Returns a page of the site after the moves.
fn moved_page<F: Finder>(
    alloc: Global,
    page: SitePage<'_>,
    root: &SiteRoot,
    moves: &TreeMoves<'_>,
    links: &TreeMoves<'_>,
    finder: &F,
) -> Result<MovedSitePage, AllocError>
    ensures { IfOk result (ForMovedPage (IsRewritten (F.finds finder.now)) root.now moves.now links.now page.entry) }
{
    let targets = finder.targets(alloc, page.text)?;
    let moved = moves.moved_page(alloc, page.path)?;
    let edits = rewrite_links(alloc, page.text, &targets, root, links, &moved)?;
    let settled = settle(alloc, page.text, edits, finder)?;
    Ok(MovedSitePage {
        path: moved.path,
        edits: settled.edits,
        text: settled.text,
    })
}
