//! A site map: finds pages by any spelling of their paths, and links from one page to another.
ghost use Rattle.std.specs.Prelude.{◌≡◌, ◌≢◌, ◌<◌, ◌↔◌, ℕ, List, length, map, false, IfOk, IfSome, OnOk, IsErrOf, MatchOption, None, Some, string_bytes};
ghost use Rattle.std.specs.List.{list_any};
ghost use Rattle.std.specs.Option.{option_map};
ghost use Rattle.relative_path.specs.Steps.{Step};
ghost use Rattle.relative_path.specs.Walk.{IsSame};
ghost use Rattle.relative_path.specs.Naming.{last_name};
ghost use Rattle.relative_path.specs.RelativePath.{path_text, path_components};
ghost use Rattle.relative_path_places.specs.PlaceIndex.{Indexes, IsFirstAt, IsFoundAt};
ghost use Rattle.relative_path_places.specs.Places.{directory};
ghost use Rattle.target_paths.specs.Writing.{ends_target};
ghost use Rattle.relative_path_links.specs.SiteMap.{page_at, paths_of, AreNamedPages, ArePlainPages, IsFirstNamelessPage, IsFirstOtherPage, IsSamePage, IsHref};
ghost use Rattle.relative_path_links.specs.UrlPath.{Page, page_of, ends_in_slash, url_steps, Resolves};

use relative_path::RelativePath;
use relative_path_files::has_plain_names;
use relative_path_places::{NormalPath, PlaceIndex, directory};
use std::alloc::{AllocError, AllocFailed, Global};
use std::error::Error;
use std::fmt;
use std::marker::Model;
use target_paths::target_of_path;

/// Why no site map can be made of some pages. Pages are numbered from 0.
///
/// ```
/// let error = SiteMapError::NoFileName(3);
/// assert_eq!(rt; error.to_string(alloc)?.as_str(), "page 3 lacks a file name");
/// ```
#[derive(Clone, Copy, Debug, PartialEq, Eq)]
pub enum SiteMapError {
    /// The first page whose path has no file name.
    NoFileName(usize),
    /// Each page has a file name, and this is the first page that has a name that isn't plain.
    NotPlain(usize),
    /// An allocation failed. By then each page was seen to have a file name, and only plain names.
    OutOfMemory,
}

impl fmt::Display for SiteMapError {
    ghost use Rattle.relative_path_links.specs.SiteMap.{site_map_error_text};

    // the words for the error
    ghost output = { λ refusal. Some (site_map_error_text refusal) };

    fn fmt<W: fmt::Write>(&self, f: &mut fmt::Formatter<W>) -> fmt::Result {
        match self {
            SiteMapError::NoFileName(k) => write!(f, "page {k} lacks a file name"),
            SiteMapError::NotPlain(k) => write!(f, "page {k} has a name that isn't plain"),
            SiteMapError::OutOfMemory => f.write_str("out of memory"),
        }
    }
}

impl Error for SiteMapError {}

impl From<AllocError> for SiteMapError {
    ghost use Rattle.relative_path_links.specs.declared.site_map.SiteMapError.TheVariants.{OutOfMemory};

    // a failed allocation becomes `OutOfMemory`
    ghost from_gives = { λ _ refusal. refusal ≡ OutOfMemory };

    fn from(_: AllocError) -> SiteMapError {
        SiteMapError::OutOfMemory
    }
}

impl<T: Drop> From<AllocFailed<T>> for SiteMapError {
    ghost use Rattle.relative_path_links.specs.declared.site_map.SiteMapError.TheVariants.{OutOfMemory};

    // a failed allocation becomes `OutOfMemory`
    ghost from_gives = { λ _ refusal. refusal ≡ OutOfMemory };

    fn from(_: AllocFailed<T>) -> SiteMapError {
        SiteMapError::OutOfMemory
    }
}

/// The pages of a site, numbered from 0. Each has a file name. A page whose path ends in a slash is the page
/// of that directory: its URL ends in a slash, and its references start at the directory itself.
///
/// ```
/// let pages = ["index.html", "guide/", "guide/start.html"].map(RelativePath::new);
/// let site = SiteMap::new(alloc, &pages)?;
/// assert_eq!(rt; site.find(alloc, RelativePath::new("guide/./start.html"))?, Some(2));
/// assert!(rt; site.href(alloc, 1, 2)?.is_some_and(|href| href.as_str() == "start.html"));
/// ```
#[derive(Drop)]
pub struct SiteMap<'a> {
    pages: &'a [RelativePath<'a>],
    by_place: PlaceIndex,
}

impl<'a> Model for SiteMap<'a> {
    // contracts see a list of pages
    ghost Value = { List Page };

    // the pages, by their components, and which are directories'
    ghost view = { λ site. map page_of site.pages.now };

    // file names, plain names, and an index of the pages
    ghost invariant = { λ site. Indexes (paths_of (map page_of site.pages.now)) site.by_place
        × AreNamedPages (map page_of site.pages.now) × ArePlainPages (map page_of site.pages.now) };
}

impl<'a> SiteMap<'a> {
    /// Makes the map of these pages. Fails if a page has no file name. So the page of the top, `""` or `"/"`,
    /// can't be in a map. Also fails if a page has a name that isn't plain, as `is_plain_name` of
    /// `relative_path_files` says: a browser reads `\` in a URL as `/`. If several pages lead to the same
    /// place, a search finds the first of them.
    ///
    /// The call looks for file names first, then for names that aren't plain, and then allocates for each
    /// page: the normal form, and an entry of the map.
    ///
    /// The map borrows the paths. So a function that makes paths can't return a map of them: it uses the map
    /// itself, or passes the map on.
    ///
    /// ```
    /// let pages = ["a.html", "./a.html", "b/.."].map(RelativePath::new);
    /// let site = SiteMap::new(alloc, &pages[..2])?;
    /// assert_eq!(rt; site.find(alloc, RelativePath::new("./a.html"))?, Some(0));
    /// assert_eq!(rt; SiteMap::new(alloc, &pages).err(), Some(SiteMapError::NoFileName(2)));
    /// ```
    ///
    /// A function that makes the paths and uses the map:
    ///
    /// ```
    /// /// The number of a page among the lines of a list.
    /// fn number_in_list(alloc: Global, list: &str, page: &str) -> Result<Option<usize>, SiteMapError> {
    ///     let mut pages = Vec::new(alloc);
    ///     for line in list.split('\n') {
    ///         pages.push(RelativePath::new(line))?;
    ///     }
    ///     let site = SiteMap::new(alloc, &pages)?;
    ///     Ok(site.find(alloc, RelativePath::new(page))?)
    /// }
    /// ```
    ///
    /// ```
    /// let found = number_in_list(alloc, "index.html\nguide/a.html", "guide/./a.html")?;
    /// assert_eq!(rt; found, Some(1));
    /// ```
    pub fn new(alloc: Global, pages: &'a [RelativePath<'a>]) -> Result<SiteMap<'a>, SiteMapError>
        // these pages, in order
        ensures pages { IfOk result (λ site. site ≡ map page_of pages.now) }
        // each page has a file name
        ensures named { OnOk result (AreNamedPages (map page_of pages.now)) }
        // each page's names are plain
        ensures plain { OnOk result (ArePlainPages (map page_of pages.now)) }
        // `NoFileName` exactly for the first page without a file name
        ensures no_file_name { (k : ℕ) → IsErrOf result (SiteMapError.NoFileName k)
            ↔ IsFirstNamelessPage (map page_of pages.now) k }
        // `NotPlain` exactly for the first page that isn't plain, given file names
        ensures not_plain { (k : ℕ) → IsErrOf result (SiteMapError.NotPlain k)
            ↔ (AreNamedPages (map page_of pages.now) × IsFirstOtherPage (map page_of pages.now) k) }
    {
        if let Some(k) = first_nameless(pages) {
            return Err(SiteMapError::NoFileName(k));
        }
        if let Some(k) = first_not_plain(pages) {
            return Err(SiteMapError::NotPlain(k));
        }
        let mut by_place = PlaceIndex::new(alloc);
        for (k, page) in pages.iter().enumerate() {
            by_place.insert(alloc, *page, k)?;
        }
        Ok(SiteMap { pages, by_place })
    }

    /// Returns how many pages the site has.
    ///
    /// ```
    /// let pages = ["index.html", "guide/start.html"].map(RelativePath::new);
    /// assert_eq!(rt; SiteMap::new(alloc, &pages)?.len(), 2);
    /// ```
    pub fn len(&self) -> usize
        ensures { result ≡ length self.now }
    {
        self.pages.len()
    }

    /// Returns the number of the first page that leads, from every base, to where the path leads. A slash at
    /// the end makes no difference: `guide` and `guide/` lead to the same place.
    ///
    /// Allocates the path's normal form, and searches a B-tree once.
    ///
    /// ```
    /// let pages = ["index.html", "guide/start.html"].map(RelativePath::new);
    /// let site = SiteMap::new(alloc, &pages)?;
    /// assert_eq!(rt; site.find(alloc, RelativePath::new("guide//../index.html"))?, Some(0));
    /// assert_eq!(rt; site.find(alloc, RelativePath::new("guide"))?, None);
    /// ```
    pub fn find(&self, alloc: Global, path: RelativePath<'_>) -> Result<Option<usize>, AllocError>
        // the first page where the path leads, or `None`
        ensures found { IfOk result (IsFoundAt (paths_of self.now) (path_components path.entry)) }
        // a path finds the same page exactly if it is equivalent
        ensures alike { IfOk result (λ found. (k : ℕ) → found ≡ Some k → (other : List Step)
            → IsFirstAt (paths_of self.now) other k ↔ IsSame (path_components path.entry) other) }
    {
        let place = NormalPath::of(alloc, path)?;
        Ok(self.by_place.get(&place))
    }

    /// Returns the reference to write in one page to link to another, or `None` if no path leads there. A
    /// browser resolves the reference (RFC 3986, section 5.2) from the URL of the first page to the URL of the
    /// second.
    ///
    /// The URL path of a page is the names of its place from the top, with a slash before each. The URL path
    /// of a directory's page, such as `guide/`, has one more slash at its end. A page that climbs above the
    /// top has no URL path.
    ///
    /// The result is the shortest path that ends in the second page's file name, or in a slash if the second
    /// page is a directory's page. [`target_of_path`] writes that path. So the caller encodes nothing: percent
    /// signs stand for a space, `%`, `#` and the like. The result
    /// can come between quotes in an attribute of HTML as it is, since it has no quote and no `&`.
    ///
    /// Allocates at most six times.
    ///
    /// ```
    /// let pages = ["docs/install", "docs/", "docs/a b%.html"].map(RelativePath::new);
    /// let site = SiteMap::new(alloc, &pages)?;
    /// assert!(rt; site.href(alloc, 0, 1)?.is_some_and(|href| href.as_str() == "./"));
    /// assert!(rt; site.href(alloc, 0, 2)?.is_some_and(|href| href.as_str() == "a%20b%25.html"));
    /// assert!(rt; site.href(alloc, 1, 0)?.is_some_and(|href| href.as_str() == "install"));
    /// ```
    pub fn href(&self, alloc: Global, from: usize, to: usize) -> Result<Option<String>, AllocError>
        // it has to be the number of a page
        requires from { from < length self.now }
        // it has to be the number of a page
        requires to { to < length self.now }
        // the target of the shortest path ending in `to`'s name or slash, or `None`
        ensures href { IfOk result (λ found. IsHref (page_at self.now from) (page_at self.now to)
            (option_map string_bytes found)) }
        // RFC 3986 resolves it from `from` to `to`, given places without NUL
        ensures resolves { IfOk result (λ found. IfSome found (λ href. Resolves (page_at self.now from)
            (page_at self.now to) (string_bytes href))) }
        // no byte that ends a target, such as a space
        ensures whole { IfOk result (λ found. IfSome found (λ href.
            list_any ends_target (string_bytes href) ≡ false)) }
        // the same for all spellings of both pages
        ensures alike { IfOk result (λ found. (page other : Page)
            → IsSamePage (page_at self.now from) page → IsSamePage (page_at self.now to) other
            → IsHref page other (option_map string_bytes found)) }
    {
        let page = self.page(to);
        let way = start_of(self.page(from)).try_relative(alloc, start_of(page))?;
        let Some(mut link) = way else {
            return Ok(None);
        };
        link.push(RelativePath::new(last_segment(page)))?;
        let href = target_of_path(alloc, link.as_relative_path().as_str())?;
        Ok(Some(href))
    }

    // Returns the path of page number `k`.
    fn page(&self, k: usize) -> RelativePath<'a>
        requires { k < length self.now }
        ensures page { page_of result ≡ page_at self.now k }
        ensures named { last_name (path_components result) ≢ None }
    {
        let pages = self.pages;
        pages[k]
    }
}

// Returns the path where references on a page start.
fn start_of<'a>(page: RelativePath<'a>) -> RelativePath<'a>
    ensures { path_components result ≡ directory (url_steps (page_of page.entry)) }
{
    if page.as_str().ends_with('/') {
        page
    } else {
        directory(page)
    }
}

// Returns the last segment of a page's URL path: its file name, or the empty text if its path ends in a
// slash.
fn last_segment<'a>(page: RelativePath<'a>) -> &'a str
    requires { last_name (path_components page) ≢ None }
    ensures { last_name (url_steps (page_of page.entry)) ≡ Some result.now }
{
    if page.as_str().ends_with('/') {
        ""
    } else {
        page.file_name().unwrap()
    }
}

// Returns the number of the first page without a file name.
fn first_nameless(pages: &[RelativePath<'_>]) -> Option<usize>
    ensures { MatchOption result (AreNamedPages (map page_of pages.now))
        (IsFirstNamelessPage (map page_of pages.now)) }
{
    for (k, page) in pages.iter().enumerate() {
        if page.file_name().is_none() {
            return Some(k);
        }
    }
    None
}

// Returns the number of the first page with a name that isn't plain.
fn first_not_plain(pages: &[RelativePath<'_>]) -> Option<usize>
    ensures { MatchOption result (ArePlainPages (map page_of pages.now))
        (IsFirstOtherPage (map page_of pages.now)) }
{
    for (k, page) in pages.iter().enumerate() {
        if !has_plain_names(*page) {
            return Some(k);
        }
    }
    None
}
