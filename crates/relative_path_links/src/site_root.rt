//! The root of a site, from which targets lead that begin with a slash.
ghost use Rattle.std.specs.Prelude.{◌≡◌, ◌++◌, ℕ, codes, List, MatchOption, None, Option, Some, IfOk, slice_index, string_bytes};
ghost use Rattle.std.specs.Option.{is_some};
ghost use Rattle.relative_path.specs.Steps.{Step, components, is_slash};
ghost use Rattle.relative_path_moves.specs.Moves.{Move};
ghost use Rattle.target_paths.specs.declared.target.TargetSyntax.{TargetSyntax};
ghost use Rattle.target_paths.specs.Reading.{IfPath, IsTailAt, Meaning, Says};
ghost use Rattle.relative_path_links.specs.SiteRoot.{
  begins_rooted,
  begins_with_dot,
  leads_from_root,
  meaning_at,
  meaning_from_root,
  moving_by,
  moving_for,
  moving_from,
  page_moving,
  root_for,
  root_steps,
  StaysRoot,
  without_dot,
};

use relative_path::RelativePath;
use relative_path_moves::PageMove;
use relative_path_places::{NormalPath, has_place};
use std::alloc::{AllocError, Global};
use std::marker::Model;
use target_paths::{TargetReading, TargetSyntax, path_of_target};

/// The root of a site: the directory from which a target leads that begins with a slash, such as `/guide/a.md`. A web
/// server or the generator of the site has it.
///
/// It has one path, before and after the moves. If the directory itself moves, targets don't follow it: what was in it is
/// then outside of the root.
///
/// ```
/// let docs = NormalPath::of(alloc, RelativePath::new("docs"))?;
/// let root = SiteRoot::at(alloc, &docs)?;
/// assert!(rt; root.start_of("/guide/a.md") == Some(&docs));
/// ```
#[derive(Debug, Drop)]
pub struct SiteRoot {
    directory: Option<PageMove>,
}

impl Model for SiteRoot {
    // contracts see the components of the directory, or `None`
    ghost Value = { Option (List Step) };

    // the components of the directory, or `None` if it isn't known
    ghost view = { λ root. root_steps root.directory };

    // the directory is the same before and after the moves
    ghost invariant = { λ root. StaysRoot root.directory };
}

impl SiteRoot {
    /// A site whose root isn't known. No target that begins with a slash is read as a path. Allocates nothing.
    ///
    /// ```
    /// assert!(rt; SiteRoot::unknown().start_of("/a.md").is_none());
    /// ```
    pub fn unknown() -> SiteRoot
        ensures { result ≡ None }
    {
        SiteRoot { directory: None }
    }

    /// A site with this root. Allocates three copies of the path. The only error is lack of memory.
    ///
    /// ```
    /// let docs = NormalPath::of(alloc, RelativePath::new("docs"))?;
    /// assert!(rt; SiteRoot::at(alloc, &docs)?.start_of("/a.md") == Some(&docs));
    /// ```
    pub fn at(alloc: Global, directory: &NormalPath) -> Result<SiteRoot, AllocError>
        ensures { IfOk result (λ root. root ≡ Some (components directory.now)) }
    {
        let directory = PageMove {
            path: directory.copy(alloc)?,
            before: directory.copy(alloc)?,
            after: directory.copy(alloc)?,
        };
        Ok(SiteRoot {
            directory: Some(directory),
        })
    }

    /// Returns the root, if a target leads from there: if the root is known, and the target begins with one slash. With
    /// two slashes a target begins with the name of a host. Another target leads from the directory of its page.
    /// Allocates nothing.
    ///
    /// ```
    /// let docs = NormalPath::of(alloc, RelativePath::new("docs"))?;
    /// let root = SiteRoot::at(alloc, &docs)?;
    /// for target in ["a.md", "//example.org/a.md", "#top"] {
    ///     assert!(rt; root.start_of(target).is_none());
    /// }
    /// ```
    pub fn start_of(&self, target: &str) -> Option<&NormalPath>
        ensures { MatchOption result (root_for self.now target.now ≡ None)
            (λ directory. root_for self.now target.now ≡ Some (components directory.now)) }
    {
        match &self.directory {
            None => None,
            Some(directory) => {
                if begins_rooted(target) {
                    Some(&directory.before)
                } else {
                    None
                }
            }
        }
    }

    /// Returns what a target means to a reader of a page of the site.
    ///
    /// A target that leads from the root is read by [`path_of_target`] with a dot before it: `/a.md` as `./a.md`. The
    /// offset of its tail is that in the target. It isn't read as a path if the path has a second slash after the first
    /// one, which names a host, or leads above the root. Another target is read by [`path_of_target`] as it is.
    ///
    /// Allocates what [`path_of_target`] does, and for a target that leads from the root a copy of it.
    ///
    /// ```
    /// let root = SiteRoot::at(alloc, &NormalPath::of(alloc, RelativePath::new("docs"))?)?;
    /// let reading = root.read_target(alloc, TargetSyntax::Markdown, "/my%20a.md#top")?;
    /// let TargetReading::Path { path, tail_at } = reading else {
    ///     return Err(Fail::new("a path"));
    /// };
    /// assert_eq!(rt; (path.as_str(), tail_at), ("./my a.md", 10));
    /// let reading = root.read_target(alloc, TargetSyntax::Attribute, "/../a.md")?;
    /// assert_eq!(rt; reading, TargetReading::NotRelative);
    /// ```
    pub fn read_target(
        &self,
        alloc: Global,
        syntax: TargetSyntax,
        target: &str,
    ) -> Result<TargetReading, AllocError>
        // what `meaning_at` says of the target
        ensures reading { IfOk result
            (Says (meaning_at (is_some (root_for self.now target.now)) syntax target.now)) }
        // after a path the target is a tail, from `tail_at` on
        ensures tail { IfOk result (λ reading. IfPath reading (λ _ tail_at. IsTailAt syntax target.now tail_at)) }
    {
        read_at(alloc, self.start_of(target).is_some(), syntax, target)
    }

    // Returns where a target of a page leads from.
    pub(crate) fn start<'a>(&'a self, target: &str, page: &'a PageMove) -> Start<'a>
        ensures { (moves : List Move)
            → moving_from moves result ≡ moving_for (page_moving self.entry.now moves page.entry.now) target.now }
    {
        match &self.directory {
            None => from_page(page),
            Some(root) => {
                if begins_rooted(target) {
                    Start {
                        is_rooted: true,
                        directory: root,
                    }
                } else {
                    from_page(page)
                }
            }
        }
    }
}

// Where a target of a page leads from: the site's root, or the page's directory.
#[derive(Clone, Copy)]
pub(crate) struct Start<'a> {
    pub(crate) is_rooted: bool,
    pub(crate) directory: &'a PageMove,
}

// Returns the start of a target that leads from its page's directory.
fn from_page<'a>(page: &'a PageMove) -> Start<'a>
    ensures { (moves : List Move) → moving_from moves result ≡ moving_by (page_moving None moves page.entry.now) None }
{
    Start {
        is_rooted: false,
        directory: page,
    }
}

// Returns what a target means, from the site's root or from the page's directory.
pub(crate) fn read_at(
    alloc: Global,
    is_rooted: bool,
    syntax: TargetSyntax,
    target: &str,
) -> Result<TargetReading, AllocError>
    ensures reading { IfOk result (Says (meaning_at is_rooted syntax target.now)) }
    ensures tail { IfOk result (λ reading. IfPath reading (λ _ tail_at. IsTailAt syntax target.now tail_at)) }
{
    if is_rooted {
        read_from_root(alloc, syntax, target)
    } else {
        path_of_target(alloc, syntax, target)
    }
}

// Returns what a target means from the site's root.
fn read_from_root(
    alloc: Global,
    syntax: TargetSyntax,
    target: &str,
) -> Result<TargetReading, AllocError>
    ensures reading { IfOk result (Says (meaning_from_root syntax target.now)) }
    ensures tail { IfOk result (λ reading. IfPath reading (λ _ tail_at. IsTailAt syntax target.now tail_at)) }
{
    if !begins_rooted(target) {
        return Ok(TargetReading::NotRelative);
    }
    let dotted = with_dot_before(alloc, target)?;
    let reading = path_of_target(alloc, syntax, &dotted)?;
    Ok(without_dot(reading))
}

// Returns a target with a dot before it. Allocates once.
fn with_dot_before(alloc: Global, target: &str) -> Result<String, AllocError>
    ensures { IfOk result (λ dotted. string_bytes dotted ≡ codes "." ++ target.now) }
{
    let mut dotted = String::with_capacity(alloc, target.len().saturating_add(1))?;
    dotted.push_str(".")?;
    dotted.push_str(target)?;
    Ok(dotted)
}

// Returns what a target means from the site's root, by what it means with a dot before it.
fn without_dot(reading: TargetReading) -> TargetReading
    ensures reading { (meaning : Meaning) → Says meaning reading → Says (without_dot meaning) result }
    ensures tail { (syntax : TargetSyntax) (target : List ℕ)
        → IfPath reading (λ _ tail_at. IsTailAt syntax (codes "." ++ target) tail_at)
        → IfPath result (λ _ tail_at. IsTailAt syntax target tail_at) }
{
    match reading {
        TargetReading::NotRelative => TargetReading::NotRelative,
        TargetReading::Unknown(why) => TargetReading::Unknown(why),
        TargetReading::Path { path, tail_at } => {
            if leads_from_root(&path) {
                TargetReading::Path {
                    path,
                    tail_at: tail_at.saturating_sub(1),
                }
            } else {
                TargetReading::NotRelative
            }
        }
    }
}

// Returns whether a target begins with one slash.
fn begins_rooted(target: &str) -> bool
    ensures { result ≡ begins_rooted target.now }
{
    match target.as_bytes() {
        [b'/', b'/', ..] => false,
        [b'/', ..] => true,
        _ => false,
    }
}

// Returns whether a path, which a target with a dot before it spells, leads from the site's root.
fn leads_from_root(path: &str) -> bool
    ensures { result ≡ leads_from_root path.now }
{
    begins_with_dot(path) && !has_third_slash(path) && has_place(RelativePath::new(path))
}

// Returns whether an old path begins with `./`.
pub(crate) fn begins_with_dot(path: &str) -> bool
    ensures { result ≡ begins_with_dot path.now }
{
    path.as_bytes().starts_with(b"./")
}

// Returns whether the third byte of a path is a slash.
fn has_third_slash(path: &str) -> bool
    ensures { result ≡ is_slash (slice_index path.now 2) }
{
    matches!(path.as_bytes(), [_, _, b'/', ..])
}
