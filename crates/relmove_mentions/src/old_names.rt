//! The old paths of a run, by their names.
ghost use Rattle.std.specs.Prelude.{◌≡◌, ◌<◌, ◌≤◌, ◌++◌, ◌∷◌, [], ℕ, List, map, max, nat_le, true, IfNone, IfOk, IfSome, MatchOption, OnOk, Some, ⊤};
ghost use Rattle.std.specs.Option.{option_map};
ghost use Rattle.std.specs.BTreeMap.{get_by_text};
ghost use Rattle.relative_path.specs.Editing.{kept};
ghost use Rattle.relative_path.specs.Naming.{file_name_of, stem_of};
ghost use Rattle.relative_path.specs.RelativePath.{path_components, path_text};
ghost use Rattle.relative_path.specs.Steps.{Step, components};
ghost use Rattle.relative_path_places.specs.Views.{view_text};
ghost use Rattle.relmove_mentions.specs.Endings.{ending_of};
ghost use Rattle.relmove_mentions.specs.Hashes.{may_have};
ghost use Rattle.relmove_mentions.specs.Names.{
  bare_names,
  directory_names,
  index_names,
  is_bare_name,
  is_index_page,
  is_page,
  most_others,
  names_of,
  page_names,
};
ghost use Rattle.relmove_mentions.specs.OldNames.{Has, Lists, may_end_in, with_names};
ghost use Rattle.relmove_mentions.specs.Spans.{others_in};

use crate::endings::ending_of;
use crate::hashes::Hashes;
use crate::name_hashes::{last_hash, last_three_hash, last_two_hash};
use crate::text_span::others_in;
use relative_path::RelativePath;
use relative_path_places::{NormalView, directory};
use std::alloc::{AllocError, Global};
use std::collections::BTreeMap;

/// The old paths of a run, by the names under which a file may mention them.
///
/// ```
/// let page = NormalPath::of(alloc, RelativePath::new("docs/setup.md"))?;
/// let names = OldNames::of(alloc, &[page.view()])?;
/// let top = RelativePath::new("");
/// let file = FileText { directories: &[], tops: &[top], text: b"see docs/setup.html", read: &[] };
/// let mentions = names.mentions(alloc, file)?;
/// assert_eq!(rt; mentions[0].span, TextSpan { start: 4, end: 19 });
/// assert_eq!(rt; mentions[0].path.as_relative_path().as_str(), "docs/setup.md");
/// ```
#[derive(Drop)]
pub struct OldNames<'p> {
    by_text: BTreeMap<String, NormalView<'p>>,
    // The hashes of what the last names of paths end in.
    pub(crate) endings: Hashes,
    // Those of the paths that have a byte that isn't a path byte.
    pub(crate) endings_with_others: Hashes,
    // Those of the last two names, of the last three, and of the name before the last.
    last_names: Hashes,
    most_others: usize,
}

impl<'p> OldNames<'p> {
    /// Returns the names of old paths. If several paths have one name, the name stands for the one that comes first in
    /// `olds`. So does `docs` for one of `docs/README.md` and `docs/index.md`.
    ///
    /// A path has these names: itself; as a page, which has the extension `md` or `markdown` in any case, the path with
    /// the extension `html`, and without an extension, unless that leaves `.` or `..`; and as `README.md`, `index.md` or
    /// `_index.md` its directory's `index.html`, and its directory, unless that is the root.
    ///
    /// Allocates each name, an entry for each that is new, and three tables of at most 32 bytes for each path. Fails only if
    /// an allocation fails.
    ///
    /// ```
    /// let pages = [NormalPath::of(alloc, RelativePath::new("docs/README.md"))?];
    /// let names = OldNames::of(alloc, &[pages[0].view()])?;
    /// let top = RelativePath::new("");
    /// let file = FileText { directories: &[], tops: &[top], text: b"/docs/, /docs/index.html", read: &[] };
    /// assert_eq!(rt; names.mentions(alloc, file)?.len(), 2);
    /// ```
    pub fn of(alloc: Global, olds: &[NormalView<'p>]) -> Result<OldNames<'p>, AllocError>
        ensures { IfOk result (Has (map view_text olds.now)) }
    {
        let mut names = OldNames::new(alloc, olds.len(), with_others(olds), most_others_of(olds))?;
        for old in olds {
            names.insert_names(alloc, *old)?;
        }
        Ok(names)
    }

    // Returns the names of no path, with room for about so many, and about so many with bytes that aren't path bytes.
    fn new(
        alloc: Global,
        count: usize,
        with_others: usize,
        most_others: usize,
    ) -> Result<OldNames<'p>, AllocError>
        ensures lists { IfOk result (Lists []) }
        ensures most { IfOk result (λ names. names.most_others ≡ most_others) }
    {
        Ok(OldNames {
            by_text: BTreeMap::new(alloc),
            endings: Hashes::new(alloc, count)?,
            endings_with_others: Hashes::new(alloc, with_others)?,
            last_names: Hashes::new(alloc, count)?,
            most_others,
        })
    }

    // Inserts the names of an old path.
    fn insert_names(&mut self, alloc: Global, old: NormalView<'p>) -> Result<(), AllocError>
        ensures lists { OnOk result ((names : List (List ℕ × List Step)) → Lists names self.old
            → Lists (names ++ with_names (view_text old.entry) (names_of (view_text old.entry))) self.new) }
        ensures most { self.new.most_others ≡ self.old.most_others }
    {
        self.insert(alloc, old.as_relative_path(), old)?;
        self.insert_page_names(alloc, old)?;
        self.insert_index_names(alloc, old)?;
        Ok(())
    }

    // Inserts the further names of a page.
    fn insert_page_names(&mut self, alloc: Global, old: NormalView<'p>) -> Result<(), AllocError>
        ensures lists { OnOk result ((names : List (List ℕ × List Step)) → Lists names self.old
            → Lists (names ++ with_names (view_text old.entry) (page_names (kept (components (view_text old.entry)))
            (file_name_of (view_text old.entry)))) self.new) }
        ensures most { self.new.most_others ≡ self.old.most_others }
    {
        let path = old.as_relative_path();
        if !is_page(path) {
            return Ok(());
        }
        let html = path.with_extension(alloc, "html")?;
        self.insert(alloc, html.as_relative_path(), old)?;
        self.insert_bare_name(alloc, old)?;
        Ok(())
    }

    // Inserts a path without its extension, if that leaves a name.
    fn insert_bare_name(&mut self, alloc: Global, old: NormalView<'p>) -> Result<(), AllocError>
        ensures lists { OnOk result ((names : List (List ℕ × List Step)) → Lists names self.old
            → Lists (names ++ with_names (view_text old.entry) (bare_names (kept (components (view_text old.entry)))
            (option_map stem_of (file_name_of (view_text old.entry))))) self.new) }
        ensures most { self.new.most_others ≡ self.old.most_others }
    {
        let path = old.as_relative_path();
        if !has_bare_name(path) {
            return Ok(());
        }
        let bare = path.with_extension(alloc, "")?;
        self.insert(alloc, bare.as_relative_path(), old)?;
        Ok(())
    }

    // Inserts the further names of a page for which its directory can stand.
    fn insert_index_names(&mut self, alloc: Global, old: NormalView<'p>) -> Result<(), AllocError>
        ensures lists { OnOk result ((names : List (List ℕ × List Step)) → Lists names self.old
            → Lists (names ++ with_names (view_text old.entry) (index_names (kept (components (view_text old.entry)))
            (file_name_of (view_text old.entry)))) self.new) }
        ensures most { self.new.most_others ≡ self.old.most_others }
    {
        let path = old.as_relative_path();
        if !is_index_page(path) {
            return Ok(());
        }
        let directory = directory(path);
        let html = directory.join(alloc, RelativePath::new("index.html"))?;
        self.insert(alloc, html.as_relative_path(), old)?;
        self.insert_directory(alloc, directory, old)?;
        Ok(())
    }

    // Inserts a directory, unless it is the root.
    fn insert_directory(
        &mut self,
        alloc: Global,
        directory: RelativePath<'_>,
        old: NormalView<'p>,
    ) -> Result<(), AllocError>
        ensures lists { OnOk result ((names : List (List ℕ × List Step)) → Lists names self.old
            → Lists (names ++ with_names (view_text old.entry) (directory_names (path_components directory.entry)))
            self.new) }
        ensures most { self.new.most_others ≡ self.old.most_others }
    {
        if directory.components().next().is_none() {
            return Ok(());
        }
        self.insert(alloc, directory, old)
    }

    // Inserts a name of an old path, unless an earlier path has it.
    fn insert(
        &mut self,
        alloc: Global,
        name: RelativePath<'_>,
        old: NormalView<'p>,
    ) -> Result<(), AllocError>
        ensures lists { OnOk result ((names : List (List ℕ × List Step)) → Lists names self.old
            → Lists (names ++ (view_text old.entry, path_components name.entry) ∷ []) self.new) }
        ensures most { self.new.most_others ≡ self.old.most_others }
    {
        let normal = name.normalize(alloc)?;
        insert_ending(&mut self.endings, normal.as_relative_path());
        insert_ending_with_others(
            &mut self.endings_with_others,
            normal.as_relative_path(),
            old,
        );
        insert_hash(
            &mut self.last_names,
            last_hash(directory(normal.as_relative_path())),
        );
        insert_hash(
            &mut self.last_names,
            last_two_hash(normal.as_relative_path()),
        );
        insert_hash(
            &mut self.last_names,
            last_three_hash(normal.as_relative_path()),
        );
        let text = normal.into_string();
        self.by_text.entry(text)?.or_insert(old);
        Ok(())
    }

    // Returns how many bytes of an old path aren't path bytes, at most.
    pub(crate) fn most_others(&self) -> usize
        ensures { result ≡ self.now.most_others }
    {
        self.most_others
    }

    // Returns whether the last name of a name of an old path may end as this one does.
    pub(crate) fn may_have_last(&self, name: &str) -> bool
        ensures { result ≡ may_have self.now.endings (ending_of name.now).hash }
    {
        self.endings.may_have(ending_of(name.as_bytes()).hash)
    }

    // Returns whether a name of an old path may end in two or three names with this hash, or in a name after one with it. If there
    // is no hash, it may.
    #[inline]
    pub(crate) fn may_end_in(&self, two: Option<u64>) -> bool
        ensures { result ≡ may_end_in self.now two }
    {
        match two {
            Some(hash) => self.last_names.may_have(hash),
            None => true,
        }
    }

    // Returns the first old path with a name, by the name's normal text, if it has so many bytes that aren't path bytes.
    pub(crate) fn get(&self, name: &str, others: usize) -> Option<NormalView<'p>>
        ensures some { IfSome result (λ old. (get_by_text self.now.by_text name.now ≡ Some old)
            × (others ≤ others_in (view_text old))) }
        ensures none { IfNone result (MatchOption (get_by_text self.now.by_text name.now) ⊤
            (λ old. others_in (view_text old) < others)) }
    {
        match self.by_text.get(name) {
            Some(old) if has_others(*old, others) => Some(*old),
            _ => None,
        }
    }
}

// Returns whether a path has at least so many bytes that aren't path bytes.
fn has_others(path: NormalView<'_>, others: usize) -> bool
    ensures { result ≡ nat_le others (others_in (view_text path.entry)) }
{
    others == 0 || others <= others_in(path.as_relative_path().as_str().as_bytes())
}

// Inserts what the last name of a path ends in.
fn insert_ending(endings: &mut Hashes, path: RelativePath<'_>)
    ensures has { (n : List ℕ) → file_name_of (path_text path.entry) ≡ Some n
        → may_have endings.new (ending_of n).hash ≡ true }
    ensures keeps { (hash : ℕ) → may_have endings.old hash ≡ true → may_have endings.new hash ≡ true }
{
    if let Some(name) = path.file_name() {
        endings.insert(ending_of(name.as_bytes()).hash);
    }
}

// Inserts what the last name of a path ends in, if it is a name of an old path that has a byte that isn't a path byte.
fn insert_ending_with_others(endings: &mut Hashes, path: RelativePath<'_>, old: NormalView<'_>)
    ensures has { (n : List ℕ) → file_name_of (path_text path.entry) ≡ Some n → 0 < others_in (view_text old.entry)
        → may_have endings.new (ending_of n).hash ≡ true }
    ensures keeps { (hash : ℕ) → may_have endings.old hash ≡ true → may_have endings.new hash ≡ true }
{
    if has_others(old, 1) {
        insert_ending(endings, path);
    }
}

// Inserts a hash, if there is one.
fn insert_hash(hashes: &mut Hashes, hash: Option<u64>)
    ensures has { (some : ℕ) → hash ≡ Some some → may_have hashes.new some ≡ true }
    ensures keeps { (other : ℕ) → may_have hashes.old other ≡ true → may_have hashes.new other ≡ true }
{
    if let Some(hash) = hash {
        hashes.insert(hash);
    }
}

// Returns how many paths of these have bytes that aren't path bytes.
fn with_others(olds: &[NormalView<'_>]) -> usize {
    olds.iter().filter(|old| has_others(**old, 1)).count()
}

// Returns the most bytes in a path of these that aren't path bytes.
fn most_others_of(olds: &[NormalView<'_>]) -> usize
    ensures { result ≡ most_others (map view_text olds.now) }
{
    let mut most = 0;
    for old in olds {
        most = larger(most, others_in(old.as_relative_path().as_str().as_bytes()));
    }
    most
}

// Returns the larger of two numbers.
fn larger(one: usize, other: usize) -> usize
    ensures { result ≡ max one other }
{
    if one < other { other } else { one }
}

/// Returns whether a path is that of a page: whether it has the extension `md` or `markdown`, in any case. Allocates
/// nothing.
///
/// ```
/// assert!(rt; is_page(RelativePath::new("docs/setup.MD")));
/// assert!(rt; !is_page(RelativePath::new("docs/.md")));
/// ```
pub fn is_page(path: RelativePath<'_>) -> bool
    ensures { result ≡ is_page (file_name_of (path_text path.entry)) }
{
    match path.extension() {
        Some(extension) => {
            extension.eq_ignore_ascii_case("md") || extension.eq_ignore_ascii_case("markdown")
        }
        None => false,
    }
}

// Returns whether a path has a stem that can be a name.
fn has_bare_name(path: RelativePath<'_>) -> bool
    ensures { result ≡ is_bare_name (option_map stem_of (file_name_of (path_text path.entry))) }
{
    match path.file_stem() {
        Some(stem) => !(stem == "." || stem == ".."),
        None => false,
    }
}

/// The names of a page for which its directory can stand.
pub const INDEX_NAMES: [&str; 3] = ["README.md", "index.md", "_index.md"];

/// Returns whether a path is that of a page for which its directory can stand: whether its name is one of [`INDEX_NAMES`].
/// Allocates nothing.
///
/// ```
/// assert!(rt; is_index_page(RelativePath::new("docs/index.md")));
/// assert!(rt; !is_index_page(RelativePath::new("docs/Index.md")));
/// ```
pub fn is_index_page(path: RelativePath<'_>) -> bool
    ensures { result ≡ is_index_page (file_name_of (path_text path.entry)) }
{
    match path.file_name() {
        Some(name) => name == "README.md" || name == "index.md" || name == "_index.md",
        None => false,
    }
}
