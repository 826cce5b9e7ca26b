//! Paths by the places that they lead to.
ghost use Rattle.std.specs.Prelude.{◌≡◌, ◌<◌, ◌++◌, ℕ, [], ◌∷◌, List, length, IfOk, IfSome, OnOk, OnErr};
ghost use Rattle.relative_path.specs.Steps.{Step, components};
ghost use Rattle.relative_path.specs.Walk.{IsSame};
ghost use Rattle.relative_path.specs.Normalizing.{IsNormalText, IsNormalTextOf};
ghost use Rattle.relative_path.specs.RelativePath.{path_components};
ghost use Rattle.relative_path_places.specs.IndexEntries.{number_at};
ghost use Rattle.relative_path_places.specs.PlaceIndex.{Indexes, IsFirstAt, IsFoundAt};
ghost use Rattle.relative_path_places.specs.Views.{view_components, view_text};

use crate::normal_path::NormalPath;
use crate::normal_view::NormalView;
use relative_path::RelativePath;
use std::alloc::{AllocError, Global};
use std::collections::BTreeMap;

/// An index from paths to numbers. Equivalent paths, which lead to the same place from every base, find
/// the same number.
///
/// The paths are numbered from 0 in the order in which they are inserted. If several are equivalent, a
/// search finds the first of them.
///
/// ```
/// let mut index = PlaceIndex::new(alloc);
/// index.insert(alloc, RelativePath::new("docs/a.md"), 0)?;
/// let [page, other] = ["./docs//a.md", "a.md"].map(RelativePath::new);
/// assert_eq!(rt; index.get(&NormalPath::of(alloc, page)?), Some(0));
/// assert_eq!(rt; index.get(&NormalPath::of(alloc, other)?), None);
/// ```
#[derive(Drop)]
pub struct PlaceIndex {
    by_text: BTreeMap<String, usize>,
}

impl PlaceIndex {
    /// Makes an empty index. Allocates nothing.
    ///
    /// ```
    /// let index = PlaceIndex::new(alloc);
    /// let path = NormalPath::of(alloc, RelativePath::new("a"))?;
    /// assert_eq!(rt; index.get(&path), None);
    /// ```
    pub fn new(alloc: Global) -> PlaceIndex
        ensures { Indexes [] result }
    {
        PlaceIndex {
            by_text: BTreeMap::new(alloc),
        }
    }

    /// Inserts a path. `number` has to be how many paths were inserted before. Returns the number of the
    /// first path that is equivalent to this one: an earlier one, or `number` if there is no earlier one.
    ///
    /// Allocates the path's normal form, and an entry if no earlier path is equivalent. Fails only if an
    /// allocation fails; the index then has the paths that it had.
    ///
    /// ```
    /// let mut index = PlaceIndex::new(alloc);
    /// assert_eq!(rt; index.insert(alloc, RelativePath::new("a/b"), 0)?, 0);
    /// assert_eq!(rt; index.insert(alloc, RelativePath::new("c"), 1)?, 1);
    /// assert_eq!(rt; index.insert(alloc, RelativePath::new("c/../a//b"), 2)?, 0);
    /// ```
    pub fn insert(
        &mut self,
        alloc: Global,
        path: RelativePath<'_>,
        number: usize,
    ) -> Result<usize, AllocError>
        // the index has this path too, if `number` counts those before
        ensures indexes { OnOk result ((paths : List (List Step))
            → Indexes paths self.old → length paths ≡ number
            → Indexes (paths ++ path_components path.entry ∷ []) self.new) }
        // the number of the first equivalent path, if `number` counts those before
        ensures first { IfOk result (λ first. (paths : List (List Step))
            → Indexes paths self.old → length paths ≡ number
            → IsFirstAt (paths ++ path_components path.entry ∷ []) (path_components path.entry) first) }
        // after an error: the same paths
        ensures err { OnErr result ((paths : List (List Step))
            → Indexes paths self.old → Indexes paths self.new) }
    {
        self.insert_normal(NormalPath::of(alloc, path)?, number)
    }

    /// Inserts a normal path, as [`PlaceIndex::insert`] inserts a path, and keeps its text.
    ///
    /// Allocates an entry if no earlier path is equivalent. Fails only if an allocation fails; the index then has the
    /// paths that it had.
    ///
    /// ```
    /// let mut index = PlaceIndex::new(alloc);
    /// let [one, other] = ["a/b", "c/../a//b"].map(RelativePath::new);
    /// assert_eq!(rt; index.insert_normal(NormalPath::of(alloc, one)?, 0)?, 0);
    /// assert_eq!(rt; index.insert_normal(NormalPath::of(alloc, other)?, 1)?, 0);
    /// ```
    pub fn insert_normal(&mut self, path: NormalPath, number: usize) -> Result<usize, AllocError>
        // the index has this path too, if `number` counts those before
        ensures indexes { OnOk result ((paths : List (List Step)) (cs : List Step)
            → Indexes paths self.old → length paths ≡ number → IsNormalTextOf cs path
            → Indexes (paths ++ cs ∷ []) self.new) }
        // the number of the first equivalent path, if `number` counts those before
        ensures first { IfOk result (λ first. (paths : List (List Step)) (cs : List Step)
            → Indexes paths self.old → length paths ≡ number → IsNormalTextOf cs path
            → IsFirstAt (paths ++ cs ∷ []) cs first) }
        // the text is normal
        ensures normal { IsNormalText path }
        // after an error: the same paths
        ensures err { OnErr result ((paths : List (List Step))
            → Indexes paths self.old → Indexes paths self.new) }
    {
        let text = path.into_relative_path_buf().into_string();
        Ok(*self.by_text.entry(text)?.or_insert(number))
    }

    /// Returns the number of the first path that is equivalent to this one. Searches a B-tree once, and
    /// allocates nothing.
    ///
    /// ```
    /// let mut index = PlaceIndex::new(alloc);
    /// index.insert(alloc, RelativePath::new("a/../b"), 0)?;
    /// let path = NormalPath::of(alloc, RelativePath::new("./b"))?;
    /// assert_eq!(rt; index.get(&path), Some(0));
    /// ```
    pub fn get(&self, path: &NormalPath) -> Option<usize>
        // the number of the first equivalent path, or `None`
        ensures found { (paths : List (List Step)) (cs : List Step) → Indexes paths self.now
            → IsSame cs (components path.now) → IsFoundAt paths cs result }
        // less than the number of paths
        ensures within { IfSome result (λ k. (paths : List (List Step)) → Indexes paths self.now
            → k < length paths) }
        // the number under the path's text
        ensures entry { result ≡ number_at self.now path.now }
    {
        self.get_view(path.view())
    }

    /// Returns what [`PlaceIndex::get`] returns, for a part of a normal path. Allocates nothing.
    ///
    /// ```
    /// let mut index = PlaceIndex::new(alloc);
    /// index.insert(alloc, RelativePath::new("docs"), 0)?;
    /// let path = NormalPath::of(alloc, RelativePath::new("docs/a.md"))?;
    /// let directory = path.view().parent().ok_or("a directory")?;
    /// assert_eq!(rt; index.get_view(directory), Some(0));
    /// ```
    pub fn get_view(&self, path: NormalView<'_>) -> Option<usize>
        // the number of the first equivalent path, or `None`
        ensures found { (paths : List (List Step)) (cs : List Step) → Indexes paths self.now
            → IsSame cs (view_components path.entry) → IsFoundAt paths cs result }
        // less than the number of paths
        ensures within { IfSome result (λ k. (paths : List (List Step)) → Indexes paths self.now
            → k < length paths) }
        // the number under the path's text
        ensures entry { result ≡ number_at self.now (view_text path.entry) }
    {
        self.by_text.get(path.as_relative_path().as_str()).copied()
    }
}
