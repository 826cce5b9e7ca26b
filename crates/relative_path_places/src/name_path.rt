//! Paths of names alone, as a type.
ghost use Rattle.std.specs.Prelude.{◌≡◌, ◌↔◌, IfOk, IfSome, IsSome};
ghost use Rattle.relative_path.specs.Walk.{place_of};
ghost use Rattle.relative_path.specs.Normalizing.{AreNames, IsNormal};
ghost use Rattle.relative_path.specs.Relating.{IsShortestText};
ghost use Rattle.relative_path.specs.RelativePath.{path_components, path_text};
ghost use Rattle.relative_path_places.specs.OneProof.{AreNames-prop};

use crate::way::way_between;
use relative_path::{Component, RelativePath, RelativePathBuf};
use std::alloc::{AllocError, Global};

/// A borrowed path whose components are all names. It is `Copy`.
///
/// From a base it leads down. From the top it leads to a place.
///
/// ```
/// let path = NormalPath::of(alloc, RelativePath::new("docs/./a.md"))?;
/// let names = path.view().names().ok_or("a place")?;
/// assert_eq!(rt; names.as_relative_path().as_str(), "docs/a.md");
/// ```
#[derive(Clone, Copy)]
pub struct NamePath<'a> {
    path: RelativePath<'a>,
    ghost names: { AreNames (path_components path) } by { AreNames-prop (path_components path) },
}

impl<'a> NamePath<'a> {
    ghost use Rattle.relative_path_places.specs.Views.{name_components, name_text};

    // Returns a path with normal components as names. `None` if it begins with `..`. Reads one component.
    pub(crate) fn of_normal(path: RelativePath<'a>) -> Option<NamePath<'a>>
        requires { IsNormal (path_components path) }
        ensures some { IsSome result ↔ IsSome (place_of (path_components path.entry)) }
        ensures text { IfSome result (λ names. name_text names ≡ path_text path.entry) }
        ensures components { IfSome result (λ names. name_components names ≡ path_components path.entry) }
    {
        match path.components().next() {
            None => Some(NamePath { path }),
            Some(Component::Normal(_)) => Some(NamePath { path }),
            Some(Component::ParentDir) => None,
            Some(Component::CurDir) => None,
        }
    }

    /// Views the names as a path. Allocates nothing.
    ///
    /// ```
    /// let path = NormalPath::of(alloc, RelativePath::new("a//b"))?;
    /// let names = path.view().names().ok_or("a place")?;
    /// assert_eq!(rt; names.as_relative_path().as_str(), "a/b");
    /// ```
    pub fn as_relative_path(self) -> RelativePath<'a>
        // the same text
        ensures text { path_text result ≡ name_text self.entry }
        // the same components
        ensures components { path_components result ≡ name_components self.entry }
        // each component is a name
        ensures names { AreNames (name_components self.entry) }
    {
        self.path
    }

    /// Returns the shortest path that leads from the place of these names to the place of others.
    ///
    /// Allocates once: the path, with room for one more byte. Fails only if this allocation fails.
    ///
    /// ```
    /// let [page, image] = ["docs/guide", "docs/img/x.png"].map(RelativePath::new);
    /// let [page, image] = [NormalPath::of(alloc, page)?, NormalPath::of(alloc, image)?];
    /// let from = page.view().names().ok_or("a place")?;
    /// let to = image.view().names().ok_or("a place")?;
    /// let way = from.way_to(alloc, to)?;
    /// assert_eq!(rt; way.as_relative_path().as_str(), "../img/x.png");
    /// ```
    pub fn way_to(self, alloc: Global, to: NamePath<'_>) -> Result<RelativePathBuf, AllocError>
        ensures { IfOk result
            (λ way. IsShortestText (name_components self.entry) (name_components to.entry) way.text) }
    {
        way_between(alloc, self.path, to.path)
    }
}
