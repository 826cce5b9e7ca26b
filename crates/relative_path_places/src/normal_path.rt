//! Paths that are normal, as a type.
ghost use Rattle.std.specs.Prelude.{◌≡◌, ◌↔◌, ◌++◌, List, ℕ, IfOk, IsSome, IsTrue, Some};
ghost use Rattle.std.specs.Cmp.{partial_equiv_from_equiv};
ghost use Rattle.std.specs.Cmp.Lexicographic.{nat_list_eq_equiv, pointwise};
ghost use Rattle.std.specs.Fmt.{debug_str};
ghost use Rattle.std.specs.Bool.{nat_eq};
ghost use Rattle.relative_path.specs.Steps.{components};
ghost use Rattle.relative_path.specs.Walk.{IsSame, place_of};
ghost use Rattle.relative_path.specs.Normalizing.{IsNormalText, IsNormalTextOf};
ghost use Rattle.relative_path.specs.RelativePath.{path_text, path_components};
ghost use Rattle.relative_path_places.specs.Places.{directory};
ghost use Rattle.relative_path_places.specs.Views.{view_text, view_components, name_components};

use crate::name_path::NamePath;
use crate::normal_view::NormalView;
use crate::places::has_place;
use crate::way::push_components;
use relative_path::{RelativePath, RelativePathBuf};
use std::alloc::{AllocError, Global};
use std::fmt;
use std::marker::Model;

/// A path that is known to be normal: `..` first, then names, joined by single slashes. It owns its text.
///
/// Equivalent paths, which lead to the same place from every base, have one normal path. So two normal
/// paths are equivalent exactly if their texts are equal.
///
/// ```
/// let path = NormalPath::of(alloc, RelativePath::new("docs/./guide//../a.md"))?;
/// assert_eq!(rt; path.as_relative_path().as_str(), "docs/a.md");
/// assert!(rt; path == NormalPath::of(alloc, RelativePath::new("docs/a.md"))?);
/// ```
#[derive(Drop)]
pub struct NormalPath {
    path: RelativePathBuf,
}

impl Model for NormalPath {
    // contracts see a text
    ghost Value = { List ℕ };

    // the text of the path
    ghost view = { λ normal. normal.path.text };

    // the text is normal
    ghost invariant = { λ normal. IsNormalText normal.path.text };
}

impl NormalPath {
    /// Returns the normal path that is equivalent to this path.
    ///
    /// Allocates what `normalize` does, and fails only if an allocation fails.
    ///
    /// ```
    /// let path = NormalPath::of(alloc, RelativePath::new("a/../../b"))?;
    /// assert_eq!(rt; path.as_relative_path().as_str(), "../b");
    /// ```
    pub fn of(alloc: Global, path: RelativePath<'_>) -> Result<NormalPath, AllocError>
        ensures { IfOk result (λ normal. IsNormalTextOf (path_components path.entry) normal) }
    {
        let path = path.normalize(alloc)?;
        Ok(NormalPath { path })
    }

    /// Returns the normal path that leads where `base` and then `path` lead.
    ///
    /// Allocates what `join_normalized` does, and fails only if an allocation fails.
    ///
    /// ```
    /// let [base, path] = ["docs/guide", "../a.md"].map(RelativePath::new);
    /// let joined = NormalPath::of_joined(alloc, base, path)?;
    /// assert_eq!(rt; joined.as_relative_path().as_str(), "docs/a.md");
    /// ```
    pub fn of_joined(
        alloc: Global,
        base: RelativePath<'_>,
        path: RelativePath<'_>,
    ) -> Result<NormalPath, AllocError>
        ensures { IfOk result (λ normal.
            IsNormalTextOf (path_components base.entry ++ path_components path.entry) normal) }
    {
        let path = base.join_normalized(alloc, path)?;
        Ok(NormalPath { path })
    }

    /// Returns the normal path that leads where this one and then `path` lead.
    ///
    /// Allocates what `join_normalized` does, and fails only if an allocation fails.
    ///
    /// ```
    /// let docs = NormalPath::of(alloc, RelativePath::new("docs"))?;
    /// let joined = docs.join(alloc, RelativePath::new("../img/x.png"))?;
    /// assert_eq!(rt; joined.as_relative_path().as_str(), "img/x.png");
    /// ```
    pub fn join(&self, alloc: Global, path: RelativePath<'_>) -> Result<NormalPath, AllocError>
        ensures { IfOk result (λ normal.
            IsNormalTextOf (components self.now ++ path_components path.entry) normal) }
    {
        NormalPath::of_joined(alloc, self.as_relative_path(), path)
    }

    /// Returns the normal path that leads where this one and then these names lead.
    ///
    /// Allocates once, the result, and fails only if that allocation fails.
    ///
    /// ```
    /// let [guide, img] = ["guide", "img/x.png"].map(RelativePath::new);
    /// let [guide, img] = [NormalPath::of(alloc, guide)?, NormalPath::of(alloc, img)?];
    /// let names = img.view().names().ok_or("a place")?;
    /// let path = guide.followed_by(alloc, names)?;
    /// assert_eq!(rt; path.as_relative_path().as_str(), "guide/img/x.png");
    /// ```
    pub fn followed_by(&self, alloc: Global, names: NamePath<'_>) -> Result<NormalPath, AllocError>
        ensures { IfOk result (λ normal.
            IsNormalTextOf (components self.now ++ name_components names.entry) normal) }
    {
        let front = self.as_relative_path();
        let names = names.as_relative_path();
        let room = front.as_str().len().saturating_add(1);
        let room = room.saturating_add(names.as_str().len());
        let mut path = RelativePathBuf::with_capacity(alloc, room)?;
        path.push(front)?;
        push_components(&mut path, names)?;
        Ok(NormalPath { path })
    }

    /// Views the normal path as one. Allocates nothing.
    ///
    /// ```
    /// let path = NormalPath::of(alloc, RelativePath::new("a/./b"))?;
    /// assert_eq!(rt; path.view().as_relative_path().as_str(), "a/b");
    /// ```
    pub fn view(&self) -> NormalView<'_>
        // the same text
        ensures text { view_text result ≡ self.now }
        // the text is normal
        ensures normal { IsNormalText self.now }
    {
        NormalView::of_normal(self.as_relative_path())
    }

    /// Returns the directory of a file with this path, as [`directory`](crate::directory) does. Allocates nothing.
    ///
    /// ```
    /// let page = NormalPath::of(alloc, RelativePath::new("docs/./a.md"))?;
    /// assert_eq!(rt; page.directory().as_relative_path().as_str(), "docs");
    /// ```
    pub fn directory(&self) -> NormalView<'_>
        // the components of the directory
        ensures { view_components result ≡ directory (components self.now) }
    {
        let path = self.view();
        path.parent().unwrap_or(path)
    }

    /// Returns whether the path leads to a place from the top, as [`has_place`](crate::has_place) does.
    /// Allocates nothing.
    ///
    /// ```
    /// assert!(rt; NormalPath::of(alloc, RelativePath::new("a/../b"))?.has_place());
    /// assert!(rt; !NormalPath::of(alloc, RelativePath::new("a/../../b"))?.has_place());
    /// ```
    pub fn has_place(&self) -> bool
        ensures { IsTrue result ↔ IsSome (place_of (components self.now)) }
    {
        has_place(self.as_relative_path())
    }

    /// Views the normal path as a path. Allocates nothing.
    ///
    /// ```
    /// let path = NormalPath::of(alloc, RelativePath::new("./a//b/"))?;
    /// assert_eq!(rt; path.as_relative_path().as_str(), "a/b");
    /// ```
    pub fn as_relative_path(&self) -> RelativePath<'_>
        // the same text
        ensures text { path_text result ≡ self.now }
        // the text is normal
        ensures normal { IsNormalText self.now }
    {
        self.path.as_relative_path()
    }

    /// Returns a copy of the normal path that a view shows. It isn't normalised again.
    ///
    /// Allocates once, the copy, and fails only if that allocation fails.
    ///
    /// ```
    /// let path = NormalPath::of(alloc, RelativePath::new("./docs//a.md"))?;
    /// let above = path.view().parent().ok_or("a directory")?;
    /// assert_eq!(rt; NormalPath::of_view(alloc, above)?.as_relative_path().as_str(), "docs");
    /// ```
    pub fn of_view(alloc: Global, view: NormalView<'_>) -> Result<NormalPath, AllocError>
        ensures { IfOk result (λ path. path ≡ view_text view.entry) }
    {
        let path = view.as_relative_path().to_relative_path_buf(alloc)?;
        Ok(NormalPath { path })
    }

    /// Returns a copy of the normal path. It isn't normalised again.
    ///
    /// Allocates once, the copy, and fails only if that allocation fails.
    ///
    /// ```
    /// let path = NormalPath::of(alloc, RelativePath::new("a/./b"))?;
    /// assert!(rt; path.copy(alloc)? == path);
    /// ```
    pub fn copy(&self, alloc: Global) -> Result<NormalPath, AllocError>
        // the same text
        ensures same { IfOk result (λ copy. copy ≡ self.now) }
        // the normal text of its own components
        ensures normal { IfOk result (λ copy. IsNormalTextOf (components self.now) copy) }
    {
        NormalPath::of_view(alloc, self.view())
    }

    /// Returns the text in a buffer, with its memory. Allocates nothing.
    ///
    /// ```
    /// let path = NormalPath::of(alloc, RelativePath::new("./a"))?.into_relative_path_buf();
    /// assert_eq!(rt; path.as_relative_path().as_str(), "a");
    /// ```
    pub fn into_relative_path_buf(self) -> RelativePathBuf
        // the same text
        ensures text { result.text ≡ self }
        // the text is normal
        ensures normal { IsNormalText self }
    {
        self.path
    }
}

/// Two normal paths are equal if their texts are.
///
/// ```
/// let [one, other] = ["a/b", "./c/../a//b"].map(RelativePath::new);
/// assert!(rt; NormalPath::of(alloc, one)? == NormalPath::of(alloc, other)?);
/// ```
impl PartialEq for NormalPath {
    // texts are compared byte by byte
    ghost eq = { pointwise nat_eq };

    ghost laws = { partial_equiv_from_equiv nat_list_eq_equiv };

    fn eq(&self, other: &Self) -> bool
        // whether the texts are equal
        ensures same { IsTrue result ↔ (self.now ≡ other.now) }
        // whether the paths are equivalent
        ensures leads { IsTrue result ↔ IsSame (components self.now) (components other.now) }
    {
        self.as_relative_path().as_str() == other.as_relative_path().as_str()
    }
}

impl Eq for NormalPath {
    ghost laws = { nat_list_eq_equiv };
}

impl fmt::Debug for NormalPath {
    // the debug form of an ASCII text
    ghost debug_output = { debug_str };

    fn fmt<W: fmt::Write>(&self, f: &mut fmt::Formatter<W>) -> fmt::Result {
        fmt::Debug::fmt(&self.path, f)
    }
}
