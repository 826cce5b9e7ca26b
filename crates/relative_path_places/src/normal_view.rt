//! Parts of normal paths, borrowed.
ghost use Rattle.std.specs.Prelude.{◌≡◌, ◌↔◌, ◌++◌, ◌∷◌, [], List, length, IfSome, IsNone, IsSome};
ghost use Rattle.relative_path.specs.Steps.{Step, spell};
ghost use Rattle.relative_path.specs.Walk.{place_of};
ghost use Rattle.relative_path.specs.Normalizing.{AreNames, IsNormal, IsNormalText};
ghost use Rattle.relative_path.specs.Prefixing.{IsDropped};
ghost use Rattle.relative_path.specs.RelativePath.{path_text, path_components};
ghost use Rattle.relative_path_places.specs.OneProof.{IsNormal-prop};

use crate::name_path::NamePath;
use relative_path::RelativePath;

/// A borrowed normal path: the whole of a [`NormalPath`](crate::NormalPath), or what its first components
/// are. It is `Copy`, and no call on it allocates.
///
/// ```
/// let path = NormalPath::of(alloc, RelativePath::new("./docs//a.md"))?;
/// let above = path.view().parent().ok_or("a directory")?;
/// assert_eq!(rt; above.as_relative_path().as_str(), "docs");
/// ```
#[derive(Clone, Copy)]
pub struct NormalView<'a> {
    path: RelativePath<'a>,
    ghost spelled: { path_text path ≡ spell (path_components path) },
    ghost normal: { IsNormal (path_components path) } by { IsNormal-prop (path_components path) },
}

impl<'a> NormalView<'a> {
    ghost use Rattle.relative_path_places.specs.Views.{view_text, view_components, name_text, name_components};

    // Views a path with a normal text.
    pub(crate) fn of_normal(path: RelativePath<'a>) -> NormalView<'a>
        requires { IsNormalText (path_text path) }
        ensures { view_text result ≡ path_text path.entry }
    {
        NormalView { path }
    }

    /// Views the normal path as a path.
    ///
    /// ```
    /// let path = NormalPath::of(alloc, RelativePath::new("a/./b"))?;
    /// assert_eq!(rt; path.view().as_relative_path().as_str(), "a/b");
    /// ```
    pub fn as_relative_path(self) -> RelativePath<'a>
        // the same text
        ensures text { path_text result ≡ view_text self.entry }
        // the text is normal
        ensures normal { IsNormalText (view_text self.entry) }
    {
        self.path
    }

    /// Returns the path without its last component, which is a normal path too. `None` if it is empty.
    ///
    /// ```
    /// let path = NormalPath::of(alloc, RelativePath::new("../a"))?;
    /// let parent = path.view().parent().ok_or("a parent")?;
    /// assert_eq!(rt; parent.as_relative_path().as_str(), "..");
    /// let top = parent.parent().ok_or("a parent")?;
    /// assert!(rt; top.parent().is_none());
    /// ```
    pub fn parent(self) -> Option<NormalView<'a>>
        // `None` exactly for the empty path
        ensures none { IsNone result ↔ (view_components self.entry ≡ []) }
        // all components but the last one
        ensures components { IfSome result (λ parent. (c : Step)
            × (view_components self.entry ≡ view_components parent ++ c ∷ [])) }
    {
        let mut left = self.path.components();
        match left.next_back() {
            Some(_) => Some(NormalView::of_normal(left.as_relative_path())),
            None => None,
        }
    }

    /// Returns the path as names. `None` if it climbs above its start.
    ///
    /// ```
    /// let [below, above] = ["a/b", "../b"].map(RelativePath::new);
    /// assert!(rt; NormalPath::of(alloc, below)?.view().names().is_some());
    /// assert!(rt; NormalPath::of(alloc, above)?.view().names().is_none());
    /// ```
    pub fn names(self) -> Option<NamePath<'a>>
        // `Some` exactly if the path leads to a place from the top
        ensures some { IsSome result ↔ IsSome (place_of (view_components self.entry)) }
        // the same text
        ensures text { IfSome result (λ names. name_text names ≡ view_text self.entry) }
        // the same components
        ensures components { IfSome result (λ names. name_components names ≡ view_components self.entry) }
    {
        NamePath::of_normal(self.path)
    }

    /// Returns the names that lead down from `above` to this path. `None` if no names do.
    ///
    /// ```
    /// let [file, docs] = ["docs/img/x.png", "docs"].map(RelativePath::new);
    /// let [file, docs] = [NormalPath::of(alloc, file)?, NormalPath::of(alloc, docs)?];
    /// let below = file.view().below(docs.view()).ok_or("names")?;
    /// assert_eq!(rt; below.as_relative_path().as_str(), "img/x.png");
    /// assert!(rt; docs.view().below(file.view()).is_none());
    /// ```
    pub fn below(self, above: NormalView<'_>) -> Option<NamePath<'a>>
        // `Some` exactly if names lead down from `above`
        ensures some { IsSome result ↔ ((names : List Step) × AreNames names
            × (view_components self.entry ≡ view_components above.entry ++ names)) }
        // what follows the components of `above` and their slashes
        ensures text { IfSome result (λ names.
            IsDropped (view_text self.entry) (length (view_components above.entry)) (name_text names)) }
        // these names
        ensures components { IfSome result (λ names.
            view_components self.entry ≡ view_components above.entry ++ name_components names) }
    {
        match self.path.strip_prefix(above.path) {
            Ok(rest) => NamePath::of_normal(rest),
            Err(_) => None,
        }
    }
}
