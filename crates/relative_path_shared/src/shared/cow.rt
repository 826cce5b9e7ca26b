//! The relative path that is borrowed or owned.
ghost use Rattle.std.specs.Prelude.{◌≡◌, ◌↔◌, IsTrue};
ghost use Rattle.std.specs.Ordering.{on, as_partial_cmp};
ghost use Rattle.std.proofs.Common.{refl};
ghost use Rattle.relative_path.specs.Comparing.{steps_eq, steps_cmp, fed_by};
ghost use Rattle.relative_path.specs.ComparingLaws.{partial_eq_law, partial_ord_law, by_components, fed_alike};
ghost use Rattle.relative_path.specs.RelativePath.{path_text};
ghost use Rattle.relative_path_shared.specs.CowRelativePath.{cow_text, cow_components};
ghost use Rattle.relative_path_shared.specs.declared.shared.cow.CowRelativePath.TheVariants.{Borrowed, Owned};

use relative_path::{RelativePath, RelativePathBuf};
use std::cmp::Ordering;
use std::hash::{Hash, Hasher};

/// A relative path that is borrowed or owned.
///
/// Both forms are equal, ordered and hashed as their view is. `as_relative_path` gives the view, which prints and has
/// the queries.
///
/// ```
/// let borrowed = CowRelativePath::from(RelativePath::new("a//b"));
/// let owned = CowRelativePath::from(RelativePathBuf::from_text(alloc, "a/b")?);
/// assert!(rt; borrowed == owned);
/// ```
#[derive(Drop)]
pub enum CowRelativePath<'a> {
    /// A view of a text with another owner.
    Borrowed(RelativePath<'a>),
    /// A buffer, which owns its text.
    Owned(RelativePathBuf),
}

impl CowRelativePath<'_> {
    /// Returns a view of the path. Allocates nothing.
    ///
    /// ```
    /// let path = CowRelativePath::from(RelativePath::new("foo/bar"));
    /// assert_eq!(rt; path.as_relative_path().file_name(), Some("bar"));
    /// ```
    pub fn as_relative_path(&self) -> RelativePath<'_>
        ensures { path_text result ≡ cow_text self.now }
    {
        match self {
            CowRelativePath::Borrowed(path) => *path,
            CowRelativePath::Owned(buf) => buf.as_relative_path(),
        }
    }
}

impl<'a> From<RelativePath<'a>> for CowRelativePath<'a> {
    // the path, borrowed
    ghost from_gives = { λ path cow. cow ≡ Borrowed path };

    fn from(path: RelativePath<'a>) -> CowRelativePath<'a> {
        CowRelativePath::Borrowed(path)
    }
}

impl From<RelativePathBuf> for CowRelativePath<'_> {
    // the buffer, owned
    ghost from_gives = { λ buf cow. cow ≡ Owned buf };

    fn from(buf: RelativePathBuf) -> Self {
        CowRelativePath::Owned(buf)
    }
}

impl PartialEq for CowRelativePath<'_> {
    // components are compared by kind and text
    ghost eq = { on cow_components steps_eq };

    ghost laws = { partial_eq_law (by_components cow_components) };

    fn eq(&self, other: &Self) -> bool
        // the answer of `eq`
        ensures value { result ≡ steps_eq (cow_components self.now) (cow_components other.now) }
        // whether the components are equal
        ensures same { IsTrue result ↔ (cow_components self.now ≡ cow_components other.now) }
    {
        self.as_relative_path() == other.as_relative_path()
    }
}

impl Eq for CowRelativePath<'_> {
    ghost laws = { (by_components cow_components).equivalence };
}

impl PartialOrd for CowRelativePath<'_> {
    // always an order, that of `cmp`
    ghost partial_cmp = { as_partial_cmp (on cow_components steps_cmp) };

    ghost laws = { partial_ord_law (by_components cow_components) };

    fn partial_cmp(&self, other: &Self) -> Option<Ordering> {
        Some(self.cmp(other))
    }
}

impl Ord for CowRelativePath<'_> {
    // by the first difference: `.`, `..`, then names by bytes
    ghost cmp = { on cow_components steps_cmp };

    ghost total = { (by_components cow_components).total };

    ghost matches_partial_cmp = { λ _ _. refl };

    ghost matches_eq = { (by_components cow_components).agree };

    fn cmp(&self, other: &Self) -> Ordering {
        self.as_relative_path().cmp(&other.as_relative_path())
    }
}

impl Hash for CowRelativePath<'_> {
    // each component's text, and a slash after it
    ghost hash_input = { fed_by cow_components };

    ghost respects_eq = { fed_alike cow_components cow_components };

    fn hash<H: Hasher>(&self, state: &mut H) {
        self.as_relative_path().hash(state);
    }
}
