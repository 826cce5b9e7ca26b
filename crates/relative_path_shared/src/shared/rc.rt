//! The shared relative path.
ghost use Rattle.std.specs.Prelude.{◌≡◌, ◌↔◌, List, ℕ, IfErr, IfOk, IsTrue};
ghost use Rattle.std.specs.Rc.{rc_str_bytes};
ghost use Rattle.std.specs.Ordering.{on, as_partial_cmp};
ghost use Rattle.std.proofs.Common.{refl};
ghost use Rattle.relative_path.specs.Steps.{components};
ghost use Rattle.relative_path.specs.Comparing.{steps_eq, steps_cmp, fed_by};
ghost use Rattle.relative_path.specs.ComparingLaws.{partial_eq_law, partial_ord_law, by_components, fed_alike};
ghost use Rattle.relative_path.specs.RelativePath.{path_text};

use relative_path::{RelativePath, RelativePathBuf};
use std::alloc::{AllocError, Global};
use std::cmp::Ordering;
use std::hash::{Hash, Hasher};
use std::marker::Model;
use std::rc::RcStr;

/// A relative path whose text several owners share within one thread.
///
/// It is equal, ordered and hashed as its view is. `as_relative_path` gives the view, which prints and has
/// the queries.
///
/// ```
/// let path = RcRelativePath::from_path_text(alloc, RelativePath::new("a//b"))?;
/// let shared = path.share()?;
/// assert_eq!(rt; shared.as_relative_path().as_str(), "a//b");
/// ```
#[derive(Drop)]
pub struct RcRelativePath {
    text: RcStr,
}

impl Model for RcRelativePath {
    // contracts see a text
    ghost Value = { List ℕ };

    // the bytes of the text that it has
    ghost view = { λ shared. rc_str_bytes shared.text };
}

impl RcRelativePath {
    /// Returns a copy of the path's text that can be shared.
    ///
    /// Allocates the text, unless it is empty, and the count of owners. The only error is lack of
    /// memory.
    ///
    /// ```
    /// let path = RcRelativePath::from_path_text(alloc, RelativePath::new("foo/bar"))?;
    /// assert_eq!(rt; path.as_relative_path().as_str(), "foo/bar");
    /// ```
    pub fn from_path_text(
        alloc: Global,
        path: RelativePath<'_>,
    ) -> Result<RcRelativePath, AllocError>
        ensures { IfOk result (λ shared. shared ≡ path_text path.entry) }
    {
        let text = RcStr::from_str(alloc, path.as_str())?;
        Ok(RcRelativePath { text })
    }

    /// Returns a copy of the buffer's text that can be shared, and drops the buffer. If an allocation
    /// fails, the error is the buffer.
    ///
    /// Allocates the text, unless it is empty, and the count of owners.
    ///
    /// ```
    /// let buf = RelativePathBuf::from_text(alloc, "foo/bar")?;
    /// let path = RcRelativePath::from_buf(alloc, buf);
    /// assert!(rt; path.is_ok_and(|path| path.as_relative_path().as_str() == "foo/bar"));
    /// ```
    pub fn from_buf(alloc: Global, buf: RelativePathBuf) -> Result<RcRelativePath, RelativePathBuf>
        // a path with the buffer's text
        ensures ok { IfOk result (λ shared. shared ≡ buf.text) }
        // an error is the buffer, unchanged
        ensures err { IfErr result (λ kept. kept ≡ buf) }
    {
        RcRelativePath::from_path_text(alloc, buf.as_relative_path()).map_err(|_| buf)
    }

    /// Returns one more owner of the same text.
    ///
    /// Allocates nothing. Fails only if the count of owners is at its maximum.
    ///
    /// ```
    /// let path = RcRelativePath::from_path_text(alloc, RelativePath::new("foo/bar"))?;
    /// assert!(rt; path.share()? == path);
    /// ```
    pub fn share(&self) -> Result<RcRelativePath, AllocError>
        ensures { IfOk result (λ shared. shared ≡ self.now) }
    {
        let text = self.text.clone()?;
        Ok(RcRelativePath { text })
    }

    /// Returns a view of the path. Allocates nothing.
    ///
    /// ```
    /// let path = RcRelativePath::from_path_text(alloc, RelativePath::new("foo/bar"))?;
    /// assert_eq!(rt; path.as_relative_path().file_name(), Some("bar"));
    /// ```
    pub fn as_relative_path(&self) -> RelativePath<'_>
        ensures { path_text result ≡ self.now }
    {
        RelativePath::new(self.text.as_str())
    }
}

impl PartialEq for RcRelativePath {
    // components are compared by kind and text
    ghost eq = { on components steps_eq };

    ghost laws = { partial_eq_law (by_components components) };

    fn eq(&self, other: &Self) -> bool
        // the answer of `eq`
        ensures value { result ≡ steps_eq (components self.now) (components other.now) }
        // whether the components are equal
        ensures same { IsTrue result ↔ (components self.now ≡ components other.now) }
    {
        self.as_relative_path() == other.as_relative_path()
    }
}

impl Eq for RcRelativePath {
    ghost laws = { (by_components components).equivalence };
}

impl PartialOrd for RcRelativePath {
    // always an order, that of `cmp`
    ghost partial_cmp = { as_partial_cmp (on components steps_cmp) };

    ghost laws = { partial_ord_law (by_components components) };

    fn partial_cmp(&self, other: &Self) -> Option<Ordering> {
        Some(self.cmp(other))
    }
}

impl Ord for RcRelativePath {
    // by the first difference: `.`, `..`, then names by bytes
    ghost cmp = { on components steps_cmp };

    ghost total = { (by_components components).total };

    ghost matches_partial_cmp = { λ _ _. refl };

    ghost matches_eq = { (by_components components).agree };

    fn cmp(&self, other: &Self) -> Ordering {
        self.as_relative_path().cmp(&other.as_relative_path())
    }
}

impl Hash for RcRelativePath {
    // each component's text, and a slash after it
    ghost hash_input = { fed_by components };

    ghost respects_eq = { fed_alike components components };

    fn hash<H: Hasher>(&self, state: &mut H) {
        self.as_relative_path().hash(state);
    }
}
