//! The boxed relative path.
ghost use Rattle.std.specs.Prelude.{◌≡◌, ◌↔◌, List, ℕ, IfErr, IfOk, IsOk, IsTrue, string_bytes};
ghost use Rattle.std.specs.Box.{boxed_str_bytes};
ghost use Rattle.std.specs.Ordering.{on, as_partial_cmp};
ghost use Rattle.std.proofs.Common.{refl};
ghost use Rattle.relative_path.specs.Steps.{components};
ghost use Rattle.relative_path.specs.Comparing.{steps_eq, steps_cmp, fed_by};
ghost use Rattle.relative_path.specs.ComparingLaws.{partial_eq_law, partial_ord_law, by_components, fed_alike};
ghost use Rattle.relative_path.specs.RelativePath.{path_text};

use relative_path::{RelativePath, RelativePathBuf};
use std::alloc::{AllocError, Global};
use std::boxed::BoxedStr;
use std::cmp::Ordering;
use std::hash::{Hash, Hasher};
use std::marker::Model;

/// A relative path in a box. It owns its text and doesn't grow, so it suits as the key of a map.
///
/// It is equal, ordered and hashed as its view is. `as_relative_path` gives the view, which prints and has
/// the queries.
///
/// ```
/// let boxed = BoxedRelativePath::from_text(alloc, "a//b")?;
/// assert_eq!(rt; boxed.as_relative_path().as_str(), "a//b");
/// ```
#[derive(Drop)]
pub struct BoxedRelativePath {
    text: BoxedStr,
}

impl Model for BoxedRelativePath {
    // contracts see a text
    ghost Value = { List ℕ };

    // the bytes of the text that it has
    ghost view = { λ boxed. boxed_str_bytes boxed.text };
}

impl BoxedRelativePath {
    /// Returns a boxed copy of the text.
    ///
    /// Allocates once, the text, unless it is empty. The only error is lack of memory.
    ///
    /// ```
    /// let boxed = BoxedRelativePath::from_text(alloc, "foo/bar")?;
    /// assert_eq!(rt; boxed.as_relative_path().as_str(), "foo/bar");
    /// ```
    pub fn from_text(alloc: Global, text: &str) -> Result<BoxedRelativePath, AllocError>
        ensures { IfOk result (λ boxed. boxed ≡ text.now) }
    {
        let text = BoxedStr::from_str(alloc, text)?;
        Ok(BoxedRelativePath { text })
    }

    /// Returns the buffer's text in a box.
    ///
    /// The box takes the buffer's memory over. Allocates nothing, and never fails.
    ///
    /// ```
    /// let buf = RelativePathBuf::from_text(alloc, "foo/bar")?;
    /// let boxed = BoxedRelativePath::from_buf(alloc, buf);
    /// assert!(rt; boxed.is_ok_and(|path| path.as_relative_path().as_str() == "foo/bar"));
    /// ```
    pub fn from_buf(
        _alloc: Global,
        buf: RelativePathBuf,
    ) -> Result<BoxedRelativePath, RelativePathBuf>
        // a path with the buffer's text
        ensures ok { IfOk result (λ boxed. boxed ≡ buf.text) }
        // an error is the buffer, unchanged
        ensures err { IfErr result (λ kept. kept ≡ buf) }
        // it always succeeds
        ensures succeeds { IsOk result }
    {
        let text = buf.into_string().into_boxed_str();
        Ok(BoxedRelativePath { text })
    }

    /// Returns a copy of the path.
    ///
    /// Allocates once, the text, unless it is empty. The only error is lack of memory.
    ///
    /// ```
    /// let boxed = BoxedRelativePath::from_text(alloc, "foo//bar")?;
    /// assert_eq!(rt; boxed.clone(alloc)?.as_relative_path().as_str(), "foo//bar");
    /// ```
    pub fn clone(&self, alloc: Global) -> Result<BoxedRelativePath, AllocError>
        ensures { IfOk result (λ boxed. boxed ≡ self.now) }
    {
        BoxedRelativePath::from_text(alloc, self.text.as_str())
    }

    /// Returns a view of the path. Allocates nothing.
    ///
    /// ```
    /// let boxed = BoxedRelativePath::from_text(alloc, "foo/bar")?;
    /// assert_eq!(rt; boxed.as_relative_path().file_name(), Some("bar"));
    /// ```
    pub fn as_relative_path(&self) -> RelativePath<'_>
        ensures { path_text result ≡ self.now }
    {
        RelativePath::new(self.text.as_str())
    }
}

impl From<BoxedStr> for BoxedRelativePath {
    // the same text
    ghost from_gives = { λ text boxed. boxed ≡ boxed_str_bytes text };

    fn from(text: BoxedStr) -> BoxedRelativePath {
        BoxedRelativePath { text }
    }
}

impl PartialEq for BoxedRelativePath {
    // components are compared by kind and text
    ghost eq = { on components steps_eq };

    ghost laws = { partial_eq_law (by_components components) };

    fn eq(&self, other: &Self) -> bool
        // the answer of `eq`
        ensures value { result ≡ steps_eq (components self.now) (components other.now) }
        // whether the components are equal
        ensures same { IsTrue result ↔ (components self.now ≡ components other.now) }
    {
        self.as_relative_path() == other.as_relative_path()
    }
}

impl Eq for BoxedRelativePath {
    ghost laws = { (by_components components).equivalence };
}

impl PartialOrd for BoxedRelativePath {
    // always an order, that of `cmp`
    ghost partial_cmp = { as_partial_cmp (on components steps_cmp) };

    ghost laws = { partial_ord_law (by_components components) };

    fn partial_cmp(&self, other: &Self) -> Option<Ordering> {
        Some(self.cmp(other))
    }
}

impl Ord for BoxedRelativePath {
    // by the first difference: `.`, `..`, then names by bytes
    ghost cmp = { on components steps_cmp };

    ghost total = { (by_components components).total };

    ghost matches_partial_cmp = { λ _ _. refl };

    ghost matches_eq = { (by_components components).agree };

    fn cmp(&self, other: &Self) -> Ordering {
        self.as_relative_path().cmp(&other.as_relative_path())
    }
}

impl Hash for BoxedRelativePath {
    // each component's text, and a slash after it
    ghost hash_input = { fed_by components };

    ghost respects_eq = { fed_alike components components };

    fn hash<H: Hasher>(&self, state: &mut H) {
        self.as_relative_path().hash(state);
    }
}

/// The conversion that this crate adds to a buffer. Only `RelativePathBuf` implements it.
pub trait BufExt {
    // The text of the buffer.
    ghost text: { Self → List ℕ };

    /// Returns the buffer's text in a box.
    ///
    /// The box takes the buffer's memory over. Allocates nothing, and never fails.
    ///
    /// ```
    /// let buf = RelativePathBuf::from_text(alloc, "foo/bar")?;
    /// let boxed = buf.into_boxed_relative_path(alloc);
    /// assert!(rt; boxed.is_ok_and(|path| path.as_relative_path().as_str() == "foo/bar"));
    /// ```
    fn into_boxed_relative_path(self, alloc: Global) -> Result<BoxedRelativePath, RelativePathBuf>
        // a path with the buffer's text
        ensures ok { IfOk result (λ boxed. boxed ≡ text self) }
        // an error has the buffer's text
        ensures err { IfErr result (λ kept. kept.text ≡ text self) }
        // it always succeeds
        ensures succeeds { IsOk result };
}

impl BufExt for RelativePathBuf {
    // the buffer's text
    ghost text = { λ buf. buf.text };

    fn into_boxed_relative_path(self, alloc: Global) -> Result<BoxedRelativePath, RelativePathBuf> {
        BoxedRelativePath::from_buf(alloc, self)
    }
}
