//! Paths as they are written, each with its normal path.
ghost use Rattle.std.specs.Prelude.{◌≡◌, IfOk};
ghost use Rattle.relative_path.specs.Normalizing.{IsNormalTextOf};
ghost use Rattle.relative_path.specs.RelativePath.{path_components, path_text};
ghost use Rattle.relative_path.specs.declared.path.RelativePath.{RelativePath};

use crate::normal_path::NormalPath;
use relative_path::RelativePath;
use std::alloc::{AllocError, Global};
use std::marker::Model;

/// A path as it is written, with the normal path that is equivalent to it. So who needs both normalises once.
///
/// ```
/// let path = WrittenPath::of(alloc, RelativePath::new("docs/./a.md"))?;
/// assert_eq!(rt; path.written().as_str(), "docs/./a.md");
/// assert_eq!(rt; path.normal().as_relative_path().as_str(), "docs/a.md");
/// ```
#[derive(Debug, Drop)]
pub struct WrittenPath<'a> {
    written: RelativePath<'a>,
    normal: NormalPath,
}

impl<'a> Model for WrittenPath<'a> {
    // contracts see the path as it is written
    ghost Value = { RelativePath };

    // the path
    ghost view = { λ path. path.written };

    // the normal path is equivalent to it
    ghost invariant = { λ path. IsNormalTextOf (path_components path.written) path.normal };
}

impl<'a> WrittenPath<'a> {
    /// Returns this path with its normal path.
    ///
    /// Allocates what `normalize` does, and fails only if an allocation fails.
    ///
    /// ```
    /// let path = WrittenPath::of(alloc, RelativePath::new("a/../b"))?;
    /// assert_eq!(rt; path.normal().as_relative_path().as_str(), "b");
    /// ```
    pub fn of(alloc: Global, path: RelativePath<'a>) -> Result<WrittenPath<'a>, AllocError>
        ensures { IfOk result (λ written. written ≡ path.entry) }
    {
        let normal = NormalPath::of(alloc, path)?;
        Ok(WrittenPath {
            written: path,
            normal,
        })
    }

    /// Returns the path as it is written. Allocates nothing.
    ///
    /// ```
    /// let path = WrittenPath::of(alloc, RelativePath::new("./a"))?;
    /// assert_eq!(rt; path.written().as_str(), "./a");
    /// ```
    pub fn written(&self) -> RelativePath<'a>
        ensures { result ≡ self.now }
    {
        self.written
    }

    /// Returns the normal path. Allocates nothing.
    ///
    /// ```
    /// let path = WrittenPath::of(alloc, RelativePath::new("./a//b"))?;
    /// assert_eq!(rt; path.normal().as_relative_path().as_str(), "a/b");
    /// ```
    pub fn normal(&self) -> &NormalPath
        ensures { IsNormalTextOf (path_components self.now) result.now }
    {
        &self.normal
    }

    /// Returns a copy of the path as it is written, with its normal path. It isn't normalised again.
    ///
    /// Allocates once, the normal path, and fails only if that allocation fails.
    ///
    /// ```
    /// let path = WrittenPath::of(alloc, RelativePath::new("./a"))?;
    /// assert_eq!(rt; path.copy(alloc)?.written().as_str(), "./a");
    /// ```
    pub fn copy(&self, alloc: Global) -> Result<WrittenPath<'a>, AllocError>
        ensures { IfOk result (λ copy. copy ≡ self.now) }
    {
        let normal = self.normal.copy(alloc)?;
        Ok(WrittenPath {
            written: self.written,
            normal,
        })
    }
}
