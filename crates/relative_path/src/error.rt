//! The errors of the calls on platform paths: the path isn't relative, or no relative path leads from one to the other.
//! The error of the calls that write into the caller's bytes: the bytes are too few, or memory is lacking.
ghost use Rattle.std.specs.Prelude.{◌≡◌, Some, ⊤};
ghost use Rattle.std.specs.Fmt.{styled_text};
ghost use Rattle.relative_path.specs.Error.{from_path_kind, from_path_words, relative_to_kind, relative_to_words, write_words};
ghost use Rattle.relative_path.specs.declared.error.FromPathErrorKind.TheVariants as from_path_kinds;
ghost use Rattle.relative_path.specs.declared.error.RelativeToErrorKind.TheVariants as relative_to_kinds;

use std::alloc::AllocError;
use std::error::Error;
use std::fmt;

/// The kind of a [`FromPathError`].
///
/// A platform path is UTF-8 here and is cut at `/` only, so no call returns `NonUtf8` or
/// `BadSeparator`.
///
/// ```
/// let error = unix::view("/foo").unwrap_err();
/// assert_eq!(rt; error.kind(), FromPathErrorKind::NonRelative);
/// ```
#[derive(Clone, Copy, Debug, PartialEq, Eq)]
pub enum FromPathErrorKind {
    /// The path begins with a slash.
    NonRelative,
    /// A component isn't UTF-8. No call returns this.
    NonUtf8,
    /// A component contains a separator of the platform. No call returns this.
    BadSeparator,
    /// An allocation failed.
    OutOfMemory,
}

impl FromPathErrorKind {
    // Returns the words that an error of this kind prints.
    fn words(self) -> &'static str
        ensures { result.now ≡ from_path_words self }
    {
        match self {
            FromPathErrorKind::NonRelative => "path contains non-relative component",
            FromPathErrorKind::NonUtf8 => "path contains non-utf8 component",
            FromPathErrorKind::BadSeparator => "path contains platform-specific path separator",
            FromPathErrorKind::OutOfMemory => "out of memory",
        }
    }
}

/// The error of the calls named `from_path`, and of [`crate::unix::view`]: the platform path isn't
/// relative, or an allocation failed.
///
/// The error prints the words for its kind. Two errors are equal if their kinds are.
///
/// ```
/// let error = unix::view("/foo").unwrap_err();
/// assert_eq!(rt; error.to_string(alloc)?.as_str(), "path contains non-relative component");
/// ```
#[derive(Clone, Debug, PartialEq, Eq, Drop)]
pub struct FromPathError {
    kind: FromPathErrorKind,
}

impl FromPathError {
    /// Returns what went wrong.
    ///
    /// ```
    /// let error = FromPathError::from(FromPathErrorKind::NonRelative);
    /// assert_eq!(rt; error.kind(), FromPathErrorKind::NonRelative);
    /// ```
    pub fn kind(&self) -> FromPathErrorKind
        ensures { result ≡ from_path_kind self.now }
    {
        self.kind
    }
}

impl From<FromPathErrorKind> for FromPathError {
    // an error of this kind
    ghost from_gives = { λ kind error. from_path_kind error ≡ kind };

    fn from(kind: FromPathErrorKind) -> Self {
        FromPathError { kind }
    }
}

impl From<AllocError> for FromPathError {
    // a failed allocation becomes `OutOfMemory`
    ghost from_gives = { λ _ error. from_path_kind error ≡ from_path_kinds.OutOfMemory };

    fn from(_: AllocError) -> Self {
        FromPathErrorKind::OutOfMemory.into()
    }
}

impl fmt::Display for FromPathError {
    // the words for the error
    ghost output = { λ error. Some (from_path_words (from_path_kind error)) };

    // the same, cut and padded as asked
    ghost styled_output = { λ error spec. Some (styled_text spec (from_path_words (from_path_kind error))) };

    fn fmt<W: fmt::Write>(&self, f: &mut fmt::Formatter<W>) -> fmt::Result {
        f.pad(self.kind.words())
    }
}

impl Error for FromPathError {}

/// The kind of a [`RelativeToError`].
///
/// A platform path is UTF-8 here and has no prefix but the root, so no call returns `NonUtf8` or
/// `IllegalComponent`.
///
/// ```
/// let error = unix::relative_to(alloc, "foo", "/bar").unwrap_err();
/// assert_eq!(rt; error.kind(), RelativeToErrorKind::PrefixMismatch);
/// ```
#[derive(Clone, Copy, Debug, PartialEq, Eq)]
pub enum RelativeToErrorKind {
    /// A component isn't UTF-8. No call returns this.
    NonUtf8,
    /// One of the paths begins with a slash, and the other doesn't.
    PrefixMismatch,
    /// The root climbs above the components that both paths begin with, so the names on the way
    /// back aren't known.
    AmbiguousTraversal,
    /// A component is neither `.` nor `..` nor a name. No call returns this.
    IllegalComponent,
    /// An allocation failed.
    OutOfMemory,
}

impl RelativeToErrorKind {
    // Returns the words that an error of this kind prints.
    fn words(self) -> &'static str
        ensures { result.now ≡ relative_to_words self }
    {
        match self {
            RelativeToErrorKind::NonUtf8 => "path contains non-utf8 component",
            RelativeToErrorKind::PrefixMismatch => "paths contain different absolute prefixes",
            RelativeToErrorKind::AmbiguousTraversal => "path traversal cannot be determined",
            RelativeToErrorKind::IllegalComponent => "path contains illegal components",
            RelativeToErrorKind::OutOfMemory => "out of memory",
        }
    }
}

/// The error of both calls named `relative_to`: no relative path leads from the root to the path,
/// or an allocation failed.
///
/// The error prints the words for its kind. Two errors are equal if their kinds are.
///
/// ```
/// let error = unix::relative_to(alloc, ".", "a/../..").unwrap_err();
/// assert_eq!(rt; error.to_string(alloc)?.as_str(), "path traversal cannot be determined");
/// ```
#[derive(Clone, Debug, PartialEq, Eq, Drop)]
pub struct RelativeToError {
    kind: RelativeToErrorKind,
}

impl RelativeToError {
    /// Returns what went wrong.
    ///
    /// ```
    /// let error = RelativeToError::from(RelativeToErrorKind::PrefixMismatch);
    /// assert_eq!(rt; error.kind(), RelativeToErrorKind::PrefixMismatch);
    /// ```
    pub fn kind(&self) -> RelativeToErrorKind
        ensures { result ≡ relative_to_kind self.now }
    {
        self.kind
    }
}

impl From<RelativeToErrorKind> for RelativeToError {
    // an error of this kind
    ghost from_gives = { λ kind error. relative_to_kind error ≡ kind };

    fn from(kind: RelativeToErrorKind) -> Self {
        RelativeToError { kind }
    }
}

impl From<AllocError> for RelativeToError {
    // a failed allocation becomes `OutOfMemory`
    ghost from_gives = { λ _ error. relative_to_kind error ≡ relative_to_kinds.OutOfMemory };

    fn from(_: AllocError) -> Self {
        RelativeToErrorKind::OutOfMemory.into()
    }
}

impl fmt::Display for RelativeToError {
    // the words for the error
    ghost output = { λ error. Some (relative_to_words (relative_to_kind error)) };

    // the same, cut and padded as asked
    ghost styled_output = { λ error spec. Some (styled_text spec (relative_to_words (relative_to_kind error))) };

    fn fmt<W: fmt::Write>(&self, f: &mut fmt::Formatter<W>) -> fmt::Result {
        f.pad(self.kind.words())
    }
}

impl Error for RelativeToError {}

/// The error of the calls in [`crate::bytes`]: the caller's bytes are too few for the text, or an
/// allocation failed.
///
/// ```
/// let error = bytes::push(&mut [0; 2], 0, RelativePath::new("foo")).unwrap_err();
/// assert_eq!(rt; error, WriteError::NoRoom(3));
/// assert_eq!(rt; error.to_string(alloc)?.as_str(), "too few bytes for the text");
/// ```
#[derive(Clone, Copy, Debug, PartialEq, Eq)]
pub enum WriteError {
    /// The text has this many bytes, and the caller gave fewer.
    NoRoom(usize),
    /// An allocation failed.
    OutOfMemory,
}

impl WriteError {
    // Returns the words that the error prints.
    fn words(self) -> &'static str
        ensures { result.now ≡ write_words self }
    {
        match self {
            WriteError::NoRoom(_) => "too few bytes for the text",
            WriteError::OutOfMemory => "out of memory",
        }
    }
}

impl fmt::Display for WriteError {
    // the words for the error
    ghost output = { λ error. Some (write_words error) };

    // the same, cut and padded as asked
    ghost styled_output = { λ error spec. Some (styled_text spec (write_words error)) };

    fn fmt<W: fmt::Write>(&self, f: &mut fmt::Formatter<W>) -> fmt::Result {
        f.pad(self.words())
    }
}

impl Error for WriteError {}
