//! The borrowed relative path.
ghost use Rattle.std.specs.Prelude.{◌≡◌, ◌≢◌, ◌≤◌, ◌↔◌, ◌++◌, [], ◌∷◌, IfErr, IfOk, IsErr, IsOk, IfSome, IfNone, IsSome, IsNone, IsTrue, None, Some, List, ℕ, length, slice_get};
ghost use Rattle.relative_path.specs.Steps.{Step, dot, name, classed, components, step_text};
ghost use Rattle.relative_path.specs.Editing.{kept_len, kept, pushed, IsPopped};
ghost use Rattle.relative_path.specs.Components.{GivesComponents, GivesTextsOfComponents, step_of, text_left, iter_text_left};
ghost use Rattle.relative_path.specs.Naming.{file_name_of, stem_of, extension_of, is_extension, is_plain_extension, base_components, IsBeside, IsStemAndExtension, IsNamed, IsExtended};
ghost use Rattle.relative_path.specs.Comparing.{steps_eq, steps_cmp, fed_by};
ghost use Rattle.relative_path.specs.ComparingLaws.{partial_eq_law, partial_ord_law, by_components, fed_alike};
ghost use Rattle.std.specs.Fmt.{styled_text, debug_str};
ghost use Rattle.std.specs.Option.{option_copied, option_map, option_and_then};
ghost use Rattle.std.specs.Ordering.{on, as_partial_cmp};
ghost use Rattle.std.proofs.Common.{refl};
ghost use Rattle.relative_path.specs.Normalizing.{IsNormal, IsNormalTextOf, IsNormalForm, climb};
ghost use Rattle.relative_path.specs.Relating.{Leads, IsReachable, IsShortestText, IsWayText, LeadsApart};
ghost use Rattle.relative_path.specs.Walk.{walk, IsSame, LeadsBelow, LeadsInTurn, StaysBelow};
ghost use Rattle.relative_path.specs.Prefixing.{StartsWith, EndsWith, IsDropped};
ghost use Rattle.relative_path.specs.RelativePath.{path_text, path_components, display_text};
ghost use Rattle.relative_path.specs.Error.{from_path_kind};
ghost use Rattle.relative_path.specs.Unix.{has_root, onto, IsLogical};
ghost use Rattle.relative_path.specs.declared.error.FromPathErrorKind.TheVariants.{NonRelative};
ghost use Rattle.std.specs.Path.{path_bytes, path_buf_bytes};

use crate::buf::RelativePathBuf;
use crate::component::{Component, Components, Iter, compare};
use crate::editing::{dotted_len, pushed_len};
use crate::error::{FromPathError, FromPathErrorKind};
use crate::naming::{base_of, last_component, parent_of, split_name, without_extension};
use crate::normal_form::NormalForm;
use crate::prefixing::{ends_with, text_after};
use crate::relating::{Way, shortest_separating_base};
use crate::unix_components::has_root;
use crate::unix_texts::{joined, joined_logically};
use crate::writing::copy_with_room;
use std::alloc::{AllocError, Global};
use std::cmp::Ordering;
use std::fmt;
use std::hash::{Hash, Hasher};
use std::path::{Path, PathBuf};

/// The error of [`RelativePath::strip_prefix`]: the path doesn't start with the base. Any two of
/// these errors are equal.
///
/// ```
/// let stripped = RelativePath::new("foo/bar").strip_prefix(RelativePath::new("fo"));
/// assert!(rt; stripped.is_err());
/// ```
#[derive(Debug, Clone, PartialEq, Eq, Drop)]
pub struct StripPrefixError(());

/// A borrowed relative path: a `Copy` view of a text, which is cut at `/` on every platform.
///
/// Paths are compared and hashed by their components, and print as their text.
///
/// ```
/// assert!(rt; RelativePath::new("a//b/") == RelativePath::new("a/b"));
/// assert!(rt; RelativePath::new("a/b") < RelativePath::new("a.b"));
/// ```
#[derive(Clone, Copy)]
pub struct RelativePath<'a> {
    text: &'a str,
}

impl<'a> RelativePath<'a> {
    /// Views a text as a path; any text is a path. Allocates nothing.
    ///
    /// ```
    /// assert_eq!(rt; RelativePath::new("foo/bar"), RelativePath::new("foo//bar"));
    /// ```
    pub fn new(text: &'a str) -> RelativePath<'a>
        ensures { path_text result ≡ text.now }
    {
        RelativePath { text }
    }

    /// Views a platform path as a relative path with the same text. Allocates nothing.
    ///
    /// Fails with `NonRelative` if the platform path begins with a slash.
    ///
    /// ```
    /// let path = RelativePath::from_path(Path::new("./foo//bar"))?;
    /// assert_eq!(rt; path.as_str(), "./foo//bar");
    /// ```
    pub fn from_path(path: Path<'a>) -> Result<RelativePath<'a>, FromPathError>
        // it fails exactly for a leading slash
        ensures relative { IsErr result ↔ IsTrue (has_root (path_bytes path.entry)) }
        // a path with the same text
        ensures ok { IfOk result (λ view. path_text view ≡ path_bytes path.entry) }
        // the only error is `NonRelative`
        ensures kind { IfErr result (λ error. from_path_kind error ≡ NonRelative) }
    {
        let text = path.as_str();
        if has_root(text) {
            return Err(FromPathErrorKind::NonRelative.into());
        }
        Ok(RelativePath::new(text))
    }

    /// Returns the path's text.
    ///
    /// ```
    /// assert_eq!(rt; RelativePath::new("a//b").as_str(), "a//b");
    /// ```
    pub fn as_str(self) -> &'a str
        ensures { result.now ≡ path_text self.entry }
    {
        self.text
    }

    /// Returns a value that prints as the path does.
    ///
    /// ```
    /// let display = RelativePath::new("foo/bar").display();
    /// assert_eq!(rt; format!(in alloc; "{display}")?.as_str(), "foo/bar");
    /// ```
    pub fn display(self) -> Display<'a>
        ensures { display_text result ≡ path_text self.entry }
    {
        Display { path: self }
    }

    /// Returns this path followed by `path`, in a new buffer.
    ///
    /// A slash separates the two, unless this path is empty or ends in a slash. One slash at the
    /// start of `path` is dropped, so `path` never replaces this path.
    ///
    /// Allocates once: the result, if it isn't empty. The only error is lack of memory.
    ///
    /// ```
    /// let joined = RelativePath::new("foo").join(alloc, RelativePath::new("/bar"))?;
    /// assert_eq!(rt; joined.as_relative_path().as_str(), "foo/bar");
    /// ```
    pub fn join(self, alloc: Global, path: RelativePath<'_>) -> Result<RelativePathBuf, AllocError>
        // the first text, a slash if needed, the second without one leading slash
        ensures text { IfOk result
            (λ joined. joined.text ≡ pushed (path_text self.entry) (path_text path.entry)) }
        // the first path's components, then the second's
        ensures components { IfOk result
            (λ joined. components joined.text ≡ path_components self.entry ++ path_components path.entry) }
        // it leads where both lead in turn
        ensures in_turn { IfOk result (λ joined. LeadsInTurn (path_components self.entry)
            (path_components path.entry) (components joined.text)) }
        // below the first path, if the second doesn't climb
        ensures stays_below { IfOk result (λ joined. IsSome (walk [] (path_components path.entry))
            → StaysBelow (path_components self.entry) (components joined.text)) }
        // the second path's file name, if any
        ensures file_name { IfOk result (λ joined. IsSome (file_name_of (path_text path.entry))
            → file_name_of joined.text ≡ file_name_of (path_text path.entry)) }
        // if the second has a file name: the first path, then its directory
        ensures directory { IfOk result (λ joined. IsSome (file_name_of (path_text path.entry))
            → kept (components joined.text)
            ≡ path_components self.entry ++ kept (path_components path.entry)) }
    {
        let len = pushed_len(self.text, path.text);
        let mut joined = RelativePathBuf::from(copy_with_room(alloc, self.text, len)?);
        joined.push_reserved(path);
        Ok(joined)
    }

    /// Returns an iterator over the path's components, from either end. Allocates nothing.
    ///
    /// ```
    /// let mut components = RelativePath::new("foo/../bar").components();
    /// assert_eq!(rt; components.next_back(), Some(Component::Normal("bar")));
    /// ```
    pub fn components(self) -> Components<'a>
        // the whole text is left
        ensures text { text_left result ≡ path_text self.entry }
        // calls of `next` give the components, in order
        ensures runs { GivesComponents }
        // no more components than bytes
        ensures count { length (path_components self.entry) ≤ length (path_text self.entry) }
    {
        // The clauses `runs` and `count` say nothing of this result. They stay, since callers take them from here: by
        // `runs` a `count()` is proved, with no file of proofs, to be the number of components, and by `count` to fit
        // a `usize`.
        Components::new(self.text)
    }

    /// Returns an iterator over the texts of the path's components, from either end. Allocates
    /// nothing.
    ///
    /// ```
    /// let mut texts = RelativePath::new("foo//bar").iter();
    /// assert_eq!(rt; texts.next(), Some("foo"));
    /// ```
    pub fn iter(self) -> Iter<'a>
        // the whole text is left
        ensures text { iter_text_left result ≡ path_text self.entry }
        // calls of `next` give the components' texts, in order
        ensures runs { GivesTextsOfComponents }
        // no more components than bytes
        ensures count { length (path_components self.entry) ≤ length (path_text self.entry) }
    {
        // As at `components`, callers take the clauses `runs` and `count` from here.
        Iter::new(self.text)
    }

    /// Copies the path into a new buffer.
    ///
    /// Allocates once: the copy, if it isn't empty. The only error is lack of memory.
    ///
    /// ```
    /// let buf = RelativePath::new("//a/").to_relative_path_buf(alloc)?;
    /// assert_eq!(rt; buf.as_relative_path().as_str(), "//a/");
    /// ```
    pub fn to_relative_path_buf(self, alloc: Global) -> Result<RelativePathBuf, AllocError>
        ensures { IfOk result (λ buf. buf.text ≡ path_text self.entry) }
    {
        RelativePathBuf::from_text(alloc, self.text)
    }

    /// Returns `base` followed by the text of each component of this path. A slash precedes each
    /// component, except at the start of the result.
    ///
    /// Allocates once: as many bytes as both texts have, and one more. The only error is lack of
    /// memory.
    ///
    /// ```
    /// let path = RelativePath::new("/bar//..").to_path(alloc, Path::new("foo"))?;
    /// assert_eq!(rt; path.to_str(), Some("foo/bar/.."));
    /// ```
    pub fn to_path(self, alloc: Global, base: Path<'_>) -> Result<PathBuf, AllocError>
        ensures { IfOk result
            (λ path. path_buf_bytes path ≡ onto (path_bytes base.entry) (path_components self.entry)) }
    {
        joined(alloc, base.as_str(), self.text).map(PathBuf::from)
    }

    /// Returns the platform path where this path leads from `base`: each `.` is skipped, each `..`
    /// goes up as [`crate::unix::parent_text`] does, and each name is added. A slash precedes a
    /// name, except at the start of the result.
    ///
    /// Allocates once: as many bytes as both texts have, and one more. The only error is lack of
    /// memory.
    ///
    /// ```
    /// let path = RelativePath::new("../baz").to_logical_path(alloc, Path::new("foo/bar"))?;
    /// assert_eq!(rt; path.to_str(), Some("foo/baz"));
    /// ```
    pub fn to_logical_path(self, alloc: Global, base: Path<'_>) -> Result<PathBuf, AllocError>
        ensures { IfOk result (λ path. IsLogical (path_bytes base.entry) (path_components self.entry)
            (path_buf_bytes path)) }
    {
        joined_logically(alloc, base.as_str(), self.text).map(PathBuf::from)
    }

    /// Returns the path without its last component other than `.`, and without each `.` after that
    /// component. Only the empty path has no parent.
    ///
    /// The parent is a part of this path and never ends in a slash. Allocates nothing.
    ///
    /// ```
    /// let parent = RelativePath::new("foo/./bar//.").parent();
    /// assert!(rt; parent.is_some_and(|path| path.as_str() == "foo/."));
    /// ```
    pub fn parent(self) -> Option<RelativePath<'a>>
        // `Some` exactly if the text isn't empty
        ensures some { IsSome result ↔ (path_text self.entry ≢ []) }
        // `None` only without components
        ensures none { IfNone result (path_components self.entry ≡ []) }
        // the shortest prefix with the directory's components
        ensures text { IfSome result
            (λ parent. IsPopped (path_text self.entry) (path_text parent)) }
        // the components of the directory
        ensures components { IfSome result
            (λ parent. path_components parent ≡ kept (path_components self.entry)) }
        // followed by the file name, equivalent to the path
        ensures rejoined { IfSome result (λ parent. (n : List ℕ)
            → file_name_of (path_text self.entry) ≡ Some n
            → IsSame (path_components parent ++ name n ∷ []) (path_components self.entry)) }
        // it leads somewhere from wherever the path does
        ensures leads { IfSome result (λ parent. (base : List (List ℕ))
            → IsSome (walk base (path_components self.entry))
            → IsSome (walk base (path_components parent))) }
    {
        if self.text.is_empty() {
            None
        } else {
            Some(RelativePath::new(parent_of(self.text)))
        }
    }

    /// Returns the last component other than `.`, if that component is a name.
    ///
    /// The file name is a part of this path. Allocates nothing.
    ///
    /// ```
    /// assert_eq!(rt; RelativePath::new("foo/bar.txt/.").file_name(), Some("bar.txt"));
    /// assert_eq!(rt; RelativePath::new("foo/..").file_name(), None);
    /// ```
    pub fn file_name(self) -> Option<&'a str>
        // the last component but `.`, if a name
        ensures text { option_copied result ≡ file_name_of (path_text self.entry) }
        // the component after the directory
        ensures placed { IfSome result (λ file_name. slice_get (path_components self.entry)
            (kept_len (path_components self.entry)) ≡ Some (name file_name.now)) }
        // as a path: this one name
        ensures alone { IfSome result
            (λ file_name. components file_name.now ≡ name file_name.now ∷ []) }
    {
        last_component(self.text).name
    }

    /// Returns the part of this path after the components of `base` and the slashes that follow
    /// them. For a `base` without components that is the whole path, slashes included. Allocates
    /// nothing.
    ///
    /// Fails if this path doesn't start with `base`.
    ///
    /// ```
    /// let path = RelativePath::new("//foo/bar/");
    /// let rest = path.strip_prefix(RelativePath::new("foo")).map(RelativePath::as_str);
    /// assert_eq!(rt; rest, Ok("bar/"));
    /// ```
    pub fn strip_prefix(self, base: RelativePath<'_>) -> Result<RelativePath<'a>, StripPrefixError>
        // it succeeds exactly if the path starts with the base
        ensures found { IsOk result
            ↔ StartsWith (path_components self.entry) (path_components base.entry) }
        // what follows the base's components and their slashes
        ensures text { IfOk result (λ rest. IsDropped (path_text self.entry)
            (length (path_components base.entry)) (path_text rest)) }
        // the path's components after the base's
        ensures components { IfOk result (λ rest. path_components self.entry
            ≡ path_components base.entry ++ path_components rest) }
    {
        text_after(self.text, base.text)
            .map(RelativePath::new)
            .ok_or(StripPrefixError(()))
    }

    /// Returns whether this path's components begin with those of `base`. Allocates nothing.
    ///
    /// ```
    /// let path = RelativePath::new("etc/passwd");
    /// assert!(rt; path.starts_with(RelativePath::new("etc")));
    /// assert!(rt; !path.starts_with(RelativePath::new("e")));
    /// ```
    pub fn starts_with(self, base: RelativePath<'_>) -> bool
        ensures { IsTrue result
            ↔ StartsWith (path_components self.entry) (path_components base.entry) }
    {
        text_after(self.text, base.text).is_some()
    }

    /// Returns whether this path's components end with those of `child`. Allocates nothing.
    ///
    /// ```
    /// let path = RelativePath::new("etc/passwd");
    /// assert!(rt; path.ends_with(RelativePath::new("passwd")));
    /// assert!(rt; !path.ends_with(RelativePath::new("wd")));
    /// ```
    pub fn ends_with(self, child: RelativePath<'_>) -> bool
        ensures { IsTrue result
            ↔ EndsWith (path_components self.entry) (path_components child.entry) }
    {
        ends_with(self.text, child.text)
    }

    /// Returns how many names a base needs for this path to lead to a place from it: the number of
    /// `..` at the start of the path's normal form. A path with a climb of 0 leads to its base or
    /// below. Allocates nothing.
    ///
    /// ```
    /// assert_eq!(rt; RelativePath::new("docs/../img/a.png").climb(), 0);
    /// assert_eq!(rt; RelativePath::new("a/../../b/../..").climb(), 2);
    /// ```
    pub fn climb(self) -> usize
        // the path leads somewhere exactly from bases this long or longer
        ensures place { (base : List (List ℕ)) → IsSome (walk base (path_components self.entry))
            ↔ (result ≤ length base) }
        // how many `..` the normal form begins with
        ensures normal { (steps : List Step) → IsNormalForm (path_components self.entry) steps
            → result ≡ climb steps }
        // 0 only if the path stays below its base
        ensures below { result ≡ 0
            → (place : List (List ℕ)) × LeadsBelow [] place (path_components self.entry) }
    {
        let mut climb = 0_usize;
        let mut names = 0_usize;
        for component in self.components() {
            match component {
                Component::CurDir => {}
                Component::ParentDir if names > 0 => names -= 1,
                Component::ParentDir => climb += 1,
                Component::Normal(_) => names += 1,
            }
        }
        climb
    }

    /// Returns whether this path's components are `..` first, then names only. Extra slashes make
    /// no difference. Allocates nothing.
    ///
    /// ```
    /// assert!(rt; RelativePath::new("../foo//bar").is_normalized());
    /// assert!(rt; !RelativePath::new("foo/..").is_normalized());
    /// ```
    pub fn is_normalized(self) -> bool
        ensures { IsTrue result ↔ IsNormal (path_components self.entry) }
    {
        let mut after_name = false;
        for component in self.components() {
            match component {
                Component::CurDir => return false,
                Component::ParentDir if after_name => return false,
                Component::ParentDir => {}
                Component::Normal(_) => after_name = true,
            }
        }
        true
    }

    /// Returns a copy of this path with its file name replaced.
    ///
    /// If the path has no file name, the new file name is pushed onto the path. The result then
    /// leads *below* the path, not beside it: `..` with the name `x` is `../x`. The new name may
    /// have several components, and each `..` among them climbs as in any path: `a/b` with the name
    /// `../../../x` is `a/../../../x`, which leads above its base.
    ///
    /// Allocates once: the result, if it isn't empty. The only error is lack of memory.
    ///
    /// ```
    /// let named = RelativePath::new("tmp/foo.txt").with_file_name(alloc, "bar.txt")?;
    /// assert_eq!(rt; named.as_relative_path().as_str(), "tmp/bar.txt");
    /// ```
    pub fn with_file_name(
        self,
        alloc: Global,
        file_name: &str,
    ) -> Result<RelativePathBuf, AllocError>
        // the new name, pushed onto the path without its file name
        ensures text { IfOk result
            (λ named. IsNamed (path_text self.entry) file_name.now named.text) }
        // the path's components without its file name, then the new name's
        ensures components { IfOk result (λ named. components named.text
            ≡ base_components (path_components self.entry) ++ components file_name.now) }
        // a single name becomes the file name
        ensures name { IfOk result (λ named. components file_name.now ≡ name file_name.now ∷ []
            → file_name_of named.text ≡ Some file_name.now) }
        // beside the path, if one name replaces another
        ensures beside { IfOk result (λ named. IsSome (file_name_of (path_text self.entry))
            → components file_name.now ≡ name file_name.now ∷ []
            → IsBeside (path_components self.entry) (components named.text)) }
    {
        RelativePath::new(base_of(self.text)).join(alloc, RelativePath::new(file_name))
    }

    /// Returns the file name up to its last dot, or the whole file name if it has no dot, or only a
    /// leading one. `None` if the path has no file name.
    ///
    /// The stem is a part of this path. Allocates nothing.
    ///
    /// ```
    /// assert_eq!(rt; RelativePath::new("foo.tar.gz").file_stem(), Some("foo.tar"));
    /// assert_eq!(rt; RelativePath::new(".foo").file_stem(), Some(".foo"));
    /// ```
    pub fn file_stem(self) -> Option<&'a str>
        // the file name's stem, if any
        ensures text { option_copied result
            ≡ option_map stem_of (file_name_of (path_text self.entry)) }
        // the file name: the stem, then any extension after a dot
        ensures joined { IfSome result (λ stem. IfSome (file_name_of (path_text self.entry))
            (λ file_name. IsStemAndExtension file_name stem.now (extension_of file_name))) }
    {
        let (stem, _) = split_name(self.file_name()?);
        Some(stem)
    }

    /// Returns the part of the file name after its last dot. `None` if the file name has no dot, or
    /// only a leading one, or if the path has no file name.
    ///
    /// The extension is a part of this path. Allocates nothing.
    ///
    /// ```
    /// assert_eq!(rt; RelativePath::new("foo.tar.gz").extension(), Some("gz"));
    /// assert_eq!(rt; RelativePath::new(".foo").extension(), None);
    /// ```
    pub fn extension(self) -> Option<&'a str>
        ensures { option_copied result
            ≡ option_and_then extension_of (file_name_of (path_text self.entry)) }
    {
        split_name(self.file_name()?).1
    }

    /// Returns a copy of this path with the extension of its file name replaced. An empty
    /// `extension` removes it. A path without a file name is copied as it is.
    ///
    /// An extension that isn't empty and has no slash keeps the path's directory. An empty
    /// extension leaves the stem of the file name as the last component, even if the stem is `..`
    /// or `.`: `...` becomes `..`, which climbs, and `..x` becomes `.`.
    ///
    /// Allocates once: the result, if it isn't empty. The only error is lack of memory.
    ///
    /// ```
    /// let extended = RelativePath::new("foo.rs").with_extension(alloc, "txt")?;
    /// assert_eq!(rt; extended.as_relative_path().as_str(), "foo.txt");
    /// ```
    pub fn with_extension(
        self,
        alloc: Global,
        extension: &str,
    ) -> Result<RelativePathBuf, AllocError>
        // the text up to its stem's end, then the dotted extension, if any
        ensures text { IfOk result
            (λ extended. IsExtended (path_text self.entry) extension.now extended.text) }
        // for a non-empty extension without slashes: the directory, then `stem.extension`
        ensures components { IfOk result (λ extended. (n : List ℕ)
            → file_name_of (path_text self.entry) ≡ Some n → IsTrue (is_extension extension.now)
            → components extended.text
            ≡ kept (path_components self.entry) ++ name (stem_of n ++ dot ∷ extension.now) ∷ []) }
        // for an empty extension: the directory, then the stem
        ensures bare { IfOk result (λ extended. (n : List ℕ)
            → file_name_of (path_text self.entry) ≡ Some n → extension.now ≡ []
            → components extended.text
            ≡ kept (path_components self.entry) ++ classed (stem_of n) ∷ []) }
        // beside the path, for a non-empty extension without slashes
        ensures beside { IfOk result (λ extended. IsTrue (is_extension extension.now)
            → IsBeside (path_components self.entry) (components extended.text)) }
        // a plain extension is then the file name's, if there is one
        ensures extension { IfOk result (λ extended. IsSome (file_name_of (path_text self.entry))
            → IsTrue (is_plain_extension extension.now)
            → option_and_then extension_of (file_name_of extended.text) ≡ Some extension.now) }
        // a plain extension keeps the stem
        ensures stem { IfOk result (λ extended. IsTrue (is_plain_extension extension.now)
            → option_map stem_of (file_name_of extended.text)
            ≡ option_map stem_of (file_name_of (path_text self.entry))) }
        // without a file name: the same text
        ensures unnamed { IfOk result (λ extended. file_name_of (path_text self.entry) ≡ None
            → extended.text ≡ path_text self.entry) }
    {
        let Some(front) = without_extension(self.text) else {
            return self.to_relative_path_buf(alloc);
        };
        let len = front.len() + dotted_len(extension);
        let mut extended = RelativePathBuf::from(copy_with_room(alloc, front, len)?);
        extended.push_extension(extension);
        Ok(extended)
    }

    /// Returns the only normal path that leads where this path and then `path` lead. `normalize`
    /// returns the same for the two joined.
    ///
    /// Allocates at most twice: a table with a span for each component of both paths, if they have
    /// any, and the result at its exact length, if it isn't empty. The only error is lack of
    /// memory.
    ///
    /// ```
    /// let foo = RelativePath::new("x/y");
    /// let normal = foo.join_normalized(alloc, RelativePath::new("../z"))?;
    /// assert_eq!(rt; normal.as_relative_path().as_str(), "x/z");
    /// ```
    pub fn join_normalized(
        self,
        alloc: Global,
        path: RelativePath<'_>,
    ) -> Result<RelativePathBuf, AllocError>
        // the only normal text equivalent to both paths in turn
        ensures normal_form { IfOk result (λ normal. IsNormalTextOf
            (path_components self.entry ++ path_components path.entry) normal.text) }
        // it leads where both lead in turn
        ensures in_turn { IfOk result (λ normal. LeadsInTurn (path_components self.entry)
            (path_components path.entry) (components normal.text)) }
        // as far below the first path as the second below the top
        ensures below { IfOk result (λ normal. (place : List (List ℕ))
            → walk [] (path_components path.entry) ≡ Some place
            → LeadsBelow (path_components self.entry) place (components normal.text)) }
        // below the first path, if the second doesn't climb
        ensures stays_below { IfOk result (λ normal. IsSome (walk [] (path_components path.entry))
            → StaysBelow (path_components self.entry) (components normal.text)) }
        // the second path's file name, if any
        ensures file_name { IfOk result (λ normal. IsSome (file_name_of (path_text path.entry))
            → file_name_of normal.text ≡ file_name_of (path_text path.entry)) }
        // it succeeds if there are no components
        ensures succeeds { path_components self.entry ++ path_components path.entry ≡ []
            → IsOk result }
    {
        let form = NormalForm::of_both(alloc, self.text, path.text)?;
        Ok(form.into_text(alloc)?.into())
    }

    /// Returns the only normal path that leads where this path leads: `..` first, then names,
    /// joined by single slashes.
    ///
    /// Allocates at most twice: a table with a span for each component, if the path has any, and
    /// the result at its exact length, if it isn't empty. The only error is lack of memory.
    ///
    /// ```
    /// let normal = RelativePath::new("../foo/./bar/../baz.txt").normalize(alloc)?;
    /// assert_eq!(rt; normal.as_relative_path().as_str(), "../foo/baz.txt");
    /// ```
    pub fn normalize(self, alloc: Global) -> Result<RelativePathBuf, AllocError>
        // the only normal text equivalent to the path
        ensures normal_form { IfOk result
            (λ normal. IsNormalTextOf (components (path_text self.entry)) normal.text) }
        // no longer than the path
        ensures no_longer { IfOk result
            (λ normal. length normal.text ≤ length (path_text self.entry)) }
        // a normal path keeps its components
        ensures normal_stays { IfOk result (λ normal. IsNormal (path_components self.entry)
            → components normal.text ≡ path_components self.entry) }
        // the path's file name, if any
        ensures file_name { IfOk result (λ normal. IsSome (file_name_of (path_text self.entry))
            → file_name_of normal.text ≡ file_name_of (path_text self.entry)) }
        // it succeeds if there are no components
        ensures succeeds { path_components self.entry ≡ [] → IsOk result }
    {
        let normal = NormalForm::of(alloc, self.text)?;
        Ok(normal.into_text(alloc)?.into())
    }

    /// Writes the text that `normalize` returns into `out`, which has to be empty and to have a
    /// capacity of at least this path's length. Allocates nothing.
    ///
    /// ```
    /// let path = RelativePath::new("a/.././b/../c/d");
    /// let mut normal = RelativePathBuf::with_capacity(alloc, path.as_str().len())?;
    /// path.normalize_into(&mut normal);
    /// assert_eq!(rt; normal.as_relative_path().as_str(), "c/d");
    /// ```
    pub fn normalize_into(self, out: &mut RelativePathBuf)
        // the buffer has to be empty
        requires empty { out.old.text ≡ [] }
        // the path's text has to fit the room
        requires room { length (path_text self) ≤ out.old.room }
        // the only normal text equivalent to the path
        ensures normal_form { IsNormalTextOf (components (path_text self.entry)) out.new.text }
        // no longer than the path
        ensures no_longer { length out.new.text ≤ length (path_text self.entry) }
        // the path's file name, if any
        ensures file_name { IsSome (file_name_of (path_text self.entry))
            → file_name_of out.new.text ≡ file_name_of (path_text self.entry) }
        // the room never shrinks
        ensures room { out.old.room ≤ out.new.room }
    {
        for component in self.components() {
            out.push_in_normal_form(component);
        }
    }

    /// Returns the shortest path from where this path leads to where `to` leads, whatever base both
    /// start from. Normalising either path first doesn't change the result.
    ///
    /// The result is empty if both paths lead to the same place, and also if no path leads from
    /// this path to `to`, as from `..` to `a`. [`RelativePath::try_relative`] tells the two cases
    /// apart.
    ///
    /// Allocates at most three times: for each path that has components, a table with a span for
    /// each of them; and the result, if it isn't empty. Fails only if an allocation fails, or if
    /// the result is too long for memory.
    ///
    /// ```
    /// let from = RelativePath::new("a/b/c/d");
    /// let way = from.relative(alloc, RelativePath::new("a/b/e/f"))?;
    /// assert_eq!(rt; way.as_relative_path().as_str(), "../../e/f");
    /// ```
    pub fn relative(
        self,
        alloc: Global,
        to: RelativePath<'_>,
    ) -> Result<RelativePathBuf, AllocError>
        // the shortest path to the target, empty if none leads there
        ensures way { IfOk result
            (λ way. IsWayText (path_components self.entry) (path_components to.entry) way.text) }
        // also from each path whose normal text the source is
        ensures shortest_from { IfOk result (λ way. (from : List Step)
            → IsNormalTextOf from (path_text self.entry) → IsReachable from (path_components to.entry)
            → IsShortestText from (path_components to.entry) way.text) }
        // also to each path whose normal text the target is
        ensures shortest_to { IfOk result (λ way. (target : List Step)
            → IsNormalTextOf target (path_text to.entry) → IsReachable (path_components self.entry) target
            → IsShortestText (path_components self.entry) target way.text) }
        // a path leads to the target exactly if the source climbs no more
        ensures climbs { (from_steps to_steps : List Step)
            → IsNormalForm (path_components self.entry) from_steps
            → IsNormalForm (path_components to.entry) to_steps
            → IsReachable (path_components self.entry) (path_components to.entry)
            ↔ (climb from_steps ≤ climb to_steps) }
        // two paths over a middle lead in turn to the target
        ensures through { (middle r s : List Step) → Leads (path_components self.entry) r middle
            → Leads middle s (path_components to.entry)
            → Leads (path_components self.entry) (r ++ s) (path_components to.entry) }
    {
        // The clauses `climbs` and `through` say nothing of this result. They stay, since laws are proved from
        // contracts alone.
        match self.try_relative(alloc, to)? {
            Some(way) => Ok(way),
            None => Ok(RelativePathBuf::new(alloc)),
        }
    }

    /// Returns what [`RelativePath::relative`] returns, or `None` if no path leads from where this
    /// path leads to where `to` leads.
    ///
    /// Allocates at most three times: for each path that has components, a table with a span for
    /// each of them; and the result, if there is one and it isn't empty. Fails only if an
    /// allocation fails, or if the result is too long for memory.
    ///
    /// ```
    /// let path = RelativePath::new("a");
    /// assert!(rt; path.try_relative(alloc, RelativePath::new(".."))?.is_some());
    /// assert!(rt; RelativePath::new("..").try_relative(alloc, path)?.is_none());
    /// ```
    pub fn try_relative(
        self,
        alloc: Global,
        to: RelativePath<'_>,
    ) -> Result<Option<RelativePathBuf>, AllocError>
        // `None` exactly if no path leads to the target
        ensures none { IfOk result
            (λ way. IsNone way
            ↔ (¬ IsReachable (path_components self.entry) (path_components to.entry))) }
        // the shortest path to the target
        ensures shortest { IfOk result
            (λ found. IfSome found
            (λ way. IsShortestText (path_components self.entry) (path_components to.entry) way.text)) }
        // also from each path whose normal text the source is
        ensures shortest_from { IfOk result (λ found. IfSome found (λ way. (from : List Step)
            → IsNormalTextOf from (path_text self.entry)
            → IsShortestText from (path_components to.entry) way.text)) }
        // also to each path whose normal text the target is
        ensures shortest_to { IfOk result (λ found. IfSome found (λ way. (target : List Step)
            → IsNormalTextOf target (path_text to.entry)
            → IsShortestText (path_components self.entry) target way.text)) }
        // `Some` for two paths that stay below a common path
        ensures below { IfOk result (λ found. (top : List Step)
            → StaysBelow top (path_components self.entry)
            → StaysBelow top (path_components to.entry) → IsSome found) }
    {
        let from = NormalForm::of(alloc, self.text)?;
        let to = NormalForm::of(alloc, to.text)?;
        let Some(way) = Way::between(&from, &to) else {
            return Ok(None);
        };
        let text = to.spelled_past(alloc, way.climb, way.skipped)?;
        Ok(Some(text.into()))
    }

    /// Returns the length of the shortest base from which this path and `path` lead apart: to
    /// different places, or only one of them to a place. `None` if they lead alike from every base.
    ///
    /// Allocates at most twice: for each path that has components, a table with a span for each of
    /// them. The only error is lack of memory.
    ///
    /// ```
    /// let path = RelativePath::new("../a");
    /// assert_eq!(rt; path.leads_apart(alloc, RelativePath::new("../b"))?, Some(1));
    /// assert_eq!(rt; path.leads_apart(alloc, RelativePath::new("../a/."))?, None);
    /// ```
    pub fn leads_apart(
        self,
        alloc: Global,
        path: RelativePath<'_>,
    ) -> Result<Option<usize>, AllocError>
        // `None` exactly if the paths are equivalent
        ensures none { IfOk result
            (λ apart. IsNone apart
            ↔ IsSame (path_components self.entry) (path_components path.entry)) }
        // the length of the shortest separating base
        ensures some { IfOk result
            (λ apart. (n : ℕ) → (apart ≡ Some n)
            ↔ LeadsApart (path_components self.entry) (path_components path.entry) n) }
    {
        let form = NormalForm::of(alloc, self.text)?;
        let other = NormalForm::of(alloc, path.text)?;
        Ok(shortest_separating_base(&form, &other))
    }
}

impl<'a> Component<'a> {
    /// Views the component alone as a path.
    ///
    /// ```
    /// assert_eq!(rt; Component::Normal("foo").as_relative_path(), RelativePath::new("foo"));
    /// ```
    pub fn as_relative_path(self) -> RelativePath<'a>
        ensures { path_text result ≡ step_text (step_of self.entry) }
    {
        RelativePath::new(self.as_str())
    }
}

impl<'a> Components<'a> {
    /// Views the text that is left as a path. Before the first call of `next` or `next_back` that
    /// is the whole text.
    ///
    /// ```
    /// let mut components = RelativePath::new("/a//b/").components();
    /// components.next();
    /// assert_eq!(rt; components.as_relative_path().as_str(), "b/");
    /// ```
    pub fn as_relative_path(&self) -> RelativePath<'a>
        ensures { path_text result ≡ text_left self.now }
    {
        RelativePath::new(self.as_str())
    }
}

impl<'a> IntoIterator for RelativePath<'a> {
    type Item = &'a str;

    type IntoIter = Iter<'a>;

    // the whole text is left
    ghost into_iter_gives = { λ path iter. iter_text_left iter ≡ path_text path };

    fn into_iter(self) -> Iter<'a> {
        self.iter()
    }
}

impl fmt::Debug for RelativePath<'_> {
    // the debug form of an ASCII text
    ghost debug_output = { λ path. debug_str (path_text path) };

    fn fmt<W: fmt::Write>(&self, f: &mut fmt::Formatter<W>) -> fmt::Result {
        fmt::Debug::fmt(&self.text, f)
    }
}

impl PartialEq for RelativePath<'_> {
    // components are compared by kind and text
    ghost eq = { on path_components steps_eq };

    ghost laws = { partial_eq_law (by_components path_components) };

    fn eq(&self, other: &Self) -> bool
        // the answer of `eq`
        ensures value { result ≡ steps_eq (path_components self.now) (path_components other.now) }
        // whether the components are equal
        ensures same { IsTrue result ↔ (path_components self.now ≡ path_components other.now) }
    {
        self.components() == other.components()
    }
}

impl Eq for RelativePath<'_> {
    ghost laws = { (by_components path_components).equivalence };
}

impl PartialOrd for RelativePath<'_> {
    // always an order, that of `cmp`
    ghost partial_cmp = { as_partial_cmp (on path_components steps_cmp) };

    ghost laws = { partial_ord_law (by_components path_components) };

    fn partial_cmp(&self, other: &Self) -> Option<Ordering> {
        Some(self.cmp(other))
    }
}

impl Ord for RelativePath<'_> {
    // by the first difference: `.`, `..`, then names by bytes
    ghost cmp = { on path_components steps_cmp };

    ghost total = { (by_components path_components).total };

    ghost matches_partial_cmp = { λ _ _. refl };

    ghost matches_eq = { (by_components path_components).agree };

    fn cmp(&self, other: &Self) -> Ordering {
        compare(self.text, other.text)
    }
}

impl Hash for RelativePath<'_> {
    // each component's text, and a slash after it
    ghost hash_input = { fed_by path_components };

    ghost respects_eq = { fed_alike path_components path_components };

    fn hash<H: Hasher>(&self, state: &mut H) {
        for component in self.components() {
            component.hash(state);
        }
    }
}

impl fmt::Display for RelativePath<'_> {
    // the path's text
    ghost output = { λ path. Some (path_text path) };

    // the same, cut and padded as asked
    ghost styled_output = { λ path spec. Some (styled_text spec (path_text path)) };

    fn fmt<W: fmt::Write>(&self, f: &mut fmt::Formatter<W>) -> fmt::Result {
        f.pad(self.text)
    }
}

/// A path to be printed, as [`RelativePath::display`] returns it; it prints as the path does.
///
/// ```
/// let display = RelativePath::new("foo").display();
/// assert_eq!(rt; format!(in alloc; "{display:>5}")?.as_str(), "  foo");
/// ```
#[derive(Clone, Copy)]
pub struct Display<'a> {
    path: RelativePath<'a>,
}

impl fmt::Display for Display<'_> {
    // the path's text
    ghost output = { λ display. Some (display_text display) };

    // the same, cut and padded as asked
    ghost styled_output = { λ display spec. Some (styled_text spec (display_text display)) };

    fn fmt<W: fmt::Write>(&self, f: &mut fmt::Formatter<W>) -> fmt::Result {
        fmt::Display::fmt(&self.path, f)
    }
}

impl fmt::Debug for Display<'_> {
    // the debug form of an ASCII text
    ghost debug_output = { λ display. debug_str (display_text display) };

    fn fmt<W: fmt::Write>(&self, f: &mut fmt::Formatter<W>) -> fmt::Result {
        fmt::Debug::fmt(&self.path, f)
    }
}

/// Returns whether a text can be a whole extension: it isn't empty, and has neither a dot nor a
/// slash. A path with a file name that gets such an extension has this extension, and keeps its
/// stem. Allocates nothing.
///
/// ```
/// assert!(rt; is_plain_extension("html"));
/// assert!(rt; !is_plain_extension("tar.gz"));
/// ```
pub fn is_plain_extension(text: &str) -> bool
    ensures { result ≡ is_plain_extension text.now }
{
    !text.is_empty()
        && text
            .as_bytes()
            .iter()
            .all(|&byte| byte != b'.' && byte != b'/')
}
