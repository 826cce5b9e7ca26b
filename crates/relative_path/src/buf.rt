//! The owned relative path.
ghost use Rattle.std.specs.Prelude.{◌≡◌, ◌≢◌, ◌≤◌, ◌<◌, ◌+◌, ◌↔◌, ◌++◌, [], ◌∷◌, if◌then◌else◌, ℕ, List, length, take, None, Some, false, IsSome, IfErr, IfOk, IsOk, OnOk, OnErr, MatchResult, IsTrue, string_bytes};
ghost use Rattle.relative_path.specs.Error.{from_path_kind};
ghost use Rattle.relative_path.specs.Steps.{Step, dot, name, slash, classed, step_text, components, spell};
ghost use Rattle.relative_path.specs.Components.{step_of};
ghost use Rattle.relative_path.specs.Normalizing.{IsNormalText};
ghost use Rattle.relative_path.specs.Walk.{walk, IsSame, StaysBelow};
ghost use Rattle.relative_path.specs.Unix.{has_root, unix_components};
ghost use Rattle.relative_path.specs.declared.error.FromPathErrorKind.TheVariants.{NonRelative, OutOfMemory};
ghost use Rattle.std.specs.Path.{path_bytes};
ghost use Rattle.relative_path.specs.Editing.{kept, pushed, with_separator, without_cur_dirs, IsPopped};
ghost use Rattle.relative_path.specs.Naming.{file_name_of, stem_of, extension_of, is_extension, is_plain_extension, base_components, dotted, IsBeside, IsNamed, IsExtended};
ghost use Rattle.relative_path.specs.Comparing.{steps_eq, steps_cmp, fed_by};
ghost use Rattle.relative_path.specs.ComparingLaws.{partial_eq_law, partial_ord_law, by_components, fed_alike};
ghost use Rattle.relative_path.specs.Pushing.{PushesAll, PushesUntilFull, PushesWholeRun, StopsRun};
ghost use Rattle.relative_path.specs.RelativePath.{path_text, path_components};
ghost use Rattle.relative_path.specs.RelativePathBuf.{buffer_components, ExceedsRoom};
ghost use Rattle.std.specs.Iterator.{IsFiniteIterable};
ghost use Rattle.std.specs.Fmt.{styled_text, debug_str};
ghost use Rattle.std.specs.Option.{option_and_then, option_map};
ghost use Rattle.std.specs.Str.{IsUtf8};
ghost use Rattle.std.specs.Ordering.{on, as_partial_cmp};
ghost use Rattle.std.specs.String.{string_capacity};
ghost use Rattle.std.proofs.Common.{refl};

use crate::component::Component;
use crate::editing::{dotted_len, needs_separator, pushed_len, strip_slash};
use crate::error::{FromPathError, FromPathErrorKind};
use crate::naming::{base_of, parent_of, without_extension};
use crate::path::RelativePath;
use crate::unix_components::{UnixComponents, has_root};
use crate::unix_texts::push_components;
use std::alloc::{AllocError, Global};
use std::cmp::Ordering;
use std::fmt;
use std::hash::{Hash, Hasher};
use std::marker::Model;
use std::path::Path;

/// A relative path that owns its text, in a buffer that can grow. The buffer keeps the allocator
/// that its memory comes from.
///
/// A buffer is compared, hashed and printed as its view is. [`RelativePathBuf::as_relative_path`]
/// returns that view, which has the queries.
///
/// ```
/// let mut buf = RelativePathBuf::new(alloc);
/// buf.push(RelativePath::new("foo"))?;
/// buf.push(RelativePath::new("bar"))?;
/// assert_eq!(rt; buf.as_relative_path().as_str(), "foo/bar");
/// ```
#[derive(Drop)]
pub struct RelativePathBuf {
    text: String,
}

impl Model for RelativePathBuf {
    ghost use Rattle.std.specs.Prelude.{string_bytes};
    ghost use Rattle.std.specs.String.{string_capacity};
    ghost use Rattle.relative_path.specs.RelativePathBuf.{Buffer};

    // contracts see a text and its room
    ghost Value = { Buffer };

    // the `String`'s bytes and capacity
    ghost view = { λ b. record { text = string_bytes b.text; room = string_capacity b.text } };
}

impl RelativePathBuf {
    /// Returns an empty buffer. Allocates nothing.
    ///
    /// ```
    /// assert_eq!(rt; RelativePathBuf::new(alloc).len(), 0);
    /// ```
    pub fn new(alloc: Global) -> RelativePathBuf
        ensures { result.text ≡ [] }
    {
        RelativePathBuf {
            text: String::new(alloc),
        }
    }

    /// Returns an empty buffer with a capacity of exactly `capacity` bytes.
    ///
    /// Allocates once: the capacity, if it isn't 0. The only error is lack of memory.
    ///
    /// ```
    /// let buf = RelativePathBuf::with_capacity(alloc, 15)?;
    /// assert_eq!(rt; buf.spare(), 15);
    /// ```
    pub fn with_capacity(alloc: Global, capacity: usize) -> Result<RelativePathBuf, AllocError>
        // the buffer is empty
        ensures empty { IfOk result (λ buf. buf.text ≡ []) }
        // exactly the capacity asked for
        ensures room { IfOk result (λ buf. buf.room ≡ capacity) }
    {
        String::with_capacity(alloc, capacity).map(RelativePathBuf::from)
    }

    /// Copies a text into a new buffer.
    ///
    /// Allocates once: the copy, if it isn't empty. The only error is lack of memory.
    ///
    /// ```
    /// let buf = RelativePathBuf::from_text(alloc, "foo/bar")?;
    /// assert_eq!(rt; buf.len(), 7);
    /// ```
    pub fn from_text(alloc: Global, text: &str) -> Result<RelativePathBuf, AllocError>
        ensures { IfOk result (λ buf. buf.text ≡ text.now) }
    {
        String::from_str(alloc, text).map(RelativePathBuf::from)
    }

    /// Returns the components of a platform path, without any `.`, joined by single slashes.
    ///
    /// Fails with `NonRelative`, before it allocates, if the path begins with a slash. Otherwise
    /// the call allocates once: as many bytes as the platform path has, if there are any. The only
    /// other error is `OutOfMemory`.
    ///
    /// ```
    /// let buf = RelativePathBuf::from_path(alloc, Path::new("./foo//bar/."))?;
    /// assert_eq!(rt; buf.as_relative_path().as_str(), "foo/bar");
    /// ```
    pub fn from_path(alloc: Global, path: Path<'_>) -> Result<RelativePathBuf, FromPathError>
        // no text with a leading slash succeeds
        ensures relative { IfOk result (λ buf. has_root (path_bytes path.entry) ≡ false) }
        // the components but `.`, joined by single slashes
        ensures ok { IfOk result (λ buf.
            buf.text ≡ spell (without_cur_dirs (unix_components (path_bytes path.entry)))) }
        // `NonRelative` for a leading slash, else `OutOfMemory`
        ensures kind { IfErr result (λ error. from_path_kind error
            ≡ (if has_root (path_bytes path.entry) then NonRelative else OutOfMemory)) }
    {
        let path = path.as_str();
        if has_root(path) {
            return Err(FromPathErrorKind::NonRelative.into());
        }
        let mut text = String::with_capacity(alloc, path.len())?;
        push_components(&mut text, UnixComponents::without_cur_dirs(path));
        Ok(text.into())
    }

    /// Pushes the paths that the iterator yields, in order, onto a new empty buffer. The iterator
    /// has to end.
    ///
    /// Allocates as [`RelativePathBuf::push`] does, at each path that doesn't fit. If an allocation
    /// fails, the buffer is dropped, and the iterator isn't asked for another path. The only error
    /// is lack of memory.
    ///
    /// ```
    /// let paths = ["a", "/b", "", "c"].map(RelativePath::new);
    /// let buf = RelativePathBuf::from_paths(alloc, paths)?;
    /// assert_eq!(rt; buf.as_relative_path().as_str(), "a/b/c");
    /// ```
    pub fn from_paths<'p, I: IntoIterator<Item = RelativePath<'p>>>(
        alloc: Global,
        paths: I,
    ) -> Result<RelativePathBuf, AllocError>
        // the iterator has to end
        requires ends { IsFiniteIterable
            I.into_iter_gives I.IntoIter.can_next I.IntoIter.remaining paths }
        // all paths are pushed, in order
        ensures ok { IfOk result
            (λ buf. PushesAll I.into_iter_gives I.IntoIter.next_gives paths [] buf.text) }
        // any list of the paths' texts is pushed, in order
        ensures runs { IfOk result
            (λ buf. PushesWholeRun I.into_iter_gives I.IntoIter.next_gives paths [] buf.text) }
    {
        let mut buf = RelativePathBuf::new(alloc);
        buf.extend(paths)?;
        Ok(buf)
    }

    /// Copies the path into a new buffer.
    ///
    /// Allocates once: the copy, if it isn't empty. The only error is lack of memory.
    ///
    /// ```
    /// let buf = RelativePathBuf::from_text(alloc, "foo//bar")?;
    /// assert_eq!(rt; buf.clone()?.as_relative_path().as_str(), "foo//bar");
    /// ```
    pub fn clone(&self) -> Result<RelativePathBuf, AllocError>
        ensures { IfOk result (λ buf. buf.text ≡ self.now.text) }
    {
        self.text.clone().map(RelativePathBuf::from)
    }

    /// Returns how many bytes the text has.
    ///
    /// ```
    /// assert_eq!(rt; RelativePathBuf::from_text(alloc, "é/b")?.len(), 4);
    /// ```
    pub fn len(&self) -> usize
        ensures { result ≡ length self.now.text }
    {
        self.text.len()
    }

    /// Returns how many bytes can be added before the buffer allocates: its capacity less its
    /// length.
    ///
    /// ```
    /// let mut buf = RelativePathBuf::with_capacity(alloc, 3)?;
    /// assert_eq!(rt; buf.spare(), 3);
    /// buf.push(RelativePath::new("foo"))?;
    /// assert_eq!(rt; buf.spare(), 0);
    /// ```
    pub fn spare(&self) -> usize
        ensures { length self.now.text + result ≡ self.now.room }
    {
        self.text.capacity() - self.text.len()
    }

    /// Appends a path: a slash, unless the text is empty or ends in one, and then `path` without
    /// one slash at its start.
    ///
    /// Allocates once, and only if the result doesn't fit the capacity. The only error is lack of
    /// memory. After an error the buffer is unchanged.
    ///
    /// ```
    /// let mut buf = RelativePathBuf::from_text(alloc, "foo")?;
    /// buf.push(RelativePath::new("/bar"))?;
    /// assert_eq!(rt; buf.as_relative_path().as_str(), "foo/bar");
    /// ```
    pub fn push(&mut self, path: RelativePath<'_>) -> Result<(), AllocError>
        // the first text, a slash if needed, the second without one leading slash
        ensures ok { OnOk result (self.new.text ≡ pushed self.old.text (path_text path.entry)) }
        // the first path's components, then the second's
        ensures components { OnOk result
            (components self.new.text ≡ components self.old.text ++ path_components path.entry) }
        // below the first path, if the second doesn't climb
        ensures stays_below { OnOk result (IsSome (walk [] (path_components path.entry))
            → StaysBelow (components self.old.text) (components self.new.text)) }
        // the second path's file name, if any
        ensures file_name { OnOk result (IsSome (file_name_of (path_text path.entry))
            → file_name_of self.new.text ≡ file_name_of (path_text path.entry)) }
        // if the second has a file name: the first path, then its directory
        ensures directory { OnOk result (IsSome (file_name_of (path_text path.entry))
            → kept (components self.new.text)
            ≡ components self.old.text ++ kept (path_components path.entry)) }
        // after an error: the old text
        ensures err { OnErr result (self.new.text ≡ self.old.text) }
        // it fails only if the new text doesn't fit
        ensures full { OnErr result
            (self.old.room < length (pushed self.old.text (path_text path.entry))) }
        // the room never shrinks
        ensures room { self.old.room ≤ self.new.room }
        // after an error: the old room
        ensures refused_room { OnErr result (self.new.room ≡ self.old.room) }
    {
        let len = pushed_len(self.text.as_str(), path.as_str());
        self.reserve_to(len)?;
        self.push_reserved(path);
        Ok(())
    }

    // Appends a path that fits the capacity.
    pub(crate) fn push_reserved(&mut self, path: RelativePath<'_>)
        requires { length (pushed self.old.text (path_text path)) ≤ self.old.room }
        ensures text { self.new.text ≡ pushed self.old.text (path_text path.entry) }
        ensures room { self.old.room ≤ self.new.room }
    {
        if needs_separator(self.text.as_str()) {
            self.text.push_str("/").unwrap();
        }
        self.text.push_str(strip_slash(path.as_str())).unwrap();
    }

    /// Replaces the file name.
    ///
    /// If the path has no file name, the new file name is pushed onto the path. The result then
    /// leads *below* the path, not beside it: `..` with the name `x` is `../x`. The new name may
    /// have several components, and each `..` among them climbs as in any path: `a/b` with the name
    /// `../../../x` is `a/../../../x`, which leads above its base.
    ///
    /// Allocates once, and only if the result doesn't fit the capacity. The only error is lack of
    /// memory. After an error the buffer is unchanged.
    ///
    /// ```
    /// let mut buf = RelativePathBuf::from_text(alloc, "foo/bar/.")?;
    /// buf.set_file_name("baz")?;
    /// assert_eq!(rt; buf.as_relative_path().as_str(), "foo/baz");
    /// ```
    pub fn set_file_name(&mut self, file_name: &str) -> Result<(), AllocError>
        // the new name, pushed onto the path without its file name
        ensures ok { OnOk result (IsNamed self.old.text file_name.now self.new.text) }
        // the path's components without its file name, then the new name's
        ensures components { OnOk result (components self.new.text
            ≡ base_components (components self.old.text) ++ components file_name.now) }
        // a single name becomes the file name
        ensures name { OnOk result (components file_name.now ≡ name file_name.now ∷ []
            → file_name_of self.new.text ≡ Some file_name.now) }
        // beside the path, if one name replaces another
        ensures beside { OnOk result (IsSome (file_name_of self.old.text)
            → components file_name.now ≡ name file_name.now ∷ []
            → IsBeside (components self.old.text) (components self.new.text)) }
        // after an error: the old text
        ensures err { OnErr result (self.new.text ≡ self.old.text) }
        // it fails only if the new text doesn't fit
        ensures full { OnErr result
            (ExceedsRoom (IsNamed self.old.text file_name.now) self.old.room) }
        // the room never shrinks
        ensures room { self.old.room ≤ self.new.room }
        // after an error: the old room
        ensures refused_room { OnErr result (self.new.room ≡ self.old.room) }
    {
        let base = base_of(self.text.as_str());
        let base_len = base.len();
        let len = pushed_len(base, file_name);
        self.reserve_to(len)?;
        self.cut_to(base_len);
        self.push_reserved(RelativePath::new(file_name));
        Ok(())
    }

    /// Replaces the extension of the file name; an empty `extension` removes it. Returns whether
    /// the path has a file name. A path without a file name is left as it is.
    ///
    /// An extension that isn't empty and has no slash keeps the path's directory. An empty
    /// extension leaves the stem of the file name as the last component, even if the stem is `..`
    /// or `.`: `...` becomes `..`, which climbs, and `..x` becomes `.`.
    ///
    /// Allocates once, and only if the result doesn't fit the capacity. An empty extension, and a
    /// path without a file name, take no allocation. The only error is lack of memory. After an
    /// error the buffer is unchanged.
    ///
    /// ```
    /// let mut buf = RelativePathBuf::from_text(alloc, "foo.tar.gz")?;
    /// assert!(rt; buf.set_extension("xz")?);
    /// assert_eq!(rt; buf.as_relative_path().as_str(), "foo.tar.xz");
    /// ```
    pub fn set_extension(&mut self, extension: &str) -> Result<bool, AllocError>
        // whether the path has a file name
        ensures answer { IfOk result (λ set. IsTrue set ↔ IsSome (file_name_of self.old.text)) }
        // the text up to its stem's end, then the dotted extension, if any
        ensures ok { OnOk result (IsExtended self.old.text extension.now self.new.text) }
        // for a non-empty extension without slashes: the directory, then `stem.extension`
        ensures components { OnOk result ((n : List ℕ) → file_name_of self.old.text ≡ Some n
            → IsTrue (is_extension extension.now) → components self.new.text
            ≡ kept (components self.old.text) ++ name (stem_of n ++ dot ∷ extension.now) ∷ []) }
        // for an empty extension: the directory, then the stem
        ensures bare { OnOk result ((n : List ℕ) → file_name_of self.old.text ≡ Some n
            → extension.now ≡ [] → components self.new.text
            ≡ kept (components self.old.text) ++ classed (stem_of n) ∷ []) }
        // beside the path, for a non-empty extension without slashes
        ensures beside { OnOk result (IsTrue (is_extension extension.now)
            → IsBeside (components self.old.text) (components self.new.text)) }
        // a plain extension keeps the stem
        ensures stem { OnOk result (IsTrue (is_plain_extension extension.now)
            → option_map stem_of (file_name_of self.new.text)
            ≡ option_map stem_of (file_name_of self.old.text)) }
        // a plain extension is then the file name's, if there is one
        ensures extension { IfOk result (λ set. IsTrue set → IsTrue (is_plain_extension extension.now)
            → option_and_then extension_of (file_name_of self.new.text) ≡ Some extension.now) }
        // after an error: the old text
        ensures err { OnErr result (self.new.text ≡ self.old.text) }
        // it fails only if the new text doesn't fit
        ensures full { OnErr result
            (ExceedsRoom (IsExtended self.old.text extension.now) self.old.room) }
        // an empty extension always succeeds
        ensures taken_off { extension.now ≡ [] → IsOk result }
        // without a file name: it succeeds and changes nothing
        ensures unnamed { file_name_of self.old.text ≡ None → IsOk result × (self.new ≡ self.old) }
        // the room never shrinks
        ensures room { self.old.room ≤ self.new.room }
        // after an error: the old room
        ensures refused_room { OnErr result (self.new.room ≡ self.old.room) }
    {
        let Some(front) = without_extension(self.text.as_str()) else {
            return Ok(false);
        };
        let front_len = front.len();
        self.reserve_to(front_len + dotted_len(extension))?;
        self.cut_to(front_len);
        self.push_extension(extension);
        Ok(true)
    }

    // Grows the capacity to at least `len` bytes.
    fn reserve_to(&mut self, len: usize) -> Result<(), AllocError>
        ensures text { self.new.text ≡ self.old.text }
        ensures ok { OnOk result (len ≤ self.new.room) }
        ensures full { OnErr result (self.old.room < len) }
        ensures longer { OnErr result (length self.old.text < len) }
        ensures room { self.old.room ≤ self.new.room }
        ensures refused_room { OnErr result (self.new.room ≡ self.old.room) }
    {
        self.text.reserve(len.saturating_sub(self.text.len()))
    }

    // Cuts the text to its first `len` bytes.
    fn cut_to(&mut self, len: usize)
        requires { IsUtf8 (take len self.old.text) }
        ensures text { self.new.text ≡ take len self.old.text }
        ensures room { self.new.room ≡ self.old.room }
    {
        self.text.truncate(len);
    }

    // Appends a dot and the extension, if the extension isn't empty.
    pub(crate) fn push_extension(&mut self, extension: &str)
        requires { length (self.old.text ++ dotted extension.now) ≤ self.old.room }
        ensures text { self.new.text ≡ self.old.text ++ dotted extension.now }
        ensures room { self.old.room ≤ self.new.room }
    {
        if !extension.is_empty() {
            self.text.push_str(".").unwrap();
            self.text.push_str(extension).unwrap();
        }
    }

    /// Cuts the path to its parent and returns true. An empty path is left as it is, and the call
    /// returns false.
    ///
    /// Allocates nothing, and keeps the capacity.
    ///
    /// ```
    /// let mut buf = RelativePathBuf::from_text(alloc, "foo//bar/.")?;
    /// assert!(rt; buf.pop());
    /// assert_eq!(rt; buf.as_relative_path().as_str(), "foo");
    /// ```
    pub fn pop(&mut self) -> bool
        // whether the text wasn't empty
        ensures popped { IsTrue result ↔ (self.old.text ≢ []) }
        // the shortest prefix with the directory's components
        ensures text { IsPopped self.old.text self.new.text }
        // the components of the directory
        ensures components { components self.new.text ≡ kept (components self.old.text) }
        // followed by the file name, equivalent to the path
        ensures rejoined { (n : List ℕ) → file_name_of self.old.text ≡ Some n
            → IsSame (components self.new.text ++ name n ∷ []) (components self.old.text) }
        // it leads somewhere from wherever the path does
        ensures leads { (base : List (List ℕ)) → IsSome (walk base (components self.old.text))
            → IsSome (walk base (components self.new.text)) }
        // the room stays
        ensures room { self.new.room ≡ self.old.room }
    {
        let len = parent_of(self.text.as_str()).len();
        let popped = !self.text.is_empty();
        self.cut_to(len);
        popped
    }

    // Adds one component to a normal text and keeps the text normal. The capacity has to suffice.
    pub(crate) fn push_in_normal_form(&mut self, component: Component<'_>)
        requires normal { IsNormalText self.old.text }
        requires alone { components (step_text (step_of component)) ≡ step_of component ∷ [] }
        requires fits { length (pushed self.old.text (step_text (step_of component))) ≤ self.old.room }
        ensures normal { IsNormalText self.new.text }
        ensures same { IsSame (components self.old.text ++ step_of component.entry ∷ [])
            (components self.new.text) }
        ensures no_longer { (left : List Step) → length (spell (components self.new.text ++ left))
            ≤ length (spell (components self.old.text ++ step_of component.entry ∷ left)) }
        ensures room { self.old.room ≤ self.new.room }
    {
        match component {
            Component::CurDir => {}
            Component::ParentDir if self.ends_in_name() => {
                self.pop();
            }
            Component::ParentDir => self.push_reserved(RelativePath::new("..")),
            Component::Normal(name) => self.push_reserved(RelativePath::new(name)),
        }
    }

    // Returns whether the last component is a name.
    fn ends_in_name(&self) -> bool
        ensures { IsTrue result
            ↔ ((cs : List Step) × (n : List ℕ) × (components self.now.text ≡ cs ++ name n ∷ [])) }
    {
        let last = self.as_relative_path().components().next_back();
        matches!(last, Some(Component::Normal(_)))
    }

    /// Pushes each path that the iterator yields, in order. The iterator has to end.
    ///
    /// Allocates as [`RelativePathBuf::push`] does, at each path that doesn't fit. The only error
    /// is lack of memory. After an error the buffer keeps the paths that were pushed so far. No
    /// further path is taken, so an iterator that is passed by `&mut` still has the rest.
    ///
    /// ```
    /// let mut buf = RelativePathBuf::from_text(alloc, "x")?;
    /// buf.extend(["a", "/b", "c"].map(RelativePath::new))?;
    /// assert_eq!(rt; buf.as_relative_path().as_str(), "x/a/b/c");
    /// ```
    pub fn extend<'p, I: IntoIterator<Item = RelativePath<'p>>>(
        &mut self,
        paths: I,
    ) -> Result<(), AllocError>
        // the iterator has to end
        requires ends { IsFiniteIterable
            I.into_iter_gives I.IntoIter.can_next I.IntoIter.remaining paths }
        // all paths are pushed, in order
        ensures ok { OnOk result
            (PushesAll I.into_iter_gives I.IntoIter.next_gives paths self.old.text self.new.text) }
        // after an error: all paths before one that doesn't fit
        ensures err { OnErr result
            (PushesUntilFull I.into_iter_gives I.IntoIter.next_gives paths self.old self.new) }
        // any list of the paths' texts is pushed, in order
        ensures runs { OnOk result (PushesWholeRun
            I.into_iter_gives I.IntoIter.next_gives paths self.old.text self.new.text) }
        // after an error: the pushes stopped within any list that begins with the paths' texts
        ensures stops { OnErr result
            (StopsRun I.into_iter_gives I.IntoIter.next_gives paths self.old self.new) }
        // the room never shrinks
        ensures room { self.old.room ≤ self.new.room }
    {
        for path in paths {
            self.push(path)?;
        }
        Ok(())
    }

    /// Views the buffer as a path. Allocates nothing.
    ///
    /// ```
    /// let buf = RelativePathBuf::from_text(alloc, "foo/bar")?;
    /// assert_eq!(rt; buf.as_relative_path().file_name(), Some("bar"));
    /// ```
    pub fn as_relative_path(&self) -> RelativePath<'_>
        ensures { path_text result ≡ self.now.text }
    {
        RelativePath::new(self.text.as_str())
    }

    /// Returns the text as a `String` with the buffer's memory and capacity. Allocates nothing.
    ///
    /// ```
    /// let text = RelativePathBuf::from_text(alloc, "foo//bar")?.into_string();
    /// assert_eq!(rt; text.as_str(), "foo//bar");
    /// ```
    pub fn into_string(self) -> String
        // the buffer's text
        ensures text { string_bytes result ≡ self.text }
        // the capacity is the buffer's room
        ensures room { string_capacity result ≡ self.room }
    {
        self.text
    }
}

/// Makes a buffer of any text, with the memory and the capacity of the `String`. Allocates nothing.
///
/// ```
/// let text = String::from_str(alloc, "foo//bar")?;
/// let buf = RelativePathBuf::from(text);
/// assert_eq!(rt; buf.as_relative_path().as_str(), "foo//bar");
/// ```
impl From<String> for RelativePathBuf {
    // the same text and capacity
    ghost from_gives = { λ text buf.
        (buf.text ≡ string_bytes text) × (buf.room ≡ string_capacity text) };

    fn from(text: String) -> RelativePathBuf {
        RelativePathBuf { text }
    }
}

/// Returns the text, as `into_string` does.
///
/// ```
/// let text = String::from(RelativePathBuf::from_text(alloc, "foo//bar")?);
/// assert_eq!(rt; text.as_str(), "foo//bar");
/// ```
impl From<RelativePathBuf> for String {
    // the same text and capacity
    ghost from_gives = { λ buf text.
        (string_bytes text ≡ buf.text) × (string_capacity text ≡ buf.room) };

    fn from(buf: RelativePathBuf) -> String {
        buf.into_string()
    }
}

impl fmt::Debug for RelativePathBuf {
    // the debug form of an ASCII text
    ghost debug_output = { λ buf. debug_str buf.text };

    fn fmt<W: fmt::Write>(&self, f: &mut fmt::Formatter<W>) -> fmt::Result {
        fmt::Debug::fmt(&self.as_relative_path(), f)
    }
}

impl PartialEq for RelativePathBuf {
    // components are compared by kind and text
    ghost eq = { on buffer_components steps_eq };

    ghost laws = { partial_eq_law (by_components buffer_components) };

    fn eq(&self, other: &Self) -> bool
        // the answer of `eq`
        ensures value { result ≡ steps_eq (components self.now.text) (components other.now.text) }
        // whether the components are equal
        ensures same { IsTrue result ↔ (components self.now.text ≡ components other.now.text) }
    {
        self.as_relative_path() == other.as_relative_path()
    }
}

impl Eq for RelativePathBuf {
    ghost laws = { (by_components buffer_components).equivalence };
}

impl PartialOrd for RelativePathBuf {
    // always an order, that of `cmp`
    ghost partial_cmp = { as_partial_cmp (on buffer_components steps_cmp) };

    ghost laws = { partial_ord_law (by_components buffer_components) };

    fn partial_cmp(&self, other: &Self) -> Option<Ordering> {
        Some(self.cmp(other))
    }
}

impl Ord for RelativePathBuf {
    // by the first difference: `.`, `..`, then names by bytes
    ghost cmp = { on buffer_components steps_cmp };

    ghost total = { (by_components buffer_components).total };

    ghost matches_partial_cmp = { λ _ _. refl };

    ghost matches_eq = { (by_components buffer_components).agree };

    fn cmp(&self, other: &Self) -> Ordering {
        self.as_relative_path().cmp(&other.as_relative_path())
    }
}

impl Hash for RelativePathBuf {
    // each component's text, and a slash after it
    ghost hash_input = { fed_by buffer_components };

    ghost respects_eq = { fed_alike buffer_components buffer_components };

    fn hash<H: Hasher>(&self, state: &mut H) {
        self.as_relative_path().hash(state);
    }
}

impl fmt::Display for RelativePathBuf {
    // the path's text
    ghost output = { λ buf. Some buf.text };

    // the same, cut and padded as asked
    ghost styled_output = { λ buf spec. Some (styled_text spec buf.text) };

    fn fmt<W: fmt::Write>(&self, f: &mut fmt::Formatter<W>) -> fmt::Result {
        fmt::Display::fmt(&self.as_relative_path(), f)
    }
}
