//! Texts at the start of the caller's bytes.
//!
//! A text here is the first bytes of a slice, which may have more. Each call returns the length of the text that it
//! wrote, or fails with the length that the text needs.
ghost use Rattle.std.specs.Prelude.{◌≡◌, ◌≤◌, ◌<◌, ◌+◌, ◌↔◌, ◌++◌, [], ◌∷◌, List, ℕ, IsTrue, IsOk, IsSome, IfErr, IfOk, OnErr, length, take};
ghost use Rattle.std.specs.Str.{IsUtf8};
ghost use Rattle.relative_path.specs.Bytes.{NeedsRoom};
ghost use Rattle.relative_path.specs.Components.{step_of};
ghost use Rattle.relative_path.specs.Editing.{kept, pushed};
ghost use Rattle.relative_path.specs.Naming.{file_name_of};
ghost use Rattle.relative_path.specs.Normalizing.{IsNormal, IsNormalText, IsNormalTextOf};
ghost use Rattle.relative_path.specs.RelativePath.{path_text, path_components};
ghost use Rattle.relative_path.specs.Steps.{Step, name, slash, step_text, components, spell};
ghost use Rattle.relative_path.specs.Walk.{walk, IsSame, StaysBelow};
ghost use Rattle.relative_path.specs.declared.error.WriteError.TheVariants as write_errors;

use crate::component::{Component, Components};
use crate::editing::{needs_separator, pushed_len, strip_slash};
use crate::error::WriteError;
use crate::naming::parent_of;
use crate::path::RelativePath;
use std::alloc::Global;

// From this length on a path is normalised by a table, which is faster then.
const LONG: usize = 128;

/// Writes the text that [`RelativePath::normalize`] returns at the start of `out`, and returns the
/// text's length. If `out` is at least as long as the path, the call doesn't fail.
///
/// Allocates nothing if the path has fewer than 128 bytes and `out` is at least as long. Otherwise
/// the call allocates as [`RelativePath::normalize`] does, and keeps nothing. If memory is lacking
/// and `out` is at least as long as the path, the call does without.
///
/// Fails with `NoRoom`, and the length of the text, if `out` is shorter than the text. Fails with
/// `OutOfMemory` only if `out` is shorter than the path. After an error `out` is unchanged.
///
/// ```
/// let mut out = [0; 9];
/// let len = bytes::normalize(alloc, RelativePath::new("a/../b//c"), &mut out)?;
/// assert_eq!(rt; &out[..len], b"b/c".as_slice());
/// ```
pub fn normalize(alloc: Global, path: RelativePath<'_>, out: &mut [u8]) -> Result<usize, WriteError>
    // the only normal text equivalent to the path
    ensures normal_form { IfOk result
        (λ len. IsNormalTextOf (path_components path.entry) (take len out.new)) }
    // no longer than the path
    ensures no_longer { IfOk result (λ len. len ≤ length (path_text path.entry)) }
    // a normal path keeps its components
    ensures normal_stays { IfOk result (λ len. IsNormal (path_components path.entry)
        → components (take len out.new) ≡ path_components path.entry) }
    // the path's file name, if any
    ensures file_name { IfOk result (λ len. IsSome (file_name_of (path_text path.entry))
        → file_name_of (take len out.new) ≡ file_name_of (path_text path.entry)) }
    // the new text ends within the slice
    ensures within { IfOk result (λ len. len ≤ length out.new) }
    // the new text is UTF-8
    ensures utf8 { IfOk result (λ len. IsUtf8 (take len out.new)) }
    // a slice as long as the path suffices
    ensures fits { length (path_text path.entry) ≤ length out.old → IsOk result }
    // `NoRoom` has the text's length, which exceeds the slice's
    ensures needed { IfErr result (λ error. (needed : ℕ) → error ≡ write_errors.NoRoom needed
        → NeedsRoom (IsNormalTextOf (path_components path.entry)) (length out.old) needed) }
    // after an error: the old bytes
    ensures unchanged { OnErr result (out.new ≡ out.old) }
    // the slice's length stays
    ensures size { length out.new ≡ length out.old }
{
    let text = path.as_str();
    let fits = text.len() <= out.len();
    if fits && text.len() < LONG {
        return Ok(normalize_within(text, out));
    }
    match path.normalize(alloc) {
        Ok(normal) => write(out, normal.as_relative_path().as_str()),
        Err(_) if fits => Ok(normalize_within(text, out)),
        Err(_) => Err(WriteError::OutOfMemory),
    }
}

/// Pushes a path onto the text in the first `len` bytes of `out`, and returns the new length. The
/// text becomes what [`RelativePathBuf::push`](crate::RelativePathBuf::push) makes of it. Allocates
/// nothing.
///
/// The only error is `NoRoom`, with the length of the new text, if `out` is shorter. Then `out` is
/// unchanged.
///
/// ```
/// let mut out = *b"foo....";
/// assert_eq!(rt; bytes::push(&mut out, 3, RelativePath::new("/bar")), Ok(7));
/// assert_eq!(rt; &out, b"foo/bar");
/// ```
pub fn push(out: &mut [u8], len: usize, path: RelativePath<'_>) -> Result<usize, WriteError>
    // the old text has to end within the slice
    requires within { len ≤ length out.old }
    // the old text has to be UTF-8
    requires utf8 { IsUtf8 (take len out.old) }
    // the first text, a slash if needed, the second without one leading slash
    ensures text { IfOk result
        (λ longer. take longer out.new ≡ pushed (take len out.old) (path_text path.entry)) }
    // the first path's components, then the second's
    ensures components { IfOk result (λ longer. components (take longer out.new)
        ≡ components (take len out.old) ++ path_components path.entry) }
    // below the first path, if the second doesn't climb
    ensures stays_below { IfOk result (λ longer. IsSome (walk [] (path_components path.entry))
        → StaysBelow (components (take len out.old)) (components (take longer out.new))) }
    // the second path's file name, if any
    ensures file_name { IfOk result (λ longer. IsSome (file_name_of (path_text path.entry))
        → file_name_of (take longer out.new) ≡ file_name_of (path_text path.entry)) }
    // if the second has a file name: the first path, then its directory
    ensures directory { IfOk result (λ longer. IsSome (file_name_of (path_text path.entry))
        → kept (components (take longer out.new))
        ≡ components (take len out.old) ++ kept (path_components path.entry)) }
    // the new text ends within the slice
    ensures within { IfOk result (λ longer. longer ≤ length out.new) }
    // the new text is UTF-8
    ensures utf8 { IfOk result (λ longer. IsUtf8 (take longer out.new)) }
    // the error is `NoRoom` with the new text's length
    ensures needed { IfErr result (λ error. error
        ≡ write_errors.NoRoom (length (pushed (take len out.old) (path_text path.entry)))) }
    // it fails only if the new text doesn't fit
    ensures full { OnErr result
        (length out.old < length (pushed (take len out.old) (path_text path.entry))) }
    // after an error: the old bytes
    ensures unchanged { OnErr result (out.new ≡ out.old) }
    // the slice's length stays
    ensures size { length out.new ≡ length out.old }
{
    let needed = pushed_len(text_of(out, len), path.as_str());
    if out.len() < needed {
        return Err(WriteError::NoRoom(needed));
    }
    Ok(push_within(out, len, path.as_str()))
}

// Views the first `len` bytes as a text.
#[inline(always)]
fn text_of(out: &[u8], len: usize) -> &str
    requires within { len ≤ length out.now }
    requires utf8 { IsUtf8 (take len out.now) }
    ensures { result.now ≡ take len out.now }
{
    unsafe { std::str::from_utf8_unchecked(&out[..len]) }
}

// Writes a text at the start.
fn write(out: &mut [u8], text: &str) -> Result<usize, WriteError>
    ensures text { IfOk result (λ len. take len out.new ≡ text.now) }
    ensures len { IfOk result (λ len. len ≡ length text.now) }
    ensures within { IfOk result (λ len. len ≤ length out.new) }
    ensures needed { IfErr result (λ error. error ≡ write_errors.NoRoom (length text.now)) }
    ensures full { OnErr result (length out.old < length text.now) }
    ensures unchanged { OnErr result (out.new ≡ out.old) }
    ensures size { length out.new ≡ length out.old }
{
    if out.len() < text.len() {
        return Err(WriteError::NoRoom(text.len()));
    }
    Ok(append(out, 0, text))
}

// Writes a text after the first `len` bytes. Returns the length of both.
#[inline(always)]
fn append(out: &mut [u8], len: usize, text: &str) -> usize
    requires room { len + length text.now ≤ length out.old }
    ensures text { take result out.new ≡ take len out.old ++ text.now }
    ensures utf8 { IsUtf8 (take len out.old) → IsUtf8 (take result out.new) }
    ensures len { result ≡ len + length text.now }
    ensures size { length out.new ≡ length out.old }
{
    let end = len + text.len();
    out[len..end].copy_from_slice(text.as_bytes());
    end
}

// Writes a slash after the first `len` bytes. Returns the length of both. `append` does the same with a call that copies,
// which is slower.
#[inline(always)]
fn append_slash(out: &mut [u8], len: usize) -> usize
    requires room { len < length out.old }
    ensures text { take result out.new ≡ take len out.old ++ slash ∷ [] }
    ensures utf8 { IsUtf8 (take len out.old) → IsUtf8 (take result out.new) }
    ensures len { result ≡ len + 1 }
    ensures size { length out.new ≡ length out.old }
{
    out[len] = b'/';
    len + 1
}

// Pushes a path that fits onto the text in the first `len` bytes. Returns the new length.
#[inline(always)]
fn push_within(out: &mut [u8], len: usize, path: &str) -> usize
    requires within { len ≤ length out.old }
    requires utf8 { IsUtf8 (take len out.old) }
    requires room { length (pushed (take len out.old) path.now) ≤ length out.old }
    ensures text { take result out.new ≡ pushed (take len out.old) path.now }
    ensures utf8 { IsUtf8 (take result out.new) }
    ensures within { result ≤ length out.new }
    ensures size { length out.new ≡ length out.old }
{
    let separated = if needs_separator(text_of(out, len)) {
        append_slash(out, len)
    } else {
        len
    };
    append(out, separated, strip_slash(path))
}

// Writes the normal text of a path that is no longer than `out`. Returns its length.
fn normalize_within(text: &str, out: &mut [u8]) -> usize
    requires room { length text.now ≤ length out.old }
    ensures normal_form { IsNormalTextOf (components text.now) (take result out.new) }
    ensures no_longer { result ≤ length text.now }
    ensures utf8 { IsUtf8 (take result out.new) }
    ensures size { length out.new ≡ length out.old }
{
    let mut len = 0;
    for component in Components::new(text) {
        len = follow(out, len, component);
    }
    len
}

// Adds one component to the normal text in the first `len` bytes and keeps the text normal. Returns the new length.
fn follow(out: &mut [u8], len: usize, component: Component<'_>) -> usize
    requires within { len ≤ length out.old }
    requires utf8 { IsUtf8 (take len out.old) }
    requires normal { IsNormalText (take len out.old) }
    requires alone { components (step_text (step_of component)) ≡ step_of component ∷ [] }
    requires fits { length (pushed (take len out.old) (step_text (step_of component))) ≤ length out.old }
    ensures normal { IsNormalText (take result out.new) }
    ensures same { IsSame (components (take len out.old) ++ step_of component.entry ∷ [])
        (components (take result out.new)) }
    ensures no_longer { (left : List Step) → length (spell (components (take result out.new) ++ left))
        ≤ length (spell (components (take len out.old) ++ step_of component.entry ∷ left)) }
    ensures utf8 { IsUtf8 (take result out.new) }
    ensures within { result ≤ length out.new }
    ensures size { length out.new ≡ length out.old }
{
    match component {
        Component::CurDir => len,
        Component::ParentDir if ends_in_name(out, len) => parent_of(text_of(out, len)).len(),
        Component::ParentDir => push_within(out, len, ".."),
        Component::Normal(name) => push_within(out, len, name),
    }
}

// Returns whether the last component of the text in the first `len` bytes is a name.
fn ends_in_name(out: &[u8], len: usize) -> bool
    requires within { len ≤ length out.now }
    requires utf8 { IsUtf8 (take len out.now) }
    ensures { IsTrue result
        ↔ ((cs : List Step) × (n : List ℕ) × (components (take len out.now) ≡ cs ++ name n ∷ [])) }
{
    let last = Components::new(text_of(out, len)).next_back();
    matches!(last, Some(Component::Normal(_)))
}
