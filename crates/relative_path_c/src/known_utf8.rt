//! Calls for a caller that knows that its texts are UTF-8, as Rust's `str` is. They don't test it. The header doesn't
//! declare them.
ghost use Rattle.std.specs.Prelude.{◌≡◌, ◌≢◌, ◌≤◌, ◌↔◌, ◌⊎◌, [], Some, None, IsTrue, length, take};
ghost use Rattle.std.specs.Str.{IsUtf8};
ghost use Rattle.relative_path.specs.Editing.{pushed, IsPopped};
ghost use Rattle.relative_path.specs.Naming.{file_name_of};
ghost use Rattle.relative_path.specs.Normalizing.{IsNormalTextOf};
ghost use Rattle.relative_path.specs.RelativePath.{path_text};
ghost use Rattle.relative_path.specs.Steps.{components};
ghost use Rattle.relative_path_c.specs.Memory.{HandsOut, Writes, Needs};
ghost use Rattle.relative_path_c.specs.Status.{done, absent, no_room};

use crate::memory::{hand_out, written};
use crate::status::{ABSENT, Written};
use relative_path::{RelativePath, bytes};
use std::alloc::Global;

// Views bytes that are UTF-8 as a path.
fn view_known(text: &[u8]) -> RelativePath<'_>
    requires { IsUtf8 text.now }
    ensures { path_text result ≡ text.now }
{
    RelativePath::new(unsafe { std::str::from_utf8_unchecked(text) })
}

/// Hands out the parent, as `relative_path_parent` does.
#[unsafe(no_mangle)]
pub extern "C" fn relative_path_str_parent<'a>(text: &'a [u8], part: &mut &'a [u8]) -> u32
    requires { IsUtf8 text.now }
    // the shortest prefix with the directory's components
    ensures parent { HandsOut result part.new.now (IsPopped text.now) }
    // exactly if the text is empty
    ensures absent { (result ≡ absent) ↔ (text.now ≡ []) }
    // unless it is done, the call changes nothing
    ensures kept { result ≢ done → part.new ≡ part.old }
    // `done` or `absent`
    ensures status { (result ≡ done) ⊎ (result ≡ absent) }
{
    match view_known(text).parent() {
        Some(parent) => hand_out(Some(parent.as_str()), part),
        None => ABSENT,
    }
}

/// Hands out the file name, as `relative_path_file_name` does.
#[unsafe(no_mangle)]
pub extern "C" fn relative_path_str_file_name<'a>(text: &'a [u8], part: &mut &'a [u8]) -> u32
    requires { IsUtf8 text.now }
    // the path's file name
    ensures name { HandsOut result part.new.now (λ name. file_name_of text.now ≡ Some name) }
    // only if there is no file name
    ensures absent { result ≡ absent → file_name_of text.now ≡ None }
    // unless it is done, the call changes nothing
    ensures kept { result ≢ done → part.new ≡ part.old }
    // `done` or `absent`
    ensures status { (result ≡ done) ⊎ (result ≡ absent) }
{
    hand_out(view_known(text).file_name(), part)
}

/// Returns whether the two have the same components, as `relative_path_eq` does.
#[unsafe(no_mangle)]
pub extern "C" fn relative_path_str_eq(text: &[u8], other: &[u8]) -> bool
    // the first text has to be UTF-8
    requires text { IsUtf8 text.now }
    // the second text has to be UTF-8
    requires other { IsUtf8 other.now }
    ensures { IsTrue result ↔ (components text.now ≡ components other.now) }
{
    view_known(text) == view_known(other)
}

/// Writes the normal path, as `relative_path_normalize` does, into memory that is as long as the text, and returns its
/// length.
#[unsafe(no_mangle)]
pub extern "C" fn relative_path_str_normalize(alloc: Global, text: &[u8], out: &mut [u8]) -> usize
    // the text has to be UTF-8
    requires utf8 { IsUtf8 text.now }
    // the text has to fit the memory
    requires room { length text.now ≤ length out.old }
    // the path's normal text
    ensures normal_form { IsNormalTextOf (components text.now) (take result out.new) }
    // the new text is UTF-8
    ensures utf8 { IsUtf8 (take result out.new) }
    // the new text ends within the memory
    ensures within { result ≤ length out.new }
{
    bytes::normalize(alloc, view_known(text), out).unwrap()
}

/// Pushes a path onto the first `len` bytes of the memory, as `relative_path_push` does.
#[unsafe(no_mangle)]
pub extern "C" fn relative_path_str_push(memory: &mut [u8], len: usize, path: &[u8]) -> Written
    // the old text has to end within the memory
    requires within { len ≤ length memory.old }
    // the old text has to be UTF-8
    requires utf8 { IsUtf8 (take len memory.old) }
    // the path has to be UTF-8
    requires path { IsUtf8 path.now }
    // the first text, a slash if needed, the second without one leading slash
    ensures text { Writes result.status result.len memory.new
        (λ joined. joined ≡ pushed (take len memory.old) path.now) }
    // at `no_room`: the text's length, beyond the memory's
    ensures needs { Needs result.status result.len memory.old
        (λ joined. joined ≡ pushed (take len memory.old) path.now) }
    // unless it is done, the call changes nothing
    ensures kept { result.status ≢ done → memory.new ≡ memory.old }
    // `done` or `no_room`
    ensures status { (result.status ≡ done) ⊎ (result.status ≡ no_room) }
{
    written(bytes::push(memory, len, view_known(path)))
}
