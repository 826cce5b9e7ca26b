//! Calls that hand out a part of a path. Unless the call is done, `part` stays as it was.
ghost use Rattle.std.specs.Prelude.{◌≡◌, ◌≢◌, ◌≤◌, ◌↔◌, [], Some, None, length};
ghost use Rattle.std.specs.Option.{option_map, option_and_then};
ghost use Rattle.std.specs.Str.{IsUtf8};
ghost use Rattle.relative_path.specs.Editing.{IsPopped};
ghost use Rattle.relative_path.specs.Naming.{file_name_of, stem_of, extension_of};
ghost use Rattle.relative_path.specs.Prefixing.{StartsWith, IsDropped};
ghost use Rattle.relative_path.specs.Steps.{components};
ghost use Rattle.relative_path_c.specs.Memory.{HandsOut};
ghost use Rattle.relative_path_c.specs.Status.{done, not_utf8, absent};

use crate::memory::hand_out;
use crate::status::{ABSENT, NOT_UTF8, view};

/// Hands out the parent of `text`. The status is 'absent' if `text` is empty.
#[unsafe(no_mangle)]
pub extern "C" fn relative_path_parent<'a>(text: &'a [u8], part: &mut &'a [u8]) -> u32
    // the shortest prefix with the directory's components
    ensures parent { HandsOut result part.new.now (IsPopped text.now) }
    // exactly if the text is empty
    ensures absent { (result ≡ absent) ↔ (text.now ≡ []) }
    // exactly if a text isn't UTF-8
    ensures not_utf8 { (result ≡ not_utf8) ↔ (¬ IsUtf8 text.now) }
    // unless it is done, the call changes nothing
    ensures kept { result ≢ done → part.new ≡ part.old }
    // `done`, `not_utf8` or `absent`
    ensures status { result ≤ absent }
{
    let Some(text) = view(text) else {
        return NOT_UTF8;
    };
    match text.parent() {
        Some(parent) => hand_out(Some(parent.as_str()), part),
        None => ABSENT,
    }
}

/// Hands out the file name of `text`. The status is 'absent' if it has none.
#[unsafe(no_mangle)]
pub extern "C" fn relative_path_file_name<'a>(text: &'a [u8], part: &mut &'a [u8]) -> u32
    // the path's file name
    ensures name { HandsOut result part.new.now (λ name. file_name_of text.now ≡ Some name) }
    // only if there is no file name
    ensures absent { result ≡ absent → file_name_of text.now ≡ None }
    // exactly if a text isn't UTF-8
    ensures not_utf8 { (result ≡ not_utf8) ↔ (¬ IsUtf8 text.now) }
    // unless it is done, the call changes nothing
    ensures kept { result ≢ done → part.new ≡ part.old }
    // `done`, `not_utf8` or `absent`
    ensures status { result ≤ absent }
{
    let Some(text) = view(text) else {
        return NOT_UTF8;
    };
    hand_out(text.file_name(), part)
}

/// Hands out the stem of the file name of `text`. The status is 'absent' if `text` has no file name.
#[unsafe(no_mangle)]
pub extern "C" fn relative_path_file_stem<'a>(text: &'a [u8], part: &mut &'a [u8]) -> u32
    // the file name's stem
    ensures stem { HandsOut result part.new.now
        (λ stem. option_map stem_of (file_name_of text.now) ≡ Some stem) }
    // only if there is no file name
    ensures absent { result ≡ absent → option_map stem_of (file_name_of text.now) ≡ None }
    // exactly if a text isn't UTF-8
    ensures not_utf8 { (result ≡ not_utf8) ↔ (¬ IsUtf8 text.now) }
    // unless it is done, the call changes nothing
    ensures kept { result ≢ done → part.new ≡ part.old }
    // `done`, `not_utf8` or `absent`
    ensures status { result ≤ absent }
{
    let Some(text) = view(text) else {
        return NOT_UTF8;
    };
    hand_out(text.file_stem(), part)
}

/// Hands out the extension of the file name of `text`. The status is 'absent' if it has none.
#[unsafe(no_mangle)]
pub extern "C" fn relative_path_extension<'a>(text: &'a [u8], part: &mut &'a [u8]) -> u32
    // the file name's extension
    ensures extension { HandsOut result part.new.now
        (λ extension. option_and_then extension_of (file_name_of text.now) ≡ Some extension) }
    // only if there is no extension
    ensures absent { result ≡ absent → option_and_then extension_of (file_name_of text.now) ≡ None }
    // exactly if a text isn't UTF-8
    ensures not_utf8 { (result ≡ not_utf8) ↔ (¬ IsUtf8 text.now) }
    // unless it is done, the call changes nothing
    ensures kept { result ≢ done → part.new ≡ part.old }
    // `done`, `not_utf8` or `absent`
    ensures status { result ≤ absent }
{
    let Some(text) = view(text) else {
        return NOT_UTF8;
    };
    hand_out(text.extension(), part)
}

/// Hands out what follows the components of `base` in `text`. The status is 'absent' if `text` doesn't start with `base`.
#[unsafe(no_mangle)]
pub extern "C" fn relative_path_strip_prefix<'a>(
    text: &'a [u8],
    base: &[u8],
    part: &mut &'a [u8],
) -> u32
    // what follows the base's components and their slashes
    ensures rest { HandsOut result part.new.now (IsDropped text.now (length (components base.now))) }
    // done only if the path starts with the base
    ensures found { result ≡ done → StartsWith (components text.now) (components base.now) }
    // only if the path doesn't start with the base
    ensures absent { result ≡ absent → ¬ StartsWith (components text.now) (components base.now) }
    // exactly if a text isn't UTF-8
    ensures not_utf8 { (result ≡ not_utf8) ↔ (¬ (IsUtf8 text.now × IsUtf8 base.now)) }
    // unless it is done, the call changes nothing
    ensures kept { result ≢ done → part.new ≡ part.old }
    // `done`, `not_utf8` or `absent`
    ensures status { result ≤ absent }
{
    let (Some(text), Some(base)) = (view(text), view(base)) else {
        return NOT_UTF8;
    };
    match text.strip_prefix(base) {
        Ok(rest) => hand_out(Some(rest.as_str()), part),
        Err(_) => ABSENT,
    }
}
