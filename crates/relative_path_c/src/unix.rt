//! Calls on platform paths under the Unix rules: the module `unix` of `relative_path`.
ghost use Rattle.std.specs.Prelude.{◌≡◌, ◌≢◌, ◌≤◌, ◌+◌, ◌*◌, ◌⊎◌, ◌↔◌, IsTrue, List, Some, None, length};
ghost use Rattle.std.specs.Str.{IsUtf8};
ghost use Rattle.relative_path.specs.Editing.{without_cur_dirs};
ghost use Rattle.relative_path.specs.Steps.{Step, components, spell};
ghost use Rattle.relative_path.specs.Unix.{has_root, onto, unix_components, way_to, IsAbove, IsLogical};
ghost use Rattle.relative_path_c.specs.Memory.{HandsOut, KeepsRest, Writes, Needs};
ghost use Rattle.relative_path_c.specs.Status.{done, not_utf8, absent, no_room, out_of_memory, non_relative, prefix_mismatch, ambiguous_traversal};

use crate::memory::{hand_out, nothing_written, write, write_string};
use crate::status::{
    AMBIGUOUS_TRAVERSAL, DONE, NON_RELATIVE, NOT_UTF8, OUT_OF_MEMORY, PREFIX_MISMATCH, Written,
    view,
};
use relative_path::{FromPathErrorKind, RelativeToErrorKind, unix};
use std::alloc::Global;

/// Hands out the shortest prefix of `text` that has the same root and all its components but the last.
#[unsafe(no_mangle)]
pub extern "C" fn relative_path_unix_parent_text<'a>(text: &'a [u8], part: &mut &'a [u8]) -> u32
    // the shortest prefix without the last component; the text if it has none
    ensures above { HandsOut result part.new.now (IsAbove text.now) }
    // exactly if a text isn't UTF-8
    ensures not_utf8 { (result ≡ not_utf8) ↔ (¬ IsUtf8 text.now) }
    // unless it is done, the call changes nothing
    ensures kept { result ≢ done → part.new ≡ part.old }
    // `done` or `not_utf8`
    ensures status { result ≤ not_utf8 }
{
    let Some(path) = view(text) else {
        return NOT_UTF8;
    };
    // The parent of `/a` is a constant, so the part is cut out of the caller's text.
    let parent = unix::parent_text(path.as_str());
    *part = &text[..parent.len()];
    DONE
}

/// Hands out `text` whole, as a relative path. The status is 'non-relative' if it begins with a slash.
#[unsafe(no_mangle)]
pub extern "C" fn relative_path_unix_view<'a>(text: &'a [u8], part: &mut &'a [u8]) -> u32
    // the whole text
    ensures text { HandsOut result part.new.now (λ view. view ≡ text.now) }
    // exactly for UTF-8 with a leading slash
    ensures non_relative { (result ≡ non_relative) ↔ (IsUtf8 text.now × IsTrue (has_root text.now)) }
    // exactly if a text isn't UTF-8
    ensures not_utf8 { (result ≡ not_utf8) ↔ (¬ IsUtf8 text.now) }
    // unless it is done, the call changes nothing
    ensures kept { result ≢ done → part.new ≡ part.old }
    // `done`, `not_utf8` or `non_relative`
    ensures status { (result ≤ not_utf8) ⊎ (result ≡ non_relative) }
{
    let Some(text) = view(text) else {
        return NOT_UTF8;
    };
    match unix::view(text.as_str()) {
        Ok(view) => hand_out(Some(view.as_str()), part),
        Err(_) => NON_RELATIVE,
    }
}

/// Writes the components of `text`, without any `.`, joined by single slashes. The status is 'non-relative' if `text`
/// begins with a slash.
#[tactic(auto, using(crate::proofs::LengthLemmas::length_from_path_le))]
#[unsafe(no_mangle)]
pub extern "C" fn relative_path_unix_from_path(
    alloc: Global,
    text: &[u8],
    out: &mut [u8],
) -> Written
    // the components but `.`, joined by single slashes
    ensures text { Writes result.status result.len out.new
        (λ path. path ≡ spell (without_cur_dirs (unix_components text.now))) }
    // at `no_room`: the text's length, beyond the memory's
    ensures needs { Needs result.status result.len out.old
        (λ path. path ≡ spell (without_cur_dirs (unix_components text.now))) }
    // never `no_room` with memory for the text
    ensures suffices { length text.now ≤ length out.old → result.status ≢ no_room }
    // exactly for UTF-8 with a leading slash
    ensures non_relative { (result.status ≡ non_relative)
        ↔ (IsUtf8 text.now × IsTrue (has_root text.now)) }
    // exactly if a text isn't UTF-8
    ensures not_utf8 { (result.status ≡ not_utf8) ↔ (¬ IsUtf8 text.now) }
    // the memory after a written text stays
    ensures rest { KeepsRest result.status result.len out.old out.new }
    // unless it is done, the call changes nothing
    ensures kept { result.status ≢ done → out.new ≡ out.old }
    // `done`, `not_utf8`, `no_room`, `out_of_memory` or `non_relative`
    ensures status { (result.status ≤ non_relative) × (result.status ≢ absent) }
{
    let Some(text) = view(text) else {
        return nothing_written(NOT_UTF8);
    };
    match unix::from_path(alloc, text.as_str()) {
        Ok(path) => write(path.as_relative_path().as_str(), out),
        Err(error) => match error.kind() {
            FromPathErrorKind::NonRelative => nothing_written(NON_RELATIVE),
            FromPathErrorKind::OutOfMemory => nothing_written(OUT_OF_MEMORY),
            FromPathErrorKind::NonUtf8 => unreachable!(),
            FromPathErrorKind::BadSeparator => unreachable!(),
        },
    }
}

/// Writes `base` followed by the text of each component of `text`.
#[tactic(auto, using(crate::proofs::LengthLemmas::length_onto_le))]
#[unsafe(no_mangle)]
pub extern "C" fn relative_path_unix_to_path(
    alloc: Global,
    text: &[u8],
    base: &[u8],
    out: &mut [u8],
) -> Written
    // the base, if any, and each component, joined by slashes
    ensures path { Writes result.status result.len out.new
        (λ path. path ≡ onto base.now (components text.now)) }
    // at `no_room`: the text's length, beyond the memory's
    ensures needs { Needs result.status result.len out.old
        (λ path. path ≡ onto base.now (components text.now)) }
    // never `no_room` with memory for both texts and one byte
    ensures suffices { length base.now + 1 + length text.now ≤ length out.old → result.status ≢ no_room }
    // exactly if a text isn't UTF-8
    ensures not_utf8 { (result.status ≡ not_utf8) ↔ (¬ (IsUtf8 text.now × IsUtf8 base.now)) }
    // the memory after a written text stays
    ensures rest { KeepsRest result.status result.len out.old out.new }
    // unless it is done, the call changes nothing
    ensures kept { result.status ≢ done → out.new ≡ out.old }
    // `done`, `not_utf8`, `no_room` or `out_of_memory`
    ensures status { (result.status ≤ out_of_memory) × (result.status ≢ absent) }
{
    let (Some(text), Some(base)) = (view(text), view(base)) else {
        return nothing_written(NOT_UTF8);
    };
    write_string(unix::to_path(alloc, text, base.as_str()), out)
}

/// Writes the platform path where `text` leads from `base`.
#[tactic(auto, using(crate::proofs::LengthLemmas::length_logical_le))]
#[unsafe(no_mangle)]
pub extern "C" fn relative_path_unix_to_logical_path(
    alloc: Global,
    text: &[u8],
    base: &[u8],
    out: &mut [u8],
) -> Written
    // the base, where each `..` goes up and each name is added
    ensures path { Writes result.status result.len out.new (IsLogical base.now (components text.now)) }
    // at `no_room`: the text's length, beyond the memory's
    ensures needs { Needs result.status result.len out.old (IsLogical base.now (components text.now)) }
    // never `no_room` with memory for both texts and one byte
    ensures suffices { length base.now + 1 + length text.now ≤ length out.old → result.status ≢ no_room }
    // exactly if a text isn't UTF-8
    ensures not_utf8 { (result.status ≡ not_utf8) ↔ (¬ (IsUtf8 text.now × IsUtf8 base.now)) }
    // the memory after a written text stays
    ensures rest { KeepsRest result.status result.len out.old out.new }
    // unless it is done, the call changes nothing
    ensures kept { result.status ≢ done → out.new ≡ out.old }
    // `done`, `not_utf8`, `no_room` or `out_of_memory`
    ensures status { (result.status ≤ out_of_memory) × (result.status ≢ absent) }
{
    let (Some(text), Some(base)) = (view(text), view(base)) else {
        return nothing_written(NOT_UTF8);
    };
    write_string(unix::to_logical_path(alloc, text, base.as_str()), out)
}

/// Writes the relative path from `root` to `text`. The status is 'prefix mismatch' if only one of the two begins with a
/// slash, and 'ambiguous traversal' if the rest of `root` climbs above what both begin with.
#[tactic(auto, using(crate::proofs::LengthLemmas::length_way_to_le))]
#[unsafe(no_mangle)]
pub extern "C" fn relative_path_unix_relative_to(
    alloc: Global,
    text: &[u8],
    root: &[u8],
    out: &mut [u8],
) -> Written
    // as many `..` as the root's rest goes down, then the path's rest
    ensures way { Writes result.status result.len out.new
        (λ path. (way : List Step) × (way_to text.now root.now ≡ Some way) × (path ≡ spell way)) }
    // at `no_room`: the text's length, beyond the memory's
    ensures needs { Needs result.status result.len out.old
        (λ path. (way : List Step) × (way_to text.now root.now ≡ Some way) × (path ≡ spell way)) }
    // never `no_room` with memory for twice the source, the target and one byte
    ensures suffices { 2 * length root.now + 1 + length text.now ≤ length out.old → result.status ≢ no_room }
    // only if just one has a root
    ensures prefix_mismatch { result.status ≡ prefix_mismatch → has_root text.now ≢ has_root root.now }
    // only if otherwise the root's rest climbs
    ensures ambiguous_traversal { result.status ≡ ambiguous_traversal
        → (has_root text.now ≡ has_root root.now) × (way_to text.now root.now ≡ None) }
    // exactly if a text isn't UTF-8
    ensures not_utf8 { (result.status ≡ not_utf8) ↔ (¬ (IsUtf8 text.now × IsUtf8 root.now)) }
    // the memory after a written text stays
    ensures rest { KeepsRest result.status result.len out.old out.new }
    // unless it is done, the call changes nothing
    ensures kept { result.status ≢ done → out.new ≡ out.old }
    // any but `absent` and `non_relative`
    ensures status { (result.status ≤ ambiguous_traversal) × (result.status ≢ absent)
        × (result.status ≢ non_relative) }
{
    let (Some(text), Some(root)) = (view(text), view(root)) else {
        return nothing_written(NOT_UTF8);
    };
    match unix::relative_to(alloc, text.as_str(), root.as_str()) {
        Ok(way) => write(way.as_relative_path().as_str(), out),
        Err(error) => match error.kind() {
            RelativeToErrorKind::PrefixMismatch => nothing_written(PREFIX_MISMATCH),
            RelativeToErrorKind::AmbiguousTraversal => nothing_written(AMBIGUOUS_TRAVERSAL),
            RelativeToErrorKind::OutOfMemory => nothing_written(OUT_OF_MEMORY),
            RelativeToErrorKind::NonUtf8 => unreachable!(),
            RelativeToErrorKind::IllegalComponent => unreachable!(),
        },
    }
}
