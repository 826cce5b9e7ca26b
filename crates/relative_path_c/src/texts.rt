//! Calls that write a path into the caller's memory. Unless the call is done, the memory stays as it was; with 'no room'
//! `len` says how many bytes the path has.
ghost use Rattle.std.specs.Prelude.{◌≡◌, ◌≢◌, ◌≤◌, ◌+◌, ◌*◌, ◌↔◌, ◌++◌, Some, None, length, take};
ghost use Rattle.std.specs.Str.{IsUtf8};
ghost use Rattle.relative_path.specs.Editing.{pushed};
ghost use Rattle.relative_path.specs.Naming.{file_name_of, IsNamed, IsExtended};
ghost use Rattle.relative_path.specs.Normalizing.{IsNormalTextOf};
ghost use Rattle.relative_path.specs.Relating.{IsWayText, IsShortestText, IsReachable};
ghost use Rattle.relative_path.specs.Steps.{components};
ghost use Rattle.relative_path_c.specs.Memory.{KeepsRest, Writes, Needs};
ghost use Rattle.relative_path_c.specs.Status.{done, not_utf8, absent, no_room, out_of_memory};

use crate::memory::{nothing_written, write, write_path, written};
use crate::status::{ABSENT, NOT_UTF8, OUT_OF_MEMORY, Written, view};
use relative_path::bytes;
use std::alloc::Global;

/// Writes `text` followed by `path`.
#[tactic(auto, using(crate::proofs::MemoryLemmas::length_pushed_le))]
#[unsafe(no_mangle)]
pub extern "C" fn relative_path_join(
    alloc: Global,
    text: &[u8],
    path: &[u8],
    out: &mut [u8],
) -> Written
    // the first text, a slash if needed, the second without one leading slash
    ensures text { Writes result.status result.len out.new (λ joined. joined ≡ pushed text.now path.now) }
    // at `no_room`: the text's length, beyond the memory's
    ensures needs { Needs result.status result.len out.old (λ joined. joined ≡ pushed text.now path.now) }
    // never `no_room` with memory for both texts and one byte
    ensures suffices { length text.now + 1 + length path.now ≤ length out.old → result.status ≢ no_room }
    // exactly if a text isn't UTF-8
    ensures not_utf8 { (result.status ≡ not_utf8) ↔ (¬ (IsUtf8 text.now × IsUtf8 path.now)) }
    // the memory after a written text stays
    ensures rest { KeepsRest result.status result.len out.old out.new }
    // unless it is done, the call changes nothing
    ensures kept { result.status ≢ done → out.new ≡ out.old }
    // `done`, `not_utf8`, `no_room` or `out_of_memory`
    ensures status { (result.status ≤ out_of_memory) × (result.status ≢ absent) }
{
    let (Some(text), Some(path)) = (view(text), view(path)) else {
        return nothing_written(NOT_UTF8);
    };
    write_path(text.join(alloc, path), out)
}

/// Writes the only normal path that leads where `text` and then `path` lead.
#[tactic(auto, using(crate::proofs::LengthLemmas::length_join_normalized_le))]
#[unsafe(no_mangle)]
pub extern "C" fn relative_path_join_normalized(
    alloc: Global,
    text: &[u8],
    path: &[u8],
    out: &mut [u8],
) -> Written
    // the normal text of both paths in turn
    ensures normal_form { Writes result.status result.len out.new
        (IsNormalTextOf (components text.now ++ components path.now)) }
    // at `no_room`: the text's length, beyond the memory's
    ensures needs { Needs result.status result.len out.old
        (IsNormalTextOf (components text.now ++ components path.now)) }
    // never `no_room` with memory for both texts and one byte
    ensures suffices { length text.now + 1 + length path.now ≤ length out.old → result.status ≢ no_room }
    // exactly if a text isn't UTF-8
    ensures not_utf8 { (result.status ≡ not_utf8) ↔ (¬ (IsUtf8 text.now × IsUtf8 path.now)) }
    // the memory after a written text stays
    ensures rest { KeepsRest result.status result.len out.old out.new }
    // unless it is done, the call changes nothing
    ensures kept { result.status ≢ done → out.new ≡ out.old }
    // `done`, `not_utf8`, `no_room` or `out_of_memory`
    ensures status { (result.status ≤ out_of_memory) × (result.status ≢ absent) }
{
    let (Some(text), Some(path)) = (view(text), view(path)) else {
        return nothing_written(NOT_UTF8);
    };
    write_path(text.join_normalized(alloc, path), out)
}

/// Writes the only normal path that leads where `text` leads.
#[unsafe(no_mangle)]
pub extern "C" fn relative_path_normalize(alloc: Global, text: &[u8], out: &mut [u8]) -> Written
    // the path's normal text
    ensures normal_form { Writes result.status result.len out.new (IsNormalTextOf (components text.now)) }
    // at `no_room`: the text's length, beyond the memory's
    ensures needs { Needs result.status result.len out.old (IsNormalTextOf (components text.now)) }
    // done for a UTF-8 text that fits the memory
    ensures suffices { IsUtf8 text.now → length text.now ≤ length out.old → result.status ≡ done }
    // exactly if a text isn't UTF-8
    ensures not_utf8 { (result.status ≡ not_utf8) ↔ (¬ IsUtf8 text.now) }
    // unless it is done, the call changes nothing
    ensures kept { result.status ≢ done → out.new ≡ out.old }
    // `done`, `not_utf8`, `no_room` or `out_of_memory`
    ensures status { (result.status ≤ out_of_memory) × (result.status ≢ absent) }
{
    let Some(text) = view(text) else {
        return nothing_written(NOT_UTF8);
    };
    written(bytes::normalize(alloc, text, out))
}

/// Writes `text` with its file name replaced; without one, `file_name` is pushed onto `text`.
#[tactic(auto, using(crate::proofs::MemoryLemmas::length_named_le))]
#[unsafe(no_mangle)]
pub extern "C" fn relative_path_with_file_name(
    alloc: Global,
    text: &[u8],
    file_name: &[u8],
    out: &mut [u8],
) -> Written
    // the new name, pushed onto the path without its file name
    ensures text { Writes result.status result.len out.new (IsNamed text.now file_name.now) }
    // at `no_room`: the text's length, beyond the memory's
    ensures needs { Needs result.status result.len out.old (IsNamed text.now file_name.now) }
    // never `no_room` with memory for both texts and one byte
    ensures suffices { length text.now + 1 + length file_name.now ≤ length out.old
        → result.status ≢ no_room }
    // exactly if a text isn't UTF-8
    ensures not_utf8 { (result.status ≡ not_utf8) ↔ (¬ (IsUtf8 text.now × IsUtf8 file_name.now)) }
    // the memory after a written text stays
    ensures rest { KeepsRest result.status result.len out.old out.new }
    // unless it is done, the call changes nothing
    ensures kept { result.status ≢ done → out.new ≡ out.old }
    // `done`, `not_utf8`, `no_room` or `out_of_memory`
    ensures status { (result.status ≤ out_of_memory) × (result.status ≢ absent) }
{
    let (Some(text), Some(file_name)) = (view(text), view(file_name)) else {
        return nothing_written(NOT_UTF8);
    };
    write_path(text.with_file_name(alloc, file_name.as_str()), out)
}

/// Writes `text` with the extension of its file name replaced; without a file name, `text` as it is.
#[tactic(auto, using(crate::proofs::MemoryLemmas::length_extended_le))]
#[unsafe(no_mangle)]
pub extern "C" fn relative_path_with_extension(
    alloc: Global,
    text: &[u8],
    extension: &[u8],
    out: &mut [u8],
) -> Written
    // the text up to its stem's end, then the dotted extension, if any
    ensures text { Writes result.status result.len out.new (IsExtended text.now extension.now) }
    // at `no_room`: the text's length, beyond the memory's
    ensures needs { Needs result.status result.len out.old (IsExtended text.now extension.now) }
    // never `no_room` with memory for both texts and one byte
    ensures suffices { length text.now + 1 + length extension.now ≤ length out.old
        → result.status ≢ no_room }
    // exactly if a text isn't UTF-8
    ensures not_utf8 { (result.status ≡ not_utf8) ↔ (¬ (IsUtf8 text.now × IsUtf8 extension.now)) }
    // the memory after a written text stays
    ensures rest { KeepsRest result.status result.len out.old out.new }
    // unless it is done, the call changes nothing
    ensures kept { result.status ≢ done → out.new ≡ out.old }
    // `done`, `not_utf8`, `no_room` or `out_of_memory`
    ensures status { (result.status ≤ out_of_memory) × (result.status ≢ absent) }
{
    let (Some(text), Some(extension)) = (view(text), view(extension)) else {
        return nothing_written(NOT_UTF8);
    };
    write_path(text.with_extension(alloc, extension.as_str()), out)
}

// Returns the first `len` bytes of the memory, or all if there are fewer.
fn start_of(memory: &[u8], len: usize) -> &[u8]
    ensures text { result.now ≡ take len memory.now }
    ensures within { length result.now ≤ length memory.now }
    ensures prefix { take (length result.now) memory.now ≡ result.now }
{
    memory.get(..len).unwrap_or(memory)
}

/// Replaces the extension of the file name of a path, which is the first `len` bytes of the memory, or all of it if there
/// are fewer. The status is 'absent' if the path has no file name.
#[tactic(auto, using(crate::proofs::MemoryLemmas::length_extended_le))]
#[unsafe(no_mangle)]
pub extern "C" fn relative_path_set_extension(
    alloc: Global,
    memory: &mut [u8],
    len: usize,
    extension: &[u8],
) -> Written
    // the text up to its stem's end, then the dotted extension, if any
    ensures text { Writes result.status result.len memory.new
        (IsExtended (take len memory.old) extension.now) }
    // at `no_room`: the text's length, beyond the memory's
    ensures needs { Needs result.status result.len memory.old
        (IsExtended (take len memory.old) extension.now) }
    // done only if the path has a file name
    ensures named { result.status ≡ done → file_name_of (take len memory.old) ≢ None }
    // only if there is no file name
    ensures absent { result.status ≡ absent → file_name_of (take len memory.old) ≡ None }
    // never `no_room` with memory for both texts and one byte
    ensures suffices { length (take len memory.old) + 1 + length extension.now ≤ length memory.old
        → result.status ≢ no_room }
    // exactly if a text isn't UTF-8
    ensures not_utf8 { (result.status ≡ not_utf8)
        ↔ (¬ (IsUtf8 (take len memory.old) × IsUtf8 extension.now)) }
    // the memory after a written text stays
    ensures rest { KeepsRest result.status result.len memory.old memory.new }
    // unless it is done, the call changes nothing
    ensures kept { result.status ≢ done → memory.new ≡ memory.old }
    // `done`, `not_utf8`, `absent`, `no_room` or `out_of_memory`
    ensures status { result.status ≤ out_of_memory }
{
    let (Some(text), Some(extension)) = (view(start_of(memory, len)), view(extension)) else {
        return nothing_written(NOT_UTF8);
    };
    if text.file_name().is_none() {
        return nothing_written(ABSENT);
    }
    let extended = text.with_extension(alloc, extension.as_str());
    write_path(extended, memory)
}

/// Pushes a path onto another, which is the first `len` bytes of the memory, or all of it if there are fewer.
#[tactic(auto, using(crate::proofs::MemoryLemmas::length_pushed_le))]
#[unsafe(no_mangle)]
pub extern "C" fn relative_path_push(memory: &mut [u8], len: usize, path: &[u8]) -> Written
    // the first text, a slash if needed, the second without one leading slash
    ensures text { Writes result.status result.len memory.new
        (λ joined. joined ≡ pushed (take len memory.old) path.now) }
    // at `no_room`: the text's length, beyond the memory's
    ensures needs { Needs result.status result.len memory.old
        (λ joined. joined ≡ pushed (take len memory.old) path.now) }
    // never `no_room` with memory for both texts and one byte
    ensures suffices { length (take len memory.old) + 1 + length path.now ≤ length memory.old
        → result.status ≢ no_room }
    // exactly if a text isn't UTF-8
    ensures not_utf8 { (result.status ≡ not_utf8)
        ↔ (¬ (IsUtf8 (take len memory.old) × IsUtf8 path.now)) }
    // unless it is done, the call changes nothing
    ensures kept { result.status ≢ done → memory.new ≡ memory.old }
    // `done`, `not_utf8` or `no_room`
    ensures status { (result.status ≤ no_room) × (result.status ≢ absent) }
{
    let text = start_of(memory, len);
    let text_len = text.len();
    let (Some(_), Some(path)) = (view(text), view(path)) else {
        return nothing_written(NOT_UTF8);
    };
    written(bytes::push(memory, text_len, path))
}

/// Writes the shortest path from where `text` leads to where `to` leads, or the empty path if none leads there.
#[tactic(auto, using(crate::proofs::LengthLemmas::length_way_le))]
#[unsafe(no_mangle)]
pub extern "C" fn relative_path_relative(
    alloc: Global,
    text: &[u8],
    to: &[u8],
    out: &mut [u8],
) -> Written
    // the shortest path to the target, empty if none leads there
    ensures way { Writes result.status result.len out.new
        (IsWayText (components text.now) (components to.now)) }
    // at `no_room`: the text's length, beyond the memory's
    ensures needs { Needs result.status result.len out.old
        (IsWayText (components text.now) (components to.now)) }
    // never `no_room` with memory for twice the source, the target and one byte
    ensures suffices { 2 * length text.now + 1 + length to.now ≤ length out.old → result.status ≢ no_room }
    // exactly if a text isn't UTF-8
    ensures not_utf8 { (result.status ≡ not_utf8) ↔ (¬ (IsUtf8 text.now × IsUtf8 to.now)) }
    // the memory after a written text stays
    ensures rest { KeepsRest result.status result.len out.old out.new }
    // unless it is done, the call changes nothing
    ensures kept { result.status ≢ done → out.new ≡ out.old }
    // `done`, `not_utf8`, `no_room` or `out_of_memory`
    ensures status { (result.status ≤ out_of_memory) × (result.status ≢ absent) }
{
    let (Some(text), Some(to)) = (view(text), view(to)) else {
        return nothing_written(NOT_UTF8);
    };
    write_path(text.relative(alloc, to), out)
}

/// Writes the shortest path from where `text` leads to where `to` leads. The status is 'absent' if none leads there.
#[tactic(auto, using(crate::proofs::LengthLemmas::length_shortest_le))]
#[unsafe(no_mangle)]
pub extern "C" fn relative_path_try_relative(
    alloc: Global,
    text: &[u8],
    to: &[u8],
    out: &mut [u8],
) -> Written
    // the shortest path to the target
    ensures shortest { Writes result.status result.len out.new
        (IsShortestText (components text.now) (components to.now)) }
    // at `no_room`: the text's length, beyond the memory's
    ensures needs { Needs result.status result.len out.old
        (IsShortestText (components text.now) (components to.now)) }
    // never `no_room` with memory for twice the source, the target and one byte
    ensures suffices { 2 * length text.now + 1 + length to.now ≤ length out.old → result.status ≢ no_room }
    // only if no path leads to the target
    ensures absent { result.status ≡ absent → ¬ IsReachable (components text.now) (components to.now) }
    // exactly if a text isn't UTF-8
    ensures not_utf8 { (result.status ≡ not_utf8) ↔ (¬ (IsUtf8 text.now × IsUtf8 to.now)) }
    // the memory after a written text stays
    ensures rest { KeepsRest result.status result.len out.old out.new }
    // unless it is done, the call changes nothing
    ensures kept { result.status ≢ done → out.new ≡ out.old }
    // `done`, `not_utf8`, `absent`, `no_room` or `out_of_memory`
    ensures status { result.status ≤ out_of_memory }
{
    let (Some(text), Some(to)) = (view(text), view(to)) else {
        return nothing_written(NOT_UTF8);
    };
    match text.try_relative(alloc, to) {
        Ok(Some(way)) => write(way.as_relative_path().as_str(), out),
        Ok(None) => nothing_written(ABSENT),
        Err(_) => nothing_written(OUT_OF_MEMORY),
    }
}
