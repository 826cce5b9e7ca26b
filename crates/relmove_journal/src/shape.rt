//! Whether work can be a run's: which paths it has, and how its lists fit together.
ghost use Rattle.std.specs.Prelude.{◌≡◌, ◌↔◌, ◌++◌, IfOk, IsTrue, length, map, string_bytes};
ghost use Rattle.std.specs.List.{list_all};
ghost use Rattle.relmove_journal.specs.Shape.{AreAscending, AreDifferent, GoesOnce, HaveSameOnce, IsOfRun, KeepsItsTexts, PlacesOrRemoves, RemovesAsManyTexts, has_paths_of_run, is_directory_name, is_directory_path, is_leftover, is_made_below, is_made_path, is_name, is_nameless, is_number, is_path, is_placing, is_staging, is_staging_name, is_written, leads_from_number, names, new_paths, old_paths, removed_paths, text_paths};

use crate::names::STAGING_NAME;
use crate::work::{Leftover, TextFile, Work};
use relmove_actions::{RESERVED, Rename};
use std::alloc::{AllocError, Global};

/// Whether work can be a run's.
///
/// Allocates lists of its paths.
pub fn is_of_run(alloc: Global, work: &Work) -> Result<bool, AllocError>
    // whether the work is one that a run can have
    ensures of_run { IfOk result (λ yes. IsTrue yes ↔ IsOfRun work.now) }
{
    Ok(
        have_paths_of_run(work)
            && places_or_removes(alloc, work)?
            && keeps_its_texts(alloc, work)?
            && removes_as_many_texts(work)
            && goes_once(alloc, work)?,
    )
}

// Whether each staging name is given once, and whatever has one is placed or removed, once.
fn places_or_removes(alloc: Global, work: &Work) -> Result<bool, AllocError>
    ensures { IfOk result (λ yes. IsTrue yes ↔ PlacesOrRemoves work.now) }
{
    let given = both(
        new_paths(alloc, &work.staged)?,
        text_paths(alloc, &work.texts)?,
    )?;
    let taken = both(
        old_paths(alloc, &work.placed)?,
        removed_paths(alloc, &work.cleaned)?,
    )?;
    have_same_once(given, taken)
}

// Whether no new text is removed.
fn keeps_its_texts(alloc: Global, work: &Work) -> Result<bool, AllocError>
    ensures { IfOk result (λ yes. IsTrue yes ↔ KeepsItsTexts work.now) }
{
    are_different(both(
        text_paths(alloc, &work.texts)?,
        removed_paths(alloc, &work.cleaned)?,
    )?)
}

// Whether as many texts are removed as new texts come.
fn removes_as_many_texts(work: &Work) -> bool
    ensures { IsTrue result ↔ RemovesAsManyTexts work.now }
{
    count_removed(&work.cleaned) == work.texts.len()
}

// Whether nothing gets two staging names, and no two things get one new path.
fn goes_once(alloc: Global, work: &Work) -> Result<bool, AllocError>
    ensures { IfOk result (λ yes. IsTrue yes ↔ GoesOnce work.now) }
{
    Ok(
        are_different(old_paths(alloc, &work.staged)?)?
            && are_different(new_paths(alloc, &work.placed)?)?,
    )
}

// Whether each path of work is one that a run has at its place.
fn have_paths_of_run(work: &Work) -> bool
    ensures { result ≡ has_paths_of_run work.now }
{
    are_written(&work.texts)
        && are_staged(&work.staged)
        && are_made(&work.made)
        && are_placed(&work.placed)
        && are_cleaned(&work.cleaned)
}

// Whether all texts have staging names.
fn are_written(texts: &[TextFile]) -> bool
    ensures { result ≡ list_all is_written texts.now }
{
    texts.iter().all(|text| is_staging_name(text.path.as_str()))
}

// Whether all renames give staging names.
fn are_staged(renames: &[Rename]) -> bool
    ensures { result ≡ list_all is_staging renames.now }
{
    renames.iter().all(is_staged)
}

// Whether a run can make directories at all paths.
fn are_made(paths: &[String]) -> bool
    ensures { result ≡ list_all (λ path. is_made_path (string_bytes path)) paths.now }
{
    paths.iter().all(|path| is_made_path(path.as_str()))
}

// Whether all renames take something from a staging name.
fn are_placed(renames: &[Rename]) -> bool
    ensures { result ≡ list_all is_placing renames.now }
{
    renames.iter().all(is_placed)
}

// Whether a run removes all of these at its end.
fn are_cleaned(leftovers: &[Leftover]) -> bool
    ensures { result ≡ list_all is_leftover leftovers.now }
{
    leftovers.iter().all(is_cleaned)
}

// Whether a rename gives a staging name to what moves, or to a page.
fn is_staged(rename: &Rename) -> bool
    ensures { result ≡ is_staging rename.now }
{
    is_path(rename.from.as_str()) && is_staging_name(rename.to.as_str())
}

// Whether a rename takes something from a staging name to a path.
fn is_placed(rename: &Rename) -> bool
    ensures { result ≡ is_placing rename.now }
{
    is_staging_name(rename.from.as_str()) && is_path(rename.to.as_str())
}

// Whether a run removes this at its end.
fn is_cleaned(leftover: &Leftover) -> bool
    ensures { result ≡ is_leftover leftover.now }
{
    match leftover {
        Leftover::Text(file) => is_staging_name(file.path.as_str()),
        Leftover::Directory(path) => is_directory_path(path.as_str()),
    }
}

// Whether a path leads to a name from the root, through directories that are read.
fn is_path(path: &str) -> bool
    ensures { result ≡ is_path path.now }
{
    match path.rsplit_once('/') {
        Some((directory, name)) => is_directory_path(directory) && is_name(name),
        None => is_name(path),
    }
}

// Whether a path leads from the root to a directory that is read.
fn is_directory_path(path: &str) -> bool
    ensures { result ≡ is_directory_path path.now }
{
    path.split('/').all(is_directory_name)
}

// Whether a run can make a directory at a path: at a path from the root, or below a staging name.
fn is_made_path(path: &str) -> bool
    ensures { result ≡ is_made_path path.now }
{
    is_directory_path(path) || is_made_below(path)
}

// Whether a path leads from a staging name through directories that are read.
fn is_made_below(path: &str) -> bool
    ensures { result ≡ is_made_below path.now }
{
    match path.strip_prefix(STAGING_NAME) {
        Some(rest) => leads_from_number(rest),
        None => false,
    }
}

// Whether a path leads from a number through directories that are read.
fn leads_from_number(path: &str) -> bool
    ensures { result ≡ leads_from_number (names path.now) }
{
    match path.split_once('/') {
        Some((number, rest)) => is_number(number) && is_directory_path(rest),
        None => false,
    }
}

// Whether a part of a path is a name, and none of a run's own.
fn is_name(part: &str) -> bool
    ensures { result ≡ is_name part.now }
{
    !is_nameless(part) && !part.starts_with(RESERVED) && !part.contains('\0')
}

// Whether a part of a path is no name: the part is empty, `.` or `..`.
fn is_nameless(part: &str) -> bool
    ensures { result ≡ is_nameless part.now }
{
    part == "" || part == "." || part == ".."
}

// Whether a part of a path is the name of a directory that is read.
fn is_directory_name(part: &str) -> bool
    ensures { result ≡ is_directory_name part.now }
{
    is_name(part) && (!part.starts_with('.') || part == ".github")
}

// Whether a path is a staging name: a number in the run's own directory.
fn is_staging_name(path: &str) -> bool
    ensures { result ≡ is_staging_name path.now }
{
    match path.strip_prefix(STAGING_NAME) {
        Some(number) => is_number(number),
        None => false,
    }
}

// Whether a text is a number.
fn is_number(text: &str) -> bool
    ensures { result ≡ is_number text.now }
{
    !text.is_empty() && text.bytes().all(|digit| digit.is_ascii_digit())
}

// The paths of texts.
fn text_paths<'a>(alloc: Global, texts: &'a [TextFile]) -> Result<Vec<&'a str>, AllocError>
    ensures { IfOk result (λ paths. map (λ path. path.now) paths.items ≡ text_paths texts.now) }
{
    let mut paths = Vec::with_capacity(alloc, texts.len())?;
    for text in texts {
        paths.push(text.path.as_str())?;
    }
    Ok(paths)
}

// The new paths of renames.
fn new_paths<'a>(alloc: Global, renames: &'a [Rename]) -> Result<Vec<&'a str>, AllocError>
    ensures { IfOk result (λ paths. map (λ path. path.now) paths.items ≡ new_paths renames.now) }
{
    let mut paths = Vec::with_capacity(alloc, renames.len())?;
    for rename in renames {
        paths.push(rename.to.as_str())?;
    }
    Ok(paths)
}

// The old paths of renames.
fn old_paths<'a>(alloc: Global, renames: &'a [Rename]) -> Result<Vec<&'a str>, AllocError>
    ensures { IfOk result (λ paths. map (λ path. path.now) paths.items ≡ old_paths renames.now) }
{
    let mut paths = Vec::with_capacity(alloc, renames.len())?;
    for rename in renames {
        paths.push(rename.from.as_str())?;
    }
    Ok(paths)
}

// The paths of the texts among what is removed.
fn removed_paths<'a>(alloc: Global, leftovers: &'a [Leftover]) -> Result<Vec<&'a str>, AllocError>
    ensures { IfOk result (λ paths. map (λ path. path.now) paths.items ≡ removed_paths leftovers.now) }
{
    let mut paths = Vec::new(alloc);
    for leftover in leftovers {
        match leftover {
            Leftover::Text(file) => paths.push(file.path.as_str())?,
            Leftover::Directory(_) => {}
        }
    }
    Ok(paths)
}

// How many texts are among what is removed.
fn count_removed(leftovers: &[Leftover]) -> usize
    ensures { result ≡ length (removed_paths leftovers.now) }
{
    let mut count = 0;
    for leftover in leftovers {
        match leftover {
            Leftover::Text(_) => count += 1,
            Leftover::Directory(_) => {}
        }
    }
    count
}

// The paths of one list, and those of another after them.
fn both<'a>(mut paths: Vec<&'a str>, mut others: Vec<&'a str>) -> Result<Vec<&'a str>, AllocError>
    ensures { IfOk result (λ all. map (λ path. path.now) all.items
        ≡ map (λ path. path.now) paths.entry.items ++ map (λ path. path.now) others.entry.items) }
{
    paths.append(&mut others)?;
    Ok(paths)
}

// Whether two lists have the same paths, each once.
fn have_same_once(mut paths: Vec<&str>, mut others: Vec<&str>) -> Result<bool, AllocError>
    ensures { IfOk result (λ same. IsTrue same
        ↔ HaveSameOnce (map (λ path. path.now) paths.entry.items) (map (λ path. path.now) others.entry.items)) }
{
    paths.sort()?;
    others.sort()?;
    Ok(paths == others && are_ascending(&paths))
}

// Whether no two paths are equal.
fn are_different(mut paths: Vec<&str>) -> Result<bool, AllocError>
    ensures { IfOk result (λ yes. IsTrue yes ↔ AreDifferent (map (λ path. path.now) paths.entry.items)) }
{
    paths.sort()?;
    Ok(are_ascending(&paths))
}

// Whether each path comes before the next one.
fn are_ascending(paths: &[&str]) -> bool
    ensures { IsTrue result ↔ AreAscending (map (λ path. path.now) paths.now) }
{
    paths.is_sorted_by(|one, next| *one < *next)
}
