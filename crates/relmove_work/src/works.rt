//! The work that a run has of a plan's actions.
ghost use Rattle.std.specs.Prelude.{◌≡◌, ◌++◌, ℕ, List, IfOk, IfSome, IsNone, MatchOption, OnOk, map, string_bytes};
ghost use Rattle.std.specs.List.{AllZip};
ghost use Rattle.relmove_journal.specs.declared.work.Leftover.TheVariants.{Directory};
ghost use Rattle.relmove_work.specs.Pages.{HasFiles, HasOldPaths, IsLeftText, IsOldTextAt, LacksLeftText, LacksTextAt, page_texts};
ghost use Rattle.relmove_work.specs.StagingPaths.{staging_path as path_of_label};
ghost use Rattle.relmove_work.specs.Works.{
  IsAtStagingName,
  IsPlacedAs,
  IsStagedAs,
  IsWorkOf,
  IsWrittenAt,
  LacksOldText,
  new_text,
  plan_texts,
  rename_text,
  thing_renames,
};

use crate::staging_names::{is_of_text, staging_path, text_path};
use relmove_actions::{Actions, NewText, Rename};
use relmove_journal::{Leftover, TextDigest, TextFile, Work};
use std::alloc::{AllocError, Global};
use std::collections::BTreeMap;

/// The work that a run has of a plan's actions, and the new texts, each with its staging name as its file. `pages` has the text
/// of each page that gets a new one. Returns `None` if the old text of a page is removed that isn't among them.
///
/// Allocates the lists of the work and the paths with staging names in them, and on the way two maps of the renames. Fails only
/// if an allocation fails.
///
/// ```
/// let path = |path: &str| String::from_str(alloc, path);
/// let actions = Actions {
///     texts: Vec::new(alloc),
///     staged: vec![in alloc; Rename { from: path("a")?, to: path(".relmove-1")? }]?,
///     made: Vec::new(alloc),
///     placed: vec![in alloc; Rename { from: path(".relmove-1")?, to: path("b")? }]?,
///     removed: Vec::new(alloc),
///     emptied: Vec::new(alloc),
/// };
/// let made = work_of(alloc, actions, &BTreeMap::new(alloc))?;
/// assert_eq!(rt; made.unwrap().1.placed[0].from.as_str(), ".relmove-run/1");
/// ```
pub fn work_of(
    alloc: Global,
    actions: Actions,
    pages: &BTreeMap<&str, &str>,
) -> Result<Option<(Vec<NewText>, Work)>, AllocError>
    // the work is that of the plan's actions, where pages have these texts
    ensures work { IfOk result (λ of. IfSome of (λ made. IsWorkOf (plan_texts actions) (page_texts pages.now) made.1)) }
    // there is none only if what is removed at some label is no page with a text
    ensures lacks { IfOk result (λ of. IsNone of → LacksOldText (plan_texts actions) (page_texts pages.now)) }
    // each new text has its staging name as its file
    ensures texts { IfOk result (λ of. IfSome of (λ made. AllZip IsAtStagingName actions.texts.items made.0.items)) }
{
    let Actions {
        texts,
        staged,
        made,
        placed,
        removed,
        emptied,
    } = actions;
    let files = text_files_of(alloc, &texts)?;
    let texts = texts_at_staging_names(alloc, texts)?;
    let made = paths(alloc, &made)?;
    let placed = renames_from_staging_names(alloc, placed, &staged)?;
    let staged = renames_to_staging_names(alloc, staged)?;
    let Some(mut cleaned) = old_texts_of(alloc, &removed, &staged, pages)? else {
        return Ok(None);
    };
    push_directories(&mut cleaned, emptied)?;
    let work = Work {
        texts: files,
        staged,
        made,
        placed,
        cleaned,
    };
    Ok(Some((texts, work)))
}

// The files of new texts.
fn text_files_of(alloc: Global, texts: &[NewText]) -> Result<Vec<TextFile>, AllocError>
    ensures { IfOk result (λ files. AllZip IsWrittenAt (map new_text texts.now) files.items) }
{
    let mut files = Vec::with_capacity(alloc, texts.len())?;
    for text in texts {
        files.push(TextFile {
            path: text_path(alloc, text.file.as_str())?,
            digest: TextDigest::of(text.text.as_bytes()),
        })?;
    }
    Ok(files)
}

// New texts at their staging names.
fn texts_at_staging_names(
    alloc: Global,
    mut texts: Vec<NewText>,
) -> Result<Vec<NewText>, AllocError>
    ensures { IfOk result (λ placed. AllZip IsAtStagingName texts.items placed.items) }
{
    for text in texts.iter_mut() {
        text.file = text_path(alloc, text.file.as_str())?;
    }
    Ok(texts)
}

// The paths that a run has for those of a plan.
fn paths(alloc: Global, labels: &[String]) -> Result<Vec<String>, AllocError>
    ensures { IfOk result (λ paths. AllZip (λ label path. string_bytes path ≡ path_of_label label)
        (map string_bytes labels.now) paths.items) }
{
    let mut paths = Vec::with_capacity(alloc, labels.len())?;
    for label in labels {
        paths.push(staging_path(alloc, label.as_str())?)?;
    }
    Ok(paths)
}

// What gives things their staging names, without the new texts.
fn renames_to_staging_names(alloc: Global, staged: Vec<Rename>) -> Result<Vec<Rename>, AllocError>
    ensures { IfOk result (λ renames. AllZip IsStagedAs (thing_renames (map rename_text staged.items)) renames.items) }
{
    let mut renames = Vec::with_capacity(alloc, staged.len())?;
    for rename in staged {
        if !is_of_text(&rename) {
            let Rename { from, to } = rename;
            renames.push(Rename {
                from,
                to: staging_path(alloc, to.as_str())?,
            })?;
        }
    }
    Ok(renames)
}

// What takes things from their staging names to their new paths. A new text has the one at which it is written.
fn renames_from_staging_names(
    alloc: Global,
    placed: Vec<Rename>,
    staged: &[Rename],
) -> Result<Vec<Rename>, AllocError>
    ensures { IfOk result (λ renames. AllZip (IsPlacedAs (map rename_text staged.now)) (map rename_text placed.items)
        renames.items) }
{
    let files = files_of(alloc, staged)?;
    let mut renames = Vec::with_capacity(alloc, placed.len())?;
    for Rename { from, to } in placed {
        let from = match files.get(from.as_str()) {
            Some(file) => text_path(alloc, file)?,
            None => staging_path(alloc, from.as_str())?,
        };
        renames.push(Rename { from, to })?;
    }
    Ok(renames)
}

// The files of new texts, by the labels that a plan gives them.
fn files_of(alloc: Global, staged: &[Rename]) -> Result<BTreeMap<&str, &str>, AllocError>
    ensures { IfOk result (HasFiles (map rename_text staged.now)) }
{
    let mut files = BTreeMap::new(alloc);
    for rename in staged {
        if is_of_text(rename) {
            files.insert(rename.to.as_str(), rename.from.as_str())?;
        }
    }
    Ok(files)
}

// The old texts of pages that change, each at its staging name. `None` if one isn't among these.
fn old_texts_of(
    alloc: Global,
    removed: &[String],
    staged: &[Rename],
    pages: &BTreeMap<&str, &str>,
) -> Result<Option<Vec<Leftover>>, AllocError>
    ensures { IfOk result (λ of. MatchOption of
        (LacksLeftText (map rename_text staged.now) (page_texts pages.now) (map string_bytes removed.now))
        (λ left. AllZip (IsLeftText (map rename_text staged.now) (page_texts pages.now)) (map string_bytes removed.now)
        left.items)) }
{
    let olds = old_paths_of(alloc, staged)?;
    let mut left = Vec::new(alloc);
    for label in removed {
        let path = staging_path(alloc, label.as_str())?;
        let Some(text) = text_of(&olds, pages, path.as_str()) else {
            return Ok(None);
        };
        let digest = TextDigest::of(text.as_bytes());
        left.push(Leftover::Text(TextFile { path, digest }))?;
    }
    Ok(Some(left))
}

// The old paths of renames, by the new ones.
fn old_paths_of(alloc: Global, renames: &[Rename]) -> Result<BTreeMap<&str, &str>, AllocError>
    ensures { IfOk result (HasOldPaths (map rename_text renames.now)) }
{
    let mut olds = BTreeMap::new(alloc);
    for rename in renames {
        olds.insert(rename.to.as_str(), rename.from.as_str())?;
    }
    Ok(olds)
}

// The text of the page that gets a path.
fn text_of<'a>(
    olds: &BTreeMap<&str, &str>,
    pages: &BTreeMap<&str, &'a str>,
    path: &str,
) -> Option<&'a str>
    ensures { (renames : List (List ℕ × List ℕ)) → HasOldPaths renames olds.now
        → MatchOption result (LacksTextAt renames (page_texts pages.now) path.now)
        (λ text. IsOldTextAt renames (page_texts pages.now) path.now text.now) }
{
    let page = olds.get(path)?;
    pages.get(*page).copied()
}

// Adds directories to what is left.
fn push_directories(left: &mut Vec<Leftover>, directories: Vec<String>) -> Result<(), AllocError>
    ensures { OnOk result (left.new.items ≡ left.old.items ++ map Directory directories.items) }
{
    for path in directories {
        left.push(Leftover::Directory(path))?;
    }
    Ok(())
}
