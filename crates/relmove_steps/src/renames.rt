//! The renames of a run: everything that moves, and each page that changes, to a staging name, and from there to
//! its new path.
ghost use Rattle.std.specs.Prelude.{◌≡◌, ◌<◌, ℕ, ◌++◌, [], ◌∷◌, All, IfOk, List, OnOk, length, map, string_bytes, take};
ghost use Rattle.relative_path.specs.Steps.{Step, components};
ghost use Rattle.relative_path.specs.RelativePath.{path_components};
ghost use Rattle.relative_path.specs.Normalizing.{IsNormalTextOf};
ghost use Rattle.relative_path_moves.specs.Moves.{AreApart, Move, move_at, written_moves};
ghost use Rattle.relative_path_places.specs.PlaceIndex.{Indexes, IsNoneAt, path_at};
ghost use Rattle.relative_path_places.specs.declared.place_index.PlaceIndex.{PlaceIndex};
ghost use Rattle.relmove_checks.specs.Moves.{EachMove, move_of};
ghost use Rattle.relmove_steps.specs.Actions.{AreAmong, DoesMove, LosesNothing, RemovesAt, RemovesMoved, ReplacesPage, ReplacesPages, OnlyTheseLeave, WritesPage, WritesPages, staged_names, old_paths, rename_texts, with_carried, with_removed, with_text};
ghost use Rattle.relmove_steps.specs.Pages.{changed_paths};
ghost use Rattle.relmove_steps.specs.StagingNames.{AreDrawn};
ghost use Rattle.relmove_steps.specs.NewFiles.{AreFilesDrawn, DoNothingYet, LeaveFromEntries, LeaveOnce, LeavesToo, StaysThere};
ghost use Rattle.relmove_steps.specs.Directories.{LeavesTo, LeaveToNames, moves_to_names};

use crate::staging::FreeNames;
use relative_path::RelativePath;
use relative_path_links::{MovedSitePage, SitePage};
use relative_path_places::{NormalPath, PlaceIndex, WrittenPath};
use relmove_actions::{NewText, Rename};
use std::alloc::{AllocError, Global};

// Returns a staging name for each move.
pub(crate) fn staging_names(
    alloc: Global,
    names: &mut FreeNames<'_>,
    count: usize,
) -> Result<Vec<String>, AllocError>
    ensures count { IfOk result (λ staging. length staging.items ≡ count) }
    ensures free { IfOk result (λ staging. (index : PlaceIndex) → AreDrawn index names.old []
        → AreDrawn index names.new (map string_bytes staging.items)) }
{
    let mut staging = Vec::with_capacity(alloc, count)?;
    for _ in 0..count {
        staging.push(names.in_root(alloc)?)?;
    }
    Ok(staging)
}

// Returns the moves from the new path of each move to its staging name.
pub(crate) fn moves_to_staging<'a>(
    alloc: Global,
    moves: &[relative_path_moves::Move<'a>],
    staging: &'a [String],
) -> Result<Vec<relative_path_moves::Move<'a>>, AllocError>
    requires { length staging.now ≡ length moves.now }
    ensures { IfOk result (λ news. written_moves news.items
        ≡ moves_to_names (written_moves moves.now) (map string_bytes staging.now)) }
{
    let mut news = Vec::with_capacity(alloc, moves.len())?;
    for (a, name) in moves.iter().zip(staging) {
        let old = a.new.copy(alloc)?;
        let new = WrittenPath::of(alloc, RelativePath::new(name))?;
        news.push(relative_path_moves::Move { old, new })?;
    }
    Ok(news)
}

// What leaves its place, and what comes to one.
#[derive(Drop)]
pub(crate) struct Renames {
    // What leaves: each path, and its staging name.
    pub(crate) leaving: Vec<(String, String)>,
    // What comes: each new path, and the staging name.
    pub(crate) arrivals: Vec<(String, String)>,
    // The new texts, each in its own file.
    pub(crate) texts: Vec<NewText>,
    // The staging names of the old texts.
    pub(crate) removed: Vec<String>,
}

impl Renames {
    // Returns a list without renames.
    pub(crate) fn new(alloc: Global) -> Renames
        ensures kept { LosesNothing (rename_texts result) }
        ensures left { staged_names (rename_texts result) ≡ [] }
        ensures only { (moves : List Move) (paths : List (List Step))
            → OnlyTheseLeave moves paths (rename_texts result) }
        ensures none { DoNothingYet (rename_texts result) }
    {
        Renames {
            leaving: Vec::new(alloc),
            arrivals: Vec::new(alloc),
            texts: Vec::new(alloc),
            removed: Vec::new(alloc),
        }
    }
}

// Adds that a page's new text is written to a file.
fn add_text(
    alloc: Global,
    renames: &mut Renames,
    page: &str,
    file: &str,
    text: &str,
) -> Result<(), AllocError>
    ensures { OnOk result (rename_texts renames.new
        ≡ with_text (rename_texts renames.old) page.now file.now text.now) }
{
    renames.texts.push(NewText {
        page: String::from_str(alloc, page)?,
        file: String::from_str(alloc, file)?,
        text: String::from_str(alloc, text)?,
    })?;
    Ok(())
}

// Adds that what is at a path leaves to a staging name, and comes from there to another path.
fn add_carried(
    alloc: Global,
    renames: &mut Renames,
    from: String,
    name: &str,
    to: String,
) -> Result<(), AllocError>
    ensures { OnOk result (rename_texts renames.new
        ≡ with_carried (rename_texts renames.old) (string_bytes from) name.now (string_bytes to)) }
{
    renames
        .leaving
        .push((from, String::from_str(alloc, name)?))?;
    renames.arrivals.push((to, String::from_str(alloc, name)?))?;
    Ok(())
}

// Adds that what is at a path leaves to a staging name, and is removed there.
fn add_removed(
    alloc: Global,
    renames: &mut Renames,
    from: String,
    name: &str,
) -> Result<(), AllocError>
    ensures { OnOk result (rename_texts renames.new
        ≡ with_removed (rename_texts renames.old) (string_bytes from) name.now) }
{
    renames
        .leaving
        .push((from, String::from_str(alloc, name)?))?;
    renames.removed.push(String::from_str(alloc, name)?)?;
    Ok(())
}

// Adds what each move does. Move number `k` goes by name number `k` of `staging`.
pub(crate) fn add_moves(
    alloc: Global,
    renames: &mut Renames,
    moves: &[relative_path_moves::Move<'_>],
    staging: &[String],
    changed: &PlaceIndex,
) -> Result<(), AllocError>
    requires kept { LosesNothing (rename_texts renames.old) }
    requires count { length staging.now ≡ length moves.now }
    ensures kept { OnOk result (LosesNothing (rename_texts renames.new)) }
    ensures moved { OnOk result ((paths : List (List Step)) → Indexes paths changed.now
        → EachMove (DoesMove paths (rename_texts renames.new)) (written_moves moves.now)) }
    ensures left { OnOk result (staged_names (rename_texts renames.new)
        ≡ staged_names (rename_texts renames.old) ++ map string_bytes staging.now) }
    ensures only { OnOk result ((paths : List (List Step))
        → OnlyTheseLeave (written_moves moves.now) paths (rename_texts renames.old)
        → OnlyTheseLeave (written_moves moves.now) paths (rename_texts renames.new)) }
    ensures texts { OnOk result ((rename_texts renames.new).texts ≡ (rename_texts renames.old).texts) }
    ensures once { OnOk result (AreApart (written_moves moves.now) → DoNothingYet (rename_texts renames.old)
        → LeaveOnce (rename_texts renames.new)) }
    ensures named { OnOk result (LeaveToNames (written_moves moves.now) (map string_bytes staging.now)
        (rename_texts renames.new)) }
{
    for (number, a) in moves.iter().enumerate() {
        add_move(alloc, renames, &a.old, &a.new, &staging[number], changed)?;
    }
    Ok(())
}

// Adds a move. What is at the old path leaves to the staging name. A page that changes is removed there, since its new
// text comes to the new path; anything else comes to the new path itself.
fn add_move(
    alloc: Global,
    renames: &mut Renames,
    old: &WrittenPath<'_>,
    new: &WrittenPath<'_>,
    name: &str,
    changed: &PlaceIndex,
) -> Result<(), AllocError>
    requires { LosesNothing (rename_texts renames.old) }
    ensures kept { OnOk result (LosesNothing (rename_texts renames.new)) }
    ensures among { OnOk result (AreAmong (rename_texts renames.old) (rename_texts renames.new)) }
    ensures moved { OnOk result ((paths : List (List Step)) → Indexes paths changed.now
        → DoesMove paths (rename_texts renames.new)
        (move_of (path_components old.now) (path_components new.now))) }
    ensures left { OnOk result (staged_names (rename_texts renames.new)
        ≡ staged_names (rename_texts renames.old) ++ name.now ∷ []) }
    ensures only { OnOk result ((moves : List Move) (paths : List (List Step)) (k : ℕ) → k < length moves
        → move_at moves k ≡ move_of (path_components old.now) (path_components new.now)
        → OnlyTheseLeave moves paths (rename_texts renames.old)
        → OnlyTheseLeave moves paths (rename_texts renames.new)) }
    ensures texts { OnOk result ((rename_texts renames.new).texts ≡ (rename_texts renames.old).texts) }
    ensures once { OnOk result (StaysThere (path_components old.now) (rename_texts renames.old)
        → LeaveOnce (rename_texts renames.old) → LeaveOnce (rename_texts renames.new)) }
    ensures named { OnOk result (LeavesTo (rename_texts renames.new) (path_components old.now) name.now) }
{
    let from = normal_text(alloc, old)?;
    if changed.get(old.normal()).is_some() {
        return add_removed(alloc, renames, from, name);
    }
    let to = normal_text(alloc, new)?;
    add_carried(alloc, renames, from, name, to)
}

// Returns the normal text of a path.
fn normal_text(alloc: Global, path: &WrittenPath<'_>) -> Result<String, AllocError>
    ensures { IfOk result (λ text. IsNormalTextOf (path_components path.now) (string_bytes text)) }
{
    Ok(String::from_str(alloc, path.normal().as_relative_path().as_str())?)
}

// Adds the pages that change.
pub(crate) fn add_pages(
    alloc: Global,
    renames: &mut Renames,
    names: &mut FreeNames<'_>,
    pages: &[SitePage<'_>],
    news: &[MovedSitePage],
    olds: &PlaceIndex,
) -> Result<(), AllocError>
    requires kept { LosesNothing (rename_texts renames.old) }
    requires long { length news.now ≡ length pages.now }
    ensures kept { OnOk result (LosesNothing (rename_texts renames.new)) }
    ensures among { OnOk result (AreAmong (rename_texts renames.old) (rename_texts renames.new)) }
    ensures replaced { OnOk result
        (ReplacesPages pages.now news.now (rename_texts renames.new)) }
    ensures removed { OnOk result ((moves : List Move) → Indexes (old_paths moves) olds.now
        → EachMove (DoesMove (changed_paths pages.now news.now) (rename_texts renames.old)) moves
        → All (RemovesAt (rename_texts renames.new)) (changed_paths pages.now news.now)) }
    ensures only { OnOk result ((moves : List Move)
        → OnlyTheseLeave moves (changed_paths pages.now news.now) (rename_texts renames.old)
        → OnlyTheseLeave moves (changed_paths pages.now news.now) (rename_texts renames.new)) }
    ensures free { OnOk result ((index : PlaceIndex)
        → AreDrawn index names.old (staged_names (rename_texts renames.old))
        → AreDrawn index names.new (staged_names (rename_texts renames.new))) }
    ensures files { OnOk result ((index : PlaceIndex)
        → AreDrawn index names.old (staged_names (rename_texts renames.old))
        → AreFilesDrawn index (changed_paths pages.now news.now) names.old (rename_texts renames.old)
        → AreFilesDrawn index (changed_paths pages.now news.now) names.new (rename_texts renames.new)) }
    ensures once { OnOk result ((index : PlaceIndex) (entries : List (List Step)) (moves : List Move)
        → Indexes entries index → Indexes (old_paths moves) olds.now
        → LeaveFromEntries entries moves (changed_paths pages.now news.now)
        → AreDrawn index names.old (staged_names (rename_texts renames.old))
        → AreFilesDrawn index (changed_paths pages.now news.now) names.old (rename_texts renames.old)
        → OnlyTheseLeave moves [] (rename_texts renames.old)
        → LeaveOnce (rename_texts renames.old) → LeaveOnce (rename_texts renames.new)) }
    ensures texts { OnOk result ((rename_texts renames.old).texts ≡ []
        → WritesPages (changed_paths pages.now news.now) (rename_texts renames.new)) }
{
    for (page, new) in pages.iter().zip(news) {
        if let Some(text) = &new.text {
            add_page(alloc, renames, names, *page, new, text, olds)?;
        }
    }
    Ok(())
}

// Adds a page that changes: its old text leaves and is removed, and its new text, in a file beside it, comes to its new
// path.
fn add_page(
    alloc: Global,
    renames: &mut Renames,
    names: &mut FreeNames<'_>,
    page: SitePage<'_>,
    new: &MovedSitePage,
    text: &str,
    olds: &PlaceIndex,
) -> Result<(), AllocError>
    requires { LosesNothing (rename_texts renames.old) }
    ensures kept { OnOk result (LosesNothing (rename_texts renames.new)) }
    ensures among { OnOk result (AreAmong (rename_texts renames.old) (rename_texts renames.new)) }
    ensures replaced { OnOk result (ReplacesPage (rename_texts renames.new) page.entry new.now text.now) }
    ensures removed { OnOk result ((moves : List Move) → Indexes (old_paths moves) olds.now
        → RemovesMoved moves (components page.entry.path.now) (rename_texts renames.old)
        → RemovesAt (rename_texts renames.new) (components page.entry.path.now)) }
    ensures only { OnOk result ((moves : List Move) (paths : List (List Step)) (k : ℕ) → k < length paths
        → path_at paths k ≡ components page.entry.path.now
        → OnlyTheseLeave moves paths (rename_texts renames.old)
        → OnlyTheseLeave moves paths (rename_texts renames.new)) }
    ensures free { OnOk result ((index : PlaceIndex)
        → AreDrawn index names.old (staged_names (rename_texts renames.old))
        → AreDrawn index names.new (staged_names (rename_texts renames.new))) }
    ensures files { OnOk result ((index : PlaceIndex) (paths : List (List Step)) (k : ℕ) → k < length paths
        → path_at paths k ≡ components page.entry.path.now
        → AreDrawn index names.old (staged_names (rename_texts renames.old))
        → AreFilesDrawn index paths names.old (rename_texts renames.old)
        → AreFilesDrawn index paths names.new (rename_texts renames.new)) }
    ensures once { OnOk result ((index : PlaceIndex) (entries paths : List (List Step)) (moves : List Move) (k : ℕ)
        → Indexes entries index → Indexes (old_paths moves) olds.now → LeaveFromEntries entries moves paths
        → k < length paths → path_at paths k ≡ components page.entry.path.now
        → AreDrawn index names.old (staged_names (rename_texts renames.old))
        → AreFilesDrawn index paths names.old (rename_texts renames.old)
        → OnlyTheseLeave moves (take k paths) (rename_texts renames.old)
        → LeaveOnce (rename_texts renames.old) → LeaveOnce (rename_texts renames.new)) }
    ensures texts { OnOk result
        (WritesPage (components page.entry.path.now) (rename_texts renames.old) (rename_texts renames.new)) }
{
    let old = page.path.copy(alloc)?;
    let file = names.in_directory(alloc, old.directory())?;
    let normal = old.as_relative_path().as_str();
    add_text(alloc, renames, normal, &file, text)?;
    add_old_text(alloc, renames, names, old, olds)?;
    let name = names.in_root(alloc)?;
    let to = String::from_str(alloc, new.path.as_relative_path().as_str())?;
    add_carried(alloc, renames, file, &name, to)?;
    Ok(())
}

// Adds that the old text of a page leaves and is removed, unless the page's own move says so already.
fn add_old_text(
    alloc: Global,
    renames: &mut Renames,
    names: &mut FreeNames<'_>,
    page: NormalPath,
    olds: &PlaceIndex,
) -> Result<(), AllocError>
    requires { LosesNothing (rename_texts renames.old) }
    ensures kept { OnOk result (LosesNothing (rename_texts renames.new)) }
    ensures among { OnOk result (AreAmong (rename_texts renames.old) (rename_texts renames.new)) }
    ensures removed { OnOk result ((moves : List Move) (cs : List Step)
        → Indexes (old_paths moves) olds.now → IsNormalTextOf cs page
        → RemovesMoved moves cs (rename_texts renames.old) → RemovesAt (rename_texts renames.new) cs) }
    ensures only { OnOk result ((moves : List Move) (paths : List (List Step)) (k : ℕ) → k < length paths
        → IsNormalTextOf (path_at paths k) page → OnlyTheseLeave moves paths (rename_texts renames.old)
        → OnlyTheseLeave moves paths (rename_texts renames.new)) }
    ensures free { OnOk result ((index : PlaceIndex)
        → AreDrawn index names.old (staged_names (rename_texts renames.old))
        → AreDrawn index names.new (staged_names (rename_texts renames.new))) }
    ensures files { OnOk result ((index : PlaceIndex) (paths : List (List Step))
        → AreFilesDrawn index paths names.old (rename_texts renames.old)
        → AreFilesDrawn index paths names.new (rename_texts renames.new)) }
    ensures leaves { OnOk result (LeavesToo page (rename_texts renames.old) (rename_texts renames.new)) }
    ensures once { OnOk result ((moves : List Move) (cs : List Step)
        → Indexes (old_paths moves) olds.now → IsNormalTextOf cs page
        → (IsNoneAt (old_paths moves) cs → StaysThere cs (rename_texts renames.old))
        → LeaveOnce (rename_texts renames.old) → LeaveOnce (rename_texts renames.new)) }
    ensures texts { OnOk result ((rename_texts renames.new).texts ≡ (rename_texts renames.old).texts) }
{
    if olds.get(&page).is_some() {
        return Ok(());
    }
    let name = names.in_root(alloc)?;
    let from = page.into_relative_path_buf().into_string();
    add_removed(alloc, renames, from, &name)?;
    Ok(())
}
