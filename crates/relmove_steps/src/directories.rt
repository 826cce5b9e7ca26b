//! The directories that a run makes, and those that it may empty.
ghost use Rattle.std.specs.Prelude.{◌≡◌, ◌≢◌, ◌<◌, ℕ, All, AllPairs, List, Contains, IfOk, OnOk, length, map, string_bytes};
ghost use Rattle.std.specs.List.{Any};
ghost use mathlib.Core.List.{reverse};
ghost use Rattle.relative_path.specs.Normalizing.{IsNormalTextOf};
ghost use Rattle.relative_path.specs.RelativePath.{path_components};
ghost use Rattle.relative_path.specs.Steps.{Step, components};
ghost use Rattle.relative_path_moves.specs.Moves.{Move, move_at, written_moves};
ghost use Rattle.relative_path_moves.specs.TreeMoves.{AtTreePath};
ghost use Rattle.relative_path_places.specs.PlaceIndex.{Indexes, IsNoneAt};
ghost use Rattle.relative_path_places.specs.Views.{view_text, view_components};
ghost use Rattle.relmove_steps.specs.Directories.{AreAllLeftBehind, AreLeftBehindByMoves, AreMissingTexts, AreTaken, HasDirectory, HasLeftBehind, HaveTextOf, IsDirectoryAbove};
ghost use Rattle.relmove_steps.specs.Actions.{BelowFirst};

use relative_path::RelativePath;
use relative_path_moves::TreeMoves;
use relative_path_places::{NormalView, PlaceIndex, WrittenPath};
use relmove_checks::directory_above;
use std::alloc::{AllocError, Global};
use std::collections::BTreeSet;

// Returns the directories to make: those above new paths that aren't there after the moves.
pub(crate) fn directories_to_make(
    alloc: Global,
    moves: &[relative_path_moves::Move<'_>],
    after: &PlaceIndex,
    news: &TreeMoves<'_>,
) -> Result<Vec<String>, AllocError>
    ensures { IfOk result (λ made. (paths : List (List Step)) → Indexes paths after.now
        → AreTaken (written_moves moves.now) news.now paths (map string_bytes made.items)) }
{
    let mut missing = BTreeSet::new(alloc);
    for a in moves {
        let new = a.new.normal();
        add_missing(alloc, &mut missing, new.view(), after)?;
    }
    let mut made = Vec::with_capacity(alloc, missing.len())?;
    for directory in &missing {
        let path = news.path_after(alloc, RelativePath::new(directory))?;
        made.push(path.into_relative_path_buf().into_string())?;
    }
    Ok(made)
}

// Adds the directories above a path that aren't there after the moves.
fn add_missing(
    alloc: Global,
    missing: &mut BTreeSet<String>,
    path: NormalView<'_>,
    after: &PlaceIndex,
) -> Result<(), AllocError>
    ensures kept { OnOk result ((text : List ℕ) → Contains (map string_bytes missing.old.keys) text
        → Contains (map string_bytes missing.new.keys) text) }
    ensures sound { OnOk result ((moves : List Move) (paths : List (List Step)) (k : ℕ) → Indexes paths after.now
        → k < length moves → IsNormalTextOf (move_at moves k).new (view_text path.entry)
        → AreMissingTexts moves paths missing.old.keys → AreMissingTexts moves paths missing.new.keys) }
    ensures complete { OnOk result ((paths : List (List Step)) (directory : List Step) → Indexes paths after.now
        → HasDirectory (view_components path.entry) directory → IsNoneAt paths directory
        → HaveTextOf (map string_bytes missing.new.keys) directory) }
{
    let directories = directories_above(alloc, path)?;
    for directory in &directories {
        if after.get_view(*directory).is_none() {
            let text = directory.as_relative_path().as_str();
            missing.insert(String::from_str(alloc, text)?)?;
        }
    }
    Ok(())
}

// Returns the directories that old paths leave, where they are after the moves: the deepest first.
pub(crate) fn directories_emptied(
    alloc: Global,
    moves: &[relative_path_moves::Move<'_>],
    table: &TreeMoves<'_>,
) -> Result<Vec<String>, AllocError>
    ensures order { IfOk result (λ emptied. BelowFirst (map string_bytes emptied.items)) }
    ensures different { IfOk result (λ emptied. AllPairs (λ one other. one ≢ other) (map string_bytes emptied.items)) }
    ensures left { IfOk result
        (λ emptied. AreLeftBehindByMoves table.now (written_moves moves.now) emptied.items) }
    ensures all { IfOk result
        (λ emptied. AreAllLeftBehind table.now (written_moves moves.now) (map string_bytes emptied.items)) }
{
    let mut left = BTreeSet::new(alloc);
    for a in moves {
        add_left(alloc, &mut left, &a.old, table)?;
    }
    from_last(alloc, left)
}

// Returns the texts of a set, from the last to the first.
fn from_last(alloc: Global, mut set: BTreeSet<String>) -> Result<Vec<String>, AllocError>
    ensures reversed { IfOk result (λ texts. texts.items ≡ reverse set.keys) }
    ensures order { IfOk result (λ texts. BelowFirst (map string_bytes texts.items)) }
    ensures different { IfOk result (λ texts. AllPairs (λ one other. one ≢ other) (map string_bytes texts.items)) }
{
    let mut texts = Vec::with_capacity(alloc, set.len())?;
    while let Some(text) = set.pop_last() {
        texts.push(text)?;
    }
    Ok(texts)
}

// Adds the directories above a path, where they are after the moves.
fn add_left(
    alloc: Global,
    left: &mut BTreeSet<String>,
    path: &WrittenPath<'_>,
    table: &TreeMoves<'_>,
) -> Result<(), AllocError>
    ensures left { OnOk result ((moves : List Move) (k : ℕ) → k < length moves
        → (move_at moves k).old ≡ path_components path.now
        → AreLeftBehindByMoves table.now moves left.old.keys → AreLeftBehindByMoves table.now moves left.new.keys) }
    ensures kept { OnOk result ((text : List ℕ) → Contains (map string_bytes left.old.keys) text
        → Contains (map string_bytes left.new.keys) text) }
    ensures all { OnOk result ((directory : List Step) → IsDirectoryAbove (path_components path.now) directory
        → HasLeftBehind table.now (map string_bytes left.new.keys) directory) }
{
    let path = path.normal();
    let directories = directories_above(alloc, path.view())?;
    for directory in &directories {
        let now = table.normal_after(alloc, *directory)?;
        left.insert(now.into_relative_path_buf().into_string())?;
    }
    Ok(())
}

// Returns the paths of the directories above a path, without the root: the nearest first.
fn directories_above<'a>(
    alloc: Global,
    path: NormalView<'a>,
) -> Result<Vec<NormalView<'a>>, AllocError>
    ensures above { IfOk result (λ directories. All (λ directory. HasDirectory (view_components path.entry)
        (view_components directory)) directories.items) }
    ensures all { IfOk result (λ directories. (front : List Step) → HasDirectory (view_components path.entry) front
        → Any (λ directory. view_components directory ≡ front) directories.items) }
{
    let mut directories = Vec::new(alloc);
    let mut left = path;
    while let Some(directory) = directory_above(left) {
        directories.push(directory)?;
        left = directory;
    }
    Ok(directories)
}
