//! The actions of a run.
ghost use Rattle.std.specs.Prelude.{◌≡◌, ◌≢◌, All, AllPairs, IfOk, List, length, map, string_bytes};
ghost use Rattle.relative_path.specs.Steps.{Step};
ghost use Rattle.relative_path_moves.specs.Moves.{AreApart, AreNamed, turned, written_moves};
ghost use Rattle.relative_path_places.specs.PlaceIndex.{Indexes};
ghost use Rattle.relative_path_places.specs.declared.place_index.PlaceIndex.{PlaceIndex};
ghost use Rattle.relmove_checks.specs.Moves.{EachMove};
ghost use Rattle.relmove_steps.specs.NewFiles.{AreFilesDrawn, HaveOwnFiles, LeaveFromEntries, LeaveOnce};
ghost use Rattle.relmove_steps.specs.Pages.{changed_paths};
ghost use Rattle.relmove_steps.specs.Directories.{AreAllLeftBehind, AreLeftBehindByMoves, AreMade, LeaveToNames, MakesMissing, moves_to_names};
ghost use Rattle.relmove_steps.specs.Actions.{AboveFirst, BelowFirst, DoesMove, LosesNothing, OnlyTheseLeave, RemovesAt, ReplacesPages, WritesPages, staged_names, rename_texts, action_texts};
ghost use Rattle.relmove_steps.specs.StagingNames.{AreDrawn, AreFreeNames};

use crate::changed::changed_index;
use crate::directories::{directories_emptied, directories_to_make};
use crate::order::{above_first, below_first};
use crate::renames::{Renames, add_moves, add_pages, moves_to_staging, staging_names};
use crate::staging::FreeNames;
use relative_path_links::{MovedSitePage, SitePage};
use relative_path_moves::{Move, MoveTableError, TreeMoves};
use relative_path_places::PlaceIndex;
use relmove_actions::Actions;
use std::alloc::{AllocError, Global};

/// What is known of a tree after the moves.
#[derive(Clone, Copy)]
pub struct After<'a, 'b> {
    /// The paths of the entries before the moves, by number.
    pub index: &'a PlaceIndex,
    /// The paths of the entries after the moves, by number.
    pub after: &'a PlaceIndex,
    /// The table of the moves.
    pub table: &'a TreeMoves<'b>,
    /// The pages after the moves. Those with a text change.
    pub pages: &'a [MovedSitePage],
}

/// Returns the actions that move the files and change the pages. Fails only if an allocation fails.
///
/// The pages are those before the moves. No two moves have the same new path.
pub fn actions_of(
    alloc: Global,
    pages: &[SitePage<'_>],
    now: After<'_, '_>,
) -> Result<Actions, AllocError>
    // there has to be one new page for each page
    requires long { length now.pages.now ≡ length pages.now }
    // no two new paths may be equivalent
    requires news_apart { AreApart (turned now.table.now) }
    // what is below a path comes before it
    ensures staged { IfOk result
        (λ actions. BelowFirst (map (λ step. string_bytes step.from) actions.staged.items)) }
    // what is below a path comes after it
    ensures placed { IfOk result
        (λ actions. AboveFirst (map (λ step. string_bytes step.to) actions.placed.items)) }
    // what leaves to a staging name comes from there or is removed, once
    ensures kept { IfOk result (λ actions. LosesNothing (action_texts actions)) }
    // what moves comes to its new path, changed pages aside
    ensures moved { IfOk result (λ actions. EachMove
        (DoesMove (changed_paths pages.now now.entry.pages.now) (action_texts actions)) now.entry.table.now) }
    // a changed page's new text comes by a new file to its new path
    ensures replaced { IfOk result (λ actions. ReplacesPages pages.now now.entry.pages.now (action_texts actions)) }
    // each changed page's old text goes to a staging name, and is removed
    ensures removed { IfOk result (λ actions. All (RemovesAt (action_texts actions))
        (changed_paths pages.now now.entry.pages.now)) }
    // what is below a path comes before it
    ensures emptied { IfOk result (λ actions. BelowFirst (map string_bytes actions.emptied.items)) }
    // no two directories of `emptied` are equal
    ensures different { IfOk result
        (λ actions. AllPairs (λ one other. one ≢ other) (map string_bytes actions.emptied.items)) }
    // `emptied` has only directories above old paths, where they are after the moves
    ensures left { IfOk result
        (λ actions. AreLeftBehindByMoves now.entry.table.now now.entry.table.now actions.emptied.items) }
    // and it has all of them
    ensures all { IfOk result (λ actions. AreAllLeftBehind now.entry.table.now now.entry.table.now
        (map string_bytes actions.emptied.items)) }
    // nothing leaves but from old paths, changed pages and the files of new texts
    ensures only { IfOk result (λ actions. OnlyTheseLeave now.entry.table.now
        (changed_paths pages.now now.entry.pages.now) (action_texts actions)) }
    // staging names are `.relmove-` and a number, all different, and no entry is at one
    ensures names { IfOk result (λ actions. (paths : List (List Step)) → Indexes paths now.entry.index.now
        → AreFreeNames paths (staged_names (action_texts actions))) }
    // new texts are of exactly the changed pages, in order
    ensures texts { IfOk result (λ actions. WritesPages
        (changed_paths pages.now now.entry.pages.now) (action_texts actions)) }
    // nothing leaves a path twice, if old paths, and changed pages, are distinct entries
    ensures once { IfOk result (λ actions. (paths : List (List Step)) → Indexes paths now.entry.index.now
        → LeaveFromEntries paths now.entry.table.now (changed_paths pages.now now.entry.pages.now)
        → LeaveOnce (action_texts actions)) }
    // each new text has its own file and number, in the page's directory, where no entry is
    ensures files { IfOk result (λ actions. (paths : List (List Step)) → Indexes paths now.entry.index.now
        → HaveOwnFiles paths (changed_paths pages.now now.entry.pages.now) (action_texts actions)) }
    // each directory missing above new paths, where staging names put it
    ensures made { IfOk result (λ actions. (paths : List (List Step)) → Indexes paths now.entry.after.now
        → MakesMissing now.entry.table.now paths (action_texts actions) (map string_bytes actions.made.items)) }
{
    let moves = now.table.moves();
    let mut names = FreeNames::new(alloc, now.index);
    let staging = staging_names(alloc, &mut names, moves.len())?;
    let renames = renames_of(alloc, &mut names, pages, moves, &staging, now)?;
    Ok(Actions {
        texts: renames.texts,
        staged: below_first(alloc, renames.leaving)?,
        made: directories_made(alloc, moves, &staging, now.after)?,
        placed: above_first(alloc, renames.arrivals)?,
        removed: renames.removed,
        emptied: directories_emptied(alloc, moves, now.table)?,
    })
}

// Returns what leaves, and what comes.
fn renames_of(
    alloc: Global,
    names: &mut FreeNames<'_>,
    pages: &[SitePage<'_>],
    moves: &[Move<'_>],
    staging: &[String],
    now: After<'_, '_>,
) -> Result<Renames, AllocError>
    requires long { length now.pages.now ≡ length pages.now }
    requires count { length staging.now ≡ length moves.now }
    requires moves { written_moves moves.now ≡ now.table.now }
    ensures kept { IfOk result (λ renames. LosesNothing (rename_texts renames)) }
    ensures moved { IfOk result (λ renames. EachMove
        (DoesMove (changed_paths pages.now now.entry.pages.now) (rename_texts renames)) (written_moves moves.now)) }
    ensures replaced { IfOk result (λ renames. ReplacesPages pages.now now.entry.pages.now (rename_texts renames)) }
    ensures removed { IfOk result (λ renames. All (RemovesAt (rename_texts renames))
        (changed_paths pages.now now.entry.pages.now)) }
    ensures only { IfOk result (λ renames. OnlyTheseLeave (written_moves moves.now)
        (changed_paths pages.now now.entry.pages.now) (rename_texts renames)) }
    ensures free { IfOk result (λ renames. (index : PlaceIndex)
        → AreDrawn index names.old (map string_bytes staging.now)
        → AreDrawn index names.new (staged_names (rename_texts renames))) }
    ensures files { IfOk result (λ renames. (index : PlaceIndex)
        → AreDrawn index names.old (map string_bytes staging.now)
        → AreFilesDrawn index (changed_paths pages.now now.entry.pages.now) names.new (rename_texts renames)) }
    ensures texts { IfOk result (λ renames. WritesPages
        (changed_paths pages.now now.entry.pages.now) (rename_texts renames)) }
    ensures once { IfOk result (λ renames. (index : PlaceIndex) (entries : List (List Step))
        → Indexes entries index
        → LeaveFromEntries entries (written_moves moves.now) (changed_paths pages.now now.entry.pages.now)
        → AreDrawn index names.old (map string_bytes staging.now) → LeaveOnce (rename_texts renames)) }
    ensures named { IfOk result (λ renames. LeaveToNames (written_moves moves.now) (map string_bytes staging.now)
        (rename_texts renames)) }
{
    let mut renames = Renames::new(alloc);
    let rewritten = changed_index(alloc, pages, now.pages)?;
    add_moves(alloc, &mut renames, moves, staging, &rewritten)?;
    add_pages(
        alloc,
        &mut renames,
        names,
        pages,
        now.pages,
        now.table.olds(),
    )?;
    Ok(renames)
}

// Returns the directories to make, each where it can be made.
fn directories_made(
    alloc: Global,
    moves: &[Move<'_>],
    staging: &[String],
    after: &PlaceIndex,
) -> Result<Vec<String>, AllocError>
    requires count { length staging.now ≡ length moves.now }
    requires named { AreNamed (moves_to_names (written_moves moves.now) (map string_bytes staging.now)) }
    requires apart { AreApart (moves_to_names (written_moves moves.now) (map string_bytes staging.now)) }
    ensures { IfOk result (λ made. (paths : List (List Step)) → Indexes paths after.now
        → AreMade (written_moves moves.now) (map string_bytes staging.now) paths (map string_bytes made.items)) }
{
    let news = moves_to_staging(alloc, moves, staging)?;
    let news = table_of_apart(alloc, news)?;
    directories_to_make(alloc, moves, after, &news)
}

// Returns the table of moves whose paths have file names, and no two of which have the same old path. Fails only if an
// allocation fails.
fn table_of_apart<'a>(alloc: Global, moves: Vec<Move<'a>>) -> Result<TreeMoves<'a>, AllocError>
    requires named { AreNamed (written_moves moves.items) }
    requires apart { AreApart (written_moves moves.items) }
    ensures { IfOk result (λ table. table ≡ written_moves moves.entry.items) }
{
    match TreeMoves::of(alloc, moves) {
        Ok(table) => Ok(table),
        Err(MoveTableError::NoFileName(_)) => unreachable!(),
        Err(MoveTableError::SameOld(..)) => unreachable!(),
        Err(MoveTableError::OutOfMemory) => Err(AllocError),
    }
}
