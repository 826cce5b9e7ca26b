//! Whether moves may be done.
ghost use Rattle.std.specs.Prelude.{◌≡◌, IfErr, IfOk, List, OnOk, map, ℕ};
ghost use Rattle.relative_path.specs.Steps.{components};
ghost use Rattle.relative_path_moves.specs.Moves.{AreApart, AreNamed, moves_of, turned, written_moves};
ghost use Rattle.relative_path_places.specs.PlaceIndex.{Indexes};
ghost use Rattle.relmove_checks.specs.declared.name_rule.NameRule.{NameRule};
ghost use Rattle.relmove_checks.specs.Plan.{AreAllowed, IsRefused, IsRefusedThere, MayLeave};
ghost use Rattle.relmove_checks.specs.Refusals.{IsSameNewRefusal, IsTableRefusal};
ghost use Rattle.relmove_checks.specs.Trees.{AreAfter, entry_paths};

use crate::after::{index_after, paths_after};
use crate::entry::Entry;
use crate::foreign::foreign_paths;
use crate::name_rule::NameRule;
use crate::refusal::Refusal;
use crate::refused::{Barrier, check_above, check_news, check_olds, check_paths};
use relative_path::RelativePath;
use relative_path_moves::{Move, MoveTableError, TreeMoves};
use relative_path_places::PlaceIndex;
use std::alloc::Global;

/// Returns the table of the moves. Fails if their paths, or what is at their old paths, are refused.
///
/// The index is that of [`entry_index`](crate::entry_index). `rule` says which names
/// the new paths may have.
pub fn leaving_table<'a>(
    alloc: Global,
    entries: &[Entry<'_>],
    index: &PlaceIndex,
    moves: &[(RelativePath<'a>, RelativePath<'a>)],
    rule: NameRule,
) -> Result<TreeMoves<'a>, Refusal>
    requires { Indexes (entry_paths entries.now) index.now }
    // the table of the moves
    ensures table { IfOk result (λ tree. tree ≡ moves_of moves.now) }
    // paths are allowed, old paths differ, and entries there may move
    ensures fine { OnOk result (MayLeave entries.now (moves_of moves.now) rule) }
    // refusals but `OutOfMemory` are of the first failed check, and its first move or entry
    ensures refused { IfErr result (IsRefused entries.now (moves_of moves.now) rule) }
{
    let moves = Move::of_pairs(alloc, moves)?;
    check_paths(&moves, rule)?;
    let table = table_of(alloc, moves)?;
    let foreign = foreign_paths(alloc, entries)?;
    check_olds(&foreign, index, table.moves())?;
    Ok(table)
}

// Returns the table of moves whose paths have file names. Fails if two old paths are equal.
fn table_of<'a>(alloc: Global, moves: Vec<Move<'a>>) -> Result<TreeMoves<'a>, Refusal>
    requires { AreNamed (written_moves moves.items) }
    ensures table { IfOk result (λ table. table ≡ written_moves moves.entry.items) }
    ensures apart { OnOk result (AreApart (written_moves moves.entry.items)) }
    ensures refused { IfErr result (IsTableRefusal (written_moves moves.entry.items)) }
{
    match TreeMoves::of(alloc, moves) {
        Ok(table) => Ok(table),
        Err(MoveTableError::NoFileName(_)) => unreachable!(),
        Err(MoveTableError::SameOld(j, k)) => Err(Refusal::SameOld(j, k)),
        Err(MoveTableError::OutOfMemory) => Err(Refusal::OutOfMemory),
    }
}

/// Returns the paths of the entries after the moves, by number. Fails if what is at the new paths, or above them, is
/// refused.
///
/// The table is that of [`leaving_table`].
pub fn coming_index(
    alloc: Global,
    entries: &[Entry<'_>],
    index: &PlaceIndex,
    table: &TreeMoves<'_>,
) -> Result<PlaceIndex, Refusal>
    // it has to index the entries' paths
    requires { Indexes (entry_paths entries.now) index.now }
    // moves that passed `leaving_table` pass each check
    ensures fine { OnOk result ((rule : NameRule) → MayLeave entries.now table.now rule
        → AreAllowed entries.now table.now rule) }
    // the entries' paths after the moves, by number
    ensures index { IfOk result (λ index. (after : List (List ℕ)) × AreAfter table.now entries.now after
        × Indexes (map components after) index) }
    // as of `leaving_table`, for moves that passed it
    ensures refused { IfErr result (IsRefusedThere entries.now table.now) }
{
    let moves = table.moves();
    check_same_new(alloc, table)?;
    check_news(alloc, entries, index, table, moves)?;
    let paths = paths_after(alloc, entries, table)?;
    let after = index_after(alloc, entries, &paths)?;
    check_above(entries, &after, moves, Barrier::Files)?;
    check_above(entries, &after, moves, Barrier::UnreadDirectories)?;
    Ok(after)
}

// Fails if two new paths are equal.
fn check_same_new(alloc: Global, moves: &TreeMoves<'_>) -> Result<(), Refusal>
    ensures apart { OnOk result (AreApart (turned moves.now)) }
    ensures refused { IfErr result (IsSameNewRefusal (turned moves.now)) }
{
    match moves.same_new(alloc)? {
        Some((j, k)) => Err(Refusal::SameNew(j, k)),
        None => Ok(()),
    }
}
