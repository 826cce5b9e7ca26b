//! Where the entries of a tree are after the moves.
ghost use Rattle.std.specs.Prelude.{◌≡◌, IfErr, IfOk, OnOk, length, map};
ghost use Rattle.relative_path.specs.Steps.{components};
ghost use Rattle.relative_path_places.specs.PlaceIndex.{Indexes};
ghost use Rattle.relmove_checks.specs.Trees.{AreAfter, AreDistinct, entry_paths};
ghost use Rattle.relmove_checks.specs.Refusals.{IsCollisionRefusal};
ghost use Rattle.relmove_checks.specs.declared.refusal.Refusal.TheVariants.{Collision};

use crate::entry::Entry;
use crate::refusal::Refusal;
use relative_path::RelativePath;
use relative_path_moves::TreeMoves;
use relative_path_places::{NormalPath, PlaceIndex};
use std::alloc::{AllocError, Global};

/// Returns the paths of the entries, by number. Fails only if an allocation fails.
pub fn entry_index(alloc: Global, entries: &[Entry<'_>]) -> Result<PlaceIndex, AllocError>
    ensures { IfOk result (Indexes (entry_paths entries.now)) }
{
    let mut index = PlaceIndex::new(alloc);
    for (number, entry) in entries.iter().enumerate() {
        let path = entry.path.copy(alloc)?;
        index.insert_normal(path, number)?;
    }
    Ok(index)
}

// Returns the paths of the entries after the moves.
pub(crate) fn paths_after(
    alloc: Global,
    entries: &[Entry<'_>],
    moves: &TreeMoves<'_>,
) -> Result<Vec<NormalPath>, AllocError>
    ensures { IfOk result (λ paths. AreAfter moves.now entries.now paths.items) }
{
    let mut paths = Vec::with_capacity(alloc, entries.len())?;
    for entry in entries {
        paths.push(moves.normal_after(alloc, entry.path.view())?)?;
    }
    Ok(paths)
}

// Returns the index of the paths of the entries after the moves, by number. Fails if two of them are equal.
pub(crate) fn index_after(
    alloc: Global,
    entries: &[Entry<'_>],
    paths: &[NormalPath],
) -> Result<PlaceIndex, Refusal>
    requires { length paths.now ≡ length entries.now }
    ensures indexes { IfOk result (Indexes (map components paths.now)) }
    ensures distinct { OnOk result (AreDistinct (map components paths.now)) }
    ensures refused { IfErr result (IsCollisionRefusal entries.now (map components paths.now)) }
{
    let mut index = PlaceIndex::new(alloc);
    for (number, path) in paths.iter().enumerate() {
        let first = index.insert_normal(path.copy(alloc)?, number)?;
        if first < number {
            let refusal = collision(alloc, &entries[first], &entries[number])?;
            return Err(refusal);
        }
    }
    Ok(index)
}

// Returns the refusal of two entries that get the same path.
fn collision(alloc: Global, one: &Entry<'_>, other: &Entry<'_>) -> Result<Refusal, AllocError>
    ensures { IfOk result (λ refusal. refusal ≡ Collision one.now.path other.now.path) }
{
    let one = one.path.copy(alloc)?;
    let other = other.path.copy(alloc)?;
    Ok(Refusal::Collision(one, other))
}
