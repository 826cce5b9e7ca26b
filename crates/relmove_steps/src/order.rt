//! The order of a run's renames.
ghost use Rattle.std.specs.Prelude.{◌≡◌, IfOk, IsPermutation, map, string_bytes};
ghost use mathlib.Core.List.{reverse};
ghost use Rattle.relmove_steps.specs.Actions.{AboveFirst, BelowFirst, from_name, rename_text, to_name};

use relmove_actions::Rename;
use std::alloc::{AllocError, Global};

// Returns the renames of what leaves: what is below a directory before the directory.
pub(crate) fn below_first(
    alloc: Global,
    mut leaving: Vec<(String, String)>,
) -> Result<Vec<Rename>, AllocError>
    ensures order { IfOk result
        (λ staged. BelowFirst (map (λ step. string_bytes step.from) staged.items)) }
    ensures same { IfOk result
        (λ staged. IsPermutation (map to_name leaving.items) (map rename_text staged.items)) }
{
    leaving.sort()?;
    leaving_from_last(alloc, leaving)
}

// Returns the renames of what leaves, from the last to the first.
fn leaving_from_last(
    alloc: Global,
    mut leaving: Vec<(String, String)>,
) -> Result<Vec<Rename>, AllocError>
    ensures { IfOk result (λ staged. map rename_text staged.items
        ≡ reverse (map to_name leaving.items)) }
{
    let mut staged = Vec::with_capacity(alloc, leaving.len())?;
    while let Some((from, to)) = leaving.pop() {
        staged.push(Rename { from, to })?;
    }
    Ok(staged)
}

// Returns the renames of what comes: a directory before what is below it.
pub(crate) fn above_first(
    alloc: Global,
    mut arrivals: Vec<(String, String)>,
) -> Result<Vec<Rename>, AllocError>
    ensures order { IfOk result
        (λ placed. AboveFirst (map (λ step. string_bytes step.to) placed.items)) }
    ensures same { IfOk result
        (λ placed. IsPermutation (map from_name arrivals.items) (map rename_text placed.items)) }
{
    arrivals.sort()?;
    arrivals.reverse();
    arrivals_from_last(alloc, arrivals)
}

// Returns the renames of what comes, from the last to the first.
fn arrivals_from_last(
    alloc: Global,
    mut arrivals: Vec<(String, String)>,
) -> Result<Vec<Rename>, AllocError>
    ensures { IfOk result (λ placed. map rename_text placed.items
        ≡ reverse (map from_name arrivals.items)) }
{
    let mut placed = Vec::with_capacity(alloc, arrivals.len())?;
    while let Some((to, from)) = arrivals.pop() {
        placed.push(Rename { from, to })?;
    }
    Ok(placed)
}
