//! What the end of a run that stopped would do.
ghost use Rattle.std.specs.Prelude.{◌≡◌, MatchResult, None, Some};
ghost use Rattle.relmove_run.specs.Ends.{stage_to_end};
ghost use Rattle.relmove_store.specs.declared.fault.RunFault.TheVariants.{TooLate};

use crate::stages::{actions_of, change_of};
use relmove_journal::{Stage, Work};
use relmove_stages::{next_stage, stage_back};
use relmove_store::{Change, RunFault};
use std::alloc::{AllocError, Global};

/// The direction in which a run that stopped is ended.
#[derive(Clone, Copy, Debug, PartialEq, Eq)]
pub enum Direction {
    /// It goes on to its end, or, if it was going back, to its beginning.
    Resume,
    /// It goes back to its beginning.
    Undo,
}

// The stage from which a run is ended in a direction, if the run is at a stage. Fails if it is too late to take the run back.
pub(crate) fn stage_to_end(direction: Direction, stage: Stage) -> Result<Stage, RunFault>
    ensures { MatchResult result
        (λ next. stage_to_end direction stage ≡ Some next)
        (λ fault. (fault ≡ TooLate) × (stage_to_end direction stage ≡ None)) }
{
    match direction {
        Direction::Resume => Ok(stage),
        Direction::Undo => stage_back(stage).ok_or(RunFault::TooLate),
    }
}

// Whether a run at a stage goes on to its end, and not back.
pub(crate) fn goes_on(stage: Stage) -> bool {
    stage_back(stage) != Some(stage)
}

// The changes that a run makes from a stage on. Some of them may be made already.
//
// Allocates them.
pub(crate) fn changes_from(
    alloc: Global,
    work: &Work,
    stage: Stage,
) -> Result<Vec<Change>, AllocError> {
    let mut changes = Vec::new(alloc);
    push_changes(alloc, work, stage, &mut changes)?;
    let mut at = stage;
    while let Some(next) = next_stage(at) {
        push_changes(alloc, work, next, &mut changes)?;
        at = next;
    }
    Ok(changes)
}

// Adds the changes of a stage.
fn push_changes(
    alloc: Global,
    work: &Work,
    stage: Stage,
    changes: &mut Vec<Change>,
) -> Result<(), AllocError> {
    for action in &actions_of(alloc, work, stage)? {
        changes.push(change_of(alloc, *action)?)?;
    }
    Ok(())
}
