//! How a run goes on, or back, from any stage.
ghost use Rattle.std.specs.Prelude.{◌≡◌, ◌⊎◌, ◌<◌, ℕ, Some, None, Ok, IsTrue, IfOk, OnOk, OnErr, true, false};
ghost use Rattle.relmove_stages.specs.Runs.{EndsFrom, Guards, IsAtStage, IsOnTheWayBack, IsOnTheWayFrom, IsStageDone, KeepsDone, Leads, Trees};
ghost use Rattle.relmove_stages.specs.Stages.{stage_back};
ghost use Rattle.relmove_stages.specs.States.{Disk, journal_of};

use crate::executor::Executor;
use crate::stages::{action_at, next_stage, stage_back};
use relmove_journal::{Stage, Work};

// Does the actions of a stage that aren't done.
fn do_stage<E: Executor>(executor: &mut E, work: &Work, stage: Stage) -> Result<(), E::Fault>
    ghost trees: { Trees }
    requires leads { IsTrue (E.state executor.old).is_clean → Leads work.now trees }
    requires journal { IsTrue (E.state executor.old).is_clean
        → (E.state executor.old).disk.journal ≡ Some (journal_of work.now stage) }
    requires tree { IsTrue (E.state executor.old).is_clean → IsAtStage work.now trees stage (E.state executor.old).disk.tree }
    ensures journal { IsTrue (E.state executor.new).is_clean
        → (E.state executor.new).disk.journal ≡ Some (journal_of work.now stage) }
    ensures done { OnOk result (IsTrue (E.state executor.new).is_clean
        → IsStageDone work.now trees stage (E.state executor.new).disk.tree) }
    ensures completed { OnOk result (IsTrue (E.state executor.new).is_clean
        → (E.state executor.new).completed ≡ Some (journal_of work.now stage)) }
    ensures guards { IsTrue (E.state executor.new).is_clean
        → Guards (IsOnTheWayFrom work.now trees stage) (E.state executor.old) (E.state executor.new) }
    ensures keeps { IsTrue (E.state executor.new).is_clean
        → Guards (KeepsDone work.now trees stage (E.state executor.old).disk.tree) (E.state executor.old) (E.state executor.new) }
    ensures cause { OnErr result (IsTrue (E.state executor.new).is_clean
        → (E.state executor.old).faults < (E.state executor.new).faults) }
{
    executor.prepare(work, stage)?;
    do_actions(executor, work, stage)?;
    executor.complete(work, stage)
}

// Does the actions of a stage that aren't done, one after another.
fn do_actions<E: Executor>(executor: &mut E, work: &Work, stage: Stage) -> Result<(), E::Fault>
    ghost trees: { Trees }
    requires leads { IsTrue (E.state executor.old).is_clean → Leads work.now trees }
    requires journal { IsTrue (E.state executor.old).is_clean
        → (E.state executor.old).disk.journal ≡ Some (journal_of work.now stage) }
    requires tree { IsTrue (E.state executor.old).is_clean → IsAtStage work.now trees stage (E.state executor.old).disk.tree }
    requires prepared { IsTrue (E.state executor.old).is_clean
        → (E.state executor.old).prepared ≡ Some (journal_of work.now stage) }
    ensures journal { IsTrue (E.state executor.new).is_clean
        → (E.state executor.new).disk.journal ≡ Some (journal_of work.now stage) }
    ensures done { OnOk result (IsTrue (E.state executor.new).is_clean
        → IsStageDone work.now trees stage (E.state executor.new).disk.tree) }
    ensures prepared { OnOk result (IsTrue (E.state executor.new).is_clean
        → (E.state executor.new).prepared ≡ Some (journal_of work.now stage)) }
    ensures guards { IsTrue (E.state executor.new).is_clean
        → Guards (IsOnTheWayFrom work.now trees stage) (E.state executor.old) (E.state executor.new) }
    ensures keeps { IsTrue (E.state executor.new).is_clean
        → Guards (KeepsDone work.now trees stage (E.state executor.old).disk.tree) (E.state executor.old) (E.state executor.new) }
    ensures cause { OnErr result (IsTrue (E.state executor.new).is_clean
        → (E.state executor.old).faults < (E.state executor.new).faults) }
{
    let mut number = 0;
    while let Some(action) = action_at(work, stage, number) {
        executor.act(work, action)?;
        number += 1;
    }
    Ok(())
}

/// Does what is left of a stage and of those after it, and ends the run. A run that goes on ends in the tree after all
/// actions, and one that goes back in the tree before. Each call that fails ends it.
pub fn finish<E: Executor>(executor: &mut E, work: &Work, stage: Stage) -> Result<(), E::Fault>
    ghost trees: { Trees }
    // the actions can be done in order
    requires leads { IsTrue (E.state executor.old).is_clean → Leads work.now trees }
    // the journal is of this work, at this stage
    requires journal { IsTrue (E.state executor.old).is_clean
        → (E.state executor.old).disk.journal ≡ Some (journal_of work.now stage) }
    // the first actions of the stage are done, and no other
    requires tree { IsTrue (E.state executor.old).is_clean → IsAtStage work.now trees stage (E.state executor.old).disk.tree }
    // all actions are done, or, on the way back, the tree is the one before
    ensures ends { OnOk result (IsTrue (E.state executor.new).is_clean → ((E.state executor.new).disk.journal ≡ None)
        × EndsFrom work.now trees stage (E.state executor.new).disk.tree) }
    // and so it is after a loss of power
    ensures lasts { OnOk result (IsTrue (E.state executor.new).is_clean → (c : Disk) → (E.state executor.new).may_leave c
        → EndsFrom work.now trees stage c.tree) }
    // without a journal all actions are done, or, on the way back, the tree is the one before
    ensures whole { IsTrue (E.state executor.new).is_clean → (E.state executor.new).disk.journal ≡ None
        → EndsFrom work.now trees stage (E.state executor.new).disk.tree }
    // a failure leaves the journal at the stage, or a later one on the same way, whose first actions are done, and no other
    ensures guards { IsTrue (E.state executor.new).is_clean
        → Guards (IsOnTheWayFrom work.now trees stage) (E.state executor.old) (E.state executor.new) }
    // as long as the journal says the stage, as many of its first actions are done as before, or more
    ensures keeps { IsTrue (E.state executor.new).is_clean
        → Guards (KeepsDone work.now trees stage (E.state executor.old).disk.tree) (E.state executor.old) (E.state executor.new) }
    // so it is after a crash at any moment, unless that leaves what might have been left before
    ensures any_moment { IsTrue (E.state executor.new).is_clean
        → (c : Disk) → (E.state executor.new).left_since (E.state executor.old).moment c
        → (E.state executor.old).may_leave c ⊎ IsOnTheWayFrom work.now trees stage c }
    // it fails only if a call failed
    ensures cause { OnErr result (IsTrue (E.state executor.new).is_clean
        → (E.state executor.old).faults < (E.state executor.new).faults) }
{
    do_stage(executor, work, stage)?;
    let mut at = stage;
    while let Some(next) = next_stage(at) {
        executor.enter(work, next)?;
        do_stage(executor, work, next)?;
        at = next;
    }
    executor.end(work)
}

/// Takes a run at a stage back, and returns `true`. If it is too late, does nothing, and returns `false`.
pub fn turn_back<E: Executor>(executor: &mut E, work: &Work, stage: Stage) -> Result<bool, E::Fault>
    ghost trees: { Trees }
    // the actions can be done in order
    requires leads { IsTrue (E.state executor.old).is_clean → Leads work.now trees }
    // the journal is of this work, at this stage
    requires journal { IsTrue (E.state executor.old).is_clean
        → (E.state executor.old).disk.journal ≡ Some (journal_of work.now stage) }
    // the first actions of the stage are done, and no other
    requires tree { IsTrue (E.state executor.old).is_clean → IsAtStage work.now trees stage (E.state executor.old).disk.tree }
    // the tree is the one before
    ensures returns { IfOk result (λ back. IsTrue back → IsTrue (E.state executor.new).is_clean
        → ((E.state executor.new).disk.journal ≡ None) × ((E.state executor.new).disk.tree ≡ trees.before)) }
    // and so it is after a loss of power
    ensures lasts { IfOk result (λ back. IsTrue back → IsTrue (E.state executor.new).is_clean
        → (c : Disk) → (E.state executor.new).may_leave c → c.tree ≡ trees.before) }
    // only the last stage isn't taken back
    ensures too_late { IfOk result (λ back. back ≡ false → stage_back stage ≡ None) }
    // at the last stage nothing is done
    ensures stays { stage_back stage ≡ None → (result ≡ Ok false) × (executor.new ≡ executor.old) }
    // a failure leaves what was there, or a journal of a stage on the way back, whose first actions are done, and no other
    ensures guards { IsTrue (E.state executor.new).is_clean
        → Guards (IsOnTheWayBack work.now trees stage (E.state executor.old).disk) (E.state executor.old) (E.state executor.new) }
    // as long as the journal says the stage that takes this one back, as many of its first actions are done as before, or more
    ensures keeps { IsTrue (E.state executor.new).is_clean → (back : Stage) → stage_back stage ≡ Some back
        → Guards (KeepsDone work.now trees back (E.state executor.old).disk.tree) (E.state executor.old) (E.state executor.new) }
    // so it is after a crash at any moment, unless that leaves what might have been left before
    ensures any_moment { IsTrue (E.state executor.new).is_clean
        → (c : Disk) → (E.state executor.new).left_since (E.state executor.old).moment c
        → (E.state executor.old).may_leave c ⊎ IsOnTheWayBack work.now trees stage (E.state executor.old).disk c }
    // it fails only if a call failed
    ensures cause { OnErr result (IsTrue (E.state executor.new).is_clean
        → (E.state executor.old).faults < (E.state executor.new).faults) }
{
    let Some(back) = stage_back(stage) else {
        return Ok(false);
    };
    if back == stage {
        finish(executor, work, back)?;
        return Ok(true);
    }
    executor.enter(work, back)?;
    finish(executor, work, back)?;
    Ok(true)
}
