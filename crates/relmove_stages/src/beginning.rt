//! A whole run, from its begin.
ghost use Rattle.std.specs.Prelude.{◌≡◌, ◌⊎◌, ◌<◌, ◌+◌, ℕ, Some, None, IsTrue, IfErr, OnOk, OnErr};
ghost use Rattle.relmove_journal.specs.declared.work.Stage.TheVariants.{Erasing, Staging, Writing};
ghost use Rattle.relmove_stages.specs.Halts.{IsAfterHalt};
ghost use Rattle.relmove_stages.specs.Runs.{CanInitiate, Guards, IsAllDone, IsAtStage, IsOnTheWay, IsOnTheWayFrom, Leads, Trees};
ghost use Rattle.relmove_stages.specs.States.{Disk, IsEndKnown, journal_of};

use crate::executor::Executor;
use crate::initiator::Initiator;
use crate::machine::finish;
use relmove_journal::{Stage, Work};

/// How a run stopped before all was done.
#[derive(Debug, Drop)]
pub enum Halt<F: Drop> {
    /// The run is taken back: the tree is the one before, and no journal is there.
    Refused(F),
    /// The run moved nothing, and was to be taken back, but a call failed there too. Without a journal it is taken back.
    Left(F),
    /// The run stopped in the middle.
    Stopped(F),
}

/// Carries out a run: puts the first journal, writes the new texts, and does the actions of each stage. If a call fails before
/// anything moves, takes the run back.
pub fn carry_out<E: Initiator>(executor: &mut E, work: &Work) -> Result<(), Halt<E::Fault>>
    ghost trees: { Trees }
    // the actions can be done in order
    requires leads { IsTrue (E.state executor.old).is_clean → Leads work.now trees }
    // the new texts can be written
    requires texts { IsTrue (E.state executor.old).is_clean → CanInitiate work.now (E.texts executor.old) trees }
    // no journal is there
    requires journal { IsTrue (E.state executor.old).is_clean → (E.state executor.old).disk.journal ≡ None }
    // the tree is the one before
    requires tree { IsTrue (E.state executor.old).is_clean → (E.state executor.old).disk.tree ≡ trees.before }
    // all actions are done
    ensures ends { OnOk result (IsTrue (E.state executor.new).is_clean → ((E.state executor.new).disk.journal ≡ None)
        × IsAllDone work.now trees (E.state executor.new).disk.tree) }
    // and so it is after a loss of power
    ensures lasts { OnOk result (IsTrue (E.state executor.new).is_clean → (c : Disk) → (E.state executor.new).may_leave c
        → IsAllDone work.now trees c.tree) }
    // how it stopped says what is there
    ensures halts { IfErr result (λ halt. IsTrue (E.state executor.new).is_clean
        → IsAfterHalt work.now trees ((E.state executor.old).faults + 1) (E.state executor.new) halt) }
    // after a failure too the first actions of the journal's stage are done, and no other, and it is no stage that takes moves back
    ensures guards { IsTrue (E.state executor.new).is_clean
        → Guards (IsOnTheWay work.now trees) (E.state executor.old) (E.state executor.new) }
    // so it is after a crash at any moment, unless that leaves what might have been left before
    ensures any_moment { IsTrue (E.state executor.new).is_clean
        → (c : Disk) → (E.state executor.new).left_since (E.state executor.old).moment c
        → (E.state executor.old).may_leave c ⊎ IsOnTheWay work.now trees c }
    // it fails only if a call failed
    ensures cause { OnErr result (IsTrue (E.state executor.new).is_clean
        → (E.state executor.old).faults < (E.state executor.new).faults) }
{
    if let Err(fault) = executor.begin(work) {
        return Err(end_at_once(executor, work, fault));
    }
    if let Err(fault) = write_texts(executor, work) {
        return Err(take_back(executor, work, Stage::Writing, fault));
    }
    go_on(executor, work)
}

// Writes the new texts, one after another.
fn write_texts<E: Initiator>(executor: &mut E, work: &Work) -> Result<(), E::Fault>
    ghost trees: { Trees }
    requires texts { IsTrue (E.state executor.old).is_clean → CanInitiate work.now (E.texts executor.old) trees }
    requires journal { IsTrue (E.state executor.old).is_clean
        → (E.state executor.old).disk.journal ≡ Some (journal_of work.now Writing) }
    requires tree { IsTrue (E.state executor.old).is_clean → (E.state executor.old).disk.tree ≡ trees.before }
    ensures journal { IsTrue (E.state executor.new).is_clean
        → (E.state executor.new).disk.journal ≡ Some (journal_of work.now Writing) }
    ensures at { IsTrue (E.state executor.new).is_clean → IsAtStage work.now trees Writing (E.state executor.new).disk.tree }
    ensures written { OnOk result (IsTrue (E.state executor.new).is_clean → (E.state executor.new).disk.tree ≡ trees.written) }
    ensures guards { IsTrue (E.state executor.new).is_clean
        → Guards (IsOnTheWayFrom work.now trees Writing) (E.state executor.old) (E.state executor.new) }
    ensures cause { OnErr result (IsTrue (E.state executor.new).is_clean
        → (E.state executor.old).faults < (E.state executor.new).faults) }
{
    let texts = work.texts.as_slice();
    let mut number = 0;
    while number < texts.len() {
        executor.write(number, &texts[number])?;
        number += 1;
    }
    Ok(())
}

// Goes on from the new texts to the end.
fn go_on<E: Executor>(executor: &mut E, work: &Work) -> Result<(), Halt<E::Fault>>
    ghost trees: { Trees }
    requires leads { IsTrue (E.state executor.old).is_clean → Leads work.now trees }
    requires journal { IsTrue (E.state executor.old).is_clean
        → (E.state executor.old).disk.journal ≡ Some (journal_of work.now Writing) }
    requires way { IsTrue (E.state executor.old).is_clean → IsOnTheWay work.now trees (E.state executor.old).disk }
    requires tree { IsTrue (E.state executor.old).is_clean → (E.state executor.old).disk.tree ≡ trees.written }
    ensures ends { OnOk result (IsTrue (E.state executor.new).is_clean → ((E.state executor.new).disk.journal ≡ None)
        × IsAllDone work.now trees (E.state executor.new).disk.tree) }
    ensures lasts { OnOk result (IsTrue (E.state executor.new).is_clean → (c : Disk) → (E.state executor.new).may_leave c
        → IsAllDone work.now trees c.tree) }
    ensures halts { IfErr result (λ halt. IsTrue (E.state executor.new).is_clean
        → IsAfterHalt work.now trees ((E.state executor.old).faults + 1) (E.state executor.new) halt) }
    ensures guards { IsTrue (E.state executor.new).is_clean
        → Guards (IsOnTheWay work.now trees) (E.state executor.old) (E.state executor.new) }
    ensures cause { OnErr result (IsTrue (E.state executor.new).is_clean
        → (E.state executor.old).faults < (E.state executor.new).faults) }
{
    if let Err(fault) = executor.enter(work, Stage::Staging) {
        return Err(erase(executor, work, fault));
    }
    match finish(executor, work, Stage::Staging) {
        Ok(()) => Ok(()),
        Err(fault) => Err(Halt::Stopped(fault)),
    }
}

// Takes a run back that moved nothing, if the journal may say that things get staging names.
fn erase<E: Executor>(executor: &mut E, work: &Work, fault: E::Fault) -> Halt<E::Fault>
    ghost trees: { Trees }
    requires leads { IsTrue (E.state executor.old).is_clean → Leads work.now trees }
    requires journal { IsTrue (E.state executor.old).is_clean
        → ((E.state executor.old).disk.journal ≡ Some (journal_of work.now Writing))
        ⊎ ((E.state executor.old).disk.journal ≡ Some (journal_of work.now Staging)) }
    requires way { IsTrue (E.state executor.old).is_clean → IsOnTheWay work.now trees (E.state executor.old).disk }
    requires tree { IsTrue (E.state executor.old).is_clean → (E.state executor.old).disk.tree ≡ trees.written }
    ensures halts { IsTrue (E.state executor.new).is_clean
        → IsAfterHalt work.now trees (E.state executor.old).faults (E.state executor.new) result }
    ensures guards { IsTrue (E.state executor.new).is_clean
        → Guards (IsOnTheWay work.now trees) (E.state executor.old) (E.state executor.new) }
{
    if executor.enter(work, Stage::Erasing).is_err() {
        return Halt::Stopped(fault);
    }
    take_back(executor, work, Stage::Erasing, fault)
}

// Takes a run back from a stage of the way back.
fn take_back<E: Executor>(
    executor: &mut E,
    work: &Work,
    stage: Stage,
    fault: E::Fault,
) -> Halt<E::Fault>
    ghost trees: { Trees }
    requires last { (stage ≡ Writing) ⊎ (stage ≡ Erasing) }
    requires leads { IsTrue (E.state executor.old).is_clean → Leads work.now trees }
    requires journal { IsTrue (E.state executor.old).is_clean
        → (E.state executor.old).disk.journal ≡ Some (journal_of work.now stage) }
    requires tree { IsTrue (E.state executor.old).is_clean → IsAtStage work.now trees stage (E.state executor.old).disk.tree }
    ensures halts { IsTrue (E.state executor.new).is_clean
        → IsAfterHalt work.now trees (E.state executor.old).faults (E.state executor.new) result }
    ensures guards { IsTrue (E.state executor.new).is_clean
        → Guards (IsOnTheWayFrom work.now trees stage) (E.state executor.old) (E.state executor.new) }
{
    if finish(executor, work, stage).is_err() {
        return Halt::Left(fault);
    }
    Halt::Refused(fault)
}

// Ends a run whose first journal may not be there.
fn end_at_once<E: Executor>(executor: &mut E, work: &Work, fault: E::Fault) -> Halt<E::Fault>
    ghost trees: { Trees }
    requires known { IsTrue (E.state executor.old).is_clean → IsEndKnown (E.state executor.old) }
    requires way { IsTrue (E.state executor.old).is_clean → IsOnTheWayFrom work.now trees Writing (E.state executor.old).disk }
    requires tree { IsTrue (E.state executor.old).is_clean → (E.state executor.old).disk.tree ≡ trees.before }
    ensures halts { IsTrue (E.state executor.new).is_clean
        → IsAfterHalt work.now trees (E.state executor.old).faults (E.state executor.new) result }
    ensures guards { IsTrue (E.state executor.new).is_clean
        → Guards (IsOnTheWayFrom work.now trees Writing) (E.state executor.old) (E.state executor.new) }
{
    if executor.end(work).is_err() {
        return Halt::Left(fault);
    }
    Halt::Refused(fault)
}
