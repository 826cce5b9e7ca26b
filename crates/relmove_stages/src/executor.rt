//! What does the actions of a run.
ghost use Rattle.std.specs.Prelude.{◌≡◌, ◌⊎◌, ◌<◌, ◌≤◌, ℕ, Some, None, IsTrue, OnOk, OnErr};
ghost use Rattle.relmove_stages.specs.Runs.{CanBegin, CanEnd};
ghost use Rattle.relmove_stages.specs.StageActions.{Does, IsDone, IsReady, MayDo, action_of};
ghost use Rattle.relmove_stages.specs.States.{CanComeTo, Disk, IsEndKnown, IsOneCall, State, journal_of};

use crate::action::Action;
use relmove_journal::{Stage, Work};

/// What does the actions of a run, one at a time, and keeps its journal. A call that fails has done nothing, or all that it
/// does.
pub trait Executor {
    /// Why a call fails.
    type Fault: Drop;

    /// What is known of the disk.
    ghost state: { Self → State };

    /// Asks for what a stage needs. Changes nothing of the tree.
    fn prepare(&mut self, work: &Work, stage: Stage) -> Result<(), Self::Fault>
        // the stage can begin
        ensures can { OnOk result (IsTrue (state self.new).is_clean → CanBegin work.now stage (state self.old).disk.tree) }
        // it is known that it can
        ensures asked { OnOk result (IsTrue (state self.new).is_clean
            → (state self.new).prepared ≡ Some (journal_of work.now stage)) }
        // the tree and the journal stay
        ensures same { IsTrue (state self.new).is_clean → (state self.new).disk ≡ (state self.old).disk }
        // what a crash leaves
        ensures crash { IsOneCall (state self.old) (state self.new) }
        // it fails only if a call failed, or if it can't be done
        ensures cause { OnErr result (IsTrue (state self.new).is_clean → CanBegin work.now stage (state self.old).disk.tree
            → (state self.old).faults < (state self.new).faults) };

    /// Does an action, unless it is done.
    fn act(&mut self, work: &Work, action: Action<'_>) -> Result<(), Self::Fault>
        // what is ready is done, what is done stays, and no other action is done
        ensures does { OnOk result (IsTrue (state self.new).is_clean
            → Does (action_of action.entry) (state self.old).disk.tree (state self.new).disk.tree) }
        // a failure does nothing or all
        ensures outcome { IsTrue (state self.new).is_clean
            → MayDo (action_of action.entry) (state self.old).disk.tree (state self.new).disk.tree }
        // the journal stays
        ensures journal { IsTrue (state self.new).is_clean → (state self.new).disk.journal ≡ (state self.old).disk.journal }
        // it was known that the journal's stage can begin
        ensures asked { OnOk result (IsTrue (state self.new).is_clean
            → (state self.old).prepared ≡ (state self.old).disk.journal) }
        // what is known of that stays
        ensures prepared { IsTrue (state self.new).is_clean → (state self.new).prepared ≡ (state self.old).prepared }
        // it is no longer known that a stage can end
        ensures forgets { IsTrue (state self.new).is_clean → (state self.new).completed ≡ None }
        // what a crash leaves
        ensures crash { IsOneCall (state self.old) (state self.new) }
        // it fails only if a call failed, or if it can't be done
        ensures cause { OnErr result (IsTrue (state self.new).is_clean
            → (state self.old).prepared ≡ (state self.old).disk.journal
            → IsReady (action_of action.entry) (state self.old).disk.tree ⊎ IsDone (action_of action.entry) (state self.old).disk.tree
            → (state self.old).faults < (state self.new).faults) };

    /// Compares what a stage leaves with what it is to leave. Changes nothing of the tree.
    fn complete(&mut self, work: &Work, stage: Stage) -> Result<(), Self::Fault>
        // the stage can end
        ensures can { OnOk result (IsTrue (state self.new).is_clean → CanEnd work.now stage (state self.old).disk.tree) }
        // it was known that it can begin
        ensures prepared { OnOk result (IsTrue (state self.new).is_clean
            → (state self.old).prepared ≡ Some (journal_of work.now stage)) }
        // it is known that it can
        ensures asked { OnOk result (IsTrue (state self.new).is_clean
            → (state self.new).completed ≡ Some (journal_of work.now stage)) }
        // the tree and the journal stay
        ensures same { IsTrue (state self.new).is_clean → (state self.new).disk ≡ (state self.old).disk }
        // what a crash leaves
        ensures crash { IsOneCall (state self.old) (state self.new) }
        // it fails only if a call failed, or if it can't be done
        ensures cause { OnErr result (IsTrue (state self.new).is_clean
            → (state self.old).prepared ≡ Some (journal_of work.now stage)
            → CanEnd work.now stage (state self.old).disk.tree → (state self.old).faults < (state self.new).faults) };

    /// Waits until all that was done is on the disk, and puts the journal of another stage in the place of the one before.
    fn enter(&mut self, work: &Work, stage: Stage) -> Result<(), Self::Fault>
        // the journal is of this work, at this stage
        ensures entered { OnOk result (IsTrue (state self.new).is_clean
            → (state self.new).disk.journal ≡ Some (journal_of work.now stage)) }
        // if the journal's stage comes to this one, it was known that it can end
        ensures asked { OnOk result (IsTrue (state self.new).is_clean → CanComeTo (state self.old) stage) }
        // a failure does nothing or all
        ensures outcome { IsTrue (state self.new).is_clean
            → ((state self.new).disk.journal ≡ (state self.old).disk.journal)
            ⊎ ((state self.new).disk.journal ≡ Some (journal_of work.now stage)) }
        // the tree stays
        ensures tree { IsTrue (state self.new).is_clean → (state self.new).disk.tree ≡ (state self.old).disk.tree }
        // all that was done before is on the disk: a crash leaves the disk before the call, or the one after it
        ensures synced { OnOk result (IsTrue (state self.new).is_clean → (c : Disk) → (state self.new).may_leave c
            → (c ≡ (state self.old).disk) ⊎ (c ≡ (state self.new).disk)) }
        // what a crash leaves
        ensures crash { IsOneCall (state self.old) (state self.new) }
        // it fails only if a call failed, or if it can't be done
        ensures cause { OnErr result (IsTrue (state self.new).is_clean → CanComeTo (state self.old) stage
            → (state self.old).faults < (state self.new).faults) };

    /// Waits until all that was done is on the disk, and removes the run's own files, the journal last.
    fn end(&mut self, work: &Work) -> Result<(), Self::Fault>
        // no journal is there
        ensures ended { OnOk result (IsTrue (state self.new).is_clean → (state self.new).disk.journal ≡ None) }
        // if there was a journal, it was known that its stage can end
        ensures asked { OnOk result (IsTrue (state self.new).is_clean → IsEndKnown (state self.old)) }
        // a failure does nothing or all
        ensures outcome { IsTrue (state self.new).is_clean
            → ((state self.new).disk.journal ≡ (state self.old).disk.journal) ⊎ ((state self.new).disk.journal ≡ None) }
        // the tree stays
        ensures tree { IsTrue (state self.new).is_clean → (state self.new).disk.tree ≡ (state self.old).disk.tree }
        // all that was done before is on the disk: a crash leaves the disk before the call, or the one after it
        ensures synced { OnOk result (IsTrue (state self.new).is_clean → (c : Disk) → (state self.new).may_leave c
            → (c ≡ (state self.old).disk) ⊎ (c ≡ (state self.new).disk)) }
        // what a crash leaves
        ensures crash { IsOneCall (state self.old) (state self.new) }
        // it fails only if a call failed, or if it can't be done
        ensures cause { OnErr result (IsTrue (state self.new).is_clean → IsEndKnown (state self.old)
            → (state self.old).faults < (state self.new).faults) };

    /// A crash may leave what is there.
    ghost leaves_now: { (executor : Self) → IsTrue (state executor).is_clean
        → (state executor).may_leave (state executor).disk };

    /// What is there might be left since this moment, and since each before.
    ghost counts_now: { (executor : Self) (t : ℕ) → IsTrue (state executor).is_clean → t ≤ (state executor).moment
        → (state executor).left_since t (state executor).disk };

    /// Since this moment there is no other.
    ghost only_now: { (executor : Self) (c : Disk) → (state executor).left_since (state executor).moment c
        → (state executor).may_leave c };
}
