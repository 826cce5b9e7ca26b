//! What begins a run.
ghost use Rattle.std.specs.Prelude.{◌≡◌, ◌⊎◌, ◌<◌, ℕ, List, Some, None, IsTrue, OnOk, OnErr};
ghost use Rattle.std.specs.List.{slice_get};
ghost use Rattle.relmove_journal.specs.declared.work.Stage.TheVariants.{Writing};
ghost use Rattle.relmove_stages.specs.Runs.{CanWrite};
ghost use Rattle.relmove_stages.specs.StageActions.{MayWrite, place_of};
ghost use Rattle.relmove_stages.specs.States.{Disk, IsEndKnown, IsOneCall, Leaves, journal_of};
ghost use Rattle.relmove_trees.specs.TreeActions.{Acts, Write};

use crate::executor::Executor;
use relmove_journal::{TextFile, Work};

/// What begins a run, and writes its new texts.
pub trait Initiator: Executor {
    /// The new texts that it writes, in the order of the journal's.
    ghost texts: { Self → List (List ℕ) };

    /// Puts the first journal, at the stage `writing`, where none is. A call that fails has done nothing, or all.
    fn begin(&mut self, work: &Work) -> Result<(), Self::Fault>
        // the new texts stay
        ensures texts { texts self.new ≡ texts self.old }
        // the journal is of this work, at this stage
        ensures entered { OnOk result (IsTrue (Self.state self.new).is_clean
            → (Self.state self.new).disk.journal ≡ Some (journal_of work.now Writing)) }
        // no journal was there
        ensures free { OnOk result (IsTrue (Self.state self.new).is_clean → (Self.state self.old).disk.journal ≡ None) }
        // a failure does nothing, or all where no journal was
        ensures outcome { IsTrue (Self.state self.new).is_clean
            → ((Self.state self.new).disk.journal ≡ (Self.state self.old).disk.journal)
            ⊎ (((Self.state self.old).disk.journal ≡ None)
            × ((Self.state self.new).disk.journal ≡ Some (journal_of work.now Writing))) }
        // where none was, it is known that the stage can end: nothing is written yet
        ensures known { IsTrue (Self.state self.new).is_clean → (Self.state self.old).disk.journal ≡ None
            → IsEndKnown (Self.state self.new) }
        // the tree stays
        ensures tree { IsTrue (Self.state self.new).is_clean → (Self.state self.new).disk.tree ≡ (Self.state self.old).disk.tree }
        // all that was done before is on the disk: a crash leaves the disk before the call, or the one after it
        ensures synced { OnOk result (IsTrue (Self.state self.new).is_clean → (c : Disk) → (Self.state self.new).may_leave c
            → (c ≡ (Self.state self.old).disk) ⊎ (c ≡ (Self.state self.new).disk)) }
        // what a crash leaves
        ensures crash { IsOneCall (Self.state self.old) (Self.state self.new) }
        // it fails only if a call failed, or if it can't be done
        ensures cause { OnErr result (IsTrue (Self.state self.new).is_clean → (Self.state self.old).disk.journal ≡ None
            → (Self.state self.old).faults < (Self.state self.new).faults) };

    /// Writes the new text of this number to its staging name. A call that fails may leave a part of it there, and so may a crash.
    fn write(&mut self, number: usize, text: &TextFile) -> Result<(), Self::Fault>
        // the new texts stay
        ensures texts { texts self.new ≡ texts self.old }
        // the whole text is there, and nothing else changes
        ensures written { OnOk result (IsTrue (Self.state self.new).is_clean → (bytes : List ℕ)
            → slice_get (texts self.old) number ≡ Some bytes
            → Acts (Write (place_of text.now.path) bytes) (Self.state self.old).disk.tree (Self.state self.new).disk.tree) }
        // the text has its digest, nothing was at its place, and a directory is above it
        ensures can { OnOk result (IsTrue (Self.state self.new).is_clean
            → CanWrite (texts self.old) number text.now (Self.state self.old).disk.tree) }
        // after a failure it may be there in part, if nothing was at its place
        ensures outcome { IsTrue (Self.state self.new).is_clean
            → MayWrite (place_of text.now.path) text.now.digest (Self.state self.old).disk.tree (Self.state self.new).disk.tree }
        // the journal stays
        ensures journal { IsTrue (Self.state self.new).is_clean
            → (Self.state self.new).disk.journal ≡ (Self.state self.old).disk.journal }
        // it is no longer known that a stage can end
        ensures forgets { IsTrue (Self.state self.new).is_clean → (Self.state self.new).completed ≡ None }
        // what a crash leaves
        ensures crash { Leaves (λ c. (c.journal ≡ (Self.state self.old).disk.journal)
            × MayWrite (place_of text.now.path) text.now.digest (Self.state self.old).disk.tree c.tree)
            (Self.state self.old) (Self.state self.new) }
        // it fails only if a call failed, or if it can't be done
        ensures cause { OnErr result (IsTrue (Self.state self.new).is_clean
            → CanWrite (texts self.old) number text.now (Self.state self.old).disk.tree
            → (Self.state self.old).faults < (Self.state self.new).faults) };
}
