//! A run of a plan.
ghost use Rattle.std.specs.Prelude.{◌≡◌, ◌⊎◌, ◌<◌, ◌+◌, None, IsTrue, IfErr, OnOk, OnErr};
ghost use Rattle.relmove_planned.specs.Plans.{HasPlannedRun, IsAfterEach};
ghost use Rattle.relmove_stages.specs.Halts.{IsAfterHalt};
ghost use Rattle.relmove_stages.specs.Runs.{Guards, IsOnTheWay};
ghost use Rattle.relmove_stages.specs.States.{Disk};
ghost use Rattle.relmove_work.specs.Leading.{trees_of};

use relmove_journal::Work;
use relmove_stages::{Halt, Initiator, carry_out};

/// Carries out the work of a plan, as `carry_out` does. If it succeeds, the tree is the one after the moves.
pub fn carry_out_plan<E: Initiator>(executor: &mut E, work: &Work) -> Result<(), Halt<E::Fault>>
    // a run of a plan of `make_plan` has the work and the new texts, and the tree is one for which it was planned, with the run's directory
    requires planned { IsTrue (E.state executor.old).is_clean
        → HasPlannedRun work.now (E.texts executor.old) (E.state executor.old).disk.tree }
    // no journal is there
    requires journal { IsTrue (E.state executor.old).is_clean → (E.state executor.old).disk.journal ≡ None }
    // the tree is the one after the moves of each such run
    ensures ends { OnOk result (IsTrue (E.state executor.new).is_clean → ((E.state executor.new).disk.journal ≡ None)
        × IsAfterEach work.now (E.texts executor.old) (E.state executor.old).disk.tree (E.state executor.new).disk.tree) }
    // and so it is after a loss of power
    ensures lasts { OnOk result (IsTrue (E.state executor.new).is_clean → (c : Disk) → (E.state executor.new).may_leave c
        → IsAfterEach work.now (E.texts executor.old) (E.state executor.old).disk.tree c.tree) }
    // how it stopped says what is there
    ensures halts { IfErr result (λ halt. IsTrue (E.state executor.new).is_clean
        → IsAfterHalt work.now (trees_of work.now (E.texts executor.old) (E.state executor.old).disk.tree)
        ((E.state executor.old).faults + 1) (E.state executor.new) halt) }
    // after a failure too the first actions of the journal's stage are done, and no other, and it is no stage that takes moves back
    ensures guards { IsTrue (E.state executor.new).is_clean
        → Guards (IsOnTheWay work.now (trees_of work.now (E.texts executor.old) (E.state executor.old).disk.tree))
        (E.state executor.old) (E.state executor.new) }
    // it fails only if a call failed
    ensures cause { OnErr result (IsTrue (E.state executor.new).is_clean
        → (E.state executor.old).faults < (E.state executor.new).faults) }
{
    carry_out(executor, work)
}
