//! The calls of relmove_stages, for what does the actions of a run on files of which nothing is known.
ghost use Rattle.std.specs.Prelude.{◌≡◌, false};

use relmove_journal::{Stage, Work};
use relmove_stages::{Executor, Halt, Initiator, carry_out, finish, turn_back};

// Carries out a run.
pub(crate) fn carry_out_stages<E: Initiator>(
    executor: &mut E,
    work: &Work,
) -> Result<(), Halt<E::Fault>>
    requires { (E.state executor.old).is_clean ≡ false }
{
    carry_out(executor, work)
}

// Does what is left of a stage and of those after it, and ends the run.
pub(crate) fn finish_stages<E: Executor>(
    executor: &mut E,
    work: &Work,
    stage: Stage,
) -> Result<(), E::Fault>
    requires { (E.state executor.old).is_clean ≡ false }
{
    finish(executor, work, stage)
}

// Takes a run at a stage back, and returns `true`, or returns `false` if it is too late.
pub(crate) fn turn_stages_back<E: Executor>(
    executor: &mut E,
    work: &Work,
    stage: Stage,
) -> Result<bool, E::Fault>
    requires { (E.state executor.old).is_clean ≡ false }
{
    turn_back(executor, work, stage)
}
