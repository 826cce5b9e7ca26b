//! An executor of which nothing is known, over a disk in memory. So a test needs no proof that its actions can be done.
use relative_path::RelativePath;
use relative_path_links::{Markdown, MovedSitePage};
use relmove_actions::NewText;
use relmove_checks::NameRule;
use relmove_journal::{Stage, TextFile, Work};
use relmove_plan::SiteTree;
use relmove_planned::{MovesFault, PlanInitiator, carry_out_moves};
use relmove_stages::{Action, Executor, Halt, Initiator, carry_out, finish, turn_back};
use relmove_stages_disk::{Fault, MemoryDisk};
use std::alloc::Global;

/// A disk in memory of which nothing is known.
#[derive(Drop)]
pub struct Trial {
    pub disk: MemoryDisk,
}

impl Executor for Trial {
    type Fault = Fault;

    ghost use Rattle.relmove_stages.specs.States.{unknown};
    ghost use Rattle.relmove_stages.proofs.ForCallers.{not_clean};

    ghost state = { λ trial. unknown };

    fn prepare(&mut self, work: &Work, stage: Stage) -> Result<(), Fault> {
        self.disk.prepare(work, stage)
    }

    fn act(&mut self, work: &Work, action: Action<'_>) -> Result<(), Fault> {
        self.disk.act(work, action)
    }

    fn complete(&mut self, work: &Work, stage: Stage) -> Result<(), Fault> {
        self.disk.complete(work, stage)
    }

    fn enter(&mut self, work: &Work, stage: Stage) -> Result<(), Fault> {
        self.disk.enter(work, stage)
    }

    fn end(&mut self, work: &Work) -> Result<(), Fault> {
        self.disk.end(work)
    }

    ghost leaves_now = { λ trial clean. not_clean clean };

    ghost counts_now = { λ trial t clean before. not_clean clean };

    ghost only_now = { λ trial c left. left };
}

impl Initiator for Trial {
    ghost use Rattle.std.specs.Prelude.{[]};

    ghost texts = { λ trial. [] };

    fn begin(&mut self, work: &Work) -> Result<(), Fault> {
        self.disk.begin(work)
    }

    fn write(&mut self, number: usize, text: &TextFile) -> Result<(), Fault> {
        self.disk.write(number, text)
    }
}

impl PlanInitiator for Trial {
    fn set_texts(&mut self, new_texts: Vec<NewText>) -> Result<(), Fault> {
        let mut texts = Vec::new(*new_texts.allocator());
        for new in new_texts {
            texts.push(new.text.into_bytes())?;
        }
        self.disk.set_texts(texts);
        Ok(())
    }
}

/// Carries out a run.
pub fn carry_out_trial(trial: &mut Trial, work: &Work) -> Result<(), Halt<Fault>> {
    carry_out(trial, work)
}

/// Does what is left of a stage and of those after it, and ends the run.
pub fn finish_trial(trial: &mut Trial, work: &Work, stage: Stage) -> Result<(), Fault> {
    finish(trial, work, stage)
}

/// Takes a run at a stage back, and returns `true`, or returns `false` if it is too late.
pub fn turn_trial_back(trial: &mut Trial, work: &Work, stage: Stage) -> Result<bool, Fault> {
    turn_back(trial, work, stage)
}

/// Plans moves, and carries the plan out.
pub fn carry_out_moves_in_trial(
    trial: &mut Trial,
    alloc: Global,
    tree: SiteTree<'_>,
    moves: &[(RelativePath<'_>, RelativePath<'_>)],
) -> Result<Vec<MovedSitePage>, MovesFault<Fault>> {
    carry_out_moves(trial, alloc, tree, moves, NameRule::Plain, &Markdown)
}
