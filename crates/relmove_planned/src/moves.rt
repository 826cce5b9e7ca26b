//! Moves, from their paths to the files.
ghost use Rattle.std.specs.Prelude.{◌≡◌, ◌⊎◌, ℕ, None, Some, IfErr, IfOk, IsErrOf, IsTrue};
ghost use Rattle.std.specs.List.{position};
ghost use Rattle.relative_path_links.specs.Site.{AreRewritten, KeepTheirLinks};
ghost use Rattle.relative_path_moves.specs.Moves.{moves_of};
ghost use Rattle.relmove_plan.specs.WholeTrees.{IsWhole};
ghost use Rattle.relmove_planned.specs.Faults.{IsAfterFault, IsCause};
ghost use Rattle.relmove_planned.specs.Plans.{IsKnownTree, IsMovedTree, IsOnTheirWay, has_reserved_name};
ghost use Rattle.relmove_planned.specs.declared.moves.MovesFault.TheVariants.{Refused};
ghost use Rattle.relmove_planned.specs.declared.refusal.WorkRefusal.TheVariants.{ReservedName};
ghost use Rattle.relmove_stages.specs.Runs.{Guards};
ghost use Rattle.relmove_stages.specs.States.{Disk};
ghost use Rattle.relmove_steps.specs.Pages.{page_paths};

use crate::initiator::PlanInitiator;
use crate::refusal::WorkRefusal;
use crate::run::carry_out_plan;
use crate::work::{PlannedWork, planned_work};
use relative_path::RelativePath;
use relative_path_links::{Finder, MovedSitePage};
use relmove_checks::NameRule;
use relmove_plan::SiteTree;
use relmove_stages::Halt;
use std::alloc::Global;

/// Why moves aren't done, or not all of them.
#[derive(Debug, Drop)]
pub enum MovesFault<F: Drop> {
    /// The moves have no work of a run. Nothing is done.
    Refused(WorkRefusal),
    /// The new texts aren't taken. Nothing is done.
    NotTaken(F),
    /// The run stopped.
    Halted(Halt<F>),
}

/// Plans moves of a tree, and carries the plan out. Returns the pages after the moves.
///
/// Allocates what [`planned_work`] does.
pub fn carry_out_moves<F: Finder, E: PlanInitiator>(
    executor: &mut E,
    alloc: Global,
    tree: SiteTree<'_>,
    moves: &[(RelativePath<'_>, RelativePath<'_>)],
    rule: NameRule,
    finder: &F,
) -> Result<Vec<MovedSitePage>, MovesFault<E::Fault>>
    // entries are whole
    requires whole { IsTrue (E.state executor.old).is_clean → IsWhole tree.entries.now (page_paths tree.pages.now) }
    // the tree is the one that the entries and pages say, with the run's directory
    requires tree { IsTrue (E.state executor.old).is_clean
        → IsKnownTree tree.entries.now tree.pages.now (moves_of moves.now) (E.state executor.old).disk.tree }
    // no journal is there
    requires journal { IsTrue (E.state executor.old).is_clean → (E.state executor.old).disk.journal ≡ None }
    // the tree is the one after the moves, with the new texts of the pages
    ensures ends { IfOk result (λ pages. IsTrue (E.state executor.new).is_clean → ((E.state executor.new).disk.journal ≡ None)
        × IsMovedTree tree.entry.pages.now pages.items (moves_of moves.now) (E.state executor.old).disk.tree
        (E.state executor.new).disk.tree) }
    // and so it is after a loss of power
    ensures lasts { IfOk result (λ pages. IsTrue (E.state executor.new).is_clean → (c : Disk) → (E.state executor.new).may_leave c
        → IsMovedTree tree.entry.pages.now pages.items (moves_of moves.now) (E.state executor.old).disk.tree c.tree) }
    // after a failure too the disk is as it was, or on the way of a run of the moves
    ensures guards { IsTrue (E.state executor.new).is_clean → Guards
        (IsOnTheirWay tree.entry.entries.now tree.entry.pages.now (moves_of moves.now) rule (E.state executor.old).disk)
        (E.state executor.old) (E.state executor.new) }
    // so it is after a crash at any moment, unless that leaves what might have been left before
    ensures any_moment { IsTrue (E.state executor.new).is_clean
        → (c : Disk) → (E.state executor.new).left_since (E.state executor.old).moment c → (E.state executor.old).may_leave c
        ⊎ IsOnTheirWay tree.entry.entries.now tree.entry.pages.now (moves_of moves.now) rule (E.state executor.old).disk c }
    // a fault says what is there
    ensures halts { IfErr result (λ fault. IsTrue (E.state executor.new).is_clean → IsAfterFault tree.entry.entries.now
        tree.entry.pages.now (moves_of moves.now) rule (E.state executor.old) (E.state executor.new) fault) }
    // it fails only if there is no work of a run, for the reason of `planned_work`, or if a call failed
    ensures cause { IfErr result (λ fault. IsCause tree.entry.entries.now tree.entry.pages.now (moves_of moves.now) rule
        (E.state executor.old) (E.state executor.new) fault) }
    // a page that has a name of a run's own is refused, by the number of the first
    ensures reserved { (k : ℕ) → position has_reserved_name tree.entry.pages.now ≡ Some k
        → IsErrOf result (Refused (ReservedName k)) }
    // each link that is read still leads to its file, query and fragment kept, or is left; just pages with a text change
    ensures links { IfOk result (λ pages. KeepTheirLinks (F.finds finder.now) tree.entry.root.now (moves_of moves.now)
        (moves_of moves.now) tree.entry.pages.now pages.items) }
    // each page as by `rewrite_links`, but for targets that are given up, at its path after the moves
    ensures rewritten { IfOk result (λ pages. AreRewritten (F.finds finder.now) tree.entry.root.now (moves_of moves.now)
        (moves_of moves.now) tree.entry.pages.now pages.items) }
{
    let PlannedWork { pages, texts, work } = match planned_work(alloc, tree, moves, rule, finder) {
        Ok(planned) => planned,
        Err(refusal) => return Err(MovesFault::Refused(refusal)),
    };
    if let Err(fault) = executor.set_texts(texts) {
        return Err(MovesFault::NotTaken(fault));
    }
    match carry_out_plan(executor, &work) {
        Ok(()) => Ok(pages),
        Err(halt) => Err(MovesFault::Halted(halt)),
    }
}
