//! The work of a run of moves.
ghost use Rattle.std.specs.Prelude.{◌≡◌, ℕ, Some, IfErr, IfOk, IsErrOf, map, string_bytes};
ghost use Rattle.std.specs.List.{position};
ghost use Rattle.relative_path_links.specs.Site.{AreRewritten, KeepTheirLinks};
ghost use Rattle.relative_path_moves.specs.Moves.{moves_of};
ghost use Rattle.relmove_plan.specs.WholeTrees.{IsWhole};
ghost use Rattle.relmove_planned.specs.Faults.{IsNoWork};
ghost use Rattle.relmove_planned.specs.Plans.{HasRun, has_reserved_name};
ghost use Rattle.relmove_planned.specs.declared.refusal.WorkRefusal.TheVariants.{ReservedName};
ghost use Rattle.relmove_steps.specs.Pages.{page_paths};

use crate::pages::{first_reserved, texts_by_path};
use crate::refusal::WorkRefusal;
use relative_path::RelativePath;
use relative_path_links::{Finder, MovedSitePage};
use relmove_actions::NewText;
use relmove_checks::NameRule;
use relmove_journal::{Work, is_of_run};
use relmove_plan::{SiteTree, make_plan};
use relmove_work::work_of;
use std::alloc::Global;

/// The work of a run of moves, and what becomes of the pages.
#[derive(Drop)]
pub struct PlannedWork {
    /// Each page after the moves, in the order of the tree's pages.
    pub pages: Vec<MovedSitePage>,
    /// The new texts, each with its staging name as its file.
    pub texts: Vec<NewText>,
    /// The work.
    pub work: Work,
}

/// Plans moves as `make_plan` does, and returns the work of a run that carries the plan out.
///
/// Fails if the path of a page has a name of a run's own, if the moves are refused, or if the plan's actions can't be a run's.
///
/// Allocates what `make_plan`, `work_of` and `is_of_run` do, and a map of the pages' texts.
///
/// ```
/// let [a, b] = ["a.md", "b.md"].map(RelativePath::new);
/// let entries = [
///     Entry { path: NormalPath::of(alloc, a)?, kind: Kind::File },
///     Entry { path: NormalPath::of(alloc, b)?, kind: Kind::File },
/// ];
/// let pages = [SitePage { path: &entries[0].path, text: "[b](b.md)" }];
/// let moves = [(b, RelativePath::new("guide/b.md"))];
/// let tree = SiteTree { entries: &entries, pages: &pages, root: &SiteRoot::unknown() };
/// let planned = planned_work(alloc, tree, &moves, NameRule::Plain, &Markdown)?;
/// assert_eq!(rt; planned.texts[0].text.as_str(), "[b](guide/b.md)");
/// assert_eq!(rt; planned.work.made[0].as_str(), "guide");
/// ```
pub fn planned_work<F: Finder>(
    alloc: Global,
    tree: SiteTree<'_>,
    moves: &[(RelativePath<'_>, RelativePath<'_>)],
    rule: NameRule,
    finder: &F,
) -> Result<PlannedWork, WorkRefusal>
    // if entries are whole, a run for these moves has this work and these new texts, as `carry_out_plan` requires
    ensures planned { IfOk result (λ planned. IsWhole tree.entry.entries.now (page_paths tree.entry.pages.now)
        → HasRun tree.entry.entries.now tree.entry.pages.now planned.pages.items (moves_of moves.now) rule planned.work
        (map (λ new. string_bytes new.text) planned.texts.items)) }
    // each link that is read still leads to its file, query and fragment kept, or is left; just pages with a text change
    ensures links { IfOk result (λ planned. KeepTheirLinks (F.finds finder.now) tree.entry.root.now (moves_of moves.now)
        (moves_of moves.now) tree.entry.pages.now planned.pages.items) }
    // each page as by `rewrite_links`, but for targets that are given up, at its path after the moves
    ensures rewritten { IfOk result (λ planned. AreRewritten (F.finds finder.now) tree.entry.root.now (moves_of moves.now)
        (moves_of moves.now) tree.entry.pages.now planned.pages.items) }
    // a refusal says why there is no such work
    ensures refused { IfErr result (IsNoWork tree.entry.entries.now tree.entry.pages.now (moves_of moves.now) rule) }
    // a page that has a name of a run's own is refused, by the number of the first
    ensures reserved { (k : ℕ) → position has_reserved_name tree.entry.pages.now ≡ Some k → IsErrOf result (ReservedName k) }
{
    if let Some(page) = first_reserved(tree.pages) {
        return Err(WorkRefusal::ReservedName(page));
    }
    let plan = make_plan(alloc, tree, moves, None, rule, finder)?;
    let old_texts = texts_by_path(alloc, tree.pages)?;
    let Some((texts, work)) = work_of(alloc, plan.actions, &old_texts)? else {
        return Err(WorkRefusal::LacksText);
    };
    if !is_of_run(alloc, &work)? {
        return Err(WorkRefusal::NotOfRun);
    }
    Ok(PlannedWork {
        pages: plan.pages,
        texts,
        work,
    })
}
