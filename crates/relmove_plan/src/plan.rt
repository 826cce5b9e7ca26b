//! The plan of a run.
ghost use Rattle.std.specs.Prelude.{◌≡◌, All, IfErr, IfOk, OnOk, map, string_bytes};
ghost use Rattle.std.specs.Option.{option_map_or};
ghost use Rattle.relative_path_links.specs.Site.{AreRewritten, KeepTheirLinks};
ghost use Rattle.relative_path_moves.specs.Moves.{moves_of};
ghost use Rattle.relmove_checks.specs.Moves.{EachMove};
ghost use Rattle.relmove_checks.specs.Plan.{AreAllowed, IsRefused};
ghost use Rattle.relmove_checks.specs.Trees.{entry_paths};
ghost use Rattle.relmove_steps.specs.Actions.{DoesMove, ReplacesPages, WritesPages, action_texts, staged_names};
ghost use Rattle.relmove_steps.specs.NewFiles.{HaveOwnFiles};
ghost use Rattle.relmove_steps.specs.Pages.{changed_paths, page_paths};
ghost use Rattle.relmove_steps.specs.StagingNames.{AreFreeNames};
ghost use Rattle.relmove_plan.specs.ActionPaths.{AreSpelled, DoNoMore};
ghost use Rattle.relmove_plan.specs.KnownTrees.{RunsOn};
ghost use Rattle.relmove_plan.specs.MadePaths.{IsMadePath};
ghost use Rattle.relmove_plan.specs.Symlinks.{AreNotices};
ghost use Rattle.relmove_plan.specs.WholeTrees.{IsWhole};

use crate::symlinks::{SymlinkNotice, symlink_notices};
use relative_path::RelativePath;
use relative_path_links::{Finder, MovedSitePage, SitePage, SiteRoot, rewrite_site};
use relative_path_moves::TreeMoves;
use relmove_actions::Actions;
use relmove_checks::{Entry, NameRule, Refusal, coming_index, entry_index, leaving_table};
use relmove_steps::{After, actions_of};
use std::alloc::{AllocError, Global};

/// A tree of files, and the pages among them.
#[derive(Clone, Copy, Debug)]
pub struct SiteTree<'a> {
    /// All that is below the root: each entry after the directory that holds it. It has no
    /// name that isn't UTF-8, and not what is in a directory that isn't read.
    pub entries: &'a [Entry<'a>],
    /// The pages.
    pub pages: &'a [SitePage<'a>],
    /// The root of the site, from which targets lead that begin with a slash.
    pub root: &'a SiteRoot,
}

/// What a run does.
#[derive(Drop)]
pub struct Plan<'a> {
    /// The table of the moves.
    pub moves: TreeMoves<'a>,
    /// Each page after the moves, in the order of the tree's pages: its path, what becomes of its targets, and its text if
    /// it changes.
    pub pages: Vec<MovedSitePage>,
    /// The symbolic links that move, or that lead to what moves.
    pub symlinks: Vec<SymlinkNotice>,
    /// The actions that do it.
    pub actions: Actions,
}

/// Plans to move files and directories of a tree, each from its old path to its new one, and to change the pages so that
/// each link leads to the file to which it led before, or is reported. The links of a page are those whose targets the finder
/// finds.
///
/// What links lead to moves as the files do, unless there is a table `links` for it. Such a table has the same moves, and those
/// of other names under which links mean files, as `a.html` for a page `a.md`.
pub fn make_plan<'a, F: Finder>(
    alloc: Global,
    tree: SiteTree<'_>,
    moves: &[(RelativePath<'a>, RelativePath<'a>)],
    links: Option<&TreeMoves<'_>>,
    rule: NameRule,
    finder: &F,
) -> Result<Plan<'a>, Refusal>
    // the table is of these moves
    ensures table { IfOk result (λ plan. plan.moves ≡ moves_of moves.now) }
    // each link that is read still leads to its file by the table of links, query and fragment kept, or is left; just
    // pages with a text change
    ensures links { IfOk result (λ plan. KeepTheirLinks (F.finds finder.now) tree.entry.root.now (moves_of moves.now)
        (option_map_or (λ table. table.now) links.entry (moves_of moves.now)) tree.entry.pages.now plan.pages.items) }
    // each page as by `rewrite_links`, but for targets that are given up, at its path after the moves
    ensures rewritten { IfOk result (λ plan. AreRewritten (F.finds finder.now) tree.entry.root.now (moves_of moves.now)
        (option_map_or (λ table. table.now) links.entry (moves_of moves.now)) tree.entry.pages.now plan.pages.items) }
    // the moves pass each check
    ensures accepted { OnOk result (AreAllowed tree.entry.entries.now (moves_of moves.now) rule) }
    // staging names are `.relmove-` and a number, all different, and no entry is at one
    ensures names { IfOk result (λ plan. AreFreeNames (entry_paths tree.entry.entries.now)
        (staged_names (action_texts plan.actions))) }
    // each new text has its own file and number, in the page's directory, where no entry is
    ensures files { IfOk result (λ plan. HaveOwnFiles (entry_paths tree.entry.entries.now)
        (changed_paths tree.entry.pages.now plan.pages.items) (action_texts plan.actions)) }
    // new texts are of exactly the changed pages, in order
    ensures texts { IfOk result (λ plan. WritesPages
        (changed_paths tree.entry.pages.now plan.pages.items) (action_texts plan.actions)) }
    // what moves comes to its new path, changed pages aside
    ensures moved { IfOk result (λ plan. EachMove
        (DoesMove (changed_paths tree.entry.pages.now plan.pages.items) (action_texts plan.actions)) (moves_of moves.now)) }
    // a changed page's new text comes by its new file to the page's new path
    ensures replaced { IfOk result (λ plan. ReplacesPages tree.entry.pages.now plan.pages.items (action_texts plan.actions)) }
    // notices are of exactly the symbolic links that move, or lead to what moves, in order
    ensures symlinks { IfOk result (λ plan. AreNotices (moves_of moves.now) tree.entry.entries.now plan.symlinks.items) }
    // if entries are whole, on each tree that agrees with them the actions can be done, and end in the tree after the moves
    ensures run { IfOk result (λ plan. IsWhole tree.entry.entries.now (page_paths tree.entry.pages.now)
        → RunsOn tree.entry.entries.now tree.entry.pages.now plan.pages.items (moves_of moves.now)
        (action_texts plan.actions) (map string_bytes plan.actions.made.items)
        (map string_bytes plan.actions.emptied.items)) }
    // if entries are whole, each path of the actions is names with a slash between two: no `.`, no `..`, no other slash
    ensures spelled { IfOk result (λ plan. IsWhole tree.entry.entries.now (page_paths tree.entry.pages.now)
        → AreSpelled (action_texts plan.actions) (map string_bytes plan.actions.made.items)
        (map string_bytes plan.actions.emptied.items)) }
    // if entries are whole, no directory is made at a run's own name, but below the staging name of what moves
    ensures made { IfOk result (λ plan. IsWhole tree.entry.entries.now (page_paths tree.entry.pages.now)
        → All (IsMadePath (moves_of moves.now) (action_texts plan.actions)) (map string_bytes plan.actions.made.items)) }
    // nothing leaves or is emptied but for moves and changed pages; what leaves comes or is removed, once
    ensures only { IfOk result (λ plan. DoNoMore (moves_of moves.now)
        (changed_paths tree.entry.pages.now plan.pages.items) (action_texts plan.actions)
        (map string_bytes plan.actions.emptied.items)) }
    // refusals but `OutOfMemory` are of the first failed check, and its first move or entry
    ensures refused { IfErr result (IsRefused tree.entry.entries.now (moves_of moves.now) rule) }
{
    let index = entry_index(alloc, tree.entries)?;
    let table = leaving_table(alloc, tree.entries, &index, moves, rule)?;
    let after = coming_index(alloc, tree.entries, &index, &table)?;
    let pages = rewrite_pages(alloc, tree, &table, links, finder)?;
    let symlinks = symlink_notices(alloc, tree.entries, &table)?;
    let now = After {
        index: &index,
        table: &table,
        after: &after,
        pages: &pages,
    };
    let actions = actions_of(alloc, tree.pages, now)?;
    Ok(Plan {
        moves: table,
        pages,
        symlinks,
        actions,
    })
}

// Returns the pages of a tree after the moves of a table. What links lead to moves by its own table, if there is one.
fn rewrite_pages<F: Finder>(
    alloc: Global,
    tree: SiteTree<'_>,
    table: &TreeMoves<'_>,
    links: Option<&TreeMoves<'_>>,
    finder: &F,
) -> Result<Vec<MovedSitePage>, AllocError>
    ensures links { IfOk result (λ pages. KeepTheirLinks (F.finds finder.now) tree.entry.root.now table.now
        (option_map_or (λ links. links.now) links.entry table.now) tree.entry.pages.now pages.items) }
    ensures rewritten { IfOk result (λ pages. AreRewritten (F.finds finder.now) tree.entry.root.now table.now
        (option_map_or (λ links. links.now) links.entry table.now) tree.entry.pages.now pages.items) }
{
    match links {
        Some(links) => rewrite_site(alloc, tree.pages, tree.root, table, links, finder),
        None => rewrite_site(alloc, tree.pages, tree.root, table, table, finder),
    }
}
