//! The order of the stages, and the actions of each. The same actions are done, say what a run would change, and say which
//! directories have to be synced.
ghost use Rattle.std.specs.Prelude.{◌≡◌, ◌<◌, ◌+◌, ◌^◌, List, ℕ, Option, Some, None, IfSome, map, reverse};
ghost use Rattle.std.specs.List.{slice_get};
ghost use Rattle.std.specs.Option.{option_map};
ghost use Rattle.relmove_stages.specs.StageActions.{action_of};
ghost use Rattle.relmove_journal.specs.declared.work.Stage.TheVariants.{Cleaning, Erasing, Making, Placing, Staging, Unmaking, Unplacing, Unstaging, Writing};
ghost use Rattle.relmove_stages.specs.Stages.{IsOfStage, cleans, directory_texts, file_texts, leftover_texts, makes, next_stage, path_texts, removes, removes_part, rename_texts, stage_actions, stage_back, stage_texts, takes, undone};

use crate::action::Action;
use relmove_actions::Rename;
use relmove_journal::{Leftover, Stage, TextFile, Work};

/// Returns the stage after this one. The last stage on each way has none.
///
/// ```
/// assert_eq!(rt; next_stage(Stage::Staging), Some(Stage::Making));
/// assert_eq!(rt; next_stage(Stage::Cleaning), None);
/// ```
pub fn next_stage(stage: Stage) -> Option<Stage>
    // the stage after it
    ensures next { result ≡ next_stage stage }
{
    match stage {
        Stage::Writing => None,
        Stage::Staging => Some(Stage::Making),
        Stage::Making => Some(Stage::Placing),
        Stage::Placing => Some(Stage::Cleaning),
        Stage::Cleaning => None,
        Stage::Unplacing => Some(Stage::Unmaking),
        Stage::Unmaking => Some(Stage::Unstaging),
        Stage::Unstaging => Some(Stage::Erasing),
        Stage::Erasing => None,
    }
}

/// Returns the stage from which a run at a stage goes back, or `None` if it is too late.
///
/// ```
/// assert_eq!(rt; stage_back(Stage::Placing), Some(Stage::Unplacing));
/// assert_eq!(rt; stage_back(Stage::Cleaning), None);
/// ```
pub fn stage_back(stage: Stage) -> Option<Stage>
    // the stage that takes this one back
    ensures back { result ≡ stage_back stage }
{
    match stage {
        Stage::Writing => Some(Stage::Writing),
        Stage::Staging => Some(Stage::Unstaging),
        Stage::Making => Some(Stage::Unmaking),
        Stage::Placing => Some(Stage::Unplacing),
        Stage::Cleaning => None,
        Stage::Unplacing => Some(Stage::Unplacing),
        Stage::Unmaking => Some(Stage::Unmaking),
        Stage::Unstaging => Some(Stage::Unstaging),
        Stage::Erasing => Some(Stage::Erasing),
    }
}

/// Returns the action of this number of a stage, or `None` if the stage has fewer. At the stage `writing` the actions are
/// those that take the run back. Allocates nothing.
///
/// ```
/// let mut work = Work::new(alloc);
/// work.made.push(String::from_str(alloc, "guide")?)?;
/// assert!(rt; matches!(action_at(&work, Stage::Making, 0), Some(Action::Make("guide"))));
/// assert!(rt; action_at(&work, Stage::Making, 1).is_none());
/// ```
pub fn action_at(work: &Work, stage: Stage, number: usize) -> Option<Action<'_>>
    // what the stage does, in order
    ensures listed { option_map action_of result ≡ slice_get (stage_actions work.now stage) number }
    // its paths are spelled as the work spells them
    ensures spelled { option_map path_texts result ≡ slice_get (stage_texts work.now stage) number }
    // its kind is one of the stage, and a part is removed by its number
    ensures kind { IfSome result (λ action. IsOfStage stage number action) }
    // the next number fits too
    ensures fits { IfSome result (λ action. number + 1 < 2 ^ 64) }
{
    match stage {
        Stage::Writing => part_at(&work.texts, number),
        Stage::Staging => carry_at(&work.staged, number),
        Stage::Making => make_at(&work.made, number),
        Stage::Placing => carry_at(&work.placed, number),
        Stage::Cleaning => clean_at(&work.cleaned, number),
        Stage::Unplacing => unplace_at(&work.placed, number),
        Stage::Unmaking => unmake_at(&work.made, number),
        Stage::Unstaging => unstage_at(&work.staged, number),
        Stage::Erasing => erase_at(&work.texts, number),
    }
}

// What gives a thing its staging name, or its new path.
fn carry_at(renames: &[Rename], number: usize) -> Option<Action<'_>>
    ensures listed { option_map action_of result ≡ slice_get (map takes renames.now) number }
    ensures spelled { option_map path_texts result ≡ slice_get (map rename_texts renames.now) number }
    ensures kind { IfSome result (λ action. IsOfStage Staging number action × IsOfStage Placing number action) }
    ensures fits { IfSome result (λ action. number + 1 < 2 ^ 64) }
{
    if number >= renames.len() {
        return None;
    }
    Some(Action::Carry(&renames[number]))
}

// What gives a thing that is at its new path its staging name again.
fn unplace_at(renames: &[Rename], number: usize) -> Option<Action<'_>>
    ensures listed { option_map action_of result ≡ slice_get (undone (map takes renames.now)) number }
    ensures spelled { option_map path_texts result ≡ slice_get (reverse (map rename_texts renames.now)) number }
    ensures kind { IfSome result (λ action. IsOfStage Unplacing number action) }
    ensures fits { IfSome result (λ action. number + 1 < 2 ^ 64) }
{
    if number >= renames.len() {
        return None;
    }
    Some(Action::Unplace(&renames[renames.len() - 1 - number]))
}

// What takes a thing that has its staging name back to its old path.
fn unstage_at(renames: &[Rename], number: usize) -> Option<Action<'_>>
    ensures listed { option_map action_of result ≡ slice_get (undone (map takes renames.now)) number }
    ensures spelled { option_map path_texts result ≡ slice_get (reverse (map rename_texts renames.now)) number }
    ensures kind { IfSome result (λ action. IsOfStage Unstaging number action) }
    ensures fits { IfSome result (λ action. number + 1 < 2 ^ 64) }
{
    if number >= renames.len() {
        return None;
    }
    Some(Action::Unstage(&renames[renames.len() - 1 - number]))
}

// What makes a directory.
fn make_at(paths: &[String], number: usize) -> Option<Action<'_>>
    ensures listed { option_map action_of result ≡ slice_get (map makes paths.now) number }
    ensures spelled { option_map path_texts result ≡ slice_get (map directory_texts paths.now) number }
    ensures kind { IfSome result (λ action. IsOfStage Making number action) }
    ensures fits { IfSome result (λ action. number + 1 < 2 ^ 64) }
{
    if number >= paths.len() {
        return None;
    }
    Some(Action::Make(paths[number].as_str()))
}

// What removes a directory that was made.
fn unmake_at(paths: &[String], number: usize) -> Option<Action<'_>>
    ensures listed { option_map action_of result ≡ slice_get (undone (map makes paths.now)) number }
    ensures spelled { option_map path_texts result ≡ slice_get (reverse (map directory_texts paths.now)) number }
    ensures kind { IfSome result (λ action. IsOfStage Unmaking number action) }
    ensures fits { IfSome result (λ action. number + 1 < 2 ^ 64) }
{
    if number >= paths.len() {
        return None;
    }
    Some(Action::Unmake(paths[paths.len() - 1 - number].as_str()))
}

// What removes an old text or an emptied directory.
fn clean_at(leftovers: &[Leftover], number: usize) -> Option<Action<'_>>
    ensures listed { option_map action_of result ≡ slice_get (map cleans leftovers.now) number }
    ensures spelled { option_map path_texts result ≡ slice_get (map leftover_texts leftovers.now) number }
    ensures kind { IfSome result (λ action. IsOfStage Cleaning number action) }
    ensures fits { IfSome result (λ action. number + 1 < 2 ^ 64) }
{
    if number >= leftovers.len() {
        return None;
    }
    Some(clean_action(&leftovers[number]))
}

// What removes what is left over.
fn clean_action(leftover: &Leftover) -> Action<'_>
    ensures does { action_of result ≡ cleans leftover.now }
    ensures spelled { path_texts result ≡ leftover_texts leftover.now }
    ensures kind { (number : ℕ) → IsOfStage Cleaning number result }
{
    match leftover {
        Leftover::Text(text) => Action::RemoveText(text),
        Leftover::Directory(path) => Action::RemoveEmptied(path.as_str()),
    }
}

// What removes a new text.
fn erase_at(texts: &[TextFile], number: usize) -> Option<Action<'_>>
    ensures listed { option_map action_of result ≡ slice_get (map removes texts.now) number }
    ensures spelled { option_map path_texts result ≡ slice_get (map file_texts texts.now) number }
    ensures kind { IfSome result (λ action. IsOfStage Erasing number action) }
    ensures fits { IfSome result (λ action. number + 1 < 2 ^ 64) }
{
    if number >= texts.len() {
        return None;
    }
    Some(Action::RemoveText(&texts[number]))
}

// What removes a new text that may be written in part.
fn part_at(texts: &[TextFile], number: usize) -> Option<Action<'_>>
    ensures listed { option_map action_of result ≡ slice_get (map removes_part texts.now) number }
    ensures spelled { option_map path_texts result ≡ slice_get (map file_texts texts.now) number }
    ensures kind { IfSome result (λ action. IsOfStage Writing number action) }
    ensures fits { IfSome result (λ action. number + 1 < 2 ^ 64) }
{
    if number >= texts.len() {
        return None;
    }
    Some(Action::RemovePart(number, &texts[number]))
}
