//! Reads a page again with its edits, before anybody takes it for the page after the moves.
ghost use Rattle.std.specs.Prelude.{◌≡◌, ◌≢◌, ◌↔◌, ◌≤◌, IfNone, IfOk, IfSome, IsNone, IsTrue, false};
ghost use Rattle.std.specs.List.{AllZip, list_any};
ghost use Rattle.relative_path_links.specs.Targets.{HasTarget, HasTargets};
ghost use Rattle.relative_path_links.specs.Edits.{IsSettled, is_new, target_after, targets_after, targets_of};
ghost use Rattle.relative_path_links.specs.Reading.{HasCause, HasText};

use crate::edit::{Edit, edited};
use crate::finder::Finder;
use crate::target::Target;
use std::alloc::{AllocError, Global};

// After so many new targets that were given up one after the other, all others are.
const TRIES: usize = 3;

// The edits of a page, and the page with them if it differs.
#[derive(Drop)]
pub(crate) struct Settled {
    pub(crate) edits: Vec<Edit>,
    pub(crate) text: Option<String>,
}

// Returns the edits with which the page reads as they say, and the page with them. Where it reads otherwise, the
// new target next to the first difference is given up, and then the page is read again.
pub(crate) fn settle<F: Finder>(
    alloc: Global,
    page: &str,
    edits: Vec<Edit>,
    finder: &F,
) -> Result<Settled, AllocError>
    requires { HasTargets page.now 0 (targets_of edits.items) }
    ensures edits { IfOk result (λ settled. AllZip IsSettled edits.items settled.edits.items) }
    ensures cause { IfOk result (λ settled.
        HasCause (F.finds finder.now) page.now edits.items settled.edits.items) }
    ensures text { IfOk result (λ settled.
        HasText (F.finds finder.now) page.now settled.edits.items settled.text) }
{
    let mut settled = edits;
    for _ in 0..=TRIES {
        if !have_new(&settled) {
            return Ok(Settled {
                edits: settled,
                text: None,
            });
        }
        let text = edited(alloc, page, &settled)?;
        if text.as_str() == page {
            return Ok(Settled {
                edits: settled,
                text: None,
            });
        }
        let found = finder.targets(alloc, &text)?;
        let Some(number) = first_difference(page, &settled, &found) else {
            return Ok(Settled {
                edits: settled,
                text: Some(text),
            });
        };
        let near = nearest_new(&settled, number);
        give_up(&mut settled, Some(near));
    }
    give_up(&mut settled, None);
    Ok(Settled {
        edits: settled,
        text: None,
    })
}

// Returns whether a new text takes the place of a target.
fn have_new(edits: &[Edit]) -> bool
    ensures { result ≡ list_any (λ edit. is_new edit.change) edits.now }
{
    edits.iter().any(|edit| edit.is_new())
}

// Returns the number of the first edit whose target isn't found where it stands in the page with the edits. `None` if
// all are found, and nothing else is.
fn first_difference(page: &str, edits: &[Edit], found: &[Target]) -> Option<usize>
    requires { HasTargets page.now 0 (targets_of edits.now) }
    ensures none { IfNone result (found.now ≡ targets_after page.now 0 0 edits.now) }
    ensures some { IfSome result (λ _. found.now ≢ targets_after page.now 0 0 edits.now) }
{
    let (mut at, mut now, mut number) = (0usize, 0usize, 0usize);
    let (mut rest, mut left) = (edits, found);
    while let Some((edit, edits)) = rest.split_first() {
        let Some((target, found)) = left.split_first() else {
            return Some(number);
        };
        if !stands_at(page, edit, at, now, *target) {
            return Some(number);
        }
        (at, now) = (edit.target.end, target.end);
        (rest, left) = (edits, found);
        number = number.saturating_add(1);
    }
    if left.is_empty() { None } else { Some(number) }
}

// Returns whether this target is that of the edit, where it stands in the page with the edits.
fn stands_at(page: &str, edit: &Edit, at: usize, now: usize, target: Target) -> bool
    requires after { at ≤ edit.now.target.start }
    requires has { HasTarget page.now edit.now.target }
    ensures { IsTrue result ↔ (target ≡ target_after page.now at now edit.now) }
{
    target.syntax == edit.target.syntax
        && now <= target.start
        && target.start - now == edit.target.start - at
        && target.start <= target.end
        && target.end - target.start == edit.text(page).len()
}

// Returns the number of the last new target up to this number. If there is none, that of the first new target.
fn nearest_new(edits: &[Edit], number: usize) -> usize {
    let mut nearest = None;
    for (k, edit) in edits.iter().enumerate() {
        if edit.is_new() && (k <= number || nearest.is_none()) {
            nearest = Some(k);
        }
    }
    nearest.unwrap_or(0)
}

// Gives up the new target of a number, or all of them.
fn give_up(edits: &mut [Edit], number: Option<usize>)
    ensures settled { AllZip IsSettled edits.old edits.new }
    ensures all { IsNone number → list_any (λ edit. is_new edit.change) edits.new ≡ false }
{
    for (k, edit) in edits.iter_mut().enumerate() {
        edit.give_up(is_one(number, k));
    }
}

// Returns whether a number is the one that is asked for, if one is.
fn is_one(asked: Option<usize>, number: usize) -> bool
    ensures { IsNone asked → IsTrue result }
{
    match asked {
        Some(asked) => asked == number,
        None => true,
    }
}
