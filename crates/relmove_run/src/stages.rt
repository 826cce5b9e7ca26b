//! The actions of a stage as a list, with the paths of each and the change that it makes.
use relmove_journal::{Stage, Work};
use relmove_stages::{Action, action_at};
use relmove_store::Change;
use std::alloc::{AllocError, Global};

// What a run does in a stage, in this order. At the stage `writing` that is what takes the run back.
//
// Allocates the list.
pub(crate) fn actions_of(
    alloc: Global,
    work: &Work,
    stage: Stage,
) -> Result<Vec<Action<'_>>, AllocError> {
    let mut actions = Vec::new(alloc);
    let mut number = 0;
    while let Some(action) = action_at(work, stage, number) {
        actions.push(action)?;
        number += 1;
    }
    Ok(actions)
}

// The paths of an action that renames something: the one before and the one after.
pub(crate) fn paths_of<'a>(action: Action<'a>) -> Option<(&'a str, &'a str)> {
    match action {
        Action::Carry(rename) => Some((rename.from.as_str(), rename.to.as_str())),
        Action::Unplace(rename) => Some((rename.to.as_str(), rename.from.as_str())),
        Action::Unstage(rename) => Some((rename.to.as_str(), rename.from.as_str())),
        _ => None,
    }
}

// The path that an action changes, or the one before a rename.
pub(crate) fn path_of<'a>(action: Action<'a>) -> &'a str {
    match action {
        Action::Carry(rename) => rename.from.as_str(),
        Action::Unplace(rename) => rename.to.as_str(),
        Action::Unstage(rename) => rename.to.as_str(),
        Action::Make(path) => path,
        Action::Unmake(path) => path,
        Action::RemoveText(text) => text.path.as_str(),
        Action::RemovePart(_, text) => text.path.as_str(),
        Action::RemoveEmptied(path) => path,
    }
}

// The change that an action makes.
//
// Allocates it.
pub(crate) fn change_of(alloc: Global, action: Action<'_>) -> Result<Change, AllocError> {
    if let Some((from, to)) = paths_of(action) {
        return Ok(Change::Rename {
            from: String::from_str(alloc, from)?,
            to: String::from_str(alloc, to)?,
        });
    }
    let path = String::from_str(alloc, path_of(action))?;
    Ok(match action {
        Action::Make(_) => Change::MakeDirectory(path),
        Action::Unmake(_) | Action::RemoveEmptied(_) => Change::RemoveDirectory(path),
        _ => Change::RemoveFile(path),
    })
}
