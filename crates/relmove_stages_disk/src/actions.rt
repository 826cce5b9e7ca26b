//! The entries after an action.
ghost use Rattle.std.specs.Prelude.{◌≡◌};
ghost use Rattle.relative_path.specs.RelativePath.{path_text};
ghost use Rattle.relmove_trees.specs.FileTrees.{names_of};
ghost use Rattle.relmove_stages.specs.StageActions.{Clears, Makes, Removes, RemovesPart, Takes, action_of};
ghost use Rattle.relmove_stages_disk.specs.Entries.{entries_tree};
ghost use Rattle.relmove_stages_disk.specs.Acting.{Answers, IsGivenMemory};

use crate::entries::{can_take, copies_of, find_node, has_below, renamed, with_directory, without};
use crate::entry::{Entry, has_part, has_text, is_directory, is_nothing};
use crate::fault::Fault;
use relative_path::RelativePath;
use relmove_journal::TextDigest;
use relmove_stages::Action;
use std::alloc::{AllocError, Global};

// Returns the entries after an action. What is done already stays.
pub(crate) fn entries_after(
    alloc: Global,
    entries: &[Entry],
    action: Action<'_>,
) -> Result<Vec<Entry>, Fault>
    ensures { Answers (action_of action.entry) (entries_tree entries.now) result }
{
    match action {
        Action::Carry(rename) => after_rename(
            alloc,
            entries,
            rename.from.as_str(),
            rename.to.as_str(),
        ),
        Action::Unplace(rename) => after_rename(
            alloc,
            entries,
            rename.to.as_str(),
            rename.from.as_str(),
        ),
        Action::Unstage(rename) => after_rename(
            alloc,
            entries,
            rename.to.as_str(),
            rename.from.as_str(),
        ),
        Action::Make(path) => after_making(alloc, entries, path),
        Action::Unmake(path) => after_clearing(alloc, entries, path),
        Action::RemoveText(text) => after_removal(alloc, entries, text.path.as_str(), &text.digest),
        Action::RemovePart(_, text) => after_part_removal(
            alloc,
            entries,
            text.path.as_str(),
            &text.digest,
        ),
        Action::RemoveEmptied(path) => after_clearing(alloc, entries, path),
    }
}

// Returns copies, if there was memory for them.
fn given_memory(copies: Result<Vec<Entry>, AllocError>) -> Result<Vec<Entry>, Fault>
    ensures { IsGivenMemory copies result }
{
    match copies {
        Ok(copies) => Ok(copies),
        Err(_) => Err(Fault::OutOfMemory),
    }
}

fn after_rename(alloc: Global, entries: &[Entry], from: &str, to: &str) -> Result<Vec<Entry>, Fault>
    ensures { Answers (Takes (names_of from.now) (names_of to.now)) (entries_tree entries.now) result }
{
    let from = RelativePath::new(from);
    let to = RelativePath::new(to);
    if is_nothing(find_node(entries, from)) {
        if is_nothing(find_node(entries, to)) {
            return Err(Fault::Refused);
        }
        return given_memory(copies_of(alloc, entries));
    }
    if to.starts_with(from) {
        return Err(Fault::Refused);
    }
    if !can_take(entries, to) {
        return Err(Fault::Refused);
    }
    given_memory(renamed(alloc, entries, from, to))
}

fn after_making(alloc: Global, entries: &[Entry], path: &str) -> Result<Vec<Entry>, Fault>
    ensures { Answers (Makes (names_of path.now)) (entries_tree entries.now) result }
{
    let path = RelativePath::new(path);
    if is_directory(find_node(entries, path)) {
        return given_memory(copies_of(alloc, entries));
    }
    if !can_take(entries, path) {
        return Err(Fault::Refused);
    }
    given_memory(with_directory(alloc, entries, path))
}

fn after_clearing(alloc: Global, entries: &[Entry], path: &str) -> Result<Vec<Entry>, Fault>
    ensures { Answers (Clears (names_of path.now)) (entries_tree entries.now) result }
{
    let path = RelativePath::new(path);
    if has_below(entries, path) {
        return given_memory(copies_of(alloc, entries));
    }
    if is_nothing(find_node(entries, path)) {
        return given_memory(copies_of(alloc, entries));
    }
    if !is_directory(find_node(entries, path)) {
        return Err(Fault::Refused);
    }
    given_memory(without(alloc, entries, path))
}

fn after_removal(
    alloc: Global,
    entries: &[Entry],
    path: &str,
    digest: &TextDigest,
) -> Result<Vec<Entry>, Fault>
    ensures { Answers (Removes (names_of path.now) digest.now) (entries_tree entries.now) result }
{
    let path = RelativePath::new(path);
    if is_nothing(find_node(entries, path)) {
        return given_memory(copies_of(alloc, entries));
    }
    if !has_text(find_node(entries, path), digest) {
        return Err(Fault::Refused);
    }
    given_memory(without(alloc, entries, path))
}

fn after_part_removal(
    alloc: Global,
    entries: &[Entry],
    path: &str,
    digest: &TextDigest,
) -> Result<Vec<Entry>, Fault>
    ensures { Answers (RemovesPart (names_of path.now) digest.now) (entries_tree entries.now) result }
{
    let path = RelativePath::new(path);
    if is_nothing(find_node(entries, path)) {
        return given_memory(copies_of(alloc, entries));
    }
    if !has_part(find_node(entries, path), digest) {
        return Err(Fault::Refused);
    }
    given_memory(without(alloc, entries, path))
}
